//! What the arguments mean: a request of ks_requests, or what `clap` says in its place. It performs
//! nothing and knows no files, so it is proved beside ks_commands, and no other crate needs the rules of `clap`.
#![tactic(auto)]

mod args;
mod command_line;
mod help_text;
mod laws;
mod usage;

pub use args::{WordsError, request_of};
pub use help_text::{HelpText, print_help};
pub use laws::{batch_args, preview_args};
