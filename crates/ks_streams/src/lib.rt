//! The streams of the program: what the calls of a system's writer answer, and how a whole text goes out by calls that may take
//! a part, be interrupted or fail.
#![tactic(auto)]

mod notes;
mod scripted;
mod stream;
mod write_error;
mod writer;

pub use notes::Notes;
pub use scripted::{Scripted, Step};
pub use stream::Stream;
pub use write_error::WriteError;
pub use writer::Writer;
