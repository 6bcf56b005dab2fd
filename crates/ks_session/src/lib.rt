//! How a command comes to its directory: what stands in front of it, the lock that it needs, and whether numbers would be lost. All
//! of it is decided over any system that answers a few calls, so that it is proved without one; the program gives its own.
#![tactic(auto)]

mod directory;
mod global_options;
mod lock;
mod numbers;
mod start;

pub use directory::below;
pub use global_options::{ArgError, CommandArgs, Settings, parse_global_options};
pub use lock::{DirectoryLock, FoundFile, lock_needed, script_of};
pub use numbers::{begins_anew, holds_number, is_another_tree};
pub use start::{Host, Loss, Ready, Stop, enter_directory};
