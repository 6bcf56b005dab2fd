//! Trees of files, replacing files in them, and the stamps of names.
#![tactic(auto)]

mod backdated;
mod backdating;
mod fault;
mod fuse;
mod memory;
mod missing_stamps;
mod paths;
mod replacement;
mod stamps;
mod tree;

pub use backdated::BackdatingTree;
pub use backdating::Backdating;
pub use fault::{TreeError, TreeFault};
pub use fuse::{FuseMode, FuseTree};
pub use memory::{FilesIter, MemoryTree};
pub use missing_stamps::make_stamps;
pub use paths::{
    auto_path, auto_temporary, command_path, command_temporary, header_path, header_temporary,
    paths_never_meet, stamp_path, stamp_temporary,
};
pub use replacement::replace;
pub use stamps::{read_stamp, touch, touch_all};
pub use tree::Tree;
