//! The calls of the system, and a tree over them that is honest where they are.
#![tactic(auto)]

mod disk;
mod disk_files;
mod errors;
mod folder_tree;
mod fs_error;
mod held;
mod host;
mod kept_file;
mod new_file;
mod reading;
mod system;
mod system_tree;

pub use disk::{DiskHandle, MockDisk, Turn};
pub use errors::Meaning;
pub use folder_tree::FolderTree;
pub use fs_error::{FsError, reason_of};
pub use host::{Claim, Host};
pub use system::{Kind, Look, System};
pub use system_tree::SystemTree;
