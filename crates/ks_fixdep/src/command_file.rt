//! Command files: how an object was built, from what, and by which names. An object that is called fresh is called so by its
//! command file, so a damaged one is refused with its first line that does not fit, and never read as if it held less.
//! The layout is that of scripts/basic/fixdep.c; the prefix `savedcmd_`, the line of the generation and the limits of paths and
//! names are this project's own. Command files of any other layout are left out.
ghost use Rattle.std.specs.Prelude.{◌≡◌};
ghost use Rattle.ks_fixdep.specs.CommandFile.{is_command, is_command_byte};
ghost use Rattle.ks_fixdep.specs.declared.command_file.CommandError.TheVariants.{OutOfMemory};

mod borrowed;
mod laws;
mod layout;
mod own_lines;
mod owning;
mod reading;
mod writing;

pub use borrowed::{BorrowedCommand, BorrowedDep, BorrowedName};
use ks_symbols::{Name, Path};
pub use laws::{command_examples, command_files_fit, command_texts_read_back};
pub use own_lines::{further_lines_are_read, push_elsewhere_lines, push_own_lines};
pub(crate) use reading::own_record_in;
pub use reading::{borrow_command, read_command};
use std::alloc::AllocError;
use thiserror::Error;
pub use writing::write_command;
pub(crate) use writing::{push_back, push_file, push_front, push_name};

/// A prerequisite that stands on a line of its own, or a name that was found in one.
#[derive(Drop)]
pub enum Dep {
    File(Path),
    Config(Name),
}

/// What a command file says. Its dependencies stand in the order of their lines.
#[derive(Drop)]
pub struct CommandFile {
    pub target: Path,
    pub command: Vec<u8>,
    pub source: Path,
    pub deps: Vec<Dep>,
    /// The generation of the configuration that the object was recorded under. `fixdep` alone writes none.
    pub generation: Option<u64>,
}

/// The refusal of a command file.
#[derive(Clone, Copy, Debug, PartialEq, Eq, Drop, Error)]
pub enum CommandError {
    /// The first line that does not fit, or the first that is missing, counted from 1.
    #[error("23 BadCommandFile line {0}")]
    BadCommandFile(u64),
    #[error("9 TooLarge")]
    TooLarge,
    #[error("10 OutOfMemory")]
    OutOfMemory,
}

impl From<AllocError> for CommandError {
    ghost from_gives = { λ _ e. e ≡ OutOfMemory };

    fn from(_e: AllocError) -> CommandError {
        CommandError::OutOfMemory
    }
}

fn is_command_byte(byte: u8) -> bool
    ensures { result ≡ is_command_byte byte }
{
    byte != b'\n' && byte != b'\r' && byte != b'\0'
}

/// Whether the bytes can be saved as a command: no line feed, carriage return or NUL.
#[tactic(auto, unfolding(crate::specs::CommandFile::is_command))]
pub fn command_is_legal(command: &[u8]) -> bool
    ensures { result ≡ is_command command.now }
{
    command.iter().all(|byte| is_command_byte(*byte))
}
