//! Why nothing was read, and what the system said of a failure, for the user: no clause speaks of that. Without it `30 Device` would
//! leave the user to guess which file it was, and why.
ghost use Rattle.std.specs.Prelude.{◌≡◌, IfSome, string_bytes};

use std::alloc::{AllocError, AllocFailed, Global};
use std::io;

/// Why a file was not read.
#[derive(Drop)]
pub(crate) enum ReadError {
    TooLarge,
    OutOfMemory,
    System(io::Error),
}

impl From<AllocError> for ReadError {
    ghost use Rattle.ks_system.specs.declared.fs_error.ReadError.TheVariants.{OutOfMemory};

    ghost from_gives = { λ _ e. e ≡ OutOfMemory };

    fn from(_: AllocError) -> ReadError {
        ReadError::OutOfMemory
    }
}

impl<T: Drop> From<AllocFailed<T>> for ReadError {
    ghost use Rattle.ks_system.specs.declared.fs_error.ReadError.TheVariants.{OutOfMemory};

    ghost from_gives = { λ _ e. e ≡ OutOfMemory };

    fn from(_: AllocFailed<T>) -> ReadError {
        ReadError::OutOfMemory
    }
}

impl From<io::Error> for ReadError {
    ghost use Rattle.ks_system.specs.declared.fs_error.ReadError.TheVariants.{System};

    ghost from_gives = { λ error e. e ≡ System error };

    fn from(error: io::Error) -> ReadError {
        ReadError::System(error)
    }
}

/// A failure of the system: at which path of the tree, and why.
#[derive(Drop)]
pub struct FsError {
    path: String,
    error: io::Error,
}

/// What stands after the system's words in the text of an error.
const NUMBER: &str = " (os error ";

impl FsError {
    /// The failure at a path, or `None` where memory is refused for it or the path isn't text.
    pub fn new(alloc: Global, path: &[u8], error: &io::Error) -> Option<FsError>
        ensures { IfSome result (λ fault. string_bytes fault.path ≡ path.now) }
    {
        let path = str::from_utf8(path).ok()?;
        Some(FsError {
            path: String::from_str(alloc, path).ok()?,
            error: *error,
        })
    }

    /// The path and the reason, in the system's words: `a/b.h: Permission denied`.
    pub fn describe(&self, alloc: Global) -> Result<String, AllocError> {
        let path = self.path.as_str();
        let reason = reason_of(alloc, &self.error)?;
        format!(in alloc; "{path}: {reason}")
    }
}

/// The reason of a failure, in the system's words: `Permission denied`.
pub fn reason_of(alloc: Global, error: &io::Error) -> Result<String, AllocError> {
    let words = format!(in alloc; "{error}")?;
    String::from_str(alloc, without_number(words.as_str()))
}

/// The text of an error without the system's number for it.
fn without_number(words: &str) -> &str {
    match words.split_once(NUMBER) {
        Some((reason, _)) => reason,
        None => words,
    }
}
