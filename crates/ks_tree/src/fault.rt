//! Why a tree gave no answer, and why a stamp was not read.
ghost use Rattle.std.specs.Prelude.{◌≡◌};

use ks_symbols::Name;
use std::alloc::{AllocError, AllocFailed};
use std::fmt;
use thiserror::Error;

/// Why a call of a tree failed.
#[derive(Clone, Copy, Debug, PartialEq, Eq, Drop, Error)]
pub enum TreeFault {
    /// The file has more bytes than are read.
    #[error("9 TooLarge")]
    TooLarge,
    #[error("10 OutOfMemory")]
    OutOfMemory,
    /// The device failed, and the tree counted it.
    #[error("30 Device")]
    Device,
}

impl From<AllocError> for TreeFault {
    ghost use Rattle.ks_tree.specs.declared.fault.TreeFault.TheVariants.{OutOfMemory};

    ghost from_gives = { λ _ e. e ≡ OutOfMemory };

    fn from(_: AllocError) -> TreeFault {
        TreeFault::OutOfMemory
    }
}

impl<T: Drop> From<AllocFailed<T>> for TreeFault {
    ghost use Rattle.ks_tree.specs.declared.fault.TreeFault.TheVariants.{OutOfMemory};

    ghost from_gives = { λ _ e. e ≡ OutOfMemory };

    fn from(_: AllocFailed<T>) -> TreeFault {
        TreeFault::OutOfMemory
    }
}

/// Why a stamp was not read.
#[derive(Drop, Error)]
pub enum TreeError {
    #[error("9 TooLarge")]
    TooLarge,
    #[error("10 OutOfMemory")]
    OutOfMemory,
    #[error("30 Device")]
    Device,
    /// The stamp of this name holds no number.
    #[error("31 BadStamp {}", shown(.0))]
    BadStamp(Name),
}

/// A name as text, which it is: its bytes are ASCII.
fn shown(name: &Name) -> &str {
    str::from_utf8(name.as_bytes()).unwrap_or_default()
}

impl fmt::Debug for TreeError {
    fn fmt<W: fmt::Write>(&self, f: &mut fmt::Formatter<W>) -> fmt::Result {
        fmt::Display::fmt(self, f)
    }
}

impl From<AllocError> for TreeError {
    ghost use Rattle.ks_tree.specs.declared.fault.TreeError.TheVariants.{OutOfMemory};

    ghost from_gives = { λ _ e. e ≡ OutOfMemory };

    fn from(_: AllocError) -> TreeError {
        TreeError::OutOfMemory
    }
}

impl From<TreeFault> for TreeError {
    ghost use Rattle.ks_tree.specs.Faults.{error_of};

    ghost from_gives = { λ fault e. e ≡ error_of fault };

    fn from(fault: TreeFault) -> TreeError {
        match fault {
            TreeFault::TooLarge => TreeError::TooLarge,
            TreeFault::OutOfMemory => TreeError::OutOfMemory,
            TreeFault::Device => TreeError::Device,
        }
    }
}
