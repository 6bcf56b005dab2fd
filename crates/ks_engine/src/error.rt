//! Why a call of the engine was refused. The refusals of the layers below are passed on under their numbers; want of memory and
//! files that are too large have one member each, whichever layer met them.
ghost use Rattle.std.specs.Prelude.{◌≡◌};
ghost use Rattle.ks_engine.specs.declared.error.EngineError.TheVariants.{OutOfMemory};
ghost use Rattle.ks_engine.specs.Refusals.{of_source, of_auto, of_written, of_command, of_dep, of_tree, of_stamp};

use ks_fixdep::{CommandError, DepError};
use ks_output::{AutoError, WrittenError};
use ks_symbols::{Name, Path, SourceError};
use ks_tree::{TreeError, TreeFault};
use std::alloc::{AllocError, AllocFailed};
use std::fmt;
use thiserror::Error;

/// Why a call was refused.
#[derive(Drop, Error)]
pub enum EngineError {
    /// A faulty line of Kconfig or `.config`.
    #[error(transparent)]
    Source(SourceError),
    /// A faulty line of what conf wrote.
    #[error(transparent)]
    Written(WrittenError),
    #[error("9 TooLarge")]
    TooLarge,
    #[error("10 OutOfMemory")]
    OutOfMemory,
    #[error("11 BadAuto line {0}")]
    BadAuto(u64),
    #[error("20 NoTarget")]
    NoTarget,
    /// A token of the dependency file, or 0 for a path that was handed in.
    #[error("21 BadPath token {0}")]
    BadPath(u64),
    #[error("22 BadCommand")]
    BadCommand,
    #[error("23 BadCommandFile line {0}")]
    BadCommandFile(u64),
    /// The device failed, and the tree counted it.
    #[error("30 Device")]
    Device,
    #[error("31 BadStamp {}", shown(.0.as_bytes()))]
    BadStamp(Name),
    #[error("40 MissingFile {}", shown(.0.as_bytes()))]
    MissingFile(Path),
    /// There is no auto.conf of a completed synchronisation.
    #[error("41 NeverSynced")]
    NeverSynced,
    /// The generation can't be raised any more.
    #[error("42 GenerationFull")]
    GenerationFull,
}

/// The bytes of a name or a path as text, which they are: both are ASCII.
fn shown(bytes: &[u8]) -> &str {
    str::from_utf8(bytes).unwrap_or_default()
}

impl fmt::Debug for EngineError {
    fn fmt<W: fmt::Write>(&self, f: &mut fmt::Formatter<W>) -> fmt::Result {
        fmt::Display::fmt(self, f)
    }
}

impl From<SourceError> for EngineError {
    ghost from_gives = { λ error e. e ≡ of_source error };

    fn from(error: SourceError) -> EngineError {
        match error {
            SourceError::TooLarge => EngineError::TooLarge,
            SourceError::OutOfMemory => EngineError::OutOfMemory,
            other => EngineError::Source(other),
        }
    }
}

impl From<AutoError> for EngineError {
    ghost from_gives = { λ error e. e ≡ of_auto error };

    fn from(error: AutoError) -> EngineError {
        match error {
            AutoError::BadAuto(line) => EngineError::BadAuto(line),
            AutoError::TooLarge => EngineError::TooLarge,
            AutoError::OutOfMemory => EngineError::OutOfMemory,
        }
    }
}

impl From<WrittenError> for EngineError {
    ghost from_gives = { λ error e. e ≡ of_written error };

    fn from(error: WrittenError) -> EngineError {
        match error {
            WrittenError::TooLarge => EngineError::TooLarge,
            WrittenError::OutOfMemory => EngineError::OutOfMemory,
            other => EngineError::Written(other),
        }
    }
}

impl From<CommandError> for EngineError {
    ghost from_gives = { λ error e. e ≡ of_command error };

    fn from(error: CommandError) -> EngineError {
        match error {
            CommandError::BadCommandFile(line) => EngineError::BadCommandFile(line),
            CommandError::TooLarge => EngineError::TooLarge,
            CommandError::OutOfMemory => EngineError::OutOfMemory,
        }
    }
}

impl From<DepError> for EngineError {
    ghost from_gives = { λ error e. e ≡ of_dep error };

    fn from(error: DepError) -> EngineError {
        match error {
            DepError::NoTarget => EngineError::NoTarget,
            DepError::BadPath(token) => EngineError::BadPath(token),
            DepError::BadCommand => EngineError::BadCommand,
            DepError::TooLarge => EngineError::TooLarge,
            DepError::OutOfMemory => EngineError::OutOfMemory,
        }
    }
}

impl From<TreeFault> for EngineError {
    ghost from_gives = { λ fault e. e ≡ of_tree fault };

    fn from(fault: TreeFault) -> EngineError {
        match fault {
            TreeFault::TooLarge => EngineError::TooLarge,
            TreeFault::OutOfMemory => EngineError::OutOfMemory,
            TreeFault::Device => EngineError::Device,
        }
    }
}

impl From<TreeError> for EngineError {
    ghost from_gives = { λ error e. e ≡ of_stamp error };

    fn from(error: TreeError) -> EngineError {
        match error {
            TreeError::TooLarge => EngineError::TooLarge,
            TreeError::OutOfMemory => EngineError::OutOfMemory,
            TreeError::Device => EngineError::Device,
            TreeError::BadStamp(name) => EngineError::BadStamp(name),
        }
    }
}

impl From<AllocError> for EngineError {
    ghost from_gives = { λ _ e. e ≡ OutOfMemory };

    fn from(_: AllocError) -> EngineError {
        EngineError::OutOfMemory
    }
}

impl<T: Drop> From<AllocFailed<T>> for EngineError {
    ghost from_gives = { λ _ e. e ≡ OutOfMemory };

    fn from(_: AllocFailed<T>) -> EngineError {
        EngineError::OutOfMemory
    }
}
