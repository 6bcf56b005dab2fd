//! Why a script is refused.
ghost use Rattle.std.specs.Prelude.{◌≡◌};
ghost use Rattle.ks_requests.specs.declared.script_error.ScriptError.TheVariants.{OutOfMemory};

use std::alloc::AllocFailed;
use thiserror::Error;

/// The refusal of a script, with the number of its line.
#[derive(Clone, Copy, Debug, PartialEq, Eq, Drop, Error)]
pub enum ScriptError {
    #[error("50 BadScript line {0}")]
    BadScript(u64),
    #[error("9 TooLarge")]
    TooLarge,
    #[error("10 OutOfMemory")]
    OutOfMemory,
}

impl<T: Drop> From<AllocFailed<T>> for ScriptError {
    ghost from_gives = { λ _ e. e ≡ OutOfMemory };

    fn from(_e: AllocFailed<T>) -> ScriptError {
        ScriptError::OutOfMemory
    }
}
