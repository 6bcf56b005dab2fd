//! Why a command was refused as a whole. The texts that users see stand in `faults.rt`.
ghost use Rattle.std.specs.Prelude.{◌≡◌};
ghost use Rattle.ks_engine.specs.declared.error.EngineError.TheVariants.{OutOfMemory};
ghost use Rattle.ks_requests.specs.Refusals.{of_script};
ghost use Rattle.ks_requests.specs.declared.refusal.Refusal.TheVariants.{Engine};

use crate::script_error::ScriptError;
use ks_engine::EngineError;
use ks_hidden::Hidden;
use std::alloc::{AllocError, AllocFailed};

/// Why a command was refused as a whole.
#[derive(Debug, Drop)]
pub enum Refusal {
    /// A word, a file, its text or the tree, under the engine's numbers 1 to 42.
    Engine(EngineError),
    /// An object may depend on more than names, under the numbers 24 to 27.
    Hidden(Hidden),
    /// The line of a script that is no command.
    BadScript(u64),
    /// The output failed; a beginning of the text may be out.
    Output,
}

impl From<EngineError> for Refusal {
    ghost from_gives = { λ e r. r ≡ Engine e };

    fn from(error: EngineError) -> Refusal {
        Refusal::Engine(error)
    }
}

impl From<ScriptError> for Refusal {
    ghost from_gives = { λ e r. r ≡ of_script e };

    fn from(error: ScriptError) -> Refusal {
        match error {
            ScriptError::BadScript(line) => Refusal::BadScript(line),
            ScriptError::TooLarge => Refusal::Engine(EngineError::TooLarge),
            ScriptError::OutOfMemory => Refusal::Engine(EngineError::OutOfMemory),
        }
    }
}

impl<T: Drop> From<AllocFailed<T>> for Refusal {
    ghost from_gives = { λ _ r. r ≡ Engine OutOfMemory };

    fn from(_error: AllocFailed<T>) -> Refusal {
        Refusal::Engine(EngineError::OutOfMemory)
    }
}

impl From<AllocError> for Refusal {
    ghost from_gives = { λ _ r. r ≡ Engine OutOfMemory };

    fn from(_error: AllocError) -> Refusal {
        Refusal::Engine(EngineError::OutOfMemory)
    }
}
