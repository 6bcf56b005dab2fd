//! Why a dependency file is refused, or the record of an object.
ghost use Rattle.std.specs.Prelude.{◌≡◌};
ghost use Rattle.ks_fixdep.specs.declared.dep_error.DepError.TheVariants.{OutOfMemory};

use std::alloc::AllocError;
use thiserror::Error;

/// A refusal of `read_depfile`, `build` or `build_from`. A token has its number from 1, and an argument the number 0.
#[derive(Clone, Copy, Debug, PartialEq, Eq, Drop, Error)]
pub enum DepError {
    #[error("20 NoTarget")]
    NoTarget,
    #[error("21 BadPath token {0}")]
    BadPath(u64),
    #[error("22 BadCommand")]
    BadCommand,
    #[error("9 TooLarge")]
    TooLarge,
    #[error("10 OutOfMemory")]
    OutOfMemory,
}

impl From<AllocError> for DepError {
    ghost from_gives = { λ _ e. e ≡ OutOfMemory };

    fn from(_e: AllocError) -> DepError {
        DepError::OutOfMemory
    }
}
