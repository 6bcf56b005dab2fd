//! What an error of the system says: the one table by which errors are distinguished. A build that takes a file that it may not read
//! for a missing one would call objects fresh, and so would one that takes an interrupted read for the end.
ghost use Rattle.std.specs.Prelude.{◌≡◌, ◌↔◌, ℕ, Ok, Err, IfErr, IfOk, IsTrue, MatchOption};
ghost use Rattle.ks_system.specs.Errors.{Says, found_of, meaning_of};
ghost use Rattle.ks_system.specs.System.{Counts, CountsBut};
ghost use Rattle.ks_system.specs.declared.errors.Meaning.{Meaning};

use std::io;
use std::io::ErrorKind;

/// What an error says.
#[derive(Clone, Copy, Debug, PartialEq, Eq)]
pub enum Meaning {
    /// There is no such file, or no directory for it.
    Missing,
    /// Something stands there.
    Stands,
    /// Nothing was done, and the call can be made again.
    Interrupted,
    /// The system failed.
    Failed,
}

/// The meaning of an error.
pub(crate) fn meaning_of(error: &io::Error) -> Meaning
    ensures { result ≡ meaning_of error.now }
{
    match error.kind() {
        ErrorKind::NotFound => Meaning::Missing,
        ErrorKind::AlreadyExists => Meaning::Stands,
        ErrorKind::Interrupted => Meaning::Interrupted,
        _ => Meaning::Failed,
    }
}

/// What a look-up found: `None` where the system says that there is no such file, and for no other error.
pub(crate) fn found_of<V: Drop>(outcome: io::Result<V>) -> io::Result<Option<V>>
    ensures found { result ≡ found_of outcome }
    ensures value { IfOk result (λ found. MatchOption found (Says Meaning.Missing outcome) (λ v. outcome ≡ Ok v)) }
    ensures error { IfErr result (λ e. outcome ≡ Err e) }
    ensures faults { (before now : ℕ) → CountsBut Meaning.Missing outcome before now → Counts result before now }
{
    match outcome {
        Ok(value) => Ok(Some(value)),
        Err(error) if meaning_of(&error) == Meaning::Missing => Ok(None),
        Err(error) => Err(error),
    }
}
