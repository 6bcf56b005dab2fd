//! A file with a name on each line, as a list of stamps is. A line that is no name is refused, whatever stands there: no path is
//! made of it.
ghost use Rattle.std.specs.Prelude.{IsErrOf};
ghost use Rattle.ks_engine.specs.Refusals.{Answers};
ghost use Rattle.ks_requests.specs.NameLists.{names_in};

use bstr::ByteSlice;
use ks_engine::EngineError;
use ks_symbols::{Name, SourceError, name_is_legal};
use std::alloc::Global;

/// The names, in their order.
#[tactic(auto, unfolding(crate::specs::NameLists::names_in))]
pub fn names_in(alloc: Global, text: &[u8]) -> Result<Vec<Name>, EngineError>
    ensures names { Answers (names_in text.now) (λ v. v.items) result }
    ensures no_device { IsErrOf result EngineError.Device → ⊥ }
{
    let mut names: Vec<Name> = Vec::new(alloc);
    for line in text.lines() {
        if !name_is_legal(line) {
            let before = names.len() as u64;
            return Err(EngineError::Source(SourceError::BadName(before + 1)));
        }
        names.push(Name::new(alloc, line)?)?;
    }
    Ok(names)
}
