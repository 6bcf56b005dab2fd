//! The texts of the questions by symbol: which objects name one, and what each costs.
//!
//! A symbol is asked for by its name or as it stands in a source, with `CONFIG_` in front. A word that is no name is asked for as
//! it is: no command file names it.
ghost use Rattle.std.specs.Prelude.{◌≡◌, ◌++◌, IfOk, OnOk, map, string_bytes};
ghost use Rattle.ks_engine.specs.Costs.{seen_cost};
ghost use Rattle.ks_requests.specs.Faults.{counted};
ghost use Rattle.ks_requests.specs.Symbols.{cost_line, symbol_of, symbols_of, unrecorded_line, use_line};

use itoa::Buffer;
use ks_engine::Cost;
use std::alloc::{AllocError, Global};

/// The symbol that a word asks for.
fn symbol_of(word: &[u8]) -> &[u8]
    ensures { result.now ≡ symbol_of word.now }
{
    word.strip_prefix(b"CONFIG_").unwrap_or(word)
}

/// The symbols that arguments ask for, in their order. They borrow the arguments.
pub fn symbols_of<'a>(alloc: Global, args: &'a [String]) -> Result<Vec<&'a [u8]>, AllocError>
    ensures { IfOk result (λ symbols. map (λ s. s.now) symbols.items ≡ symbols_of args.now) }
{
    let mut symbols = Vec::with_capacity(alloc, args.len())?;
    for word in args {
        symbols.push(symbol_of(word.as_bytes()))?;
    }
    Ok(symbols)
}

/// Appends `TARGET NAME PLACE`: the object names the symbol, and this file brought it in.
#[tactic(auto, unfolding(crate::specs::Symbols::use_line))]
pub fn write_use(
    target: &[u8],
    name: &[u8],
    place: &[u8],
    text: &mut Vec<u8>,
) -> Result<(), AllocError>
    ensures { OnOk result (text.new.items ≡ text.old.items ++ use_line target.now (name.now, place.now)) }
{
    text.extend_from_slice(target)?;
    text.extend_from_slice(b" ")?;
    text.extend_from_slice(name)?;
    text.extend_from_slice(b" ")?;
    text.extend_from_slice(place)?;
    text.extend_from_slice(b"\n")
}

/// Appends `TARGET no-command-file`: nothing is known of its names.
#[tactic(auto, unfolding(crate::specs::Symbols::unrecorded_line))]
pub fn write_unrecorded(target: &[u8], text: &mut Vec<u8>) -> Result<(), AllocError>
    ensures { OnOk result (text.new.items ≡ text.old.items ++ unrecorded_line target.now) }
{
    text.extend_from_slice(target)?;
    text.extend_from_slice(b" no-command-file\n")
}

/// Appends `NAME N`.
#[tactic(auto, unfolding(crate::specs::Symbols::cost_line, crate::specs::Faults::counted))]
pub fn write_cost(cost: &Cost<'_>, text: &mut Vec<u8>) -> Result<(), AllocError>
    ensures { OnOk result (text.new.items ≡ text.old.items ++ cost_line (seen_cost cost.now)) }
{
    text.extend_from_slice(cost.name)?;
    text.extend_from_slice(b" ")?;
    text.extend_from_slice(Buffer::new().format(cost.count as u64).as_bytes())?;
    text.extend_from_slice(b"\n")
}
