//! Whether a C header lacks the definition of an entry.
//!
//! The header's lines are gathered once into a set that borrows them. Each definition is written aside and looked up there.
ghost use Rattle.std.specs.Prelude.{◌≡◌, ℕ, List, IfOk, bytes_eq};
ghost use Rattle.indexmap.specs.IndexSet.{contains_by};
ghost use Rattle.ks_symbols.specs.Lines.{lines};
ghost use Rattle.ks_hidden.specs.HeaderLines.{kind_for, definition, has_line, lacks};

use crate::header_lines::append_definition;
use bstr::ByteSlice;
use indexmap::IndexSet;
use ks_output::OldConfig;
use ks_symbols::{Class, Seed};
use std::alloc::{AllocError, Global};

/// The lines of a header, each once.
fn line_set<'a>(
    alloc: Global,
    seed: Seed,
    header: &'a [u8],
) -> Result<IndexSet<&'a [u8], Seed>, AllocError>
    ensures { IfOk result (λ held. (line : List ℕ) → contains_by (λ l. bytes_eq line l.now) held ≡ has_line (lines header.now) line) }
{
    let mut held = IndexSet::with_hasher(alloc, seed);
    for line in header.lines() {
        held.insert(line)?;
    }
    Ok(held)
}

/// Whether the definition of an entry is one of the lines.
fn is_defined(
    held: &IndexSet<&[u8], Seed>,
    name: &[u8],
    class: Class,
    text: &[u8],
    aside: &mut Vec<u8>,
) -> Result<bool, AllocError>
    ensures { IfOk result (λ yes. yes ≡ contains_by (λ l. bytes_eq (definition name.now (kind_for class) text.now) l.now) held.now) }
{
    aside.clear();
    append_definition(name, class, text, aside)?;
    Ok(held.contains(aside.as_slice()))
}

/// Whether the definition of some entry is no line of the header. Of an entry without a class nobody knows the definition.
pub fn lacks_definition(
    alloc: Global,
    seed: Seed,
    config: &OldConfig,
    header: &[u8],
) -> Result<bool, AllocError>
    ensures { IfOk result (λ lacking. lacking ≡ lacks config.now.texts header.now) }
{
    let held = line_set(alloc, seed, header)?;
    let mut aside = Vec::new(alloc);
    for (name, class, text) in config.entries() {
        let Some(class) = class else {
            return Ok(true);
        };
        if !is_defined(&held, name, class, text, &mut aside)? {
            return Ok(true);
        }
    }
    Ok(false)
}
