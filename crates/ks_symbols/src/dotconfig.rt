//! Reading a `.config`: what it sets the declared symbols to.
//!
//! The last line about a symbol counts, as in scripts/kconfig/confdata.c. A line that means nothing is refused
//! with its number, where the kernel's tool warns: a misspelt line would otherwise be a symbol that is off.
//! Lines about names that are not declared are skipped and counted.
ghost use Rattle.std.specs.Prelude.{◌≡◌, ◌≢◌, ◌+◌, ◌^◌, ◌<◌, ◌≤◌, ℕ, List, Option, None, Some, cond, bytes_eq, OnOk, IfOk, IsErrOf, false, length, slice_get, if◌then◌else◌};
ghost use Rattle.std.specs.FinMap as map;
ghost use Rattle.ks_symbols.specs.Lines.{lines, max_bytes};
ghost use Rattle.ks_symbols.specs.Values.{text_of};
ghost use Rattle.ks_symbols.specs.Configuration.{IsConfiguration};
ghost use Rattle.ks_symbols.specs.Statements.{statement, seen_statement, name_of};
ghost use Rattle.ks_symbols.specs.DotConfig.{entry_with, gives, value_fault, is_of_unknown, fault_of_statement, setting, unknown_count, dotconfig_refusal};
ghost use Rattle.ks_symbols.specs.Refusals.{RefusedBy};
ghost use Rattle.ks_symbols.specs.Settling.{after_statement};

use crate::error::SourceError;
use crate::kinds::Kind;
use crate::limits::MAX_BYTES;
use crate::settings::{Settings, SettingsBuilder};
use crate::statements::{Statement, is_comment_or_blank, parse_statement};
use crate::symbols::Symbols;
use crate::values::is_value;
use crate::written_values::WrittenValues;
use bstr::ByteSlice;
use std::alloc::Global;

/// Takes in a value of the declared symbol at a place.
fn assign<'a>(
    alloc: Global,
    settings: &mut WrittenValues<'a>,
    number: u64,
    index: usize,
    kind: Kind,
    written: &'a [u8],
) -> Result<(), SourceError>
    ensures entries { OnOk result ((name x : List ℕ) → slice_get (map.entries settings.old.kinds) index ≡ Some (name, kind) → map.get settings.new.entries x
        ≡ cond (bytes_eq name x) (entry_with kind (text_of kind written.now)) (map.get settings.old.entries x)) }
    ensures kinds { OnOk result (settings.new.kinds ≡ settings.old.kinds) }
    ensures unknown { OnOk result (settings.new.unknown ≡ settings.old.unknown) }
    ensures refusal { RefusedBy SourceError.OutOfMemory result (value_fault number written.now (Some kind)) }
    ensures memory { IsErrOf result SourceError.OutOfMemory → kind ≡ Kind.Text }
{
    if !is_value(alloc, kind, written)? {
        return Err(SourceError::BadValue(number));
    }
    settings.note(index, Some(written));
    Ok(())
}

/// Takes in what a line says of the declared symbol at a place.
fn take<'a>(
    alloc: Global,
    settings: &mut WrittenValues<'a>,
    number: u64,
    index: usize,
    kind: Kind,
    stated: Statement<'a>,
) -> Result<(), SourceError>
    ensures entries { OnOk result ((x : List ℕ) → slice_get (map.entries settings.old.kinds) index ≡ Some (name_of (seen_statement stated.entry), kind)
        → map.get settings.new.entries x
        ≡ cond (bytes_eq (name_of (seen_statement stated.entry)) x) (gives kind (Some (seen_statement stated.entry))) (map.get settings.old.entries x)) }
    ensures kinds { OnOk result (settings.new.kinds ≡ settings.old.kinds) }
    ensures unknown { OnOk result (settings.new.unknown ≡ settings.old.unknown) }
    ensures refusal { (kinds : List ℕ → Option Kind) (line : List ℕ) → kinds (name_of (seen_statement stated.entry)) ≡ Some kind
        → RefusedBy SourceError.OutOfMemory result (fault_of_statement kinds number line (Some (seen_statement stated.entry))) }
{
    match stated {
        Statement::Unsets(_) => {
            settings.note(index, None);
            Ok(())
        }
        Statement::Assigns(_, written) => assign(alloc, settings, number, index, kind, written),
    }
}

/// Takes in the line of a number.
fn apply<'a>(
    alloc: Global,
    settings: &mut WrittenValues<'a>,
    number: u64,
    line: &'a [u8],
) -> Result<(), SourceError>
    requires { settings.old.unknown < 2 ^ 63 }
    ensures entries { OnOk result ((x : List ℕ) → map.get settings.new.entries x ≡ after_statement (map.get settings.old.kinds x) x (statement line.now)
        (map.get settings.old.entries x)) }
    ensures kinds { OnOk result (settings.new.kinds ≡ settings.old.kinds) }
    ensures unknown { OnOk result (settings.new.unknown ≡ settings.old.unknown
        + (if is_of_unknown (map.get settings.old.kinds) (statement line.now) then 1 else 0)) }
    ensures refusal { RefusedBy SourceError.OutOfMemory result (fault_of_statement (map.get settings.old.kinds) number line.now (statement line.now)) }
    ensures memory { IsErrOf result SourceError.OutOfMemory → (statement line.now ≢ None) × (is_of_unknown (map.get settings.old.kinds) (statement line.now) ≡ false) }
{
    let Some(stated) = parse_statement(line) else {
        return if is_comment_or_blank(line) {
            Ok(())
        } else {
            Err(SourceError::NotAConfigLine(number))
        };
    };
    match settings.look_up(stated.name()) {
        Some((index, kind)) => take(alloc, settings, number, index, kind, stated),
        None => {
            settings.skip();
            Ok(())
        }
    }
}

/// What the lines of a `.config` give to the declared symbols. These are asked for no more after it.
pub fn build_settings(
    alloc: Global,
    text: &[u8],
    symbols: &Symbols,
) -> Result<SettingsBuilder, SourceError>
    ensures entries { IfOk result (λ s. (x : List ℕ) → map.get s.entries x ≡ setting (map.get symbols.now.kinds) (lines text.now) x) }
    ensures unknown { IfOk result (λ s. s.unknown ≡ unknown_count (map.get symbols.now.kinds) (lines text.now)) }
    ensures refusal { RefusedBy SourceError.OutOfMemory result (dotconfig_refusal (map.get symbols.now.kinds) text.now) }
    ensures memory { IsErrOf result SourceError.OutOfMemory → length text.now ≤ max_bytes }
    ensures short { OnOk result (length text.now ≤ max_bytes) }
    ensures configured { IfOk result (λ s. IsConfiguration s.entries) }
{
    if text.len() > MAX_BYTES {
        return Err(SourceError::TooLarge);
    }
    symbols.keeps_names();
    let mut settings = WrittenValues::new(alloc, symbols)?;
    let mut number: u64 = 1;
    for line in text.lines() {
        apply(alloc, &mut settings, number, line)?;
        number += 1;
    }
    Ok(settings.finish(alloc)?)
}

/// The settings that a `.config` gives to the declared symbols.
pub fn read_dotconfig(
    alloc: Global,
    text: &[u8],
    symbols: &Symbols,
) -> Result<Settings, SourceError>
    ensures entries { IfOk result (λ s. (x : List ℕ) → map.get s.entries x ≡ setting (map.get symbols.now.kinds) (lines text.now) x) }
    ensures unknown { IfOk result (λ s. s.unknown ≡ unknown_count (map.get symbols.now.kinds) (lines text.now)) }
    ensures refusal { RefusedBy SourceError.OutOfMemory result (dotconfig_refusal (map.get symbols.now.kinds) text.now) }
    ensures memory { IsErrOf result SourceError.OutOfMemory → length text.now ≤ max_bytes }
    ensures configured { IfOk result (λ s. IsConfiguration s.entries) }
{
    let draft = build_settings(alloc, text, symbols)?;
    Ok(draft.finish(alloc)?)
}
