//! The names in a `.config` that its Kconfig doesn't declare, as a misspelt one or one of another version. A synchronisation
//! counts their lines; who only asks what it would do gets their names.
ghost use Rattle.std.specs.Prelude.{◌≡◌, ◌++◌, IfOk, OnOk, flat_map};
ghost use Rattle.std.specs.FinMap as map;
ghost use Rattle.ks_symbols.specs.Lines.{lines};
ghost use Rattle.ks_symbols.specs.Statements.{statement};
ghost use Rattle.ks_requests.specs.Unknown.{unknown_in, unknown_line, unknown_names};

use bstr::ByteSlice;
use ks_symbols::{Statement, Symbols, parse_statement};
use std::alloc::{AllocError, Global};

/// Appends a line, if this line of a `.config` is about a name that is not declared.
fn write_if_unknown(symbols: &Symbols, line: &[u8], text: &mut Vec<u8>) -> Result<(), AllocError>
    ensures { OnOk result (text.new.items ≡ text.old.items ++ flat_map unknown_line (unknown_in (map.get symbols.now.kinds) (statement line.now))) }
{
    let name = match parse_statement(line) {
        Some(Statement::Assigns(name, _)) => name,
        Some(Statement::Unsets(name)) => name,
        None => return Ok(()),
    };
    if symbols.kind_of(name).is_some() {
        return Ok(());
    }
    text.extend_from_slice(b"unknown ")?;
    text.extend_from_slice(name)?;
    text.extend_from_slice(b"\n")
}

/// Appends a line for each of these lines.
fn write_unknown(symbols: &Symbols, dotconfig: &[u8], text: &mut Vec<u8>) -> Result<(), AllocError>
    ensures { OnOk result (text.new.items
        ≡ text.old.items ++ flat_map unknown_line (unknown_names (map.get symbols.now.kinds) (lines dotconfig.now))) }
{
    for line in dotconfig.lines() {
        write_if_unknown(symbols, line, text)?;
    }
    Ok(())
}

/// A line `unknown NAME` for each line of a `.config` about a name that is none of the symbols, in their order. Nothing else is
/// looked at in it.
pub fn unknown_lines(
    alloc: Global,
    symbols: &Symbols,
    dotconfig: &[u8],
) -> Result<Vec<u8>, AllocError>
    ensures { IfOk result (λ text. text.items ≡ flat_map unknown_line (unknown_names (map.get symbols.now.kinds) (lines dotconfig.now))) }
{
    let mut text = Vec::new(alloc);
    write_unknown(symbols, dotconfig, &mut text)?;
    Ok(text)
}
