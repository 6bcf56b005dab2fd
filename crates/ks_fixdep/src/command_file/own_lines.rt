//! What follows a record for a make that knows nothing of it. Where confstamp is gone, such a make goes on by these lines.
ghost use Rattle.std.specs.Prelude.{◌≡◌, ◌++◌, OnOk, flat_map, map, option_map};
ghost use Rattle.ks_fixdep.specs.CommandFile.{ended};
ghost use Rattle.ks_fixdep.specs.OwnLines.{FurtherLinesAreRead, back_for, cmd_line, elsewhere_lines, front_for, named_in, own_byte, own_lines, own_rule, own_stamp_line, stamp_line_of};

use super::layout;
use super::writing::{push_line, push_lines};
use ks_symbols::{Dialect, Name};
use std::alloc::AllocError;

/// Writes the line of the command under its other name.
fn push_cmd(out: &mut Vec<u8>, target: &[u8]) -> Result<(), AllocError>
    ensures { OnOk result (out.new.items ≡ out.old.items ++ ended (cmd_line target.now)) }
{
    push_line(out, &[b"cmd_", target, b" := $(savedcmd_", target, b")"])
}

/// The byte of a name in the path of its stamp.
fn own_byte(byte: u8) -> u8
    ensures { result ≡ own_byte byte }
{
    if byte == b'_' {
        b'/'
    } else {
        byte.to_ascii_lowercase()
    }
}

/// Writes the line of the stamp that the project's own tools have of a name.
fn push_own_stamp(out: &mut Vec<u8>, name: &[u8]) -> Result<(), AllocError>
    ensures { OnOk result (out.new.items ≡ out.old.items ++ ended (own_stamp_line name.now)) }
{
    out.extend_from_slice(layout::NAME_MARK)?;
    for byte in name {
        out.push(own_byte(*byte))?;
    }
    out.extend_from_slice(b".h) \\\n")?;
    Ok(())
}

/// Writes the rule of these stamps.
fn push_own_rule(out: &mut Vec<u8>, target: &[u8], names: &[Name]) -> Result<(), AllocError>
    ensures { OnOk result (out.new.items ≡ out.old.items ++ flat_map ended (own_rule target.now names.now)) }
{
    push_line(out, &[target, b": \\"])?;
    for name in names {
        push_own_stamp(out, name.as_bytes())?;
    }
    out.push(b'\n')?;
    Ok(())
}

/// Writes what follows the record of a target with these names. An `Err` leaves a part of it.
pub fn push_own_lines(
    out: &mut Vec<u8>,
    dialect: Dialect,
    target: &[u8],
    names: &[Name],
) -> Result<(), AllocError>
    ensures { OnOk result (out.new.items ≡ out.old.items ++ flat_map ended (own_lines dialect target.now names.now)) }
{
    push_cmd(out, target)?;
    if dialect == Dialect::Linux {
        return Ok(());
    }
    push_own_rule(out, target, names)
}

/// The name of a path in a directory, where it is below that.
fn named_in<'a>(directory: &[u8], path: &'a [u8]) -> Option<&'a [u8]>
    ensures { option_map (λ name. name.now) result ≡ named_in directory.now path.now }
{
    match path.strip_prefix(directory) {
        Some(rest) => rest.strip_prefix(b"/"),
        None => None,
    }
}

/// Writes the line of the stamp that a tree of this name has of a name.
fn push_stamp_of(out: &mut Vec<u8>, tree: &[u8], name: &[u8]) -> Result<(), AllocError>
    ensures { OnOk result (out.new.items ≡ out.old.items ++ ended (stamp_line_of tree.now name.now)) }
{
    push_line(
        out,
        &[b"    $(wildcard ", tree, b"/include/config/", name, b") \\"],
    )
}

/// Writes the lines of these stamps.
fn push_stamps_of(out: &mut Vec<u8>, tree: &[u8], names: &[Name]) -> Result<(), AllocError>
    ensures { OnOk result (out.new.items ≡ out.old.items ++ flat_map ended (map (stamp_line_of tree.now) names.now)) }
{
    for name in names {
        push_stamp_of(out, tree, name.as_bytes())?;
    }
    Ok(())
}

/// Writes what stands before the stamps.
fn push_front_for(out: &mut Vec<u8>, target: &[u8], name: &[u8]) -> Result<(), AllocError>
    ensures { OnOk result (out.new.items ≡ out.old.items ++ flat_map ended (front_for target.now name.now)) }
{
    push_line(out, &[b"savedcmd_", name, b" = $(savedcmd_", target, b")"])?;
    push_line(out, &[b"deps_", name, b" := \\"])
}

/// Writes what stands behind the stamps.
fn push_back_for<'a>(out: &mut Vec<u8>, target: &'a [u8], name: &'a [u8]) -> Result<(), AllocError>
    ensures { OnOk result (out.new.items ≡ out.old.items ++ flat_map ended (back_for target.now name.now)) }
{
    push_lines(
        out,
        &[
            &[b"    $(deps_", target, b")"],
            &[],
            &[name, b": $(deps_", name, b")"],
            &[],
        ],
    )
}

/// Writes what follows the record of a target for a make that runs in another directory, and knows the tree by this name: the record
/// under the name that the object has there. Of an object elsewhere it writes nothing. An `Err` leaves a part of it.
pub fn push_elsewhere_lines(
    out: &mut Vec<u8>,
    directory: &[u8],
    tree: &[u8],
    target: &[u8],
    names: &[Name],
) -> Result<(), AllocError>
    ensures { OnOk result (out.new.items ≡ out.old.items ++ flat_map ended (elsewhere_lines directory.now tree.now target.now names.now)) }
{
    let Some(name) = named_in(directory, target) else {
        return Ok(());
    };
    push_front_for(out, target, name)?;
    push_stamps_of(out, tree, names)?;
    push_back_for(out, target, name)
}

/// A record with such lines behind it reads as without them.
pub fn further_lines_are_read()
    ensures { FurtherLinesAreRead }
{
    ks_symbols::decimals_read_back();
}
