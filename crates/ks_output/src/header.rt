//! The C header `include/generated/autoconf.h`: a macro for each symbol that has a value.
//!
//! It is what an object is compiled with, so the staleness of objects rests on it: the definitions of a name depend
//! on that name's entry and its companion's alone. The forms are those of print_symbol_for_c in scripts/kconfig/confdata.c, and for a bool of
//! BusyBox one of those that its conf writes. That the names rise is a rule of this project.
ghost use Rattle.std.specs.Prelude.{◌≡◌, ◌≤◌, ◌++◌, OnOk, OnErr};
ghost use Rattle.ks_symbols.specs.Values.{quoted};
ghost use Rattle.ks_output.specs.Appending.{Keeps, definitions_capacity};
ghost use Rattle.std.specs.FinMap as map;
ghost use Rattle.ks_output.specs.Header.{header_text, header_heading, definition_line, defined_as, front};

use crate::appending::append_all;
use ks_symbols::{Class, Kind, Settings};
use std::alloc::AllocError;

/// Appends the heading with a title.
pub(crate) fn append_heading(title: &[u8], out: &mut Vec<u8>) -> Result<(), AllocError>
    ensures written { OnOk result (out.new.items ≡ out.old.items ++ header_heading title.now) }
    ensures kept { Keeps out.old.items out.new.items }
{
    append_all(
        &[
            b"/*\n * Automatically generated file; DO NOT EDIT.\n * ",
            title,
            b"\n */\n",
        ],
        out,
    )
}

/// Appends a text between quotes, with a backslash before each quote and backslash in it: as the header and a `.config` have a
/// string.
pub fn write_quoted(text: &[u8], out: &mut Vec<u8>) -> Result<(), AllocError>
    ensures written { OnOk result (out.new.items ≡ out.old.items ++ quoted text.now) }
    ensures kept { Keeps out.old.items out.new.items }
{
    out.push(b'"')?;
    for byte in text {
        if *byte == b'"' || *byte == b'\\' {
            out.push(b'\\')?;
        }
        out.push(*byte)?;
    }
    out.push(b'"')?;
    Ok(())
}

/// What stands in front of the name in a definition.
fn front(kind: Kind) -> &'static [u8]
    ensures { result.now ≡ front kind }
{
    match kind {
        Kind::Flag => b"#define ENABLE_",
        _ => b"#define CONFIG_",
    }
}

/// Appends what stands after the name in a definition.
fn append_value(kind: Kind, text: &[u8], out: &mut Vec<u8>) -> Result<(), AllocError>
    ensures written { OnOk result (out.new.items ≡ out.old.items ++ defined_as kind text.now) }
    ensures kept { Keeps out.old.items out.new.items }
{
    match kind {
        Kind::Bool | Kind::Tristate => {
            let is_module = text == b"m".as_slice();
            out.extend_from_slice(if is_module { b"_MODULE 1" } else { b" 1" })
        }
        Kind::Text => {
            out.extend_from_slice(b" ")?;
            write_quoted(text, out)
        }
        Kind::Int | Kind::EmptyInt | Kind::Raw => append_all(&[b" ", text], out),
        Kind::Flag | Kind::Companion => out.extend_from_slice(b" 1"),
        Kind::Hex | Kind::EmptyHex => {
            let has_radix = text.starts_with(b"0x") || text.starts_with(b"0X");
            out.extend_from_slice(if has_radix { b" " } else { b" 0x" })?;
            out.extend_from_slice(text)
        }
    }
}

/// Appends the definition of an entry.
pub(crate) fn append_definition(
    name: &[u8],
    kind: Kind,
    text: &[u8],
    out: &mut Vec<u8>,
) -> Result<(), AllocError>
    ensures written { OnOk result (out.new.items ≡ out.old.items ++ definition_line name.now kind text.now) }
    ensures kept { Keeps out.old.items out.new.items }
{
    out.extend_from_slice(front(kind))?;
    out.extend_from_slice(name)?;
    append_value(kind, text, out)?;
    out.extend_from_slice(b"\n")?;
    Ok(())
}

/// How many bytes the definitions of the entries take at most, but for what has to be escaped in them.
fn definitions_capacity(settings: &Settings) -> usize
    ensures { result ≤ definitions_capacity (map.entries settings.now.entries) }
{
    let mut capacity: usize = 0;
    for (name, kind, text) in settings.entries() {
        let rest = match kind.class() {
            Class::Switch | Class::Flag => b"#define CONFIG__MODULE 1\n".len(),
            Class::Text | Class::Int | Class::Hex | Class::Raw => b"#define CONFIG_ \"\"\n".len()
                + text.len(),
        };
        capacity = capacity.saturating_add(name.len()).saturating_add(rest);
    }
    capacity
}

/// Appends the header, or a beginning of it. The room is made at once: a vector that grows leaves its smaller selves behind.
#[tactic(auto, unfolding(crate::specs::Header::header_text))]
fn append_header(settings: &Settings, title: &[u8], out: &mut Vec<u8>) -> Result<(), AllocError>
    ensures written { OnOk result (out.new.items ≡ out.old.items ++ header_text title.now settings.now.entries) }
    ensures kept { Keeps out.old.items out.new.items }
{
    append_heading(title, out)?;
    out.reserve_exact(definitions_capacity(settings))?;
    for (name, kind, text) in settings.entries() {
        append_definition(name, kind, text, out)?;
    }
    Ok(())
}

/// Appends the header, or leaves the vector as it was.
pub fn write_header(settings: &Settings, title: &[u8], out: &mut Vec<u8>) -> Result<(), AllocError>
    ensures written { OnOk result (out.new.items ≡ out.old.items ++ header_text title.now settings.now.entries) }
    ensures kept { OnErr result (out.new.items ≡ out.old.items) }
{
    let start = out.len();
    match append_header(settings, title, out) {
        Ok(()) => Ok(()),
        Err(refused) => {
            out.truncate(start);
            Err(refused)
        }
    }
}
