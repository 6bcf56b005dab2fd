//! Which lines of a C header a configuration explains.
//!
//! Where each line is, the header holds comments and definitions of the configuration's entries, and in coreboot macros that are 0, and no
//! definition stands in a comment. Whether it holds all of them is asked beside it. A definition is written aside and compared, as where a pair of conf's is read.
ghost use Rattle.std.specs.Prelude.{◌≡◌, ◌++◌, IfOk, OnOk, drop};
ghost use Rattle.ks_output.specs.Definitions.{run_of};
ghost use Rattle.ks_output.specs.Header.{front, defined_as};
ghost use Rattle.ks_hidden.specs.HeaderLines.{kind_for, definition, defines_entry, is_of_entry, is_off_macro, is_off_in, comment_after, has_backslash, is_plain_remark, is_explained, foreign_line};

use bstr::ByteSlice;
use ks_output::{OldConfig, write_quoted};
use ks_symbols::{Class, Dialect, ends_comment, split_word, word_is_name};
use std::alloc::{AllocError, Global};

/// What stands in front of the name in a definition: as many bytes for each class.
fn front(class: Class) -> &'static [u8]
    ensures { result.now ≡ front (kind_for class) }
{
    match class {
        Class::Flag => b"#define ENABLE_",
        _ => b"#define CONFIG_",
    }
}

/// Appends what stands behind the name in a definition.
fn append_value(class: Class, text: &[u8], out: &mut Vec<u8>) -> Result<(), AllocError>
    ensures { OnOk result (out.new.items ≡ out.old.items ++ defined_as (kind_for class) text.now) }
{
    match class {
        Class::Switch => {
            let is_module = text == b"m".as_slice();
            out.extend_from_slice(if is_module { b"_MODULE 1" } else { b" 1" })
        }
        Class::Text => {
            out.extend_from_slice(b" ")?;
            write_quoted(text, out)
        }
        Class::Int | Class::Raw => {
            out.extend_from_slice(b" ")?;
            out.extend_from_slice(text)
        }
        Class::Flag => out.extend_from_slice(b" 1"),
        Class::Hex => {
            let has_radix = text.starts_with(b"0x") || text.starts_with(b"0X");
            out.extend_from_slice(if has_radix { b" " } else { b" 0x" })?;
            out.extend_from_slice(text)
        }
    }
}

/// Appends the definition of an entry, without its LF.
pub(crate) fn append_definition(
    name: &[u8],
    class: Class,
    text: &[u8],
    out: &mut Vec<u8>,
) -> Result<(), AllocError>
    ensures { OnOk result (out.new.items ≡ out.old.items ++ definition name.now (kind_for class) text.now) }
{
    out.extend_from_slice(front(class))?;
    out.extend_from_slice(name)?;
    append_value(class, text, out)
}

/// Whether a line is the definition of the entry that a name has.
#[tactic(auto, unfolding(crate::specs::HeaderLines::defines_entry))]
fn defines_entry(
    config: &OldConfig,
    line: &[u8],
    name: &[u8],
    aside: &mut Vec<u8>,
) -> Result<bool, AllocError>
    ensures { IfOk result (λ yes. yes ≡ defines_entry config.now.texts line.now name.now) }
{
    let Some(class) = config.class(name) else {
        return Ok(false);
    };
    let Some(text) = config.get(name) else {
        return Ok(false);
    };
    aside.clear();
    append_definition(name, class, text, aside)?;
    Ok(line == aside.as_slice())
}

/// The bytes from a place on, as far as there are any.
fn rest_from(text: &[u8], start: usize) -> &[u8]
    ensures { result.now ≡ drop start text.now }
{
    &text[start.min(text.len())..]
}

/// The macro that a line defines, if it is a definition.
fn run_of(line: &[u8]) -> &[u8]
    ensures { result.now ≡ run_of line.now }
{
    split_word(rest_from(line, 15)).0
}

/// Whether a line is the definition of an entry.
#[tactic(auto, unfolding(crate::specs::HeaderLines::is_of_entry))]
fn is_of_entry(config: &OldConfig, line: &[u8], aside: &mut Vec<u8>) -> Result<bool, AllocError>
    ensures { IfOk result (λ yes. yes ≡ is_of_entry config.now.texts line.now) }
{
    let run = run_of(line);
    if defines_entry(config, line, run, aside)? {
        return Ok(true);
    }
    if !run.ends_with(b"_MODULE") {
        return Ok(false);
    }
    defines_entry(config, line, &run[..run.len() - 7], aside)
}

/// Whether a line defines a macro as 0 whose name has no entry.
#[tactic(auto, unfolding(crate::specs::HeaderLines::is_off_macro))]
fn is_off_macro(config: &OldConfig, line: &[u8], aside: &mut Vec<u8>) -> Result<bool, AllocError>
    ensures { IfOk result (λ yes. yes ≡ is_off_macro config.now.texts line.now) }
{
    let (run, _) = split_word(rest_from(line, 15));
    if !word_is_name(run) || config.get(run).is_some() {
        return Ok(false);
    }
    aside.clear();
    aside.extend_from_slice(b"#define CONFIG_")?;
    aside.extend_from_slice(run)?;
    aside.extend_from_slice(b" 0")?;
    Ok(line == aside.as_slice())
}

/// The same in coreboot alone.
fn is_off_in(
    dialect: Dialect,
    config: &OldConfig,
    line: &[u8],
    aside: &mut Vec<u8>,
) -> Result<bool, AllocError>
    ensures { IfOk result (λ yes. yes ≡ is_off_in dialect config.now.texts line.now) }
{
    match dialect {
        Dialect::Coreboot => is_off_macro(config, line, aside),
        _ => Ok(false),
    }
}

/// Whether what follows a line stands in a comment.
fn comment_after(in_comment: bool, line: &[u8]) -> bool
    ensures { result ≡ comment_after in_comment line.now }
{
    if in_comment {
        line != b" */".as_slice()
    } else {
        line == b"/*".as_slice()
    }
}

/// Whether a backslash stands in a line.
fn has_backslash(line: &[u8]) -> bool
    ensures { result ≡ has_backslash line.now }
{
    line.iter().any(|byte| *byte == b'\\')
}

/// Whether a line of a comment ends it nowhere, has no backslash and is no directive.
fn is_plain_remark(line: &[u8]) -> bool
    ensures { result ≡ is_plain_remark line.now }
{
    !(ends_comment(line) || has_backslash(line) || line.starts_with(b"#"))
}

/// Whether a line is explained.
fn is_explained(
    dialect: Dialect,
    config: &OldConfig,
    in_comment: bool,
    line: &[u8],
    aside: &mut Vec<u8>,
) -> Result<bool, AllocError>
    ensures { IfOk result (λ yes. yes ≡ is_explained dialect config.now.texts in_comment line.now) }
{
    if in_comment {
        return Ok(line == b" */".as_slice() || is_plain_remark(line));
    }
    if line.is_empty() || line == b"/*".as_slice() {
        return Ok(true);
    }
    if is_of_entry(config, line, aside)? {
        return Ok(true);
    }
    is_off_in(dialect, config, line, aside)
}

/// The number of the first line that is not explained.
#[tactic(auto, unfolding(crate::specs::HeaderLines::foreign_line, crate::specs::HeaderLines::foreign_from))]
pub fn foreign_line(
    alloc: Global,
    dialect: Dialect,
    config: &OldConfig,
    header: &[u8],
) -> Result<Option<u64>, AllocError>
    ensures { IfOk result (λ found. found ≡ foreign_line dialect config.now.texts header.now) }
{
    let mut aside = Vec::new(alloc);
    let mut in_comment = false;
    let mut number: u64 = 1;
    for line in header.lines() {
        if !is_explained(dialect, config, in_comment, line, &mut aside)? {
            return Ok(Some(number));
        }
        in_comment = comment_after(in_comment, line);
        number += 1;
    }
    Ok(None)
}
