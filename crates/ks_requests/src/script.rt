//! Reading a script: which commands it asks for, in the order of its lines.
//!
//! A script that is read wrongly asks the wrong question of a build, so its lines have one spelling each: words stand
//! apart by one space and are not empty, and any other line is refused with its number. Nothing is opened or run here.
//! The form is a rule of this project.
ghost use Rattle.std.specs.Prelude.{◌≡◌, ◌++◌, [], None, count_by, is_none, length, map, option_map, take_while, drop, OnOk, IfOk, IsErrOf};
ghost use Rattle.std.specs.List.{cons_option, list_all, list_any};
ghost use Rattle.ks_requests.specs.Script.{begins_command, begins_sync, is_word_byte, is_word, first_word, seen_line, sync_line, record_line, stale_line, script_line, script_lines};
ghost use Rattle.ks_requests.specs.ScriptRefusals.{is_faulty, line_fault, script_refusal};
ghost use Rattle.ks_requests.specs.ScriptSyncs.{script_syncs};
ghost use Rattle.ks_symbols.specs.Lines.{lines};
ghost use Rattle.ks_symbols.specs.Refusals.{RefusedBy};

use crate::script_error::ScriptError;
use bstr::ByteSlice;
use ks_symbols::{MAX_BYTES, is_comment_or_blank, path_is_legal};
use std::alloc::Global;

/// A line of a script that asks for a command, by its words as they stand.
#[derive(Debug, Drop)]
pub enum ScriptLine<'a> {
    /// `sync KCONFIG DOTCONFIG`, both legal paths.
    Sync(&'a [u8], &'a [u8]),
    /// `record DEPFILE TARGET COMMAND`; the command is the rest of the line and may be empty.
    Record(&'a [u8], &'a [u8], &'a [u8]),
    /// `stale TARGET`.
    Stale(&'a [u8]),
}

fn all_word_bytes(text: &[u8]) -> bool
    ensures { result ≡ list_all is_word_byte text.now }
{
    text.iter().all(|byte| *byte != b' ')
}

/// Whether the bytes are one word.
fn is_word(text: &[u8]) -> bool
    ensures { result ≡ is_word text.now }
{
    !text.is_empty() && all_word_bytes(text)
}

/// The bytes up to the first space, and what follows them.
fn split_word(text: &[u8]) -> (&[u8], &[u8])
    ensures word { result.0.now ≡ take_while is_word_byte text.now }
    ensures rest { result.1.now ≡ drop (length result.0.now) text.now }
{
    let end = text.find_byte(b' ').unwrap_or(text.len());
    text.split_at(end)
}

/// The first word, and what stands after the space that ends it.
#[tactic(auto, unfolding(crate::specs::Script::first_word))]
fn first_word(text: &[u8]) -> Option<(&[u8], &[u8])>
    ensures { option_map (λ cut. (cut.0.now, cut.1.now)) result ≡ first_word text.now }
{
    let (word, rest) = split_word(text);
    if !word.is_empty() && rest.starts_with(b" ") {
        Some((word, &rest[1..]))
    } else {
        None
    }
}

#[tactic(auto, unfolding(crate::specs::Script::sync_line))]
fn sync_line(args: &[u8]) -> Option<ScriptLine<'_>>
    ensures { option_map seen_line result ≡ sync_line args.now }
{
    let (kconfig, dotconfig) = first_word(args)?;
    if path_is_legal(kconfig) && path_is_legal(dotconfig) {
        Some(ScriptLine::Sync(kconfig, dotconfig))
    } else {
        None
    }
}

#[tactic(auto, unfolding(crate::specs::Script::record_line))]
fn record_line(args: &[u8]) -> Option<ScriptLine<'_>>
    ensures { option_map seen_line result ≡ record_line args.now }
{
    let (depfile, rest) = first_word(args)?;
    let (target, command) = first_word(rest)?;
    Some(ScriptLine::Record(depfile, target, command))
}

#[tactic(auto, unfolding(crate::specs::Script::stale_line))]
fn stale_line(args: &[u8]) -> Option<ScriptLine<'_>>
    ensures { option_map seen_line result ≡ stale_line args.now }
{
    if is_word(args) {
        Some(ScriptLine::Stale(args))
    } else {
        None
    }
}

/// What a line, without its end, asks for.
#[tactic(auto, unfolding(crate::specs::Script::script_line))]
fn parse_line(line: &[u8]) -> Option<ScriptLine<'_>>
    ensures { option_map seen_line result ≡ script_line line.now }
{
    if line.starts_with(b"sync ") {
        sync_line(&line[5..])
    } else if line.starts_with(b"record ") {
        record_line(&line[7..])
    } else if line.starts_with(b"stale ") {
        stale_line(&line[6..])
    } else {
        None
    }
}

/// Takes in the line of a number.
#[tactic(auto, unfolding(crate::specs::ScriptRefusals::line_fault))]
fn take_line<'a>(
    lines: &mut Vec<ScriptLine<'a>>,
    number: u64,
    line: &'a [u8],
) -> Result<(), ScriptError>
    ensures lines { OnOk result (map seen_line lines.new.items ≡ map seen_line lines.old.items ++ cons_option (script_line line.now) []) }
    ensures refusal { RefusedBy ScriptError.OutOfMemory result (line_fault number line.now) }
    ensures memory { IsErrOf result ScriptError.OutOfMemory → line_fault number line.now ≡ None }
{
    match parse_line(line) {
        Some(stated) => lines.push(stated)?,
        None => {
            if !is_comment_or_blank(line) {
                return Err(ScriptError::BadScript(number));
            }
        }
    }
    Ok(())
}

/// Whether a line begins as a command does. Each that asks for one does so, and no line is read a second time to know it.
fn begins_command(line: &[u8]) -> bool
    ensures { result ≡ begins_command line.now }
{
    line.starts_with(b"sync ") || line.starts_with(b"record ") || line.starts_with(b"stale ")
}

/// How many lines begin as a command does, so that those of a script are given their place once.
#[tactic(auto, unfolding(ks_symbols::specs::Lines::lines))]
fn count_lines(text: &[u8]) -> usize
    ensures { result ≡ count_by begins_command (lines text.now) }
{
    text.lines().filter(|line| begins_command(line)).count()
}

/// The lines of a script that ask for a command, in their order. Comments and empty lines ask for none.
pub fn read_script(alloc: Global, text: &[u8]) -> Result<Vec<ScriptLine<'_>>, ScriptError>
    ensures lines { IfOk result (λ lines. map seen_line lines.items ≡ script_lines text.now) }
    ensures refusal { RefusedBy ScriptError.OutOfMemory result (script_refusal text.now) }
{
    if text.len() > MAX_BYTES {
        return Err(ScriptError::TooLarge);
    }
    let Ok(mut lines) = Vec::with_capacity(alloc, count_lines(text)) else {
        return Err(ScriptError::OutOfMemory);
    };
    let mut number: u64 = 1;
    for line in text.lines() {
        take_line(&mut lines, number, line)?;
        number += 1;
    }
    Ok(lines)
}

/// Whether a line begins as a `sync` does.
fn has_sync(text: &[u8]) -> bool
    ensures { result ≡ list_any begins_sync (lines text.now) }
{
    text.lines().any(|line| line.starts_with(b"sync "))
}

/// Whether a line asks for nothing, and is neither a comment nor empty.
fn is_faulty(line: &[u8]) -> bool
    ensures { result ≡ is_faulty line.now }
{
    parse_line(line).is_none() && !is_comment_or_blank(line)
}

/// Whether a script isn't refused. Nothing is kept of its lines.
fn is_faultless(text: &[u8]) -> bool
    ensures { result ≡ is_none (script_refusal text.now) }
{
    text.len() <= MAX_BYTES && !text.lines().any(|line| is_faulty(line))
}

/// Whether a script asks for a `sync`, and isn't refused. Where no line begins as one does, no line is parsed to know it.
pub fn script_syncs(text: &[u8]) -> bool
    ensures { result ≡ script_syncs text.now }
{
    has_sync(text) && is_faultless(text)
}
