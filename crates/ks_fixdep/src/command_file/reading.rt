//! Reading a command file. Each function takes one line, or the lines from one number on, and answers what the definition of
//! these lines answers: what they say, or the number of the first that does not fit.
ghost use Rattle.std.specs.Prelude.{◌≡◌, ◌∷◌, [], ◌<◌, ◌≤◌, ◌+◌, ◌++◌, ◌^◌, None, List, ℕ, length, drop, IfOk, IfSome, IsTrue, IsErrOf, OnOk, map};
ghost use Rattle.std.specs.Option.{option_copied, option_map};
ghost use Rattle.std.specs.Str.{bytes_eq};
ghost use Rattle.ks_symbols.specs.Names.{is_name, is_path, is_target};
ghost use Rattle.ks_symbols.specs.Lines.{max_bytes};
ghost use Rattle.ks_fixdep.specs.CommandLines.{lines, line_feed, content, between};
ghost use Rattle.ks_fixdep.specs.CommandFile.{is_dep, dep_line, view};
ghost use Rattle.ks_fixdep.specs.Borrowed.{seen_dep, borrowed_view};
ghost use Rattle.ks_fixdep.specs.CommandLayout.{file_line, name_line};
ghost use Rattle.ks_fixdep.specs.CommandPatterns as Patterns;
ghost use Rattle.ks_fixdep.specs.CommandReading as Reading;
ghost use Rattle.ks_fixdep.specs.CommandReading.{reading};
ghost use Rattle.ks_fixdep.specs.CommandAnswers.{Gives, copied_pair};
ghost use Rattle.ks_fixdep.specs.CommandWriting.{joined};
ghost use Rattle.ks_fixdep.specs.declared.command_file.CommandError.TheVariants.{TooLarge};

use super::owning::own_command;
use super::{
    BorrowedCommand, BorrowedDep, BorrowedName, CommandError, CommandFile, command_files_fit,
    command_is_legal, layout,
};
use bstr::ByteSlice;
use ks_symbols::{
    MAX_BYTES, name_is_legal, path_bytes_are_path, path_is_legal, read_decimal, split_path_bytes,
    split_word, target_is_legal, word_is_name,
};
use memchr::memchr;
use std::alloc::{AllocError, Global};

/// The first line with its line feed, and what follows it.
fn split_line(text: &[u8]) -> (&[u8], &[u8])
    ensures first { 0 < length text.now → lines text.now ≡ result.0.now ∷ lines result.1.now }
    ensures shorter { 0 < length text.now → length result.1.now < length text.now }
{
    match memchr(b'\n', text) {
        Some(end) => text.split_at(end + 1),
        None => (text, &[]),
    }
}

/// A line without its line feed.
#[tactic(auto, unfolding(crate::specs::CommandLines::content))]
fn content_of(line: &[u8]) -> &[u8]
    ensures { result.now ≡ content line.now }
{
    line.strip_suffix(b"\n").unwrap_or(line)
}

/// The first line without its line feed, and what follows it.
fn line_at(number: u64, text: &[u8]) -> Result<(&[u8], &[u8]), CommandError>
    ensures value { Gives (λ x. (x.0.now, lines x.1.now)) result (Reading.line_at number (lines text.now)) }
    ensures shorter { IfOk result (λ x. length x.1.now < length text.now) }
{
    if text.is_empty() {
        return Err(CommandError::BadCommandFile(number));
    }
    let (line, rest) = split_line(text);
    Ok((content_of(line), rest))
}

/// Whether a line is these parts, one after the other.
fn is_joined(line: &[u8], parts: &[&[u8]]) -> bool
    ensures { result ≡ bytes_eq line.now (joined parts.now) }
{
    let mut rest = line;
    for part in parts {
        match rest.strip_prefix(*part) {
            Some(after) => rest = after,
            None => return false,
        }
    }
    rest.is_empty()
}

/// What follows a line that is these parts.
#[tactic(auto, unfolding(crate::specs::CommandReading::fixed_at))]
fn fixed_at<'a>(number: u64, parts: &[&[u8]], text: &'a [u8]) -> Result<&'a [u8], CommandError>
    ensures shorter { IfOk result (λ r. length r.now < length text.now) }
    ensures value { Gives (λ r. lines r.now) result (Reading.fixed_at number (joined parts.now) (lines text.now)) }
{
    let (line, rest) = line_at(number, text)?;
    if !is_joined(line, parts) {
        return Err(CommandError::BadCommandFile(number));
    }
    Ok(rest)
}

/// The target and the command of a line.
#[tactic(auto, unfolding(crate::specs::CommandPatterns::saved_command, ks_symbols::specs::Names::is_target))]
fn saved_command(line: &[u8]) -> Option<(&[u8], &[u8])>
    ensures value { copied_pair result ≡ Patterns.saved_command line.now }
    ensures legal { IfSome result (λ p. IsTrue (is_path p.0.now)) }
{
    let named = line.strip_prefix(layout::SAVED_MARK)?;
    let (target, command) = named.split_once_str(layout::ASSIGNMENT)?;
    if target_is_legal(target) && command_is_legal(command) {
        Some((target, command))
    } else {
        None
    }
}

/// The bytes, where they are a path.
fn legal_path(bytes: &[u8]) -> Option<&[u8]>
    ensures value { option_copied result ≡ Patterns.checked is_path bytes.now }
    ensures legal { IfSome result (λ x. IsTrue (is_path x.now)) }
{
    if path_is_legal(bytes) {
        Some(bytes)
    } else {
        None
    }
}

/// What stands between the beginning and the end of a line.
fn between<'a>(begin: &[u8], end: &[u8], line: &'a [u8]) -> Option<&'a [u8]>
    ensures { option_copied result ≡ between begin.now end.now line.now }
{
    line.strip_prefix(begin)?.strip_suffix(end)
}

/// The source of a line.
#[tactic(auto, unfolding(crate::specs::CommandPatterns::source_in))]
fn source_in<'a>(target: &[u8], line: &'a [u8]) -> Option<&'a [u8]>
    ensures value { option_copied result ≡ Patterns.source_in target.now line.now }
    ensures legal { IfSome result (λ x. IsTrue (is_path x.now)) }
{
    let named = line
        .strip_prefix(layout::SOURCE_MARK)?
        .strip_prefix(target)?;
    legal_path(named.strip_prefix(layout::ASSIGNMENT)?)
}

/// The name of a dependency line.
#[tactic(auto, unfolding(crate::specs::CommandPatterns::name_in))]
fn name_in(line: &[u8]) -> Option<&[u8]>
    ensures value { option_copied result ≡ Patterns.name_in line.now }
    ensures legal { IfSome result (λ x. IsTrue (is_name x.now)) }
{
    let name = between(layout::NAME_MARK, layout::NAME_END, line)?;
    if name_is_legal(name) {
        Some(name)
    } else {
        None
    }
}

/// The path of a dependency line.
#[tactic(auto, unfolding(crate::specs::CommandPatterns::path_in))]
fn path_in(line: &[u8]) -> Option<&[u8]>
    ensures value { option_copied result ≡ Patterns.path_in line.now }
    ensures legal { IfSome result (λ x. IsTrue (is_path x.now)) }
{
    legal_path(between(layout::FILE_MARK, layout::FILE_END, line)?)
}

/// What a line says of the generation.
#[tactic(auto, unfolding(crate::specs::CommandReading::stated))]
fn stated(number: u64, line: &[u8]) -> Result<Option<u64>, CommandError>
    ensures { Gives (λ g. g) result (Reading.stated number line.now) }
{
    let Some(after) = line.strip_prefix(layout::GENERATION_MARK) else {
        return Ok(None);
    };
    let Some(digits) = after.strip_suffix(b"\n") else {
        return Err(CommandError::BadCommandFile(number));
    };
    match read_decimal(digits) {
        Some(generation) => Ok(Some(generation)),
        None => Err(CommandError::BadCommandFile(number)),
    }
}

/// The generation of the lines, of which the first has this number.
fn generation_from(first: u64, text: &[u8]) -> Result<Option<u64>, CommandError>
    requires { first + length text.now < 2 ^ 64 }
    ensures { Gives (λ g. g) result (Reading.generation_from first (lines text.now)) }
{
    let mut generation = None;
    let mut number = first;
    let mut rest = text;
    while !rest.is_empty() {
        let (line, after) = split_line(rest);
        generation = stated(number, line)?.or(generation);
        number += 1;
        rest = after;
    }
    Ok(generation)
}

/// The generation of what follows the dependency lines, where all of it fits.
#[tactic(auto, unfolding(crate::specs::CommandReading::end_from))]
fn end_from(number: u64, target: &[u8], text: &[u8]) -> Result<Option<u64>, CommandError>
    requires { number + 4 + length text.now < 2 ^ 64 }
    ensures { Gives (λ g. g) result (Reading.end_from number target.now (lines text.now)) }
{
    let rest = fixed_at(number, &[], text)?;
    let rest = fixed_at(number + 1, &layout::target_line(target), rest)?;
    let rest = fixed_at(number + 2, &[], rest)?;
    let rest = fixed_at(number + 3, &layout::deps_end(target), rest)?;
    generation_from(number + 4, rest)
}

/// The target and the command of the first line, and what follows it.
#[tactic(auto, unfolding(crate::specs::CommandReading::pattern_at))]
fn saved_at(text: &[u8]) -> Result<((&[u8], &[u8]), &[u8]), CommandError>
    ensures value { Gives (λ x. ((x.0.0.now, x.0.1.now), lines x.1.now)) result (Reading.pattern_at 1 Patterns.saved_command (lines text.now)) }
    ensures legal { IfOk result (λ x. IsTrue (is_path x.0.0.now)) }
    ensures shorter { IfOk result (λ x. length x.1.now < length text.now) }
{
    let (line, rest) = line_at(1, text)?;
    match saved_command(line) {
        Some(saved) => Ok((saved, rest)),
        None => Err(CommandError::BadCommandFile(1)),
    }
}

/// The source of the line with number 3, and what follows it.
#[tactic(auto, unfolding(crate::specs::CommandReading::pattern_at))]
fn source_at<'a>(target: &[u8], text: &'a [u8]) -> Result<(&'a [u8], &'a [u8]), CommandError>
    ensures value { Gives (λ x. (x.0.now, lines x.1.now)) result (Reading.pattern_at 3 (Patterns.source_in target.now) (lines text.now)) }
    ensures legal { IfOk result (λ x. IsTrue (is_path x.0.now)) }
    ensures shorter { IfOk result (λ x. length x.1.now < length text.now) }
{
    let (line, rest) = line_at(3, text)?;
    match source_in(target, line) {
        Some(source) => Ok((source, rest)),
        None => Err(CommandError::BadCommandFile(3)),
    }
}

/// The file or the name of a dependency line, in its memory.
#[tactic(auto, unfolding(crate::specs::CommandPatterns::dep_in))]
fn borrowed_dep_in(line: &[u8]) -> Option<BorrowedDep<'_>>
    ensures { option_map seen_dep result ≡ Patterns.dep_in line.now }
{
    if let Some(name) = name_in(line) {
        return Some(BorrowedDep::Config(BorrowedName::new(name)));
    }
    match path_in(line) {
        Some(path) => Some(BorrowedDep::File(path)),
        None => None,
    }
}

/// The name of a dependency line that a text begins with, and what follows the line, if so many bytes follow.
#[inline(always)]
fn name_ahead(text: &[u8]) -> Option<(&[u8], &[u8])>
    ensures { IfSome result (λ r. IsTrue (is_name r.0.now) × (text.now ≡ name_line r.0.now ++ line_feed ++ r.1.now)) }
{
    let (name, rest) = split_word(text.strip_prefix(layout::NAME_MARK)?);
    if !word_is_name(name) {
        return None;
    }
    Some((name, rest.strip_prefix(b") \\\n")?))
}

/// The path of a dependency line that a text begins with, and what follows the line, if so many bytes follow.
#[inline(always)]
fn path_ahead(text: &[u8]) -> Option<(&[u8], &[u8])>
    ensures { IfSome result (λ r. IsTrue (is_path r.0.now) × (text.now ≡ file_line r.0.now ++ line_feed ++ r.1.now)) }
{
    let (path, rest) = split_path_bytes(text.strip_prefix(layout::FILE_MARK)?);
    if !path_bytes_are_path(path) {
        return None;
    }
    Some((path, rest.strip_prefix(b" \\\n")?))
}

/// What a dependency line says that a text begins with, and what follows the line. It is read from its beginning on: no end is
/// looked for, and no byte is judged again.
#[inline(always)]
fn dep_ahead(text: &[u8]) -> Option<(BorrowedDep<'_>, &[u8])>
    ensures { IfSome result (λ r. IsTrue (is_dep (seen_dep r.0)) × (text.now ≡ dep_line (seen_dep r.0) ++ line_feed ++ r.1.now)) }
{
    if let Some((path, rest)) = path_ahead(text) {
        return Some((BorrowedDep::File(path), rest));
    }
    let (name, rest) = name_ahead(text)?;
    Some((BorrowedDep::Config(BorrowedName::new(name)), rest))
}

/// What the first line says as a dependency line, and what follows it.
#[tactic(auto, unfolding(crate::specs::CommandReading::deps_in))]
fn dep_at(text: &[u8]) -> Option<(BorrowedDep<'_>, &[u8])>
    requires { 0 < length text.now }
    ensures first { IfSome result (λ r. Reading.deps_in (lines text.now) ≡ seen_dep r.0 ∷ Reading.deps_in (lines r.1.now)) }
    ensures rest { IfSome result (λ r. lines r.1.now ≡ drop 1 (lines text.now)) }
    ensures shorter { IfSome result (λ r. length r.1.now < length text.now) }
    ensures none { result ≡ None → Reading.deps_in (lines text.now) ≡ [] }
{
    if let Some((dep, rest)) = dep_ahead(text) {
        return Some((dep, rest));
    }
    let (line, rest) = split_line(text);
    match borrowed_dep_in(content_of(line)) {
        Some(dep) => Some((dep, rest)),
        None => None,
    }
}

/// The dependency lines in front, in their memory, and what follows them.
fn borrowed_dependencies(
    alloc: Global,
    text: &[u8],
) -> Result<(Vec<BorrowedDep<'_>>, &[u8]), AllocError>
    ensures deps { IfOk result (λ r. map seen_dep r.0.items ≡ Reading.deps_in (lines text.now)) }
    ensures rest { IfOk result (λ r. lines r.1.now ≡ drop (length r.0.items) (lines text.now)) }
    ensures fits { IfOk result (λ r. length r.0.items + length r.1.now ≤ length text.now) }
{
    let mut deps = Vec::new(alloc);
    let mut rest = text;
    'lines: while !rest.is_empty() {
        let Some((dep, after)) = dep_at(rest) else {
            return Ok((deps, rest));
        };
        deps.push(dep)?;
        rest = after;
    }
    Ok((deps, rest))
}

/// What a text reads as, in its memory.
#[tactic(auto, unfolding(crate::specs::CommandReading::record_in))]
fn borrowed_record_in(alloc: Global, text: &[u8]) -> Result<BorrowedCommand<'_>, CommandError>
    ensures { Gives borrowed_view result (Reading.record_in (lines text.now)) }
{
    let ((target, command), rest) = saved_at(text)?;
    let rest = fixed_at(2, &[], rest)?;
    let (source, rest) = source_at(target, rest)?;
    let rest = fixed_at(4, &[], rest)?;
    let rest = fixed_at(5, &layout::deps_begin(target), rest)?;
    let (deps, rest) = borrowed_dependencies(alloc, rest)?;
    let generation = end_from(6 + deps.len() as u64, target, rest)?;
    Ok(BorrowedCommand {
        target,
        command,
        source,
        deps,
        generation,
    })
}

/// What a text reads as, in memory of its own.
pub(crate) fn own_record_in(alloc: Global, text: &[u8]) -> Result<CommandFile, CommandError>
    ensures { Gives view result (reading text.now) }
{
    let file = borrowed_record_in(alloc, text)?;
    command_files_fit();
    Ok(own_command(alloc, &file)?)
}

/// Reads a command file in the memory of its text.
pub fn borrow_command(alloc: Global, text: &[u8]) -> Result<BorrowedCommand<'_>, CommandError>
    ensures large { max_bytes < length text.now → IsErrOf result TooLarge }
    ensures exact { length text.now ≤ max_bytes → Gives borrowed_view result (reading text.now) }
{
    if text.len() > MAX_BYTES {
        return Err(CommandError::TooLarge);
    }
    borrowed_record_in(alloc, text)
}

/// Reads a command file.
pub fn read_command(alloc: Global, text: &[u8]) -> Result<CommandFile, CommandError>
    ensures large { max_bytes < length text.now → IsErrOf result TooLarge }
    ensures exact { length text.now ≤ max_bytes → Gives view result (reading text.now) }
{
    if text.len() > MAX_BYTES {
        return Err(CommandError::TooLarge);
    }
    own_record_in(alloc, text)
}
