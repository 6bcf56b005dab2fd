//! What a text may hold that has the compiler read a file which it lists nowhere, or makes an object one of the time of its compile.
//!
//! Most texts hold nothing of that. So each is searched as a whole, and for few words.
ghost use Rattle.std.specs.Prelude.{◌≡◌, ◌<◌, ◌≤◌, ◌||◌, ℕ, IfOk, IfSome, List, None, OnOk, drop, length, option_map, slice_get, false, nat_eq, true};
ghost use Rattle.std.specs.List.{starts_with};
ghost use Rattle.std.specs.Str.{str_eq_ignore_ascii_case};
ghost use Rattle.memchr.specs.Find.{OccursAt};
ghost use Rattle.ks_hidden.specs.Macros.{includes, is_in, is_name};
ghost use Rattle.ks_hidden.specs.Texts.{HasLine, HiddenLine, IsEitherAt, IsLeast, IsMacroAt, IsMarkAt, IsMarkOf, after_include, after_line_end, after_sign, begins_as, begins_blank, begins_include, begins_joined, begins_letter, begins_other, ends_as, ends_comment, ends_in, ends_trigraph, first_computed, follows_computed, front_word, included_macro, is_blank, is_computed, is_computed_line, is_hidden_include, is_in_incbin, is_mark, is_of_directive, is_of_word, is_of_word_or_joins, joins_word, lesser, line_number, macro_behind, macro_name, skip_blanks, skip_front};

use crate::words::behind;
use bstr::ByteSlice;
use indexmap::IndexSet;
use ks_symbols::Seed;
use memchr::{memchr_iter, memchr3_iter, memmem};
use std::alloc::{AllocError, Global};

fn is_blank(byte: u8) -> bool
    ensures { result ≡ is_blank byte }
{
    matches!(byte, b' ' | b'\t' | 11 | 12)
}

/// A text from its first byte on that is no blank.
pub(crate) fn skip_blanks(text: &[u8]) -> &[u8]
    ensures { result.now ≡ skip_blanks text.now }
{
    let mut end = 0;
    while end < text.len() && is_blank(text[end]) {
        end += 1;
    }
    &text[end..]
}

/// A text from its first byte on that is no blank, behind the mark by which it may say that it is in UTF-8.
fn skip_front(text: &[u8]) -> &[u8]
    ensures { result.now ≡ skip_front text.now }
{
    match behind(b"\xEF\xBB\xBF", text) {
        Some(rest) => skip_blanks(rest),
        None => skip_blanks(text),
    }
}

/// The lesser of two numbers, of which either may be missing.
fn lesser(one: Option<usize>, other: Option<usize>) -> Option<usize>
    ensures { result ≡ lesser one other }
{
    match (one, other) {
        (None, other) => other,
        (one, None) => one,
        (Some(one), Some(other)) => Some(one.min(other)),
    }
}

/// The first place of a word.
fn find(text: &[u8], word: &[u8]) -> Option<usize>
    ensures { IsLeast (OccursAt text.now word.now) result }
{
    memmem::find(text, word)
}

/// The first place of one of two words, which begin alike. Most texts have nothing that begins so, and are passed at once.
fn find_either(text: &[u8], front: &[u8], one: &[u8], other: &[u8]) -> Option<usize>
    requires one { starts_with nat_eq one.now front.now ≡ true }
    requires other { starts_with nat_eq other.now front.now ≡ true }
    ensures { IsLeast (IsEitherAt text.now one.now other.now) result }
{
    match find(text, front) {
        Some(_) => lesser(find(text, one), find(text, other)),
        None => None,
    }
}

/// The first place of a word of the preprocessor that looks for a file, or is of the time of a compile.
fn find_macro(text: &[u8]) -> Option<usize>
    ensures { IsLeast (IsMacroAt text.now) result }
{
    let first = find_either(text, b"__TIME", b"__TIME__", b"__TIMESTAMP__");
    let first = lesser(find(text, b"__DATE__"), first);
    lesser(
        find_either(text, b"__has_", b"__has_include", b"__has_embed"),
        first,
    )
}

/// The same. Many texts have no two underscores side by side, and are passed at once.
fn find_macro_quickly(text: &[u8]) -> Option<usize>
    ensures { IsLeast (IsMacroAt text.now) result }
{
    match find(text, b"__") {
        Some(_) => find_macro(text),
        None => None,
    }
}

/// What follows the word of an include with which a text begins.
#[tactic(auto, unfolding(crate::specs::Texts::after_include))]
fn after_include(text: &[u8]) -> Option<&[u8]>
    ensures { option_map (λ t. t.now) result ≡ after_include text.now }
{
    if let Some(rest) = behind(b"include_next", text) {
        return Some(rest);
    }
    if let Some(rest) = behind(b"include", text) {
        return Some(rest);
    }
    behind(b"import", text)
}

/// Whether a text begins with what is no quote, no angle and no end of a line.
fn begins_other(text: &[u8]) -> bool
    ensures { result ≡ begins_other text.now }
{
    match text.first() {
        Some(byte) => !matches!(*byte, b'"' | b'<' | b'\n' | b'\r'),
        None => false,
    }
}

/// Whether what follows the word of an include is no name in quotes or angles.
fn follows_computed(rest: &[u8]) -> bool
    ensures { result ≡ follows_computed rest.now }
{
    match rest.split_first() {
        Some((b'\\' | b'/' | b'?', _)) => true,
        Some((byte, rest)) => is_blank(*byte) && begins_other(skip_blanks(rest)),
        None => false,
    }
}

/// Whether a text begins with what joins lines, or with a comment.
fn begins_joined(text: &[u8]) -> bool
    ensures { result ≡ begins_joined text.now }
{
    match text.first() {
        Some(byte) => matches!(*byte, b'\\' | b'/' | b'?'),
        None => false,
    }
}

/// Whether what follows the sign of a directive includes what a macro says, or takes over a file's bytes, as those of the header.
#[tactic(auto, unfolding(crate::specs::Texts::is_computed))]
fn is_computed(text: &[u8]) -> bool
    ensures { result ≡ is_computed text.now }
{
    let text = skip_blanks(text);
    if begins_joined(text) || behind(b"embed", text).is_some() {
        return true;
    }
    match after_include(text) {
        Some(rest) => follows_computed(rest),
        None => false,
    }
}

/// What follows the sign of a directive with which a text begins.
#[tactic(auto, unfolding(crate::specs::Texts::after_sign))]
fn after_sign(text: &[u8]) -> Option<&[u8]>
    ensures { option_map (λ t. t.now) result ≡ after_sign text.now }
{
    if let Some(rest) = behind(b"#", text) {
        return Some(rest);
    }
    if let Some(rest) = behind(b"%:", text) {
        return Some(rest);
    }
    behind(b"??=", text)
}

/// Whether a line includes what a macro says.
#[tactic(auto, unfolding(crate::specs::Texts::is_computed_line))]
fn is_computed_line(line: &[u8]) -> bool
    ensures { result ≡ is_computed_line line.now }
{
    match after_sign(skip_front(line)) {
        Some(rest) => is_computed(rest),
        None => false,
    }
}

/// The word with which a text begins.
pub(crate) fn front_word(text: &[u8]) -> &[u8]
    ensures { result.now ≡ front_word text.now }
{
    let mut end = 0;
    while end < text.len() && is_of_word(Some(text[end])) {
        end += 1;
    }
    &text[..end]
}

/// Whether a text is empty, or begins with a blank or a carriage return.
fn begins_blank(text: &[u8]) -> bool
    ensures { result ≡ begins_blank text.now }
{
    match text.first() {
        Some(byte) => is_blank(*byte) || *byte == b'\r',
        None => true,
    }
}

/// Whether a text begins with a letter.
fn begins_letter(text: &[u8]) -> bool
    ensures { result ≡ begins_letter text.now }
{
    match text.first() {
        Some(byte) => byte.is_ascii_alphabetic(),
        None => false,
    }
}

/// The name of a macro with which a text begins, behind which are blanks or nothing.
#[tactic(auto, unfolding(crate::specs::Texts::macro_name))]
fn macro_name(text: &[u8]) -> Option<&[u8]>
    ensures { option_map (λ t. t.now) result ≡ macro_name text.now }
{
    let name = front_word(text);
    if begins_letter(text) && begins_blank(&text[name.len()..]) {
        Some(name)
    } else {
        None
    }
}

/// The macro that is named behind the word of an include.
fn macro_behind(rest: &[u8]) -> Option<&[u8]>
    ensures { option_map (λ t. t.now) result ≡ macro_behind rest.now }
{
    if begins_blank(rest) {
        macro_name(skip_blanks(rest))
    } else {
        None
    }
}

/// The macro that a line includes by its name.
#[tactic(auto, unfolding(crate::specs::Texts::included_macro))]
fn included_macro(line: &[u8]) -> Option<&[u8]>
    ensures { is_computed_line line.now ≡ true → option_map (λ t. t.now) result ≡ included_macro line.now }
{
    let rest = after_sign(skip_front(line))?;
    let rest = after_include(skip_blanks(rest))?;
    macro_behind(rest)
}

/// Whether a line includes what a macro says, but not by its name. Where it does by that, the name is noted.
fn note_include(
    alloc: Global,
    included: &mut IndexSet<Vec<u8>, Seed>,
    line: &[u8],
) -> Result<bool, AllocError>
    ensures told { IfOk result (λ hidden. hidden ≡ is_hidden_include line.now) }
    ensures noted { OnOk result ((name : List ℕ) → is_in included.new name ≡ (is_in included.old name || is_name (included_macro line.now) name)) }
{
    if !is_computed_line(line) {
        return Ok(false);
    }
    let Some(name) = included_macro(line) else {
        return Ok(true);
    };
    included.insert(name.to_vec(alloc)?)?;
    Ok(false)
}

/// The number of the first line that includes what a macro says, but not by its name. The names of the others are noted.
#[tactic(auto, unfolding(crate::specs::Texts::computed_from))]
fn first_computed(
    alloc: Global,
    included: &mut IndexSet<Vec<u8>, Seed>,
    text: &[u8],
) -> Result<Option<usize>, AllocError>
    ensures found { IfOk result (λ n. n ≡ first_computed text.now) }
    ensures noted { IfOk result (λ n. n ≡ None → (name : List ℕ) → is_in included.new name ≡ (is_in included.old name || includes text.now name)) }
{
    let mut number = 1;
    for line in text.lines() {
        if note_include(alloc, included, line)? {
            return Ok(Some(number));
        }
        number += 1;
    }
    Ok(None)
}

/// What follows the end of a line with which a text begins.
#[tactic(auto, unfolding(crate::specs::Texts::after_line_end))]
fn after_line_end(text: &[u8]) -> Option<&[u8]>
    ensures { option_map (λ t. t.now) result ≡ after_line_end text.now }
{
    if let Some(rest) = behind(b"\n", text) {
        return Some(rest);
    }
    behind(b"\r\n", text)
}

/// Whether a byte is there, and is of a word.
pub(crate) fn is_of_word(byte: Option<u8>) -> bool
    ensures { result ≡ is_of_word byte }
{
    match byte {
        Some(byte) => byte.is_ascii_alphanumeric() || byte == b'_',
        None => false,
    }
}

/// Whether a byte is there, and is of a word, or joins the next line, too.
fn is_of_word_or_joins(byte: Option<u8>) -> bool
    ensures { result ≡ is_of_word_or_joins byte }
{
    match byte {
        Some(byte) => byte.is_ascii_alphanumeric() || byte == b'_' || byte == b'\\',
        None => false,
    }
}

/// Whether a backslash between these texts joins two parts of a word.
#[tactic(auto, unfolding(crate::specs::Texts::joins_word))]
fn joins_word(before: &[u8], rest: &[u8]) -> bool
    ensures { result ≡ joins_word before.now rest.now }
{
    if !is_of_word(before.last().copied()) {
        return false;
    }
    match after_line_end(skip_blanks(rest)) {
        Some(next) => is_of_word_or_joins(next.first().copied()),
        None => false,
    }
}

/// Whether a text ends in a byte.
fn ends_in(text: &[u8], byte: u8) -> bool
    ensures { result ≡ ends_in byte text.now }
{
    match text.last() {
        Some(last) => *last == byte,
        None => false,
    }
}

/// Whether a slash between these texts ends a comment, behind which a line includes what a macro says.
#[tactic(auto, unfolding(crate::specs::Texts::ends_comment))]
fn ends_comment(before: &[u8], rest: &[u8]) -> bool
    ensures { result ≡ ends_comment before.now rest.now }
{
    ends_in(before, b'*') && is_computed_line(rest)
}

/// Whether a slash between these texts is that of the trigraph of a backslash, by which a line goes on.
#[tactic(auto, unfolding(crate::specs::Texts::ends_trigraph))]
fn ends_trigraph(before: &[u8], rest: &[u8]) -> bool
    ensures { result ≡ ends_trigraph before.now rest.now }
{
    ends_in(before, b'?')
        && ends_in(&before[..before.len() - 1], b'?')
        && after_line_end(skip_blanks(rest)).is_some()
}

/// Whether two texts begin otherwise, but for the case of their letters, by a look at their first bytes.
fn begins_otherwise(one: &[u8], other: &[u8]) -> bool
    ensures { result ≡ true → str_eq_ignore_ascii_case one.now other.now ≡ false }
{
    match (one.first(), other.first()) {
        (Some(one), Some(other)) => one.to_ascii_lowercase() != other.to_ascii_lowercase(),
        _ => false,
    }
}

/// Whether two texts are one, but for the case of their letters. Most begin otherwise, and are told apart at once.
fn is_alike(one: &[u8], other: &[u8]) -> bool
    ensures { result ≡ str_eq_ignore_ascii_case one.now other.now }
{
    if begins_otherwise(one, other) {
        return false;
    }
    one.eq_ignore_ascii_case(other)
}

/// Whether a text begins with a word, in letters of either case.
fn begins_as(text: &[u8], word: &[u8]) -> bool
    ensures { result ≡ begins_as word.now text.now }
{
    is_alike(&text[..word.len().min(text.len())], word)
}

/// Whether a text ends in a word, in letters of either case.
fn ends_as(text: &[u8], word: &[u8]) -> bool
    ensures { result ≡ ends_as word.now text.now }
{
    is_alike(&text[text.len().saturating_sub(word.len())..], word)
}

/// Whether a byte is there, and is of the name of a directive.
fn is_of_directive(byte: Option<u8>) -> bool
    ensures { result ≡ is_of_directive byte }
{
    match byte {
        Some(byte) => byte.is_ascii_alphanumeric() || matches!(byte, b'_' | b'.' | b'$'),
        None => false,
    }
}

/// Whether a dot before this is that of the directive by which the assembler includes a file.
#[tactic(auto, unfolding(crate::specs::Texts::begins_include))]
fn begins_include(rest: &[u8]) -> bool
    ensures { result ≡ begins_include rest.now }
{
    let word = b"include";
    begins_as(rest, word) && !is_of_directive(rest.get(word.len()).copied())
}

/// Whether a `b` between these texts is that of the directive by which it takes over a file's bytes.
#[tactic(auto, unfolding(crate::specs::Texts::is_in_incbin))]
fn is_in_incbin(before: &[u8], rest: &[u8]) -> bool
    ensures { result ≡ is_in_incbin before.now rest.now }
{
    ends_as(before, b"inc") && begins_as(rest, b"in")
}

/// Whether the byte at a place stands for more than a search for words sees.
#[tactic(auto, unfolding(crate::specs::Texts::is_mark))]
fn is_mark(text: &[u8], at: usize) -> bool
    ensures { result ≡ is_mark text.now at }
{
    match text.get(at) {
        Some(b'\\') => joins_word(&text[..at], &text[at + 1..]),
        Some(b'/') => {
            ends_comment(&text[..at], &text[at + 1..])
                || ends_trigraph(&text[..at], &text[at + 1..])
        }
        Some(b'.') => begins_include(&text[at + 1..]),
        Some(b'b' | b'B') => is_in_incbin(&text[..at], &text[at + 1..]),
        Some(b'\r') => behind(b"\n", &text[at + 1..]).is_none(),
        Some(byte) => *byte == 0,
        None => false,
    }
}

/// The first place of one of three bytes that is such a mark.
fn find_of(text: &[u8], one: u8, other: u8, third: u8) -> Option<usize>
    ensures { IsLeast (IsMarkOf one other third text.now) result }
{
    for at in memchr3_iter(one, other, third, text) {
        if is_mark(text, at) {
            return Some(at);
        }
    }
    None
}

/// The first place at which a text may hide a file.
fn find_mark(text: &[u8]) -> Option<usize>
    ensures { IsLeast (IsMarkAt text.now) result }
{
    let first = lesser(
        find_of(text, b'/', b'\\', b'\r'),
        find_of(text, b'.', b'b', b'B'),
    );
    let first = lesser(find_of(text, 0, 0, 0), first);
    lesser(find_macro_quickly(text), first)
}

/// The number of the line in which a place stands, counted from 1.
#[tactic(auto, unfolding(crate::specs::Texts::line_number))]
pub(crate) fn line_number(text: &[u8], at: usize) -> usize
    ensures { result ≡ line_number text.now at }
{
    let before = &text[..at.min(text.len())];
    memchr_iter(b'\n', before).count() + 1
}

/// The number of the first line that has such a place.
fn marked_line(text: &[u8]) -> Option<usize>
    ensures { IsLeast (HasLine text.now (IsMarkAt text.now)) result }
{
    let at = find_mark(text)?;
    Some(line_number(text, at))
}

/// The number of the first line that hides a file, if any. Without one, the macros that the text includes by their names are noted.
pub fn hidden_line(
    alloc: Global,
    included: &mut IndexSet<Vec<u8>, Seed>,
    text: &[u8],
) -> Result<Option<u64>, AllocError>
    ensures found { IfOk result (HiddenLine text.now) }
    ensures noted { IfOk result (λ n. n ≡ None → (name : List ℕ) → is_in included.new name ≡ (is_in included.old name || includes text.now name)) }
{
    let include = first_computed(alloc, included, text)?;
    match lesser(marked_line(text), include) {
        Some(line) => Ok(Some(line as u64)),
        None => Ok(None),
    }
}
