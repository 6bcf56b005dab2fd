//! The headers that a source includes.
ghost use Rattle.std.specs.Prelude.{◌≡◌, ◌<◌, [], ◌++◌, IfOk, IfSome, MatchOption, OnOk, length, map, option_map};
ghost use Rattle.std.specs.List.{filter_map};
ghost use Rattle.ks_hidden.specs.Includes.{include_words, included_names, is_space, name_behind, names_at, quoted_name, up_to, without_spaces};
ghost use Rattle.ks_hidden.specs.Words.{texts};

use crate::words::behind;
use memchr::{memchr, memchr2};
use std::alloc::{AllocError, Global};

/// Whether a byte may stand between the parts of a line: a blank, a line's end, or the backslash that joins lines.
fn is_space(byte: u8) -> bool
    ensures { result ≡ is_space byte }
{
    matches!(byte, b' ' | b'\t' | b'\n' | 11 | 12 | b'\r' | b'\\')
}

/// A text without the spaces that it begins with.
fn without_spaces(text: &[u8]) -> &[u8]
    ensures { result.now ≡ without_spaces text.now }
{
    let mut rest = text;
    while let Some((first, after)) = rest.split_first() {
        if !is_space(*first) {
            break;
        }
        rest = after;
    }
    rest
}

/// What stands before the closing byte, or before the line's end.
fn up_to(close: u8, text: &[u8]) -> &[u8]
    ensures { result.now ≡ up_to close text.now }
{
    match memchr2(close, b'\n', text) {
        Some(place) => &text[..place],
        None => text,
    }
}

/// The name that a text begins with, between `""` or `<>`.
fn quoted_name(text: &[u8]) -> Option<&[u8]>
    ensures { option_map (λ n. n.now) result ≡ quoted_name text.now }
{
    let (first, rest) = text.split_first()?;
    match *first {
        b'"' => Some(up_to(b'"', rest)),
        b'<' => Some(up_to(b'>', rest)),
        _ => None,
    }
}

/// The name of a header behind such a word.
fn name_behind<'a>(text: &'a [u8], word: &[u8]) -> Option<&'a [u8]>
    ensures { option_map (λ n. n.now) result ≡ name_behind text.now word.now }
{
    quoted_name(without_spaces(behind(word, text)?))
}

/// Appends the names behind these words.
fn push_behind(
    alloc: Global,
    names: &mut Vec<Vec<u8>>,
    text: &[u8],
    words: &[&[u8]],
) -> Result<(), AllocError>
    ensures { OnOk result (texts names.new.items ≡ texts names.old.items ++ filter_map (name_behind text.now) (map (λ w. w.now) words.now)) }
{
    for word in words {
        if let Some(name) = name_behind(text, *word) {
            names.push(name.to_vec(alloc)?)?;
        }
    }
    Ok(())
}

/// Appends the name of a header behind a `#`, where there is one.
#[tactic(auto, unfolding(crate::specs::Includes::names_at))]
fn push_names(alloc: Global, names: &mut Vec<Vec<u8>>, text: &[u8]) -> Result<(), AllocError>
    ensures { OnOk result (texts names.new.items ≡ texts names.old.items ++ names_at text.now) }
{
    push_behind(
        alloc,
        names,
        without_spaces(text),
        &[b"include", b"include_next", b"import"],
    )
}

/// What stands behind the first `#`.
fn behind_hash(text: &[u8]) -> Option<&[u8]>
    ensures names { MatchOption result (included_names text.now ≡ []) (λ rest. included_names text.now ≡ names_at rest.now ++ included_names rest.now) }
    ensures shorter { IfSome result (λ rest. length rest.now < length text.now) }
{
    match memchr(b'#', text) {
        Some(place) => Some(&text[place + 1..]),
        None => None,
    }
}

/// The names of all headers that a text includes, in their order. A name may be one of a comment or a string, and comes again
/// where it is included again.
pub(crate) fn included_names(alloc: Global, text: &[u8]) -> Result<Vec<Vec<u8>>, AllocError>
    ensures { IfOk result (λ v. texts v.items ≡ included_names text.now) }
{
    let mut names = Vec::new(alloc);
    let mut rest = text;
    while let Some(after) = behind_hash(rest) {
        push_names(alloc, &mut names, after)?;
        rest = after;
    }
    Ok(names)
}
