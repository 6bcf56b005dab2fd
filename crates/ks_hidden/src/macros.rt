//! What may define a macro that a text includes by its name. Where nothing does, the compiler has passed over that include.
ghost use Rattle.std.specs.Prelude.{◌≡◌, ◌<◌, ◌||◌, ℕ, IfOk, IfSome, None, codes, length, not, slice_get, true};
ghost use Rattle.ks_hidden.specs.Macros.{DefiningLine, begins_word_at, defines_one, defining_from, defining_word, is_asked, is_in, may_define, trimmed};
ghost use Rattle.ks_hidden.specs.Texts.{front_word, is_of_word};
ghost use Rattle.ks_hidden.specs.Words.{option_value, texts};

use crate::arguments::ends_with_one;
use crate::texts::{front_word, is_of_word, line_number, skip_blanks};
use crate::words::{option_value, words};
use indexmap::IndexSet;
use ks_symbols::Seed;
use std::alloc::{AllocError, Global};

/// Whether a word begins at a place.
fn begins_word_at(text: &[u8], at: usize) -> bool
    requires { at < length text.now }
    ensures { result ≡ begins_word_at text.now at }
{
    is_of_word(text.get(at).copied()) && !is_of_word(text[..at].last().copied())
}

/// A text without the white space at its end.
fn trimmed(text: &[u8]) -> &[u8]
    ensures { result.now ≡ trimmed text.now }
{
    text.trim_ascii_end()
}

/// Whether a text that ends so only asks for what follows, or includes it.
#[tactic(auto, unfolding(crate::specs::Macros::is_asked))]
fn is_asked(before: &[u8]) -> bool
    ensures { result ≡ is_asked before.now }
{
    ends_with_one(
        &[
            b"defined(",
            b"defined (",
            b"defined",
            b"ifdef",
            b"ifndef",
            b"include",
            b"include_next",
            b"import",
            b"undef",
        ],
        trimmed(before),
    )
}

/// Whether a text may define one of these macros at a place.
#[tactic(auto, unfolding(crate::specs::Macros::may_define))]
fn may_define(macros: &IndexSet<Vec<u8>, Seed>, text: &[u8], at: usize) -> bool
    requires { at < length text.now }
    ensures { result ≡ may_define (is_in macros.now) text.now at }
{
    begins_word_at(text, at) && macros.contains(front_word(&text[at..])) && !is_asked(&text[..at])
}

/// The number of the first line of a text that may define one of these macros.
pub fn defining_line(macros: &IndexSet<Vec<u8>, Seed>, text: &[u8]) -> Option<u64>
    ensures { DefiningLine (is_in macros.now) text.now result }
{
    for at in 0..text.len() {
        if may_define(macros, text, at) {
            return Some(line_number(text, at) as u64);
        }
    }
    None
}

/// Whether a text begins with the name of one of these macros, or otherwise than as a name.
fn may_name_one(macros: &IndexSet<Vec<u8>, Seed>, value: &[u8]) -> bool
    ensures { result ≡ (not (is_of_word (slice_get value.now 0)) || is_in macros.now (front_word value.now)) }
{
    !is_of_word(value.first().copied()) || macros.contains(front_word(value))
}

/// Whether the option `-D` of a word defines one of these macros.
fn defines_one(macros: &IndexSet<Vec<u8>, Seed>, word: &[u8], next: &[Vec<u8>]) -> bool
    ensures { result ≡ defines_one (is_in macros.now) (option_value (texts next.now) word.now (codes "-D")) }
{
    match option_value(b"-D", word, next) {
        Some(value) => may_name_one(macros, skip_blanks(value)),
        None => false,
    }
}

/// The number of the first of these words that defines one of these macros, from 1.
fn first_defining(macros: &IndexSet<Vec<u8>, Seed>, words: &[Vec<u8>]) -> Option<u64>
    ensures { result ≡ defining_from (is_in macros.now) 1 (texts words.now) }
{
    for (place, word) in words.iter().enumerate() {
        if defines_one(macros, word, &words[place + 1..]) {
            return Some(place as u64 + 1);
        }
    }
    None
}

/// The number of the first word of a command that defines one of these macros, from 1.
#[tactic(auto, unfolding(crate::specs::Macros::defining_word))]
pub fn defining_word(
    alloc: Global,
    macros: &IndexSet<Vec<u8>, Seed>,
    command: &[u8],
) -> Result<Option<u64>, AllocError>
    ensures { IfOk result (λ n. n ≡ defining_word (is_in macros.now) command.now) }
{
    let words = words(alloc, command)?;
    Ok(first_defining(macros, &words))
}
