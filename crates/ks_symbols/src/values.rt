//! Values as a `.config` writes them, and the texts they stand for.
//!
//! scripts/kconfig/confdata.c drops a backslash before any byte and whatever follows the closing quote. Here
//! only `\"` and `\\` are escapes and nothing may follow, so that each text has one spelling.
ghost use Rattle.std.specs.Prelude.{◌≡◌, ◌∷◌, ◌<◌, IfOk, IfSome, OnErr, is_some, length, option_and_then, option_map, vec_items};
ghost use Rattle.ks_symbols.specs.Values.{text_of, is_escaped, unquoted, unquoted_rest};

use crate::kinds::{Kind, is_string_byte, value_is_valid};
use std::alloc::{AllocError, Global};

fn is_escaped(byte: u8) -> bool
    ensures { result ≡ is_escaped byte }
{
    byte == b'"' || byte == b'\\'
}

/// The byte of the text that the rest of a quoted text begins with, and what follows it. The quote that ends it is a byte more.
#[tactic(auto, unfolding(crate::specs::Values::unquoted_rest))]
fn first_byte(rest: &[u8]) -> Option<(u8, &[u8])>
    requires { 1 < length rest.now }
    ensures read { unquoted_rest rest.now ≡ option_and_then (λ s. option_map (λ t. s.0 ∷ t) (unquoted_rest s.1.now)) result }
    ensures shorter { IfSome result (λ s. length s.1.now < length rest.now) }
{
    if rest[0] == b'\\' {
        if is_escaped(rest[1]) {
            Some((rest[1], &rest[2..]))
        } else {
            None
        }
    } else if rest[0] == b'"' || !is_string_byte(rest[0]) {
        None
    } else {
        Some((rest[0], &rest[1..]))
    }
}

/// The text that stands between quotes, if the bytes are a quoted text.
pub(crate) fn unquoted(alloc: Global, written: &[u8]) -> Result<Option<Vec<u8>>, AllocError>
    ensures { IfOk result (λ o. option_map vec_items o ≡ unquoted written.now) }
{
    if !written.starts_with(b"\"") {
        return Ok(None);
    }
    let mut text = Vec::new(alloc);
    let mut rest = &written[1..];
    while rest.len() > 1 {
        let Some((byte, following)) = first_byte(rest) else {
            return Ok(None);
        };
        text.push(byte)?;
        rest = following;
    }
    if rest == b"\"".as_slice() {
        Ok(Some(text))
    } else {
        Ok(None)
    }
}

/// Whether a written value is one of a symbol of the kind.
#[tactic(auto, unfolding(crate::specs::Values::text_of))]
pub(crate) fn is_value(alloc: Global, kind: Kind, written: &[u8]) -> Result<bool, AllocError>
    ensures value { IfOk result (λ b. b ≡ is_some (text_of kind written.now)) }
    ensures memory { OnErr result (kind ≡ Kind.Text) }
{
    if kind == Kind::Text {
        return Ok(unquoted(alloc, written)?.is_some());
    }
    Ok(value_is_valid(kind, written))
}
