//! How far the word goes that a text begins with.
//!
//! auto.conf is read for each record, and most of it are names, so sixteen bytes are looked at side by side, and the first
//! that is none of a word is found by its bit. The last sixteen may go back over bytes that were looked at before: alone, the
//! bytes after them would cost more than all others.
ghost use Rattle.std.specs.Prelude.{◌≡◌, ◌+◌, ◌==◌, ◌<◌, ◌≤◌, ℕ, IsTrue, length, slice_index, take, true, false, if◌then◌else◌};
ghost use Rattle.std.specs.Int.{w64, trailing_zeros};
ghost use Rattle.std.specs.List.{list_all, prefix_len};
ghost use Rattle.ks_symbols.specs.Names.{is_word_byte};

use crate::names::is_word_byte;
use std::simd::prelude::*;

/// How many bytes are looked at side by side.
pub(crate) const LANES: usize = 16;

/// The same where most words are longer.
pub(crate) const WIDE: usize = 32;

/// The place of the lowest bit that is set, or where none is how many bytes there are.
#[inline(always)]
pub(crate) fn first_set(bits: u64, lanes: usize) -> usize
    ensures { result ≡ (if bits == 0 then lanes else trailing_zeros w64 bits) }
{
    if bits == 0 {
        lanes
    } else {
        bits.trailing_zeros() as usize
    }
}

/// How many of the bytes at a place, from the first, are word bytes.
#[inline(always)]
fn run_at(text: &[u8], at: usize) -> usize
    requires { at + LANES ≤ length text.now }
    ensures fits { result ≤ LANES }
    ensures passes { (k : ℕ) → at ≤ k → k < at + result → is_word_byte (slice_index text.now k) ≡ true }
    ensures stops { result < LANES → is_word_byte (slice_index text.now (at + result)) ≡ false }
{
    let bytes = u8x16::from_slice(&text[at..]);
    let letters = (bytes | u8x16::splat(0x20)) - u8x16::splat(b'a');
    let digits = (bytes - u8x16::splat(b'0')).simd_min(u8x16::splat(10)) + u8x16::splat(16);
    let no_alphanumeric = letters.simd_min(digits).simd_eq(u8x16::splat(26));
    first_set(
        (no_alphanumeric & bytes.simd_ne(u8x16::splat(b'_'))).to_bitmask(),
        LANES,
    )
}

/// The same of twice as many bytes.
#[inline(always)]
pub(crate) fn wide_run_at(text: &[u8], at: usize) -> usize
    requires { at + WIDE ≤ length text.now }
    ensures fits { result ≤ WIDE }
    ensures passes { (k : ℕ) → at ≤ k → k < at + result → is_word_byte (slice_index text.now k) ≡ true }
    ensures stops { result < WIDE → is_word_byte (slice_index text.now (at + result)) ≡ false }
{
    let bytes = u8x32::from_slice(&text[at..]);
    let letters = (bytes | u8x32::splat(0x20)) - u8x32::splat(b'a');
    let digits = (bytes - u8x32::splat(b'0')).simd_min(u8x32::splat(10)) + u8x32::splat(16);
    let no_alphanumeric = letters.simd_min(digits).simd_eq(u8x32::splat(26));
    first_set(
        (no_alphanumeric & bytes.simd_ne(u8x32::splat(b'_'))).to_bitmask(),
        WIDE,
    )
}

/// How many bytes at the front are word bytes, byte by byte.
fn short_word_end(text: &[u8]) -> usize
    ensures value { result ≡ prefix_len is_word_byte text.now }
    ensures fits { result ≤ length text.now }
{
    let mut end = 0;
    while end < text.len() && is_word_byte(text[end]) {
        end += 1;
    }
    end
}

/// How many bytes at the front are word bytes, of which so many are known.
#[inline(always)]
pub(crate) fn word_end(text: &[u8], known: usize) -> usize
    requires fits { known ≤ length text.now }
    requires passes { IsTrue (list_all is_word_byte (take known text.now)) }
    ensures value { result ≡ prefix_len is_word_byte text.now }
    ensures fits { result ≤ length text.now }
{
    if text.len() < LANES {
        return short_word_end(text);
    }
    let last = text.len() - LANES;
    let mut end = known;
    while end < last {
        let run = run_at(text, end);
        if run < LANES {
            return end + run;
        }
        end += LANES;
    }
    last + run_at(text, last)
}
