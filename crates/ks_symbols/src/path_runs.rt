//! How far the path goes that a text begins with: sixteen bytes are looked at side by side, as in `word_runs`.
ghost use Rattle.std.specs.Prelude.{◌≡◌, ◌+◌, ◌++◌, ◌<◌, ◌≤◌, ℕ, IsTrue, length, slice_index, take, true};
ghost use Rattle.std.specs.List.{list_all};
ghost use Rattle.ks_symbols.specs.Names.{is_path_byte};

use crate::word_runs::{LANES, first_set};
use std::simd::prelude::*;

/// How many of the bytes at a place, from the first, are those of a path.
#[inline(always)]
fn path_run_at(text: &[u8], at: usize) -> usize
    requires { at + LANES ≤ length text.now }
    ensures fits { result ≤ LANES }
    ensures passes { (k : ℕ) → at ≤ k → k < at + result → is_path_byte (slice_index text.now k) ≡ true }
{
    let bytes = u8x16::from_slice(&text[at..]);
    let no_print = (bytes - u8x16::splat(b'!')).simd_ge(u8x16::splat(94));
    let read_otherwise = bytes.simd_eq(u8x16::splat(b'#'))
        | bytes.simd_eq(u8x16::splat(b'$'))
        | bytes.simd_eq(u8x16::splat(b'\\'));
    first_set((no_print | read_otherwise).to_bitmask(), LANES)
}

/// How many bytes at the front are those of a path. Near the end of the text it may answer fewer.
#[inline(always)]
fn path_run(text: &[u8]) -> usize
    ensures fits { result ≤ length text.now }
    ensures passes { IsTrue (list_all is_path_byte (take result text.now)) }
{
    let mut end = 0;
    while text.len() - end >= LANES {
        let run = path_run_at(text, end);
        if run < LANES {
            return end + run;
        }
        end += LANES;
    }
    end
}

/// Bytes of a path at the front, and what follows them. Near the end of the text there may be fewer than there could.
#[inline(always)]
pub fn split_path_bytes(text: &[u8]) -> (&[u8], &[u8])
    ensures passes { IsTrue (list_all is_path_byte result.0.now) }
    ensures split { text.now ≡ result.0.now ++ result.1.now }
{
    text.split_at(path_run(text))
}
