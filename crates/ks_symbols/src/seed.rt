//! How names and paths are hashed. They come from the files that are read, so whoever writes these can choose them, and under a
//! hash that is known choose such as collide: n of them would take n times n steps. A seed is a number that goes into the hash
//! before the text; who doesn't know it can't choose. No answer depends on it. The program draws one when it starts.
//!
//! They are hashed as text, in steps of 16 bytes. A list of bytes would be hashed byte by byte, ten times as slowly.
ghost use Rattle.std.specs.Prelude.{◌≡◌, IsTrue};
ghost use Rattle.ks_symbols.specs.Names.{is_name, is_path};

use std::hash::{BuildHasher, FoldHasher, Hasher};

/// What makes the hashers of a seed.
#[derive(Clone, Copy)]
pub struct Seed {
    /// A hasher that has taken in the seed.
    started: FoldHasher,
}

impl Seed {
    /// The seed of a number.
    pub fn new(number: u64) -> Seed {
        let mut started = FoldHasher::default();
        started.write_u64(number);
        Seed { started }
    }
}

impl BuildHasher for Seed {
    type Hasher = FoldHasher;

    ghost build_hasher = { λ s. s.started };

    fn build_hasher(&self) -> FoldHasher {
        self.started
    }
}

/// A name as text.
#[inline]
pub fn name_text(name: &[u8]) -> &str
    requires { IsTrue (is_name name.now) }
    ensures { result.now ≡ name.now }
{
    // All its bytes are ASCII, which is proved.
    unsafe { str::from_utf8_unchecked(name) }
}

/// A path as text.
#[inline]
pub fn path_text(path: &[u8]) -> &str
    requires { IsTrue (is_path path.now) }
    ensures { result.now ≡ path.now }
{
    // All its bytes are ASCII, which is proved.
    unsafe { str::from_utf8_unchecked(path) }
}
