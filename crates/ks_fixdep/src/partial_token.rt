//! A word that a piece of a text ends with, and that may go on in the next one. It is kept as far as a name can come of it:
//! `CONFIG_`, the longest name and `_MODULE` are 142 bytes together, and a longer word has no name, wherever it ends.
ghost use Rattle.std.specs.Prelude.{◌≡◌, ◌+◌, ◌-◌, ◌≤◌, ◌<◌, [], List, ℕ, Option, Some, None, length, IsTrue, IfSome, take, if◌then◌else◌};
ghost use Rattle.std.specs.List.{list_all};
ghost use Rattle.std.specs.Option.{option_copied};
ghost use Rattle.ks_symbols.specs.Names.{is_word_byte, is_name};
ghost use Rattle.ks_fixdep.specs.Stream.{kept_name, lengthened};

use crate::runs::name_of_whole;
use std::marker::Model;

const LONGEST_WORD: usize = 142;

/// A word that may go on, as far as a name can come of it.
#[derive(Drop)]
pub(crate) struct PartialToken {
    bytes: [u8; LONGEST_WORD],
    len: usize,
    is_too_long: bool,
}

impl Model for PartialToken {
    ghost Value = { Option (List ℕ) };

    ghost view = { λ w. if w.is_too_long then None else Some (take w.len w.bytes) };

    ghost invariant = { λ w. (w.len ≤ 142) × IsTrue (list_all is_word_byte (take w.len w.bytes)) };
}

impl PartialToken {
    pub(crate) fn new() -> Self
        ensures { result ≡ Some [] }
    {
        PartialToken {
            bytes: [0; LONGEST_WORD],
            len: 0,
            is_too_long: false,
        }
    }

    /// Becomes a copy of another word. No more is copied than that word's own bytes.
    pub(crate) fn set(&mut self, other: &PartialToken)
        ensures { self.new ≡ other.now }
    {
        self.bytes[..other.len].copy_from_slice(&other.bytes[..other.len]);
        self.len = other.len;
        self.is_too_long = other.is_too_long;
    }

    pub(crate) fn clear(&mut self)
        ensures { self.new ≡ Some [] }
    {
        self.len = 0;
        self.is_too_long = false;
    }

    /// Lengthens the word.
    pub(crate) fn push(&mut self, more: &[u8])
        requires { IsTrue (list_all is_word_byte more.now) }
        ensures { self.new ≡ lengthened self.old more.now }
    {
        if more.len() > LONGEST_WORD - self.len {
            self.is_too_long = true;
            return;
        }
        let end = self.len + more.len();
        self.bytes[self.len..end].copy_from_slice(more);
        self.len = end;
    }

    /// The word, where a name can come of it.
    pub(crate) fn bytes(&self) -> Option<&[u8]>
        ensures value { option_copied result ≡ self.now }
        ensures passes { IfSome result (λ word. IsTrue (list_all is_word_byte word.now)) }
    {
        if self.is_too_long {
            return None;
        }
        Some(&self.bytes[..self.len])
    }

    /// Its name, if it ends here and has one.
    pub(crate) fn name(&self) -> Option<&[u8]>
        ensures value { option_copied result ≡ kept_name self.now }
        ensures legal { IfSome result (λ name. IsTrue (is_name name.now)) }
    {
        if self.is_too_long {
            return None;
        }
        name_of_whole(&self.bytes[..self.len])
    }
}
