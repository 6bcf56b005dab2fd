//! The scan of a text that comes in pieces, so that no source has to lie in memory whole. A name may be cut
//! by the border of two pieces, and the word that ends a piece may go on: so that word is kept, as far as a
//! name can come of it. A second word holds what is borrowed while the first takes the end of the next piece.
ghost use Rattle.std.specs.Prelude.{◌≡◌, ◌+◌, ◌-◌, ◌≤◌, ◌<◌, ◌++◌, [], List, ℕ, Option, Some, None, length, IsTrue, IfSome, take, map, nat_le, if◌then◌else◌};
ghost use Rattle.std.specs.List.{list_all};
ghost use Rattle.std.specs.Option.{option_copied};
ghost use Rattle.std.specs.Borrow.{sem};
ghost use Rattle.ks_symbols.specs.Names.{is_word_byte, is_name};
ghost use Rattle.ks_fixdep.specs.Scan.{placed, taken};
ghost use Rattle.ks_fixdep.specs.Stream.{kept, kept_name, lengthened, ended, borrowed_after, before_last_word};

use crate::name_iter::NameIter;
use crate::partial_token::PartialToken;
use crate::runs::{leading_word, trailing_word};
use std::marker::Model;

/// A scan of a text that comes in pieces. It keeps the word that ends the text so far.
#[derive(Drop)]
pub struct Scanner {
    word: PartialToken,
    borrowed: PartialToken,
}

impl Model for Scanner {
    ghost Value = { Option (List ℕ) };

    ghost view = { λ s. s.word };
}

/// The names that a piece completes: first the one that began before it, then those in it.
#[derive(Drop)]
pub struct Fed<'a> {
    pub carried: Option<&'a [u8]>,
    pub names: NameIter<'a>,
}

impl Scanner {
    ghost use Rattle.ks_fixdep.specs.NameIter.{names_left};
    ghost use Rattle.ks_fixdep.specs.Scanner.{Keeps};

    /// A scanner that stands after the empty text.
    pub fn new() -> Self
        ensures { result ≡ kept [] }
    {
        Scanner {
            word: PartialToken::new(),
            borrowed: PartialToken::new(),
        }
    }

    /// Takes the next piece of the text, and borrows the names whose run is followed by a byte of it. The places of
    /// those in the piece count from its beginning.
    pub fn feed<'a>(&'a mut self, piece: &'a [u8]) -> Fed<'a>
        ensures borrows { (t : List ℕ) → self.old ≡ kept t → ended (t ++ piece.now)
            ≡ ended t ++ borrowed_after t (option_copied result.carried) (names_left result.names) }
        ensures legal { IfSome result.carried (λ name. IsTrue (is_name name.now)) }
        ensures* after { sem 𝓛 (Keeps self.entry (λ new. (t : List ℕ) → self.old ≡ kept t → new ≡ kept (t ++ piece.now))) }
    {
        let head = leading_word(piece);
        self.word.push(head);
        if head.len() == piece.len() {
            return Fed {
                carried: None,
                names: NameIter::starting_at(piece, piece.len()),
            };
        }
        let tail = trailing_word(piece);
        self.borrowed.set(&self.word);
        self.word.clear();
        self.word.push(tail);
        Fed {
            carried: self.borrowed.name(),
            names: NameIter::starting_at(&piece[..piece.len() - tail.len()], head.len()),
        }
    }

    /// Ends the text. It gives the name whose run ends it, and stands after the empty text again.
    pub fn finish(&mut self) -> Option<&[u8]>
        ensures name { (t : List ℕ) → self.old ≡ kept t → taken t ≡ ended t ++ placed (length (before_last_word t)) (option_copied result) }
        ensures legal { IfSome result (λ name. IsTrue (is_name name.now)) }
        ensures* after { sem 𝓛 (Keeps self.entry (λ new. new ≡ kept [])) }
    {
        self.borrowed.set(&self.word);
        self.word.clear();
        self.borrowed.name()
    }
}
