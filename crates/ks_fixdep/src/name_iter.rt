//! The names of a text, one by one. No byte of a run is looked at twice.
ghost use Rattle.std.specs.Prelude.{◌≡◌, ◌≤◌, drop, length};
ghost use Rattle.std.specs.Iterator.{YieldsFirstBy, item_count};
ghost use Rattle.ks_fixdep.specs.Scan.{names_after};

use crate::prefix_finder::PrefixFinder;
use crate::runs::{PREFIX, leading_word};
use crate::scan::{Found, name_at};

/// An iterator over the names of a text, by rising place.
#[derive(Drop)]
pub struct NameIter<'a> {
    text: &'a [u8],
    next_place: usize,
    ghost inside: { next_place ≤ length text.now },
}

impl<'a> NameIter<'a> {
    ghost use Rattle.ks_fixdep.specs.NameIter.{seen_found, names_left};

    /// The names of what stands from a place on. No byte before it is looked at, so a word may begin there.
    pub(crate) fn starting_at(text: &'a [u8], place: usize) -> NameIter<'a>
        requires { place ≤ length text.now }
        ensures { names_left result ≡ names_after 0 place (drop place text.now) }
    {
        NameIter {
            text,
            next_place: place,
        }
    }

    /// The next name, by a search that stands ready.
    pub(crate) fn next_by(&mut self, finder: &PrefixFinder) -> Option<Found<'a>>
        ensures { YieldsFirstBy seen_found names_left self.old result self.new }
    {
        while let Some(skipped) = finder.find(&self.text[self.next_place..]) {
            let rest = &self.text[self.next_place..];
            let place = self.next_place + skipped;
            let run = leading_word(&self.text[place + PREFIX.len()..]);
            self.next_place = place + PREFIX.len() + run.len();
            if let Some(name) = name_at(rest, skipped, run) {
                return Some(Found { place, name });
            }
        }
        self.next_place = self.text.len();
        None
    }
}

impl<'a> Iterator for NameIter<'a> {
    ghost use Rattle.ks_fixdep.specs.NameIter.{seen_found, names_left};

    type Item = Found<'a>;

    ghost next_gives = { YieldsFirstBy seen_found names_left };

    ghost remaining = { item_count names_left };

    fn next(&mut self) -> Option<Found<'a>> {
        self.next_by(&PrefixFinder::new())
    }
}
