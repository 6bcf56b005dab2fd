//! The names found in one source, each once. A header names the same symbol many times, and one line of the
//! command file is enough. The order of first places is kept, so that the same sources give the same file.
ghost use Rattle.std.specs.Prelude.{◌≡◌, ◌↔◌, [], ℕ, IfOk, IfSome, IsTrue, OnOk, OnErr, length, map, slice_get};
ghost use Rattle.std.specs.Iterator.{item_count};
ghost use Rattle.std.specs.Map.Iter.{TakesFirst};
ghost use Rattle.std.specs.Option.{option_copied};
ghost use Rattle.ks_symbols.specs.Names.{is_name};
ghost use Rattle.ks_fixdep.specs.FoundNames.{borrowed_text, names_in};

use crate::prefix_finder::PrefixFinder;
use crate::scan::names;
use indexmap::IndexSet;
use ks_symbols::{Seed, name_text};
use std::alloc::{AllocError, Global};
use std::marker::Model;
use std::slice::Iter;

/// Legal names in the order in which they were first noted, each once.
#[derive(Drop)]
pub struct FoundNames {
    alloc: Global,
    names: IndexSet<String, Seed>,
}

impl Model for FoundNames {
    ghost use Rattle.std.specs.Prelude.{List, ℕ, map, string_bytes};
    ghost use Rattle.ks_fixdep.specs.FoundNames.{AreFoundNames};

    ghost Value = { List (List ℕ) };

    ghost view = { λ f. map string_bytes f.names.keys };

    ghost invariant = { λ f. AreFoundNames (map string_bytes f.names.keys) };
}

impl FoundNames {
    ghost use Rattle.ks_fixdep.specs.FoundNames.{noted, AreFoundNames};

    /// No names. It takes no memory until one is noted.
    pub fn new(alloc: Global) -> Self
        ensures { result ≡ [] }
    {
        FoundNames::with_seed(alloc, Seed::new(0))
    }

    /// No names, which are sought by a seed.
    pub fn with_seed(alloc: Global, seed: Seed) -> Self
        ensures { result ≡ [] }
    {
        FoundNames {
            alloc,
            names: IndexSet::with_hasher(alloc, seed),
        }
    }

    /// Notes a name, unless it was noted before.
    pub fn note(&mut self, name: &[u8]) -> Result<(), AllocError>
        requires { IsTrue (is_name name.now) }
        ensures ok { OnOk result (self.new ≡ noted self.old name.now) }
        ensures err { OnErr result (self.new ≡ self.old) }
    {
        self.place_of(name)?;
        Ok(())
    }

    /// Notes a name, unless it was noted before, and gives its place among the names.
    pub(crate) fn place_of(&mut self, name: &[u8]) -> Result<usize, AllocError>
        requires { IsTrue (is_name name.now) }
        ensures ok { OnOk result (self.new ≡ noted self.old name.now) }
        ensures place { IfOk result (λ i. slice_get self.new i ≡ Some name.now) }
        ensures only { IfOk result (λ i. (j : ℕ) → slice_get self.new j ≡ Some name.now → j ≡ i) }
        ensures err { OnErr result (self.new ≡ self.old) }
    {
        let text = name_text(name);
        if let Some((place, _)) = self.names.get_full(text) {
            return Ok(place);
        }
        let owned = String::from_str(self.alloc, text)?;
        let (place, _) = self.names.insert_full(owned)?;
        Ok(place)
    }

    /// The name at a place, which stands at no other.
    pub(crate) fn name_at(&self, place: usize) -> Option<&[u8]>
        ensures value { option_copied result ≡ slice_get self.now place }
        ensures legal { IfSome result (λ x. IsTrue (is_name x.now)) }
        ensures only { IfSome result (λ x. (i : ℕ) → slice_get self.now i ≡ Some x.now → i ≡ place) }
    {
        match self.names.get_index(place) {
            Some(name) => Some(name.as_bytes()),
            None => None,
        }
    }

    /// How many names there are.
    pub fn len(&self) -> usize
        ensures { result ≡ length self.now }
    {
        self.names.len()
    }

    /// Whether there is none.
    pub fn is_empty(&self) -> bool
        ensures { IsTrue result ↔ (self.now ≡ []) }
    {
        self.names.len() == 0
    }

    /// The names, in the order in which they were first noted.
    pub fn names(&self) -> BorrowedNames<'_>
        ensures value { result ≡ self.now }
        ensures found { AreFoundNames result }
    {
        BorrowedNames {
            inner: self.names.as_slice().iter(),
        }
    }
}

/// Names that are borrowed one by one.
#[derive(Drop)]
pub struct BorrowedNames<'a> {
    inner: Iter<'a, String>,
}

impl<'a> Model for BorrowedNames<'a> {
    ghost use Rattle.std.specs.Prelude.{List, ℕ, map, string_bytes};
    ghost use Rattle.std.specs.Coded.{coded_list, coded_ℕ};
    ghost use Rattle.std.specs.Slice.Iter.{iter_rest};

    ghost Value = { List (List ℕ) };

    ghost coded = { coded_list (coded_list coded_ℕ) };

    ghost view = { λ n. map string_bytes (iter_rest n.inner) };
}

impl<'a> Iterator for BorrowedNames<'a> {
    type Item = &'a [u8];

    ghost next_gives = { TakesFirst borrowed_text };

    ghost remaining = { item_count (λ rest. rest) };

    fn next(&mut self) -> Option<&'a [u8]> {
        match self.inner.next() {
            Some(name) => Some(name.as_bytes()),
            None => None,
        }
    }
}

/// The names of a text, each once.
pub(crate) fn names_of_text(alloc: Global, text: &[u8]) -> Result<FoundNames, AllocError>
    ensures { IfOk result (λ found. found ≡ names_in text.now) }
{
    let finder = PrefixFinder::new();
    let mut found = FoundNames::new(alloc);
    let mut left = names(text);
    while let Some(next) = left.next_by(&finder) {
        found.note(next.name)?;
    }
    Ok(found)
}
