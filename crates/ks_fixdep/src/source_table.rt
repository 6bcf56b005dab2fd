//! The names of many sources, each once for all of them. Headers name the same symbols again and again, and hundreds of objects
//! have the same headers: so the names of a source are kept as their places in one table, and are hashed when the source is read
//! and never again.
ghost use Rattle.std.specs.Prelude.{◌≡◌, ◌++◌, ◌∷◌, [], ℕ, IfSome, IsTrue, OnErr, OnOk, bytes_eq, get_or, length, slice_get};
ghost use Rattle.std.specs.List.{list_any};
ghost use Rattle.std.specs.Option.{option_copied, option_map};
ghost use Rattle.ks_symbols.specs.Names.{is_name};
ghost use Rattle.ks_fixdep.specs.SymbolPatterns.{legal, of_module};
ghost use Rattle.ks_fixdep.specs.FoundNames.{all_noted, noted};
ghost use Rattle.ks_fixdep.specs.SourceTable.{names_at};

use crate::found_names::FoundNames;
use crate::place_set::PlaceSet;
use ks_symbols::{Seed, name_is_legal};
use std::alloc::{AllocError, Global};
use std::marker::Model;

/// The names of the sources that have ended, and of the one that is being read.
#[derive(Drop)]
pub(crate) struct SourceTable {
    alloc: Global,
    /// All names, each once.
    names: FoundNames,
    /// The places of the names of each source that has ended.
    sources: Vec<Vec<usize>>,
    /// Those of the names of the source that is being read.
    current: PlaceSet,
}

impl Model for SourceTable {
    ghost use Rattle.ks_fixdep.specs.SourceTable.{SourceNames, AreWithin, lists_at, names_at};

    ghost Value = { SourceNames };

    ghost view = { λ t. record { names = t.names; found = lists_at t.names t.sources.items; current = names_at t.names t.current } };

    ghost invariant = { λ t. AreWithin t.names t.sources.items t.current };
}

impl SourceTable {
    /// No sources. It takes no memory.
    pub(crate) fn new(alloc: Global, seed: Seed) -> Self
        ensures found { result.found ≡ [] }
        ensures current { result.current ≡ [] }
    {
        SourceTable {
            alloc,
            names: FoundNames::with_seed(alloc, seed),
            sources: Vec::new(alloc),
            current: PlaceSet::new(alloc),
        }
    }

    /// Forgets the names of the source that is being read.
    pub(crate) fn restart(&mut self)
        ensures found { self.new.found ≡ self.old.found }
        ensures current { self.new.current ≡ [] }
    {
        self.current.clear();
    }

    /// Forgets all sources. The names stay, so that none is copied again.
    pub(crate) fn clear(&mut self)
        ensures { self.new.found ≡ [] }
    {
        self.sources.clear();
    }

    /// Whether a name is the last one of the source that is being read. A source often names a symbol twice in a row, and this
    /// needs no hash.
    fn ends_with(&self, name: &[u8]) -> bool
        ensures { IsTrue result → IsTrue (list_any (bytes_eq name.now) self.now.current) }
    {
        let Some(place) = self.current.last() else {
            return false;
        };
        match self.names.name_at(place) {
            Some(last) => name == last,
            None => false,
        }
    }

    /// Notes a name of the source that is being read.
    pub(crate) fn note(&mut self, name: &[u8]) -> Result<(), AllocError>
        requires { IsTrue (is_name name.now) }
        ensures found { self.new.found ≡ self.old.found }
        ensures current { OnOk result (self.new.current ≡ noted self.old.current name.now) }
    {
        if self.ends_with(name) {
            return Ok(());
        }
        self.note_by_hash(name)
    }

    /// Notes a name that is not likely to be the last one.
    fn note_by_hash(&mut self, name: &[u8]) -> Result<(), AllocError>
        requires { IsTrue (is_name name.now) }
        ensures found { self.new.found ≡ self.old.found }
        ensures current { OnOk result (self.new.current ≡ noted self.old.current name.now) }
    {
        let place = self.names.place_of(name)?;
        self.current.insert(place)?;
        Ok(())
    }

    /// Notes these bytes, where they are a name.
    pub(crate) fn note_legal(&mut self, name: &[u8]) -> Result<(), AllocError>
        ensures found { self.new.found ≡ self.old.found }
        ensures current { OnOk result (self.new.current ≡ all_noted self.old.current (legal name.now)) }
    {
        if name_is_legal(name) {
            return self.note(name);
        }
        Ok(())
    }

    /// Notes the tristate of which this is the macro as a module, if it ends as one.
    fn note_module(&mut self, macro_end: &[u8]) -> Result<(), AllocError>
        ensures found { self.new.found ≡ self.old.found }
        ensures current { OnOk result (self.new.current ≡ all_noted self.old.current (of_module macro_end.now)) }
    {
        match macro_end.strip_suffix(b"_MODULE") {
            Some(tristate) => self.note_legal(tristate),
            None => Ok(()),
        }
    }

    /// Notes what two parts are together, and before it the tristate of which that is the macro as a module, where these are names.
    pub(crate) fn note_joined(&mut self, prefix: &[u8], rest: &[u8]) -> Result<(), AllocError>
        ensures found { self.new.found ≡ self.old.found }
        ensures current { OnOk result (self.new.current ≡ all_noted self.old.current (of_module (prefix.now ++ rest.now) ++ legal (prefix.now ++ rest.now))) }
    {
        let mut name = Vec::from_slice(self.alloc, prefix)?;
        name.extend_from_slice(rest)?;
        self.note_module(&name)?;
        self.note_legal(&name)
    }

    /// Ends the source that is being read.
    pub(crate) fn end_source(&mut self) -> Result<(), AllocError>
        ensures ok { OnOk result (self.new.found ≡ self.old.found ++ self.old.current ∷ []) }
        ensures current { OnOk result (self.new.current ≡ []) }
        ensures err { OnErr result (self.new.found ≡ self.old.found) }
    {
        let places = Vec::from_slice(self.alloc, self.current.as_slice())?;
        self.sources.push(places)?;
        self.current.clear();
        Ok(())
    }

    /// How many sources have ended.
    pub(crate) fn len(&self) -> usize
        ensures { result ≡ length self.now.found }
    {
        self.sources.len()
    }

    /// The places of the names of a source. One that there is not has none.
    pub(crate) fn source(&self, source: usize) -> &[usize]
        ensures { names_at self.now.names result.now ≡ get_or self.now.found source [] }
    {
        match self.sources.get(source) {
            Some(places) => places.as_slice(),
            None => &[],
        }
    }

    /// The name at a place, which stands at no other.
    pub(crate) fn name(&self, place: usize) -> Option<&[u8]>
        ensures value { option_copied result ≡ slice_get self.now.names place }
        ensures legal { IfSome result (λ x. IsTrue (is_name x.now)) }
        ensures only { IfSome result (λ x. (i : ℕ) → slice_get self.now.names i ≡ Some x.now → i ≡ place) }
    {
        self.names.name_at(place)
    }
}
