//! The declared symbols.
ghost use Rattle.std.specs.Prelude.{◌≡◌, ℕ, List, Some, IfOk, IfSome, IsTrue, is_some, true, length, option_map, slice_get, map as map_list};
ghost use Rattle.std.specs.FinMap as map;
ghost use Rattle.ks_symbols.specs.Configuration.{HasSymbolNames, kinds_in};
ghost use Rattle.ks_symbols.specs.Names.{is_in, is_name};

use crate::kinds::Kind;
use crate::names::Name;
use crate::order::Order;
use crate::table::{Rows, Table};
use std::alloc::{AllocError, Global};
use std::marker::Model;

/// The symbols that a Kconfig text declares, with their kinds, and its title.
#[derive(Drop)]
pub struct Symbols {
    kinds: Table<Kind>,
    title: Vec<u8>,
    order: Order,
}

impl Model for Symbols {
    ghost use Rattle.std.specs.FinMap.{get};
    ghost use Rattle.ks_symbols.specs.Configuration.{Declarations, HasSymbolNames, coded_declarations, kinds_in};

    ghost Value = { Declarations };

    ghost coded = { coded_declarations };

    ghost view = { λ s. record { kinds = kinds_in s.kinds; title = s.title.items } };

    ghost invariant = { λ s. HasSymbolNames (get (kinds_in s.kinds)) };
}

impl Symbols {
    pub(crate) fn new(kinds: Table<Kind>, title: Vec<u8>, order: Order) -> Symbols
        requires { HasSymbolNames (map.get (kinds_in kinds)) }
        ensures kinds { result.kinds ≡ kinds_in kinds }
        ensures title { result.title ≡ title.items }
    {
        Symbols {
            kinds,
            title,
            order,
        }
    }

    pub fn title(&self) -> &[u8]
        ensures { result.now ≡ self.now.title }
    {
        &self.title
    }

    /// The kind of a declared symbol.
    pub fn kind_of(&self, name: &[u8]) -> Option<Kind>
        ensures { result ≡ map.get self.now.kinds name.now }
    {
        match self.kinds.get(name) {
            Some((kind, _)) => Some(kind),
            None => None,
        }
    }

    /// The place of the symbol that is declared first.
    pub(crate) fn first_index(&self) -> usize {
        self.order.first()
    }

    /// The place of the symbol that is declared after the one at this place.
    pub(crate) fn index_after(&self, index: usize) -> usize {
        self.order.after(index)
    }

    /// How many symbols are declared.
    pub(crate) fn count(&self) -> usize
        ensures { result ≡ length (map.entries self.now.kinds) }
    {
        self.kinds.len()
    }

    /// The place and the kind of a declared symbol, which is looked for at the place `near` first.
    pub(crate) fn kind_near(&self, name: &[u8], near: usize) -> Option<(usize, Kind)>
        ensures kind { option_map (λ s. s.1) result ≡ map.get self.now.kinds name.now }
        ensures index { IfSome result (λ s. slice_get (map.entries self.now.kinds) s.0 ≡ Some (name.now, s.1)) }
    {
        match self.kinds.get_near(name, near) {
            Some((index, kind, _)) => Some((index, kind)),
            None => None,
        }
    }

    /// The symbols, by rising names.
    pub(crate) fn rows(&self) -> Rows<'_, Kind>
        ensures { map_list (λ e. (e.0, e.1.0)) result ≡ map.entries self.now.kinds }
    {
        self.kinds.rows()
    }

    /// The names of all symbols.
    pub fn names(&self, alloc: Global) -> Result<Vec<Name>, AllocError>
        ensures all { IfOk result (λ names. (x : List ℕ) → is_in names.items x ≡ is_some (map.get self.now.kinds x)) }
        ensures legal { IfOk result (λ names. (x : List ℕ) → is_in names.items x ≡ true → IsTrue (is_name x)) }
    {
        let mut names = Vec::new(alloc);
        for (name, _, _) in self.kinds.rows() {
            names.push(Name::new(alloc, name)?)?;
        }
        Ok(names)
    }

    /// Does nothing. Its contract says what symbols always have: legal names.
    pub(crate) fn keeps_names(&self)
        ensures { HasSymbolNames (map.get self.now.kinds) }
    {
        let _ = &self.kinds;
    }
}
