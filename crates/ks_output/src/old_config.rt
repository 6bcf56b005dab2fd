//! What an auto.conf said: a text for each name, in the typed form with its class, and the generation.
//!
//! It knows nothing of the lines that it was read from. Whoever compares it with new settings walks over its entries
//! in rising order of the names.
ghost use Rattle.std.specs.Prelude.{◌≡◌, option_map};
ghost use Rattle.std.specs.FinMap as map;
ghost use Rattle.std.specs.Iterator.{item_count};
ghost use Rattle.std.specs.Map.Iter.{TakesFirst};
ghost use Rattle.ks_output.specs.OldConfig.{HasNames, borrowed_old_entry, class_in};

use ks_symbols::{Class, Rows, Table};
use std::alloc::Global;
use std::marker::Model;

/// The texts and the generation of an auto.conf.
#[derive(Drop)]
pub struct OldConfig {
    texts: Table<Option<Class>>,
    generation: u64,
}

impl Model for OldConfig {
    ghost use Rattle.ks_output.specs.OldConfig.{HasNames, OldTexts, coded_old_texts};

    ghost Value = { OldTexts };

    ghost coded = { coded_old_texts };

    ghost view = { λ s. record { texts = s.texts; generation = s.generation } };

    ghost invariant = { λ s. HasNames s.texts };
}

/// The entries of an auto.conf, by rising names: name, class and text.
#[derive(Drop)]
pub struct OldEntries<'a> {
    inner: Rows<'a, Option<Class>>,
}

impl<'a> Model for OldEntries<'a> {
    ghost use Rattle.std.specs.Prelude.{List, ℕ, Option};
    ghost use Rattle.std.specs.Coded.{coded_list, coded×, coded_ℕ};
    ghost use Rattle.ks_symbols.specs.declared.kinds.Class.{Class};
    ghost use Rattle.ks_output.specs.OldConfig.{coded_text};

    ghost Value = { List (List ℕ × (Option Class × List ℕ)) };

    ghost coded = { coded_list (coded× (coded_list coded_ℕ) coded_text) };

    ghost view = { λ e. e.inner };
}

impl<'a> Iterator for OldEntries<'a> {
    type Item = (&'a [u8], Option<Class>, &'a [u8]);

    ghost next_gives = { TakesFirst borrowed_old_entry };

    ghost remaining = { item_count (λ rest. rest) };

    fn next(&mut self) -> Option<(&'a [u8], Option<Class>, &'a [u8])> {
        self.inner.next()
    }
}

impl OldConfig {
    /// No texts and generation 0, as where there is no auto.conf yet. It takes no memory.
    pub fn empty(alloc: Global) -> OldConfig
        ensures texts { result.texts ≡ map.empty }
        ensures generation { result.generation ≡ 0 }
        ensures names { HasNames result.texts }
    {
        OldConfig {
            texts: Table::empty(alloc),
            generation: 0,
        }
    }

    /// These texts, whose names are legal, and this generation.
    pub(crate) fn new(texts: Table<Option<Class>>, generation: u64) -> OldConfig
        requires { HasNames texts }
        ensures texts { result.texts ≡ texts }
        ensures generation { result.generation ≡ generation }
    {
        OldConfig { texts, generation }
    }

    /// The number of the synchronisation that wrote it, or 0.
    pub fn generation(&self) -> u64
        ensures { result ≡ self.now.generation }
    {
        self.generation
    }

    /// The text of a name.
    pub fn get(&self, name: &[u8]) -> Option<&[u8]>
        ensures { option_map (λ t. t.now) result ≡ option_map (λ t. t.1) (map.get self.now.texts name.now) }
    {
        match self.texts.get(name) {
            Some((_, text)) => Some(text),
            None => None,
        }
    }

    /// The class of a name, where the file is of the typed form. It takes no memory.
    pub fn class(&self, name: &[u8]) -> Option<Class>
        ensures { result ≡ class_in self.now.texts name.now }
    {
        match self.texts.get(name) {
            Some((class, _)) => class,
            None => None,
        }
    }

    /// The entries, by rising names.
    pub fn entries(&self) -> OldEntries<'_>
        ensures { result ≡ map.entries self.now.texts }
    {
        OldEntries {
            inner: self.texts.rows(),
        }
    }

    /// Does nothing. Its contract says what an old configuration always has: legal names.
    pub fn keeps_names(&self)
        ensures { HasNames self.now.texts }
    {
        let _ = &self.texts;
    }
}
