//! The settings.
ghost use Rattle.std.specs.Prelude.{◌≡◌, IfOk, option_map};
ghost use Rattle.std.specs.FinMap as map;
ghost use Rattle.std.specs.Iterator.{item_count};
ghost use Rattle.std.specs.Map.Iter.{TakesFirst};
ghost use Rattle.ks_symbols.specs.Configuration.{IsConfiguration, borrowed_entry};

use crate::kinds::Kind;
use crate::table::{Rows, Table};
use std::alloc::{AllocError, Global};
use std::marker::Model;

/// The symbols that have a value, with their kinds and texts, and how many lines spoke of names that are not declared.
#[derive(Drop)]
pub struct Settings {
    entries: Table<Kind>,
    unknown: u64,
}

impl Model for Settings {
    ghost use Rattle.ks_symbols.specs.Configuration.{SettingsView, coded_settings_view, IsConfiguration};

    ghost Value = { SettingsView };

    ghost coded = { coded_settings_view };

    ghost view = { λ s. record { entries = s.entries; unknown = s.unknown } };

    ghost invariant = { λ s. IsConfiguration s.entries };
}

/// The entries of settings, by rising names: name, kind and text.
#[derive(Drop)]
pub struct Entries<'a> {
    inner: Rows<'a, Kind>,
}

impl<'a> Model for Entries<'a> {
    ghost use Rattle.std.specs.Prelude.{List, ℕ};
    ghost use Rattle.std.specs.Coded.{coded_list, coded×, coded_ℕ};
    ghost use Rattle.ks_symbols.specs.declared.kinds.Kind.{Kind};
    ghost use Rattle.ks_symbols.specs.Kinds.{coded_kind};

    ghost Value = { List (List ℕ × (Kind × List ℕ)) };

    ghost coded = { coded_list (coded× (coded_list coded_ℕ) (coded× coded_kind (coded_list coded_ℕ))) };

    ghost view = { λ e. e.inner };
}

impl<'a> Iterator for Entries<'a> {
    type Item = (&'a [u8], Kind, &'a [u8]);

    ghost next_gives = { TakesFirst borrowed_entry };

    ghost remaining = { item_count (λ rest. rest) };

    fn next(&mut self) -> Option<(&'a [u8], Kind, &'a [u8])> {
        self.inner.next()
    }
}

impl Settings {
    /// The kind and the text of a symbol that has a value.
    pub fn get(&self, name: &[u8]) -> Option<(Kind, &[u8])>
        ensures { option_map (λ s. (s.0, s.1.now)) result ≡ map.get self.now.entries name.now }
    {
        self.entries.get(name)
    }

    /// The entries, by rising names.
    pub fn entries(&self) -> Entries<'_>
        ensures { result ≡ map.entries self.now.entries }
    {
        Entries {
            inner: self.entries.rows(),
        }
    }

    /// How many lines spoke of names that are not declared.
    pub fn unknown(&self) -> u64
        ensures { result ≡ self.now.unknown }
    {
        self.unknown
    }

    /// Does nothing. Its contract says what settings always are: a configuration.
    pub fn keeps_configuration(&self)
        ensures { IsConfiguration self.now.entries }
    {
        let _ = &self.entries;
    }
}

/// Settings as the lines of a `.config` give them, which may not be asked before they are known to be a configuration.
#[derive(Drop)]
pub struct SettingsBuilder {
    entries: Table<Kind>,
    unknown: u64,
}

impl Model for SettingsBuilder {
    ghost use Rattle.ks_symbols.specs.Configuration.{SettingsView, coded_settings_view};

    ghost Value = { SettingsView };

    ghost coded = { coded_settings_view };

    ghost view = { λ s. record { entries = s.entries; unknown = s.unknown } };
}

impl SettingsBuilder {
    /// The settings of these entries, and how many lines spoke of names that are not declared.
    pub fn new(entries: Table<Kind>, unknown: u64) -> SettingsBuilder
        ensures entries { result.entries ≡ entries }
        ensures unknown { result.unknown ≡ unknown }
    {
        SettingsBuilder { entries, unknown }
    }

    /// The settings. They are in order since their lines were read, so no memory is asked for.
    pub fn finish(self, _alloc: Global) -> Result<Settings, AllocError>
        requires { IsConfiguration self.entries }
        ensures { IfOk result (λ s. s ≡ self) }
    {
        Ok(Settings {
            entries: self.entries,
            unknown: self.unknown,
        })
    }
}
