//! What one command has read of a tree so far, so that it reads no file twice: hundreds of objects have one auto.conf, and share
//! most of their stamps. A synchronisation drops all of it; a record changes nothing that is kept. Between commands nothing is kept,
//! since others may write then.
ghost use Rattle.std.specs.Prelude.{◌≡◌, ◌⊎◌, ◌++◌, ◌∷◌, [], List, ℕ, true, length, slice_get, string_bytes, vec_items, Ok, Err, Some, OnOk, IfOk, IfErr, IfSome, OnErr, IsErrOf, IsTrue};
ghost use Rattle.ks_symbols.specs.Names.{is_name, is_path};
ghost use Rattle.ks_fixdep.specs.SourceScan.{found_of, names_by};
ghost use Rattle.ks_fixdep.specs.Dialects.{names_in_as};
ghost use Rattle.ks_tree.specs.Frames.{Reads};
ghost use Rattle.ks_tree.specs.Files.{Files, content};
ghost use Rattle.ks_tree.specs.Paths.{auto_path, stamp_path};
ghost use Rattle.ks_tree.specs.Stamps.{HasNumber, IsStampRefusal};
ghost use Rattle.ks_engine.specs.Refusals.{Answers, IsAborted};
ghost use Rattle.ks_engine.specs.Recording.{scanned};
ghost use Rattle.ks_engine.specs.LastSync.{last_generation};
ghost use Rattle.ks_engine.specs.Queries.{IsSeen};
ghost use Rattle.ks_engine.specs.Caches.{are_placed, pairs_of, value_of, with_pair, Grows, IsCached, IsCacheOf, IsNoSource};

use crate::EngineError;
use crate::last_sync::read_generation;
use crate::query::Query;
use crate::sources::scan_file;
use indexmap::IndexMap;
use ks_fixdep::{NamesBySource, ScanRules};
use ks_symbols::{Name, Seed, name_text};
use ks_tree::{Tree, TreeError, read_stamp};
use std::alloc::{AllocError, Global};

/// The generation of the last completed synchronisation, the numbers of stamps, and the names of sources, as far as they were read.
#[derive(Drop)]
pub struct Cache {
    generation: Option<u64>,
    stamps: IndexMap<String, u64, Seed>,
    /// The place after the stamp that was asked for last. No answer depends on it.
    next_stamp: usize,
    /// For each path of a source its place among those that were scanned.
    sources: IndexMap<Vec<u8>, usize, Seed>,
    /// By which rules these were scanned.
    pub(crate) rules: ScanRules,
    /// What was found in the sources, and which of them the last object has.
    pub(crate) found: NamesBySource,
    /// The place after the source that was asked for last. No answer depends on it.
    next: usize,
    caches_sources: bool,
}

/// Keeps the number of a name's stamp.
fn insert_stamp(
    alloc: Global,
    stamps: &mut IndexMap<String, u64, Seed>,
    name: &str,
    number: u64,
) -> Result<(), AllocError>
    ensures added { OnOk result (pairs_of string_bytes stamps.new.entries ≡ with_pair name.now number (pairs_of string_bytes stamps.old.entries)) }
    ensures kept { OnErr result (stamps.new.entries ≡ stamps.old.entries) }
{
    let key = String::from_str(alloc, name)?;
    stamps.insert(key, number)?;
    Ok(())
}

/// Whether two rules find the same names.
fn are_same(one: ScanRules, other: ScanRules) -> bool
    ensures { result ≡ true → one ≡ other }
{
    match (one, other) {
        (ScanRules::Linux, ScanRules::Linux) => true,
        (ScanRules::UBoot(phase), ScanRules::UBoot(other)) => phase == other,
        (ScanRules::BusyBox, ScanRules::BusyBox) => true,
        (ScanRules::Coreboot, ScanRules::Coreboot) => true,
        _ => false,
    }
}

impl Cache {
    /// Nothing was read yet, and names and paths are sought by a seed. It takes no memory.
    pub fn with_seed(alloc: Global, seed: Seed) -> Cache
        ensures { (files : Files) → IsCacheOf files result }
    {
        Cache::empty(alloc, seed, true)
    }

    /// Nothing was read yet, and no source will be kept: of a single object each is read once anyway.
    pub(crate) fn of_one_object(alloc: Global, seed: Seed) -> Cache
        ensures { (files : Files) → IsCacheOf files result }
    {
        Cache::empty(alloc, seed, false)
    }

    fn empty(alloc: Global, seed: Seed, caches_sources: bool) -> Cache
        ensures { (files : Files) → IsCacheOf files result }
    {
        Cache {
            generation: None,
            stamps: IndexMap::with_hasher(alloc, seed),
            next_stamp: 0,
            sources: IndexMap::with_hasher(alloc, seed),
            rules: ScanRules::Linux,
            found: NamesBySource::with_seed(alloc, seed),
            next: 0,
            caches_sources,
        }
    }

    /// Forgets all.
    pub(crate) fn clear(&mut self)
        ensures { (files : Files) → IsCacheOf files self.new }
    {
        self.generation = None;
        self.stamps.clear();
        self.sources.clear();
        self.found.scan.clear();
    }

    /// Sources are scanned by these rules from now on. What others were scanned by is forgotten.
    pub(crate) fn scan_by(&mut self, rules: ScanRules)
        ensures cache { (files : Files) → IsCacheOf files self.old → IsCacheOf files self.new }
        ensures rules { self.new.rules ≡ rules }
    {
        if !are_same(self.rules, rules) {
            self.sources.clear();
            self.found.scan.clear();
        }
        self.rules = rules;
    }

    /// The generation of auto.conf, which is read once.
    pub(crate) fn generation<T: Tree>(
        &mut self,
        alloc: Global,
        tree: &mut T,
    ) -> Result<u64, EngineError>
        requires cache { T.is_honest → IsCacheOf (T.files tree.old) self.old }
        ensures reads { Reads T.Tree tree.old tree.new (IsErrOf result EngineError.Device) }
        ensures passed { OnOk result (T.failures tree.new ≡ T.failures tree.old) }
        ensures uncounted { IsErrOf result EngineError.OutOfMemory → T.failures tree.new ≡ T.failures tree.old }
        ensures cache { T.is_honest → IsCacheOf (T.files tree.new) self.new }
        ensures rules { self.new.rules ≡ self.old.rules }
        ensures read { T.is_honest → Answers (last_generation (content (T.files tree.old) auto_path)) (λ g. g) result }
    {
        if let Some(generation) = self.generation {
            return Ok(generation);
        }
        let generation = read_generation(alloc, tree)?;
        self.generation = Some(generation);
        Ok(generation)
    }

    /// The place and the number of a name's stamp, if it is kept. That after the last one is looked at first: objects name most
    /// symbols in one order, so that most names are compared once and not sought.
    fn cached_stamp(&self, name: &str) -> Option<(usize, u64)>
        ensures { IfSome result (λ kept. (value_of name.now (pairs_of string_bytes self.now.stamps.entries) ≡ Some kept.1)
            ⊎ ((i : ℕ) × (slice_get (pairs_of string_bytes self.now.stamps.entries) i ≡ Some (name.now, kept.1)))) }
    {
        if let Some((next, number)) = self.stamps.get_index(self.next_stamp) {
            if next.as_str() == name {
                return Some((self.next_stamp, *number));
            }
        }
        match self.stamps.get_full(name) {
            Some((place, _, number)) => Some((place, *number)),
            None => None,
        }
    }

    /// The number of a name's stamp, as a question sees it. What the tree has is read once.
    pub(crate) fn stamp<T: Tree>(
        &mut self,
        alloc: Global,
        tree: &mut T,
        query: Query<'_>,
        name: &[u8],
    ) -> Result<u64, TreeError>
        requires cache { T.is_honest → IsCacheOf (T.files tree.old) self.old }
        requires name { IsTrue (is_name name.now) }
        ensures reads { Reads T.Tree tree.old tree.new (IsErrOf result TreeError.Device) }
        ensures passed { OnOk result (T.failures tree.new ≡ T.failures tree.old) }
        ensures uncounted { IsErrOf result TreeError.OutOfMemory → T.failures tree.new ≡ T.failures tree.old }
        ensures cache { T.is_honest → IsCacheOf (T.files tree.new) self.new }
        ensures number { T.is_honest → (after : Files) → IsSeen query.entry (T.files tree.old) after
            → IfOk result (λ n. HasNumber (content after (stamp_path name.now)) n) }
        ensures refused { T.is_honest → (after : Files) → IsSeen query.entry (T.files tree.old) after
            → IfErr result (IsStampRefusal name.now (content after (stamp_path name.now))) }
    {
        if let Some(number) = query.predicted(name) {
            return Ok(number);
        }
        let text = name_text(name);
        if let Some((place, number)) = self.cached_stamp(text) {
            self.next_stamp = place.saturating_add(1);
            return Ok(number);
        }
        let named = Name::new(alloc, name)?;
        let number = read_stamp(alloc, tree, &named)?;
        self.next_stamp = self.stamps.len().saturating_add(1);
        insert_stamp(alloc, &mut self.stamps, text, number)?;
        Ok(number)
    }

    /// The place of the source at a path, if it is kept. The one after the last is looked at first: objects name most headers in
    /// one order, so that most paths are compared once and not sought.
    fn cached_source(&self, path: &[u8]) -> Option<usize>
        ensures { IfSome result (λ place. (value_of path.now (pairs_of vec_items self.now.sources.entries) ≡ Some place)
            ⊎ ((i : ℕ) × (slice_get (pairs_of vec_items self.now.sources.entries) i ≡ Some (path.now, place)))) }
    {
        if let Some((next, place)) = self.sources.get_index(self.next) {
            if next.as_slice() == path {
                return Some(*place);
            }
        }
        match self.sources.get(path) {
            Some(place) => Some(*place),
            None => None,
        }
    }

    /// Keeps the place of a source.
    fn insert_source(&mut self, alloc: Global, path: &[u8], place: usize) -> Result<(), AllocError>
        ensures cache { (files : Files) → IsCacheOf files self.old → IsCached self.old.rules files (found_of self.old.found.scan) path.now place → IsCacheOf files self.new }
        ensures found { self.new.found ≡ self.old.found }
        ensures rules { self.new.rules ≡ self.old.rules }
    {
        if !self.caches_sources {
            return Ok(());
        }
        self.next = place.saturating_add(1);
        let key = Vec::from_slice(alloc, path)?;
        self.sources.insert(key, place)?;
        Ok(())
    }

    /// The place of the file at a path among the sources. It is scanned once.
    pub(crate) fn source_at<T: Tree>(
        &mut self,
        alloc: Global,
        tree: &mut T,
        path: &[u8],
        buffer: &mut [u8],
    ) -> Result<usize, EngineError>
        requires cache { T.is_honest → IsCacheOf (T.files tree.old) self.old }
        requires path { IsTrue (is_path path.now) }
        requires buffer { length buffer.old ≡ 4096 }
        ensures cache { T.is_honest → IsCacheOf (T.files tree.new) self.new }
        ensures reads { Reads T.Tree tree.old tree.new (IsErrOf result EngineError.Device) }
        ensures passed { OnOk result (T.failures tree.new ≡ T.failures tree.old) }
        ensures uncounted { IsErrOf result EngineError.OutOfMemory → T.failures tree.new ≡ T.failures tree.old }
        ensures rules { self.new.rules ≡ self.old.rules }
        ensures grows { OnOk result (Grows (found_of self.old.found.scan) (found_of self.new.found.scan)) }
        ensures scanned { T.is_honest → IfOk result (IsCached self.old.rules (T.files tree.old) (found_of self.new.found.scan) path.now) }
        ensures refused { T.is_honest → IfErr result (λ e. IsAborted e ⊎ (scanned self.old.rules path.now (content (T.files tree.old) path.now) ≡ Err e)) }
    {
        if let Some(place) = self.cached_source(path) {
            self.next = place.saturating_add(1);
            return Ok(place);
        }
        let place = self.found.scan.len();
        scan_file(alloc, tree, path, buffer, self.rules, &mut self.found.scan)?;
        self.insert_source(alloc, path, place)?;
        Ok(place)
    }

    /// Scans the words of a command as the last source of an object. They are kept under no path.
    pub(crate) fn scan_command(&mut self, command: &[u8]) -> Result<(), AllocError>
        ensures cache { (files : Files) → IsCacheOf files self.old → IsCacheOf files self.new }
        ensures names { IsTrue (are_placed (found_of self.old.found.scan) self.old.found.sources.items)
            → OnOk result (names_by self.new.found ≡ names_by self.old.found ++ names_in_as self.old.rules command.now ∷ []) }
    {
        let place = self.found.scan.len();
        self.found.scan.begin_source();
        self.found.scan.feed_as(self.rules, command)?;
        self.found.scan.end_source_as(self.rules)?;
        self.found.sources.push(place)?;
        Ok(())
    }

    /// Forgets the sources if the file at a path is among them, since it is to be written.
    pub(crate) fn invalidate(&mut self, path: &[u8])
        ensures cache { (files : Files) → IsCacheOf files self.old → IsCacheOf files self.new }
        ensures gone { IsNoSource path.now self.new }
        ensures others { (q : List ℕ) → IsNoSource q self.old → IsNoSource q self.new }
    {
        if self.sources.contains_key(path) {
            self.sources.clear();
            self.found.scan.clear();
        }
    }
}
