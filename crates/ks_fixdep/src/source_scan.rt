//! The names of sources. Each source comes in pieces, and one source after the other: the scanner and what was found are one
//! value, which stands after the text so far. Whoever reads sources needs to know no more of the scan than that.
ghost use Rattle.std.specs.Prelude.{◌≡◌, ◌++◌, ◌∷◌, [], List, ℕ, IfSome, IsTrue, OnErr, OnOk, length, map};
ghost use Rattle.std.specs.Option.{option_copied};
ghost use Rattle.ks_symbols.specs.Names.{is_name};
ghost use Rattle.ks_fixdep.specs.Dialects.{names_in_as};
ghost use Rattle.ks_fixdep.specs.FoundNames.{all_noted, names_in};
ghost use Rattle.ks_fixdep.specs.NameIter.{names_left};
ghost use Rattle.ks_fixdep.specs.Scan.{bare_name};
ghost use Rattle.ks_fixdep.specs.SourceScan.{found_of};
ghost use Rattle.ks_fixdep.specs.Stream.{list_of};
ghost use Rattle.ks_fixdep.specs.SymbolPatterns.{AreShort};

use crate::dialect::ScanRules;
use crate::found_names::FoundNames;
use crate::name_iter::NameIter;
use crate::place_set::PlaceSet;
use crate::prefix_finder::PrefixFinder;
use crate::scanner::Scanner;
use crate::source_table::SourceTable;
use crate::symbol_patterns::SymbolPatterns;
use crate::word_scan::WordScan;
use ks_symbols::Seed;
use std::alloc::{AllocError, Global};

/// The names of the sources that have ended, and of the one that is being read.
#[derive(Drop)]
pub struct SourceScan {
    finder: PrefixFinder,
    scanner: Scanner,
    symbol_patterns: WordScan,
    pub(crate) table: SourceTable,
}

/// The names of the prerequisites of an object, and of what else is scanned of it, which are among the sources of a scan.
#[derive(Drop)]
pub struct NamesBySource {
    pub scan: SourceScan,
    /// For each prerequisite, in their order, which of the sources it is, counted from 0; and then for all else.
    pub sources: Vec<usize>,
    /// The names that stand in the text of a record already.
    pub(crate) listed: PlaceSet,
}

/// Notes the names that are left, in their order.
fn note_all(
    table: &mut SourceTable,
    mut names: NameIter<'_>,
    finder: &PrefixFinder,
) -> Result<(), AllocError>
    ensures found { table.new.found ≡ table.old.found }
    ensures current { OnOk result (table.new.current ≡ all_noted table.old.current (map bare_name (names_left names.entry))) }
{
    while let Some(next) = names.next_by(finder) {
        table.note(next.name)?;
    }
    Ok(())
}

/// Notes a name, if there is one.
fn note_carried(table: &mut SourceTable, carried: Option<&[u8]>) -> Result<(), AllocError>
    requires { IfSome carried (λ name. IsTrue (is_name name.now)) }
    ensures found { table.new.found ≡ table.old.found }
    ensures current { OnOk result (table.new.current ≡ all_noted table.old.current (list_of (option_copied carried.entry))) }
{
    match carried {
        Some(name) => table.note(name),
        None => Ok(()),
    }
}

impl SourceScan {
    ghost use Rattle.ks_fixdep.specs.SourceScan.{StandsAfter, StandsAfterAs};
    ghost use Rattle.ks_fixdep.specs.WordScan.{Known, Knows, at_start, known_after, word_ended};
    ghost use Rattle.ks_fixdep.specs.declared.dialect.ScanRules.{ScanRules};

    /// A scan that stands before the first source, with names that are sought by a seed. It takes no memory.
    pub fn with_seed(alloc: Global, seed: Seed) -> Self
        ensures stands { StandsAfter result [] }
        ensures under_rules { (rules : ScanRules) → StandsAfterAs rules result [] }
        ensures found { found_of result ≡ [] }
    {
        SourceScan {
            finder: PrefixFinder::new(),
            scanner: Scanner::new(),
            symbol_patterns: WordScan::new(),
            table: SourceTable::new(alloc, seed),
        }
    }

    /// Begins the next source, and forgets what was read of one that was broken off.
    pub fn begin_source(&mut self)
        ensures stands { StandsAfter self.new [] }
        ensures under_rules { (rules : ScanRules) → StandsAfterAs rules self.new [] }
        ensures found { found_of self.new ≡ found_of self.old }
    {
        self.scanner = Scanner::new();
        self.symbol_patterns = WordScan::new();
        self.table.restart();
    }

    /// Forgets the sources that have ended.
    pub fn clear(&mut self)
        ensures { found_of self.new ≡ [] }
    {
        self.table.clear();
    }

    /// Takes the next piece of the source. After an `Err` begin the source anew; those that have ended stay.
    pub fn feed(&mut self, piece: &[u8]) -> Result<(), AllocError>
        ensures stands { (t : List ℕ) → StandsAfter self.old t → OnOk result (StandsAfter self.new (t ++ piece.now)) }
        ensures found { found_of self.new ≡ found_of self.old }
    {
        let fed = self.scanner.feed(piece);
        note_carried(&mut self.table, fed.carried)?;
        note_all(&mut self.table, fed.names, &self.finder)
    }

    /// Ends the source: the next piece is the first one of another.
    pub fn end_source(&mut self) -> Result<(), AllocError>
        ensures stands { (t : List ℕ) → StandsAfter self.old t → OnOk result (StandsAfter self.new []) }
        ensures found { (t : List ℕ) → StandsAfter self.old t → OnOk result (found_of self.new ≡ found_of self.old ++ names_in t ∷ []) }
        ensures err { OnErr result (found_of self.new ≡ found_of self.old) }
    {
        note_carried(&mut self.table, self.scanner.finish())?;
        self.table.end_source()
    }

    /// Takes the next piece of a source that is scanned by its words.
    fn feed_words(
        &mut self,
        symbol_patterns: &SymbolPatterns<'_>,
        piece: &[u8],
    ) -> Result<(), AllocError>
        requires { AreShort symbol_patterns.now }
        ensures knows { (k : Known) → Knows self.old.symbol_patterns self.old.table k → OnOk result (Knows self.new.symbol_patterns self.new.table (known_after symbol_patterns.now k piece.now)) }
        ensures found { found_of self.new ≡ found_of self.old }
    {
        self.symbol_patterns
            .feed(symbol_patterns, piece, &mut self.table)
    }

    /// Ends a source that is scanned by its words.
    fn end_words(&mut self, symbol_patterns: &SymbolPatterns<'_>) -> Result<(), AllocError>
        requires { AreShort symbol_patterns.now }
        ensures knows { OnOk result (Knows self.new.symbol_patterns self.new.table at_start) }
        ensures found { (k : Known) → Knows self.old.symbol_patterns self.old.table k → OnOk result (found_of self.new ≡ found_of self.old ++ all_noted [] (word_ended symbol_patterns.now k).names ∷ []) }
        ensures err { OnErr result (found_of self.new ≡ found_of self.old) }
    {
        self.symbol_patterns
            .finish(symbol_patterns, &mut self.table)?;
        self.table.end_source()
    }

    /// `feed` under the rules of an object. The pieces of one source are all fed under the same.
    pub fn feed_as(&mut self, rules: ScanRules, piece: &[u8]) -> Result<(), AllocError>
        ensures stands { (t : List ℕ) → StandsAfterAs rules self.old t → OnOk result (StandsAfterAs rules self.new (t ++ piece.now)) }
        ensures found { found_of self.new ≡ found_of self.old }
    {
        match rules {
            ScanRules::Linux => self.feed(piece),
            ScanRules::UBoot(_) => self.feed_words(&rules.symbol_patterns(), piece),
            ScanRules::BusyBox => self.feed_words(&rules.symbol_patterns(), piece),
            ScanRules::Coreboot => self.feed_words(&rules.symbol_patterns(), piece),
        }
    }

    /// `end_source` under the rules by which the source was fed.
    pub fn end_source_as(&mut self, rules: ScanRules) -> Result<(), AllocError>
        ensures stands { (t : List ℕ) → StandsAfterAs rules self.old t → OnOk result (StandsAfterAs rules self.new []) }
        ensures found { (t : List ℕ) → StandsAfterAs rules self.old t → OnOk result (found_of self.new ≡ found_of self.old ++ names_in_as rules t ∷ []) }
        ensures err { OnErr result (found_of self.new ≡ found_of self.old) }
    {
        match rules {
            ScanRules::Linux => self.end_source(),
            ScanRules::UBoot(_) => self.end_words(&rules.symbol_patterns()),
            ScanRules::BusyBox => self.end_words(&rules.symbol_patterns()),
            ScanRules::Coreboot => self.end_words(&rules.symbol_patterns()),
        }
    }

    /// A source of which the names are known already.
    pub(crate) fn add_source(&mut self, names: &FoundNames) -> Result<(), AllocError>
        ensures { OnOk result (found_of self.new ≡ found_of self.old ++ names.now ∷ []) }
    {
        self.table.restart();
        for name in names.names() {
            self.table.note(name)?;
        }
        self.table.end_source()
    }

    /// How many sources have ended.
    pub fn len(&self) -> usize
        ensures { result ≡ length (found_of self.now) }
    {
        self.table.len()
    }
}

impl NamesBySource {
    /// An object of no prerequisites, and a scan of no sources. It takes no memory.
    pub fn with_seed(alloc: Global, seed: Seed) -> Self
        ensures found { found_of result.scan ≡ [] }
        ensures sources { result.sources.items ≡ [] }
    {
        NamesBySource {
            scan: SourceScan::with_seed(alloc, seed),
            sources: Vec::new(alloc),
            listed: PlaceSet::new(alloc),
        }
    }
}
