//! What each symbol costs: how many objects a flip of it makes stale. That is asked of the objects' records alone, so no stamp
//! and no auto.conf is read. An object counts once for a symbol, however often its command file names it; that no object is given
//! twice is the caller's.
ghost use Rattle.std.specs.Prelude.{Err, ◌≡◌, ◌⊎◌, ◌+◌, ◌<◌, ℕ, List, IfErr, IfOk, IsErrOf, OnOk, Some, map, option_map};
ghost use Rattle.ks_symbols.specs.Names.{is_in};
ghost use Rattle.ks_fixdep.specs.Borrowed.{borrowed_view, seen_dep};
ghost use Rattle.ks_fixdep.specs.Record.{config_names};
ghost use Rattle.ks_tree.specs.Frames.{Reads};
ghost use Rattle.ks_engine.specs.Refusals.{Answers, IsAborted};
ghost use Rattle.ks_engine.specs.Asked.{command_file};
ghost use Rattle.ks_engine.specs.Caches.{value_of, with_pair};
ghost use Rattle.ks_engine.specs.Costs.{AreCosts, AreSound, AreTallies, by_cost, cost_of, counted, one_if, record_at, seen_cost, tallies_of, tally_cost, tally_pairs};

use crate::EngineError;
use crate::staleness::{borrow_for, read_command_text};
use indexmap::IndexMap;
use ks_fixdep::{BorrowedCommand, BorrowedDep};
use ks_symbols::{Seed, target_is_legal};
use ks_tree::Tree;
use std::alloc::{AllocError, Global};
use std::cmp::Ordering;

/// The text of an object's command file, or that it has none.
pub fn read_record<T: Tree>(
    alloc: Global,
    tree: &mut T,
    target: &[u8],
) -> Result<Option<Vec<u8>>, EngineError>
    ensures reads { Reads T.Tree tree.old tree.new (IsErrOf result EngineError.Device) }
    ensures read { T.is_honest → IfOk result (λ found.
        record_at (T.files tree.old) target.now ≡ command_file target.now (option_map (λ v. v.items) found)) }
    ensures refused { T.is_honest → IfErr result (λ e. IsAborted e ⊎ (record_at (T.files tree.old) target.now ≡ Err e)) }
    ensures passed { OnOk result (T.failures tree.new ≡ T.failures tree.old) }
    ensures uncounted { IsErrOf result EngineError.OutOfMemory → T.failures tree.new ≡ T.failures tree.old }
{
    if !target_is_legal(target) {
        return Err(EngineError::BadPath(0));
    }
    read_command_text(alloc, tree, target)
}

/// What the text of an object's command file says.
pub fn borrow_record<'a>(
    alloc: Global,
    target: &[u8],
    text: &'a [u8],
) -> Result<BorrowedCommand<'a>, EngineError>
    ensures read { Answers (command_file target.now (Some text.now)) (λ f. Some (borrowed_view f)) result }
    ensures no_device { IsErrOf result EngineError.Device → ⊥ }
{
    borrow_for(alloc, target, text)
}

/// How many records name a symbol, and the number of the last one that does, so that one which names it twice counts once.
#[derive(Clone, Copy)]
struct Tally {
    count: usize,
    last: usize,
}

/// A symbol, and how many records name it.
#[derive(Clone, Copy)]
pub struct Cost<'a> {
    pub name: &'a [u8],
    pub count: usize,
}

/// How many of the records that were added name each symbol.
#[derive(Drop)]
pub struct Costs {
    tallies: IndexMap<Vec<u8>, Tally, Seed>,
    records: usize,
}

/// Keeps the tally of a name that has none.
fn keep_tally(
    alloc: Global,
    tallies: &mut IndexMap<Vec<u8>, Tally, Seed>,
    name: &[u8],
    tally: Tally,
) -> Result<(), AllocError>
    ensures { OnOk result (tally_pairs tallies.new.entries ≡ with_pair name.now tally (tally_pairs tallies.old.entries)) }
{
    let key = Vec::from_slice(alloc, name)?;
    tallies.insert(key, tally)?;
    Ok(())
}

/// Counts a record for a name, unless it has been counted.
fn count_name(
    alloc: Global,
    tallies: &mut IndexMap<Vec<u8>, Tally, Seed>,
    name: &[u8],
    record_number: usize,
) -> Result<(), AllocError>
    requires { AreSound record_number (tally_pairs tallies.old.entries) }
    ensures { let old = tally_pairs tallies.old.entries in
        OnOk result (tally_pairs tallies.new.entries ≡ with_pair name.now (counted record_number (value_of name.now old)) old) }
{
    if let Some(tally) = tallies.get_mut(name) {
        if tally.last != record_number {
            tally.count += 1;
            tally.last = record_number;
        }
        return Ok(());
    }
    let first = Tally {
        count: 1,
        last: record_number,
    };
    keep_tally(alloc, tallies, name, first)
}

impl Costs {
    /// No record was added yet.
    pub fn with_seed(alloc: Global, seed: Seed) -> Costs
        ensures none { result.records ≡ 0 }
        ensures sound { AreTallies 0 (tallies_of result) }
        ensures costs { (x : List ℕ) → cost_of result x ≡ 0 }
    {
        Costs {
            tallies: IndexMap::with_hasher(alloc, seed),
            records: 0,
        }
    }

    /// Adds a record, by its dependency lines. After an error nothing is known of the costs.
    pub fn add(&mut self, alloc: Global, deps: &[BorrowedDep<'_>]) -> Result<(), AllocError>
        requires headroom { self.old.records < usize.MAX }
        requires sound { AreTallies self.old.records (tallies_of self.old) }
        ensures more { OnOk result (self.new.records ≡ self.old.records + 1) }
        ensures sound { OnOk result (AreTallies self.new.records (tallies_of self.new)) }
        ensures costs { OnOk result ((x : List ℕ) → cost_of self.new x ≡ cost_of self.old x + one_if (is_in (config_names (map seen_dep deps.now)) x)) }
    {
        self.records += 1;
        for dep in deps {
            if let BorrowedDep::Config(name) = dep {
                count_name(alloc, &mut self.tallies, name.as_bytes(), self.records)?;
            }
        }
        Ok(())
    }

    /// What each symbol costs that some record names, the most expensive first.
    pub fn most_expensive(&self, alloc: Global) -> Result<Vec<Cost<'_>>, AllocError>
        requires { AreTallies self.now.records (tallies_of self.now) }
        ensures { IfOk result (λ costs. AreCosts (cost_of self.now) (map seen_cost costs.items)) }
    {
        let mut costs = all_costs(alloc, &self.tallies)?;
        costs.sort_by(by_cost)?;
        Ok(costs)
    }
}

/// How two costs stand: the more expensive one first, and of equal ones the lesser name.
fn by_cost(cost: &Cost<'_>, other: &Cost<'_>) -> Ordering
    ensures { result ≡ by_cost (seen_cost cost.now) (seen_cost other.now) }
{
    match other.count.cmp(&cost.count) {
        Ordering::Equal => cost.name.cmp(other.name),
        unequal => unequal,
    }
}

/// The costs of all names, in no order.
fn all_costs<'a>(
    alloc: Global,
    tallies: &'a IndexMap<Vec<u8>, Tally, Seed>,
) -> Result<Vec<Cost<'a>>, AllocError>
    ensures { IfOk result (λ costs. map seen_cost costs.items ≡ map tally_cost (tally_pairs tallies.now.entries)) }
{
    let mut costs = Vec::with_capacity(alloc, tallies.len())?;
    for place in 0..tallies.len() {
        if let Some((name, tally)) = tallies.get_index(place) {
            costs.push(Cost {
                name: name.as_slice(),
                count: tally.count,
            })?;
        }
    }
    Ok(costs)
}
