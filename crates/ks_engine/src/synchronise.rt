//! Synchronising a tree with a configuration: the stamps of the changed names first, then the header, then auto.conf. An object
//! recorded under the old auto.conf is then stale as soon as a stamp says so, wherever the synchronisation is broken off.
//! (conf_write_autoconf of scripts/kconfig/confdata.c writes in the same order.)
ghost use Rattle.std.specs.Prelude.{◌≡◌, ◌⊎◌, ◌↔◌, ◌≤◌, ◌+◌, List, ℕ, Some, Ok, Err, IfOk, IfErr, OnOk, OnErr, MatchResult, IsErrOf};
ghost use Rattle.ks_tree.specs.Frames.{Counted};
ghost use Rattle.ks_engine.specs.Sources.{Source, config_source};
ghost use Rattle.ks_engine.specs.Synchronised.{SyncDone, SyncSome, IsSyncCall, IsSynced, IsSyncRefused};
ghost use Rattle.ks_engine.specs.SyncPlan.{Plan};
ghost use Rattle.ks_engine.specs.Follows.{GoesOn, FollowsSync};
ghost use Rattle.ks_engine.specs.Views.{IsPlanned, IsPlannedBy, IsWork};

use crate::EngineError;
use crate::planning::{ConfigTexts, Planned, plan_texts};
use ks_output::{write_auto, write_header};
use ks_symbols::Name;
use ks_tree::{
    Tree, TreeFault, auto_path, auto_temporary, header_path, header_temporary, replace, touch_all,
};
use std::alloc::{AllocError, Global};

/// What a synchronisation did.
#[derive(Drop)]
pub struct Report {
    pub generation: u64,
    /// The names whose stamps were renewed, in rising order.
    pub touched: Vec<Name>,
    /// How many lines of a `.config` spoke of names that are not declared.
    pub unknown: u64,
}

/// What is to be written.
#[derive(Drop)]
struct Work {
    report: Report,
    header: Vec<u8>,
    auto: Vec<u8>,
}

/// All that is to be written, before any of it is. The old auto.conf is let go first, since the texts to come are as large.
fn work_of(alloc: Global, planned: Planned) -> Result<Work, AllocError>
    ensures { IfOk result (λ work. (plan : Plan) → IsPlannedBy plan planned → IsWork plan work) }
{
    let Planned {
        sources,
        old,
        report,
    } = planned;
    drop(old);
    let (title, settings) = (sources.title.as_slice(), &sources.settings);
    let mut header = Vec::new(alloc);
    write_header(settings, title, &mut header)?;
    let mut auto = Vec::new(alloc);
    write_auto(settings, title, report.generation, &mut auto)?;
    Ok(Work {
        report,
        header,
        auto,
    })
}

/// The stamps, then the header, then auto.conf: an auto.conf before its stamps would hide the change for good.
fn write_all<T: Tree>(alloc: Global, tree: &mut T, work: &Work) -> Result<(), TreeFault>
    ensures all { T.is_honest → (plan : Plan) → IsWork plan work.now
        → OnOk result (SyncDone (T.files tree.old) (T.files tree.new) plan work.now.report.touched.items) }
    ensures some { T.is_honest → (plan : Plan) → IsWork plan work.now
        → OnErr result (SyncSome (T.files tree.old) (T.files tree.new) plan work.now.report.touched.items) }
    ensures never { IsErrOf result TreeFault.TooLarge → ⊥ }
    ensures counted { Counted T.Tree tree.old tree.new (IsErrOf result TreeFault.Device) }
    ensures passed { OnOk result (T.failures tree.new ≡ T.failures tree.old) }
    ensures uncounted { IsErrOf result TreeFault.OutOfMemory → T.failures tree.new ≡ T.failures tree.old }
    ensures kept { T.backdated tree.new ≡ T.backdated tree.old }
{
    touch_all(alloc, tree, &work.report.touched, work.report.generation)?;
    replace(alloc, tree, header_temporary(), header_path(), &work.header)?;
    replace(alloc, tree, auto_temporary(), auto_path(), &work.auto)
}

/// Does what a plan comes to, once all of its texts stand ready.
pub(crate) fn carry_out<T: Tree>(
    alloc: Global,
    tree: &mut T,
    planned: Planned,
) -> Result<Report, EngineError>
    ensures synced { T.is_honest → (source : Source) → IsPlanned (T.files tree.old) source planned
        → IfOk result (IsSynced (T.files tree.old) (T.files tree.new) source) }
    ensures refused { T.is_honest → (source : Source) → IsPlanned (T.files tree.old) source planned
        → IfErr result (IsSyncRefused (T.files tree.old) (T.files tree.new) source) }
    ensures counted { IsSyncCall T.Tree tree.old tree.new result }
{
    let work = work_of(alloc, planned)?;
    write_all(alloc, tree, &work)?;
    Ok(work.report)
}

/// Brings the stamps, the header and auto.conf up to a configuration. Each completed synchronisation raises the generation, also
/// where nothing changed. After `OutOfMemory` or `Device` some of it may be done, and the next `sync` completes it.
pub fn sync<T: Tree>(
    alloc: Global,
    tree: &mut T,
    texts: &ConfigTexts<'_>,
) -> Result<Report, EngineError>
    // By the files: it did all of it, or it was refused, or given up in one of the named states.
    ensures synced { T.is_honest → IfOk result (IsSynced (T.files tree.old) (T.files tree.new) (config_source texts.now)) }
    ensures refused { T.is_honest → IfErr result (IsSyncRefused (T.files tree.old) (T.files tree.new) (config_source texts.now)) }
    // By histories: each one that the files show goes on with this answer, and the files show the next one.
    ensures follows { GoesOn T.Tree tree.old tree.new (FollowsSync (config_source texts.now) result) }
    ensures counted { IsSyncCall T.Tree tree.old tree.new result }
{
    let planned = plan_texts(alloc, tree, texts)?;
    carry_out(alloc, tree, planned)
}
