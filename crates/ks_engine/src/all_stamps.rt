//! Synchronising a tree for a build that lists the stamps of all symbols as files that a synchronisation makes, as ninja wants
//! it: a listed file that is missing runs the synchronisation each time. A symbol that never changed has no stamp yet, so an
//! empty one is made. The tree says then what it said before.
ghost use Rattle.std.specs.Prelude.{IfErr, IfOk};
ghost use Rattle.ks_engine.specs.Follows.{GoesOn};
ghost use Rattle.ks_engine.specs.AllStamps.{FollowsSyncAllStamps, IsStamped, IsStampedRefused};
ghost use Rattle.ks_engine.specs.Synchronised.{IsSyncCall};

use crate::planning::{parse_config_inputs, plan_config_inputs};
use crate::synchronise::carry_out;
use crate::{EngineError, Report};
use ks_symbols::Kconfig;
use ks_tree::{Tree, make_stamps};
use std::alloc::Global;

/// Does what `sync` does, and then makes the missing stamp of each declared symbol, which is empty. After `OutOfMemory` or
/// `Device` some of it may be done, and the next one completes it.
pub fn sync_all_stamps<T: Tree>(
    alloc: Global,
    tree: &mut T,
    kconfig: &Kconfig<'_>,
    dotconfig: &[u8],
) -> Result<Report, EngineError>
    // By the files: it did all of it, or it was refused or given up as `sync` is, or after what `sync` does.
    ensures stamped { T.is_honest → IfOk result (IsStamped (T.files tree.old) (T.files tree.new) kconfig.now dotconfig.now) }
    ensures refused { T.is_honest → IfErr result (IsStampedRefused (T.files tree.old) (T.files tree.new) kconfig.now dotconfig.now) }
    // By histories: each one that the files show goes on with this answer, and the files show the next one.
    ensures follows { GoesOn T.Tree tree.old tree.new (FollowsSyncAllStamps kconfig.now dotconfig.now result) }
    ensures counted { IsSyncCall T.Tree tree.old tree.new result }
{
    let parsed = parse_config_inputs(alloc, kconfig, dotconfig)?;
    // The names come before the first write, so that want of memory for them leaves all as it was.
    let names = parsed.symbols.names(alloc)?;
    drop(parsed.symbols);
    let planned = plan_config_inputs(alloc, tree, parsed.sources)?;
    let report = carry_out(alloc, tree, planned)?;
    make_stamps(alloc, tree, &names)?;
    Ok(report)
}
