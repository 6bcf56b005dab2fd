//! Marking the stale ones of the objects that a request names.
ghost use Rattle.std.specs.Prelude.{◌≡◌, Err, IfOk};
ghost use Rattle.ks_tree.specs.Files.{HasRisen};
ghost use Rattle.ks_engine.specs.FileRuns.{state};
ghost use Rattle.ks_engine.specs.declared.error.EngineError.TheVariants.{Device};
ghost use Rattle.ks_requests.specs.declared.refusal.Refusal.TheVariants.{Engine};
ghost use Rattle.ks_requests.specs.declared.status.Status.TheVariants.{Done};
ghost use Rattle.ks_commands.specs.Performed.{EndsMark, by_files};
ghost use Rattle.ks_symbols.specs.declared.dialect.Dialect.{Dialect};

use ks_engine::{BackdateScope, mark_due};
use ks_requests::{
    Outcome, Reading, Refusal, Targets, all_targets, borrowed, read_targets, report_marked,
};
use std::alloc::Global;

/// Marks each of the objects that is due, and prints how many are.
pub(crate) fn mark_targets<T: Reading>(
    alloc: Global,
    tree: &mut T,
    which: BackdateScope,
    targets: &Targets,
) -> Result<Outcome, Refusal>
    ensures done { IfOk result (λ o. o.status ≡ Done) }
    ensures files { T.is_honest → (dialect : Dialect) → EndsMark (T.files tree.old) (by_files dialect T.is_honest (state T.Tree tree.old) (state T.Tree tree.new))
        which targets.now result }
    ensures cause { result ≡ Err (Engine Device) → HasRisen (T.failures tree.old) (T.failures tree.new) }
    ensures kept { T.backdated tree.new ≡ T.backdated tree.old }
{
    let text = read_targets(alloc, tree, targets)?;
    let objects = all_targets(alloc, targets, borrowed(&text))?;
    let marked = mark_due(alloc, tree, which, &objects)?;
    Ok(report_marked(alloc, marked)?)
}
