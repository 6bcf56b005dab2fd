//! What a synchronisation would touch, were it done now. Who had to synchronise to learn this would make objects stale by a
//! configuration that was only asked about. Nothing is written; an object that is asked about after it is judged by the stamps as
//! they would be, so one that is stale already is reported as well.
ghost use Rattle.std.specs.Prelude.{◌≡◌, ◌⊎◌, Err, IfOk, IfErr, IsErrOf, OnOk};
ghost use Rattle.ks_tree.specs.Frames.{Reads};
ghost use Rattle.ks_engine.specs.Refusals.{IsAborted};
ghost use Rattle.ks_engine.specs.Sources.{config_source};
ghost use Rattle.ks_engine.specs.SyncPlan.{IsSyncPlan};
ghost use Rattle.ks_engine.specs.Impact.{IsImpactOf};

use crate::planning::{ConfigTexts, plan_texts};
use crate::{EngineError, Report};
use ks_tree::Tree;
use std::alloc::Global;

/// What a synchronisation of two texts would do, were it done now.
#[derive(Drop)]
pub struct Impact {
    /// What it would report: the next generation, and the names that it would touch.
    pub report: Report,
}

impl Impact {
    /// What a synchronisation with these texts would do. It is refused where that would be.
    pub fn of<T: Tree>(
        alloc: Global,
        tree: &mut T,
        texts: &ConfigTexts<'_>,
    ) -> Result<Impact, EngineError>
        ensures reads { Reads T.Tree tree.old tree.new (IsErrOf result EngineError.Device) }
        ensures passed { OnOk result (T.failures tree.new ≡ T.failures tree.old) }
        ensures uncounted { IsErrOf result EngineError.OutOfMemory → T.failures tree.new ≡ T.failures tree.old }
        // Where it isn't refused, a synchronisation can be completed, and this is what that reports.
        ensures reported { T.is_honest → IfOk result (IsImpactOf (T.files tree.old) (config_source texts.now)) }
        ensures refused { T.is_honest → IfErr result (λ e. IsAborted e ⊎ IsSyncPlan (T.files tree.old) (config_source texts.now) (Err e)) }
    {
        let planned = plan_texts(alloc, tree, texts)?;
        Ok(Impact {
            report: planned.report,
        })
    }
}
