//! Aging what is stale. Make goes by file times, and a clock that was wrong, an archive or a copy may have given an object a later
//! one than its stamps have. So a stale object is made older than all others, and make builds it anew. What is fresh keeps its
//! time: whether a source changed is make's matter.
ghost use Rattle.std.specs.Prelude.{◌≡◌, IsErrOf};
ghost use Rattle.ks_tree.specs.Frames.{Counted};
ghost use Rattle.ks_engine.specs.Backdated.{IsBackdated, backdates};
ghost use Rattle.ks_engine.specs.Asked.{IsAnswerOn, reported};
ghost use Rattle.ks_engine.specs.Caches.{IsCacheOf};

use crate::EngineError;
use crate::caches::Cache;
use crate::explaining::{Explanation, query_object};
use crate::query::Query;
use crate::staleness::Verdict;
use ks_tree::Backdating;
use std::alloc::Global;

/// Which stale objects are aged, or marked.
#[derive(Clone, Copy, Debug, PartialEq, Eq)]
pub enum BackdateScope {
    /// Those whose records say so, by a symbol or by a generation to come.
    Recorded,
    /// Each one, also without a record or without a number.
    Unrecorded,
}

impl BackdateScope {
    /// Whether an object with this verdict is aged, or marked.
    pub(crate) fn covers(self, verdict: &Verdict) -> bool
        ensures { result ≡ backdates self verdict.now }
    {
        match verdict {
            Verdict::Fresh => false,
            Verdict::Changed(_) | Verdict::Ahead => true,
            Verdict::NoCommandFile | Verdict::Unnumbered => match self {
                BackdateScope::Recorded => false,
                BackdateScope::Unrecorded => true,
            },
        }
    }
}

/// Whether an object is stale, as `query_object` answers, and if so it is aged. Where that fails, the answer is the failure.
pub fn backdate_if_stale<T: Backdating>(
    alloc: Global,
    tree: &mut T,
    cache: &mut Cache,
    which: BackdateScope,
    target: &[u8],
) -> Result<Explanation, EngineError>
    requires cache { T.is_honest → IsCacheOf (T.files tree.old) cache.old }
    ensures counted { Counted T.Tree tree.old tree.new (IsErrOf result EngineError.Device) }
    ensures uncounted { IsErrOf result EngineError.OutOfMemory → T.failures tree.new ≡ T.failures tree.old }
    ensures unchanged { T.is_honest → T.files tree.new ≡ T.files tree.old }
    ensures cache { T.is_honest → IsCacheOf (T.files tree.new) cache.new }
    ensures answer { T.is_honest → IsAnswerOn (T.files tree.old) target.now (reported result) }
    ensures backdated { T.is_honest → IsBackdated which (T.files tree.old) target.now (T.backdated tree.old) (reported result) (T.backdated tree.new) }
{
    let answer = query_object(alloc, tree, cache, Query::Stale, target)?;
    if which.covers(&answer.verdict) {
        tree.backdate(alloc, target)?;
    }
    Ok(answer)
}
