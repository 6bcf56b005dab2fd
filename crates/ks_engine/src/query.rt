//! What is asked of an object, and which stamps the answer goes by: those of the tree, or those that a synchronisation would leave.
//! Nothing else differs between the questions, so the answer to one can't part from the answer to another.
ghost use Rattle.std.specs.Prelude.{◌≡◌, IfSome, IsErrOf, IsTrue, None, OnOk};
ghost use Rattle.std.specs.Ordering.{nat_cmp};
ghost use Rattle.std.specs.Cmp.Lexicographic.{slice_cmp};
ghost use Rattle.std.specs.List.Sorted.{IsStrictlySortedBy};
ghost use Rattle.ks_symbols.specs.Names.{is_name, is_in};
ghost use Rattle.ks_tree.specs.Files.{Files, content};
ghost use Rattle.ks_tree.specs.Frames.{Reads};
ghost use Rattle.ks_tree.specs.Paths.{auto_path, stamp_path};
ghost use Rattle.ks_tree.specs.Stamps.{HasNumber};
ghost use Rattle.ks_engine.specs.Refusals.{Answers};
ghost use Rattle.ks_engine.specs.LastSync.{last_generation};
ghost use Rattle.ks_engine.specs.Caches.{IsCacheOf};
ghost use Rattle.ks_engine.specs.Queries.{IsSeen, limit_of};

use crate::caches::Cache;
use crate::{EngineError, Impact};
use ks_symbols::Name;
use ks_tree::Tree;
use std::alloc::Global;

/// What is asked of an object.
#[derive(Clone, Copy)]
pub enum Query<'a> {
    /// Whether it is stale, and by which of its names first.
    Stale,
    /// Whether it is stale, and by which of its names.
    Why,
    /// Whether it would be stale after this synchronisation, and by which of its names first.
    Predicted(&'a Impact),
}

/// How many of an object's causes are listed.
#[derive(Clone, Copy)]
pub enum Limit {
    /// The first alone, after which no stamp is looked at.
    First,
    All,
}

/// Whether a name is among rising ones.
fn is_among(names: &[Name], name: &[u8]) -> bool
    ensures { IsStrictlySortedBy (slice_cmp nat_cmp) names.now → result ≡ is_in names.now name.now }
{
    names.binary_search_by(|at| at.as_bytes().cmp(name)).is_ok()
}

impl Query<'_> {
    /// How many causes answer it.
    pub fn limit(self) -> Limit
        ensures { result ≡ limit_of self.entry }
    {
        match self {
            Query::Why => Limit::All,
            Query::Stale | Query::Predicted(_) => Limit::First,
        }
    }

    /// The generation that a record would get.
    pub(crate) fn generation<T: Tree>(
        self,
        alloc: Global,
        tree: &mut T,
        cache: &mut Cache,
    ) -> Result<u64, EngineError>
        requires cache { T.is_honest → IsCacheOf (T.files tree.old) cache.old }
        ensures reads { Reads T.Tree tree.old tree.new (IsErrOf result EngineError.Device) }
        ensures passed { OnOk result (T.failures tree.new ≡ T.failures tree.old) }
        ensures uncounted { IsErrOf result EngineError.OutOfMemory → T.failures tree.new ≡ T.failures tree.old }
        ensures cache { T.is_honest → IsCacheOf (T.files tree.new) cache.new }
        ensures read { T.is_honest → (after : Files) → IsSeen self.entry (T.files tree.old) after
            → Answers (last_generation (content after auto_path)) (λ g. g) result }
    {
        match self {
            Query::Predicted(impact) => Ok(impact.report.generation),
            Query::Stale | Query::Why => cache.generation(alloc, tree),
        }
    }

    /// The number that the synchronisation gives a name's stamp, if it touches the name. All other stamps are those of the tree.
    pub(crate) fn predicted(self, name: &[u8]) -> Option<u64>
        requires name { IsTrue (is_name name.now) }
        ensures touched { IfSome result (λ n. (files after : Files) → IsSeen self.entry files after → HasNumber (content after (stamp_path name.now)) n) }
        ensures others { result ≡ None → (files after : Files) → IsSeen self.entry files after
            → content after (stamp_path name.now) ≡ content files (stamp_path name.now) }
    {
        match self {
            Query::Predicted(impact) if is_among(&impact.report.touched, name) => {
                Some(impact.report.generation)
            }
            _ => None,
        }
    }
}
