//! Why an object is stale: the names of its command file whose stamps are above the generation of its record, each with the file
//! that brought it in. A question for a verdict stops at the first of them; `explain` lists all, so nobody has to touch one, build,
//! and meet the next. Both are one pass over the stamps, so what is listed can't differ from the verdict. Which of two texts a name
//! had is left out: stamps don't keep them.
ghost use Rattle.std.specs.Prelude.{◌≡◌, ◌⊎◌, [], Ok, Err, IfOk, IfErr, IsErrOf, IsTrue, map, OnOk};
ghost use Rattle.std.specs.List.{list_all};
ghost use Rattle.ks_symbols.specs.Names.{is_path};
ghost use Rattle.ks_fixdep.specs.CommandFile.{IsLegal, is_dep};
ghost use Rattle.ks_fixdep.specs.Borrowed.{seen_dep, borrowed_view};
ghost use Rattle.ks_tree.specs.Files.{Files};
ghost use Rattle.ks_tree.specs.Frames.{Reads};
ghost use Rattle.ks_engine.specs.Refusals.{IsAbortedAnswer, IsAborted};
ghost use Rattle.ks_engine.specs.Asked.{asked, asked_since, IsAnswer, IsExplained, IsExplainedBy};
ghost use Rattle.ks_engine.specs.Causes.{placed, names_placed, verdict_of, IsByStamps};
ghost use Rattle.ks_engine.specs.Explained.{ExplainsRecorded};
ghost use Rattle.ks_engine.specs.Caches.{IsCacheOf};
ghost use Rattle.ks_engine.specs.Queries.{IsSeen, limit_of, IsAnswerTo};
ghost use Rattle.ks_engine.specs.declared.query.Limit.TheVariants.{All};

use crate::EngineError;
use crate::caches::Cache;
use crate::query::{Limit, Query};
use crate::staleness::{Verdict, borrow_for, read_command_text};
use ks_fixdep::{BorrowedCommand, BorrowedDep, BorrowedName};
use ks_symbols::{Name, Path, Seed, target_is_legal};
use ks_tree::Tree;
use std::alloc::{AllocError, Global};

/// A name that was touched since an object's record.
#[derive(Drop)]
pub struct Cause {
    pub name: Name,
    /// The number of its stamp.
    pub generation: u64,
    /// The file after which it stands in the command file: the first one in which it was found, or, where that one has no line
    /// there, the last before it that has.
    pub place: Path,
}

/// A verdict, and where it is by stamps all that speaks for it.
#[derive(Drop)]
pub struct Explanation {
    pub verdict: Verdict,
    /// In the order of the command file, as far as they were asked for. The first is the one that the verdict names.
    pub causes: Vec<Cause>,
}

/// A verdict for which no stamp was looked at.
fn without_causes(alloc: Global, verdict: Verdict) -> Explanation
    ensures verdict { result.verdict ≡ verdict }
    ensures causes { result.causes.items ≡ [] }
{
    Explanation {
        verdict,
        causes: Vec::new(alloc),
    }
}

/// A cause in memory of its own.
fn copy_cause(
    alloc: Global,
    name: &BorrowedName<'_>,
    generation: u64,
    place: &[u8],
) -> Result<Cause, AllocError>
    requires { IsTrue (is_path place.now) }
    ensures name { IfOk result (λ c. c.name ≡ name.now.bytes.now) }
    ensures generation { IfOk result (λ c. c.generation ≡ generation) }
    ensures place { IfOk result (λ c. c.place ≡ place.now) }
{
    Ok(Cause {
        name: Name::new(alloc, name.as_bytes())?,
        generation,
        place: Path::new(alloc, place)?,
    })
}

/// The verdict of these causes.
fn verdict_of(alloc: Global, causes: &[Cause]) -> Result<Verdict, AllocError>
    ensures { IfOk result (λ v. v ≡ verdict_of causes.now) }
{
    match causes.first() {
        Some(cause) => Ok(Verdict::Changed(Name::new(alloc, cause.name.as_bytes())?)),
        None => Ok(Verdict::Fresh),
    }
}

/// The names with a stamp above the generation: all of them, or the first. After that one no stamp is looked at.
fn find_causes<T: Tree>(
    alloc: Global,
    tree: &mut T,
    cache: &mut Cache,
    query: Query<'_>,
    source: &[u8],
    deps: &[BorrowedDep<'_>],
    generation: u64,
) -> Result<Vec<Cause>, EngineError>
    requires cache { T.is_honest → IsCacheOf (T.files tree.old) cache.old }
    requires source { IsTrue (is_path source.now) }
    requires deps { IsTrue (list_all is_dep (map seen_dep deps.now)) }
    ensures reads { Reads T.Tree tree.old tree.new (IsErrOf result EngineError.Device) }
    ensures passed { OnOk result (T.failures tree.new ≡ T.failures tree.old) }
    ensures uncounted { IsErrOf result EngineError.OutOfMemory → T.failures tree.new ≡ T.failures tree.old }
    ensures cache { T.is_honest → IsCacheOf (T.files tree.new) cache.new }
    ensures causes { T.is_honest → (after : Files) → IsSeen query.entry (T.files tree.old) after
        → IfOk result (λ causes. IsByStamps (limit_of query.entry) after generation (placed source.now (map seen_dep deps.now)) (Ok causes.items)) }
    ensures refused { T.is_honest → (after : Files) → IsSeen query.entry (T.files tree.old) after
        → IfErr result (λ e. IsAborted e ⊎ IsByStamps (limit_of query.entry) after generation (placed source.now (map seen_dep deps.now)) (Err e)) }
{
    let limit = query.limit();
    let mut causes = Vec::new(alloc);
    let mut place = source;
    for dep in deps {
        match dep {
            BorrowedDep::File(path) => place = path,
            BorrowedDep::Config(name) => {
                let number = cache.stamp(alloc, tree, query, name.as_bytes())?;
                if generation < number {
                    let cause = copy_cause(alloc, name, number, place)?;
                    causes.push(cause)?;
                    match limit {
                        Limit::First => return Ok(causes),
                        Limit::All => {}
                    }
                }
            }
        }
    }
    Ok(causes)
}

/// The explanation of an object that has a command file.
pub(crate) fn evaluate<T: Tree>(
    alloc: Global,
    tree: &mut T,
    cache: &mut Cache,
    query: Query<'_>,
    file: &BorrowedCommand<'_>,
) -> Result<Explanation, EngineError>
    requires cache { T.is_honest → IsCacheOf (T.files tree.old) cache.old }
    requires legal { IsLegal (borrowed_view file.now) }
    ensures reads { Reads T.Tree tree.old tree.new (IsErrOf result EngineError.Device) }
    ensures passed { OnOk result (T.failures tree.new ≡ T.failures tree.old) }
    ensures uncounted { IsErrOf result EngineError.OutOfMemory → T.failures tree.new ≡ T.failures tree.old }
    ensures cache { T.is_honest → IsCacheOf (T.files tree.new) cache.new }
    ensures answer { T.is_honest → (after : Files) → IsSeen query.entry (T.files tree.old) after
        → IsAbortedAnswer result ⊎ IsExplainedBy (limit_of query.entry) after (asked_since after (names_placed (borrowed_view file.now)) file.now.generation) result }
{
    let Some(generation) = file.generation else {
        return Ok(without_causes(alloc, Verdict::Unnumbered));
    };
    let last = query.generation(alloc, tree, cache)?;
    if last < generation {
        return Ok(without_causes(alloc, Verdict::Ahead));
    }
    let causes = find_causes(
        alloc,
        tree,
        cache,
        query,
        file.source,
        &file.deps,
        generation,
    )?;
    let verdict = verdict_of(alloc, &causes)?;
    Ok(Explanation { verdict, causes })
}

/// What answers a question about an object, by what was read before and what is still to be read. It writes nothing.
pub fn query_object<T: Tree>(
    alloc: Global,
    tree: &mut T,
    cache: &mut Cache,
    query: Query<'_>,
    target: &[u8],
) -> Result<Explanation, EngineError>
    requires cache { T.is_honest → IsCacheOf (T.files tree.old) cache.old }
    ensures reads { Reads T.Tree tree.old tree.new (IsErrOf result EngineError.Device) }
    ensures passed { OnOk result (T.failures tree.new ≡ T.failures tree.old) }
    ensures uncounted { IsErrOf result EngineError.OutOfMemory → T.failures tree.new ≡ T.failures tree.old }
    ensures cache { T.is_honest → IsCacheOf (T.files tree.new) cache.new }
    // Memory and the device aside, what its steps answer by the files. The law `answers_are_evaluated` says what that tells of a
    // recorded object.
    ensures answer { T.is_honest → IsAnswerTo query.entry (T.files tree.old) target.now result }
{
    if !target_is_legal(target) {
        return Err(EngineError::BadPath(0));
    }
    let Some(text) = read_command_text(alloc, tree, target)? else {
        return Ok(without_causes(alloc, Verdict::NoCommandFile));
    };
    let file = borrow_for(alloc, target, &text)?;
    evaluate(alloc, tree, cache, query, &file)
}

/// Why an object is stale, if it is. It writes nothing. A stamp without a number is refused also after the first cause, where
/// `stale` would not look at it: a list that leaves a name out would be taken as whole.
pub fn explain<T: Tree>(
    alloc: Global,
    tree: &mut T,
    target: &[u8],
) -> Result<Explanation, EngineError>
    ensures reads { Reads T.Tree tree.old tree.new (IsErrOf result EngineError.Device) }
    ensures uncounted { IsErrOf result EngineError.OutOfMemory → T.failures tree.new ≡ T.failures tree.old }
    // By the files: memory and the device aside, what its steps answer.
    ensures answer { T.is_honest → IsAbortedAnswer result ⊎ IsExplained All (T.files tree.old) target.now result }
    // The verdict is the one that `stale` answers.
    ensures verdict { T.is_honest → IfOk result (λ e. IsAnswer (T.files tree.old) (asked (T.files tree.old) target.now) (Ok e.verdict)) }
    // By histories: all that was touched since a recorded object's record.
    ensures recorded { T.is_honest → ExplainsRecorded (T.files tree.old) target.now result }
{
    let mut cache = Cache::with_seed(alloc, Seed::new(tree.seed()));
    query_object(alloc, tree, &mut cache, Query::Why, target)
}
