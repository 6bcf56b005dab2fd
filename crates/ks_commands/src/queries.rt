//! The questions about objects: which of them are stale, why, and which would be after a synchronisation; and whether one was
//! built by a command.
//!
//! A refused question is a line of the output, and the questions after it are still answered.
ghost use Rattle.std.specs.Prelude.{◌≡◌, ◌⊎◌, ◌++◌, List, Err, IfErr, IfOk, IsErrOf, OnOk, false, length, map, option_map};
ghost use Rattle.ks_tree.specs.Files.{Files, HasRisen};
ghost use Rattle.ks_tree.specs.Frames.{Reads};
ghost use Rattle.ks_engine.specs.FileRuns.{state};
ghost use Rattle.ks_engine.specs.BuildStates.{IsStateOn};
ghost use Rattle.ks_engine.specs.Impact.{IsAnswerAfter};
ghost use Rattle.ks_engine.specs.Asked.{reported};
ghost use Rattle.ks_engine.specs.Caches.{IsCacheOf};
ghost use Rattle.ks_engine.specs.Queries.{IsAnswerTo, limit_of};
ghost use Rattle.ks_engine.specs.Refusals.{IsAborted};
ghost use Rattle.ks_engine.specs.Spelling.{spelling_of};
ghost use Rattle.ks_engine.specs.declared.error.EngineError.TheVariants.{Device};
ghost use Rattle.ks_engine.specs.declared.explaining.Explanation.{Explanation};
ghost use Rattle.ks_requests.specs.declared.refusal.Refusal.TheVariants.{Engine};
ghost use Rattle.ks_requests.specs.JsonLines.{answer_in};
ghost use Rattle.ks_requests.specs.Statuses.{code_of, explanation_status, stale_among, status_unless_refused};
ghost use Rattle.ks_commands.specs.Walks.{EndsWalk, IsCounted, IsStep, Part, ReportedAll, Walks, statuses};
ghost use Rattle.ks_commands.specs.Performed.{EndsImpact, EndsOutdated};
ghost use Rattle.ks_commands.specs.Queries.{BackdatesFor, IsSpelled, MayBackdate, querying_by, counted_of, explained, reports};
ghost use Rattle.ks_commands.specs.Spelling.{IsLine, spelling_line, spelling_reported};

use crate::spelling::{spelling_of, write_spelling};
use ks_engine::{
    BackdateScope, Cache, EngineError, Explanation, Impact, Query, backdate_if_stale, outdated,
    query_object,
};
use ks_requests::{
    ConfigPaths, Count, Outcome, OutputFormat, Refusal, Status, Targets, all_targets, borrowed,
    build_status, config_at, read_targets, stale_of, worse, write_answer, write_build_line,
    write_json_answer, write_refused_target,
};
use ks_symbols::{Dialect, Seed};
use ks_tree::{Backdating, Tree};
use std::alloc::{AllocError, Global};

/// An answer, and the other spelling under which the object stands, where that is printed.
#[derive(Drop)]
pub(crate) struct Spelled {
    answer: Result<Explanation, EngineError>,
    spelling: Option<Vec<u8>>,
}

/// Looks for another spelling, where lines are to show one.
fn reported_spelling<T: Tree>(
    alloc: Global,
    tree: &mut T,
    query: Query<'_>,
    format: OutputFormat,
    target: &[u8],
    answer: &Result<Explanation, EngineError>,
) -> Result<Option<Vec<u8>>, EngineError>
    ensures reads { Reads T.Tree tree.old tree.new (IsErrOf result EngineError.Device) }
    ensures reported { T.is_honest → IfOk result (λ s. let limit = limit_of query.entry in
        spelling_reported limit format (option_map (λ v. v.items) s) ≡ spelling_reported limit format (spelling_of (T.files tree.old) target.now answer.now)) }
    ensures line { IfOk result (λ s. IsLine (limit_of query.entry) format (option_map (λ v. v.items) s)) }
    ensures aborted { T.is_honest → IfErr result (λ e. (query.entry ≡ Query.Why) × IsAborted e) }
    ensures uncounted { IsErrOf result EngineError.OutOfMemory → T.failures tree.new ≡ T.failures tree.old }
{
    match query {
        Query::Why => match format {
            OutputFormat::Text => spelling_of(alloc, tree, target, answer),
            OutputFormat::Json => Ok(None),
        },
        Query::Stale | Query::Predicted(_) => Ok(None),
    }
}

/// An answer with another spelling, where lines are to show one.
fn with_spelling<T: Tree>(
    alloc: Global,
    tree: &mut T,
    query: Query<'_>,
    format: OutputFormat,
    target: &[u8],
    answer: Result<Explanation, EngineError>,
) -> Spelled
    ensures reads { Reads T.Tree tree.old tree.new ⊥ }
    ensures reported { T.is_honest → IsSpelled (T.files tree.old) query.entry format target.now answer result.answer (option_map (λ v. v.items) result.spelling) }
    ensures line { IsLine (limit_of query.entry) format (option_map (λ v. v.items) result.spelling) }
    ensures cause { result.answer ≡ Err EngineError.Device
        → (answer ≡ Err EngineError.Device) ⊎ HasRisen (T.failures tree.old) (T.failures tree.new) }
    ensures uncounted { result.answer ≡ Err EngineError.OutOfMemory
        → (answer ≡ Err EngineError.OutOfMemory) ⊎ (T.failures tree.new ≡ T.failures tree.old) }
{
    match reported_spelling(alloc, tree, query, format, target, &answer) {
        Ok(spelling) => Spelled { answer, spelling },
        Err(error) => Spelled {
            answer: Err(error),
            spelling: None,
        },
    }
}

/// Writes an answer in a form.
fn write_in(
    format: OutputFormat,
    query: Query<'_>,
    target: &[u8],
    answer: &Result<Explanation, EngineError>,
    text: &mut Vec<u8>,
) -> Result<Status, AllocError>
    ensures lines { OnOk result (text.new.items ≡ text.old.items ++ answer_in format (limit_of query.entry) target.now answer.now) }
    ensures status { IfOk result (λ s. code_of s ≡ status_unless_refused explanation_status answer.now) }
{
    match format {
        OutputFormat::Text => write_answer(query, target, answer, text),
        OutputFormat::Json => write_json_answer(query, target, answer, text),
    }
}

/// Writes an answer in a form, and under it the other spelling where there is one.
fn write_spelled(
    format: OutputFormat,
    query: Query<'_>,
    target: &[u8],
    reported: &Spelled,
    text: &mut Vec<u8>,
) -> Result<Status, AllocError>
    ensures lines { OnOk result (text.new.items ≡ (text.old.items ++ answer_in format (limit_of query.entry) target.now reported.now.answer)
        ++ spelling_line (option_map (λ v. v.items) reported.now.spelling)) }
    ensures status { IfOk result (λ s. code_of s ≡ status_unless_refused explanation_status reported.now.answer) }
{
    let status = write_in(format, query, target, &reported.answer, text)?;
    write_spelling(&reported.spelling, text)?;
    Ok(status)
}

/// What an object is answered. Where stale ones are to be aged, it is aged then.
fn answer<T: Backdating>(
    alloc: Global,
    tree: &mut T,
    cache: &mut Cache,
    query: Query<'_>,
    backdates: Option<BackdateScope>,
    target: &[u8],
) -> Result<Explanation, EngineError>
    requires cache { T.is_honest → IsCacheOf (T.files tree.old) cache.old }
    requires may_backdate { MayBackdate query backdates }
    ensures counted { IsCounted (T.failures tree.old) result (T.failures tree.new) }
    ensures unchanged { T.is_honest → T.files tree.new ≡ T.files tree.old }
    ensures cache { T.is_honest → IsCacheOf (T.files tree.new) cache.new }
    ensures answer { T.is_honest → IsAnswerTo query.entry (T.files tree.old) target.now result }
    ensures backdated { BackdatesFor T.is_honest (T.files tree.old) backdates target.now (T.backdated tree.old) (reported result) (T.backdated tree.new) }
{
    match backdates {
        Some(which) => backdate_if_stale(alloc, tree, cache, which, target),
        None => query_object(alloc, tree, cache, query, target),
    }
}
/// The same, with another spelling where lines are to show one.
fn spelled_answer<T: Backdating>(
    alloc: Global,
    tree: &mut T,
    cache: &mut Cache,
    query: Query<'_>,
    backdates: Option<BackdateScope>,
    format: OutputFormat,
    target: &[u8],
) -> Spelled
    requires cache { T.is_honest → IsCacheOf (T.files tree.old) cache.old }
    requires may_backdate { MayBackdate query backdates }
    ensures unchanged { T.is_honest → T.files tree.new ≡ T.files tree.old }
    ensures cache { T.is_honest → IsCacheOf (T.files tree.new) cache.new }
    ensures line { IsLine (limit_of query.entry) format (option_map (λ v. v.items) result.spelling) }
    ensures step { (files : Files) → (T.is_honest → T.files tree.old ≡ files) → IsStep (querying_by T.is_honest files backdates format query.entry) (state T.Tree tree.old)
        (explained format (limit_of query.entry) target.now result.answer (option_map (λ v. v.items) result.spelling)) (state T.Tree tree.new) }
{
    let answer = answer(alloc, tree, cache, query, backdates, target);
    with_spelling(alloc, tree, query, format, target, answer)
}

/// The count of stale objects, where the question is for one.
fn count_for(query: Query<'_>, stale: usize, all: usize) -> Option<Count>
    ensures { (parts : List (Part Explanation)) → stale ≡ stale_among (statuses parts) → all ≡ length parts
        → result ≡ counted_of query.entry parts }
{
    match query {
        Query::Predicted(_) => Some(Count::Stale { stale, all }),
        Query::Stale | Query::Why => None,
    }
}

/// Asks of each object, by what was read before and what is still to be read.
fn query_each<T: Backdating>(
    alloc: Global,
    tree: &mut T,
    cache: &mut Cache,
    query: Query<'_>,
    backdates: Option<BackdateScope>,
    format: OutputFormat,
    targets: &[&[u8]],
) -> Result<Outcome, AllocError>
    requires cache { T.is_honest → IsCacheOf (T.files tree.old) cache.old }
    requires may_backdate { MayBackdate query backdates }
    ensures unchanged { T.is_honest → T.files tree.new ≡ T.files tree.old }
    ensures reported { (files : Files) → (T.is_honest → T.files tree.old ≡ files) → (parts : List (Part Explanation))
        × Walks (querying_by T.is_honest files backdates format query.entry) (state T.Tree tree.old) parts (state T.Tree tree.new)
        × ReportedAll (reports (counted_of query.entry)) (map (λ t. t.now) targets.now) parts result }
{
    let mut text = Vec::new(alloc);
    let mut status = Status::Done;
    let mut stale = 0;
    for target in targets {
        let reported = spelled_answer(alloc, tree, cache, query, backdates, format, *target);
        let answered = write_spelled(format, query, *target, &reported, &mut text)?;
        status = worse(status, answered);
        stale += stale_of(answered);
    }
    let count = count_for(query, stale, targets.len());
    Ok(Outcome {
        text,
        status,
        count,
    })
}

/// Asks of each object, one after the other.
fn query_all<T: Backdating>(
    alloc: Global,
    tree: &mut T,
    query: Query<'_>,
    backdates: Option<BackdateScope>,
    format: OutputFormat,
    targets: &[&[u8]],
) -> Result<Outcome, AllocError>
    requires may_backdate { MayBackdate query backdates }
    ensures unchanged { T.is_honest → T.files tree.new ≡ T.files tree.old }
    ensures reported { (files : Files) → (T.is_honest → T.files tree.old ≡ files) → (parts : List (Part Explanation))
        × Walks (querying_by T.is_honest files backdates format query.entry) (state T.Tree tree.old) parts (state T.Tree tree.new)
        × ReportedAll (reports (counted_of query.entry)) (map (λ t. t.now) targets.now) parts result }
{
    let mut cache = Cache::with_seed(alloc, Seed::new(tree.seed()));
    query_each(alloc, tree, &mut cache, query, backdates, format, targets)
}

/// Asks of each object among the arguments, and then of each in the file. What is stale is aged, where it is to be.
pub(crate) fn query_targets<T: Backdating>(
    alloc: Global,
    tree: &mut T,
    query: Query<'_>,
    backdates: Option<BackdateScope>,
    format: OutputFormat,
    targets: &Targets,
) -> Result<Outcome, Refusal>
    requires may_backdate { MayBackdate query backdates }
    ensures unchanged { T.is_honest → T.files tree.new ≡ T.files tree.old }
    ensures cause { result ≡ Err (Engine Device) → HasRisen (T.failures tree.old) (T.failures tree.new) }
    ensures reported { EndsWalk (querying_by T.is_honest (T.files tree.old) backdates format query.entry) false (reports (counted_of query.entry)) T.is_honest
        (state T.Tree tree.old) targets.now result (state T.Tree tree.new) }
{
    let text = read_targets(alloc, tree, targets)?;
    let targets = all_targets(alloc, targets, borrowed(&text))?;
    Ok(query_all(alloc, tree, query, backdates, format, &targets)?)
}

/// Asks of each object whether it would be stale after a synchronisation with the configuration of two files.
pub(crate) fn query_predicted<T: Backdating>(
    alloc: Global,
    tree: &mut T,
    dialect: Dialect,
    config: &ConfigPaths,
    format: OutputFormat,
    targets: &Targets,
) -> Result<Outcome, Refusal>
    ensures unchanged { T.is_honest → T.files tree.new ≡ T.files tree.old }
    ensures cause { result ≡ Err (Engine Device) → HasRisen (T.failures tree.old) (T.failures tree.new) }
    ensures reported { EndsImpact T.is_honest dialect (IsAnswerAfter (T.files tree.old)) (state T.Tree tree.old)
        config.now format targets.now result (state T.Tree tree.new) }
{
    let texts = config_at(alloc, tree, config)?;
    let impact = Impact::of(alloc, tree, &texts.config(dialect, config.form))?;
    query_targets(
        alloc,
        tree,
        Query::Predicted(&impact),
        None,
        format,
        targets,
    )
}

/// Asks whether an object was built by another command, or else whether it is stale.
pub(crate) fn outdated_target<T: Tree>(
    alloc: Global,
    tree: &mut T,
    target: &[u8],
    command: &[u8],
) -> Result<Outcome, Refusal>
    ensures reads { Reads T.Tree tree.old tree.new ⊥ }
    ensures reported { EndsOutdated T.is_honest (IsStateOn (T.files tree.old)) (state T.Tree tree.old) target.now command.now result
        (state T.Tree tree.new) }
    ensures no_device { result ≡ Err (Engine Device) → ⊥ }
{
    let answer = outdated(alloc, tree, target, command);
    let mut text = Vec::new(alloc);
    let status = match &answer {
        Ok(state) => {
            write_build_line(target, state, &mut text)?;
            build_status(state)
        }
        Err(error) => {
            write_refused_target(target, error, &mut text)?;
            Status::Refused
        }
    };
    Ok(Outcome::of(text, status))
}
