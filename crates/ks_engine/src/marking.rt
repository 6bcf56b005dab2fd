//! Marking what is stale, so that make compiles it whatever its times say. Make compiles an object whose saved command is another one
//! than the command that it would run now. So at the end of the command file of what is due the saved command gets the path of the
//! stamp that says so for its value. A file that is no record of its object is emptied. The next record has no such lines.
ghost use Rattle.std.specs.Prelude.{◌≡◌, ◌⊎◌, ◌++◌, Some, true, IfErr, IfOk, IsErrOf, OnErr, OnOk, Result, is_some, map, option_map, unwrap_or};
ghost use Rattle.ks_tree.specs.Files.{content};
ghost use Rattle.ks_tree.specs.Frames.{Counted, Reads};
ghost use Rattle.ks_tree.specs.Paths.{command_path};
ghost use Rattle.ks_engine.specs.Asked.{IsAnswer, asked, command_file};
ghost use Rattle.ks_engine.specs.Caches.{IsCacheOf};
ghost use Rattle.ks_engine.specs.Marks.{ComesTo, GivesUpMark, MarksAll, MarksOne, MarksSome, MayBeMarked, WritesMark, assignment, cause_path, due_by, is_record, mark, marked_in, or_unnumbered};
ghost use Rattle.ks_engine.specs.Refusals.{IsAborted};

use crate::EngineError;
use crate::backdating::BackdateScope;
use crate::caches::Cache;
use crate::explaining::query_object;
use crate::query::Query;
use crate::recording::{forget_record, write_record};
use crate::staleness::{Verdict, borrow_for};
use ks_symbols::Seed;
use ks_tree::{Tree, TreeFault, auto_path, command_path, stamp_path};
use std::alloc::{AllocError, Global};

/// The path of what made an object stale. One without a command file has nothing to be marked.
fn cause_path(alloc: Global, verdict: &Verdict) -> Result<Option<Vec<u8>>, AllocError>
    ensures { IfOk result (λ path. option_map (λ v. v.items) path ≡ cause_path verdict.now) }
{
    match verdict {
        Verdict::Changed(name) => Ok(Some(stamp_path(alloc, name)?)),
        Verdict::Ahead | Verdict::Unnumbered => Ok(Some(Vec::from_slice(alloc, auto_path())?)),
        Verdict::Fresh | Verdict::NoCommandFile => Ok(None),
    }
}

/// What marks an object with this verdict, if it is due.
fn due_by(
    alloc: Global,
    which: BackdateScope,
    verdict: &Verdict,
) -> Result<Option<Vec<u8>>, AllocError>
    ensures { IfOk result (λ path. option_map (λ v. v.items) path ≡ due_by which verdict.now) }
{
    if which.covers(verdict) {
        cause_path(alloc, verdict)
    } else {
        Ok(None)
    }
}

/// What is known of an object. What is refused has no record that counts.
fn verdict_on<T: Tree>(
    alloc: Global,
    tree: &mut T,
    cache: &mut Cache,
    target: &[u8],
) -> Result<Verdict, EngineError>
    requires cache { T.is_honest → IsCacheOf (T.files tree.old) cache.old }
    ensures reads { Reads T.Tree tree.old tree.new (IsErrOf result EngineError.Device) }
    ensures cache { T.is_honest → IsCacheOf (T.files tree.new) cache.new }
    ensures known { T.is_honest → IfOk result (λ v. (answer : Result Verdict EngineError)
        × IsAnswer (T.files tree.old) (asked (T.files tree.old) target.now) answer × (v ≡ or_unnumbered answer)) }
    ensures given { IfErr result IsAborted }
{
    match query_object(alloc, tree, cache, Query::Stale, target) {
        Ok(answer) => Ok(answer.verdict),
        Err(EngineError::OutOfMemory) => Err(EngineError::OutOfMemory),
        Err(EngineError::Device) => Err(EngineError::Device),
        Err(_) => Ok(Verdict::Unnumbered),
    }
}

/// A line that gives a variable of an object a path for its value.
fn push_assignment(
    variable: &[u8],
    target: &[u8],
    path: &[u8],
    text: &mut Vec<u8>,
) -> Result<(), AllocError>
    ensures { OnOk result (text.new.items ≡ text.old.items ++ assignment variable.now target.now path.now) }
{
    text.extend_from_slice(variable)?;
    text.extend_from_slice(target)?;
    text.extend_from_slice(b" := ")?;
    text.extend_from_slice(path)?;
    text.extend_from_slice(b"\n")
}

/// The two variables in which make looks for the command of an object, by the version of Kbuild. An empty line comes first, since the
/// last line may be cut off behind a backslash.
#[tactic(auto, unfolding(crate::specs::Marks::mark))]
fn mark_of(alloc: Global, target: &[u8], path: &[u8]) -> Result<Vec<u8>, AllocError>
    ensures { IfOk result (λ text. text.items ≡ mark target.now path.now) }
{
    let mut text = Vec::from_slice(alloc, b"\n")?;
    push_assignment(b"savedcmd_", target, path, &mut text)?;
    push_assignment(b"cmd_", target, path, &mut text)?;
    Ok(text)
}

/// Whether a text is a record of an object.
fn is_record(alloc: Global, target: &[u8], text: &[u8]) -> Result<bool, AllocError>
    ensures { IfOk result (λ is. is ≡ is_record (command_file target.now (Some text.now))) }
{
    match borrow_for(alloc, target, text) {
        Ok(_) => Ok(true),
        Err(EngineError::OutOfMemory) => Err(AllocError),
        Err(_) => Ok(false),
    }
}

/// The text of a command file once it is marked, if that is another one: empty, where it is no record of this object or was cut off.
fn marked_text(
    alloc: Global,
    target: &[u8],
    mut text: Vec<u8>,
    path: &[u8],
) -> Result<Option<Vec<u8>>, AllocError>
    ensures { IfOk result (λ marked. Some (unwrap_or (option_map (λ v. v.items) marked) text.items) ≡ marked_in target.now path.now (Some text.items)) }
{
    if !is_record(alloc, target, &text)? || !text.ends_with(b"\n") {
        return Ok(if text.is_empty() {
            None
        } else {
            Some(Vec::new(alloc))
        });
    }
    let mark = mark_of(alloc, target, path)?;
    if text.ends_with(&mark) {
        return Ok(None);
    }
    text.extend_from_slice(&mark)?;
    Ok(Some(text))
}

/// What a mark comes to.
#[derive(Drop)]
enum Marking {
    /// There is no command file.
    Missing,
    /// It is as the mark leaves it.
    Done,
    /// It is to have this text.
    Text(Vec<u8>),
}

/// What the mark of an object comes to.
fn read_marked<T: Tree>(
    alloc: Global,
    tree: &mut T,
    target: &[u8],
    path: &[u8],
) -> Result<Marking, EngineError>
    ensures reads { Reads T.Tree tree.old tree.new (IsErrOf result EngineError.Device) }
    ensures marked { T.is_honest → IfOk result (λ m. ComesTo m target.now path.now (content (T.files tree.old) (command_path target.now))) }
    ensures given { IfErr result IsAborted }
{
    let file = command_path(alloc, target)?;
    match tree.read(alloc, &file) {
        Ok(Some(text)) => match marked_text(alloc, target, text, path)? {
            Some(text) => Ok(Marking::Text(text)),
            None => Ok(Marking::Done),
        },
        Ok(None) => Ok(Marking::Missing),
        Err(TreeFault::TooLarge) => Ok(Marking::Text(Vec::new(alloc))),
        Err(fault) => Err(EngineError::from(fault)),
    }
}

/// Marks an object by a path, if it has a command file, and answers whether it has. One that is marked so already isn't written again.
fn write_mark<T: Tree>(
    alloc: Global,
    tree: &mut T,
    cache: &mut Cache,
    target: &[u8],
    path: &[u8],
) -> Result<bool, EngineError>
    requires cache { T.is_honest → IsCacheOf (T.files tree.old) cache.old }
    ensures cache { T.is_honest → IsCacheOf (T.files tree.new) cache.new }
    ensures all { T.is_honest → IfOk result (WritesMark (T.files tree.old) (T.files tree.new) target.now path.now) }
    ensures some { T.is_honest → OnErr result ((T.files tree.new ≡ T.files tree.old)
        ⊎ ((is_some (content (T.files tree.old) (command_path target.now)) ≡ true) × MayBeMarked (T.files tree.old) (T.files tree.new) target.now path.now)) }
    ensures given { IfErr result IsAborted }
    ensures counted { Counted T.Tree tree.old tree.new (IsErrOf result EngineError.Device) }
    ensures kept { T.backdated tree.new ≡ T.backdated tree.old }
{
    let text = match read_marked(alloc, tree, target, path)? {
        Marking::Missing => return Ok(false),
        Marking::Done => return Ok(true),
        Marking::Text(text) => text,
    };
    forget_record(alloc, cache, target)?;
    write_record(alloc, tree, target, &text)?;
    Ok(true)
}

/// Marks an object if it is due, and answers whether it is.
fn mark_if_due<T: Tree>(
    alloc: Global,
    tree: &mut T,
    cache: &mut Cache,
    which: BackdateScope,
    target: &[u8],
) -> Result<bool, EngineError>
    requires cache { T.is_honest → IsCacheOf (T.files tree.old) cache.old }
    ensures cache { T.is_honest → IsCacheOf (T.files tree.new) cache.new }
    ensures all { T.is_honest → IfOk result (MarksOne which target.now (T.files tree.old) (T.files tree.new)) }
    ensures some { T.is_honest → OnErr result (GivesUpMark which target.now (T.files tree.old) (T.files tree.new)) }
    ensures given { IfErr result IsAborted }
    ensures counted { Counted T.Tree tree.old tree.new (IsErrOf result EngineError.Device) }
    ensures kept { T.backdated tree.new ≡ T.backdated tree.old }
{
    let verdict = verdict_on(alloc, tree, cache, target)?;
    match due_by(alloc, which, &verdict)? {
        Some(path) => write_mark(alloc, tree, cache, target, &path),
        None => Ok(false),
    }
}

/// Marks each of these objects that has a command file and is due, one after the other, and answers how many are. What is refused
/// counts as an object without a number. After `OutOfMemory` or `Device` the first of them are marked, and one that is due may be.
pub fn mark_due<T: Tree>(
    alloc: Global,
    tree: &mut T,
    which: BackdateScope,
    targets: &[&[u8]],
) -> Result<usize, EngineError>
    ensures marked { T.is_honest → IfOk result (MarksAll which (map (λ t. t.now) targets.now) (T.files tree.old) (T.files tree.new)) }
    ensures some { T.is_honest → OnErr result (MarksSome which (map (λ t. t.now) targets.now) (T.files tree.old) (T.files tree.new)) }
    ensures given { IfErr result IsAborted }
    ensures counted { Counted T.Tree tree.old tree.new (IsErrOf result EngineError.Device) }
    ensures kept { T.backdated tree.new ≡ T.backdated tree.old }
{
    let mut cache = Cache::with_seed(alloc, Seed::new(tree.seed()));
    let mut marked = 0;
    for target in targets {
        if mark_if_due(alloc, tree, &mut cache, which, target)? {
            marked += 1;
        }
    }
    Ok(marked)
}
