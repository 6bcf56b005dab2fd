//! Which objects are stale: those of which a name has a stamp above the generation of their record. A command file that can't be
//! trusted is refused or said to be so, and never read as fresh; whether a source file itself changed is make's matter.
ghost use Rattle.std.specs.Prelude.{◌≡◌, ◌⊎◌, Err, IfOk, IfErr, IsErrOf, OnOk, option_map, bytes_eq, Some};
ghost use Rattle.ks_fixdep.specs.Borrowed.{borrowed_view};
ghost use Rattle.ks_tree.specs.Frames.{Reads};
ghost use Rattle.ks_tree.specs.Files.{Files, content};
ghost use Rattle.ks_tree.specs.Paths.{command_path};
ghost use Rattle.ks_engine.specs.Refusals.{Answers, IsAborted};
ghost use Rattle.ks_engine.specs.Asked.{IsAnswerOn, command_file};
ghost use Rattle.ks_engine.specs.Caches.{IsCacheOf};
ghost use Rattle.ks_engine.specs.BuildStates.{IsStateOn};
ghost use Rattle.ks_engine.specs.Evaluated.{EvaluatesBuild, EvaluatesRecorded};

use crate::EngineError;
use crate::caches::Cache;
use crate::explaining::{evaluate, query_object};
use crate::query::Query;
use ks_fixdep::{BorrowedCommand, borrow_command, command_is_legal};
use ks_symbols::{Name, Seed, target_is_legal};
use ks_tree::{Tree, command_path};
use std::alloc::Global;

/// What is known of an object.
#[derive(Drop)]
pub enum Verdict {
    /// None of its names changed since it was recorded.
    Fresh,
    /// The first of its names that changed since.
    Changed(Name),
    NoCommandFile,
    /// Its command file has no generation, as Kbuild writes it.
    Unnumbered,
    /// Its command file has a generation above that of auto.conf.
    Ahead,
}

/// Whether an object was built by a command, and whether it is stale.
#[derive(Drop)]
pub enum BuildState {
    CommandDiffers,
    Verdict(Verdict),
}

/// The text of a target's command file, where there is one.
pub(crate) fn read_command_text<T: Tree>(
    alloc: Global,
    tree: &mut T,
    target: &[u8],
) -> Result<Option<Vec<u8>>, EngineError>
    ensures reads { Reads T.Tree tree.old tree.new (IsErrOf result EngineError.Device) }
    ensures read { T.is_honest → IfOk result (λ found. option_map (λ v. v.items) found ≡ content (T.files tree.old) (command_path target.now)) }
    ensures refused { T.is_honest → IfErr result (λ e. IsAborted e ⊎ (command_file target.now (content (T.files tree.old) (command_path target.now)) ≡ Err e)) }
    ensures passed { OnOk result (T.failures tree.new ≡ T.failures tree.old) }
    ensures uncounted { IsErrOf result EngineError.OutOfMemory → T.failures tree.new ≡ T.failures tree.old }
{
    let path = command_path(alloc, target)?;
    Ok(tree.read(alloc, &path)?)
}

/// What the text of a target's command file says.
pub(crate) fn borrow_for<'a>(
    alloc: Global,
    target: &[u8],
    text: &'a [u8],
) -> Result<BorrowedCommand<'a>, EngineError>
    ensures read { Answers (command_file target.now (Some text.now)) (λ f. Some (borrowed_view f)) result }
    ensures no_device { IsErrOf result EngineError.Device → ⊥ }
{
    let file = borrow_command(alloc, text)?;
    if file.target == target {
        Ok(file)
    } else {
        Err(EngineError::BadCommandFile(1))
    }
}

/// Whether a command file has saved this command.
fn has_command(file: &BorrowedCommand<'_>, command: &[u8]) -> bool
    ensures { result ≡ bytes_eq file.now.command.now command.now }
{
    file.command == command
}

/// Whether an object was built by a command, by the files.
fn query_command<T: Tree>(
    alloc: Global,
    tree: &mut T,
    cache: &mut Cache,
    target: &[u8],
    command: &[u8],
) -> Result<BuildState, EngineError>
    requires cache { T.is_honest → IsCacheOf (T.files tree.old) cache.old }
    ensures reads { Reads T.Tree tree.old tree.new (IsErrOf result EngineError.Device) }
    ensures uncounted { IsErrOf result EngineError.OutOfMemory → T.failures tree.new ≡ T.failures tree.old }
    ensures cache { T.is_honest → IsCacheOf (T.files tree.new) cache.new }
    ensures answer { T.is_honest → IsStateOn (T.files tree.old) target.now command.now result }
{
    if !target_is_legal(target) {
        return Err(EngineError::BadPath(0));
    }
    if !command_is_legal(command) {
        return Err(EngineError::BadCommand);
    }
    let Some(text) = read_command_text(alloc, tree, target)? else {
        return Ok(BuildState::Verdict(Verdict::NoCommandFile));
    };
    let file = borrow_for(alloc, target, &text)?;
    if !has_command(&file, command) {
        return Ok(BuildState::CommandDiffers);
    }
    let evaluated = evaluate(alloc, tree, cache, Query::Stale, &file)?;
    Ok(BuildState::Verdict(evaluated.verdict))
}

/// Whether an object is stale, by what was read before and what is still to be read.
fn stale_by<T: Tree>(
    alloc: Global,
    tree: &mut T,
    cache: &mut Cache,
    target: &[u8],
) -> Result<Verdict, EngineError>
    requires cache { T.is_honest → IsCacheOf (T.files tree.old) cache.old }
    ensures reads { Reads T.Tree tree.old tree.new (IsErrOf result EngineError.Device) }
    ensures uncounted { IsErrOf result EngineError.OutOfMemory → T.failures tree.new ≡ T.failures tree.old }
    ensures answer { T.is_honest → IsAnswerOn (T.files tree.old) target.now result }
{
    let answer = query_object(alloc, tree, cache, Query::Stale, target)?;
    Ok(answer.verdict)
}

/// Whether an object is stale. It writes nothing.
pub fn stale<T: Tree>(alloc: Global, tree: &mut T, target: &[u8]) -> Result<Verdict, EngineError>
    ensures reads { Reads T.Tree tree.old tree.new (IsErrOf result EngineError.Device) }
    ensures uncounted { IsErrOf result EngineError.OutOfMemory → T.failures tree.new ≡ T.failures tree.old }
    // By the files: memory and the device aside, what its steps answer.
    ensures answer { T.is_honest → IsAnswerOn (T.files tree.old) target.now result }
    // By histories: what was touched since a recorded object's record.
    ensures recorded { T.is_honest → EvaluatesRecorded (T.files tree.old) target.now result }
{
    let mut cache = Cache::with_seed(alloc, Seed::new(tree.seed()));
    stale_by(alloc, tree, &mut cache, target)
}

/// Whether an object was built by this command, and whether it is stale. It writes nothing.
pub fn outdated<T: Tree>(
    alloc: Global,
    tree: &mut T,
    target: &[u8],
    command: &[u8],
) -> Result<BuildState, EngineError>
    ensures reads { Reads T.Tree tree.old tree.new (IsErrOf result EngineError.Device) }
    ensures uncounted { IsErrOf result EngineError.OutOfMemory → T.failures tree.new ≡ T.failures tree.old }
    // By the files: memory and the device aside, what its steps answer.
    ensures answer { T.is_honest → IsStateOn (T.files tree.old) target.now command.now result }
    // By histories: the command is compared with that of the record, and then as `stale`.
    ensures recorded { T.is_honest → EvaluatesBuild (T.files tree.old) target.now command.now result }
{
    let mut cache = Cache::with_seed(alloc, Seed::new(tree.seed()));
    query_command(alloc, tree, &mut cache, target, command)
}
