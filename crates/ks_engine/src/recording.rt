//! Recording an object: the command that builds it, the files that it is made of, and the names in them, under the generation of
//! the last completed synchronisation. A greater number, as that of a stamp, would hide a synchronisation that was broken off.
ghost use Rattle.std.specs.Prelude.{◌≡◌, ◌⊎◌, is_some, Ok, Err, Some, None, IfOk, IfErr, OnOk, OnErr, IsTrue, IsErrOf, length};
ghost use Rattle.ks_symbols.specs.Names.{is_path, is_target};
ghost use Rattle.ks_fixdep.specs.CommandFile.{is_command, IsLegal};
ghost use Rattle.ks_fixdep.specs.FoundNames.{names_of};
ghost use Rattle.ks_fixdep.specs.SourceScan.{found_of, listed_of, names_by};
ghost use Rattle.ks_tree.specs.Frames.{Counted, Reads};
ghost use Rattle.ks_tree.specs.Files.{Files, SameButBoth, content};
ghost use Rattle.ks_tree.specs.Paths.{auto_path, command_path, command_temporary};
ghost use Rattle.ks_engine.specs.Refusals.{Answers, IsAborted};
ghost use Rattle.ks_engine.specs.Places.{depfile_at, legal_place};
ghost use Rattle.ks_engine.specs.Recording.{args, there, with_command};
ghost use Rattle.ks_engine.specs.Recorded.{RecordPlan, drafted, recorded_at, usual_with, record_plan_under, with_further_lines, IsRecordPlanUnder, IsRecorded, IsRecordedUnder, IsRecordRefused, IsRecordRefusedUnder};
ghost use Rattle.ks_engine.specs.Follows.{GoesOn, FollowsRecord, FollowsRecordUnder};
ghost use Rattle.ks_engine.specs.Caches.{are_placed, IsCacheOf, IsNoSource};
ghost use Rattle.ks_engine.specs.Drafts.{IsDraft, IsPrepared, drafted_by};

use crate::EngineError;
use crate::caches::Cache;
use crate::conventions::{Conventions, NO_OPTIONS, RecordOptions};
use crate::sources::scan_all_by;
use ks_fixdep::{
    NamesBySource, Prerequisites, ScanRules, command_is_legal, listed_names, placed_text,
    push_elsewhere_lines, push_own_lines, read_depfile_without, record_text,
};
use ks_symbols::{Dialect, MAX_BYTES, Path, Seed, path_is_legal, target_is_legal};
use ks_tree::{Tree, auto_path, command_path, command_temporary, replace};
use std::alloc::{AllocError, Global};

/// What was recorded.
#[derive(Clone, Copy, Debug)]
pub struct Recorded {
    pub generation: u64,
    /// How many names the command file holds.
    pub names: usize,
}

/// What is to be written.
#[derive(Drop)]
pub(crate) struct Draft {
    pub(crate) answer: Recorded,
    pub(crate) text: Vec<u8>,
}

/// What stands ready before the first write, and the dependency file that it was made of.
#[derive(Drop)]
pub(crate) struct Prepared {
    pub(crate) draft: Draft,
    pub(crate) depfile: Vec<u8>,
    pub(crate) prerequisites: Prerequisites,
}

/// Refuses words that no command file can hold. The paths are looked at before the command.
pub fn check_args(depfile: &[u8], target: &[u8], command: &[u8]) -> Result<(), EngineError>
    ensures args { result ≡ args depfile.now target.now command.now }
    ensures depfile { OnOk result (IsTrue (is_path depfile.now)) }
    ensures target { OnOk result (IsTrue (is_target target.now)) }
    ensures command { OnOk result (IsTrue (is_command command.now)) }
{
    if !path_is_legal(depfile) || !target_is_legal(target) {
        return Err(EngineError::BadPath(0));
    }
    if !command_is_legal(command) {
        return Err(EngineError::BadCommand);
    }
    Ok(())
}

/// A file that has to be there.
fn read_there<T: Tree>(alloc: Global, tree: &mut T, path: &[u8]) -> Result<Vec<u8>, EngineError>
    requires { IsTrue (is_path path.now) }
    ensures reads { Reads T.Tree tree.old tree.new (IsErrOf result EngineError.Device) }
    ensures passed { OnOk result (T.failures tree.new ≡ T.failures tree.old) }
    ensures uncounted { IsErrOf result EngineError.OutOfMemory → T.failures tree.new ≡ T.failures tree.old }
    ensures bytes { T.is_honest → Answers (there path.now (content (T.files tree.old) path.now)) (λ v. v.items) result }
{
    match tree.read(alloc, path)? {
        Some(text) => Ok(text),
        None => Err(EngineError::MissingFile(Path::new(alloc, path)?)),
    }
}

/// Refuses what can be no name of a place.
fn check_elsewhere(options: RecordOptions<'_>) -> Result<(), EngineError>
    ensures place { result ≡ legal_place options.entry }
{
    match options.elsewhere {
        Some(place) if !path_is_legal(place.directory) || !path_is_legal(place.tree) => {
            Err(EngineError::BadPath(0))
        }
        _ => Ok(()),
    }
}

/// A dependency file that has to be there, with the paths that it has here.
fn read_depfile_at<T: Tree>(
    alloc: Global,
    tree: &mut T,
    options: RecordOptions<'_>,
    path: &[u8],
) -> Result<Vec<u8>, EngineError>
    requires { IsTrue (is_path path.now) }
    ensures reads { Reads T.Tree tree.old tree.new (IsErrOf result EngineError.Device) }
    ensures passed { OnOk result (T.failures tree.new ≡ T.failures tree.old) }
    ensures uncounted { IsErrOf result EngineError.OutOfMemory → T.failures tree.new ≡ T.failures tree.old }
    ensures bytes { T.is_honest → Answers (depfile_at options.entry path.now (content (T.files tree.old) path.now)) (λ v. v.items) result }
{
    let text = read_there(alloc, tree, path)?;
    match options.elsewhere {
        Some(place) => Ok(placed_text(alloc, place.directory, &text)?),
        None => Ok(text),
    }
}

/// Adds the lines that follow a record, where they are asked for.
fn add_further_lines(
    alloc: Global,
    conventions: Conventions<'_>,
    target: &[u8],
    found: &NamesBySource,
    text: &mut Vec<u8>,
) -> Result<(), AllocError>
    ensures { OnOk result (text.new.items ≡ with_further_lines conventions.entry target.now (listed_of found.now) text.old.items) }
{
    let options = conventions.options;
    if conventions.scans_command || !options.adds_own_lines && options.elsewhere.is_none() {
        return Ok(());
    }
    let names = listed_names(alloc, found)?;
    if options.adds_own_lines {
        push_own_lines(text, conventions.dialect, target, &names)?;
    }
    let Some(place) = options.elsewhere else {
        return Ok(());
    };
    push_elsewhere_lines(text, place.directory, place.tree, target, &names)
}

/// The command file that is to be written, before it is.
fn make_draft(
    alloc: Global,
    conventions: Conventions<'_>,
    target: &[u8],
    command: &[u8],
    prerequisites: &Prerequisites,
    generation: u64,
    found: &mut NamesBySource,
) -> Result<Draft, EngineError>
    requires target { IsTrue (is_target target.now) }
    requires command { IsTrue (is_command command.now) }
    ensures no_device { IsErrOf result EngineError.Device → ⊥ }
    ensures drafted { IfOk result (λ d. (plan : RecordPlan)
        × (drafted conventions.entry target.now command.now prerequisites.now generation (names_by found.old) ≡ Ok plan) × IsLegal plan.file × IsDraft plan d) }
    ensures refused { IfErr result (λ e. IsAborted e ⊎ (drafted conventions.entry target.now command.now prerequisites.now generation (names_by found.old) ≡ Err e)) }
    ensures listed { OnOk result (listed_of found.new ≡ names_of (names_by found.old)) }
    ensures scan { found.new.scan ≡ found.old.scan }
    ensures sources { found.new.sources ≡ found.old.sources }
{
    let numbered = Some(generation);
    let mut written = record_text(alloc, target, command, prerequisites, found, numbered)?;
    add_further_lines(alloc, conventions, target, found, &mut written.text)?;
    if written.text.len() > MAX_BYTES {
        return Err(EngineError::TooLarge);
    }
    let answer = Recorded {
        generation,
        names: written.names,
    };
    Ok(Draft {
        answer,
        text: written.text,
    })
}

/// Scans the command of an object whose prerequisites were scanned, where that is asked for.
fn scan_command_by(cache: &mut Cache, scans_command: bool, command: &[u8]) -> Result<(), AllocError>
    ensures cache { (files : Files) → IsCacheOf files cache.old → IsCacheOf files cache.new }
    ensures names { IsTrue (are_placed (found_of cache.old.found.scan) cache.old.found.sources.items)
        → OnOk result (names_by cache.new.found ≡ with_command scans_command cache.old.rules command.now (names_by cache.old.found)) }
{
    if scans_command {
        return cache.scan_command(command);
    }
    Ok(())
}

/// Whether there is an auto.conf.
fn has_auto<T: Tree>(alloc: Global, tree: &mut T) -> Result<bool, EngineError>
    ensures reads { Reads T.Tree tree.old tree.new (IsErrOf result EngineError.Device) }
    ensures passed { OnOk result (T.failures tree.new ≡ T.failures tree.old) }
    ensures uncounted { IsErrOf result EngineError.OutOfMemory → T.failures tree.new ≡ T.failures tree.old }
    ensures given { IfErr result IsAborted }
    ensures found { T.is_honest → IfOk result (λ has. has ≡ is_some (content (T.files tree.old) auto_path)) }
{
    Ok(tree.read_at(alloc, auto_path(), 0, &mut [0; 1])?.is_some())
}

/// The generation under which an object is recorded.
fn generation_by<T: Tree>(
    alloc: Global,
    tree: &mut T,
    cache: &mut Cache,
    before_sync: bool,
) -> Result<u64, EngineError>
    requires cache { T.is_honest → IsCacheOf (T.files tree.old) cache.old }
    ensures reads { Reads T.Tree tree.old tree.new (IsErrOf result EngineError.Device) }
    ensures passed { OnOk result (T.failures tree.new ≡ T.failures tree.old) }
    ensures uncounted { IsErrOf result EngineError.OutOfMemory → T.failures tree.new ≡ T.failures tree.old }
    ensures cache { T.is_honest → IsCacheOf (T.files tree.new) cache.new }
    ensures rules { cache.new.rules ≡ cache.old.rules }
    ensures read { T.is_honest → Answers (recorded_at before_sync (content (T.files tree.old) auto_path)) (λ g. g) result }
{
    if before_sync && !has_auto(alloc, tree)? {
        return Ok(0);
    }
    cache.generation(alloc, tree)
}

/// Drafts the command file of an object that has these prerequisites, by the rules of what is kept.
fn draft_by<T: Tree>(
    alloc: Global,
    tree: &mut T,
    cache: &mut Cache,
    conventions: Conventions<'_>,
    target: &[u8],
    command: &[u8],
    prerequisites: &Prerequisites,
) -> Result<Draft, EngineError>
    requires cache { T.is_honest → IsCacheOf (T.files tree.old) cache.old }
    requires target { IsTrue (is_target target.now) }
    requires command { IsTrue (is_command command.now) }
    ensures cache { T.is_honest → IsCacheOf (T.files tree.new) cache.new }
    ensures reads { Reads T.Tree tree.old tree.new (IsErrOf result EngineError.Device) }
    ensures passed { OnOk result (T.failures tree.new ≡ T.failures tree.old) }
    ensures uncounted { IsErrOf result EngineError.OutOfMemory → T.failures tree.new ≡ T.failures tree.old }
    ensures drafted { T.is_honest → IfOk result (λ d. (plan : RecordPlan)
        × (drafted_by cache.old.rules conventions.entry (T.files tree.old) target.now command.now prerequisites.now ≡ Ok plan) × IsLegal plan.file
        × IsDraft plan d × (plan.names ≡ listed_of cache.new.found)) }
    ensures refused { T.is_honest → IfErr result (λ e. IsAborted e
        ⊎ (drafted_by cache.old.rules conventions.entry (T.files tree.old) target.now command.now prerequisites.now ≡ Err e)) }
{
    let generation = generation_by(alloc, tree, cache, conventions.options.before_sync)?;
    scan_all_by(alloc, tree, cache, prerequisites)?;
    scan_command_by(cache, conventions.scans_command, command)?;
    make_draft(
        alloc,
        conventions,
        target,
        command,
        prerequisites,
        generation,
        &mut cache.found,
    )
}

/// All steps before the write.
pub(crate) fn prepare<T: Tree>(
    alloc: Global,
    tree: &mut T,
    cache: &mut Cache,
    conventions: Conventions<'_>,
    depfile: &[u8],
    target: &[u8],
    command: &[u8],
) -> Result<Prepared, EngineError>
    requires cache { T.is_honest → IsCacheOf (T.files tree.old) cache.old }
    ensures cache { T.is_honest → IsCacheOf (T.files tree.new) cache.new }
    ensures reads { Reads T.Tree tree.old tree.new (IsErrOf result EngineError.Device) }
    ensures passed { OnOk result (T.failures tree.new ≡ T.failures tree.old) }
    ensures uncounted { IsErrOf result EngineError.OutOfMemory → T.failures tree.new ≡ T.failures tree.old }
    ensures planned { T.is_honest → IfOk result (λ p. (plan : RecordPlan)
        × IsRecordPlanUnder conventions.entry (T.files tree.old) depfile.now target.now command.now plan
        × IsPrepared conventions.entry (T.files tree.old) depfile.now plan (listed_of cache.new.found) p) }
    ensures refused { T.is_honest → IfErr result (λ e. IsAborted e
        ⊎ (record_plan_under conventions.entry (T.files tree.old) depfile.now target.now command.now ≡ Err e)) }
{
    check_args(depfile, target, command)?;
    check_elsewhere(conventions.options)?;
    let text = read_depfile_at(alloc, tree, conventions.options, depfile)?;
    let header = conventions.header;
    let prerequisites = read_depfile_without(alloc, Seed::new(tree.seed()), header, &text)?;
    cache.scan_by(ScanRules::for_target(conventions.dialect, target));
    let draft = draft_by(
        alloc,
        tree,
        cache,
        conventions,
        target,
        command,
        &prerequisites,
    )?;
    Ok(Prepared {
        draft,
        depfile: text,
        prerequisites,
    })
}

/// Writes a command file.
pub(crate) fn write_record<T: Tree>(
    alloc: Global,
    tree: &mut T,
    target: &[u8],
    text: &[u8],
) -> Result<(), EngineError>
    ensures written { T.is_honest → OnOk result (content (T.files tree.new) (command_path target.now) ≡ Some text.now) }
    ensures gone { T.is_honest → OnOk result (content (T.files tree.new) (command_temporary target.now) ≡ None) }
    ensures either { T.is_honest → OnErr result
        ((content (T.files tree.new) (command_path target.now) ≡ content (T.files tree.old) (command_path target.now))
        ⊎ (content (T.files tree.new) (command_path target.now) ≡ Some text.now)) }
    ensures others { T.is_honest → SameButBoth (command_temporary target.now) (command_path target.now) (T.files tree.old) (T.files tree.new) }
    ensures given { IfErr result IsAborted }
    ensures counted { Counted T.Tree tree.old tree.new (IsErrOf result EngineError.Device) }
    ensures passed { OnOk result (T.failures tree.new ≡ T.failures tree.old) }
    ensures uncounted { IsErrOf result EngineError.OutOfMemory → T.failures tree.new ≡ T.failures tree.old }
    ensures kept { T.backdated tree.new ≡ T.backdated tree.old }
{
    let path = command_path(alloc, target)?;
    let temporary = command_temporary(alloc, target)?;
    replace(alloc, tree, &temporary, &path, text)?;
    Ok(())
}

/// Forgets what was kept of an object's command file and its temporary file, since both are to be written.
pub(crate) fn forget_record(
    alloc: Global,
    cache: &mut Cache,
    target: &[u8],
) -> Result<(), AllocError>
    ensures cache { (files : Files) → IsCacheOf files cache.old → IsCacheOf files cache.new }
    ensures gone { OnOk result (IsNoSource (command_path target.now) cache.new × IsNoSource (command_temporary target.now) cache.new) }
{
    cache.invalidate(&command_temporary(alloc, target)?);
    cache.invalidate(&command_path(alloc, target)?);
    Ok(())
}

/// Records an object, by what was read before and what is still to be read.
pub(crate) fn record_by<T: Tree>(
    alloc: Global,
    tree: &mut T,
    cache: &mut Cache,
    conventions: Conventions<'_>,
    depfile: &[u8],
    target: &[u8],
    command: &[u8],
) -> Result<Recorded, EngineError>
    requires cache { T.is_honest → IsCacheOf (T.files tree.old) cache.old }
    ensures cache { T.is_honest → IsCacheOf (T.files tree.new) cache.new }
    ensures recorded { T.is_honest → IfOk result (IsRecordedUnder conventions.entry (T.files tree.old) (T.files tree.new) depfile.now target.now command.now) }
    ensures refused { T.is_honest → IfErr result (IsRecordRefusedUnder conventions.entry (T.files tree.old) (T.files tree.new) depfile.now target.now command.now) }
    ensures counted { Counted T.Tree tree.old tree.new (IsErrOf result EngineError.Device) }
    ensures passed { OnOk result (T.failures tree.new ≡ T.failures tree.old) }
    ensures uncounted { IsErrOf result EngineError.OutOfMemory → T.failures tree.new ≡ T.failures tree.old }
    ensures kept { T.backdated tree.new ≡ T.backdated tree.old }
{
    let prepared = prepare(alloc, tree, cache, conventions, depfile, target, command)?;
    forget_record(alloc, cache, target)?;
    write_record(alloc, tree, target, &prepared.draft.text)?;
    Ok(prepared.draft.answer)
}

/// Records an object as `record_object` does, with these options.
pub fn record_object_with<T: Tree>(
    alloc: Global,
    tree: &mut T,
    options: RecordOptions<'_>,
    dialect: Dialect,
    depfile: &[u8],
    target: &[u8],
    command: &[u8],
) -> Result<Recorded, EngineError>
    // By the files: the command file is written and all else is as before, or it was refused, or given up at the write.
    ensures recorded { T.is_honest → IfOk result (IsRecordedUnder (usual_with options.entry dialect) (T.files tree.old) (T.files tree.new) depfile.now target.now command.now) }
    ensures refused { T.is_honest → IfErr result (IsRecordRefusedUnder (usual_with options.entry dialect) (T.files tree.old) (T.files tree.new) depfile.now target.now command.now) }
    // By histories: each one that the files show goes on with this answer, and the files show the next one.
    ensures follows { GoesOn T.Tree tree.old tree.new (FollowsRecordUnder (usual_with options.entry dialect) depfile.now target.now command.now result) }
    // The device is to blame only where the tree counted a failure.
    ensures counted { Counted T.Tree tree.old tree.new (IsErrOf result EngineError.Device) }
    ensures passed { OnOk result (T.failures tree.new ≡ T.failures tree.old) }
    ensures uncounted { IsErrOf result EngineError.OutOfMemory → T.failures tree.new ≡ T.failures tree.old }
    ensures kept { T.backdated tree.new ≡ T.backdated tree.old }
{
    let mut cache = Cache::of_one_object(alloc, Seed::new(tree.seed()));
    let conventions = Conventions::of_record(dialect, options);
    record_by(
        alloc,
        tree,
        &mut cache,
        conventions,
        depfile,
        target,
        command,
    )
}

/// Records an object: by which command it is built, and what the files of its dependency file name. The header at this time is
/// what the object counts as compiled with.
pub fn record_object<T: Tree>(
    alloc: Global,
    tree: &mut T,
    dialect: Dialect,
    depfile: &[u8],
    target: &[u8],
    command: &[u8],
) -> Result<Recorded, EngineError>
    // By the files: the command file is written and all else is as before, or it was refused, or given up at the write.
    ensures recorded { T.is_honest → IfOk result (IsRecorded dialect (T.files tree.old) (T.files tree.new) depfile.now target.now command.now) }
    ensures refused { T.is_honest → IfErr result (IsRecordRefused dialect (T.files tree.old) (T.files tree.new) depfile.now target.now command.now) }
    // By histories: each one that the files show goes on with this answer, and the files show the next one.
    ensures follows { GoesOn T.Tree tree.old tree.new (FollowsRecord dialect depfile.now target.now command.now result) }
    // The device is to blame only where the tree counted a failure.
    ensures counted { Counted T.Tree tree.old tree.new (IsErrOf result EngineError.Device) }
    ensures passed { OnOk result (T.failures tree.new ≡ T.failures tree.old) }
    ensures uncounted { IsErrOf result EngineError.OutOfMemory → T.failures tree.new ≡ T.failures tree.old }
    ensures kept { T.backdated tree.new ≡ T.backdated tree.old }
{
    record_object_with(alloc, tree, NO_OPTIONS, dialect, depfile, target, command)
}
