//! Recording an object for a build that goes by dependency files, as ninja does: in such a file the header of all symbols would
//! make each change of the configuration a change of every object. So the stamps of the names that the object mentions stand in
//! its place. With `-DFEATURE=CONFIG_N` the command itself mentions one, and the compiler lists no file for that: so the command is
//! scanned too. The record comes first: until it is made the compiler's own file stays, and the object is rebuilt too often and
//! never too rarely.
ghost use Rattle.std.specs.Prelude.{◌≡◌, ◌⊎◌, ◌||◌, List, ℕ, false, option_map, true, IfErr, IfOk, IsErrOf, IsTrue, OnErr, OnOk, Ok, Err, Some, None, map};
ghost use Rattle.ks_symbols.specs.Names.{is_in, is_name};
ghost use Rattle.ks_fixdep.specs.Rule.{first_target, rule_of};
ghost use Rattle.ks_fixdep.specs.SourceScan.{listed_of};
ghost use Rattle.ks_fixdep.specs.Tokens.{tokens};
ghost use Rattle.ks_tree.specs.Files.{content};
ghost use Rattle.ks_tree.specs.Frames.{Counted, Reads};
ghost use Rattle.ks_tree.specs.Paths.{temporary};
ghost use Rattle.ks_engine.specs.Refusals.{IsAborted};
ghost use Rattle.ks_engine.specs.Recorded.{RecordPlan, IsRecordPlanUnder, record_plan_under};
ghost use Rattle.ks_engine.specs.Follows.{GoesOn};
ghost use Rattle.ks_engine.specs.Caches.{IsCacheOf};
ghost use Rattle.ks_engine.specs.Depfile.{FollowsDepfile, IsDepfileRecorded, IsDepfileRefused, IsOldOrRule, IsRuled, NamesCommand, RuleDone, RuleTried, is_own_file, ruled_by};
ghost use Rattle.ks_engine.specs.Places.{tree_of};

use crate::EngineError;
use crate::caches::Cache;
use crate::conventions::{Conventions, RecordOptions};
use crate::recording::{Draft, Prepared, Recorded, prepare, write_record};
use ks_fixdep::{Header, NamesBySource, listed_names, rule_text};
use ks_symbols::{Dialect, Name, Seed};
use ks_tree::{Tree, header_path, make_stamps, replace};
use std::alloc::{AllocError, Global};

/// What stands ready before the first write: the command file, the names whose stamps are to be there, and the rule.
#[derive(Drop)]
struct Ruled {
    draft: Draft,
    names: Vec<Name>,
    rule: Vec<u8>,
}

/// Whether a path is that of a file that the commands write for themselves.
#[tactic(auto, unfolding(crate::specs::Depfile::is_own_file))]
fn is_own_file(path: &[u8]) -> bool
    ensures { result ≡ is_own_file path.now }
{
    path.starts_with(b"include/config/")
        || path == header_path()
        || path.ends_with(b".cmd")
        || path.ends_with(b".tmp")
}

/// Where a dependency file is written before it is moved to its path.
fn temporary(alloc: Global, depfile: &[u8]) -> Result<Vec<u8>, AllocError>
    ensures { IfOk result (λ path. path.items ≡ temporary depfile.now) }
{
    let mut path = Vec::from_slice(alloc, depfile)?;
    path.extend_from_slice(b".tmp")?;
    Ok(path)
}

/// The name that the build has for the tree, where that is another one.
fn tree_of<'a>(options: RecordOptions<'a>) -> Option<&'a [u8]>
    ensures { option_map (λ t. t.now) result ≡ tree_of options.entry }
{
    match options.elsewhere {
        Some(place) => Some(place.tree),
        None => None,
    }
}

/// Makes the rule of an object for which the rest stands ready, and the names that it lists.
fn make_rule(
    alloc: Global,
    options: RecordOptions<'_>,
    prepared: Prepared,
    found: &NamesBySource,
) -> Result<Ruled, EngineError>
    ensures ruled { IfOk result (λ r. (r.draft ≡ prepared.draft) × (r.names.items ≡ listed_of found.now)
        × (r.rule.items ≡ rule_of (tree_of options.entry) (first_target (tokens prepared.depfile.items)) (map (λ p. p.0) prepared.prerequisites) (listed_of found.now))) }
    ensures memory { OnErr result (result ≡ Err EngineError.OutOfMemory) }
{
    let names = listed_names(alloc, found)?;
    let tree = tree_of(options);
    let rule = rule_text(
        alloc,
        tree,
        &prepared.depfile,
        &prepared.prerequisites,
        &names,
    )?;
    Ok(Ruled {
        draft: prepared.draft,
        names,
        rule,
    })
}

/// All steps before the first write, by what was read before and what is still to be read.
fn prepare_rule_by<T: Tree>(
    alloc: Global,
    tree: &mut T,
    cache: &mut Cache,
    conventions: Conventions<'_>,
    depfile: &[u8],
    target: &[u8],
    command: &[u8],
) -> Result<Ruled, EngineError>
    requires cache { T.is_honest → IsCacheOf (T.files tree.old) cache.old }
    ensures reads { Reads T.Tree tree.old tree.new (IsErrOf result EngineError.Device) }
    ensures passed { OnOk result (T.failures tree.new ≡ T.failures tree.old) }
    ensures uncounted { IsErrOf result EngineError.OutOfMemory → T.failures tree.new ≡ T.failures tree.old }
    ensures planned { T.is_honest → IfOk result (λ r. (plan : RecordPlan)
        × IsRecordPlanUnder conventions.entry (T.files tree.old) depfile.now target.now command.now plan
        × IsRuled conventions.entry (T.files tree.old) depfile.now plan r) }
    ensures refused { T.is_honest → IfErr result (λ e. IsAborted e
        ⊎ (record_plan_under conventions.entry (T.files tree.old) depfile.now target.now command.now ≡ Err e)) }
{
    let prepared = prepare(alloc, tree, cache, conventions, depfile, target, command)?;
    make_rule(alloc, conventions.options, prepared, &cache.found)
}

/// All steps before the first write.
fn prepare_rule<T: Tree>(
    alloc: Global,
    tree: &mut T,
    conventions: Conventions<'_>,
    depfile: &[u8],
    target: &[u8],
    command: &[u8],
) -> Result<Ruled, EngineError>
    ensures reads { Reads T.Tree tree.old tree.new (IsErrOf result EngineError.Device) }
    ensures passed { OnOk result (T.failures tree.new ≡ T.failures tree.old) }
    ensures uncounted { IsErrOf result EngineError.OutOfMemory → T.failures tree.new ≡ T.failures tree.old }
    ensures planned { T.is_honest → IfOk result (λ r. (plan : RecordPlan)
        × IsRecordPlanUnder conventions.entry (T.files tree.old) depfile.now target.now command.now plan
        × IsRuled conventions.entry (T.files tree.old) depfile.now plan r) }
    ensures refused { T.is_honest → IfErr result (λ e. IsAborted e
        ⊎ (record_plan_under conventions.entry (T.files tree.old) depfile.now target.now command.now ≡ Err e)) }
{
    let mut cache = Cache::of_one_object(alloc, Seed::new(tree.seed()));
    prepare_rule_by(
        alloc,
        tree,
        &mut cache,
        conventions,
        depfile,
        target,
        command,
    )
}

/// Makes the missing stamps of the names, and then puts the rule into the place of the dependency file.
fn leave_rule<T: Tree>(
    alloc: Global,
    tree: &mut T,
    depfile: &[u8],
    names: &[Name],
    rule: &[u8],
) -> Result<(), EngineError>
    requires free { is_own_file depfile.now ≡ false }
    requires legal { T.is_honest → (x : List ℕ) → is_in names.now x ≡ true → IsTrue (is_name x) }
    ensures done { T.is_honest → OnOk result (RuleDone (T.files tree.old) (T.files tree.new) depfile.now names.now rule.now) }
    ensures tried { T.is_honest → OnErr result (RuleTried (T.files tree.old) (T.files tree.new) depfile.now names.now rule.now) }
    ensures given { IfErr result IsAborted }
    ensures counted { Counted T.Tree tree.old tree.new (IsErrOf result EngineError.Device) }
    ensures passed { OnOk result (T.failures tree.new ≡ T.failures tree.old) }
    ensures uncounted { IsErrOf result EngineError.OutOfMemory → T.failures tree.new ≡ T.failures tree.old }
    ensures kept { T.backdated tree.new ≡ T.backdated tree.old }
{
    let temporary = temporary(alloc, depfile)?;
    make_stamps(alloc, tree, names)?;
    replace(alloc, tree, &temporary, depfile, rule)?;
    Ok(())
}

/// Records an object as `record_object` does, but for the header, and with the names that the words of its command have, like those
/// of a source that comes last. Then it leaves one rule in its dependency file: its prerequisites without the header, and the
/// stamps of the names that were found.
pub fn record_depfile<T: Tree>(
    alloc: Global,
    tree: &mut T,
    options: RecordOptions<'_>,
    header: Header<'_>,
    dialect: Dialect,
    depfile: &[u8],
    target: &[u8],
    command: &[u8],
) -> Result<Recorded, EngineError>
    // By the files: the record, the stamps and the rule are done in this order, or it was refused, or given up on the way.
    ensures recorded { T.is_honest → IfOk result (IsDepfileRecorded (ruled_by header.entry options.entry dialect) (T.files tree.old) (T.files tree.new) depfile.now target.now command.now) }
    ensures refused { T.is_honest → IfErr result (IsDepfileRefused (ruled_by header.entry options.entry dialect) (T.files tree.old) (T.files tree.new) depfile.now target.now command.now) }
    ensures old_or_rule { T.is_honest → OnErr result
        (IsOldOrRule (ruled_by header.entry options.entry dialect) (content (T.files tree.old) depfile.now) (content (T.files tree.new) depfile.now)) }
    // The names of the record are those of the prerequisites, and then those of the command's words.
    ensures names { T.is_honest → OnOk result (NamesCommand header.entry options.entry dialect (T.files tree.old) (T.files tree.new) depfile.now target.now command.now) }
    // By histories: each one that the files show goes on with this answer, and the files show the next one.
    ensures follows { GoesOn T.Tree tree.old tree.new (FollowsDepfile (ruled_by header.entry options.entry dialect) depfile.now target.now command.now result) }
    // The device is to blame only where the tree counted a failure.
    ensures counted { Counted T.Tree tree.old tree.new (IsErrOf result EngineError.Device) }
    ensures passed { OnOk result (T.failures tree.new ≡ T.failures tree.old) }
    ensures uncounted { IsErrOf result EngineError.OutOfMemory → T.failures tree.new ≡ T.failures tree.old }
    ensures kept { T.backdated tree.new ≡ T.backdated tree.old }
{
    if is_own_file(depfile) {
        return Err(EngineError::BadPath(0));
    }
    let conventions = Conventions {
        header,
        dialect,
        scans_command: true,
        options,
    };
    let ruled = prepare_rule(alloc, tree, conventions, depfile, target, command)?;
    write_record(alloc, tree, target, &ruled.draft.text)?;
    leave_rule(alloc, tree, depfile, &ruled.names, &ruled.rule)?;
    Ok(ruled.draft.answer)
}
