//! Putting back what the last completed synchronisation left, by the files that the arguments name.
ghost use Rattle.std.specs.Prelude.{◌≡◌, Err, IfOk, IsErrOf, OnOk};
ghost use Rattle.ks_tree.specs.Files.{HasRisen};
ghost use Rattle.ks_tree.specs.Frames.{Reads};
ghost use Rattle.ks_engine.specs.FileRuns.{state};
ghost use Rattle.ks_engine.specs.Refusals.{Answers};
ghost use Rattle.ks_engine.specs.declared.error.EngineError.TheVariants.{Device};
ghost use Rattle.ks_requests.specs.declared.refusal.Refusal.TheVariants.{Engine};
ghost use Rattle.ks_requests.specs.declared.status.Status.TheVariants.{Done};
ghost use Rattle.ks_commands.specs.Performed.{EndsRepair, by_files};
ghost use Rattle.ks_commands.specs.Repairing.{kept_at, repair_at, seen_kept};
ghost use Rattle.ks_commands.specs.Views.{seen_repair_texts};
ghost use Rattle.ks_symbols.specs.declared.dialect.Dialect.{Dialect};

use ks_engine::{EngineError, Kept, repair};
use ks_requests::{
    KeptPaths, Outcome, Refusal, Texts, listed_targets, names_in, report_repair, texts_at,
};
use ks_symbols::Name;
use ks_tree::Tree;
use std::alloc::Global;

/// What the files of a repair hold. The objects are still to be cut into lines.
#[derive(Drop)]
struct RepairTexts {
    kept: Option<Kept>,
    names: Vec<Name>,
    list: Vec<u8>,
}

/// What was kept, if it is named.
fn read_kept<T: Tree>(
    alloc: Global,
    tree: &mut T,
    kept: &Option<KeptPaths>,
) -> Result<Option<Kept>, EngineError>
    ensures reads { Reads T.Tree tree.old tree.new (IsErrOf result EngineError.Device) }
    ensures read { T.is_honest → Answers (kept_at (T.files tree.old) kept.now) seen_kept result }
{
    match kept {
        Some(paths) => {
            let (auto, header) = (paths.auto.as_bytes(), paths.header.as_bytes());
            let Texts { kconfig, dotconfig } = texts_at(alloc, tree, auto, header)?;
            Ok(Some(Kept {
                auto: kconfig,
                header: dotconfig,
            }))
        }
        None => Ok(None),
    }
}

/// All files that the arguments name.
#[tactic(auto, unfolding(crate::specs::Repairing::repair_at))]
fn read_repair<T: Tree>(
    alloc: Global,
    tree: &mut T,
    stamps: &[u8],
    targets: &[u8],
    kept: &Option<KeptPaths>,
) -> Result<RepairTexts, EngineError>
    ensures reads { Reads T.Tree tree.old tree.new (IsErrOf result EngineError.Device) }
    ensures read { T.is_honest → Answers (repair_at (T.files tree.old) stamps.now targets.now kept.now) seen_repair_texts result }
{
    let kept = read_kept(alloc, tree, kept)?;
    let Texts {
        kconfig: stamps,
        dotconfig: list,
    } = texts_at(alloc, tree, stamps, targets)?;
    let names = names_in(alloc, &stamps)?;
    Ok(RepairTexts { kept, names, list })
}

/// Repairs a tree, and prints what that did.
pub(crate) fn repair_tree<T: Tree>(
    alloc: Global,
    tree: &mut T,
    stamps: &[u8],
    targets: &[u8],
    kept: &Option<KeptPaths>,
) -> Result<Outcome, Refusal>
    ensures done { IfOk result (λ o. o.status ≡ Done) }
    ensures files { T.is_honest → (dialect : Dialect) → EndsRepair (T.files tree.old) (by_files dialect T.is_honest (state T.Tree tree.old) (state T.Tree tree.new))
        stamps.now targets.now kept.now result }
    ensures cause { result ≡ Err (Engine Device) → HasRisen (T.failures tree.old) (T.failures tree.new) }
    ensures kept { T.backdated tree.new ≡ T.backdated tree.old }
{
    let texts = read_repair(alloc, tree, stamps, targets, kept)?;
    let objects = listed_targets(alloc, &texts.list)?;
    let repaired = repair(alloc, tree, &texts.kept, &texts.names, &objects)?;
    Ok(report_repair(alloc, repaired)?)
}
