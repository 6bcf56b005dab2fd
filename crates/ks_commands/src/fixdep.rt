//! The command file of an object, as scripts/basic/fixdep.c prints it, from the compiler's dependency file.
//!
//! The arguments are looked at first, then the dependency file is read, then each prerequisite in order, in pieces.
ghost use Rattle.std.specs.Prelude.{◌≡◌, Err, IsErrOf, Ok, OnErr};
ghost use Rattle.ks_fixdep.specs.CommandFile.{command_text};
ghost use Rattle.ks_fixdep.specs.Dialects.{rules_for};
ghost use Rattle.ks_fixdep.specs.Record.{record_of};
ghost use Rattle.ks_fixdep.specs.SourceScan.{names_by};
ghost use Rattle.ks_tree.specs.Frames.{Reads};
ghost use Rattle.ks_engine.specs.Recording.{scanned_all};
ghost use Rattle.ks_engine.specs.Refusals.{Answers, and_then};
ghost use Rattle.ks_commands.specs.Fixdep.{command_file_at};

use ks_engine::{EngineError, check_args, scan_all};
use ks_fixdep::{
    Header, NamesBySource, Prerequisites, ScanRules, read_depfile_without, record_text,
};
use ks_requests::read_given;
use ks_symbols::{Dialect, Seed};
use ks_tree::Tree;
use std::alloc::Global;

/// The lines of a target's command file, by the names that were found.
fn lines_of(
    alloc: Global,
    target: &[u8],
    command: &[u8],
    prerequisites: &Prerequisites,
    found: &mut NamesBySource,
) -> Result<Vec<u8>, EngineError>
    ensures text { Answers (Ok (command_text (record_of target.now command.now prerequisites.now (names_by found.old)))) (λ text. text.items) result }
    ensures memory { OnErr result (result ≡ Err EngineError.OutOfMemory) }
{
    let lines = record_text(alloc, target, command, prerequisites, found, None)?;
    Ok(lines.text)
}

/// The lines of a target's command file, by its prerequisites.
fn scanned_lines<T: Tree>(
    alloc: Global,
    tree: &mut T,
    dialect: Dialect,
    target: &[u8],
    command: &[u8],
    prerequisites: &Prerequisites,
) -> Result<Vec<u8>, EngineError>
    ensures reads { Reads T.Tree tree.old tree.new (IsErrOf result EngineError.Device) }
    ensures uncounted { IsErrOf result EngineError.OutOfMemory → T.failures tree.new ≡ T.failures tree.old }
    ensures text { T.is_honest → Answers (and_then (scanned_all (rules_for dialect target.now) (T.files tree.old) prerequisites.now)
        (λ found. Ok (command_text (record_of target.now command.now prerequisites.now found)))) (λ text. text.items) result }
{
    let mut found = scan_all(
        alloc,
        tree,
        ScanRules::for_target(dialect, target),
        prerequisites,
    )?;
    lines_of(alloc, target, command, prerequisites, &mut found)
}

/// The text of a target's command file, without a generation.
#[tactic(auto, unfolding(crate::specs::Fixdep::command_file_at))]
pub(crate) fn command_file_text<T: Tree>(
    alloc: Global,
    tree: &mut T,
    dialect: Dialect,
    depfile: &[u8],
    target: &[u8],
    command: &[u8],
) -> Result<Vec<u8>, EngineError>
    ensures reads { Reads T.Tree tree.old tree.new (IsErrOf result EngineError.Device) }
    ensures uncounted { IsErrOf result EngineError.OutOfMemory → T.failures tree.new ≡ T.failures tree.old }
    ensures text { T.is_honest → Answers (command_file_at dialect (T.files tree.old) depfile.now target.now command.now) (λ text. text.items) result }
{
    check_args(depfile, target, command)?;
    let text = read_given(alloc, tree, depfile)?;
    let prerequisites = read_depfile_without(
        alloc,
        Seed::new(tree.seed()),
        Header::usual(dialect),
        &text,
    )?;
    scanned_lines(alloc, tree, dialect, target, command, &prerequisites)
}
