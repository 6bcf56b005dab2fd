//! Doing what was asked for, over any tree.
//!
//! The whole text of a command is made here, before `execute` prints its first byte, so that a command that is refused as a
//! whole writes nothing to the output.
ghost use Rattle.std.specs.Prelude.{◌≡◌, ◌∷◌, Err, IfOk, option_map, string_bytes};
ghost use Rattle.ks_tree.specs.Files.{HasRisen};
ghost use Rattle.ks_tree.specs.Frames.{Reads};
ghost use Rattle.ks_engine.specs.FileRuns.{state};
ghost use Rattle.ks_engine.specs.declared.error.EngineError.TheVariants.{Device, OutOfMemory};
ghost use Rattle.ks_requests.specs.declared.refusal.Refusal.TheVariants.{Engine};
ghost use Rattle.ks_requests.specs.declared.status.Status.TheVariants.{Done};
ghost use Rattle.ks_requests.specs.Readings.{ReadsSome, if_named};
ghost use Rattle.ks_requests.specs.Requests.{IsNoQuery, IsOneStep};
ghost use Rattle.ks_commands.specs.Performed.{Ends, EndsFixdep, EndsPreview, IsNoWalk, by_files};

use crate::batch::run_script;
use crate::changes::{record_rule, record_target, synchronise};
use crate::cost::report_cost;
use crate::differences::report_differences;
use crate::fixdep::command_file_text;
use crate::marks::mark_targets;
use crate::queries::{outdated_target, query_predicted, query_targets};
use crate::repairs::repair_tree;
use crate::tree_status::report_status;
use crate::users::report_users;
use ks_engine::{EngineError, Query};
use ks_requests::{
    ConfigPaths, Outcome, OutputFormat, PreviewError, Reading, Refusal, Request, borrowed,
    borrowed_path, inputs_at, preview_to,
};
use ks_symbols::{Dialect, Seed};
use ks_tree::{Backdating, Tree};
use std::alloc::Global;

/// What a synchronisation would do. The files of the arguments are read for it, and no other one.
fn preview<T: Reading>(
    alloc: Global,
    tree: &mut T,
    dialect: Dialect,
    config: &ConfigPaths,
    old: Option<&str>,
) -> Result<Outcome, Refusal>
    ensures done { IfOk result (λ o. o.status ≡ Done) }
    ensures reads { Reads T.Tree tree.old tree.new (result ≡ Err (Engine Device)) }
    ensures memory { result ≡ Err (Engine OutOfMemory) → T.failures tree.new ≡ T.failures tree.old }
    ensures reported { T.is_honest → EndsPreview dialect (T.files tree.old) config.now (option_map (λ p. p.now) old.entry) result }
    ensures no_other { ReadsSome T.reads tree.old (string_bytes config.now.first ∷ string_bytes config.now.second ∷ if_named (option_map (λ p. p.now) old.entry)) tree.new }
{
    let (first, second) = (config.first.as_bytes(), config.second.as_bytes());
    let inputs = inputs_at(alloc, tree, first, second, old)?;
    let texts = inputs.texts.config(dialect, config.form);
    let old = borrowed(&inputs.old);
    let seed = Seed::new(tree.seed());
    let mut text = Vec::new(alloc);
    match preview_to(alloc, seed, &texts, old, &mut text) {
        Ok(()) => Ok(Outcome::done(text)),
        Err(PreviewError::Engine(error)) => Err(Refusal::Engine(error)),
        // A vector takes any text but for want of memory.
        Err(PreviewError::Output) => Err(Refusal::Engine(EngineError::OutOfMemory)),
    }
}

/// The command file of an object.
fn fixdep<T: Tree>(
    alloc: Global,
    tree: &mut T,
    dialect: Dialect,
    depfile: &[u8],
    target: &[u8],
    command: &[u8],
) -> Result<Outcome, Refusal>
    ensures done { IfOk result (λ o. o.status ≡ Done) }
    ensures reads { Reads T.Tree tree.old tree.new (result ≡ Err (Engine Device)) }
    ensures memory { result ≡ Err (Engine OutOfMemory) → T.failures tree.new ≡ T.failures tree.old }
    ensures reported { T.is_honest → EndsFixdep dialect (T.files tree.old) depfile.now target.now command.now result }
{
    let text = command_file_text(alloc, tree, dialect, depfile, target, command)?;
    Ok(Outcome::done(text))
}

/// Does what was asked for, unless it is refused as a whole.
pub(crate) fn outcome<T: Backdating>(
    alloc: Global,
    tree: &mut T,
    dialect: Dialect,
    request: &Request,
) -> Result<Outcome, Refusal>
    ensures done { IsNoQuery request.now → IfOk result (λ o. o.status ≡ Done) }
    ensures ends { Ends T.is_honest (by_files dialect T.is_honest (state T.Tree tree.old) (state T.Tree tree.new)) (state T.Tree tree.old) request.now result
        (state T.Tree tree.new) }
    ensures cause { result ≡ Err (Engine Device) → HasRisen (T.failures tree.old) (T.failures tree.new) }
    ensures memory { IsOneStep request.now → result ≡ Err (Engine OutOfMemory) → T.failures tree.new ≡ T.failures tree.old }
    ensures kept { IsNoWalk request.now → T.backdated tree.new ≡ T.backdated tree.old }
{
    match request {
        Request::Sync { config, stamps } => synchronise(alloc, tree, dialect, *stamps, config),
        Request::Preview { config, old } => {
            preview(alloc, tree, dialect, config, borrowed_path(old))
        }
        Request::Diff {
            config,
            report_style,
        } => report_differences(alloc, tree, dialect, config, *report_style),
        Request::Status { config } => report_status(alloc, tree, dialect, config),
        Request::Fixdep {
            depfile,
            target,
            command,
        } => {
            let (depfile, command) = (depfile.as_bytes(), command.as_bytes());
            fixdep(alloc, tree, dialect, depfile, target.as_bytes(), command)
        }
        // What is left of the dependency file is the program's to see to.
        Request::Record {
            depfile,
            target,
            command,
            after: _,
            options,
        } => {
            let (depfile, command) = (depfile.as_bytes(), command.as_bytes());
            let target = target.as_bytes();
            record_target(alloc, tree, dialect, options, depfile, target, command)
        }
        Request::Depfile {
            header,
            strict,
            elsewhere,
            depfile,
            target,
            command,
        } => {
            let (depfile, command) = (depfile.as_bytes(), command.as_bytes());
            record_rule(
                alloc,
                tree,
                dialect,
                borrowed_path(header),
                strict,
                elsewhere,
                depfile,
                target.as_bytes(),
                command,
            )
        }
        Request::Repair {
            stamps,
            targets,
            kept,
        } => repair_tree(alloc, tree, stamps.as_bytes(), targets.as_bytes(), kept),
        Request::Stale { targets, format } => {
            query_targets(alloc, tree, Query::Stale, None, *format, targets)
        }
        Request::Why { targets, format } => {
            query_targets(alloc, tree, Query::Why, None, *format, targets)
        }
        Request::Impact {
            config,
            targets,
            format,
        } => query_predicted(alloc, tree, dialect, config, *format, targets),
        Request::Backdate { which, targets } => query_targets(
            alloc,
            tree,
            Query::Stale,
            Some(*which),
            OutputFormat::Text,
            targets,
        ),
        Request::Mark { which, targets } => mark_targets(alloc, tree, *which, targets),
        Request::Outdated { target, command } => {
            outdated_target(alloc, tree, target.as_bytes(), command.as_bytes())
        }
        Request::Batch { script } => run_script(alloc, tree, dialect, script.as_bytes()),
        Request::Users { symbols, targets } => report_users(alloc, tree, symbols, targets),
        Request::Cost { top, targets } => report_cost(alloc, tree, *top, targets),
    }
}
