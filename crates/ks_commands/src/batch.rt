//! Running a script: all that it names is read before its first command runs.
//!
//! So a script that is misspelt, or that names a missing file, changes nothing. A file that several lines name is read and
//! kept once, and their commands borrow it.
ghost use Rattle.std.specs.Prelude.{◌≡◌, ◌⊎◌, ◌≤◌, ℕ, List, IfErr, IfOk, OnOk, Ok, Err, Some, None, IsErrOf, map};
ghost use Rattle.std.specs.List.{All};
ghost use Rattle.ks_tree.specs.Frames.{Reads};
ghost use Rattle.ks_engine.specs.Actions.{action, calls_of};
ghost use Rattle.ks_engine.specs.FileRuns.{FileRun, state};
ghost use Rattle.ks_engine.specs.Refusals.{IsAborted};
ghost use Rattle.ks_engine.specs.declared.error.EngineError.TheVariants.{Device};
ghost use Rattle.ks_tree.specs.Files.{Files, HasRisen, content};
ghost use Rattle.ks_requests.specs.Script.{script_lines, seen_line};
ghost use Rattle.ks_requests.specs.ScriptRefusals.{script_refusal};
ghost use Rattle.ks_requests.specs.declared.refusal.Refusal.TheVariants.{Engine};
ghost use Rattle.ks_requests.specs.Inputs.{given};
ghost use Rattle.ks_commands.specs.Performed.{EndsBatch, RunsAll, by_files};
ghost use Rattle.ks_commands.specs.Kept.{AreGiven, AreKept, IsKept};
ghost use Rattle.ks_commands.specs.Scripts.{IsAbortedRefusal, action_at, actions_at, line_of, of_engine, script_actions, without_files};

use ks_engine::{Command, EngineError, run};
use ks_requests::{Outcome, Refusal, ScriptLine, read_given, read_script, report_replies};
use ks_symbols::Dialect;
use ks_tree::{MemoryTree, Tree};
use std::alloc::{AllocError, Global};

/// The lines of a script, and each file that they name once.
#[derive(Drop)]
struct Loaded<'a> {
    lines: Vec<ScriptLine<'a>>,
    kept: MemoryTree,
}

/// Keeps the file at a path, unless it is kept already.
fn keep_file<T: Tree>(
    alloc: Global,
    tree: &mut T,
    kept: &mut MemoryTree,
    path: &[u8],
) -> Result<(), EngineError>
    requires given { T.is_honest → AreGiven (T.files tree.old) kept.old }
    ensures reads { Reads T.Tree tree.old tree.new (IsErrOf result EngineError.Device) }
    ensures given { T.is_honest → AreGiven (T.files tree.old) kept.new }
    ensures here { OnOk result (IsKept kept.new path.now) }
    ensures grows { (q : List ℕ) → IsKept kept.old q → IsKept kept.new q }
    ensures once { IsKept kept.old path.now → tree.new ≡ tree.old }
    ensures refused { T.is_honest → IfErr result (λ e. IsAborted e ⊎ (given (T.files tree.old) path.now ≡ Err e)) }
{
    if kept.get(path).is_some() {
        return Ok(());
    }
    let text = read_given(alloc, tree, path)?;
    let path = path.to_vec(alloc)?;
    kept.put(path, text)?;
    Ok(())
}

/// Keeps the files that a line names.
fn keep_files<T: Tree>(
    alloc: Global,
    tree: &mut T,
    kept: &mut MemoryTree,
    line: &ScriptLine<'_>,
) -> Result<(), EngineError>
    requires given { T.is_honest → AreGiven (T.files tree.old) kept.old }
    ensures reads { Reads T.Tree tree.old tree.new (IsErrOf result EngineError.Device) }
    ensures given { T.is_honest → AreGiven (T.files tree.old) kept.new }
    ensures here { OnOk result (AreKept kept.new (seen_line line.now)) }
    ensures grows { (q : List ℕ) → IsKept kept.old q → IsKept kept.new q }
    ensures refused { T.is_honest → IfErr result (λ e. IsAborted e ⊎ (action_at (T.files tree.old) (seen_line line.now) ≡ Err e)) }
{
    match line {
        ScriptLine::Sync(kconfig, dotconfig) => {
            keep_file(alloc, tree, kept, *kconfig)?;
            keep_file(alloc, tree, kept, *dotconfig)
        }
        ScriptLine::Record(..) | ScriptLine::Stale(_) => Ok(()),
    }
}

/// Reads the files that the lines name, in order, and each of them once.
fn named_files<T: Tree>(
    alloc: Global,
    tree: &mut T,
    lines: &[ScriptLine<'_>],
) -> Result<MemoryTree, EngineError>
    ensures reads { Reads T.Tree tree.old tree.new (IsErrOf result EngineError.Device) }
    ensures given { T.is_honest → IfOk result (AreGiven (T.files tree.old)) }
    ensures here { IfOk result (λ kept. All (λ line. AreKept kept (seen_line line)) lines.now) }
    ensures refused { T.is_honest → IfErr result (λ e. IsAborted e ⊎ (actions_at (T.files tree.old) (map seen_line lines.now) ≡ Err e)) }
{
    let mut kept = MemoryTree::new(alloc);
    for line in lines {
        keep_files(alloc, tree, &mut kept, line)?;
    }
    Ok(kept)
}

/// The lines of a script, with the files that they name.
fn load_script<'a, T: Tree>(
    alloc: Global,
    tree: &mut T,
    script: &'a [u8],
) -> Result<Loaded<'a>, Refusal>
    ensures reads { Reads T.Tree tree.old tree.new (result ≡ Err (Engine Device)) }
    ensures given { T.is_honest → IfOk result (λ all. AreGiven (T.files tree.old) all.kept) }
    ensures here { IfOk result (λ all. All (λ line. AreKept all.kept (seen_line line)) all.lines.items) }
    ensures spelled { IfOk result (λ all. (script_refusal script.now ≡ None) × (map seen_line all.lines.items ≡ script_lines script.now)) }
    ensures lines { T.is_honest → IfOk result (λ all.
        script_actions (T.files tree.old) script.now ≡ of_engine (actions_at (T.files tree.old) (map seen_line all.lines.items))) }
    ensures refused { T.is_honest → IfErr result (λ r. IsAbortedRefusal r ⊎ (script_actions (T.files tree.old) script.now ≡ Err r)) }
{
    let lines = read_script(alloc, script)?;
    let kept = named_files(alloc, tree, &lines)?;
    Ok(Loaded { lines, kept })
}

/// The bytes of a kept file.
fn kept_file<'a>(kept: &'a MemoryTree, path: &[u8]) -> &'a [u8]
    requires { IsKept kept.now path.now }
    ensures { content kept.now path.now ≡ Some result.now }
{
    kept.get(path).unwrap()
}

/// The command of a line, which borrows its arguments and the files that it names.
fn command<'a>(line: &ScriptLine<'a>, kept: &'a MemoryTree) -> Command<'a>
    requires { AreKept kept.now (seen_line line.now) }
    ensures spelled { line_of (action result) ≡ without_files (seen_line line.now) }
    ensures given { (files : Files) → AreGiven files kept.now → action_at files (seen_line line.now) ≡ Ok (action result) }
{
    match line {
        ScriptLine::Sync(kconfig, dotconfig) => Command::Sync {
            kconfig: kept_file(kept, *kconfig),
            dotconfig: kept_file(kept, *dotconfig),
        },
        ScriptLine::Record(depfile, target, command) => Command::Record {
            depfile: *depfile,
            target: *target,
            command: *command,
        },
        ScriptLine::Stale(target) => Command::Stale { target: *target },
    }
}

/// The commands of lines, which are let go.
fn commands<'a>(
    alloc: Global,
    lines: Vec<ScriptLine<'a>>,
    kept: &'a MemoryTree,
) -> Result<Vec<Command<'a>>, AllocError>
    requires { All (λ line. AreKept kept.now (seen_line line)) lines.items }
    ensures spelled { IfOk result (λ commands. map line_of (map action commands.items) ≡ map without_files (map seen_line lines.entry.items)) }
    ensures given { (files : Files) → AreGiven files kept.now
        → IfOk result (λ commands. actions_at files (map seen_line lines.entry.items) ≡ Ok (map action commands.items)) }
{
    let mut commands = Vec::with_capacity(alloc, lines.len())?;
    for line in &lines {
        commands.push(command(line, kept))?;
    }
    Ok(commands)
}

/// Runs commands, and makes the lines of their replies.
fn run_commands<T: Tree>(
    alloc: Global,
    tree: &mut T,
    dialect: Dialect,
    commands: &[Command<'_>],
) -> Result<Outcome, Refusal>
    ensures ran { let actions = map action commands.now in RunsAll (T.is_honest → T.files tree.new ≡ T.files tree.old)
        (λ replies. FileRun dialect T.is_honest (state T.Tree tree.old) (calls_of actions replies) (state T.Tree tree.new)) actions result }
    ensures later { T.failures tree.old ≤ T.failures tree.new }
    ensures kept { T.backdated tree.new ≡ T.backdated tree.old }
    ensures no_device { result ≡ Err (Engine Device) → ⊥ }
{
    let replies = run(alloc, tree, dialect, commands)?;
    Ok(report_replies(alloc, commands, &replies)?)
}

/// Runs the script at a path, and prints a line for each of its commands.
pub(crate) fn run_script<T: Tree>(
    alloc: Global,
    tree: &mut T,
    dialect: Dialect,
    path: &[u8],
) -> Result<Outcome, Refusal>
    ensures ran { EndsBatch T.is_honest (by_files dialect T.is_honest (state T.Tree tree.old) (state T.Tree tree.new)) (T.files tree.old) path.now result }
    ensures cause { result ≡ Err (Engine Device) → HasRisen (T.failures tree.old) (T.failures tree.new) }
    ensures kept { T.backdated tree.new ≡ T.backdated tree.old }
{
    let script = read_given(alloc, tree, path)?;
    let Loaded { lines, kept } = load_script(alloc, tree, &script)?;
    let commands = commands(alloc, lines, &kept)?;
    run_commands(alloc, tree, dialect, &commands)
}
