//! Runs of commands: what a build asks of a tree, in order, and one reply for each.
ghost use Rattle.std.specs.Prelude.{◌≡◌, ◌≤◌, [], IfOk, OnErr, map, length, vec_capacity};
ghost use Rattle.ks_engine.specs.History.{History};
ghost use Rattle.ks_engine.specs.Shows.{Shows};
ghost use Rattle.ks_engine.specs.Follows.{at};
ghost use Rattle.ks_engine.specs.Actions.{action, calls_of, reply_to};
ghost use Rattle.ks_engine.specs.FileRuns.{FileRun, StepsTo, state};
ghost use Rattle.ks_engine.specs.Caches.{IsCacheOf};
ghost use Rattle.ks_engine.specs.Runs.{Run};

use crate::caches::Cache;
use crate::conventions::{Conventions, NO_OPTIONS};
use crate::recording::record_by;
use crate::{ConfigTexts, EngineError, Query, Recorded, Report, Verdict, query_object, sync};
use ks_symbols::{Dialect, Seed};
use ks_tree::Tree;
use std::alloc::{AllocError, Global};

/// One thing that is asked of the engine. A Kconfig and a `.config` are texts, the other words are paths and a command.
#[derive(Drop)]
pub enum Command<'a> {
    Sync {
        kconfig: &'a [u8],
        dotconfig: &'a [u8],
    },
    Record {
        depfile: &'a [u8],
        target: &'a [u8],
        command: &'a [u8],
    },
    Stale {
        target: &'a [u8],
    },
}

/// What is answered.
#[derive(Drop)]
pub enum Reply {
    Synced(Report),
    Recorded(Recorded),
    Verdict(Verdict),
    Refused(EngineError),
}

/// Answers one command.
fn answer<T: Tree>(
    alloc: Global,
    tree: &mut T,
    cache: &mut Cache,
    dialect: Dialect,
    command: &Command<'_>,
) -> Reply
    requires cache { T.is_honest → IsCacheOf (T.files tree.old) cache.old }
    ensures cache { T.is_honest → IsCacheOf (T.files tree.new) cache.new }
    ensures step { let asked = action command.now in StepsTo dialect T.is_honest (state T.Tree tree.old) asked (reply_to asked result) (state T.Tree tree.new) }
    ensures kept { T.backdated tree.new ≡ T.backdated tree.old }
{
    match command {
        Command::Sync { kconfig, dotconfig } => {
            cache.clear();
            let texts = ConfigTexts::of_kconfig(dialect, kconfig, dotconfig);
            match sync(alloc, tree, &texts) {
                Ok(report) => Reply::Synced(report),
                Err(error) => Reply::Refused(error),
            }
        }
        Command::Record {
            depfile,
            target,
            command,
        } => {
            let conventions = Conventions::of_record(dialect, NO_OPTIONS);
            match record_by(alloc, tree, cache, conventions, depfile, target, command) {
                Ok(recorded) => Reply::Recorded(recorded),
                Err(error) => Reply::Refused(error),
            }
        }
        Command::Stale { target } => match query_object(alloc, tree, cache, Query::Stale, target) {
            Ok(answer) => Reply::Verdict(answer.verdict),
            Err(error) => Reply::Refused(error),
        },
    }
}

/// Answers commands in order, by what was read before and what is still to be read. There is room for the replies.
fn answer_all<T: Tree>(
    alloc: Global,
    tree: &mut T,
    cache: &mut Cache,
    dialect: Dialect,
    commands: &[Command<'_>],
    replies: &mut Vec<Reply>,
)
    requires cache { T.is_honest → IsCacheOf (T.files tree.old) cache.old }
    requires none { replies.old.items ≡ [] }
    requires headroom { length commands.now ≤ vec_capacity replies.old }
    ensures steps { FileRun dialect T.is_honest (state T.Tree tree.old) (calls_of (map action commands.now) replies.new.items) (state T.Tree tree.new) }
    ensures each { length replies.new.items ≡ length commands.now }
    ensures later { T.failures tree.old ≤ T.failures tree.new }
    ensures kept { T.backdated tree.new ≡ T.backdated tree.old }
{
    for command in commands {
        let reply = answer(alloc, tree, cache, dialect, command);
        replies.push(reply).unwrap();
    }
}

/// Answers commands in order, one reply for each. A refusal is a reply. Sources and Kconfigs are read in the dialect.
pub fn run<T: Tree>(
    alloc: Global,
    tree: &mut T,
    dialect: Dialect,
    commands: &[Command<'_>],
) -> Result<Vec<Reply>, AllocError>
    // By the files, and by what the tree has counted: a step for each command, with its reply, from the tree before to the tree after.
    ensures steps { IfOk result (λ replies.
        FileRun dialect T.is_honest (state T.Tree tree.old) (calls_of (map action commands.now) replies.items) (state T.Tree tree.new)) }
    // From each history that the files show there is a run with these replies, and the files show its last history.
    ensures runs { T.is_honest → (h : History) → Shows (T.files tree.old) h → IfOk result (λ replies. let calls = calls_of (map action commands.now) replies.items in
        (last : History) × Run dialect (at (T.files tree.old) (T.failures tree.old) h) calls (at (T.files tree.new) (T.failures tree.new) last)) }
    ensures each { IfOk result (λ replies. length replies.items ≡ length commands.now) }
    // Where memory is refused for the replies, nothing was asked of the tree.
    ensures untouched { OnErr result (tree.new ≡ tree.old) }
    ensures later { T.failures tree.old ≤ T.failures tree.new }
    ensures kept { T.backdated tree.new ≡ T.backdated tree.old }
{
    let mut replies = Vec::with_capacity(alloc, commands.len())?;
    let mut cache = Cache::with_seed(alloc, Seed::new(tree.seed()));
    answer_all(alloc, tree, &mut cache, dialect, commands, &mut replies);
    Ok(replies)
}
