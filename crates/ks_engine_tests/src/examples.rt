//! Worked examples over a tree in memory: synchronisations, records and questions one after the other.
use crate::golden::*;
use crate::steps::{check_text, example, play, recorded_text, report_text, verdict_text};
use ks_engine::{Command, Reply, run};
use ks_symbols::Dialect;
use ks_tree::{MemoryTree, Tree};
use std::alloc::{AllocError, Global};

#[test]
fn a_change_and_a_change_back(rt: HostRuntime) -> Result<(), AllocError> {
    example(&rt, rt.alloc(), SOURCES, CHANGE_AND_BACK)
}

#[test]
fn the_files_of_a_first_synchronisation(rt: HostRuntime) -> Result<(), AllocError> {
    example(&rt, rt.alloc(), SOURCES, FIRST_FILES)
}

#[test]
fn refusals_and_reasons(rt: HostRuntime) -> Result<(), AllocError> {
    example(&rt, rt.alloc(), &[], REFUSALS)
}

#[test]
fn the_command_of_an_object(rt: HostRuntime) -> Result<(), AllocError> {
    example(&rt, rt.alloc(), SOURCES, COMMANDS)
}

#[test]
fn the_rule_of_an_object(rt: HostRuntime) -> Result<(), AllocError> {
    example(&rt, rt.alloc(), SOURCES, RULES)
}

fn reply_text(alloc: Global, reply: &Reply) -> Result<String, AllocError> {
    match reply {
        Reply::Synced(report) => report_text(alloc, report),
        Reply::Recorded(recorded) => recorded_text(alloc, *recorded),
        Reply::Verdict(verdict) => verdict_text(alloc, verdict),
        Reply::Refused(error) => error.to_string(alloc),
    }
}

/// Replies, one after the other.
fn replies_text(alloc: Global, replies: &[Reply]) -> Result<String, AllocError> {
    let mut reported = String::new(alloc);
    for reply in replies {
        reported.push_str(reply_text(alloc, reply)?.as_str())?;
        reported.push_str("; ")?;
    }
    Ok(reported)
}

/// The replies to four commands.
fn replies<T: Tree>(alloc: Global, tree: &mut T) -> Result<String, AllocError> {
    let commands = [
        Command::Sync {
            kconfig: KCONFIG.as_bytes(),
            dotconfig: BOTH.as_bytes(),
        },
        Command::Record {
            depfile: b"x.d",
            target: b"x.o",
            command: b"cc",
        },
        Command::Stale { target: b"x.o" },
        Command::Stale { target: b"a$b" },
    ];
    let replies = run(alloc, tree, Dialect::Linux, &commands)?;
    replies_text(alloc, &replies)
}

#[test]
fn one_reply_for_each_command(rt: HostRuntime) -> Result<(), AllocError> {
    let mut tree = MemoryTree::new(rt.alloc());
    play(&rt, rt.alloc(), &mut tree, SOURCES)?;
    let reported = replies(rt.alloc(), &mut tree)?;
    check_text(
        &rt,
        "four commands",
        reported.as_str(),
        "generation 1 touched A B unknown 0; generation 1 names 3; fresh; 21 BadPath token 0; ",
    );
    Ok(())
}
