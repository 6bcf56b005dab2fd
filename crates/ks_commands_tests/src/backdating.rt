//! Aging: which objects are aged over a tree in memory, and what is left of that by a device that fails at any call.
use crate::steps::{Run, Step, check, check_text, play, run_over, world};
use ks_symbols::Dialect;
use ks_tree::{BackdatingTree, FuseMode, FuseTree, MemoryTree};
use std::alloc::{AllocError, Global};
use std::process::Abort;
use std::test::Fail;

/// Two objects are recorded, one has no record, one a record without a number, and then A changes.
#[rattlefmt::skip]
const CHANGED: &[(Step<'_>, &str)] = &[
    (Step::Put("x.o", "object"), "done"),
    (Step::Args(&["sync", "K1", "c1"]), "0 generation 1\ntouch A\ntouch B\nunknown 0\n"),
    (Step::Args(&["record", "x.d", "x.o", "cc -c x.c"]), "0 record x.o generation 1 names 3\n"),
    (Step::Args(&["record", "x.d", "w.o", "cc -c x.c"]), "0 record w.o generation 1 names 3\n"),
    (Step::Put(".old.o.cmd", "savedcmd_old.o := cc\n\nsource_old.o := x.c\n\ndeps_old.o := \\\n    $(wildcard include/config/A) \\\n\nold.o: $(deps_old.o)\n\n$(deps_old.o):\n"), "done"),
    (Step::Args(&["age", "x.o", "w.o"]), "0 x.o fresh\nw.o fresh\n"),
    (Step::Args(&["sync", "K1", "only_b"]), "0 generation 2\ntouch A\nunknown 0\n"),
    (Step::Args(&["record", "x.d", "new.o", "cc -c x.c"]), "0 record new.o generation 2 names 3\n"),
    (Step::Put("objects", "w.o\nnone.o\n"), "done"),
];

/// A tree with these objects.
fn changed(rt: &impl Abort, alloc: Global) -> Result<BackdatingTree<MemoryTree>, Fail> {
    let mut tree = world(rt, alloc)?;
    play(rt, alloc, &mut tree, CHANGED)?;
    Ok(tree)
}

/// The paths that were aged, in turn.
fn paths(alloc: Global, tree: &BackdatingTree<MemoryTree>) -> Result<String, AllocError> {
    let mut paths = String::new(alloc);
    for path in tree.backdated() {
        paths.push_str(str::from_utf8(path).unwrap_or("not text"))?;
        paths.push(' ')?;
    }
    Ok(paths)
}

#[rattlefmt::skip]
const AGINGS: &[(&[&str], &str, &str)] = &[
    (&["age", "x.o"], "1 x.o stale A\n", "x.o "),
    (&["age", "new.o", "x.o", "none.o", "old.o", "w.o"],
        "1 new.o fresh\nx.o stale A\nnone.o stale no-command-file\nold.o stale not-numbered\nw.o stale A\n", "x.o w.o "),
    (&["age", "--unrecorded", "new.o", "none.o", "old.o", "w.o"],
        "1 new.o fresh\nnone.o stale no-command-file\nold.o stale not-numbered\nw.o stale A\n", "none.o old.o w.o "),
    (&["age", "x.o", "--from", "objects"], "1 x.o stale A\nw.o stale A\nnone.o stale no-command-file\n", "x.o w.o "),
    (&["age", "x.o", "x.o"], "1 x.o stale A\nx.o stale A\n", "x.o x.o "),
    (&["age", "x.o", "a$b", "w.o"], "2 x.o stale A\na$b refused 21 BadPath token 0\nw.o stale A\n", "x.o w.o "),
    (&["age", "x.o", "--from", "nowhere"], "2 confstamp: 40 MissingFile nowhere\n", ""),
    (&["stale", "x.o"], "1 x.o stale A\n", ""),
];

/// Words over a tree, what they tell, and which paths they age. The object stays as it is.
fn check_backdating<'a>(
    rt: &impl Abort,
    alloc: Global,
    tree: &mut BackdatingTree<MemoryTree>,
    (args, want, backdated): (&'a [&'a str], &'a str, &'a str),
) -> Result<(), Fail> {
    play(rt, alloc, tree, &[(Step::Args(args), want)])?;
    play(rt, alloc, tree, &[(Step::Read("x.o"), "object")])?;
    let paths = paths(alloc, tree)?;
    check_text(rt, want, paths.as_str(), backdated);
    Ok(())
}

#[test]
fn what_is_stale_is_backdated(rt: HostRuntime) -> Result<(), Fail> {
    for row in AGINGS {
        let mut tree = changed(&rt, rt.alloc())?;
        check_backdating(&rt, rt.alloc(), &mut tree, *row)?;
    }
    Ok(())
}

#[rattlefmt::skip]
const GENERATION_ONE: &[(Step<'_>, &str)] = &[
    (Step::Put("include/config/auto.conf", "#typed\n#generation 1\n"), "done"),
];

#[test]
fn a_generation_to_come_is_backdated(rt: HostRuntime) -> Result<(), Fail> {
    let mut tree = changed(&rt, rt.alloc())?;
    play(&rt, rt.alloc(), &mut tree, GENERATION_ONE)?;
    let ahead = "1 new.o stale generation-ahead\n";
    let row = (["age", "new.o"].as_slice(), ahead, "new.o ");
    check_backdating(&rt, rt.alloc(), &mut tree, row)
}

/// The objects that the lines call stale, in turn.
fn reported(alloc: Global, lines: &str) -> Result<String, AllocError> {
    let mut reported = String::new(alloc);
    for line in lines.lines() {
        if let Some((path, _)) = line.split_once(" stale A") {
            reported.push_str(path)?;
            reported.push(' ')?;
        }
    }
    Ok(reported)
}

/// Backdated is what is reported, or where a call may be half done two objects.
fn check_as_reported(rt: &impl Abort, reported: &str, backdated: &str, may_be_half: bool) {
    let is_as_reported = reported == backdated || may_be_half && backdated == "x.o w.o ";
    assert!(rt;
        is_as_reported,
        "reported {reported}, backdated {backdated}"
    );
}

/// What is reported as stale was backdated, and nothing else but maybe the one object of which 30 is reported. The object stays as it is.
fn check_reported(
    rt: &impl Abort,
    alloc: Global,
    tree: &mut BackdatingTree<MemoryTree>,
    run: &Run,
    mode: FuseMode,
) -> Result<(), Fail> {
    let reported = reported(alloc, str::from_utf8(&run.out)?)?;
    let backdated = paths(alloc, tree)?;
    let half = mode == FuseMode::Half && run.status == 2;
    check_as_reported(rt, reported.as_str(), backdated.as_str(), half);
    play(rt, alloc, tree, &[(Step::Read("x.o"), "object")])
}

/// The status of `age` behind a fuse.
fn break_off(rt: &impl Abort, alloc: Global, passes: u64, mode: FuseMode) -> Result<u8, Fail> {
    let mut tree = FuseTree::new(changed(rt, alloc)?, passes, Some(1), mode);
    let args = ["age", "x.o", "new.o", "w.o"];
    let run = run_over(alloc, &mut tree, Dialect::Linux, &args);
    check_reported(rt, alloc, &mut tree.into_inner(), &run, mode)?;
    Ok(run.status)
}

#[test]
fn a_device_that_fails(rt: HostRuntime) -> Result<(), Fail> {
    for mode in [FuseMode::Clean, FuseMode::Half] {
        let mut failed = 0_u64;
        for passes in 0..30 {
            if break_off(&rt, rt.alloc(), passes, mode)? == 2 {
                failed = failed.saturating_add(1);
            }
        }
        // three command files, auto.conf, three stamps and two objects
        check(&rt, "nine calls fail", failed == 9);
    }
    Ok(())
}
