//! One synchronisation broken off at each of its calls, in both ways in which a call fails: what it leaves, what is then said of an
//! object, and what comes of it where it is tried again, or where the object is recorded and the first configuration comes back.
use crate::golden::*;
use crate::steps::{Step, answer, check, check_text, example, play};
use ks_tree::{FuseMode, FuseTree, MemoryTree, Tree};
use std::alloc::{AllocError, Global};
use std::process::Abort;

/// What a broken synchronisation leaves: the stamp of A, the header and auto.conf, and what is said of the object at once.
#[derive(Clone, Copy)]
struct Left<'a> {
    passes: u64,
    stamp: &'a str,
    header: &'a str,
    auto: &'a str,
    verdict: &'a str,
}

/// Where the call that fails did nothing.
#[rattlefmt::skip]
const CLEAN: &[Left<'_>] = &[
    Left { passes: 0, stamp: "1\n", header: HEADER, auto: AUTO, verdict: "fresh" },
    Left { passes: 1, stamp: "1\n", header: HEADER, auto: AUTO, verdict: "fresh" },
    Left { passes: 2, stamp: "1\n", header: HEADER, auto: AUTO, verdict: "fresh" },
    Left { passes: 3, stamp: "2\n", header: HEADER, auto: AUTO, verdict: "stale A" },
    Left { passes: 4, stamp: "2\n", header: HEADER, auto: AUTO, verdict: "stale A" },
    Left { passes: 5, stamp: "2\n", header: HEADER_B, auto: AUTO, verdict: "stale A" },
    Left { passes: 6, stamp: "2\n", header: HEADER_B, auto: AUTO, verdict: "stale A" },
];

/// Where a write has left half of its bytes, and a rename has happened.
#[rattlefmt::skip]
const HALF: &[Left<'_>] = &[
    Left { passes: 0, stamp: "1\n", header: HEADER, auto: AUTO, verdict: "fresh" },
    Left { passes: 1, stamp: "1\n", header: HEADER, auto: AUTO, verdict: "fresh" },
    Left { passes: 2, stamp: "2\n", header: HEADER, auto: AUTO, verdict: "stale A" },
    Left { passes: 3, stamp: "2\n", header: HEADER, auto: AUTO, verdict: "stale A" },
    Left { passes: 4, stamp: "2\n", header: HEADER_B, auto: AUTO, verdict: "stale A" },
    Left { passes: 5, stamp: "2\n", header: HEADER_B, auto: AUTO, verdict: "stale A" },
    Left { passes: 6, stamp: "2\n", header: HEADER_B, auto: AUTO_B, verdict: "stale A" },
];

/// The temporary file that is half written after so many calls, and its length.
#[rattlefmt::skip]
const HALF_WRITTEN: &[(u64, &str, usize)] = &[
    (1, "include/config/stamp.tmp", 1),
    (3, "include/generated/autoconf.h.tmp", 43),
    (5, "include/config/auto.conf.tmp", 44),
];

#[rattlefmt::skip]
const RECORDED: &[(Step<'_>, &str)] = &[
    (Step::Sync(KCONFIG, BOTH), "generation 1 touched A B unknown 0"),
    (Step::Record("x.d", "x.o", "cc -c x.c"), "generation 1 names 3"),
];

/// The lines of a header that define a name, or it as a module.
fn definitions(alloc: Global, header: &str, name: &str) -> Result<String, AllocError> {
    let built_in = format!(in alloc; "#define CONFIG_{name} ")?;
    let module = format!(in alloc; "#define CONFIG_{name}_MODULE ")?;
    let mut found = String::new(alloc);
    for line in header.lines() {
        if line.starts_with(built_in.as_str()) || line.starts_with(module.as_str()) {
            found.push_str(line)?;
            found.push_str("\n")?;
        }
    }
    Ok(found)
}

/// Two headers define a name alike.
fn check_definitions(
    rt: &impl Abort,
    alloc: Global,
    name: &str,
    now: &str,
    then: &str,
) -> Result<(), AllocError> {
    let now = definitions(alloc, now, name)?;
    let then = definitions(alloc, then, name)?;
    check_text(rt, name, now.as_str(), then.as_str());
    Ok(())
}

/// Asks of the object, and holds that against what is wanted. Where it is fresh, the header defines each of its names as the
/// header at its record did.
fn query_object(
    rt: &impl Abort,
    alloc: Global,
    tree: &mut MemoryTree,
    recorded: &str,
    want: &str,
) -> Result<(), AllocError> {
    play(rt, alloc, tree, &[(Step::Stale("x.o"), want)])?;
    if want == "fresh" {
        let header = answer(alloc, tree, Step::Read("include/generated/autoconf.h"))?;
        for name in ["A", "B", "C"] {
            check_definitions(rt, alloc, name, header.as_str(), recorded)?;
        }
    }
    Ok(())
}

/// A tree with an object that is recorded under both settings.
fn recorded(rt: &impl Abort, alloc: Global) -> Result<MemoryTree, AllocError> {
    let mut tree = MemoryTree::new(alloc);
    play(rt, alloc, &mut tree, SOURCES)?;
    play(rt, alloc, &mut tree, RECORDED)?;
    Ok(tree)
}

/// Such a tree, on which the synchronisation with B alone was broken off.
fn broken(
    rt: &impl Abort,
    alloc: Global,
    passes: u64,
    fails: Option<u64>,
    mode: FuseMode,
) -> Result<MemoryTree, AllocError> {
    let mut fuse = FuseTree::new(recorded(rt, alloc)?, passes, fails, mode);
    play(
        rt,
        alloc,
        &mut fuse,
        &[(Step::Sync(KCONFIG, ONLY_B), "30 Device")],
    )?;
    Ok(fuse.into_inner())
}

/// The tree holds what is to be left, and the object is spoken of as it is to be.
fn holds(
    rt: &impl Abort,
    alloc: Global,
    tree: &mut MemoryTree,
    left: Left<'_>,
) -> Result<(), AllocError> {
    let files = [
        (Step::Read("include/config/A"), left.stamp),
        (Step::Read("include/config/B"), "1\n"),
        (Step::Read("include/generated/autoconf.h"), left.header),
        (Step::Read("include/config/auto.conf"), left.auto),
    ];
    play(rt, alloc, tree, &files)?;
    query_object(rt, alloc, tree, HEADER, left.verdict)
}

/// The synchronisation is asked for again, and then is completed.
fn tried_again(
    rt: &impl Abort,
    alloc: Global,
    tree: &mut MemoryTree,
    left: Left<'_>,
) -> Result<(), AllocError> {
    let again = if left.auto == AUTO {
        "generation 2 touched A unknown 0"
    } else {
        "generation 3 touched unknown 0"
    };
    let steps = [
        (Step::Sync(KCONFIG, ONLY_B), again),
        (Step::Read("include/generated/autoconf.h"), HEADER_B),
        (Step::Stale("x.o"), "stale A"),
    ];
    play(rt, alloc, tree, &steps)
}

/// What is answered where the object is recorded on what a broken synchronisation left, where it is asked for, where the first
/// configuration comes back, and where the object is recorded again.
fn answers_between(left: Left<'_>) -> [&str; 4] {
    if left.auto == AUTO {
        [
            "generation 1 names 3",
            left.verdict,
            "generation 2 touched unknown 0",
            "generation 2 names 3",
        ]
    } else {
        [
            "generation 2 names 3",
            "fresh",
            "generation 3 touched A unknown 0",
            "generation 3 names 3",
        ]
    }
}

/// The object is recorded between the broken synchronisation and one with the first configuration.
fn recorded_between(
    rt: &impl Abort,
    alloc: Global,
    tree: &mut MemoryTree,
    left: Left<'_>,
) -> Result<(), AllocError> {
    let [record, at_once, back, last] = answers_between(left);
    let recording = Step::Record("x.d", "x.o", "cc -c x.c");
    play(rt, alloc, tree, &[(recording, record)])?;
    query_object(rt, alloc, tree, left.header, at_once)?;
    play(rt, alloc, tree, &[(Step::Sync(KCONFIG, BOTH), back)])?;
    query_object(rt, alloc, tree, left.header, left.verdict)?;
    play(rt, alloc, tree, &[(recording, last)])?;
    query_object(rt, alloc, tree, HEADER, "fresh")
}

/// What a synchronisation leaves that is broken off in this way is completed, or an object is recorded on it.
fn broken_off(
    rt: &impl Abort,
    alloc: Global,
    left: Left<'_>,
    fails: Option<u64>,
    mode: FuseMode,
) -> Result<(), AllocError> {
    let mut tree = broken(rt, alloc, left.passes, fails, mode)?;
    holds(rt, alloc, &mut tree, left)?;
    tried_again(rt, alloc, &mut tree, left)?;
    let mut tree = broken(rt, alloc, left.passes, fails, mode)?;
    recorded_between(rt, alloc, &mut tree, left)
}

/// One call fails, or all from there on.
fn each_broken_off(
    rt: &impl Abort,
    alloc: Global,
    rows: &[Left<'_>],
    mode: FuseMode,
) -> Result<(), AllocError> {
    for left in rows {
        broken_off(rt, alloc, *left, None, mode)?;
        broken_off(rt, alloc, *left, Some(1), mode)?;
    }
    Ok(())
}

#[test]
fn each_call_broken_off(rt: HostRuntime) -> Result<(), AllocError> {
    each_broken_off(&rt, rt.alloc(), CLEAN, FuseMode::Clean)?;
    each_broken_off(&rt, rt.alloc(), HALF, FuseMode::Half)
}

/// What the untyped form left of the synchronisation with B alone: the stamps of A and B, the header and auto.conf; and what is
/// then answered, where auto.conf is the old one and where it is that of B alone.
#[rattlefmt::skip]
const UNTYPED: &[([&str; 4], [&str; 4])] = &[
    (["1\n", "1\n", HEADER, UNTYPED_AUTO], BEFORE_AUTO),
    (["2\n", "1\n", HEADER, UNTYPED_AUTO], BEFORE_AUTO),
    (["2\n", "2\n", HEADER, UNTYPED_AUTO], BEFORE_AUTO),
    (["2\n", "1\n", HEADER_B, UNTYPED_AUTO], BEFORE_AUTO),
    (["2\n", "1\n", HEADER_B, UNTYPED_AUTO_B], BEHIND_AUTO),
];

const BEFORE_AUTO: [&str; 4] = [
    "generation 1 names 3",
    "generation 2 touched A B unknown 0",
    "generation 2 names 3",
    "generation 3 touched A unknown 0",
];

const BEHIND_AUTO: [&str; 4] = [
    "generation 2 names 3",
    "generation 3 touched A B unknown 0",
    "generation 3 names 3",
    "generation 4 touched A unknown 0",
];

/// Puts what was left.
fn put_left<T: Tree>(
    rt: &impl Abort,
    alloc: Global,
    tree: &mut T,
    [a, b, header, auto]: [&str; 4],
) -> Result<(), AllocError> {
    let files = [
        (Step::Put("include/config/A", a), "done"),
        (Step::Put("include/config/B", b), "done"),
        (Step::Put("include/generated/autoconf.h", header), "done"),
        (Step::Put("include/config/auto.conf", auto), "done"),
    ];
    play(rt, alloc, tree, &files)
}

/// The tree is synchronised, which touches all names, old and new; then an object is recorded and asked for.
fn synced_and_recorded<T: Tree>(
    rt: &impl Abort,
    alloc: Global,
    tree: &mut T,
    [at_first, first, then, again]: [&str; 4],
) -> Result<(), AllocError> {
    let recording = Step::Record("x.d", "x.o", "cc -c x.c");
    let steps = [
        (recording, at_first),
        (Step::Sync(KCONFIG, BOTH), first),
        (Step::Stale("x.o"), "stale A"),
        (recording, then),
        (Step::Stale("x.o"), "fresh"),
        (Step::Sync(KCONFIG, ONLY_B), again),
        (Step::Stale("x.o"), "stale A"),
    ];
    play(rt, alloc, tree, &steps)
}

#[test]
fn the_untyped_form_broken_off(rt: HostRuntime) -> Result<(), AllocError> {
    for (left, answers) in UNTYPED {
        let mut tree = MemoryTree::new(rt.alloc());
        play(&rt, rt.alloc(), &mut tree, SOURCES)?;
        put_left(&rt, rt.alloc(), &mut tree, *left)?;
        synced_and_recorded(&rt, rt.alloc(), &mut tree, *answers)?;
    }
    Ok(())
}

/// How long a file is that a broken synchronisation leaves half written.
fn half_length(
    rt: &impl Abort,
    alloc: Global,
    passes: u64,
    fails: Option<u64>,
    temporary: &str,
) -> Result<usize, AllocError> {
    let mut tree = broken(rt, alloc, passes, fails, FuseMode::Half)?;
    let half = answer(alloc, &mut tree, Step::Read(temporary))?;
    Ok(half.as_str().len())
}

#[test]
fn temporary_files_that_are_half_written(rt: HostRuntime) -> Result<(), AllocError> {
    for &(passes, temporary, length) in HALF_WRITTEN {
        let all_fail = half_length(&rt, rt.alloc(), passes, None, temporary)?;
        check(&rt, temporary, all_fail == length);
        let one_fails = half_length(&rt, rt.alloc(), passes, Some(1), temporary)?;
        check(&rt, temporary, one_fails == length);
    }
    Ok(())
}

#[rattlefmt::skip]
const AT_THE_SECOND_TRY: &[(Step<'_>, &str)] = &[
    (Step::Sync(KCONFIG, ONLY_B), "30 Device"),
    (Step::Sync(KCONFIG, ONLY_B), "generation 2 touched A unknown 0"),
];

const AT_ONCE: &[(Step<'_>, &str)] = &[(
    Step::Sync(KCONFIG, ONLY_B),
    "generation 2 touched A unknown 0",
)];

const COMPLETED: &[(Step<'_>, &str)] = &[
    (Step::Read("include/config/A"), "2\n"),
    (Step::Read("include/generated/autoconf.h"), HEADER_B),
    (Step::Read("include/config/auto.conf"), AUTO_B),
];

/// A synchronisation behind a fuse comes to these answers, and is then complete.
fn check_again(
    rt: &impl Abort,
    alloc: Global,
    passes: u64,
    fails: Option<u64>,
    steps: &[(Step<'_>, &str)],
) -> Result<(), AllocError> {
    let mut fuse = FuseTree::new(recorded(rt, alloc)?, passes, fails, FuseMode::Clean);
    play(rt, alloc, &mut fuse, steps)?;
    play(rt, alloc, &mut fuse.into_inner(), COMPLETED)
}

#[test]
fn asked_again_where_one_call_failed_or_none(rt: HostRuntime) -> Result<(), AllocError> {
    check_again(&rt, rt.alloc(), 5, Some(1), AT_THE_SECOND_TRY)?;
    check_again(&rt, rt.alloc(), 7, None, AT_ONCE)
}
