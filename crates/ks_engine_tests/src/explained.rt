//! Why an object is stale: a history, and what is explained after each step of it.
ghost use Rattle.ks_engine.specs.Caches.{IsCacheOf};

use crate::golden::*;
use crate::steps::{Step, check_text, play, text, verdict_text};
use ks_engine::{Cache, Cause, EngineError, Explanation, Query, explain, query_object};
use ks_symbols::Seed;
use ks_tree::{MemoryTree, Tree};
use std::alloc::{AllocError, Global};
use std::process::Abort;

const KCONFIG_C: &str =
    "mainmenu \"Demo\"\nconfig A\n\tbool\nconfig B\n\ttristate\nconfig C\n\tbool\n";

const ALL: &str = "CONFIG_A=y\nCONFIG_B=m\nCONFIG_C=y\n";

const ALL_BUT_A: &str = "CONFIG_B=m\nCONFIG_C=y\n";

/// A cause with its number and its place.
fn push_cause(alloc: Global, all: &mut String, cause: &Cause) -> Result<(), AllocError> {
    let (name, place) = (text(cause.name.as_bytes()), text(cause.place.as_bytes()));
    let one = format!(in alloc; "; {name} {} {place}", cause.generation)?;
    all.push_str(one.as_str())
}

/// A verdict, and after it each cause.
fn explanation_text(alloc: Global, explanation: &Explanation) -> Result<String, AllocError> {
    let mut all = verdict_text(alloc, &explanation.verdict)?;
    for cause in &explanation.causes {
        push_cause(alloc, &mut all, cause)?;
    }
    Ok(all)
}

/// The same, or the refusal.
fn reported(
    alloc: Global,
    answer: &Result<Explanation, EngineError>,
) -> Result<String, AllocError> {
    match answer {
        Ok(explanation) => explanation_text(alloc, explanation),
        Err(error) => error.to_string(alloc),
    }
}

/// What is done, what comes of it, and what is then explained of x.o.
#[rattlefmt::skip]
const STEPS: &[(Step<'_>, &str, &str)] = &[
    (Step::Sync(KCONFIG_C, BOTH), "generation 1 touched A B unknown 0", "no-command-file"),
    (Step::Record("x.d", "x.o", "cc -c x.c"), "generation 1 names 3", "fresh"),
    (Step::Sync(KCONFIG_C, ALL), "generation 2 touched C unknown 0", "stale C; C 2 a.h"),
    (Step::Sync(KCONFIG_C, ALL_BUT_A), "generation 3 touched A unknown 0", "stale A; A 3 x.c; C 2 a.h"),
    // A name that changed back was touched all the same.
    (Step::Sync(KCONFIG_C, ALL), "generation 4 touched A unknown 0", "stale A; A 4 x.c; C 2 a.h"),
    // A verdict stops at the first cause, and looks at no stamp after it.
    (Step::Put("include/config/C", "x"), "done", "31 BadStamp C"),
    (Step::Stale("x.o"), "stale A", "31 BadStamp C"),
    (Step::Record("x.d", "x.o", "cc -c x.c"), "generation 4 names 3", "31 BadStamp C"),
    (Step::Put("include/config/C", "2\n"), "done", "fresh"),
    (Step::Put(".x.o.cmd", UNNUMBERED), "done", "not-numbered"),
    (Step::Put(".x.o.cmd", NUMBERED_FIVE), "done", "generation-ahead"),
    (Step::Put(".x.o.cmd", CUT), "done", "23 BadCommandFile line 9"),
];

/// A step, what comes of it, and what is then explained of x.o.
fn check_step<T: Tree>(
    rt: &impl Abort,
    alloc: Global,
    tree: &mut T,
    (step, want, explained): (Step<'_>, &str, &str),
) -> Result<(), AllocError> {
    play(rt, alloc, tree, &[(step, want)])?;
    let why = reported(alloc, &explain(alloc, tree, b"x.o"))?;
    check_text(rt, want, why.as_str(), explained);
    Ok(())
}

#[test]
fn all_that_speaks_for_a_verdict(rt: HostRuntime) -> Result<(), AllocError> {
    let mut tree = MemoryTree::new(rt.alloc());
    play(&rt, rt.alloc(), &mut tree, SOURCES)?;
    for step in STEPS {
        check_step(&rt, rt.alloc(), &mut tree, *step)?;
    }
    Ok(())
}

/// What is explained of an object by what was read before.
fn why<T: Tree>(
    alloc: Global,
    tree: &mut T,
    cache: &mut Cache,
    object: &[u8],
) -> Result<String, AllocError>
    requires cache { T.is_honest → IsCacheOf (T.files tree.old) cache.old }
    ensures cache { T.is_honest → IsCacheOf (T.files tree.new) cache.new }
{
    let answer = query_object(alloc, tree, cache, Query::Why, object);
    reported(alloc, &answer)
}

/// What is explained of two objects by one memo, and of a target that is no path.
fn whys<T: Tree>(alloc: Global, tree: &mut T) -> [Result<String, AllocError>; 3] {
    let mut cache = Cache::with_seed(alloc, Seed::new(0));
    let first = why(alloc, tree, &mut cache, b"x.o");
    let second = why(alloc, tree, &mut cache, b"y.o");
    let last = why(alloc, tree, &mut cache, b"a$b");
    [first, second, last]
}

fn check_whys(
    rt: &impl Abort,
    [first, second, last]: [Result<String, AllocError>; 3],
) -> Result<(), AllocError> {
    let (first, second, last) = (first?, second?, last?);
    check_text(rt, "x.o", first.as_str(), "stale A; A 2 x.c; B 2 x.c");
    check_text(rt, "y.o", second.as_str(), "stale A; A 2 b.h; B 2 a.h");
    check_text(rt, "a$b", last.as_str(), "21 BadPath token 0");
    Ok(())
}

#[test]
fn several_objects_by_what_was_read_before(rt: HostRuntime) -> Result<(), AllocError> {
    let mut tree = MemoryTree::new(rt.alloc());
    play(&rt, rt.alloc(), &mut tree, SOURCES)?;
    play(&rt, rt.alloc(), &mut tree, TWO_OBJECTS)?;
    check_whys(&rt, whys(rt.alloc(), &mut tree))
}

#[rattlefmt::skip]
const TWO_OBJECTS: &[(Step<'_>, &str)] = &[
    (Step::Sync(KCONFIG_C, ALL), "generation 1 touched A B C unknown 0"),
    (Step::Record("x.d", "x.o", "cc -c x.c"), "generation 1 names 3"),
    (Step::Put("y.d", "y.o: b.h a.h\n"), "done"),
    (Step::Record("y.d", "y.o", "cc -c b.h"), "generation 1 names 3"),
    (Step::Sync(KCONFIG_C, "CONFIG_C=y\n"), "generation 2 touched A B unknown 0"),
];
