//! What is foreseen of a synchronisation and of objects after it, and what then comes of them: each row is asked twice, before the
//! synchronisation and of the tree that it leaves.
ghost use Rattle.ks_engine.specs.Caches.{IsCacheOf};

use crate::golden::*;
use crate::steps::{Step, answer, check_text, play, report_text, verdict_text};
use ks_engine::{Cache, ConfigTexts, Impact, Query, query_object};
use ks_symbols::{Dialect, Seed};
use ks_tree::{MemoryTree, Tree};
use std::alloc::{AllocError, Global};
use std::process::Abort;

const OBJECTS: [&str; 4] = ["x.o", "u.o", "a.o", "z.o"];

/// Beside a recorded object one without a number, and one with a number that is still to come.
#[rattlefmt::skip]
const BEFORE: &[(Step<'_>, &str)] = &[
    (Step::Sync(KCONFIG_D, BOTH), "generation 1 touched A B unknown 0"),
    (Step::Record("x.d", "x.o", "cc -c x.c"), "generation 1 names 3"),
    (Step::Put(".u.o.cmd", "savedcmd_u.o := cc\n\nsource_u.o := u.c\n\ndeps_u.o := \\\n\nu.o: $(deps_u.o)\n\n$(deps_u.o):\n"), "done"),
    (Step::Put(".a.o.cmd", "savedcmd_a.o := cc\n\nsource_a.o := a.c\n\ndeps_a.o := \\\n    $(wildcard include/config/A) \\\n\na.o: $(deps_a.o)\n\n$(deps_a.o):\n#generation 5\n"), "done"),
];

/// A `.config`, and what is reported of it and of each object.
#[rattlefmt::skip]
const ROWS: &[(&str, &str)] = &[
    ("CONFIG_A=y\nCONFIG_B=m\nCONFIG_D=y\n", "generation 2 touched D unknown 0; fresh; not-numbered; generation-ahead; no-command-file"),
    ("CONFIG_B=m\nCONFIG_D=y\n", "generation 3 touched A unknown 0; stale A; not-numbered; generation-ahead; no-command-file"),
    ("CONFIG_A=y\nCONFIG_B=m\nCONFIG_D=y\n", "generation 4 touched A unknown 0; stale A; not-numbered; generation-ahead; no-command-file"),
    ("CONFIG_A=y\nCONFIG_B=m\nCONFIG_D=y\n", "generation 5 touched unknown 0; stale A; not-numbered; fresh; no-command-file"),
    ("CONFIG_B=y\nCONFIG_X=y\n", "generation 6 touched A B D unknown 1; stale A; not-numbered; stale A; no-command-file"),
    ("CONFIG_A=m\n", "8 BadValue line 1"),
];

/// What is foreseen of an object by what was read before.
fn predicted_by<T: Tree>(
    alloc: Global,
    tree: &mut T,
    cache: &mut Cache,
    impact: &Impact,
    object: &[u8],
) -> Result<String, AllocError>
    requires cache { T.is_honest → IsCacheOf (T.files tree.old) cache.old }
{
    match query_object(alloc, tree, cache, Query::Predicted(impact), object) {
        Ok(answer) => verdict_text(alloc, &answer.verdict),
        Err(error) => error.to_string(alloc),
    }
}

/// What is foreseen of an object.
fn predicted_of<T: Tree>(
    alloc: Global,
    tree: &mut T,
    impact: &Impact,
    object: &str,
) -> Result<String, AllocError> {
    let mut cache = Cache::with_seed(alloc, Seed::new(0));
    predicted_by(alloc, tree, &mut cache, impact, object.as_bytes())
}

/// What is foreseen of a synchronisation with a `.config`.
fn predicted<T: Tree>(alloc: Global, tree: &mut T, dotconfig: &str) -> Result<String, AllocError> {
    let kconfig = KCONFIG_D.as_bytes();
    let texts = ConfigTexts::of_kconfig(Dialect::Linux, kconfig, dotconfig.as_bytes());
    let impact = match Impact::of(alloc, tree, &texts) {
        Ok(impact) => impact,
        Err(error) => return error.to_string(alloc),
    };
    let mut reported = report_text(alloc, &impact.report)?;
    for object in OBJECTS {
        let one = predicted_of(alloc, tree, &impact, object)?;
        reported.push_str("; ")?;
        reported.push_str(one.as_str())?;
    }
    Ok(reported)
}

/// What comes of it.
fn synced<T: Tree>(alloc: Global, tree: &mut T, dotconfig: &str) -> Result<String, AllocError> {
    let mut reported = answer(alloc, tree, Step::Sync(KCONFIG_D, dotconfig))?;
    if !reported.as_str().starts_with("generation") {
        return Ok(reported);
    }
    for object in OBJECTS {
        let one = answer(alloc, tree, Step::Stale(object))?;
        reported.push_str("; ")?;
        reported.push_str(one.as_str())?;
    }
    Ok(reported)
}

/// What is reported of a `.config`, before its synchronisation and after it.
fn check_row<T: Tree>(
    rt: &impl Abort,
    alloc: Global,
    tree: &mut T,
    (dotconfig, want): (&str, &str),
) -> Result<(), AllocError> {
    let reported = predicted(alloc, tree, dotconfig)?;
    check_text(rt, "before", reported.as_str(), want);
    let came = synced(alloc, tree, dotconfig)?;
    check_text(rt, "after", came.as_str(), want);
    Ok(())
}

#[test]
fn what_is_predicted_comes(rt: HostRuntime) -> Result<(), AllocError> {
    let mut tree = MemoryTree::new(rt.alloc());
    play(&rt, rt.alloc(), &mut tree, SOURCES)?;
    play(&rt, rt.alloc(), &mut tree, BEFORE)?;
    for row in ROWS {
        check_row(&rt, rt.alloc(), &mut tree, *row)?;
    }
    Ok(())
}
