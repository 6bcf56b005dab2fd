//! Calls broken off after every count of calls, in both modes.
use crate::steps::{Step, answer, check_row, name};
use ks_symbols::Name;
use ks_tree::FuseMode::{self, Clean, Half};
use ks_tree::{Backdating, BackdatingTree, FuseTree, MemoryTree, Tree, touch_all};
use std::alloc::{AllocError, Global};
use std::test::Fail;

/// `.`, or `!` where it failed.
fn sign(failed: bool) -> char {
    if failed { '!' } else { '.' }
}

/// Takes steps one after another, and adds the sign of each.
fn add_signs<T: Tree>(
    alloc: Global,
    tree: &mut T,
    steps: &[Step<'_>],
    story: &mut String,
) -> Result<(), AllocError> {
    for step in steps {
        let found = answer(alloc, tree, *step)?;
        story.push(sign(found.as_str() == "30 Device"))?;
    }
    Ok(())
}

/// Takes steps one after another, and adds what comes of each.
fn add_answers<T: Tree>(
    alloc: Global,
    tree: &mut T,
    steps: &[Step<'_>],
    story: &mut String,
) -> Result<(), AllocError> {
    for step in steps {
        let found = answer(alloc, tree, *step)?;
        story.push(' ')?;
        story.push_str(found.as_str())?;
    }
    Ok(())
}

/// Four calls, since a file is replaced by two.
const CALLS: &[Step<'_>] = &[
    Step::Read("a"),
    Step::Piece("a", 0),
    Step::Replace("a", "newer"),
];

const HOST_PATHS: &[Step<'_>] = &[Step::Read("a"), Step::Read("t.tmp")];

/// A tree with one file, where there is memory for it.
fn one_file(alloc: Global) -> MemoryTree {
    let mut tree = MemoryTree::new(alloc);
    let _ = tree.write(alloc, b"a", b"old");
    tree
}

/// What comes of four calls behind a fuse, `.` or `!` for each step, and what two paths hold after it.
fn outcome(
    alloc: Global,
    passes: u64,
    fails: Option<u64>,
    mode: FuseMode,
) -> Result<String, AllocError> {
    let mut story = String::new(alloc);
    let mut tree = FuseTree::new(one_file(alloc), passes, fails, mode);
    add_signs(alloc, &mut tree, CALLS, &mut story)?;
    let mut tree = tree.into_inner();
    add_answers(alloc, &mut tree, HOST_PATHS, &mut story)?;
    Ok(story)
}

/// Ages three files, and adds the sign of each call.
fn backdate_three<T: Backdating>(
    alloc: Global,
    tree: &mut T,
    story: &mut String,
) -> Result<(), AllocError> {
    for path in ["a", "b", "c"] {
        let outcome = tree.backdate(alloc, path.as_bytes());
        story.push(sign(outcome.is_err()))?;
    }
    Ok(())
}

fn add_backdated(tree: &BackdatingTree<MemoryTree>, story: &mut String) -> Result<(), AllocError> {
    for path in tree.backdated() {
        story.push_str(str::from_utf8(path).unwrap_or("not text"))?;
    }
    Ok(())
}

/// Which of three files are aged behind a fuse, by their paths, with `.` or `!` for each call.
fn backdated(
    alloc: Global,
    passes: u64,
    fails: Option<u64>,
    mode: FuseMode,
) -> Result<String, AllocError> {
    let mut story = String::new(alloc);
    let tree = BackdatingTree::new(alloc, MemoryTree::new(alloc));
    let mut tree = FuseTree::new(tree, passes, fails, mode);
    backdate_three(alloc, &mut tree, &mut story)?;
    add_backdated(&tree.into_inner(), &mut story)?;
    Ok(story)
}

/// How many calls pass, which one more fails, the mode, and what comes of it.
const AGINGS: &[(u64, Option<u64>, FuseMode, &str)] = &[
    (0, None, Clean, "!!!"),
    (1, None, Clean, ".!!a"),
    (3, None, Clean, "...abc"),
    (0, None, Half, "!!!a"),
    (1, None, Half, ".!!ab"),
    (0, Some(1), Clean, "!..bc"),
    (1, Some(1), Half, ".!.abc"),
];

#[test]
fn backdating_fails_in_turn(rt: HostRuntime) -> Result<(), Fail> {
    for &(passes, fails, mode, want) in AGINGS {
        let got = backdated(rt.alloc(), passes, fails, mode)?;
        check_row(&rt, got.as_str(), want, passes);
    }
    Ok(())
}

/// The same of the four calls.
const OUTCOMES: &[(u64, Option<u64>, FuseMode, &str)] = &[
    (0, None, Clean, "!!! old none"),
    (1, None, Clean, ".!! old none"),
    (2, None, Clean, "..! old none"),
    (3, None, Clean, "..! old newer"),
    (4, None, Clean, "... newer none"),
    (0, None, Half, "!!! old none"),
    (1, None, Half, ".!! old none"),
    (2, None, Half, "..! old ne"),
    (3, None, Half, "..! newer none"),
    (4, None, Half, "... newer none"),
    (0, Some(1), Clean, "!.. newer none"),
    (1, Some(1), Half, ".!. newer none"),
    (2, Some(1), Half, "..! old ne"),
    (3, Some(1), Half, "..! newer none"),
    (1, Some(2), Half, ".!! old none"),
    (0, Some(0), Half, "... newer none"),
];

#[test]
fn each_call_fails_in_turn(rt: HostRuntime) -> Result<(), Fail> {
    for &(passes, fails, mode, want) in OUTCOMES {
        let got = outcome(rt.alloc(), passes, fails, mode)?;
        check_row(&rt, got.as_str(), want, passes);
    }
    Ok(())
}

const STAMPS: &[Step<'_>] = &[Step::Stamp("A"), Step::Stamp("B"), Step::Stamp("C")];

fn three_names(alloc: Global) -> Result<Vec<Name>, AllocError> {
    Ok(vec![in alloc; name(alloc, "A")?, name(alloc, "B")?, name(alloc, "C")?]?)
}

/// The fault of touching three names behind a fuse, and their stamps after it.
fn touched(alloc: Global, passes: u64, mode: FuseMode) -> Result<String, AllocError> {
    let mut story = String::new(alloc);
    let names = three_names(alloc)?;
    let mut tree = FuseTree::new(MemoryTree::new(alloc), passes, None, mode);
    let outcome = touch_all(alloc, &mut tree, &names, 9);
    let mut tree = tree.into_inner();
    story.push(sign(outcome.is_err()))?;
    add_answers(alloc, &mut tree, STAMPS, &mut story)?;
    Ok(story)
}

/// How many calls pass, and what comes of it in each mode. Of the six calls each odd one is a rename, which has happened where it
/// is half done.
const TOUCHES: &[(u64, &str, &str)] = &[
    (0, "! 0 0 0", "! 0 0 0"),
    (1, "! 0 0 0", "! 9 0 0"),
    (2, "! 9 0 0", "! 9 0 0"),
    (3, "! 9 0 0", "! 9 9 0"),
    (4, "! 9 9 0", "! 9 9 0"),
    (5, "! 9 9 0", "! 9 9 9"),
    (6, ". 9 9 9", ". 9 9 9"),
];

#[test]
fn touching_stops_at_the_first_fault(rt: HostRuntime) -> Result<(), Fail> {
    for &(passes, clean, half) in TOUCHES {
        for (mode, want) in [(Clean, clean), (Half, half)] {
            let got = touched(rt.alloc(), passes, mode)?;
            check_row(&rt, got.as_str(), want, passes);
        }
    }
    Ok(())
}

#[test]
fn no_name_makes_no_call(rt: HostRuntime) {
    let alloc = rt.alloc();
    let mut tree = FuseTree::new(MemoryTree::new(alloc), 0, None, Clean);
    assert!(rt; touch_all(alloc, &mut tree, &[], 9).is_ok());
}
