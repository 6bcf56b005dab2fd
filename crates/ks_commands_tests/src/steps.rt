//! Worked examples over a tree in memory: tables of arguments, and of the status and all that is printed.
use crate::golden;
use ks_cli::{WordsError, request_of};
use ks_commands::execute;
use ks_requests::Request;
use ks_streams::{Scripted, Step as Call, Stream};
use ks_symbols::Dialect;
use ks_tree::{Backdating, BackdatingTree, MemoryTree, Tree};
use std::alloc::Global;
use std::process::Abort;
use std::test::Fail;

/// One thing done to a tree: words that are run, a file that is put there, or one that is read.
#[derive(Clone, Copy, Debug)]
pub(crate) enum Step<'a> {
    Args(&'a [&'a str]),
    /// The words under the dialect of U-Boot.
    InUBoot(&'a [&'a str]),
    /// The words under the dialect of BusyBox.
    InBusyBox(&'a [&'a str]),
    Put(&'a str, &'a str),
    Read(&'a str),
}

/// What a command left: the status, whether nobody read the output to its end, the output and standard error.
#[derive(Drop)]
pub(crate) struct Run {
    pub(crate) status: u8,
    pub(crate) unread: bool,
    pub(crate) out: Vec<u8>,
    pub(crate) err: Vec<u8>,
}

/// A stream in memory whose calls go by this script. Where there is none it takes all.
fn scripted(alloc: Global, script: Vec<Call>) -> Stream<Scripted> {
    Stream::new(Scripted::new(Vec::new(alloc), script))
}

/// Runs what is asked for over an output and a standard error that go by these scripts.
pub(crate) fn run_onto<T: Backdating>(
    alloc: Global,
    tree: &mut T,
    dialect: Dialect,
    asked: &Result<Request, WordsError>,
    (out, err): (Vec<Call>, Vec<Call>),
) -> Run {
    let mut out = scripted(alloc, out);
    let mut err = scripted(alloc, err);
    let status = execute(alloc, tree, dialect, asked, &mut out, &mut err);
    let unread = out.is_unread();
    let out = out.into_writer().into_bytes();
    let err = err.into_writer().into_bytes();
    Run {
        status,
        unread,
        out,
        err,
    }
}

/// Runs what is asked for where all that it prints is taken.
pub(crate) fn run_asked<T: Backdating>(
    alloc: Global,
    tree: &mut T,
    dialect: Dialect,
    asked: &Result<Request, WordsError>,
) -> Run {
    let scripts = (Vec::new(alloc), Vec::new(alloc));
    run_onto(alloc, tree, dialect, asked, scripts)
}

/// Runs the command that the arguments ask for.
pub(crate) fn run_over<'a, T: Backdating>(
    alloc: Global,
    tree: &mut T,
    dialect: Dialect,
    args: &'a [&'a str],
) -> Run {
    run_asked(alloc, tree, dialect, &request_of(alloc, args))
}

/// The bytes of a file as text.
pub(crate) fn shown<T: Tree>(alloc: Global, tree: &mut T, path: &str) -> Result<String, Fail> {
    match tree.read(alloc, path.as_bytes())? {
        Some(bytes) => Ok(String::from_utf8(bytes)?),
        None => Ok(String::from_str(alloc, "none")?),
    }
}

/// Standard error without the hint at its end, for which `tests/main` has rows.
pub(crate) fn without_hint(err: &str) -> &str {
    match err.split_once("hint: ") {
        Some((before, _)) => before,
        None => err,
    }
}

/// The status, the output and standard error, one after the other.
fn run_text(alloc: Global, run: &Run) -> Result<String, Fail> {
    let (out, err) = (str::from_utf8(&run.out)?, str::from_utf8(&run.err)?);
    let err = without_hint(err);
    Ok(format!(in alloc; "{} {out}{err}", run.status)?)
}

/// The same of the command that the arguments ask for.
fn printed<'a, T: Backdating>(
    alloc: Global,
    tree: &mut T,
    dialect: Dialect,
    args: &'a [&'a str],
) -> Result<String, Fail> {
    let run = run_over(alloc, tree, dialect, args);
    run_text(alloc, &run)
}

fn put<T: Tree>(alloc: Global, tree: &mut T, path: &str, bytes: &str) -> Result<String, Fail> {
    tree.write(alloc, path.as_bytes(), bytes.as_bytes())?;
    Ok(String::from_str(alloc, "done")?)
}

/// What comes of a step: what was read, or the status, the output and standard error, one after the other.
pub(crate) fn reported<T: Backdating>(
    alloc: Global,
    tree: &mut T,
    step: Step<'_>,
) -> Result<String, Fail> {
    match step {
        Step::Args(args) => printed(alloc, tree, Dialect::Linux, args),
        Step::InUBoot(args) => printed(alloc, tree, Dialect::UBoot, args),
        Step::InBusyBox(args) => printed(alloc, tree, Dialect::BusyBox, args),
        Step::Put(path, bytes) => put(alloc, tree, path, bytes),
        Step::Read(path) => shown(alloc, tree, path),
    }
}

/// What is said of a row is so. The assertions stand here and in the next two calls, since one in the function of a test costs its
/// proof more than the call does.
pub(crate) fn check(rt: &impl Abort, row: &str, is_so: bool) {
    assert!(rt; is_so, "{row}");
}

/// A row has this text.
pub(crate) fn check_text(rt: &impl Abort, row: &str, found: &str, want: &str) {
    assert!(rt; found == want, "{row}: found {found}, wanted {want}");
}

/// A step comes to this text.
fn check_step(rt: &impl Abort, step: &Step<'_>, found: &str, want: &str) {
    assert!(rt; found == want, "{step:?}: found {found}, wanted {want}");
}

/// Takes the steps one after another, each with what is to come of it.
pub(crate) fn play<T: Backdating>(
    rt: &impl Abort,
    alloc: Global,
    tree: &mut T,
    steps: &[(Step<'_>, &str)],
) -> Result<(), Fail> {
    for (step, want) in steps {
        let found = reported(alloc, tree, *step)?;
        check_step(rt, step, found.as_str(), *want);
    }
    Ok(())
}

/// A tree with the inputs of all examples.
pub(crate) fn world(rt: &impl Abort, alloc: Global) -> Result<BackdatingTree<MemoryTree>, Fail> {
    let mut tree = BackdatingTree::new(alloc, MemoryTree::new(alloc));
    play(rt, alloc, &mut tree, golden::INPUTS)?;
    Ok(tree)
}

/// Plays steps over a tree with the inputs.
fn play_alone(rt: &impl Abort, alloc: Global, steps: &[(Step<'_>, &str)]) -> Result<(), Fail> {
    let mut tree = world(rt, alloc)?;
    play(rt, alloc, &mut tree, steps)
}

/// Plays each list of steps over a tree of its own.
pub(crate) fn play_each(
    rt: &impl Abort,
    alloc: Global,
    lists: &[&[(Step<'_>, &str)]],
) -> Result<(), Fail> {
    for steps in lists {
        play_alone(rt, alloc, steps)?;
    }
    Ok(())
}
