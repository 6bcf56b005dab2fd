//! An output that fails: the command's work on the tree stays done, the refusal is printed where that goes, and the
//! status is 2 also where it doesn't.
use crate::golden::{AUTO, COMMAND_FILE};
use crate::steps::{
    Run, Step as Reported, check, check_text, play, run_onto, run_over, shown, world,
};
use ks_cli::request_of;
use ks_streams::{Step, WriteError};
use ks_symbols::Dialect;
use ks_tree::Backdating;
use std::alloc::{AllocError, Global};
use std::process::Abort;
use std::test::Fail;

/// The script of an output that takes one byte a call, so many times, and then does what this step says.
fn one_by_one(alloc: Global, calls: usize, last: Step) -> Result<Vec<Step>, AllocError> {
    let mut script = Vec::new(alloc);
    for _ in 0..calls {
        script.push(Step::Take(1))?;
    }
    script.push(last)?;
    Ok(script)
}

/// A command, what was done before it, and a file of the tree as it stands after it.
struct Case<'a> {
    before: &'a [(Reported<'a>, &'a str)],
    args: &'a [&'a str],
    path: &'a str,
    holds: &'a str,
}

/// How often a command calls an output that doesn't fail: for each byte, and for the flush.
fn calls_made(rt: &impl Abort, alloc: Global, case: &Case<'_>) -> Result<usize, Fail> {
    let mut tree = world(rt, alloc)?;
    play(rt, alloc, &mut tree, case.before)?;
    let run = run_over(alloc, &mut tree, Dialect::Linux, case.args);
    Ok(run.out.len().saturating_add(1))
}

/// A command over an output that fails after so many calls.
fn run_broken_off<T: Backdating>(
    alloc: Global,
    tree: &mut T,
    args: &[&str],
    passes: usize,
) -> Result<Run, AllocError> {
    let out = one_by_one(alloc, passes, Step::Refuse(WriteError::Failed))?;
    let asked = request_of(alloc, args);
    let scripts = (out, Vec::new(alloc));
    Ok(run_onto(alloc, tree, Dialect::Linux, &asked, scripts))
}

/// What standard error has then.
const REFUSED_FOR_ITS_OUTPUT: &[u8] = b"confstamp: 51 Output\n\
    hint: the work of `sync`, `record`, `depfile` and `batch` is done; repeat others (confstamp explain 51)\n";

/// The command is refused for its output, of which those bytes came that were let through.
fn check_refused(rt: &impl Abort, run: &Run, passes: usize, place: &str) {
    check(rt, place, run.status == 2);
    check(rt, place, run.out.len() == passes);
    check(rt, place, run.err.as_slice() == REFUSED_FOR_ITS_OUTPUT);
}

/// A case over an output that fails after so many calls. The tree is then as after the whole command.
fn break_off<T: Backdating>(
    rt: &impl Abort,
    alloc: Global,
    tree: &mut T,
    case: &Case<'_>,
    passes: usize,
) -> Result<(), Fail> {
    play(rt, alloc, tree, case.before)?;
    let args = case.args;
    let place = format!(in alloc; "{passes} {args:?}")?;
    let run = run_broken_off(alloc, tree, args, passes)?;
    check_refused(rt, &run, passes, &place);
    let left = shown(alloc, tree, case.path)?;
    check_text(rt, &place, left.as_str(), case.holds);
    Ok(())
}

#[rattlefmt::skip]
const SYNCED: &[(Reported<'_>, &str)] = &[(Reported::Args(&["sync", "K1", "c1"]), "0 generation 1\ntouch A\ntouch B\nunknown 0\n")];

const SCRIPT: &[(Reported<'_>, &str)] = &[(
    Reported::Put("script", "sync K1 c1\nstale x.o\n"),
    "done",
)];

const AUTO_PATH: &str = "include/config/auto.conf";

#[rattlefmt::skip]
const CASES: &[Case<'_>] = &[
    Case { before: &[], args: &["sync", "K1", "c1"], path: AUTO_PATH, holds: AUTO },
    Case { before: &[], args: &["preview", "K1", "c1"], path: AUTO_PATH, holds: "none" },
    Case { before: &[], args: &["fixdep", "x.d", "x.o", "cc"], path: ".x.o.cmd", holds: "none" },
    Case { before: SYNCED, args: &["record", "x.d", "x.o", "cc -c x.c"], path: ".x.o.cmd", holds: COMMAND_FILE },
    Case { before: SYNCED, args: &["stale", "x.o", "y.o"], path: ".x.o.cmd", holds: "none" },
    Case { before: SYNCED, args: &["outdated", "x.o", "cc"], path: ".x.o.cmd", holds: "none" },
    Case { before: SCRIPT, args: &["batch", "script"], path: AUTO_PATH, holds: AUTO },
    Case { before: &[], args: &["help", "batch"], path: AUTO_PATH, holds: "none" },
];

#[test]
fn an_output_that_fails(rt: HostRuntime) -> Result<(), Fail> {
    for case in CASES {
        for passes in 0..calls_made(&rt, rt.alloc(), case)? {
            let mut tree = world(&rt, rt.alloc())?;
            break_off(&rt, rt.alloc(), &mut tree, case, passes)?;
        }
    }
    Ok(())
}

/// The status of a command where both outputs fail after so many calls.
fn status_broken_off<T: Backdating>(
    alloc: Global,
    tree: &mut T,
    passes: usize,
) -> Result<u8, AllocError> {
    let out = one_by_one(alloc, passes, Step::Refuse(WriteError::Failed))?;
    let err = one_by_one(alloc, passes / 2, Step::Refuse(WriteError::Failed))?;
    let asked = request_of(alloc, &["sync", "K1", "c1"]);
    let run = run_onto(alloc, tree, Dialect::Linux, &asked, (out, err));
    Ok(run.status)
}

#[test]
fn both_outputs_that_fail(rt: HostRuntime) -> Result<(), Fail> {
    for passes in 0..40 {
        let mut tree = world(&rt, rt.alloc())?;
        let status = status_broken_off(rt.alloc(), &mut tree, passes)?;
        check(&rt, "both fail", status == 2);
    }
    Ok(())
}

/// What a command says over two outputs with the same script.
fn printed<T: Backdating>(
    alloc: Global,
    tree: &mut T,
    args: &[&str],
    script: &[Step],
) -> Result<String, Fail> {
    let out = Vec::from_slice(alloc, script)?;
    let err = Vec::from_slice(alloc, script)?;
    let asked = request_of(alloc, args);
    let run = run_onto(alloc, tree, Dialect::Linux, &asked, (out, err));
    run_text(alloc, &run)
}

/// The status, whether nobody read the output to its end, the output and standard error, one after the other.
fn run_text(alloc: Global, run: &Run) -> Result<String, Fail> {
    let (out, err) = (str::from_utf8(&run.out)?, str::from_utf8(&run.err)?);
    Ok(format!(in alloc; "{} {} {out}{err}", run.status, run.unread)?)
}

const SIGNAL: Step = Step::Refuse(WriteError::Interrupted);

#[rattlefmt::skip]
const ANSWERS: &[(&str, &[Step], &str)] = &[
    ("all at once", &[], "0 false generation 2\nunknown 0\n"),
    ("three bytes a call", &[Step::Take(3)], "0 false generation 2\nunknown 0\n"),
    ("a signal before each call", &[SIGNAL, Step::Take(1)], "0 false generation 2\nunknown 0\n"),
    ("some signals, and none of the bytes asked for", &[SIGNAL, SIGNAL, SIGNAL, Step::Take(0)], "0 false generation 2\nunknown 0\n"),
    ("signals alone", &[SIGNAL], "2 false "),
    ("a reader who goes", &[Step::Take(7), Step::Refuse(WriteError::NoReader)], "0 true generat"),
    ("no reader", &[Step::Refuse(WriteError::NoReader)], "0 true "),
    ("a failure after a part", &[Step::Take(7), Step::Refuse(WriteError::Failed)], "2 false generatconfsta"),
];

#[test]
fn answers_of_an_output(rt: HostRuntime) -> Result<(), Fail> {
    for (place, script, want) in ANSWERS {
        let mut tree = world(&rt, rt.alloc())?;
        play(&rt, rt.alloc(), &mut tree, SYNCED)?;
        let found = printed(rt.alloc(), &mut tree, &["sync", "K1", "c1"], script)?;
        check_text(&rt, *place, found.as_str(), *want);
    }
    Ok(())
}
