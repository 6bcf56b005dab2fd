//! Tables of what is asked of a tree, and of what is answered.
use ks_engine::{
    BuildState, ConfigTexts, EngineError, RecordOptions, Recorded, Report, Verdict, outdated,
    record_depfile, record_object, stale, sync,
};
use ks_fixdep::Header;
use ks_symbols::{Dialect, Name};
use ks_tree::{MemoryTree, Tree};
use std::alloc::{AllocError, Global};
use std::process::Abort;

/// One thing done to a tree.
#[derive(Clone, Copy)]
pub(crate) enum Step<'a> {
    Sync(&'a str, &'a str),
    Record(&'a str, &'a str, &'a str),
    /// Of a header, a dependency file and a target.
    Depfile(&'a str, &'a str, &'a str, &'a str),
    Stale(&'a str),
    Outdated(&'a str, &'a str),
    Put(&'a str, &'a str),
    Read(&'a str),
}

/// A record of a compiler that ran here, and nothing behind it.
const PLAIN: RecordOptions<'static> = RecordOptions {
    adds_own_lines: false,
    before_sync: false,
    elsewhere: None,
};

pub(crate) fn text(bytes: &[u8]) -> &str {
    str::from_utf8(bytes).unwrap_or("not text")
}

fn names(alloc: Global, touched: &[Name]) -> Result<String, AllocError> {
    let mut all = String::new(alloc);
    for name in touched {
        all.push_str(" ")?;
        all.push_str(text(name.as_bytes()))?;
    }
    Ok(all)
}

pub(crate) fn verdict_text(alloc: Global, verdict: &Verdict) -> Result<String, AllocError> {
    match verdict {
        Verdict::Fresh => String::from_str(alloc, "fresh"),
        Verdict::Changed(name) => {
            let name = text(name.as_bytes());
            format!(in alloc; "stale {name}")
        }
        Verdict::NoCommandFile => String::from_str(alloc, "no-command-file"),
        Verdict::Unnumbered => String::from_str(alloc, "not-numbered"),
        Verdict::Ahead => String::from_str(alloc, "generation-ahead"),
    }
}

pub(crate) fn report_text(alloc: Global, report: &Report) -> Result<String, AllocError> {
    let (generation, unknown) = (report.generation, report.unknown);
    let touched = names(alloc, &report.touched)?;
    let touched = touched.as_str();
    format!(in alloc; "generation {generation} touched{touched} unknown {unknown}")
}

pub(crate) fn recorded_text(alloc: Global, recorded: Recorded) -> Result<String, AllocError> {
    let (generation, names) = (recorded.generation, recorded.names);
    format!(in alloc; "generation {generation} names {names}")
}

fn state_text(alloc: Global, state: &BuildState) -> Result<String, AllocError> {
    match state {
        BuildState::CommandDiffers => String::from_str(alloc, "command-differs"),
        BuildState::Verdict(verdict) => verdict_text(alloc, verdict),
    }
}

fn synced<T: Tree>(
    alloc: Global,
    tree: &mut T,
    kconfig: &str,
    dotconfig: &str,
) -> Result<String, AllocError> {
    let texts = ConfigTexts::of_kconfig(Dialect::Linux, kconfig.as_bytes(), dotconfig.as_bytes());
    match sync(alloc, tree, &texts) {
        Ok(report) => report_text(alloc, &report),
        Err(error) => error.to_string(alloc),
    }
}

/// What comes of a record.
fn noted(alloc: Global, outcome: Result<Recorded, EngineError>) -> Result<String, AllocError> {
    match outcome {
        Ok(recorded) => recorded_text(alloc, recorded),
        Err(error) => error.to_string(alloc),
    }
}

fn evaluated<T: Tree>(alloc: Global, tree: &mut T, target: &str) -> Result<String, AllocError> {
    match stale(alloc, tree, target.as_bytes()) {
        Ok(verdict) => verdict_text(alloc, &verdict),
        Err(error) => error.to_string(alloc),
    }
}

fn compared<T: Tree>(
    alloc: Global,
    tree: &mut T,
    target: &str,
    command: &str,
) -> Result<String, AllocError> {
    match outdated(alloc, tree, target.as_bytes(), command.as_bytes()) {
        Ok(state) => state_text(alloc, &state),
        Err(error) => error.to_string(alloc),
    }
}

fn put<T: Tree>(
    alloc: Global,
    tree: &mut T,
    path: &str,
    bytes: &str,
) -> Result<String, AllocError> {
    match tree.write(alloc, path.as_bytes(), bytes.as_bytes()) {
        Ok(()) => String::from_str(alloc, "done"),
        Err(fault) => fault.to_string(alloc),
    }
}

fn read<T: Tree>(alloc: Global, tree: &mut T, path: &str) -> Result<String, AllocError> {
    match tree.read(alloc, path.as_bytes()) {
        Ok(Some(bytes)) => String::from_str(alloc, text(&bytes)),
        Ok(None) => String::from_str(alloc, "none"),
        Err(fault) => fault.to_string(alloc),
    }
}

/// What comes of a step: what was answered or read, or the refusal.
pub(crate) fn answer<T: Tree>(
    alloc: Global,
    tree: &mut T,
    step: Step<'_>,
) -> Result<String, AllocError> {
    let dialect = Dialect::Linux;
    match step {
        Step::Sync(kconfig, dotconfig) => synced(alloc, tree, kconfig, dotconfig),
        Step::Record(depfile, target, command) => {
            let (depfile, target) = (depfile.as_bytes(), target.as_bytes());
            let command = command.as_bytes();
            let outcome = record_object(alloc, tree, dialect, depfile, target, command);
            noted(alloc, outcome)
        }
        Step::Depfile(header, depfile, target, command) => {
            let header = Header::At(header.as_bytes());
            let (depfile, target) = (depfile.as_bytes(), target.as_bytes());
            let command = command.as_bytes();
            let recorded = record_depfile(
                alloc, tree, PLAIN, header, dialect, depfile, target, command,
            );
            noted(alloc, recorded)
        }
        Step::Stale(target) => evaluated(alloc, tree, target),
        Step::Outdated(target, command) => compared(alloc, tree, target, command),
        Step::Put(path, bytes) => put(alloc, tree, path, bytes),
        Step::Read(path) => read(alloc, tree, path),
    }
}

/// What is said of a row is so. The assertions stand here and in the next call, since one in the function of a test costs its proof
/// more than the call does.
pub(crate) fn check(rt: &impl Abort, row: &str, is_so: bool) {
    assert!(rt; is_so, "{row}");
}

/// A row has this text.
pub(crate) fn check_text(rt: &impl Abort, row: &str, found: &str, want: &str) {
    assert!(rt; found == want, "{row}: found {found}, wanted {want}");
}

/// A step comes to this text.
fn check_step(rt: &impl Abort, place: u64, found: &str, want: &str) {
    assert!(rt; found == want, "step {place}: found {found}, wanted {want}");
}

/// Takes the steps one after another, each with what is to come of it.
pub(crate) fn play<T: Tree>(
    rt: &impl Abort,
    alloc: Global,
    tree: &mut T,
    steps: &[(Step<'_>, &str)],
) -> Result<(), AllocError> {
    let mut place = 0_u64;
    for (step, want) in steps {
        let got = answer(alloc, tree, *step)?;
        check_step(rt, place, got.as_str(), *want);
        place = place.saturating_add(1);
    }
    Ok(())
}

/// Takes the steps in a tree in memory that holds what the first ones put there.
pub(crate) fn example(
    rt: &impl Abort,
    alloc: Global,
    before: &[(Step<'_>, &str)],
    steps: &[(Step<'_>, &str)],
) -> Result<(), AllocError> {
    let mut tree = MemoryTree::new(alloc);
    play(rt, alloc, &mut tree, before)?;
    play(rt, alloc, &mut tree, steps)
}
