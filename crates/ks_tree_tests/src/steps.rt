//! Tables of what is done to a tree, and of what comes of it.
use ks_symbols::{Name, name_is_legal};
use ks_tree::{Tree, TreeFault, make_stamps, read_stamp, replace, touch};
use std::alloc::{AllocError, Global};
use std::process::Abort;

/// One thing done to a tree.
#[derive(Clone, Copy)]
pub(crate) enum Step<'a> {
    Read(&'a str),
    /// Six bytes from an offset on, over six dots.
    Piece(&'a str, u64),
    Write(&'a str, &'a str),
    Create(&'a str, &'a str),
    Move(&'a str, &'a str),
    Replace(&'a str, &'a str),
    Touch(&'a str, u64),
    MakeStamp(&'a str),
    Stamp(&'a str),
}

/// A name, which the test knows to be legal.
pub(crate) fn name(alloc: Global, text: &str) -> Result<Name, AllocError> {
    if name_is_legal(text.as_bytes()) {
        Name::new(alloc, text.as_bytes())
    } else {
        Err(AllocError)
    }
}

pub(crate) fn read<T: Tree>(alloc: Global, tree: &mut T, path: &str) -> Result<String, TreeFault> {
    let Some(bytes) = tree.read(alloc, path.as_bytes())? else {
        return Ok(String::from_str(alloc, "none")?);
    };
    let text = str::from_utf8(&bytes).unwrap_or("not text");
    Ok(String::from_str(alloc, text)?)
}

pub(crate) fn piece<T: Tree>(
    alloc: Global,
    tree: &mut T,
    path: &str,
    offset: u64,
) -> Result<String, TreeFault> {
    let mut into = *b"......";
    let Some(count) = tree.read_at(alloc, path.as_bytes(), offset, &mut into)? else {
        return Ok(String::from_str(alloc, "none")?);
    };
    let text = str::from_utf8(&into).unwrap_or("not text");
    Ok(format!(in alloc; "{count} {text}")?)
}

fn move_file<T: Tree>(
    alloc: Global,
    tree: &mut T,
    from: &str,
    to: &str,
) -> Result<String, TreeFault> {
    let (from, to) = (from.as_bytes(), to.as_bytes());
    if from == to || tree.read(alloc, from)?.is_none() {
        return Ok(String::from_str(alloc, "nothing to move")?);
    }
    tree.rename(alloc, from, to)?;
    Ok(String::from_str(alloc, "done")?)
}

fn replace_file<T: Tree>(
    alloc: Global,
    tree: &mut T,
    path: &str,
    bytes: &str,
) -> Result<String, TreeFault> {
    let (temporary, path) = (b"t.tmp".as_slice(), path.as_bytes());
    if temporary != path {
        replace(alloc, tree, temporary, path, bytes.as_bytes())?;
    }
    Ok(String::from_str(alloc, "done")?)
}

/// `done`, or the fault.
pub(crate) fn done(alloc: Global, outcome: Result<(), TreeFault>) -> Result<String, TreeFault> {
    outcome?;
    Ok(String::from_str(alloc, "done")?)
}

fn touch_one<T: Tree>(
    alloc: Global,
    tree: &mut T,
    symbol: &str,
    generation: u64,
) -> Result<String, TreeFault> {
    let symbol = name(alloc, symbol)?;
    done(alloc, touch(alloc, tree, &symbol, generation))
}

fn make_stamp<T: Tree>(alloc: Global, tree: &mut T, symbol: &str) -> Result<String, TreeFault> {
    let symbols = [name(alloc, symbol)?];
    done(alloc, make_stamps(alloc, tree, &symbols))
}

/// The generation of a stamp, or what is wrong with it.
fn stamp<T: Tree>(alloc: Global, tree: &mut T, symbol: &str) -> Result<String, TreeFault> {
    let symbol = name(alloc, symbol)?;
    let text = match read_stamp(alloc, tree, &symbol) {
        Ok(number) => format!(in alloc; "{number}"),
        Err(error) => error.to_string(alloc),
    };
    Ok(text?)
}

/// Takes a step, and tells what was read, or `done`.
fn take<T: Tree>(alloc: Global, tree: &mut T, step: Step<'_>) -> Result<String, TreeFault> {
    match step {
        Step::Read(path) => read(alloc, tree, path),
        Step::Piece(path, offset) => piece(alloc, tree, path, offset),
        Step::Write(path, bytes) => {
            done(alloc, tree.write(alloc, path.as_bytes(), bytes.as_bytes()))
        }
        Step::Create(path, bytes) => {
            done(alloc, tree.create(alloc, path.as_bytes(), bytes.as_bytes()))
        }
        Step::Move(from, to) => move_file(alloc, tree, from, to),
        Step::Replace(path, bytes) => replace_file(alloc, tree, path, bytes),
        Step::Touch(symbol, generation) => touch_one(alloc, tree, symbol, generation),
        Step::MakeStamp(symbol) => make_stamp(alloc, tree, symbol),
        Step::Stamp(symbol) => stamp(alloc, tree, symbol),
    }
}

/// What comes of a step: what was read, `done`, or the fault.
pub(crate) fn answer<T: Tree>(
    alloc: Global,
    tree: &mut T,
    step: Step<'_>,
) -> Result<String, AllocError> {
    match take(alloc, tree, step) {
        Ok(text) => Ok(text),
        Err(fault) => fault.to_string(alloc),
    }
}

/// What was found is what was wanted.
pub(crate) fn check(rt: &impl Abort, found: &str, want: &str) {
    assert!(rt; found == want, "found {found}, wanted {want}");
}

/// The same in the row of this number.
pub(crate) fn check_row(rt: &impl Abort, found: &str, want: &str, row: u64) {
    assert!(rt; found == want, "row {row}: found {found}, wanted {want}");
}

/// Takes the steps one after another, each with what is to come of it.
pub(crate) fn run<T: Tree>(
    rt: &impl Abort,
    alloc: Global,
    tree: &mut T,
    steps: &[(Step<'_>, &str)],
) -> Result<(), AllocError> {
    let mut host_path = 0_u64;
    for (step, want) in steps {
        let got = answer(alloc, tree, *step)?;
        check_row(rt, got.as_str(), *want, host_path);
        host_path = host_path.saturating_add(1);
    }
    Ok(())
}

/// What every honest tree does.
pub(crate) const STEPS: &[(Step<'_>, &str)] = &[
    (Step::Stamp("A"), "0"),
    (Step::Touch("A", 7), "done"),
    (Step::Stamp("A"), "7"),
    (Step::Read("include/config/A"), "7\n"),
    (Step::Read("include/config/stamp.tmp"), "none"),
    (Step::Touch("A", 18446744073709551615), "done"),
    (Step::Stamp("A"), "18446744073709551615"),
    (Step::MakeStamp("A"), "done"),
    (Step::Stamp("A"), "18446744073709551615"),
    (Step::MakeStamp("B"), "done"),
    (Step::Read("include/config/B"), ""),
    (Step::Stamp("B"), "0"),
    (Step::Create("c/new", "bytes"), "done"),
    (Step::Create("c/new", "others"), "done"),
    (Step::Read("c/new"), "bytes"),
    (Step::Write("d/eight", "abcdefgh"), "done"),
    (Step::Piece("d/eight", 0), "6 abcdef"),
    (Step::Piece("d/eight", 6), "2 gh...."),
    (Step::Piece("d/eight", 1), "6 bcdefg"),
    (Step::Piece("d/eight", 8), "0 ......"),
    (Step::Piece("d/eight", 1 << 40), "0 ......"),
    (Step::Piece("d/nine", 0), "none"),
    (Step::Move("d/eight", "e"), "done"),
    (Step::Read("d/eight"), "none"),
    (Step::Read("e"), "abcdefgh"),
    (Step::Replace("e", "new"), "done"),
    (Step::Read("e"), "new"),
    (Step::Read("t.tmp"), "none"),
];
