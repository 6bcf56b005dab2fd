//! The tree over a disk whose calls are short, interrupted or fail. Rows of scripts: what becomes of each call of the disk, what is
//! done to the tree, what it answers, and what the disk has then.
use crate::steps::{done, piece, read};
use ks_system::{MockDisk, System, SystemTree, Turn};
use ks_tree::{Backdating, Tree, TreeFault};
use std::alloc::{AllocError, Global};
use std::process::Abort;
use std::test::Fail;

/// One thing done to a tree.
#[derive(Clone, Copy)]
enum Deed<'a> {
    Read(&'a str),
    /// Six bytes from an offset on, over six dots.
    Piece(&'a str, u64),
    Write(&'a str, &'a str),
    Create(&'a str, &'a str),
    Move(&'a str, &'a str),
    Backdate(&'a str),
}

/// A script, deeds with the answers that are wanted, and what the disk has after them.
struct Row<'a> {
    name: &'a str,
    script: &'a [Turn],
    deeds: &'a [(Deed<'a>, &'a str)],
    disk: &'a [(&'a str, &'a str)],
    failures: u64,
}

const W: Turn = Turn::Whole;

const I: Turn = Turn::Interrupted;

const F: Turn = Turn::Fails;

const ONE: Turn = Turn::Short(1);

const THREE: Turn = Turn::Short(3);

const ROWS: &[Row<'static>] = &[
    Row {
        name: "all is whole",
        script: &[],
        deeds: &[
            (Deed::Read("a"), "abcdefgh"),
            (Deed::Read("b"), "none"),
            (Deed::Piece("a", 0), "6 abcdef"),
            (Deed::Piece("a", 6), "2 gh...."),
            (Deed::Piece("a", 9), "0 ......"),
            (Deed::Piece("a", 3), "5 defgh."),
            (Deed::Write("c", "new"), "done"),
            (Deed::Read("c"), "new"),
            (Deed::Move("c", "a"), "done"),
            (Deed::Piece("a", 1), "2 ew...."),
            (Deed::Read("c"), "none"),
        ],
        disk: &[("a", "new"), ("c", "none")],
        failures: 0,
    },
    Row {
        name: "a file that is read byte by byte, and interrupted",
        script: &[W, W, ONE, ONE, I, ONE, ONE, I, I, ONE, ONE, ONE, ONE, I],
        deeds: &[(Deed::Read("a"), "abcdefgh")],
        disk: &[],
        failures: 0,
    },
    Row {
        name: "pieces that are short or interrupted",
        script: &[W, ONE, THREE, I, ONE, ONE, ONE, I, ONE],
        deeds: &[
            (Deed::Piece("a", 0), "6 abcdef"),
            (Deed::Piece("a", 6), "2 gh...."),
        ],
        disk: &[],
        failures: 0,
    },
    Row {
        name: "a read that fails after a part of the file",
        script: &[W, W, THREE, F],
        deeds: &[
            (Deed::Read("a"), "30 Device"),
            (Deed::Read("a"), "abcdefgh"),
        ],
        disk: &[],
        failures: 1,
    },
    Row {
        name: "a piece that fails after a part of it",
        script: &[W, THREE, F],
        deeds: &[
            (Deed::Piece("a", 0), "30 Device"),
            (Deed::Piece("a", 0), "6 abcdef"),
        ],
        disk: &[],
        failures: 1,
    },
    Row {
        name: "a file that may not be looked at, or opened, is no missing one",
        script: &[F, W, F, F],
        deeds: &[
            (Deed::Read("b"), "30 Device"),
            (Deed::Read("a"), "30 Device"),
            (Deed::Piece("b", 0), "30 Device"),
        ],
        disk: &[],
        failures: 3,
    },
    Row {
        name: "short and interrupted writes",
        script: &[W, W, W, THREE, I, ONE, I, I, ONE],
        deeds: &[
            (Deed::Write("c", "abcdefgh"), "done"),
            (Deed::Read("c"), "abcdefgh"),
        ],
        disk: &[("c", "abcdefgh")],
        failures: 0,
    },
    Row {
        name: "a write that fails after a part of the bytes",
        script: &[W, W, W, THREE, F],
        deeds: &[(Deed::Write("c", "abcdefgh"), "30 Device")],
        disk: &[("c", "abc")],
        failures: 1,
    },
    Row {
        name: "a left-over is removed, and not written into",
        script: &[],
        deeds: &[(Deed::Write("a", "new"), "done")],
        disk: &[("a", "new")],
        failures: 0,
    },
    Row {
        name: "a left-over that another program has claimed stays",
        script: &[W, W, W, Turn::Claimed],
        deeds: &[(Deed::Write("a", "new"), "30 Device")],
        disk: &[("a", "abcdefgh")],
        failures: 1,
    },
    Row {
        name: "a new file that another program has claimed is made anew",
        script: &[W, Turn::Claimed],
        deeds: &[(Deed::Write("c", "new"), "done")],
        disk: &[("c", "new")],
        failures: 0,
    },
    Row {
        name: "a directory that is missing is made",
        script: &[Turn::NoDirectory, W, W, W, W, W, Turn::NoDirectory],
        deeds: &[
            (Deed::Write("d/c", "new"), "done"),
            (Deed::Create("e/c", "new"), "done"),
        ],
        disk: &[("d/c", "new"), ("e/c", "new"), ("dated", "e/c")],
        failures: 0,
    },
    Row {
        name: "a directory that can't be made",
        script: &[Turn::NoDirectory, F],
        deeds: &[(Deed::Create("e/c", "new"), "30 Device")],
        disk: &[("e/c", "none"), ("dated", "")],
        failures: 1,
    },
    Row {
        name: "a file that is there is not created, and gets no other time",
        script: &[],
        deeds: &[
            (Deed::Create("a", "new"), "done"),
            (Deed::Create("c", "new"), "done"),
        ],
        disk: &[("a", "abcdefgh"), ("c", "new"), ("dated", "c")],
        failures: 0,
    },
    Row {
        name: "a creation that fails after a part of the bytes",
        script: &[W, ONE, F],
        deeds: &[(Deed::Create("c", "new"), "30 Device")],
        disk: &[("c", "n"), ("dated", "")],
        failures: 1,
    },
    Row {
        name: "a move that fails",
        script: &[W, W, W, W, F],
        deeds: &[
            (Deed::Write("c", "new"), "done"),
            (Deed::Move("c", "a"), "30 Device"),
        ],
        disk: &[("a", "abcdefgh"), ("c", "new")],
        failures: 1,
    },
    Row {
        name: "files are made older than all others, and a missing one is passed over",
        script: &[],
        deeds: &[(Deed::Backdate("a"), "done"), (Deed::Backdate("b"), "done")],
        disk: &[("aged", "a b"), ("a", "abcdefgh"), ("b", "none")],
        failures: 0,
    },
];

fn move_file<T: Tree>(alloc: Global, tree: &mut T, from: &str, to: &str) -> Result<(), TreeFault> {
    let (from, to) = (from.as_bytes(), to.as_bytes());
    if from != to && tree.read(alloc, from)?.is_some() {
        tree.rename(alloc, from, to)?;
    }
    Ok(())
}

/// What comes of a deed: what was read, `done`, or the fault.
fn answer<T: Backdating>(
    alloc: Global,
    tree: &mut T,
    deed: Deed<'_>,
) -> Result<String, AllocError> {
    let outcome = match deed {
        Deed::Read(path) => read(alloc, tree, path),
        Deed::Piece(path, offset) => piece(alloc, tree, path, offset),
        Deed::Write(path, bytes) => {
            done(alloc, tree.write(alloc, path.as_bytes(), bytes.as_bytes()))
        }
        Deed::Create(path, bytes) => {
            done(alloc, tree.create(alloc, path.as_bytes(), bytes.as_bytes()))
        }
        Deed::Move(from, to) => {
            let outcome = move_file(alloc, tree, from, to);
            done(alloc, outcome)
        }
        Deed::Backdate(path) => done(alloc, tree.backdate(alloc, path.as_bytes())),
    };
    match outcome {
        Ok(text) => Ok(text),
        Err(fault) => fault.to_string(alloc),
    }
}

/// Paths with a blank between them.
fn listed(alloc: Global, paths: &[Vec<u8>]) -> Result<String, AllocError> {
    let mut text = String::new(alloc);
    for path in paths {
        if !text.is_empty() {
            text.push(' ')?;
        }
        text.push_str(str::from_utf8(path).unwrap_or("not text"))?;
    }
    Ok(text)
}

/// What a disk has at a path, or which files were aged or dated.
fn found(alloc: Global, disk: &MockDisk<'_>, path: &str) -> Result<String, AllocError> {
    match path {
        "aged" => return listed(alloc, disk.backdated()),
        "dated" => return listed(alloc, disk.dated()),
        _ => {}
    }
    let text = match disk.get(path.as_bytes()) {
        Some(bytes) => str::from_utf8(bytes).unwrap_or("not text"),
        None => "none",
    };
    String::from_str(alloc, text)
}

/// What was found is what a row wants.
fn check(rt: &impl Abort, row: &Row<'_>, found: &str, want: &str) {
    let name = row.name;
    assert!(rt; found == want, "{name}: found {found}, wanted {want}");
}

/// The deeds of a row, one after another, each with the answer that is wanted; and how often the tree has then failed.
fn play<S: System + Drop>(
    rt: &impl Abort,
    alloc: Global,
    tree: &mut SystemTree<S>,
    row: &Row<'_>,
) -> Result<(), AllocError> {
    for (deed, want) in row.deeds {
        let got = answer(alloc, tree, *deed)?;
        check(rt, row, got.as_str(), *want);
    }
    assert!(rt; tree.failures() == row.failures, "{}", row.name);
    Ok(())
}

/// The disk has what a row wants.
fn check_disk(
    rt: &impl Abort,
    alloc: Global,
    disk: &MockDisk<'_>,
    row: &Row<'_>,
) -> Result<(), AllocError> {
    for (path, want) in row.disk {
        let got = found(alloc, disk, *path)?;
        check(rt, row, got.as_str(), *want);
    }
    Ok(())
}

fn run(rt: &impl Abort, alloc: Global, row: &Row<'_>) -> Result<(), AllocError> {
    let mut disk = MockDisk::new(alloc, row.script);
    disk.put(b"a", b"abcdefgh")?;
    let mut tree = SystemTree::over(disk);
    play(rt, alloc, &mut tree, row)?;
    check_disk(rt, alloc, &tree.into_system(), row)
}

#[test]
fn scripts(rt: HostRuntime) -> Result<(), Fail> {
    for row in ROWS {
        run(&rt, rt.alloc(), row)?;
    }
    Ok(())
}
