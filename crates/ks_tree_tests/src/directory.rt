//! The tree of a directory, in a fresh one below the system's directory for temporary files: what it does, what others do beside it, and
//! what is then seen. Most tests are a scene, a row of deeds.
use crate::steps::{STEPS, Step, check, run};
use ks_symbols::MAX_BYTES;
use ks_system::{FolderTree, System, SystemTree};
use ks_tree::{Backdating, Tree, TreeFault};
use std::alloc::{AllocError, Global};
use std::fs::OpenOptions;
use std::io::Write;
use std::os::unix::fs::{MetadataExt, PermissionsExt, symlink};
use std::process::Abort;
use std::test::Fail;
use std::{env, fs, io, process};

/// What others do at a place.
#[derive(Clone, Copy)]
enum Act<'a> {
    Append(&'a str),
    Put(&'a str),
    LinkTo(&'a str),
    HardLinkOf(&'a str),
    MakeDirectory,
    Mode(u32),
    SetLength(u64),
}

/// One thing done in a directory, or seen there.
#[derive(Clone, Copy)]
enum Deed<'a> {
    /// Steps of the tree.
    Steps(&'a [(Step<'a>, &'a str)]),
    /// An act of others, at a path below the directory.
    Others(&'a str, Act<'a>),
    /// What the tree reads at the place of a path, named from the root of the system on.
    Absolute(&'a str, &'a str),
    /// Whatever is left over at a path is replaced by a file, and what it linked to stays.
    Replaced(&'a str),
    /// How many bytes the tree reads.
    HasLength(&'a str, usize),
    /// A path that is no text is read, which fails.
    NoText,
    /// The file at a path is aged, or it fails.
    Backdate(&'a str, bool),
    /// The time of a file is the first second of 1970.
    IsLongPast(&'a str),
    /// Two files have one mode.
    HaveOneMode(&'a str, &'a str),
    /// What is reported of the last failure.
    Reported(&'a str),
    Failures(u64),
}

/// A new directory of this test alone. The test removes it at its end.
fn fresh_directory(rt: &HostRuntime, test: &str) -> io::Result<String> {
    let alloc = rt.alloc();
    let base = env::temp_dir(rt)?;
    let id = process::id(rt.process());
    let host_path = format!(in alloc; "{}/ks_tree-{test}-{id}", base.as_path().as_str())?;
    let _ = fs::remove_dir_all(rt, host_path.as_str());
    fs::create_dir(rt, host_path.as_str())?;
    Ok(host_path)
}

/// Adds text at the end of a file, as another program does.
fn append(rt: &HostRuntime, host_path: &str, text: &str) -> io::Result<()> {
    OpenOptions::new()
        .append(true)
        .open(rt, host_path)?
        .write_all(text.as_bytes())
}

fn set_length(rt: &HostRuntime, host_path: &str, length: u64) -> io::Result<()> {
    OpenOptions::new()
        .write(true)
        .open(rt, host_path)?
        .set_len(length)
}

fn hard_link(rt: &HostRuntime, root: &str, from: &str, host_path: &str) -> io::Result<()> {
    let from = format!(in rt.alloc(); "{root}/{from}")?;
    fs::hard_link(rt, from.as_str(), host_path)
}

fn others_do(rt: &HostRuntime, root: &str, path: &str, act: Act<'_>) -> io::Result<()> {
    let host_path = format!(in rt.alloc(); "{root}/{path}")?;
    let host_path = host_path.as_str();
    match act {
        Act::Append(text) => append(rt, host_path, text),
        Act::Put(text) => fs::write(rt, host_path, text),
        Act::LinkTo(target) => symlink(rt, target, host_path),
        Act::HardLinkOf(from) => hard_link(rt, root, from, host_path),
        Act::MakeDirectory => fs::create_dir(rt, host_path),
        Act::Mode(mode) => fs::set_permissions(rt, host_path, fs::Permissions::from_mode(mode)),
        Act::SetLength(length) => set_length(rt, host_path, length),
    }
}

/// Whether a path is that of a file with no other name.
fn is_alone(rt: &HostRuntime, root: &str, path: &str) -> io::Result<bool> {
    let host_path = format!(in rt.alloc(); "{root}/{path}")?;
    let found = fs::symlink_metadata(rt, host_path.as_str())?;
    Ok(found.is_file() && found.nlink() == 1)
}

fn is_long_past(rt: &HostRuntime, root: &str, path: &str) -> io::Result<bool> {
    let host_path = format!(in rt.alloc(); "{root}/{path}")?;
    Ok(fs::metadata(rt, host_path.as_str())?.mtime() == 1)
}

fn mode_of(rt: &HostRuntime, root: &str, path: &str) -> io::Result<u32> {
    let host_path = format!(in rt.alloc(); "{root}/{path}")?;
    Ok(fs::metadata(rt, host_path.as_str())?.permissions().mode())
}

fn replaced<S: System + Drop>(
    host: &HostRuntime,
    rt: &impl Abort,
    root: &str,
    tree: &mut SystemTree<S>,
    path: &str,
) -> io::Result<()> {
    let steps = [
        (Step::Write(path, "new"), "done"),
        (Step::Read(path), "new"),
        (Step::Read("other"), "kept"),
        (Step::Read("nowhere"), "none"),
    ];
    run(rt, host.alloc(), tree, &steps)?;
    let alone = is_alone(host, root, path)?;
    assert!(rt; alone, "{path}");
    Ok(())
}

fn absolute<S: System + Drop>(
    host: &HostRuntime,
    rt: &impl Abort,
    root: &str,
    tree: &mut SystemTree<S>,
    path: &str,
    want: &str,
) -> io::Result<()> {
    let host_path = format!(in host.alloc(); "{root}/{path}")?;
    let steps = [(Step::Read(host_path.as_str()), want)];
    run(rt, host.alloc(), tree, &steps)?;
    Ok(())
}

fn has_length<S: System + Drop>(
    rt: &impl Abort,
    alloc: Global,
    tree: &mut SystemTree<S>,
    path: &str,
    want: usize,
) {
    let length = match tree.read(alloc, path.as_bytes()) {
        Ok(Some(bytes)) => Some(bytes.len()),
        _ => None,
    };
    assert!(rt; length == Some(want), "{path}");
}

fn no_text<S: System + Drop>(rt: &impl Abort, alloc: Global, tree: &mut SystemTree<S>) {
    let read = tree.read(alloc, b"\xff");
    assert!(rt; matches!(read, Err(TreeFault::Device)), "not text");
    assert!(rt; tree.last_error().is_none(), "no path to tell");
}

fn backdate<S: System + Drop>(
    rt: &impl Abort,
    alloc: Global,
    tree: &mut SystemTree<S>,
    path: &str,
    passes: bool,
) {
    let backdated = tree.backdate(alloc, path.as_bytes());
    assert!(rt; backdated.is_ok() == passes, "{path}");
}

/// How often a tree has failed. (The prover knows no shared borrow of a tree of this type.)
fn failures_of<S: System + Drop>(tree: &mut SystemTree<S>) -> u64 {
    tree.failures()
}

/// What is reported of the last failure.
fn reported<S: System + Drop>(
    alloc: Global,
    tree: &mut SystemTree<S>,
) -> Result<String, AllocError> {
    match tree.last_error() {
        Some(fault) => fault.describe(alloc),
        None => String::from_str(alloc, "none"),
    }
}

fn check_reported<S: System + Drop>(
    rt: &impl Abort,
    alloc: Global,
    tree: &mut SystemTree<S>,
    want: &str,
) -> io::Result<()> {
    let found = reported(alloc, tree)?;
    check(rt, found.as_str(), want);
    Ok(())
}

fn check_long_past(host: &HostRuntime, rt: &impl Abort, root: &str, path: &str) -> io::Result<()> {
    let found = is_long_past(host, root, path)?;
    assert!(rt; found, "{path}");
    Ok(())
}

fn check_modes(
    host: &HostRuntime,
    rt: &impl Abort,
    root: &str,
    one: &str,
    other: &str,
) -> io::Result<()> {
    let modes = (mode_of(host, root, one)?, mode_of(host, root, other)?);
    assert!(rt; modes.0 == modes.1, "{one}");
    Ok(())
}

fn check_failures<S: System + Drop>(rt: &impl Abort, tree: &mut SystemTree<S>, want: u64) {
    let failures = tree.failures();
    assert!(rt; failures == want, "{failures} failures");
}

/// Takes steps of the tree.
fn take_steps<S: System + Drop>(
    rt: &impl Abort,
    alloc: Global,
    tree: &mut SystemTree<S>,
    steps: &[(Step<'_>, &str)],
) -> io::Result<()> {
    run(rt, alloc, tree, steps)?;
    Ok(())
}

fn do_deed<S: System + Drop>(
    host: &HostRuntime,
    rt: &impl Abort,
    root: &str,
    tree: &mut SystemTree<S>,
    deed: Deed<'_>,
) -> io::Result<()> {
    match deed {
        Deed::Steps(steps) => take_steps(rt, host.alloc(), tree, steps),
        Deed::Others(path, act) => others_do(host, root, path, act),
        Deed::Absolute(path, want) => absolute(host, rt, root, tree, path, want),
        Deed::Replaced(path) => replaced(host, rt, root, tree, path),
        Deed::HasLength(path, want) => {
            has_length(rt, host.alloc(), tree, path, want);
            Ok(())
        }
        Deed::NoText => {
            no_text(rt, host.alloc(), tree);
            Ok(())
        }
        Deed::Backdate(path, passes) => {
            backdate(rt, host.alloc(), tree, path, passes);
            Ok(())
        }
        Deed::IsLongPast(path) => check_long_past(host, rt, root, path),
        Deed::HaveOneMode(one, other) => check_modes(host, rt, root, one, other),
        Deed::Reported(want) => check_reported(rt, host.alloc(), tree, want),
        Deed::Failures(want) => {
            check_failures(rt, tree, want);
            Ok(())
        }
    }
}

/// Does the deeds one after another.
fn do_deeds<S: System + Drop>(
    host: &HostRuntime,
    rt: &impl Abort,
    root: &str,
    tree: &mut SystemTree<S>,
    deeds: &[Deed<'_>],
) -> io::Result<()> {
    for deed in deeds {
        do_deed(host, rt, root, tree, *deed)?;
    }
    Ok(())
}

/// The tree of a directory.
fn tree_of<'a>(
    host: &'a HostRuntime,
    root: &str,
) -> Result<FolderTree<&'a HostRuntime>, AllocError> {
    let root = String::from_str(host.alloc(), root)?;
    Ok(FolderTree::new(host, root))
}

/// Does the deeds with a tree in a directory.
fn play(host: &HostRuntime, rt: &impl Abort, root: &str, deeds: &[Deed<'_>]) -> io::Result<()> {
    let mut tree = tree_of(host, root)?;
    do_deeds(host, rt, root, &mut tree, deeds)
}

/// Plays a scene in a directory of its own.
fn scene(host: &HostRuntime, rt: &impl Abort, name: &str, deeds: &[Deed<'_>]) -> Result<(), Fail> {
    let root = fresh_directory(host, name)?;
    play(host, rt, root.as_str(), deeds)?;
    fs::remove_dir_all(host, root.as_str())?;
    Ok(())
}

const KEPT_FILES: &[Deed<'_>] = &[
    Deed::Steps(STEPS),
    Deed::Steps(&[
        (Step::Write("a/b/c", "missing directories are made"), "done"),
        (Step::Read("a/b/c"), "missing directories are made"),
        (Step::Read("no/file"), "none"),
    ]),
    Deed::Absolute("e", "new"),
    // a stamp that was made is older than all that was built before
    Deed::IsLongPast("include/config/B"),
    Deed::Failures(0),
];

#[test]
fn keeps_files(rt: HostRuntime) -> Result<(), Fail> {
    scene(&rt, &rt, "keeps_files", KEPT_FILES)
}

const LET_GO: &[Deed<'_>] = &[
    Deed::Steps(&[
        (Step::Write("p", "one"), "done"),
        (Step::Piece("p", 0), "3 one..."),
        (Step::Write("p", "two"), "done"),
        (Step::Piece("p", 0), "3 two..."),
        (Step::Write("q", "other"), "done"),
        (Step::Piece("p", 0), "3 two..."),
        (Step::Move("q", "p"), "done"),
        (Step::Piece("p", 0), "5 other."),
        (Step::Piece("p", 5), "0 ......"),
    ]),
    Deed::Others("p", Act::Append(" and more")),
    Deed::Steps(&[
        (Step::Piece("p", 5), "6  and m"),
        (Step::Write("q", "third"), "done"),
        (Step::Piece("p", 11), "3 ore..."),
        (Step::Piece("q", 1), "4 hird.."),
    ]),
    Deed::Failures(0),
];

#[test]
fn the_kept_file_is_let_go(rt: HostRuntime) -> Result<(), Fail> {
    scene(&rt, &rt, "kept", LET_GO)
}

const PIECES: &[Deed<'_>] = &[
    Deed::Steps(&[
        (Step::Write("p", "abcdefghij"), "done"),
        (Step::Write("q", "0123456789"), "done"),
        // after the last piece, before it, at the end and past it
        (Step::Piece("p", 0), "6 abcdef"),
        (Step::Piece("p", 6), "4 ghij.."),
        (Step::Piece("p", 2), "6 cdefgh"),
        (Step::Piece("p", 8), "2 ij...."),
        (Step::Piece("p", 10), "0 ......"),
        (Step::Piece("p", 11), "0 ......"),
        (Step::Piece("p", 4), "6 efghij"),
        (Step::Piece("p", 9), "1 j....."),
        // two files in turns
        (Step::Piece("p", 0), "6 abcdef"),
        (Step::Piece("q", 0), "6 012345"),
        (Step::Piece("p", 6), "4 ghij.."),
        (Step::Piece("q", 6), "4 6789.."),
        (Step::Piece("none", 6), "none"),
        (Step::Piece("q", 8), "2 89...."),
        // written and moved over between two pieces
        (Step::Piece("p", 0), "6 abcdef"),
        (Step::Write("p", "ABCDEFGHIJ"), "done"),
        (Step::Piece("p", 6), "4 GHIJ.."),
        (Step::Piece("p", 0), "6 ABCDEF"),
        (Step::Move("q", "p"), "done"),
        (Step::Piece("p", 6), "4 6789.."),
    ]),
    Deed::Failures(0),
];

#[test]
fn pieces_are_as_without_reading_ahead(rt: HostRuntime) -> Result<(), Fail> {
    scene(&rt, &rt, "ahead", PIECES)
}

const OTHERS_WRITE: &[Deed<'_>] = &[
    Deed::Steps(&[
        (Step::Write("p", "abcdefgh"), "done"),
        (Step::Piece("p", 0), "6 abcdef"),
    ]),
    Deed::Others("p", Act::Append("IJKL")),
    Deed::Steps(&[
        (Step::Piece("p", 6), "6 ghIJKL"),
        (Step::Piece("p", 12), "0 ......"),
    ]),
    Deed::Others("p", Act::Append("mn")),
    Deed::Steps(&[(Step::Piece("p", 12), "2 mn....")]),
    Deed::Others("p", Act::Put("short")),
    Deed::Steps(&[
        (Step::Piece("p", 0), "5 short."),
        (Step::Piece("p", 5), "0 ......"),
    ]),
];

#[test]
fn what_others_write_is_seen(rt: HostRuntime) -> Result<(), Fail> {
    scene(&rt, &rt, "others", OTHERS_WRITE)
}

/// The bytes of a large file.
fn many_bytes(alloc: Global) -> Result<Vec<u8>, AllocError> {
    let mut bytes = Vec::new(alloc);
    for number in 0..50_000_u32 {
        bytes.extend_from_slice(&number.wrapping_mul(2_654_435_761).to_le_bytes())?;
    }
    Ok(bytes)
}

/// What the tree reads of a large file in so many pieces of a size.
fn read_in_pieces<S: System + Drop>(
    alloc: Global,
    tree: &mut SystemTree<S>,
    size: usize,
    pieces: usize,
) -> Result<Vec<u8>, TreeFault> {
    let mut buffer = vec![in alloc; 0; size]?;
    let mut read = Vec::new(alloc);
    for _ in 0..pieces {
        let Some(count) = tree.read_at(alloc, b"large", read.len() as u64, &mut buffer)? else {
            break;
        };
        read.extend_from_slice(&buffer[..count])?;
    }
    Ok(read)
}

/// Sizes of pieces, and how many of each are read.
const SIZES: &[(usize, usize)] = &[(4096, 49), (1000, 201), (65536, 4), (70_000, 3)];

fn read_at_each_size<S: System + Drop>(
    rt: &impl Abort,
    alloc: Global,
    tree: &mut SystemTree<S>,
    bytes: &[u8],
) -> Result<(), TreeFault> {
    tree.write(alloc, b"large", bytes)?;
    for &(size, pieces) in SIZES {
        let read = read_in_pieces(alloc, tree, size, pieces)?;
        assert!(rt; read.as_slice() == bytes, "{size}");
    }
    check_failures(rt, tree, 0);
    Ok(())
}

fn large_file(host: &HostRuntime, rt: &impl Abort, root: &str) -> Result<(), TreeFault> {
    let bytes = many_bytes(host.alloc())?;
    let mut tree = tree_of(host, root)?;
    read_at_each_size(rt, host.alloc(), &mut tree, &bytes)
}

#[test]
fn a_large_file_in_pieces(rt: HostRuntime) -> Result<(), Fail> {
    let root = fresh_directory(&rt, "large")?;
    large_file(&rt, &rt, root.as_str())?;
    fs::remove_dir_all(&rt, root.as_str())?;
    Ok(())
}

const FAILURES: &[Deed<'_>] = &[
    Deed::Steps(&[
        (Step::Write("file", "bytes"), "done"),
        (Step::Write("directory/file", "bytes"), "done"),
        (Step::Read("file/below"), "30 Device"),
        (Step::Piece("file/below", 0), "30 Device"),
        (Step::Write("file/below", ""), "30 Device"),
        (Step::Read("directory"), "30 Device"),
        (Step::Piece("directory", 0), "30 Device"),
        (Step::Write("directory", ""), "30 Device"),
        (Step::Move("file", "directory"), "30 Device"),
        (Step::Replace("directory", "x"), "30 Device"),
        (Step::Read("a\0b"), "30 Device"),
        (Step::Read("file"), "bytes"),
    ]),
    Deed::Failures(9),
    Deed::NoText,
    Deed::Failures(10),
];

#[test]
fn failures_are_counted(rt: HostRuntime) -> Result<(), Fail> {
    scene(&rt, &rt, "failures", FAILURES)
}

const REPORTED: &[Deed<'_>] = &[
    Deed::Others("loop", Act::LinkTo("loop")),
    Deed::Steps(&[
        (Step::Write("file", "bytes"), "done"),
        (Step::Write("directory/file", "bytes"), "done"),
    ]),
    Deed::Reported("none"),
    Deed::Steps(&[(Step::Read("directory"), "30 Device")]),
    Deed::Reported("directory: Is a directory"),
    Deed::Steps(&[(Step::Piece("directory", 0), "30 Device")]),
    Deed::Reported("directory: Is a directory"),
    Deed::Steps(&[(Step::Piece("file/below", 0), "30 Device")]),
    Deed::Reported("file/below: Not a directory"),
    Deed::Steps(&[(Step::Piece("loop", 0), "30 Device")]),
    Deed::Reported("loop: Too many levels of symbolic links"),
];

#[test]
fn the_last_failure_is_reported(rt: HostRuntime) -> Result<(), Fail> {
    scene(&rt, &rt, "told", REPORTED)
}

const DEVICES: &[Deed<'_>] = &[
    Deed::Steps(&[
        (
            Step::Write("/dev/null", "no device is removed"),
            "30 Device",
        ),
        (Step::Read("/dev/null"), ""),
        (Step::Read("/dev/zero"), "30 Device"),
    ]),
    Deed::Failures(2),
];

#[test]
fn devices(rt: HostRuntime) -> Result<(), Fail> {
    if fs::exists(&rt, "/dev/null")? && fs::exists(&rt, "/dev/zero")? {
        play(&rt, &rt, "", DEVICES)?;
    } else {
        println!(rt; "skipped: no such devices here")?;
    }
    Ok(())
}

const LEFT_OVER: &[Deed<'_>] = &[
    Deed::Steps(&[(Step::Write("other", "kept"), "done")]),
    Deed::Others("link", Act::LinkTo("other")),
    Deed::Others("dangling", Act::LinkTo("nowhere")),
    Deed::Others("hard_link", Act::HardLinkOf("other")),
    Deed::Others("empty", Act::MakeDirectory),
    Deed::Others("longer", Act::Put("longer than what is written")),
    Deed::Others("longer", Act::Mode(0)),
    Deed::Replaced("link"),
    Deed::Replaced("dangling"),
    Deed::Replaced("hard_link"),
    Deed::Replaced("empty"),
    Deed::Replaced("longer"),
    Deed::Failures(0),
];

#[test]
fn what_is_left_over_is_not_written_into(rt: HostRuntime) -> Result<(), Fail> {
    scene(&rt, &rt, "left_over", LEFT_OVER)
}

/// What the first of two writers does, and then the second, turn by turn.
const TURNS: &[(&[(Step<'_>, &str)], &[(Step<'_>, &str)])] = &[
    (
        &[(Step::Write("t", "first"), "done")],
        &[
            (Step::Write("t", "second"), "30 Device"),
            (Step::Read("t"), "first"),
        ],
    ),
    (
        &[(Step::Move("t", "x"), "done")],
        &[
            (Step::Write("t", "second"), "done"),
            (Step::Read("x"), "first"),
            (Step::Write("x", "no file that counts is claimed"), "done"),
        ],
    ),
    (&[(Step::Write("t", "third"), "done")], &[]),
];

fn take_turns<S: System + Drop>(
    rt: &impl Abort,
    alloc: Global,
    first: &mut SystemTree<S>,
    second: &mut SystemTree<S>,
) -> Result<(), AllocError> {
    for &(one, other) in TURNS {
        run(rt, alloc, first, one)?;
        run(rt, alloc, second, other)?;
    }
    check_failures(rt, first, 0);
    check_failures(rt, second, 1);
    Ok(())
}

fn two_writers(host: &HostRuntime, rt: &impl Abort, root: &str) -> Result<(), AllocError> {
    let mut first = tree_of(host, root)?;
    let mut second = tree_of(host, root)?;
    take_turns(rt, host.alloc(), &mut first, &mut second)
}

#[test]
fn of_two_writers_one_is_refused(rt: HostRuntime) -> Result<(), Fail> {
    let root = fresh_directory(&rt, "two")?;
    two_writers(&rt, &rt, root.as_str())?;
    fs::remove_dir_all(&rt, root.as_str())?;
    Ok(())
}

/// What comes of a file written to a directory without permission: a counted failure, unless this user may write everywhere.
fn write_without_permission<S: System + Drop>(
    host: &HostRuntime,
    rt: &impl Abort,
    tree: &mut SystemTree<S>,
) -> io::Result<()> {
    match tree.write(host.alloc(), b"x", b"x") {
        Ok(()) => println!(host; "skipped: this user may write into every directory")?,
        Err(fault) => {
            assert!(rt; fault == TreeFault::Device && failures_of(tree) == 1);
        }
    }
    Ok(())
}

fn without_permission(host: &HostRuntime, rt: &impl Abort, root: &str) -> io::Result<()> {
    others_do(host, root, "", Act::Mode(0o555))?;
    write_without_permission(host, rt, &mut tree_of(host, root)?)?;
    others_do(host, root, "", Act::Mode(0o755))
}

#[test]
fn a_directory_without_permission(rt: HostRuntime) -> Result<(), Fail> {
    let root = fresh_directory(&rt, "permission")?;
    without_permission(&rt, &rt, root.as_str())?;
    fs::remove_dir_all(&rt, root.as_str())?;
    Ok(())
}

const UP_TO_THE_LIMIT: &[Deed<'_>] = &[
    Deed::Steps(&[(Step::Touch("A", 1), "done")]),
    Deed::Others("include/config/A", Act::SetLength(67_108_864)),
    Deed::HasLength("include/config/A", MAX_BYTES),
    Deed::Others("include/config/A", Act::SetLength(67_108_865)),
    Deed::Steps(&[
        (Step::Read("include/config/A"), "9 TooLarge"),
        (Step::Stamp("A"), "9 TooLarge"),
        (Step::Piece("include/config/A", 67_108_860), "5 \0\0\0\0\0."),
    ]),
    Deed::Failures(0),
];

#[test]
fn reads_up_to_the_limit(rt: HostRuntime) -> Result<(), Fail> {
    scene(&rt, &rt, "limit", UP_TO_THE_LIMIT)
}

const BACKDATED: &[Deed<'_>] = &[
    Deed::Others("x.o", Act::Put("object")),
    Deed::Others("y.o", Act::LinkTo("x.o")),
    Deed::Others("directory", Act::MakeDirectory),
    Deed::Others("locked.o", Act::Put("object")),
    Deed::Others("locked.o", Act::Mode(0o444)),
    Deed::Backdate("x.o", true),
    Deed::IsLongPast("x.o"),
    Deed::Steps(&[(Step::Read("x.o"), "object"), (Step::Read("y.o"), "object")]),
    // what nobody may write can be aged by whom it belongs to
    Deed::Backdate("locked.o", true),
    Deed::IsLongPast("locked.o"),
    // where there is no file there is none afterwards, and that is no failure
    Deed::Backdate("none.o", true),
    Deed::Backdate("no/where.o", true),
    Deed::Steps(&[(Step::Read("none.o"), "none")]),
    Deed::Failures(0),
    Deed::Backdate("nowhere/below", true),
    Deed::Backdate("x.o/below", false),
    Deed::Reported("x.o/below: Not a directory"),
    Deed::Backdate("directory", false),
    Deed::Reported("directory: Is a directory"),
    Deed::Failures(2),
    // a file that was read ahead is as it was
    Deed::Steps(&[
        (Step::Write("z.o", "new"), "done"),
        (Step::Read("z.o"), "new"),
    ]),
    Deed::Backdate("z.o", true),
    Deed::Steps(&[(Step::Read("z.o"), "new")]),
];

#[test]
fn a_file_is_backdated(rt: HostRuntime) -> Result<(), Fail> {
    scene(&rt, &rt, "aged", BACKDATED)
}

const USUAL: &[Deed<'_>] = &[
    Deed::Steps(&[(Step::Touch("A", 1), "done")]),
    Deed::Others("usual", Act::Put("x")),
    Deed::HaveOneMode("include/config/A", "usual"),
];

#[test]
fn a_stamp_is_a_usual_file(rt: HostRuntime) -> Result<(), Fail> {
    scene(&rt, &rt, "usual", USUAL)
}
