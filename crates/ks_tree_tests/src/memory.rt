//! The tree in memory, and the forms of stamps over it.
use crate::steps::{STEPS, Step, check, run};
use ks_tree::{MemoryTree, Tree, TreeFault};
use std::alloc::{AllocError, Global};
use std::process::Abort;
use std::test::Fail;

#[test]
fn keeps_files(rt: HostRuntime) -> Result<(), Fail> {
    let mut tree = MemoryTree::new(rt.alloc());
    run(&rt, rt.alloc(), &mut tree, STEPS)?;
    Ok(())
}

/// What a stamp holds, and what is read of it.
const STAMPS: &[(&str, &str)] = &[
    ("", "0"),
    ("0\n", "0"),
    ("7\n", "7"),
    ("18446744073709551615\n", "18446744073709551615"),
    ("18446744073709551616\n", "31 BadStamp A_1"),
    ("01\n", "31 BadStamp A_1"),
    ("7", "31 BadStamp A_1"),
    ("7\r\n", "31 BadStamp A_1"),
    ("+7\n", "31 BadStamp A_1"),
    ("7\n\n", "31 BadStamp A_1"),
    ("\n", "31 BadStamp A_1"),
];

/// What is read of a stamp that holds a text.
fn stamp_is_read(
    rt: &impl Abort,
    alloc: Global,
    stamp: &str,
    want: &str,
) -> Result<(), AllocError> {
    let steps = [
        (Step::Write("include/config/A_1", stamp), "done"),
        (Step::Stamp("A_1"), want),
    ];
    run(rt, alloc, &mut MemoryTree::new(alloc), &steps)
}

#[test]
fn stamps_are_read(rt: HostRuntime) -> Result<(), Fail> {
    for &(stamp, want) in STAMPS {
        stamp_is_read(&rt, rt.alloc(), stamp, want)?;
    }
    Ok(())
}

const PATHS: &[&str] = &["b", "a/c", "", "a", "B", "a"];

/// A tree with a file at each of these paths.
fn six_files(alloc: Global) -> Result<MemoryTree, TreeFault> {
    let mut tree = MemoryTree::new(alloc);
    for path in PATHS {
        tree.write(alloc, path.as_bytes(), b"x")?;
    }
    Ok(tree)
}

fn add_file(list: &mut String, path: &[u8], bytes: &[u8]) -> Result<(), Fail> {
    list.push_str(str::from_utf8(path)?)?;
    list.push('=')?;
    list.push_str(str::from_utf8(bytes)?)?;
    list.push(' ')?;
    Ok(())
}

/// The files of a tree, in its order.
fn listed(alloc: Global, tree: &MemoryTree) -> Result<String, Fail> {
    let mut list = String::new(alloc);
    for (path, bytes) in tree.files() {
        add_file(&mut list, path, bytes)?;
    }
    Ok(list)
}

#[test]
fn borrows_its_files_in_order(rt: HostRuntime) -> Result<(), Fail> {
    let tree = six_files(rt.alloc())?;
    let list = listed(rt.alloc(), &tree)?;
    check(&rt, list.as_str(), "=x B=x a=x a/c=x b=x ");
    Ok(())
}
