//! Where files stand, by worked examples, and the texts of refusals.
use crate::steps::check;
use ks_tree::{
    TreeError, TreeFault, auto_path, auto_temporary, command_path, command_temporary, header_path,
    header_temporary, paths_never_meet, stamp_temporary,
};
use std::alloc::{AllocError, Global};
use std::process::Abort;
use std::test::Fail;

/// A target, and the path of its command file.
const COMMAND_PATHS: &[(&str, &str)] = &[
    ("x.o", ".x.o.cmd"),
    ("d/x.o", "d/.x.o.cmd"),
    ("/a/b/x", "/a/b/.x.cmd"),
    ("include/config/A", "include/config/.A.cmd"),
    ("a/", "a/..cmd"),
    ("", "..cmd"),
];

/// The command file of a target stands at its path, and is written beside it.
fn check_paths(rt: &impl Abort, alloc: Global, target: &str, want: &str) -> Result<(), AllocError> {
    let path = command_path(alloc, target.as_bytes())?;
    assert!(rt; path.as_slice() == want.as_bytes(), "{target}");
    let temporary = command_temporary(alloc, target.as_bytes())?;
    let added = temporary.strip_prefix(want.as_bytes());
    assert!(rt; added == Some(b".tmp".as_slice()), "{target}");
    Ok(())
}

#[test]
fn stands_at(rt: HostRuntime) -> Result<(), Fail> {
    for &(target, want) in COMMAND_PATHS {
        check_paths(&rt, rt.alloc(), target, want)?;
    }
    paths_never_meet();
    Ok(())
}

#[test]
fn fixed_paths(rt: HostRuntime) {
    for (path, want) in [
        (stamp_temporary(), "include/config/stamp.tmp"),
        (auto_path(), "include/config/auto.conf"),
        (auto_temporary(), "include/config/auto.conf.tmp"),
        (header_path(), "include/generated/autoconf.h"),
        (header_temporary(), "include/generated/autoconf.h.tmp"),
    ] {
        assert!(rt; path == want.as_bytes(), "{want}");
    }
}

const REFUSALS: &[(TreeFault, &str)] = &[
    (TreeFault::TooLarge, "9 TooLarge"),
    (TreeFault::OutOfMemory, "10 OutOfMemory"),
    (TreeFault::Device, "30 Device"),
];

#[test]
fn refusals_are_spelled(rt: HostRuntime) -> Result<(), Fail> {
    for &(fault, want) in REFUSALS {
        let text = fault.to_string(rt.alloc())?;
        check(&rt, text.as_str(), want);
        let text = TreeError::from(fault).to_string(rt.alloc())?;
        check(&rt, text.as_str(), want);
    }
    Ok(())
}
