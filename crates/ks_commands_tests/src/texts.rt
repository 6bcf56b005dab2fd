//! From texts to texts, without the arguments of a command line: what previews print, and why there is none; what differs from
//! auto.conf; and scripts whose lines name files more than once.
use crate::steps::{Run, check_text, run_asked, without_hint};
use ks_engine::{ConfigForm, ConfigTexts};
use ks_requests::{ConfigPaths, PreviewError, ReportStyle, Request, preview_to};
use ks_symbols::{Dialect, Seed};
use ks_tree::{Backdating, BackdatingTree, MemoryTree, Tree};
use std::alloc::{AllocError, Global};
use std::test::Fail;

/// A title, a bool and a tristate.
const DEMO: &[u8] = b"mainmenu \"Demo\"\nconfig A\n\tbool\nconfig B\n\ttristate\n";

/// The auto.conf of both symbols, at generation 1.
const DEMO_AUTO: &[u8] = br#"#
# Automatically generated file; DO NOT EDIT.
# Demo
#
#typed
CONFIG_A=y
CONFIG_B=m
#generation 1
"#;

/// The preview of two texts and an old auto.conf, or why there is none.
fn outcome(
    alloc: Global,
    kconfig: &[u8],
    dotconfig: &[u8],
    old: Option<&[u8]>,
) -> Result<String, AllocError> {
    let texts = ConfigTexts::of_kconfig(Dialect::Linux, kconfig, dotconfig);
    let mut out = Vec::new(alloc);
    match preview_to(alloc, Seed::new(0), &texts, old, &mut out) {
        Ok(()) => String::from_utf8_lossy(alloc, &out),
        Err(error) => error.to_string(alloc),
    }
}

/// The lines of a preview's auto.conf that its title and entries stand between.
fn whole(alloc: Global, touches: &str, title: &str, rest: &str) -> Result<String, AllocError> {
    format!(in alloc;
        "{touches}#\n# Automatically generated file; DO NOT EDIT.\n# {title}\n#\n#typed\n{rest}"
    )
}

#[rattlefmt::skip]
const PREVIEWS: &[(&str, &[u8], &[u8], Option<&[u8]>, &str, &str, &str)] = &[
    ("a first one", DEMO, b"CONFIG_A=y\nCONFIG_B=m\n", None,
        "touch A\ntouch B\n", "Demo", "CONFIG_A=y\nCONFIG_B=m\n#generation 1\n"),
    ("CR LF and no end", DEMO, b"CONFIG_A=y\r\nCONFIG_B=m", None,
        "touch A\ntouch B\n", "Demo", "CONFIG_A=y\nCONFIG_B=m\n#generation 1\n"),
    ("the last line counts", DEMO, b"CONFIG_A=y\n# CONFIG_A is not set\nCONFIG_ZZ=7\n", None,
        "", "Demo", "#generation 1\n"),
    ("nothing", b"", b"", None, "", "Main menu", "#generation 1\n"),
    ("nothing changed", DEMO, b"CONFIG_A=y\nCONFIG_B=m\n", Some(DEMO_AUTO),
        "", "Demo", "CONFIG_A=y\nCONFIG_B=m\n#generation 2\n"),
    ("a bool that is a string now", b"config S\n\tstring\n", b"CONFIG_S=\"y\"\n", Some(b"#typed\nCONFIG_S=y\n"),
        "touch S\n", "Main menu", "#type S string\nCONFIG_S=y\n#generation 1\n"),
    ("over the untyped form", DEMO, b"CONFIG_A=y\n", Some(b"CONFIG_A=y\nCONFIG_B=m\n#generation 1\n"),
        "touch A\ntouch B\n", "Demo", "CONFIG_A=y\n#generation 2\n"),
    ("one vanished, one changed", b"mainmenu \"Demo\"\nconfig B\n\ttristate\n", b"CONFIG_A=y\nCONFIG_B=y\n", Some(DEMO_AUTO),
        "touch A\ntouch B\n", "Demo", "CONFIG_B=y\n#generation 2\n"),
    ("an empty string", b"config S\n\tstring\n", b"CONFIG_S=\"\"\n", Some(b""),
        "touch S\n", "Main menu", "#type S string\nCONFIG_S=\n#generation 1\n"),
    ("a string and a number", b"config S\n\tstring\nconfig H\n\thex\n", b"CONFIG_S=\"a\\\"b\\\\c\"\nCONFIG_H=0X1F\n", None,
        "touch H\ntouch S\n", "Main menu", "#type H hex\nCONFIG_H=0X1F\n#type S string\nCONFIG_S=a\"b\\c\n#generation 1\n"),
];

#[test]
fn previews(rt: HostRuntime) -> Result<(), AllocError> {
    let alloc = rt.alloc();
    for &(name, kconfig, dotconfig, old, touches, title, rest) in PREVIEWS {
        let want = whole(alloc, touches, title, rest)?;
        let found = outcome(alloc, kconfig, dotconfig, old)?;
        check_text(&rt, name, found.as_str(), want.as_str());
    }
    Ok(())
}

#[rattlefmt::skip]
const REFUSALS: &[(&[u8], &[u8], Option<&[u8]>, &str)] = &[
    (b"config A\n\tbool\n\thelp\n", b"", None, "1 NotBare line 3"),
    (b"config A-B\n\tbool\n", b"", None, "2 BadName line 1"),
    (b"config FOO_MODULE\n\tbool\n", b"", None, "3 ModuleName line 1"),
    (b"config A\nconfig B\n\tbool\n", b"", None, "4 NoType line 1"),
    (b"config A\n\tbool\nconfig A\n\ttristate\n", b"", None, "5 TypeClash line 4"),
    (b"mainmenu \"a*/b\"\n", b"", None, "6 BadTitle line 1"),
    (DEMO, b"\nCONFIG_A = y\n", None, "7 NotAConfigLine line 2"),
    (DEMO, b"CONFIG_A=m\n", None, "8 BadValue line 1"),
    (DEMO, b"", Some(b"#\n#\n\n#\nCONFIG_../x=y\n"), "11 BadAuto line 5"),
    (DEMO, b"", Some(b"#generation 1"), "11 BadAuto line 1"),
    (DEMO, b"", Some(b"#typed\n#type S string\nCONFIG_T=x\n"), "11 BadAuto line 2"),
    (DEMO, b"", Some(b"#generation 18446744073709551615\n"), "42 GenerationFull"),
    (DEMO, b"CONFIG_A=m\n", Some(b"CONFIG_A\n"), "8 BadValue line 1"),
    (b"config A\n", b"CONFIG_A=m\n", Some(b"CONFIG_A\n"), "4 NoType line 1"),
];

#[test]
fn refusals(rt: HostRuntime) -> Result<(), AllocError> {
    let alloc = rt.alloc();
    for &(kconfig, dotconfig, old, want) in REFUSALS {
        let found = outcome(alloc, kconfig, dotconfig, old)?;
        check_text(&rt, "a refusal", found.as_str(), want);
    }
    Ok(())
}

#[test]
fn a_full_output_is_refused(rt: HostRuntime) -> Result<(), AllocError> {
    let mut buffer = [0; 4];
    let mut out = buffer.as_mut_slice();
    let texts = ConfigTexts::of_kconfig(Dialect::Linux, DEMO, b"CONFIG_A=y\n");
    let found = preview_to(rt.alloc(), Seed::new(0), &texts, None, &mut out);
    let reported = match found {
        Ok(()) => "nothing",
        Err(PreviewError::Engine(_)) => "a text",
        Err(PreviewError::Output) => "the output",
    };
    check_text(&rt, "what is refused", reported, "the output");
    check_text(
        &rt,
        "its text",
        PreviewError::Output.to_string(rt.alloc())?.as_str(),
        "51 Output",
    );
    Ok(())
}

/// Writes these files.
fn put_all<T: Tree>(alloc: Global, tree: &mut T, files: &[(&str, &[u8])]) -> Result<(), Fail> {
    for (path, bytes) in files {
        tree.write(alloc, path.as_bytes(), bytes)?;
    }
    Ok(())
}

/// The status of a run, and what it prints.
fn run_text(alloc: Global, run: &Run) -> Result<String, Fail> {
    let (out, err) = (str::from_utf8(&run.out)?, str::from_utf8(&run.err)?);
    let err = without_hint(err);
    Ok(format!(in alloc; "{}\n{out}{err}", run.status)?)
}

/// The status of a script over a Kconfig and two `.config`s, and what it prints.
fn batch<T: Backdating>(alloc: Global, tree: &mut T, script: &[u8]) -> Result<String, Fail> {
    put_all(alloc, tree, CONFIGS)?;
    put_all(alloc, tree, &[("S", script)])?;
    let script = "S".to_string(alloc)?;
    let asked = Ok(Request::Batch { script });
    let run = run_asked(alloc, tree, Dialect::Linux, &asked);
    run_text(alloc, &run)
}

const CONFIGS: &[(&str, &[u8])] = &[("K", DEMO), ("c", b"CONFIG_A=y\n"), ("d", b"CONFIG_B=m\n")];

#[rattlefmt::skip]
const SCRIPTS: &[(&str, &[u8], &str)] = &[
    ("one pair, three times", b"sync K c\nsync K c\nsync K c\n",
        "0\nsync generation 1 touched 1 unknown 0\nsync generation 2 touched 0 unknown 0\nsync generation 3 touched 0 unknown 0\n"),
    ("two pairs in turn", b"sync K c\nsync K d\nsync K c\n",
        "0\nsync generation 1 touched 1 unknown 0\nsync generation 2 touched 2 unknown 0\nsync generation 3 touched 2 unknown 0\n"),
    ("a .config that is the Kconfig of an earlier line", b"sync K c\nsync K K\n",
        "2\nsync generation 1 touched 1 unknown 0\nrefused 7 NotAConfigLine line 1\n"),
    ("a later line with a missing .config", b"sync K c\nsync K e\nsync f c\n", "2\nconfstamp: 40 MissingFile e\n"),
    ("a later line with a missing Kconfig", b"sync K c\nsync f e\n", "2\nconfstamp: 40 MissingFile f\n"),
    ("a directory of its own is another path", b"sync K c\nsync ./K c\n", "2\nconfstamp: 40 MissingFile ./K\n"),
];

#[test]
fn scripts(rt: HostRuntime) -> Result<(), Fail> {
    for &(name, script, want) in SCRIPTS {
        let mut tree = BackdatingTree::new(rt.alloc(), MemoryTree::new(rt.alloc()));
        let found = batch(rt.alloc(), &mut tree, script)?;
        check_text(&rt, name, found.as_str(), want);
    }
    Ok(())
}

fn diff_request(alloc: Global) -> Result<Request, AllocError> {
    let config = ConfigPaths {
        form: ConfigForm::Kconfig,
        first: "K".to_string(alloc)?,
        second: "c".to_string(alloc)?,
    };
    Ok(Request::Diff {
        config,
        report_style: ReportStyle::Lines,
    })
}

/// The status of a diff over a tree with these texts, and what it prints.
fn diff<T: Backdating>(
    alloc: Global,
    tree: &mut T,
    kconfig: &[u8],
    dotconfig: &[u8],
    auto: Option<&[u8]>,
) -> Result<String, Fail> {
    put_all(alloc, tree, &[("K", kconfig), ("c", dotconfig)])?;
    if let Some(auto) = auto {
        put_all(alloc, tree, &[("include/config/auto.conf", auto)])?;
    }
    let asked = Ok(diff_request(alloc)?);
    let run = run_asked(alloc, tree, Dialect::Linux, &asked);
    run_text(alloc, &run)
}

#[rattlefmt::skip]
const DIFFERENCES: &[(&str, &[u8], &[u8], Option<&[u8]>, &str)] = &[
    ("a first one", DEMO, b"CONFIG_A=y\nCONFIG_B=m\n", None, "0\nA n -> y\nB n -> m\n"),
    ("nothing changed", DEMO, b"CONFIG_A=y\nCONFIG_B=m\n", Some(DEMO_AUTO), "0\n"),
    ("one vanished, one changed", b"config B\n\ttristate\n", b"CONFIG_A=y\nCONFIG_B=y\n", Some(DEMO_AUTO),
        "0\nA y -> n\nB m -> y\nunknown A\n"),
    ("lines about names that are not declared", DEMO, b"CONFIG_C=y\nCONFIG_A=y\n# CONFIG_Z is not set\n# CONFIG_Z was\nCONFIG_C=m\n", None,
        "0\nA n -> y\nunknown C\nunknown Z\nunknown C\n"),
    ("a string and a number", b"config S\n\tstring\nconfig H\n\thex\n", b"CONFIG_S=\"a\\\"b\\\\c\"\nCONFIG_H=0X1F\n",
        Some(b"#typed\n#type H hex\nCONFIG_H=0x1f\n#type S string\nCONFIG_S=\n"),
        "0\nH 0x1f -> 0X1F\nS \"\" -> \"a\\\"b\\\\c\"\n"),
    ("a bool that is a string now", b"config S\n\tstring\n", b"CONFIG_S=\"y\"\n", Some(b"#typed\nCONFIG_S=y\n"),
        "0\nS y -> \"y\" (bool/tristate -> string)\n"),
    ("a string that is a number now", b"config S\n\tint\n", b"CONFIG_S=7\n", Some(b"#typed\n#type S string\nCONFIG_S=7\n"),
        "0\nS \"7\" -> 7 (string -> int)\n"),
    ("over the untyped form", DEMO, b"CONFIG_A=y\n", Some(b"CONFIG_A=y\nCONFIG_B=m\n#generation 1\n"),
        "0\nA y -> y (untyped -> bool/tristate)\nB m -> n\n"),
    ("quotes of Kbuild", b"config S\n\tstring\n", b"CONFIG_S=\"a\"\n", Some(b"CONFIG_S=\"a\"\n"),
        "0\nS \"a\" -> \"a\"\n"),
    ("a faulty .config", DEMO, b"CONFIG_A=m\n", Some(b"CONFIG_A\n"), "2\nconfstamp: 8 BadValue line 1\n  c:1: CONFIG_A=m\n"),
    ("a faulty auto.conf", DEMO, b"CONFIG_A=y\n", Some(b"CONFIG_A\n"),
        "2\nconfstamp: 11 BadAuto line 1\n  include/config/auto.conf:1: CONFIG_A\n"),
    ("the last generation", DEMO, b"", Some(b"#generation 18446744073709551615\n"), "2\nconfstamp: 42 GenerationFull\n"),
    ("nothing", b"", b"", None, "0\n"),
];

#[test]
fn differences(rt: HostRuntime) -> Result<(), Fail> {
    for &(name, kconfig, dotconfig, auto, want) in DIFFERENCES {
        let mut tree = BackdatingTree::new(rt.alloc(), MemoryTree::new(rt.alloc()));
        let found = diff(rt.alloc(), &mut tree, kconfig, dotconfig, auto)?;
        check_text(&rt, name, found.as_str(), want);
    }
    Ok(())
}
