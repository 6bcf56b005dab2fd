//! What a project's conf writes, in the forms of Linux 6.12, U-Boot 2023.01 and Xen 4.17, and what is read of it.
use crate::check::check_text;
use ks_output::{Written, WrittenError, read_written};
use ks_symbols::{Dialect, Seed};
use std::alloc::{AllocError, Global};

const AUTO_HEAD: &[u8] = b"#\n# Automatically generated file; DO NOT EDIT.\n# Demo\n#\n";

const HEADER_HEAD: &[u8] = b"/*\n * Automatically generated file; DO NOT EDIT.\n * Demo\n */\n";

const AUTO_WITH_A: &[u8] =
    b"#\n# Automatically generated file; DO NOT EDIT.\n# Demo\n#\nCONFIG_A=y\n";

const OLDER_WITH_A: &[u8] =
    b"/*\n *\n * Automatically generated file; DO NOT EDIT.\n * Demo\n *\n */\n#define CONFIG_A 1\n";

fn push_bytes(alloc: Global, all: &mut String, bytes: &[u8]) -> Result<(), AllocError> {
    all.push_str(&String::from_utf8_lossy(alloc, bytes)?)
}

/// The title and the entries by rising names, each with its kind.
fn spelled(alloc: Global, written: &Written) -> Result<String, AllocError> {
    let mut all = String::new(alloc);
    push_bytes(alloc, &mut all, &written.title)?;
    for (name, kind, text) in written.settings.entries() {
        let kind = format!(in alloc; " {kind:?} ")?;
        all.push_str(&kind)?;
        push_bytes(alloc, &mut all, name)?;
        all.push_str("=")?;
        push_bytes(alloc, &mut all, text)?;
    }
    Ok(all)
}

/// What is said of what was read.
pub(crate) fn outcome(
    alloc: Global,
    read: Result<Written, WrittenError>,
) -> Result<String, AllocError> {
    match read {
        Ok(written) => spelled(alloc, &written),
        Err(error) => error.to_string(alloc),
    }
}

/// What is read of these lines, after headings.
fn said(alloc: Global, auto: &[u8], header: &[u8]) -> Result<String, AllocError> {
    let mut first = Vec::from_slice(alloc, AUTO_HEAD)?;
    first.extend_from_slice(auto)?;
    let mut second = Vec::from_slice(alloc, HEADER_HEAD)?;
    second.extend_from_slice(header)?;
    outcome(
        alloc,
        read_written(alloc, Seed::new(0), Dialect::Linux, &first, &second),
    )
}

#[rattlefmt::skip]
const READINGS: &[(&str, &[u8], &[u8], &str)] = &[
    ("no symbol", b"", b"", "Demo"),
    ("switches in conf's order", b"CONFIG_B=m\nCONFIG_A=y\n", b"#define CONFIG_B_MODULE 1\n#define CONFIG_A 1\n", "Demo Bool A=y Tristate B=m"),
    ("a string y", b"CONFIG_S=y\n", b"#define CONFIG_S \"y\"\n", "Demo Text S=y"),
    ("a string m", b"CONFIG_S=m\n", b"#define CONFIG_S \"m\"\n", "Demo Text S=m"),
    ("an empty string", b"CONFIG_S=\n", b"#define CONFIG_S \"\"\n", "Demo Text S="),
    ("Linux from 5.17 on, with quotes and a backslash", b"CONFIG_S=a\"b\\c\n", b"#define CONFIG_S \"a\\\"b\\\\c\"\n", "Demo Text S=a\"b\\c"),
    ("as U-Boot and Xen have it", b"CONFIG_S=\"a\\\"b\\\\c\"\n", b"#define CONFIG_S \"a\\\"b\\\\c\"\n", "Demo Raw S=\"a\\\"b\\\\c\""),
    ("a string in quotes", b"CONFIG_S=\"a\"\n", b"#define CONFIG_S \"\\\"a\\\"\"\n", "Demo Text S=\"a\""),
    ("a string that is a number", b"CONFIG_S=10\n", b"#define CONFIG_S \"10\"\n", "Demo Text S=10"),
    ("an int", b"CONFIG_I=-10\n", b"#define CONFIG_I -10\n", "Demo Int I=-10"),
    ("a hex without 0x", b"CONFIG_H=10\n", b"#define CONFIG_H 0x10\n", "Demo Hex H=10"),
    ("a hex with 0X", b"CONFIG_H=0X1f\n", b"#define CONFIG_H 0X1f\n", "Demo Hex H=0X1f"),
    ("another number", b"CONFIG_I=10\n", b"#define CONFIG_I 11\n", "15 Unexplained line 5"),
    ("another name", b"CONFIG_A=y\n", b"#define CONFIG_B 1\n", "15 Unexplained line 5"),
    ("a module as a bool", b"CONFIG_A=m\n", b"#define CONFIG_A 1\n", "15 Unexplained line 5"),
    ("an int without a value", b"CONFIG_I=\n", b"#define CONFIG_I \n", "Demo EmptyInt I="),
    ("a hex without a value", b"CONFIG_H=\n", b"#define CONFIG_H 0x\n", "Demo EmptyHex H="),
    ("a macro without a space", b"CONFIG_I=\n", b"#define CONFIG_I\n", "15 Unexplained line 5"),
    ("lines in another order", b"CONFIG_A=y\nCONFIG_B=y\n", b"#define CONFIG_B 1\n#define CONFIG_A 1\n", "15 Unexplained line 5"),
    ("lines that end in CR LF", b"CONFIG_S=a\r\n", b"#define CONFIG_S \"a\r\"\n", "15 Unexplained line 5"),
    ("a last line without its end", b"CONFIG_A=y", b"#define CONFIG_A 1\n", "13 NotAnEntry line 5"),
    ("a comment", b"CONFIG_A=y\n# CONFIG_B is not set\n", b"#define CONFIG_A 1\n", "16 Undefined line 6"),
    ("a macro too many", b"CONFIG_A=y\n", b"#define CONFIG_A 1\n#define CONFIG_B 1\n", "17 Undeclared line 6"),
    ("a macro too few", b"CONFIG_A=y\nCONFIG_B=y\n", b"#define CONFIG_A 1\n", "16 Undefined line 6"),
    ("BusyBox's macros", b"CONFIG_A=y\n", b"#define CONFIG_A 1\n#define ENABLE_A 1\n", "17 Undeclared line 6"),
    ("the first of two", b"CONFIG_A=y\nCONFIG_A=y\n", b"#define CONFIG_A 1\n#define CONFIG_A 1\n", "18 Twice line 6"),
    ("a companion", b"CONFIG_A_MODULE=y\nCONFIG_A=y\n", b"#define CONFIG_A_MODULE 1\n#define CONFIG_A 1\n", "Demo Bool A=y Companion A_MODULE=y"),
    ("a module and its companion", b"CONFIG_A=m\nCONFIG_A_MODULE=y\n", b"#define CONFIG_A_MODULE 1\n#define CONFIG_A_MODULE 1\n", "Demo Tristate A=m Companion A_MODULE=y"),
    ("a companion of a companion", b"CONFIG_A_MODULE_MODULE=y\n", b"#define CONFIG_A_MODULE_MODULE 1\n", "Demo Companion A_MODULE_MODULE=y"),
    ("a companion that is a module", b"CONFIG_A_MODULE=m\n", b"#define CONFIG_A_MODULE_MODULE 1\n", "14 ModuleSymbol line 5"),
    ("a companion with a number", b"CONFIG_A_MODULE=1\n", b"#define CONFIG_A_MODULE 1\n", "14 ModuleSymbol line 5"),
    ("a companion of no name", b"CONFIG__MODULE=y\n", b"#define CONFIG__MODULE 1\n", "14 ModuleSymbol line 5"),
    ("a companion with another macro", b"CONFIG_A_MODULE=y\n", b"#define CONFIG_B_MODULE 1\n", "14 ModuleSymbol line 5"),
    ("a companion twice", b"CONFIG_A_MODULE=y\nCONFIG_A_MODULE=y\n", b"#define CONFIG_A_MODULE 1\n#define CONFIG_A_MODULE 1\n", "18 Twice line 6"),
];

#[test]
fn written_readings(rt: HostRuntime) -> Result<(), AllocError> {
    let alloc = rt.alloc();
    for &(name, auto, header, want) in READINGS {
        let found = said(alloc, auto, header)?;
        check_text(&rt, name, found.as_str(), want);
    }
    Ok(())
}

#[test]
fn headings(rt: HostRuntime) -> Result<(), AllocError> {
    let alloc = rt.alloc();
    let found = outcome(
        alloc,
        read_written(
            alloc,
            Seed::new(0),
            Dialect::Linux,
            HEADER_HEAD,
            HEADER_HEAD,
        ),
    )?;
    check_text(
        &rt,
        "the header for auto.conf",
        found.as_str(),
        "12 BadHeading",
    );
    let found = outcome(
        alloc,
        read_written(alloc, Seed::new(0), Dialect::Linux, b"", b""),
    )?;
    check_text(&rt, "nothing at all", found.as_str(), "12 BadHeading");
    let found = outcome(
        alloc,
        read_written(
            alloc,
            Seed::new(0),
            Dialect::Linux,
            AUTO_WITH_A,
            OLDER_WITH_A,
        ),
    )?;
    check_text(
        &rt,
        "as U-Boot's and Xen's conf",
        found.as_str(),
        "Demo Bool A=y",
    );
    Ok(())
}
