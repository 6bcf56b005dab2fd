//! What BusyBox's conf writes, in the form of 1.35, and what is read of it.
use crate::check::check_text;
use crate::written::outcome;
use ks_output::read_written;
use ks_symbols::{Dialect, Seed};
use std::alloc::{AllocError, Global};

const CONFIG_HEAD: &[u8] =
    b"#\n# Automatically generated make config: don't edit\n# Busybox version: 1.35.0\n# Sun Nov 29 04:59:36 2026\n#\n";

const HEADER_HEAD: &[u8] =
    b"/*\n * Automatically generated C config: don't edit\n * Busybox version: 1.35.0\n */\n#define AUTOCONF_TIMESTAMP \"2026-11-29 04:59:36 UTC\"\n\n";

const UNTIMED_CONFIG: &[u8] =
    b"#\n# Automatically generated make config: don't edit\n# Busybox version: 1.35.0\n#\nCONFIG_A=x\n";

const UNTIMED_HEADER: &[u8] =
    b"/*\n * Automatically generated C config: don't edit\n * Busybox version: 1.35.0\n */\n#define AUTOCONF_TIMESTAMP \"\"\n\n";

/// What follows the macro of a value in the block of A.
const ENABLING: &[u8] =
    b"#define ENABLE_A 1\n#ifdef MAKE_SUID\n# define IF_A(...) __VA_ARGS__ \"CONFIG_A\"\n#else\n# define IF_A(...) __VA_ARGS__\n#endif\n#define IF_NOT_A(...)\n";

const OFF: &[u8] =
    b"#undef CONFIG_A\n#define ENABLE_A 0\n#define IF_A(...)\n#define IF_NOT_A(...) __VA_ARGS__\n";

/// What is read of these lines, after headings; the header has a macro and what follows it.
fn said(
    alloc: Global,
    config: &[u8],
    define: &[u8],
    following: &[u8],
) -> Result<String, AllocError> {
    let mut first = Vec::from_slice(alloc, CONFIG_HEAD)?;
    first.extend_from_slice(config)?;
    let mut second = Vec::from_slice(alloc, HEADER_HEAD)?;
    second.extend_from_slice(define)?;
    second.extend_from_slice(following)?;
    outcome(
        alloc,
        read_written(alloc, Seed::new(0), Dialect::BusyBox, &first, &second),
    )
}

#[rattlefmt::skip]
const READINGS: &[(&str, &[u8], &[u8], &[u8], &str)] = &[
    ("no symbol", b"", b"", b"", "Busybox version: 1.35.0"),
    ("a bool", b"CONFIG_A=y\n", b"#define CONFIG_A 1\n", ENABLING, "Busybox version: 1.35.0 Flag A=y"),
    ("a bool that is off", b"# CONFIG_A is not set\n", b"", OFF, "Busybox version: 1.35.0"),
    ("an int 1", b"CONFIG_A=1\n", b"#define CONFIG_A 1\n", ENABLING, "Busybox version: 1.35.0 Int A=1"),
    ("a hex without 0x", b"CONFIG_A=1f\n", b"#define CONFIG_A 0x1f\n", ENABLING, "Busybox version: 1.35.0 Hex A=1f"),
    ("a hex with 0x", b"CONFIG_A=0x1F\n", b"#define CONFIG_A 0x1F\n", ENABLING, "Busybox version: 1.35.0 Hex A=0x1F"),
    ("an empty string", b"CONFIG_A=\"\"\n", b"#define CONFIG_A \"\"\n", ENABLING, "Busybox version: 1.35.0 Raw A=\"\""),
    ("a string with a quote and a backslash", b"CONFIG_A=\"a\\\"b\\\\c\"\n", b"#define CONFIG_A \"a\\\"b\\\\c\"\n", ENABLING, "Busybox version: 1.35.0 Raw A=\"a\\\"b\\\\c\""),
    ("a menu", b"\n#\n# Options (\"make install\" behavior)\n#\nCONFIG_A=y\n", b"\n/*\n * Options (\"make install\" behavior)\n */\n#define CONFIG_A 1\n", ENABLING, "Busybox version: 1.35.0 Flag A=y"),
    ("a menu that is named as a symbol", b"#\n# CONFIG_A is not set\n#\n", b"/*\n * CONFIG_A is not set\n */\n", b"", "Busybox version: 1.35.0"),
    ("another value", b"CONFIG_A=1\n", b"#define CONFIG_A 2\n", ENABLING, "15 Unexplained line 6"),
    ("a bool that is off in the header", b"CONFIG_A=y\n", b"", OFF, "15 Unexplained line 6"),
    ("a bool that is on in the header", b"# CONFIG_A is not set\n", b"#define CONFIG_A 1\n", ENABLING, "15 Unexplained line 6"),
    ("a string as a bool", b"CONFIG_A=\"y\"\n", b"#define CONFIG_A 1\n", ENABLING, "15 Unexplained line 6"),
    ("a number with zeros in front", b"CONFIG_A=007\n", b"#define CONFIG_A 007\n", ENABLING, "15 Unexplained line 6"),
    ("no block", b"CONFIG_A=y\n", b"", b"", "16 Undefined line 6"),
    ("half a block", b"CONFIG_A=y\n", b"#define CONFIG_A 1\n", b"", "15 Unexplained line 6"),
    ("a block too many", b"CONFIG_A=y\n", b"#define CONFIG_A 1\n#define ENABLE_A 1\n#ifdef MAKE_SUID\n# define IF_A(...) __VA_ARGS__ \"CONFIG_A\"\n#else\n# define IF_A(...) __VA_ARGS__\n#endif\n#define IF_NOT_A(...)\n", OFF, "17 Undeclared line 7"),
    ("half a menu", b"#\n# Settings\n", b"/*\n * Settings\n", b"", "17 Undeclared line 8"),
    ("a title that ends its comment", b"#\n# a */ b\n#\n", b"/*\n * a */ b\n */\n", b"", "13 NotAnEntry line 7"),
    ("a line of another form", b"CONFIG_A = y\n", b"#define CONFIG_A 1\n", ENABLING, "13 NotAnEntry line 6"),
    ("a last line without its end", b"CONFIG_A=y", b"#define CONFIG_A 1\n", ENABLING, "13 NotAnEntry line 6"),
    ("a name twice", b"# CONFIG_A is not set\nCONFIG_A=y\n", OFF, ENABLING, "18 Twice line 7"),
];

#[test]
fn block_readings(rt: HostRuntime) -> Result<(), AllocError> {
    let alloc = rt.alloc();
    for &(name, config, define, following, want) in READINGS {
        let found = said(alloc, config, define, following)?;
        check_text(&rt, name, found.as_str(), want);
    }
    Ok(())
}

#[test]
fn block_headings(rt: HostRuntime) -> Result<(), AllocError> {
    let alloc = rt.alloc();
    let seed = Seed::new(0);
    let found = outcome(
        alloc,
        read_written(
            alloc,
            seed,
            Dialect::BusyBox,
            UNTIMED_CONFIG,
            UNTIMED_HEADER,
        ),
    )?;
    check_text(
        &rt,
        "conf that writes no time",
        found.as_str(),
        "16 Undefined line 5",
    );
    let found = outcome(
        alloc,
        read_written(
            alloc,
            Seed::new(0),
            Dialect::BusyBox,
            HEADER_HEAD,
            CONFIG_HEAD,
        ),
    )?;
    check_text(&rt, "the header first", found.as_str(), "12 BadHeading");
    Ok(())
}
