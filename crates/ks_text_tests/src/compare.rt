//! Worked comparisons: an old auto.conf, new settings, and the names that changed.
use crate::check::check_text;
use ks_compare::changed;
use ks_output::{OldConfig, read_auto};
use ks_symbols::{Dialect, Kconfig, Name, Settings, Symbols, read_dotconfig, read_kconfig};
use std::alloc::{AllocError, Global};

const KCONFIG: &[u8] =
    b"config A\n\tbool\nconfig B\n\ttristate\nconfig S\n\tstring\nconfig H\n\thex\nconfig I\n\tint\n";

/// The names, each with a space after it.
fn spelled(alloc: Global, changes: &[Name]) -> Result<String, AllocError> {
    let mut names = String::new(alloc);
    for name in changes {
        names.push_str(&String::from_utf8_lossy(alloc, name.as_bytes())?)?;
        names.push_str(" ")?;
    }
    Ok(names)
}

/// The names that change between an old configuration and new settings.
fn changes_to(alloc: Global, old: &OldConfig, settings: &Settings) -> Result<String, AllocError> {
    let names = changed(alloc, old, settings)?;
    spelled(alloc, &names)
}

/// The same with a `.config` of these symbols.
fn changes_of(
    alloc: Global,
    symbols: &Symbols,
    old: &OldConfig,
    dotconfig: &[u8],
) -> Result<String, AllocError> {
    match read_dotconfig(alloc, dotconfig, symbols) {
        Ok(settings) => changes_to(alloc, old, &settings),
        Err(_) => String::from_str(alloc, ".config"),
    }
}

/// The same, of the symbols of a Kconfig.
fn changes_by(
    alloc: Global,
    kconfig: &Kconfig<'_>,
    old: &OldConfig,
    dotconfig: &[u8],
) -> Result<String, AllocError> {
    match read_kconfig(alloc, kconfig) {
        Ok(symbols) => changes_of(alloc, &symbols, old, dotconfig),
        Err(_) => String::from_str(alloc, "Kconfig"),
    }
}

/// The same, of the usual symbols.
fn changes(alloc: Global, old: &OldConfig, dotconfig: &[u8]) -> Result<String, AllocError> {
    let kconfig = Kconfig::new(Dialect::Linux, KCONFIG);
    changes_by(alloc, &kconfig, old, dotconfig)
}

/// The names that change between an auto.conf and a `.config`, or the refusal.
fn compared(alloc: Global, auto: &[u8], dotconfig: &[u8]) -> Result<String, AllocError> {
    match read_auto(alloc, auto) {
        Ok(old) => changes(alloc, &old, dotconfig),
        Err(error) => error.to_string(alloc),
    }
}

/// The names that change where there is no auto.conf yet.
fn first_changes(alloc: Global, dotconfig: &[u8]) -> Result<String, AllocError> {
    let none = OldConfig::empty(alloc);
    changes(alloc, &none, dotconfig)
}

#[test]
fn first_comparison(rt: HostRuntime) -> Result<(), AllocError> {
    let found = first_changes(rt.alloc(), b"CONFIG_B=m\nCONFIG_A=y\n")?;
    check_text(&rt, "two lines", found.as_str(), "A B ");
    let found = first_changes(rt.alloc(), b"")?;
    check_text(&rt, "no line", found.as_str(), "");
    Ok(())
}

#[rattlefmt::skip]
const COMPARISONS: &[(&str, &[u8], &[u8], &str)] = &[
    ("an empty auto.conf", b"", b"CONFIG_B=m\nCONFIG_A=y\n", "A B "),
    ("the same", b"#typed\nCONFIG_A=y\nCONFIG_B=m\n#generation 1\n", b"CONFIG_B=m\nCONFIG_A=y\n", ""),
    ("another text", b"#typed\nCONFIG_A=y\nCONFIG_B=m\n#generation 1\n", b"CONFIG_A=y\nCONFIG_B=y\n", "B "),
    ("a name that is off now", b"#typed\nCONFIG_A=y\nCONFIG_B=m\n#generation 1\n", b"CONFIG_B=m\n", "A "),
    ("a name that is off in both", b"#typed\nCONFIG_B=m\n#generation 1\n", b"CONFIG_B=m\n# CONFIG_A is not set\n", ""),
    ("a name that vanished", b"#typed\nCONFIG_A=y\nCONFIG_Z=y\n", b"CONFIG_A=y\n", "Z "),
    ("the last line of a name", b"#typed\nCONFIG_A=n\nCONFIG_A=y\r\n", b"CONFIG_A=y\n", ""),
    ("the string n", b"#typed\n#type S string\nCONFIG_S=n\n", b"CONFIG_S=\"n\"\n", ""),
    ("an empty string, as before", b"#typed\n#type S string\nCONFIG_S=\n", b"CONFIG_S=\"\"\n", ""),
    ("an empty string, and none before", b"#typed\nCONFIG_A=y\n", b"CONFIG_A=y\nCONFIG_S=\"\"\n", "S "),
    ("an empty string before, and none now", b"CONFIG_S=", b"", "S "),
    ("the same number in other letters", b"#typed\n#type H hex\nCONFIG_H=0x1f\n", b"CONFIG_H=0x1F\n", "H "),
    ("all at once, rising", b"CONFIG_Z=1\nCONFIG_B=m\nCONFIG_AA=y\n", b"CONFIG_S=\"x\"\nCONFIG_B=y\nCONFIG_A=y\n", "A AA B S Z "),
    ("a bool that is a tristate now", b"#typed\nCONFIG_B=y\n", b"CONFIG_B=y\n", ""),
    ("a bool that is a string now", b"#typed\nCONFIG_S=y\n", b"CONFIG_S=\"y\"\n", "S "),
    ("a string that is a bool now", b"#typed\n#type A string\nCONFIG_A=y\n", b"CONFIG_A=y\n", "A "),
    ("an int that is a hex now", b"#typed\n#type H int\nCONFIG_H=10\n", b"CONFIG_H=10\n", "H "),
    ("a string that is a hex now", b"#typed\n#type H string\nCONFIG_H=10\n", b"CONFIG_H=10\n", "H "),
    ("an int as before", b"#typed\n#type I int\nCONFIG_I=10\n", b"CONFIG_I=10\n", ""),
    ("another class and text", b"#typed\n#type A string\nCONFIG_A=n\n", b"CONFIG_A=y\n", "A "),
    ("a class in an earlier line alone", b"#typed\n#type S string\nCONFIG_S=y\nCONFIG_S=y\n", b"CONFIG_S=\"y\"\n", "S "),
    ("the untyped form", b"CONFIG_A=y\nCONFIG_B=m\n#generation 1\n", b"CONFIG_B=m\nCONFIG_A=y\n", "A B "),
    ("the untyped form of a string", b"CONFIG_S=y\n", b"CONFIG_S=\"y\"\n", "S "),
    ("the untyped form with lines of classes", b"#type S string\nCONFIG_S=y\n", b"CONFIG_S=\"y\"\n", "S "),
    ("the untyped form, and nothing now", b"CONFIG_A=y\n", b"", "A "),
];

#[test]
fn comparisons(rt: HostRuntime) -> Result<(), AllocError> {
    let alloc = rt.alloc();
    for &(name, auto, dotconfig, want) in COMPARISONS {
        let found = compared(alloc, auto, dotconfig)?;
        check_text(&rt, name, found.as_str(), want);
    }
    Ok(())
}

/// A text of a line for each of the symbols S0999 down to S0000, but for one.
pub(crate) fn lines_falling(
    alloc: Global,
    but: u32,
    before: &str,
    after: &str,
) -> Result<String, AllocError> {
    let mut text = String::new(alloc);
    for number in (0..1000).rev() {
        if number != but {
            let line = format!(in alloc; "{before}S{number:04}{after}")?;
            text.push_str(&line)?;
        }
    }
    Ok(text)
}

/// The names that change between an auto.conf and a configuration of all thousand.
fn changes_to_thousand(alloc: Global, auto: &[u8]) -> Result<String, AllocError> {
    let kconfig = lines_falling(alloc, 1000, "config ", "\n\tbool\n")?;
    let dotconfig = lines_falling(alloc, 1000, "CONFIG_", "=y\n")?;
    let kconfig = Kconfig::new(Dialect::Linux, kconfig.as_bytes());
    match read_auto(alloc, auto) {
        Ok(old) => changes_by(alloc, &kconfig, &old, dotconfig.as_bytes()),
        Err(error) => error.to_string(alloc),
    }
}

/// The same where the auto.conf is without a symbol.
fn changes_of_thousand(alloc: Global, missing: u32) -> Result<String, AllocError> {
    let mut auto = String::from_str(alloc, "#typed\n")?;
    let lines = lines_falling(alloc, missing, "CONFIG_", "=y\n")?;
    auto.push_str(&lines)?;
    changes_to_thousand(alloc, auto.as_bytes())
}

#[test]
fn a_thousand_falling_symbols(rt: HostRuntime) -> Result<(), AllocError> {
    let alloc = rt.alloc();
    let found = changes_of_thousand(alloc, 500)?;
    check_text(&rt, "one in the middle", found.as_str(), "S0500 ");
    let found = changes_of_thousand(alloc, 1000)?;
    check_text(&rt, "none", found.as_str(), "");
    Ok(())
}
