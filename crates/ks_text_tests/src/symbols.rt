//! Kconfig and `.config` texts as they stand in files, what is read of them, and the rules of names, paths, values and lines.
use crate::check::{check, check_bytes, check_text};
use ks_symbols::{
    Dialect, Kconfig, Kind, Name, Path, Settings, SourceError, Statement, Symbols,
    is_comment_or_blank, name_is_legal, parse_statement, path_is_legal, read_decimal,
    read_dotconfig, read_kconfig, target_is_legal, value_is_valid, write_decimal,
};
use std::alloc::{AllocError, Global};
use std::process::Abort;

/// Two symbols, one of each kind that a switch can have, and a title.
const DEMO: &[u8] = b"mainmenu \"Demo\"\nconfig A\n\tbool\nconfig B\n\ttristate\n";

/// A symbol of each kind that holds a value.
const VALUES: &[u8] = b"config S\n\tstring\nconfig I\n\tint\nconfig H\n\thex\n";

/// Symbols whose names begin alike, and begin with each kind of byte that a name has.
const ALIKE: &[u8] =
    b"config a\n\tbool\nconfig _\n\tbool\nconfig A_\n\tbool\nconfig AA\n\tbool\nconfig A\n\tbool\nconfig 0\n\tbool\n";

const LONGEST: &[u8; 128] = &[b'N'; 128];

/// The title and the kind of a name.
fn symbols_stated(alloc: Global, symbols: &Symbols, name: &[u8]) -> Result<String, AllocError> {
    let title = String::from_utf8_lossy(alloc, symbols.title())?;
    let kind = symbols.kind_of(name);
    format!(in alloc; "{title} {kind:?}")
}

/// The title and the kind of a name as a Kconfig has them, or the refusal.
fn kconfig_outcome(
    alloc: Global,
    kconfig: &Kconfig<'_>,
    name: &[u8],
) -> Result<String, AllocError> {
    match read_kconfig(alloc, kconfig) {
        Ok(symbols) => symbols_stated(alloc, &symbols, name),
        Err(error) => error.to_string(alloc),
    }
}

fn push_bytes(alloc: Global, all: &mut String, bytes: &[u8]) -> Result<(), AllocError> {
    all.push_str(&String::from_utf8_lossy(alloc, bytes)?)
}

fn push_entry(
    alloc: Global,
    all: &mut String,
    name: &[u8],
    value: &[u8],
) -> Result<(), AllocError> {
    push_bytes(alloc, all, name)?;
    all.push_str("=")?;
    push_bytes(alloc, all, value)?;
    all.push_str(" ")
}

/// The entries in order, and the number of unknown lines.
fn spelled(alloc: Global, settings: &Settings) -> Result<String, AllocError> {
    let mut all = String::new(alloc);
    for (name, _, value) in settings.entries() {
        push_entry(alloc, &mut all, name, value)?;
    }
    all.push_str(&format!(in alloc; "unknown {}", settings.unknown())?)?;
    Ok(all)
}

/// What a `.config` says of these symbols, or the refusal.
fn settings_outcome(alloc: Global, symbols: &Symbols, text: &[u8]) -> Result<String, AllocError> {
    match read_dotconfig(alloc, text, symbols) {
        Err(error) => error.to_string(alloc),
        Ok(settings) => spelled(alloc, &settings),
    }
}

/// What the two texts say, or the refusal.
fn dotconfig_outcome(
    alloc: Global,
    kconfig: &Kconfig<'_>,
    text: &[u8],
) -> Result<String, AllocError> {
    match read_kconfig(alloc, kconfig) {
        Err(error) => error.to_string(alloc),
        Ok(symbols) => settings_outcome(alloc, &symbols, text),
    }
}

#[rattlefmt::skip]
const KCONFIGS: &[(&str, &[u8], &str)] = &[
    ("a title and two symbols", DEMO, "Demo Some(Bool)"),
    ("nothing", b"", "Main menu None"),
    ("comments and blank lines", b"# x\n \t\nconfig A\n\n# y\n  bool  \n", "Main menu Some(Bool)"),
    ("a prompt", b"config A\n\tstring \"a \\\" b\" \n", "Main menu Some(Text)"),
    ("def_tristate", b"menuconfig A\n\tdef_tristate m\n", "Main menu Some(Tristate)"),
    ("the same kind again", b"config A\n\thex\nconfig A\n\thex\n", "Main menu Some(Hex)"),
    ("CR LF", b"mainmenu \"Demo\"\r\nconfig A\r\n\tint\r\n", "Demo Some(Int)"),
    ("MODULE is a name", b"config MODULE\n\tbool\n", "Main menu None"),
    ("a help text", b"config A\n\tbool\n\thelp\n", "1 NotBare line 3"),
    ("a kind without an entry", b"\tbool\n", "1 NotBare line 1"),
    ("two words after config", b"config A B\n\tbool\n", "1 NotBare line 1"),
    ("an indented entry", b" config A\n\tbool\n", "1 NotBare line 1"),
    ("no word bytes", b"config A-B\n\tbool\n", "2 BadName line 1"),
    ("a module's name", b"config FOO_MODULE\n\tbool\n", "3 ModuleName line 1"),
    ("two entries", b"config A\nconfig B\n\tbool\n", "4 NoType line 1"),
    ("an entry at the end", b"config A\n# end\n", "4 NoType line 1"),
    ("a title after an entry's line", b"config A\nmainmenu \"x\"\n", "4 NoType line 1"),
    ("two kinds", b"config A\n\tbool\nconfig A\n\tstring\n", "5 TypeClash line 4"),
    ("bool, then tristate", b"config A\n\tbool\nconfig A\n\ttristate\n", "5 TypeClash line 4"),
    ("thrice the same kind", b"config A\n\tint\nconfig A\n\tint\nconfig A\n\tint\n", "Main menu Some(Int)"),
    ("thrice, then another kind", b"config A\n\tint\nconfig A\n\tint\nconfig A\n\thex\n", "5 TypeClash line 6"),
    ("another kind, then the first", b"config A\n\tint\nconfig A\n\thex\nconfig A\n\tint\n", "5 TypeClash line 4"),
    ("three kinds of a name", b"config A\n\tint\nconfig A\n\thex\nconfig A\n\tbool\n", "5 TypeClash line 4"),
    ("two names, each twice", b"config B\n\tint\nconfig A\n\tint\nconfig B\n\thex\nconfig A\n\thex\n", "5 TypeClash line 6"),
    ("two kinds before a bad name", b"config A\n\tint\nconfig A\n\thex\nconfig A-B\n", "5 TypeClash line 4"),
    ("two kinds after a bad name", b"config A\n\tint\nconfig A-B\n\tint\nconfig A\n\thex\n", "2 BadName line 3"),
    ("the end of a comment", b"mainmenu \"a*/b\"\n", "6 BadTitle line 1"),
    ("an empty title", b"mainmenu \"\"\n", "6 BadTitle line 1"),
    ("two titles", b"mainmenu \"a\"\nmainmenu \"b\"\n", "6 BadTitle line 2"),
    ("a title after an entry", b"config A\n\tbool\nmainmenu \"b\"\n", "6 BadTitle line 3"),
    ("a title without quotes", b"mainmenu Demo\n", "6 BadTitle line 1"),
];

#[test]
fn kconfigs(rt: HostRuntime) -> Result<(), AllocError> {
    let alloc = rt.alloc();
    for &(name, text, want) in KCONFIGS {
        let found = kconfig_outcome(alloc, &Kconfig::new(Dialect::Linux, text), b"A")?;
        check_text(&rt, name, found.as_str(), want);
    }
    Ok(())
}

#[rattlefmt::skip]
const DOTCONFIGS: &[(&str, &[u8], &[u8], &str)] = &[
    ("two switches", DEMO, b"CONFIG_B=m\nCONFIG_A=y\n", "A=y B=m unknown 0"),
    ("CR LF and no end", DEMO, b"CONFIG_A=y\r\nCONFIG_B=m", "A=y B=m unknown 0"),
    ("off, and a name of none", DEMO, b"CONFIG_A=y\n# CONFIG_A is not set\nCONFIG_ZZ=7\n", "unknown 1"),
    ("on again", DEMO, b"# CONFIG_A is not set\nCONFIG_A=y\n", "A=y unknown 0"),
    ("n is off", DEMO, b"CONFIG_A=y\nCONFIG_A=n\n", "unknown 0"),
    ("unset names of none", DEMO, b"# CONFIG_ZZ is not set\n# CONFIG_ZZ is not set\n", "unknown 2"),
    ("no symbols, no lines", b"", b"", "unknown 0"),
    ("a comment with a CR after", DEMO, b"CONFIG_A=y\n# CONFIG_A is not set\r", "A=y unknown 0"),
    ("blanks", DEMO, b"\nCONFIG_A = y\n", "7 NotAConfigLine line 2"),
    ("a line of blanks", DEMO, b" \n", "7 NotAConfigLine line 1"),
    ("m for a bool", DEMO, b"CONFIG_A=m\n", "8 BadValue line 1"),
    ("a faulty value, then a good one", DEMO, b"CONFIG_A=x\nCONFIG_A=y\n", "8 BadValue line 1"),
    ("one symbol", b"config A\n\tbool\n", b"CONFIG_A=y\n", "A=y unknown 0"),
    ("three lines of a name", VALUES, b"CONFIG_I=1\nCONFIG_I=2\nCONFIG_I=3\n", "I=3 unknown 0"),
    ("and other names between", VALUES, b"CONFIG_I=1\nCONFIG_S=\"a\"\nCONFIG_I=2\nCONFIG_H=1\nCONFIG_I=3\n", "H=1 I=3 S=a unknown 0"),
    ("names that begin alike", ALIKE, b"CONFIG_a=y\nCONFIG__=y\nCONFIG_AA=y\nCONFIG_A_=y\nCONFIG_0=y\nCONFIG_A=y\n", "0=y A=y AA=y A_=y _=y a=y unknown 0"),
    ("quotes and backslashes", VALUES, b"CONFIG_S=\"a\\\"b\\\\c\"\n", "S=a\"b\\c unknown 0"),
    ("an empty string", VALUES, b"CONFIG_S=\"\"\n", "S= unknown 0"),
    ("the string n", VALUES, b"CONFIG_S=\"n\"\n", "S=n unknown 0"),
    ("a string that is not set", VALUES, b"CONFIG_S=\"a\"\n# CONFIG_S is not set\n", "unknown 0"),
    ("another escape", VALUES, b"CONFIG_S=\"a\\n\"\n", "8 BadValue line 1"),
    ("no closing quote", VALUES, b"CONFIG_S=\"a\n", "8 BadValue line 1"),
    ("no quotes", VALUES, b"CONFIG_S=a\n", "8 BadValue line 1"),
    ("bytes after the quote", VALUES, b"CONFIG_S=\"a\"b\n", "8 BadValue line 1"),
    ("minus zero", VALUES, b"CONFIG_I=-0\n", "I=-0 unknown 0"),
    ("a negative number", VALUES, b"CONFIG_I=-12\n", "I=-12 unknown 0"),
    ("idle zeros", VALUES, b"CONFIG_I=007\n", "8 BadValue line 1"),
    ("a lone minus", VALUES, b"CONFIG_I=-\n", "8 BadValue line 1"),
    ("a plus", VALUES, b"CONFIG_I=+1\n", "8 BadValue line 1"),
    ("no number", VALUES, b"CONFIG_I=\n", "8 BadValue line 1"),
    ("hex as it is written", VALUES, b"CONFIG_H=0x1f\nCONFIG_H=0X1F\n", "H=0X1F unknown 0"),
    ("a bare radix", VALUES, b"CONFIG_H=0x\n", "8 BadValue line 1"),
];

#[test]
fn dotconfigs(rt: HostRuntime) -> Result<(), AllocError> {
    let alloc = rt.alloc();
    for &(name, kconfig, text, want) in DOTCONFIGS {
        let found = dotconfig_outcome(alloc, &Kconfig::new(Dialect::Linux, kconfig), text)?;
        check_text(&rt, name, found.as_str(), want);
    }
    Ok(())
}

#[rattlefmt::skip]
const KCONFIGS_OF_DIALECTS: &[(&str, Dialect, &[u8], &str)] = &[
    ("a string of U-Boot", Dialect::UBoot, b"config A\n\tstring\n", "Main menu Some(Raw)"),
    ("a bool of U-Boot", Dialect::UBoot, b"config A\n\tdef_bool y\n", "Main menu Some(Bool)"),
    ("a module's name in U-Boot", Dialect::UBoot, b"config A_MODULE\n\tbool\n", "3 ModuleName line 1"),
    ("a string of BusyBox", Dialect::BusyBox, b"config A\n\tstring \"a\"\n", "Main menu Some(Raw)"),
    ("a bool of BusyBox", Dialect::BusyBox, b"config A\n\tbool \"a\"\n", "Main menu Some(Flag)"),
    ("a default", Dialect::BusyBox, b"config A\n\tdef_bool y\n", "Main menu Some(Flag)"),
    ("a name that ends in _MODULE", Dialect::BusyBox, b"config A_MODULE\n\tbool\nconfig A\n\tint\n", "Main menu Some(Int)"),
    ("a number of such a name", Dialect::BusyBox, b"config A\n\tbool\nconfig A_MODULE\n\tint\n", "3 ModuleName line 4"),
    ("such a name without a kind", Dialect::BusyBox, b"config A_MODULE\nconfig A\n\tbool\n", "4 NoType line 1"),
    ("a module's name after an entry without a kind", Dialect::Linux, b"config A\nconfig A_MODULE\n\tbool\n", "4 NoType line 1"),
];

#[test]
fn kconfigs_of_dialects(rt: HostRuntime) -> Result<(), AllocError> {
    let alloc = rt.alloc();
    for &(name, dialect, text, want) in KCONFIGS_OF_DIALECTS {
        let found = kconfig_outcome(alloc, &Kconfig::new(dialect, text), b"A")?;
        check_text(&rt, name, found.as_str(), want);
    }
    Ok(())
}

const FLAGS: &[u8] = b"config A_MODULE\n\tbool\nconfig A\n\tbool\n";

#[rattlefmt::skip]
const DOTCONFIGS_OF_DIALECTS: &[(&str, Dialect, &[u8], &[u8], &str)] = &[
    ("a backslash is one", Dialect::UBoot, VALUES, b"CONFIG_S=\"a\\n\"\n", "S=\"a\\n\" unknown 0"),
    ("a quote within", Dialect::UBoot, VALUES, b"CONFIG_S=\"a\"b\"\n", "S=\"a\"b\" unknown 0"),
    ("an escape is none", Dialect::UBoot, VALUES, b"CONFIG_S=\"a\\\"\n", "S=\"a\\\" unknown 0"),
    ("an empty string", Dialect::UBoot, VALUES, b"CONFIG_S=\"\"\n", "S=\"\" unknown 0"),
    ("one quote", Dialect::UBoot, VALUES, b"CONFIG_S=\"\n", "8 BadValue line 1"),
    ("no closing quote", Dialect::UBoot, VALUES, b"CONFIG_S=\"a\n", "8 BadValue line 1"),
    ("bytes after the quote", Dialect::UBoot, VALUES, b"CONFIG_S=\"a\"b\n", "8 BadValue line 1"),
    ("names of BusyBox", Dialect::BusyBox, FLAGS, b"CONFIG_A_MODULE=y\n# CONFIG_A is not set\n", "A_MODULE=y unknown 0"),
    ("n is off", Dialect::BusyBox, FLAGS, b"CONFIG_A_MODULE=n\nCONFIG_A=y\n", "A=y unknown 0"),
    ("m for a flag", Dialect::BusyBox, FLAGS, b"CONFIG_A=m\n", "8 BadValue line 1"),
];

#[test]
fn dotconfigs_of_dialects(rt: HostRuntime) -> Result<(), AllocError> {
    let alloc = rt.alloc();
    for &(name, dialect, kconfig, text, want) in DOTCONFIGS_OF_DIALECTS {
        let found = dotconfig_outcome(alloc, &Kconfig::new(dialect, kconfig), text)?;
        check_text(&rt, name, found.as_str(), want);
    }
    Ok(())
}

#[rattlefmt::skip]
const NAMES: &[(&str, &[u8], bool)] = &[
    ("128 bytes",   LONGEST, true),
    ("no byte",     b"",     false),
    ("a hyphen",    b"A-B",  false),
    ("a low line",  b"_0",   true),
];

#[rattlefmt::skip]
const PATHS: &[(&str, &[u8], bool)] = &[
    ("a directory above", b"/a/../b.h", true),
    ("a space",        b"a b",       false),
    ("a dollar",       b"a$b",       false),
    ("a colon",        b"a:",        false),
    ("a directory",       b"a/",        true),
    ("no byte",        b"",          false),
];

#[rattlefmt::skip]
const TARGETS: &[(&str, &[u8], bool)] = &[
    ("a directory", b"a/",    false),
    ("a file",   b"d/x.o", true),
];

/// Which names, paths and targets are legal.
fn check_legal(rt: &impl Abort) {
    for &(row, name, is_legal) in NAMES {
        check(rt, row, name_is_legal(name) == is_legal);
    }
    for &(row, path, is_legal) in PATHS {
        check(rt, row, path_is_legal(path) == is_legal);
    }
    for &(row, target, is_legal) in TARGETS {
        check(rt, row, target_is_legal(target) == is_legal);
    }
}

/// A name and a path, once each: they are the bytes that they were made of.
fn check_made(rt: &impl Abort, alloc: Global) -> Result<(), AllocError> {
    if name_is_legal(LONGEST) {
        let name = Name::new(alloc, LONGEST)?;
        check_bytes(rt, "a name", name.as_bytes(), LONGEST);
    }
    let path = b"d/x.o".as_slice();
    if path_is_legal(path) {
        let made = Path::new(alloc, path)?;
        check_bytes(rt, "a path", made.as_bytes(), path);
    }
    Ok(())
}

#[test]
fn names_and_paths(rt: HostRuntime) -> Result<(), AllocError> {
    check_legal(&rt);
    check_made(&rt, rt.alloc())?;
    let mut longer = Vec::from_slice(rt.alloc(), LONGEST)?;
    longer.push(b'N')?;
    check(&rt, "129 bytes", !name_is_legal(&longer));
    Ok(())
}

#[rattlefmt::skip]
const VALUES_OF_KINDS: &[(&str, Kind, &[u8], bool)] = &[
    ("m of a tristate",        Kind::Tristate, b"m",          true),
    ("m of a bool",            Kind::Bool,     b"m",          false),
    ("no text",                Kind::Text,     b"",           true),
    ("two lines of a text",    Kind::Text,     b"a\nb",       false),
    ("a raw value",            Kind::Raw,      b"\"a\"",      true),
    ("two lines of a raw one", Kind::Raw,      b"\"a\nb\"",   false),
    ("y of a flag",            Kind::Flag,     b"y",          true),
    ("m of a flag",            Kind::Flag,     b"m",          false),
    ("y of a companion",       Kind::Companion, b"y",         true),
    ("m of a companion",       Kind::Companion, b"m",         false),
    ("n of a companion",       Kind::Companion, b"n",         false),
    ("no value of an int",     Kind::EmptyInt, b"",           true),
    ("no bytes of an int",     Kind::Int,      b"",           false),
    ("a value of an empty hex", Kind::EmptyHex, b"0",         false),
];

fn check_values(rt: &impl Abort) {
    for &(row, kind, value, is_valid) in VALUES_OF_KINDS {
        check(rt, row, value_is_valid(kind, value) == is_valid);
    }
}

const NO_DECIMALS: &[&[u8]] = &[b"18446744073709551616", b"01", b"", b"1 ", b"+1"];

/// The greatest number is read and written.
fn check_decimals(rt: &impl Abort, alloc: Global) -> Result<(), AllocError> {
    check(
        rt,
        "the greatest number",
        read_decimal(b"18446744073709551615") == Some(u64::MAX),
    );
    for text in NO_DECIMALS {
        check(rt, "no number", read_decimal(text).is_none());
    }
    let mut out = Vec::new(alloc);
    write_decimal(u64::MAX, &mut out)?;
    check_bytes(rt, "the greatest number", &out, b"18446744073709551615");
    Ok(())
}

fn assigns(line: &[u8], name: &[u8], value: &[u8]) -> bool {
    match parse_statement(line) {
        Some(Statement::Assigns(found, text)) => found == name && text == value,
        _ => false,
    }
}

fn unsets(line: &[u8], name: &[u8]) -> bool {
    match parse_statement(line) {
        Some(Statement::Unsets(found)) => found == name,
        _ => false,
    }
}

fn check_statements(rt: &impl Abort) {
    check(rt, "an assignment", assigns(b"CONFIG_A=y=z", b"A", b"y=z"));
    check(rt, "unset", unsets(b"# CONFIG_A is not set", b"A"));
    check(rt, "no name", parse_statement(b"CONFIG_=y").is_none());
    check(
        rt,
        "no set",
        parse_statement(b"# CONFIG_A is not").is_none(),
    );
    check(rt, "no byte", is_comment_or_blank(b""));
    check(rt, "a comment", is_comment_or_blank(b"#"));
    check(rt, "a blank", !is_comment_or_blank(b" "));
}

#[test]
fn values_and_lines(rt: HostRuntime) -> Result<(), AllocError> {
    check_values(&rt);
    check_statements(&rt);
    check_decimals(&rt, rt.alloc())
}

fn check_symbols(rt: &impl Abort, symbols: &Symbols) {
    check(rt, "H", symbols.kind_of(b"H") == Some(Kind::Hex));
    check_bytes(rt, "the title", symbols.title(), b"Main menu");
}

fn check_settings(rt: &impl Abort, settings: &Settings) {
    check(
        rt,
        "S",
        matches!(settings.get(b"S"), Some((Kind::Text, b"a"))),
    );
    check(rt, "I", settings.get(b"I").is_none());
    check(rt, "T", settings.get(b"T").is_none());
}

#[test]
fn look_ups(rt: HostRuntime) -> Result<(), SourceError> {
    let symbols = read_kconfig(rt.alloc(), &Kconfig::new(Dialect::Linux, VALUES))?;
    check_symbols(&rt, &symbols);
    let settings = read_dotconfig(rt.alloc(), b"CONFIG_S=\"a\"\nCONFIG_H=1f\n", &symbols)?;
    check_settings(&rt, &settings);
    Ok(())
}
