//! Worked examples: whole files as they are written, and what is read of others.
use crate::check::{check, check_cut, check_text};
use crate::compare::lines_falling;
use ks_output::{OldConfig, read_auto, read_auto_generation, write_auto, write_header};
use ks_symbols::{Class, Dialect, Kconfig, Settings, Symbols, read_dotconfig, read_kconfig};
use std::alloc::{AllocError, Global};
use std::process::Abort;

const SWITCHES: &[u8] = b"mainmenu \"Demo\"\nconfig A\n\tbool\nconfig B\n\ttristate\n";

const STRING: &[u8] = b"config S\n\tstring\n";

const NUMBERS: &[u8] =
    b"config G\n\thex\nconfig H\n\thex\nconfig I\n\thex\nconfig J\n\tint\nconfig K\n\tint\nconfig L\n\tint\n";

const AUTO_HEAD: &[u8] =
    b"#\n# Automatically generated file; DO NOT EDIT.\n# Main menu\n#\n#typed\n";

const SWITCHES_AUTO: &[u8] = br#"#
# Automatically generated file; DO NOT EDIT.
# Demo
#
#typed
CONFIG_A=y
CONFIG_B=m
#generation 1
"#;

const SWITCHES_HEADER: &[u8] = br#"/*
 * Automatically generated file; DO NOT EDIT.
 * Demo
 */
#define CONFIG_A 1
#define CONFIG_B_MODULE 1
"#;

/// An auto.conf of generation 1 and a header, each after a word that stood there before.
#[derive(Drop)]
struct Written {
    auto: Vec<u8>,
    header: Vec<u8>,
}

fn write_both(settings: &Settings, title: &[u8], files: &mut Written) -> Result<(), AllocError> {
    write_auto(settings, title, 1, &mut files.auto)?;
    write_header(settings, title, &mut files.header)
}

/// Writes what a `.config` says of these symbols; nothing where it is refused.
fn write_settings(
    alloc: Global,
    symbols: &Symbols,
    dotconfig: &[u8],
    files: &mut Written,
) -> Result<(), AllocError> {
    match read_dotconfig(alloc, dotconfig, symbols) {
        Ok(settings) => write_both(&settings, symbols.title(), files),
        Err(_) => Ok(()),
    }
}

/// The same of the symbols of a Kconfig.
fn write_texts(
    alloc: Global,
    kconfig: &Kconfig<'_>,
    dotconfig: &[u8],
    files: &mut Written,
) -> Result<(), AllocError> {
    match read_kconfig(alloc, kconfig) {
        Ok(symbols) => write_settings(alloc, &symbols, dotconfig, files),
        Err(_) => Ok(()),
    }
}

/// Two files with nothing but those words.
fn begun(alloc: Global) -> Result<Written, AllocError> {
    let auto = Vec::from_slice(alloc, b"auto:".as_slice())?;
    let header = Vec::from_slice(alloc, b"header:".as_slice())?;
    Ok(Written { auto, header })
}

/// The files of two source texts in a dialect.
fn files_in(
    alloc: Global,
    dialect: Dialect,
    kconfig: &[u8],
    dotconfig: &[u8],
) -> Result<Written, AllocError> {
    let mut files = begun(alloc)?;
    write_texts(
        alloc,
        &Kconfig::new(dialect, kconfig),
        dotconfig,
        &mut files,
    )?;
    Ok(files)
}

/// The same in that of Linux.
fn files_of(alloc: Global, kconfig: &[u8], dotconfig: &[u8]) -> Result<Written, AllocError> {
    files_in(alloc, Dialect::Linux, kconfig, dotconfig)
}

/// Whether a text is made of these pieces, one after the other.
fn is_made_of(text: &[u8], pieces: &[&[u8]]) -> bool {
    let mut rest = text;
    for piece in pieces {
        match rest.strip_prefix(*piece) {
            Some(after) => rest = after,
            None => return false,
        }
    }
    rest.is_empty()
}

/// The files are made of these pieces.
fn check_files(rt: &impl Abort, name: &str, files: &Written, auto: &[&[u8]], header: &[&[u8]]) {
    check(rt, name, is_made_of(&files.auto, auto));
    check(rt, name, is_made_of(&files.header, header));
}

#[test]
fn files_of_switches(rt: HostRuntime) -> Result<(), AllocError> {
    let files = files_of(rt.alloc(), SWITCHES, b"CONFIG_B=m\nCONFIG_A=y\n")?;
    let auto = [b"auto:", SWITCHES_AUTO];
    let header = [b"header:", SWITCHES_HEADER];
    check_files(&rt, "switches", &files, &auto, &header);
    check(&rt, "auto.conf", files.auto.len() == 5 + 99);
    check(&rt, "the header", files.header.len() == 7 + 106);
    Ok(())
}

/// The files of a configuration with this title have these entries and definitions, and nothing else.
fn check_entries(
    rt: &impl Abort,
    name: &str,
    files: &Written,
    title: &[u8],
    (entries, definitions): (&[u8], &[u8]),
) {
    let auto: [&[u8]; 6] = [
        b"auto:",
        b"#\n# Automatically generated file; DO NOT EDIT.\n# ",
        title,
        b"\n#\n#typed\n",
        entries,
        b"#generation 1\n",
    ];
    let header: [&[u8]; 5] = [
        b"header:",
        b"/*\n * Automatically generated file; DO NOT EDIT.\n * ",
        title,
        b"\n */\n",
        definitions,
    ];
    check_files(rt, name, files, &auto, &header);
}

const DEMO: &[u8] = b"Demo";

const MAIN: &[u8] = b"Main menu";

#[rattlefmt::skip]
const FILES_OF_OTHER_KINDS: &[(&str, &[u8], &[u8], &[u8], &[u8], &[u8])] = &[
    ("nothing at all", MAIN, b"", b"", b"", b""),
    ("an undeclared name", DEMO, SWITCHES, b"CONFIG_A=y\n# CONFIG_A is not set\nCONFIG_ZZ=7\n", b"", b""),
    ("quotes and backslashes", MAIN, STRING, br#"CONFIG_S="a\"b\\c""#, b"#type S string\nCONFIG_S=a\"b\\c\n", b"#define CONFIG_S \"a\\\"b\\\\c\"\n"),
    ("an empty string", MAIN, STRING, b"CONFIG_S=\"\"\n", b"#type S string\nCONFIG_S=\n", b"#define CONFIG_S \"\"\n"),
    ("the string n", MAIN, STRING, b"CONFIG_S=\"n\"\n", b"#type S string\nCONFIG_S=n\n", b"#define CONFIG_S \"n\"\n"),
    ("the string y", MAIN, STRING, b"CONFIG_S=\"y\"\n", b"#type S string\nCONFIG_S=y\n", b"#define CONFIG_S \"y\"\n"),
    ("hexadecimal numbers", MAIN, NUMBERS, b"CONFIG_G=1f\nCONFIG_H=0x1f\nCONFIG_I=0X1F\n",
        b"#type G hex\nCONFIG_G=1f\n#type H hex\nCONFIG_H=0x1f\n#type I hex\nCONFIG_I=0X1F\n", b"#define CONFIG_G 0x1f\n#define CONFIG_H 0x1f\n#define CONFIG_I 0X1F\n"),
    ("integers", MAIN, NUMBERS, b"CONFIG_J=-0\nCONFIG_K=0\nCONFIG_L=-12\n",
        b"#type J int\nCONFIG_J=-0\n#type K int\nCONFIG_K=0\n#type L int\nCONFIG_L=-12\n", b"#define CONFIG_J -0\n#define CONFIG_K 0\n#define CONFIG_L -12\n"),
];

#[test]
fn files_of_other_kinds(rt: HostRuntime) -> Result<(), AllocError> {
    for &(name, title, kconfig, dotconfig, entries, definitions) in FILES_OF_OTHER_KINDS {
        let files = files_of(rt.alloc(), kconfig, dotconfig)?;
        check_entries(&rt, name, &files, title, (entries, definitions));
    }
    Ok(())
}

#[rattlefmt::skip]
const FILES_OF_DIALECTS: &[(&str, Dialect, &[u8], &[u8], &[u8], &[u8])] = &[
    ("a string of U-Boot", Dialect::UBoot, STRING, br#"CONFIG_S="a\"b""#, b"#type S raw\nCONFIG_S=\"a\\\"b\"\n", b"#define CONFIG_S \"a\\\"b\"\n"),
    ("an empty one", Dialect::UBoot, STRING, b"CONFIG_S=\"\"\n", b"#type S raw\nCONFIG_S=\"\"\n", b"#define CONFIG_S \"\"\n"),
    ("a string of BusyBox", Dialect::BusyBox, STRING, b"CONFIG_S=\"./_install\"\n", b"#type S raw\nCONFIG_S=\"./_install\"\n", b"#define CONFIG_S \"./_install\"\n"),
    ("a bool of BusyBox", Dialect::BusyBox, b"config A\n\tbool\n", b"CONFIG_A=y\n", b"#type A flag\nCONFIG_A=y\n", b"#define ENABLE_A 1\n"),
    ("one whose name ends in _MODULE", Dialect::BusyBox, b"config A_MODULE\n\tbool\n", b"CONFIG_A_MODULE=y\n", b"#type A_MODULE flag\nCONFIG_A_MODULE=y\n", b"#define ENABLE_A_MODULE 1\n"),
];

#[test]
fn files_of_dialects(rt: HostRuntime) -> Result<(), AllocError> {
    for &(name, dialect, kconfig, dotconfig, entries, definitions) in FILES_OF_DIALECTS {
        let files = files_in(rt.alloc(), dialect, kconfig, dotconfig)?;
        check_entries(&rt, name, &files, MAIN, (entries, definitions));
    }
    Ok(())
}

/// The lines of the symbols S0000 to S0999 in an auto.conf.
fn lines_rising(alloc: Global) -> Result<String, AllocError> {
    let mut text = String::new(alloc);
    for number in 0..1000 {
        let line = format!(in alloc; "CONFIG_S{number:04}=y\n")?;
        text.push_str(&line)?;
    }
    Ok(text)
}

/// The files of a thousand symbols, the last of them first.
fn files_of_thousand(alloc: Global) -> Result<Written, AllocError> {
    let kconfig = lines_falling(alloc, 1000, "config ", "\n\tbool\n")?;
    let dotconfig = lines_falling(alloc, 1000, "CONFIG_", "=y\n")?;
    files_of(alloc, kconfig.as_bytes(), dotconfig.as_bytes())
}

#[test]
fn a_thousand_falling_symbols_are_written_rising(rt: HostRuntime) -> Result<(), AllocError> {
    let files = files_of_thousand(rt.alloc())?;
    let rising = lines_rising(rt.alloc())?;
    let want: [&[u8]; 4] = [b"auto:", AUTO_HEAD, rising.as_bytes(), b"#generation 1\n"];
    check(&rt, "auto.conf", is_made_of(&files.auto, &want));
    Ok(())
}

/// What stands between a name and its text.
fn mark_of(class: Option<Class>) -> &'static str {
    match class {
        None => "=",
        Some(Class::Switch) => ":switch=",
        Some(Class::Text) => ":string=",
        Some(Class::Int) => ":int=",
        Some(Class::Hex) => ":hex=",
        Some(Class::Raw) => ":raw=",
        Some(Class::Flag) => ":flag=",
    }
}

fn push_bytes(alloc: Global, whole: &mut String, bytes: &[u8]) -> Result<(), AllocError> {
    whole.push_str(&String::from_utf8_lossy(alloc, bytes)?)
}

fn push_entry(
    alloc: Global,
    whole: &mut String,
    name: &[u8],
    mark: &str,
    text: &[u8],
) -> Result<(), AllocError> {
    push_bytes(alloc, whole, name)?;
    whole.push_str(mark)?;
    push_bytes(alloc, whole, text)?;
    whole.push_str(" ")
}

/// The entries of an old configuration that its look-ups confirm.
fn entries_stated(alloc: Global, old: &OldConfig) -> Result<String, AllocError> {
    let mut whole = String::new(alloc);
    for (name, class, text) in old.entries() {
        if old.get(name).is_some() && old.class(name) == class {
            push_entry(alloc, &mut whole, name, mark_of(class), text)?;
        }
    }
    Ok(whole)
}

fn config_stated(alloc: Global, old: &OldConfig) -> Result<String, AllocError> {
    let entries = entries_stated(alloc, old)?;
    format!(in alloc; "{entries}#{}", old.generation())
}

/// What an auto.conf says, entry by entry and then its generation, or the refusal.
fn stated(alloc: Global, auto: &[u8]) -> Result<String, AllocError> {
    match read_auto(alloc, auto) {
        Ok(old) => config_stated(alloc, &old),
        Err(error) => error.to_string(alloc),
    }
}

fn is_empty(old: &OldConfig) -> bool {
    old.generation() == 0 && old.get(b"A").is_none() && old.class(b"A").is_none()
}

#[test]
fn no_auto_conf_yet(rt: HostRuntime) {
    let none = OldConfig::empty(rt.alloc());
    check(&rt, "no auto.conf", is_empty(&none));
}

#[rattlefmt::skip]
const READINGS: &[(&str, &[u8], &str)] = &[
    ("an empty text", b"", "#0"),
    ("a whole file", SWITCHES_AUTO, "A:switch=y B:switch=m #1"),
    ("the last line of a name", b"CONFIG_A=y\nCONFIG_A=m\n", "A=m #0"),
    ("the last generation", b"#generation 3\nCONFIG_S=a=b\n#generation 5\n", "S=a=b #5"),
    ("the largest generation", b"#generation 18446744073709551615\n", "#18446744073709551615"),
    ("one more than the largest", b"#generation 18446744073709551616\n", "11 BadAuto line 1"),
    ("a generation with an idle zero", b"#generation 05\n", "11 BadAuto line 1"),
    ("no generation", b"#generation \n", "11 BadAuto line 1"),
    ("a generation without its end", b"#\n# Auto\n# Demo\n#\nCONFIG_A=y\nCONFIG_B=m\n#generation 1", "11 BadAuto line 7"),
    ("a name that leaves its directory", b"#\n# Auto\n# Demo\n#\nCONFIG_../x=y\n", "11 BadAuto line 5"),
    ("no name", b"CONFIG_=y\n", "11 BadAuto line 1"),
    ("no text", b"\nCONFIG_A\n", "11 BadAuto line 2"),
    ("a blank in front", b" CONFIG_A=y\n", "11 BadAuto line 1"),
    ("the first faulty line", b"#generation 1\nA\n#generation 01\n", "11 BadAuto line 2"),
    ("names out of order", b"CONFIG_B=y\nCONFIG_A=y\n", "A=y B=y #0"),
    ("the text n", b"CONFIG_S=n\n", "S=n #0"),
    ("an empty string", b"CONFIG_S=\n", "S= #0"),
    ("a quoted text, as it stands", b"CONFIG_S=\"a\"\n", "S=\"a\" #0"),
    ("lines that end in CR LF", b"CONFIG_A=y\r\n#generation 4\r\n", "A=y #4"),
    ("a last line without its end", b"CONFIG_A=y", "A=y #0"),
    ("a name of a module", b"CONFIG_A_MODULE=y\n", "A_MODULE=y #0"),
    ("comments", b"# CONFIG_A is not set\n#generation\n#generation3\n", "#0"),
];

#[test]
fn readings(rt: HostRuntime) -> Result<(), AllocError> {
    let alloc = rt.alloc();
    for &(name, auto, want) in READINGS {
        let found = stated(alloc, auto)?;
        check_text(&rt, name, found.as_str(), want);
    }
    Ok(())
}

/// The generation of a text, or the refusal.
fn generation_stated(alloc: Global, auto: &[u8]) -> Result<String, AllocError> {
    match read_auto_generation(auto) {
        Ok(generation) => format!(in alloc; "#{generation}"),
        Err(error) => error.to_string(alloc),
    }
}

/// What both readers say of a text: the entries, and that both give its generation or the same refusal.
fn stated_twice(alloc: Global, auto: &[u8]) -> Result<String, AllocError> {
    let mut found = stated(alloc, auto)?;
    let generation = generation_stated(alloc, auto)?;
    if !found.as_str().ends_with(generation.as_str()) {
        found.push_str(" but ")?;
        found.push_str(&generation)?;
    }
    Ok(found)
}

#[rattlefmt::skip]
const TYPED_READINGS: &[(&str, &[u8], &str)] = &[
    ("each class", b"#typed\nCONFIG_A=m\n#type H hex\nCONFIG_H=10\n#type I int\nCONFIG_I=1\n#type S string\nCONFIG_S=y\n#generation 3\n",
        "A:switch=m H:hex=10 I:int=1 S:string=y #3"),
    ("no entries", b"#typed\n#generation 2\n", "#2"),
    ("another name", b"#typed\n#type S string\nCONFIG_T=x\n", "11 BadAuto line 2"),
    ("a longer name", b"#typed\n#type S string\nCONFIG_SS=x\n", "11 BadAuto line 2"),
    ("a class that is not written", b"#typed\n#type S bool\nCONFIG_S=x\n", "11 BadAuto line 2"),
    ("a blank at the end", b"#typed\n#type S string \nCONFIG_S=x\n", "11 BadAuto line 2"),
    ("no class", b"#typed\n#type S\nCONFIG_S=x\n", "11 BadAuto line 2"),
    ("no name", b"#typed\n#type string\nCONFIG_S=x\n", "11 BadAuto line 2"),
    ("the last line", b"#typed\nCONFIG_T=x\n#type S string\n", "11 BadAuto line 3"),
    ("the last line without its end", b"#typed\n#type S string", "11 BadAuto line 2"),
    ("a comment between", b"#typed\n#type S string\n#\nCONFIG_S=x\n", "11 BadAuto line 2"),
    ("two in a row", b"#typed\n#type S int\n#type S string\nCONFIG_S=x\n", "11 BadAuto line 2"),
    ("the first of two faults", b"#typed\n#type S int\nA\n", "11 BadAuto line 2"),
    ("a fault before a mark", b"A\n#typed\n#type S int\n", "11 BadAuto line 1"),
    ("an earlier line's class", b"#typed\n#type S string\nCONFIG_S=a\nCONFIG_S=y\n", "S:switch=y #0"),
    ("a later line's class", b"#typed\n#type S string\nCONFIG_S=a\n#type S int\nCONFIG_S=1\n", "S:int=1 #0"),
    ("lines that end in CR LF", b"#typed\r\n#type S string\r\nCONFIG_S=a\r\n", "S:string=a #0"),
    ("without the mark", b"#type S string\nCONFIG_T=x\n#type\n#type S bool\n", "T=x #0"),
    ("a mark after the first entry", b"CONFIG_T=x\n#typed\n#type S string\nCONFIG_S=y\n#type S\n", "S=y T=x #0"),
    ("before the mark", b"#type S string\n#type\n#type S\n#typed\nCONFIG_S=y\n", "S:switch=y #0"),
    ("two marks", b"#typed\n#typed\n#type S string\nCONFIG_S=y\n#typed\nCONFIG_T=y\n", "S:string=y T:switch=y #0"),
    ("almost a mark", b"#typed \n#type S string\nCONFIG_T=y\n", "T=y #0"),
];

#[test]
fn typed_readings(rt: HostRuntime) -> Result<(), AllocError> {
    let alloc = rt.alloc();
    for &(name, auto, want) in TYPED_READINGS {
        let found = stated_twice(alloc, auto)?;
        check_text(&rt, name, found.as_str(), want);
    }
    Ok(())
}

const CLASS: &[u8] = b"#typed\nCONFIG_A=y\n#type S string\nCONFIG_S=y\n";

/// What is said of a text that ends there.
fn stated_of_cut(end: usize) -> &'static str {
    let line = 18; // where the line of the class begins
    if end < line + 6 {
        "A:switch=y #0"
    } else if end < line + 15 + "CONFIG_S=".len() {
        "11 BadAuto line 3"
    } else if end < line + 15 + "CONFIG_S=y".len() {
        "A:switch=y S:string= #0"
    } else {
        "A:switch=y S:string=y #0"
    }
}

/// Where the text ends within or right after the line of a class, that line is refused, or what is left of it is a comment.
#[test]
fn cut_classes(rt: HostRuntime) -> Result<(), AllocError> {
    for end in 18..=CLASS.len() {
        let found = stated_twice(rt.alloc(), &CLASS[..end])?;
        check_cut(&rt, end, found.as_bytes(), stated_of_cut(end).as_bytes());
    }
    Ok(())
}

#[test]
fn size_limit(rt: HostRuntime) -> Result<(), AllocError> {
    let alloc = rt.alloc();
    let mut auto = vec![in alloc; b'#'; 67_108_864]?;
    let found = stated(alloc, &auto)?;
    check_text(&rt, "as much as may be", found.as_str(), "#0");
    auto.push(b'\n')?;
    let found = stated(alloc, &auto)?;
    check_text(&rt, "a byte more", found.as_str(), "9 TooLarge");
    Ok(())
}
