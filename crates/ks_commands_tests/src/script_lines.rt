//! Scripts as they stand in files, and what is read of them.
use crate::steps::{check, check_text};
use ks_requests::{ScriptError, ScriptLine, read_script};
use std::alloc::{AllocError, Global};
use std::process::Abort;

/// The words of a line.
fn args_of<'a>(line: &ScriptLine<'a>) -> [&'a [u8]; 4] {
    match *line {
        ScriptLine::Sync(kconfig, dotconfig) => [b"sync", kconfig, dotconfig, b""],
        ScriptLine::Record(depfile, target, command) => [b"record", depfile, target, command],
        ScriptLine::Stale(target) => [b"stale", target, b"", b""],
    }
}

fn push_args(alloc: Global, whole: &mut String, args: &[&[u8]]) -> Result<(), AllocError> {
    for word in args {
        whole.push_str(&String::from_utf8_lossy(alloc, word)?)?;
        whole.push_str("|")?;
    }
    whole.push_str("\n")
}

/// Lines with their words between bars.
fn spelled(alloc: Global, lines: &[ScriptLine<'_>]) -> Result<String, AllocError> {
    let mut whole = String::new(alloc);
    for line in lines {
        push_args(alloc, &mut whole, &args_of(line))?;
    }
    Ok(whole)
}

/// What a script asks for, with its words between bars, or the refusal.
fn outcome(alloc: Global, text: &[u8]) -> Result<String, AllocError> {
    match read_script(alloc, text) {
        Ok(lines) => spelled(alloc, &lines),
        Err(error) => error.to_string(alloc),
    }
}

#[rattlefmt::skip]
const SCRIPTS: &[(&str, &[u8], &str)] = &[
    ("nothing", b"", ""),
    ("comments and empty lines alone", b"# x\n\n#\n", ""),
    ("a line of each kind", b"sync K C\nrecord x.d x.o cc -c x.c\nstale x.o\n", "sync|K|C||\nrecord|x.d|x.o|cc -c x.c|\nstale|x.o|||\n"),
    ("CR LF", b"# x\r\n\r\nsync K C\r\nstale x.o\r\n", "sync|K|C||\nstale|x.o|||\n"),
    ("a last line without its end", b"stale y.o\nstale x.o", "stale|y.o|||\nstale|x.o|||\n"),
    ("an empty command", b"record x.d x.o \n", "record|x.d|x.o||\n"),
    ("a command of spaces", b"record x.d x.o  cc  \n", "record|x.d|x.o| cc  |\n"),
    ("a target that is no path", b"stale a$b\n", "stale|a$b|||\n"),
    ("a dependency file that is no path", b"record a$b x.o cc\n", "record|a$b|x.o|cc|\n"),
    ("a lone CR", b"stale x\r.o\r", "stale|x\r.o\r|||\n"),
    ("two targets", b"stale x.o y.o", "50 BadScript line 1"),
    ("two spaces before a target", b"stale  x.o", "50 BadScript line 1"),
    ("no third space", b"record x.d x.o", "50 BadScript line 1"),
    ("no target", b"stale\n", "50 BadScript line 1"),
    ("an empty target", b"stale \n", "50 BadScript line 1"),
    ("a space after a target", b"stale x.o \n", "50 BadScript line 1"),
    ("two spaces between paths", b"sync K  C\n", "50 BadScript line 1"),
    ("a space after paths", b"sync K C \n", "50 BadScript line 1"),
    ("one path", b"sync K\n", "50 BadScript line 1"),
    ("a Kconfig that is no path", b"\n\nsync K$ C\n", "50 BadScript line 3"),
    ("a .config that is no path", b"# x\nsync K C:\n", "50 BadScript line 2"),
    ("two spaces before a target of a record", b"record x.d  x.o cc\n", "50 BadScript line 1"),
    ("an empty dependency file", b"record  x.o cc\n", "50 BadScript line 1"),
    ("a space in front", b" stale x.o\n", "50 BadScript line 1"),
    ("a comment after a space", b" # x\n", "50 BadScript line 1"),
    ("another command", b"stale x.o\npreview K C\n", "50 BadScript line 2"),
    ("the first faulty line", b"stale x.o\r\nstale\r\nsync K\r\n", "50 BadScript line 2"),
];

#[test]
fn scripts(rt: HostRuntime) -> Result<(), AllocError> {
    let alloc = rt.alloc();
    for &(name, text, want) in SCRIPTS {
        let found = outcome(alloc, text)?;
        check_text(&rt, name, found.as_str(), want);
    }
    Ok(())
}

#[rattlefmt::skip]
const CUTS: &[(usize, usize, &str)] = &[
    (0, 0, "read 0"),
    (1, 7, "50 BadScript line 1"),
    (8, 9, "read 1"),
    (10, 23, "50 BadScript line 2"),
    (24, 26, "read 2"),
    (27, 32, "50 BadScript line 3"),
    (33, 36, "read 3"),
];

/// How many lines a script has, or the refusal.
fn count(alloc: Global, text: &[u8]) -> Result<String, AllocError> {
    match read_script(alloc, text) {
        Ok(lines) => format!(in alloc; "read {}", lines.len()),
        Err(error) => error.to_string(alloc),
    }
}

/// The rows that stand for this length want that.
fn check_cut(rt: &impl Abort, end: usize, found: &str) {
    for &(first, last, want) in CUTS {
        if first <= end && end <= last {
            check_text(rt, "cut", found, want);
        }
    }
}

#[test]
fn cuts(rt: HostRuntime) -> Result<(), AllocError> {
    let whole = b"sync K C\nrecord x.d x.o c\nstale x.o\n".as_slice();
    for end in 0..=whole.len() {
        let found = count(rt.alloc(), &whole[..end])?;
        check_cut(&rt, end, found.as_str());
    }
    Ok(())
}

/// The outcome of a line whose one path or word is as long as that.
fn long_outcome(
    alloc: Global,
    front: &[u8],
    length: usize,
    back: &[u8],
) -> Result<String, AllocError> {
    let mut line = Vec::from_slice(alloc, front)?;
    line.extend_from_slice(&vec![in alloc; b'N'; length]?)?;
    line.extend_from_slice(back)?;
    outcome(alloc, &line)
}

#[rattlefmt::skip]
const LONG_ARGS: &[(&str, &[u8], usize, &[u8], &[u8])] = &[
    ("a Kconfig of 129 bytes", b"sync ", 129, b" C", b"sync|"),
    ("a target of 129 bytes", b"stale ", 129, b"", b"stale|"),
    ("a longest path", b"sync K ", 1024, b"", b"sync|K|"),
    ("a longer path", b"sync K ", 1025, b"", b"50 BadScript line 1"),
    ("a word longer than a path", b"record ", 1025, b" x.o cc", b"record|"),
    ("a long command", b"record x.d x.o ", 5000, b"", b"record|x.d|x.o|"),
];

#[test]
fn long_args(rt: HostRuntime) -> Result<(), AllocError> {
    for &(name, front, length, back, want) in LONG_ARGS {
        let found = long_outcome(rt.alloc(), front, length, back)?;
        check(&rt, name, found.as_bytes().starts_with(want));
    }
    Ok(())
}

#[test]
fn refusals(rt: HostRuntime) -> Result<(), AllocError> {
    let mut comment = vec![in rt.alloc(); b'#'; 67_108_864]?;
    let found = outcome(rt.alloc(), &comment)?;
    check_text(&rt, "as much as may be", found.as_str(), "");
    comment.push(b'\n')?;
    let found = outcome(rt.alloc(), &comment)?;
    check_text(&rt, "a byte more", found.as_str(), "9 TooLarge");
    let found = ScriptError::OutOfMemory.to_string(rt.alloc())?;
    check_text(&rt, "no memory", found.as_str(), "10 OutOfMemory");
    Ok(())
}
