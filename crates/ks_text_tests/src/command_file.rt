//! Command files as they stand on disk: read, written, cut and damaged.
use crate::check::{check, check_text};
use bstr::ByteSlice;
use ks_fixdep::{CommandError, CommandFile, Dep, command_is_legal, read_command, write_command};
use ks_symbols::MAX_BYTES;
use memchr::memrchr;
use std::alloc::{AllocError, Global};
use std::process::Abort;
use std::test::Fail;

/// A worked command file.
const WORKED: &[u8] = br#"savedcmd_x.o := cc -c x.c

source_x.o := x.c

deps_x.o := \
    $(wildcard include/config/A) \
    $(wildcard include/config/B) \
  a.h \
    $(wildcard include/config/C) \
  b.h \

x.o: $(deps_x.o)

$(deps_x.o):
#generation 1
"#;

/// Its lines in front of that of the generation.
const LINES: usize = 14;

/// From how many bytes on a beginning of each of these lines fits as that line. A command may be empty, and a source may
/// be shorter; the other lines fit whole. Before the line feed of an empty line there is no line.
const FITS_FROM: [usize; LINES] = [16, 0, 15, 0, 13, 34, 34, 7, 34, 7, 0, 16, 0, 12];

/// The bytes of a generation line's mark.
const MARK: usize = 12;

/// The generation that a text is read with.
fn generation_of(alloc: Global, text: &[u8]) -> Result<Option<u64>, CommandError> {
    let file = read_command(alloc, text)?;
    Ok(file.generation)
}

/// What a line of a dependency names.
fn named(dep: &Dep) -> &[u8] {
    match dep {
        Dep::File(path) => path.as_bytes(),
        Dep::Config(name) => name.as_bytes(),
    }
}

/// What the lines of dependencies name, each with a space after it.
fn all_named(alloc: Global, deps: &[Dep]) -> Result<Vec<u8>, AllocError> {
    let mut all = Vec::new(alloc);
    for dep in deps {
        all.extend_from_slice(named(dep))?;
        all.push(b' ')?;
    }
    Ok(all)
}

/// Whether all but the generation of a command file is as the worked one has it.
fn is_worked(alloc: Global, file: &CommandFile) -> Result<bool, CommandError> {
    let named = all_named(alloc, &file.deps)?;
    Ok(
        file.target.as_bytes() == b"x.o".as_slice()
            && file.command.as_slice() == b"cc -c x.c".as_slice()
            && file.source.as_bytes() == b"x.c".as_slice()
            && named.as_slice() == b"A B a.h C b.h ".as_slice(),
    )
}

/// What is written of a command file, after a word that stood there before where it is as the worked one, with this generation.
fn written(
    alloc: Global,
    file: &CommandFile,
    generation: Option<u64>,
) -> Result<Vec<u8>, CommandError> {
    let mut out = Vec::new(alloc);
    if is_worked(alloc, file)? && file.generation == generation {
        out.extend_from_slice(b"before ")?;
    }
    write_command(file, &mut out)?;
    Ok(out)
}

/// What is written of a text that was read.
fn written_again(
    alloc: Global,
    text: &[u8],
    generation: Option<u64>,
) -> Result<Vec<u8>, CommandError> {
    let file = read_command(alloc, text)?;
    written(alloc, &file, generation)
}

#[test]
fn a_command_file_is_read_and_written_again(rt: HostRuntime) -> Result<(), Fail> {
    let out = written_again(rt.alloc(), WORKED, Some(1))?;
    check(
        &rt,
        "as it stands",
        out.strip_prefix(b"before ") == Some(WORKED),
    );
    Ok(())
}

#[test]
fn a_command_file_without_a_generation_too(rt: HostRuntime) -> Result<(), Fail> {
    let unnumbered = WORKED.replace(rt.alloc(), b"#generation 1\n", b"")?;
    let out = written_again(rt.alloc(), &unnumbered, None)?;
    check(
        &rt,
        "unnumbered",
        out.strip_prefix(b"before ") == Some(unnumbered.as_slice()),
    );
    Ok(())
}

/// What a command file comes to in which one text stands in the place of another: its generation, or the line that is refused.
#[rattlefmt::skip]
const DAMAGES: &[(&str, &[u8], &[u8], Result<Option<u64>, u64>)] = &[
    ("as it is",                  b"",                b"",                               Ok(Some(1))),
    ("a line of Kbuild after",   b"#generation 1\n", b"#generation 1\n#SYMVER f 0x1\n", Ok(Some(1))),
    ("the last generation",       b"#generation 1\n", b"#generation 1\n#generation 5\n", Ok(Some(5))),
    ("the greatest generation",   b"generation 1",    b"generation 18446744073709551615", Ok(Some(u64::MAX))),
    ("a greater one",             b"generation 1",    b"generation 18446744073709551616", Err(15)),
    ("a leading zero",            b"generation 1",    b"generation 01",                  Err(15)),
    ("no line feed after it",    b"generation 1\n",  b"generation 1",                   Err(15)),
    ("another comment",           b"#generation 1\n", b"#generations 1",                 Ok(None)),
    ("a directory above",            b"config/A)",       b"config/../A)",                   Err(6)),
    ("three spaces",              b"    $(wildcard include/config/B", b"   $(wildcard include/config/B", Err(7)),
    ("a directory as target",        b"x.o",             b"x/",                             Err(1)),
    ("a carriage return",         b"cc -c",           b"cc\r-c",                         Err(1)),
    ("another target's source",   b"source_x.o",      b"source_y.o",                     Err(3)),
    ("a source with a space",     b":= x.c",          b":= x .c",                        Err(3)),
    ("two empty lines",           b"b.h \\\n\n",      b"b.h \\\n\n\n",                   Err(12)),
    ("CR LF",                     b"\n",              b"\r\n",                           Err(1)),
];

/// The answer with this generation, or with the refusal of this line.
fn answer(outcome: Result<Option<u64>, u64>) -> Result<Option<u64>, CommandError> {
    match outcome {
        Ok(generation) => Ok(generation),
        Err(line) => Err(CommandError::BadCommandFile(line)),
    }
}

/// A text comes to this generation or this refusal.
fn check_answer(
    rt: &impl Abort,
    alloc: Global,
    row: &str,
    text: &[u8],
    want: Result<Option<u64>, CommandError>,
) {
    assert_eq!(rt;
        generation_of(alloc, text),
        want,
        "{row}, {} bytes",
        text.len()
    );
}

#[test]
fn a_damaged_command_file_is_refused_with_its_line(rt: HostRuntime) -> Result<(), Fail> {
    for &(row, old, new, want) in DAMAGES {
        let text = WORKED.replace(rt.alloc(), old, new)?;
        check_answer(&rt, rt.alloc(), row, &text, answer(want));
    }
    Ok(())
}

/// How many lines have their line feed.
fn whole_lines(text: &[u8]) -> usize {
    let mut lines = 0_usize;
    for byte in text {
        if *byte == b'\n' {
            lines = lines.saturating_add(1);
        }
    }
    lines
}

/// How many bytes stand after the last line feed.
fn open_bytes(text: &[u8]) -> usize {
    match memrchr(b'\n', text) {
        Some(end) => text.len() - end - 1,
        None => text.len(),
    }
}

/// What a beginning of the worked command file comes to. The lines that have their line feed fit. A beginning of the next line
/// fits or not, and is the fault if not; where it fits, the line after it is missing. After the last line of the layout
/// nothing has to stand, but what begins as a generation line has to end.
fn answer_of_cut(text: &[u8]) -> Result<Option<u64>, CommandError> {
    let whole = whole_lines(text);
    let open = open_bytes(text);
    if whole > LINES {
        return Ok(Some(1));
    }
    let fitting = if whole < LINES && 0 < open && FITS_FROM[whole] <= open {
        whole + 1
    } else {
        whole
    };
    if fitting < LINES || (whole == LINES && MARK <= open) {
        return Err(CommandError::BadCommandFile(fitting as u64 + 1));
    }
    Ok(None)
}

#[test]
fn each_cut_is_read_or_refused_at_its_first_missing_line(rt: HostRuntime) {
    for end in 0..=WORKED.len() {
        let text = &WORKED[..end];
        check_answer(&rt, rt.alloc(), "a cut", text, answer_of_cut(text));
    }
}

/// The worked command file as far as its first line that ends so.
fn worked_up_to(end: &str) -> &'static [u8] {
    match WORKED.split_once_str(end.as_bytes()) {
        Some((_, rest)) => WORKED.strip_suffix(rest).unwrap_or(WORKED),
        None => WORKED,
    }
}

/// Where a text ends, and the line that is at fault.
const ENDS: &[(&str, u64)] = &[
    ("  a.h \\\n", 9),
    ("  a.h \\", 9),
    ("  a.h", 8),
    ("cc -c x.c\n", 2),
    ("cc -c x.c", 2),
];

#[test]
fn a_text_ends_too_early(rt: HostRuntime) {
    for &(end, line) in ENDS {
        let text = worked_up_to(end);
        check_answer(&rt, rt.alloc(), end, text, answer(Err(line)));
    }
}

#[test]
fn a_longer_text_is_too_large(rt: HostRuntime) -> Result<(), Fail> {
    let mut text = vec![in rt.alloc(); b'\n'; MAX_BYTES]?;
    check_answer(&rt, rt.alloc(), "the largest", &text, answer(Err(1)));
    text.push(b'\n')?;
    let too_large = Err(CommandError::TooLarge);
    check_answer(&rt, rt.alloc(), "a larger one", &text, too_large);
    Ok(())
}

const REFUSALS: &[(CommandError, &str)] = &[
    (CommandError::BadCommandFile(9), "23 BadCommandFile line 9"),
    (CommandError::TooLarge, "9 TooLarge"),
    (CommandError::OutOfMemory, "10 OutOfMemory"),
];

#[test]
fn refusals_report_their_number_and_line(rt: HostRuntime) -> Result<(), Fail> {
    for (error, want) in REFUSALS {
        let text = error.to_string(rt.alloc())?;
        check_text(&rt, "a refusal", text.as_str(), *want);
    }
    Ok(())
}

const COMMANDS: &[(&str, bool)] = &[
    ("", true),
    ("cc -c x.c", true),
    ("a\nb", false),
    ("a\rb", false),
    ("a\0b", false),
];

#[test]
fn a_command_is_one_line(rt: HostRuntime) {
    for &(command, legal) in COMMANDS {
        check(&rt, command, command_is_legal(command.as_bytes()) == legal);
    }
}
