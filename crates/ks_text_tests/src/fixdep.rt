//! Texts with known names, whole and in pieces; dependency files; and objects with their command files.
ghost use Rattle.std.specs.Prelude.{◌<◌};

use crate::check::{check, check_bytes, check_cut, check_text};
use crate::golden;
use ks_fixdep::{
    CommandFile, DepError, FoundNames, NamesBySource, Prerequisites, Role, Scanner, build,
    build_from, names, read_depfile, record_text, token_at, write_command,
};
use ks_symbols::{MAX_BYTES, Seed, name_is_legal, write_decimal};
use std::alloc::{AllocError, Global};
use std::process::Abort;
use std::test::Fail;

/// What stands in place of a text where there are not as many texts as prerequisites.
const ANOTHER_NUMBER: &[u8] = b"another number of prerequisites";

/// Each name of a text after its place.
fn with_places(alloc: Global, text: &[u8]) -> Result<Vec<u8>, AllocError> {
    let mut all = Vec::new(alloc);
    for found in names(text) {
        write_decimal(found.place as u64, &mut all)?;
        all.push(b' ')?;
        all.extend_from_slice(found.name)?;
        all.push(b' ')?;
    }
    Ok(all)
}

fn push_name(all: &mut Vec<u8>, name: &[u8]) -> Result<(), AllocError> {
    all.extend_from_slice(name)?;
    all.push(b' ')?;
    Ok(())
}

/// The names that a scanner borrows for these pieces, and at the end.
fn borrowed(alloc: Global, pieces: &[&[u8]]) -> Result<Vec<u8>, AllocError> {
    let mut all = Vec::new(alloc);
    let mut scanner = Scanner::new();
    for piece in pieces {
        let fed = scanner.feed(piece);
        if let Some(name) = fed.carried {
            push_name(&mut all, name)?;
        }
        for found in fed.names {
            push_name(&mut all, found.name)?;
        }
    }
    if let Some(name) = scanner.finish() {
        push_name(&mut all, name)?;
    }
    Ok(all)
}

fn spelled(alloc: Global, found: &FoundNames) -> Result<Vec<u8>, AllocError> {
    let mut all = Vec::new(alloc);
    for name in found.names() {
        push_name(&mut all, name)?;
    }
    Ok(all)
}

/// A text in pieces of a size.
pub(crate) fn in_pieces(alloc: Global, text: &[u8], size: usize) -> Result<Vec<&[u8]>, AllocError>
    requires { 0 < size }
{
    let mut pieces = Vec::new(alloc);
    for piece in text.chunks(size) {
        pieces.push(piece)?;
    }
    Ok(pieces)
}

/// `CONFIG_`, so many letters, and what stands after them.
fn long_name(alloc: Global, letters: usize, following: &[u8]) -> Result<Vec<u8>, AllocError> {
    let mut text = Vec::new(alloc);
    text.extend_from_slice(b"CONFIG_")?;
    for _ in 0..letters {
        text.push(b'A')?;
    }
    text.extend_from_slice(following)?;
    Ok(text)
}

fn all_names(alloc: Global, text: &[u8]) -> Result<Vec<u8>, AllocError> {
    let mut all = Vec::new(alloc);
    for found in names(text) {
        push_name(&mut all, found.name)?;
    }
    Ok(all)
}

#[rattlefmt::skip]
const PLACED_NAMES: &[(&str, &[u8], &[u8])] = &[
    ("inside words, and with one suffix or two", golden::SUFFIXES, b"13 B 52 MODULE 66 C_MODULE 89 D "),
    ("inside a name",                  b"CONFIG_CONFIG_E",        b"0 CONFIG_E "),
    ("after bytes past ASCII",        b"\xc3\xa9CONFIG_A",       b"2 A "),
    ("after a NUL",                   b"a\0CONFIG_B",            b"2 B "),
    ("twice",                          b"CONFIG_A(CONFIG_A)",     b"0 A 9 A "),
    ("nothing after",                 b"CONFIG_",                b""),
    ("nothing at all",                 b"",                       b""),
];

#[test]
fn names_stand_at_their_places(rt: HostRuntime) -> Result<(), Fail> {
    for &(name, text, want) in PLACED_NAMES {
        let all = with_places(rt.alloc(), text)?;
        check_bytes(&rt, name, &all, want);
    }
    Ok(())
}

/// How many letters a name has, what follows it, and whether it is one.
const LONG_NAMES: &[(usize, &[u8], bool)] = &[
    (128, b"", true),
    (128, b"_MODULE", true),
    (128, b"_MODULEX", false),
    (129, b"", false),
    (129, b"_MODULE", false),
];

/// The place of the first name of a text, and its length.
fn first_name(text: &[u8]) -> Option<(usize, usize)> {
    match names(text).next() {
        Some(found) => Some((found.place, found.name.len())),
        None => None,
    }
}

/// A text is one name of so many letters, or none, whole and in pieces.
fn check_long_name(
    rt: &impl Abort,
    alloc: Global,
    text: &[u8],
    letters: Option<usize>,
) -> Result<(), AllocError> {
    let (first, length) = match letters {
        Some(letters) => (Some((0, letters)), letters.saturating_add(1)),
        None => (None, 0),
    };
    check(rt, "the first name", first_name(text) == first);
    for size in [1, 7, 142, 4096] {
        let all = borrowed_in(alloc, text, size)?;
        check(rt, "its length in pieces", all.len() == length);
    }
    Ok(())
}

#[test]
fn the_longest_name_whole_and_byte_by_byte(rt: HostRuntime) -> Result<(), Fail> {
    for &(letters, following, taken) in LONG_NAMES {
        let text = long_name(rt.alloc(), letters, following)?;
        let letters = if taken { Some(letters) } else { None };
        check_long_name(&rt, rt.alloc(), &text, letters)?;
    }
    Ok(())
}

#[rattlefmt::skip]
const SOURCES_IN_PIECES: &[(&str, &[&[u8]], &[u8])] = &[
    ("a name in three pieces",       &[b"int CON", b"FIG_ALP", b"HA;"],            b"ALPHA "),
    ("the word begins before",       &[b"HIS_", b"CONFIG_A"],                      b""),
    ("a suffix in two, and an empty piece", &[b"CONFIG_B_MOD", b"", b"ULE CONFIG_"], b"B "),
    ("no piece",                     &[],                                          b""),
    ("a name at the end of each",    &[b"CONFIG_A", b" CONFIG_B", b" CONFIG_B"],   b"A B B "),
];

#[test]
fn pieces_of_all_sizes_borrow_the_same_names(rt: HostRuntime) -> Result<(), Fail> {
    for &(name, pieces, want) in SOURCES_IN_PIECES {
        let all = borrowed(rt.alloc(), pieces)?;
        check_bytes(&rt, name, &all, want);
    }
    Ok(())
}

/// The names that a scanner borrows for a text in pieces of a size.
fn borrowed_in(alloc: Global, text: &[u8], size: usize) -> Result<Vec<u8>, AllocError>
    requires { 0 < size }
{
    let pieces = in_pieces(alloc, text, size)?;
    borrowed(alloc, &pieces)
}

/// Scans a source that comes in these pieces, as the next prerequisite.
fn scan_pieces(found: &mut NamesBySource, pieces: &[&[u8]]) -> Result<(), AllocError> {
    for piece in pieces {
        found.scan.feed(piece)?;
    }
    found.scan.end_source()?;
    note_source(found)
}

/// Notes the source that was scanned last as the next prerequisite.
pub(crate) fn note_source(found: &mut NamesBySource) -> Result<(), AllocError> {
    let place = found.sources.len();
    found.sources.push(place)?;
    Ok(())
}

/// The text of the command file of an object with these prerequisites, which were scanned.
fn record_of(
    alloc: Global,
    read: &Prerequisites,
    words: (&[u8], &[u8]),
    found: &mut NamesBySource,
) -> Result<Vec<u8>, AllocError> {
    if read.len() != found.sources.len() {
        return Vec::from_slice(alloc, ANOTHER_NUMBER);
    }
    Ok(record_text(alloc, words.0, words.1, read, found, None)?.text)
}

/// The text of the command file of an object whose only source was scanned.
fn record_of_source(alloc: Global, found: &mut NamesBySource) -> Result<Vec<u8>, DepError> {
    let read = read_depfile(alloc, b"x.o: x.c")?;
    Ok(record_of(alloc, &read, (b"x.o", b"cc"), found)?)
}

/// Scans the only source of an object, and makes that text.
fn record_of_pieces(
    alloc: Global,
    pieces: &[&[u8]],
    found: &mut NamesBySource,
) -> Result<Vec<u8>, DepError> {
    scan_pieces(found, pieces)?;
    record_of_source(alloc, found)
}

/// The same where the source is in pieces of a size.
fn record_in_pieces(alloc: Global, text: &[u8], size: usize) -> Result<Vec<u8>, DepError>
    requires { 0 < size }
{
    let pieces = in_pieces(alloc, text, size)?;
    let mut found = NamesBySource::with_seed(alloc, Seed::new(0));
    record_of_pieces(alloc, &pieces, &mut found)
}

/// The same text for a source with these names.
fn record_of_names(alloc: Global, names: &[u8]) -> Result<Vec<u8>, AllocError> {
    let mut text = Vec::from_slice(alloc, golden::SMALLEST_RECORD.0)?;
    for name in names.split(|byte| *byte == b' ') {
        if !name.is_empty() {
            text.extend_from_slice(b"    $(wildcard include/config/")?;
            text.extend_from_slice(name)?;
            text.extend_from_slice(b") \\\n")?;
        }
    }
    text.extend_from_slice(golden::SMALLEST_RECORD.1)?;
    Ok(text)
}

#[test]
fn a_short_source_in_pieces(rt: HostRuntime) -> Result<(), Fail> {
    for size in [1, 7, 4096] {
        let all = borrowed_in(rt.alloc(), b"int CONFIG_ALPHA;", size)?;
        check_cut(&rt, size, &all, b"ALPHA ");
    }
    Ok(())
}

#[test]
fn names_cut_at_each_byte(rt: HostRuntime) -> Result<(), Fail> {
    for size in 1..=300usize {
        let all = borrowed_in(rt.alloc(), golden::BORDERS, size)?;
        check_cut(&rt, size, &all, golden::BORDER_NAMES);
    }
    Ok(())
}

#[test]
fn names_cut_at_each_byte_are_listed_once(rt: HostRuntime) -> Result<(), Fail> {
    let want = record_of_names(rt.alloc(), golden::BORDER_NAMES_ONCE)?;
    for size in 1..=300usize {
        let text = record_in_pieces(rt.alloc(), golden::BORDERS, size)?;
        check_cut(&rt, size, &text, &want);
    }
    Ok(())
}

#[test]
fn names_in_no_pieces(rt: HostRuntime) -> Result<(), Fail> {
    let whole = all_names(rt.alloc(), golden::BORDERS)?;
    check_bytes(&rt, "in no pieces", &whole, golden::BORDER_NAMES);
    Ok(())
}

/// The names borrowed in pieces of 4096 bytes where a name begins three bytes before the end of the first.
fn borrowed_over_a_border(alloc: Global) -> Result<Vec<u8>, AllocError> {
    let mut text = vec![in alloc; b' '; 4093]?;
    text.extend_from_slice(b"CONFIG_ALPHA")?;
    borrowed_in(alloc, &text, 4096)
}

#[test]
fn a_name_over_a_border(rt: HostRuntime) -> Result<(), Fail> {
    let all = borrowed_over_a_border(rt.alloc())?;
    check_bytes(&rt, "over a border", &all, b"ALPHA ");
    Ok(())
}

/// Notes the legal ones of these names.
fn note_each(found: &mut FoundNames, names: &[&[u8]]) -> Result<(), AllocError> {
    for name in names {
        if name_is_legal(name) {
            found.note(name)?;
        }
    }
    Ok(())
}

#[test]
fn a_name_is_noted_once(rt: HostRuntime) -> Result<(), Fail> {
    let mut found = FoundNames::new(rt.alloc());
    check(&rt, "none yet", found.is_empty());
    note_each(&mut found, &[b"B", b"A", b"B", b"C"])?;
    check(&rt, "three", found.len() == 3);
    let all = spelled(rt.alloc(), &found)?;
    check_bytes(&rt, "in turn", &all, b"B A C ");
    Ok(())
}

/// How many names, and how many paths, tables are filled with.
const MANY: usize = 5000;

/// Notes many names, and then each of them once more.
fn note_many(alloc: Global, found: &mut FoundNames) -> Result<(), AllocError> {
    for number in 0..2 * MANY {
        let name = format!(in alloc; "NAME_{}", number % MANY)?;
        if name_is_legal(name.as_bytes()) {
            found.note(name.as_bytes())?;
        }
    }
    Ok(())
}

/// The many names, each once.
fn many_names(alloc: Global) -> Result<Vec<u8>, AllocError> {
    let mut all = Vec::new(alloc);
    for number in 0..MANY {
        let name = format!(in alloc; "NAME_{number}")?;
        push_name(&mut all, name.as_bytes())?;
    }
    Ok(all)
}

#[test]
fn many_names_are_noted_once(rt: HostRuntime) -> Result<(), AllocError> {
    let mut found = FoundNames::new(rt.alloc());
    note_many(rt.alloc(), &mut found)?;
    check(&rt, "many", found.len() == MANY);
    let (all, want) = (spelled(rt.alloc(), &found)?, many_names(rt.alloc())?);
    check(&rt, "in turn", all == want);
    Ok(())
}

fn letter(role: Role) -> u8 {
    match role {
        Role::Source => b'S',
        Role::Scanned => b'-',
        Role::Listed => b'+',
    }
}

/// Prerequisites, each after the letter of its role.
fn with_roles(alloc: Global, read: &Prerequisites) -> Result<Vec<u8>, AllocError> {
    let mut all = Vec::new(alloc);
    for place in 0..read.len() {
        if let Some((path, role)) = read.get(place) {
            all.push(letter(role))?;
            push_name(&mut all, path)?;
        }
    }
    if read.get(read.len()).is_some() {
        all.push(b'!')?;
    }
    Ok(all)
}

/// The prerequisites of a dependency file, each after the letter of its role; or the refusal.
fn prerequisites(alloc: Global, text: &[u8]) -> Result<Vec<u8>, AllocError> {
    match read_depfile(alloc, text) {
        Ok(read) => with_roles(alloc, &read),
        Err(refusal) => Ok(refusal.to_string(alloc)?.into_bytes()),
    }
}

#[rattlefmt::skip]
const DEPENDENCY_FILES: &[(&str, &[u8], &[u8])] = &[
    ("as compilers write it",         golden::DEPFILE,                                 b"Sx.c +a.h +b.h "),
    ("a second rule",                 b"x.o: x.c a.h\ny.o: t.s b.h\n",                 b"Sx.c +a.h -t.s +b.h "),
    ("a repeat takes the first place", b"x.o: x.c a.h\ny.o: a.h b.h\n",                b"Sx.c +a.h +b.h "),
    ("the header does not",           b"x.o: x.c\ny.o: include/generated/autoconf.h t.s\n", b"Sx.c -t.s "),
    ("a repeat of a scanned file",    b"x.o: x.c\ny.o: t.s\nz.o: t.s u.h",             b"Sx.c -t.s +u.h "),
    ("the source again",              b"x.o: x.c x.c a.h x.c",                         b"Sx.c +a.h "),
    ("targets side by side",          b"x.o: y.o:\r\n\tx.c \\\r\n a.h",                b"Sx.c +a.h "),
    ("a target without files",        b"x.o: x.c\na.h:\nb.h: c.h",                     b"Sx.c -c.h "),
    ("a header elsewhere",            b"x.o: x.c out/include/generated/autoconf.h a.h", b"Sx.c +a.h "),
    ("no target",                     b"a.h b.h",                                      b"20 NoTarget"),
    ("a file before the target",      b"x.c x.o: a.h",                                 b"20 NoTarget"),
    ("the header before it",          b"include/generated/autoconf.h x.o: x.c",        b"20 NoTarget"),
    ("faulty in both ways",           b"a$b x.o: x.c",                                 b"20 NoTarget"),
    ("nothing",                       b"",                                             b"20 NoTarget"),
    ("no file but the header",        b"x.o: include/generated/autoconf.h",            b"20 NoTarget"),
    ("a dollar",                      b"x.o: x.c a$b.h",                               b"21 BadPath token 3"),
    ("all tokens are counted",        b"x.o: y.o: include/generated/autoconf.h x.c a#", b"21 BadPath token 5"),
    ("the first fault",               b"x.o: x.c \xc3\xa9.h a$b.h",                    b"21 BadPath token 3"),
];

#[test]
fn prerequisites_have_their_roles_by_place(rt: HostRuntime) -> Result<(), Fail> {
    for &(name, text, want) in DEPENDENCY_FILES {
        let read = prerequisites(rt.alloc(), text)?;
        check_bytes(&rt, name, &read, want);
    }
    Ok(())
}

/// A target, a source, and so often each of many files.
fn many_files(alloc: Global, rounds: usize) -> Result<String, AllocError> {
    let mut text = String::from_str(alloc, "x.o: x.c")?;
    for _ in 0..rounds {
        for number in 0..MANY {
            let file = format!(in alloc; " d/{number}.h")?;
            text.push_str(&file)?;
        }
    }
    Ok(text)
}

/// The prerequisites of so often each of many files.
fn many_prerequisites(alloc: Global, rounds: usize) -> Result<Vec<u8>, AllocError> {
    let text = many_files(alloc, rounds)?;
    prerequisites(alloc, text.as_bytes())
}

#[test]
fn many_files_are_listed_once(rt: HostRuntime) -> Result<(), AllocError> {
    let once = many_prerequisites(rt.alloc(), 1)?;
    check(
        &rt,
        "the first ones",
        once.starts_with(b"Sx.c +d/0.h +d/1.h "),
    );
    check(&rt, "the last one", once.ends_with(b" +d/4999.h "));
    let thrice = many_prerequisites(rt.alloc(), 3)?;
    check(&rt, "three times", thrice == once);
    Ok(())
}

#[test]
fn tokens_by_their_numbers(rt: HostRuntime) {
    let text = b"x.o: y.o:\r\n\tx.c \\\r\n a#";
    check(&rt, "1", token_at(text, 1) == Some(b"x.o:".as_slice()));
    check(&rt, "4", token_at(text, 4) == Some(b"a#".as_slice()));
    check(&rt, "5", token_at(text, 5).is_none());
}

/// The last cut of each row, what is settled there, and where the path begins that is cut.
#[rattlefmt::skip]
const CUTS: &[(usize, &[u8], usize)] = &[
    ( 5, b"20 NoTarget",     53), // no more than the target
    ( 8, b"S",                5), // in the source
    ( 9, b"Sx.c ",           53),
    (12, b"Sx.c +",           9), // in a listed file
    (16, b"Sx.c +a.h ",      53),
    (43, b"Sx.c +a.h +",     16), // in the header that is passed over, which is another file until it is whole
    (45, b"Sx.c +a.h ",      53), // it is whole
    (47, b"Sx.c +a.h +",     45), // in a repeat, which is another file until it is whole
    (49, b"Sx.c +a.h ",      53), // it is whole
    (52, b"Sx.c +a.h +",     49), // in the last file
    (53, b"Sx.c +a.h +b.h ", 53),
];

/// What is settled where a text is cut, and where the path begins that is cut.
fn settled_at(end: usize) -> (&'static [u8], usize) {
    for &(last, settled, open) in CUTS {
        if end <= last {
            return (settled, open);
        }
    }
    (b"no row", end)
}

/// What is read of a text that is cut.
fn read_of_cut(alloc: Global, text: &[u8]) -> Result<Vec<u8>, AllocError> {
    let (settled, open) = settled_at(text.len());
    let mut all = Vec::from_slice(alloc, settled)?;
    if open < text.len() {
        push_name(&mut all, &text[open..])?;
    }
    Ok(all)
}

#[test]
fn each_cut_of_a_dependency_file_is_read_or_refused(rt: HostRuntime) -> Result<(), Fail> {
    for end in 0..=golden::DEPFILE.len() {
        let text = &golden::DEPFILE[..end];
        let want = read_of_cut(rt.alloc(), text)?;
        let read = prerequisites(rt.alloc(), text)?;
        check_cut(&rt, end, &read, &want);
    }
    Ok(())
}

#[test]
fn a_dependency_file_may_have_64_mebibytes(rt: HostRuntime) -> Result<(), Fail> {
    let mut text = vec![in rt.alloc(); b' '; MAX_BYTES - 8]?;
    text.extend_from_slice(b"x.o: x.c")?;
    let read = prerequisites(rt.alloc(), &text)?;
    check_bytes(&rt, "as much as may be", &read, b"Sx.c ");
    text.push(b'c')?;
    let read = prerequisites(rt.alloc(), &text)?;
    check_bytes(&rt, "a byte more", &read, b"9 TooLarge");
    Ok(())
}

/// Notes the names of a text.
fn note_names(found: &mut FoundNames, text: &[u8]) -> Result<(), AllocError> {
    for next in names(text) {
        if name_is_legal(next.name) {
            found.note(next.name)?;
        }
    }
    Ok(())
}

/// The names of a text, each once.
fn noted_in(alloc: Global, text: &[u8]) -> Result<FoundNames, AllocError> {
    let mut found = FoundNames::new(alloc);
    note_names(&mut found, text)?;
    Ok(found)
}

/// The names of each of these texts.
fn noted(alloc: Global, texts: &[&[u8]]) -> Result<Vec<FoundNames>, AllocError> {
    let mut all = Vec::new(alloc);
    for text in texts {
        all.push(noted_in(alloc, text)?)?;
    }
    Ok(all)
}

fn written(alloc: Global, file: &CommandFile) -> Result<Vec<u8>, AllocError> {
    let mut out = Vec::new(alloc);
    write_command(file, &mut out)?;
    Ok(out)
}

/// Scans these texts, each a source, and makes the text of a command file straight from what was found.
fn record_of_texts(
    alloc: Global,
    read: &Prerequisites,
    words: (&[u8], &[u8]),
    texts: &[&[u8]],
    found: &mut NamesBySource,
) -> Result<Vec<u8>, AllocError> {
    for text in texts {
        scan_pieces(found, &[text])?;
    }
    record_of(alloc, read, words, found)
}

/// The text of a command file straight from the names.
fn text_of_record(
    alloc: Global,
    read: &Prerequisites,
    words: (&[u8], &[u8]),
    texts: &[&[u8]],
) -> Result<Vec<u8>, AllocError> {
    let mut found = NamesBySource::with_seed(alloc, Seed::new(0));
    record_of_texts(alloc, read, words, texts, &mut found)
}

/// The same by a command file that is made of the names.
fn text_from_names(
    alloc: Global,
    read: &Prerequisites,
    words: (&[u8], &[u8]),
    texts: &[&[u8]],
) -> Result<Vec<u8>, DepError> {
    let found = noted(alloc, texts)?;
    if read.len() != found.len() {
        return Ok(Vec::from_slice(alloc, ANOTHER_NUMBER)?);
    }
    let built = build_from(alloc, words.0, words.1, read, &found)?;
    Ok(written(alloc, &built)?)
}

/// The same by a command file that is made of whole texts.
fn text_from_texts(
    alloc: Global,
    read: &Prerequisites,
    words: (&[u8], &[u8]),
    texts: &[&[u8]],
) -> Result<Vec<u8>, DepError> {
    if read.len() != texts.len() {
        return Ok(Vec::from_slice(alloc, ANOTHER_NUMBER)?);
    }
    let built = build(alloc, words.0, words.1, read, texts)?;
    Ok(written(alloc, &built)?)
}

/// The text of the command file of an object with these prerequisites. All three ways to it agree.
fn text_by_all_ways(
    alloc: Global,
    read: &Prerequisites,
    words: (&[u8], &[u8]),
    texts: &[&[u8]],
) -> Result<Vec<u8>, DepError> {
    let straight = text_of_record(alloc, read, words, texts)?;
    let out = text_from_names(alloc, read, words, texts)?;
    let again = text_from_texts(alloc, read, words, texts)?;
    if straight != out || again != out {
        return Ok(Vec::from_slice(alloc, b"three ways to different texts".as_slice())?);
    }
    Ok(out)
}

/// The text of the command file of an object, from the texts of its prerequisites; or the refusal.
fn command_text(
    alloc: Global,
    depfile: &[u8],
    words: (&[u8], &[u8]),
    texts: &[&[u8]],
) -> Result<Vec<u8>, DepError> {
    let read = read_depfile(alloc, depfile)?;
    text_by_all_ways(alloc, &read, words, texts)
}

#[rattlefmt::skip]
const OBJECTS: &[(&str, &[u8], &[&[u8]], &[u8])] = &[
    (
        "each name with its first prerequisite",
        golden::DEPFILE,
        &[
            b"#ifdef CONFIG_A\nCONFIG_B\n",
            b"CONFIG_B CONFIG_C_MODULE\n",
            b"CONFIG_A\n",
        ],
        golden::COMMAND_FILE,
    ),
    (
        "a scanned file is not listed",
        b"x.o: x.c a.h\ny.o: t.s b.h\n",
        &[b"", b"", b"CONFIG_Z", b""],
        golden::SCANNED_COMMAND_FILE,
    ),
    (
        "no names and no other files",
        b"x.o: x.c",
        &[b"int x;"],
        golden::SMALLEST_COMMAND_FILE,
    ),
];

#[test]
fn objects_have_their_command_files(rt: HostRuntime) -> Result<(), Fail> {
    let words = (b"x.o".as_slice(), b"cc -c x.c".as_slice());
    for &(name, depfile, texts, want) in OBJECTS {
        let text = command_text(rt.alloc(), depfile, words, texts)?;
        check_bytes(&rt, name, &text, want);
    }
    Ok(())
}

/// Why an object has no command file.
fn refusal_of(alloc: Global, target: &[u8], command: &[u8]) -> Result<String, AllocError> {
    match command_text(alloc, b"x.o: x.c", (target, command), &[b""]) {
        Ok(_) => String::from_str(alloc, "not refused"),
        Err(refusal) => refusal.to_string(alloc),
    }
}

#[rattlefmt::skip]
const FAULTY_WORDS: &[(&str, &[u8], &[u8], &str)] = &[
    ("a directory",            b"d/",  b"cc",   "21 BadPath token 0"),
    ("no target",           b"",    b"cc",   "21 BadPath token 0"),
    ("two lines",           b"x.o", b"a\nb", "22 BadCommand"),
    ("a NUL",               b"x.o", b"a\0",  "22 BadCommand"),
    ("both are at fault",   b"d/",  b"a\nb", "21 BadPath token 0"),
];

#[test]
fn a_target_and_a_command_are_checked_in_this_order(rt: HostRuntime) -> Result<(), AllocError> {
    for &(name, target, command, want) in FAULTY_WORDS {
        let refusal = refusal_of(rt.alloc(), target, command)?;
        check_text(&rt, name, refusal.as_str(), want);
    }
    Ok(())
}

#[rattlefmt::skip]
const REFUSALS: &[(DepError, &str)] = &[
    (DepError::TooLarge,    "9 TooLarge"),
    (DepError::OutOfMemory, "10 OutOfMemory"),
    (DepError::NoTarget,    "20 NoTarget"),
    (DepError::BadPath(7),  "21 BadPath token 7"),
    (DepError::BadCommand,  "22 BadCommand"),
];

#[test]
fn refusals_have_their_texts(rt: HostRuntime) -> Result<(), Fail> {
    for (refusal, want) in REFUSALS {
        let text = refusal.to_string(rt.alloc())?;
        check_text(&rt, "a refusal", text.as_str(), *want);
    }
    Ok(())
}
