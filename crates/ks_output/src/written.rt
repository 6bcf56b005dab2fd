//! The configuration that a project's own conf wrote: auto.conf and the header, read side by side.
//!
//! conf walks over its symbols twice in one order, so the lines of the one answer those of the other, by their numbers. A symbol's kind
//! stands in neither; it is the one under which confstamp would write the very line that stands in the header. So no Kconfig
//! is read, and a pair that is accepted can't define anything otherwise than conf did. A line of any other form is refused:
//! what it meant to say would be lost.
ghost use Rattle.std.specs.Prelude.{◌≡◌, ◌⊎◌, ◌&&◌, ◌++◌, ℕ, List, not, Some, None, if◌then◌else◌, IfOk, IfErr, IfSome, IsTrue, OnOk, Ok, Err, nat_eq, option_map, length, drop, take_while};
ghost use Rattle.ks_symbols.specs.Lines.{is_no_line_feed};
ghost use Rattle.ks_symbols.specs.Kinds.{is_text, is_off};
ghost use Rattle.std.specs.List.{ends_with};
ghost use Rattle.ks_symbols.specs.Names.{is_name, module_end};
ghost use Rattle.ks_output.specs.SeenNames.{AreNamesOf};
ghost use Rattle.ks_output.specs.Written.{conf_heading, older_heading, heading_of, title_in, given_by, explains, explained, with_entry, bodies, pairs_of, written};
ghost use Rattle.ks_output.specs.declared.written.WrittenError.TheVariants.{ModuleSymbol, OutOfMemory, Unexplained};

use crate::appending::append_all;
use crate::header::{append_definition, append_heading};
use crate::seen_names::SeenNames;
use bstr::ByteSlice;
use ks_symbols::{
    Draft, Kind, MAX_BYTES, Seed, Settings, SettingsBuilder, Statement, Table, fits, is_title,
    parse_statement, value_is_valid,
};
use std::alloc::{AllocError, Global};
use thiserror::Error;

/// Why a pair is refused, with the number that the line has in both texts.
#[derive(Clone, Copy, Debug, PartialEq, Eq, Drop, Error)]
pub enum WrittenError {
    #[error("9 TooLarge")]
    TooLarge,
    #[error("10 OutOfMemory")]
    OutOfMemory,
    /// The first lines of both are not a heading with one title.
    #[error("12 BadHeading")]
    BadHeading,
    /// A line of auto.conf gives no name a value.
    #[error("13 NotAnEntry line {0}")]
    NotAnEntry(u64),
    /// A name ends in _MODULE, and is not that of a bool that is on: its macro would be that of a module.
    #[error("14 ModuleSymbol line {0}")]
    ModuleSymbol(u64),
    /// The line of the header is under no kind what the line of auto.conf comes to.
    #[error("15 Unexplained line {0}")]
    Unexplained(u64),
    /// The header ends before this line of auto.conf.
    #[error("16 Undefined line {0}")]
    Undefined(u64),
    /// auto.conf ends before this line of the header.
    #[error("17 Undeclared line {0}")]
    Undeclared(u64),
    /// An earlier line gives the name of this one.
    #[error("18 Twice line {0}")]
    Twice(u64),
}

impl From<AllocError> for WrittenError {
    ghost from_gives = { λ _ e. e ≡ OutOfMemory };

    fn from(_e: AllocError) -> WrittenError {
        WrittenError::OutOfMemory
    }
}

/// The configuration that conf wrote.
#[derive(Drop)]
pub struct Written {
    pub title: Vec<u8>,
    pub settings: Settings,
}

/// The bytes up to the first LF.
pub(crate) fn first_line(text: &[u8]) -> &[u8]
    ensures { result.now ≡ take_while is_no_line_feed text.now }
{
    let mut end = 0;
    while end < text.len() && text[end] != b'\n' {
        end += 1;
    }
    text.split_at(end).0
}

/// The bytes from a place on, as far as there are any.
pub(crate) fn rest_from(text: &[u8], start: usize) -> &[u8]
    ensures { result.now ≡ drop start text.now }
{
    &text[start.min(text.len())..]
}

/// The title in the heading of an auto.conf.
fn title_in(auto: &[u8]) -> &[u8]
    ensures { result.now ≡ title_in auto.now }
{
    first_line(rest_from(auto, 49))
}

/// Appends the heading that conf gives auto.conf.
fn append_conf_heading(title: &[u8], out: &mut Vec<u8>) -> Result<(), AllocError>
    ensures written { OnOk result (out.new.items ≡ out.old.items ++ conf_heading title.now) }
{
    append_all(
        &[
            b"#\n# Automatically generated file; DO NOT EDIT.\n# ",
            title,
            b"\n#\n",
        ],
        out,
    )
}

/// Appends the heading that an older conf gives the header.
fn append_older_heading(title: &[u8], out: &mut Vec<u8>) -> Result<(), AllocError>
    ensures written { OnOk result (out.new.items ≡ out.old.items ++ older_heading title.now) }
{
    append_all(
        &[
            b"/*\n *\n * Automatically generated file; DO NOT EDIT.\n * ",
            title,
            b"\n *\n */\n",
        ],
        out,
    )
}

/// The heading that a header has, if it has one.
#[tactic(auto, unfolding(crate::specs::Written::heading_of))]
fn heading_of(alloc: Global, title: &[u8], header: &[u8]) -> Result<Vec<u8>, AllocError>
    ensures { IfOk result (λ heading. heading.items ≡ heading_of title.now header.now) }
{
    let mut heading = Vec::new(alloc);
    append_older_heading(title, &mut heading)?;
    if header.starts_with(heading.as_slice()) {
        return Ok(heading);
    }
    heading.clear();
    append_heading(title, &mut heading)?;
    Ok(heading)
}

/// The name and the value that a line of auto.conf gives.
#[tactic(auto, unfolding(crate::specs::Written::given_by))]
fn given_by(line: &[u8]) -> Option<(&[u8], &[u8])>
    ensures value { option_map (λ e. (e.0.now, e.1.now)) result ≡ given_by line.now }
    ensures named { IfSome result (λ e. IsTrue (is_name e.0.now)) }
{
    if !line.ends_with(b"\n") {
        return None;
    }
    match parse_statement(&line[..line.len() - 1]) {
        Some(Statement::Assigns(name, value)) => Some((name, value)),
        _ => None,
    }
}

/// Whether a text is a value of the kind, and not the n of a bool or tristate.
pub(crate) fn is_on(kind: Kind, text: &[u8]) -> bool
    ensures { result ≡ (is_text kind text.now && not (is_off kind text.now)) }
{
    value_is_valid(kind, text)
        && match kind {
            Kind::Bool | Kind::Tristate | Kind::Flag => text != b"n".as_slice(),
            _ => true,
        }
}

/// Whether a kind explains a line of the header: it is what is written of the value. It is written aside and compared, so no form
/// of a definition is known here.
#[tactic(auto, unfolding(crate::specs::Written::explains))]
fn explains(
    name: &[u8],
    value: &[u8],
    line: &[u8],
    kind: Kind,
    aside: &mut Vec<u8>,
) -> Result<bool, AllocError>
    ensures { IfOk result (λ yes. yes ≡ explains name.now value.now line.now kind) }
{
    if !fits(kind, name) || !is_on(kind, value) {
        return Ok(false);
    }
    aside.clear();
    append_definition(name, kind, value, aside)?;
    Ok(line == aside.as_slice())
}

/// The first kind that explains a line.
#[tactic(auto, unfolding(crate::specs::Written::explained))]
fn explained(
    name: &[u8],
    value: &[u8],
    line: &[u8],
    aside: &mut Vec<u8>,
) -> Result<Option<Kind>, AllocError>
    ensures { IfOk result (λ kind. kind ≡ explained name.now value.now line.now) }
{
    if explains(name, value, line, Kind::Bool, aside)? {
        return Ok(Some(Kind::Bool));
    }
    if explains(name, value, line, Kind::Tristate, aside)? {
        return Ok(Some(Kind::Tristate));
    }
    if explains(name, value, line, Kind::Int, aside)? {
        return Ok(Some(Kind::Int));
    }
    if explains(name, value, line, Kind::Hex, aside)? {
        return Ok(Some(Kind::Hex));
    }
    if explains(name, value, line, Kind::Text, aside)? {
        return Ok(Some(Kind::Text));
    }
    if explains(name, value, line, Kind::Raw, aside)? {
        return Ok(Some(Kind::Raw));
    }
    if explains(name, value, line, Kind::Companion, aside)? {
        return Ok(Some(Kind::Companion));
    }
    if explains(name, value, line, Kind::EmptyInt, aside)? {
        return Ok(Some(Kind::EmptyInt));
    }
    if explains(name, value, line, Kind::EmptyHex, aside)? {
        return Ok(Some(Kind::EmptyHex));
    }
    Ok(None)
}

/// Why a pair of lines is refused that no kind explains.
fn refusal(number: u64, name: &[u8]) -> WrittenError
    ensures { result ≡ (if ends_with nat_eq name.now module_end then ModuleSymbol number else Unexplained number) }
{
    if name.ends_with(b"_MODULE") {
        return WrittenError::ModuleSymbol(number);
    }
    WrittenError::Unexplained(number)
}

/// Takes in one more pair of lines.
#[tactic(auto, unfolding(crate::specs::Written::with_entry))]
fn take(
    number: u64,
    line: &[u8],
    definition: &[u8],
    seen: &mut SeenNames,
    draft: &mut Draft<Kind>,
    aside: &mut Vec<u8>,
) -> Result<(), WrittenError>
    requires { AreNamesOf draft.old seen.old }
    ensures seen { OnOk result (AreNamesOf draft.new seen.new) }
    ensures taken { OnOk result (with_entry number draft.old definition.now (given_by line.now) ≡ Ok draft.new) }
    ensures refused { IfErr result (λ e. (e ≡ OutOfMemory) ⊎ (with_entry number draft.old definition.now (given_by line.now) ≡ Err e)) }
{
    let Some((name, value)) = given_by(line) else {
        return Err(WrittenError::NotAnEntry(number));
    };
    if !seen.note(name)? {
        return Err(WrittenError::Twice(number));
    }
    let Some(kind) = explained(name, value, definition, aside)? else {
        return Err(refusal(number, name));
    };
    draft.put(name, kind, value)?;
    Ok(())
}

/// What follows the headings of both texts, which have one title.
#[tactic(auto, unfolding(crate::specs::Written::bodies))]
fn bodies<'a>(
    alloc: Global,
    auto: &'a [u8],
    header: &'a [u8],
    title: &[u8],
) -> Result<Option<(&'a [u8], &'a [u8])>, AllocError>
    requires { title.now ≡ title_in auto.now }
    ensures { IfOk result (λ found. option_map (λ b. (b.0.now, b.1.now)) found ≡ bodies auto.now header.now) }
{
    if !is_title(title) {
        return Ok(None);
    }
    let mut heading = Vec::new(alloc);
    append_conf_heading(title, &mut heading)?;
    if !auto.starts_with(heading.as_slice()) {
        return Ok(None);
    }
    let autos = rest_from(auto, heading.len());
    let heading = heading_of(alloc, title, header)?;
    if !header.starts_with(heading.as_slice()) {
        return Ok(None);
    }
    Ok(Some((autos, rest_from(header, heading.len()))))
}

/// The entries that the lines of both come to.
fn read_pairs(
    alloc: Global,
    seed: Seed,
    autos: &[u8],
    definitions: &[u8],
) -> Result<Table<Kind>, WrittenError>
    ensures read { IfOk result (λ entries. pairs_of autos.now definitions.now ≡ Ok entries) }
    ensures refused { IfErr result (λ e. (e ≡ OutOfMemory) ⊎ (pairs_of autos.now definitions.now ≡ Err e)) }
{
    let mut aside = Vec::new(alloc);
    let mut seen = SeenNames::with_seed(alloc, seed);
    let mut draft = Draft::new(alloc);
    let mut number: u64 = 5;
    let mut left = definitions.lines_with_terminator();
    for line in autos.lines_with_terminator() {
        let Some(definition) = left.next() else {
            return Err(WrittenError::Undefined(number));
        };
        take(number, line, definition, &mut seen, &mut draft, &mut aside)?;
        number += 1;
    }
    if left.next().is_some() {
        return Err(WrittenError::Undeclared(number));
    }
    let entries = draft.finish(alloc)?;
    Ok(entries)
}

/// The configuration that conf wrote as this auto.conf and header. Names are looked up by a seed.
#[tactic(auto, unfolding(crate::specs::Written::written))]
pub(crate) fn read_pair(
    alloc: Global,
    seed: Seed,
    auto: &[u8],
    header: &[u8],
) -> Result<Written, WrittenError>
    ensures read { IfOk result (λ w. written auto.now header.now ≡ Ok w.settings.entries) }
    ensures title { IfOk result (λ w. w.title.items ≡ title_in auto.now) }
    ensures declared { IfOk result (λ w. w.settings.unknown ≡ 0) }
    ensures refused { IfErr result (λ e. (e ≡ OutOfMemory) ⊎ (written auto.now header.now ≡ Err e)) }
{
    if auto.len() > MAX_BYTES || header.len() > MAX_BYTES {
        return Err(WrittenError::TooLarge);
    }
    let title = title_in(auto);
    let Some((autos, definitions)) = bodies(alloc, auto, header, title)? else {
        return Err(WrittenError::BadHeading);
    };
    let entries = read_pairs(alloc, seed, autos, definitions)?;
    let title = Vec::from_slice(alloc, title)?;
    let settings = SettingsBuilder::new(entries, 0).finish(alloc)?;
    Ok(Written { title, settings })
}
