//! The configuration that BusyBox's conf wrote: `.config` and the header, read side by side.
//!
//! conf writes both on one walk over its menus: of each line of `.config` the header has a block of lines. A symbol's kind stands in
//! neither; it is the one under which conf would write the very block. So no Kconfig is read, and a pair that is accepted can't
//! define anything otherwise than conf did. What has any other form is refused: what it meant to say would be lost.
ghost use Rattle.std.specs.Prelude.{◌≡◌, ◌⊎◌, ◌&&◌, ◌++◌, ◌∷◌, [], ◌==◌, ◌≤◌, true, false, IfOk, IfErr, IfSome, IsTrue, OnOk, Ok, Err, length, option_map, take_while};
ghost use Rattle.std.specs.List.{list_all};
ghost use Rattle.bstr.specs.Text.{lines_of};
ghost use Rattle.ks_symbols.specs.Names.{is_name};
ghost use Rattle.ks_symbols.specs.Kinds.{is_string_byte};
ghost use Rattle.ks_symbols.specs.Statements.{seen_statement, name_of};
ghost use Rattle.ks_output.specs.SeenNames.{is_in};
ghost use Rattle.ks_output.specs.Blocks.{after_time, behind, block_title, blocks_written, config_body, enabling, explained_block, explains_block, first_walk, header_body, header_front, is_between, is_menu_line, is_time_byte, missing, off_block, on_block, said, stated, titled, value_line, valued, walk_at, with_line, with_lines};
ghost use Rattle.ks_output.specs.declared.blocks.Place.TheVariants.{Between};
ghost use Rattle.ks_output.specs.declared.written.WrittenError.TheVariants.{OutOfMemory, Twice};

use crate::appending::append_all;
use crate::header::append_definition;
use crate::seen_names::SeenNames;
use crate::written::{Written, WrittenError, first_line, is_on, rest_from};
use bstr::ByteSlice;
use ks_symbols::{
    Draft, Kind, MAX_BYTES, Seed, SettingsBuilder, Statement, Table, ends_comment, fits, is_title,
    parse_statement, value_is_valid,
};
use std::alloc::{AllocError, Global};

/// Where a line of `.config` stands.
#[derive(Clone, Copy)]
pub(crate) enum Place {
    /// Between blocks.
    Between,
    /// Behind the first line of a menu.
    Opened,
    /// Behind the title of a menu.
    Titled,
}

/// What each heading of a `.config` begins with.
const CONFIG_FRONT: &[u8] = b"#\n# Automatically generated make config: don't edit\n# ";

/// The title in the heading of a `.config`.
pub(crate) fn block_title(config: &[u8]) -> &[u8]
    ensures { result.now ≡ block_title config.now }
{
    first_line(rest_from(config, 54))
}

/// What follows the line with the time, if there is one.
fn after_time(rest: &[u8]) -> &[u8]
    ensures { result.now ≡ after_time rest.now }
{
    if !rest.starts_with(b"# ") {
        return rest;
    }
    let line = first_line(rest);
    rest_from(rest, line.len().saturating_add(1))
}

/// What follows the heading of a `.config`, and the number of the line there.
#[tactic(auto, unfolding(crate::specs::Blocks::config_body))]
fn config_body(config: &[u8]) -> Option<(u64, &[u8])>
    ensures body { option_map (λ b. (b.0, b.1.now)) result ≡ config_body config.now }
    ensures number { IfSome result (λ b. b.0 ≤ 6) }
{
    let title = block_title(config);
    if !is_title(title) || !config.starts_with(CONFIG_FRONT) {
        return None;
    }
    let rest = rest_from(config, title.len().saturating_add(55));
    let body = after_time(rest);
    if !body.starts_with(b"#\n") {
        return None;
    }
    let number = if rest.starts_with(b"# ") { 6 } else { 5 };
    Some((number, rest_from(body, 2)))
}

/// Appends the heading of the header up to the time.
fn append_front(title: &[u8], out: &mut Vec<u8>) -> Result<(), AllocError>
    ensures written { OnOk result (out.new.items ≡ out.old.items ++ header_front title.now) }
{
    append_all(
        &[
            b"/*\n * Automatically generated C config: don't edit\n * ",
            title,
            b"\n */\n#define AUTOCONF_TIMESTAMP \"",
        ],
        out,
    )
}

/// The time in the heading, up to the quote that ends it.
fn time_at(text: &[u8]) -> &[u8]
    ensures { result.now ≡ take_while is_time_byte text.now }
{
    let mut end = 0;
    while end < text.len() && !matches!(text[end], b'\n' | b'\r' | 0 | b'"') {
        end += 1;
    }
    text.split_at(end).0
}

/// What follows the heading of a header with this title.
#[tactic(auto, unfolding(crate::specs::Blocks::header_body))]
fn header_body<'a>(
    alloc: Global,
    title: &[u8],
    header: &'a [u8],
) -> Result<Option<&'a [u8]>, AllocError>
    ensures { IfOk result (λ found. option_map (λ b. b.now) found ≡ header_body title.now header.now) }
{
    let mut heading = Vec::new(alloc);
    append_front(title, &mut heading)?;
    let time = time_at(rest_from(header, heading.len()));
    append_all(&[time, b"\"\n\n"], &mut heading)?;
    if !header.starts_with(heading.as_slice()) {
        return Ok(None);
    }
    Ok(Some(rest_from(header, heading.len())))
}

/// Appends the block of a bool that is off.
fn append_off(name: &[u8], out: &mut Vec<u8>) -> Result<(), AllocError>
    ensures written { OnOk result (out.new.items ≡ out.old.items ++ off_block name.now) }
{
    append_all(
        &[
            b"#undef CONFIG_",
            name,
            b"\n#define ENABLE_",
            name,
            b" 0\n#define IF_",
            name,
            b"(...)\n#define IF_NOT_",
            name,
            b"(...) __VA_ARGS__\n",
        ],
        out,
    )
}

/// Appends what each symbol that has a value has besides its macro.
fn append_enabling(name: &[u8], out: &mut Vec<u8>) -> Result<(), AllocError>
    ensures written { OnOk result (out.new.items ≡ out.old.items ++ enabling name.now) }
{
    append_all(
        &[
            b"#define ENABLE_",
            name,
            b" 1\n#ifdef MAKE_SUID\n# define IF_",
            name,
            b"(...) __VA_ARGS__ \"CONFIG_",
            name,
            b"\"\n#else\n# define IF_",
            name,
            b"(...) __VA_ARGS__\n#endif\n#define IF_NOT_",
            name,
            b"(...)\n",
        ],
        out,
    )
}

/// Appends the macro of a value.
fn append_value_line(
    name: &[u8],
    kind: Kind,
    value: &[u8],
    out: &mut Vec<u8>,
) -> Result<(), AllocError>
    ensures written { OnOk result (out.new.items ≡ out.old.items ++ value_line name.now kind value.now) }
{
    match kind {
        Kind::Flag => append_all(&[b"#define CONFIG_", name, b" 1\n"], out),
        _ => append_definition(name, kind, value, out),
    }
}

/// Appends the block of a value.
fn append_on(name: &[u8], kind: Kind, value: &[u8], out: &mut Vec<u8>) -> Result<(), AllocError>
    ensures written { OnOk result (out.new.items ≡ out.old.items ++ on_block name.now kind value.now) }
{
    append_value_line(name, kind, value, out)?;
    append_enabling(name, out)?;
    Ok(())
}

/// Whether a kind explains what is left of the header. The block is written aside and compared.
#[tactic(auto, unfolding(crate::specs::Blocks::explains_block))]
fn explains(
    name: &[u8],
    value: &[u8],
    left: &[u8],
    kind: Kind,
    aside: &mut Vec<u8>,
) -> Result<bool, AllocError>
    ensures explained { IfOk result (λ yes. yes ≡ explains_block name.now value.now left.now kind) }
    ensures aside { IfOk result (λ yes. yes ≡ true → aside.new.items ≡ on_block name.now kind value.now) }
{
    if !is_on(kind, value) {
        return Ok(false);
    }
    aside.clear();
    append_on(name, kind, value, aside)?;
    Ok(left.starts_with(aside.as_slice()))
}

/// The first kind that explains what is left of the header, whose block is then aside.
#[tactic(auto, unfolding(crate::specs::Blocks::explained_block))]
fn explained(
    name: &[u8],
    value: &[u8],
    left: &[u8],
    aside: &mut Vec<u8>,
) -> Result<Option<Kind>, AllocError>
    ensures explained { IfOk result (λ kind. kind ≡ explained_block name.now value.now left.now) }
    ensures aside { IfOk result (λ kind. IfSome kind (λ k. aside.new.items ≡ on_block name.now k value.now)) }
{
    if explains(name, value, left, Kind::Flag, aside)? {
        return Ok(Some(Kind::Flag));
    }
    if explains(name, value, left, Kind::Int, aside)? {
        return Ok(Some(Kind::Int));
    }
    if explains(name, value, left, Kind::Hex, aside)? {
        return Ok(Some(Kind::Hex));
    }
    if explains(name, value, left, Kind::Raw, aside)? {
        return Ok(Some(Kind::Raw));
    }
    Ok(None)
}

/// Why a line has no block in what is left of the header.
fn missing(number: u64, left: &[u8]) -> WrittenError
    ensures { result ≡ missing number left.now }
{
    if left.is_empty() {
        WrittenError::Undefined(number)
    } else {
        WrittenError::Unexplained(number)
    }
}

/// What is left of the header behind a block.
fn pass<'a>(number: u64, left: &'a [u8], block: &[u8]) -> Result<&'a [u8], WrittenError>
    ensures passed { IfOk result (λ rest. behind number left.now block.now ≡ Ok rest.now) }
    ensures refused { IfErr result (λ e. behind number left.now block.now ≡ Err e) }
{
    if left.starts_with(block) {
        Ok(rest_from(left, block.len()))
    } else {
        Err(missing(number, left))
    }
}

/// What a line of `.config` says of a symbol.
#[tactic(auto, unfolding(crate::specs::Blocks::said))]
fn said(line: &[u8]) -> Option<Statement<'_>>
    ensures value { option_map seen_statement result ≡ said line.now }
    ensures named { IfSome result (λ s. IsTrue (is_name (name_of (seen_statement s)))) }
{
    if !line.ends_with(b"\n") {
        return None;
    }
    parse_statement(&line[..line.len() - 1])
}

/// Whether the bytes can stand in a string.
fn all_string_bytes(text: &[u8]) -> bool
    ensures { result ≡ list_all is_string_byte text.now }
{
    value_is_valid(Kind::Text, text)
}

/// Whether a line has the title of a menu.
#[tactic(auto, unfolding(crate::specs::Blocks::is_menu_line))]
fn is_menu_line(line: &[u8]) -> bool
    ensures { result ≡ is_menu_line line.now }
{
    line.starts_with(b"# ")
        && line.ends_with(b"\n")
        && all_string_bytes(&line[..line.len() - 1])
        && !ends_comment(line)
}

/// Takes in the value of a new name.
fn take_value<'a>(
    number: u64,
    name: &[u8],
    value: &[u8],
    left: &'a [u8],
    draft: &mut Draft<Kind>,
    aside: &mut Vec<u8>,
) -> Result<&'a [u8], WrittenError>
    ensures taken { IfOk result (λ rest. valued number draft.old left.now name.now value.now (explained_block name.now value.now left.now) ≡ Ok (draft.new, rest.now)) }
    ensures refused { IfErr result (λ e. (e ≡ OutOfMemory) ⊎ (valued number draft.old left.now name.now value.now (explained_block name.now value.now left.now) ≡ Err e)) }
{
    let Some(kind) = explained(name, value, left, aside)? else {
        return Err(missing(number, left));
    };
    if !fits(kind, name) {
        return Err(WrittenError::ModuleSymbol(number));
    }
    draft.put(name, kind, value)?;
    Ok(rest_from(left, aside.len()))
}

/// Notes a name that no line before spoke of.
fn note_new(number: u64, name: &[u8], names: &mut SeenNames) -> Result<(), WrittenError>
    requires { IsTrue (is_name name.now) }
    ensures noted { OnOk result ((is_in name.now names.old ≡ false) × (names.new ≡ names.old ++ name.now ∷ [])) }
    ensures refused { IfErr result (λ e. (e ≡ OutOfMemory) ⊎ ((is_in name.now names.old ≡ true) × (e ≡ Twice number))) }
{
    if names.note(name)? {
        Ok(())
    } else {
        Err(WrittenError::Twice(number))
    }
}

/// Takes in a line that speaks of a name.
#[tactic(auto, unfolding(crate::specs::Blocks::stated))]
fn take_statement<'a>(
    number: u64,
    line: &[u8],
    left: &'a [u8],
    names: &mut SeenNames,
    draft: &mut Draft<Kind>,
    aside: &mut Vec<u8>,
) -> Result<&'a [u8], WrittenError>
    ensures taken { IfOk result (λ rest. stated number (walk_at Between names.old draft.old left.now) (said line.now) ≡ Ok (walk_at Between names.new draft.new rest.now)) }
    ensures refused { IfErr result (λ e. (e ≡ OutOfMemory) ⊎ (stated number (walk_at Between names.old draft.old left.now) (said line.now) ≡ Err e)) }
{
    match said(line) {
        None => Err(WrittenError::NotAnEntry(number)),
        Some(Statement::Unsets(name)) => {
            note_new(number, name, names)?;
            aside.clear();
            append_off(name, aside)?;
            pass(number, left, aside)
        }
        Some(Statement::Assigns(name, value)) => {
            note_new(number, name, names)?;
            take_value(number, name, value, left, draft, aside)
        }
    }
}

/// Takes in the title of a menu.
fn take_title<'a>(
    number: u64,
    line: &[u8],
    left: &'a [u8],
    aside: &mut Vec<u8>,
) -> Result<&'a [u8], WrittenError>
    ensures taken { IfOk result (λ rest. titled number left.now line.now ≡ Ok rest.now) }
    ensures refused { IfErr result (λ e. (e ≡ OutOfMemory) ⊎ (titled number left.now line.now ≡ Err e)) }
{
    if !is_menu_line(line) {
        return Err(WrittenError::NotAnEntry(number));
    }
    aside.clear();
    append_all(&[b" *", rest_from(line, 1)], aside)?;
    pass(number, left, aside)
}

/// Takes in one more line of `.config` with its block.
#[tactic(auto, unfolding(crate::specs::Blocks::with_line))]
fn take<'a>(
    number: u64,
    line: &[u8],
    place: Place,
    left: &'a [u8],
    names: &mut SeenNames,
    draft: &mut Draft<Kind>,
    aside: &mut Vec<u8>,
) -> Result<(Place, &'a [u8]), WrittenError>
    ensures taken { IfOk result (λ r. with_line number (walk_at place names.old draft.old left.now) line.now place ≡ Ok (walk_at r.0 names.new draft.new r.1.now)) }
    ensures refused { IfErr result (λ e. (e ≡ OutOfMemory) ⊎ (with_line number (walk_at place names.old draft.old left.now) line.now place ≡ Err e)) }
{
    match place {
        Place::Between => {
            if line == b"\n".as_slice() {
                return Ok((Place::Between, pass(number, left, b"\n")?));
            }
            if line == b"#\n".as_slice() {
                return Ok((Place::Opened, pass(number, left, b"/*\n")?));
            }
            let rest = take_statement(number, line, left, names, draft, aside)?;
            Ok((Place::Between, rest))
        }
        Place::Opened => Ok((Place::Titled, take_title(number, line, left, aside)?)),
        Place::Titled => {
            if line != b"#\n".as_slice() {
                return Err(WrittenError::NotAnEntry(number));
            }
            Ok((Place::Between, pass(number, left, b" */\n")?))
        }
    }
}

/// Whether both texts may end there.
fn is_end(place: Place, left: &[u8]) -> bool
    ensures { result ≡ (is_between place && length left.now == 0) }
{
    match place {
        Place::Between => left.is_empty(),
        _ => false,
    }
}

/// The entries that the lines of `.config` come to.
fn read_lines(
    alloc: Global,
    seed: Seed,
    first: u64,
    body: &[u8],
    blocks: &[u8],
) -> Result<Table<Kind>, WrittenError>
    requires { first ≤ 6 }
    ensures read { IfOk result (λ entries. with_lines first (first_walk blocks.now) (lines_of body.now) ≡ Ok entries) }
    ensures refused { IfErr result (λ e. (e ≡ OutOfMemory) ⊎ (with_lines first (first_walk blocks.now) (lines_of body.now) ≡ Err e)) }
{
    let mut aside = Vec::new(alloc);
    let mut names = SeenNames::with_seed(alloc, seed);
    let mut draft = Draft::new(alloc);
    let mut number = first;
    let mut place = Place::Between;
    let mut left = blocks;
    for line in body.lines_with_terminator() {
        let (next, rest) = take(
            number, line, place, left, &mut names, &mut draft, &mut aside,
        )?;
        place = next;
        left = rest;
        number += 1;
    }
    if !is_end(place, left) {
        return Err(WrittenError::Undeclared(number));
    }
    let entries = draft.finish(alloc)?;
    Ok(entries)
}

/// The configuration that BusyBox's conf wrote as these two texts. Names are looked up by a seed.
#[tactic(auto, unfolding(crate::specs::Blocks::blocks_written))]
pub(crate) fn read_blocks(
    alloc: Global,
    seed: Seed,
    config: &[u8],
    header: &[u8],
) -> Result<Written, WrittenError>
    ensures read { IfOk result (λ w. blocks_written config.now header.now ≡ Ok w.settings.entries) }
    ensures title { IfOk result (λ w. w.title.items ≡ block_title config.now) }
    ensures declared { IfOk result (λ w. w.settings.unknown ≡ 0) }
    ensures refused { IfErr result (λ e. (e ≡ OutOfMemory) ⊎ (blocks_written config.now header.now ≡ Err e)) }
{
    if config.len() > MAX_BYTES || header.len() > MAX_BYTES {
        return Err(WrittenError::TooLarge);
    }
    let title = block_title(config);
    let Some((first, body)) = config_body(config) else {
        return Err(WrittenError::BadHeading);
    };
    let Some(blocks) = header_body(alloc, title, header)? else {
        return Err(WrittenError::BadHeading);
    };
    let entries = read_lines(alloc, seed, first, body, blocks)?;
    let title = Vec::from_slice(alloc, title)?;
    let settings = SettingsBuilder::new(entries, 0).finish(alloc)?;
    Ok(Written { title, settings })
}
