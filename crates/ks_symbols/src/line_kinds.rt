//! The forms of lines that a bare Kconfig may have, as Documentation/kbuild/kconfig-language.rst spells them.
//!
//! Only how a line is spelled is looked at here; what it means beside its neighbours is `kconfig`'s.
ghost use Rattle.std.specs.Prelude.{◌≡◌, ◌&&◌, nat_eq, length, drop, take_while, option_map, IsTrue, IfSome};
ghost use Rattle.std.specs.List.{list_all, ends_with};
ghost use Rattle.ks_symbols.specs.declared.dialect.Dialect.{Dialect};
ghost use Rattle.ks_symbols.specs.Names.{is_name, module_end};
ghost use Rattle.ks_symbols.specs.LineKinds.{is_blank, is_no_blank, is_no_quote, skip_blanks, first_word, after_word, is_one_word, is_state, after_quote, is_prompt, text_kind, bool_kind, has_modules, entry_line_kind, named_kind, valued_kind, kind_line_kind, title_line_kind, word_line_kind, line_kind, seen_line_kind, HasKind};

use crate::dialect::Dialect;
use crate::kinds::Kind;
use crate::names::name_is_legal;

/// What a line is.
pub(crate) enum LineKind<'a> {
    /// An empty line or a comment.
    CommentOrBlank,
    /// The title.
    Title(&'a [u8]),
    /// Another line whose first word is `mainmenu`.
    Untitled,
    /// The entry of a symbol.
    Entry(&'a [u8]),
    /// The entry of a name that ends as those of modules do, where there are modules.
    ModuleEntry,
    /// The kind of a symbol.
    HasKind(Kind),
    Unknown,
}

fn is_blank(byte: u8) -> bool
    ensures { result ≡ is_blank byte }
{
    byte == b' ' || byte == b'\t'
}

fn all_blank(bytes: &[u8]) -> bool
    ensures { result ≡ list_all is_blank bytes.now }
{
    bytes.iter().all(|byte| is_blank(*byte))
}

fn skip_blanks(text: &[u8]) -> &[u8]
    ensures { result.now ≡ skip_blanks text.now }
{
    let mut end = 0;
    while end < text.len() && is_blank(text[end]) {
        end += 1;
    }
    &text[end..]
}

/// The bytes up to the first blank, and those from it on.
fn split_blank(text: &[u8]) -> (&[u8], &[u8])
    ensures word { result.0.now ≡ take_while is_no_blank text.now }
    ensures rest { result.1.now ≡ drop (length result.0.now) text.now }
{
    let mut end = 0;
    while end < text.len() && !is_blank(text[end]) {
        end += 1;
    }
    text.split_at(end)
}

/// The first word, and what follows it and the blanks after it.
fn next_word(text: &[u8]) -> (&[u8], &[u8])
    ensures word { result.0.now ≡ first_word text.now }
    ensures rest { result.1.now ≡ after_word text.now }
{
    let (word, rest) = split_blank(text);
    (word, skip_blanks(rest))
}

fn is_one_word(text: &[u8]) -> bool
    ensures { result ≡ is_one_word text.now }
{
    !text.is_empty() && next_word(text).1.is_empty()
}

fn is_state(word: &[u8]) -> bool
    ensures { result ≡ is_state word.now }
{
    word == b"y".as_slice() || word == b"m".as_slice() || word == b"n".as_slice()
}

/// The bytes up to the first quote, and those from it on.
fn split_quote(text: &[u8]) -> (&[u8], &[u8])
    ensures front { result.0.now ≡ take_while is_no_quote text.now }
    ensures rest { result.1.now ≡ drop (length result.0.now) text.now }
{
    let mut end = 0;
    while end < text.len() && text[end] != b'"' {
        end += 1;
    }
    text.split_at(end)
}

/// What follows the quote that ends a prompt.
fn after_quote(text: &[u8]) -> Option<&[u8]>
    ensures { option_map (λ rest. rest.now) result ≡ after_quote text.now }
{
    let mut rest = text;
    while rest.len() > 1 && rest[0] != b'"' {
        rest = if rest[0] == b'\\' {
            &rest[2..]
        } else {
            &rest[1..]
        };
    }
    if rest.starts_with(b"\"") {
        Some(&rest[1..])
    } else {
        None
    }
}

fn is_prompt(text: &[u8]) -> bool
    ensures { result ≡ is_prompt text.now }
{
    text.starts_with(b"\"")
        && match after_quote(&text[1..]) {
            Some(rest) => all_blank(rest),
            None => false,
        }
}

/// The kind that `string` names.
fn text_kind(dialect: Dialect) -> Kind
    ensures { result ≡ text_kind dialect }
{
    match dialect {
        Dialect::Linux | Dialect::Coreboot => Kind::Text,
        Dialect::UBoot | Dialect::BusyBox => Kind::Raw,
    }
}

/// The kind that `bool` names.
fn bool_kind(dialect: Dialect) -> Kind
    ensures { result ≡ bool_kind dialect }
{
    match dialect {
        Dialect::Linux | Dialect::UBoot | Dialect::Coreboot => Kind::Bool,
        Dialect::BusyBox => Kind::Flag,
    }
}

/// Whether a symbol may be built as a module.
fn has_modules(dialect: Dialect) -> bool
    ensures { result ≡ has_modules dialect }
{
    match dialect {
        Dialect::Linux | Dialect::UBoot | Dialect::Coreboot => true,
        Dialect::BusyBox => false,
    }
}

fn named_kind(dialect: Dialect, word: &[u8]) -> Option<Kind>
    ensures { result ≡ named_kind dialect word.now }
{
    if word == b"bool".as_slice() {
        Some(bool_kind(dialect))
    } else if word == b"tristate".as_slice() {
        Some(Kind::Tristate)
    } else if word == b"string".as_slice() {
        Some(text_kind(dialect))
    } else if word == b"int".as_slice() {
        Some(Kind::Int)
    } else if word == b"hex".as_slice() {
        Some(Kind::Hex)
    } else {
        None
    }
}

fn valued_kind(dialect: Dialect, word: &[u8]) -> Option<Kind>
    ensures { result ≡ valued_kind dialect word.now }
{
    if word == b"def_bool".as_slice() {
        Some(bool_kind(dialect))
    } else if word == b"def_tristate".as_slice() {
        Some(Kind::Tristate)
    } else {
        None
    }
}

#[tactic(auto, unfolding(crate::specs::LineKinds::kind_line_kind))]
fn kind_line_kind<'a>(dialect: Dialect, word: &[u8], rest: &[u8]) -> LineKind<'a>
    ensures { seen_line_kind result ≡ kind_line_kind dialect word.now rest.now }
{
    if let Some(kind) = named_kind(dialect, word) {
        return if rest.is_empty() || is_prompt(rest) {
            LineKind::HasKind(kind)
        } else {
            LineKind::Unknown
        };
    }
    match valued_kind(dialect, word) {
        Some(kind) if is_one_word(rest) && is_state(next_word(rest).0) => LineKind::HasKind(kind),
        _ => LineKind::Unknown,
    }
}

#[tactic(auto, unfolding(crate::specs::LineKinds::title_line_kind))]
fn title_line_kind(rest: &[u8]) -> LineKind<'_>
    ensures { seen_line_kind result ≡ title_line_kind rest.now }
{
    if !rest.starts_with(b"\"") {
        return LineKind::Untitled;
    }
    let (title, following) = split_quote(&rest[1..]);
    if following.starts_with(b"\"") && all_blank(&following[1..]) {
        LineKind::Title(title)
    } else {
        LineKind::Untitled
    }
}

/// Whether a name ends as those of modules do, where there are modules.
pub(crate) fn is_kept_free(dialect: Dialect, name: &[u8]) -> bool
    ensures { result ≡ (has_modules dialect && ends_with nat_eq name.now module_end) }
{
    has_modules(dialect) && name.ends_with(b"_MODULE")
}

/// The entry of a name.
fn entry_line_kind<'a>(dialect: Dialect, name: &'a [u8]) -> LineKind<'a>
    ensures { seen_line_kind result ≡ entry_line_kind dialect name.now }
{
    if is_kept_free(dialect, name) && name_is_legal(name) {
        LineKind::ModuleEntry
    } else {
        LineKind::Entry(name)
    }
}

#[tactic(auto, unfolding(crate::specs::LineKinds::word_line_kind))]
fn word_line_kind<'a>(dialect: Dialect, at_front: bool, word: &[u8], rest: &'a [u8]) -> LineKind<'a>
    ensures { seen_line_kind result ≡ word_line_kind dialect at_front word.now rest.now }
{
    if word == b"mainmenu".as_slice() {
        if at_front {
            title_line_kind(rest)
        } else {
            LineKind::Untitled
        }
    } else if word == b"config".as_slice() || word == b"menuconfig".as_slice() {
        if at_front && is_one_word(rest) {
            entry_line_kind(dialect, next_word(rest).0)
        } else {
            LineKind::Unknown
        }
    } else {
        kind_line_kind(dialect, word, rest)
    }
}

/// The name of a line that has `config`, a blank and a legal name, and nothing else. So is nearly each entry of a bare Kconfig, and
/// it is looked at once.
pub(crate) fn plain_entry(line: &[u8]) -> Option<&[u8]>
    ensures legal { IfSome result (λ name. IsTrue (is_name name.now)) }
    ensures line_kind { IfSome result (λ name. (d : Dialect) → line_kind d line.now ≡ entry_line_kind d name.now) }
{
    if line.starts_with(b"config ") && name_is_legal(&line[7..]) {
        Some(&line[7..])
    } else {
        None
    }
}

/// The kind of a line that has a tab and the name of a kind, and nothing else, as nearly each kind of a bare Kconfig stands.
fn plain_kind(dialect: Dialect, line: &[u8]) -> Option<Kind>
    ensures { IfSome result (λ k. line_kind dialect line.now ≡ HasKind k) }
{
    if line.starts_with(b"\t") {
        named_kind(dialect, &line[1..])
    } else {
        None
    }
}

#[tactic(auto, unfolding(crate::specs::LineKinds::line_kind))]
pub(crate) fn line_kind_of<'a>(dialect: Dialect, line: &'a [u8]) -> LineKind<'a>
    ensures { seen_line_kind result ≡ line_kind dialect line.now }
{
    if let Some(kind) = plain_kind(dialect, line) {
        return LineKind::HasKind(kind);
    }
    let text = skip_blanks(line);
    if text.is_empty() || text.starts_with(b"#") {
        return LineKind::CommentOrBlank;
    }
    let (word, rest) = next_word(text);
    word_line_kind(dialect, text.len() == line.len(), word, rest)
}
