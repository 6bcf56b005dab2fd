//! What one line of an auto.conf says.
//!
//! The lines of Kbuild are among those that are read. A line that begins as one of this project's own, on the
//! generation or a class, and is none, is kept apart from a comment: what it meant to say would be lost.
ghost use Rattle.std.specs.Prelude.{◌≡◌, ◌≤◌, ◌∷◌, ◌||◌, IfSome, IsTrue, List, ℕ, codes, length, nat_eq};
ghost use Rattle.std.specs.List.{ends_with, starts_with};
ghost use Rattle.bstr.specs.Text.{without_terminator};
ghost use Rattle.ks_output.specs.AutoLines.{Gives, seen_remark, stated_by, remark, remarks, class_remark, spelled_class};

use ks_symbols::{
    Class, Statement, entry_ahead, parse_statement, read_decimal, split_word, word_is_name,
};

/// What a line says.
#[derive(Clone, Copy)]
pub(crate) enum Remark<'a> {
    /// A name has a text.
    Gives(&'a [u8], &'a [u8]),
    /// The mark of the typed form.
    Marks,
    /// The name that the next line gives a text is of a class.
    Types(&'a [u8], Class),
    /// It begins as the line of a class, and is none.
    Mistypes,
    /// The generation.
    Numbers(u64),
    /// A comment or an empty line.
    CommentOrBlank,
    /// None of these.
    Faulty,
}

/// A line without the LF or CR LF that ends it.
fn without_end(line: &[u8]) -> &[u8]
    ensures { result.now ≡ without_terminator line.now }
{
    let n = line.len();
    if n == 0 || line[n - 1] != b'\n' {
        return line;
    }
    if n == 1 || line[n - 2] != b'\r' {
        return &line[..n - 1];
    }
    &line[..n - 2]
}

/// The class that what stands after the name spells.
fn spelled_class(following: &[u8]) -> Option<Class>
    ensures { result ≡ spelled_class following.now }
{
    if following == b" string".as_slice() {
        Some(Class::Text)
    } else if following == b" int".as_slice() {
        Some(Class::Int)
    } else if following == b" hex".as_slice() {
        Some(Class::Hex)
    } else if following == b" raw".as_slice() {
        Some(Class::Raw)
    } else if following == b" flag".as_slice() {
        Some(Class::Flag)
    } else {
        None
    }
}

/// What the line of a class says, after `#type `.
#[tactic(auto, unfolding(crate::specs::AutoLines::class_remark))]
fn parse_class(text: &[u8]) -> Remark<'_>
    ensures { seen_remark result ≡ class_remark text.now }
{
    let (name, following) = split_word(text);
    if !word_is_name(name) {
        return Remark::Mistypes;
    }
    match spelled_class(following) {
        Some(class) => Remark::Types(name, class),
        None => Remark::Mistypes,
    }
}

/// What a line says that begins with a `#`, by the line and by what it is without its end. The lines of classes are most.
#[inline]
#[tactic(auto, using(crate::proofs::Marks::typed_mark, crate::proofs::Marks::marks_comment), unfolding(crate::specs::AutoLines::stated_by))]
fn parse_mark<'a>(line: &[u8], bare: &'a [u8]) -> Remark<'a>
    requires mark { IsTrue (starts_with nat_eq bare.now (codes "#")) }
    ensures { seen_remark result ≡ stated_by (ends_with nat_eq line.now (codes "\n")) bare.now }
{
    if bare.starts_with(b"#type ") {
        parse_class(&bare[6..])
    } else if bare.starts_with(b"#generation ") {
        match read_decimal(&bare[12..]) {
            Some(generation) if line.ends_with(b"\n") => Remark::Numbers(generation),
            _ => Remark::Faulty,
        }
    } else if bare == b"#typed".as_slice() {
        Remark::Marks
    } else {
        Remark::CommentOrBlank
    }
}

/// What a line says, which is given with its end.
#[inline]
#[tactic(auto, using(crate::proofs::Marks::unmarked), unfolding(crate::specs::AutoLines::stated_by))]
pub(crate) fn parse_remark(line: &[u8]) -> Remark<'_>
    ensures { seen_remark result ≡ remark line.now }
{
    let bare = without_end(line);
    if bare.starts_with(b"#") {
        return parse_mark(line, bare);
    }
    if bare.is_empty() {
        return Remark::CommentOrBlank;
    }
    match parse_statement(bare) {
        Some(Statement::Assigns(name, text)) => Remark::Gives(name, text),
        _ => Remark::Faulty,
    }
}

/// Whether a text begins with a y or an m that ends its line.
#[inline]
fn begins_as_switch(text: &[u8]) -> bool
    ensures bound { IsTrue result → 2 ≤ length text.now }
    ensures value { result ≡ (starts_with nat_eq text.now (codes "y\n") || starts_with nat_eq text.now (codes "m\n")) }
{
    text.starts_with(b"y\n") || text.starts_with(b"m\n")
}

/// The entry of a y or an m that a text begins with, if it does: the name, its text, and what follows the line.
#[inline(always)]
pub(crate) fn split_switch(text: &[u8]) -> Option<(&[u8], &[u8], &[u8])>
    ensures { IfSome result (λ e. remarks text.now ≡ Gives e.0.now e.1.now ∷ remarks e.2.now) }
{
    if !text.starts_with(b"C") {
        return None;
    }
    match parse_statement(text) {
        Some(Statement::Assigns(name, written)) if begins_as_switch(written) => {
            Some((name, &written[..1], &written[2..]))
        }
        _ => None,
    }
}

/// Whether what stands behind a name gives it a y or an m, and ends the line.
#[inline(always)]
fn gives_switch(rest: &[u8]) -> bool
    requires { 3 ≤ length rest.now }
    ensures { result ≡ (starts_with nat_eq rest.now (codes "=y\n") || starts_with nat_eq rest.now (codes "=m\n")) }
{
    rest[0] == b'=' && rest[2] == b'\n' && (rest[1] == b'y' || rest[1] == b'm')
}

/// What follows the entry of a y or an m that a text begins with, if it does.
#[inline(always)]
pub(crate) fn after_switch(text: &[u8]) -> Option<&[u8]>
    ensures { IfSome result (λ rest. (e : List ℕ × List ℕ) × (remarks text.now ≡ Gives e.0 e.1 ∷ remarks rest.now)) }
{
    match entry_ahead(text) {
        Some((_, rest)) if gives_switch(rest) => Some(&rest[3..]),
        _ => None,
    }
}
