//! The two lines of a `.config` that speak of a symbol, as scripts/kconfig/confdata.c reads them:
//! `CONFIG_NAME=value` and `# CONFIG_NAME is not set`.
//!
//! auto.conf is made of the first of them, so its reader asks here too.
ghost use Rattle.std.specs.Prelude.{◌≡◌, ◌≤◌, ◌+◌, ◌++◌, IfSome, IsTrue, codes, drop, length, nat_eq, option_map, take_while};
ghost use Rattle.std.specs.List.{list_all, starts_with};
ghost use Rattle.ks_symbols.specs.Names.{is_name, is_word_byte};
ghost use Rattle.ks_symbols.specs.Statements.{seen_statement, name_of, statement, assignment, unsetting, is_comment_or_blank};

use crate::names::word_is_name;
use crate::word_runs::{WIDE, wide_run_at, word_end};

/// What a line says about a symbol.
#[derive(Drop)]
pub enum Statement<'a> {
    /// `CONFIG_NAME=value`: the name, and the value as it is written.
    Assigns(&'a [u8], &'a [u8]),
    /// `# CONFIG_NAME is not set`: the name.
    Unsets(&'a [u8]),
}

impl<'a> Statement<'a> {
    /// The name that it is about.
    pub(crate) fn name(&self) -> &'a [u8]
        ensures { result.now ≡ name_of (seen_statement self.now) }
    {
        match self {
            Statement::Assigns(name, _) | Statement::Unsets(name) => *name,
        }
    }
}

/// The word bytes at the front, and what follows them.
#[tactic(auto, using(crate::proofs::WordRuns::run_passes))]
pub fn split_word(text: &[u8]) -> (&[u8], &[u8])
    ensures word { result.0.now ≡ take_while is_word_byte text.now }
    ensures passes { IsTrue (list_all is_word_byte result.0.now) }
    ensures rest { result.1.now ≡ drop (length result.0.now) text.now }
{
    text.split_at(word_end(text, 0))
}

/// The same of what stands behind the `CONFIG_` of a line. It is a part of the word that the line begins with, so of most lines
/// there are bytes enough for many to be looked at at once.
#[inline(always)]
fn split_entry(line: &[u8]) -> (&[u8], &[u8])
    requires { IsTrue (starts_with nat_eq line.now (codes "CONFIG_")) }
    ensures word { result.0.now ≡ take_while is_word_byte (drop 7 line.now) }
    ensures passes { IsTrue (list_all is_word_byte result.0.now) }
    ensures rest { result.1.now ≡ drop (length result.0.now) (drop 7 line.now) }
{
    let end = word_end(line, 7);
    (&line[7..end], &line[end..])
}

/// Whether a line begins as an entry. Four bytes are compared at once, where seven would be one by one.
#[inline(always)]
fn begins_as_entry(line: &[u8]) -> bool
    ensures { result ≡ starts_with nat_eq line.now (codes "CONFIG_") }
{
    line.starts_with(b"CONF") && line[4..].starts_with(b"IG_")
}

#[inline(always)]
#[tactic(auto, unfolding(crate::specs::Statements::assignment))]
fn assignment(line: &[u8]) -> Option<Statement<'_>>
    requires { IsTrue (starts_with nat_eq line.now (codes "CONFIG_")) }
    ensures { option_map seen_statement result ≡ assignment (drop 7 line.now) }
{
    let (name, rest) = split_entry(line);
    if word_is_name(name) && rest.starts_with(b"=") {
        Some(Statement::Assigns(name, &rest[1..]))
    } else {
        None
    }
}

#[tactic(auto, unfolding(crate::specs::Statements::unsetting))]
fn unsetting(text: &[u8]) -> Option<Statement<'_>>
    ensures { option_map seen_statement result ≡ unsetting text.now }
{
    let (name, rest) = split_word(text);
    if word_is_name(name) && rest == b" is not set".as_slice() {
        Some(Statement::Unsets(name))
    } else {
        None
    }
}

/// What a line, without its end, says of a symbol, if it is one of the two.
#[inline(always)]
#[tactic(auto, unfolding(crate::specs::Statements::statement))]
pub fn parse_statement(line: &[u8]) -> Option<Statement<'_>>
    ensures { option_map seen_statement result ≡ statement line.now }
{
    if begins_as_entry(line) {
        assignment(line)
    } else if line.starts_with(b"# CONFIG_") {
        unsetting(&line[9..])
    } else {
        None
    }
}

/// The entry that a text begins with: its name, and what follows the name. Nothing is found near the end of the text.
fn long_entry_ahead(text: &[u8]) -> Option<(&[u8], &[u8])>
    requires { IsTrue (starts_with nat_eq text.now (codes "CONFIG_")) }
    ensures { IfSome result (λ e. IsTrue (is_name e.0.now) × (text.now ≡ codes "CONFIG_" ++ e.0.now ++ e.1.now) × (3 ≤ length e.1.now)) }
{
    let (name, rest) = split_entry(text);
    if word_is_name(name) && rest.len() >= 3 {
        Some((name, rest))
    } else {
        None
    }
}

/// The same of any text: an entry is found if so many bytes follow that most names are looked at at once.
#[inline(always)]
pub fn entry_ahead(text: &[u8]) -> Option<(&[u8], &[u8])>
    ensures { IfSome result (λ e. IsTrue (is_name e.0.now) × (text.now ≡ codes "CONFIG_" ++ e.0.now ++ e.1.now) × (3 ≤ length e.1.now)) }
{
    if text.len() < 7 + WIDE + 3 || !begins_as_entry(text) {
        return None;
    }
    let run = wide_run_at(text, 7);
    if run == 0 {
        return None;
    }
    if run < WIDE {
        return Some((&text[7..7 + run], &text[7 + run..]));
    }
    long_entry_ahead(text)
}

/// Whether a line is a comment or empty. `# CONFIG_NAME is not set` is a comment too, and a statement.
pub fn is_comment_or_blank(line: &[u8]) -> bool
    ensures { result ≡ is_comment_or_blank line.now }
{
    line.is_empty() || line.starts_with(b"#")
}
