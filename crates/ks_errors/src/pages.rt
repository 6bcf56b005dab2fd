//! The texts that are made of a row of the table, and the search for one.
ghost use Rattle.std.specs.Prelude.{◌≡◌, ◌++◌, IfOk, OnOk, flat_map, map, option_map, string_bytes};
ghost use Rattle.std.specs.List.{find};
ghost use Rattle.ks_errors.specs.Errors.{error_of, is_named, known_errors, known_line, page, seen, texts_of};

use crate::table::{ERRORS, KnownError, Row};
use std::alloc::{AllocError, Global};

/// Whether a row is that of this number or name.
fn is_named(row: &Row, word: &str) -> bool
    ensures { result ≡ is_named word.now (texts_of row.now) }
{
    let (number, name, ..) = *row;
    number == word || name == word
}

/// The first of these rows that is that of this number or name.
fn error_among(rows: &[Row], word: &str) -> Option<KnownError>
    ensures { option_map seen result ≡ find (is_named word.now) (map texts_of rows.now) }
{
    for row in rows {
        if is_named(row, word) {
            return Some(KnownError::of(row));
        }
    }
    None
}

/// The error of this number or name.
pub fn error_of(word: &str) -> Option<KnownError>
    ensures { option_map seen result ≡ error_of word.now }
{
    error_among(ERRORS, word)
}

/// What `explain` says of an error.
#[tactic(auto, unfolding(crate::specs::Errors::page))]
pub fn page_of(alloc: Global, error: &KnownError) -> Result<String, AllocError>
    ensures { IfOk result (λ text. string_bytes text ≡ page (seen error.now)) }
{
    let mut text = String::from_str(alloc, "error ")?;
    text.push_str(error.number)?;
    text.push_str(" ")?;
    text.push_str(error.name)?;
    text.push_str(": ")?;
    text.push_str(error.meaning)?;
    text.push_str("\n\nExample: ")?;
    text.push_str(error.example)?;
    text.push_str("\nWhat to do: ")?;
    text.push_str(error.advice)?;
    text.push_str("\n")?;
    Ok(text)
}

#[tactic(auto, unfolding(crate::specs::Errors::known_line))]
/// Appends the number and the name of an error as a line.
fn push_known(error: &KnownError, text: &mut String) -> Result<(), AllocError>
    ensures { OnOk result (string_bytes text.new ≡ string_bytes text.old ++ known_line (seen error.now)) }
{
    text.push_str("  ")?;
    text.push_str(error.number)?;
    text.push_str(" ")?;
    text.push_str(error.name)?;
    text.push_str("\n")
}

/// Appends a line for each of these rows.
fn push_all(rows: &[Row], text: &mut String) -> Result<(), AllocError>
    ensures { OnOk result (string_bytes text.new ≡ string_bytes text.old ++ flat_map known_line (map texts_of rows.now)) }
{
    for row in rows {
        push_known(&KnownError::of(row), text)?;
    }
    Ok(())
}

/// What is said in place of a page: which numbers there are.
pub fn known_errors(alloc: Global) -> Result<String, AllocError>
    ensures { IfOk result (λ text. string_bytes text ≡ known_errors) }
{
    let mut text = String::from_str(alloc, "error: NUMBER is none of these\n\n")?;
    push_all(ERRORS, &mut text)?;
    Ok(text)
}
