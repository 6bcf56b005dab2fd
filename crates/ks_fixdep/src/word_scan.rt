//! The scan of a text by its words, in pieces: for the projects in which more than `CONFIG_` begins a name, or in which a name depends
//! on what stands before it. What is known after a piece is the word that ends it and what is awaited, and both are small. It is one scan
//! for any words.
ghost use Rattle.std.specs.Prelude.{◌≡◌, ◌<◌, ◌≤◌, ◌++◌, Some, [], false, flat_map, IfOk, IsTrue, OnErr, OnOk, length, map, nat_lt, take};
ghost use Rattle.ks_symbols.specs.Names.{is_word_byte};
ghost use Rattle.ks_fixdep.specs.FoundNames.{all_noted};
ghost use Rattle.ks_fixdep.specs.WordScan.{Known, Knows, known_after, next, word_ended};
ghost use Rattle.ks_fixdep.specs.SymbolPatterns.{AreShort, argument_names, arguments_of, named_by, nothing, own_names, seen_pattern, seen_macro, word_names};

use crate::partial_token::PartialToken;
use crate::pending_macro_args::PendingMacroArgs;
use crate::runs::{leading_word, without_module};
use crate::source_table::SourceTable;
use crate::symbol_patterns::{Pattern, SymbolPatterns, arguments_of};
use std::alloc::AllocError;

/// What is known after the pieces so far.
#[derive(Drop)]
pub(crate) struct WordScan {
    word: PartialToken,
    pending: PendingMacroArgs,
}

/// What a word names by a form, were it a legal name.
#[tactic(auto, unfolding(crate::specs::SymbolPatterns::named_by))]
fn note_pattern(
    pattern: &Pattern<'_>,
    word: &[u8],
    table: &mut SourceTable,
) -> Result<(), AllocError>
    ensures found { table.new.found ≡ table.old.found }
    ensures current { OnOk result (table.new.current ≡ all_noted table.old.current (named_by (seen_pattern pattern.now) word.now)) }
{
    let Some(rest) = word.strip_prefix(pattern.begin) else {
        return Ok(());
    };
    let Some(name) = rest.strip_suffix(pattern.end) else {
        return Ok(());
    };
    if pattern.has_modules {
        return table.note_legal(without_module(name));
    }
    table.note_legal(name)
}

/// Notes what a word names by itself, by each form.
fn note_patterns(
    patterns: &[Pattern<'_>],
    word: &[u8],
    table: &mut SourceTable,
) -> Result<(), AllocError>
    ensures found { table.new.found ≡ table.old.found }
    ensures current { OnOk result (table.new.current ≡ all_noted table.old.current (flat_map (λ pattern. named_by pattern word.now) (map seen_pattern patterns.now))) }
{
    for pattern in patterns {
        note_pattern(pattern, word, table)?;
    }
    Ok(())
}

/// Notes the symbol that a word names as an argument, if it is one.
fn note_argument(
    symbol_patterns: &SymbolPatterns<'_>,
    is_argument: bool,
    word: &[u8],
    table: &mut SourceTable,
) -> Result<(), AllocError>
    ensures found { table.new.found ≡ table.old.found }
    ensures current { OnOk result (table.new.current ≡ all_noted table.old.current (argument_names symbol_patterns.now.prefix is_argument word.now)) }
{
    if is_argument {
        return table.note_joined(symbol_patterns.prefix, word);
    }
    Ok(())
}

/// Notes what a word names by itself.
fn note_own(
    symbol_patterns: &SymbolPatterns<'_>,
    word: &[u8],
    table: &mut SourceTable,
) -> Result<(), AllocError>
    ensures found { table.new.found ≡ table.old.found }
    ensures current { OnOk result (table.new.current ≡ all_noted table.old.current (own_names symbol_patterns.now word.now)) }
{
    if arguments_of(symbol_patterns.macros, word) == 0 {
        return note_patterns(symbol_patterns.patterns, word, table);
    }
    Ok(())
}

/// Notes the names of a word.
fn note_word(
    symbol_patterns: &SymbolPatterns<'_>,
    pending: PendingMacroArgs,
    word: &[u8],
    table: &mut SourceTable,
) -> Result<(), AllocError>
    ensures found { table.new.found ≡ table.old.found }
    ensures current { OnOk result (table.new.current ≡ all_noted table.old.current (word_names symbol_patterns.now pending word.now)) }
{
    note_argument(symbol_patterns, pending.args_at_word > 0, word, table)?;
    note_own(symbol_patterns, word, table)
}

impl WordScan {
    /// A scan that stands before a text.
    pub(crate) fn new() -> Self
        ensures word { result.word ≡ Some [] }
        ensures pending { result.pending ≡ nothing }
    {
        WordScan {
            word: PartialToken::new(),
            pending: PendingMacroArgs::nothing(),
        }
    }

    /// Ends the word that stands open, if there is one.
    fn end_word(
        &mut self,
        symbol_patterns: &SymbolPatterns<'_>,
        table: &mut SourceTable,
    ) -> Result<(), AllocError>
        requires { AreShort symbol_patterns.now }
        ensures found { table.new.found ≡ table.old.found }
        ensures knows { (k : Known) → Knows self.old table.old k → OnOk result (Knows self.new table.new (word_ended symbol_patterns.now k)) }
    {
        let Some(word) = self.word.bytes() else {
            // too long for a name, and for a macro
            self.pending = self.pending.following(0);
            self.word.clear();
            return Ok(());
        };
        if word.is_empty() {
            return Ok(());
        }
        note_word(symbol_patterns, self.pending, word, table)?;
        self.pending = self
            .pending
            .following(arguments_of(symbol_patterns.macros, word));
        self.word.clear();
        Ok(())
    }

    /// Takes a byte that is no word byte.
    fn pass(
        &mut self,
        symbol_patterns: &SymbolPatterns<'_>,
        byte: u8,
        table: &mut SourceTable,
    ) -> Result<(), AllocError>
        requires byte { is_word_byte byte ≡ false }
        requires short { AreShort symbol_patterns.now }
        ensures found { table.new.found ≡ table.old.found }
        ensures knows { (k : Known) → Knows self.old table.old k → OnOk result (Knows self.new table.new (next symbol_patterns.now k byte)) }
    {
        self.end_word(symbol_patterns, table)?;
        self.pending = self.pending.passed(byte);
        Ok(())
    }

    /// Takes the word that a rest of a piece begins with, and the byte after it. It tells how many bytes these are.
    fn take_word(
        &mut self,
        symbol_patterns: &SymbolPatterns<'_>,
        rest: &[u8],
        table: &mut SourceTable,
    ) -> Result<usize, AllocError>
        requires some { 0 < length rest.now }
        requires short { AreShort symbol_patterns.now }
        ensures taken { IfOk result (λ n. (0 < n) × (n ≤ length rest.now)) }
        ensures found { table.new.found ≡ table.old.found }
        ensures knows { (k : Known) → Knows self.old table.old k → IfOk result (λ n. Knows self.new table.new (known_after symbol_patterns.now k (take n rest.now))) }
    {
        let head = leading_word(rest);
        self.word.push(head);
        if head.len() == rest.len() {
            return Ok(head.len());
        }
        self.pass(symbol_patterns, rest[head.len()], table)?;
        Ok(head.len() + 1)
    }

    /// Takes the next piece of a text, and notes the names that it completes.
    pub(crate) fn feed(
        &mut self,
        symbol_patterns: &SymbolPatterns<'_>,
        piece: &[u8],
        table: &mut SourceTable,
    ) -> Result<(), AllocError>
        requires { AreShort symbol_patterns.now }
        ensures found { table.new.found ≡ table.old.found }
        ensures knows { (k : Known) → Knows self.old table.old k → OnOk result (Knows self.new table.new (known_after symbol_patterns.now k piece.now)) }
    {
        let mut place = 0;
        while place < piece.len() {
            place += self.take_word(symbol_patterns, &piece[place..], table)?;
        }
        Ok(())
    }

    /// Ends the text, and notes the names of the word that ends it.
    pub(crate) fn finish(
        &mut self,
        symbol_patterns: &SymbolPatterns<'_>,
        table: &mut SourceTable,
    ) -> Result<(), AllocError>
        requires { AreShort symbol_patterns.now }
        ensures found { table.new.found ≡ table.old.found }
        ensures names { (k : Known) → Knows self.old table.old k → OnOk result (table.new.current ≡ all_noted [] (word_ended symbol_patterns.now k).names) }
        ensures word { OnOk result (self.new.word ≡ Some []) }
        ensures pending { OnOk result (self.new.pending ≡ nothing) }
    {
        self.end_word(symbol_patterns, table)?;
        *self = WordScan::new();
        Ok(())
    }
}
