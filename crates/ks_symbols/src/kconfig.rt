//! Reading a Kconfig of bare entries: which symbols it declares, of which kinds, and its title.
//!
//! One missed declaration would leave a symbol out of the header, so whatever is not of the selection of
//! forms is refused with its line, and nothing is guessed. Dependencies, defaults, choices, menus and
//! `source` are left out: the values of a `.config` come resolved.
ghost use Rattle.std.specs.Prelude.{◌≡◌, ◌+◌, ◌≤◌, ◌<◌, ◌^◌, [], ℕ, List, Option, option_map, unwrap_or, codes, vec_items, length, None, Some, IfOk, IfNone, OnOk, OnErr, IsErrOf, IsTrue, map as map_list};
ghost use Rattle.std.specs.FinMap as map;
ghost use Rattle.ks_symbols.specs.declared.error.SourceError.{SourceError};
ghost use Rattle.ks_symbols.specs.Lines.{max_bytes};
ghost use Rattle.ks_symbols.specs.Refusals.{RefusedBy, or_else};
ghost use Rattle.ks_symbols.specs.Configuration.{HasSymbolNames};
ghost use Rattle.ks_symbols.specs.Progress.{no_progress, waiting_fault, progress_after, step_fault, no_kinds, seen, first_kind, last_kind, first_clash, without_text};
ghost use Rattle.ks_symbols.specs.Dialects.{read_in};
ghost use Rattle.ks_symbols.specs.Names.{is_name};
ghost use Rattle.ks_symbols.specs.LineKinds.{line_kind, entry_line_kind, Title, Entry, HasKind};
ghost use Rattle.ks_symbols.specs.Titles.{is_title};
ghost use Rattle.ks_symbols.specs.Kconfig.{clashes, declared, title_of, kconfig_refusal};

use crate::dialect::{Dialect, Kconfig};
use crate::error::SourceError;
use crate::kinds::{Kind, fits};
use crate::limits::MAX_BYTES;
use crate::line_kinds::{LineKind, is_kept_free, line_kind_of, plain_entry};
use crate::names::name_is_legal;
use crate::order::Order;
use crate::symbols::Symbols;
use crate::table::{Draft, Table};
use crate::titles::is_title;
use bstr::ByteSlice;
use std::alloc::{AllocError, Global};
use std::marker::Model;

/// A declaration, which lies in the text.
#[derive(Clone, Copy)]
pub(crate) struct Declaration<'a> {
    name: &'a [u8],
    kind: Kind,
    number: u64,
}

/// Whether a symbol of a kind was declared with another one before.
fn clashes(kind: Kind, before: Kind) -> bool
    ensures { result ≡ clashes kind (Some before) }
{
    kind != before
}

/// The kinds with which names are declared first. Of several lines about a name a draft keeps the last one, so it gets them in
/// turned order.
fn first_kinds(alloc: Global, declared: &[Declaration<'_>]) -> Result<Table<Kind>, AllocError>
    ensures { IfOk result (λ t. (x : List ℕ) → map.get t x ≡ option_map without_text (first_kind (map_list seen declared.now) x)) }
{
    let mut kinds = Draft::new(alloc);
    let mut index = declared.len();
    while index > 0 {
        index -= 1;
        let declaration = &declared[index];
        kinds.put(declaration.name, declaration.kind, b"")?;
    }
    kinds.finish(alloc)
}

/// Whether a declaration has another kind than its name has here, which is looked for at the place `near` first. That becomes the
/// place of the symbol declared after it.
fn has_other_kind(
    kinds: &Table<Kind>,
    declaration: &Declaration<'_>,
    order: &Order,
    near: &mut usize,
) -> bool
    ensures { result ≡ clashes declaration.now.kind (option_map (λ s. s.0) (map.get kinds.now declaration.now.name.now)) }
{
    match kinds.get_near(declaration.name, *near) {
        Some((index, first, _)) => {
            *near = order.after(index);
            clashes(declaration.kind, first)
        }
        None => false,
    }
}

/// The line of the first declaration with another kind than the first one of its name. Names are looked for in their order first.
fn first_clash(kinds: &Table<Kind>, declared: &[Declaration<'_>], order: &Order) -> Option<u64>
    requires { (x : List ℕ) → map.get kinds.now x ≡ option_map without_text (first_kind (map_list seen declared.now) x) }
    ensures clash { option_map (λ n. SourceError.TypeClash n) result ≡ first_clash [] (map_list seen declared.now) }
    ensures kinds { IfNone result ((x : List ℕ) → first_kind (map_list seen declared.now) x ≡ last_kind (map_list seen declared.now) x) }
{
    let mut near = order.first();
    for declaration in declared {
        if has_other_kind(kinds, declaration, order, &mut near) {
            return Some(declaration.number);
        }
    }
    None
}

/// A copy of the title, or of the one that a text without a title line has.
fn title_or_default(alloc: Global, title: Option<&[u8]>) -> Result<Vec<u8>, AllocError>
    ensures { IfOk result (λ t. t.items ≡ unwrap_or (option_map (λ l. l.now) title.entry) (codes "Main menu")) }
{
    match title {
        Some(title) => Vec::from_slice(alloc, title),
        None => Vec::from_slice(alloc, b"Main menu"),
    }
}

/// What was read of a Kconfig text so far.
#[derive(Drop)]
struct Reader<'a> {
    declared: Vec<Declaration<'a>>,
    title: Option<&'a [u8]>,
    started: bool,
    waiting: Option<(u64, &'a [u8])>,
}

impl<'a> Model for Reader<'a> {
    ghost use Rattle.std.specs.Prelude.{option_map, map};
    ghost use Rattle.ks_symbols.specs.Progress.{Progress, coded_progress, seen};

    ghost Value = { Progress };

    ghost coded = { coded_progress };

    ghost view = { λ s. record {
      declared = map seen s.declared.items;
      title = option_map (λ t. t.now) s.title;
      started = s.started;
      waiting
          = option_map (λ w. (w.0, w.1.now)) s.waiting;
    } };
}

impl<'a> Reader<'a> {
    fn new(alloc: Global) -> Reader<'a>
        ensures { result ≡ no_progress }
    {
        Reader {
            declared: Vec::new(alloc),
            title: None,
            started: false,
            waiting: None,
        }
    }

    /// Whether no entry waits for its kind.
    fn check_waiting(&self) -> Result<(), SourceError>
        ensures refusal { RefusedBy SourceError.OutOfMemory result (waiting_fault self.now.waiting) }
        ensures memory { IsErrOf result SourceError.OutOfMemory → ⊥ }
        ensures none { OnOk result (self.now.waiting ≡ None) }
    {
        match &self.waiting {
            Some((number, _)) => Err(SourceError::NoType(*number)),
            None => Ok(()),
        }
    }

    fn take_title(&mut self, number: u64, title: &'a [u8]) -> Result<(), SourceError>
        ensures progress { OnOk result (self.new ≡ progress_after self.old number (Title title.now)) }
        ensures refusal { RefusedBy SourceError.OutOfMemory result (step_fault no_kinds self.old number (Title title.now)) }
        ensures memory { IsErrOf result SourceError.OutOfMemory → ⊥ }
        ensures kept { OnErr result (self.new.declared ≡ self.old.declared) }
    {
        self.check_waiting()?;
        if !is_title(title) || self.started {
            return Err(SourceError::BadTitle(number));
        }
        self.title = Some(title);
        self.started = true;
        Ok(())
    }

    fn take_entry(&mut self, number: u64, name: &'a [u8]) -> Result<(), SourceError>
        ensures progress { OnOk result (self.new ≡ progress_after self.old number (Entry name.now)) }
        ensures refusal { RefusedBy SourceError.OutOfMemory result (step_fault no_kinds self.old number (Entry name.now)) }
        ensures memory { IsErrOf result SourceError.OutOfMemory → ⊥ }
        ensures kept { OnErr result (self.new.declared ≡ self.old.declared) }
    {
        self.check_waiting()?;
        if !name_is_legal(name) {
            return Err(SourceError::BadName(number));
        }
        self.started = true;
        self.waiting = Some((number, name));
        Ok(())
    }

    /// Takes in the entry of a legal name.
    fn take_name(
        &mut self,
        dialect: Dialect,
        number: u64,
        name: &'a [u8],
    ) -> Result<(), SourceError>
        requires { IsTrue (is_name name.now) }
        ensures progress { OnOk result (self.new ≡ progress_after self.old number (entry_line_kind dialect name.now)) }
        ensures refusal { RefusedBy SourceError.OutOfMemory result (step_fault no_kinds self.old number (entry_line_kind dialect name.now)) }
        ensures memory { IsErrOf result SourceError.OutOfMemory → ⊥ }
        ensures kept { OnErr result (self.new.declared ≡ self.old.declared) }
    {
        self.check_waiting()?;
        if is_kept_free(dialect, name) {
            return Err(SourceError::ModuleName(number));
        }
        self.started = true;
        self.waiting = Some((number, name));
        Ok(())
    }

    fn take_kind(&mut self, number: u64, kind: Kind) -> Result<(), SourceError>
        ensures progress { OnOk result (self.new ≡ progress_after self.old number (HasKind kind)) }
        ensures refusal { RefusedBy SourceError.OutOfMemory result (step_fault no_kinds self.old number (HasKind kind)) }
        ensures memory { IsErrOf result SourceError.OutOfMemory → step_fault no_kinds self.old number (HasKind kind) ≡ None }
        ensures kept { OnErr result (self.new.declared ≡ self.old.declared) }
    {
        let Some((_, name)) = self.waiting.take() else {
            return Err(SourceError::NotBare(number));
        };
        if !fits(kind, name) {
            return Err(SourceError::ModuleName(number));
        }
        self.declared
            .push(Declaration { name, kind, number })
            .map_err(AllocError::from)?;
        Ok(())
    }

    fn take_line(
        &mut self,
        dialect: Dialect,
        number: u64,
        line: &'a [u8],
    ) -> Result<(), SourceError>
        ensures progress { OnOk result (self.new ≡ progress_after self.old number (line_kind dialect line.now)) }
        ensures refusal { RefusedBy SourceError.OutOfMemory result (step_fault no_kinds self.old number (line_kind dialect line.now)) }
        ensures memory { IsErrOf result SourceError.OutOfMemory → step_fault no_kinds self.old number (line_kind dialect line.now) ≡ None }
        ensures kept { OnErr result (self.new.declared ≡ self.old.declared) }
    {
        if let Some(name) = plain_entry(line) {
            return self.take_name(dialect, number, name);
        }
        match line_kind_of(dialect, line) {
            LineKind::CommentOrBlank => Ok(()),
            LineKind::Title(title) => self.take_title(number, title),
            LineKind::Untitled => {
                self.check_waiting()?;
                Err(SourceError::BadTitle(number))
            }
            LineKind::Entry(name) => self.take_entry(number, name),
            LineKind::ModuleEntry => {
                self.check_waiting()?;
                Err(SourceError::ModuleName(number))
            }
            LineKind::HasKind(kind) => self.take_kind(number, kind),
            LineKind::Unknown => Err(SourceError::NotBare(number)),
        }
    }

    /// Takes the lines of a text, up to the first that is refused by itself, and not for the kind of its name.
    fn take_lines(&mut self, dialect: Dialect, text: &'a [u8]) -> Result<(), SourceError>
        requires start { self.old ≡ no_progress }
        requires small { length text.now ≤ 67108864 }
        ensures refusal { (other : Option SourceError) × RefusedBy SourceError.OutOfMemory result other
            × (or_else (first_clash [] self.new.declared) other ≡ kconfig_refusal (read_in dialect text.now)) }
        ensures kinds { OnOk result (first_clash [] self.new.declared ≡ None → (x : List ℕ) → last_kind self.new.declared x ≡ declared (read_in dialect text.now) x) }
        ensures title { OnOk result (first_clash [] self.new.declared ≡ None → unwrap_or self.new.title (codes "Main menu") ≡ title_of (read_in dialect text.now)) }
    {
        let mut number: u64 = 1;
        for line in text.lines() {
            self.take_line(dialect, number, line)?;
            number += 1;
        }
        self.check_waiting()
    }

    /// The kinds with which names are declared first.
    fn kinds(&self, alloc: Global) -> Result<Table<Kind>, AllocError>
        ensures { IfOk result (λ t. (x : List ℕ) → map.get t x ≡ option_map without_text (first_kind self.now.declared x)) }
    {
        first_kinds(alloc, &self.declared)
    }

    /// The line of the first declaration with another kind than the first one of its name.
    fn clash(&self, kinds: &Table<Kind>, order: &Order) -> Option<u64>
        requires { (x : List ℕ) → map.get kinds.now x ≡ option_map without_text (first_kind self.now.declared x) }
        ensures clash { option_map (λ n. SourceError.TypeClash n) result ≡ first_clash [] self.now.declared }
        ensures kinds { IfNone result ((x : List ℕ) → first_kind self.now.declared x ≡ last_kind self.now.declared x) }
    {
        first_clash(kinds, &self.declared, order)
    }

    /// The title of the text.
    fn title(&self, alloc: Global) -> Result<Vec<u8>, AllocError>
        ensures { IfOk result (λ t. t.items ≡ unwrap_or self.now.title (codes "Main menu")) }
    {
        title_or_default(alloc, self.title)
    }
}

/// Which line is the first with another kind than a name has is known only when all lines are read, and then reported before the fault of
/// any line after it.
fn read_text(alloc: Global, dialect: Dialect, text: &[u8]) -> Result<Symbols, SourceError>
    ensures kinds { IfOk result (λ s. (x : List ℕ) → map.get s.kinds x ≡ declared (read_in dialect text.now) x) }
    ensures title { IfOk result (λ s. s.title ≡ title_of (read_in dialect text.now)) }
    ensures refusal { RefusedBy SourceError.OutOfMemory result (kconfig_refusal (read_in dialect text.now)) }
    ensures memory { IsErrOf result SourceError.OutOfMemory → length text.now ≤ max_bytes }
    ensures names { IfOk result (λ s. HasSymbolNames (map.get s.kinds)) }
    ensures titled { IfOk result (λ s. IsTrue (is_title s.title)) }
{
    if text.len() > MAX_BYTES {
        return Err(SourceError::TooLarge);
    }
    let mut reader = Reader::new(alloc);
    let read = reader.take_lines(dialect, text);
    let kinds = reader.kinds(alloc)?;
    // (the draft got the declarations in turned order)
    let order = kinds.latest_first(alloc)?;
    if let Some(number) = reader.clash(&kinds, &order) {
        return Err(SourceError::TypeClash(number));
    }
    read?;
    let title = reader.title(alloc)?;
    Ok(Symbols::new(kinds, title, order))
}

/// The symbols that a Kconfig declares.
pub fn read_kconfig(alloc: Global, kconfig: &Kconfig<'_>) -> Result<Symbols, SourceError>
    ensures kinds { IfOk result (λ s. (x : List ℕ) → map.get s.kinds x ≡ declared kconfig.now x) }
    ensures title { IfOk result (λ s. s.title ≡ title_of kconfig.now) }
    ensures refusal { RefusedBy SourceError.OutOfMemory result (kconfig_refusal kconfig.now) }
    ensures memory { IsErrOf result SourceError.OutOfMemory → length kconfig.now.text ≤ max_bytes }
    ensures names { IfOk result (λ s. HasSymbolNames (map.get s.kinds)) }
    ensures titled { IfOk result (λ s. IsTrue (is_title s.title)) }
{
    let (dialect, text) = kconfig.parts();
    read_text(alloc, dialect, text)
}
