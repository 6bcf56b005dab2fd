//! Settings while their lines are read: for each symbol the value that was written for it last, at the place that its name has in the
//! order of names.
//!
//! So the last line about a symbol counts, with no look at those before it, and the settings come out in order with no sort. A value
//! is checked where it is read, and becomes a text at the end, where no later line took its place.
ghost use Rattle.std.specs.Prelude.{◌≡◌, ◌+◌, ◌^◌, ◌<◌, ◌++◌, ℕ, List, [], ◌∷◌, Option, Some, IfOk, IfSome, OnOk, option_map, cond, bytes_eq, slice_get, map as map_list};
ghost use Rattle.std.specs.FinMap as map;
ghost use Rattle.ks_symbols.specs.WrittenValues.{given, indexed};
ghost use Rattle.ks_symbols.specs.Table.{with_entry};

use crate::kinds::{Kind, is_off, value_is_valid};
use crate::settings::SettingsBuilder;
use crate::symbols::Symbols;
use crate::table::{RowList, Rows};
use crate::values::unquoted;
use std::alloc::{AllocError, Global};
use std::marker::Model;

/// Puts a row after the others, where a written value gives its symbol something.
#[tactic(auto, unfolding(crate::specs::Values::text_of))]
fn put_row(
    alloc: Global,
    rows: &mut RowList<Kind>,
    name: &[u8],
    kind: Kind,
    written: Option<&[u8]>,
) -> Result<(), AllocError>
    ensures { OnOk result (rows.new ≡ rows.old ++ with_entry name.now (given kind (option_map (λ w. w.now) written.entry)) []) }
{
    let Some(value) = written else {
        return Ok(());
    };
    if kind == Kind::Text {
        return match unquoted(alloc, value)? {
            Some(text) => rows.push(name, kind, &text),
            None => Ok(()),
        };
    }
    if value_is_valid(kind, value) && !is_off(kind, value) {
        rows.push(name, kind, value)?;
    }
    Ok(())
}

/// Puts the row of the next symbol, where the value at its place gives it something.
fn put_next(
    alloc: Global,
    rows: &mut RowList<Kind>,
    symbols: &mut Rows<'_, Kind>,
    written: Option<&[u8]>,
) -> Result<(), AllocError>
    ensures { OnOk result ((values : List (Option (List ℕ))) → rows.new ++ indexed (map_list (λ e. (e.0, e.1.0)) symbols.new) values
        ≡ rows.old ++ indexed (map_list (λ e. (e.0, e.1.0)) symbols.old) (option_map (λ w. w.now) written.entry ∷ values)) }
{
    match symbols.next() {
        Some((name, kind, _)) => put_row(alloc, rows, name, kind, written),
        None => Ok(()),
    }
}

/// The rows of the symbols that have something by these values, by rising names.
fn rows_of(
    alloc: Global,
    symbols: &Symbols,
    written: &[Option<&[u8]>],
) -> Result<RowList<Kind>, AllocError>
    ensures { IfOk result (λ rows. rows ≡ indexed (map.entries symbols.now.kinds) (map_list (option_map (λ w. w.now)) written.now)) }
{
    let mut rows = RowList::new(alloc);
    let mut rest = symbols.rows();
    for value in written {
        put_next(alloc, &mut rows, &mut rest, *value)?;
    }
    Ok(rows)
}

/// The values that were written for declared symbols so far.
#[derive(Drop)]
pub(crate) struct WrittenValues<'a> {
    symbols: &'a Symbols,
    written: Vec<Option<&'a [u8]>>,
    near: usize,
    unknown: u64,
}

impl<'a> Model for WrittenValues<'a> {
    ghost use Rattle.std.specs.Prelude.{◌≡◌, map, option_map, length};
    ghost use Rattle.std.specs.FinMap.{entries as entries_of, from_entries};
    ghost use Rattle.ks_symbols.specs.WrittenValues.{WrittenView, coded_written_view, indexed};

    ghost Value = { WrittenView };

    ghost coded = { coded_written_view };

    ghost view = { λ s. record {
      kinds = s.symbols.now.kinds;
      entries = from_entries (indexed (entries_of s.symbols.now.kinds) (map (option_map (λ w. w.now)) s.written.items));
      unknown
          = s.unknown;
    } };

    ghost invariant = { λ s. length s.written.items ≡ length (entries_of s.symbols.now.kinds) };
}

impl<'a> WrittenValues<'a> {
    /// No values yet.
    pub(crate) fn new(alloc: Global, symbols: &'a Symbols) -> Result<WrittenValues<'a>, AllocError>
        ensures kinds { IfOk result (λ s. s.kinds ≡ symbols.now.kinds) }
        ensures entries { IfOk result (λ s. s.entries ≡ map.empty) }
        ensures unknown { IfOk result (λ s. s.unknown ≡ 0) }
    {
        Ok(WrittenValues {
            symbols,
            written: vec![in alloc; None; symbols.count()]?,
            near: symbols.first_index(),
            unknown: 0,
        })
    }

    /// The place and the kind of a declared symbol. It is looked for first where the symbol is that is declared after the one that was
    /// found before.
    pub(crate) fn look_up(&mut self, name: &[u8]) -> Option<(usize, Kind)>
        ensures kind { option_map (λ s. s.1) result ≡ map.get self.old.kinds name.now }
        ensures index { IfSome result (λ s. slice_get (map.entries self.old.kinds) s.0 ≡ Some (name.now, s.1)) }
        ensures same { self.new ≡ self.old }
    {
        let symbols = self.symbols;
        let found = symbols.kind_near(name, self.near);
        if let Some((index, _)) = found {
            self.near = symbols.index_after(index);
        }
        found
    }

    /// Notes the value that a line writes for the symbol at a place, or that the line takes away what it had.
    pub(crate) fn note(&mut self, index: usize, value: Option<&'a [u8]>)
        ensures entries { (e : List ℕ × Kind) (x : List ℕ) → slice_get (map.entries self.old.kinds) index ≡ Some e → map.get self.new.entries x
            ≡ cond (bytes_eq e.0 x) (given e.1 (option_map (λ w. w.now) value.entry)) (map.get self.old.entries x) }
        ensures kinds { self.new.kinds ≡ self.old.kinds }
        ensures unknown { self.new.unknown ≡ self.old.unknown }
    {
        if index < self.written.len() {
            self.written[index] = value;
        }
    }

    /// Counts a line about a name that is not declared.
    pub(crate) fn skip(&mut self)
        requires { self.old.unknown < 2 ^ 63 }
        ensures kinds { self.new.kinds ≡ self.old.kinds }
        ensures entries { self.new.entries ≡ self.old.entries }
        ensures unknown { self.new.unknown ≡ self.old.unknown + 1 }
    {
        self.unknown += 1;
    }

    /// What the values give, in order.
    pub(crate) fn finish(self, alloc: Global) -> Result<SettingsBuilder, AllocError>
        ensures entries { IfOk result (λ s. s.entries ≡ self.entry.entries) }
        ensures unknown { IfOk result (λ s. s.unknown ≡ self.entry.unknown) }
    {
        let WrittenValues {
            symbols,
            written,
            near: _,
            unknown,
        } = self;
        let rows = rows_of(alloc, symbols, &written)?;
        Ok(SettingsBuilder::new(rows.finish(), unknown))
    }
}
