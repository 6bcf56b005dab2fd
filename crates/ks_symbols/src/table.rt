//! A map from names that is filled once and then only asked: its names and texts lie in one vector of bytes, and the
//! records of them in another one, in rising order of the names and none twice.
//!
//! A configuration is read line by line, compared and written, and never changed in between. So lines are kept as they
//! come, in a `Draft`, and put in order once, when it is closed. Of several lines about a name the last counts. A record has
//! the first bytes of its name besides, so that most names are told apart without a look at where they lie.
ghost use Rattle.std.specs.Prelude.{◌≡◌, OnOk, IfOk, IfSome, Some, List, ℕ, T, [], ◌∷◌, ◌++◌, length, map as map_list, option_map, slice_get, slice_index, slice_range, ◌<◌};
ghost use Rattle.std.specs.FinMap as map;
ghost use Rattle.std.specs.FinMap.{find, is_sorted};
ghost use Rattle.std.specs.Iterator.{item_count};
ghost use Rattle.std.specs.Map.Iter.{TakesFirst};
ghost use Rattle.std.specs.Ordering.{nat_cmp};
ghost use Rattle.std.specs.Cmp.Lexicographic.{slice_cmp};
ghost use Rattle.std.specs.List.Sorted.{IsSortedByKey, IsStableByKey};
ghost use Rattle.ks_symbols.specs.Table.{name_in, text_in, entry_in, stated_in, after_line, begins_with, last_ones, borrowed_row, head_of, by_heads, AreHeaded};

use crate::order::Order;
use std::alloc::{AllocError, Global};
use std::cmp::Ordering;
use std::marker::Model;
use std::slice::Iter;

/// Where a name and the text after it lie in the bytes, and what the name has besides.
#[derive(Clone, Copy)]
pub(crate) struct Record<V> {
    start: usize,
    middle: usize,
    end: usize,
    head: u32,
    value: V,
}

/// The byte at a place of a name, or 0 where it has none.
fn byte_at(name: &[u8], index: usize) -> u32
    ensures value { result ≡ slice_index name.now index }
    ensures bound { result < 256 }
{
    match name.get(index) {
        Some(byte) => u32::from(*byte),
        None => 0,
    }
}

/// The first four bytes of a name as one number: of two names with unequal numbers the lesser has the lesser one.
fn head_of(name: &[u8]) -> u32
    ensures { result ≡ head_of name.now }
{
    let first = byte_at(name, 0) * 256 + byte_at(name, 1);
    let second = byte_at(name, 2) * 256 + byte_at(name, 3);
    first * 65536 + second
}

/// The bytes from one place up to another, as far as there are any.
fn piece(bytes: &[u8], from: usize, to: usize) -> &[u8]
    ensures { result.now ≡ slice_range bytes.now from to }
{
    let rest = &bytes[from.min(bytes.len())..];
    &rest[..to.saturating_sub(from).min(rest.len())]
}

fn name_of<'a, V>(bytes: &'a [u8], at: &Record<V>) -> &'a [u8]
    ensures { result.now ≡ name_in bytes.now at.now }
{
    piece(bytes, at.start, at.middle)
}

fn text_of<'a, V>(bytes: &'a [u8], at: &Record<V>) -> &'a [u8]
    ensures { result.now ≡ text_in bytes.now at.now }
{
    piece(bytes, at.middle, at.end)
}

/// How two records stand to each other by their heads, and where these are equal by their names.
fn compare<V>(bytes: &[u8], a: &Record<V>, b: &Record<V>) -> Ordering
    ensures { result ≡ by_heads bytes.now a.now b.now }
{
    match a.head.cmp(&b.head) {
        Ordering::Equal => name_of(bytes, a).cmp(name_of(bytes, b)),
        unequal => unequal,
    }
}

/// Puts records in rising order of their names, those of one name in the order in which they stand.
fn sort_records<V>(bytes: &[u8], records: &mut Vec<Record<V>>) -> Result<(), AllocError>
    requires { AreHeaded bytes.now records.old.items }
    ensures sorted { OnOk result (IsSortedByKey (name_in bytes.now) (slice_cmp nat_cmp) records.new.items) }
    ensures stable { IsStableByKey (name_in bytes.now) (slice_cmp nat_cmp) records.old.items records.new.items }
{
    records.sort_by(|a, b| compare(bytes, a, b))
}

/// Whether the first of the records has the name.
fn begins_with<V>(bytes: &[u8], records: &[Record<Option<V>>], name: &[u8]) -> bool
    ensures { result ≡ begins_with name.now (map_list (stated_in bytes.now) records.now) }
{
    match records.first() {
        Some(first) => name == name_of(bytes, first),
        None => false,
    }
}

/// Of records in the order of their names the last one of each name, if it gives the name something.
fn last_ones<V: Copy>(
    alloc: Global,
    bytes: &[u8],
    records: &[Record<Option<V>>],
) -> Result<Vec<Record<V>>, AllocError>
    ensures { IfOk result (λ kept. map_list (entry_in bytes.now) kept.items ≡ last_ones (map_list (stated_in bytes.now) records.now)) }
{
    let mut kept = Vec::with_capacity(alloc, records.len())?;
    let mut rest = records;
    while let Some((first, later)) = rest.split_first() {
        if !begins_with(bytes, later, name_of(bytes, first)) {
            if let Some(value) = first.value {
                kept.push(Record {
                    start: first.start,
                    middle: first.middle,
                    end: first.end,
                    head: first.head,
                    value,
                })?;
            }
        }
        rest = later;
    }
    Ok(kept)
}

/// The place, the value and the text of a name, of records whose names rise.
fn find<'a, V: Copy>(
    bytes: &'a [u8],
    records: &[Record<V>],
    name: &[u8],
) -> Option<(usize, V, &'a [u8])>
    requires { T (is_sorted (slice_cmp nat_cmp) (map_list (entry_in bytes.now) records.now)) }
    ensures value { option_map (λ s. (s.1, s.2.now)) result ≡ find (slice_cmp nat_cmp) name.now (map_list (entry_in bytes.now) records.now) }
    ensures index { IfSome result (λ s. slice_get (map_list (entry_in bytes.now) records.now) s.0 ≡ Some (name.now, (s.1, s.2.now))) }
{
    match records.binary_search_by(|at| name_of(bytes, at).cmp(name)) {
        Ok(index) => {
            let at = &records[index];
            Some((index, at.value, text_of(bytes, at)))
        }
        Err(_) => None,
    }
}

/// The same of the record at one place, where it has the name.
fn found_at<'a, V: Copy>(
    bytes: &'a [u8],
    records: &[Record<V>],
    name: &[u8],
    index: usize,
) -> Option<(usize, V, &'a [u8])>
    requires { T (is_sorted (slice_cmp nat_cmp) (map_list (entry_in bytes.now) records.now)) }
    ensures value { IfSome result (λ s. Some (s.1, s.2.now) ≡ find (slice_cmp nat_cmp) name.now (map_list (entry_in bytes.now) records.now)) }
    ensures index { IfSome result (λ s. slice_get (map_list (entry_in bytes.now) records.now) s.0 ≡ Some (name.now, (s.1, s.2.now))) }
{
    if index < records.len() {
        let at = &records[index];
        if name_of(bytes, at) == name {
            return Some((index, at.value, text_of(bytes, at)));
        }
    }
    None
}

/// Lines about names in the order in which they come, seen as the map that they make: the last line about a name counts.
#[derive(Drop)]
pub struct Draft<V> {
    bytes: Vec<u8>,
    records: Vec<Record<Option<V>>>,
}

impl<V> Model for Draft<V> {
    ghost use Rattle.std.specs.Prelude.{List, ℕ, map, length};
    ghost use Rattle.std.specs.Coded.{coded_list, coded×, coded_ℕ};
    ghost use Rattle.std.specs.FinMap.{code, empty};
    ghost use Rattle.ks_symbols.specs.Configuration.{NameMap};

    ghost Value = { NameMap (V × List ℕ) };

    ghost coded = { code (coded_list coded_ℕ) (coded× V.code (coded_list coded_ℕ)) };

    ghost use Rattle.ks_symbols.specs.Table.{stated_in, after_lines, LieIn, AreHeaded};

    ghost view = { λ d. after_lines empty (map (stated_in d.bytes.items) d.records.items) };

    ghost invariant = { λ d. LieIn (length d.bytes.items) d.records.items × AreHeaded d.bytes.items d.records.items };
}

impl<V: Copy> Draft<V> {
    pub fn new(alloc: Global) -> Draft<V>
        ensures { result ≡ map.empty }
    {
        Draft {
            bytes: Vec::new(alloc),
            records: Vec::new(alloc),
        }
    }

    fn push(&mut self, name: &[u8], value: Option<V>, text: &[u8]) -> Result<(), AllocError>
        ensures { OnOk result (self.new ≡ after_line self.old name.now (option_map (λ v. (v, text.now)) value)) }
    {
        let start = self.bytes.len();
        self.bytes.extend_from_slice(name)?;
        let middle = self.bytes.len();
        self.bytes.extend_from_slice(text)?;
        let end = self.bytes.len();
        self.records.push(Record {
            start,
            middle,
            end,
            head: head_of(name),
            value,
        })?;
        Ok(())
    }

    /// Gives a name a value and a text, in place of those before.
    pub fn put(&mut self, name: &[u8], value: V, text: &[u8]) -> Result<(), AllocError>
        ensures { OnOk result (self.new ≡ map.insert self.old name.now (value, text.now)) }
    {
        self.push(name, Some(value), text)
    }

    /// Takes away what a name has.
    pub fn remove(&mut self, name: &[u8]) -> Result<(), AllocError>
        ensures { OnOk result (self.new ≡ map.remove self.old name.now) }
    {
        self.push(name, None, b"")
    }

    /// The map, put in order.
    pub fn finish(self, alloc: Global) -> Result<Table<V>, AllocError>
        ensures { IfOk result (λ t. t ≡ self) }
    {
        let Draft { bytes, mut records } = self;
        sort_records(&bytes, &mut records)?;
        let records = last_ones(alloc, &bytes, &records)?;
        Ok(Table { bytes, records })
    }
}

/// Rows of names, values and texts, as they are put one after another.
#[derive(Drop)]
pub(crate) struct RowList<V> {
    bytes: Vec<u8>,
    records: Vec<Record<V>>,
}

impl<V> Model for RowList<V> {
    ghost use Rattle.std.specs.Prelude.{List, ℕ, map, length};
    ghost use Rattle.std.specs.Coded.{coded_list, coded×, coded_ℕ};

    ghost Value = { List (List ℕ × (V × List ℕ)) };

    ghost coded = { coded_list (coded× (coded_list coded_ℕ) (coded× V.code (coded_list coded_ℕ))) };

    ghost use Rattle.ks_symbols.specs.Table.{entry_in, LieIn};

    ghost view = { λ r. map (entry_in r.bytes.items) r.records.items };

    ghost invariant = { λ r. LieIn (length r.bytes.items) r.records.items };
}

impl<V: Copy> RowList<V> {
    pub(crate) fn new(alloc: Global) -> RowList<V>
        ensures { result ≡ [] }
    {
        RowList {
            bytes: Vec::new(alloc),
            records: Vec::new(alloc),
        }
    }

    /// Puts a row after the others.
    pub(crate) fn push(&mut self, name: &[u8], value: V, text: &[u8]) -> Result<(), AllocError>
        ensures { OnOk result (self.new ≡ self.old ++ (name.now, (value, text.now)) ∷ []) }
    {
        let start = self.bytes.len();
        self.bytes.extend_from_slice(name)?;
        let middle = self.bytes.len();
        self.bytes.extend_from_slice(text)?;
        let end = self.bytes.len();
        self.records.push(Record {
            start,
            middle,
            end,
            head: 0,
            value,
        })?;
        Ok(())
    }

    /// The map of rows that were put in rising order of their names.
    pub(crate) fn finish(self) -> Table<V>
        requires { T (is_sorted (slice_cmp nat_cmp) self) }
        ensures { result ≡ map.from_entries self }
    {
        let RowList { bytes, records } = self;
        Table { bytes, records }
    }
}

/// A map from names to values and texts, in rising order of the names.
#[derive(Drop)]
pub struct Table<V> {
    bytes: Vec<u8>,
    records: Vec<Record<V>>,
}

impl<V> Model for Table<V> {
    ghost use Rattle.std.specs.Prelude.{List, ℕ, map, T};
    ghost use Rattle.std.specs.Coded.{coded_list, coded×, coded_ℕ};
    ghost use Rattle.std.specs.FinMap.{code, from_entries, is_sorted};
    ghost use Rattle.std.specs.Ordering.{nat_cmp};
    ghost use Rattle.std.specs.Cmp.Lexicographic.{slice_cmp};
    ghost use Rattle.ks_symbols.specs.Configuration.{NameMap};

    ghost Value = { NameMap (V × List ℕ) };

    ghost coded = { code (coded_list coded_ℕ) (coded× V.code (coded_list coded_ℕ)) };

    ghost use Rattle.ks_symbols.specs.Table.{entry_in};

    ghost view = { λ t. from_entries (map (entry_in t.bytes.items) t.records.items) };

    ghost invariant = { λ t. T (is_sorted (slice_cmp nat_cmp) (map (entry_in t.bytes.items) t.records.items)) };
}

impl<V: Copy> Table<V> {
    /// No names. It takes no memory.
    pub fn empty(alloc: Global) -> Table<V>
        ensures { result ≡ map.empty }
    {
        Table {
            bytes: Vec::new(alloc),
            records: Vec::new(alloc),
        }
    }

    /// How many names there are.
    pub(crate) fn len(&self) -> usize
        ensures { result ≡ length (map.entries self.now) }
    {
        self.records.len()
    }

    /// The value and the text of a name.
    pub fn get(&self, name: &[u8]) -> Option<(V, &[u8])>
        ensures { option_map (λ s. (s.0, s.1.now)) result ≡ map.get self.now name.now }
    {
        match find(&self.bytes, &self.records, name) {
            Some(found) => Some((found.1, found.2)),
            None => None,
        }
    }

    /// The place, the value and the text of a name, which is looked for at one place first.
    pub(crate) fn get_near(&self, name: &[u8], near: usize) -> Option<(usize, V, &[u8])>
        ensures value { option_map (λ s. (s.1, s.2.now)) result ≡ map.get self.now name.now }
        ensures index { IfSome result (λ s. slice_get (map.entries self.now) s.0 ≡ Some (name.now, (s.1, s.2.now))) }
    {
        match found_at(&self.bytes, &self.records, name, near) {
            Some(found) => Some(found),
            None => find(&self.bytes, &self.records, name),
        }
    }

    /// The order in which the names were given what they have, the last one first. Names lie in the bytes as they came, so no
    /// name is looked for.
    pub(crate) fn latest_first(&self, alloc: Global) -> Result<Order, AllocError> {
        let mut starts = Vec::with_capacity(alloc, self.records.len())?;
        for (index, at) in self.records.iter().enumerate() {
            starts.push((at.start, index))?;
        }
        starts.sort_unstable_by(|one, other| other.0.cmp(&one.0));
        let mut order = Order::new(alloc, starts.len())?;
        for (_, index) in &starts {
            order.push(*index);
        }
        Ok(order)
    }

    /// The rows, by rising names.
    pub fn rows(&self) -> Rows<'_, V>
        ensures { result ≡ map.entries self.now }
    {
        Rows {
            bytes: &self.bytes,
            inner: self.records.iter(),
        }
    }
}

/// The rows of a table, by rising names: name, value and text.
#[derive(Drop)]
pub struct Rows<'a, V> {
    bytes: &'a [u8],
    inner: Iter<'a, Record<V>>,
}

impl<'a, V> Model for Rows<'a, V> {
    ghost use Rattle.std.specs.Prelude.{List, ℕ, map};
    ghost use Rattle.std.specs.Coded.{coded_list, coded×, coded_ℕ};
    ghost use Rattle.std.specs.Slice.Iter.{iter_rest};

    ghost Value = { List (List ℕ × (V × List ℕ)) };

    ghost coded = { coded_list (coded× (coded_list coded_ℕ) (coded× V.code (coded_list coded_ℕ))) };

    ghost use Rattle.ks_symbols.specs.Table.{entry_in};

    ghost view = { λ r. map (entry_in r.bytes.now) (iter_rest r.inner) };
}

impl<'a, V: Copy> Iterator for Rows<'a, V> {
    type Item = (&'a [u8], V, &'a [u8]);

    ghost next_gives = { TakesFirst borrowed_row };

    ghost remaining = { item_count (λ rest. rest) };

    fn next(&mut self) -> Option<(&'a [u8], V, &'a [u8])> {
        match self.inner.next() {
            Some(at) => Some((name_of(self.bytes, at), at.value, text_of(self.bytes, at))),
            None => None,
        }
    }
}
