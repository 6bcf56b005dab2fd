//! The text of the command file of an object: for each prerequisite a line of its own, where it is listed, and then the names that
//! none before it has; and last the names that were found elsewhere alone. Each line is written from where its path or its name
//! lies already: an object has hundreds, and a path or a name of its own for each would cost more than the text itself.
ghost use Rattle.std.specs.Prelude.{◌≡◌, ◌+◌, ◌++◌, [], IfOk, IsTrue, OnOk, length, map};
ghost use Rattle.std.specs.List.{list_all};
ghost use Rattle.ks_symbols.specs.Names.{is_name, is_path};
ghost use Rattle.ks_fixdep.specs.CommandFile.{is_dep};
ghost use Rattle.ks_fixdep.specs.CommandWriting.{deps_text};
ghost use Rattle.ks_fixdep.specs.FoundNames.{all_noted, names_of};
ghost use Rattle.ks_fixdep.specs.Record.{own_line, new_names, deps_after, source_of, record_text};
ghost use Rattle.ks_fixdep.specs.SourceScan.{listed_of, names_by, picked};
ghost use Rattle.ks_fixdep.specs.SourceTable.{names_at};
ghost use Rattle.ks_fixdep.specs.declared.command_file.Dep.TheVariants.{Config};

use crate::command_file::{push_back, push_file, push_front, push_name};
use crate::dependency_file::{Prerequisites, Role};
use crate::place_set::PlaceSet;
use crate::source_scan::NamesBySource;
use crate::source_table::SourceTable;
use std::alloc::{AllocError, Global};

/// About how many bytes a line of a command file takes, with the line feed.
const USUAL_LINE: usize = 48;

/// The text of a command file, and how many names stand in it.
#[derive(Drop)]
pub struct RecordText {
    pub text: Vec<u8>,
    pub names: usize,
}

/// Writes the line of a prerequisite, where its role says so.
fn push_own_line(text: &mut Vec<u8>, path: &[u8], role: Role) -> Result<(), AllocError>
    ensures { OnOk result (text.new.items ≡ text.old.items ++ deps_text (own_line (path.now, role))) }
{
    if role == Role::Listed {
        push_file(text, path)?;
    }
    Ok(())
}

/// Writes the lines of the names at these places, but of those that are listed.
fn push_new_names(
    text: &mut Vec<u8>,
    table: &SourceTable,
    places: &[usize],
    listed: &mut PlaceSet,
) -> Result<(), AllocError>
    ensures text { let before = names_at table.now.names listed.old in
        OnOk result (text.new.items ≡ text.old.items ++ deps_text (map Config (new_names before (names_at table.now.names places.now)))) }
    ensures listed { let before = names_at table.now.names listed.old in
        OnOk result (names_at table.now.names listed.new ≡ all_noted before (names_at table.now.names places.now)) }
    ensures many { let before = names_at table.now.names listed.old in
        OnOk result (length listed.new ≡ length listed.old + length (new_names before (names_at table.now.names places.now))) }
    ensures legal { let before = names_at table.now.names listed.old in
        OnOk result (IsTrue (list_all is_name (new_names before (names_at table.now.names places.now)))) }
{
    for place in places {
        let Some(name) = table.name(*place) else {
            continue;
        };
        if listed.insert(*place)? {
            push_name(text, name)?;
        }
    }
    Ok(())
}

/// Writes the dependency lines of an object.
fn push_dependencies(
    text: &mut Vec<u8>,
    prerequisites: &Prerequisites,
    table: &SourceTable,
    sources: &[usize],
    listed: &mut PlaceSet,
) -> Result<(), AllocError>
    requires { listed.old ≡ [] }
    ensures text { OnOk result (text.new.items ≡ text.old.items ++ deps_text (deps_after [] prerequisites.now (picked table.now.found sources.now))) }
    ensures names { OnOk result (length listed.new ≡ length (names_of (picked table.now.found sources.now))) }
    ensures listed { OnOk result (names_at table.now.names listed.new ≡ names_of (picked table.now.found sources.now)) }
    ensures legal { OnOk result (IsTrue (list_all is_dep (deps_after [] prerequisites.now (picked table.now.found sources.now)))) }
{
    let mut entries = prerequisites.entries();
    for source in sources {
        // Past the last prerequisite there is no path, and only names are listed.
        if let Some((path, role)) = entries.next() {
            push_own_line(text, path, *role)?;
        }
        push_new_names(text, table, table.source(*source), listed)?;
    }
    Ok(())
}

/// The path of the source.
pub(crate) fn source_path(prerequisites: &Prerequisites) -> &[u8]
    ensures value { result.now ≡ source_of prerequisites.now }
    ensures legal { IsTrue (is_path result.now) }
{
    // By this call alone the proof knows that there is one.
    prerequisites.len();
    match prerequisites.get(0) {
        Some((path, _)) => path,
        None => unreachable!(),
    }
}

/// The text of the command file of a target, from the names found in each prerequisite, and then elsewhere, in order. What was
/// found stays.
pub fn record_text(
    alloc: Global,
    target: &[u8],
    command: &[u8],
    prerequisites: &Prerequisites,
    found: &mut NamesBySource,
    generation: Option<u64>,
) -> Result<RecordText, AllocError>
    ensures text { IfOk result (λ r. r.text.items ≡ record_text target.now command.now prerequisites.now (names_by found.old) generation) }
    ensures names { IfOk result (λ r. r.names ≡ length (names_of (names_by found.old))) }
    ensures listed { OnOk result (listed_of found.new ≡ names_of (names_by found.old)) }
    ensures source { OnOk result (IsTrue (is_path (source_of prerequisites.now))) }
    ensures deps { OnOk result (IsTrue (list_all is_dep (deps_after [] prerequisites.now (names_by found.old)))) }
    ensures scan { found.new.scan ≡ found.old.scan }
    ensures sources { found.new.sources ≡ found.old.sources }
{
    let lines = prerequisites.len().saturating_mul(2);
    let mut text = Vec::with_capacity(alloc, lines.saturating_mul(USUAL_LINE))?;
    push_front(&mut text, target, command, source_path(prerequisites))?;
    found.listed.clear();
    push_dependencies(
        &mut text,
        prerequisites,
        &found.scan.table,
        &found.sources,
        &mut found.listed,
    )?;
    push_back(&mut text, target, generation)?;
    let names = found.listed.len();
    Ok(RecordText { text, names })
}
