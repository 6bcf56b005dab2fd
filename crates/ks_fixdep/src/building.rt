//! The command file of an object as a value. It is what its text says, and the text is written as that of every record.
ghost use Rattle.std.specs.Prelude.{◌≡◌, [], IfOk, IsTrue, None, OnOk, length, map};
ghost use Rattle.ks_symbols.specs.Names.{is_target};
ghost use Rattle.ks_symbols.specs.Refusals.{RefusedBy};
ghost use Rattle.ks_fixdep.specs.CommandFile.{is_command, view};
ghost use Rattle.ks_fixdep.specs.FoundNames.{names_in};
ghost use Rattle.ks_fixdep.specs.Record.{record_of, record_refusal};
ghost use Rattle.ks_fixdep.specs.SourceScan.{found_of, names_by};

use crate::command_file::{
    CommandError, CommandFile, command_is_legal, command_texts_read_back, own_record_in,
};
use crate::dep_error::DepError;
use crate::dependency_file::Prerequisites;
use crate::found_names::{FoundNames, names_of_text};
use crate::listing::record_text;
use crate::source_scan::NamesBySource;
use ks_symbols::{Seed, target_is_legal};
use std::alloc::{AllocError, Global};

/// Adds the lists as the names of sources, one for each prerequisite.
fn add_sources(
    alloc: Global,
    all: &mut NamesBySource,
    found: &[FoundNames],
) -> Result<(), AllocError>
    requires { found_of all.old.scan ≡ [] }
    ensures { OnOk result (names_by all.new ≡ found.now) }
{
    for names in found {
        all.scan.add_source(names)?;
    }
    all.sources = (0..found.len()).collect(alloc)?;
    Ok(())
}

/// The command file of a legal target and command, from the names found in each prerequisite, which are added where none are yet.
/// It is refused for memory alone.
fn file_of(
    alloc: Global,
    target: &[u8],
    command: &[u8],
    prerequisites: &Prerequisites,
    found: &[FoundNames],
    names: &mut NamesBySource,
) -> Result<CommandFile, DepError>
    requires target { IsTrue (is_target target.now) }
    requires command { IsTrue (is_command command.now) }
    requires none { found_of names.old.scan ≡ [] }
    ensures value { IfOk result (λ f. view f ≡ record_of target.now command.now prerequisites.now found.now) }
    ensures refusal { RefusedBy DepError.OutOfMemory result None }
{
    add_sources(alloc, names, found)?;
    let written = record_text(alloc, target, command, prerequisites, names, None)?;
    command_texts_read_back();
    match own_record_in(alloc, &written.text) {
        Ok(file) => Ok(file),
        Err(fault) => match fault {
            // What was just written fits.
            CommandError::BadCommandFile(_) | CommandError::TooLarge => unreachable!(),
            CommandError::OutOfMemory => Err(DepError::OutOfMemory),
        },
    }
}

/// The command file of a target, from the names found in each prerequisite, in order.
pub fn build_from(
    alloc: Global,
    target: &[u8],
    command: &[u8],
    prerequisites: &Prerequisites,
    found: &[FoundNames],
) -> Result<CommandFile, DepError>
    requires { length found.now ≡ length prerequisites.now }
    ensures value { IfOk result (λ f. view f ≡ record_of target.now command.now prerequisites.now found.now) }
    ensures refusal { RefusedBy DepError.OutOfMemory result (record_refusal target.now command.now) }
{
    if !target_is_legal(target) {
        return Err(DepError::BadPath(0));
    }
    if !command_is_legal(command) {
        return Err(DepError::BadCommand);
    }
    let mut names = NamesBySource::with_seed(alloc, Seed::new(0));
    file_of(alloc, target, command, prerequisites, found, &mut names)
}

/// The names of each text.
fn names_of_texts(alloc: Global, texts: &[&[u8]]) -> Result<Vec<FoundNames>, AllocError>
    ensures { IfOk result (λ found. found.items ≡ map (λ t. names_in t.now) texts.now) }
{
    let mut found = Vec::with_capacity(alloc, texts.len())?;
    for text in texts {
        found.push(names_of_text(alloc, text)?)?;
    }
    Ok(found)
}

/// The command file of a target, from the text of each prerequisite, in order.
pub fn build(
    alloc: Global,
    target: &[u8],
    command: &[u8],
    prerequisites: &Prerequisites,
    texts: &[&[u8]],
) -> Result<CommandFile, DepError>
    requires { length texts.now ≡ length prerequisites.now }
    ensures value { IfOk result (λ f. view f ≡ record_of target.now command.now prerequisites.now (map (λ t. names_in t.now) texts.now)) }
    ensures refusal { RefusedBy DepError.OutOfMemory result (record_refusal target.now command.now) }
{
    let found = names_of_texts(alloc, texts)?;
    build_from(alloc, target, command, prerequisites, &found)
}
