//! Whether a tree is as its last completed synchronisation left it, and whether one of a configuration would change it.
//!
//! There are up to three answers, a line each: the generation of auto.conf, whether the header defines what auto.conf says, and where a
//! configuration is named how many symbols of it differ from auto.conf. Nothing is written.
ghost use Rattle.std.specs.Prelude.{◌≡◌, ◌⊎◌, ◌++◌, Err, IfErr, IfOk, IsErrOf, Ok, OnOk, Option, option_map};
ghost use Rattle.ks_tree.specs.Files.{IsTooLarge, content};
ghost use Rattle.ks_tree.specs.Frames.{Reads};
ghost use Rattle.ks_symbols.specs.Names.{header_path};
ghost use Rattle.ks_engine.specs.Refusals.{IsAborted};
ghost use Rattle.ks_engine.specs.Sources.{Source};
ghost use Rattle.ks_engine.specs.Views.{sources_of};
ghost use Rattle.ks_engine.specs.declared.error.EngineError.TheVariants.{Device, OutOfMemory, TooLarge};
ghost use Rattle.ks_requests.specs.declared.refusal.Refusal.TheVariants.{Engine};
ghost use Rattle.ks_requests.specs.Statuses.{code_of};
ghost use Rattle.ks_commands.specs.Performed.{EndsStatus};
ghost use Rattle.ks_commands.specs.TreeStatus.{AreInputsOf, Counts, IsRefusedSource, IsStatusRefused, IsTreeStatus, changed_line, generation_line, header_line, header_state, is_same, source_named, status_code, status_lines, unchanged};

use ks_compare::changed;
use ks_engine::{ConfigInputs, EngineError, read_inputs, read_old};
use ks_hidden::{foreign_line, lacks_definition};
use ks_output::OldConfig;
use ks_requests::{ConfigPaths, Outcome, Refusal, Status, config_at, write_count};
use ks_symbols::{Dialect, Seed};
use ks_tree::{Tree, header_path};
use std::alloc::{AllocError, Global};

/// What the header is beside auto.conf.
#[derive(Clone, Copy)]
pub(crate) enum HeaderState {
    /// It isn't there.
    Missing,
    /// It defines what auto.conf says, and nothing else.
    Same,
    /// This line of it is none that auto.conf explains.
    Foreign(u64),
    /// It lacks a definition.
    Lacking,
}

/// What a tree is beside a configuration.
#[derive(Clone, Copy)]
pub(crate) struct TreeStatus {
    /// Of the synchronisation that wrote auto.conf, or 0.
    generation: u64,
    header: HeaderState,
    /// How many symbols a synchronisation would touch, where a configuration is named.
    changed: Option<usize>,
}

/// What the header is, by its text.
fn header_state(
    alloc: Global,
    seed: Seed,
    dialect: Dialect,
    old: &OldConfig,
    text: &Option<Vec<u8>>,
) -> Result<HeaderState, AllocError>
    ensures { IfOk result (λ state. state ≡ header_state dialect old.now.texts (option_map (λ v. v.items) text.now)) }
{
    let Some(text) = text else {
        return Ok(HeaderState::Missing);
    };
    if let Some(line) = foreign_line(alloc, dialect, old, text)? {
        return Ok(HeaderState::Foreign(line));
    }
    if lacks_definition(alloc, seed, old, text)? {
        return Ok(HeaderState::Lacking);
    }
    Ok(HeaderState::Same)
}

/// Reads the header, and looks what it is.
fn look_at_header<T: Tree>(
    alloc: Global,
    tree: &mut T,
    dialect: Dialect,
    old: &OldConfig,
) -> Result<HeaderState, EngineError>
    ensures reads { Reads T.Tree tree.old tree.new (IsErrOf result EngineError.Device) }
    ensures passed { OnOk result (T.failures tree.new ≡ T.failures tree.old) }
    ensures uncounted { IsErrOf result EngineError.OutOfMemory → T.failures tree.new ≡ T.failures tree.old }
    ensures found { T.is_honest → IfOk result (λ state. state ≡ header_state dialect old.now.texts (content (T.files tree.old) header_path)) }
    ensures refused { T.is_honest → IfErr result (λ e. IsAborted e ⊎ (IsTooLarge (content (T.files tree.old) header_path) × (e ≡ TooLarge))) }
{
    let text = tree.read(alloc, header_path())?;
    let seed = Seed::new(tree.seed());
    Ok(header_state(alloc, seed, dialect, old, &text)?)
}

/// What the files of a configuration say, where they are named.
fn named_inputs<T: Tree>(
    alloc: Global,
    tree: &mut T,
    dialect: Dialect,
    config: &Option<ConfigPaths>,
) -> Result<Option<ConfigInputs>, EngineError>
    ensures reads { Reads T.Tree tree.old tree.new (IsErrOf result EngineError.Device) }
    ensures passed { OnOk result (T.failures tree.new ≡ T.failures tree.old) }
    ensures uncounted { IsErrOf result EngineError.OutOfMemory → T.failures tree.new ≡ T.failures tree.old }
    ensures read { T.is_honest → IfOk result (λ found. (source : Option Source) × (source_named dialect (T.files tree.old) config.now ≡ Ok source)
        × AreInputsOf source (option_map sources_of found)) }
    ensures refused { T.is_honest → IfErr result (λ e. IsAborted e ⊎ IsRefusedSource dialect (T.files tree.old) config.now e) }
{
    let Some(config) = config else {
        return Ok(None);
    };
    let texts = config_at(alloc, tree, config)?;
    let seed = Seed::new(tree.seed());
    Ok(Some(read_inputs(alloc, seed, &texts.config(dialect, config.form))?))
}

/// How many names differ from auto.conf, where a configuration is named.
fn count_changes(
    alloc: Global,
    old: &OldConfig,
    inputs: &Option<ConfigInputs>,
) -> Result<Option<usize>, AllocError>
    ensures { IfOk result (Counts (option_map sources_of inputs.now) old.now.texts) }
{
    let Some(inputs) = inputs else {
        return Ok(None);
    };
    let names = changed(alloc, old, &inputs.settings)?;
    Ok(Some(names.len()))
}

/// What a tree is, and beside these inputs.
fn tree_status<T: Tree>(
    alloc: Global,
    tree: &mut T,
    dialect: Dialect,
    inputs: &Option<ConfigInputs>,
) -> Result<TreeStatus, EngineError>
    ensures reads { Reads T.Tree tree.old tree.new (IsErrOf result EngineError.Device) }
    ensures passed { OnOk result (T.failures tree.new ≡ T.failures tree.old) }
    ensures uncounted { IsErrOf result EngineError.OutOfMemory → T.failures tree.new ≡ T.failures tree.old }
    ensures found { T.is_honest → IfOk result (IsTreeStatus (T.files tree.old) dialect (option_map sources_of inputs.now)) }
    ensures refused { T.is_honest → IfErr result (λ e. IsAborted e ⊎ IsStatusRefused (T.files tree.old) e) }
{
    let old = read_old(alloc, tree)?;
    let header = look_at_header(alloc, tree, dialect, &old)?;
    let changed = count_changes(alloc, &old, inputs)?;
    Ok(TreeStatus {
        generation: old.generation(),
        header,
        changed,
    })
}

/// Appends the line of auto.conf.
#[tactic(auto, unfolding(crate::specs::TreeStatus::generation_line))]
fn write_generation(generation: u64, text: &mut Vec<u8>) -> Result<(), AllocError>
    ensures { OnOk result (text.new.items ≡ text.old.items ++ generation_line generation) }
{
    if generation == 0 {
        return text.extend_from_slice(b"auto.conf: not synchronised\n");
    }
    write_count(b"auto.conf: generation ", generation, text)?;
    text.extend_from_slice(b"\n")
}

/// Appends the line of the header.
#[tactic(auto, unfolding(crate::specs::TreeStatus::header_line))]
fn write_header(header: HeaderState, text: &mut Vec<u8>) -> Result<(), AllocError>
    ensures { OnOk result (text.new.items ≡ text.old.items ++ header_line header) }
{
    match header {
        HeaderState::Missing => text.extend_from_slice(b"header: missing\n"),
        HeaderState::Same => text.extend_from_slice(b"header: same\n"),
        HeaderState::Foreign(line) => {
            write_count(b"header: differs in line ", line, text)?;
            text.extend_from_slice(b"\n")
        }
        HeaderState::Lacking => text.extend_from_slice(b"header: lacks a definition\n"),
    }
}

/// Appends the line of the configuration.
#[tactic(auto, unfolding(crate::specs::TreeStatus::changed_line))]
fn write_changed(changed: Option<usize>, text: &mut Vec<u8>) -> Result<(), AllocError>
    ensures { OnOk result (text.new.items ≡ text.old.items ++ changed_line changed) }
{
    match changed {
        None => Ok(()),
        Some(0) => text.extend_from_slice(b"configuration: same\n"),
        Some(count) => {
            write_count(b"configuration: changed ", count as u64, text)?;
            text.extend_from_slice(b"\n")
        }
    }
}

/// Whether no name differs.
fn unchanged(changed: Option<usize>) -> bool
    ensures { result ≡ unchanged changed }
{
    match changed {
        None => true,
        Some(count) => count == 0,
    }
}

impl TreeStatus {
    /// Whether all is the same.
    fn is_same(&self) -> bool
        ensures { result ≡ is_same self.now }
    {
        self.generation > 0 && matches!(self.header, HeaderState::Same) && unchanged(self.changed)
    }

    /// Whether all is the same, as a command ends.
    fn status(&self) -> Status
        ensures { code_of result ≡ status_code self.now }
    {
        if self.is_same() {
            Status::Done
        } else {
            Status::Stale
        }
    }

    /// A line for each answer.
    fn lines(&self, alloc: Global) -> Result<Vec<u8>, AllocError>
        ensures { IfOk result (λ text. text.items ≡ status_lines self.now) }
    {
        let mut text = Vec::new(alloc);
        write_generation(self.generation, &mut text)?;
        write_header(self.header, &mut text)?;
        write_changed(self.changed, &mut text)?;
        Ok(text)
    }
}

/// Prints what the tree is, and beside the configuration of two files where they are named.
pub(crate) fn report_status<T: Tree>(
    alloc: Global,
    tree: &mut T,
    dialect: Dialect,
    config: &Option<ConfigPaths>,
) -> Result<Outcome, Refusal>
    ensures reads { Reads T.Tree tree.old tree.new (result ≡ Err (Engine Device)) }
    ensures memory { result ≡ Err (Engine OutOfMemory) → T.failures tree.new ≡ T.failures tree.old }
    ensures reported { T.is_honest → EndsStatus dialect (T.files tree.old) config.now result }
{
    let inputs = named_inputs(alloc, tree, dialect, config)?;
    let status = tree_status(alloc, tree, dialect, &inputs)?;
    let text = status.lines(alloc)?;
    Ok(Outcome::of(text, status.status()))
}
