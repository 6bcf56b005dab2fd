//! The files that a command's arguments name.
//!
//! All paths are looked at before the first file is read, so that a misspelt argument costs nothing; and all files
//! are read before anything is parsed. Each is read once, and nothing else is asked of the tree meanwhile.
ghost use Rattle.std.specs.Prelude.{◌≡◌, ◌⊎◌, ◌∷◌, ◌++◌, [], false, IfOk, IsErrOf, None, OnOk, option_map, string_bytes};
ghost use Rattle.std.specs.Bool.{MatchBool};
ghost use Rattle.ks_symbols.specs.Names.{is_path};
ghost use Rattle.ks_tree.specs.Frames.{Reads};
ghost use Rattle.ks_engine.specs.Refusals.{Answers};
ghost use Rattle.ks_engine.specs.Sources.{config_source, source_in};
ghost use Rattle.ks_requests.specs.Inputs.{are_paths, config_at, given, given_if_named, inputs_at, legal, legal_if_named, texts_at};
ghost use Rattle.ks_requests.specs.Inputs as inputs;
ghost use Rattle.ks_requests.specs.Readings.{ReadsEach, ReadsSome, if_named};
ghost use Rattle.ks_requests.specs.Views.{seen_inputs, seen_texts};

use crate::reading::Reading;
use crate::request::ConfigPaths;
use ks_engine::{ConfigForm, ConfigTexts, EngineError};
use ks_symbols::{Dialect, Path, path_is_legal};
use std::alloc::Global;

/// The two files of a configuration: the bytes of each as they were read, still to be parsed. What conf wrote stands here in the
/// places of a Kconfig and a `.config`.
#[derive(Drop)]
pub struct Texts {
    pub kconfig: Vec<u8>,
    pub dotconfig: Vec<u8>,
}

impl Texts {
    /// As the engine takes them.
    pub fn config(&self, dialect: Dialect, form: ConfigForm) -> ConfigTexts<'_>
        ensures { config_source result ≡ source_in dialect form self.now.kconfig.items self.now.dotconfig.items }
    {
        ConfigTexts {
            dialect,
            form,
            first: &self.kconfig,
            second: &self.dotconfig,
        }
    }
}

/// The texts of a preview, with the old auto.conf where one is named.
#[derive(Drop)]
pub struct Inputs {
    pub texts: Texts,
    pub old: Option<Vec<u8>>,
}

/// Refuses a word that is no legal path.
fn check_path(path: &[u8]) -> Result<(), EngineError>
    ensures { result ≡ legal path.now }
{
    if path_is_legal(path) {
        Ok(())
    } else {
        Err(EngineError::BadPath(0))
    }
}

/// Refuses a word that may be left out and is no legal path.
fn check_named(path: Option<&str>) -> Result<(), EngineError>
    ensures { result ≡ legal_if_named (option_map (λ p. p.now) path.entry) }
{
    match path {
        Some(path) => check_path(path.as_bytes()),
        None => Ok(()),
    }
}

/// The bytes of a file that has to be there, 64 MiB at most. A word that is no legal path is `BadPath(0)`, and the tree is
/// not asked; a file that isn't there is `MissingFile`, with its path. The file is read once, whatever comes of it.
pub fn read_given<T: Reading>(
    alloc: Global,
    tree: &mut T,
    path: &[u8],
) -> Result<Vec<u8>, EngineError>
    ensures reads { Reads T.Tree tree.old tree.new (IsErrOf result EngineError.Device) }
    ensures passed { OnOk result (T.failures tree.new ≡ T.failures tree.old) }
    ensures bytes { T.is_honest → Answers (given (T.files tree.old) path.now) (λ v. v.items) result }
    ensures asked { MatchBool (is_path path.now) (T.reads tree.old path.now tree.new) (tree.new ≡ tree.old) }
    ensures once { OnOk result (T.reads tree.old path.now tree.new) }
    ensures uncounted { IsErrOf result EngineError.OutOfMemory → T.failures tree.new ≡ T.failures tree.old }
{
    check_path(path)?;
    match tree.read_file(alloc, path)? {
        Some(bytes) => Ok(bytes),
        None => Err(EngineError::MissingFile(Path::new(alloc, path)?)),
    }
}

/// The bytes of the file that may be named, where one is named.
pub(crate) fn read_named<T: Reading>(
    alloc: Global,
    tree: &mut T,
    path: Option<&str>,
) -> Result<Option<Vec<u8>>, EngineError>
    ensures reads { Reads T.Tree tree.old tree.new (IsErrOf result EngineError.Device) }
    ensures passed { OnOk result (T.failures tree.new ≡ T.failures tree.old) }
    ensures uncounted { IsErrOf result EngineError.OutOfMemory → T.failures tree.new ≡ T.failures tree.old }
    ensures bytes { T.is_honest → Answers (given_if_named (T.files tree.old) (option_map (λ p. p.now) path.entry)) (option_map (λ v. v.items)) result }
    ensures none { option_map (λ p. p.now) path.entry ≡ None → IfOk result (λ found. found ≡ None) }
    ensures once { OnOk result (ReadsEach T.reads tree.old (if_named (option_map (λ p. p.now) path.entry)) tree.new) }
    ensures no_other { ReadsSome T.reads tree.old (if_named (option_map (λ p. p.now) path.entry)) tree.new }
{
    match path {
        Some(path) => Ok(Some(read_given(alloc, tree, path.as_bytes())?)),
        None => Ok(None),
    }
}

/// The two files of a synchronisation.
fn read_texts<T: Reading>(
    alloc: Global,
    tree: &mut T,
    kconfig: &[u8],
    dotconfig: &[u8],
) -> Result<Texts, EngineError>
    ensures reads { Reads T.Tree tree.old tree.new (IsErrOf result EngineError.Device) }
    ensures passed { OnOk result (T.failures tree.new ≡ T.failures tree.old) }
    ensures uncounted { IsErrOf result EngineError.OutOfMemory → T.failures tree.new ≡ T.failures tree.old }
    ensures texts { T.is_honest → Answers (inputs.read_texts (T.files tree.old) kconfig.now dotconfig.now) seen_texts result }
    ensures once { OnOk result (ReadsEach T.reads tree.old (kconfig.now ∷ dotconfig.now ∷ []) tree.new) }
    ensures no_other { ReadsSome T.reads tree.old (kconfig.now ∷ dotconfig.now ∷ []) tree.new }
{
    let kconfig = read_given(alloc, tree, kconfig)?;
    let dotconfig = read_given(alloc, tree, dotconfig)?;
    Ok(Texts { kconfig, dotconfig })
}

/// The files that the two arguments of a synchronisation name. An error is that of `read_given` for the first of the two that
/// has one, but an argument that is no path is reported before any file is read.
#[tactic(auto, unfolding(crate::specs::Inputs::texts_at))]
pub fn texts_at<T: Reading>(
    alloc: Global,
    tree: &mut T,
    kconfig: &[u8],
    dotconfig: &[u8],
) -> Result<Texts, EngineError>
    ensures reads { Reads T.Tree tree.old tree.new (IsErrOf result EngineError.Device) }
    ensures passed { OnOk result (T.failures tree.new ≡ T.failures tree.old) }
    ensures uncounted { IsErrOf result EngineError.OutOfMemory → T.failures tree.new ≡ T.failures tree.old }
    ensures texts { T.is_honest → Answers (texts_at (T.files tree.old) kconfig.now dotconfig.now) seen_texts result }
    ensures once { OnOk result (ReadsEach T.reads tree.old (kconfig.now ∷ dotconfig.now ∷ []) tree.new) }
    ensures no_other { ReadsSome T.reads tree.old (kconfig.now ∷ dotconfig.now ∷ []) tree.new }
    ensures args_first { are_paths (kconfig.now ∷ dotconfig.now ∷ []) ≡ false → tree.new ≡ tree.old }
{
    check_path(kconfig)?;
    check_path(dotconfig)?;
    read_texts(alloc, tree, kconfig, dotconfig)
}

/// The two files of a configuration, as `texts_at` reads them.
pub fn config_at<T: Reading>(
    alloc: Global,
    tree: &mut T,
    config: &ConfigPaths,
) -> Result<Texts, EngineError>
    ensures reads { Reads T.Tree tree.old tree.new (IsErrOf result EngineError.Device) }
    ensures passed { OnOk result (T.failures tree.new ≡ T.failures tree.old) }
    ensures uncounted { IsErrOf result EngineError.OutOfMemory → T.failures tree.new ≡ T.failures tree.old }
    ensures texts { T.is_honest → Answers (config_at (T.files tree.old) config.now) seen_texts result }
{
    texts_at(
        alloc,
        tree,
        config.first.as_bytes(),
        config.second.as_bytes(),
    )
}

/// The files of a preview, the old auto.conf last.
fn read_inputs<T: Reading>(
    alloc: Global,
    tree: &mut T,
    kconfig: &[u8],
    dotconfig: &[u8],
    old: Option<&str>,
) -> Result<Inputs, EngineError>
    ensures reads { Reads T.Tree tree.old tree.new (IsErrOf result EngineError.Device) }
    ensures passed { OnOk result (T.failures tree.new ≡ T.failures tree.old) }
    ensures uncounted { IsErrOf result EngineError.OutOfMemory → T.failures tree.new ≡ T.failures tree.old }
    ensures inputs { T.is_honest
        → Answers (inputs.read_inputs (T.files tree.old) kconfig.now dotconfig.now (option_map (λ p. p.now) old.entry)) seen_inputs result }
    ensures once { OnOk result (ReadsEach T.reads tree.old (kconfig.now ∷ dotconfig.now ∷ if_named (option_map (λ p. p.now) old.entry)) tree.new) }
    ensures no_other { ReadsSome T.reads tree.old (kconfig.now ∷ dotconfig.now ∷ if_named (option_map (λ p. p.now) old.entry)) tree.new }
{
    let texts = read_texts(alloc, tree, kconfig, dotconfig)?;
    let old = read_named(alloc, tree, old)?;
    Ok(Inputs { texts, old })
}

/// The files that the arguments of a preview name, in their order, with the errors of `texts_at`. Without an old
/// auto.conf no third file is looked for.
#[tactic(auto, unfolding(crate::specs::Inputs::inputs_at))]
pub fn inputs_at<T: Reading>(
    alloc: Global,
    tree: &mut T,
    kconfig: &[u8],
    dotconfig: &[u8],
    old: Option<&str>,
) -> Result<Inputs, EngineError>
    ensures reads { Reads T.Tree tree.old tree.new (IsErrOf result EngineError.Device) }
    ensures passed { OnOk result (T.failures tree.new ≡ T.failures tree.old) }
    ensures uncounted { IsErrOf result EngineError.OutOfMemory → T.failures tree.new ≡ T.failures tree.old }
    ensures inputs { T.is_honest → Answers (inputs_at (T.files tree.old) kconfig.now dotconfig.now (option_map (λ p. p.now) old.entry)) seen_inputs result }
    ensures once { OnOk result (ReadsEach T.reads tree.old (kconfig.now ∷ dotconfig.now ∷ if_named (option_map (λ p. p.now) old.entry)) tree.new) }
    ensures no_other { ReadsSome T.reads tree.old (kconfig.now ∷ dotconfig.now ∷ if_named (option_map (λ p. p.now) old.entry)) tree.new }
    ensures args_first { are_paths (kconfig.now ∷ dotconfig.now ∷ if_named (option_map (λ p. p.now) old.entry)) ≡ false → tree.new ≡ tree.old }
{
    check_path(kconfig)?;
    check_path(dotconfig)?;
    check_named(old)?;
    read_inputs(alloc, tree, kconfig, dotconfig, old)
}

/// Bytes that may be missing, borrowed.
pub fn borrowed(bytes: &Option<Vec<u8>>) -> Option<&[u8]>
    ensures { option_map (λ b. b.now) result ≡ option_map (λ v. v.items) bytes.now }
{
    match bytes {
        Some(bytes) => Some(bytes),
        None => None,
    }
}

/// The path that may be named, borrowed.
pub fn borrowed_path(path: &Option<String>) -> Option<&str>
    ensures { option_map (λ p. p.now) result ≡ option_map (λ p. string_bytes p) path.now }
{
    match path {
        Some(path) => Some(path.as_str()),
        None => None,
    }
}
