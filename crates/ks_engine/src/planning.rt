//! What a synchronisation comes to: what its two texts say, and over the old auto.conf which stamps it renews, under which
//! generation, or why it is refused. Nothing is written here, and no text is made: who only asks what would be touched
//! needs none.
ghost use Rattle.std.specs.Prelude.{◌≡◌, ◌⊎◌, List, ℕ, Ok, Err, IfOk, IfErr, IsErrOf, OnOk};
ghost use Rattle.std.specs.FinMap as map;
ghost use Rattle.ks_symbols.specs.Kconfig.{declared};
ghost use Rattle.ks_symbols.specs.Refusals.{RefusedBy};
ghost use Rattle.ks_output.specs.ConfTexts.{written_in};
ghost use Rattle.ks_tree.specs.Frames.{Reads};
ghost use Rattle.ks_engine.specs.Refusals.{IsAborted};
ghost use Rattle.ks_engine.specs.Sources.{Source, source_in, config_source};
ghost use Rattle.ks_engine.specs.SyncPlan.{AreConfigInputs, AreInputs, AreWritten, IsSyncPlan, plan_of, plan_over, refusal_of, source_refusal};
ghost use Rattle.ks_engine.specs.Views.{old_of, sources_of, IsPlanned, IsReport, PlansOver};

use crate::last_sync::read_old;
use crate::{EngineError, Report};
use ks_compare::changed;
use ks_output::{OldConfig, Written, WrittenError, auto_len, read_written};
use ks_symbols::{
    Dialect, Kconfig, MAX_BYTES, Seed, Settings, SourceError, Symbols, build_settings,
    read_dotconfig, read_kconfig,
};
use ks_tree::Tree;
use std::alloc::{AllocError, Global};

/// What the two texts of a configuration are.
#[derive(Clone, Copy, Debug, PartialEq, Eq)]
pub enum ConfigForm {
    /// A Kconfig and a `.config`.
    Kconfig,
    /// The auto.conf and the header that the project's own conf wrote.
    Written,
}

/// The two texts of a configuration, and in which dialect they are read.
#[derive(Clone, Copy)]
pub struct ConfigTexts<'a> {
    pub dialect: Dialect,
    pub form: ConfigForm,
    pub first: &'a [u8],
    pub second: &'a [u8],
}

impl<'a> ConfigTexts<'a> {
    /// A Kconfig and a `.config`.
    pub fn of_kconfig(dialect: Dialect, kconfig: &'a [u8], dotconfig: &'a [u8]) -> ConfigTexts<'a>
        ensures { config_source result ≡ source_in dialect ConfigForm.Kconfig kconfig.now dotconfig.now }
    {
        ConfigTexts {
            dialect,
            form: ConfigForm::Kconfig,
            first: kconfig,
            second: dotconfig,
        }
    }
}

/// What the two texts say.
#[derive(Drop)]
pub struct ConfigInputs {
    pub title: Vec<u8>,
    pub settings: Settings,
}

/// Reads a Kconfig and a `.config`, in this order. The symbols are let go once the settings are read: nothing asks for
/// them any more, and they are as large as these.
pub fn read_config_inputs(
    alloc: Global,
    kconfig: &Kconfig<'_>,
    dotconfig: &[u8],
) -> Result<ConfigInputs, SourceError>
    ensures read { IfOk result (λ s. AreConfigInputs kconfig.now dotconfig.now (sources_of s)) }
    ensures refusal { RefusedBy SourceError.OutOfMemory result (source_refusal kconfig.now dotconfig.now) }
{
    let symbols = read_kconfig(alloc, kconfig)?;
    let draft = build_settings(alloc, dotconfig, &symbols)?;
    let title = Vec::from_slice(alloc, symbols.title())?;
    drop(symbols);
    let settings = draft.finish(alloc)?;
    Ok(ConfigInputs { title, settings })
}

/// Reads the two texts that conf wrote, of which the header is the second. Names are looked up by a seed.
pub fn read_written_inputs(
    alloc: Global,
    seed: Seed,
    dialect: Dialect,
    first: &[u8],
    header: &[u8],
) -> Result<ConfigInputs, WrittenError>
    ensures read { IfOk result (λ s. AreWritten dialect first.now header.now (sources_of s)) }
    ensures refused { IfErr result (λ e. (e ≡ WrittenError.OutOfMemory) ⊎ (written_in dialect first.now header.now ≡ Err e)) }
{
    let Written { title, settings } = read_written(alloc, seed, dialect, first, header)?;
    settings.keeps_configuration();
    Ok(ConfigInputs { title, settings })
}

/// Reads the two texts of a configuration, by their form.
pub fn read_inputs(
    alloc: Global,
    seed: Seed,
    texts: &ConfigTexts<'_>,
) -> Result<ConfigInputs, EngineError>
    ensures read { IfOk result (λ s. AreInputs (config_source texts.now) (sources_of s)) }
    ensures refusal { RefusedBy EngineError.OutOfMemory result (refusal_of (config_source texts.now)) }
{
    match texts.form {
        ConfigForm::Kconfig => {
            let kconfig = Kconfig::new(texts.dialect, texts.first);
            Ok(read_config_inputs(alloc, &kconfig, texts.second)?)
        }
        ConfigForm::Written => {
            let (dialect, first, header) = (texts.dialect, texts.first, texts.second);
            Ok(read_written_inputs(alloc, seed, dialect, first, header)?)
        }
    }
}

/// What a Kconfig and a `.config` say, and the symbols that the one declares.
#[derive(Drop)]
pub struct Parsed {
    pub sources: ConfigInputs,
    pub symbols: Symbols,
}

/// Reads them as `read_config_inputs` does and keeps the symbols, for who asks for more of these than what is set: nothing is parsed
/// a second time for that.
pub fn parse_config_inputs(
    alloc: Global,
    kconfig: &Kconfig<'_>,
    dotconfig: &[u8],
) -> Result<Parsed, SourceError>
    ensures read { IfOk result (λ p. AreConfigInputs kconfig.now dotconfig.now (sources_of p.sources)) }
    ensures declared { IfOk result (λ p. (x : List ℕ) → map.get p.symbols.kinds x ≡ declared kconfig.now x) }
    ensures refusal { RefusedBy SourceError.OutOfMemory result (source_refusal kconfig.now dotconfig.now) }
{
    let symbols = read_kconfig(alloc, kconfig)?;
    let settings = read_dotconfig(alloc, dotconfig, &symbols)?;
    let copied = Vec::from_slice(alloc, symbols.title())?;
    let sources = ConfigInputs {
        title: copied,
        settings,
    };
    Ok(Parsed { sources, symbols })
}

/// What a synchronisation over an old auto.conf reports, or `None` where no generation comes after that one.
pub fn plan(
    alloc: Global,
    sources: &ConfigInputs,
    old: &OldConfig,
) -> Result<Option<Report>, AllocError>
    ensures { IfOk result (PlansOver (sources_of sources.now) (old_of old.now)) }
{
    old.keeps_names();
    sources.settings.keeps_configuration();
    if old.generation() == u64::MAX {
        return Ok(None);
    }
    let generation = old.generation() + 1;
    let touched = changed(alloc, old, &sources.settings)?;
    let unknown = sources.settings.unknown();
    Ok(Some(Report {
        generation,
        touched,
        unknown,
    }))
}

/// What a synchronisation over an old auto.conf reports, unless its auto.conf would be too long to be read again.
fn report_over(
    alloc: Global,
    sources: &ConfigInputs,
    old: &OldConfig,
) -> Result<Report, EngineError>
    ensures no_device { IsErrOf result EngineError.Device → ⊥ }
    ensures planned { IfOk result (λ report. (plan_over (sources_of sources.now) (old_of old.now) ≡ Ok (plan_of (sources_of sources.now) (old_of old.now)))
        × IsReport (plan_of (sources_of sources.now) (old_of old.now)) report) }
    ensures refused { IfErr result (λ e. IsAborted e ⊎ (plan_over (sources_of sources.now) (old_of old.now) ≡ Err e)) }
{
    let Some(report) = plan(alloc, sources, old)? else {
        return Err(EngineError::GenerationFull);
    };
    if auto_len(&sources.settings, &sources.title, report.generation) > MAX_BYTES {
        return Err(EngineError::TooLarge);
    }
    Ok(report)
}

/// What was read for a synchronisation, and what it would report.
#[derive(Drop)]
pub struct Planned {
    pub sources: ConfigInputs,
    pub old: OldConfig,
    pub report: Report,
}

/// What a synchronisation of a tree comes to by what was read of its two texts. It is refused where that would be before its
/// first write.
pub fn plan_config_inputs<T: Tree>(
    alloc: Global,
    tree: &mut T,
    sources: ConfigInputs,
) -> Result<Planned, EngineError>
    ensures reads { Reads T.Tree tree.old tree.new (IsErrOf result EngineError.Device) }
    ensures passed { OnOk result (T.failures tree.new ≡ T.failures tree.old) }
    ensures uncounted { IsErrOf result EngineError.OutOfMemory → T.failures tree.new ≡ T.failures tree.old }
    ensures planned { T.is_honest → (source : Source) → AreInputs source (sources_of sources)
        → IfOk result (IsPlanned (T.files tree.old) source) }
    ensures refused { T.is_honest → (source : Source) → AreInputs source (sources_of sources)
        → IfErr result (λ e. IsAborted e ⊎ IsSyncPlan (T.files tree.old) source (Err e)) }
{
    let old = read_old(alloc, tree)?;
    let report = report_over(alloc, &sources, &old)?;
    Ok(Planned {
        sources,
        old,
        report,
    })
}

/// What a synchronisation of a tree with two texts comes to.
pub fn plan_texts<T: Tree>(
    alloc: Global,
    tree: &mut T,
    texts: &ConfigTexts<'_>,
) -> Result<Planned, EngineError>
    ensures reads { Reads T.Tree tree.old tree.new (IsErrOf result EngineError.Device) }
    ensures passed { OnOk result (T.failures tree.new ≡ T.failures tree.old) }
    ensures uncounted { IsErrOf result EngineError.OutOfMemory → T.failures tree.new ≡ T.failures tree.old }
    ensures planned { T.is_honest → IfOk result (IsPlanned (T.files tree.old) (config_source texts.now)) }
    ensures refused { T.is_honest → IfErr result (λ e. IsAborted e ⊎ IsSyncPlan (T.files tree.old) (config_source texts.now) (Err e)) }
{
    let seed = Seed::new(tree.seed());
    let sources = read_inputs(alloc, seed, texts)?;
    plan_config_inputs(alloc, tree, sources)
}
