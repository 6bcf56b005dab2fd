//! What a synchronisation would do, without doing it: the stamps that it would renew, and its auto.conf.
//!
//! The whole text is made before its first byte is written, so that a refusal of what was read writes nothing.
ghost use Rattle.std.specs.Prelude.{◌≡◌, ◌+◌, ◌++◌, None, IfErr, IfOk, OnOk, option_map};
ghost use Rattle.ks_symbols.specs.Refusals.{RefusedBy};
ghost use Rattle.ks_output.specs.AutoText.{auto_text};
ghost use Rattle.ks_engine.specs.Sources.{config_source};
ghost use Rattle.ks_requests.specs.declared.preview.PreviewError.TheVariants.{Engine};
ghost use Rattle.ks_requests.specs.Preview.{IsPreview, IsNoPreview, Previews, old_generation, old_refusal, old_texts, preview_refusal, touch_lines};

use ks_engine::{ConfigInputs, ConfigTexts, EngineError, Report, plan, read_inputs};
use ks_output::{AutoError, OldConfig, read_auto, write_auto};
use ks_symbols::{Name, Seed};
use std::alloc::{AllocError, Global};
use std::io::Write;
use thiserror::Error;

/// Why there is no preview.
#[derive(Debug, Drop, Error)]
pub enum PreviewError {
    /// One of the texts, under the numbers 1 to 11, or 42 where no generation comes after that of the old auto.conf.
    #[error(transparent)]
    Engine(EngineError),
    /// The output failed; a beginning of the text may be out.
    #[error("51 Output")]
    Output,
}

impl From<EngineError> for PreviewError {
    ghost from_gives = { λ e p. p ≡ Engine e };

    fn from(error: EngineError) -> PreviewError {
        PreviewError::Engine(error)
    }
}

/// The old auto.conf, or the empty one where there is none.
fn read_old(alloc: Global, old: Option<&[u8]>) -> Result<OldConfig, AutoError>
    ensures texts { IfOk result (λ c. c.texts ≡ old_texts (option_map (λ t. t.now) old.entry)) }
    ensures generation { IfOk result (λ c. c.generation ≡ old_generation (option_map (λ t. t.now) old.entry)) }
    ensures refusal { RefusedBy AutoError.OutOfMemory result (old_refusal (option_map (λ t. t.now) old.entry)) }
{
    match old {
        Some(text) => read_auto(alloc, text),
        None => Ok(OldConfig::empty(alloc)),
    }
}

/// A line `touch NAME` for each name.
pub(crate) fn write_touches(names: &[Name], out: &mut Vec<u8>) -> Result<(), AllocError>
    ensures { OnOk result (out.new.items ≡ out.old.items ++ touch_lines names.now) }
{
    for name in names {
        out.extend_from_slice(b"touch ")?;
        out.extend_from_slice(name.as_bytes())?;
        out.extend_from_slice(b"\n")?;
    }
    Ok(())
}

/// The touch lines, and then auto.conf. The names are let go between the two.
fn preview_text(
    alloc: Global,
    report: Report,
    sources: &ConfigInputs,
) -> Result<Vec<u8>, AllocError>
    ensures { IfOk result (λ t. t.items ≡ touch_lines report.touched.items
        ++ auto_text sources.now.title.items sources.now.settings.entries report.generation) }
{
    let generation = report.generation;
    let mut text = Vec::new(alloc);
    write_touches(&report.touched, &mut text)?;
    drop(report);
    write_auto(&sources.settings, &sources.title, generation, &mut text)?;
    Ok(text)
}

/// The text of a preview, of any length, though a synchronisation refuses an auto.conf of more than 64 MiB.
fn preview_of(
    alloc: Global,
    seed: Seed,
    texts: &ConfigTexts<'_>,
    old: Option<&[u8]>,
) -> Result<Vec<u8>, EngineError>
    ensures text { IfOk result (λ t. IsPreview (config_source texts.now) (option_map (λ t. t.now) old.entry) t.items) }
    ensures refusal { RefusedBy EngineError.OutOfMemory result (preview_refusal (config_source texts.now) (option_map (λ t. t.now) old.entry)) }
{
    let sources = read_inputs(alloc, seed, texts)?;
    let before = read_old(alloc, old)?;
    let Some(report) = plan(alloc, &sources, &before)? else {
        return Err(EngineError::GenerationFull);
    };
    Ok(preview_text(alloc, report, &sources)?)
}

/// Writes what a synchronisation over an old auto.conf would touch, a line `touch NAME` each, and the auto.conf that it would
/// write. Without an old one it is the first synchronisation. The names of what conf wrote are looked up by a seed.
pub fn preview_to<W: Write>(
    alloc: Global,
    seed: Seed,
    texts: &ConfigTexts<'_>,
    old: Option<&[u8]>,
    out: &mut W,
) -> Result<(), PreviewError>
    ensures written { OnOk result (Previews (config_source texts.now) (option_map (λ t. t.now) old.entry) (W.contents out.old) (W.contents out.new)) }
    ensures refusal { IfErr result (IsNoPreview (config_source texts.now) (option_map (λ t. t.now) old.entry) (W.contents out.old) (W.contents out.new)) }
{
    let text = preview_of(alloc, seed, texts, old)?;
    match out.write_all(&text) {
        Ok(()) => Ok(()),
        Err(_) => Err(PreviewError::Output),
    }
}
