//! What a synchronisation would touch, with the texts that each name has and would have.
//!
//! It is planned as a synchronisation is, and so is refused where that would be before its first write. Nothing is written.
ghost use Rattle.std.specs.Prelude.{◌≡◌, ◌⊎◌, ◌++◌, Err, IfErr, IfOk, IsErrOf, OnOk, flat_map, option_map};
ghost use Rattle.std.specs.FinMap as map;
ghost use Rattle.ks_compare.specs.Changes.{compared, differ};
ghost use Rattle.ks_tree.specs.Frames.{Reads};
ghost use Rattle.ks_engine.specs.Refusals.{IsAborted};
ghost use Rattle.ks_engine.specs.Sources.{FromKconfig, config_source};
ghost use Rattle.ks_engine.specs.SyncPlan.{AreConfigInputs, AreInputs, IsSyncPlan, refusal_of};
ghost use Rattle.ks_engine.specs.Views.{sources_of};
ghost use Rattle.ks_engine.specs.declared.error.EngineError.TheVariants.{Device, OutOfMemory};
ghost use Rattle.ks_requests.specs.declared.refusal.Refusal.TheVariants.{Engine};
ghost use Rattle.ks_requests.specs.declared.status.Status.TheVariants.{Done};
ghost use Rattle.ks_requests.specs.Statuses.{code_of};
ghost use Rattle.ks_requests.specs.Endings.{IsUnknown};
ghost use Rattle.ks_requests.specs.Unknown.{unknown_line, unknown_lines, unknown_names};
ghost use Rattle.ks_symbols.specs.DotConfig.{unknown_count};
ghost use Rattle.ks_symbols.specs.Lines.{lines};
ghost use Rattle.ks_symbols.specs.Refusals.{IsRefusal};
ghost use Rattle.ks_commands.specs.Differences.{IsDiff, change_line, class_word, difference_line, difference_status, lines_asked, shown_classes, shown_value, unknown_of};
ghost use Rattle.ks_commands.specs.Performed.{EndsDiff};
ghost use Rattle.ks_commands.specs.Views.{seen_value};

use ks_engine::{
    ConfigForm, ConfigInputs, ConfigTexts, EngineError, parse_config_inputs, plan_config_inputs,
    read_inputs,
};
use ks_output::{OldConfig, write_quoted};
use ks_requests::{
    ConfigPaths, Count, Outcome, Refusal, ReportStyle, Status, config_at, unknown_lines,
};
use ks_symbols::{Class, Dialect, Kconfig, Name, Seed, Settings, Symbols};
use ks_tree::Tree;
use std::alloc::{AllocError, Global};

/// The class and the text of a name. An entry of the untyped form has no class.
#[derive(Clone, Copy)]
pub(crate) struct Value<'a> {
    class: Option<Class>,
    text: &'a [u8],
}

/// What a name has in auto.conf.
fn old_value<'a>(old: &'a OldConfig, name: &[u8]) -> Option<Value<'a>>
    ensures { option_map seen_value result ≡ map.get old.now.texts name.now }
{
    let text = old.get(name)?;
    let class = old.class(name);
    Some(Value { class, text })
}

/// What a name would have there.
fn new_value<'a>(new: &'a Settings, name: &[u8]) -> Option<Value<'a>>
    ensures { option_map seen_value result ≡ option_map compared (map.get new.now.entries name.now) }
{
    let (kind, text) = new.get(name)?;
    let class = Some(kind.class());
    Some(Value { class, text })
}

/// How a class is called.
fn class_word(class: Option<Class>) -> &'static [u8]
    ensures { result.now ≡ class_word class }
{
    match class {
        None => b"untyped",
        Some(Class::Switch) => b"bool/tristate",
        Some(Class::Text) => b"string",
        Some(Class::Int) => b"int",
        Some(Class::Hex) => b"hex",
        Some(Class::Raw) => b"raw string",
        Some(Class::Flag) => b"flag",
    }
}

/// Appends what a name has.
fn write_value(value: Option<Value<'_>>, text: &mut Vec<u8>) -> Result<(), AllocError>
    ensures { OnOk result (text.new.items ≡ text.old.items ++ shown_value (option_map seen_value value.entry)) }
{
    let Some(value) = value else {
        return text.extend_from_slice(b"n");
    };
    match value.class {
        Some(Class::Text) => write_quoted(value.text, text),
        _ => text.extend_from_slice(value.text),
    }
}

/// Appends both classes, where the texts alone would not tell what differs.
fn write_classes(
    old: Option<Value<'_>>,
    new: Option<Value<'_>>,
    text: &mut Vec<u8>,
) -> Result<(), AllocError>
    ensures { OnOk result (text.new.items ≡ text.old.items ++ shown_classes (option_map seen_value old.entry) (option_map seen_value new.entry)) }
{
    let (Some(old), Some(new)) = (old, new) else {
        return Ok(());
    };
    if old.text != new.text {
        return Ok(());
    }
    text.extend_from_slice(b" (")?;
    text.extend_from_slice(class_word(old.class))?;
    text.extend_from_slice(b" -> ")?;
    text.extend_from_slice(class_word(new.class))?;
    text.extend_from_slice(b")")
}

/// `NAME OLD -> NEW`.
#[tactic(auto, unfolding(crate::specs::Differences::change_line))]
fn write_change(
    name: &[u8],
    old: Option<Value<'_>>,
    new: Option<Value<'_>>,
    text: &mut Vec<u8>,
) -> Result<(), AllocError>
    ensures { OnOk result (text.new.items
        ≡ text.old.items ++ change_line name.now (option_map seen_value old.entry) (option_map seen_value new.entry)) }
{
    text.extend_from_slice(name)?;
    text.extend_from_slice(b" ")?;
    write_value(old, text)?;
    text.extend_from_slice(b" -> ")?;
    write_value(new, text)?;
    write_classes(old, new, text)?;
    text.extend_from_slice(b"\n")
}

/// Whether what a name has and what it would have differ. It may be among the changes for its companion alone.
fn differ(old: Option<Value<'_>>, new: Option<Value<'_>>) -> bool
    ensures { result ≡ differ (option_map seen_value old.entry) (option_map seen_value new.entry) }
{
    match (old, new) {
        (None, None) => false,
        (Some(old), Some(new)) => old.class != new.class || old.text != new.text,
        _ => true,
    }
}

/// The line of a name, if it differs itself.
fn write_difference(
    name: &[u8],
    old: &OldConfig,
    new: &Settings,
    text: &mut Vec<u8>,
) -> Result<(), AllocError>
    ensures { OnOk result (text.new.items ≡ text.old.items ++ difference_line old.now.texts new.now.entries name.now) }
{
    let was = old_value(old, name);
    let is = new_value(new, name);
    if differ(was, is) {
        write_change(name, was, is, text)?;
    }
    Ok(())
}

/// A line for each name that differs itself.
fn write_changes(
    names: &[Name],
    old: &OldConfig,
    new: &Settings,
    text: &mut Vec<u8>,
) -> Result<(), AllocError>
    ensures { OnOk result (text.new.items ≡ text.old.items ++ flat_map (difference_line old.now.texts new.now.entries) names.now) }
{
    for name in names {
        write_difference(name.as_bytes(), old, new, text)?;
    }
    Ok(())
}

/// The lines of these names, unless the status alone is asked for.
fn lines_asked(
    alloc: Global,
    report_style: ReportStyle,
    names: &[Name],
    old: &OldConfig,
    new: &Settings,
) -> Result<Vec<u8>, AllocError>
    ensures { IfOk result (λ text. text.items ≡ lines_asked report_style (flat_map (difference_line old.now.texts new.now.entries) names.now)) }
{
    let mut text = Vec::new(alloc);
    match report_style {
        ReportStyle::Status => Ok(text),
        ReportStyle::Lines | ReportStyle::LinesAndStatus => {
            write_changes(names, old, new, &mut text)?;
            Ok(text)
        }
    }
}

/// What these names come to: whether there is one, where that is asked for.
fn difference_status(report_style: ReportStyle, names: &[Name]) -> Status
    ensures status { code_of result ≡ difference_status report_style names.now }
    ensures done { report_style ≡ ReportStyle.Lines → result ≡ Done }
{
    match report_style {
        ReportStyle::LinesAndStatus | ReportStyle::Status if !names.is_empty() => Status::Stale,
        _ => Status::Done,
    }
}

/// The lines of unknown names, where so many are counted, unless the status alone is asked for.
fn unknown_asked(
    alloc: Global,
    report_style: ReportStyle,
    symbols: &Symbols,
    dotconfig: &[u8],
    unknown: u64,
) -> Result<Option<Count>, AllocError>
    ensures { unknown ≡ unknown_count (map.get symbols.now.kinds) (lines dotconfig.now)
        → IfOk result (IsUnknown (lines_asked report_style (flat_map unknown_line (unknown_names (map.get symbols.now.kinds) (lines dotconfig.now))))) }
{
    if unknown == 0 {
        return Ok(None);
    }
    match report_style {
        ReportStyle::Status => Ok(None),
        ReportStyle::Lines | ReportStyle::LinesAndStatus => {
            let lines = unknown_lines(alloc, symbols, dotconfig)?;
            Ok(Some(Count::Unknown(lines)))
        }
    }
}

/// What two texts say, and the lines of unknown names.
#[derive(Drop)]
struct Asked {
    sources: ConfigInputs,
    count: Option<Count>,
}

/// What a Kconfig and a `.config` say, and the lines of unknown names. The symbols are let go once these are made.
fn kconfig_asked(
    alloc: Global,
    kconfig: &Kconfig<'_>,
    dotconfig: &[u8],
    report_style: ReportStyle,
) -> Result<Asked, EngineError>
    ensures read { IfOk result (λ a. AreConfigInputs kconfig.now dotconfig.now (sources_of a.sources)
        × IsUnknown (lines_asked report_style (unknown_lines kconfig.now dotconfig.now)) a.count) }
    ensures refused { IfErr result (λ e. IsRefusal EngineError.OutOfMemory e (refusal_of (FromKconfig kconfig.now dotconfig.now))) }
{
    let parsed = parse_config_inputs(alloc, kconfig, dotconfig)?;
    let unknown = parsed.sources.settings.unknown();
    let count = unknown_asked(alloc, report_style, &parsed.symbols, dotconfig, unknown)?;
    let sources = parsed.sources;
    Ok(Asked { sources, count })
}

/// What two texts say, by their form. What conf wrote has no lines of unknown names.
fn inputs_asked(
    alloc: Global,
    seed: Seed,
    texts: &ConfigTexts<'_>,
    report_style: ReportStyle,
) -> Result<Asked, EngineError>
    ensures read { IfOk result (λ a. AreInputs (config_source texts.now) (sources_of a.sources)
        × IsUnknown (lines_asked report_style (unknown_of (config_source texts.now))) a.count) }
    ensures refused { IfErr result (λ e. IsRefusal EngineError.OutOfMemory e (refusal_of (config_source texts.now))) }
{
    match texts.form {
        ConfigForm::Kconfig => {
            let kconfig = Kconfig::new(texts.dialect, texts.first);
            kconfig_asked(alloc, &kconfig, texts.second, report_style)
        }
        ConfigForm::Written => {
            let sources = read_inputs(alloc, seed, texts)?;
            let count = None;
            Ok(Asked { sources, count })
        }
    }
}

/// What a synchronisation of a tree would touch, printed, unless that would be refused.
fn differences<T: Tree>(
    alloc: Global,
    tree: &mut T,
    texts: &ConfigTexts<'_>,
    report_style: ReportStyle,
) -> Result<Outcome, EngineError>
    ensures done { report_style ≡ ReportStyle.Lines → IfOk result (λ o. o.status ≡ Done) }
    ensures reads { Reads T.Tree tree.old tree.new (IsErrOf result EngineError.Device) }
    ensures uncounted { IsErrOf result EngineError.OutOfMemory → T.failures tree.new ≡ T.failures tree.old }
    ensures reported { T.is_honest → IfOk result (λ o. IsDiff report_style (T.files tree.old) (config_source texts.now) o.text.items (code_of o.status)
        × IsUnknown (lines_asked report_style (unknown_of (config_source texts.now))) o.count) }
    ensures refused { T.is_honest → IfErr result (λ e. IsAborted e ⊎ IsSyncPlan (T.files tree.old) (config_source texts.now) (Err e)) }
{
    let seed = Seed::new(tree.seed());
    let asked = inputs_asked(alloc, seed, texts, report_style)?;
    let planned = plan_config_inputs(alloc, tree, asked.sources)?;
    let names = &planned.report.touched;
    let settings = &planned.sources.settings;
    let text = lines_asked(alloc, report_style, names, &planned.old, settings)?;
    let status = difference_status(report_style, names);
    Ok(Outcome {
        text,
        status,
        count: asked.count,
    })
}

/// Prints what a synchronisation with the configuration of two files would touch.
pub(crate) fn report_differences<T: Tree>(
    alloc: Global,
    tree: &mut T,
    dialect: Dialect,
    config: &ConfigPaths,
    report_style: ReportStyle,
) -> Result<Outcome, Refusal>
    ensures done { report_style ≡ ReportStyle.Lines → IfOk result (λ o. o.status ≡ Done) }
    ensures reads { Reads T.Tree tree.old tree.new (result ≡ Err (Engine Device)) }
    ensures memory { result ≡ Err (Engine OutOfMemory) → T.failures tree.new ≡ T.failures tree.old }
    ensures reported { T.is_honest → EndsDiff dialect report_style (T.files tree.old) config.now result }
{
    let texts = config_at(alloc, tree, config)?;
    Ok(differences(
        alloc,
        tree,
        &texts.config(dialect, config.form),
        report_style,
    )?)
}
