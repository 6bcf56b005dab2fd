//! The commands that change a tree: a synchronisation, and the record of an object, in one of its two forms.
//!
//! A refusal of the engine is one of the whole command, and prints nothing to the output.
ghost use Rattle.std.specs.Prelude.{◌≡◌, Err, IfErr, IfOk, IsErrOf, OnOk, option_map};
ghost use Rattle.ks_tree.specs.Files.{HasRisen};
ghost use Rattle.ks_tree.specs.Frames.{Counted, Reads};
ghost use Rattle.ks_engine.specs.FileRuns.{state};
ghost use Rattle.ks_engine.specs.Sources.{config_source};
ghost use Rattle.ks_engine.specs.declared.error.EngineError.TheVariants.{BadPath, Device, OutOfMemory};
ghost use Rattle.ks_requests.specs.declared.refusal.Refusal.TheVariants.{Engine};
ghost use Rattle.ks_requests.specs.declared.request.Stamps.TheVariants.{Declared};
ghost use Rattle.ks_requests.specs.declared.status.Status.TheVariants.{Done};
ghost use Rattle.ks_commands.specs.Depfiles.{AreOptions, AreRuleOptions, IsHeaderOf, IsNoHeader, IsPlace};
ghost use Rattle.ks_commands.specs.Looking.{AllowsRecord, RefusesRecord};
ghost use Rattle.ks_commands.specs.Stamps.{LeavesStamps};
ghost use Rattle.ks_commands.specs.Performed.{EndsDepfile, EndsRecord, EndsSync, RecordsRule, by_files};

use crate::looking::find_cause;
use ks_engine::{
    ConfigForm, ConfigTexts, Elsewhere, EngineError, RecordOptions, Report, record_depfile,
    record_object_with, sync, sync_all_stamps,
};
use ks_fixdep::Header;
use ks_requests::{
    ConfigPaths, ElsewherePaths, Outcome, RecordWords, Refusal, Stamps, StrictPaths, config_at,
    report_depfile, report_recorded, report_sync,
};
use ks_symbols::{Dialect, Kconfig, path_is_legal};
use ks_tree::Tree;
use std::alloc::Global;

/// Synchronises a tree with two texts, and leaves a stamp of each symbol that a Kconfig declares. What conf wrote doesn't say which
/// these are.
fn sync_declared<T: Tree>(
    alloc: Global,
    tree: &mut T,
    texts: &ConfigTexts<'_>,
) -> Result<Report, EngineError>
    ensures files { T.is_honest → LeavesStamps (T.files tree.old) (T.files tree.new) Declared (config_source texts.now) result }
    ensures counted { Counted T.Tree tree.old tree.new (IsErrOf result EngineError.Device) }
    ensures passed { OnOk result (T.failures tree.new ≡ T.failures tree.old) }
    ensures uncounted { IsErrOf result EngineError.OutOfMemory → T.failures tree.new ≡ T.failures tree.old }
    ensures kept { T.backdated tree.new ≡ T.backdated tree.old }
{
    match texts.form {
        ConfigForm::Kconfig => {
            let kconfig = Kconfig::new(texts.dialect, texts.first);
            sync_all_stamps(alloc, tree, &kconfig, texts.second)
        }
        ConfigForm::Written => sync(alloc, tree, texts),
    }
}

/// Synchronises a tree with two texts, and leaves these stamps.
fn sync_with<T: Tree>(
    alloc: Global,
    tree: &mut T,
    stamps: Stamps,
    texts: &ConfigTexts<'_>,
) -> Result<Report, EngineError>
    ensures files { T.is_honest → LeavesStamps (T.files tree.old) (T.files tree.new) stamps (config_source texts.now) result }
    ensures counted { Counted T.Tree tree.old tree.new (IsErrOf result EngineError.Device) }
    ensures passed { OnOk result (T.failures tree.new ≡ T.failures tree.old) }
    ensures uncounted { IsErrOf result EngineError.OutOfMemory → T.failures tree.new ≡ T.failures tree.old }
    ensures kept { T.backdated tree.new ≡ T.backdated tree.old }
{
    match stamps {
        Stamps::Touched => sync(alloc, tree, texts),
        Stamps::Declared => sync_declared(alloc, tree, texts),
    }
}

/// Brings a tree to the configuration of two files, and prints what that touched.
pub(crate) fn synchronise<T: Tree>(
    alloc: Global,
    tree: &mut T,
    dialect: Dialect,
    stamps: Stamps,
    config: &ConfigPaths,
) -> Result<Outcome, Refusal>
    ensures done { IfOk result (λ o. o.status ≡ Done) }
    ensures files { T.is_honest → EndsSync (T.files tree.old) (by_files dialect T.is_honest (state T.Tree tree.old) (state T.Tree tree.new))
        stamps config.now result }
    ensures cause { result ≡ Err (Engine Device) → HasRisen (T.failures tree.old) (T.failures tree.new) }
    ensures memory { result ≡ Err (Engine OutOfMemory) → T.failures tree.new ≡ T.failures tree.old }
    ensures kept { T.backdated tree.new ≡ T.backdated tree.old }
{
    let texts = config_at(alloc, tree, config)?;
    let report = sync_with(alloc, tree, stamps, &texts.config(dialect, config.form))?;
    Ok(report_sync(alloc, &report)?)
}

/// Where the compiler ran, by the words of a request.
fn place_of(elsewhere: &Option<ElsewherePaths>) -> Option<Elsewhere<'_>>
    ensures { IsPlace elsewhere.now result }
{
    match elsewhere {
        Some(paths) => Some(Elsewhere {
            directory: paths.directory.as_bytes(),
            tree: paths.tree.as_bytes(),
        }),
        None => None,
    }
}

/// How a build asks for a record.
fn options_of(words: &RecordWords) -> RecordOptions<'_>
    ensures { AreOptions words.now result }
{
    RecordOptions {
        adds_own_lines: words.adds_own_lines,
        before_sync: words.before_sync,
        elsewhere: place_of(&words.elsewhere),
    }
}

/// How a build by dependency files does.
fn rule_options(elsewhere: &Option<ElsewherePaths>) -> RecordOptions<'_>
    ensures { AreRuleOptions elsewhere.now result }
{
    RecordOptions {
        adds_own_lines: false,
        before_sync: false,
        elsewhere: place_of(elsewhere),
    }
}

/// Writes the command file of an object, and prints under which generation. Its arguments are looked at by the engine.
pub(crate) fn record_target<T: Tree>(
    alloc: Global,
    tree: &mut T,
    dialect: Dialect,
    words: &RecordWords,
    depfile: &[u8],
    target: &[u8],
    command: &[u8],
) -> Result<Outcome, Refusal>
    ensures done { IfOk result (λ o. o.status ≡ Done) }
    ensures files { T.is_honest → EndsRecord (by_files dialect T.is_honest (state T.Tree tree.old) (state T.Tree tree.new)) words.now depfile.now target.now command.now result }
    ensures cause { result ≡ Err (Engine Device) → HasRisen (T.failures tree.old) (T.failures tree.new) }
    ensures memory { result ≡ Err (Engine OutOfMemory) → T.failures tree.new ≡ T.failures tree.old }
    ensures kept { T.backdated tree.new ≡ T.backdated tree.old }
{
    let options = options_of(words);
    let recorded = record_object_with(alloc, tree, options, dialect, depfile, target, command)?;
    Ok(report_recorded(alloc, target, &recorded)?)
}

/// The header that a word names by the end of its path, or else the usual one.
fn header_of<'a>(dialect: Dialect, end: Option<&'a str>) -> Result<Header<'a>, EngineError>
    ensures named { IfOk result (IsHeaderOf dialect (option_map (λ p. p.now) end.entry)) }
    ensures refused { IfErr result (λ e. IsNoHeader (option_map (λ p. p.now) end.entry) × (e ≡ BadPath 0)) }
{
    let Some(end) = end else {
        return Ok(Header::usual(dialect));
    };
    if !path_is_legal(end.as_bytes()) {
        return Err(EngineError::BadPath(0));
    }
    Ok(Header::At(end.as_bytes()))
}

/// Refuses an object to which more than names may matter, where that is asked for.
fn look_if_strict<T: Tree>(
    alloc: Global,
    tree: &mut T,
    dialect: Dialect,
    header: Header<'_>,
    options: RecordOptions<'_>,
    strict: &Option<StrictPaths>,
    depfile: &[u8],
    command: &[u8],
) -> Result<(), Refusal>
    ensures reads { Reads T.Tree tree.old tree.new (result ≡ Err (Engine Device)) }
    ensures passed { OnOk result (T.failures tree.new ≡ T.failures tree.old) }
    ensures memory { result ≡ Err (Engine OutOfMemory) → T.failures tree.new ≡ T.failures tree.old }
    ensures allowed { T.is_honest → OnOk result (AllowsRecord (T.files tree.old) dialect header.entry options.entry strict.now depfile.now command.now) }
    ensures refused { T.is_honest → IfErr result (λ r. RefusesRecord (T.files tree.old) dialect header.entry options.entry strict.now
        depfile.now command.now (Err r)) }
{
    let Some(strict) = strict else {
        return Ok(());
    };
    match find_cause(
        alloc, tree, dialect, header, options, strict, depfile, command,
    )? {
        Some(hidden) => Err(Refusal::Hidden(hidden)),
        None => Ok(()),
    }
}

/// Records an object whose header is known, and writes its dependency file anew, by its rule.
fn record_by_header<T: Tree>(
    alloc: Global,
    tree: &mut T,
    dialect: Dialect,
    header: Header<'_>,
    options: RecordOptions<'_>,
    depfile: &[u8],
    target: &[u8],
    command: &[u8],
) -> Result<Outcome, Refusal>
    ensures done { IfOk result (λ o. o.status ≡ Done) }
    ensures files { T.is_honest → RecordsRule dialect (T.files tree.old) (T.files tree.new) header.entry options.entry depfile.now target.now command.now result }
    ensures counted { Counted T.Tree tree.old tree.new (result ≡ Err (Engine Device)) }
    ensures memory { result ≡ Err (Engine OutOfMemory) → T.failures tree.new ≡ T.failures tree.old }
    ensures kept { T.backdated tree.new ≡ T.backdated tree.old }
{
    let recorded = record_depfile(
        alloc, tree, options, header, dialect, depfile, target, command,
    );
    Ok(report_depfile(alloc, target, &recorded?)?)
}

/// Writes the command file of an object, and then its dependency file anew, by its rule.
pub(crate) fn record_rule<T: Tree>(
    alloc: Global,
    tree: &mut T,
    dialect: Dialect,
    header: Option<&str>,
    strict: &Option<StrictPaths>,
    elsewhere: &Option<ElsewherePaths>,
    depfile: &[u8],
    target: &[u8],
    command: &[u8],
) -> Result<Outcome, Refusal>
    ensures done { IfOk result (λ o. o.status ≡ Done) }
    ensures files { T.is_honest → EndsDepfile (T.files tree.old) (by_files dialect T.is_honest (state T.Tree tree.old) (state T.Tree tree.new))
        (option_map (λ p. p.now) header.entry) strict.now elsewhere.now depfile.now target.now command.now result }
    ensures cause { result ≡ Err (Engine Device) → HasRisen (T.failures tree.old) (T.failures tree.new) }
    ensures memory { result ≡ Err (Engine OutOfMemory) → T.failures tree.new ≡ T.failures tree.old }
    ensures kept { T.backdated tree.new ≡ T.backdated tree.old }
{
    let header = header_of(dialect, header)?;
    let options = rule_options(elsewhere);
    look_if_strict(
        alloc, tree, dialect, header, options, strict, depfile, command,
    )?;
    record_by_header(
        alloc, tree, dialect, header, options, depfile, target, command,
    )
}
