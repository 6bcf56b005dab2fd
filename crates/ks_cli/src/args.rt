//! What the arguments ask for.
ghost use Rattle.std.specs.Prelude.{◌≡◌, ◌≢◌, ℕ, List, [], ◌∷◌, IfErr, IfOk, codes, false, true, map, None, option_map, string_bytes, if◌then◌else◌};
ghost use Rattle.clap.specs.Words.{first_of, found_of, kind_of, one_of, rows_of, takes};
ghost use Rattle.clap.specs.Walk.{texts};
ghost use Rattle.ks_requests.specs.Requests.{IsBatchOf, IsPreviewOf};
ghost use Rattle.ks_cli.specs.CommandLine.{command_line_app};
ghost use Rattle.ks_cli.specs.Meaning.{IsBothReported, IsPageNamed, IsPageReported, IsReason, IsTakenAs, Makes};
ghost use Rattle.ks_cli.specs.Args.{AreConfig, AreKept, AreNamedConfig, AreStrict, IsElsewhere, AreTargets, IsPlainArg, IsRequestOf, HasText, IsReported, IsWantOfMemory, asks_both, is_no_memory, is_set, report_style_of, arg_at, args_at, form_of, format_of, scope_of, IsNumberOf};

use crate::command_line::command_line;
use crate::help_text::HelpText;
use clap::ArgMatches;
use clap::error::ErrorKind;
use ks_engine::{BackdateScope, ConfigForm};
use ks_requests::{
    ConfigPaths, DepfileAfter, ElsewherePaths, KeptPaths, OutputFormat, RecordWords, ReportStyle,
    Request, Stamps, StrictPaths, Targets,
};
use std::alloc::{AllocError, Global};
use thiserror::Error;

/// Why the arguments are no request.
#[derive(Debug, Drop, Error)]
pub enum WordsError {
    /// What is said in place of a request: a mistake in the arguments, help, the version, or what is known of an error.
    #[error("{0}")]
    Refused(HelpText),
    #[error("10 OutOfMemory")]
    OutOfMemory,
}

impl From<AllocError> for WordsError {
    ghost from_gives = { λ _ w. IsWantOfMemory w };

    fn from(_error: AllocError) -> WordsError {
        WordsError::OutOfMemory
    }
}

/// Whether `clap` was refused memory.
fn lacks_memory(error: &clap::Error) -> bool
    ensures { result ≡ is_no_memory (kind_of error.now) }
{
    matches!(error.kind(), ErrorKind::OutOfMemory)
}

/// What an error of `clap` says, unless memory is refused.
fn refused(alloc: Global, error: &clap::Error) -> WordsError
    ensures { IsReported error.now result }
{
    if lacks_memory(error) {
        return WordsError::OutOfMemory;
    }
    match HelpText::of(alloc, error) {
        Ok(help) => WordsError::Refused(help),
        Err(_) => WordsError::OutOfMemory,
    }
}

/// The text of the argument `id`, or an empty one.
#[tactic(auto, using(crate::proofs::ArgLemmas::first_at))]
fn text_of<'a>(matches: &ArgMatches<'a>, id: &str) -> &'a str
    ensures { result.now ≡ arg_at id.now (rows_of (found_of matches.now)) }
{
    matches.get_str(id).unwrap_or("")
}

/// The text of the required argument `id`.
fn arg(alloc: Global, matches: &ArgMatches<'_>, id: &str) -> Result<String, AllocError>
    ensures { IfOk result (λ s. string_bytes s ≡ arg_at id.now (rows_of (found_of matches.now))) }
{
    String::from_str(alloc, text_of(matches, id))
}

/// The text of the argument `id`, where it is there.
#[tactic(auto, using(crate::proofs::ArgLemmas::first_at))]
fn optional_arg(
    alloc: Global,
    matches: &ArgMatches<'_>,
    id: &str,
) -> Result<Option<String>, AllocError>
    ensures { IfOk result (λ o. option_map (λ s. string_bytes s) o ≡ first_of id.now (rows_of (found_of matches.now))) }
{
    match matches.get_str(id) {
        Some(text) => Ok(Some(String::from_str(alloc, text)?)),
        None => Ok(None),
    }
}

/// Whether the option `id` stands there, which takes no value.
#[tactic(auto, using(crate::proofs::ArgLemmas::first_at))]
fn is_set(matches: &ArgMatches<'_>, id: &str) -> bool
    ensures { result ≡ is_set id.now (rows_of (found_of matches.now)) }
{
    match matches.get_str(id) {
        Some(text) => text == "true",
        None => false,
    }
}

/// One of two values, by whether the option `id` stands there.
fn chosen<C: Copy>(matches: &ArgMatches<'_>, id: &str, set: C, unset: C) -> C
    ensures { result ≡ (if is_set id.now (rows_of (found_of matches.now)) then set else unset) }
{
    if is_set(matches, id) { set } else { unset }
}

/// The texts of the argument `id`.
fn all_args(alloc: Global, matches: &ArgMatches<'_>, id: &str) -> Result<Vec<String>, AllocError>
    ensures { IfOk result (λ ws. map (λ s. string_bytes s) ws.items ≡ args_at id.now (rows_of (found_of matches.now))) }
{
    let mut args = Vec::new(alloc);
    let Some(texts) = matches.get_strs(id) else {
        return Ok(args);
    };
    for text in texts {
        args.push(String::from_str(alloc, *text)?)?;
    }
    Ok(args)
}

/// The objects of a question.
fn targets(alloc: Global, matches: &ArgMatches<'_>) -> Result<Targets, AllocError>
    ensures { IfOk result (AreTargets (rows_of (found_of matches.now))) }
{
    let args = all_args(alloc, matches, "TARGET")?;
    let from = optional_arg(alloc, matches, "FILE")?;
    Ok(Targets { args, from })
}

/// The form of the answers.
fn format(matches: &ArgMatches<'_>) -> OutputFormat
    ensures { result ≡ format_of (rows_of (found_of matches.now)) }
{
    chosen(matches, "json", OutputFormat::Json, OutputFormat::Text)
}

/// What the two files of a configuration are.
fn form(matches: &ArgMatches<'_>) -> ConfigForm
    ensures { result ≡ form_of (rows_of (found_of matches.now)) }
{
    chosen(matches, "written", ConfigForm::Written, ConfigForm::Kconfig)
}

/// The two files of a configuration.
fn config(alloc: Global, matches: &ArgMatches<'_>) -> Result<ConfigPaths, AllocError>
    ensures { IfOk result (AreConfig (rows_of (found_of matches.now))) }
{
    Ok(ConfigPaths {
        form: form(matches),
        first: arg(alloc, matches, "KCONFIG")?,
        second: arg(alloc, matches, "DOTCONFIG")?,
    })
}

/// The two files of a configuration, where they are named.
fn named_config(alloc: Global, matches: &ArgMatches<'_>) -> Result<Option<ConfigPaths>, AllocError>
    ensures { IfOk result (AreNamedConfig (rows_of (found_of matches.now))) }
{
    match optional_arg(alloc, matches, "KCONFIG")? {
        Some(first) => Ok(Some(ConfigPaths {
            form: form(matches),
            first,
            second: arg(alloc, matches, "DOTCONFIG")?,
        })),
        None => Ok(None),
    }
}

/// Whether `sync` is asked for the stamps of all declared symbols by what conf wrote, which doesn't say what is declared.
fn asks_both(matches: &ArgMatches<'_>) -> bool
    ensures { result ≡ asks_both (rows_of (found_of matches.now)) }
{
    is_set(matches, "stamps") && is_set(matches, "written")
}

fn sync_request(alloc: Global, matches: &ArgMatches<'_>) -> Result<Request, AllocError>
    requires { asks_both (rows_of (found_of matches.now)) ≡ false }
    ensures { IfOk result (IsRequestOf (codes "sync") (rows_of (found_of matches.now))) }
{
    Ok(Request::Sync {
        config: config(alloc, matches)?,
        stamps: chosen(matches, "stamps", Stamps::Declared, Stamps::Touched),
    })
}

fn preview_request(alloc: Global, matches: &ArgMatches<'_>) -> Result<Request, AllocError>
    ensures { IfOk result (IsRequestOf (codes "preview") (rows_of (found_of matches.now))) }
{
    Ok(Request::Preview {
        config: config(alloc, matches)?,
        old: optional_arg(alloc, matches, "OLDAUTO")?,
    })
}

/// What `diff` is to print.
fn report_style(matches: &ArgMatches<'_>) -> ReportStyle
    ensures { result ≡ report_style_of (rows_of (found_of matches.now)) }
{
    if is_set(matches, "quiet") {
        ReportStyle::Status
    } else if is_set(matches, "exit-code") {
        ReportStyle::LinesAndStatus
    } else {
        ReportStyle::Lines
    }
}

fn diff_request(alloc: Global, matches: &ArgMatches<'_>) -> Result<Request, AllocError>
    ensures { IfOk result (IsRequestOf (codes "diff") (rows_of (found_of matches.now))) }
{
    Ok(Request::Diff {
        config: config(alloc, matches)?,
        report_style: report_style(matches),
    })
}

fn status_request(alloc: Global, matches: &ArgMatches<'_>) -> Result<Request, AllocError>
    ensures { IfOk result (IsRequestOf (codes "status") (rows_of (found_of matches.now))) }
{
    Ok(Request::Status {
        config: named_config(alloc, matches)?,
    })
}

fn fixdep_request(alloc: Global, matches: &ArgMatches<'_>) -> Result<Request, AllocError>
    ensures { IfOk result (IsRequestOf (codes "fixdep") (rows_of (found_of matches.now))) }
{
    Ok(Request::Fixdep {
        depfile: arg(alloc, matches, "DEPFILE")?,
        target: arg(alloc, matches, "TARGET")?,
        command: arg(alloc, matches, "COMMAND")?,
    })
}

/// Where the compiler ran, where it is named. Without the other word the tree has the path of no bytes, which is none.
fn elsewhere(alloc: Global, matches: &ArgMatches<'_>) -> Result<Option<ElsewherePaths>, AllocError>
    ensures { IfOk result (IsElsewhere (rows_of (found_of matches.now))) }
{
    match optional_arg(alloc, matches, "DIR")? {
        Some(directory) => Ok(Some(ElsewherePaths {
            directory,
            tree: arg(alloc, matches, "TREE")?,
        })),
        None => Ok(None),
    }
}

fn record_request(alloc: Global, matches: &ArgMatches<'_>) -> Result<Request, AllocError>
    ensures { IfOk result (IsRequestOf (codes "record") (rows_of (found_of matches.now))) }
{
    Ok(Request::Record {
        depfile: arg(alloc, matches, "DEPFILE")?,
        target: arg(alloc, matches, "TARGET")?,
        command: arg(alloc, matches, "COMMAND")?,
        after: chosen(
            matches,
            "remove-depfile",
            DepfileAfter::Removed,
            DepfileAfter::Kept,
        ),
        options: RecordWords {
            adds_own_lines: is_set(matches, "cmd"),
            before_sync: is_set(matches, "before-sync"),
            elsewhere: elsewhere(alloc, matches)?,
        },
    })
}

/// By what a record is strict, where it is.
fn strict(alloc: Global, matches: &ArgMatches<'_>) -> Result<Option<StrictPaths>, AllocError>
    ensures { IfOk result (AreStrict (rows_of (found_of matches.now))) }
{
    match optional_arg(alloc, matches, "PATH")? {
        Some(alias) => Ok(Some(StrictPaths {
            alias,
            tools: all_args(alloc, matches, "TOOL")?,
        })),
        None => Ok(None),
    }
}

fn depfile_request(alloc: Global, matches: &ArgMatches<'_>) -> Result<Request, AllocError>
    ensures { IfOk result (IsRequestOf (codes "depfile") (rows_of (found_of matches.now))) }
{
    Ok(Request::Depfile {
        header: optional_arg(alloc, matches, "SUFFIX")?,
        strict: strict(alloc, matches)?,
        elsewhere: elsewhere(alloc, matches)?,
        depfile: arg(alloc, matches, "DEPFILE")?,
        target: arg(alloc, matches, "TARGET")?,
        command: arg(alloc, matches, "COMMAND")?,
    })
}

/// What was kept, where it is named.
fn kept(alloc: Global, matches: &ArgMatches<'_>) -> Result<Option<KeptPaths>, AllocError>
    ensures { IfOk result (AreKept (rows_of (found_of matches.now))) }
{
    match optional_arg(alloc, matches, "AUTO")? {
        Some(auto) => Ok(Some(KeptPaths {
            auto,
            header: arg(alloc, matches, "HEADER")?,
        })),
        None => Ok(None),
    }
}

fn repair_request(alloc: Global, matches: &ArgMatches<'_>) -> Result<Request, AllocError>
    ensures { IfOk result (IsRequestOf (codes "repair") (rows_of (found_of matches.now))) }
{
    Ok(Request::Repair {
        stamps: arg(alloc, matches, "STAMPS")?,
        targets: arg(alloc, matches, "TARGETS")?,
        kept: kept(alloc, matches)?,
    })
}

fn outdated_request(alloc: Global, matches: &ArgMatches<'_>) -> Result<Request, AllocError>
    ensures { IfOk result (IsRequestOf (codes "outdated") (rows_of (found_of matches.now))) }
{
    Ok(Request::Outdated {
        target: arg(alloc, matches, "TARGET")?,
        command: arg(alloc, matches, "COMMAND")?,
    })
}

fn impact_request(alloc: Global, matches: &ArgMatches<'_>) -> Result<Request, AllocError>
    ensures { IfOk result (IsRequestOf (codes "impact") (rows_of (found_of matches.now))) }
{
    Ok(Request::Impact {
        config: config(alloc, matches)?,
        targets: targets(alloc, matches)?,
        format: format(matches),
    })
}

/// The number of the argument `id`, where it is there. `clap` takes no other text for it.
fn number(matches: &ArgMatches<'_>, id: &str) -> Option<u64>
    ensures { IsNumberOf (one_of id.now (rows_of (found_of matches.now))) result }
{
    matches.get_one(id)
}

fn users_request(alloc: Global, matches: &ArgMatches<'_>) -> Result<Request, AllocError>
    ensures { IfOk result (IsRequestOf (codes "users") (rows_of (found_of matches.now))) }
{
    Ok(Request::Users {
        symbols: all_args(alloc, matches, "SYMBOL")?,
        targets: targets(alloc, matches)?,
    })
}

fn cost_request(alloc: Global, matches: &ArgMatches<'_>) -> Result<Request, AllocError>
    ensures { IfOk result (IsRequestOf (codes "cost") (rows_of (found_of matches.now))) }
{
    Ok(Request::Cost {
        top: number(matches, "N"),
        targets: targets(alloc, matches)?,
    })
}

/// What `explain` says: the page of the error that its argument names, unless memory is refused.
fn page_asked(alloc: Global, matches: &ArgMatches<'_>) -> WordsError
    ensures { IsPageReported (arg_at (codes "NUMBER") (rows_of (found_of matches.now))) result }
{
    match HelpText::of_error(alloc, text_of(matches, "NUMBER")) {
        Ok(help) => WordsError::Refused(help),
        Err(_) => WordsError::OutOfMemory,
    }
}

/// What `sync` says of two options that exclude each other, unless memory is refused. `clap` doesn't know that they do: whatever
/// it takes is then a request, or is answered here.
fn both_asked(alloc: Global) -> WordsError
    ensures { IsBothReported result }
{
    match HelpText::of_both(alloc) {
        Ok(help) => WordsError::Refused(help),
        Err(_) => WordsError::OutOfMemory,
    }
}

/// Which objects are meant, of those that are stale.
fn scope(matches: &ArgMatches<'_>) -> BackdateScope
    ensures { result ≡ scope_of (rows_of (found_of matches.now)) }
{
    chosen(
        matches,
        "unrecorded",
        BackdateScope::Unrecorded,
        BackdateScope::Recorded,
    )
}

/// The request of the command `name` with these matches, where `clap` let that name through.
fn request_named(alloc: Global, name: &str, matches: &ArgMatches<'_>) -> Result<Request, AllocError>
    requires request { name.now ≢ codes "explain" }
    requires one { name.now ≡ codes "sync" → asks_both (rows_of (found_of matches.now)) ≡ false }
    ensures { IfOk result (IsRequestOf name.now (rows_of (found_of matches.now))) }
{
    match name {
        "sync" => sync_request(alloc, matches),
        "preview" => preview_request(alloc, matches),
        "diff" => diff_request(alloc, matches),
        "status" => status_request(alloc, matches),
        "fixdep" => fixdep_request(alloc, matches),
        "record" => record_request(alloc, matches),
        "depfile" => depfile_request(alloc, matches),
        "repair" => repair_request(alloc, matches),
        "outdated" => outdated_request(alloc, matches),
        "batch" => Ok(Request::Batch {
            script: arg(alloc, matches, "SCRIPT")?,
        }),
        "why" => Ok(Request::Why {
            targets: targets(alloc, matches)?,
            format: format(matches),
        }),
        "impact" => impact_request(alloc, matches),
        "backdate" | "age" => Ok(Request::Backdate {
            which: scope(matches),
            targets: targets(alloc, matches)?,
        }),
        "mark" => Ok(Request::Mark {
            which: scope(matches),
            targets: targets(alloc, matches)?,
        }),
        "users" => users_request(alloc, matches),
        "cost" => cost_request(alloc, matches),
        _ => Ok(Request::Stale {
            targets: targets(alloc, matches)?,
            format: format(matches),
        }),
    }
}

/// What the command `name` with these matches asks for: a request, or in its place the page of an error, or two options that
/// exclude each other.
#[tactic(auto, using(crate::proofs::ArgLemmas::page_named, crate::proofs::ArgLemmas::page_report_style, crate::proofs::ArgLemmas::both_named, crate::proofs::ArgLemmas::both_report_style))]
fn asked(alloc: Global, name: &str, matches: &ArgMatches<'_>) -> Result<Request, WordsError>
    ensures made { IfOk result (IsRequestOf name.now (rows_of (found_of matches.now))) }
    ensures page { IfErr result (IsPageNamed name.now (rows_of (found_of matches.now))) }
    ensures report_style { IfErr result HasText }
{
    if name == "explain" {
        return Err(page_asked(alloc, matches));
    }
    if name == "sync" && asks_both(matches) {
        return Err(both_asked(alloc));
    }
    Ok(request_named(alloc, name, matches)?)
}

/// The request that the arguments make. One that begins with `-` is taken after `--`.
pub fn request_of<'a>(alloc: Global, args: &'a [&'a str]) -> Result<Request, WordsError>
    ensures exact { IfOk result (λ r. Makes (texts args.entry.now) r) }
    ensures taken { IfErr result (λ e. takes command_line_app (texts args.entry.now) ≡ true → IsTakenAs (texts args.entry.now) e) }
    ensures fault { IfErr result (IsReason (texts args.entry.now)) }
    ensures report_style { IfErr result HasText }
    ensures batch { IfOk result (λ r. (p : List ℕ) → texts args.entry.now ≡ codes "batch" ∷ p ∷ []
        → IsPlainArg p → IsBatchOf p r) }
    ensures preview { IfOk result (λ r. (k d : List ℕ)
        → texts args.entry.now ≡ codes "preview" ∷ k ∷ d ∷ []
        → IsPlainArg k → IsPlainArg d → IsPreviewOf ConfigForm.Kconfig k d None r) }
{
    let command = command_line(alloc)?;
    let matches = match command.try_get_matches_from(args) {
        Ok(matches) => matches,
        Err(error) => return Err(refused(alloc, &error)),
    };
    match matches.subcommand() {
        Some((name, inner)) => asked(alloc, name, inner),
        // `clap` refuses arguments without a command itself.
        None => unreachable!(),
    }
}
