//! Where a refusal points: which file it is about, the line or the token of it, and what stands there.
//!
//! The number of a line is of no use without the name of its file. What stands there is read again once the refusal is
//! printed, and is left out where the file has no such line or gives no answer: so it never takes the place of the refusal.
ghost use Rattle.std.specs.Prelude.{◌≡◌, ◌-◌, ℕ, List, Some, IfOk, IfSome, IsErrOf, map, option_map, slice_get, string_bytes};
ghost use Rattle.ks_symbols.specs.Lines.{lines};
ghost use Rattle.ks_tree.specs.Files.{IsTooLarge, content};
ghost use Rattle.ks_tree.specs.Frames.{Reads};
ghost use Rattle.ks_requests.specs.Sites.{config_site, depfile_site, excerpt, excerpt_at, excerpt_in, hidden_site, names_site, part_text, record_site, rule_site, script_site, site_of, source_site, status_site, visible, written_site};
ghost use Rattle.ks_requests.specs.declared.sites.Part.TheVariants.{Line};
ghost use Rattle.ks_requests.specs.Views.{seen_site};

use crate::refusal::Refusal;
use crate::request::{ConfigPaths, Request};
use bstr::ByteSlice;
use ks_engine::EngineError;
use ks_fixdep::token_at;
use ks_hidden::Hidden;
use ks_output::WrittenError;
use ks_symbols::SourceError;
use ks_tree::{Tree, TreeFault, auto_path};
use std::alloc::{AllocError, Global};

/// How many bytes of a line or a token are shown.
const SHOWN: usize = 120;

/// A part of a file.
#[derive(Clone, Copy)]
pub enum Part {
    /// The file as such: there is no place in it to point at.
    Whole,
    /// Counted from 1, as editors do.
    Line(u64),
    /// A token of a dependency file, counted from 1.
    Token(u64),
}

/// A place in a file: its path, as the arguments of the request have it, or that of auto.conf, and the part.
#[derive(Drop)]
pub struct Site<'a> {
    pub path: &'a [u8],
    pub part: Part,
}

fn at_line<'a>(path: &'a [u8], line: u64) -> Option<Site<'a>>
    ensures { option_map seen_site result ≡ Some (path.now, Line line) }
{
    let part = Part::Line(line);
    Some(Site { path, part })
}

/// The line of a Kconfig or a `.config`.
fn source_site<'a>(kconfig: &'a [u8], dotconfig: &'a [u8], error: &SourceError) -> Option<Site<'a>>
    ensures { option_map seen_site result ≡ source_site kconfig.now dotconfig.now error.now }
{
    match error {
        SourceError::NotBare(line)
        | SourceError::BadName(line)
        | SourceError::ModuleName(line)
        | SourceError::NoType(line)
        | SourceError::TypeClash(line)
        | SourceError::BadTitle(line) => at_line(kconfig, *line),
        SourceError::NotAConfigLine(line) | SourceError::BadValue(line) => at_line(
            dotconfig, *line,
        ),
        SourceError::TooLarge | SourceError::OutOfMemory => None,
    }
}

/// The line of the first of the two files that conf wrote, which counts its lines; a line of the header may have another number there.
fn written_site<'a>(auto: &'a [u8], header: &'a [u8], error: &WrittenError) -> Option<Site<'a>>
    ensures { option_map seen_site result ≡ written_site auto.now header.now error.now }
{
    match error {
        WrittenError::BadHeading => {
            let (path, part) = (auto, Part::Whole);
            Some(Site { path, part })
        }
        WrittenError::NotAnEntry(line)
        | WrittenError::ModuleSymbol(line)
        | WrittenError::Unexplained(line)
        | WrittenError::Undefined(line)
        | WrittenError::Twice(line) => at_line(auto, *line),
        WrittenError::Undeclared(_) => {
            let (path, part) = (header, Part::Whole);
            Some(Site { path, part })
        }
        WrittenError::TooLarge | WrittenError::OutOfMemory => None,
    }
}

/// The line of one of the two files of a configuration, or of the old auto.conf that may be named.
fn config_site<'a>(
    config: &'a ConfigPaths,
    auto: Option<&'a [u8]>,
    refusal: &Refusal,
) -> Option<Site<'a>>
    ensures { option_map seen_site result ≡ config_site config.now (option_map (λ p. p.now) auto.entry) refusal.now }
{
    let (first, second) = (config.first.as_bytes(), config.second.as_bytes());
    match refusal {
        Refusal::Engine(EngineError::Source(error)) => source_site(first, second, error),
        Refusal::Engine(EngineError::Written(error)) => written_site(first, second, error),
        Refusal::Engine(EngineError::BadAuto(line)) => at_line(auto?, *line),
        _ => None,
    }
}

/// The dependency file or a token of it.
fn depfile_site<'a>(depfile: &'a [u8], refusal: &Refusal) -> Option<Site<'a>>
    ensures { option_map seen_site result ≡ depfile_site depfile.now refusal.now }
{
    let path = depfile;
    match refusal {
        Refusal::Engine(EngineError::NoTarget) => {
            let part = Part::Whole;
            Some(Site { path, part })
        }
        Refusal::Engine(EngineError::BadPath(token)) => {
            if *token == 0 {
                return None;
            }
            let part = Part::Token(*token);
            Some(Site { path, part })
        }
        _ => None,
    }
}

/// The dependency file, or the line of auto.conf.
fn record_site<'a>(depfile: &'a [u8], refusal: &Refusal) -> Option<Site<'a>>
    ensures { option_map seen_site result ≡ record_site depfile.now refusal.now }
{
    match refusal {
        Refusal::Engine(EngineError::BadAuto(line)) => at_line(auto_path(), *line),
        _ => depfile_site(depfile, refusal),
    }
}

/// The line at which an object may depend on more than names.
fn hidden_site(hidden: &Hidden) -> Option<Site<'_>>
    ensures { option_map seen_site result ≡ hidden_site hidden.now }
{
    match hidden {
        Hidden::Input(path, line) | Hidden::Line(path, line) => at_line(path.as_bytes(), *line),
        Hidden::OtherHeader(_) | Hidden::Precompiled(_) => None,
        Hidden::MissingLine(_) | Hidden::Argument(_) => None,
    }
}

/// The line of what an object may depend on, or what a record points at.
fn rule_site<'a>(depfile: &'a [u8], refusal: &'a Refusal) -> Option<Site<'a>>
    ensures { option_map seen_site result ≡ rule_site depfile.now refusal.now }
{
    match refusal {
        Refusal::Hidden(hidden) => hidden_site(hidden),
        _ => record_site(depfile, refusal),
    }
}

/// The line of a script.
fn script_site<'a>(script: &'a [u8], refusal: &Refusal) -> Option<Site<'a>>
    ensures { option_map seen_site result ≡ script_site script.now refusal.now }
{
    match refusal {
        Refusal::BadScript(line) => at_line(script, *line),
        _ => None,
    }
}

/// The bytes of a path that may be named.
fn path_bytes(path: &Option<String>) -> Option<&[u8]>
    ensures { option_map (λ p. p.now) result ≡ option_map (λ p. string_bytes p) path.now }
{
    match path {
        Some(path) => Some(path.as_bytes()),
        None => None,
    }
}

/// The line of one of the files of a configuration, if one is named, or of auto.conf.
fn status_site<'a>(config: &'a Option<ConfigPaths>, refusal: &Refusal) -> Option<Site<'a>>
    ensures { option_map seen_site result ≡ status_site config.now refusal.now }
{
    if let Some(config) = config {
        return config_site(config, Some(auto_path()), refusal);
    }
    match refusal {
        Refusal::Engine(EngineError::BadAuto(line)) => at_line(auto_path(), *line),
        _ => None,
    }
}

/// The line of a list of names.
fn names_site<'a>(list: &'a [u8], refusal: &Refusal) -> Option<Site<'a>>
    ensures { option_map seen_site result ≡ names_site list.now refusal.now }
{
    match refusal {
        Refusal::Engine(EngineError::Source(SourceError::BadName(line))) => at_line(list, *line),
        _ => None,
    }
}

/// Which file a refusal of a request is about, where the refusal has no path of it, or a line beside it: `None` for a word, a missing file, memory,
/// the device, the output, and for questions about objects, whose refusals are lines of their own.
pub fn site_of<'a>(request: &'a Request, refusal: &'a Refusal) -> Option<Site<'a>>
    ensures { option_map seen_site result ≡ site_of request.now refusal.now }
{
    match request {
        Request::Sync { config, .. }
        | Request::Diff { config, .. }
        | Request::Impact { config, .. } => config_site(config, Some(auto_path()), refusal),
        Request::Preview { config, old } => config_site(config, path_bytes(old), refusal),
        Request::Status { config } => status_site(config, refusal),
        Request::Fixdep { depfile, .. } => depfile_site(depfile.as_bytes(), refusal),
        Request::Record { depfile, .. } => record_site(depfile.as_bytes(), refusal),
        Request::Depfile { depfile, .. } => rule_site(depfile.as_bytes(), refusal),
        Request::Batch { script } => script_site(script.as_bytes(), refusal),
        Request::Repair { stamps, .. } => names_site(stamps.as_bytes(), refusal),
        Request::Stale { .. }
        | Request::Why { .. }
        | Request::Backdate { .. }
        | Request::Mark { .. }
        | Request::Outdated { .. }
        | Request::Users { .. }
        | Request::Cost { .. } => None,
    }
}

/// The line of a number, counted from 1, where the text has so many.
fn line_at(text: &[u8], number: u64) -> Option<&[u8]>
    ensures { option_map (λ l. l.now) result ≡ slice_get (lines text.now) (number - 1) }
{
    text.lines().nth(number.saturating_sub(1) as usize)
}

/// A byte, unless a terminal could take it for a command.
fn visible(byte: u8) -> u8
    ensures { result ≡ visible byte }
{
    match byte {
        b'\t' => b' ',
        0..=31 | 127 => b'?',
        _ => byte,
    }
}

/// The beginning of a line or a token.
fn excerpt(alloc: Global, text: &[u8]) -> Result<Vec<u8>, AllocError>
    ensures { IfOk result (λ t. t.items ≡ excerpt text.now) }
{
    text.iter()
        .take(SHOWN)
        .map(|byte| visible(*byte))
        .collect(alloc)
}

/// The line or the token that a part of a text is, where there is such a part.
fn part_text(part: Part, text: &[u8]) -> Option<&[u8]>
    ensures { option_map (λ t. t.now) result ≡ part_text part text.now }
{
    match part {
        Part::Whole => None,
        Part::Line(number) => line_at(text, number),
        Part::Token(number) => token_at(text, number),
    }
}

/// What stands at a part of a text, where there is such a part.
fn excerpt_in(alloc: Global, part: Part, text: &[u8]) -> Result<Option<Vec<u8>>, AllocError>
    ensures { IfOk result (λ found. option_map (λ t. t.items) found ≡ excerpt_in part text.now) }
{
    match part_text(part, text) {
        Some(found) => Ok(Some(excerpt(alloc, found)?)),
        None => Ok(None),
    }
}

/// What stands at a site, where the file has such a part.
pub(crate) fn excerpt_at<T: Tree>(
    alloc: Global,
    tree: &mut T,
    site: &Site<'_>,
) -> Result<Option<Vec<u8>>, TreeFault>
    ensures reads { Reads T.Tree tree.old tree.new (IsErrOf result TreeFault.Device) }
    ensures there { T.is_honest → IfOk result (λ found. option_map (λ t. t.items) found ≡ excerpt_at (T.files tree.old) (seen_site site.now)) }
    ensures visible { IfOk result (λ found. IfSome found (λ t. (bytes : List ℕ) × (t.items ≡ excerpt bytes))) }
    ensures too_large { T.is_honest → IsErrOf result TreeFault.TooLarge → IsTooLarge (content (T.files tree.old) site.now.path.now) }
{
    if matches!(site.part, Part::Whole) {
        return Ok(None);
    }
    match tree.read(alloc, site.path)? {
        Some(text) => Ok(excerpt_in(alloc, site.part, &text)?),
        None => Ok(None),
    }
}
