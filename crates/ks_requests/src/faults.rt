//! The texts of refusals, which make the lines of refused targets and commands, and the one line on standard error.
//!
//! A text is a number, a name and the place. It is made without taking memory, so that want of memory is reported too.
ghost use Rattle.std.specs.Prelude.{◌≡◌, ◌++◌, OnOk, Some, codes};
ghost use Rattle.ks_errors.specs.Errors.{seen, texts_of, title_of};
ghost use Rattle.ks_requests.specs.Faults.{counted, fault_text, hidden_text, known_error, refusal_text, source_text, whole_text, written_text};

use crate::refusal::Refusal;
use itoa::Buffer;
use ks_engine::EngineError;
use ks_errors::{
    BAD_AUTO, BAD_COMMAND, BAD_COMMAND_FILE, BAD_HEADING, BAD_NAME, BAD_PATH, BAD_SCRIPT,
    BAD_STAMP, BAD_TITLE, BAD_VALUE, DEVICE, FOREIGN_LINE, GENERATION_FULL, HIDDEN_INPUT,
    KnownError, MISSING_FILE, MISSING_LINE, MODULE_NAME, MODULE_SYMBOL, NEVER_SYNCED, NO_TARGET,
    NO_TYPE, NOT_A_CONFIG_LINE, NOT_AN_ENTRY, NOT_BARE, OTHER_HEADER, OUT_OF_MEMORY, OUTPUT,
    PRECOMPILED, Row, TOO_LARGE, TWICE, TYPE_CLASH, UNDECLARED, UNDEFINED, UNEXPLAINED,
    UNKNOWN_ARGUMENT,
};
use ks_hidden::Hidden;
use ks_output::WrittenError;
use ks_symbols::SourceError;
use std::alloc::AllocError;

/// What stands after a name.
#[derive(Drop)]
pub(crate) enum FaultPlace<'a> {
    Nowhere,
    /// A line or a token.
    Numbered(u64),
    /// A path or the name of a symbol.
    Named(&'a [u8]),
}

/// The text of a refusal, before it is written.
#[derive(Drop)]
pub(crate) struct FaultText<'a> {
    pub(crate) error: KnownError,
    /// What stands between the name and the place.
    pub(crate) label: &'static str,
    pub(crate) place: FaultPlace<'a>,
}

fn plain<'a>(row: &Row) -> FaultText<'a>
    ensures text { whole_text result ≡ title_of (texts_of row.now) }
    ensures error { seen result.error ≡ texts_of row.now }
{
    FaultText {
        error: KnownError::of(row),
        label: "",
        place: FaultPlace::Nowhere,
    }
}

#[tactic(auto, unfolding(crate::specs::Faults::counted))]
fn numbered<'a>(row: &Row, label: &'static str, number: u64) -> FaultText<'a>
    ensures text { whole_text result ≡ counted (title_of (texts_of row.now) ++ label.now) number }
    ensures error { seen result.error ≡ texts_of row.now }
{
    FaultText {
        error: KnownError::of(row),
        label,
        place: FaultPlace::Numbered(number),
    }
}

fn named<'a>(row: &Row, bytes: &'a [u8]) -> FaultText<'a>
    ensures text { whole_text result ≡ title_of (texts_of row.now) ++ codes " " ++ bytes.now }
    ensures error { seen result.error ≡ texts_of row.now }
{
    FaultText {
        error: KnownError::of(row),
        label: " ",
        place: FaultPlace::Named(bytes),
    }
}

#[tactic(auto, unfolding(crate::specs::Faults::source_text))]
fn source_fault<'a>(error: &SourceError) -> FaultText<'a>
    ensures text { whole_text result ≡ source_text error.now }
    ensures error { known_error (source_text error.now) ≡ Some (seen result.error) }
{
    match error {
        SourceError::NotBare(line) => numbered(&NOT_BARE, " line ", *line),
        SourceError::BadName(line) => numbered(&BAD_NAME, " line ", *line),
        SourceError::ModuleName(line) => numbered(&MODULE_NAME, " line ", *line),
        SourceError::NoType(line) => numbered(&NO_TYPE, " line ", *line),
        SourceError::TypeClash(line) => numbered(&TYPE_CLASH, " line ", *line),
        SourceError::BadTitle(line) => numbered(&BAD_TITLE, " line ", *line),
        SourceError::NotAConfigLine(line) => numbered(&NOT_A_CONFIG_LINE, " line ", *line),
        SourceError::BadValue(line) => numbered(&BAD_VALUE, " line ", *line),
        SourceError::TooLarge => plain(&TOO_LARGE),
        SourceError::OutOfMemory => plain(&OUT_OF_MEMORY),
    }
}

#[tactic(auto, unfolding(crate::specs::Faults::written_text))]
fn written_fault<'a>(error: &WrittenError) -> FaultText<'a>
    ensures text { whole_text result ≡ written_text error.now }
    ensures error { known_error (written_text error.now) ≡ Some (seen result.error) }
{
    match error {
        WrittenError::TooLarge => plain(&TOO_LARGE),
        WrittenError::OutOfMemory => plain(&OUT_OF_MEMORY),
        WrittenError::BadHeading => plain(&BAD_HEADING),
        WrittenError::NotAnEntry(line) => numbered(&NOT_AN_ENTRY, " line ", *line),
        WrittenError::ModuleSymbol(line) => numbered(&MODULE_SYMBOL, " line ", *line),
        WrittenError::Unexplained(line) => numbered(&UNEXPLAINED, " line ", *line),
        WrittenError::Undefined(line) => numbered(&UNDEFINED, " line ", *line),
        WrittenError::Undeclared(line) => numbered(&UNDECLARED, " line ", *line),
        WrittenError::Twice(line) => numbered(&TWICE, " line ", *line),
    }
}

/// The text of a refusal of the engine, of its parts, or of a word or a file.
#[tactic(auto, unfolding(crate::specs::Faults::fault_text))]
fn engine_fault(error: &EngineError) -> FaultText<'_>
    ensures text { whole_text result ≡ fault_text error.now }
    ensures error { known_error (fault_text error.now) ≡ Some (seen result.error) }
{
    match error {
        EngineError::Source(error) => source_fault(error),
        EngineError::Written(error) => written_fault(error),
        EngineError::TooLarge => plain(&TOO_LARGE),
        EngineError::OutOfMemory => plain(&OUT_OF_MEMORY),
        EngineError::BadAuto(line) => numbered(&BAD_AUTO, " line ", *line),
        EngineError::NoTarget => plain(&NO_TARGET),
        EngineError::BadPath(token) => numbered(&BAD_PATH, " token ", *token),
        EngineError::BadCommand => plain(&BAD_COMMAND),
        EngineError::BadCommandFile(line) => numbered(&BAD_COMMAND_FILE, " line ", *line),
        EngineError::Device => plain(&DEVICE),
        EngineError::BadStamp(name) => named(&BAD_STAMP, name.as_bytes()),
        EngineError::MissingFile(path) => named(&MISSING_FILE, path.as_bytes()),
        EngineError::NeverSynced => plain(&NEVER_SYNCED),
        EngineError::GenerationFull => plain(&GENERATION_FULL),
    }
}

/// The text of what an object may depend on beside names.
#[tactic(auto, unfolding(crate::specs::Faults::hidden_text))]
fn hidden_fault(hidden: &Hidden) -> FaultText<'_>
    ensures text { whole_text result ≡ hidden_text hidden.now }
    ensures error { known_error (hidden_text hidden.now) ≡ Some (seen result.error) }
{
    match hidden {
        Hidden::Input(path, _) => named(&HIDDEN_INPUT, path.as_bytes()),
        Hidden::Line(path, _) => named(&FOREIGN_LINE, path.as_bytes()),
        Hidden::OtherHeader(path) => named(&OTHER_HEADER, path.as_bytes()),
        Hidden::Precompiled(path) => named(&PRECOMPILED, path.as_bytes()),
        Hidden::MissingLine(path) => named(&MISSING_LINE, path.as_bytes()),
        Hidden::Argument(word) => numbered(&UNKNOWN_ARGUMENT, " word ", *word),
    }
}

/// The text of a refusal of a whole command.
#[tactic(auto, unfolding(crate::specs::Faults::refusal_text))]
pub(crate) fn refusal_fault(refusal: &Refusal) -> FaultText<'_>
    ensures text { whole_text result ≡ refusal_text refusal.now }
    ensures error { known_error (refusal_text refusal.now) ≡ Some (seen result.error) }
{
    match refusal {
        Refusal::Engine(error) => engine_fault(error),
        Refusal::Hidden(hidden) => hidden_fault(hidden),
        Refusal::BadScript(line) => numbered(&BAD_SCRIPT, " line ", *line),
        Refusal::Output => plain(&OUTPUT),
    }
}

/// Appends the text of a refused target or command.
pub(crate) fn write_fault(error: &EngineError, text: &mut Vec<u8>) -> Result<(), AllocError>
    ensures { OnOk result (text.new.items ≡ text.old.items ++ fault_text error.now) }
{
    let fault = engine_fault(error);
    text.extend_from_slice(fault.error.number.as_bytes())?;
    text.extend_from_slice(b" ")?;
    text.extend_from_slice(fault.error.name.as_bytes())?;
    text.extend_from_slice(fault.label.as_bytes())?;
    match fault.place {
        FaultPlace::Nowhere => Ok(()),
        FaultPlace::Numbered(number) => {
            text.extend_from_slice(Buffer::new().format(number).as_bytes())
        }
        FaultPlace::Named(bytes) => text.extend_from_slice(bytes),
    }
}
