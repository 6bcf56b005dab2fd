//! What is printed where the arguments are no request: help, the version, the page of an error, or which argument is a mistake.
//!
//! The text is made with the request, or in its place: who prints it asks for no memory, so a mistake is never reported as want of it.
ghost use Rattle.std.specs.Prelude.{◌≡◌, IfOk, false, string_bytes, true};
ghost use Rattle.clap.specs.Words.{kind_of};
ghost use Rattle.ks_streams.specs.Streams.{state_of};
ghost use Rattle.ks_cli.specs.Meaning.{IsPageOf, IsHelp, both_text};
ghost use Rattle.ks_cli.specs.Args.{is_help, is_visible};

use clap::error::ErrorKind;
use ks_errors::{error_of, known_errors, page_of};
use ks_requests::{Refusal, refuse};
use ks_streams::{Stream, Writer};
use std::alloc::{AllocError, Global};
use std::fmt;

/// What is said where `clap` says nothing.
const NO_COMMAND: &str = "error: these arguments are no command\n";

/// What is said of `sync` with both, as `clap` would say it.
const BOTH: &str =
    "error: the argument '--stamps' cannot be used with '--written'\n\nUsage: confstamp sync [--stamps | --written] <KCONFIG> <DOTCONFIG>\n\nFor more information, try '--help'.\n";

/// A text in place of a request, and of which kind it is.
#[derive(Debug, Drop)]
pub struct HelpText {
    kind: ErrorKind,
    text: String,
}

/// Whether there is something to see in a text.
fn is_visible(text: &str) -> bool
    ensures { result ≡ is_visible text.now }
{
    text.as_bytes().iter().any(|byte| *byte > b' ')
}

impl HelpText {
    /// What `clap` says.
    pub(crate) fn of(alloc: Global, error: &clap::Error) -> Result<HelpText, AllocError>
        ensures kind { IfOk result (λ help. help.kind ≡ kind_of error.now) }
        ensures text { IfOk result (λ help. is_visible (string_bytes help.text) ≡ true) }
    {
        let kind = error.kind();
        let text = error.to_string(alloc)?;
        if is_visible(text.as_str()) {
            return Ok(HelpText { kind, text });
        }
        let text = String::from_str(alloc, NO_COMMAND)?;
        Ok(HelpText { kind, text })
    }

    /// The page of the error of this number or name; of any other text, the list of errors.
    pub(crate) fn of_error(alloc: Global, arg: &str) -> Result<HelpText, AllocError>
        ensures page { IfOk result (IsPageOf arg.now) }
        ensures text { IfOk result (λ help. is_visible (string_bytes help.text) ≡ true) }
    {
        match error_of(arg) {
            Some(error) => Ok(HelpText {
                kind: ErrorKind::DisplayHelp,
                text: page_of(alloc, &error)?,
            }),
            None => Ok(HelpText {
                kind: ErrorKind::InvalidValue,
                text: known_errors(alloc)?,
            }),
        }
    }

    /// That `--stamps` and `--written` exclude each other.
    #[tactic(auto, unfolding(crate::specs::Meaning::both_text))]
    pub(crate) fn of_both(alloc: Global) -> Result<HelpText, AllocError>
        ensures both { IfOk result (λ help. (is_help help.kind ≡ false) × (string_bytes help.text ≡ both_text)) }
        ensures text { IfOk result (λ help. is_visible (string_bytes help.text) ≡ true) }
    {
        Ok(HelpText {
            kind: ErrorKind::ArgumentConflict,
            text: String::from_str(alloc, BOTH)?,
        })
    }

    /// Whether it is help or the version, and no mistake.
    fn is_help(&self) -> bool
        ensures { result ≡ is_help self.now.kind }
    {
        matches!(
            self.kind,
            ErrorKind::DisplayHelp | ErrorKind::DisplayVersion
        )
    }
}

impl fmt::Display for HelpText {
    fn fmt<W: fmt::Write>(&self, f: &mut fmt::Formatter<W>) -> fmt::Result {
        f.write_str(self.text.as_str())
    }
}

/// Prints what is said in place of a request: help, the version and the page of an error to the output, status 0, and a mistake in the arguments to
/// standard error, status 2. Where the output fails that is refused, and the status is 2.
pub fn print_help<W: Writer, E: Writer>(
    help: &HelpText,
    out: &mut Stream<W>,
    err: &mut Stream<E>,
) -> u8
    ensures { IsHelp help.now (state_of W.Writer out.old) (state_of W.Writer out.new) (state_of E.Writer err.old) (state_of E.Writer err.new) result }
{
    if !help.is_help() {
        let _ = err.print(&[help.text.as_bytes()]);
        return 2;
    }
    if out.print(&[help.text.as_bytes()]) {
        0
    } else {
        refuse(err, &Refusal::Output)
    }
}
