//! The program over any tree and any two writers: what its arguments ask for in, its status out. The arguments are taken as a request
//! once, by `request_of` of ks_words, so that what is looked at before the command runs is what runs.
//!
//! The whole text of a command is there before its first byte is written. A command that is refused as a whole writes nothing
//! to the output, and a line to standard error, with a second one where there is a file to point at.
ghost use Rattle.std.specs.Prelude.{Err, List};
ghost use Rattle.clap.specs.Words.{Text};
ghost use Rattle.ks_streams.specs.Streams.{state_of};
ghost use Rattle.ks_commands.specs.Dispatch.{Executes, IsAskedBy, Refuses};

use crate::dispatch::outcome;
use ks_cli::{WordsError, print_help};
use ks_engine::EngineError;
use ks_requests::{Refusal, Request, print, refuse, refuse_at, site_of};
use ks_streams::{Stream, Writer};
use ks_symbols::Dialect;
use ks_tree::Backdating;
use std::alloc::Global;

/// Prints why arguments make no request.
fn report_why<W: Writer, E: Writer>(
    error: &WordsError,
    out: &mut Stream<W>,
    err: &mut Stream<E>,
) -> u8
    ensures { (args : List Text) → IsAskedBy args (Err error.now) → Refuses args error.now
        (state_of W.Writer out.old) (state_of W.Writer out.new) (state_of E.Writer err.old) (state_of E.Writer err.new) result }
{
    match error {
        WordsError::Refused(printed) => print_help(printed, out, err),
        WordsError::OutOfMemory => refuse(err, &Refusal::Engine(EngineError::OutOfMemory)),
    }
}

/// Runs the command that the arguments ask for, and answers the exit status: 0 done and nothing stale,
/// 1 something stale or built by another command, 2 something refused. Sources and Kconfigs are read in the dialect.
pub fn execute<T: Backdating, W: Writer, E: Writer>(
    alloc: Global,
    tree: &mut T,
    dialect: Dialect,
    asked: &Result<Request, WordsError>,
    out: &mut Stream<W>,
    err: &mut Stream<E>,
) -> u8
    // Their request was performed; or they make none, and the tree is as before.
    ensures { Executes T.Tree dialect asked.now tree.old tree.new
        (state_of W.Writer out.old) (state_of W.Writer out.new) (state_of E.Writer err.old) (state_of E.Writer err.new) result }
{
    let request = match asked {
        Ok(request) => request,
        Err(error) => return report_why(error, out, err),
    };
    match outcome(alloc, tree, dialect, request) {
        Ok(outcome) => print(&outcome, out, err),
        Err(refusal) => match site_of(request, &refusal) {
            Some(site) => refuse_at(alloc, tree, &site, &refusal, err),
            None => refuse(err, &refusal),
        },
    }
}
