//! The program `confstamp`: a command line over the current directory, or that of `-C`, and the standard streams.
#![tactic(auto)]

ghost use Rattle.std.specs.Prelude.{◌≡◌, IfOk};
ghost use Rattle.confstamp.specs.Starts.{stop_status};

mod directory_lock;
mod host;
mod lost_numbers;
mod spent;
mod standard;

use host::OwnHost;
use ks_cli::{WordsError, request_of};
use ks_commands::execute;
use ks_errors::{DEVICE, KnownError, OUT_OF_MEMORY, Row};
use ks_requests::Request;
use ks_session::{
    ArgError, CommandArgs, Loss, Ready, Settings, Stop, enter_directory, parse_global_options,
};
use ks_streams::Stream;
use ks_symbols::Dialect;
use ks_system::{System, SystemTree, reason_of};
use spent::remove_spent;
use standard::{Standard, exit_status};
use std::alloc::{AllocError, Global};
use std::fs::TryLockError;
use std::io::ErrorKind;
use std::process::ExitCode;
use std::{env, io};

/// The exit status of what was refused.
const REFUSED: u8 = 2;

/// That of numbers that would be lost: EX_DATAERR of sysexits.
const NUMBERS_LOST: u8 = 65;

/// That of a command that another program is in the way of: EX_TEMPFAIL of sysexits.
const TRY_AGAIN: u8 = 75;

/// What is said of numbers where auto.conf has no generation, and what to do.
const NO_GENERATION: &str =
    "and auto.conf has no generation: another tool wrote it, or it was removed\n\
    hint: remove include/config and all command files (make clean) and build anew, or let numbers begin again: confstamp --begin";

/// What is said where another program is at work, and what to do.
const BUSY: &str = "confstamp: another confstamp is at work in this directory\n\
    hint: wait, and repeat the command; or let confstamp --wait SECONDS do so";

/// What is printed of options in front of a command that are wrong.
fn text_of(fault: ArgError) -> &'static str {
    match fault {
        ArgError::NoDirectory => "-C: a directory is needed after it",
        ArgError::NoDialect => "--dialect: linux, u-boot, busybox or coreboot is needed after it",
        ArgError::NoSeconds => "--wait: a number of seconds is needed after it",
    }
}

/// The texts of the arguments.
fn texts_of(alloc: Global, args: &[String]) -> Result<Vec<&str>, AllocError> {
    let mut texts = Vec::with_capacity(alloc, args.len())?;
    for arg in args {
        texts.push(arg.as_str())?;
    }
    Ok(texts)
}

/// Prints what to do about an error.
fn print_hint(rt: &HostRuntime, row: &Row) {
    let error = KnownError::of(row);
    let _ = eprintln!(rt;
        "hint: {} (confstamp explain {})",
        error.advice, error.number
    );
}

/// Prints that the directory of `-C` is not to be had, and why.
fn print_no_directory(
    rt: &HostRuntime,
    directory: &str,
    error: &io::Error,
) -> Result<(), AllocError> {
    if error.kind() == ErrorKind::NotFound {
        let _ = eprintln!(rt; "confstamp: -C: {directory}: No such directory");
        return Ok(());
    }
    let reason = reason_of(rt.alloc(), error)?;
    let _ = eprintln!(rt; "confstamp: -C: {directory}: {reason}");
    Ok(())
}

/// Prints that nobody knows whether another program is at work in the directory, and why.
fn print_no_lock(rt: &HostRuntime, directory: &str, error: &io::Error) -> Result<(), AllocError> {
    let directory = if directory.is_empty() { "." } else { directory };
    let reason = reason_of(rt.alloc(), error)?;
    let _ = eprintln!(rt; "confstamp: 30 Device\n  the lock on {directory}: {reason}");
    print_hint(rt, &DEVICE);
    Ok(())
}

/// Prints which numbers would be lost.
fn print_loss(rt: &HostRuntime, loss: Loss) {
    let _ = match loss {
        Loss::Number(path) => eprintln!(rt; "confstamp: {path} has a number, {NO_GENERATION}"),
        Loss::Unread(path) => {
            eprintln!(rt; "confstamp: {path}: it may hold numbers, {NO_GENERATION}")
        }
    };
}

/// Prints why a command doesn't run, and returns its exit status, by which a script knows what may be tried again from what has to be
/// mended. These statuses stay.
fn print_stop(rt: &HostRuntime, directory: &str, stop: Stop) -> Result<u8, AllocError>
    ensures { IfOk result (λ status. status ≡ stop_status stop) }
{
    match stop {
        Stop::NoDirectory(error) => {
            print_no_directory(rt, directory, &error)?;
            Ok(REFUSED)
        }
        Stop::NoSeed => {
            let _ = eprintln!(rt; "confstamp: 30 Device\n  the system gives no random number");
            print_hint(rt, &DEVICE);
            Ok(REFUSED)
        }
        Stop::NoLock(TryLockError::WouldBlock) => {
            let _ = eprintln!(rt; "{BUSY}");
            Ok(TRY_AGAIN)
        }
        Stop::NoLock(TryLockError::Error(error)) => {
            print_no_lock(rt, directory, &error)?;
            Ok(REFUSED)
        }
        Stop::Lost(loss) => {
            print_loss(rt, loss);
            Ok(NUMBERS_LOST)
        }
        Stop::OutOfMemory => Err(AllocError),
    }
}

/// Removes what a command with this status leaves to be removed, or says why not. The status is that of all.
fn clear_away<S: System + Drop>(
    rt: &HostRuntime,
    tree: &mut SystemTree<S>,
    status: u8,
    asked: &Result<Request, WordsError>,
) -> u8 {
    match remove_spent(rt.alloc(), tree, status, asked) {
        Ok(()) => status,
        Err(fault) => {
            let _ = eprintln!(rt; "confstamp: {fault}");
            2
        }
    }
}

/// Runs the command over a tree and the standard streams.
fn perform<S: System + Drop>(
    rt: &HostRuntime,
    tree: &mut SystemTree<S>,
    dialect: Dialect,
    asked: &Result<Request, WordsError>,
) -> u8 {
    let mut out = Stream::new(Standard::new(rt.stdout()));
    let mut err = Stream::new(Standard::new(rt.stderr()));
    let failures = tree.failures();
    let done = execute(rt.alloc(), tree, dialect, asked, &mut out, &mut err);
    let status = clear_away(rt, tree, done, asked);
    if status == 2 && tree.failures() > failures {
        print_failure(rt, tree);
    }
    exit_status(&out, status)
}

/// Runs the command over a tree, as long as its lock is had.
fn perform_locked<S: System + Drop, L: Drop>(
    rt: &HostRuntime,
    ready: Ready<SystemTree<S>, L>,
    asked: &Result<Request, WordsError>,
) -> u8 {
    // The lock stands first, so that it is let go last.
    let Ready {
        lock: _lock,
        work_tree: mut tree,
        dialect,
    } = ready;
    perform(rt, &mut tree, dialect, asked)
}

/// Runs the command in the directory that stands in front of it, or prints why it did not.
fn run_in_directory(
    rt: &HostRuntime,
    settings: &Settings,
    asked: &Result<Request, WordsError>,
) -> Result<u8, AllocError> {
    let host = OwnHost::new(rt);
    match enter_directory(&host, rt.alloc(), settings, asked) {
        Ok(ready) => Ok(perform_locked(rt, ready, asked)),
        Err(stop) => print_stop(rt, settings.directory.as_str(), stop),
    }
}

/// Runs the command that the arguments name, over the directory in front of it and the standard streams.
fn run_args(rt: &HostRuntime, args: &[&str]) -> Result<u8, AllocError> {
    match parse_global_options(rt.alloc(), args)? {
        Ok(CommandArgs { settings, args }) => {
            run_in_directory(rt, &settings, &request_of(rt.alloc(), args))
        }
        Err(fault) => {
            let _ = eprintln!(rt; "confstamp: {}", text_of(fault));
            Ok(2)
        }
    }
}

/// Runs the command of the program's own arguments.
fn run(rt: &HostRuntime) -> io::Result<u8> {
    let args: Vec<String> = env::args(rt)?.skip(1).collect(rt.alloc())?;
    let texts = texts_of(rt.alloc(), &args)?;
    Ok(run_args(rt, &texts)?)
}

/// Prints where the system failed last, why, and what to do, after all else. Where memory is refused for the reason it is left out.
fn print_failure<S: System + Drop>(rt: &HostRuntime, tree: &SystemTree<S>) {
    if let Some(fault) = tree.last_error() {
        if let Ok(reported) = fault.describe(rt.alloc()) {
            let _ = eprintln!(rt; "  {reported}");
        }
    }
    print_hint(rt, &DEVICE);
}

/// Prints that memory was refused before the command began.
fn print_no_memory(rt: &HostRuntime) {
    let _ = eprintln!(rt; "confstamp: 10 OutOfMemory");
    print_hint(rt, &OUT_OF_MEMORY);
}

/// Prints that an argument is no text.
fn print_no_text(rt: &HostRuntime) {
    let _ = eprintln!(rt; "confstamp: the arguments are not UTF-8 text");
}

/// Arguments that are no text, and want of memory for them, are reported as errors.
fn main(rt: HostRuntime) -> ExitCode {
    match run(&rt) {
        Ok(status) => ExitCode::from(status),
        Err(error) => {
            match error.kind() {
                ErrorKind::OutOfMemory => print_no_memory(&rt),
                _ => print_no_text(&rt),
            }
            ExitCode::from(REFUSED)
        }
    }
}
