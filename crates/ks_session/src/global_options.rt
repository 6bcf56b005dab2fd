//! What stands in front of the command: the directory that `-C DIR` names, whether numbers may begin again, which dialect the tree
//! has, and how long another program is waited for. It is taken off before the arguments are looked at as a command, so that what is
//! said of a command's arguments holds of those after it.
ghost use Rattle.std.specs.Prelude.{◌≡◌, ◌∷◌, codes, IfOk, OnOk, map, string_bytes};
ghost use Rattle.ks_session.specs.Directories.{dialect_named};
ghost use Rattle.ks_session.specs.GlobalOptions.{BeginsWith, ParsesGlobalOptions, nothing, stated, seen_option, seen_settings};

use crate::directory::below;
use ks_symbols::{Dialect, read_decimal};
use std::alloc::{AllocError, Global};

/// Why the options in front of a command are wrong.
#[derive(Clone, Copy)]
pub enum ArgError {
    /// A `-C` without a directory after it, or with an empty word.
    NoDirectory,
    /// A `--dialect` without one of the names after it.
    NoDialect,
    /// A `--wait` without a number after it.
    NoSeconds,
}

/// An option in front of a command.
#[derive(Clone, Copy)]
pub enum GlobalOption<'a> {
    Below(&'a str),
    Begin,
    In(Dialect),
    Wait(u64),
}

/// What arguments begin with.
#[derive(Clone, Copy)]
pub enum NextOption<'a> {
    /// An option, and how many arguments it has.
    Option(GlobalOption<'a>, usize),
    Faulty(ArgError),
    Command,
}

/// Where the program works, and how.
#[derive(Drop)]
pub struct Settings {
    /// The directory, as a path from the current one; the current one itself if it is empty.
    pub directory: String,
    /// Whether a synchronisation may begin its numbers at 1 though files hold some.
    pub may_begin: bool,
    /// In which sources and Kconfigs are read.
    pub dialect: Dialect,
    /// How long a program that is in the way is waited for.
    pub seconds: u64,
}

/// The arguments of a command, and what stood in front of it.
#[derive(Drop)]
pub struct CommandArgs<'a> {
    pub settings: Settings,
    pub args: &'a [&'a str],
}

/// The dialect of a name.
fn dialect_named(name: &str) -> Option<Dialect>
    ensures { result ≡ dialect_named name.now }
{
    match name {
        "linux" => Some(Dialect::Linux),
        "u-boot" => Some(Dialect::UBoot),
        "busybox" => Some(Dialect::BusyBox),
        "coreboot" => Some(Dialect::Coreboot),
        _ => None,
    }
}

/// The option `-C`, by the arguments after it.
fn directory_option<'a>(rest: &'a [&'a str]) -> NextOption<'a>
    ensures { BeginsWith (codes "-C" ∷ map (λ w. w.now) rest.entry.now) result }
{
    match rest.first() {
        Some(dir) if !dir.is_empty() => NextOption::Option(GlobalOption::Below(*dir), 2),
        _ => NextOption::Faulty(ArgError::NoDirectory),
    }
}

/// The option `--dialect`, by the arguments after it.
fn dialect_option<'a>(rest: &'a [&'a str]) -> NextOption<'a>
    ensures { BeginsWith (codes "--dialect" ∷ map (λ w. w.now) rest.entry.now) result }
{
    let Some(name) = rest.first() else {
        return NextOption::Faulty(ArgError::NoDialect);
    };
    match dialect_named(*name) {
        Some(dialect) => NextOption::Option(GlobalOption::In(dialect), 2),
        None => NextOption::Faulty(ArgError::NoDialect),
    }
}

/// The option `--wait`, by the arguments after it.
fn wait_option<'a>(rest: &'a [&'a str]) -> NextOption<'a>
    ensures { BeginsWith (codes "--wait" ∷ map (λ w. w.now) rest.entry.now) result }
{
    let Some(number) = rest.first() else {
        return NextOption::Faulty(ArgError::NoSeconds);
    };
    match read_decimal(number.as_bytes()) {
        Some(seconds) => NextOption::Option(GlobalOption::Wait(seconds), 2),
        None => NextOption::Faulty(ArgError::NoSeconds),
    }
}

/// What the arguments begin with.
fn first_option<'a>(args: &'a [&'a str]) -> NextOption<'a>
    ensures { BeginsWith (map (λ w. w.now) args.entry.now) result }
{
    let Some((arg, rest)) = args.split_first() else {
        return NextOption::Command;
    };
    match *arg {
        "-C" => directory_option(rest),
        "--begin" => NextOption::Option(GlobalOption::Begin, 1),
        "--dialect" => dialect_option(rest),
        "--wait" => wait_option(rest),
        _ => NextOption::Command,
    }
}

impl Settings {
    /// What holds without any option.
    fn new(alloc: Global) -> Settings
        ensures { seen_settings result ≡ nothing }
    {
        Settings {
            directory: String::new(alloc),
            may_begin: false,
            dialect: Dialect::Linux,
            seconds: 0,
        }
    }

    /// Takes over what an option says. Each directory is taken below the one before, as make and git do.
    fn take_over(&mut self, alloc: Global, option: GlobalOption<'_>) -> Result<(), AllocError>
        ensures { OnOk result (seen_settings self.new ≡ stated (seen_settings self.old) (seen_option option.entry)) }
    {
        match option {
            GlobalOption::Below(dir) => self.directory = below(
                alloc,
                self.directory.as_str(),
                dir,
            )?,
            GlobalOption::Begin => self.may_begin = true,
            GlobalOption::In(dialect) => self.dialect = dialect,
            GlobalOption::Wait(seconds) => self.seconds = seconds,
        }
        Ok(())
    }
}

/// What the arguments say in front of the command, or why that is wrong.
pub fn parse_global_options<'a>(
    alloc: Global,
    args: &'a [&'a str],
) -> Result<Result<CommandArgs<'a>, ArgError>, AllocError>
    ensures { IfOk result (ParsesGlobalOptions (map (λ w. w.now) args.entry.now)) }
{
    let mut settings = Settings::new(alloc);
    let mut at = 0;
    while at < args.len() {
        match first_option(&args[at..]) {
            NextOption::Option(option, count) => {
                settings.take_over(alloc, option)?;
                at += count;
            }
            NextOption::Faulty(fault) => return Ok(Err(fault)),
            NextOption::Command => break,
        }
    }
    let args = &args[at..];
    Ok(Ok(CommandArgs { settings, args }))
}
