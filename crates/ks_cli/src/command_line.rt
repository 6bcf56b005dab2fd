//! The command line of the program, as `clap` reads it: one level of subcommands.
ghost use Rattle.std.specs.Prelude.{◌≡◌, IfOk, false, map};
ghost use Rattle.clap.specs.Words.{app_of, rule_of};
ghost use Rattle.clap.specs.declared.builder.command.Command.TheViews.{out-Command};
ghost use Rattle.ks_cli.specs.CommandLine.{bare_app, command_line_app, usage_app, with_all, arg_rule};

use crate::usage::{
    ABOUT, AFTER_HELP, ASKING_USAGES, ArgUsage, NumArgs, USAGE, Usage, WRITING_USAGES,
};
use clap::{Arg, ArgAction, Command, value_parser};
use std::alloc::{AllocError, Global};

fn argument<'a>(alloc: Global, arg: &ArgUsage) -> Arg<'a>
    ensures rule { rule_of result ≡ arg_rule arg.now }
    ensures local { result.global ≡ false }
{
    let argument = Arg::new(alloc, arg.name).help(arg.help);
    match arg.num_args {
        NumArgs::Once => argument.required(true),
        NumArgs::AtMostOnce => argument,
        NumArgs::AnyNumber => argument.num_args(1..),
        NumArgs::Following(option) => argument.long(option),
        NumArgs::Flag => argument.long(arg.name).action(ArgAction::SetTrue),
        NumArgs::AtLeastOnce => argument.num_args(1..).required(true),
        NumArgs::OnceAfter(option) => argument.long(option).required(true),
        NumArgs::NumberAfter(option) => argument.long(option).value_parser(value_parser!(u64)),
        NumArgs::AnyAfter(option) => argument.long(option).num_args(1..),
    }
}

fn subcommand<'a>(alloc: Global, usage: &Usage) -> Result<Command<'a>, AllocError>
    ensures app { IfOk result (λ c. app_of c ≡ usage_app usage.now) }
    ensures local { IfOk result (λ c. (out-Command c).has_globals ≡ false) }
{
    let mut command = Command::new(alloc, usage.name)
        .about(usage.about)
        .after_help(usage.after_help);
    for arg in usage.args {
        command = command.arg(argument(alloc, arg))?;
    }
    if let Some(call) = usage.override_usage {
        command = command.override_usage(call);
    }
    Ok(command.arg_required_else_help(usage.needs_args))
}

/// The program without its commands.
fn bare_command<'a>(alloc: Global) -> Result<Command<'a>, AllocError>
    ensures { IfOk result (λ c. app_of c ≡ bare_app) }
{
    let named = Command::new(alloc, "confstamp").bin_name("confstamp")?;
    Ok(
        named
            .about(ABOUT)
            .override_usage(USAGE)
            .after_help(AFTER_HELP)
            .version("0.1.0")
            .no_binary_name(true)
            .subcommand_required(true),
    )
}

/// A command line with the commands of a table below it. The table is an argument, so that the loop's proof doesn't hold its text.
fn with_usages<'a>(
    alloc: Global,
    command: Command<'a>,
    usages: &[Usage],
) -> Result<Command<'a>, AllocError>
    ensures { IfOk result (λ c. app_of c ≡ with_all (app_of command.entry) (map usage_app usages.now)) }
{
    let mut command = command;
    for usage in usages {
        command = command.subcommand(subcommand(alloc, usage)?)?;
    }
    Ok(command)
}

/// The program's command line.
pub(crate) fn command_line<'a>(alloc: Global) -> Result<Command<'a>, AllocError>
    ensures { IfOk result (λ c. app_of c ≡ command_line_app) }
{
    let bare = bare_command(alloc)?;
    let writing = with_usages(alloc, bare, WRITING_USAGES)?;
    let all = with_usages(alloc, writing, ASKING_USAGES)?;
    Ok(all)
}
