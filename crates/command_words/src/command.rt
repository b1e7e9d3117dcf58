//! The commands, as the parser of command lines is told them.
ghost use Rattle.std.specs.Prelude.{◌≡◌, IfErr, IfOk, false, map};
ghost use Rattle.std.specs.String.{string_bytes};
ghost use Rattle.clap.specs.Words.{FailsBy, app_of, fault_of, kind_of, rule_of, subcommand_of, subcommand_rows_of};
ghost use Rattle.clap.specs.declared.builder.command.Command.TheViews.{out-Command};
ghost use Rattle.clap.specs.declared.error.kind.ErrorKind.TheVariants.{OutOfMemory};
ghost use Rattle.command_words.specs.Commands.{logix, option_rule, run, show};
ghost use Rattle.command_words.specs.Orders.{Parses, fault_by};

use crate::{RunLimit, RunOption, WordFault};
use clap::error::ErrorKind;
use clap::{Arg, ArgMatches, Command, Error};
use std::alloc::Global;

/// What the words of a call match, which are those behind the program's name.
pub fn parse<'a>(alloc: Global, words: &'a [String]) -> Result<ArgMatches<'a>, WordFault>
    ensures { Parses (map string_bytes words.entry.now) result }
{
    match matches(alloc, words) {
        Ok(matches) => Ok(matches),
        Err(error) => Err(fault(&error)),
    }
}

/// The fault that an error of the parser is.
fn fault(error: &Error) -> WordFault
    ensures { result ≡ fault_by (kind_of error.now) }
{
    match error.kind() {
        ErrorKind::OutOfMemory => WordFault::NoMemory,
        _ => WordFault::Usage,
    }
}

/// What the parser makes of the words.
fn matches<'a>(alloc: Global, words: &'a [String]) -> Result<ArgMatches<'a>, Error>
    ensures found { IfOk result (λ m. subcommand_rows_of m ≡ subcommand_of logix (map string_bytes words.entry.now)) }
    ensures kinds { FailsBy (fault_of logix (map string_bytes words.entry.now)) result }
{
    logix(alloc)?.try_get_matches_from(words)
}

/// The two commands. There is no word for help.
fn logix<'a>(alloc: Global) -> Result<Command<'a>, Error>
    ensures shape { IfOk result (λ c. app_of c ≡ logix) }
    ensures memory { IfErr result (λ e. kind_of e ≡ OutOfMemory) }
{
    let command = Command::new(alloc, "logix")
        .no_binary_name(true)
        .disable_help_flag(true)
        .disable_help_subcommand(true)
        .subcommand(run(alloc)?)?
        .subcommand(show(alloc)?)?;
    Ok(command)
}

/// `run FILE GOAL`, with its options.
fn run<'a>(alloc: Global) -> Result<Command<'a>, Error>
    ensures shape { IfOk result (λ c. app_of c ≡ run) }
    ensures local { IfOk result (λ c. (out-Command c).has_globals ≡ false) }
    ensures memory { IfErr result (λ e. kind_of e ≡ OutOfMemory) }
{
    let command = Command::new(alloc, "run")
        .arg(Arg::new(alloc, "file"))?
        .arg(Arg::new(alloc, "goal"))?
        .arg(option(alloc, RunOption::Limit(RunLimit::Commits)))?
        .arg(option(alloc, RunOption::Limit(RunLimit::Moves)))?
        .arg(option(alloc, RunOption::Limit(RunLimit::Cells)))?
        .arg(option(alloc, RunOption::Control))?;
    Ok(command)
}

/// An option, with one value.
fn option<'a>(alloc: Global, option: RunOption) -> Arg<'a>
    ensures rule { rule_of result ≡ option_rule option }
    ensures local { result.global ≡ false }
{
    let name: &'a str = option.name();
    Arg::new(alloc, name).long(name)
}

/// `show FILE`.
fn show<'a>(alloc: Global) -> Result<Command<'a>, Error>
    ensures shape { IfOk result (λ c. app_of c ≡ show) }
    ensures local { IfOk result (λ c. (out-Command c).has_globals ≡ false) }
    ensures memory { IfErr result (λ e. kind_of e ≡ OutOfMemory) }
{
    let command = Command::new(alloc, "show").arg(Arg::new(alloc, "file"))?;
    Ok(command)
}
