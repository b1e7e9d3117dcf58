//! What the parser's matches ask for.
ghost use Rattle.std.specs.Prelude.{◌≡◌, option_map};
ghost use Rattle.clap.specs.Words.{first_of, found_of, rows_of, subcommand_rows_of};
ghost use Rattle.command_words.specs.Orders as spec;
ghost use Rattle.command_words.specs.Readings.{is_value};

use crate::{Order, RunLimit, RunOption, WordFault};
use clap::ArgMatches;
use fcp_model::{Limits, Text};
use std::alloc::Global;
use word_numbers::number_of;

/// The most digits of a number.
const MOST_DIGITS: usize = 8;

/// The order that the matches of a call ask for.
pub fn order_in(alloc: Global, matches: &ArgMatches<'_>) -> Result<Order, WordFault>
    ensures { spec.Answers (spec.order_in (subcommand_rows_of matches.now)) result }
{
    if let Some(run) = matches.subcommand_matches("run") {
        run_in(alloc, run)
    } else if let Some(show) = matches.subcommand_matches("show") {
        show_in(alloc, show)
    } else {
        Err(WordFault::Usage)
    }
}

/// The run that the matches behind `run` ask for.
fn run_in(alloc: Global, matches: &ArgMatches<'_>) -> Result<Order, WordFault>
    ensures { spec.Answers (spec.run_in (rows_of (found_of matches.now))) result }
{
    let file = word(matches, "file");
    let goal = word(matches, "goal");
    match (file, goal, limits_in(matches)) {
        (Some(file), Some(goal), Some(limits)) => {
            let control = control_in(alloc, matches)?;
            Ok(Order::Run {
                file: Text::make(alloc, file)?,
                goal: Text::make(alloc, goal)?,
                limits,
                control,
            })
        }
        _ => Err(WordFault::Usage),
    }
}

/// The order to show a file that the matches behind `show` ask for.
fn show_in(alloc: Global, matches: &ArgMatches<'_>) -> Result<Order, WordFault>
    ensures { spec.Answers (spec.show_in (rows_of (found_of matches.now))) result }
{
    match word(matches, "file") {
        Some(file) => Ok(Order::Show {
            file: Text::make(alloc, file)?,
        }),
        None => Err(WordFault::Usage),
    }
}

/// The limits of a run, or `None` where a value is no number in its range.
fn limits_in(matches: &ArgMatches<'_>) -> Option<Limits>
    ensures { result ≡ spec.limits_in (rows_of (found_of matches.now)) }
{
    Some(Limits {
        commits: number_in(matches, RunLimit::Commits)?,
        moves: number_in(matches, RunLimit::Moves)?,
        cells: number_in(matches, RunLimit::Cells)?,
    })
}

/// The number of a limit, or `None` where its value is no number in its range.
fn number_in(matches: &ArgMatches<'_>, limit: RunLimit) -> Option<u32>
    ensures { result ≡ spec.number_in limit (rows_of (found_of matches.now)) }
{
    match word(matches, RunOption::Limit(limit).name()) {
        Some(digits) => number_of(digits.as_bytes(), MOST_DIGITS, limit.most()),
        None => Some(limit.default_number()),
    }
}

/// The control text, if one is given. A value that is empty or begins with `-` is a usage fault.
fn control_in(alloc: Global, matches: &ArgMatches<'_>) -> Result<Option<Text>, WordFault>
    ensures { spec.Answers (spec.control_in (rows_of (found_of matches.now))) result }
{
    match word(matches, RunOption::Control.name()) {
        None => Ok(None),
        Some(text) if is_value(text.as_bytes()) => Ok(Some(Text::make(alloc, text)?)),
        Some(_) => Err(WordFault::Usage),
    }
}

/// Whether a value is not empty and no `-` stands in front.
fn is_value(value: &[u8]) -> bool
    ensures { result ≡ is_value value.now }
{
    match value {
        [] | [b'-', ..] => false,
        _ => true,
    }
}

/// The value of an argument, if it was given.
fn word<'a>(matches: &ArgMatches<'a>, id: &str) -> Option<&'a str>
    ensures { option_map (λ s. s.now) result ≡ first_of id.now (rows_of (found_of matches.now)) }
{
    matches.get_str(id)
}
