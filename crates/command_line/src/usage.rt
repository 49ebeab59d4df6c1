//! The command that adds up transfer logs: its grammar, and the meaning of its words.

ghost use Rattle.std.specs.Prelude.{◌≡◌, [], IfErr, IfOk, codes, false, map, option_map};
ghost use Rattle.std.specs.Option.{unwrap_or};
ghost use Rattle.clap.specs.Words.{all_of, app_of, fault_of, found_of, rows_of, rule_of, subcommand_of, subcommand_rows_of, with_rule};
ghost use Rattle.command_line.specs.Commands.{files_rule, ftpd, usage};
ghost use Rattle.command_line.specs.Given.{IsRefusal};
ghost use Rattle.command_line.specs.Usages.{AreUsageWords, IsUsageRead};

use crate::grammar::{bare_command, ftpd_command, with_flag, with_value};
use crate::words::{WordsFault, entered, has_flag, parsed, word_of};
use clap::{Arg, ArgAction, ArgMatches, Command};
use std::alloc::{AllocError, Global};

const ABOUT_USAGE: &str =
    "Each XFERLOG is read to its end. A line for each user goes to standard output, or for each file, hour or address: how\nmany transfers ended, their octets and seconds, and their octets a second; the line with the most octets is the first.\nThe last lines have the sums of all, and how many lines of the logs are not of the form of a transfer log.\n\nExamples: ftpd usage transfers.log --day 2026-11-24\n          ftpd usage transfers.log.1 transfers.log --by file --first 5\n\nStatus: 0 done, or yes; 1 a fault; 2 refused words; 3 no";

/// The words of `usage`.
#[derive(Debug, Drop)]
pub struct UsageWords<'a> {
    /// The paths of transfer logs, in their order.
    pub logs: Vec<&'a str>,
    /// The day of the transfers that are added up.
    pub day: Option<&'a str>,
    /// The name of the key by which transfers are added up.
    pub by: Option<&'a str>,
    /// The greatest number of rows that are printed, in digits.
    pub first: Option<&'a str>,
    /// Print JSON.
    pub json: bool,
    /// Print CSV.
    pub csv: bool,
}

/// Required words: one or more paths of files.
fn files<'a>(alloc: Global, id: &'a str, help: &'a str) -> Arg<'a>
    ensures rule { rule_of result ≡ files_rule id.entry.now }
    ensures local { result.global ≡ false }
{
    Arg::new(alloc, id)
        .required(true)
        .num_args(1..)
        .action(ArgAction::Append)
        .help(help)
}

/// The command with more file paths as its words.
fn with_paths<'a>(
    alloc: Global,
    command: Command<'a>,
    id: &'a str,
    help: &'a str,
) -> Result<Command<'a>, AllocError>
    ensures rule { IfOk result
        (λ c. app_of c ≡ with_rule (app_of command.entry) (files_rule id.entry.now)) }
{
    let command = command.arg(files(alloc, id, help))?;
    Ok(command)
}

/// The command `usage`.
pub(crate) fn usage_command<'a>(alloc: Global) -> Result<Command<'a>, AllocError>
    ensures usage { IfOk result (λ c. app_of c ≡ usage) }
{
    let about = "Add up transfer logs: who took how much, and when";
    let logs = "Transfer logs, as the server writes them; - is standard input";
    let day = "Count only transfers that ended on that day, in UTC, as 2026-11-24";
    let by = "Add up by user, file, hour or address [default: user]";
    let first = "Rows to print, at most; 0 is all [default: 20]";
    let command = bare_command(alloc, "usage", about, ABOUT_USAGE);
    let command = with_paths(alloc, command, "XFERLOG", logs)?;
    let command = with_value(alloc, command, "day", "DAY", day)?;
    let command = with_value(alloc, command, "by", "KEY", by)?;
    let command = with_value(alloc, command, "first", "N", first)?;
    let command = with_flag(alloc, command, "json", "Print JSON, for programs")?;
    with_flag(alloc, command, "csv", "Print CSV, for tables")
}

/// The words of the argument `id` of the command that was entered.
fn words_at<'a>(alloc: Global, inner: &ArgMatches<'a>, id: &str) -> Result<Vec<&'a str>, AllocError>
    ensures words { IfOk result (λ words. map (λ w. w.now) words.items
        ≡ unwrap_or (all_of id.now (rows_of (found_of inner.now))) []) }
{
    match inner.get_strs(id) {
        Some(words) => Vec::from_slice(alloc, words),
        None => Ok(Vec::new(alloc)),
    }
}

/// The words of `usage`, from its arguments.
fn usage_given<'a>(alloc: Global, inner: &ArgMatches<'a>) -> Result<UsageWords<'a>, AllocError>
    ensures words { IfOk result (AreUsageWords (rows_of (found_of inner.now))) }
{
    let logs = words_at(alloc, inner, "XFERLOG")?;
    Ok(UsageWords {
        logs,
        day: word_of(inner, "day"),
        by: word_of(inner, "by"),
        first: word_of(inner, "first"),
        json: has_flag(inner, "json"),
        csv: has_flag(inner, "csv"),
    })
}

/// The words of the command that the parser entered, if that is `usage`.
fn usage_in<'a>(
    alloc: Global,
    matches: &ArgMatches<'a>,
) -> Result<Option<UsageWords<'a>>, AllocError>
    ensures read { IfOk result (IsUsageRead (subcommand_rows_of matches.now)) }
{
    match entered(matches) {
        Some(("usage", inner)) => Ok(Some(usage_given(alloc, inner)?)),
        _ => Ok(None),
    }
}

/// Reads the words of the command `usage` in the words of `ftpd`, which do not include the program's name. Returns `None`
/// if the words have another command.
///
/// `Refused`: the parser refuses the words, or they ask for help or the version. `Memory`: memory ran out.
pub fn read_usage_words<'a>(
    alloc: Global,
    words: &'a [&'a str],
) -> Result<Option<UsageWords<'a>>, WordsFault>
    ensures refused { IfErr result (IsRefusal (fault_of ftpd (map (λ s. s.now) words.now))) }
    ensures given { IfOk result (λ _. fault_of ftpd (map (λ s. s.now) words.now) ≡ []) }
    ensures read { IfOk result (IsUsageRead (subcommand_of ftpd (map (λ s. s.now) words.now))) }
{
    let Ok(command) = ftpd_command(alloc) else {
        return Err(WordsFault::Memory);
    };
    let matches = match parsed(alloc, command, words) {
        Ok(matches) => matches,
        Err(fault) => return Err(fault),
    };
    match usage_in(alloc, &matches) {
        Ok(words) => Ok(words),
        Err(_) => Err(WordsFault::Memory),
    }
}
