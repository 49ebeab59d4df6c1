//! The words of a command line.

ghost use Rattle.std.specs.Prelude.{◌≡◌, ◌↔◌, ◌∷◌, [], ℕ, List, None, Some, IfOk, IfErr, IfSome, IsTrue, map, codes, false, option_map, true};
ghost use Rattle.clap.specs.Words.{app_of, fault_of, first_of, found_of, is_simple, is_simple_and_free, kind_of, rows_of, subcommand_of, subcommand_rows_of, takes};
ghost use Rattle.command_line.specs.Commands.{ftpd, sheets};
ghost use Rattle.command_line.specs.Given.{GivesOneOrMemory, GivesOrMemory, IsCheck, IsCheckConfig, IsFound, IsHelp, IsLogged, IsMigrate, IsOfSheets, IsPlainWord, IsPlanWords, IsRefusal, IsRefusedAs, IsScript, IsServe, IsSheetFound, IsShare, IsRefusedFor, IsStatusBy, IsTaken, IsTop, against_json_words, against_words, entered_rows, is_flagged, logged_words, ready_words, status_words, top_words, running_words};
ghost use Rattle.command_line.specs.Numbers.{AreLines, IsPortText};
ghost use Rattle.command_line.specs.Stated.{IsStatedBy};
ghost use Rattle.command_line.specs.declared.numbers.TheConstants.{ROWS};
ghost use Rattle.command_line.specs.Timed.{IsSeconds, timed_words, usual_patience};

use crate::grammar::{ftpd_command, sheets_command};
use crate::hints::parsed_or_hinted;
use crate::numbers::{Numbers, stated_numbers};
use clap::error::ErrorKind;
use clap::{ArgMatches, Command, Error};
use client_patience::Patience;
use line_rates::ShareBy;
use std::alloc::Global;

/// A command on a sheet, with the words after it.
#[derive(Clone, Copy, Debug, PartialEq, Eq)]
pub enum SheetWords<'a> {
    /// Share the limits of the sheet at this path, and print the shares as a picture or in lines. `by` is the depth of
    /// the users among whom they are shared first, as its word states it.
    Share {
        sheet: &'a str,
        svg: bool,
        by: Option<&'a str>,
    },
    /// Check the grants of a file within the limits of a sheet; the paths of both, and the word that states the depth
    /// of the users.
    Check {
        sheet: &'a str,
        grants: &'a str,
        by: Option<&'a str>,
    },
}

/// The paths of a server's files, the form of its notes, the port of its status page, and its way of sharing.
#[derive(Clone, Copy, Debug, PartialEq, Eq)]
pub struct ServeFiles<'a> {
    /// The server ends once there is a file at this path.
    pub stop_file: Option<&'a str>,
    /// The server makes a file at this path once clients may connect, and removes it at its end.
    pub ready_file: Option<&'a str>,
    /// The server drains once there is a file at this path.
    pub drain_file: Option<&'a str>,
    /// The server reads its configuration again once there is a file at this path.
    pub reload_file: Option<&'a str>,
    /// The server writes the text of the configuration that it has to the file at this path.
    pub running_file: Option<&'a str>,
    /// The server ends the sessions of the numbers in the file at this path, once there is one.
    pub end_file: Option<&'a str>,
    /// The server appends a line for each transfer of a file to the file at this path.
    pub transfer_log: Option<&'a str>,
    /// The name of the form of its notes.
    pub log_form: Option<&'a str>,
    /// The server writes what it does to the file at this path, once a second.
    pub status: Option<&'a str>,
    /// The server shows what it does at this port of 127.0.0.1.
    pub status_port: Option<u16>,
    /// The server has each file that is received written to the device before it says that it is there.
    pub syncs: bool,
    /// The greatest number of sessions in which one user is logged in, in digits.
    pub user_sessions: Option<&'a str>,
    /// Among whom the server shares the line.
    pub share_by: ShareBy,
}

/// A command of `ftpd`, with the words after it.
#[derive(Clone, Copy, Debug, PartialEq, Eq)]
pub enum Words<'a> {
    /// A command on a sheet.
    Sheet(SheetWords<'a>),
    /// Check the configuration at this path, and print its report; or what a reload of it would change for a server
    /// with the configuration of another path, if one is given, or that of a running file. As JSON or in lines, and for
    /// a line that is shared in that way.
    CheckConfig {
        config: &'a str,
        json: bool,
        against: Option<&'a str>,
        running: bool,
        share_by: ShareBy,
    },
    /// Print the configuration at this path in its latest version.
    Migrate {
        config: &'a str,
    },
    /// Serve a control session from a script, by the configuration at this path.
    Script {
        config: &'a str,
    },
    /// Serve clients by a configuration; its path, those of its files, and the server's patience.
    Serve {
        config: &'a str,
        files: ServeFiles<'a>,
        patience: Patience,
    },
    /// Plan transfers by the configuration at this path; the word that states them, whether the plan is to be printed
    /// as JSON, and among whom the line is shared.
    Plan {
        config: &'a str,
        transfers: &'a str,
        json: bool,
        share_by: ShareBy,
    },
    /// Show what the status file at this path says, once or again and again, in that number of lines.
    Top {
        status: &'a str,
        once: bool,
        rows: u16,
    },
    /// Add up transfer logs. [`read_usage_words`](crate::read_usage_words) returns their paths and the options.
    Usage,
}

/// The reason for which words are refused.
#[derive(Debug, Drop)]
pub enum WordsFault {
    /// The parser's text, complete with its line end. `is_help` is `true` if the words asked for it, by `--help`,
    /// `help` or `--version`: then it is a result and no fault.
    Refused { text: String, is_help: bool },
    /// Memory ran out.
    Memory,
}

fn is_help(kind: ErrorKind) -> bool
    ensures help { IsTrue result ↔ IsHelp kind }
{
    matches!(kind, ErrorKind::DisplayHelp | ErrorKind::DisplayVersion)
}

fn refused(alloc: Global, error: &Error) -> WordsFault
    ensures memory { kind_of error.now ≡ ErrorKind.OutOfMemory → result ≡ WordsFault.Memory }
    ensures refused { IsRefusedAs (kind_of error.now) result }
{
    let kind = error.kind();
    if kind == ErrorKind::OutOfMemory {
        return WordsFault::Memory;
    }
    match format!(in alloc; "{error}") {
        Ok(text) => WordsFault::Refused {
            text,
            is_help: is_help(kind),
        },
        Err(_) => WordsFault::Memory,
    }
}

/// The command that the parser entered: its name, and its arguments.
pub(crate) fn entered<'m, 'a>(matches: &'m ArgMatches<'a>) -> Option<(&'a str, &'m ArgMatches<'a>)>
    ensures entered { option_map entered_rows result ≡ subcommand_rows_of matches.now }
{
    matches.subcommand()
}

/// The argument `id` of the command that was entered.
pub(crate) fn word_of<'a>(inner: &ArgMatches<'a>, id: &str) -> Option<&'a str>
    ensures word { option_map (λ w. w.now) result ≡ first_of id.now (rows_of (found_of inner.now)) }
{
    inner.get_str(id)
}

/// Returns whether the words of the command that was entered have the flag `id`.
pub(crate) fn has_flag(inner: &ArgMatches<'_>, id: &str) -> bool
    ensures flag { result ≡ is_flagged id.now (rows_of (found_of inner.now)) }
{
    match word_of(inner, id) {
        Some(word) => word == "true",
        None => false,
    }
}

/// The command on a sheet of that name, with its words.
fn sheet_given<'a>(name: &str, inner: &ArgMatches<'a>) -> Option<SheetWords<'a>>
    ensures found { IfSome result
        (IsSheetFound (Some (name.now, rows_of (found_of inner.now)))) }
    ensures none { result ≡ None → (words : SheetWords)
        → IsSheetFound (Some (name.now, rows_of (found_of inner.now))) words → ⊥ }
{
    match name {
        "share" => Some(SheetWords::Share {
            sheet: word_of(inner, "SHEET")?,
            svg: has_flag(inner, "svg"),
            by: word_of(inner, "by"),
        }),
        "check" => Some(SheetWords::Check {
            sheet: word_of(inner, "SHEET")?,
            grants: word_of(inner, "GRANTS")?,
            by: word_of(inner, "by"),
        }),
        _ => None,
    }
}

/// The command on a sheet that the parser entered.
fn sheet_words<'a>(matches: &ArgMatches<'a>) -> Option<SheetWords<'a>>
    ensures found { IfSome result (IsSheetFound (subcommand_rows_of matches.now)) }
    ensures none { result ≡ None → (words : SheetWords)
        → IsSheetFound (subcommand_rows_of matches.now) words → ⊥ }
{
    let (name, inner) = entered(matches)?;
    sheet_given(name, inner)
}

/// The command of that name, with its words, which state those numbers.
fn given<'a>(name: &str, inner: &ArgMatches<'a>, numbers: Numbers) -> Option<Words<'a>>
    requires numbers { IsStatedBy (Some (name.now, rows_of (found_of inner.now)))
        numbers.patience numbers.status_port numbers.rows numbers.share_by }
    ensures found { IfSome result (IsFound (Some (name.now, rows_of (found_of inner.now)))) }
    ensures none { result ≡ None → (words : Words)
        → IsFound (Some (name.now, rows_of (found_of inner.now))) words → ⊥ }
{
    match name {
        "check-config" => Some(Words::CheckConfig {
            config: word_of(inner, "CONFIG")?,
            json: has_flag(inner, "json"),
            against: word_of(inner, "against"),
            running: has_flag(inner, "against-running"),
            share_by: numbers.share_by,
        }),
        "migrate" => Some(Words::Migrate {
            config: word_of(inner, "CONFIG")?,
        }),
        "script" => Some(Words::Script {
            config: word_of(inner, "CONFIG")?,
        }),
        "serve" => Some(Words::Serve {
            config: word_of(inner, "CONFIG")?,
            files: ServeFiles {
                stop_file: word_of(inner, "stop-file"),
                ready_file: word_of(inner, "ready-file"),
                drain_file: word_of(inner, "drain-file"),
                reload_file: word_of(inner, "reload-file"),
                running_file: word_of(inner, "running-file"),
                end_file: word_of(inner, "end-file"),
                transfer_log: word_of(inner, "transfer-log"),
                log_form: word_of(inner, "log-form"),
                status: word_of(inner, "status"),
                status_port: numbers.status_port,
                syncs: has_flag(inner, "sync"),
                user_sessions: word_of(inner, "user-sessions"),
                share_by: numbers.share_by,
            },
            patience: numbers.patience,
        }),
        "plan" => Some(Words::Plan {
            config: word_of(inner, "CONFIG")?,
            transfers: word_of(inner, "TRANSFERS")?,
            json: has_flag(inner, "json"),
            share_by: numbers.share_by,
        }),
        "top" => Some(Words::Top {
            status: word_of(inner, "STATUS")?,
            once: has_flag(inner, "once"),
            rows: numbers.rows,
        }),
        "usage" => Some(Words::Usage),
        _ => Some(Words::Sheet(sheet_given(name, inner)?)),
    }
}

/// The command that the parser entered, whose words state those numbers.
fn words_of<'a>(matches: &ArgMatches<'a>, numbers: Numbers) -> Option<Words<'a>>
    requires numbers { IsStatedBy (subcommand_rows_of matches.now)
        numbers.patience numbers.status_port numbers.rows numbers.share_by }
    ensures found { IfSome result (IsFound (subcommand_rows_of matches.now)) }
    ensures none { result ≡ None → (words : Words)
        → IsFound (subcommand_rows_of matches.now) words → ⊥ }
{
    let (name, inner) = entered(matches)?;
    given(name, inner, numbers)
}

/// Parses the words, which do not include the program's name.
pub(crate) fn parsed<'a>(
    alloc: Global,
    command: Command<'a>,
    words: &'a [&'a str],
) -> Result<ArgMatches<'a>, WordsFault>
    ensures takes { takes (app_of command.entry) (map (λ s. s.now) words.now) ≡ true
        → IfErr result (λ fault. fault ≡ WordsFault.Memory) }
    ensures refused { is_simple_and_free (app_of command.entry) ≡ true
        → IfErr result (IsRefusal (fault_of (app_of command.entry) (map (λ s. s.now) words.now))) }
    ensures given { is_simple_and_free (app_of command.entry) ≡ true
        → IfOk result (λ _. fault_of (app_of command.entry) (map (λ s. s.now) words.now) ≡ []) }
    ensures found { is_simple (app_of command.entry) ≡ true
        → IfOk result (λ matches. subcommand_rows_of matches
        ≡ subcommand_of (app_of command.entry) (map (λ s. s.now) words.now)) }
{
    match command.try_get_matches_from(words) {
        Ok(matches) => Ok(matches),
        Err(error) => Err(refused(alloc, &error)),
    }
}

/// Reads the command in the words of `sheets`, which do not include the program's name.
///
/// Returns the command of words that the parser accepts. `Refused`: the parser refuses the words, or they ask for help
/// or the version. `Memory`: memory ran out.
pub fn read_sheet_words<'a>(
    alloc: Global,
    words: &'a [&'a str],
) -> Result<SheetWords<'a>, WordsFault>
    ensures share { (word : List ℕ) → IsPlainWord word
        → map (λ s. s.now) words.now ≡ codes "share" ∷ word ∷ []
        → GivesOrMemory (IsShare word false None) result }
    ensures share_svg { (word : List ℕ) → IsPlainWord word
        → map (λ s. s.now) words.now ≡ codes "share" ∷ word ∷ codes "--svg" ∷ []
        → GivesOrMemory (IsShare word true None) result }
    ensures check { (first second : List ℕ) → IsPlainWord first → IsPlainWord second
        → map (λ s. s.now) words.now ≡ codes "check" ∷ first ∷ second ∷ []
        → GivesOrMemory (IsCheck first second None) result }
    ensures taken { fault_of sheets (map (λ s. s.now) words.now) ≡ [] → GivesOneOrMemory
        (IsSheetFound (subcommand_of sheets (map (λ s. s.now) words.now))) result }
    ensures refused { IfErr result (IsRefusal (fault_of sheets (map (λ s. s.now) words.now))) }
    ensures given { IfOk result (λ _. fault_of sheets (map (λ s. s.now) words.now) ≡ []) }
    ensures found { IfOk result (IsSheetFound (subcommand_of sheets (map (λ s. s.now) words.now))) }
{
    let Ok(command) = sheets_command(alloc) else {
        return Err(WordsFault::Memory);
    };
    let matches = match parsed(alloc, command, words) {
        Ok(matches) => matches,
        Err(fault) => return Err(fault),
    };
    match sheet_words(&matches) {
        Some(words) => Ok(words),
        None => unreachable!("words that the parser takes give a command"),
    }
}

/// Reads the command in the words of `ftpd`, which do not include the program's name.
///
/// Returns the command of words that the parser accepts, if each value of an option that is judged has its form. `Refused`: the
/// parser refuses the words, or they ask for help or the version, or a value is no number of its form, or no way of
/// sharing. `Memory`: memory ran out.
pub fn read_words<'a>(alloc: Global, words: &'a [&'a str]) -> Result<Words<'a>, WordsFault>
    ensures share { (word : List ℕ) → IsPlainWord word
        → map (λ s. s.now) words.now ≡ codes "share" ∷ word ∷ []
        → GivesOrMemory (IsOfSheets (IsShare word false None)) result }
    ensures share_svg { (word : List ℕ) → IsPlainWord word
        → map (λ s. s.now) words.now ≡ codes "share" ∷ word ∷ codes "--svg" ∷ []
        → GivesOrMemory (IsOfSheets (IsShare word true None)) result }
    ensures check { (first second : List ℕ) → IsPlainWord first → IsPlainWord second
        → map (λ s. s.now) words.now ≡ codes "check" ∷ first ∷ second ∷ []
        → GivesOrMemory (IsOfSheets (IsCheck first second None)) result }
    ensures check_config { (word : List ℕ) → IsPlainWord word
        → map (λ s. s.now) words.now ≡ codes "check-config" ∷ word ∷ []
        → GivesOrMemory (IsCheckConfig word false None false) result }
    ensures check_config_json { (word : List ℕ) → IsPlainWord word
        → map (λ s. s.now) words.now ≡ codes "check-config" ∷ word ∷ codes "--json" ∷ []
        → GivesOrMemory (IsCheckConfig word true None false) result }
    ensures check_against { (word other : List ℕ) → IsPlainWord word → IsPlainWord other
        → map (λ s. s.now) words.now ≡ against_words word other
        → GivesOrMemory (IsCheckConfig word false (Some other) false) result }
    ensures check_against_json { (word other : List ℕ) → IsPlainWord word → IsPlainWord other
        → map (λ s. s.now) words.now ≡ against_json_words word other
        → GivesOrMemory (IsCheckConfig word true (Some other) false) result }
    ensures check_running { (word : List ℕ) → IsPlainWord word
        → map (λ s. s.now) words.now ≡ running_words word
        → GivesOrMemory (IsCheckConfig word false None true) result }
    ensures migrate { (word : List ℕ) → IsPlainWord word
        → map (λ s. s.now) words.now ≡ codes "migrate" ∷ word ∷ []
        → GivesOrMemory (IsMigrate word) result }
    ensures script { (word : List ℕ) → IsPlainWord word
        → map (λ s. s.now) words.now ≡ codes "script" ∷ word ∷ []
        → GivesOrMemory (IsScript word) result }
    ensures serve { (word : List ℕ) → IsPlainWord word
        → map (λ s. s.now) words.now ≡ codes "serve" ∷ word ∷ []
        → GivesOrMemory (IsServe word None None usual_patience) result }
    ensures serve_until { (word path : List ℕ) → IsPlainWord word → IsPlainWord path
        → map (λ s. s.now) words.now ≡ codes "serve" ∷ word ∷ codes "--stop-file" ∷ path ∷ []
        → GivesOrMemory (IsServe word (Some path) None usual_patience) result }
    ensures serve_ready { (word path ready : List ℕ) → IsPlainWord word → IsPlainWord path
        → IsPlainWord ready
        → map (λ s. s.now) words.now ≡ ready_words word path ready
        → GivesOrMemory (IsServe word (Some path) (Some ready) usual_patience) result }
    ensures serve_logged { (word path form : List ℕ) → IsPlainWord word → IsPlainWord path
        → IsPlainWord form
        → map (λ s. s.now) words.now ≡ logged_words word path form
        → GivesOrMemory (IsLogged word path form) result }
    ensures serve_status { (word path port : List ℕ) (n : ℕ) → IsPlainWord word
        → IsPlainWord path → IsPortText port n
        → map (λ s. s.now) words.now ≡ status_words word path port
        → GivesOrMemory (IsStatusBy word (Some path) (Some n)) result }
    ensures serve_timed { (word first second third fourth : List ℕ) (p : Patience)
        → IsPlainWord word → IsSeconds first p.login_timeout → IsSeconds second p.idle_timeout
        → IsSeconds third p.login_delay → IsSeconds fourth p.drain_timeout
        → map (λ s. s.now) words.now ≡ timed_words word first second third fourth
        → GivesOrMemory (IsServe word None None p) result }
    ensures plan { (word transfers : List ℕ) → IsPlainWord word → IsPlainWord transfers
        → map (λ s. s.now) words.now ≡ codes "plan" ∷ word ∷ transfers ∷ []
        → GivesOrMemory (IsPlanWords word transfers false) result }
    ensures plan_json { (word transfers : List ℕ) → IsPlainWord word → IsPlainWord transfers
        → map (λ s. s.now) words.now ≡ codes "plan" ∷ word ∷ transfers ∷ codes "--json" ∷ []
        → GivesOrMemory (IsPlanWords word transfers true) result }
    ensures top { (word : List ℕ) → IsPlainWord word
        → map (λ s. s.now) words.now ≡ codes "top" ∷ word ∷ []
        → GivesOrMemory (IsTop word false ROWS) result }
    ensures top_once { (word lines : List ℕ) (n : ℕ) → IsPlainWord word
        → AreLines lines n
        → map (λ s. s.now) words.now ≡ top_words word lines
        → GivesOrMemory (IsTop word true n) result }
    ensures taken { IsTaken (map (λ s. s.now) words.now) → GivesOneOrMemory
        (IsFound (subcommand_of ftpd (map (λ s. s.now) words.now))) result }
    ensures refused { IfErr result (IsRefusedFor (map (λ s. s.now) words.now)) }
    ensures given { IfOk result (λ _. IsTaken (map (λ s. s.now) words.now)) }
    ensures found { IfOk result (IsFound (subcommand_of ftpd (map (λ s. s.now) words.now))) }
{
    let Ok(command) = ftpd_command(alloc) else {
        return Err(WordsFault::Memory);
    };
    let matches = match parsed_or_hinted(alloc, command, words) {
        Ok(matches) => matches,
        Err(fault) => return Err(fault),
    };
    let numbers = match stated_numbers(alloc, &matches) {
        Ok(numbers) => numbers,
        Err(fault) => return Err(fault),
    };
    match words_of(&matches, numbers) {
        Some(words) => Ok(words),
        None => unreachable!("words that the parser takes give a command"),
    }
}
