//! The grammar of the command lines of `ftpd` and of `sheets`.

ghost use Rattle.std.specs.Prelude.{◌≡◌, IfOk, codes, false};
ghost use Rattle.clap.specs.Words.{app_of, rule_of, with_rule};
ghost use Rattle.command_line.specs.Commands.{bare, check, check_config, file_rule, flag_rule, ftpd, migrate, plan, script, serve, share, sheets, show, top, value_rule, with_files, with_logs, with_patience, with_sessions, with_sheets, with_status, with_sync_and_way};

use crate::usage::usage_command;
use clap::{Arg, ArgAction, Command};
use std::alloc::{AllocError, Global};

fn file<'a>(alloc: Global, id: &'a str, help: &'a str) -> Arg<'a>
    ensures rule { rule_of result ≡ file_rule id.entry.now }
    ensures local { result.global ≡ false }
{
    Arg::new(alloc, id)
        .required(true)
        .action(ArgAction::Set)
        .help(help)
}

/// An optional option `--ID NAME`.
fn option<'a>(alloc: Global, id: &'a str, name: &'a str, help: &'a str) -> Arg<'a>
    ensures rule { rule_of result ≡ value_rule id.entry.now }
    ensures local { result.global ≡ false }
{
    Arg::new(alloc, id)
        .long(id)
        .value_name(name)
        .action(ArgAction::Set)
        .help(help)
}

/// An optional flag `--ID`.
fn flag<'a>(alloc: Global, id: &'a str, help: &'a str) -> Arg<'a>
    ensures rule { rule_of result ≡ flag_rule id.entry.now }
    ensures local { result.global ≡ false }
{
    Arg::new(alloc, id)
        .long(id)
        .action(ArgAction::SetTrue)
        .help(help)
}

const STATUSES: &str = "Status: 0 done, or yes; 1 a fault; 2 refused words; 3 no";

const ABOUT_SHARE: &str =
    "SHEET is read whole, and then shared. A line for each want goes to standard output, `PATH GRANT of WANT`, with\n`full NODE` after it if the limit at NODE holds it back, and last `total OCTETS`.\n\nExamples: sheets share lunch.sheet\n          sheets share lunch.sheet --svg > lunch.svg\n          sheets share lunch.sheet --by 1\n\nStatus: 0 done, or yes; 1 a fault; 2 refused words; 3 no";

const ABOUT_CHECK: &str =
    "SHEET is read whole, and then GRANTS. `yes` goes to standard output, or `no` with the number, the name and the\nfields of the first flaw.\n\nExamples: sheets check lunch.sheet lunch.grants\n          sheets check lunch.sheet lunch.grants --by 1\n\nStatus: 0 done, or yes; 1 a fault; 2 refused words; 3 no";

const ABOUT_CHECK_CONFIG: &str =
    "CONFIG is read whole. What it states goes to standard output, in tables, with a warning of what is of no use. Of a\nfolder, its homes and the file CONFIG the machine is asked: whether they are there, and who may read them.\n\nExamples: ftpd check-config office.toml\n          ftpd check-config new.toml --against office.toml\n          ftpd check-config new.toml --against-running\n\nStatus: 0 done, or yes; 1 a fault; 2 refused words; 3 no";

const ABOUT_MIGRATE: &str =
    "CONFIG is read whole. Its text in the latest version goes to standard output; comments are lost.\n\nExample: ftpd migrate office.toml > office2.toml\n\nStatus: 0 done, or yes; 1 a fault; 2 refused words; 3 no";

const ABOUT_SCRIPT: &str =
    "CONFIG is read whole, and then the lines of a client from standard input. The replies go to standard output. No\nsocket is opened: a download is thrown away, and an upload is empty.\n\nExample: ftpd script office.toml < session.txt\n\nStatus: 0 done, or yes; 1 a fault; 2 refused words; 3 no";

const ABOUT_SERVE: &str =
    "CONFIG is read whole. `ready` goes to standard output once clients may connect, and at the end what was settled.\n\nExample: ftpd serve office.toml --stop-file /run/ftpd.stop\n\nStatus: 0 done, or yes; 1 a fault; 2 refused words; 3 no";

const ABOUT_PLAN: &str =
    "CONFIG is read whole. A line for each user, direction and share goes to standard output: how many transfers get how\nmuch of a second, what is guaranteed to each, and the limit that holds each back; last the totals. TRANSFERS has parts\nNAME=N, NAME:down=N or NAME:up=N, joined by commas: N transfers of that user that want all they can get.\n\nExample: ftpd plan office.toml ann=1,bob=1,carol:up=5\n\nStatus: 0 done, or yes; 1 a fault; 2 refused words; 3 no";

const ABOUT_TOP: &str =
    "STATUS is read once a second, and the screen is drawn anew; Ctrl-C ends it. Two lines for each transfer: its octets a\nsecond, what is guaranteed to it, and the limits that held it back, in parts of the last second.\n\nExamples: ftpd top /run/ftpd/status.json\n          ftpd top /run/ftpd/status.json --once\n\nStatus: 0 done, or yes; 1 a fault; 2 refused words; 3 no";

/// A command without words; `below` is the text below its help.
pub(crate) fn bare_command<'a>(
    alloc: Global,
    name: &'a str,
    about: &'a str,
    below: &'a str,
) -> Command<'a>
    ensures bare { app_of result ≡ bare name.entry.now }
{
    Command::new(alloc, name).about(about).after_help(below)
}

/// The command with one more file path as its word.
fn with_file<'a>(
    alloc: Global,
    command: Command<'a>,
    id: &'a str,
    help: &'a str,
) -> Result<Command<'a>, AllocError>
    ensures rule { IfOk result
        (λ c. app_of c ≡ with_rule (app_of command.entry) (file_rule id.entry.now)) }
{
    let command = command.arg(file(alloc, id, help))?;
    Ok(command)
}

fn share_command<'a>(alloc: Global) -> Result<Command<'a>, AllocError>
    ensures share { IfOk result (λ c. app_of c ≡ share) }
{
    let about = "Share the limits of a sheet: who gets how much, and which limit holds whom back";
    let sheet =
        "File of lines `limit PATH N`, `want PATH N` or `want PATH N FLOOR`; - is standard input";
    let svg = "Draw the shares as a picture in SVG";
    let by =
        "Share among users first: the nodes at this depth, from 0 to 99, and each want above it; the root is at depth 0";
    let command = bare_command(alloc, "share", about, ABOUT_SHARE);
    let command = with_file(alloc, command, "SHEET", sheet)?;
    let command = with_flag(alloc, command, "svg", svg)?;
    with_value(alloc, command, "by", "DEPTH", by)
}

fn check_command<'a>(alloc: Global) -> Result<Command<'a>, AllocError>
    ensures check { IfOk result (λ c. app_of c ≡ check) }
{
    let about = "Check grants within the limits of a sheet: yes, or no and the first flaw";
    let sheet = "File of limits and wants, as for `share`; - is standard input";
    let grants =
        "File of lines `grant PATH N` or `grant PATH N NODE`, in the order of the wants; - is standard input";
    let by = "Check whether the grants are best among the users of this depth, as for `share`";
    let command = bare_command(alloc, "check", about, ABOUT_CHECK);
    let command = with_file(alloc, command, "SHEET", sheet)?;
    let command = with_file(alloc, command, "GRANTS", grants)?;
    with_value(alloc, command, "by", "DEPTH", by)
}

const CONFIG_FILE: &str = "File of a configuration, in TOML; - is standard input";

/// A command with the file of a configuration as its word.
fn config_command<'a>(
    alloc: Global,
    name: &'a str,
    about: &'a str,
    below: &'a str,
    file: &'a str,
) -> Result<Command<'a>, AllocError>
    ensures config { IfOk result
        (λ c. app_of c ≡ with_rule (bare name.entry.now) (file_rule (codes "CONFIG"))) }
{
    let command = bare_command(alloc, name, about, below);
    with_file(alloc, command, "CONFIG", file)
}

const JUDGED_BY: &str =
    "Among whom the line is to be shared, as `serve` takes it: sessions, or users, with a warning of anonymous [default: sessions]";

fn check_config_command<'a>(alloc: Global) -> Result<Command<'a>, AllocError>
    ensures check_config { IfOk result (λ c. app_of c ≡ check_config) }
{
    let about = "Judge a configuration: print its users, groups, rates and guarantees, and warn";
    let json = "Print the report as JSON, for programs";
    let against =
        "File of the configuration that a server has: print what it would change by a reload of CONFIG, if it can";
    let command = config_command(
        alloc,
        "check-config",
        about,
        ABOUT_CHECK_CONFIG,
        CONFIG_FILE,
    )?;
    let running =
        "The same for the configuration that a server of the package has, by its running file, /run/ftpd/running.toml";
    let with_json = with_flag(alloc, command, "json", json)?;
    let with_other = with_value(alloc, with_json, "against", "PATH", against)?;
    let with_running = with_flag(alloc, with_other, "against-running", running)?;
    with_value(alloc, with_running, "share-by", "WAY", JUDGED_BY)
}

fn migrate_command<'a>(alloc: Global) -> Result<Command<'a>, AllocError>
    ensures migrate { IfOk result (λ c. app_of c ≡ migrate) }
{
    let about = "Print a configuration in its latest version";
    config_command(alloc, "migrate", about, ABOUT_MIGRATE, CONFIG_FILE)
}

fn script_command<'a>(alloc: Global) -> Result<Command<'a>, AllocError>
    ensures script { IfOk result (λ c. app_of c ≡ script) }
{
    let about = "Serve the control session on standard input, and print its replies";
    let file =
        "File of a configuration, in TOML; not -, standard input, which has the control text";
    config_command(alloc, "script", about, ABOUT_SCRIPT, file)
}

const SHARE_BY: &str =
    "Among whom the line is shared: sessions, or users, each with one share a direction; anonymous is one user [default: sessions]";

/// The command with an optional value, given by an option of that name.
pub(crate) fn with_value<'a>(
    alloc: Global,
    command: Command<'a>,
    id: &'a str,
    name: &'a str,
    help: &'a str,
) -> Result<Command<'a>, AllocError>
    ensures rule { IfOk result
        (λ c. app_of c ≡ with_rule (app_of command.entry) (value_rule id.entry.now)) }
{
    let command = command.arg(option(alloc, id, name, help))?;
    Ok(command)
}

/// The command with an optional flag.
pub(crate) fn with_flag<'a>(
    alloc: Global,
    command: Command<'a>,
    id: &'a str,
    help: &'a str,
) -> Result<Command<'a>, AllocError>
    ensures rule { IfOk result
        (λ c. app_of c ≡ with_rule (app_of command.entry) (flag_rule id.entry.now)) }
{
    let command = command.arg(flag(alloc, id, help))?;
    Ok(command)
}

/// The command with an optional stop file, ready file, drain file, reload file and running file, given by their paths.
fn with_files<'a>(alloc: Global, command: Command<'a>) -> Result<Command<'a>, AllocError>
    ensures rules { IfOk result (λ c. app_of c ≡ with_files (app_of command.entry)) }
{
    let stop =
        "File that is not there yet: once it appears, sessions are told 421 and the server ends";
    let ready =
        "File that is not there yet: the server makes it once clients may connect, and removes it at its end";
    let drain =
        "File that is not there yet: once it appears, nobody is admitted, and the server ends after the transfers that run";
    let with_stop = with_value(alloc, command, "stop-file", "PATH", stop)?;
    let with_ready = with_value(alloc, with_stop, "ready-file", "PATH", ready)?;
    let reload =
        "File that is not there yet: each time it appears, CONFIG is read again, and the server removes it";
    let with_drain = with_value(alloc, with_ready, "drain-file", "PATH", drain)?;
    let running =
        "File that the server writes: the text of the configuration that it has, at its start and after each reload";
    let with_reload = with_value(alloc, with_drain, "reload-file", "PATH", reload)?;
    let command = with_value(alloc, with_reload, "running-file", "PATH", running)?;
    Ok(command)
}

/// The command with an optional transfer log, given by its path, and an optional form of notes.
fn with_logs<'a>(alloc: Global, command: Command<'a>) -> Result<Command<'a>, AllocError>
    ensures rules { IfOk result (λ c. app_of c ≡ with_logs (app_of command.entry)) }
{
    let log = "File to which a line is appended for each file sent or received, as of xferlog(5)";
    let form =
        "Form of the notes on standard error: plain, or journal for systemd [default: plain]";
    let with_log = with_value(alloc, command, "transfer-log", "PATH", log)?;
    let command = with_value(alloc, with_log, "log-form", "FORM", form)?;
    Ok(command)
}

/// The command with an optional status file, given by its path, and an optional port of its status page.
fn with_status<'a>(alloc: Global, command: Command<'a>) -> Result<Command<'a>, AllocError>
    ensures rules { IfOk result (λ c. app_of c ≡ with_status (app_of command.entry)) }
{
    let status = "File to which the server writes what it does, once a second, as JSON";
    let port =
        "Port of 127.0.0.1 on which the server shows a page of what it does, and its metrics";
    let with_file = with_value(alloc, command, "status", "PATH", status)?;
    let command = with_value(alloc, with_file, "status-port", "PORT", port)?;
    Ok(command)
}

/// The command with an optional end file, given by its path, and an optional number of sessions of a user.
fn with_sessions<'a>(alloc: Global, command: Command<'a>) -> Result<Command<'a>, AllocError>
    ensures rules { IfOk result (λ c. app_of c ≡ with_sessions (app_of command.entry)) }
{
    let end =
        "File that is not there yet: each time it appears, the sessions of the numbers in its lines end, and the server removes it";
    let most =
        "Sessions in which one user may be logged in; one more is told 421; 0 is no limit [default: 0]";
    let with_end = with_value(alloc, command, "end-file", "PATH", end)?;
    let command = with_value(alloc, with_end, "user-sessions", "N", most)?;
    Ok(command)
}

/// The command with its options in seconds.
fn with_patience<'a>(alloc: Global, command: Command<'a>) -> Result<Command<'a>, AllocError>
    ensures rules { IfOk result (λ c. app_of c ≡ with_patience (app_of command.entry)) }
{
    let login =
        "Seconds in which a client has to log in, or it is told 421; 0 is no limit [default: 60]";
    let idle =
        "Seconds without a command or a transfer, after which a client is told 421; 0 is no limit [default: 0]";
    let delay = "Seconds before a wrong password is answered [default: 1]";
    let with_login = with_value(alloc, command, "login-timeout", "SECONDS", login)?;
    let with_idle = with_value(alloc, with_login, "idle-timeout", "SECONDS", idle)?;
    let drain =
        "Seconds that the transfers which run have once the drain file is there; 0 is no limit [default: 0]";
    let with_delay = with_value(alloc, with_idle, "login-delay", "SECONDS", delay)?;
    let command = with_value(alloc, with_delay, "drain-seconds", "SECONDS", drain)?;
    Ok(command)
}

/// The command with an optional flag of files that are written to the device, and an optional way of sharing.
fn with_sync_and_way<'a>(alloc: Global, command: Command<'a>) -> Result<Command<'a>, AllocError>
    ensures rules { IfOk result (λ c. app_of c ≡ with_sync_and_way (app_of command.entry)) }
{
    let sync =
        "Have each file that is received written to the device before its 226, which takes the device's time";
    let with_sync = with_flag(alloc, command, "sync", sync)?;
    let command = with_value(alloc, with_sync, "share-by", "WAY", SHARE_BY)?;
    Ok(command)
}

fn serve_command<'a>(alloc: Global) -> Result<Command<'a>, AllocError>
    ensures serve { IfOk result (λ c. app_of c ≡ serve) }
{
    let about =
        "Serve clients by a configuration, until a number of sessions or a stop file ends it";
    let command = config_command(alloc, "serve", about, ABOUT_SERVE, CONFIG_FILE)?;
    let command = with_files(alloc, command)?;
    let command = with_logs(alloc, command)?;
    let command = with_status(alloc, command)?;
    let command = with_patience(alloc, command)?;
    let command = with_sessions(alloc, command)?;
    with_sync_and_way(alloc, command)
}

fn plan_command<'a>(alloc: Global) -> Result<Command<'a>, AllocError>
    ensures plan { IfOk result (λ c. app_of c ≡ plan) }
{
    let about =
        "Plan transfers by a configuration: who would get how much, and which limit holds whom back";
    let transfers = "Transfers of users, as `ann=1,bob:up=2`";
    let json = "Print the plan as JSON, for programs";
    let command = config_command(alloc, "plan", about, ABOUT_PLAN, CONFIG_FILE)?;
    let command = with_file(alloc, command, "TRANSFERS", transfers)?;
    let command = with_flag(alloc, command, "json", json)?;
    with_value(alloc, command, "share-by", "WAY", SHARE_BY)
}

fn show_command<'a>(alloc: Global) -> Result<Command<'a>, AllocError>
    ensures show { IfOk result (λ c. app_of c ≡ show) }
{
    let about =
        "Show the transfers of a running server: who gets how much, and which limit holds whom back";
    let status = "File that the server writes, given to it as `--status`";
    let once = "Show what the file says once, and end";
    let rows = "Lines of the screen, from 8 to 500 [default: 24]";
    let command = bare_command(alloc, "top", about, ABOUT_TOP);
    let command = with_file(alloc, command, "STATUS", status)?;
    let command = with_flag(alloc, command, "once", once)?;
    with_value(alloc, command, "rows", "N", rows)
}

fn top_command<'a>(alloc: Global, name: &'a str, about: &'a str) -> Result<Command<'a>, AllocError>
    ensures top { IfOk result (λ c. app_of c ≡ top name.entry.now) }
{
    let top = bare_command(alloc, name, about, STATUSES)
        .no_binary_name(true)
        .version("1")
        .subcommand_required(true)
        .bin_name(name)?;
    Ok(top)
}

/// The program of that name, with only the commands on sheets.
fn sheet_commands<'a>(
    alloc: Global,
    name: &'a str,
    about: &'a str,
) -> Result<Command<'a>, AllocError>
    ensures sheets { IfOk result (λ c. app_of c ≡ with_sheets name.entry.now) }
{
    let top = top_command(alloc, name, about)?;
    let with_share = top.subcommand(share_command(alloc)?)?;
    let command = with_share.subcommand(check_command(alloc)?)?;
    Ok(command)
}

/// The program `sheets`.
pub(crate) fn sheets_command<'a>(alloc: Global) -> Result<Command<'a>, AllocError>
    ensures sheets { IfOk result (λ c. app_of c ≡ sheets) }
{
    let about = "Share bandwidth among transfers under nested limits";
    sheet_commands(alloc, "sheets", about)
}

/// The program `ftpd`.
pub(crate) fn ftpd_command<'a>(alloc: Global) -> Result<Command<'a>, AllocError>
    ensures ftpd { IfOk result (λ c. app_of c ≡ ftpd) }
{
    let about = "An FTP server that shares its bandwidth under nested limits";
    let with_sheets = sheet_commands(alloc, "ftpd", about)?;
    let with_check = with_sheets.subcommand(check_config_command(alloc)?)?;
    let with_migrate = with_check.subcommand(migrate_command(alloc)?)?;
    let with_script = with_migrate.subcommand(script_command(alloc)?)?;
    let with_serve = with_script.subcommand(serve_command(alloc)?)?;
    let with_plan = with_serve.subcommand(plan_command(alloc)?)?;
    let with_show = with_plan.subcommand(show_command(alloc)?)?;
    let command = with_show.subcommand(usage_command(alloc)?)?;
    Ok(command)
}
