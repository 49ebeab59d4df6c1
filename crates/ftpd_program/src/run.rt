//! Running the command of a line's words.

ghost use Rattle.std.specs.Prelude.{◌≡◌, ◌⊎◌, ◌∷◌, [], ℕ, List, None, Some, codes, false, map, true};
ghost use Rattle.clap.specs.Words.{subcommand_of};
ghost use Rattle.command_line.specs.Commands.{ftpd};
ghost use Rattle.command_line.specs.Given.{IsFound, IsPlainWord, IsRefusedFor, IsTaken, against_json_words, against_words, ready_words, running_words, top_words};
ghost use Rattle.command_line.specs.Numbers.{AreLines};
ghost use Rattle.command_line.specs.declared.numbers.TheConstants.{ROWS};
ghost use Rattle.command_line.specs.Timed.{IsSeconds, timed_words, usual_patience};
ghost use Rattle.client_patience.specs.declared.patience.Patience.{Patience};
ghost use Rattle.command_line.specs.declared.words.Words.{Words};
ghost use Rattle.command_line.specs.declared.words.WordsFault.{WordsFault};
ghost use Rattle.script_session.specs.Breaks.{MayBreakWriting};
ghost use Rattle.sheets_program.specs.Endings.{IsOutOfMemory, IsReportedEnd};
ghost use Rattle.sheets_program.specs.Runs.{IsCheckEnd, IsShareEnd};
ghost use Rattle.ftpd_program.specs.Against.{IsAgainstEnd};
ghost use Rattle.ftpd_program.specs.Causes.{AreCommandOpened, AreConfigOpened, AreRunningOpened, AreScriptOpened, IsCommandWhy, IsConfigWhy, IsReadWhy, IsRunningWhy, IsScriptWhy};
ghost use Rattle.ftpd_program.specs.Endings.{IsCommon, IsUnwritten};
ghost use Rattle.ftpd_program.specs.Runs.{IsCommandEnd, IsConfigEnd, IsPlanEnd, IsPrintEnd, IsReportEnd, IsRunningEnd, IsScriptEnd, IsTopEnd, after_table, plan_print, report_print};
ghost use Rattle.ftpd_program.specs.Serving.{IsServeEnd};
ghost use Rattle.ftpd_program.specs.declared.against.TheConstants.{RUNNING_FILE};

use super::against::{RUNNING_FILE, check_against};
use super::ending::FtpdExit;
use super::printing::{Print, PrintFault, run_print};
use super::scripting::{ScriptFault, run_script};
use super::server::Server;
use super::serving::serve;
use command_line::{ShareBy, Words, read_words};
use config_report::Lookout;
use sheets_program::{
    Exit as Common, Opener, STANDARD_INPUT, is_input, report, run_sheet_words, text_cause,
};
use std::alloc::Global;
use text_io::{TextFault, TextWriter};

const AGAINST_TWICE: &str =
    "error: --against and --against-running cannot both state the other configuration\n";

const NO_TEXT_LEFT: &str =
    "error: standard input cannot be both the configuration and the control text\n";

/// Prints a text about a file.
fn print_text<'w, O: Opener + Lookout, W: TextWriter>(
    alloc: Global,
    print: Print<'_>,
    config: &'w str,
    files: &mut O,
    output: &mut W,
) -> FtpdExit<'w>
    ensures end { IsPrintEnd print.entry (O.Shows files.new) (O.Gives files.old config.now)
        (W.may_refuse output.old) (W.contents output.old) (W.contents output.new) result }
    ensures why { IsReadWhy config.now
        (O.MayRefuse files.old config.now ⊎ O.MayFail files.old config.now) result }
    ensures opened { O.Opens files.old config.now files.new }
    ensures unwritten { IsUnwritten result → output.new ≡ output.old }
{
    let mut file = match files.open(config) {
        Ok(file) => file,
        Err(error) => {
            let cause = text_cause(TextFault::ReadFault, config, Some(error));
            return FtpdExit::Common(Common::Text(TextFault::ReadFault, cause));
        }
    };
    match run_print(alloc, print, &mut file, output, &*files) {
        Ok(()) => FtpdExit::Common(Common::Done),
        Err(PrintFault::Config(fault)) => FtpdExit::Config {
            file: config,
            fault,
        },
        Err(PrintFault::Transfers { name, reported }) => FtpdExit::Transfers { name, reported },
        Err(PrintFault::Status(fault)) => FtpdExit::Status {
            file: config,
            fault,
        },
        Err(PrintFault::Text(fault)) => {
            let cause = text_cause(fault, config, O::reason(&file));
            FtpdExit::Common(Common::Text(fault, cause))
        }
    }
}

/// The form of a report, and the way in which the line is to be shared, for its warnings.
#[derive(Clone, Copy)]
struct ReportForm {
    json: bool,
    share_by: ShareBy,
}

/// The report on the configuration of the file of a path, in that form.
fn report_print(path: &str, form: ReportForm) -> Print<'_>
    ensures print { result ≡ report_print form.json form.share_by path.entry }
{
    if form.json {
        Print::ReportJson(path, form.share_by)
    } else {
        Print::Report(path, form.share_by)
    }
}

/// The plan of transfers, as JSON or in lines.
fn plan_print(transfers: &str, json: bool, share_by: ShareBy) -> Print<'_>
    ensures print { result ≡ plan_print json transfers.entry share_by }
{
    if json {
        Print::PlanJson(transfers, share_by)
    } else {
        Print::Plan(transfers, share_by)
    }
}

/// The ending of `top` after the ending of its first table.
fn watching<'w>(once: bool, status: &'w str, rows: u16, ending: FtpdExit<'w>) -> FtpdExit<'w>
    ensures end { result ≡ after_table once status.entry rows ending.entry }
{
    match ending {
        FtpdExit::Common(Common::Done) if !once => FtpdExit::Watches { status, rows },
        ending => ending,
    }
}

/// Shows the transfers of a status. Returns that they are to be shown again and again, unless once is enough.
fn top<'w, O: Opener + Lookout, W: TextWriter>(
    alloc: Global,
    status: &'w str,
    once: bool,
    rows: u16,
    files: &mut O,
    output: &mut W,
) -> FtpdExit<'w>
    ensures end { IsTopEnd once status.now rows
        (IsPrintEnd (Print.Table rows) (O.Shows files.new) (O.Gives files.old status.now)
        (W.may_refuse output.old) (W.contents output.old) (W.contents output.new)) result }
    ensures why { IsReadWhy status.now
        (O.MayRefuse files.old status.now ⊎ O.MayFail files.old status.now) result }
    ensures opened { O.Opens files.old status.now files.new }
    ensures unwritten { IsUnwritten result → output.new ≡ output.old }
{
    let ending = print_text(alloc, Print::Table(rows), status, files, output);
    watching(once, status, rows, ending)
}

/// Serves the control text of standard input. Both files are opened before anything is read.
fn script<'w, O: Opener, W: TextWriter>(
    alloc: Global,
    config: &'w str,
    files: &mut O,
    output: &mut W,
) -> FtpdExit<'w>
    ensures end { IsScriptEnd (O.Gives files.old) config.now
        (W.contents output.old) (W.contents output.new) result }
    ensures why { IsScriptWhy (O.Gives files.old) (O.MayRefuse files.old) (O.MayFail files.old)
        (MayBreakWriting W.contents W.may_refuse output.old) config.now result }
    ensures opened { AreScriptOpened O.Opens files.old files.new
        (O.MayRefuse files.old) config.now result }
    ensures unwritten { IsUnwritten result → output.new ≡ output.old }
{
    if is_input(config) {
        return FtpdExit::Common(Common::refused(alloc, NO_TEXT_LEFT));
    }
    let mut file = match files.open(config) {
        Ok(file) => file,
        Err(error) => {
            let cause = text_cause(TextFault::ReadFault, config, Some(error));
            return FtpdExit::Common(Common::Text(TextFault::ReadFault, cause));
        }
    };
    let mut input = match files.open(STANDARD_INPUT) {
        Ok(input) => input,
        Err(error) => {
            let cause = text_cause(TextFault::ReadFault, STANDARD_INPUT, Some(error));
            return FtpdExit::Common(Common::Text(TextFault::ReadFault, cause));
        }
    };
    match run_script(alloc, &mut file, &mut input, output) {
        Ok(()) => FtpdExit::Common(Common::Done),
        Err(ScriptFault::Text(fault)) => {
            let cause = text_cause(fault, config, O::reason(&file));
            FtpdExit::Common(Common::Text(fault, cause))
        }
        Err(ScriptFault::Config(fault)) => FtpdExit::Config {
            file: config,
            fault,
        },
        Err(ScriptFault::Session(fault)) => FtpdExit::Session(fault),
    }
}

/// Runs `check-config` with the configuration that a server of the package has, unless another one is stated too.
fn check_running<'w, O: Opener + Lookout, W: TextWriter>(
    alloc: Global,
    json: bool,
    config: &'w str,
    against: Option<&'w str>,
    files: &mut O,
    output: &mut W,
) -> FtpdExit<'w>
    ensures end { IsRunningEnd json (O.Gives files.old) config.now against.entry
        (W.may_refuse output.old) (W.contents output.old) (W.contents output.new) result }
    ensures why { IsRunningWhy (O.MayRefuse files.old) (O.MayFail files.old) config.now
        against.entry result }
    ensures opened { AreRunningOpened O.Opens files.old files.new config.now against.entry result }
    ensures unwritten { IsUnwritten result → output.new ≡ output.old }
{
    match against {
        None => check_against(alloc, json, config, RUNNING_FILE, files, output),
        Some(_) => FtpdExit::Common(Common::refused(alloc, AGAINST_TWICE)),
    }
}

/// Runs `check-config`, with another configuration if one is stated, or with that which a server has.
fn check_config<'w, O: Opener + Lookout, W: TextWriter>(
    alloc: Global,
    form: ReportForm,
    config: &'w str,
    against: Option<&'w str>,
    running: bool,
    files: &mut O,
    output: &mut W,
) -> FtpdExit<'w>
    ensures end { IsConfigEnd (O.Gives files.old) (O.Shows files.new) (W.may_refuse output.old)
        config.entry form.json form.share_by against.entry running
        (W.contents output.old) (W.contents output.new) result }
    ensures why { IsConfigWhy (O.MayRefuse files.old) (O.MayFail files.old) config.entry
        against.entry running result }
    ensures opened { AreConfigOpened O.Opens files.old files.new config.entry against.entry running
        result }
    ensures unwritten { IsUnwritten result → output.new ≡ output.old }
{
    if running {
        return check_running(alloc, form.json, config, against, files, output);
    }
    match against {
        None => print_text(alloc, report_print(config, form), config, files, output),
        Some(other) => check_against(alloc, form.json, config, other, files, output),
    }
}

fn run_command<'w, O: Opener + Lookout, W: TextWriter, V: Server<W>>(
    alloc: Global,
    words: Words<'w>,
    files: &mut O,
    server: &mut V,
    output: &mut W,
) -> FtpdExit<'w>
    ensures end { IsCommandEnd (O.Gives files.old) (O.Shows files.new) V.Serves
        (W.may_refuse output.old) words.entry (W.contents output.old) (W.contents output.new) result }
    ensures why { IsCommandWhy (O.Gives files.old) (O.MayRefuse files.old)
        (O.MayFail files.old) (W.may_refuse output.old)
        (MayBreakWriting W.contents W.may_refuse output.old) words.entry result }
    ensures opened { AreCommandOpened O.Opens files.old files.new
        (O.MayRefuse files.old) words.entry result }
    ensures unwritten { IsUnwritten result → output.new ≡ output.old }
{
    match words {
        Words::Sheet(words) => FtpdExit::Common(run_sheet_words(alloc, words, files, output)),
        Words::CheckConfig {
            config,
            json,
            against,
            running,
            share_by,
        } => {
            let form = ReportForm { json, share_by };
            check_config(alloc, form, config, against, running, files, output)
        }
        Words::Migrate { config } => print_text(alloc, Print::Latest, config, files, output),
        Words::Script { config } => script(alloc, config, files, output),
        Words::Plan {
            config,
            transfers,
            json,
            share_by,
        } => {
            let print = plan_print(transfers, json, share_by);
            print_text(alloc, print, config, files, output)
        }
        Words::Serve {
            config,
            files: signs,
            patience,
        } => serve(alloc, config, signs, patience, files, server, output),
        Words::Top { status, once, rows } => top(alloc, status, once, rows, files, output),
        Words::Usage => FtpdExit::AddsUp,
    }
}

/// Runs the command of the words, which do not include the program's name. Nothing is written to the output if the
/// words are refused, nor before a fault other than that of the output; but a session that broke off may have written
/// some replies, a server that ended early its messages, and the report on a change that a server would refuse is the
/// output.
pub fn run_words<'w, O: Opener + Lookout, W: TextWriter, V: Server<W>>(
    alloc: Global,
    words: &'w [&'w str],
    files: &mut O,
    server: &mut V,
    output: &mut W,
) -> FtpdExit<'w>
    ensures share { (sheet : List ℕ) → IsPlainWord sheet
        → map (λ s. s.now) words.now ≡ codes "share" ∷ sheet ∷ []
        → IsCommon (IsShareEnd (O.Gives files.old) None false sheet
        (W.contents output.old) (W.contents output.new)) result }
    ensures share_svg { (sheet : List ℕ) → IsPlainWord sheet
        → map (λ s. s.now) words.now ≡ codes "share" ∷ sheet ∷ codes "--svg" ∷ []
        → IsCommon (IsShareEnd (O.Gives files.old) None true sheet
        (W.contents output.old) (W.contents output.new)) result }
    ensures check { (sheet grants : List ℕ) → IsPlainWord sheet → IsPlainWord grants
        → map (λ s. s.now) words.now ≡ codes "check" ∷ sheet ∷ grants ∷ []
        → IsCommon (IsCheckEnd (O.Gives files.old) None sheet grants
        (W.contents output.old) (W.contents output.new)) result }
    ensures check_config { (config : List ℕ) → IsPlainWord config
        → map (λ s. s.now) words.now ≡ codes "check-config" ∷ config ∷ []
        → IsReportEnd false (O.Shows files.new) (O.Gives files.old config) config
        (W.may_refuse output.old) (W.contents output.old) (W.contents output.new) result }
    ensures check_config_json { (config : List ℕ) → IsPlainWord config
        → map (λ s. s.now) words.now ≡ codes "check-config" ∷ config ∷ codes "--json" ∷ []
        → IsReportEnd true (O.Shows files.new) (O.Gives files.old config) config
        (W.may_refuse output.old) (W.contents output.old) (W.contents output.new) result }
    ensures check_against { (config other : List ℕ) → IsPlainWord config → IsPlainWord other
        → map (λ s. s.now) words.now ≡ against_words config other
        → IsAgainstEnd false (O.Gives files.old) config other (W.may_refuse output.old)
        (W.contents output.old) (W.contents output.new) result }
    ensures check_against_json { (config other : List ℕ) → IsPlainWord config → IsPlainWord other
        → map (λ s. s.now) words.now ≡ against_json_words config other
        → IsAgainstEnd true (O.Gives files.old) config other (W.may_refuse output.old)
        (W.contents output.old) (W.contents output.new) result }
    ensures check_running { (config : List ℕ) → IsPlainWord config
        → map (λ s. s.now) words.now ≡ running_words config
        → IsAgainstEnd false (O.Gives files.old) config RUNNING_FILE.now (W.may_refuse output.old)
        (W.contents output.old) (W.contents output.new) result }
    ensures migrate { (config : List ℕ) → IsPlainWord config
        → map (λ s. s.now) words.now ≡ codes "migrate" ∷ config ∷ []
        → IsPrintEnd Print.Latest (O.Shows files.new) (O.Gives files.old config)
        (W.may_refuse output.old) (W.contents output.old) (W.contents output.new) result }
    ensures script { (config : List ℕ) → IsPlainWord config
        → map (λ s. s.now) words.now ≡ codes "script" ∷ config ∷ []
        → IsScriptEnd (O.Gives files.old) config
        (W.contents output.old) (W.contents output.new) result }
    ensures serve { (config : List ℕ) → IsPlainWord config
        → map (λ s. s.now) words.now ≡ codes "serve" ∷ config ∷ []
        → IsServeEnd (O.Gives files.old config) (O.Shows files.new) config V.Serves
        None None usual_patience (W.contents output.old) (W.contents output.new) result }
    ensures serve_until { (config path : List ℕ) → IsPlainWord config → IsPlainWord path
        → map (λ s. s.now) words.now ≡ codes "serve" ∷ config ∷ codes "--stop-file" ∷ path ∷ []
        → IsServeEnd (O.Gives files.old config) (O.Shows files.new) config V.Serves
        (Some path) None usual_patience (W.contents output.old) (W.contents output.new) result }
    ensures serve_ready { (config path ready : List ℕ) → IsPlainWord config → IsPlainWord path
        → IsPlainWord ready
        → map (λ s. s.now) words.now ≡ ready_words config path ready
        → IsServeEnd (O.Gives files.old config) (O.Shows files.new) config V.Serves
        (Some path) (Some ready) usual_patience (W.contents output.old) (W.contents output.new) result }
    ensures serve_timed { (config first second third fourth : List ℕ) (p : Patience)
        → IsPlainWord config → IsSeconds first p.login_timeout → IsSeconds second p.idle_timeout
        → IsSeconds third p.login_delay → IsSeconds fourth p.drain_timeout
        → map (λ s. s.now) words.now ≡ timed_words config first second third fourth
        → IsServeEnd (O.Gives files.old config) (O.Shows files.new) config V.Serves
        None None p (W.contents output.old) (W.contents output.new) result }
    ensures plan { (config transfers : List ℕ) → IsPlainWord config → IsPlainWord transfers
        → map (λ s. s.now) words.now ≡ codes "plan" ∷ config ∷ transfers ∷ []
        → IsPlanEnd false (O.Shows files.new) (O.Gives files.old config) transfers
        (W.may_refuse output.old) (W.contents output.old) (W.contents output.new) result }
    ensures plan_json { (config transfers : List ℕ) → IsPlainWord config → IsPlainWord transfers
        → map (λ s. s.now) words.now ≡ codes "plan" ∷ config ∷ transfers ∷ codes "--json" ∷ []
        → IsPlanEnd true (O.Shows files.new) (O.Gives files.old config) transfers
        (W.may_refuse output.old) (W.contents output.old) (W.contents output.new) result }
    ensures top { (status : List ℕ) → IsPlainWord status
        → map (λ s. s.now) words.now ≡ codes "top" ∷ status ∷ []
        → IsTopEnd false status ROWS
        (IsPrintEnd (Print.Table ROWS) (O.Shows files.new) (O.Gives files.old status)
        (W.may_refuse output.old) (W.contents output.old) (W.contents output.new)) result }
    ensures top_once { (status lines : List ℕ) (n : ℕ) → IsPlainWord status → AreLines lines n
        → map (λ s. s.now) words.now ≡ top_words status lines
        → IsTopEnd true status n
        (IsPrintEnd (Print.Table n) (O.Shows files.new) (O.Gives files.old status)
        (W.may_refuse output.old) (W.contents output.old) (W.contents output.new)) result }
    ensures command { IsTaken (map (λ s. s.now) words.now)
        → IsCommon IsOutOfMemory result ⊎ ((command : Words)
        × IsFound (subcommand_of ftpd (map (λ s. s.now) words.now)) command
        × IsCommandEnd (O.Gives files.old) (O.Shows files.new) V.Serves (W.may_refuse output.old)
        command (W.contents output.old) (W.contents output.new) result
        × IsCommandWhy (O.Gives files.old) (O.MayRefuse files.old)
        (O.MayFail files.old) (W.may_refuse output.old)
        (MayBreakWriting W.contents W.may_refuse output.old) command result
        × AreCommandOpened O.Opens files.old files.new (O.MayRefuse files.old) command result) }
    ensures reported { (IsTaken (map (λ s. s.now) words.now) → ⊥) → (fault : WordsFault)
        × IsRefusedFor (map (λ s. s.now) words.now) fault
        × IsCommon (IsReportedEnd fault (W.contents output.old) (W.contents output.new)) result
        × (files.new ≡ files.old) }
    ensures unwritten { IsUnwritten result → output.new ≡ output.old }
{
    match read_words(alloc, words) {
        Ok(words) => run_command(alloc, words, files, server, output),
        Err(fault) => FtpdExit::Common(report(fault, output)),
    }
}
