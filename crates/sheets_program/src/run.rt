//! Running the command of a line's words.

ghost use Rattle.std.specs.Io.KnownBytes.{Appends};
ghost use Rattle.std.specs.Prelude.{◌≡◌, ◌≢◌, ◌<◌, ◌⊎◌, ◌↔◌, ◌∷◌, [], ℕ, List, None, Some, false, true, IfErr, IfSome, IsErrOf, IsTrue, OnOk, codes, length, map};
ghost use Rattle.clap.specs.Words.{fault_of, subcommand_of};
ghost use Rattle.command_line.specs.Commands.{sheets};
ghost use Rattle.command_line.specs.Given.{IsPlainWord, IsRefusal, IsSheetFound};
ghost use Rattle.command_line.specs.declared.words.SheetWords.{SheetWords};
ghost use Rattle.command_line.specs.declared.words.WordsFault.{WordsFault};
ghost use Rattle.sheets_program.specs.Causes.{AreBothOpened, AreOpened, IsCheckReason, IsShareReason, IsSheetWhy};
ghost use Rattle.sheets_program.specs.Endings.{IsOutOfMemory, IsReportedEnd, IsUnwritten};
ghost use Rattle.sheets_program.specs.Runs.{IsCheckEnd, IsNamedTwice, IsShareEnd, IsSheetEnd, IsShown};
ghost use Rattle.sheet_text.specs.Sheet.{IsSheetFaultOf, sheet_fault};
ghost use Rattle.sheet_text.specs.declared.fault.SheetFault.{SheetFault};
ghost use Rattle.text_io.specs.Texts.{IsTextOf};
ghost use Rattle.text_io.specs.declared.read.TheConstants.{MAX_TEXT};

use crate::cause::{Cause, check_cause, share_cause};
use crate::ending::{Exit, report};
use crate::files::{Opener, is_input};
use command_line::{SheetWords, read_sheet_words, stated_depth};
use sheet_commands::{CheckFault, ShareFault, SheetVerdict, run_check, run_picture, run_share};
use std::alloc::Global;
use text_io::{TextFault, TextReader, TextWriter};

const READ_TWICE: &str = "error: standard input cannot be both the sheet and the grants\n";

/// Shares the sheet of a reader, among the users of a depth if one is given, as a picture or in lines.
fn show<R: TextReader, W: TextWriter>(
    alloc: Global,
    by: Option<usize>,
    svg: bool,
    reader: &mut R,
    output: &mut W,
) -> Result<(), ShareFault>
    ensures written { OnOk result ((text : List ℕ) → R.remaining reader.old ≡ Some text
        → (printed : List ℕ) × IsShown by svg text printed
        × Appends (W.contents output.old) (W.contents output.new) printed) }
    ensures sheet { (fault : SheetFault) → IsErrOf result (ShareFault.Sheet fault)
        → (text : List ℕ) → R.remaining reader.old ≡ Some text → IsSheetFaultOf text fault }
    ensures users { IsErrOf result ShareFault.UserTooLarge → (by ≢ None)
        × ((text : List ℕ) → R.remaining reader.old ≡ Some text → sheet_fault text ≡ None) }
    ensures too_long { IsErrOf result (ShareFault.Text TextFault.TooLong)
        → IfSome (R.remaining reader.old) (λ text. MAX_TEXT < length text) }
    ensures read_fault { IsErrOf result (ShareFault.Text TextFault.ReadFault)
        → R.may_fail reader.old ≡ true }
    ensures write_fault { IsErrOf result (ShareFault.Text TextFault.WriteFault)
        → (text printed : List ℕ) × IsTextOf text (R.remaining reader.old)
        × IsShown by svg text printed × W.may_refuse output.old printed }
    ensures unwritten { IfErr result (λ fault. fault ≢ ShareFault.Text TextFault.WriteFault
        → output.new ≡ output.old) }
{
    match svg {
        true => run_picture(alloc, by, reader, output),
        false => run_share(alloc, by, reader, output),
    }
}

fn share<'w, O: Opener, W: TextWriter>(
    alloc: Global,
    by: Option<usize>,
    sheet: &'w str,
    svg: bool,
    files: &mut O,
    output: &mut W,
) -> Exit<'w>
    ensures end { IsShareEnd (O.Gives files.old) by svg sheet.now
        (W.contents output.old) (W.contents output.new) result }
    ensures why { IsShareReason (O.Gives files.old sheet.now) (O.MayRefuse files.old sheet.now)
        (O.MayFail files.old sheet.now) (W.may_refuse output.old) by svg result }
    ensures opened { O.Opens files.old sheet.now files.new }
    ensures unwritten { IsUnwritten result → output.new ≡ output.old }
{
    let mut file = match files.open(sheet) {
        Ok(file) => file,
        Err(error) => {
            let cause = Cause {
                file: Some(sheet),
                reason: Some(error),
            };
            return Exit::Share(ShareFault::Text(TextFault::ReadFault), cause);
        }
    };
    match show(alloc, by, svg, &mut file, output) {
        Ok(()) => Exit::Done,
        Err(fault) => Exit::Share(fault, share_cause(fault, sheet, O::reason(&file))),
    }
}

fn is_named_twice(sheet: &str, grants: &str) -> bool
    ensures { IsTrue result ↔ IsNamedTwice sheet.now grants.now }
{
    is_input(sheet) && is_input(grants)
}

/// Runs `check`, among the users of a depth if one is given. Both files are opened before anything is read.
fn check<'w, O: Opener, W: TextWriter>(
    alloc: Global,
    by: Option<usize>,
    sheet: &'w str,
    grants: &'w str,
    files: &mut O,
    output: &mut W,
) -> Exit<'w>
    ensures end { IsCheckEnd (O.Gives files.old) by sheet.now grants.now
        (W.contents output.old) (W.contents output.new) result }
    ensures why { IsCheckReason by (O.Gives files.old sheet.now) (O.Gives files.old grants.now)
        (O.MayRefuse files.old sheet.now ⊎ O.MayFail files.old sheet.now)
        (O.MayRefuse files.old grants.now ⊎ O.MayFail files.old grants.now)
        (W.may_refuse output.old) result }
    ensures opened { AreBothOpened O.Opens files.old files.new
        (O.MayRefuse files.old) sheet.now grants.now result }
    ensures unwritten { IsUnwritten result → output.new ≡ output.old }
{
    if is_named_twice(sheet, grants) {
        return Exit::refused(alloc, READ_TWICE);
    }
    let mut first = match files.open(sheet) {
        Ok(file) => file,
        Err(error) => {
            let cause = Cause {
                file: Some(sheet),
                reason: Some(error),
            };
            return Exit::Check(CheckFault::SheetText(TextFault::ReadFault), cause);
        }
    };
    let mut second = match files.open(grants) {
        Ok(file) => file,
        Err(error) => {
            let cause = Cause {
                file: Some(grants),
                reason: Some(error),
            };
            return Exit::Check(CheckFault::GrantsText(TextFault::ReadFault), cause);
        }
    };
    match run_check(alloc, by, &mut first, &mut second, output) {
        Ok(SheetVerdict::Yes) => Exit::Done,
        Ok(SheetVerdict::No(_)) => Exit::Flawed,
        Ok(SheetVerdict::NotBestByUsers) => Exit::Flawed,
        Err(fault) => {
            let cause = check_cause(fault, sheet, O::reason(&first), grants, O::reason(&second));
            Exit::Check(fault, cause)
        }
    }
}

/// Runs a command on a sheet, `share` or `check`, on files that are opened in the order of its words. Nothing is
/// written to the output if a word states no depth or standard input is named twice, nor before a fault other than that
/// of the output.
pub fn run_sheet_words<'w, O: Opener, W: TextWriter>(
    alloc: Global,
    words: SheetWords<'w>,
    files: &mut O,
    output: &mut W,
) -> Exit<'w>
    ensures end { IsSheetEnd (O.Gives files.old) words.entry
        (W.contents output.old) (W.contents output.new) result }
    ensures why { IsSheetWhy (O.Gives files.old) (O.MayRefuse files.old)
        (O.MayFail files.old) (W.may_refuse output.old) words.entry result }
    ensures opened { AreOpened O.Opens files.old files.new
        (O.MayRefuse files.old) words.entry result }
    ensures unwritten { IsUnwritten result → output.new ≡ output.old }
{
    match words {
        SheetWords::Share { sheet, svg, by } => match stated_depth(alloc, by) {
            Ok(depth) => share(alloc, depth, sheet, svg, files, output),
            Err(refusal) => report(refusal, output),
        },
        SheetWords::Check { sheet, grants, by } => match stated_depth(alloc, by) {
            Ok(depth) => check(alloc, depth, sheet, grants, files, output),
            Err(refusal) => report(refusal, output),
        },
    }
}

/// Runs the command of the words of `sheets`, which do not include the program's name. Nothing is written to the output
/// if the words are refused, nor before a fault other than that of the output.
pub fn run_sheets<'w, O: Opener, W: TextWriter>(
    alloc: Global,
    words: &'w [&'w str],
    files: &mut O,
    output: &mut W,
) -> Exit<'w>
    ensures share { (sheet : List ℕ) → IsPlainWord sheet
        → map (λ s. s.now) words.now ≡ codes "share" ∷ sheet ∷ []
        → IsShareEnd (O.Gives files.old) None false sheet
        (W.contents output.old) (W.contents output.new) result }
    ensures share_svg { (sheet : List ℕ) → IsPlainWord sheet
        → map (λ s. s.now) words.now ≡ codes "share" ∷ sheet ∷ codes "--svg" ∷ []
        → IsShareEnd (O.Gives files.old) None true sheet
        (W.contents output.old) (W.contents output.new) result }
    ensures check { (sheet grants : List ℕ) → IsPlainWord sheet → IsPlainWord grants
        → map (λ s. s.now) words.now ≡ codes "check" ∷ sheet ∷ grants ∷ []
        → IsCheckEnd (O.Gives files.old) None sheet grants
        (W.contents output.old) (W.contents output.new) result }
    ensures command { fault_of sheets (map (λ s. s.now) words.now) ≡ []
        → IsOutOfMemory result ⊎ ((command : SheetWords)
        × IsSheetFound (subcommand_of sheets (map (λ s. s.now) words.now)) command
        × IsSheetEnd (O.Gives files.old) command
        (W.contents output.old) (W.contents output.new) result
        × IsSheetWhy (O.Gives files.old) (O.MayRefuse files.old)
        (O.MayFail files.old) (W.may_refuse output.old) command result
        × AreOpened O.Opens files.old files.new (O.MayRefuse files.old) command result) }
    ensures reported { fault_of sheets (map (λ s. s.now) words.now) ≢ [] → (fault : WordsFault)
        × IsRefusal (fault_of sheets (map (λ s. s.now) words.now)) fault
        × IsReportedEnd fault (W.contents output.old) (W.contents output.new) result
        × (files.new ≡ files.old) }
    ensures unwritten { IsUnwritten result → output.new ≡ output.old }
{
    match read_sheet_words(alloc, words) {
        Ok(words) => run_sheet_words(alloc, words, files, output),
        Err(fault) => report(fault, output),
    }
}
