//! Checking grants within the limits of a sheet.

ghost use Rattle.std.specs.Prelude.{◌≡◌, ◌≢◌, ◌<◌, ℕ, List, Some, None, true, IfErr, IfOk, IfSome, IsErrAnd, IsErrOf, length, string_bytes};
ghost use Rattle.std.specs.Io.KnownBytes.{Appends};
ghost use Rattle.sheet_text.specs.Views.{IsSheetOf};
ghost use Rattle.sheet_text.specs.Sheet.{IsSheetFaultOf, sheet_fault};
ghost use Rattle.text_io.specs.Texts.{IsTextOf};
ghost use Rattle.sheet_commands.specs.Checking.{IsCheckOf, IsGrantsFaultOf};
ghost use Rattle.sheet_commands.specs.CheckFaults.{IsOfItsPlace, IsSheetUnread, IsUnread};
ghost use Rattle.sheet_commands.specs.Reading.{IsCheckBeside, IsCheckWithin, IsFaultBeside, IsFaultWithin};
ghost use Rattle.sheet_commands.specs.CheckUsers.{IsCheckBy};
ghost use Rattle.sheet_commands.specs.declared.sheet_verdict.SheetVerdict.{SheetVerdict};
ghost use Rattle.sheet_text.specs.declared.fault.SheetFault.{SheetFault};

use crate::check_fault::CheckFault;
use crate::check_users::{Judged, verdict_at};
use crate::grants::read_grants;
use crate::grants_fault::GrantsFault;
use crate::sheet_verdict::{SheetVerdict, plain};
use crate::verdict::verdict_line;
use grant_certificate::{Verdict, check};
use sheet_text::{Sheet, read_sheet};
use std::alloc::Allocator;
use text_io::{MAX_TEXT, TextFault, TextReader, TextWriter, read_whole, write_whole};

/// The verdict on grants without users, and its line.
#[derive(Drop)]
pub struct Checked<A: Allocator> {
    pub verdict: Verdict,
    pub line: String<A>,
}

/// The verdict on the grants of a text within the limits of a sheet: `yes` if they are within them and backed by
/// the nodes that the text names, and so best; otherwise `no` with the first flaw.
pub fn verdict_of<A: Allocator + Clone>(
    alloc: A,
    sheet: &Sheet<'_, A>,
    text: &[u8],
) -> Result<Checked<A>, GrantsFault>
    ensures checked { IfOk result (λ checked. (source : List ℕ) → IsSheetOf source sheet.now
        → IsCheckOf source text.now checked.verdict (string_bytes checked.line)) }
    ensures grants { IfErr result (λ fault. fault ≢ GrantsFault.Memory
        → (source : List ℕ) → IsSheetOf source sheet.now → IsGrantsFaultOf source text.now fault) }
{
    let (grants, certificate) = read_grants(alloc.clone()?, text, sheet)?;
    let verdict = check(sheet.tree(), &grants, &certificate);
    let line = verdict_line(alloc, sheet, &grants, verdict)?;
    Ok(Checked { verdict, line })
}

/// The verdict on the grants of a text within the limits of a sheet, among the users of a depth if one is given.
fn verdict_by<A: Allocator + Clone>(
    alloc: A,
    by: Option<usize>,
    sheet: &Sheet<'_, A>,
    text: &[u8],
) -> Result<Judged<A>, GrantsFault>
    ensures checked { IfOk result (λ judged. (source : List ℕ) → IsSheetOf source sheet.now
        → IsCheckBy by source text.now judged.verdict (string_bytes judged.line)) }
    ensures grants { IfErr result (λ fault. fault ≢ GrantsFault.Memory
        → (source : List ℕ) → IsSheetOf source sheet.now → IsGrantsFaultOf source text.now fault) }
{
    match by {
        Some(depth) => verdict_at(alloc, sheet, text, depth),
        None => {
            let Checked { verdict, line } = verdict_of(alloc, sheet, text)?;
            let verdict = plain(verdict);
            Ok(Judged { verdict, line })
        }
    }
}

/// Reads a grants file, and checks its grants within the limits of a sheet.
fn check_within<A: Allocator + Clone, Q: TextReader>(
    alloc: A,
    by: Option<usize>,
    sheet: &Sheet<'_, A>,
    grants: &mut Q,
) -> Result<Judged<A>, CheckFault>
    ensures checked { IfOk result (λ judged.
        IsCheckWithin by sheet.now (Q.remaining grants.old)
        judged.verdict (string_bytes judged.line)) }
    ensures faults { IfErr result
        (IsFaultWithin sheet.now (Q.remaining grants.old) (Q.may_fail grants.old)) }
{
    let text = match read_whole(alloc.clone()?, grants) {
        Ok(text) => text,
        Err(fault) => return Err(CheckFault::GrantsText(fault)),
    };
    let judged = verdict_by(alloc, by, sheet, &text)?;
    Ok(judged)
}

/// Reads a sheet's text and then a grants file, and checks the grants.
fn check_beside<A: Allocator + Clone, Q: TextReader>(
    alloc: A,
    by: Option<usize>,
    sheet_text: &[u8],
    grants: &mut Q,
) -> Result<Judged<A>, CheckFault>
    ensures checked { IfOk result (λ judged. IsCheckBeside by sheet_text.now
        (Q.remaining grants.old) judged.verdict (string_bytes judged.line)) }
    ensures faults { IfErr result
        (IsFaultBeside sheet_text.now (Q.remaining grants.old) (Q.may_fail grants.old)) }
    ensures judged_first { (fault : SheetFault) → IsErrOf result (CheckFault.Sheet fault)
        → grants.new ≡ grants.old }
{
    let sheet = read_sheet(alloc.clone()?, sheet_text)?;
    check_within(alloc, by, &sheet, grants)
}

/// Reads a sheet and then a grants file, checks the grants, among the users of a depth if one is given, writes the
/// verdict, and returns it. The sheet is checked before the grants are read, and no text of more than `MAX_TEXT` octets
/// is read to its end.
///
/// `WriteFault`: the writer refuses this line, and any part of it may have gone out. Any other fault comes before the
/// first octet is written.
pub fn run_check<A: Allocator + Clone, R: TextReader, Q: TextReader, W: TextWriter>(
    alloc: A,
    by: Option<usize>,
    sheet: &mut R,
    grants: &mut Q,
    writer: &mut W,
) -> Result<SheetVerdict, CheckFault>
    ensures checked { IfOk result (λ verdict. (sheet_text grants_text : List ℕ)
        → R.remaining sheet.old ≡ Some sheet_text → Q.remaining grants.old ≡ Some grants_text
        → (printed : List ℕ) × IsCheckBy by sheet_text grants_text verdict printed
        × Appends (W.contents writer.old) (W.contents writer.new) printed) }
    ensures sheet { (fault : SheetFault) → IsErrOf result (CheckFault.Sheet fault)
        → (text : List ℕ) → R.remaining sheet.old ≡ Some text → IsSheetFaultOf text fault }
    ensures judged_first { (fault : SheetFault) → IsErrOf result (CheckFault.Sheet fault)
        → grants.new ≡ grants.old }
    ensures grants { (fault : GrantsFault) → IsErrOf result (CheckFault.Grants fault)
        → (sheet_text grants_text : List ℕ)
        → R.remaining sheet.old ≡ Some sheet_text → Q.remaining grants.old ≡ Some grants_text
        → IsGrantsFaultOf sheet_text grants_text fault }
    ensures sheet_too_long { IsErrOf result (CheckFault.SheetText TextFault.TooLong)
        → IfSome (R.remaining sheet.old) (λ text. MAX_TEXT < length text) }
    ensures grants_too_long { IsErrOf result (CheckFault.GrantsText TextFault.TooLong)
        → IfSome (R.remaining sheet.old) (λ text. sheet_fault text ≡ None)
        × IfSome (Q.remaining grants.old) (λ text. MAX_TEXT < length text) }
    ensures long_sheet { (text : List ℕ) → R.remaining sheet.old ≡ Some text
        → MAX_TEXT < length text → IsErrAnd result IsSheetUnread × (grants.new ≡ grants.old) }
    ensures long_grants { (sheet_text text : List ℕ) → R.remaining sheet.old ≡ Some sheet_text
        → sheet_fault sheet_text ≡ None
        → Q.remaining grants.old ≡ Some text → MAX_TEXT < length text → IsErrAnd result IsUnread }
    ensures sheet_read_fault { IsErrOf result (CheckFault.SheetText TextFault.ReadFault)
        → R.may_fail sheet.old ≡ true }
    ensures grants_read_fault { IsErrOf result (CheckFault.GrantsText TextFault.ReadFault)
        → Q.may_fail grants.old ≡ true }
    ensures write_fault { IsErrOf result (CheckFault.Text TextFault.WriteFault)
        → (sheet_text grants_text printed : List ℕ) × (verdict : SheetVerdict)
        × IsTextOf sheet_text (R.remaining sheet.old)
        × IsTextOf grants_text (Q.remaining grants.old)
        × IsCheckBy by sheet_text grants_text verdict printed × W.may_refuse writer.old printed }
    ensures places { IfErr result IsOfItsPlace }
    ensures unwritten { IfErr result (λ fault. fault ≢ CheckFault.Text TextFault.WriteFault
        → writer.new ≡ writer.old) }
{
    let sheet_text = match read_whole(alloc.clone()?, sheet) {
        Ok(text) => text,
        Err(fault) => return Err(CheckFault::SheetText(fault)),
    };
    let Judged { verdict, line } = check_beside(alloc, by, &sheet_text, grants)?;
    write_whole(&line, writer)?;
    Ok(verdict)
}
