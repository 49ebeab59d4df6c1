//! The command `share`, as a picture.

ghost use Rattle.std.specs.Prelude.{◌≡◌, ◌≢◌, ◌<◌, ℕ, List, None, Some, true, IfErr, IfOk, IfSome, IsErrAnd, IsErrOf, OnOk, length, string_bytes};
ghost use Rattle.std.specs.Io.KnownBytes.{Appends};
ghost use Rattle.sheet_text.specs.Sheet.{IsSheetFaultOf, sheet_fault};
ghost use Rattle.sheet_text.specs.declared.fault.SheetFault.{SheetFault};
ghost use Rattle.sheet_commands.specs.ShareFaults.{IsUnread, IsUnshared};
ghost use Rattle.text_io.specs.Texts.{IsTextOf};
ghost use Rattle.sheet_commands.specs.Pictures.{IsPictureBy};

use crate::picture::picture_of;
use crate::picture_users::picture_at;
use crate::share_fault::ShareFault;
use std::alloc::Allocator;
use text_io::{MAX_TEXT, TextFault, TextReader, TextWriter, read_whole, write_whole};

/// The picture of the sharing of a sheet, among the users of a depth if one is given.
fn picture_by<A: Allocator + Clone>(
    alloc: A,
    by: Option<usize>,
    text: &[u8],
) -> Result<String<A>, ShareFault>
    ensures drawn { IfOk result (λ picture. IsPictureBy by text.now (string_bytes picture)) }
    ensures faults { IfErr result (IsUnshared by text.now) }
{
    match by {
        Some(depth) => picture_at(alloc, text, depth),
        None => {
            let picture = picture_of(alloc, text)?;
            Ok(picture)
        }
    }
}

/// Reads a sheet, and writes the picture of its sharing: among the users of a depth first, if one is given. A text of
/// more than `MAX_TEXT` octets is not read to its end.
///
/// `WriteFault`: the writer refuses this picture, and any part of it may have gone out. Any other fault comes before
/// the first octet is written.
pub fn run_picture<A: Allocator + Clone, R: TextReader, W: TextWriter>(
    alloc: A,
    by: Option<usize>,
    reader: &mut R,
    writer: &mut W,
) -> Result<(), ShareFault>
    ensures written { OnOk result ((text : List ℕ) → R.remaining reader.old ≡ Some text
        → (printed : List ℕ) × IsPictureBy by text printed
        × Appends (W.contents writer.old) (W.contents writer.new) printed) }
    ensures sheet { (fault : SheetFault) → IsErrOf result (ShareFault.Sheet fault)
        → (text : List ℕ) → R.remaining reader.old ≡ Some text → IsSheetFaultOf text fault }
    ensures users { IsErrOf result ShareFault.UserTooLarge → (by ≢ None)
        × ((text : List ℕ) → R.remaining reader.old ≡ Some text → sheet_fault text ≡ None) }
    ensures too_long { IsErrOf result (ShareFault.Text TextFault.TooLong)
        → IfSome (R.remaining reader.old) (λ text. MAX_TEXT < length text) }
    ensures long { (text : List ℕ) → R.remaining reader.old ≡ Some text → MAX_TEXT < length text
        → IsErrAnd result IsUnread }
    ensures read_fault { IsErrOf result (ShareFault.Text TextFault.ReadFault)
        → R.may_fail reader.old ≡ true }
    ensures write_fault { IsErrOf result (ShareFault.Text TextFault.WriteFault)
        → (text printed : List ℕ) × IsTextOf text (R.remaining reader.old)
        × IsPictureBy by text printed × W.may_refuse writer.old printed }
    ensures unwritten { IfErr result (λ fault. fault ≢ ShareFault.Text TextFault.WriteFault
        → writer.new ≡ writer.old) }
{
    let text = read_whole(alloc.clone()?, reader)?;
    let picture = picture_by(alloc, by, &text)?;
    write_whole(&picture, writer)?;
    Ok(())
}
