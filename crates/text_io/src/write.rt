//! A text written in one go.

ghost use Rattle.std.specs.Prelude.{◌≡◌, IfErr, OnOk};
ghost use Rattle.std.specs.Io.KnownBytes.{Appends};

use crate::ends::TextWriter;
use crate::fault::TextFault;

/// Writes a text. `WriteFault`: the writer refuses that text.
pub fn write_whole<W: TextWriter>(text: &str, writer: &mut W) -> Result<(), TextFault>
    ensures written { OnOk result
        (Appends (W.contents writer.old) (W.contents writer.new) text.now) }
    ensures write_fault { IfErr result (λ fault. (fault ≡ TextFault.WriteFault)
        × W.may_refuse writer.old text.now) }
{
    match writer.write_text(text.as_bytes()) {
        Ok(()) => Ok(()),
        Err(_) => Err(TextFault::WriteFault),
    }
}
