//! Laws of every wire text.

ghost use Rattle.data_pump.specs.WireText.{IsSentInPieces, IsReceivedAsSent};

/// The wire text of two pieces is that of the first, followed by that of the second.
pub fn wire_text_in_pieces()
    ensures pieces { IsSentInPieces }
{}

/// Receiving what was sent returns the original, for any octets.
pub fn sent_text_is_received()
    ensures received { IsReceivedAsSent }
{}
