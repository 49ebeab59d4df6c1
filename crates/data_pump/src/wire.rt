//! Conversion of text between a file and the wire, piece by piece.

ghost use Rattle.std.specs.Prelude.{◌≡◌, ◌*◌, ◌<◌, ◌≤◌, [], ◌∷◌, length, take, IfSome, IfNone};
ghost use Rattle.data_pump.specs.WireText.{sent, HoldsNothing, ReceivesOctets};

use crate::runs::{CR, receive_text, send_text};
use ftp_terms::DataType;
use std::marker::Model;

/// Converts the octets of a file to those on the wire, and back (RFC 959, section 3.1.1).
///
/// TYPE I changes nothing. Under TYPE A each LF of the file is CR LF on the wire, and any other CR is kept as it is. A
/// CR at the end of a received piece is held back, since an LF may follow. No call allocates.
#[derive(Drop)]
pub struct Wire {
    data_type: DataType,
    holds_cr: bool,
}

impl Model for Wire {
    ghost use Rattle.data_pump.specs.WireText.{WireView, cr_if, HoldsTextAlone};

    ghost Value = { WireView };

    ghost view = { λ w. record { data_type = w.data_type; held = cr_if w.holds_cr } };

    ghost invariant = { λ w. HoldsTextAlone w.data_type w.holds_cr };
}

impl Wire {
    /// A wire with nothing held back.
    pub fn new(data_type: DataType) -> Wire
        ensures wire { result ≡ record { data_type = data_type; held = [] } }
    {
        Wire {
            data_type,
            holds_cr: false,
        }
    }

    /// Writes a piece of a file as wire text to the start of the buffer, and returns its length.
    pub fn to_wire(&self, piece: &[u8], wire: &mut [u8]) -> usize
        requires room { 2 * length piece.now ≤ length wire.old }
        ensures bound { result ≤ length wire.new }
        ensures sent { take result wire.new ≡ sent self.now.data_type piece.now }
    {
        match self.data_type {
            DataType::Ascii => send_text(piece, wire),
            DataType::Image => {
                wire[..piece.len()].copy_from_slice(piece);
                piece.len()
            }
        }
    }

    /// Writes the text of a piece, after what was held back, to the start of the buffer, and returns its length.
    pub fn from_wire(&mut self, piece: &[u8], text: &mut [u8]) -> usize
        requires room { length piece.now < length text.old }
        ensures bound { result ≤ length text.new }
        ensures data_type { self.new.data_type ≡ self.old.data_type }
        ensures received { ReceivesOctets self.old.data_type self.old.held piece.now
            (take result text.new) self.new.held }
    {
        match self.data_type {
            DataType::Ascii => {
                let (count, holds_cr) = receive_text(self.holds_cr, piece, text);
                self.holds_cr = holds_cr;
                count
            }
            DataType::Image => {
                text[..piece.len()].copy_from_slice(piece);
                piece.len()
            }
        }
    }

    /// The data type of the octets.
    pub fn data_type(&self) -> DataType
        ensures data_type { result ≡ self.now.data_type }
        ensures held { HoldsNothing self.now.data_type self.now.held }
    {
        self.data_type
    }

    /// Returns the CR that was held back, if there is one: no octet follows it.
    pub fn finish(&mut self) -> Option<u8>
        ensures data_type { self.new.data_type ≡ self.old.data_type }
        ensures nothing { self.new.held ≡ [] }
        ensures held { IfSome result (λ octet. self.old.held ≡ octet ∷ []) }
        ensures none { IfNone result (self.old.held ≡ []) }
    {
        let holds_cr = self.holds_cr;
        self.holds_cr = false;
        if holds_cr {
            return Some(CR);
        }
        None
    }
}
