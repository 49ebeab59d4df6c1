//! Replies with a fixed text that report success or a next step.

ghost use Rattle.std.specs.Prelude.{◌≡◌};
ghost use Rattle.session_table.specs.Answers.{notice_row};

use ftp_terms::DataType;

/// A reply with a fixed text whose code begins with 1, 2 or 3 (RFC 959, section 4.2.1).
#[derive(Clone, Copy, Debug, PartialEq, Eq)]
pub enum Notice {
    /// 150: a transfer begins.
    Opening,
    Fine,
    Utf8IsOn,
    NoFactsInForce,
    TypeIs(DataType),
    ModeIsStream,
    StructureIsFile,
    OnlyExtended,
    NoAllocation,
    TransferInProgress,
    NoTransfer,
    Standards,
    System,
    Goodbye,
    NothingToAbort,
    TransferComplete,
    AbortDone,
    DirectoryChanged,
    DirectoryRemoved,
    FileRemoved,
    Renamed,
    PasswordRequired,
    SendRnto,
}

impl Notice {
    /// Its code and its text.
    pub(crate) fn row(self) -> (u16, &'static str)
        ensures code { result.0 ≡ (notice_row self).0 }
        ensures text { result.1.now ≡ (notice_row self).1 }
    {
        match self {
            Notice::Opening => (150, "Opening data connection"),
            Notice::Fine => (200, "OK"),
            Notice::Utf8IsOn => (200, "UTF8 is on"),
            Notice::NoFactsInForce => (200, "MLST OPTS"),
            Notice::TypeIs(DataType::Ascii) => (200, "Type is A"),
            Notice::TypeIs(DataType::Image) => (200, "Type is I"),
            Notice::ModeIsStream => (200, "Mode is S"),
            Notice::StructureIsFile => (200, "Structure is F"),
            Notice::OnlyExtended => (200, "EPSV ALL is in force"),
            Notice::NoAllocation => (202, "No storage allocation needed"),
            Notice::TransferInProgress => (211, "Transfer in progress"),
            Notice::NoTransfer => (211, "No transfer"),
            Notice::Standards => (214, "See RFC 959, RFC 2428 and RFC 3659"),
            Notice::System => (215, "UNIX Type: L8"),
            Notice::Goodbye => (221, "Goodbye"),
            Notice::NothingToAbort => (225, "No transfer"),
            Notice::TransferComplete => (226, "Transfer complete"),
            Notice::AbortDone => (226, "Abort done"),
            Notice::DirectoryChanged => (250, "Directory changed"),
            Notice::DirectoryRemoved => (250, "Directory removed"),
            Notice::FileRemoved => (250, "File removed"),
            Notice::Renamed => (250, "Renamed"),
            Notice::PasswordRequired => (331, "Password required"),
            Notice::SendRnto => (350, "Send RNTO"),
        }
    }
}
