//! The words of transfers.

ghost use Rattle.std.specs.Prelude.{◌≡◌};
ghost use Rattle.session_notes.specs.Transfers.{IsFileTransfer, transfer_words};

use server_house::{ClientSession, TransferKind, TransferRecord};
use std::fmt;
use transfer_log::FileTransfer;

/// The words for a transfer of this kind, and whether it came to its end.
fn transfer_words(kind: TransferKind, is_whole: bool) -> &'static str
    ensures words { result.now ≡ transfer_words kind is_whole }
{
    match (kind, is_whole) {
        (TransferKind::Sent, true) => "sent",
        (TransferKind::Received, true) => "received",
        (TransferKind::Listed, true) => "listed",
        (TransferKind::Sent, false) => "not sent whole",
        (TransferKind::Received, false) => "not received whole",
        (TransferKind::Listed, false) => "not listed whole",
    }
}

/// A transfer without the reason of its end: its words and its path, if that is known, its user, the octets that were moved, and the
/// seconds that it took, with their thousandths.
#[derive(Clone, Copy)]
pub(crate) struct TransferText<'a>(pub TransferRecord<'a>);

impl fmt::Display for TransferText<'_> {
    ghost use Rattle.session_notes.specs.Transfers.{transfer_text};

    ghost output = { λ text. transfer_text text.0 };

    fn fmt<W: fmt::Write>(&self, f: &mut fmt::Formatter<W>) -> fmt::Result {
        let words = transfer_words(self.0.kind, self.0.cause.is_none());
        let (user, octets) = (self.0.user, self.0.octets);
        let seconds = self.0.micros / 1_000_000;
        let tenths = self.0.micros / 100_000 % 10;
        let hundredths = self.0.micros / 10_000 % 10;
        let thousandths = self.0.micros / 1_000 % 10;
        f.write_str(words)?;
        if let Some(path) = self.0.path {
            write!(f, " {path:?}")?;
        }
        write!(f, ": user {user:?}, {octets} octets, ")?;
        write!(f, "{seconds}.{tenths}{hundredths}{thousandths} s")
    }
}

/// The transfer of a file of a session as a transfer log has it, at the second of its end; none for a listing.
pub(crate) fn file_transfer<'a>(
    session: ClientSession,
    record: &TransferRecord<'a>,
    ended: u64,
) -> Option<FileTransfer<'a>>
    ensures transfer { IsFileTransfer session record.now ended result }
{
    let is_sent = match record.kind {
        TransferKind::Sent => true,
        TransferKind::Received => false,
        TransferKind::Listed => return None,
    };
    let peer = session.peer;
    Some(FileTransfer {
        ended,
        micros: record.micros,
        peer,
        octets: record.octets,
        path: record.path.unwrap_or(""),
        is_text: record.is_text,
        is_sent,
        user: record.user,
        is_whole: record.cause.is_none(),
    })
}
