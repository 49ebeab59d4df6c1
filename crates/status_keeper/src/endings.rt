//! Transfers by how they ended.

ghost use Rattle.std.specs.Prelude.{◌≡◌};
ghost use Rattle.status_keeper.specs.Endings.{counted};

use server_house::EndCause;
use server_status::EndCounts;

/// The counts with one more transfer, that ended for this reason; none if it came to its end.
pub(crate) fn counted(counts: EndCounts, cause: Option<EndCause>) -> EndCounts
    ensures counted { result ≡ counted counts cause }
{
    let mut more = counts;
    match cause {
        None => more.whole = counts.whole.saturating_add(1),
        Some(EndCause::Aborted) => more.aborted = counts.aborted.saturating_add(1),
        Some(EndCause::NothingPrepared)
        | Some(EndCause::NoClient)
        | Some(EndCause::NotAccepted(_))
        | Some(EndCause::NotConnected(_)) => {
            more.unconnected = counts.unconnected.saturating_add(1);
        }
        Some(EndCause::Connection(_)) | Some(EndCause::ControlLost) => {
            more.lost = counts.lost.saturating_add(1);
        }
        Some(EndCause::File) | Some(EndCause::Refused) => {
            more.file = counts.file.saturating_add(1);
        }
        Some(EndCause::NoMemory) => more.memory = counts.memory.saturating_add(1),
        Some(EndCause::ServerEnds) | Some(EndCause::SessionEnded) => {
            more.owner = counts.owner.saturating_add(1);
        }
    }
    more
}
