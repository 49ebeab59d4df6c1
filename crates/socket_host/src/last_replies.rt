//! The last replies to clients whose sessions end without their doing.

ghost use Rattle.std.specs.Prelude.{◌≡◌, option_map};
ghost use Rattle.socket_host.specs.Texts.{last_reply, time_out_reply};

use client_patience::TimeOut;

/// The reply to a client whose session the server ends.
const ENDING: &[u8] = b"421 Server is ending\r\n";

/// The reply to a client whose session the owner of the server has ended.
const ENDED: &[u8] = b"421 Session ended by the administrator\r\n";

/// The reply to a client whose user is none any more.
const REMOVED: &[u8] = b"421 User is not served any more\r\n";

/// The reply to a client whose user is logged in as often as one user may be.
pub(crate) const CROWDED: &[u8] = b"421 Too many sessions of this user\r\n";

/// The last reply to a client, if its session is to end now: at once if the sessions end or its owner has ended this one,
/// and if the server drains or the user is none any more, once nothing that it began is left to report.
pub(crate) fn last_reply(
    ends: bool,
    drains: bool,
    is_ended: bool,
    is_removed: bool,
    is_busy: bool,
) -> Option<&'static [u8]>
    ensures reply { option_map (λ r. r.now) result
        ≡ last_reply ends drains is_ended is_removed is_busy }
{
    if ends || drains && !is_busy {
        return Some(ENDING);
    }
    if is_ended {
        return Some(ENDED);
    }
    if is_removed && !is_busy {
        return Some(REMOVED);
    }
    None
}

/// The last reply to a client that has passed a limit of time.
pub(crate) fn time_out_reply(why: TimeOut) -> &'static [u8]
    ensures text { result.now ≡ time_out_reply why }
{
    match why {
        TimeOut::Login => b"421 Login timed out\r\n",
        TimeOut::Idle => b"421 Idle too long\r\n",
    }
}
