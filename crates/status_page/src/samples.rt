//! The rows of a status whose number is fixed.

ghost use Rattle.std.specs.Prelude.{◌≡◌, ◌≤◌, length, map};
ghost use Rattle.status_page.specs.Metrics.{build_rows, by_users, byte_rows, end_rows, idle, login_rows, moved_in_all, round_rows, session_rows, transfer_rows, waiting};
ghost use Rattle.status_page.specs.Rows.{First, Further, one};
ghost use Rattle.status_page.specs.Shown.{row_of};

use crate::rows::{Head, Label, Labels, Row};
use server_status::{EndCounts, HeldRounds, SessionStatus, SharedAmong, Status, TransferStatus};

/// A row with one label alone.
fn further<'a>(name: &'static str, label: &'static str, of: &'a str, value: u64) -> Row<'a>
    ensures further { row_of result ≡ Further name.now (one label.now of.now) value }
{
    Row::Further(
        name,
        Labels::One(Label {
            name: label,
            value: of,
        }),
        value,
    )
}

/// The first of several rows with one label each.
fn first<'a>(head: Head, label: &'static str, of: &'a str, value: u64) -> Row<'a>
    ensures first { row_of result ≡ First head.name.now head.kind.now head.help.now
        (one label.now of.now) value }
{
    Row::First(
        head,
        Labels::One(Label {
            name: label,
            value: of,
        }),
        value,
    )
}

/// The version of the server, and its time.
#[tactic(auto, unfolding(crate::specs::Metrics::build_rows))]
pub(crate) fn build_rows<'a>(status: &Status) -> [Row<'a>; 3]
    ensures rows { map row_of result ≡ build_rows status.now }
{
    let head = Head {
        name: "ftpd_build_info",
        kind: "gauge",
        help: "Version of the server.",
    };
    let seconds = status.micros / 1_000_000;
    [
        first(head, "version", "1", 1),
        Row::gauge(
            "ftpd_start_time_seconds",
            "Start of the server, since 1970.",
            status.started,
        ),
        Row::gauge(
            "ftpd_uptime_seconds",
            "Whole seconds since the start.",
            seconds,
        ),
    ]
}

/// Number of sessions that transfer nothing at this moment: who transfers is active now.
fn idle(now: u64, sessions: &[SessionStatus]) -> usize
    ensures idle { result ≡ idle now sessions.now }
    ensures few { result ≤ length sessions.now }
{
    let mut count: usize = 0;
    for session in sessions {
        if session.active < now {
            count += 1;
        }
    }
    count
}

/// The users and the sessions.
#[tactic(auto, unfolding(crate::specs::Metrics::session_rows))]
pub(crate) fn session_rows<'a>(status: &Status) -> [Row<'a>; 6]
    ensures rows { map row_of result ≡ session_rows status.now }
{
    let idle = idle(status.micros, status.sessions_now.as_slice());
    [
        Row::gauge("ftpd_users", "Users of the configuration.", status.users),
        Row::gauge("ftpd_sessions", "Connected clients.", status.sessions),
        Row::gauge(
            "ftpd_sessions_idle",
            "Connected clients that transfer nothing.",
            idle as u64,
        ),
        Row::gauge(
            "ftpd_sessions_max",
            "Most clients at once.",
            status.max_sessions,
        ),
        Row::counter(
            "ftpd_login_failures_total",
            "Wrong passwords.",
            status.failed_logins,
        ),
        Row::counter(
            "ftpd_refused_connections_total",
            "Refused connections.",
            status.refused,
        ),
    ]
}

/// Number of transfers that wait for a lane.
fn waiting(transfers: &[TransferStatus]) -> usize
    ensures waiting { result ≡ waiting transfers.now }
    ensures few { result ≤ length transfers.now }
{
    let mut count: usize = 0;
    for transfer in transfers {
        if transfer.is_waiting {
            count += 1;
        }
    }
    count
}

/// Number of octets that transfers have moved, those that have ended included, at most `u64::MAX`.
fn moved_in_all(status: &Status) -> u64
    ensures moved { result ≡ moved_in_all status.now }
{
    let mut total = status.ended_moved;
    for transfer in status.transfers.as_slice() {
        total = total.saturating_add(transfer.moved);
    }
    total
}

/// 1 if a line is shared among users, otherwise 0.
fn by_users(sharers: SharedAmong) -> u64
    ensures users { result ≡ by_users sharers }
{
    match sharers {
        SharedAmong::Sessions => 0,
        SharedAmong::Users => 1,
    }
}

/// Among whom the line is shared, and the transfers that run, wait or have ended.
#[tactic(auto, unfolding(crate::specs::Metrics::transfer_rows))]
pub(crate) fn transfer_rows<'a>(status: &Status) -> [Row<'a>; 5]
    ensures rows { map row_of result ≡ transfer_rows status.now }
{
    let waiting = waiting(status.transfers.as_slice());
    let running = status.transfers.len() - waiting;
    let head = Head {
        name: "ftpd_transfers",
        kind: "gauge",
        help: "Transfers that have not ended.",
    };
    [
        Row::gauge(
            "ftpd_shared_among_users",
            "1 if the line is shared among users, 0 if among sessions.",
            by_users(status.shared_among),
        ),
        Row::gauge(
            "ftpd_lanes",
            "Most transfers that run at once.",
            status.lanes,
        ),
        first(head, "state", "running", running as u64),
        further("ftpd_transfers", "state", "waiting", waiting as u64),
        Row::counter(
            "ftpd_transfers_ended_total",
            "Transfers that have ended.",
            status.ended,
        ),
    ]
}

/// The octets of transfers.
#[tactic(auto, unfolding(crate::specs::Metrics::byte_rows))]
pub(crate) fn byte_rows<'a>(status: &Status) -> [Row<'a>; 4]
    ensures rows { map row_of result ≡ byte_rows status.now }
{
    [
        Row::counter(
            "ftpd_issued_bytes_total",
            "Bytes that rounds have granted.",
            status.issued,
        ),
        Row::counter(
            "ftpd_moved_bytes_total",
            "Bytes that transfers have moved.",
            moved_in_all(status),
        ),
        Row::counter(
            "ftpd_ended_granted_bytes_total",
            "Bytes granted to transfers that have ended.",
            status.ended_granted,
        ),
        Row::counter(
            "ftpd_ended_moved_bytes_total",
            "Bytes moved by transfers that have ended.",
            status.ended_moved,
        ),
    ]
}

/// The rounds of transfers.
#[tactic(auto, unfolding(crate::specs::Metrics::round_rows))]
pub(crate) fn round_rows<'a>(rounds: HeldRounds) -> [Row<'a>; 6]
    ensures rows { map row_of result ≡ round_rows rounds }
{
    let name = "ftpd_held_rounds_total";
    let head = Head {
        name,
        kind: "counter",
        help: "Rounds of transfers, by the limit that held the transfer back.",
    };
    [
        first(head, "kind", "server", rounds.server),
        further(name, "kind", "direction", rounds.direction),
        further(name, "kind", "group", rounds.group),
        further(name, "kind", "user", rounds.user),
        further(name, "kind", "session", rounds.session),
        further(name, "kind", "nothing", rounds.nothing),
    ]
}

/// The logins, and the lines that were lost.
#[tactic(auto, unfolding(crate::specs::Metrics::login_rows))]
pub(crate) fn login_rows<'a>(status: &Status) -> [Row<'a>; 4]
    ensures rows { map row_of result ≡ login_rows status.now }
{
    [
        Row::counter("ftpd_logins_total", "Logins.", status.logins),
        Row::counter(
            "ftpd_refused_logins_total",
            "Logins refused for the number of sessions of their user.",
            status.refused_logins,
        ),
        Row::counter(
            "ftpd_refused_guarantees_total",
            "Logins refused for a guarantee.",
            status.refused_guarantees,
        ),
        Row::counter(
            "ftpd_log_lines_lost_total",
            "Lines of notes and of the transfer log that were dropped.",
            status.lost_lines,
        ),
    ]
}

/// The transfers by how they ended.
#[tactic(auto, unfolding(crate::specs::Metrics::end_rows))]
pub(crate) fn end_rows<'a>(ends: EndCounts) -> [Row<'a>; 7]
    ensures rows { map row_of result ≡ end_rows ends }
{
    let name = "ftpd_transfer_ends_total";
    let head = Head {
        name,
        kind: "counter",
        help: "Transfers that have ended, by how they did.",
    };
    [
        first(head, "how", "whole", ends.whole),
        further(name, "how", "aborted", ends.aborted),
        further(name, "how", "unconnected", ends.unconnected),
        further(name, "how", "lost", ends.lost),
        further(name, "how", "file", ends.file),
        further(name, "how", "memory", ends.memory),
        further(name, "how", "owner", ends.owner),
    ]
}
