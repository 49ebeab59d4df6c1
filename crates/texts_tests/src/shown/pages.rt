//! The page, the JSON and the metrics of a status, over readers and writers in memory.

ghost use Rattle.std.specs.Prelude.{◌≡◌};

use crate::shown::expect::holds;
use httpdate::HttpDate;
use server_status::{
    AccountStatus, Direction, EndCounts, GroupStatus, HeldRounds, LineRates, SessionStatus,
    SharedAmong, Status, TransferStatus,
};
use status_page::{MachineClock, MicrosClock, PAGE, Timed, metrics_text, serve_request};
use std::alloc::AllocError;
use std::hash::RandomState;
use std::io::{ErrorKind, Write};
use std::process::Abort;
use std::random::RandomSource;
use std::test::Fail;
use std::{io, str};

/// The metrics of the status below, worked by hand from the conventions and the page on metrics.
const METRICS: &str = r#"# HELP ftpd_build_info Version of the server.
# TYPE ftpd_build_info gauge
ftpd_build_info{version="1"} 1
# HELP ftpd_start_time_seconds Start of the server, since 1970.
# TYPE ftpd_start_time_seconds gauge
ftpd_start_time_seconds 1764000000
# HELP ftpd_uptime_seconds Whole seconds since the start.
# TYPE ftpd_uptime_seconds gauge
ftpd_uptime_seconds 61
# HELP ftpd_users Users of the configuration.
# TYPE ftpd_users gauge
ftpd_users 2
# HELP ftpd_sessions Connected clients.
# TYPE ftpd_sessions gauge
ftpd_sessions 3
# HELP ftpd_sessions_idle Connected clients that transfer nothing.
# TYPE ftpd_sessions_idle gauge
ftpd_sessions_idle 2
# HELP ftpd_sessions_max Most clients at once.
# TYPE ftpd_sessions_max gauge
ftpd_sessions_max 64
# HELP ftpd_login_failures_total Wrong passwords.
# TYPE ftpd_login_failures_total counter
ftpd_login_failures_total 7
# HELP ftpd_refused_connections_total Refused connections.
# TYPE ftpd_refused_connections_total counter
ftpd_refused_connections_total 8
# HELP ftpd_shared_among_users 1 if the line is shared among users, 0 if among sessions.
# TYPE ftpd_shared_among_users gauge
ftpd_shared_among_users 0
# HELP ftpd_lanes Most transfers that run at once.
# TYPE ftpd_lanes gauge
ftpd_lanes 16
# HELP ftpd_transfers Transfers that have not ended.
# TYPE ftpd_transfers gauge
ftpd_transfers{state="running"} 1
ftpd_transfers{state="waiting"} 2
# HELP ftpd_transfers_ended_total Transfers that have ended.
# TYPE ftpd_transfers_ended_total counter
ftpd_transfers_ended_total 1
# HELP ftpd_issued_bytes_total Bytes that rounds have granted.
# TYPE ftpd_issued_bytes_total counter
ftpd_issued_bytes_total 900
# HELP ftpd_moved_bytes_total Bytes that transfers have moved.
# TYPE ftpd_moved_bytes_total counter
ftpd_moved_bytes_total 890
# HELP ftpd_ended_granted_bytes_total Bytes granted to transfers that have ended.
# TYPE ftpd_ended_granted_bytes_total counter
ftpd_ended_granted_bytes_total 100
# HELP ftpd_ended_moved_bytes_total Bytes moved by transfers that have ended.
# TYPE ftpd_ended_moved_bytes_total counter
ftpd_ended_moved_bytes_total 90
# HELP ftpd_held_rounds_total Rounds of transfers, by the limit that held the transfer back.
# TYPE ftpd_held_rounds_total counter
ftpd_held_rounds_total{kind="server"} 1
ftpd_held_rounds_total{kind="direction"} 2
ftpd_held_rounds_total{kind="group"} 3
ftpd_held_rounds_total{kind="user"} 4
ftpd_held_rounds_total{kind="session"} 5
ftpd_held_rounds_total{kind="nothing"} 6
# HELP ftpd_limit_bytes_per_second Limits of the line and of groups; one that is not there has no sample.
# TYPE ftpd_limit_bytes_per_second gauge
ftpd_limit_bytes_per_second{kind="direction",name="",direction="down"} 15000000
ftpd_limit_bytes_per_second{kind="group",name="a\"b\\c\né",direction="up"} 5
# HELP ftpd_logins_total Logins.
# TYPE ftpd_logins_total counter
ftpd_logins_total 11
# HELP ftpd_refused_logins_total Logins refused for the number of sessions of their user.
# TYPE ftpd_refused_logins_total counter
ftpd_refused_logins_total 12
# HELP ftpd_refused_guarantees_total Logins refused for a guarantee.
# TYPE ftpd_refused_guarantees_total counter
ftpd_refused_guarantees_total 13
# HELP ftpd_log_lines_lost_total Lines of notes and of the transfer log that were dropped.
# TYPE ftpd_log_lines_lost_total counter
ftpd_log_lines_lost_total 14
# HELP ftpd_transfer_ends_total Transfers that have ended, by how they did.
# TYPE ftpd_transfer_ends_total counter
ftpd_transfer_ends_total{how="whole"} 21
ftpd_transfer_ends_total{how="aborted"} 22
ftpd_transfer_ends_total{how="unconnected"} 23
ftpd_transfer_ends_total{how="lost"} 24
ftpd_transfer_ends_total{how="file"} 25
ftpd_transfer_ends_total{how="memory"} 26
ftpd_transfer_ends_total{how="owner"} 27
# HELP ftpd_guaranteed_bytes_per_second Guarantees of the sessions that are logged in, together.
# TYPE ftpd_guaranteed_bytes_per_second gauge
ftpd_guaranteed_bytes_per_second{kind="direction",name="",direction="down"} 31
ftpd_guaranteed_bytes_per_second{kind="direction",name="",direction="up"} 0
ftpd_guaranteed_bytes_per_second{kind="group",name="a\"b\\c\né",direction="down"} 0
ftpd_guaranteed_bytes_per_second{kind="group",name="a\"b\\c\né",direction="up"} 4
# HELP ftpd_granted_bytes_total Bytes granted to the transfers of users.
# TYPE ftpd_granted_bytes_total counter
ftpd_granted_bytes_total{user="ann",group="",direction="down"} 890
ftpd_granted_bytes_total{user="ann",group="",direction="up"} 0
ftpd_granted_bytes_total{user="b\"c",group="sales",direction="down"} 41
ftpd_granted_bytes_total{user="b\"c",group="sales",direction="up"} 42
# HELP ftpd_guarantee_unmet_seconds_total Seconds below nine tenths of a guarantee while a limit held the transfer back.
# TYPE ftpd_guarantee_unmet_seconds_total counter
ftpd_guarantee_unmet_seconds_total{user="ann",group="",direction="down"} 2
ftpd_guarantee_unmet_seconds_total{user="ann",group="",direction="up"} 0
ftpd_guarantee_unmet_seconds_total{user="b\"c",group="sales",direction="down"} 0
ftpd_guarantee_unmet_seconds_total{user="b\"c",group="sales",direction="up"} 3
"#;

/// The fields of each answer but its type and its length, up to the policy.
const FIELDS: &str =
    "connection: close\r\ndate: Tue, 29 Feb 2000 12:34:56 GMT\r\ncache-control: no-store\r\nx-content-type-options: nosniff\r\ncontent-security-policy: default-src 'none'; connect-src 'self'; script-src 'sha256-";

const HELD: HeldRounds = HeldRounds {
    server: 1,
    direction: 2,
    group: 3,
    user: 4,
    session: 5,
    nothing: 6,
};

fn transfer<R: AllocGlobal>(
    rt: &R,
    session: u64,
    is_waiting: bool,
    moved: u64,
) -> Result<TransferStatus, AllocError> {
    Ok(TransferStatus {
        session,
        user: String::from_str(rt.alloc(), "ann")?,
        group: None,
        peer: [10, 0, 0, 1],
        direction: Direction::Down,
        path: None,
        size: None,
        begun: 0,
        is_waiting,
        granted: moved,
        moved,
        rounds: HELD,
        guaranteed: 0,
        session_rate: 0,
        user_rate: 0,
    })
}

fn groups_of<R: AllocGlobal>(rt: &R) -> Result<Vec<GroupStatus>, AllocError> {
    let mut groups = Vec::new(rt.alloc());
    let name = String::from_str(rt.alloc(), "a\"b\\c\né")?;
    groups.push(GroupStatus {
        name,
        down: 0,
        up: 5,
        guaranteed_down: 0,
        guaranteed_up: 4,
    })?;
    Ok(groups)
}

fn transfers_of<R: AllocGlobal>(rt: &R) -> Result<Vec<TransferStatus>, AllocError> {
    let mut transfers = Vec::new(rt.alloc());
    transfers.push(transfer(rt, 1, false, 800)?)?;
    transfers.push(transfer(rt, 2, true, 0)?)?;
    transfers.push(transfer(rt, 3, true, 0)?)?;
    Ok(transfers)
}

fn accounts_of<R: AllocGlobal>(rt: &R) -> Result<Vec<AccountStatus>, AllocError> {
    let mut accounts = Vec::new(rt.alloc());
    accounts.push(AccountStatus {
        user: String::from_str(rt.alloc(), "ann")?,
        group: None,
        granted_down: 890,
        granted_up: 0,
        unmet_down: 2_999_999,
        unmet_up: 0,
    })?;
    accounts.push(AccountStatus {
        user: String::from_str(rt.alloc(), "b\"c")?,
        group: Some(String::from_str(rt.alloc(), "sales")?),
        granted_down: 41,
        granted_up: 42,
        unmet_down: 999_999,
        unmet_up: 3_000_000,
    })?;
    Ok(accounts)
}

/// A session of nobody yet, which was last seen to do something at this moment.
fn session_of(session: u64, active: u64) -> SessionStatus {
    SessionStatus {
        session,
        user: None,
        group: None,
        peer: [192, 0, 2, 9],
        begun: 0,
        active,
        guaranteed_down: 0,
        guaranteed_up: 0,
    }
}

/// Two sessions that transfer nothing, one of them for a microsecond, and one that transfers at this moment.
fn sessions_of<R: AllocGlobal>(rt: &R) -> Result<Vec<SessionStatus>, AllocError> {
    let mut sessions = Vec::with_capacity(rt.alloc(), 3)?;
    sessions.push(session_of(1, 61_999_998))?;
    sessions.push(session_of(2, 61_999_999))?;
    sessions.push(session_of(3, 5))?;
    Ok(sessions)
}

fn status_of(
    groups: Vec<GroupStatus>,
    transfers: Vec<TransferStatus>,
    sessions: Vec<SessionStatus>,
    accounts: Vec<AccountStatus>,
) -> Status {
    Status {
        started: 1_764_000_000,
        micros: 61_999_999,
        line: LineRates {
            both: 0,
            down: 15_000_000,
            up: 0,
        },
        shared_among: SharedAmong::Sessions,
        guaranteed_down: 31,
        guaranteed_up: 0,
        groups,
        users: 2,
        sessions: 3,
        max_sessions: 64,
        lanes: 16,
        issued: 900,
        ended_granted: 100,
        ended_moved: 90,
        ended: 1,
        endings: EndCounts {
            whole: 21,
            aborted: 22,
            unconnected: 23,
            lost: 24,
            file: 25,
            memory: 26,
            owner: 27,
        },
        rounds: HELD,
        waits: 0,
        logins: 11,
        failed_logins: 7,
        refused_logins: 12,
        refused_guarantees: 13,
        refused: 8,
        lost_lines: 14,
        transfers,
        sessions_now: sessions,
        accounts,
    }
}

fn status<R: AllocGlobal>(rt: &R) -> Result<Status, AllocError> {
    let groups = groups_of(rt)?;
    let transfers = transfers_of(rt)?;
    let sessions = sessions_of(rt)?;
    Ok(status_of(groups, transfers, sessions, accounts_of(rt)?))
}

#[test]
fn metrics_of_a_status(rt: HostRuntime) -> Result<(), Fail> {
    let mut status = status(&rt)?;
    let text = metrics_text(rt.alloc(), &status)?;
    holds(&rt, text.as_str() == METRICS);
    status.shared_among = SharedAmong::Users;
    let text = metrics_text(rt.alloc(), &status)?;
    holds(&rt, text.as_str().contains("\nftpd_shared_among_users 1\n"));
    Ok(())
}

fn status_page(
    rt: &(impl Abort + AllocGlobal + RandomSource),
    status: &Status,
) -> Result<(), Fail> {
    let text = metrics_text(rt.alloc(), status)?; // for Prometheus
    holds(rt, text.as_str().contains("ftpd_lanes 16\n"));
    let mut reader = b"GET /status.json HTTP/1.1\r\nHost: localhost\r\n\r\n".as_slice();
    let mut writer = Vec::new(rt.alloc());
    let keys = RandomState::new(rt)?;
    let date = HttpDate::from_unix_secs(951_827_696).expect(rt, "a date"); // seconds since 1970
    serve_request(rt.alloc(), keys, status, date, &mut reader, &mut writer)?; // of a browser
    holds(rt, writer.as_slice().starts_with(b"HTTP/1.1 200 OK\r\n"));
    Ok(())
}

#[test]
fn a_status_for_browsers_and_prometheus(rt: HostRuntime) -> Result<(), Fail> {
    let status = status(&rt)?;
    status_page(&rt, &status)
}

/// The answer to these octets.
fn answered(
    rt: &(impl Abort + AllocGlobal + RandomSource),
    status: &Status,
    octets: &str,
) -> Result<String, Fail> {
    let mut reader = octets.as_bytes();
    let mut writer = Vec::new(rt.alloc());
    let keys = RandomState::new(rt)?;
    let date = HttpDate::from_unix_secs(951_827_696).expect(rt, "a date");
    serve_request(rt.alloc(), keys, status, date, &mut reader, &mut writer)?;
    Ok(String::from_str(rt.alloc(), str::from_utf8(&writer)?)?)
}

/// A request, and the beginning, a part and the end of its answer.
const ANSWERS: [(&str, &str, &str, &str); 16] = [
    (
        "GET / HTTP/1.1\r\nHost: localhost\r\n\r\n",
        "HTTP/1.1 200 OK\r\n",
        "date: Tue, 29 Feb 2000 12:34:56 GMT\r\n",
        "</html>\n",
    ),
    (
        "GET / HTTP/1.1\r\nHost: localhost\r\n\r\n",
        "HTTP/1.1 200 OK\r\n",
        "content-type: text/html; charset=utf-8\r\n",
        "</html>\n",
    ),
    (
        "GET /status.json HTTP/1.1\r\nHost: localhost\r\n\r\n",
        "HTTP/1.1 200 OK\r\n",
        "content-type: application/json\r\n",
        "\"users\":2,\"version\":1,\"waits\":0}\n",
    ),
    (
        "GET /metrics?x=1 HTTP/1.1\r\nHost: localhost\r\n\r\n",
        "HTTP/1.1 200 OK\r\n",
        "content-type: text/plain; version=0.0.4; charset=utf-8\r\n",
        "} 3\n",
    ),
    (
        "GET /metrics HTTP/1.0\r\nHost: 127.0.0.1:80\r\n\r\n",
        "HTTP/1.0 200 OK\r\n",
        FIELDS,
        "} 3\n",
    ),
    (
        "HEAD / HTTP/1.1\r\nHost: localhost\r\n\r\n",
        "HTTP/1.1 200 OK\r\n",
        FIELDS,
        "\r\n\r\n",
    ),
    (
        "GET /other HTTP/1.1\r\nHost: localhost\r\n\r\n",
        "HTTP/1.1 404 Not Found\r\n",
        FIELDS,
        "content-length: 10\r\n\r\nnot found\n",
    ),
    (
        "POST /metrics HTTP/1.1\r\nHost: localhost\r\nContent-Length: 0\r\n\r\n",
        "HTTP/1.1 405 Method Not Allowed\r\n",
        "allow: GET, HEAD\r\n",
        "\r\n\r\nmethod not allowed\n",
    ),
    (
        "POST /metrics HTTP/1.1\r\nHost: localhost\r\nContent-Length: 1\r\n\r\nx",
        "HTTP/1.1 413 Payload Too Large\r\n",
        "connection: close\r\n",
        "content-length: 0\r\n\r\n",
    ),
    (
        "GET / HTTP/1.1\r\nHost: localhost\r\n\r\nGET /other HTTP/1.1\r\nHost: localhost\r\n\r\n",
        "HTTP/1.1 200 OK\r\n",
        "",
        "</html>\n",
    ),
    (
        "GET / HTTP/1.1\r\n\r\n",
        "HTTP/1.1 400 Bad Request\r\n",
        "",
        "\r\n\r\n",
    ),
    (
        "GET /status.json HTTP/1.1\r\nHost: localhost.example\r\n\r\n",
        "HTTP/1.1 421 Misdirected Request\r\n",
        FIELDS,
        "\r\n\r\nmisdirected request\n",
    ),
    (
        "GET http://a.example/ HTTP/1.1\r\nHost: localhost\r\n\r\n",
        "HTTP/1.1 421 Misdirected Request\r\n",
        FIELDS,
        "\r\n\r\nmisdirected request\n",
    ),
    (
        "garbage\r\n\r\n",
        "HTTP/1.1 400 Bad Request\r\n",
        "",
        "\r\n\r\n",
    ),
    (
        "GET / HTTP/1.1\r\nHost:",
        "HTTP/1.1 400 Bad Request\r\n",
        "",
        "\r\n\r\n",
    ),
    ("", "", "", ""),
];

#[test]
fn answers_by_path_and_method(rt: HostRuntime) -> Result<(), Fail> {
    let status = status(&rt)?;
    for (octets, begins, has, ends) in ANSWERS {
        let answer = answered(&rt, &status, octets)?;
        holds(&rt, answer.as_str().starts_with(begins));
        holds(&rt, answer.as_str().contains(has));
        holds(&rt, answer.as_str().ends_with(ends));
    }
    let answer = answered(&rt, &status, "GET / HTTP/1.1\r\nHost: localhost\r\n\r\n")?;
    holds(&rt, answer.as_str().ends_with(PAGE));
    Ok(())
}

/// A clock that shows one microsecond more at each look.
#[derive(Clone, Copy, Drop)]
struct Steps(u64);

impl MicrosClock for Steps {
    ghost shows = { λ old moment new. moment ≡ old.0 };

    fn micros(&mut self) -> u64 {
        let now = self.0;
        self.0 = now.saturating_add(1);
        now
    }
}

/// Reads one octet at a time.
#[derive(Drop)]
struct Dripping<'a>(&'a [u8]);

impl<'a> io::Read for Dripping<'a> {
    fn read(&mut self, buffer: &mut [u8]) -> io::Result<usize> {
        if buffer.is_empty() {
            return Ok(0);
        }
        self.0.read(&mut buffer[..1])
    }
}

/// The error of a request that comes an octet at a time, if any, if each look at the clock takes a microsecond and there
/// are these numbers of them for reading and for writing.
fn dripped(
    rt: &(impl Abort + AllocGlobal + RandomSource),
    status: &Status,
    reads: u64,
    writes: u64,
) -> Result<Option<ErrorKind>, Fail> {
    let mut reader = Timed::new(
        Dripping(b"GET /metrics HTTP/1.1\r\nHost: h\r\n\r\n"),
        Steps(0),
        reads,
    );
    let mut writer = Timed::new(Vec::new(rt.alloc()), Steps(0), writes);
    let keys = RandomState::new(rt)?;
    let date = HttpDate::from_unix_secs(951_827_696).expect(rt, "a date");
    match serve_request(rt.alloc(), keys, status, date, &mut reader, &mut writer) {
        Ok(()) => Ok(None),
        Err(error) => Ok(Some(error.kind())),
    }
}

#[test]
fn a_request_that_drips(rt: HostRuntime) -> Result<(), Fail> {
    let status = status(&rt)?;
    holds(&rt, dripped(&rt, &status, 34, 1)?.is_none());
    holds(
        &rt,
        dripped(&rt, &status, 33, 1)? == Some(ErrorKind::TimedOut),
    );
    holds(
        &rt,
        dripped(&rt, &status, 34, 0)? == Some(ErrorKind::TimedOut),
    );
    let mut clock = MachineClock(&rt);
    let now = clock.micros();
    holds(&rt, now <= clock.micros());
    Ok(())
}
