//! A status as a text, and read from texts. `docs/status.md` has the same status.

use crate::shown::expect::holds;
use server_status::{
    AccountStatus, Direction, EndCounts, GroupStatus, HeldRounds, LineRates, SessionStatus,
    SharedAmong, Status, StatusFault, TransferStatus, read_status, status_text,
};
use std::alloc::{AllocError, Global};
use std::process::Abort;

/// The front of the status of the page, in the order of the names of its members.
const FRONT: &str =
    "{\"accounts\":[{\"granted_down\":48003000,\"granted_up\":0,\"group\":\"sales\",\"unmet_down\":1000000,\"unmet_up\":0,\"user\":\"ann\"},\
{\"granted_down\":0,\"granted_up\":1000000,\"group\":null,\"unmet_down\":0,\"unmet_up\":0,\"user\":\"bob\"}],\
\"ended\":2,\"ended_granted\":3000,\"ended_moved\":2900,\
\"endings\":{\"aborted\":1,\"file\":0,\"lost\":0,\"memory\":0,\"owner\":0,\"unconnected\":0,\"whole\":1},\"failed_logins\":1,\
\"groups\":[{\"down\":3000000,\"guaranteed_down\":500000,\"guaranteed_up\":null,\"name\":\"sales\",\"up\":null}],\
\"guaranteed_down\":500000,\"guaranteed_up\":250000,\
\"held\":{\"direction\":5000,\"group\":0,\"nothing\":1250,\"server\":0,\"session\":0,\"user\":4},\
\"issued\":49003000,\"lanes\":2,\"line\":{\"both\":null,\"down\":4000000,\"up\":null},\"logins\":6,\"lost_lines\":0,\
\"max_sessions\":64,\"micros\":12500000,\"refused\":0,\"refused_guarantees\":1,\"refused_logins\":0,\"sessions\":4,\
\"sessions_now\":[{\"active\":12500000,\"begun\":200000,\"group\":\"sales\",\"guaranteed_down\":500000,\"guaranteed_up\":null,\
\"peer\":\"192.0.2.7\",\"session\":3,\"user\":\"ann\"},\
{\"active\":9000000,\"begun\":8000000,\"group\":null,\"guaranteed_down\":null,\"guaranteed_up\":250000,\
\"peer\":\"192.0.2.9\",\"session\":4,\"user\":null}],\
\"shared_among\":\"users\",\"started\":1790000000,";

/// Its transfers.
const TRANSFERS: &str = "\"transfers\":[\
{\"begun\":250000,\"direction\":\"down\",\"granted\":48000000,\"group\":\"sales\",\"guaranteed\":500000,\
\"held\":{\"direction\":5000,\"group\":0,\"nothing\":0,\"server\":0,\"session\":0,\"user\":0},\
\"moved\":47990000,\"path\":\"/video.mp4\",\"peer\":\"192.0.2.7\",\"session\":3,\"session_rate\":null,\
\"size\":90000000,\"user\":\"ann\",\"user_rate\":3500000,\"waiting\":false},\
{\"begun\":300000,\"direction\":\"up\",\"granted\":1000000,\"group\":null,\"guaranteed\":null,\
\"held\":{\"direction\":0,\"group\":0,\"nothing\":1250,\"server\":0,\"session\":0,\"user\":0},\
\"moved\":1000000,\"path\":\"/in/\\\"new\\\".txt\",\"peer\":\"192.0.2.200\",\"session\":5,\
\"session_rate\":800000,\"size\":null,\"user\":\"bob\",\"user_rate\":null,\"waiting\":false},\
{\"begun\":12000000,\"direction\":\"down\",\"granted\":0,\"group\":null,\"guaranteed\":null,\
\"held\":{\"direction\":0,\"group\":0,\"nothing\":0,\"server\":0,\"session\":0,\"user\":0},\
\"moved\":0,\"path\":null,\"peer\":\"192.0.2.200\",\"session\":7,\
\"session_rate\":800000,\"size\":null,\"user\":\"bob\",\"user_rate\":null,\"waiting\":true}],";

/// Its end.
const END: &str = "\"unit\":\"octets\",\"users\":3,\"version\":1,\"waits\":3}\n";

const NO_ROUNDS: HeldRounds = HeldRounds {
    server: 0,
    direction: 0,
    group: 0,
    user: 0,
    session: 0,
    nothing: 0,
};

fn video(alloc: Global) -> Result<TransferStatus, AllocError> {
    Ok(TransferStatus {
        session: 3,
        user: String::from_str(alloc, "ann")?,
        group: Some(String::from_str(alloc, "sales")?),
        peer: [192, 0, 2, 7],
        direction: Direction::Down,
        path: Some(String::from_str(alloc, "/video.mp4")?),
        size: Some(90_000_000),
        begun: 250_000,
        is_waiting: false,
        granted: 48_000_000,
        moved: 47_990_000,
        rounds: HeldRounds {
            direction: 5_000,
            ..NO_ROUNDS
        },
        guaranteed: 500_000,
        session_rate: 0,
        user_rate: 3_500_000,
    })
}

fn upload(alloc: Global) -> Result<TransferStatus, AllocError> {
    Ok(TransferStatus {
        session: 5,
        user: String::from_str(alloc, "bob")?,
        group: None,
        peer: [192, 0, 2, 200],
        direction: Direction::Up,
        path: Some(String::from_str(alloc, "/in/\"new\".txt")?),
        size: None,
        begun: 300_000,
        is_waiting: false,
        granted: 1_000_000,
        moved: 1_000_000,
        rounds: HeldRounds {
            nothing: 1_250,
            ..NO_ROUNDS
        },
        guaranteed: 0,
        session_rate: 800_000,
        user_rate: 0,
    })
}

fn listing(alloc: Global) -> Result<TransferStatus, AllocError> {
    Ok(TransferStatus {
        session: 7,
        user: String::from_str(alloc, "bob")?,
        group: None,
        peer: [192, 0, 2, 200],
        direction: Direction::Down,
        path: None,
        size: None,
        begun: 12_000_000,
        is_waiting: true,
        granted: 0,
        moved: 0,
        rounds: NO_ROUNDS,
        guaranteed: 0,
        session_rate: 800_000,
        user_rate: 0,
    })
}

fn transfers(alloc: Global) -> Result<Vec<TransferStatus>, AllocError> {
    let mut transfers = Vec::with_capacity(alloc, 3)?;
    transfers.push(video(alloc)?)?;
    transfers.push(upload(alloc)?)?;
    transfers.push(listing(alloc)?)?;
    Ok(transfers)
}

fn groups(alloc: Global) -> Result<Vec<GroupStatus>, AllocError> {
    let mut groups = Vec::with_capacity(alloc, 1)?;
    groups.push(GroupStatus {
        name: String::from_str(alloc, "sales")?,
        down: 3_000_000,
        up: 0,
        guaranteed_down: 500_000,
        guaranteed_up: 0,
    })?;
    Ok(groups)
}

fn sessions(alloc: Global) -> Result<Vec<SessionStatus>, AllocError> {
    let mut sessions = Vec::with_capacity(alloc, 2)?;
    sessions.push(SessionStatus {
        session: 3,
        user: Some(String::from_str(alloc, "ann")?),
        group: Some(String::from_str(alloc, "sales")?),
        peer: [192, 0, 2, 7],
        begun: 200_000,
        active: 12_500_000,
        guaranteed_down: 500_000,
        guaranteed_up: 0,
    })?;
    sessions.push(SessionStatus {
        session: 4,
        user: None,
        group: None,
        peer: [192, 0, 2, 9],
        begun: 8_000_000,
        active: 9_000_000,
        guaranteed_down: 0,
        guaranteed_up: 250_000,
    })?;
    Ok(sessions)
}

fn accounts(alloc: Global) -> Result<Vec<AccountStatus>, AllocError> {
    let mut accounts = Vec::with_capacity(alloc, 2)?;
    accounts.push(AccountStatus {
        user: String::from_str(alloc, "ann")?,
        group: Some(String::from_str(alloc, "sales")?),
        granted_down: 48_003_000,
        granted_up: 0,
        unmet_down: 1_000_000,
        unmet_up: 0,
    })?;
    accounts.push(AccountStatus {
        user: String::from_str(alloc, "bob")?,
        group: None,
        granted_down: 0,
        granted_up: 1_000_000,
        unmet_down: 0,
        unmet_up: 0,
    })?;
    Ok(accounts)
}

fn with_lists(
    groups: Vec<GroupStatus>,
    transfers: Vec<TransferStatus>,
    sessions: Vec<SessionStatus>,
    accounts: Vec<AccountStatus>,
) -> Status {
    Status {
        started: 1_790_000_000,
        micros: 12_500_000,
        line: LineRates {
            both: 0,
            down: 4_000_000,
            up: 0,
        },
        shared_among: SharedAmong::Users,
        guaranteed_down: 500_000,
        guaranteed_up: 250_000,
        groups,
        users: 3,
        sessions: 4,
        max_sessions: 64,
        lanes: 2,
        issued: 49_003_000,
        ended_granted: 3_000,
        ended_moved: 2_900,
        ended: 2,
        endings: EndCounts {
            whole: 1,
            aborted: 1,
            unconnected: 0,
            lost: 0,
            file: 0,
            memory: 0,
            owner: 0,
        },
        rounds: HeldRounds {
            direction: 5_000,
            nothing: 1_250,
            user: 4,
            ..NO_ROUNDS
        },
        logins: 6,
        failed_logins: 1,
        refused_logins: 0,
        refused_guarantees: 1,
        refused: 0,
        lost_lines: 0,
        waits: 3,
        transfers,
        sessions_now: sessions,
        accounts,
    }
}

/// The status of the page.
fn status(rt: &(impl Abort + AllocGlobal)) -> Status {
    let groups = groups(rt.alloc()).expect(rt, "memory");
    let transfers = transfers(rt.alloc()).expect(rt, "memory");
    let sessions = sessions(rt.alloc()).expect(rt, "memory");
    let accounts = accounts(rt.alloc()).expect(rt, "memory");
    with_lists(groups, transfers, sessions, accounts)
}

fn page(rt: &(impl Abort + AllocGlobal)) -> String {
    format!(in rt.alloc(); "{FRONT}{TRANSFERS}{END}").expect(rt, "memory")
}

fn server_status(rt: &(impl Abort + AllocGlobal), status: &Status) -> Result<(), StatusFault> {
    let text = status_text(rt.alloc(), status)?; // of a server, once a second
    let read = read_status(rt.alloc(), text.as_bytes())?; // by whoever shows it
    holds(
        rt,
        read.issued == status.issued && read.transfers.len() == status.transfers.len(),
    );
    Ok(())
}

#[test]
fn a_status_is_written_and_read(rt: HostRuntime) {
    let status = status(&rt);
    let text = status_text(rt.alloc(), &status).expect(&rt, "memory");
    let page = page(&rt);
    holds(&rt, text.as_str() == page.as_str());
    let read = read_status(rt.alloc(), page.as_bytes()).expect(&rt, "a status");
    let again = status_text(rt.alloc(), &read).expect(&rt, "memory");
    holds(&rt, again.as_str() == page.as_str());
    holds(&rt, read.shared_among == SharedAmong::Users);
    server_status(&rt, &status).expect(&rt, "a status");
}

/// A change of the text of the page, and the fault of what comes of it; none if it is a status.
struct Change(&'static str, &'static str, Option<StatusFault>);

const CHANGES: [Change; 31] = [
    Change("\"version\":1", "\"version\":1,\"zone\":[]", None),
    Change("}\n", "\n}", None),
    Change("\"session\":3,", "\"session\":8,\"session\":3,", None),
    Change(
        "\"sessions_now\":",
        "\"sessions_then\":",
        Some(StatusFault::Missing("sessions_now")),
    ),
    Change(
        "\"active\":12500000,",
        "",
        Some(StatusFault::Missing("sessions_now[].active")),
    ),
    Change(
        "192.0.2.9",
        "192.0.2",
        Some(StatusFault::OtherKind("sessions_now[].peer")),
    ),
    Change(
        "\"user\":null}",
        "\"user\":4}",
        Some(StatusFault::OtherKind("sessions_now[].user")),
    ),
    Change(
        "\"accounts\":[",
        "\"accounts\":0,\"old\":[",
        Some(StatusFault::OtherKind("accounts")),
    ),
    Change(
        "\"unmet_up\":0,",
        "",
        Some(StatusFault::Missing("accounts[].unmet_up")),
    ),
    Change(
        "\"endings\":{\"aborted\":1,",
        "\"endings\":{",
        Some(StatusFault::Missing("endings.aborted")),
    ),
    Change(
        ",\"guaranteed_up\":null,\"name\"",
        ",\"name\"",
        Some(StatusFault::Missing("groups[].guaranteed_up")),
    ),
    Change("{\"accounts\"", "[\"accounts\"", Some(StatusFault::NotJson)),
    Change(
        "\"version\":1",
        "\"version\":2",
        Some(StatusFault::Version(2)),
    ),
    Change(",\"version\":1", "", Some(StatusFault::Missing("version"))),
    Change(
        "\"version\":1",
        "\"version\":\"1\"",
        Some(StatusFault::OtherKind("version")),
    ),
    Change(
        "\"octets\"",
        "\"bits\"",
        Some(StatusFault::OtherKind("unit")),
    ),
    Change(
        "12500000",
        "18446744073709551616",
        Some(StatusFault::OtherKind("micros")),
    ),
    Change(
        "\"both\":null,",
        "",
        Some(StatusFault::Missing("line.both")),
    ),
    Change(
        "\"shared_among\":\"users\"",
        "\"shared_among\":\"sessions\"",
        None,
    ),
    Change(
        "\"shared_among\":\"users\",",
        "",
        Some(StatusFault::Missing("shared_among")),
    ),
    Change(
        "\"shared_among\":\"users\"",
        "\"shared_among\":\"groups\"",
        Some(StatusFault::OtherKind("shared_among")),
    ),
    Change(
        "\"nothing\":1250",
        "\"nothing\":null",
        Some(StatusFault::OtherKind("held.nothing")),
    ),
    Change(
        "\"groups\":[",
        "\"groups\":1,\"old\":[",
        Some(StatusFault::OtherKind("groups")),
    ),
    Change(
        "\"name\":\"sales\",\"up\":null",
        "\"name\":\"sales\",\"up\":-1",
        Some(StatusFault::OtherKind("groups[].up")),
    ),
    Change(
        "\"name\":\"sales\",",
        "",
        Some(StatusFault::Missing("groups[].name")),
    ),
    Change(
        "\"user\":\"ann\",\"user_rate\"",
        "\"user\":null,\"user_rate\"",
        Some(StatusFault::OtherKind("transfers[].user")),
    ),
    Change(
        "192.0.2.7\",\"session\":3,\"session_rate",
        "192.0.2.256\",\"session\":3,\"session_rate",
        Some(StatusFault::OtherKind("transfers[].peer")),
    ),
    Change(
        "\"up\",\"granted\"",
        "\"left\",\"granted\"",
        Some(StatusFault::OtherKind("transfers[].direction")),
    ),
    Change(
        "\"size\":90000000",
        "\"size\":1.5",
        Some(StatusFault::OtherKind("transfers[].size")),
    ),
    Change(
        "\"waiting\":true",
        "\"waiting\":1",
        Some(StatusFault::OtherKind("transfers[].waiting")),
    ),
    Change(
        "\"user\":0}",
        "\"user\":{}}",
        Some(StatusFault::OtherKind("transfers[].held.user")),
    ),
];

fn changed(rt: &(impl Abort + AllocGlobal), page: &str, change: &Change) -> String {
    match page.split_once(change.0) {
        Some((front, end)) => {
            let new = change.1;
            format!(in rt.alloc(); "{front}{new}{end}").expect(rt, "memory")
        }
        None => String::new(rt.alloc()),
    }
}

fn fault_of(rt: &(impl Abort + AllocGlobal), text: &str) -> Option<StatusFault> {
    match read_status(rt.alloc(), text.as_bytes()) {
        Ok(_) => None,
        Err(fault) => Some(fault),
    }
}

#[test]
fn faults_are_named(rt: HostRuntime) {
    let page = page(&rt);
    for change in &CHANGES {
        let text = changed(&rt, page.as_str(), change);
        let fault = fault_of(&rt, text.as_str());
        holds(&rt, fault == change.2);
    }
}
