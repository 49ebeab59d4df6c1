//! A text of two lines is sent and received octet by octet: each write fails in turn, and then none.

use super::expect::holds;
use data_pump::PumpEnd;
use ftp_terms::DataType;
use std::process::Abort;
use test_transfer_ends::{
    Collected, FAULT, Inlet, Octets, Outlet, Scheduled, receive, reported, send,
};

/// A call that moves one octet.
const ONE: Scheduled = Scheduled::Move(1);

/// The schedule of a connection's writes; and then the octets it has taken of a grant of four, the number moved, the
/// number given back, and the end of the pump.
type Download = (&'static [Scheduled], &'static [u8], u64, u64, PumpEnd);

static DOWNLOADS: [Download; 5] = [
    (&[FAULT], b"", 0, 4, PumpEnd::WriteFault),
    (&[ONE, FAULT], b"a", 1, 3, PumpEnd::WriteFault),
    (&[ONE, ONE, FAULT], b"a\r", 2, 2, PumpEnd::WriteFault),
    (&[ONE, ONE, ONE, FAULT], b"a\r\n", 3, 1, PumpEnd::WriteFault),
    (
        &[ONE, ONE, ONE, ONE, FAULT],
        b"a\r\nb",
        4,
        0,
        PumpEnd::Ended,
    ),
];

fn expect_sent(rt: &(impl Abort + AllocGlobal), row: &Download) {
    let (writes, wire, moved, back, end) = *row;
    let mut taken = Vec::new(rt.alloc());
    let outlet = Outlet {
        taken: &mut taken,
        schedule: writes,
    };
    let source = Octets {
        rest: b"a\nb",
        schedule: &[],
    };
    let sent = send(rt.alloc(), source, outlet, DataType::Ascii, &[4]);
    let sent = sent.expect(rt, "a download");
    holds(rt, sent.is_sound && reported(&sent.pumps, &[moved], end));
    let settled = sent.settled;
    holds(rt, settled.issued == 4);
    holds(rt, settled.moved == moved && settled.back == back);
    holds(rt, taken.as_slice() == wire);
}

#[test]
fn each_write_to_a_connection(rt: HostRuntime) {
    for row in &DOWNLOADS {
        expect_sent(&rt, row);
    }
}

/// The schedule of a sink's writes, and grants; and then the octets that the sink has taken, the octets moved by each
/// pump, the numbers moved and given back, and the end of the last pump. A CR at the end of a piece is held back, so it
/// is not written then.
type Upload = (
    &'static [Scheduled],
    &'static [u64],
    &'static [u8],
    &'static [u64],
    u64,
    u64,
    PumpEnd,
);

static UPLOADS: [Upload; 7] = [
    (&[FAULT], &[5], b"", &[1], 1, 4, PumpEnd::WriteFault),
    (
        &[ONE, FAULT],
        &[5, 5],
        b"a",
        &[1, 1],
        2,
        8,
        PumpEnd::WriteFault,
    ),
    (
        &[ONE, ONE, FAULT],
        &[5, 5, 5],
        b"a",
        &[1, 1, 1],
        3,
        12,
        PumpEnd::WriteFault,
    ),
    (
        &[ONE, ONE, ONE, FAULT],
        &[5, 5, 5, 5],
        b"a\n",
        &[1, 1, 1, 1],
        4,
        16,
        PumpEnd::WriteFault,
    ),
    (
        &[ONE, ONE, ONE, ONE, FAULT],
        &[5, 5, 5, 5, 5],
        b"a\nb",
        &[1, 1, 1, 1, 1],
        5,
        20,
        PumpEnd::WriteFault,
    ),
    // the CR that was held back, once the connection has ended
    (
        &[ONE, ONE, ONE, ONE, ONE, FAULT],
        &[5, 5, 5, 5, 5, 5],
        b"a\nb",
        &[1, 1, 1, 1, 1, 0],
        5,
        25,
        PumpEnd::WriteFault,
    ),
    (
        &[ONE, ONE, ONE, ONE, ONE, ONE, FAULT],
        &[5, 5, 5, 5, 5, 5],
        b"a\nb\r",
        &[1, 1, 1, 1, 1, 0],
        5,
        25,
        PumpEnd::Ended,
    ),
];

fn expect_received(rt: &(impl Abort + AllocGlobal), row: &Upload) {
    let (writes, grants, text, pumps, moved, back, end) = *row;
    let mut collected = Vec::new(rt.alloc());
    let sink = Collected {
        octets: &mut collected,
        schedule: writes,
    };
    let inlet = Inlet {
        rest: b"a\r\nb\r",
        schedule: &[ONE; 5],
    };
    let received = receive(rt.alloc(), inlet, sink, DataType::Ascii, grants);
    let (came, _sink) = received.expect(rt, "an upload");
    holds(rt, came.is_sound && reported(&came.pumps, pumps, end));
    holds(rt, came.settled.moved == moved && came.settled.back == back);
    holds(rt, collected.as_slice() == text);
}

#[test]
fn each_write_to_a_sink(rt: HostRuntime) {
    for row in &UPLOADS {
        expect_received(&rt, row);
    }
}
