//! Uploads over a data connection.

use super::expect::holds;
use data_pump::PumpEnd;
use ftp_terms::DataType;
use std::process::Abort;
use test_transfer_ends::{Collected, FAULT, Inlet, MEMORY, Scheduled, receive, reported};

/// An upload: the octets of the connection, and the schedules of its reads and the sink's writes; the type and the
/// grants; and then the octets of the sink, the octets moved by each pump, the end of the last one, and the numbers of
/// granted octets that were moved and given back.
#[derive(Clone, Copy)]
struct Row<'a> {
    rest: &'a [u8],
    reads: &'static [Scheduled],
    writes: &'static [Scheduled],
    data_type: DataType,
    grants: &'static [u64],
    text: &'a [u8],
    moved: &'static [u64],
    end: PumpEnd,
    settled: (u64, u64),
}

/// A CR at the end of a piece is held back; a CR not before LF is kept.
const TEXT: Row<'static> = Row {
    rest: b"a\r\nb\r",
    reads: &[Scheduled::Move(1); 5],
    writes: &[],
    data_type: DataType::Ascii,
    grants: &[5, 5, 5, 5, 5, 5],
    text: b"a\nb\r",
    moved: &[1, 1, 1, 1, 1, 0],
    end: PumpEnd::Ended,
    settled: (5, 25),
};

/// One pump, which makes one read and one write.
const IMAGE: Row<'static> = Row {
    rest: b"abc",
    reads: &[],
    writes: &[],
    data_type: DataType::Image,
    grants: &[5],
    text: b"abc",
    moved: &[3],
    end: PumpEnd::More,
    settled: (3, 2),
};

/// The sink refuses the CR that was held back, once the connection has ended.
const LAST_CR: Row<'static> = Row {
    rest: b"a\r",
    reads: &[],
    writes: &[Scheduled::Move(1), FAULT],
    grants: &[5, 5],
    text: b"a",
    moved: &[2, 0],
    end: PumpEnd::WriteFault,
    settled: (2, 8),
    ..TEXT
};

static UPLOADS: [Row<'static>; 12] = [
    TEXT,
    Row {
        reads: &[Scheduled::Move(2); 3],
        grants: &[5, 5, 5, 5],
        moved: &[2, 2, 1, 0],
        settled: (5, 15),
        ..TEXT
    },
    Row {
        reads: &[],
        grants: &[5, 5],
        moved: &[5, 0],
        settled: (5, 5),
        ..TEXT
    },
    LAST_CR,
    Row {
        writes: &[Scheduled::Move(1), MEMORY],
        end: PumpEnd::Memory,
        ..LAST_CR
    },
    IMAGE,
    Row {
        rest: b"",
        text: b"",
        moved: &[0],
        end: PumpEnd::Ended,
        settled: (0, 5),
        ..IMAGE
    },
    // A connection that returns nothing has ended, whatever it would return later.
    Row {
        reads: &[Scheduled::Nothing],
        text: b"",
        moved: &[0],
        end: PumpEnd::Ended,
        settled: (0, 5),
        ..IMAGE
    },
    // The sink refuses once; the next write would pass.
    Row {
        writes: &[MEMORY],
        text: b"",
        end: PumpEnd::Memory,
        ..IMAGE
    },
    Row {
        writes: &[FAULT],
        text: b"",
        end: PumpEnd::WriteFault,
        ..IMAGE
    },
    // The connection fails once; the next read would pass.
    Row {
        reads: &[FAULT],
        text: b"",
        moved: &[0],
        end: PumpEnd::ReadFault,
        settled: (0, 5),
        ..IMAGE
    },
    // A grant of nothing makes no read: the connection would fail at any.
    Row {
        reads: &[FAULT],
        writes: &[FAULT],
        grants: &[0],
        text: b"",
        moved: &[0],
        settled: (0, 0),
        ..IMAGE
    },
];

fn expect_received(rt: &(impl Abort + AllocGlobal), row: &Row<'_>) {
    let mut collected = Vec::new(rt.alloc());
    let sink = Collected {
        octets: &mut collected,
        schedule: row.writes,
    };
    let inlet = Inlet {
        rest: row.rest,
        schedule: row.reads,
    };
    let received = receive(rt.alloc(), inlet, sink, row.data_type, row.grants);
    let (came, _sink) = received.expect(rt, "an upload");
    holds(
        rt,
        came.is_sound && reported(&came.pumps, row.moved, row.end),
    );
    holds(rt, (came.settled.moved, came.settled.back) == row.settled);
    holds(rt, collected.as_slice() == row.text);
}

#[test]
fn uploads(rt: HostRuntime) {
    for row in &UPLOADS {
        expect_received(&rt, row);
    }
}

// One pump reads at most 65,536 octets, whatever the grant, and all that it was granted of fewer, under both types.
#[test]
fn a_full_read(rt: HostRuntime) {
    let alloc = rt.alloc();
    let zeros = vec![in alloc; 0u8; 70_000].expect(&rt, "memory");
    let row = Row {
        rest: &zeros,
        text: &zeros[..65_536],
        grants: &[80_000],
        moved: &[65_536],
        settled: (65_536, 14_464),
        ..IMAGE
    };
    let granted = Row {
        text: &zeros[..65_535],
        grants: &[40_000, 25_535],
        moved: &[40_000, 25_535],
        settled: (65_535, 0),
        ..row
    };
    for data_type in [DataType::Image, DataType::Ascii] {
        expect_received(&rt, &Row { data_type, ..row });
        expect_received(
            &rt,
            &Row {
                data_type,
                ..granted
            },
        );
    }
}

/// The schedules of the reads and writes of an upload of `abcdef`, with pumps of two octets; the octets of the sink,
/// the first end of a pump other than `More`, and the number of pumps before it.
type Failure = (
    &'static [Scheduled],
    &'static [Scheduled],
    &'static [u8],
    PumpEnd,
    usize,
);

static FAILURES: [Failure; 4] = [
    (&[], &[FAULT], b"", PumpEnd::WriteFault, 0),
    (
        &[],
        &[Scheduled::Move(2), MEMORY],
        b"ab",
        PumpEnd::Memory,
        1,
    ),
    (
        &[Scheduled::Move(2), FAULT],
        &[],
        b"ab",
        PumpEnd::ReadFault,
        1,
    ),
    (&[Scheduled::Nothing], &[], b"", PumpEnd::Ended, 0),
];

// Each later pump returns the same end, and moves nothing.
fn expect_failed(rt: &(impl Abort + AllocGlobal), failure: &Failure) {
    let (reads, writes, text, end, before) = *failure;
    let mut collected = Vec::new(rt.alloc());
    let sink = Collected {
        octets: &mut collected,
        schedule: writes,
    };
    let inlet = Inlet {
        rest: b"abcdef",
        schedule: reads,
    };
    let received = receive(rt.alloc(), inlet, sink, DataType::Image, &[2; 4]);
    let (came, _sink) = received.expect(rt, "an upload");
    holds(rt, came.is_sound && came.pumps.len() == 4);
    for (place, pumped) in came.pumps.iter().enumerate() {
        let is_before = place < before;
        holds(rt, (pumped.end == PumpEnd::More) == is_before);
        holds(rt, is_before || pumped.end == end);
        holds(rt, place <= before || pumped.moved == 0);
    }
    holds(rt, collected.as_slice() == text);
}

#[test]
fn a_failed_upload_stays_failed(rt: HostRuntime) {
    for failure in &FAILURES {
        expect_failed(&rt, failure);
    }
}
