//! Downloads over a data connection. The function with a crate's name is the example in its head.

use super::expect::holds;
use data_pump::{DataOut, FailedPart, OpenFault, PumpEnd, pump_out};
use ftp_terms::DataType;
use line_rates::Way;
use std::process::Abort;
use test_transfer_ends::{FAULT, Funds, MEMORY, Octets, Outlet, Scheduled, reported, send};

// A source whose calls return all that they can.
fn octets(rest: &[u8]) -> Octets<'_> {
    Octets {
        rest,
        schedule: &[],
    }
}

fn data_pump(
    rt: &(impl Abort + AllocGlobal),
    source: Octets<'_>,
    funds: &mut Funds,
) -> Result<(), OpenFault> {
    let connection: Vec<u8> = Vec::new(rt.alloc());
    let mut out = DataOut::open(rt.alloc(), source, connection, DataType::Ascii)?; // reads once
    let pumped = pump_out(funds.grant(3), &mut out, &mut funds.tally); // at most 3 octets
    holds(rt, pumped.moved == 3 && pumped.end == PumpEnd::More);
    let rest = funds.grant(out.waiting() as u64); // of all that is left to move
    let pumped = pump_out(rest, &mut out, &mut funds.tally);
    holds(rt, pumped.end == PumpEnd::Ended && out.ended());
    Ok(())
}

#[test]
fn a_download(rt: HostRuntime) {
    let mut funds = Funds::new(rt.alloc(), &[100]).expect(&rt, "memory");
    holds(&rt, data_pump(&rt, octets(b"a\nb"), &mut funds).is_ok());
    holds(&rt, funds.settle().moved == 4);
}

/// A download: a text, and the schedules of the source's reads and the connection's writes; the type and the grants;
/// and then the octets on the wire, the octets moved by each pump, and the end of the last one, or the refusal.
#[derive(Clone, Copy)]
struct Row {
    text: &'static [u8],
    reads: &'static [Scheduled],
    writes: &'static [Scheduled],
    data_type: DataType,
    grants: &'static [u64],
    wire: &'static [u8],
    moved: &'static [u64],
    end: Result<PumpEnd, OpenFault>,
}

const ONE_BY_ONE: [Scheduled; 8] = [Scheduled::Move(1); 8];

/// A text that is read at once, over a connection that takes octet by octet.
const TEXT: Row = Row {
    text: b"a\nb",
    reads: &[],
    writes: &ONE_BY_ONE,
    data_type: DataType::Ascii,
    grants: &[4],
    wire: b"a\r\nb",
    moved: &[4],
    end: Ok(PumpEnd::Ended),
};

/// A source that returns two octets, and then fails once.
const FAILS: Row = Row {
    text: b"abc",
    reads: &[Scheduled::Move(2), FAULT],
    writes: &[],
    data_type: DataType::Image,
    grants: &[2],
    wire: b"ab",
    moved: &[2],
    end: Ok(PumpEnd::ReadFault),
};

/// A connection that fails once: later calls would pass.
const RESET: Row = Row {
    writes: &[FAULT],
    wire: b"",
    moved: &[0],
    end: Ok(PumpEnd::WriteFault),
    ..TEXT
};

static DOWNLOADS: [Row; 15] = [
    TEXT,
    // Octet by octet: four pumps, the last of which ends.
    Row {
        grants: &[1, 1, 1, 1],
        moved: &[1, 1, 1, 1],
        ..TEXT
    },
    // A source that is read octet by octet: the text is the same.
    Row {
        text: b"\r\n\n\r",
        reads: &ONE_BY_ONE,
        grants: &[3, 3, 3, 3],
        wire: b"\r\r\n\r\n\r",
        moved: &[1, 2, 2, 1],
        ..TEXT
    },
    // The first, second, third or fourth write fails.
    RESET,
    Row {
        writes: &[Scheduled::Move(1), FAULT],
        wire: b"a",
        moved: &[1],
        ..RESET
    },
    Row {
        writes: &[Scheduled::Move(1), Scheduled::Move(1), FAULT],
        wire: b"a\r",
        moved: &[2],
        ..RESET
    },
    Row {
        writes: &[Scheduled::Move(2), Scheduled::Move(1), FAULT],
        wire: b"a\r\n",
        moved: &[3],
        ..RESET
    },
    // A write that takes nothing has failed.
    Row {
        writes: &[Scheduled::Move(3), Scheduled::Nothing],
        wire: b"a\r\n",
        moved: &[3],
        ..RESET
    },
    // A smaller grant, and a write that fails.
    Row {
        writes: &[Scheduled::Move(2), FAULT],
        grants: &[3],
        wire: b"a\r",
        moved: &[2],
        ..RESET
    },
    // A grant of nothing makes no call: the connection would fail at any.
    Row {
        text: b"",
        grants: &[0],
        end: Ok(PumpEnd::Ended),
        ..RESET
    },
    Row {
        text: b"a",
        grants: &[0],
        end: Ok(PumpEnd::More),
        ..RESET
    },
    // The source fails at its second read, or at its first; the next would pass.
    FAILS,
    Row {
        reads: &[Scheduled::Move(2), MEMORY],
        end: Ok(PumpEnd::Memory),
        ..FAILS
    },
    Row {
        reads: &[FAULT],
        wire: b"",
        end: Err(OpenFault::ReadFault),
        ..FAILS
    },
    Row {
        reads: &[MEMORY],
        wire: b"",
        end: Err(OpenFault::Memory),
        ..FAILS
    },
];

// Octets not moved are given back.
fn expect_sent(rt: &(impl Abort + AllocGlobal), row: &Row) {
    let mut taken = Vec::new(rt.alloc());
    let outlet = Outlet {
        taken: &mut taken,
        schedule: row.writes,
    };
    let source = Octets {
        rest: row.text,
        schedule: row.reads,
    };
    match send(rt.alloc(), source, outlet, row.data_type, row.grants) {
        Ok(sent) => {
            let end = row.end.expect(rt, "no refusal");
            holds(rt, sent.is_sound && reported(&sent.pumps, row.moved, end));
            let settled = sent.settled;
            holds(rt, settled.moved == row.wire.len() as u64);
            holds(
                rt,
                settled.moved.checked_add(settled.back) == Some(settled.issued),
            );
        }
        Err(fault) => holds(rt, row.end == Err(fault)),
    }
    holds(rt, taken.as_slice() == row.wire);
}

#[test]
fn downloads(rt: HostRuntime) {
    for row in &DOWNLOADS {
        expect_sent(&rt, row);
    }
}

// Sends octets that are read at once, with grants of 80,000, of which the pumps move these numbers.
fn expect_moved(
    rt: &(impl Abort + AllocGlobal),
    text: &[u8],
    data_type: DataType,
    moved: &[u64; 3],
) {
    let mut taken = Vec::new(rt.alloc());
    let outlet = Outlet {
        taken: &mut taken,
        schedule: &[Scheduled::Move(10_000); 20],
    };
    let source = octets(text);
    let sent = send(rt.alloc(), source, outlet, data_type, &[80_000; 3]);
    let sent = sent.expect(rt, "a download");
    holds(rt, sent.pumps.len() == 3);
    for (pumped, count) in sent.pumps.iter().zip(moved) {
        holds(rt, pumped.moved == *count);
    }
}

// At most 65,536 wire octets wait, which are half as many line ends under TYPE A.
#[test]
fn a_full_buffer(rt: HostRuntime) {
    let alloc = rt.alloc();
    let ends = vec![in alloc; b'\n'; 70_000].expect(&rt, "memory");
    expect_moved(&rt, &ends, DataType::Image, &[65_536, 4_464, 0]);
    let fewer = &ends[..40_000];
    expect_moved(&rt, fewer, DataType::Ascii, &[65_536, 14_464, 0]);
}

/// Reads of a source of 100,000 octets: one for a full buffer, one of ten octets, and one that fails.
const READS: [Scheduled; 3] = [Scheduled::Move(65_536), Scheduled::Move(10), FAULT];

/// Grants; and then the octets that wait after each pump, and after they were topped up.
static TOPPED: [(u64, usize, usize); 6] = [
    // half of the most is not few
    (32_768, 32_768, 32_768),
    (1, 32_767, 32_777),
    // a read that fails, and then one that fills the buffer
    (10, 32_767, 32_767),
    (0, 32_767, 65_536),
    // the rest, after which the source has ended
    (65_536, 1_685, 1_685),
    (1_685, 0, 0),
];

// Pumps a grant and tops up. Returns whether it moves, and these numbers of octets wait then.
fn is_topped(
    out: &mut DataOut<Octets<'_>, Outlet<'_>>,
    funds: &mut Funds,
    step: (u64, usize, usize),
) -> bool {
    let pumped = pump_out(funds.grant(step.0), out, &mut funds.tally);
    let waited = out.waiting();
    out.top_up();
    (waited, out.waiting()) == (step.1, step.2)
        && pumped.moved == step.0
        && out.last() == pumped.end
}

#[test]
fn few_octets_are_topped_up(rt: HostRuntime) {
    let alloc = rt.alloc();
    let mut text = Vec::new(alloc);
    for place in 0..100_000u32 {
        text.push((place % 251) as u8).expect(&rt, "memory");
    }
    let mut funds = Funds::new(alloc, &[100_000]).expect(&rt, "memory");
    let mut taken = Vec::new(alloc);
    let outlet = Outlet {
        taken: &mut taken,
        schedule: &[],
    };
    let source = Octets {
        rest: &text,
        schedule: &READS,
    };
    let out = DataOut::open(alloc, source, outlet, DataType::Image);
    let mut out = out.expect(&rt, "a download");
    for step in &TOPPED {
        holds(&rt, is_topped(&mut out, &mut funds, *step));
    }
    holds(&rt, out.ended());
    drop(out);
    let settled = funds.settle();
    holds(&rt, taken == text && settled.moved == 100_000);
}

// Under TYPE A only an empty buffer is filled.
#[test]
fn a_text_is_not_topped_up(rt: HostRuntime) {
    let mut funds = Funds::new(rt.alloc(), &[1]).expect(&rt, "memory");
    let connection: Vec<u8> = Vec::new(rt.alloc());
    let source = octets(b"ab");
    let out = DataOut::open(rt.alloc(), source, connection, DataType::Ascii);
    let mut out = out.expect(&rt, "a download");
    pump_out(funds.grant(1), &mut out, &mut funds.tally);
    out.top_up();
    holds(&rt, out.waiting() == 1 && !out.ended());
    funds.settle();
}

const READER: (Option<FailedPart>, Option<FailedPart>) = (
    Some(FailedPart::Source),
    Some(FailedPart::Connection),
);

const STORE: (Option<FailedPart>, Option<FailedPart>) = (
    Some(FailedPart::Source),
    Some(FailedPart::Sink),
);

const WRITER: (Option<FailedPart>, Option<FailedPart>) = (
    Some(FailedPart::Connection),
    Some(FailedPart::Sink),
);

/// The part at fault for an end, in a download and in an upload.
static FAULTS: [(PumpEnd, (Option<FailedPart>, Option<FailedPart>)); 5] = [
    (PumpEnd::Ended, (None, None)),
    (PumpEnd::More, (None, None)),
    (PumpEnd::ReadFault, READER),
    (PumpEnd::WriteFault, WRITER),
    (PumpEnd::Memory, STORE),
];

#[test]
fn whose_fault(rt: HostRuntime) {
    for (end, (down, up)) in &FAULTS {
        holds(&rt, end.failed_part(Way::Down) == *down);
        holds(&rt, end.failed_part(Way::Up) == *up);
    }
}
