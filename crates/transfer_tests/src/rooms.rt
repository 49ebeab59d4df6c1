//! Rooms of the buffers of downloads, by the octets that are expected of their sources.

use super::expect::holds;
use data_pump::{DataOut, OpenFault, pump_out};
use ftp_terms::DataType;
use linked_list_allocator::LocalHeap;
use std::process::Abort;
use test_scarce_memory::leave_hole;
use test_transfer_ends::{Funds, Octets, Outlet};
use virtual_tree::{Source, StoreFault};

/// A source of which this number of octets is expected.
#[derive(Drop)]
struct Stated<'a> {
    octets: Octets<'a>,
    expected: Option<u64>,
}

impl<'a> Source for Stated<'a> {
    ghost use Rattle.std.specs.Prelude.{None};

    ghost remaining = { λ _. None };

    fn read(&mut self, buffer: &mut [u8]) -> Result<usize, StoreFault> {
        self.octets.read(buffer)
    }

    fn expected(&self) -> Option<u64> {
        self.expected
    }
}

fn source_of(rest: &[u8], expected: Option<u64>) -> Stated<'_> {
    let octets = Octets {
        rest,
        schedule: &[],
    };
    Stated { octets, expected }
}

/// A data type, the number of octets that is expected, and the number of those that there are; and then the number that
/// the first read returns, and the number of pumps, each of all octets that wait, until the end.
type Row = (DataType, Option<u64>, usize, usize, u32);

static ROOMS: [Row; 15] = [
    // as many as are expected, fewer, and one more
    (DataType::Image, Some(1_000), 1_000, 1_000, 1),
    (DataType::Image, Some(1_000), 10, 10, 1),
    (DataType::Image, Some(1_000), 1_001, 1_001, 1),
    // more are read in pieces
    (DataType::Image, Some(1_000), 3_000, 1_001, 3),
    // the least room
    (DataType::Image, Some(0), 1_000, 512, 2),
    (DataType::Image, Some(511), 1_000, 512, 2),
    (DataType::Image, Some(512), 1_000, 513, 2),
    // the most
    (DataType::Image, Some(65_534), 70_000, 65_535, 2),
    (DataType::Image, Some(65_536), 70_000, 65_536, 2),
    (DataType::Image, Some(u64::MAX), 70_000, 65_536, 2),
    (DataType::Image, None, 70_000, 65_536, 2),
    // a text is read into half of it
    (DataType::Ascii, Some(1_000), 2_002, 1_001, 2),
    (DataType::Ascii, Some(1), 600, 256, 3),
    (DataType::Ascii, Some(32_766), 40_000, 32_767, 2),
    (DataType::Ascii, Some(u64::MAX), 40_000, 32_768, 2),
];

// Number of pumps, each of all octets that wait, until a download has ended; at most nine.
fn count_pumps(out: &mut DataOut<Stated<'_>, Outlet<'_>>, funds: &mut Funds) -> u32 {
    for count in 0..9u32 {
        if out.ended() {
            return count;
        }
        let all = funds.grant(out.waiting() as u64);
        pump_out(all, out, &mut funds.tally);
    }
    9
}

// The octets have no line end, so each is one on the wire.
fn expect_room(rt: &(impl Abort + AllocGlobal), row: &Row) {
    let (data_type, expected, count, first, pumps) = *row;
    let alloc = rt.alloc();
    let text = vec![in alloc; b'x'; count].expect(rt, "memory");
    let mut funds = Funds::new(alloc, &[100_000]).expect(rt, "memory");
    let mut taken = Vec::new(alloc);
    let outlet = Outlet {
        taken: &mut taken,
        schedule: &[],
    };
    let source = source_of(&text, expected);
    let out = DataOut::open(alloc, source, outlet, data_type);
    let mut out = out.expect(rt, "a download");
    holds(rt, out.waiting() == first);
    holds(rt, count_pumps(&mut out, &mut funds) == pumps);
    drop(out);
    holds(rt, funds.settle().moved == count as u64);
    holds(rt, taken == text);
}

#[test]
fn rooms(rt: HostRuntime) {
    for row in &ROOMS {
        expect_room(&rt, row);
    }
}

/// Grants; and then the octets that wait after each pump, and after they were topped up, of a source of 3,000 octets of
/// which 1,000 are expected: there is room for 1,001.
static TOPPED: [(u64, usize, usize); 4] = [
    // half of the room and more is not few
    (500, 501, 501),
    (1, 500, 1_001),
    (900, 101, 1_001),
    // none wait, so the pump reads the rest
    (1_001, 598, 598),
];

#[test]
fn few_for_the_room(rt: HostRuntime) {
    let alloc = rt.alloc();
    let text = vec![in alloc; b'x'; 3_000].expect(&rt, "memory");
    let mut funds = Funds::new(alloc, &[3_000]).expect(&rt, "memory");
    let connection: Vec<u8> = Vec::new(alloc);
    let source = source_of(&text, Some(1_000));
    let out = DataOut::open(alloc, source, connection, DataType::Image);
    let mut out = out.expect(&rt, "a download");
    for (grant, waiting, topped) in &TOPPED {
        pump_out(funds.grant(*grant), &mut out, &mut funds.tally);
        holds(&rt, out.waiting() == *waiting);
        out.top_up();
        holds(&rt, out.waiting() == *topped);
    }
    drop(out);
    funds.settle();
}

// Returns whether a download of one octet can be opened over this heap.
fn opens(heap: &LocalHeap, taken: &mut Vec<u8>, row: (DataType, Option<u64>)) -> bool {
    let outlet = Outlet {
        taken,
        schedule: &[],
    };
    match DataOut::open(heap, source_of(b"a", row.1), outlet, row.0) {
        Ok(_) => true,
        Err(fault) => fault != OpenFault::Memory,
    }
}

/// A data type and the number of octets that is expected; and whether 1,000 octets are enough for the buffer.
static SMALL: [(DataType, Option<u64>, bool); 6] = [
    (DataType::Image, Some(1), true),
    (DataType::Image, Some(2_000), false),
    (DataType::Image, None, false),
    (DataType::Ascii, Some(1), true),
    (DataType::Ascii, Some(1_000), false),
    (DataType::Ascii, None, false),
];

// The room is for what the source expects, which no clause says of a source whose octets are not known.
#[test]
fn a_small_file_needs_little_memory(rt: HostRuntime) {
    let heap = LocalHeap::new(rt.alloc(), 200_000).expect(&rt, "a heap");
    let _rest = leave_hole(&rt, &heap, 1_000).expect(&rt, "a hole");
    let mut taken = Vec::new(rt.alloc());
    for (data_type, expected, wanted) in &SMALL {
        holds(
            &rt,
            opens(&heap, &mut taken, (*data_type, *expected)) == *wanted,
        );
    }
}
