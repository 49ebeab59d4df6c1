//! Turns of one transfer on one lane: grants of one octet and of two, under a rate of the server.

ghost use Rattle.std.specs.Prelude.{◌≡◌, true, IfNone};
ghost use Rattle.desk_rule.specs.declared.view.SeatState.TheVariants.{Asked};
ghost use Rattle.desk_rule.specs.Lanes.{has_looked};
ghost use Rattle.line_rates.specs.Rates.{Rates};
ghost use Rattle.round_pace.specs.Earned.{tick_of};
ghost use Rattle.round_pace.specs.Histories.{rates_of};
ghost use Rattle.round_pace.specs.Paced.{IsPacedFrom};
ghost use Rattle.lane_desk.specs.Seats.{desk_id, seat_view, IsSeatOf, IsSameSeat};
ghost use Rattle.lent_parts.specs.Names.{SitsAt};
ghost use Rattle.transfer_worker.specs.Turns.{IsReported};

use super::ends::{File, Kept, Line};
use super::expect::{OfTest, holds};
use super::house::House;
use super::parts::{Lent, Opened};
use data_pump::{DataIn, DataOut, PumpEnd, Pumped};
use ftp_terms::DataType;
use grant_ledger::{SettledNumbers, Tally};
use lane_desk::{Desk, LaneSeat, SeatState};
use lent_parts::{LentWorker, PartsName};
use line_rates::Ask;
use std::marker::{Brand, PhantomData};
use std::process::Abort;
use std::sync::Wait;
use transfer_worker::{turn_in, turn_out};

/// A transfer in either direction.
#[derive(Drop)]
enum Moving {
    Out(DataOut<File, Line>),
    In(DataIn<Line, Kept>),
}

impl Moving {
    fn ask(&self) -> Ask {
        match self {
            Moving::Out(out) => out.ask(0, 7),
            Moving::In(upload) => upload.ask(0, 7),
        }
    }

    fn turn(
        &mut self,
        desk: &Desk<OfTest>,
        seat: &mut LaneSeat<OfTest>,
        tally: &mut Tally<OfTest>,
    ) -> Option<Pumped>
        requires desk { IsSeatOf desk.now seat.old }
        requires state { (seat_view seat.old).state ≡ Asked }
        requires reported { IsReported tally.old (seat_view seat.old) }
        ensures same { IsSameSeat seat.old seat.new }
        ensures reported { IsReported tally.new (seat_view seat.new) }
        ensures none { IfNone result (seat_view seat.new ≡ has_looked (seat_view seat.old)) }
    {
        match self {
            Moving::Out(out) => turn_out(desk, seat, out, tally),
            Moving::In(upload) => turn_in(desk, seat, upload, tally),
        }
    }

    // The sink of an upload.
    fn into_sink(self) -> Option<Kept> {
        match self {
            Moving::Out(_out) => None,
            Moving::In(upload) => Some(upload.into_sink()),
        }
    }
}

/// A lane's seat with its tally, of the desk with a name.
struct Lane<B: PartsName> {
    seat: LaneSeat<OfTest>,
    tally: Tally<OfTest>,
    name: PhantomData<B>,
    ghost named: { SitsAt B.desk B.lanes seat },
    ghost reported: { IsReported tally (seat_view seat) },
}

impl<B: PartsName> Lane<B> {
    fn new(worker: LentWorker<B, OfTest>) -> Lane<B> {
        let (seat, tally) = worker.into_worked().parts();
        Lane {
            seat,
            tally,
            name: PhantomData,
        }
    }

    fn into_worker(self) -> LentWorker<B, OfTest> {
        let Lane {
            seat,
            tally,
            name: _,
        } = self;
        LentWorker::new(seat, tally)
    }

    // A worker sits down.
    fn sit(&mut self, rt: &impl Abort, house: &House<B>) {
        match self.seat.state() {
            SeatState::Free => self.seat.sit(house.desk().desk()),
            _ => panic!(rt; "somebody sits there"),
        }
    }

    // An ask, a turn that finds nothing, a round this many ticks of the pace after the last one, and the turn of its grant: whether it
    // moved this much and ended in this way.
    fn moves(
        &mut self,
        rt: &(impl Abort + AllocGlobal),
        house: &House<B>,
        ticks: u64,
        moving: &mut Moving,
        moved: u64,
        end: PumpEnd,
    ) -> bool {
        match self.seat.state() {
            SeatState::Worker => {
                let desk = house.desk().desk();
                self.seat.ask(desk, moving.ask());
                let looked = moving.turn(desk, &mut self.seat, &mut self.tally);
                holds(rt, looked.is_none());
                house.serve_after(rt.alloc(), ticks);
                let pumped = moving.turn(desk, &mut self.seat, &mut self.tally);
                pumped == Some(Pumped { moved, end })
            }
            _ => panic!(rt; "no worker sits"),
        }
    }
}

// A round in each tick of the pace, under a rate of one octet per tick: CR LF for the LF of a text, octet by octet.
fn sends_a_text<B: PartsName>(
    rt: &(impl Abort + AllocGlobal),
    house: &House<B>,
    lane: &mut Lane<B>,
) {
    let source = File {
        rest: b"a\nb",
        reads: 2,
    };
    let connection = Line {
        rest: b"",
        wanted: b"a\r\nb",
        writes: 4,
    };
    let opened = DataOut::open(rt.alloc(), source, connection, DataType::Ascii);
    let mut out = Moving::Out(opened.expect(rt, "a download"));
    for end in [PumpEnd::More, PumpEnd::More, PumpEnd::More, PumpEnd::Ended] {
        holds(rt, lane.moves(rt, house, 1, &mut out, 1, end));
    }
}

// A round in each second tick: pieces `a CR`, `LF b`, `CR`, the last CR of which belongs to the text.
fn receives_a_text<B: PartsName>(
    rt: &(impl Abort + AllocGlobal),
    house: &House<B>,
    lane: &mut Lane<B>,
) {
    let connection = Line {
        rest: b"a\r\nb\r",
        wanted: b"",
        writes: 0,
    };
    let sink = Kept {
        wanted: b"a\nb\r",
        writes: 4,
    };
    let opened = DataIn::open(rt.alloc(), connection, sink, DataType::Ascii);
    let mut moving = Moving::In(opened.expect(rt, "an upload"));
    for moved in [2, 2, 1] {
        holds(
            rt,
            lane.moves(rt, house, 2, &mut moving, moved, PumpEnd::More),
        );
    }
    holds(rt, lane.moves(rt, house, 2, &mut moving, 0, PumpEnd::Ended));
    match moving.into_sink() {
        Some(sink) => holds(rt, sink.wanted.is_empty()),
        None => panic!(rt; "a download"),
    }
}

// Both over the desk with this name.
fn move_texts<B: PartsName>(
    rt: &(impl Abort + AllocGlobal + Wait),
    opened: Opened,
) -> SettledNumbers
    requires desk { desk_id opened.desk ≡ B.desk }
    requires lanes { opened.desk.lanes ≡ B.lanes }
    requires paced { (rates : Rates) × IsPacedFrom (tick_of opened.begun.micros) rates opened.pace }
    requires rates { B.rates (rates_of opened.pace) ≡ true }
    requires carried { opened.rounds.book.issued ≡ B.carried }
{
    let Lent {
        house,
        first,
        second,
    } = Lent::<B>::new(opened);
    let mut lane = Lane::new(first);
    lane.sit(rt, &house);
    sends_a_text(rt, &house, &mut lane);
    receives_a_text(rt, &house, &mut lane);
    let first = lane.into_worker();
    let lent = Lent {
        house,
        first,
        second,
    };
    lent.settle(rt)
}

#[test]
fn texts_go_by_one_and_by_two_octets(rt: HostRuntime) {
    let settled = move_texts::<Brand>(&rt, Opened::new(&rt, 500));
    holds(&rt, settled.moved == 4 + 5 && settled.issued == 4 + 8);
}
