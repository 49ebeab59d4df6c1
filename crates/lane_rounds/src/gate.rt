//! The gate of a lane.

ghost use Rattle.std.specs.Prelude.{◌≡◌, ◌||◌, not, true};
ghost use Rattle.lane_rounds.specs.Gates.{answer, dribbles_after, has_seen, runs_upload};
ghost use Rattle.transfer_ticket.specs.Tickets.{is_runner};
ghost use Rattle.transfer_ticket.specs.Views.{run_view};
ghost use Rattle.transfer_worker.specs.Transfers.{IsUploadWant};

use crate::asking::{UploadLooks, account, next_want, want_of};
use crate::ends::{report_of, reported_of};
use crate::engine::Engine;
use crate::rounds::help;
use lent_parts::{PartsName, RoundClock};
use round_cadence::{WORTH, WORTH_UP};
use server_house::{DataConnection, House, LaneEnds, LaneSign, Served, SessionEnd, SessionJob};
use session_table::End;
use std::alloc::Global;
use std::sync::Wait;
use std::time::{Clock, Duration};
use std::{mem, thread};
use transfer_ticket::TicketRun;
use transfer_worker::{Gate, Go, JobEnd, Ran};
use virtual_tree::Store;

/// The longest wait of a lane for an answer before it checks by itself, in milliseconds. Each answer wakes it. An abort
/// does not, and is seen by then.
const BACKSTOP: u64 = 200;

/// The time that it yields to other threads before it sleeps, in microseconds.
const PATIENCE: u64 = 20;

/// The wait after a grant of 0 octets, in microseconds: half a tick of the pace.
const PAUSE: u64 = 1_000;

/// The number of small reads after which an upload dribbles: of fewer octets than it is to have in a round.
const DRIBBLES: u8 = 8;

/// The wait of an upload that dribbles before it asks, in microseconds: more octets come meanwhile, and one round is for
/// all of them.
const GATHER: u64 = 8_000;

/// The gate of a lane for one transfer. It waits for answers, and holds rounds. It stops the transfer before an ask once
/// its session wants it to end, or rounds are refused to it: the lane is free then for the next. It cannot be dropped:
/// it reports the end of its transfer.
pub(crate) struct LaneGate<'r, 'h, 'e, R: RoundClock, S: Store<Global>, H: Drop, B: PartsName, N> {
    rt: &'r R,
    house: &'h House<S, H, B>,
    engine: &'e Engine<B, N>,
    lane: usize,
    run: TicketRun<'h, SessionJob<S>, SessionEnd<S>, LaneEnds>,
    is_upload: bool,
    // whether it has seen that the transfer is to stop
    has_stopped: bool,
    // the end of the transfer, with the sink of an upload
    ended: Option<(End, Option<S::Sink>)>,
    last: Go,
    // whether an ask is next
    is_before_ask: bool,
    // the number of answers seen
    seen: u64,
    // the octets moved before the last ask; none before the first
    asked_at: Option<u64>,
    // the number of small reads since the last of `WORTH` octets
    dribbles: u8,
    // the looks of an upload, if there is memory for them
    upload: Option<UploadLooks>,
    // the number of octets that an upload asks for
    want: u64,
    ghost wants: { IsUploadWant want },
    ghost runs: { is_runner (run_view run) ≡ true },
    ghost way: { runs_upload (run_view run) ≡ is_upload },
    ghost stops: { (not has_stopped || has_seen (run_view run)) ≡ true },
}

impl<'r, 'h, 'e, R, S, H, B, N> LaneGate<'r, 'h, 'e, R, S, H, B, N>
where
    R: Wait + Clock + RoundClock + AllocGlobal,
    S: Store<Global>,
    H: Drop,
    B: PartsName,
{
    /// The gate of a lane for the transfer that it runs, an upload if so.
    pub(crate) fn new(
        rt: &'r R,
        house: &'h House<S, H, B>,
        engine: &'e Engine<B, N>,
        lane: usize,
        run: TicketRun<'h, SessionJob<S>, SessionEnd<S>, LaneEnds>,
        is_upload: bool,
    ) -> Self
        requires runs { is_runner (run_view run) ≡ true }
        requires way { runs_upload (run_view run) ≡ is_upload }
    {
        LaneGate {
            rt,
            house,
            engine,
            lane,
            run,
            is_upload,
            has_stopped: false,
            ended: None,
            last: Go::On,
            is_before_ask: true,
            seen: 0,
            asked_at: None,
            dribbles: 0,
            upload: None,
            want: want_of(None),
        }
    }

    /// Lets an upload look before it asks.
    pub(crate) fn set_looks(&mut self, looks: Option<UploadLooks>) {
        self.upload = looks;
    }

    // Returns whether the session wants the transfer to end.
    fn looks(&mut self) -> bool
        ensures last { self.new.last ≡ self.old.last }
    {
        if self.run.is_to_stop() {
            self.has_stopped = true;
        }
        self.has_stopped
    }

    // Returns whether rounds are refused to the transfer.
    fn is_starved(&self) -> bool {
        match self.house.lanes.get(self.lane) {
            Some(sign) => sign.is_starved(),
            None => false,
        }
    }

    // The answer at this moment.
    fn answer_now(&mut self, is_before_ask: bool) -> Go {
        let is_to_stop = self.looks();
        let is_starved = self.is_starved();
        answer(is_before_ask, is_to_stop, is_starved)
    }

    /// Reports the end of the transfer, which has moved this many octets. A gate that was told of no end reports that it
    /// was not begun.
    pub(crate) fn report(self, moved: u64) {
        let LaneGate {
            rt: _,
            house: _,
            engine: _,
            lane: _,
            run,
            is_upload,
            has_stopped,
            ended,
            last: _,
            is_before_ask: _,
            seen: _,
            asked_at: _,
            dribbles: _,
            upload,
            want: _,
        } = self;
        drop(upload); // the connection is closed first
        let (end, sink) = match ended {
            Some(ended) => ended,
            None => (End::NoMemory, None),
        };
        run.report(report_of(end, sink, is_upload, has_stopped, moved));
    }

    // Takes account of a read of this many octets, after the last grant.
    fn account(&mut self, sign: &LaneSign, octets: u64)
        ensures last { self.new.last ≡ self.old.last }
    {
        let is_free = self.is_upload && sign.is_whole();
        self.dribbles = dribbles_after(self.dribbles, is_free, octets);
        account(&mut self.upload, sign, octets);
    }

    // Before an ask. If the last one was granted nothing, the rates have nothing left, and this waits a moment; and so
    // for an upload whose client sends little, though no rate holds it back. Then an upload looks how much has come, which
    // waits for the client.
    fn begin(&mut self, sign: &LaneSign, moved: u64) {
        self.seen = sign.answered.seen();
        sign.set_moved(moved);
        if let Some(before) = self.asked_at {
            self.account(sign, moved.saturating_sub(before));
        }
        if self.asked_at == Some(moved) {
            thread::sleep(self.rt, Duration::from_micros(PAUSE));
        } else if self.dribbles >= DRIBBLES {
            thread::sleep(self.rt, Duration::from_micros(GATHER));
        }
        self.asked_at = Some(moved);
        self.want = next_want(self.rt.alloc(), &mut self.upload);
    }

    // Waits until a round has answered the ask, or holds one. It may return before.
    fn await_answer(&mut self, sign: &LaneSign) {
        let seen = sign.answered.seen();
        if seen != self.seen {
            self.seen = seen;
            return;
        }
        sign.set_awaited(false);
        let now = self.rt.moment();
        let due = help(self.rt.alloc(), self.house, self.engine, sign, now);
        let limit = match due {
            Some(moment) => Duration::from_micros(moment.saturating_sub(now.micros())),
            None => Duration::from_millis(BACKSTOP),
        };
        sign.answered.wait(self.rt, seen, PATIENCE, limit);
    }

    fn wait(&mut self, is_before_ask: bool, moved: u64) {
        let house = self.house;
        match house.lanes.get(self.lane) {
            Some(sign) => {
                if is_before_ask {
                    self.begin(sign, moved);
                } else {
                    self.await_answer(sign);
                }
            }
            None => {}
        }
    }
}

// The number of small reads after a read, of a transfer that is an upload which no rate held back, or another.
fn dribbles_after(dribbles: u8, is_free: bool, octets: u64) -> u8
    ensures after { result ≡ dribbles_after dribbles is_free octets }
{
    if !is_free || octets >= WORTH {
        return 0;
    }
    if octets < WORTH_UP {
        return dribbles.saturating_add(1);
    }
    dribbles
}

// The answer to a transfer: it stops before an ask, if its session wants it to end or rounds are refused to it.
fn answer(is_before_ask: bool, is_to_stop: bool, is_starved: bool) -> Go
    ensures answer { result ≡ answer is_before_ask is_to_stop is_starved }
{
    if is_before_ask && (is_to_stop || is_starved) {
        return Go::Stop;
    }
    Go::On
}

impl<'r, 'h, 'e, R, S, H, B, N> Gate<
    Ran<Served<Global, S::Source>, S::Sink, DataConnection, Global>,
> for LaneGate<'r, 'h, 'e, R, S, H, B, N>
where
    R: Wait + Clock + RoundClock + AllocGlobal,
    S: Store<Global>,
    H: Drop,
    B: PartsName,
{
    ghost use Rattle.std.specs.Prelude.{None};

    ghost last_go = { λ gate. gate.last };

    ghost heard = { λ _. None };

    ghost passed = { λ _. None };

    ghost may_want = { IsUploadWant };

    fn pass(&mut self, _session: u32, moved: u64) -> Go {
        let is_before_ask = mem::replace(&mut self.is_before_ask, false);
        self.last = self.answer_now(is_before_ask);
        if self.last == Go::On {
            self.wait(is_before_ask, moved);
            self.last = self.answer_now(is_before_ask);
        }
        self.last
    }

    fn upload_want(&self) -> u64 {
        self.want
    }

    fn ask_is_next(&mut self) {
        self.is_before_ask = true;
    }

    fn last(&self) -> Go {
        self.last
    }

    fn done(
        &mut self,
        _session: u32,
        end: JobEnd,
        ran: Ran<Served<Global, S::Source>, S::Sink, DataConnection, Global>,
    ) {
        self.ended = Some(reported_of(end, ran));
    }
}
