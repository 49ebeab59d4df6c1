//! The tallies of lanes.

ghost use Rattle.std.specs.Prelude.{◌≡◌, ◌+◌, ◌≤◌, ◌<◌, ◌^◌, slice_set, slice_index_or};
ghost use Rattle.round_tally.specs.Counts.{AreBegun, all_rounds, lane_after, lane_begun, no_tally, tallied, ended_after};

use crate::held::{HeldTally, innermost};
use grant_ledger::MAX_LANES;
use line_rates::Name;

/// A grant of a round.
#[derive(Clone, Copy, Debug, PartialEq, Eq)]
pub struct RoundGrant {
    pub octets: u64,
    /// The name of the limit that held the transfer back; none if it was granted all that it asked for.
    pub held: Option<Name>,
    /// The number of the window of the round.
    pub window: u64,
}

/// The octets that rounds have granted to the transfer of a lane.
#[derive(Clone, Copy, Debug, PartialEq, Eq)]
pub struct LaneTally {
    /// The number of the transfer; 0 for none.
    pub transfer: u64,
    /// The octets granted to it.
    pub granted: u64,
    /// The rounds that granted them, by what held it back, but for those of the last window.
    pub held: HeldTally,
    /// The window of the last of these rounds.
    pub window: u64,
    /// The number of rounds in that window, and the innermost limit that held it back in one of them.
    pub rounds: u64,
    pub innermost: Option<Name>,
}

/// The tallies of the last transfer of each lane, and of all transfers before these.
#[derive(Clone, Copy)]
pub struct Tallies {
    lanes: [LaneTally; MAX_LANES],
    ended: LaneTally,
}

impl LaneTally {
    /// The tally of a transfer to which nothing was granted.
    pub fn of(transfer: u64) -> LaneTally
        ensures none { result ≡ no_tally transfer }
    {
        LaneTally {
            transfer,
            granted: 0,
            held: HeldTally::NONE,
            window: 0,
            rounds: 0,
            innermost: None,
        }
    }

    /// All rounds, those of the last window included.
    pub fn all_rounds(self) -> HeldTally
        ensures rounds { result ≡ all_rounds self }
    {
        self.held.and_more(self.innermost, self.rounds)
    }

    // The tally once a transfer runs.
    fn begun(self, transfer: u64) -> LaneTally
        ensures begun { result ≡ lane_begun transfer self }
    {
        if self.transfer == transfer {
            self
        } else {
            LaneTally::of(transfer)
        }
    }

    // The tally after a grant to a transfer.
    fn after(self, transfer: u64, granted: RoundGrant) -> LaneTally
        requires fits { self.granted + granted.octets < 2 ^ 64 }
        ensures after { result ≡ lane_after transfer granted self }
    {
        let before = self.begun(transfer);
        let RoundGrant {
            octets,
            held,
            window,
        } = granted;
        if before.window == window {
            return LaneTally {
                transfer,
                granted: before.granted + octets,
                held: before.held,
                window,
                rounds: before.rounds.saturating_add(1),
                innermost: innermost(before.innermost, held),
            };
        }
        LaneTally {
            transfer,
            granted: before.granted + octets,
            held: before.all_rounds(),
            window,
            rounds: 1,
            innermost: held,
        }
    }

    // The tally of ended transfers, after a grant to a transfer of a lane with this tally.
    fn ended_after(self, transfer: u64, lane: LaneTally) -> LaneTally
        requires fits { self.granted + lane.granted < 2 ^ 64 }
        ensures after { result ≡ ended_after transfer lane self }
    {
        if lane.transfer == transfer {
            return self;
        }
        LaneTally {
            transfer: self.transfer,
            granted: self.granted + lane.granted,
            held: self.held.and(lane.all_rounds()),
            window: self.window,
            rounds: self.rounds,
            innermost: self.innermost,
        }
    }
}

impl Tallies {
    /// Nothing was granted yet.
    pub fn new() -> Tallies
        ensures none { tallied result ≡ 0 }
    {
        Tallies {
            lanes: [LaneTally::of(0); MAX_LANES],
            ended: LaneTally::of(0),
        }
    }

    /// A transfer of this number runs on a lane: without a grant yet, if the lane's last tally is of another.
    pub fn begin(&mut self, lane: usize, transfer: u64)
        requires lane { lane < MAX_LANES }
        requires fits { tallied self.old < 2 ^ 64 }
        ensures lanes { self.new.lanes ≡ slice_set self.old.lanes lane
            (lane_begun transfer (slice_index_or self.old.lanes lane (no_tally 0))) }
        ensures ended { self.new.ended ≡ ended_after transfer
            (slice_index_or self.old.lanes lane (no_tally 0)) self.old.ended }
        ensures total { tallied self.new ≡ tallied self.old }
    {
        let before = self.lanes[lane];
        self.ended = self.ended.ended_after(transfer, before);
        self.lanes[lane] = before.begun(transfer);
    }

    /// The tallies if these transfers run, by the place of their lane: those of other transfers have ended.
    pub fn running(&self, transfers: &[u64; MAX_LANES]) -> Tallies
        requires fits { tallied self.now < 2 ^ 64 }
        ensures total { tallied result ≡ tallied self.now }
        ensures lanes { AreBegun transfers.now self.now.lanes result.lanes }
    {
        let mut tallies = *self;
        for lane in 0..MAX_LANES {
            tallies.begin(lane, transfers[lane]);
        }
        tallies
    }

    /// Counts a grant to the transfer of this number on a lane.
    ///
    /// The rounds of a window are counted together, by the innermost limit that held the transfer back in one of them.
    /// Within a window, which has the length of the longest interval between two fillings, a limit is shared in bursts: who
    /// has taken all that an inner limit had is held back by that, and not by the outer ones in between.
    pub fn count(&mut self, lane: usize, transfer: u64, grant: RoundGrant)
        requires lane { lane < MAX_LANES }
        requires fits { tallied self.old + grant.octets < 2 ^ 64 }
        ensures lanes { self.new.lanes ≡ slice_set self.old.lanes lane
            (lane_after transfer grant (slice_index_or self.old.lanes lane (no_tally 0))) }
        ensures ended { self.new.ended ≡ ended_after transfer
            (slice_index_or self.old.lanes lane (no_tally 0)) self.old.ended }
        ensures total { tallied self.new ≡ tallied self.old + grant.octets }
    {
        let before = self.lanes[lane];
        self.ended = self.ended.ended_after(transfer, before);
        self.lanes[lane] = before.after(transfer, grant);
    }

    /// The tally of the last transfer of a lane.
    pub fn lane(&self, lane: usize) -> LaneTally
        requires lane { lane < MAX_LANES }
        ensures tally { result ≡ slice_index_or self.now.lanes lane (no_tally 0) }
    {
        self.lanes[lane]
    }

    /// The tally of all transfers before the last of each lane.
    pub fn ended(&self) -> LaneTally
        ensures ended { result ≡ self.now.ended }
    {
        self.ended
    }
}
