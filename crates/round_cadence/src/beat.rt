//! The beat of a row: when it is open, and what its last round granted.

ghost use Rattle.std.specs.Prelude.{◌≡◌, ◌≤◌, ◌+◌, false, true};
ghost use Rattle.round_cadence.specs.declared.intervals.TheConstants.{LONGEST};
ghost use Rattle.round_cadence.specs.Beats.{new_beat, new_beats, added, sharer_parts, kept, asked, parts_of, sharers_after, within_ask, within_floor, floor_after, is_drained, opens_after, capped, settled, in_way, change};

use crate::intervals::{HALF_ASK, WORTH, interval, next_opening};
use line_rates::Way;
use round_pace::Credit;

/// The parts of a sharer in which those with a guarantee are counted.
pub const SHARER_PARTS: u64 = 64;

/// The beat of a row.
#[derive(Clone, Copy, Debug, PartialEq, Eq)]
pub struct Beat {
    /// The first tick in which the row is open; 0 if it is open now.
    pub opens: u64,
    /// Number of transfers that share the row: in its last rounds, how many grants as great as the greatest would have
    /// been all that was granted.
    pub sharers: u64,
    /// Octets granted within the row in the current round.
    pub granted: u64,
    /// The greatest of these grants.
    pub greatest: u64,
    /// Sharers of the current round whose sessions have a guarantee, in 64ths: the asks that share a part of the row are
    /// one sharer. Their grants are not among these.
    pub kept: u64,
    /// Octets granted within the row in the current round, to transfers with a guarantee too.
    pub whole: u64,
    /// The greatest of all these grants.
    pub largest: u64,
    /// The greatest guarantee of a session with asks within the row, in octets a second: an eighth less with each round,
    /// since its transfer may miss some.
    pub floor: u64,
    /// The octets that one of these transfers is to have in a round: the most of those that share the row, the least of
    /// those that have its rate to themselves.
    pub worth: u64,
    /// True if the current round has asks within the row.
    pub is_asked: bool,
}

/// The beats of the two directions of a row.
#[derive(Clone, Copy, Debug, PartialEq, Eq)]
pub struct WayBeats {
    /// The beat of downloads.
    pub down: Beat,
    /// The beat of uploads.
    pub up: Beat,
}

// Returns whether too little is left under a rate to be worth a round.
fn is_drained(credit: Credit) -> bool
    ensures drained { result ≡ is_drained credit }
{
    credit.rate != 0 && credit.left <= (credit.rate / 1_000).min(WORTH)
}

// The parts of a sharer that one of the asks adds that are a sharer together, as many as the crowd.
fn sharer_parts(crowd: u64) -> u64
    ensures parts { result ≡ sharer_parts crowd }
{
    SHARER_PARTS / crowd.clamp(1, SHARER_PARTS)
}

impl Beat {
    /// The beat of a row that has had no round: it is open.
    pub fn new() -> Beat
        ensures new { result ≡ new_beat }
    {
        Beat {
            opens: 0,
            sharers: 1,
            granted: 0,
            greatest: 0,
            kept: 0,
            whole: 0,
            largest: 0,
            floor: 0,
            worth: WORTH,
            is_asked: false,
        }
    }

    /// Adds a grant of the current round, to a transfer that is to have `worth` octets in a round.
    pub fn add(self, grant: u64, worth: u64) -> Beat
        ensures added { result ≡ added grant worth self }
    {
        Beat {
            opens: self.opens,
            sharers: self.sharers,
            granted: self.granted.saturating_add(grant),
            greatest: self.greatest.max(grant),
            kept: self.kept,
            whole: self.whole.saturating_add(grant),
            largest: self.largest.max(grant),
            floor: self.floor,
            worth: if self.is_asked {
                self.worth.max(worth)
            } else {
                worth
            },
            is_asked: true,
        }
    }

    /// Adds a grant of the current round to a transfer whose session has this guarantee: it may be far above those of
    /// others, and is no measure of them. It is one of a crowd of such transfers that share a part of the row, and are one
    /// sharer together.
    pub fn keep(self, grant: u64, floor: u64, worth: u64, crowd: u64) -> Beat
        ensures kept { result ≡ kept grant floor worth crowd self }
    {
        let mut beat = self.add(0, worth);
        beat.kept = self.kept.saturating_add(sharer_parts(crowd));
        beat.whole = self.whole.saturating_add(grant);
        beat.largest = self.largest.max(grant);
        beat.floor = self.floor.max(floor);
        beat
    }

    /// Adds an ask of the current round, of a transfer that shares the rate with no other and is to have `worth` octets in
    /// a round.
    pub fn ask(self, worth: u64) -> Beat
        ensures asked { result ≡ asked worth self }
    {
        Beat {
            opens: self.opens,
            sharers: self.sharers,
            granted: self.granted,
            greatest: self.greatest,
            kept: self.kept,
            whole: self.whole,
            largest: self.largest,
            floor: self.floor,
            worth: self.worth.min(worth),
            is_asked: true,
        }
    }

    // Number of sharers after the current round: at once as many as shared in it, or an eighth fewer than before.
    fn sharers_after(self) -> u64
        ensures sharers { result ≡ sharers_after self }
    {
        let parts = self.granted.div_ceil(self.greatest.max(1));
        let kept = self.kept.div_ceil(SHARER_PARTS);
        let sharers = parts.saturating_add(kept).max(1);
        sharers.max(self.sharers.saturating_sub(self.sharers.div_ceil(8)))
    }

    // These octets of an interval, or those of which the largest grant would be half of what a transfer asks for at most, if
    // they are fewer: an interval earns less than twice as much, and more than it asks for no transfer is granted.
    fn within_ask(self, octets: u64) -> u64
        ensures within { result ≡ within_ask self octets }
    {
        if self.largest == 0 {
            return octets;
        }
        octets.min(self.whole.saturating_mul(HALF_ASK) / self.largest)
    }

    // These octets of an interval, or those that the rate earns while the greatest guarantee earns half of what a transfer
    // asks for at most, if they are fewer: its transfer may have missed the round.
    fn within_floor(self, rate: u64, octets: u64) -> u64
        ensures within { result ≡ within_floor self rate octets }
    {
        if self.floor == 0 {
            return octets;
        }
        octets.min(rate.saturating_mul(HALF_ASK) / self.floor)
    }

    // The greatest guarantee after the current round.
    fn floor_after(self) -> u64
        ensures floor { result ≡ floor_after self }
    {
        self.floor.saturating_sub(self.floor.div_ceil(8))
    }

    // The first tick in which the row is open after the current round.
    fn opens_after(self, credit: Credit, tick: u64) -> u64
        ensures opens { result ≡ opens_after tick credit self }
        ensures soon { result ≤ tick + LONGEST }
    {
        if !is_drained(credit) {
            return 0;
        }
        let octets = self.within_ask(self.worth.saturating_mul(self.sharers_after()));
        let octets = self.within_floor(credit.rate, octets);
        next_opening(tick, interval(credit.rate, octets))
    }

    /// This beat, open in `most` at the latest; 0 is no such tick.
    pub fn cap(self, most: u64) -> Beat
        ensures capped { result ≡ capped most self }
    {
        let mut beat = self;
        if most != 0 {
            beat.opens = self.opens.min(most);
        }
        beat
    }

    /// The beat after the current round, which was held in `tick` and left this credit. If nothing was added in it,
    /// nothing changes. If it drained the row, this is closed to the next tick of its interval, at most [`LONGEST`] ticks
    /// later; otherwise it is open. A beat of asks alone keeps its one sharer.
    pub fn settle(self, credit: Credit, tick: u64) -> Beat
        ensures settled { result ≡ settled tick credit self }
        ensures done { result.is_asked ≡ false }
        ensures soon { self.is_asked ≡ true → result.opens ≤ tick + LONGEST }
        ensures alone { self.granted ≡ 0 → self.kept ≡ 0 → self.sharers ≡ 1
            → (result.granted ≡ 0) × (result.kept ≡ 0) × (result.sharers ≡ 1) }
    {
        if !self.is_asked {
            return self;
        }
        Beat {
            opens: self.opens_after(credit, tick),
            sharers: self.sharers_after(),
            granted: 0,
            greatest: 0,
            kept: 0,
            whole: 0,
            largest: 0,
            floor: self.floor_after(),
            worth: WORTH,
            is_asked: false,
        }
    }
}

impl WayBeats {
    /// The beats of a row that has had no round.
    pub fn new() -> WayBeats
        ensures new { result ≡ new_beats }
    {
        WayBeats {
            down: Beat::new(),
            up: Beat::new(),
        }
    }

    /// The beat of a direction.
    pub fn beat(self, way: Way) -> Beat
        ensures beat { result ≡ in_way way self }
    {
        match way {
            Way::Down => self.down,
            Way::Up => self.up,
        }
    }

    /// Adds a grant of the current round to the beat of a direction.
    pub fn add(self, way: Way, grant: u64, worth: u64) -> WayBeats
        ensures added { result ≡ change way (added grant worth) self }
    {
        match way {
            Way::Down => WayBeats {
                down: self.down.add(grant, worth),
                up: self.up,
            },
            Way::Up => WayBeats {
                down: self.down,
                up: self.up.add(grant, worth),
            },
        }
    }

    /// Adds a grant of the current round to a transfer whose session has this guarantee, one of a crowd, to the beat of a
    /// direction.
    pub fn keep(self, way: Way, grant: u64, floor: u64, worth: u64, crowd: u64) -> WayBeats
        ensures kept { result ≡ change way (kept grant floor worth crowd) self }
    {
        match way {
            Way::Down => WayBeats {
                down: self.down.keep(grant, floor, worth, crowd),
                up: self.up,
            },
            Way::Up => WayBeats {
                down: self.down,
                up: self.up.keep(grant, floor, worth, crowd),
            },
        }
    }

    /// Adds an ask of the current round to the beat of a direction whose rate no transfer shares with another.
    pub fn ask(self, way: Way, worth: u64) -> WayBeats
        ensures asked { result ≡ change way (asked worth) self }
    {
        match way {
            Way::Down => WayBeats {
                down: self.down.ask(worth),
                up: self.up,
            },
            Way::Up => WayBeats {
                down: self.down,
                up: self.up.ask(worth),
            },
        }
    }

    /// These beats, that of a direction open in `most` at the latest; 0 is no such tick.
    pub fn cap(self, way: Way, most: u64) -> WayBeats
        ensures capped { result ≡ change way (capped most) self }
    {
        match way {
            Way::Down => WayBeats {
                down: self.down.cap(most),
                up: self.up,
            },
            Way::Up => WayBeats {
                down: self.down,
                up: self.up.cap(most),
            },
        }
    }

    /// The beats after the current round, which was held in `tick` and left the direction this credit.
    pub fn settle(self, way: Way, credit: Credit, tick: u64) -> WayBeats
        ensures settled { result ≡ change way (settled tick credit) self }
    {
        match way {
            Way::Down => WayBeats {
                down: self.down.settle(credit, tick),
                up: self.up,
            },
            Way::Up => WayBeats {
                down: self.down,
                up: self.up.settle(credit, tick),
            },
        }
    }
}
