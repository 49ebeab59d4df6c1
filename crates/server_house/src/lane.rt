//! Signals between rounds and a lane, beside the desk.

ghost use Rattle.std.specs.Prelude.{◌≡◌, ◌+◌, ◌-◌, ◌^◌, None, Some, IfSome, false, if◌then◌else◌, min, true};

use crate::transfer_name::TransferName;
use event_word::EventCount;
use std::sync::atomic::{AtomicU64, Ordering};

/// Most rounds in a row that are refused before the transfers that asked in them end for lack of memory: at a tick of the
/// pace each, half a second.
const MOST_REFUSED: u64 = 256;

/// The session and the user that a lane works for, and the answers to it.
#[derive(Drop)]
pub struct LaneSign {
    /// Increased when a round has answered the lane; the lane waits on it.
    pub answered: EventCount,
    /// The user and direction of the transfer: the lane writes it before it asks, and a round reads it.
    pub name: TransferName,
    // one more than the number of the session; 0 for none
    session: AtomicU64,
    // number of transfers that the lane has begun
    transfers: AtomicU64,
    // the octets that the transfer had moved before its last ask
    moved: AtomicU64,
    // the number of rounds refused since the last that was not, among those that answered the lane
    refused: AtomicU64,
    // 1 if the last grant was all that was asked for, otherwise 0
    whole: AtomicU64,
    // 1 if the rates had plenty left after the last grant to an upload, otherwise 0
    plenty: AtomicU64,
    // 1 if no rate is a limit of an upload, otherwise 0
    free: AtomicU64,
    // 2 if the session of the transfer has a guarantee, 1 if it has none, 0 until a round has seen it
    floor: AtomicU64,
    // 1 if rounds wait for the next ask of the transfer, otherwise 0
    awaited: AtomicU64,
}

// The number of rounds refused in a row, after one more round.
fn refused_after(refused: u64, is_refused: bool) -> u64
    ensures more { is_refused ≡ true → result ≡ min (refused + 1) (2 ^ 64 - 1) }
    ensures none { is_refused ≡ false → result ≡ 0 }
{
    if is_refused {
        refused.saturating_add(1)
    } else {
        0
    }
}

// The word of a session.
fn session_word(session: Option<u32>) -> u64
    ensures none { session ≡ None → result ≡ 0 }
    ensures some { IfSome session (λ number. result ≡ number + 1) }
{
    match session {
        Some(number) => u64::from(number) + 1,
        None => 0,
    }
}

// The word of whether a session has a guarantee.
fn floor_word(has_floor: bool) -> u64
    ensures word { result ≡ (if has_floor then 2 else 1) }
{
    if has_floor { 2 } else { 1 }
}

// Returns whether a session has a guarantee, by its word.
fn floor_in(word: u64) -> Option<bool>
    ensures unseen { word ≡ 0 → result ≡ None }
    ensures none { word ≡ 1 → result ≡ Some false }
    ensures some { word ≡ 2 → result ≡ Some true }
{
    match word {
        0 => None,
        word => Some(word == 2),
    }
}

impl LaneSign {
    /// A sign without answers and without a transfer.
    pub fn new() -> LaneSign {
        LaneSign {
            answered: EventCount::new(),
            name: TransferName::new(),
            session: AtomicU64::new(0),
            transfers: AtomicU64::new(0),
            moved: AtomicU64::new(0),
            refused: AtomicU64::new(0),
            whole: AtomicU64::new(0),
            plenty: AtomicU64::new(0),
            free: AtomicU64::new(0),
            floor: AtomicU64::new(0),
            awaited: AtomicU64::new(0),
        }
    }

    /// Wakes the lane: a round has answered it, or was refused and has given it nothing.
    pub fn answer(&self, is_refused: bool) {
        let refused = self.refused.load(Ordering::SeqCst);
        self.refused
            .store(refused_after(refused, is_refused), Ordering::SeqCst);
        self.answered.signal();
    }

    /// Sets whether the last grant of the lane was all that it asked for.
    pub fn set_whole(&self, is_whole: bool) {
        self.whole.store(u64::from(is_whole), Ordering::SeqCst);
    }

    /// Returns whether the last grant was all that was asked for: no rate held the transfer back.
    pub fn is_whole(&self) -> bool {
        self.whole.load(Ordering::SeqCst) == 1
    }

    /// Sets whether the rates have plenty left after the last grant to an upload.
    pub fn set_plenty(&self, has_plenty: bool) {
        self.plenty.store(u64::from(has_plenty), Ordering::SeqCst);
    }

    /// Returns whether the rates had plenty left after the last grant to an upload: one that is granted more than it reads
    /// takes nothing from others.
    pub fn has_plenty(&self) -> bool {
        self.plenty.load(Ordering::SeqCst) == 1
    }

    /// Sets whether no rate is a limit of the upload of the lane.
    pub fn set_free(&self, is_free: bool) {
        self.free.store(u64::from(is_free), Ordering::SeqCst);
    }

    /// Returns whether no rate was a limit of the upload as it began, or in the last round that granted it octets: one that
    /// is granted more than it reads takes nothing from anybody.
    pub fn is_free(&self) -> bool {
        self.free.load(Ordering::SeqCst) == 1
    }

    /// Sets whether the session of the transfer has a guarantee, as its first round has seen.
    pub fn set_floor(&self, has_floor: bool) {
        self.floor.store(floor_word(has_floor), Ordering::SeqCst);
    }

    /// Returns whether the session of the transfer has a guarantee, if a round has seen it. A reload does not change this:
    /// it is of the transfer's first round.
    pub fn has_floor(&self) -> Option<bool> {
        floor_in(self.floor.load(Ordering::SeqCst))
    }

    /// Sets whether rounds wait for the next ask of the transfer.
    pub fn set_awaited(&self, is_awaited: bool) {
        self.awaited.store(u64::from(is_awaited), Ordering::SeqCst);
    }

    /// Returns whether rounds wait for the next ask of the transfer: its session has a guarantee, and it has not asked since
    /// the last round, which it was in.
    pub fn is_awaited(&self) -> bool {
        self.awaited.load(Ordering::SeqCst) == 1
    }

    /// Returns whether the lane's transfer is to end for lack of memory: [`MOST_REFUSED`] rounds in a row were refused.
    pub fn is_starved(&self) -> bool {
        self.refused.load(Ordering::SeqCst) >= MOST_REFUSED
    }

    /// Sets the session that the lane works for, if any: the transfer is the next one of the lane. No round was refused
    /// to it yet, and it has moved nothing.
    pub fn set_session(&self, session: Option<u32>) {
        self.refused.store(0, Ordering::SeqCst);
        self.moved.store(0, Ordering::SeqCst);
        self.whole.store(0, Ordering::SeqCst);
        self.plenty.store(0, Ordering::SeqCst);
        self.floor.store(0, Ordering::SeqCst);
        self.awaited.store(0, Ordering::SeqCst);
        if session.is_some() {
            self.transfers.fetch_add(1, Ordering::SeqCst);
        }
        self.session.store(session_word(session), Ordering::SeqCst);
    }

    /// The session that the lane works for, if any.
    pub fn session(&self) -> Option<u64> {
        self.session.load(Ordering::SeqCst).checked_sub(1)
    }

    /// The number of the transfer that the lane has begun last, from 1; 0 for none.
    pub fn transfer(&self) -> u64 {
        self.transfers.load(Ordering::SeqCst)
    }

    /// Sets the octets that the transfer has moved before an ask.
    pub fn set_moved(&self, moved: u64) {
        self.moved.store(moved, Ordering::SeqCst);
    }

    /// The octets that the transfer had moved before its last ask.
    pub fn moved(&self) -> u64 {
        self.moved.load(Ordering::SeqCst)
    }
}
