//! The user and direction of a transfer.

ghost use Rattle.std.specs.Prelude.{◌≡◌, ◌≤◌, ◌<◌, ◌^◌, ℕ};
ghost use Rattle.line_rates.specs.declared.ask.Way.{Way};
ghost use Rattle.server_house.specs.Names.{name_word};

use line_rates::Way;
use std::sync::atomic::{AtomicU64, Ordering};

/// The user and direction of a transfer, written by one thread and read by another.
#[derive(Drop)]
pub struct TransferName {
    // twice the user's number, plus one for an upload
    word: AtomicU64,
}

// The user and direction in one word.
fn name_word(way: Way, user: u32) -> u64
    ensures word { result ≡ name_word way user }
{
    let up = match way {
        Way::Down => 0,
        Way::Up => 1,
    };
    u64::from(user) * 2 + up
}

// The direction and user of a word of `name_word`; of any other the user is 0.
fn named(word: u64) -> (Way, u32)
    ensures back { (way : Way) (user : ℕ) → user < 2 ^ 32 → word ≡ name_word way user
        → (result.0 ≡ way) × (result.1 ≡ user) }
    ensures other { 2 ^ 33 ≤ word → result.1 ≡ 0 }
{
    let way = if word % 2 == 0 { Way::Down } else { Way::Up };
    match u32::try_from(word / 2) {
        Ok(user) => (way, user),
        Err(_) => (way, 0),
    }
}

impl TransferName {
    /// A download of user 0.
    pub fn new() -> TransferName {
        TransferName {
            word: AtomicU64::new(0),
        }
    }

    /// Sets the user and direction of the transfer.
    pub fn set(&self, way: Way, user: u32) {
        self.word.store(name_word(way, user), Ordering::SeqCst);
    }

    /// Returns the direction and the user.
    pub fn get(&self) -> (Way, u32) {
        named(self.word.load(Ordering::SeqCst))
    }
}
