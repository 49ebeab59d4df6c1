//! A look at what rounds have granted.

ghost use Rattle.std.specs.Prelude.{◌≡◌, ◌+◌};
ghost use Rattle.round_tally.specs.Counts.{tallied};

use round_tally::Tallies;

/// The octets that rounds have granted to the transfers that run, and to those that have ended: together all that were
/// issued, but for those issued before the server began.
#[derive(Drop)]
pub struct RoundLook {
    pub tallies: Tallies,
    /// The octets issued so far.
    pub issued: u64,
    /// The octets issued before.
    pub before: u64,
    ghost counted: { issued ≡ tallied tallies + before },
}
