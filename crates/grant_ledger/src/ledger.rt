//! The book, and the values that must be spent. Only this module can access their fields, so each octet of a grant
//! comes from an entry of a book.

ghost use Rattle.std.specs.Prelude.{◌≡◌, ◌+◌, ◌-◌, ◌<◌, ◌≤◌, sum, length, slice_index_or, slice_set, IsSome, OnOk, OnErr, IfOk, MatchResult};
ghost use Rattle.limit_tree.specs.Outline.{limits};
ghost use Rattle.grant_certificate.specs.Sealing.{IsBestFor};
ghost use Rattle.grant_ledger.specs.Books.{nothing_undrawn, by_lane, AreLanes, capped};
ghost use Rattle.grant_ledger.specs.Faults.{refusal};

use super::fault::BookFault;
use grant_certificate::Sealed;
use std::alloc::Allocator;
use std::marker::{Model, PhantomData};

/// Most lanes in an entry. They are numbered from 0.
pub const MAX_LANES: usize = 64;

/// The most octets that one book issues: 2^62.
pub const MAX_ISSUED: u64 = 4_611_686_018_427_387_904;

/// The name of a book for which none was chosen.
#[derive(Clone, Copy)]
pub struct Plain;

/// The octets issued, the tick of the last entry, and for each lane the amount not yet drawn, with the tick of the
/// entry that it is from. A book must be settled. The type `N` is the name of the book, which its grants, purses and
/// tallies share.
pub struct Book<N = Plain> {
    name: PhantomData<N>,
    issued: u64,
    last_tick: Option<u64>,
    undrawn: [Option<u64>; MAX_LANES],
    entry_tick: Option<u64>,
}

impl<N> Model for Book<N> {
    ghost use Rattle.std.specs.Prelude.{◌≡◌, ◌≤◌, IfNone};
    ghost use Rattle.grant_ledger.specs.Books.{BookView, nothing_undrawn};
    ghost use Rattle.grant_ledger.specs.declared.ledger.TheConstants.{MAX_ISSUED};

    ghost Value = { BookView };

    ghost view = { λ b. record {
      issued = b.issued;
      last_tick = b.last_tick;
      undrawn = b.undrawn;
      entry_tick = b.entry_tick;
    } };

    ghost invariant = { λ b.
        (b.issued ≤ MAX_ISSUED) × IfNone b.entry_tick (b.undrawn ≡ nothing_undrawn) };
}

/// Permission to move octets on one lane, from the entry of one tick. It must be spent.
pub struct Grant<N = Plain> {
    name: PhantomData<N>,
    octets: u64,
    lane: u8,
    tick: u64,
}

impl<N> Model for Grant<N> {
    ghost use Rattle.grant_ledger.specs.Books.{GrantView};

    ghost Value = { GrantView };

    ghost view = { λ g. record { octets = g.octets; lane = g.lane; tick = g.tick } };
}

/// Octets of one entry that are in no grant yet. It must be closed.
pub struct Purse<N = Plain> {
    name: PhantomData<N>,
    left: u64,
    tick: u64,
}

impl<N> Model for Purse<N> {
    ghost use Rattle.grant_ledger.specs.Books.{PurseView};

    ghost Value = { PurseView };

    ghost view = { λ p. record { left = p.left; tick = p.tick } };
}

/// The outcome of spent grants, in octets: moved, and given back. It must be joined to another tally or settled.
pub struct Tally<N = Plain> {
    name: PhantomData<N>,
    moved: u64,
    back: u64,
}

impl<N> Model for Tally<N> {
    ghost use Rattle.grant_ledger.specs.Books.{TallyView};

    ghost Value = { TallyView };

    ghost view = { λ t. record { moved = t.moved; back = t.back } };
}

/// The settlement of a book and a tally with their name. Only [`settle`] makes one, and it cannot be dropped: it is handed
/// on, or read by [`Settled::numbers`].
pub struct Settled<N = Plain> {
    name: PhantomData<N>,
    numbers: SettledNumbers,
}

impl<N> Model for Settled<N> {
    ghost use Rattle.grant_ledger.specs.declared.ledger.SettledNumbers.{SettledNumbers};

    ghost Value = { SettledNumbers };

    ghost view = { λ s. s.numbers };
}

/// The final numbers of a book and a tally, in octets.
#[derive(Clone, Copy, Debug, PartialEq, Eq)]
pub struct SettledNumbers {
    pub issued: u64,
    pub moved: u64,
    pub back: u64,
}

/// A name under which books may be opened. What is generic in a name without this bound can open none: it settles the
/// books that it was given.
pub trait BookName {}

impl BookName for Plain {}

impl BookName for () {}

impl<N: BookName> Book<N> {
    /// A book that has issued `carried` octets, and its tally, in which all of them were moved.
    pub fn open(carried: u64) -> (Book<N>, Tally<N>)
        requires few { carried ≤ MAX_ISSUED }
        ensures book { result.0
            ≡ record {
              issued = carried;
              last_tick = None;
              undrawn = nothing_undrawn;
              entry_tick = None;
            } }
        ensures tally { result.1 ≡ record { moved = carried; back = 0 } }
    {
        let book = Book {
            name: PhantomData,
            issued: carried,
            last_tick: None,
            undrawn: [None; MAX_LANES],
            entry_tick: None,
        };
        let tally = Tally {
            name: PhantomData,
            moved: carried,
            back: 0,
        };
        (book, tally)
    }
}

impl<N> Book<N> {
    /// The octets issued so far.
    pub fn issued(&self) -> u64
        ensures issued { result ≡ self.now.issued }
        ensures most { result ≤ MAX_ISSUED }
    {
        self.issued
    }

    /// The tick of the last entry; `None` before the first.
    pub fn last_tick(&self) -> Option<u64>
        ensures last_tick { result ≡ self.now.last_tick }
    {
        self.last_tick
    }

    /// The amount of this lane in the last entry of `enter`, if it is not yet drawn.
    pub fn undrawn(&self, lane: u8) -> Option<u64>
        requires lane { lane < MAX_LANES }
        ensures undrawn { result ≡ slice_index_or self.now.undrawn lane None }
    {
        self.undrawn[lane as usize]
    }

    /// Issues the grants of a decision: grant i is to be drawn at lane i of `lanes`.
    ///
    /// Returns `NotYet` if the tick is not above that of the last entry, and otherwise `BookFull` if more than
    /// `MAX_ISSUED` octets would be issued. The book is unchanged then.
    pub fn enter<A: Allocator, B: Allocator>(
        &mut self,
        sealed: &Sealed<A, B>,
        lanes: &[u8],
        tick: u64,
    ) -> Result<(), BookFault>
        requires one_each { length lanes.now ≡ length sealed.now.grants }
        requires lanes { AreLanes lanes.now }
        requires drawn { self.old.undrawn ≡ nothing_undrawn }
        ensures issued { OnOk result (self.new.issued ≡ self.old.issued + sum sealed.now.grants) }
        ensures last_tick { OnOk result (self.new.last_tick ≡ Some tick) }
        ensures undrawn { OnOk result (self.new.undrawn ≡ by_lane lanes.now sealed.now.grants) }
        ensures entry_tick { OnOk result (self.new.entry_tick ≡ Some tick) }
        ensures best { IsBestFor sealed.now.owners (limits sealed.now.tree) sealed.now.grants }
        ensures refusal { MatchResult result
            (λ _. refusal self.old (sum sealed.now.grants) tick ≡ None)
            (λ e. refusal self.old (sum sealed.now.grants) tick ≡ Some e) }
        ensures unchanged { OnErr result (self.new ≡ self.old) }
    {
        self.admit(sealed.total(), tick)?;
        self.undrawn = amounts_by_lane(sealed.grants(), lanes);
        self.entry_tick = Some(tick);
        Ok(())
    }

    /// Issues the grants of a decision into a purse, with the refusals of `enter`. Amounts of an earlier entry that are
    /// not yet drawn remain, with the tick of that entry.
    pub fn enter_out<A: Allocator, B: Allocator>(
        &mut self,
        sealed: &Sealed<A, B>,
        tick: u64,
    ) -> Result<Purse<N>, BookFault>
        ensures purse { IfOk result
            (λ p. p ≡ record { left = sum sealed.now.grants; tick = tick }) }
        ensures issued { OnOk result (self.new.issued ≡ self.old.issued + sum sealed.now.grants) }
        ensures last_tick { OnOk result (self.new.last_tick ≡ Some tick) }
        ensures undrawn { self.new.undrawn ≡ self.old.undrawn }
        ensures entry_tick { self.new.entry_tick ≡ self.old.entry_tick }
        ensures best { IsBestFor sealed.now.owners (limits sealed.now.tree) sealed.now.grants }
        ensures refusal { MatchResult result
            (λ _. refusal self.old (sum sealed.now.grants) tick ≡ None)
            (λ e. refusal self.old (sum sealed.now.grants) tick ≡ Some e) }
        ensures unchanged { OnErr result (self.new ≡ self.old) }
    {
        let total = sealed.total();
        self.admit(total, tick)?;
        Ok(Purse {
            name: PhantomData,
            left: total,
            tick,
        })
    }

    // Issues this many octets, if the book accepts them.
    fn admit(&mut self, total: u64, tick: u64) -> Result<(), BookFault>
        ensures issued { OnOk result (self.new.issued ≡ self.old.issued + total) }
        ensures last_tick { OnOk result (self.new.last_tick ≡ Some tick) }
        ensures undrawn { self.new.undrawn ≡ self.old.undrawn }
        ensures entry_tick { self.new.entry_tick ≡ self.old.entry_tick }
        ensures refusal { MatchResult result (λ _. refusal self.old total tick ≡ None)
            (λ e. refusal self.old total tick ≡ Some e) }
        ensures unchanged { OnErr result (self.new ≡ self.old) }
    {
        if let Some(last) = self.last_tick {
            if tick <= last {
                return Err(BookFault::NotYet(last));
            }
        }
        if total > MAX_ISSUED - self.issued {
            return Err(BookFault::BookFull);
        }
        self.issued += total;
        self.last_tick = Some(tick);
        Ok(())
    }

    /// Hands out the amount of a lane in the last entry of `enter`, which must not be drawn yet (`undrawn` returns it).
    /// The grant has the tick of that entry.
    pub fn draw(&mut self, lane: u8) -> Grant<N>
        requires lane { lane < MAX_LANES }
        requires undrawn { IsSome (slice_index_or self.old.undrawn lane None) }
        ensures amount { slice_index_or self.old.undrawn lane None ≡ Some result.octets }
        ensures lane { result.lane ≡ lane }
        ensures tick { self.old.entry_tick ≡ Some result.tick }
        ensures issued { self.new.issued ≡ self.old.issued }
        ensures last_tick { self.new.last_tick ≡ self.old.last_tick }
        ensures undrawn { self.new.undrawn ≡ slice_set self.old.undrawn lane None }
        ensures entry_tick { self.new.entry_tick ≡ self.old.entry_tick }
    {
        let octets = self.undrawn[lane as usize].unwrap();
        self.undrawn[lane as usize] = None;
        Grant {
            name: PhantomData,
            octets,
            lane,
            tick: self.entry_tick.unwrap(),
        }
    }
}

// The amounts, each at its lane.
fn amounts_by_lane(amounts: &[u64], lanes: &[u8]) -> [Option<u64>; MAX_LANES]
    requires one_each { length lanes.now ≡ length amounts.now }
    requires lanes { AreLanes lanes.now }
    ensures amounts { result ≡ by_lane lanes.now amounts.now }
{
    let mut undrawn = [None; MAX_LANES];
    for i in (0..lanes.len()).rev() {
        undrawn[lanes[i] as usize] = Some(amounts[i]);
    }
    undrawn
}

impl<N> Grant<N> {
    /// A grant of no octets, which needs no book.
    pub fn none(lane: u8, tick: u64) -> Grant<N>
        ensures grant { result ≡ record { octets = 0; lane = lane; tick = tick } }
    {
        Grant {
            name: PhantomData,
            octets: 0,
            lane,
            tick,
        }
    }

    /// Number of octets that may be moved.
    pub fn octets(&self) -> u64
        ensures octets { result ≡ self.now.octets }
    {
        self.octets
    }

    /// The lane on which they may be moved.
    pub fn lane(&self) -> u8
        ensures lane { result ≡ self.now.lane }
    {
        self.lane
    }

    /// The tick of the entry that they are from.
    pub fn tick(&self) -> u64
        ensures tick { result ≡ self.now.tick }
    {
        self.tick
    }

    /// Splits off a grant of `n` of the octets.
    pub fn cut(&mut self, n: u64) -> Grant<N>
        requires enough { n ≤ self.old.octets }
        ensures cut { result ≡ record { octets = n; lane = self.old.lane; tick = self.old.tick } }
        ensures left { self.new ≡ record self.old { octets = self.old.octets - n } }
    {
        self.octets -= n;
        Grant {
            name: PhantomData,
            octets: n,
            lane: self.lane,
            tick: self.tick,
        }
    }

    /// Spends the grant: `moved` octets were moved, and the rest is given back. The tally's sums saturate at the
    /// greatest u64.
    pub fn spend(self, moved: u64, tally: &mut Tally<N>)
        requires within { moved ≤ self.octets }
        ensures moved { tally.new.moved ≡ capped tally.old.moved moved }
        ensures back { tally.new.back ≡ capped tally.old.back (self.octets - moved) }
    {
        let Grant {
            name: _,
            octets,
            lane: _,
            tick: _,
        } = self;
        tally.moved = tally.moved.saturating_add(moved);
        tally.back = tally.back.saturating_add(octets - moved);
    }
}

impl<N> Purse<N> {
    /// Takes a grant of `n` of the octets out, for a lane.
    pub fn split(&mut self, lane: u8, n: u64) -> Grant<N>
        requires enough { n ≤ self.old.left }
        ensures grant { result ≡ record { octets = n; lane = lane; tick = self.old.tick } }
        ensures left { self.new ≡ record self.old { left = self.old.left - n } }
    {
        self.left -= n;
        Grant {
            name: PhantomData,
            octets: n,
            lane,
            tick: self.tick,
        }
    }

    /// Number of octets left.
    pub fn left(&self) -> u64
        ensures left { result ≡ self.now.left }
    {
        self.left
    }

    /// Closes an empty purse.
    pub fn close(self)
        requires empty { self.left ≡ 0 }
    {
        let Purse {
            name: _,
            left: _,
            tick: _,
        } = self;
    }
}

impl<N> Tally<N> {
    /// An empty tally, for a worker of its own. It is to be joined again.
    pub fn split(&mut self) -> Tally<N>
        ensures empty { result ≡ record { moved = 0; back = 0 } }
        ensures unchanged { self.new ≡ self.old }
    {
        Tally {
            name: PhantomData,
            moved: 0,
            back: 0,
        }
    }

    /// Adds the counts of the other tally. Each sum saturates at the greatest u64.
    pub fn join(&mut self, other: Tally<N>)
        ensures moved { self.new.moved ≡ capped self.old.moved other.moved }
        ensures back { self.new.back ≡ capped self.old.back other.back }
    {
        let Tally {
            name: _,
            moved,
            back,
        } = other;
        self.moved = self.moved.saturating_add(moved);
        self.back = self.back.saturating_add(back);
    }

    /// The octets moved.
    pub fn moved(&self) -> u64
        ensures moved { result ≡ self.now.moved }
    {
        self.moved
    }

    /// The octets given back.
    pub fn back(&self) -> u64
        ensures back { result ≡ self.now.back }
    {
        self.back
    }
}

impl<N> Settled<N> {
    /// Reads the numbers.
    pub fn numbers(self) -> SettledNumbers
        ensures numbers { result ≡ self }
    {
        let Settled { name: _, numbers } = self;
        numbers
    }
}

/// Consumes a book and a tally, and returns their settlement.
pub fn settle<N>(book: Book<N>, tally: Tally<N>) -> Settled<N>
    ensures issued { result.issued ≡ book.issued }
    ensures moved { result.moved ≡ tally.moved }
    ensures back { result.back ≡ tally.back }
{
    let Book {
        name: _,
        issued,
        last_tick: _,
        undrawn: _,
        entry_tick: _,
    } = book;
    let Tally {
        name: _,
        moved,
        back,
    } = tally;
    Settled {
        name: PhantomData,
        numbers: SettledNumbers {
            issued,
            moved,
            back,
        },
    }
}
