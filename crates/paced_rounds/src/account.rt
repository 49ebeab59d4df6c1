//! The account of the rounds of a book, and its settlement.

ghost use Rattle.std.specs.Prelude.{◌≡◌, ◌+◌, ◌≤◌, [], sum_by};
ghost use Rattle.line_rates.specs.declared.ask.Name.TheVariants.{Server};
ghost use Rattle.round_pace.specs.Stretches.{StretchesKeep};
ghost use Rattle.paced_rounds.specs.History.{ended_in, octets_in};
ghost use Rattle.paced_rounds.specs.Spans.{AllBetween, IsWithinRates, granted_to};

use crate::laws::spans_are_kept;
use grant_ledger::{Settled, SettledNumbers};
use line_rates::Ask;
use proof_log::ProofLog;
use round_pace::Pace;
use std::alloc::{Allocator, Global};
use std::marker::PhantomData;

/// The account of all rounds of the book with a name: the octets issued, those before the first round, the moments of the
/// opening and of the last round, and a history that only proofs read. Only `PacedRounds::into_rounds` makes one, and it
/// cannot be dropped: it is settled with its book.
pub struct RoundsAccount<N, A: Allocator = Global> {
    name: PhantomData<N>,
    issued: u64,
    carried: u64,
    opened: u64,
    latest: u64,
    rounds: ProofLog<Pace<A>, ProofLog<u64, ProofLog<Ask, u64>>>,
    ghost spanned: { ∥ StretchesKeep (ended_in rounds.items)
        × AllBetween opened latest (ended_in rounds.items) ∥₁ },
    ghost granted: { issued ≡ carried + sum_by octets_in (ended_in rounds.items) },
}

impl<N, A: Allocator> RoundsAccount<N, A> {
    // The account of these rounds.
    pub(crate) fn of(
        issued: u64,
        carried: u64,
        opened: u64,
        latest: u64,
        rounds: ProofLog<Pace<A>, ProofLog<u64, ProofLog<Ask, u64>>>,
    ) -> RoundsAccount<N, A>
        requires spanned { ∥ StretchesKeep (ended_in rounds.items)
            × AllBetween opened latest (ended_in rounds.items) ∥₁ }
        requires granted { issued ≡ carried + sum_by octets_in (ended_in rounds.items) }
        ensures numbers { (result.issued ≡ issued) × (result.carried ≡ carried) }
        ensures moments { (result.opened ≡ opened) × (result.latest ≡ latest) }
        ensures rounds { result.rounds ≡ rounds }
    {
        RoundsAccount {
            name: PhantomData,
            issued,
            carried,
            opened,
            latest,
            rounds,
        }
    }

    /// Joins the account with the numbers of its book, which has issued as much.
    pub fn settle(self, settled: Settled<N>) -> Settlement<N, A>
        requires book { settled.issued ≡ self.issued }
        requires sum { self.issued ≡ settled.moved + settled.back }
        ensures account { (result.issued ≡ self.issued) × (result.carried ≡ self.carried) }
        ensures moments { (result.opened ≡ self.opened) × (result.latest ≡ self.latest) }
        ensures rounds { result.rounds ≡ self.rounds }
        ensures settled { (result.moved ≡ settled.moved) × (result.back ≡ settled.back) }
    {
        let numbers = settled.numbers();
        let RoundsAccount {
            name: _,
            issued,
            carried,
            opened,
            latest,
            rounds,
        } = self;
        Settlement {
            name: PhantomData,
            issued,
            moved: numbers.moved,
            back: numbers.back,
            carried,
            opened,
            latest,
            rounds,
        }
    }
}

/// The settlement of the book with a name and of its rounds: what [`RoundsAccount`] has, and the octets moved and given
/// back. Only [`RoundsAccount::settle`] and [`Settlement::unheld`] make one, of a book that was settled, and it cannot be
/// dropped: it is handed on, or read by [`Settlement::read`].
pub struct Settlement<N, A: Allocator = Global> {
    name: PhantomData<N>,
    issued: u64,
    moved: u64,
    back: u64,
    carried: u64,
    opened: u64,
    latest: u64,
    rounds: ProofLog<Pace<A>, ProofLog<u64, ProofLog<Ask, u64>>>,
    ghost sum: { issued ≡ moved + back },
    ghost spanned: { ∥ StretchesKeep (ended_in rounds.items)
        × AllBetween opened latest (ended_in rounds.items) ∥₁ },
    ghost granted: { issued ≡ carried + sum_by octets_in (ended_in rounds.items) },
}

/// A settlement that was read: its numbers, and the history of its rounds, which only proofs read. Only
/// [`Settlement::read`] makes one.
#[derive(Drop)]
pub struct SettledRounds<A: Allocator = Global> {
    /// The octets issued, with those carried.
    pub issued: u64,
    /// The octets moved.
    pub moved: u64,
    /// The octets given back.
    pub back: u64,
    /// The octets issued before the first round.
    pub carried: u64,
    /// The moment at which the rounds were opened, in microseconds.
    pub opened: u64,
    /// The moment of the last round, in microseconds; that of the opening if there was none.
    pub latest: u64,
    rounds: ProofLog<Pace<A>, ProofLog<u64, ProofLog<Ask, u64>>>,
}

impl<N, A: Allocator> Settlement<N, A> {
    /// The settlement of a book under which no round was held, at a moment in microseconds.
    pub fn unheld(settled: Settled<N>, moment: u64) -> Settlement<N, A>
        requires sum { settled.issued ≡ settled.moved + settled.back }
        ensures book { (result.issued ≡ settled.issued) × (result.carried ≡ settled.issued) }
        ensures settled { (result.moved ≡ settled.moved) × (result.back ≡ settled.back) }
        ensures moments { (result.opened ≡ moment) × (result.latest ≡ moment) }
        ensures none { ended_in result.rounds.items ≡ [] }
    {
        let SettledNumbers {
            issued,
            moved,
            back,
        } = settled.numbers();
        Settlement {
            name: PhantomData,
            issued,
            moved,
            back,
            carried: issued,
            opened: moment,
            latest: moment,
            rounds: ProofLog::new(),
        }
    }

    /// The octets issued, with those carried.
    pub fn issued(&self) -> u64
        ensures issued { result ≡ self.now.issued }
        ensures sum { result ≡ self.now.moved + self.now.back }
    {
        self.issued
    }

    /// The octets moved.
    pub fn moved(&self) -> u64
        ensures moved { result ≡ self.now.moved }
    {
        self.moved
    }

    /// The octets given back.
    pub fn back(&self) -> u64
        ensures back { result ≡ self.now.back }
    {
        self.back
    }

    /// The octets issued before the first round.
    pub fn carried(&self) -> u64
        ensures carried { result ≡ self.now.carried }
    {
        self.carried
    }

    /// The moment at which the rounds were opened, in microseconds.
    pub fn opened(&self) -> u64
        ensures opened { result ≡ self.now.opened }
    {
        self.opened
    }

    /// The moment of the last round, in microseconds; that of the opening if there was none.
    pub fn latest(&self) -> u64
        ensures latest { result ≡ self.now.latest }
    {
        self.latest
    }

    /// Reads the settlement, at the end.
    pub fn read(self) -> SettledRounds<A>
        ensures issued { (result.issued ≡ self.issued) × (result.carried ≡ self.carried) }
        ensures settled { (result.moved ≡ self.moved) × (result.back ≡ self.back) }
        ensures sum { result.issued ≡ result.moved + result.back }
        ensures moments { (result.opened ≡ self.opened) × (result.latest ≡ self.latest) }
        ensures rounds { result.rounds ≡ self.rounds }
        ensures every_second { StretchesKeep (ended_in result.rounds.items) }
        ensures kept { IsWithinRates (ended_in result.rounds.items) result.opened result.latest }
        ensures server { result.issued
            ≡ result.carried + granted_to Server (ended_in result.rounds.items) }
    {
        self.rates_are_kept();
        let Settlement {
            name: _,
            issued,
            moved,
            back,
            carried,
            opened,
            latest,
            rounds,
        } = self;
        SettledRounds {
            issued,
            moved,
            back,
            carried,
            opened,
            latest,
            rounds,
        }
    }

    /// Reads the numbers alone, at the end.
    pub fn numbers(self) -> SettledNumbers
        ensures issued { result.issued ≡ self.issued }
        ensures moved { result.moved ≡ self.moved }
        ensures back { result.back ≡ self.back }
        ensures sum { result.issued ≡ result.moved + result.back }
    {
        let read = self.read();
        SettledNumbers {
            issued: read.issued,
            moved: read.moved,
            back: read.back,
        }
    }

    /// A law of the type: the rounds granted what was issued beyond the octets carried, in each second under each name at most
    /// its rate, and in all at most what its rates allow from the second of the opening to that of the last round.
    pub fn rates_are_kept(&self)
        ensures every_second { StretchesKeep (ended_in self.now.rounds.items) }
        ensures kept { IsWithinRates (ended_in self.now.rounds.items)
            self.now.opened self.now.latest }
        ensures issued { self.now.issued ≡ self.now.carried
            + sum_by octets_in (ended_in self.now.rounds.items) }
        ensures server { self.now.issued ≡ self.now.carried
            + granted_to Server (ended_in self.now.rounds.items) }
    {
        spans_are_kept();
    }
}
