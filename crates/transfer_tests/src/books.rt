//! Entries of books, and drawing from them.

ghost use Rattle.std.specs.Prelude.{◌<◌};

use super::expect::{holds, settles};
use grant_certificate::Sealed;
use grant_ledger::{Book, BookFault, Grant, MAX_ISSUED, Tally};
use std::process::Abort;
use test_transfer_ends::sealed;

fn spend(grant: Grant, moved: u64, tally: &mut Tally) {
    let most = grant.octets();
    grant.spend(moved.min(most), tally);
}

// Enters the decision at the tick, and moves all its octets.
fn entered(book: &mut Book, sealed: &Sealed, tick: u64, tally: &mut Tally) -> Option<BookFault> {
    match book.enter_out(sealed, tick) {
        Ok(purse) => {
            let mut purse = purse;
            let grant = purse.split(0, purse.left());
            purse.close();
            spend(grant, u64::MAX, tally);
            None
        }
        Err(fault) => Some(fault),
    }
}

/// Decided amounts, the octets issued before, the book's answer to them at one tick after another, the octets issued
/// then, and the tick of its last entry.
type Row = (
    &'static [u64],
    u64,
    &'static [(u64, Option<BookFault>)],
    u64,
    Option<u64>,
);

const FULL: Option<BookFault> = Some(BookFault::BookFull);

const NOT_YET: Option<BookFault> = Some(BookFault::NotYet(5));

static ENTRIES: [Row; 4] = [
    // A full book refuses an octet, but accepts an entry of 0 octets.
    (&[1], MAX_ISSUED, &[(5, FULL)], MAX_ISSUED, None),
    (
        &[0],
        MAX_ISSUED,
        &[(5, None), (5, NOT_YET)],
        MAX_ISSUED,
        Some(5),
    ),
    // Two of its last three octets are issued, and then two more are refused.
    (
        &[1, 1],
        MAX_ISSUED - 3,
        &[(0, None), (1, FULL)],
        MAX_ISSUED - 1,
        Some(0),
    ),
    // It accepts one entry per tick.
    (
        &[3],
        0,
        &[(5, None), (5, NOT_YET), (4, NOT_YET), (6, None)],
        6,
        Some(6),
    ),
];

fn expect_entries(rt: &impl Abort, decided: &Sealed, row: &Row) {
    let (_amounts, carried, answers, issued, last_tick) = row;
    let (mut book, mut tally) = Book::open((*carried).min(MAX_ISSUED));
    for (tick, answer) in answers.iter() {
        holds(
            rt,
            entered(&mut book, decided, *tick, &mut tally) == *answer,
        );
    }
    holds(
        rt,
        book.issued() == *issued && book.last_tick() == *last_tick,
    );
    settles(rt, book, tally, *issued, *issued, 0);
}

#[test]
fn a_book_takes_entries(rt: HostRuntime) {
    for row in &ENTRIES {
        let decided = sealed(rt.alloc(), row.0).expect(&rt, "a decision");
        expect_entries(&rt, &decided, row);
    }
}

// Draws the lane's amount, if there is one, and moves `moved` octets of it.
fn draw(book: &mut Book, lane: u8, moved: u64, tally: &mut Tally) -> Option<u64>
    requires lane { lane < 64 }
{
    let amount = book.undrawn(lane)?;
    let grant = book.draw(lane);
    let drawn = grant.lane() == lane && grant.tick() == 7 && grant.octets() == amount;
    spend(grant, moved, tally);
    drawn.then_some(amount)
}

/// A lane, the number of octets of its amount that are moved, and the amount.
static DRAWS: [(u8, u64, Option<u64>); 5] = [
    (63, 1, Some(3)),
    (63, 1, None),
    (1, 1, None),
    (0, 2, Some(2)),
    (7, 0, Some(4)),
];

fn expect_draws(rt: &impl Abort, decided: &Sealed) {
    holds(rt, decided.grants().len() == 3);
    let (mut book, mut tally) = Book::open(0);
    holds(rt, book.enter(decided, &[7, 63, 0], 7).is_ok());
    for (lane, moved, amount) in &DRAWS {
        holds(
            rt,
            *lane < 64 && draw(&mut book, *lane, *moved, &mut tally) == *amount,
        );
    }
    settles(rt, book, tally, 9, 3, 6);
}

fn expect_full(rt: &impl Abort, decided: &Sealed) {
    holds(rt, decided.grants().len() == 3);
    let (mut book, tally) = Book::open(MAX_ISSUED);
    let refused = book.enter(decided, &[7, 63, 0], 5);
    holds(rt, refused == Err(BookFault::BookFull));
    settles(rt, book, tally, MAX_ISSUED, MAX_ISSUED, 0);
}

#[test]
fn each_lane_draws_its_amount_once(rt: HostRuntime) {
    let decided = sealed(rt.alloc(), &[4, 3, 2]).expect(&rt, "a decision");
    expect_draws(&rt, &decided);
    expect_full(&rt, &decided);
}
