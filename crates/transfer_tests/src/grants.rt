//! The outcome of grants, purses and tallies. The functions with the names of crates are the examples in their heads.

use super::expect::{holds, settles};
use grant_ledger::{Book, Grant, MAX_ISSUED, Purse, Tally, settle};
use std::process::Abort;
use test_transfer_ends::{Funds, FundsFault, sealed};

#[test]
fn grant_ledger(rt: HostRuntime) -> Result<(), FundsFault> {
    let sealed = sealed(rt.alloc(), &[100])?;
    let (mut book, mut tally): (Book, Tally) = Book::open(0);
    match book.enter_out(&sealed, 7) {
        Ok(mut purse) => {
            let grant = purse.split(3, purse.left()); // its octets at tick 7, all for lane 3
            purse.close(); // since nothing is left
            let mut own = tally.split(); // a worker's own tally
            let moved = grant.octets().min(60);
            grant.spend(moved, &mut own); // the others are given back
            tally.join(own);
        }
        Err(_) => panic!(rt; "a later tick than the last is taken"),
    }
    let settled = settle(book, tally).numbers();
    assert!(rt; settled.issued == 100 && settled.moved == 60 && settled.back == 40);
    Ok(())
}

#[test]
fn test_transfer_ends(rt: HostRuntime) -> Result<(), FundsFault> {
    // one round that granted one transfer 100 octets
    let mut funds = Funds::new(rt.alloc(), &[100])?;
    let grant = funds.grant(60); // at most what is left
    grant.spend(0, &mut funds.tally);
    assert!(rt; funds.settle().back == 100);
    Ok(())
}

fn is_grant(grant: &Grant, octets: u64, lane: u8, tick: u64) -> bool {
    grant.octets() == octets && grant.lane() == lane && grant.tick() == tick
}

// A purse of 10 octets, of which 6 go to lane 2 and 4 to lane 9; 5 of the 6 are split off again.
fn ten_octets(rt: &impl Abort, mut purse: Purse, tally: &mut Tally) {
    let left = purse.left();
    let mut first = purse.split(2, left.min(6));
    let second = purse.split(9, purse.left());
    purse.close();
    holds(rt, is_grant(&second, 4, 9, 3));
    let third = first.cut(first.octets().min(5));
    holds(rt, is_grant(&first, 1, 2, 3) && is_grant(&third, 5, 2, 3));
    let mut own = tally.split();
    let (one, three) = (first.octets().min(1), second.octets().min(3));
    first.spend(one, &mut own);
    third.spend(0, &mut own);
    holds(rt, own.moved() == 1 && own.back() == 5);
    tally.join(own);
    second.spend(three, tally);
}

#[test]
fn a_purse_is_split_and_a_grant_cut(rt: HostRuntime) {
    let decided = sealed(rt.alloc(), &[6, 4]).expect(&rt, "a decision");
    let (mut book, mut tally) = Book::open(5);
    match book.enter_out(&decided, 3) {
        Ok(purse) => ten_octets(&rt, purse, &mut tally),
        Err(_) => panic!(rt; "the first entry was refused"),
    }
    settles(&rt, book, tally, 15, 9, 6);
}

#[test]
fn a_grant_of_nothing_is_spent_too(rt: HostRuntime) {
    let (book, mut tally) = Book::open(0);
    let grant = Grant::none(63, u64::MAX);
    holds(&rt, is_grant(&grant, 0, 63, u64::MAX));
    grant.spend(0, &mut tally);
    settles(&rt, book, tally, 0, 0, 0);
}

// Four books of the most that one book issues: their sum is 2^64.
#[test]
fn sums_stop_at_the_greatest_number(rt: HostRuntime) {
    let (book, mut tally) = Book::open(MAX_ISSUED);
    for _ in 0..3u8 {
        let (other, more) = Book::open(MAX_ISSUED);
        tally.join(more);
        let empty = tally.split();
        settles(&rt, other, empty, MAX_ISSUED, 0, 0);
    }
    settles(&rt, book, tally, MAX_ISSUED, u64::MAX, 0);
}
