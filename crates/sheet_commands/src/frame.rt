//! The places of columns in a picture, and its measures.

ghost use Rattle.std.specs.Prelude.{◌≡◌, ◌+◌, ◌≤◌, ◌<◌, ◌^◌, IfOk};
ghost use Rattle.sheet_commands.specs.Frames.{frame_of, largest, level, level_after, longest, lower, number_after, placed, placed_at};
ghost use Rattle.sheet_commands.specs.Columns.{is_first};

use crate::column::{Column, Holder, rank_of};
use std::alloc::{AllocError, Allocator};

/// A column at its place, from left to right.
#[derive(Clone, Copy)]
pub(crate) struct Placed<'a> {
    pub column: Column<'a>,
    /// Number of the limit that holds it back among the columns of its user, from 1; the next number if none does.
    pub number: u64,
    /// Its left edge.
    pub x: u128,
    /// It is the first column of its number.
    pub first: bool,
}

fn is_first(last: Option<u128>, rank: u128) -> bool
    ensures first { result ≡ is_first last rank }
{
    match last {
        Some(other) => other != rank,
        None => true,
    }
}

fn number_after(number: u64, first: bool) -> u64
    requires fits { number < 2 ^ 63 }
    ensures number { result ≡ number_after number first }
    ensures most { result ≤ number + 1 }
{
    if first { number + 1 } else { number }
}

fn placed_at<'a>(column: &Column<'a>, index: usize, number: u64, first: bool) -> Placed<'a>
    ensures placed { result ≡ placed_at column.now index number first }
{
    Placed {
        column: *column,
        number,
        x: 88 + 24 * index as u128 + 12 * number as u128,
        first,
    }
}

/// Places columns, which are sorted by rank.
pub(crate) fn placed_of<'a, A: Allocator>(
    alloc: A,
    sorted: &[Column<'a>],
) -> Result<Vec<Placed<'a>, A>, AllocError>
    ensures placed { IfOk result (λ v. v.items ≡ placed sorted.now) }
{
    let mut placed = Vec::with_capacity(alloc, sorted.len())?;
    let mut last = None;
    let mut number = 0;
    for column in sorted {
        let rank = rank_of(column);
        let first = is_first(last, rank);
        number = number_after(number, first);
        let next = placed_at(column, placed.len(), number, first);
        placed.push(next)?;
        last = Some(rank);
    }
    Ok(placed)
}

/// The lowest level of a limit that holds back two wants or more.
#[derive(Clone, Copy)]
pub(crate) struct Level<'a> {
    pub octets: u64,
    /// The path of the limit.
    pub path: &'a str,
}

fn lower<'a>(level: Option<Level<'a>>, octets: u64, holder: Holder<'a>) -> Option<Level<'a>>
    ensures lower { result ≡ lower level.entry octets holder.entry }
{
    let path = holder.path;
    match level {
        Some(least) => {
            if octets < least.octets {
                Some(Level { octets, path })
            } else {
                Some(least)
            }
        }
        None => Some(Level { octets, path }),
    }
}

/// The lowest level among columns, after one more; `before` is the grant of the column before it.
fn level_after<'a>(level: Option<Level<'a>>, before: u64, placed: &Placed<'a>) -> Option<Level<'a>>
    ensures level { result ≡ level_after level.entry before placed.now }
{
    match placed.column.holder {
        Some(holder) => {
            if placed.first {
                level
            } else {
                lower(level, before.min(placed.column.grant), holder)
            }
        }
        None => level,
    }
}

pub(crate) fn level_of<'a>(placed: &[Placed<'a>]) -> Option<Level<'a>>
    ensures level { result ≡ level placed.now }
{
    let mut level = None;
    let mut before = 0;
    for place in placed {
        level = level_after(level, before, place);
        before = place.column.grant;
    }
    level
}

/// The measures of a picture.
#[derive(Clone, Copy)]
pub(crate) struct Frame {
    /// The largest grant, at least 1.
    pub largest: u64,
    /// The length of the longest path of a want.
    pub longest: usize,
    /// Number of columns.
    pub columns: usize,
    /// Number of colours: limits that hold back wants of one user, and one more for each user with a want that none holds
    /// back.
    pub numbers: usize,
}

fn largest_of(placed: &[Placed<'_>]) -> u64
    ensures largest { result ≡ largest placed.now }
    ensures some { 1 ≤ result }
{
    let mut most = 1u64;
    for place in placed {
        most = most.max(place.column.grant);
    }
    most
}

fn longest_of(placed: &[Placed<'_>]) -> usize
    ensures longest { result ≡ longest placed.now }
{
    let mut most = 0usize;
    for place in placed {
        most = most.max(place.column.path.len());
    }
    most
}

pub(crate) fn frame_of(placed: &[Placed<'_>]) -> Frame
    ensures frame { result ≡ frame_of placed.now }
    ensures some { 1 ≤ result.largest }
{
    Frame {
        largest: largest_of(placed),
        longest: longest_of(placed),
        columns: placed.len(),
        numbers: placed.iter().filter(|place| place.first).count(),
    }
}
