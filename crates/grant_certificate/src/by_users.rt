//! Grants that are backed among users.

ghost use Rattle.limit_tree.specs.declared.bounds.TheConstants.{MAX_LEAVES};
ghost use Rattle.std.specs.Prelude.{◌≡◌, ◌+◌, ◌<◌, ◌≤◌, ◌^◌, ◌⊎◌, ◌↔◌, ℕ, IsTrue, MatchBool, length, slice_index, sum};
ghost use Rattle.limit_tree.specs.Sharing.{IsUnmet, IsWithin};
ghost use Rattle.limit_tree.specs.Outline.{leaf_range, limits};
ghost use Rattle.grant_certificate.specs.Ranges.{IsGreater, IsNear, IsNoneGreater};
ghost use Rattle.grant_certificate.specs.UserRanges.{AreUserTotals, IsInnerRange, IsOuterRange, tells_within};
ghost use Rattle.grant_certificate.specs.Users.{total_of, HasUsers, HasUserNeck, IsBackedByUsers, IsBestByUsers};

use super::certificate::Certificate;
use super::checker::{FEW_LEAVES, check};
use super::flaw::{Flaw, Verdict};
use super::range::first_greater;
use super::user_look::look_at_necks;
use limit_tree::{MAX_LEAVES, Place, Tree};
use std::alloc::Allocator;

/// Sum of the grants of a user's leaves, in octets. `owners` has the number of the user of each leaf. O(leaves) time.
fn user_total(owners: &[u32], grants: &[u64], user: u32) -> u64
    requires owners { length owners.now ≡ length grants.now }
    requires fits { sum grants.now < 2 ^ 64 }
    ensures total { result ≡ total_of owners.now grants.now user }
{
    let mut total = 0;
    for leaf in 0..owners.len() {
        if owners[leaf] == user {
            total += grants[leaf];
        }
    }
    total
}

/// Writes for each leaf the total of its user, in octets, to the start of a table. O(leaves²) time.
fn totals_into(owners: &[u32], grants: &[u64], totals: &mut [u64])
    requires owners { length owners.now ≡ length grants.now }
    requires fits { sum grants.now < 2 ^ 64 }
    requires room { length owners.now ≤ length totals.old }
    ensures size { length totals.new ≡ length totals.old }
    ensures totals { AreUserTotals owners.now grants.now totals.new }
{
    for leaf in 0..owners.len() {
        let total = user_total(owners, grants, owners[leaf]);
        totals[leaf] = total;
    }
}

/// Returns whether all leaves of a range are of the user.
fn are_of(owners: &[u32], first: usize, leaves: usize, user: u32) -> bool
    requires inside { first + leaves ≤ length owners.now }
    ensures all { MatchBool result
        ((j : ℕ) → first ≤ j → j < first + leaves → slice_index owners.now j ≡ user)
        ((j : ℕ) × (first ≤ j) × (j < first + leaves) × (slice_index owners.now j ≡ user → ⊥)) }
{
    for leaf in first..first + leaves {
        if owners[leaf] != user {
            return false;
        }
    }
    true
}

/// Returns whether all leaves of the user are in a range.
fn are_in(owners: &[u32], first: usize, leaves: usize, user: u32) -> bool
    requires inside { first + leaves ≤ length owners.now }
    ensures all { MatchBool result
        ((j : ℕ) → j < length owners.now → slice_index owners.now j ≡ user
        → (first ≤ j) × (j < first + leaves))
        ((j : ℕ) × (j < length owners.now) × (slice_index owners.now j ≡ user)
        × ((j < first) ⊎ (first + leaves ≤ j))) }
{
    for leaf in 0..owners.len() {
        if owners[leaf] == user && (leaf < first || leaf >= first + leaves) {
            return false;
        }
    }
    true
}

/// Returns whether no grant of the user's leaves exceeds `grant` by two or more, unless it is its leaf's floor.
fn are_near(owners: &[u32], grants: &[u64], floors: &[u64], user: u32, grant: u64) -> bool
    requires owners { length owners.now ≡ length grants.now }
    requires floors { length floors.now ≡ length grants.now }
    ensures all { MatchBool result
        ((j : ℕ) → j < length owners.now → slice_index owners.now j ≡ user
        → IsNear grants.now floors.now grant j)
        ((j : ℕ) × (j < length owners.now) × (slice_index owners.now j ≡ user)
        × IsGreater grants.now floors.now grant j) }
{
    for leaf in 0..owners.len() {
        let other = grants[leaf];
        if owners[leaf] == user && other >= 2 && other - 2 >= grant && other != floors[leaf] {
            return false;
        }
    }
    true
}

/// Returns whether no number of a range exceeds `number` by two or more, unless it is that of `floors`.
fn none_greater(numbers: &[u64], floors: &[u64], first: usize, leaves: usize, number: u64) -> bool
    requires inside { first + leaves ≤ length numbers.now }
    requires floors { length floors.now ≡ length numbers.now }
    ensures none { MatchBool result (IsNoneGreater first leaves numbers.now floors.now number)
        ((j : ℕ) × IsTrue (leaf_range first leaves j)
        × IsGreater numbers.now floors.now number j) }
{
    match first_greater(numbers, floors, first, leaves, number) {
        Some(_) => false,
        None => true,
    }
}

/// Returns whether a range of leaves of one user holds a leaf back.
fn holds_inside(grants: &[u64], floors: &[u64], place: Place, leaf: usize) -> bool
    requires floors { length floors.now ≡ length grants.now }
    requires inside { place.first + place.leaves ≤ length grants.now }
    requires leaf { leaf < length grants.now }
    ensures holds { IsTrue result ↔ (IsTrue (leaf_range place.first place.leaves leaf)
        × IsNoneGreater place.first place.leaves grants.now floors.now
        (slice_index grants.now leaf)) }
{
    if !place.holds(leaf) {
        return false;
    }
    none_greater(grants, floors, place.first, place.leaves, grants[leaf])
}

/// Grants and floors of leaves, in octets, with the number of the user of each leaf, and for each leaf the totals of its
/// user's grants and floors.
#[derive(Clone, Copy)]
pub(crate) struct UserGrants<'a> {
    pub owners: &'a [u32],
    pub grants: &'a [u64],
    pub floors: &'a [u64],
    pub totals: &'a [u64],
    pub floor_totals: &'a [u64],
    ghost owned: { length owners.now ≡ length grants.now },
    ghost floored: { length floors.now ≡ length grants.now },
    ghost fits: { sum grants.now < 2 ^ 64 },
    ghost room: { length owners.now ≤ length totals.now },
    ghost tables: { length floor_totals.now ≡ length totals.now },
    ghost granted: { AreUserTotals owners.now grants.now totals.now },
    ghost guaranteed: { AreUserTotals owners.now floors.now floor_totals.now },
}

/// Returns whether a range of leaves holds a leaf back among users.
fn holds_among(of: UserGrants<'_>, place: Place, leaf: usize) -> bool
    requires inside { place.first + place.leaves ≤ length of.owners.now }
    requires leaf { leaf < length of.owners.now }
    ensures holds { IsTrue result ↔ IsOuterRange of.entry.owners.now of.entry.grants.now
        of.entry.floors.now place.first place.leaves leaf }
{
    let user = of.owners[leaf];
    if !are_in(of.owners, place.first, place.leaves, user) {
        return false;
    }
    if !are_near(of.owners, of.grants, of.floors, user, of.grants[leaf]) {
        return false;
    }
    let total = of.totals[leaf];
    none_greater(of.totals, of.floor_totals, place.first, place.leaves, total)
}

/// Returns whether a range of leaves holds a leaf back, within the leaf's user or among users.
pub(crate) fn holds_back(of: UserGrants<'_>, place: Place, leaf: usize) -> bool
    requires inside { place.first + place.leaves ≤ length of.owners.now }
    requires leaf { leaf < length of.owners.now }
    ensures holds { IsTrue result
        ↔ (IsInnerRange of.entry.owners.now of.entry.grants.now of.entry.floors.now place.first
        place.leaves leaf
        ⊎ IsOuterRange of.entry.owners.now of.entry.grants.now of.entry.floors.now place.first
        place.leaves leaf) }
{
    if are_of(of.owners, place.first, place.leaves, of.owners[leaf]) {
        return holds_inside(of.grants, of.floors, place, leaf);
    }
    holds_among(of, place, leaf)
}

/// Returns whether each unmet leaf has a bottleneck, within its user or among users, whose number is its entry: the leaves
/// that have one are marked.
fn are_backed<A: Allocator>(
    tree: &Tree<A>,
    of: UserGrants<'_>,
    entries: &[Option<u32>],
    wants: &[u64],
) -> bool
    requires users { (users : ℕ) × HasUsers (limits tree.now) users of.owners.now }
    requires lengths { length (limits tree.now).wants ≡ length of.grants.now }
    requires few { length of.grants.now ≤ MAX_LEAVES }
    requires entries { length entries.now ≡ length of.grants.now }
    requires wants { wants.now ≡ (limits tree.now).wants }
    requires floors { of.floors.now ≡ (limits tree.now).floors }
    ensures backed { MatchBool result
        ((i : ℕ) → i < length of.entry.grants.now
        → IsUnmet (limits tree.now) of.entry.grants.now i
        → HasUserNeck (limits tree.now) of.entry.owners.now of.entry.grants.now entries.now i)
        ((i : ℕ) × (i < length of.entry.grants.now)
        × IsUnmet (limits tree.now) of.entry.grants.now i
        × (HasUserNeck (limits tree.now) of.entry.owners.now of.entry.grants.now entries.now i
        → ⊥)) }
{
    let _bounded = tree.leaves();
    let marks = look_at_necks(tree, of, entries);
    for leaf in 0..of.grants.len() {
        if of.grants[leaf] < wants[leaf] && !marks[leaf] {
            return false;
        }
    }
    true
}

/// Returns whether grants within the limits are backed among users, by tables for `N` leaves. Its frame is its own and no
/// caller's: a thread that checks few leaves does without the tables for many.
#[inline(never)]
fn are_backed_by<A: Allocator, const N: usize>(
    tree: &Tree<A>,
    owners: &[u32],
    grants: &[u64],
    entries: &[Option<u32>],
) -> bool
    requires users { (users : ℕ) × HasUsers (limits tree.now) users owners.now }
    requires within { IsWithin (limits tree.now) grants.now }
    requires entries { length entries.now ≡ length (limits tree.now).wants }
    requires room { length grants.now ≤ N }
    requires bounded { N ≤ MAX_LEAVES }
    ensures backed { IsTrue result
        ↔ IsBackedByUsers (limits tree.now) owners.now grants.now entries.now }
{
    let leaves = tree.leaves();
    let mut wants = [0; N];
    let mut floors = [0; N];
    tree.leaves_into(&mut wants, &mut floors);
    let floors = &floors[..leaves];
    let mut totals = [0; N];
    let mut floor_totals = [0; N];
    totals_into(owners, grants, &mut totals);
    totals_into(owners, floors, &mut floor_totals);
    let of = UserGrants {
        owners,
        grants,
        floors,
        totals: &totals,
        floor_totals: &floor_totals,
    };
    are_backed(tree, of, entries, &wants[..leaves])
}

/// Returns whether grants within the limits are backed among users.
fn are_backed_within<A: Allocator>(
    tree: &Tree<A>,
    owners: &[u32],
    grants: &[u64],
    entries: &[Option<u32>],
) -> bool
    requires users { (users : ℕ) × HasUsers (limits tree.now) users owners.now }
    requires within { IsWithin (limits tree.now) grants.now }
    requires entries { length entries.now ≡ length (limits tree.now).wants }
    ensures backed { IsTrue result
        ↔ IsBackedByUsers (limits tree.now) owners.now grants.now entries.now }
{
    let _bounded = tree.leaves();
    if grants.len() <= FEW_LEAVES {
        are_backed_by::<A, FEW_LEAVES>(tree, owners, grants, entries)
    } else {
        are_backed_by::<A, MAX_LEAVES>(tree, owners, grants, entries)
    }
}

/// Returns whether a verdict is that grants are within the limits, whether they are backed or not.
fn keeps_limits(verdict: Verdict) -> bool
    ensures kept { result ≡ tells_within verdict }
{
    match verdict {
        Verdict::Yes => true,
        Verdict::No(flaw) => match flaw {
            Flaw::WrongLength
            | Flaw::OverWant { .. }
            | Flaw::UnderFloor { .. }
            | Flaw::OverLimit { .. } => false,
            _ => true,
        },
    }
}

/// Returns whether grants, in octets by leaf, are within the limits of the tree and backed among users by their
/// certificate, and therefore best by users. `owners` has the number of the user of each leaf; each branch lies within
/// the leaves of a user, around them, or apart from them. No memory; O(nodes * depth + leaves²) time: one walk more than
/// `check`.
pub fn check_by_users<A: Allocator, B: Allocator>(
    tree: &Tree<A>,
    owners: &[u32],
    grants: &[u64],
    certificate: &Certificate<B>,
) -> bool
    requires users { (users : ℕ) × HasUsers (limits tree.now) users owners.now }
    ensures exact { IsTrue result ↔ (IsWithin (limits tree.now) grants.now
        × IsBackedByUsers (limits tree.now) owners.now grants.now certificate.now) }
    ensures best { IsTrue result → (users : ℕ) → HasUsers (limits tree.now) users owners.now
        → IsBestByUsers (limits tree.now) users owners.now grants.now }
{
    let _leaves = tree.leaves();
    let entries = certificate.entries();
    if !keeps_limits(check(tree, grants, certificate)) {
        return false;
    }
    are_backed_within(tree, owners, grants, entries)
}
