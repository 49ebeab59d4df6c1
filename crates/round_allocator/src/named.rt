//! Allotments with their certificates.

ghost use Rattle.std.specs.Prelude.{◌≡◌, ◌+◌, ◌*◌, ◌<◌, ◌≤◌, ◌⊎◌, ℕ, length, slice_get, Some, IfOk};
ghost use Rattle.limit_tree.specs.Sharing.{IsWanted, IsWithin, IsBackedBy, IsBest};
ghost use Rattle.limit_tree.specs.Outline.{limits};
ghost use Rattle.round_allocator.specs.Rounds.{IsExhausted, IsEntry, IsNamed};
ghost use Rattle.round_allocator.specs.Order.{GivesInOrder};
ghost use Rattle.round_allocator.specs.Levels.{branch_count};
ghost use Rattle.round_allocator.specs.declared.level.TheConstants.{MAX_PROBES};
ghost use Rattle.round_allocator.specs.Marks.{HasMark, AreDeepest};

use super::fill::give;
use super::steps::Steps;
use grant_certificate::{Certificate, backed_is_best};
use limit_tree::{Flat, Tree};
use std::alloc::{AllocError, Allocator};
use std::marker::Brand;
use std::sync::ledger::{Blank, Ledger};

// Marks the `leaves` leaves from leaf `first` on with a node.
fn mark(marks: &mut [Option<u32>], first: usize, leaves: usize, node: u32)
    requires inside { first + leaves ≤ length marks.old }
    ensures size { length marks.new ≡ length marks.old }
    ensures marked { (i : ℕ) → first ≤ i → i < first + leaves
        → slice_get marks.new i ≡ Some (Some node) }
    ensures others { (i : ℕ) → (i < first) ⊎ (first + leaves ≤ i)
        → slice_get marks.new i ≡ slice_get marks.old i }
{
    for leaf in first..first + leaves {
        marks[leaf] = Some(node);
    }
}

// A list of empty marks, one for each leaf.
fn no_marks<B: Allocator>(alloc: B, leaves: usize) -> Result<Vec<Option<u32>, B>, AllocError>
    ensures leaves { IfOk result (λ m. length m.items ≡ leaves) }
    ensures none { IfOk result (λ m. (i : ℕ) → i < leaves → slice_get m.items i ≡ Some None) }
{
    vec![in alloc; None; leaves]
}

// Marks each leaf with the last full branch among the first nodes, after one more node.
fn mark_full<A: Allocator>(flat: &Flat<A>, grants: &[u64], node: usize, marks: &mut [Option<u32>])
    requires node { node < length flat.now }
    requires grants { IsWanted (limits flat.now) grants.now }
    requires size { length marks.old ≡ length grants.now }
    requires marked { (i : ℕ) → i < length grants.now
        → HasMark (limits flat.now) grants.now node i marks.old }
    ensures size { length marks.new ≡ length grants.now }
    ensures marked { (i : ℕ) → i < length grants.now
        → HasMark (limits flat.now) grants.now (node + 1) i marks.new }
{
    let _nodes = flat.nodes();
    let place = flat.place(node);
    if flat.is_full(node, grants) {
        mark(marks, place.first, place.leaves, node as u32);
    }
}

// The last full branch above each leaf. O(nodes + leaves * depth) time.
fn full_above<A: Allocator, B: Allocator>(
    alloc: B,
    flat: &Flat<A>,
    grants: &[u64],
) -> Result<Vec<Option<u32>, B>, AllocError>
    requires grants { IsWanted (limits flat.now) grants.now }
    ensures deepest { IfOk result (λ m. AreDeepest (limits flat.now) grants.now m.items) }
{
    let mut marks = no_marks(alloc, grants.len())?;
    for node in 0..flat.nodes() {
        mark_full(flat, grants, node, &mut marks);
    }
    Ok(marks)
}

// The entry of a leaf: the deepest full branch above it if it has less than it wants, otherwise none.
fn entry<A: Allocator>(
    flat: &Flat<A>,
    grants: &[u64],
    marks: &[Option<u32>],
    leaf: usize,
) -> Option<u32>
    requires grants { IsWanted (limits flat.now) grants.now }
    requires marks { AreDeepest (limits flat.now) grants.now marks.now }
    requires leaf { leaf < length grants.now }
    ensures entry { IsEntry (limits flat.now) grants.now leaf result }
{
    if grants[leaf] >= flat.want(leaf) {
        None
    } else {
        marks[leaf]
    }
}

/// The certificate whose entry, for each leaf with less than it wants, is the deepest full branch above it; all other
/// entries are none. Grants are in octets, one for each leaf. Two allocations, O(nodes + leaves * depth) time. Returns
/// `AllocError` only if memory runs out.
pub fn deepest_entries<A: Allocator, B: Allocator + Clone>(
    alloc: B,
    flat: &Flat<A>,
    grants: &[u64],
) -> Result<Certificate<B>, AllocError>
    requires grants { IsWanted (limits flat.now) grants.now }
    ensures named { IfOk result (λ c. IsNamed (limits flat.now) grants.now c) }
{
    let mut entries = Vec::with_capacity(alloc.clone()?, grants.len())?;
    let marks = full_above(alloc, flat, grants)?;
    for leaf in 0..grants.len() {
        let node = entry(flat, grants, &marks, leaf);
        entries.push(node)?;
    }
    Ok(Certificate::new(entries))
}

/// The grants of the leaves of a tree, in octets, and their certificate, as `allot` returns them, with the number of
/// probes, which a counter that is at 0 counts: sums of what the kids of one branch absorb up to one level. Returns
/// `AllocError` only if memory runs out.
pub fn allot_counted<A: Allocator, B: Allocator + Clone, L: Ledger>(
    alloc: B,
    tree: &Tree<A>,
    steps: &mut Steps<L>,
) -> Result<(Vec<u64, B>, Certificate<B>, u64), AllocError>
    requires none { steps.old ≡ 0 }
    ensures within { IfOk result (λ r. IsWithin (limits tree.now) r.0.items) }
    ensures exhausted { IfOk result (λ r. IsExhausted (limits tree.now) r.0.items) }
    ensures named { IfOk result (λ r. IsNamed (limits tree.now) r.0.items r.1) }
    ensures backed { IfOk result (λ r. IsBackedBy (limits tree.now) r.0.items r.1) }
    ensures best { IfOk result (λ r. IsBest (limits tree.now) r.0.items) }
    ensures order { IfOk result (λ r. GivesInOrder (limits tree.now) r.0.items) }
    ensures counted { IfOk result (λ r. r.2 ≤ MAX_PROBES * branch_count tree.now) }
    ensures probes { IfOk result (λ r. r.2 ≡ steps.new) }
{
    backed_is_best();
    let _leaves = tree.leaves();
    let flat = Flat::of(alloc.clone()?, tree)?;
    let grants = give(alloc.clone()?, &flat, steps)?;
    let certificate = deepest_entries(alloc, &flat, &grants)?;
    Ok((grants, certificate, steps.count()))
}

// The same with a new counter, of a ledger that nobody else has.
fn allot_anew<A: Allocator, B: Allocator + Clone, L: Ledger>(
    alloc: B,
    tree: &Tree<A>,
    blank: Blank,
) -> Result<(Vec<u64, B>, Certificate<B>), AllocError>
    requires name { blank.name ≡ L.name }
    requires parts { blank.parts ≡ L.parts }
    requires some { 0 < blank.parts }
    ensures within { IfOk result (λ r. IsWithin (limits tree.now) r.0.items) }
    ensures exhausted { IfOk result (λ r. IsExhausted (limits tree.now) r.0.items) }
    ensures named { IfOk result (λ r. IsNamed (limits tree.now) r.0.items r.1) }
    ensures backed { IfOk result (λ r. IsBackedBy (limits tree.now) r.0.items r.1) }
    ensures best { IfOk result (λ r. IsBest (limits tree.now) r.0.items) }
    ensures order { IfOk result (λ r. GivesInOrder (limits tree.now) r.0.items) }
{
    let mut steps = Steps::<L>::new(blank);
    let (grants, certificate, _probes) = allot_counted(alloc, tree, &mut steps)?;
    Ok((grants, certificate))
}

/// The grants of the leaves of a tree, in octets, and their certificate. The grants are those of handing out one octet
/// at a time, from the floors on, to the leaf with the smallest grant among those with room, the lowest leaf number
/// first. They are best. The entry of each leaf that has less than it wants is the deepest full branch above it; all
/// other entries are none. It is proved that the grants are best, and that of leaves side by side the first is served
/// first (`order`); that, of several best lists, they are those of this rule is only tested. A few allocations, O(nodes *
/// depth) time for each of at most `MAX_PROBES` probes, for any wants. Returns `AllocError` only if memory runs out.
pub fn allot<A: Allocator, B: Allocator + Clone>(
    alloc: B,
    tree: &Tree<A>,
) -> Result<(Vec<u64, B>, Certificate<B>), AllocError>
    ensures within { IfOk result (λ r. IsWithin (limits tree.now) r.0.items) }
    ensures exhausted { IfOk result (λ r. IsExhausted (limits tree.now) r.0.items) }
    ensures named { IfOk result (λ r. IsNamed (limits tree.now) r.0.items r.1) }
    ensures backed { IfOk result (λ r. IsBackedBy (limits tree.now) r.0.items r.1) }
    ensures best { IfOk result (λ r. IsBest (limits tree.now) r.0.items) }
    ensures order { IfOk result (λ r. GivesInOrder (limits tree.now) r.0.items) }
{
    allot_anew::<A, B, Brand>(alloc, tree, Blank::new(1))
}
