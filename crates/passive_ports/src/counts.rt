//! The number of connections of each address.

ghost use Rattle.std.specs.Prelude.{◌≡◌, ◌-◌, ◌≢◌, ◌<◌, ◌≤◌, ℕ, List, None, IfSome, OnOk, OnErr};
ghost use Rattle.std.specs.BTreeMap.{IsUnchanged};
ghost use Rattle.passive_ports.specs.Connections.{count_in, SetsCount};

use std::alloc::{AllocError, Allocator};
use std::collections::BTreeMap;

/// The addresses with connections, each with their number.
pub(crate) type Counts<A> = BTreeMap<[u8; 4], usize, A>;

pub(crate) fn count_in<A: Allocator>(counts: &Counts<A>, address: [u8; 4]) -> usize
    ensures count { result ≡ count_in counts.now address }
{
    counts.get(&address).copied().unwrap_or(0)
}

/// Sets a count that is not 0.
pub(crate) fn set_count<A: Allocator + Clone>(
    counts: &mut Counts<A>,
    address: [u8; 4],
    count: usize,
) -> Result<(), AllocError>
    requires { 0 < count }
    ensures set { OnOk result (SetsCount counts.old counts.new address count) }
    ensures unchanged { OnErr result (IsUnchanged counts.old counts.new) }
{
    counts.insert(address, count)?;
    Ok(())
}

/// Subtracts one from the count of an address.
pub(crate) fn count_down<A: Allocator>(counts: &mut Counts<A>, address: [u8; 4])
    ensures down { SetsCount counts.old counts.new address (count_in counts.old address - 1) }
{
    let rest = count_in(counts, address).saturating_sub(1);
    if rest == 0 {
        counts.remove(&address);
    } else if let Some(count) = counts.get_mut(&address) {
        *count = rest;
    }
}

/// An address with more connections than a limit, if there is one; 0 is no limit.
#[tactic(auto, using(crate::proofs::Crowds::none_has_more))]
pub(crate) fn crowded<A: Allocator>(counts: &Counts<A>, limit: usize) -> Option<[u8; 4]>
    ensures some { IfSome result (λ address. limit < count_in counts.now address) }
    ensures limited { IfSome result (λ _. limit ≢ 0) }
    ensures none { result ≡ None → limit ≢ 0
        → (address : List ℕ) → count_in counts.now address ≤ limit }
{
    if limit == 0 {
        return None;
    }
    for (address, _) in counts {
        if count_in(counts, *address) > limit {
            return Some(*address);
        }
    }
    None
}
