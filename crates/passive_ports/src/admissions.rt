//! Admissions by limits that may be below the number of connections that are there.

ghost use Rattle.std.specs.Prelude.{◌≡◌, ◌≤◌, ◌⊎◌, IfOk, OnErr};
ghost use Rattle.std.specs.FinMap as map;
ghost use Rattle.passive_ports.specs.Connections.{limit_fault, reaches, with_limits, without, Admits, IsWithinLimits};
ghost use Rattle.passive_ports.specs.Refusals.{RefusedFor};

use crate::fault::AdmitFault;
use crate::registry::Registry;
use std::alloc::{Allocator, Global};

/// Greatest numbers of connections: in all, of which 0 admits none, and from one address, of which 0 is no limit.
#[derive(Clone, Copy, Debug, PartialEq, Eq)]
pub struct ConnectionLimits {
    pub max: usize,
    pub max_of_address: usize,
}

/// The connections that a server has admitted, and the limits to further ones. If these are below the number of the
/// connections that are there, nobody is admitted until enough have left; the limits that the registry keeps follow them.
#[derive(Drop)]
pub struct Admissions<A: Allocator = Global> {
    pub registry: Registry<A>,
    pub limits: ConnectionLimits,
}

// The limits for a registry: these, as far as the connections that are there are within them.
fn kept_limits<A: Allocator>(registry: &Registry<A>, limits: ConnectionLimits) -> ConnectionLimits
    ensures within { IsWithinLimits (with_limits registry.now result.max result.max_of_address) }
    ensures most { limits.max ≤ result.max }
    ensures most_of_address { (result.max_of_address ≡ limits.max_of_address)
        ⊎ (result.max_of_address ≡ 0) }
{
    let max = limits.max.max(registry.count());
    let max_of_address = match registry.exceeded(max, limits.max_of_address) {
        None => limits.max_of_address,
        Some(_) => 0,
    };
    ConnectionLimits {
        max,
        max_of_address,
    }
}

// Returns whether one more connection is more than a limit; 0 is no limit.
fn is_full(limit: usize, count: usize) -> bool
    ensures full { result ≡ reaches count limit }
{
    limit != 0 && limit <= count
}

impl<A: Allocator + Clone> Admissions<A> {
    /// Admits a connection from an address within the limits, and returns its key, which no other connection has until
    /// this one leaves.
    pub fn admit(&mut self, address: [u8; 4]) -> Result<usize, AdmitFault>
        ensures admitted { IfOk result (λ key. Admits
            (with_limits self.old.registry self.new.registry.limit self.new.registry.limit_of_address)
            self.new.registry address key) }
        ensures refused { RefusedFor AdmitFault.Memory (limit_fault
            (with_limits self.old.registry self.old.limits.max self.old.limits.max_of_address)
            address) result }
        ensures unchanged { OnErr result
            (self.new.registry.connections ≡ self.old.registry.connections) }
        ensures limits { self.new.limits ≡ self.old.limits }
    {
        let limits = self.limits;
        let kept = kept_limits(&self.registry, limits);
        self.registry.set_limits(kept.max, kept.max_of_address);
        if limits.max <= self.registry.count() {
            return Err(AdmitFault::TooMany);
        }
        if is_full(
            limits.max_of_address,
            self.registry.count_of_address(address),
        ) {
            return Err(AdmitFault::TooManyOfAddress);
        }
        self.registry.admit(address)
    }
}

impl<A: Allocator> Admissions<A> {
    /// Removes a connection. Returns whether it was there. Allocates nothing.
    pub fn leave(&mut self, key: usize) -> bool
        ensures was_there { result ≡ map.contains_key self.old.registry.connections key }
        ensures removed { self.new.registry ≡ without self.old.registry key }
        ensures limits { self.new.limits ≡ self.old.limits }
    {
        self.registry.leave(key)
    }

    /// Number of connections, which may be above the limits.
    pub fn count(&self) -> usize
        ensures count { result ≡ map.len self.now.registry.connections }
    {
        self.registry.count()
    }
}
