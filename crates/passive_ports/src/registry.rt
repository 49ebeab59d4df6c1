//! The connections that a server has admitted, within its limits.

ghost use Rattle.std.specs.Prelude.{◌≡◌, false, IfOk, IfSome, None, OnErr};
ghost use Rattle.std.specs.FinMap as map;
ghost use Rattle.passive_ports.specs.Connections.{none_admitted, count_of, IsWithinLimits, reaches, limit_fault, Admits, IsExceeded, with_limits, without};
ghost use Rattle.passive_ports.specs.Refusals.{RefusedFor};

use crate::counts::{Counts, count_down, count_in, crowded, set_count};
use crate::fault::{AdmitFault, LimitFault};
use slab::Slab;
use std::alloc::{AllocError, Allocator, Global};
use std::collections::BTreeMap;
use std::marker::Model;

/// Connections by key, with a limit to all of them and one per IPv4 address.
#[derive(Drop)]
pub struct Registry<A: Allocator = Global> {
    max: usize,
    // 0 is no limit
    max_of_address: usize,
    addresses: Slab<[u8; 4], A>,
    counts: Counts<A>,
}

impl<A: Allocator> Model for Registry<A> {
    ghost use Rattle.passive_ports.specs.Connections.{Admitted, admitted_code, kept_admitted, IsRegistry};

    ghost Value = { Admitted };

    ghost coded = { admitted_code };

    ghost view = { λ inside. kept_admitted inside.max inside.max_of_address inside.addresses };

    ghost invariant = { λ inside.
        IsRegistry inside.max inside.max_of_address inside.addresses inside.counts };
}

impl<A: Allocator + Clone> Registry<A> {
    /// A registry without connections, for at most `max` at a time, `max_of_address` of them from one address. A
    /// `max` of 0 admits none; a `max_of_address` of 0 is no limit.
    pub fn new(alloc: A, max: usize, max_of_address: usize) -> Result<Registry<A>, AllocError>
        ensures none { IfOk result (λ admitted. admitted ≡ none_admitted max max_of_address) }
    {
        let addresses = Slab::new(alloc.clone()?);
        Ok(Registry {
            max,
            max_of_address,
            addresses,
            counts: BTreeMap::new(alloc),
        })
    }

    /// Admits a connection from an address, and returns its key, which no other connection has until this one
    /// leaves.
    pub fn admit(&mut self, address: [u8; 4]) -> Result<usize, AdmitFault>
        ensures admitted { IfOk result (Admits self.old self.new address) }
        ensures refused { RefusedFor AdmitFault.Memory (limit_fault self.old address) result }
        ensures unchanged { OnErr result (self.new ≡ self.old) }
    {
        if self.addresses.len() >= self.max {
            return Err(AdmitFault::TooMany);
        }
        let count = count_in(&self.counts, address);
        if reaches(count, self.max_of_address) {
            return Err(AdmitFault::TooManyOfAddress);
        }
        self.addresses.reserve(1)?;
        set_count(&mut self.counts, address, count + 1)?;
        Ok(self.addresses.insert_reserved(address))
    }
}

impl<A: Allocator> Registry<A> {
    /// Removes a connection. Returns whether it was there. Allocates nothing.
    pub fn leave(&mut self, key: usize) -> bool
        ensures was_there { result ≡ map.contains_key self.old.connections key }
        ensures removed { self.new ≡ without self.old key }
        ensures unchanged { result ≡ false → self.new ≡ self.old }
    {
        match self.addresses.try_remove(key) {
            Some(address) => {
                count_down(&mut self.counts, address);
                true
            }
            None => false,
        }
    }

    /// The first of other limits that the connections which are there exceed; none if they are within both.
    pub fn exceeded(&self, max: usize, max_of_address: usize) -> Option<LimitFault>
        ensures exceeded { IfSome result (IsExceeded self.now max max_of_address) }
        ensures within { result ≡ None → IsWithinLimits (with_limits self.now max max_of_address) }
    {
        let connected = self.addresses.len();
        if connected > max {
            return Some(LimitFault::TooMany(connected));
        }
        if let Some(address) = crowded(&self.counts, max_of_address) {
            let connected = count_in(&self.counts, address);
            return Some(LimitFault::TooManyOfAddress(address, connected));
        }
        None
    }

    /// Sets other limits, which the connections that are there are within.
    pub fn set_limits(&mut self, max: usize, max_of_address: usize)
        requires within { IsWithinLimits (with_limits self.old max max_of_address) }
        ensures set { self.new ≡ with_limits self.old max max_of_address }
    {
        self.max = max;
        self.max_of_address = max_of_address;
    }

    /// Number of connections.
    pub fn count(&self) -> usize
        ensures count { result ≡ map.len self.now.connections }
        ensures within { IsWithinLimits self.now }
    {
        self.addresses.len()
    }

    /// Number of connections from an address.
    pub fn count_of_address(&self, address: [u8; 4]) -> usize
        ensures count { result ≡ count_of self.now.connections address }
    {
        count_in(&self.counts, address)
    }
}

/// Returns whether a count has reached a limit; 0 is no limit.
fn reaches(count: usize, limit: usize) -> bool
    ensures { result ≡ reaches count limit }
{
    limit != 0 && count >= limit
}
