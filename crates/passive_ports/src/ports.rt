//! Ports that rest after use.

ghost use Rattle.std.specs.Prelude.{◌≡◌, ◌+◌, ◌-◌, ◌<◌, ◌≤◌, true, false, length, vec_capacity, IfOk, IfSome, IfNone};
ghost use Rattle.std.specs.FinSet as set;
ghost use Rattle.passive_ports.specs.Ports.{range_fault};
ghost use Rattle.passive_ports.specs.Refusals.{RefusedFor};
ghost use Rattle.passive_ports.specs.Resting.{opened, unleased, rested, awake, rests, keep_last, AllRest, Leases, AllAreUsed};

use crate::fault::PoolFault;
use crate::pool::PortPool;
use std::alloc::{Allocator, Global};
use std::marker::Model;

/// The ports from `first` to `last`, each in use, at rest or ready.
#[derive(Drop)]
pub struct RestingPorts<A: Allocator = Global> {
    // ports in use and ports at rest are leased here
    pool: PortPool<A>,
    // the longest at rest first
    resting: Vec<u16, A>,
    // the most that may rest
    most: usize,
}

impl<A: Allocator> Model for RestingPorts<A> {
    ghost use Rattle.std.specs.Prelude.{vec_capacity};
    ghost use Rattle.passive_ports.specs.Resting.{Resting, resting_code, kept_ports, IsKept};

    ghost Value = { Resting };

    ghost coded = { resting_code };

    ghost view = { λ p. kept_ports p.pool p.resting.items p.most };

    ghost invariant = { λ p. IsKept p.pool.leased p.resting.items p.most (vec_capacity p.resting) };
}

// Returns whether a port is at rest.
fn rests(resting: &[u16], port: u16) -> bool
    ensures rests { result ≡ rests resting.now port }
{
    for other in resting {
        if port == *other {
            return true;
        }
    }
    false
}

// Gives all ports at rest back.
fn wake<A: Allocator>(pool: &mut PortPool<A>, resting: &[u16])
    ensures woken { pool.new ≡ unleased pool.old resting.now }
{
    for port in resting {
        pool.give_back(*port);
    }
}

// Gives back the port that has rested longest, if `most` ports rest.
fn make_room<A: Allocator>(pool: &mut PortPool<A>, resting: &mut Vec<u16, A>, most: usize)
    requires some { 0 < most }
    requires few { length resting.old.items ≤ most }
    requires all { AllRest pool.old.leased resting.old.items }
    ensures same { unleased pool.new resting.new.items ≡ unleased pool.old resting.old.items }
    ensures all { AllRest pool.new.leased resting.new.items }
    ensures kept { resting.new.items ≡ keep_last (most - 1) resting.old.items }
    ensures room { length resting.new.items < most }
    ensures capacity { vec_capacity resting.new ≡ vec_capacity resting.old }
{
    if resting.len() >= most {
        let longest = resting.remove(0);
        pool.give_back(longest);
    }
}

impl<A: Allocator + Clone> RestingPorts<A> {
    /// The ports from `first` to `last`, all ready. No later call allocates.
    pub fn new(alloc: A, first: u16, last: u16) -> Result<RestingPorts<A>, PoolFault>
        ensures opened { IfOk result (λ ports. ports ≡ opened first last) }
        ensures refused { RefusedFor PoolFault.Memory (range_fault first last) result }
    {
        if first == 0 || last < first {
            return Err(PoolFault::EmptyRange);
        }
        let pool = PortPool::new(alloc.clone()?, first, last)?;
        let most = (usize::from(last - first) + 1) / 2;
        let resting = Vec::with_capacity(alloc, most)?;
        Ok(RestingPorts {
            pool,
            resting,
            most,
        })
    }
}

impl<A: Allocator> RestingPorts<A> {
    /// Leases the lowest ready port, which is then in use. If none is ready, all ports at rest become ready. `None` if
    /// all are in use.
    pub fn lease(&mut self) -> Option<u16>
        ensures leased { IfSome result (Leases self.old self.new) }
        ensures all { IfNone result (AllAreUsed self.old) }
        ensures awake { IfNone result (self.new ≡ awake self.old) }
    {
        match self.pool.lease() {
            Some(port) => Some(port),
            None => {
                wake(&mut self.pool, &self.resting);
                self.resting.clear();
                self.pool.lease()
            }
        }
    }

    /// Takes back a port that was in use. Returns whether it was. It rests, after those at rest already; if these are
    /// half the range, the one that has rested longest becomes ready.
    pub fn give_back(&mut self, port: u16) -> bool
        ensures was_used { result ≡ set.contains self.old.in_use port }
        ensures rested { result ≡ true → self.new ≡ rested self.old port }
        ensures unchanged { result ≡ false → self.new ≡ self.old }
    {
        if !self.pool.is_leased(port) {
            return false;
        }
        if rests(&self.resting, port) {
            return false;
        }
        if self.most == 0 {
            return self.pool.give_back(port);
        }
        make_room(&mut self.pool, &mut self.resting, self.most);
        self.resting.push_reserved(port);
        true
    }
}
