//! A pool of ports that leases the lowest free one.

ghost use Rattle.std.specs.Prelude.{◌≡◌, false, Some, IfOk, IfSome, IfNone};
ghost use Rattle.std.specs.Bool.{OnTrue};
ghost use Rattle.std.specs.FinSet as set;
ghost use Rattle.passive_ports.specs.Ports.{opened, range_fault, IsWithin, IsLowestFree, AllAreLeased, with_lease, without_lease};
ghost use Rattle.passive_ports.specs.Refusals.{RefusedFor};

use crate::bitmap::Bitmap;
use crate::fault::PoolFault;
use std::alloc::{Allocator, Global};
use std::marker::Model;

/// The ports from `first` to `last`, each leased or free.
///
/// The caller may listen on a leased port, for PASV (RFC 959, section 4.1.2) and EPSV (RFC 2428, section 3).
#[derive(Drop)]
pub struct PortPool<A: Allocator = Global> {
    first: u16,
    last: u16,
    // bit 0 is that of the first port
    leased: Bitmap<A>,
}

impl<A: Allocator> Model for PortPool<A> {
    ghost use Rattle.passive_ports.specs.Ports.{Ports, ports_code, kept_ports, IsPool};

    ghost Value = { Ports };

    ghost coded = { ports_code };

    ghost view = { λ inside. kept_ports inside.first inside.last inside.leased };

    ghost invariant = { λ inside. IsPool inside.first inside.last inside.leased };
}

impl<A: Allocator> PortPool<A> {
    /// The ports from `first` to `last`, all free. No later call allocates.
    pub fn new(alloc: A, first: u16, last: u16) -> Result<PortPool<A>, PoolFault>
        ensures opened { IfOk result (λ ports. ports ≡ opened first last) }
        ensures refused { RefusedFor PoolFault.Memory (range_fault first last) result }
    {
        if first == 0 || last < first {
            return Err(PoolFault::EmptyRange);
        }
        let leased = Bitmap::new(alloc, last - first)?;
        Ok(PortPool {
            first,
            last,
            leased,
        })
    }

    /// Leases the lowest free port; `None` if all are leased.
    pub fn lease(&mut self) -> Option<u16>
        ensures lowest { IfSome result (IsLowestFree self.old) }
        ensures leased { IfSome result (λ port. self.new ≡ with_lease self.old port) }

        ensures all { IfNone result (AllAreLeased self.old) }
        ensures unchanged { IfNone result (self.new ≡ self.old) }
    {
        let place = self.leased.lowest_clear()?;
        if place > usize::from(self.last - self.first) {
            return None;
        }
        self.leased.put(place, true);
        Some(self.first + place as u16)
    }

    /// Takes a leased port back. Returns whether it was leased.
    pub fn give_back(&mut self, port: u16) -> bool
        ensures was_leased { result ≡ set.contains self.old.leased port }
        ensures returned { self.new ≡ without_lease self.old port }
        ensures unchanged { result ≡ false → self.new ≡ self.old }
    {
        if !self.is_leased(port) {
            return false;
        }
        self.leased.put(usize::from(port - self.first), false);
        true
    }

    /// Returns whether a port is leased.
    pub fn is_leased(&self, port: u16) -> bool
        ensures leased { result ≡ set.contains self.now.leased port }
        ensures within { OnTrue result (IsWithin self.now port) }
    {
        self.first <= port
            && port <= self.last
            && self.leased.is_set(usize::from(port - self.first))
    }
}
