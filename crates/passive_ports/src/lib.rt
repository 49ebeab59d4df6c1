//! Ports for passive data connections, and the connections that a server has admitted.
//!
//! A [`PortPool`] leases the ports of a range, always the lowest that is free. While the system still holds a port's
//! last connections, listening on it again is slow. So [`RestingPorts`] lets each port that is given back rest: it is
//! leased again once others, half as many as the range has, were given back after it, or if no other port is free.
//! [`open_passive`] tries one port after another until one can be listened on. A [`Registry`] counts connections, in
//! all and by the address that they come from, and admits no more than its two limits; [`Admissions`] are by limits that may
//! be below what is connected.
//!
//! ```text
//! let mut pool = PortPool::new(rt.alloc(), 40000, 40001)?;
//! assert!(rt; pool.lease() == Some(40000));
//! assert!(rt; pool.lease() == Some(40001));
//! assert!(rt; pool.lease().is_none()); // all are leased
//! assert!(rt; pool.give_back(40000)); // and not once more
//! // 64 connections, 8 of them from one address
//! let mut registry = Registry::new(rt.alloc(), 64, 8)?;
//! let key = registry.admit([192, 0, 2, 1])?;
//! assert!(rt; registry.leave(key)); // the key may be used again
//! ```
#![tactic(auto)]

mod admissions;
mod bitmap;
mod counts;
mod fault;
mod open;
mod pool;
mod ports;
mod registry;

pub use admissions::{Admissions, ConnectionLimits};
pub use fault::{AdmitFault, LimitFault, PoolFault};
pub use open::{MOST_TRIES, PortHost, open_passive};
pub use pool::PortPool;
pub use ports::RestingPorts;
pub use registry::Registry;
