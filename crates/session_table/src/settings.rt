//! Settings of a server for all of its sessions.

use ftp_terms::LineText;
use std::alloc::{Allocator, Global};

/// Settings of a server for all of its sessions.
#[derive(Drop)]
pub struct Settings<A: Allocator = Global> {
    /// The text of the greeting.
    pub banner: LineText<A>,
    /// Number of wrong passwords that close the control connection, at least 1.
    pub login_attempts: u32,
    /// Permits data connections to a host other than the client's.
    pub permits_foreign_addresses: bool,
    /// Permits data connections to a port below 1024.
    pub permits_privileged_ports: bool,
    /// The address in the reply to PASV.
    pub address: [u8; 4],
}
