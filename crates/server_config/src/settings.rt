//! The settings of sessions, and the numbers of a server.

ghost use Rattle.std.specs.Prelude.{IfOk};
ghost use Rattle.server_config.specs.Settings.{AreSettings, AreNumbers};

use config_file::ServerTable;
use ftp_terms::LineText;
use session_table::Settings;
use std::alloc::{AllocError, Global};

/// The address, the ports and the maximum counts of a server.
#[derive(Clone, Copy, Debug, PartialEq, Eq)]
pub struct ServerNumbers {
    /// The address that it listens on.
    pub address: [u8; 4],
    /// The port of control connections.
    pub port: u16,
    /// Maximum number of connections at once, from 1 to 512.
    pub max_cons: u16,
    /// Maximum number of them from one address; 0 for no limit.
    pub max_cons_per_address: u16,
    /// The first port of passive connections.
    pub passive_first: u16,
    /// The last one, not below the first.
    pub passive_last: u16,
    /// Maximum number of transfers at once, from 1 to 64.
    pub lanes: u16,
    /// Number of sessions after which the server ends; 0 for never.
    pub sessions: u64,
}

/// The settings of sessions that a table states. The address in replies to PASV is the stated one, or otherwise the
/// server's.
pub(crate) fn settings_of(alloc: Global, server: &ServerTable) -> Result<Settings, AllocError>
    ensures settings { IfOk result (AreSettings server.now) }
{
    let banner = String::from_str(alloc, server.banner)?;
    let address = match server.masquerade_address {
        Some(address) => address.octets(),
        None => server.address.octets(),
    };
    Ok(Settings {
        banner: LineText::made(banner),
        login_attempts: u32::from(server.max_login_attempts),
        permits_foreign_addresses: server.permit_foreign_addresses,
        permits_privileged_ports: server.permit_privileged_ports,
        address,
    })
}

/// The numbers that a table states.
pub(crate) fn numbers_of(server: &ServerTable) -> ServerNumbers
    ensures numbers { AreNumbers server.now result }
{
    ServerNumbers {
        address: server.address.octets(),
        port: server.port,
        max_cons: server.max_cons,
        max_cons_per_address: server.max_cons_per_address,
        passive_first: server.passive_first,
        passive_last: server.passive_last,
        lanes: server.lanes,
        sessions: server.sessions,
    }
}
