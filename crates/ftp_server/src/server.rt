//! A server that has not begun.

ghost use Rattle.std.specs.Prelude.{◌≡◌, IfErr, IfOk, OnErr, OnOk};
ghost use Rattle.ftp_server.specs.Defaults.{AreDefaults};
ghost use Rattle.ftp_server.specs.Changes.{HasGroup, HasRates, IsRateFault, IsSame};

use crate::fault::FtpServerFault;
use crate::rates::{SetRates, UserRates};
use authorizer::{Authorizer, AuthorizerFault};
use client_patience::Patience;
use ftp_terms::LineText;
use line_rates::{GroupRate, ShareBy};
use server_config::ServerNumbers;
use session_table::Settings;
use std::alloc::{AllocError, Global};

/// A server that has not begun: its users, their rates and its settings. What is not set is that of a configuration that
/// does not state it. A call that serves takes it.
///
/// ```text
/// let mut server = FtpServer::at(rt.alloc(), [127, 0, 0, 1], 2121)?;
/// server.users.add_user("ann", "secret", "/", "elradfmw")?;
/// server.down_rate = 4_000_000; // octets per second
/// server.serve_folder(&rt, &rt, "/srv/ftp", NoHooks)?;
/// ```
#[derive(Drop)]
pub struct FtpServer {
    /// The users; each call of `Authorizer` may be made on them until the server begins.
    pub users: Authorizer,
    /// Limit to all octets, in octets per second; 0 for none.
    pub rate: u64,
    /// Limit to all downloads, in octets per second; 0 for none.
    pub down_rate: u64,
    /// Limit to all uploads, in octets per second; 0 for none.
    pub up_rate: u64,
    /// The address, the ports and the maximum counts.
    pub numbers: ServerNumbers,
    /// The settings of all sessions: the banner, the number of logins, what PORT permits, and the address in replies to
    /// PASV.
    pub settings: Settings,
    /// The limits of time for clients, in seconds.
    pub patience: Patience,
    /// The greatest number of sessions in which one user is logged in; 0 for no limit.
    pub user_sessions: u32,
    /// The groups and their rates; `add_group` adds one.
    pub groups: Vec<GroupRate>,
    /// The rates of users in the order in which `limit_user` set them. Of two for one user the later counts; a user
    /// without any has no limit and no guarantee.
    pub user_rates: Vec<SetRates>,
    /// Among whom what limits and guarantees leave over is shared: the sessions, or the users and then the sessions of
    /// each. A user has a share in each direction.
    pub share_by: ShareBy,
    /// A folder has the octets of each file that is received put on the device before its reply.
    pub syncs: bool,
    pub(crate) alloc: Global,
}

/// The numbers of a server at an address and a port.
fn default_numbers(address: [u8; 4], port: u16) -> ServerNumbers
    ensures address { result.address ≡ address }
    ensures port { result.port ≡ port }
    ensures connections { (result.max_cons ≡ 64) × (result.max_cons_per_address ≡ 0) }
    ensures passive { (result.passive_first ≡ 30000) × (result.passive_last ≡ 30063) }
    ensures lanes { result.lanes ≡ 16 }
    ensures sessions { result.sessions ≡ 0 }
{
    ServerNumbers {
        address,
        port,
        max_cons: 64,
        max_cons_per_address: 0,
        passive_first: 30_000,
        passive_last: 30_063,
        lanes: 16,
        sessions: 0,
    }
}

impl FtpServer {
    /// A server at this address and port, without users, groups and limits. Its passive ports are 30000 to 30063. Fails if
    /// memory runs out.
    ///
    /// ```text
    /// let mut server = FtpServer::at(rt.alloc(), [0, 0, 0, 0], 2121)?;
    /// server.numbers.max_cons = 100;
    /// ```
    pub fn at(alloc: Global, address: [u8; 4], port: u16) -> Result<FtpServer, AllocError>
        ensures defaults { IfOk result (AreDefaults address port) }
    {
        Ok(FtpServer {
            users: Authorizer::new(alloc)?,
            rate: 0,
            down_rate: 0,
            up_rate: 0,
            numbers: default_numbers(address, port),
            settings: Settings {
                banner: LineText::fixed("Ready"),
                login_attempts: 3,
                permits_foreign_addresses: false,
                permits_privileged_ports: false,
                address,
            },
            patience: Patience {
                login_timeout: 60,
                idle_timeout: 0,
                login_delay: 1,
                drain_timeout: 0,
            },
            user_sessions: 0,
            groups: Vec::new(alloc),
            user_rates: Vec::new(alloc),
            share_by: ShareBy::Sessions,
            syncs: false,
            alloc,
        })
    }

    /// Sets the rates of a user, in octets per second, in place of those that were set before. Returns
    /// `User(NoSuchUser)` if there is no user of this name, and `Memory` if memory runs out; then it changes nothing.
    ///
    /// ```text
    /// server.limit_user("ann", UserRates { down: 500_000, ..UserRates::NONE })?;
    /// ```
    pub fn limit_user(&mut self, name: &str, rates: UserRates) -> Result<(), FtpServerFault>
        ensures set { OnOk result (HasRates self.old name.now rates self.new) }
        ensures unchanged { OnErr result (IsSame self.old self.new) }
        ensures fault { IfErr result (IsRateFault self.old.users name.now) }
    {
        let Some(number) = self.users.number(name) else {
            return Err(FtpServerFault::User(AuthorizerFault::NoSuchUser));
        };
        self.user_rates.push(SetRates { number, rates })?;
        Ok(())
    }

    /// Adds a group whose users together have these rates, in octets per second, 0 for no limit; returns its number, which
    /// is that of groups before it. `users.set_group` puts a user into it. Returns `Memory`, and changes nothing, if memory
    /// runs out.
    ///
    /// ```text
    /// let staff = server.add_group(2_000_000, 0)?;
    /// server.users.set_group("ann", Some(staff))?;
    /// ```
    pub fn add_group(&mut self, down: u64, up: u64) -> Result<u32, FtpServerFault>
        ensures added { IfOk result (λ group. HasGroup self.old group down up self.new) }
        ensures unchanged { OnErr result (IsSame self.old self.new) }
    {
        let Ok(group) = u32::try_from(self.groups.len()) else {
            return Err(FtpServerFault::Memory);
        };
        self.groups.push(GroupRate { group, down, up })?;
        Ok(group)
    }
}
