//! The server of a configuration.

ghost use Rattle.std.specs.Prelude.{◌≡◌, IfOk, map};
ghost use Rattle.ftp_server.specs.FromConfig.{IsOfConfig, set_of};

use crate::rates::{SetRates, UserRates};
use crate::server::FtpServer;
use client_patience::Patience;
use line_rates::{GroupRate, Name, UserRate, Way};
use server_config::{Config, ServedStore};
use std::alloc::{AllocError, Global};

fn set_of(row: UserRate) -> SetRates
    ensures set { result ≡ set_of row }
{
    SetRates {
        number: row.user,
        rates: UserRates {
            down: row.down,
            up: row.up,
            session_down: row.session_down,
            session_up: row.session_up,
            session_down_floor: row.session_down_floor,
            session_up_floor: row.session_up_floor,
        },
    }
}

fn copied(alloc: Global, rows: &[GroupRate]) -> Result<Vec<GroupRate>, AllocError>
    ensures copied { IfOk result (λ copies. copies.items ≡ rows.now) }
{
    let mut copies = Vec::with_capacity(alloc, rows.len())?;
    for row in rows {
        copies.push(*row)?;
    }
    Ok(copies)
}

fn sets_of(alloc: Global, rows: &[UserRate]) -> Result<Vec<SetRates>, AllocError>
    ensures sets { IfOk result (λ sets. sets.items ≡ map set_of rows.now) }
{
    let mut sets = Vec::with_capacity(alloc, rows.len())?;
    for row in rows {
        sets.push(set_of(*row))?;
    }
    Ok(sets)
}

impl FtpServer {
    /// The server of a configuration, and its store: in memory, or the path of a folder. A configuration states neither
    /// limits of time nor one of the sessions of a user, so these are those of `at`. Fails if memory runs out.
    ///
    /// ```text
    /// let (server, store) = FtpServer::of_config(alloc, Config::read(alloc, TEXT.as_bytes())?)?;
    /// ```
    pub fn of_config(alloc: Global, config: Config) -> Result<(FtpServer, ServedStore), AllocError>
        ensures config { IfOk result (λ made. IsOfConfig config made.0) }
        ensures store { IfOk result (λ made. made.1 ≡ config.store) }
    {
        let Config {
            settings,
            numbers,
            users,
            store,
            limits,
            ..
        } = config;
        let groups = copied(alloc, limits.groups())?;
        let user_rates = sets_of(alloc, limits.users())?;
        let server = FtpServer {
            users,
            rate: limits.rate(Name::Server),
            down_rate: limits.rate(Name::Direction(Way::Down)),
            up_rate: limits.rate(Name::Direction(Way::Up)),
            numbers,
            settings,
            patience: Patience {
                login_timeout: 60,
                idle_timeout: 0,
                login_delay: 1,
                drain_timeout: 0,
            },
            user_sessions: 0,
            groups,
            user_rates,
            share_by: limits.share_by(),
            syncs: false,
            alloc,
        };
        Ok((server, store))
    }
}
