//! The ranges of a server's numbers.

ghost use Rattle.std.specs.Prelude.{◌≡◌};
ghost use Rattle.ftp_server.specs.Ranges.{count_fault, login_fault, number_fault, time_fault};

use client_patience::Patience;
use server_config::ServerNumbers;
use thiserror::Error;

/// Most connections at once.
pub(crate) const MOST_CONNECTIONS: u16 = 512;

/// Most transfers at once.
pub(crate) const MOST_LANES: u16 = 64;

/// Most wrong passwords of a session.
pub(crate) const MOST_ATTEMPTS: u32 = 100;

/// Most sessions of a user, if they are limited.
pub(crate) const MOST_USER_SESSIONS: u32 = 65_535;

/// Longest limit of time, in seconds: a day.
pub(crate) const MOST_SECONDS: u32 = 86_400;

/// The number of a server that is out of its range. The ranges are those of the keys of a configuration, and of the options
/// of `ftpd serve`.
///
/// ```text
/// server.numbers.lanes = 0;
/// // Err(FtpServerFault::Number(NumberFault::Lanes)), and nothing was opened
/// let served = server.serve_folder(&rt, &rt, "/srv/ftp", NoHooks);
/// ```
#[derive(Clone, Copy, Debug, PartialEq, Eq, Error)]
pub enum NumberFault {
    /// `numbers.port` is 0.
    #[error("the port must be from 1 to 65535")]
    Port,
    /// `numbers.passive_first` is 0, or above `numbers.passive_last`.
    #[error("the passive ports must be from 1 to 65535, the first not above the last")]
    PassivePorts,
    /// `numbers.lanes` is 0 or above 64.
    #[error("the number of transfers at once must be from 1 to 64")]
    Lanes,
    /// `numbers.max_cons` is 0 or above 512.
    #[error("the maximum number of connections must be from 1 to 512")]
    MaxCons,
    /// `numbers.max_cons_per_address` is above 512.
    #[error("the maximum number of connections of an address must be from 0 to 512")]
    MaxConsPerAddress,
    /// `settings.login_attempts` is 0 or above 100.
    #[error("the number of wrong passwords must be from 1 to 100")]
    LoginAttempts,
    /// `user_sessions` is above 65,535.
    #[error("the number of sessions of a user must be from 0 to 65535")]
    UserSessions,
    /// `patience.login_timeout` is above 86,400 seconds.
    #[error("the time for a login must be from 0 to 86400 seconds")]
    LoginTimeout,
    /// `patience.idle_timeout` is above 86,400 seconds.
    #[error("the time of an idle session must be from 0 to 86400 seconds")]
    IdleTimeout,
    /// `patience.login_delay` is above 86,400 seconds.
    #[error("the delay after a wrong password must be from 0 to 86400 seconds")]
    LoginDelay,
    /// `patience.drain_timeout` is above 86,400 seconds.
    #[error("the time of a server that drains must be from 0 to 86400 seconds")]
    DrainTimeout,
}

// The first port or count out of its range.
fn count_fault(numbers: ServerNumbers) -> Option<NumberFault>
    ensures fault { result ≡ count_fault numbers }
{
    if numbers.port == 0 {
        Some(NumberFault::Port)
    } else if numbers.passive_first == 0 || numbers.passive_last < numbers.passive_first {
        Some(NumberFault::PassivePorts)
    } else if numbers.lanes == 0 || MOST_LANES < numbers.lanes {
        Some(NumberFault::Lanes)
    } else if numbers.max_cons == 0 || MOST_CONNECTIONS < numbers.max_cons {
        Some(NumberFault::MaxCons)
    } else if MOST_CONNECTIONS < numbers.max_cons_per_address {
        Some(NumberFault::MaxConsPerAddress)
    } else {
        None
    }
}

// The first limit of time above a day.
fn time_fault(patience: Patience) -> Option<NumberFault>
    ensures fault { result ≡ time_fault patience }
{
    if MOST_SECONDS < patience.login_timeout {
        Some(NumberFault::LoginTimeout)
    } else if MOST_SECONDS < patience.idle_timeout {
        Some(NumberFault::IdleTimeout)
    } else if MOST_SECONDS < patience.login_delay {
        Some(NumberFault::LoginDelay)
    } else if MOST_SECONDS < patience.drain_timeout {
        Some(NumberFault::DrainTimeout)
    } else {
        None
    }
}

// The first number of logins out of its range.
fn login_fault(attempts: u32, user_sessions: u32) -> Option<NumberFault>
    ensures fault { result ≡ login_fault attempts user_sessions }
{
    if attempts == 0 || MOST_ATTEMPTS < attempts {
        Some(NumberFault::LoginAttempts)
    } else if MOST_USER_SESSIONS < user_sessions {
        Some(NumberFault::UserSessions)
    } else {
        None
    }
}

/// The first number of a server that is out of its range, if one is: of its ports and counts, of wrong passwords and of the
/// sessions of a user, of its limits of time.
pub(crate) fn number_fault(
    numbers: ServerNumbers,
    attempts: u32,
    user_sessions: u32,
    patience: Patience,
) -> Option<NumberFault>
    ensures fault { result ≡ number_fault numbers attempts user_sessions patience }
{
    if let Some(fault) = count_fault(numbers) {
        return Some(fault);
    }
    if let Some(fault) = login_fault(attempts, user_sessions) {
        return Some(fault);
    }
    time_fault(patience)
}
