//! The patience of a server, and the words that state it.

ghost use Rattle.std.specs.Prelude.{◌≡◌, IfErr, IfOk};
ghost use Rattle.clap.specs.Words.{found_of, rows_of};
ghost use Rattle.command_line.specs.Numbers.{IsNumberOr, IsUnnumberedBy};
ghost use Rattle.command_line.specs.Timed.{IsPatienceIn, IsUntimedIn, usual_patience as the_usual};

use crate::numbers::{NumberForm, number_or};
use crate::words::WordsFault;
use clap::ArgMatches;
use client_patience::Patience;
use std::alloc::Global;

/// Seconds without a login after which a connection is closed, unless the words state others.
pub const LOGIN_TIMEOUT: u32 = 60;

/// Seconds without a command after which a session is closed, unless the words state others: it is not closed.
pub const IDLE_TIMEOUT: u32 = 0;

/// Seconds before the reply to a wrong password, unless the words state others.
pub const LOGIN_DELAY: u32 = 1;

/// Seconds that a server which drains has for the transfers that run, unless the words state others: it has no limit.
pub const DRAIN_TIMEOUT: u32 = 0;

/// The patience of words that state none.
pub(crate) fn usual_patience() -> Patience
    ensures usual { result ≡ the_usual }
{
    Patience {
        login_timeout: LOGIN_TIMEOUT,
        idle_timeout: IDLE_TIMEOUT,
        login_delay: LOGIN_DELAY,
        drain_timeout: DRAIN_TIMEOUT,
    }
}

/// The seconds that an option states, or the default if it is not given.
fn seconds_of(
    alloc: Global,
    inner: &ArgMatches<'_>,
    option: &str,
    default: u32,
) -> Result<u32, WordsFault>
    ensures seconds { IfOk result
        (IsNumberOr NumberForm.Seconds default option.now (rows_of (found_of inner.now))) }
    ensures refused { IfErr result
        (IsUnnumberedBy NumberForm.Seconds option.now (rows_of (found_of inner.now))) }
{
    number_or(alloc, inner, NumberForm::Seconds, option, default)
}

/// The patience that the arguments of a command state.
pub(crate) fn patience_of(alloc: Global, inner: &ArgMatches<'_>) -> Result<Patience, WordsFault>
    ensures patience { IfOk result (IsPatienceIn (rows_of (found_of inner.now))) }
    ensures refused { IfErr result (IsUntimedIn (rows_of (found_of inner.now))) }
{
    let login_timeout = seconds_of(alloc, inner, "login-timeout", LOGIN_TIMEOUT)?;
    let idle_timeout = seconds_of(alloc, inner, "idle-timeout", IDLE_TIMEOUT)?;
    let login_delay = seconds_of(alloc, inner, "login-delay", LOGIN_DELAY)?;
    let drain_timeout = seconds_of(alloc, inner, "drain-seconds", DRAIN_TIMEOUT)?;
    Ok(Patience {
        login_timeout,
        idle_timeout,
        login_delay,
        drain_timeout,
    })
}
