//! Options of a server that have no effect.

ghost use Rattle.std.specs.Prelude.{◌≡◌, ◌↔◌, IsTrue, true};
ghost use Rattle.ftpd_program.specs.IdleOptions.{idle_sessions, idle_sync};
ghost use Rattle.sheets_program.specs.Runs.{IsInput};

use sheets_program::is_input;
use std::fmt;

/// An option that has no effect with a configuration. It prints as a warning, without its end.
#[derive(Clone, Copy, Debug, PartialEq, Eq)]
pub enum IdleOption {
    /// Files that are received are to be written to the device, and the store is in memory.
    Sync,
    /// A user may be logged in as many times as clients may connect.
    UserSessions { sessions: u32, connections: u16 },
}

impl fmt::Display for IdleOption {
    ghost use Rattle.std.specs.Prelude.{Some};
    ghost use Rattle.ftpd_program.specs.IdleOptions.{idle_text};

    ghost output = { λ option. Some (idle_text option) };

    fn fmt<W: fmt::Write>(&self, f: &mut fmt::Formatter<W>) -> fmt::Result {
        match self {
            IdleOption::Sync => f.write_str("--sync has no effect on a store in memory"),
            IdleOption::UserSessions {
                sessions,
                connections,
            } => write!(
                f,
                "--user-sessions {sessions} has no effect: max_cons is {connections}"
            ),
        }
    }
}

/// Returns `--sync` if it is stated and the store is in memory.
pub fn idle_sync(syncs: bool, is_in_memory: bool) -> Option<IdleOption>
    ensures idle { result ≡ idle_sync syncs is_in_memory }
{
    if syncs && is_in_memory {
        Some(IdleOption::Sync)
    } else {
        None
    }
}

/// Returns `--user-sessions` if a number is stated, which 0 is not, that is not below the number of connections.
pub fn idle_sessions(sessions: u32, connections: u16) -> Option<IdleOption>
    ensures idle { result ≡ idle_sessions sessions connections }
{
    if sessions != 0 && u32::from(connections) <= sessions {
        Some(IdleOption::UserSessions {
            sessions,
            connections,
        })
    } else {
        None
    }
}

/// Returns whether a reload file is stated of a server whose configuration is standard input, which cannot be read again.
pub fn reads_input_again(config: &str, has_reload_file: bool) -> bool
    ensures again { IsTrue result ↔ (IsInput config.now × (has_reload_file ≡ true)) }
{
    has_reload_file && is_input(config)
}
