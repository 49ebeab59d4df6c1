//! Faults of a server of one's own.

use crate::ranges::NumberFault;
use authorizer::AuthorizerFault;
use ftp_daemon::ServeFault;
use line_rates::LimitsFault;
use server_config::ConfigFault;
use std::alloc::{AllocError, AllocFailed};
use std::io;
use thiserror::Error;
use virtual_tree::StoreFault;

/// The reason for which a server is not as it was to be, or did not serve. The faults of all calls become one by `?`.
///
/// ```text
/// fn main(rt: HostRuntime) -> Result<(), FtpServerFault> {
///     let mut server = FtpServer::at(rt.alloc(), [127, 0, 0, 1], 2121)?;
///     server.users.add_user("ann", "secret", "/", "elradfmw")?;
///     server.serve_folder(&rt, &rt, "/srv/ftp", NoHooks)?;
///     Ok(())
/// }
/// ```
#[derive(Debug, Drop, Error)]
pub enum FtpServerFault {
    /// The configuration is refused.
    #[error("{0}")]
    Config(ConfigFault),
    /// A change to the users is refused.
    #[error("{0}")]
    User(AuthorizerFault),
    /// The rates are refused: one is too large, or a user is in a group that was not added.
    #[error("{0}")]
    Rate(LimitsFault),
    /// A number of the server is out of its range: this one.
    #[error("{0}")]
    Number(NumberFault),
    /// The folder cannot be opened: it is not there, it is no directory, or the machine reports another fault, with its
    /// error if that is known.
    #[error("the folder cannot be opened: {0}")]
    Folder(StoreFault, Option<io::Error>),
    /// The server did not start, or ended with a fault.
    #[error("{0}")]
    Serve(ServeFault),
    /// A file or an output of the program's own failed: for `?` in the program, no call of this crate returns it.
    #[error("{0}")]
    Io(io::Error),
    /// Memory ran out.
    #[error("out of memory")]
    Memory,
}

impl<T: Drop> From<AllocFailed<T>> for FtpServerFault {
    ghost use Rattle.std.specs.Prelude.{◌≡◌};
    ghost use Rattle.ftp_server.specs.declared.fault.FtpServerFault.TheVariants.{Memory};

    ghost from_gives = { λ _ fault. fault ≡ Memory };

    fn from(_error: AllocFailed<T>) -> FtpServerFault {
        FtpServerFault::Memory
    }
}

impl From<AllocError> for FtpServerFault {
    ghost use Rattle.std.specs.Prelude.{◌≡◌};
    ghost use Rattle.ftp_server.specs.declared.fault.FtpServerFault.TheVariants.{Memory};

    ghost from_gives = { λ _ fault. fault ≡ Memory };

    fn from(_error: AllocError) -> FtpServerFault {
        FtpServerFault::Memory
    }
}

impl From<AuthorizerFault> for FtpServerFault {
    ghost use Rattle.std.specs.Prelude.{◌≡◌};
    ghost use Rattle.ftp_server.specs.declared.fault.FtpServerFault.TheVariants.{User};

    ghost from_gives = { λ reason fault. fault ≡ User reason };

    fn from(reason: AuthorizerFault) -> FtpServerFault {
        FtpServerFault::User(reason)
    }
}

impl From<LimitsFault> for FtpServerFault {
    ghost use Rattle.std.specs.Prelude.{◌≡◌};
    ghost use Rattle.ftp_server.specs.declared.fault.FtpServerFault.TheVariants.{Rate};

    ghost from_gives = { λ reason fault. fault ≡ Rate reason };

    fn from(reason: LimitsFault) -> FtpServerFault {
        FtpServerFault::Rate(reason)
    }
}

impl From<ServeFault> for FtpServerFault {
    ghost use Rattle.std.specs.Prelude.{◌≡◌};
    ghost use Rattle.ftp_server.specs.declared.fault.FtpServerFault.TheVariants.{Serve};

    ghost from_gives = { λ reason fault. fault ≡ Serve reason };

    fn from(reason: ServeFault) -> FtpServerFault {
        FtpServerFault::Serve(reason)
    }
}

impl From<ConfigFault> for FtpServerFault {
    ghost use Rattle.std.specs.Prelude.{◌≡◌};
    ghost use Rattle.ftp_server.specs.declared.fault.FtpServerFault.TheVariants.{Config};

    ghost from_gives = { λ reason fault. fault ≡ Config reason };

    fn from(reason: ConfigFault) -> FtpServerFault {
        FtpServerFault::Config(reason)
    }
}

impl From<io::Error> for FtpServerFault {
    ghost use Rattle.std.specs.Prelude.{◌≡◌};
    ghost use Rattle.ftp_server.specs.declared.fault.FtpServerFault.TheVariants.{Io};

    ghost from_gives = { λ reason fault. fault ≡ Io reason };

    fn from(reason: io::Error) -> FtpServerFault {
        FtpServerFault::Io(reason)
    }
}
