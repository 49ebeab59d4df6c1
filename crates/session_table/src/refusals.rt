//! Replies with a fixed text that report a failure of a line or of a transfer.

ghost use Rattle.std.specs.Prelude.{◌≡◌};
ghost use Rattle.session_table.specs.Answers.{path_row, refusal_row, store_row};

use virtual_path::PathFault;
use virtual_tree::StoreFault;

/// A reply with a fixed text whose code begins with 4 or 5 (RFC 959, section 4.2.1).
#[derive(Clone, Copy, Debug, PartialEq, Eq)]
pub enum Refusal {
    /// The store refuses.
    Store(StoreFault),
    /// The argument names no path.
    Path(PathFault),
    TooManyLogins,
    TooManyHeldLines,
    NoGuarantee,
    NoDataConnection,
    NoPassivePort,
    NothingPrepared,
    ConnectionLost,
    TransferAborted,
    OnlyExtended,
    ForeignAddress,
    PrivilegedPort,
    OffsetNeedsImage,
    ListsNoFile,
    NoSource,
    OffsetBeforeAppend,
    NoName,
    AlreadyInside,
    OtherProtocol,
    LogInFirst,
    LoginIncorrect,
    NotPermitted,
    SizeNeedsImage,
}

fn store_row(fault: StoreFault) -> (u16, &'static str)
    ensures code { result.0 ≡ (store_row fault).0 }
    ensures text { result.1.now ≡ (store_row fault).1 }
{
    match fault {
        StoreFault::NotFound => (550, "No such file or directory"),
        StoreFault::NotDir => (550, "Not a directory"),
        StoreFault::IsDir => (550, "Is a directory"),
        StoreFault::Exists => (550, "Already exists"),
        StoreFault::NotEmpty => (550, "Directory not empty"),
        StoreFault::Full => (552, "Storage is full"),
        StoreFault::Device => (451, "Local fault"),
        StoreFault::Memory => (451, "Out of memory"),
        StoreFault::PastEnd => (550, "Offset past the end"),
        StoreFault::Inside => (550, "Not possible inside itself"),
    }
}

fn path_row(fault: PathFault) -> (u16, &'static str)
    ensures code { result.0 ≡ (path_row fault).0 }
    ensures text { result.1.now ≡ (path_row fault).1 }
{
    match fault {
        PathFault::BadName => (553, "Bad name"),
        PathFault::TooLong => (553, "Name too long"),
        PathFault::Memory => (451, "Out of memory"),
    }
}

impl Refusal {
    /// Its code and its text.
    pub(crate) fn row(self) -> (u16, &'static str)
        ensures code { result.0 ≡ (refusal_row self).0 }
        ensures text { result.1.now ≡ (refusal_row self).1 }
    {
        match self {
            Refusal::Store(fault) => store_row(fault),
            Refusal::Path(fault) => path_row(fault),
            Refusal::TooManyLogins => (421, "Too many login attempts"),
            Refusal::TooManyHeldLines => (421, "Too many held lines"),
            Refusal::NoGuarantee => (421, "Guaranteed rate not available"),
            Refusal::NoDataConnection => (425, "No data connection"),
            Refusal::NoPassivePort => (425, "No passive port is free"),
            Refusal::NothingPrepared => (425, "Use PASV, EPSV, PORT or EPRT first"),
            Refusal::ConnectionLost => (426, "Connection lost"),
            Refusal::TransferAborted => (426, "Transfer aborted"),
            Refusal::OnlyExtended => (501, "EPSV ALL is in force"),
            Refusal::ForeignAddress => (501, "Foreign address"),
            Refusal::PrivilegedPort => (501, "Privileged port"),
            Refusal::OffsetNeedsImage => (501, "Offset needs TYPE I"),
            Refusal::ListsNoFile => (501, "Not a directory"),
            Refusal::NoSource => (503, "Send RNFR first"),
            Refusal::OffsetBeforeAppend => (503, "REST before APPE"),
            Refusal::NoName => (503, "Send USER first"),
            Refusal::AlreadyInside => (503, "Already logged in"),
            Refusal::OtherProtocol => (522, "Network protocol not supported, use (1)"),
            Refusal::LogInFirst => (530, "Log in first"),
            Refusal::LoginIncorrect => (530, "Login incorrect"),
            Refusal::NotPermitted => (550, "Not permitted"),
            Refusal::SizeNeedsImage => (550, "SIZE needs TYPE I"),
        }
    }
}
