//! Commands of a control connection.

use ftp_terms::{DataType, Facts};

/// A command with its argument read, its texts of type `T`: one variant for each served code (RFC 959,
/// section 5.3.1; RFC 2428, sections 2 and 3; RFC 3659; RFC 2389).
///
/// Texts are UTF-8 without control characters (octets below 32, and 127), and never only spaces.
///
/// There is no `Debug`, so that nothing prints a password.
#[derive(Drop)]
pub enum Command<T> {
    /// USER: the user's name.
    User(T),
    /// PASS: the password.
    Pass(Option<T>),
    /// CWD and XCWD: the directory to go to.
    Cwd(T),
    /// CDUP and XCUP: go to the directory above.
    Cdup,
    /// QUIT: end the session.
    Quit,
    /// REIN: start the session anew.
    Rein,
    /// TYPE: the representation of octets.
    SetType(DataType),
    /// MODE S, the only mode served.
    Mode,
    /// STRU F, the only structure served.
    Stru,
    /// PORT: the address to connect to.
    Port(HostPort),
    /// EPRT: the same, with a network protocol.
    Eprt(ExtendedPort),
    /// PASV: open a passive port.
    Pasv,
    /// EPSV: the same, with a network protocol.
    Epsv(ExtendedPassive),
    /// RETR: the file to send.
    Retr(T),
    /// STOR: the file to receive.
    Stor(T),
    /// APPE: the file to append to.
    Appe(T),
    /// REST: an offset in octets, below 10^19.
    Rest(u64),
    /// RNFR: the file or directory to rename.
    Rnfr(T),
    /// RNTO: its new name.
    Rnto(T),
    /// ABOR: abort the transfer.
    Abor,
    /// DELE: the file to remove.
    Dele(T),
    /// RMD and XRMD: the directory to remove.
    Rmd(T),
    /// MKD and XMKD: the directory to make.
    Mkd(T),
    /// PWD and XPWD: print the current directory.
    Pwd,
    /// SIZE: the file to measure.
    Size(T),
    /// MDTM: the file whose modification time is wanted.
    Mdtm(T),
    /// LIST: the path to list; the current directory if there is none.
    List(Option<T>),
    /// NLST: the same, names only.
    Nlst(Option<T>),
    /// MLSD: the directory to list.
    Mlsd(Option<T>),
    /// MLST: the path of the entry to show.
    Mlst(Option<T>),
    /// STAT: the path to list; the state of the transfer if there is none.
    Stat(Option<T>),
    /// OPTS: an option of a feature.
    Opts(FeatureOption),
    /// FEAT: list the features.
    Feat,
    /// ALLO: the amount, as text.
    Allo(Option<T>),
    /// SYST: name the system.
    Syst,
    /// HELP: the topic, as text.
    Help(Option<T>),
    /// NOOP: do nothing.
    Noop,
}

/// An IPv4 host and a port (RFC 959, section 5.3.2).
#[derive(Clone, Copy, Debug, PartialEq, Eq)]
pub struct HostPort {
    pub address: [u8; 4],
    pub port: u16,
}

/// The argument of EPRT (RFC 2428, section 2).
#[derive(Clone, Copy, Debug, PartialEq, Eq)]
pub enum ExtendedPort {
    /// Protocol 1.
    Ipv4(HostPort),
    /// Another protocol by its number; address and port are ignored. A number above 65,535 is stored
    /// as 65,535.
    Unsupported(u16),
}

/// The argument of EPSV (RFC 2428, section 3).
#[derive(Clone, Copy, Debug, PartialEq, Eq)]
pub enum ExtendedPassive {
    /// No argument: the protocol of the control connection.
    Same,
    /// ALL: no other command will set up a data connection.
    All,
    /// A protocol by its number; one above 65,535 is stored as 65,535.
    Protocol(u16),
}

/// The argument of OPTS (RFC 2389, section 4).
#[derive(Clone, Copy, Debug, PartialEq, Eq)]
pub enum FeatureOption {
    /// UTF8 ON.
    Utf8On,
    /// MLST with the facts requested.
    Mlst(Facts),
}
