//! The rule of a command: its conditions, and its row by name.

use crate::notices::Notice;
use ftp_terms::{DataType, Letter};
use ftp_wire::{ExtendedPassive, ExtendedPort, FeatureOption, HostPort};

/// The fate of a line while a transfer runs or a passive port is awaited.
#[derive(Clone, Copy, Debug)]
pub enum Meanwhile {
    /// It is held, and served later.
    Waits,
    /// It is served at once.
    Served,
    /// QUIT waits for the end, and later lines are ignored.
    QuitsLater,
}

/// The conditions of a command: each one up to `moves_data` that is not met is a refusal.
#[derive(Clone, Copy, Debug)]
pub struct Conditions {
    /// A user is logged in.
    pub needs_login: bool,
    /// RNFR named a path.
    pub needs_source: bool,
    /// The offset is 0.
    pub needs_no_offset: bool,
    /// EPSV ALL is not in force (RFC 2428, section 4).
    pub needs_plain: bool,
    /// A data connection is prepared: the command moves octets over it.
    pub moves_data: bool,
    /// The path that RNFR named is not forgotten.
    pub keeps_source: bool,
    pub meanwhile: Meanwhile,
}

/// A row on logins, with a text `T`.
#[derive(Clone, Copy)]
pub enum LoginRow<T> {
    User(T),
    Pass(T),
    Quit,
    Rein,
}

/// Any other row without a path.
#[derive(Clone, Copy)]
pub enum StateRow {
    /// A reply with a fixed text.
    Note(Notice),
    Feat,
    Opts(FeatureOption),
    Type(DataType),
    Rest(u64),
    Port(HostPort),
    Eprt(ExtendedPort),
    Pasv,
    Epsv(ExtendedPassive),
    Pwd,
    /// STAT without an argument.
    Status,
    Abor,
}

/// The style of a listing.
#[derive(Clone, Copy, Debug, PartialEq, Eq)]
pub enum Style {
    /// The style of `ls -l`.
    LongLines,
    Names,
    /// The facts in force (RFC 3659, section 7).
    FactLines,
}

/// A row at a location.
#[derive(Clone, Copy)]
pub enum FileRow {
    Cwd,
    Mkd,
    Rmd,
    Dele,
    Rnfr,
    Rnto,
    Size,
    Mdtm,
    /// STAT with an argument.
    Stat,
    Mlst,
    /// LIST and NLST.
    List(Style),
    Mlsd,
    Retr,
    Stor,
    Appe,
}

/// A row at the location of a text `T`, for users who have the letter there.
#[derive(Clone, Copy)]
pub struct LocatedRow<T> {
    pub letter: Letter,
    pub text: T,
    pub row: FileRow,
}

/// The name of a row.
#[derive(Clone, Copy)]
pub enum NamedRow<T> {
    Login(LoginRow<T>),
    State(StateRow),
    At(LocatedRow<T>),
}

/// The rule of a command.
#[derive(Clone, Copy)]
pub struct Rule<T> {
    pub conditions: Conditions,
    pub row: NamedRow<T>,
}
