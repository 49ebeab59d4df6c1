//! Warnings: settings that are accepted and have no use, or another use than they seem to have.

use crate::floors::Shortage;
use crate::letters::{Permitted, rest_word};
use std::fmt;

/// A setting that is accepted and has no use. It prints as one line, without its end.
#[derive(Clone, Copy, Debug, PartialEq, Eq)]
pub enum Warning<'a> {
    /// The root is the word `memory` in other letters, and so the path of a folder.
    NearlyMemory {
        root: &'a str,
    },
    /// The root is a path that does not begin with `/`.
    RelativeRoot {
        root: &'a str,
    },
    /// There is nothing at the path of the folder.
    AbsentRoot {
        root: &'a str,
    },
    /// There is something at the path of the folder that is none.
    NoFolderRoot {
        root: &'a str,
    },
    /// The folder cannot be seen, or its entries cannot be listed.
    ClosedRoot {
        root: &'a str,
    },
    /// No particular address for passive connections is stated, so each client is told the one that it reached.
    NoAddress,
    /// Passive ports, from the first to the last of these, are among those that the machine takes for its own
    /// connections.
    OwnPorts {
        first: u16,
        last: u16,
    },
    /// The port of control connections is among the passive ports, from the first to the last of these.
    PortAmongPassive {
        port: u16,
        first: u16,
        last: u16,
    },
    /// There are fewer passive ports than connections.
    FewPorts {
        first: u16,
        last: u16,
        connections: u16,
    },
    /// Fewer transfers run at once than there may be connections.
    FewLanes {
        lanes: u16,
        connections: u16,
    },
    /// A session that is guaranteed a rate may have to wait for a lane.
    GuaranteesWait {
        lanes: u16,
    },
    /// A session of each user cannot have its guarantee downwards at once.
    PromisedDown {
        promised: u64,
        rate: u64,
    },
    /// A session of each user cannot have its guarantee upwards at once.
    PromisedUp {
        promised: u64,
        rate: u64,
    },
    /// A session of each user cannot have its guarantees at once, both ways together.
    PromisedBoth {
        promised: u64,
        rate: u64,
    },
    /// No user is stated.
    NoUser,
    /// A user's name is empty.
    NoName,
    /// A user's name begins or ends with a blank.
    BlankName {
        user: &'a str,
    },
    /// The configuration has passwords, and everybody may read its file.
    PublicPasswords,
    /// The user's password is empty.
    NoPassword {
        user: &'a str,
    },
    /// The user's letters do not permit to change directories and to list them.
    Unbrowsed {
        user: &'a str,
        letters: &'a str,
    },
    /// Not even the first session of the user can have its guarantee.
    NoFirstSession {
        user: &'a str,
        why: Shortage<'a>,
    },
    /// A second session of the user cannot have the guarantee of the first.
    NoSecondSession {
        user: &'a str,
        why: Shortage<'a>,
    },
    /// The user's home is no directory of the store.
    NoHome {
        user: &'a str,
        home: &'a str,
    },
    /// The line is to be shared among users, and all sessions of `anonymous`, perhaps of several people, are one user.
    OneUser {
        user: &'a str,
    },
}

impl fmt::Display for Warning<'_> {
    ghost use Rattle.std.specs.Prelude.{Some};
    ghost use Rattle.config_report.specs.Lines.{warning_text};

    ghost output = { λ w. Some (warning_text w) };

    fn fmt<W: fmt::Write>(&self, f: &mut fmt::Formatter<W>) -> fmt::Result {
        match self {
            Warning::NearlyMemory { root } => write!(
                f,
                "{root} is the path of a folder; the word for a store in memory is memory"
            ),
            Warning::RelativeRoot { root } => write!(
                f,
                "the folder {root} is sought where the program is started; state a path that begins with /"
            ),
            Warning::AbsentRoot { root } => write!(f, "the folder {root} is not there"),
            Warning::NoFolderRoot { root } => write!(f, "{root} is no folder"),
            Warning::ClosedRoot { root } => write!(f, "the folder {root} cannot be listed"),
            Warning::NoAddress => write!(
                f,
                "clients are told the address that they reached; behind a router state masquerade_address"
            ),
            Warning::OwnPorts { first, last } => write!(
                f,
                "the machine takes ports 32768 to 60999 for its own connections; passive ones are {first} to {last}"
            ),
            Warning::PortAmongPassive { port, first, last } => write!(
                f,
                "port {port} is that of control connections and among the passive ports, {first} to {last}: no client is told it"
            ),
            Warning::FewPorts {
                first,
                last,
                connections,
            } => write!(
                f,
                "{connections} connections have fewer passive ports, {first} to {last}"
            ),
            Warning::FewLanes { lanes, connections } => write!(
                f,
                "{connections} connections have fewer lanes, {lanes}: while as many transfers run, listings and transfers of others wait"
            ),
            Warning::GuaranteesWait { lanes } => write!(
                f,
                "a session gets what it is guaranteed while its transfer has a lane, and may wait for one: lanes = {lanes}"
            ),
            Warning::PromisedDown { promised, rate } => write!(
                f,
                "a session of each user is guaranteed {promised} down in all, and the rate is {rate}: not all of them can be logged in at once"
            ),
            Warning::PromisedUp { promised, rate } => write!(
                f,
                "a session of each user is guaranteed {promised} up in all, and the rate is {rate}: not all of them can be logged in at once"
            ),
            Warning::PromisedBoth { promised, rate } => write!(
                f,
                "a session of each user is guaranteed {promised} both ways in all, and the rate is {rate}: not all of them can be logged in at once"
            ),
            Warning::NoUser => write!(f, "no user is stated, so nobody can log in"),
            Warning::NoName => write!(f, "the name of a user is empty, so nobody can log in by it"),
            Warning::BlankName { user } => {
                write!(f, "user {user}: the name begins or ends with a blank")
            }
            Warning::PublicPasswords => write!(
                f,
                "everybody on this machine may read the passwords of this file; make it readable by its owner and group alone"
            ),
            Warning::NoPassword { user } => {
                write!(
                    f,
                    "user {user}: the password is empty, and anybody may log in"
                )
            }
            Warning::Unbrowsed { user, letters } => write!(
                f,
                "user {user}: clients need the letters e and l; permitted: {}{}",
                Permitted(letters),
                rest_word(letters)
            ),
            Warning::NoFirstSession { user, why } => write!(
                f,
                "user {user}: not even the first session can be guaranteed what each is, and no login is accepted: {why}"
            ),
            Warning::NoSecondSession { user, why } => write!(
                f,
                "user {user}: a second session cannot be guaranteed what each is: {why}"
            ),
            Warning::NoHome { user, home } => {
                write!(f, "{home}, the home of user {user}, is no directory")
            }
            Warning::OneUser { user } => write!(
                f,
                "user {user}: all its sessions are one user, and share one part in each direction"
            ),
        }
    }
}
