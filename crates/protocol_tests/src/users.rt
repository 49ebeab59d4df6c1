//! Calls on users: they succeed, and the clauses mean what they should.

use crate::expect::holds;
use crate::paths::path_of;
use crate::steps::{Change, Known, Step, follow};
use authorizer::{Authorizer, AuthorizerFault};
use ftp_terms::{Letter, Letters};
use std::process::Abort;
use virtual_path::VPath;

fn authorizer(rt: &(impl Abort + AllocGlobal), path: &VPath) -> Result<(), AuthorizerFault> {
    let mut users = Authorizer::new(rt.alloc())?;
    users.add_user("ann", "secret", "/home/ann", "elr")?;
    users.override_perm("ann", "/in", "w", true)?; // and what is below it
    holds(rt, users.check_password("ann", "secret"));
    holds(rt, users.has_perm("ann", Letter::Store, path)); // the path is `/in/f`
    Ok(())
}

/// The letters `elr`.
const READS: Letters = Letters {
    change_directory: true,
    listing: true,
    retrieve: true,
    ..Letters::NONE
};

/// Known properties of a name without a user.
pub(crate) const NOBODY: Known = Known {
    name: "bob",
    number: None,
    group: None,
    home: None,
    letters: None,
    login: None,
    quit: None,
};

/// Known properties of the first user, as added.
pub(crate) const FIRST: Known = Known {
    name: "ann",
    number: Some(0),
    group: None,
    home: Some("/home/ann"),
    letters: Some(READS),
    login: Some("Welcome"),
    quit: Some("Goodbye"),
};

/// An override covers its directory, a recursive one everything beneath; the deepest decides.
const OVERRIDES: &[Step] = &[
    Step::Done(Change::Add("ann", "secret", "/home/ann", "elr")),
    Step::Done(Change::Override("ann", "/in", "w", false)),
    Step::May("ann", "/in", Some("w")),
    Step::May("ann", "/in/f", Some("w")),
    Step::May("ann", "/in/s/f", Some("elr")),
    Step::Done(Change::Override("ann", "/", "a", true)),
    Step::May("ann", "/in/s/f", Some("a")),
    Step::May("ann", "/in/f", Some("w")),
    Step::Done(Change::Override("ann", "in", "d", true)),
    Step::May("ann", "/in/s/f", Some("d")),
    Step::May("ann", "/in/f", Some("d")),
    Step::May("ann", "/", Some("a")),
    Step::Is(FIRST),
    Step::May("bob", "/", None),
];

/// Numbers are not used again, and messages are kept until others are set.
const NUMBERS: &[Step] = &[
    Step::Done(Change::Add("ann", "x", "/home/ann", "elr")),
    Step::Done(Change::Add("bob", "x", "/", "elradfmw")),
    Step::Is(FIRST),
    Step::Is(Known {
        name: "bob",
        number: Some(1),
        home: Some("/"),
        letters: Some(Letters::ALL),
        ..FIRST
    }),
    Step::Done(Change::Remove("bob")),
    Step::Is(NOBODY),
    Step::Done(Change::Add("bob", "y", "/home/ann", "elr")),
    Step::Done(Change::AddAnonymous("/pub", "elr")),
    Step::Is(Known {
        name: "bob",
        number: Some(2),
        ..FIRST
    }),
    Step::Is(Known {
        name: "anonymous",
        number: Some(3),
        home: Some("/pub"),
        ..FIRST
    }),
    Step::Done(Change::Messages("bob", "Hello", "Bye")),
    Step::Is(Known {
        name: "bob",
        number: Some(2),
        login: Some("Hello"),
        quit: Some("Bye"),
        ..FIRST
    }),
    Step::Done(Change::Group("ann", Some(7))),
    Step::Is(Known {
        group: Some(7),
        ..FIRST
    }),
    Step::Done(Change::Group("ann", None)),
    Step::Is(FIRST),
];

const PASSWORDS: &[Step] = &[
    Step::Password("anonymous", "guest", false),
    Step::Done(Change::AddAnonymous("/pub", "elr")),
    Step::Password("anonymous", "guest", true),
    Step::Password("anonymous", "", true),
    Step::Done(Change::Add("ann", "secret", "/home/ann", "elradfmw")),
    Step::Password("ann", "secret", true),
    Step::Password("ann", "secreT", false),
    Step::Password("ann", "secrets", false),
    Step::Password("bob", "secret", false),
];

/// The first refusal that applies is the result.
const REFUSALS: &[Step] = &[
    Step::Done(Change::Add("ann", "secret", "/", "elr")),
    Step::Refused(
        Change::Add("ann", "x", "\t", "x"),
        "there is a user of that name",
    ),
    Step::Refused(
        Change::Add("bob", "x", "\t", "x"),
        "no such permission letter",
    ),
    Step::Refused(Change::Add("bob", "x", "\t", "e"), "not a path"),
    Step::Refused(
        Change::Override("bob", "\t", "x", false),
        "there is no user of that name",
    ),
    Step::Refused(
        Change::Override("ann", "\t", "x", false),
        "no such permission letter",
    ),
    Step::Refused(Change::Override("ann", "\t", "e", false), "not a path"),
    Step::Refused(Change::Remove("bob"), "there is no user of that name"),
    Step::Refused(
        Change::Group("bob", Some(1)),
        "there is no user of that name",
    ),
    Step::Refused(
        Change::Messages("bob", "a", "b"),
        "there is no user of that name",
    ),
    Step::Is(NOBODY),
];

static SCRIPTS: [&[Step]; 4] = [OVERRIDES, NUMBERS, PASSWORDS, REFUSALS];

#[test]
fn users(rt: HostRuntime) {
    authorizer(&rt, &path_of(&rt, rt.alloc(), "/in/f")).expect(&rt, "users");
    for steps in &SCRIPTS {
        let mut users = Authorizer::new(rt.alloc()).expect(&rt, "memory");
        follow(&rt, &mut users, steps);
    }
}
