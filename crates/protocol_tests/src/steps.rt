//! Steps of a script on users: changes, and queries with their results.

use crate::expect::{holds, reads, same};
use crate::paths::path_of;
use authorizer::{Authorizer, AuthorizerFault};
use ftp_terms::{Letter, Letters, is_line_text};
use std::alloc::Allocator;
use std::process::Abort;

/// A change to users. The first text of all but `AddAnonymous` is the user's name.
#[derive(Clone, Copy)]
pub(crate) enum Change {
    /// With a password, a home and letters.
    Add(&'static str, &'static str, &'static str, &'static str),
    /// With a home and letters.
    AddAnonymous(&'static str, &'static str),
    Remove(&'static str),
    /// At a path, with letters, and whether they count beneath it too.
    Override(&'static str, &'static str, &'static str, bool),
    /// At login and at the end.
    Messages(&'static str, &'static str, &'static str),
    Group(&'static str, Option<u32>),
}

/// Known properties of the user with a name; `None` if there is no such user.
#[derive(Clone, Copy)]
pub(crate) struct Known {
    pub name: &'static str,
    pub number: Option<u32>,
    pub group: Option<u32>,
    pub home: Option<&'static str>,
    pub letters: Option<Letters>,
    pub login: Option<&'static str>,
    pub quit: Option<&'static str>,
}

#[derive(Clone, Copy)]
pub(crate) enum Step {
    /// A change that is made.
    Done(Change),
    /// A change that is refused, and the text of its fault.
    Refused(Change, &'static str),
    Is(Known),
    /// A name, a path, and the user's letters there, if there is such a user.
    May(&'static str, &'static str, Option<&'static str>),
    /// A name, a password, and whether the user may log in with it.
    Password(&'static str, &'static str, bool),
}

/// Carries out a change.
pub(crate) fn make_change<A: Allocator + Clone>(
    rt: &impl Abort,
    users: &mut Authorizer<A>,
    change: Change,
) -> Result<(), AuthorizerFault> {
    match change {
        Change::Add(name, password, home, letters) => users.add_user(name, password, home, letters),
        Change::AddAnonymous(home, letters) => users.add_anonymous(home, letters),
        Change::Remove(name) => users.remove_user(name),
        Change::Override(name, path, letters, deep) => {
            users.override_perm(name, path, letters, deep)
        }
        Change::Messages(name, login, quit) => {
            holds(rt, is_line_text(login));
            holds(rt, is_line_text(quit));
            users.set_messages(name, login, quit)
        }
        Change::Group(name, group) => users.set_group(name, group),
    }
}

/// The user with a name has these properties.
fn check_known<A: Allocator + Clone>(rt: &impl Abort, users: &Authorizer<A>, known: &Known) {
    let name = known.name;
    same(rt, &users.has_user(name), &known.number.is_some());
    same(rt, &users.number(name), &known.number);
    same(rt, &users.group(name), &known.group);
    let home = match users.home(name) {
        Some(home) => Some(home.text()),
        None => None,
    };
    same(rt, &home, &known.home);
    same(rt, &users.perms(name), &known.letters);
    same(rt, &users.msg_login(name), &known.login);
    same(rt, &users.msg_quit(name), &known.quit);
}

static LETTERS: [Letter; 8] = [
    Letter::ChangeDirectory,
    Letter::Listing,
    Letter::Retrieve,
    Letter::AppendTo,
    Letter::Delete,
    Letter::Rename,
    Letter::MakeDirectory,
    Letter::Store,
];

/// A user has exactly these letters at a path.
fn check_letters<A: Allocator + Clone>(
    rt: &(impl Abort + AllocGlobal),
    users: &Authorizer<A>,
    name: &str,
    path: &str,
    letters: Option<&str>,
) {
    let path = path_of(rt, rt.alloc(), path);
    let letters = match letters {
        Some(text) => Letters::read(text),
        None => None,
    };
    same(rt, &users.letters_at(name, &path), &letters);
    for letter in &LETTERS {
        let held = letters.unwrap_or(Letters::NONE).holds(*letter);
        same(rt, &users.has_perm(name, *letter, &path), &held);
    }
}

/// A change succeeds, or is refused for a fault with this text.
fn check_change<A: Allocator + Clone>(
    rt: &(impl Abort + AllocGlobal),
    users: &mut Authorizer<A>,
    change: Change,
    fault: Option<&str>,
) {
    match (make_change(rt, users, change), fault) {
        (Ok(()), None) => {}
        (Err(found), Some(wanted)) => reads(rt, &found, wanted),
        _ => panic!(rt; "a change that is made, or one that is refused"),
    }
}

/// Carries out one step, and stops the test if its result is wrong.
pub(crate) fn take<A: Allocator + Clone>(
    rt: &(impl Abort + AllocGlobal),
    users: &mut Authorizer<A>,
    step: &Step,
) {
    match *step {
        Step::Done(change) => check_change(rt, users, change, None),
        Step::Refused(change, fault) => check_change(rt, users, change, Some(fault)),
        Step::Is(known) => check_known(rt, users, &known),
        Step::May(name, path, letters) => check_letters(rt, users, name, path, letters),
        Step::Password(name, password, answer) => {
            same(rt, &users.check_password(name, password), &answer)
        }
    }
}

/// Carries out steps, one after another.
pub(crate) fn follow<A: Allocator + Clone>(
    rt: &(impl Abort + AllocGlobal),
    users: &mut Authorizer<A>,
    steps: &[Step],
) {
    for step in steps {
        take(rt, users, step);
    }
}
