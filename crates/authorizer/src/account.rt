//! Stored users.

ghost use Rattle.std.specs.Prelude.{◌≡◌};
ghost use Rattle.ftp_terms.specs.Lines.{IsLine};
ghost use Rattle.authorizer.specs.Stored.{user_of};

use ftp_terms::{Letters, LineText};
use std::alloc::Allocator;
use std::collections::BTreeMap;
use virtual_path::VPath;

/// The letters at a path, and whether they apply to everything beneath it.
#[derive(Clone, Copy, Debug)]
pub(crate) struct Rule {
    pub letters: Letters,
    pub recursive: bool,
}

#[derive(Drop)]
pub(crate) struct Account<A: Allocator> {
    pub number: u32,
    pub password: String<A>,
    pub home: VPath<A>,
    pub letters: Letters,
    // none until the first messages are set
    pub login: Option<LineText<A>>,
    pub quit: Option<LineText<A>>,
    // keyed by the texts of their paths
    pub overrides: BTreeMap<String<A>, Rule, A>,
    pub group: Option<u32>,
}

/// The user's message at login.
pub(crate) fn login_of<A: Allocator>(account: &Account<A>) -> &str
    ensures login { result.now ≡ (user_of account.now).login }
    ensures line { IsLine result.now }
{
    match &account.login {
        Some(text) => text.as_str(),
        None => "Welcome",
    }
}

/// The user's message at the end.
pub(crate) fn quit_of<A: Allocator>(account: &Account<A>) -> &str
    ensures quit { result.now ≡ (user_of account.now).quit }
    ensures line { IsLine result.now }
{
    match &account.quit {
        Some(text) => text.as_str(),
        None => "Goodbye",
    }
}
