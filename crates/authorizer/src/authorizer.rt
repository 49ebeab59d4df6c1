//! The users.

ghost use Rattle.std.specs.Prelude.{◌≡◌, ◌≢◌, ◌≤◌, ◌^◌, [], IfOk, IfSome, MatchResult, Some, None, Ok, Err, codes};
ghost use Rattle.std.specs.FinMap as map;
ghost use Rattle.std.specs.Option.{option_map, option_copied, option_and_then};
ghost use Rattle.std.specs.String.{string_bytes};
ghost use Rattle.memory_terms.specs.Lack.{LeavesDefined, Unless};
ghost use Rattle.virtual_path.specs.Path.{Path, resolved};
ghost use Rattle.ftp_terms.specs.Letters.{letters_of};
ghost use Rattle.ftp_terms.specs.Lines.{IsLine};
ghost use Rattle.authorizer.specs.Users.{allowed, letters_at};
ghost use Rattle.authorizer.specs.Stored.{user_of};
ghost use Rattle.authorizer.specs.Changes.{added, placed, new_user, removed, overridden, with_messages, with_group, is_password};
ghost use Rattle.authorizer.specs.Renumbered.{regrouped, renumbered};
ghost use Rattle.std.specs.Prelude.{map as map_list};

use crate::account::{Account, Rule, login_of, quit_of};
use crate::allowed::letters_at;
use crate::fault::AuthorizerFault;
use crate::password::is_same_password;
use crate::renumber::{names, new_numbers, planned, regroup, renumber};
use crate::table;
use ftp_terms::{Letter, Letters, LineText};
use std::alloc::{AllocError, Allocator, Global};
use std::collections::BTreeMap;
use std::marker::Model;
use virtual_path::{PathFault, VPath};

/// Number of numbers that users can have.
const MOST_NUMBERS: u64 = 4_294_967_296;

/// The users of a server.
#[derive(Drop)]
pub struct Authorizer<A: Allocator = Global> {
    accounts: BTreeMap<String<A>, Account<A>, A>,
    // the number of the next user
    next: u64,
    alloc: A,
}

impl<A: Allocator> Model for Authorizer<A> {
    ghost use Rattle.std.specs.Prelude.{◌≤◌, ◌^◌};
    ghost use Rattle.authorizer.specs.Users.{Accounts};
    ghost use Rattle.authorizer.specs.Stored.{accounts_code, map_of, user_of};

    ghost Value = { Accounts };

    ghost coded = { accounts_code };

    ghost view = { λ inside.
        record { users = map_of user_of inside.accounts; next = inside.next } };

    ghost invariant = { λ inside. inside.next ≤ 2 ^ 32 };
}

impl<A: Allocator + Clone> Authorizer<A> {
    /// An authorizer without users.
    pub fn new(alloc: A) -> Result<Authorizer<A>, AllocError>
        ensures none { IfOk result
            (λ authorizer. authorizer ≡ record { users = map.empty; next = 0 }) }
    {
        let accounts = BTreeMap::new(alloc.clone()?);
        Ok(Authorizer {
            accounts,
            next: 0,
            alloc,
        })
    }

    /// Adds a user. Home and letters are read from texts: the home from the root, the letters as in `elr`.
    pub fn add_user(
        &mut self,
        name: &str,
        password: &str,
        home: &str,
        letters: &str,
    ) -> Result<(), AuthorizerFault>
        ensures users { LeavesDefined AuthorizerFault.Memory self.old result self.new
            (added self.old name.now password.now home.now letters.now) }
    {
        if self.has_user(name) {
            return Err(AuthorizerFault::UserExists);
        }
        let letters = read_letters(letters)?;
        let home = read_path(self.alloc.clone()?, home)?;
        let account = new_account(self.alloc.clone()?, password, home, letters)?;
        let key = String::from_str(self.alloc.clone()?, name)?;
        self.admit(key, account)
    }

    /// Adds the account with the next number.
    fn admit(&mut self, name: String<A>, account: Account<A>) -> Result<(), AuthorizerFault>
        ensures users { LeavesDefined AuthorizerFault.Memory self.old result self.new
            (placed self.old (string_bytes name)
            (record (user_of account) { number = self.old.next })) }
    {
        let Ok(number) = u32::try_from(self.next) else {
            return Err(AuthorizerFault::NoNumber);
        };
        let numbered = Account { number, ..account };
        table::place(&mut self.accounts, name, numbered)?;
        self.next += 1;
        Ok(())
    }

    /// Adds the user `anonymous`, who has every password.
    pub fn add_anonymous(&mut self, home: &str, letters: &str) -> Result<(), AuthorizerFault>
        ensures users { LeavesDefined AuthorizerFault.Memory self.old result self.new
            (added self.old (codes "anonymous") [] home.now letters.now) }
    {
        self.add_user("anonymous", "", home, letters)
    }

    pub fn remove_user(&mut self, name: &str) -> Result<(), AuthorizerFault>
        ensures users { MatchResult result (λ _. removed self.old name.now ≡ Ok self.new)
            (λ fault. (self.new ≡ self.old) × (removed self.old name.now ≡ Err fault)) }
    {
        if !table::remove(&mut self.accounts, name) {
            return Err(AuthorizerFault::NoSuchUser);
        }
        Ok(())
    }

    /// Sets the letters of a user at a path and at the entries directly in it, or, if `recursive`, at everything
    /// beneath it. At each path, only the deepest override that covers it decides.
    pub fn override_perm(
        &mut self,
        name: &str,
        path: &str,
        letters: &str,
        recursive: bool,
    ) -> Result<(), AuthorizerFault>
        ensures users { LeavesDefined AuthorizerFault.Memory self.old result self.new
            (overridden self.old name.now path.now letters.now recursive) }
    {
        if !self.has_user(name) {
            return Err(AuthorizerFault::NoSuchUser);
        }
        let letters = read_letters(letters)?;
        let path = read_path(self.alloc.clone()?, path)?;
        let text = String::from_str(self.alloc.clone()?, path.text())?;
        table::override_path(&mut self.accounts, name, text, Rule { letters, recursive })
    }

    /// Sets the messages of a user at login and at the end, each a one-line text; `is_line_text` of `ftp_terms` is the
    /// test.
    pub fn set_messages(
        &mut self,
        name: &str,
        login: &str,
        quit: &str,
    ) -> Result<(), AuthorizerFault>
        requires login { IsLine login.now }
        requires quit { IsLine quit.now }
        ensures users { LeavesDefined AuthorizerFault.Memory self.old result self.new
            (with_messages self.old name.now login.now quit.now) }
    {
        if !self.has_user(name) {
            return Err(AuthorizerFault::NoSuchUser);
        }
        let login = String::from_str(self.alloc.clone()?, login)?;
        let quit = String::from_str(self.alloc.clone()?, quit)?;
        let (login, quit) = (LineText::made(login), LineText::made(quit));
        table::set_messages(&mut self.accounts, name, login, quit)
    }

    /// Puts a user into a group, or into none.
    pub fn set_group(&mut self, name: &str, group: Option<u32>) -> Result<(), AuthorizerFault>
        ensures users { MatchResult result (λ _. with_group self.old name.now group ≡ Ok self.new)
            (λ fault. (self.new ≡ self.old) × (with_group self.old name.now group ≡ Err fault)) }
    {
        table::set_group(&mut self.accounts, name, group)
    }

    /// Gives each user whose name an earlier authorizer has the number that it has there, and each other user a number
    /// that nobody had there: those from its next number on, in the order of the numbers before. Everything else of each
    /// user stays. The next user gets the number after all of these.
    pub fn keep_numbers<B: Allocator>(
        &mut self,
        earlier: &Authorizer<B>,
    ) -> Result<(), AuthorizerFault>
        ensures users { LeavesDefined AuthorizerFault.Memory self.old result self.new
            (renumbered self.old earlier.now) }
    {
        let numbers = new_numbers(self.alloc.clone()?, &self.accounts, &earlier.accounts)?;
        let next = earlier.next + numbers.len() as u64;
        if next > MOST_NUMBERS {
            return Err(AuthorizerFault::NoNumber);
        }
        let alloc = self.alloc.clone()?;
        let plan = planned(
            alloc,
            &self.accounts,
            &earlier.accounts,
            earlier.next,
            &numbers,
        )?;
        renumber(&mut self.accounts, &plan);
        self.next = next;
        Ok(())
    }

    /// Gives each user in a group the number that `numbers` has at the place of their group's number; a number beyond
    /// the list stays. Everything else stays.
    pub fn renumber_groups(&mut self, numbers: &[u32]) -> Result<(), AuthorizerFault>
        ensures users { LeavesDefined AuthorizerFault.Memory self.old result self.new
            (Ok (regrouped numbers.now self.old)) }
    {
        let names = names(self.alloc.clone()?, &self.accounts)?;
        regroup(&mut self.accounts, &names, numbers);
        Ok(())
    }

    /// The names of all users, in their order, octet by octet.
    pub fn names<B: Allocator + Clone>(&self, alloc: B) -> Result<Vec<String<B>, B>, AllocError>
        ensures names { IfOk result
            (λ names. map_list string_bytes names.items ≡ map.keys self.now.users) }
    {
        names(alloc, &self.accounts)
    }

    pub fn has_user(&self, name: &str) -> bool
        ensures has { result ≡ map.contains_key self.now.users name.now }
    {
        table::find(&self.accounts, name).is_some()
    }

    /// Returns whether a user may log in with a password. `false` if there is no such user; the user `anonymous` may
    /// log in with any password.
    pub fn check_password(&self, name: &str, password: &str) -> bool
        ensures password { result ≡ is_password self.now.users name.now password.now }
    {
        match table::find(&self.accounts, name) {
            Some(account) => name == "anonymous"
                || is_same_password(password, account.password.as_str()),
            None => false,
        }
    }

    /// Returns whether a user has a letter at a path.
    pub fn has_perm<B: Allocator>(&self, user: &str, letter: Letter, path: &VPath<B>) -> bool
        ensures allowed { result ≡ allowed self.now.users user.now letter path.now }
    {
        match table::find(&self.accounts, user) {
            Some(account) => letters_at(account, path).holds(letter),
            None => false,
        }
    }

    /// All letters of a user at a path, found in one walk from the path up to the root.
    pub fn letters_at<B: Allocator>(&self, user: &str, path: &VPath<B>) -> Option<Letters>
        ensures letters { result
            ≡ option_map (λ user. letters_at user path.now) (map.get self.now.users user.now) }
    {
        let account = table::find(&self.accounts, user)?;
        Some(letters_at(account, path))
    }

    /// The number of a user. Users are numbered as they are added, and no number is used twice.
    pub fn number(&self, name: &str) -> Option<u32>
        ensures number { result
            ≡ option_map (λ user. user.number) (map.get self.now.users name.now) }
    {
        let account = table::find(&self.accounts, name)?;
        Some(account.number)
    }

    /// The letters of a user at paths that no override covers.
    pub fn perms(&self, name: &str) -> Option<Letters>
        ensures letters { result
            ≡ option_map (λ user. user.letters) (map.get self.now.users name.now) }
    {
        let account = table::find(&self.accounts, name)?;
        Some(account.letters)
    }

    /// The group of a user, if they are in one.
    pub fn group(&self, name: &str) -> Option<u32>
        ensures group { result
            ≡ option_and_then (λ user. user.group) (map.get self.now.users name.now) }
    {
        let account = table::find(&self.accounts, name)?;
        account.group
    }

    /// The home of a user: the root of the paths that the user sees.
    pub fn home(&self, name: &str) -> Option<&VPath<A>>
        ensures home { option_copied result
            ≡ option_map (λ user. user.home) (map.get self.now.users name.now) }
    {
        let account = table::find(&self.accounts, name)?;
        Some(&account.home)
    }

    /// The message of a user at login, a one-line text.
    pub fn msg_login(&self, name: &str) -> Option<&str>
        ensures login { option_copied result
            ≡ option_map (λ user. user.login) (map.get self.now.users name.now) }
        ensures line { IfSome result (λ text. IsLine text.now) }
    {
        let account = table::find(&self.accounts, name)?;
        Some(login_of(account))
    }

    /// The message of a user at the end, a one-line text.
    pub fn msg_quit(&self, name: &str) -> Option<&str>
        ensures quit { option_copied result
            ≡ option_map (λ user. user.quit) (map.get self.now.users name.now) }
        ensures line { IfSome result (λ text. IsLine text.now) }
    {
        let account = table::find(&self.accounts, name)?;
        Some(quit_of(account))
    }
}

fn read_letters(text: &str) -> Result<Letters, AuthorizerFault>
    ensures letters { MatchResult result (λ letters. letters_of text.now ≡ Some letters)
        (λ fault. (fault ≡ AuthorizerFault.BadLetter) × (letters_of text.now ≡ None)) }
{
    Letters::read(text).ok_or(AuthorizerFault::BadLetter)
}

fn read_path<A: Allocator + Clone>(alloc: A, text: &str) -> Result<VPath<A>, AuthorizerFault>
    ensures path { MatchResult result
        (λ path. resolved [] text.now ≡ Ok path)
        (Unless AuthorizerFault.Memory (λ fault. (fault ≡ AuthorizerFault.BadPath)
        × ((path : Path) → resolved [] text.now ≢ Ok path))) }
{
    let root = VPath::root(alloc.clone()?);
    match root.resolve(alloc, text) {
        Ok(path) => Ok(path),
        Err(PathFault::Memory) => Err(AuthorizerFault::Memory),
        Err(_) => Err(AuthorizerFault::BadPath),
    }
}

/// A new account, without a number of its own yet.
fn new_account<A: Allocator + Clone>(
    alloc: A,
    password: &str,
    home: VPath<A>,
    letters: Letters,
) -> Result<Account<A>, AllocError>
    ensures account { IfOk result
        (λ account. user_of account ≡ new_user 0 password.now home letters) }
{
    let password = String::from_str(alloc.clone()?, password)?;
    Ok(Account {
        number: 0,
        password,
        home,
        letters,
        login: None,
        quit: None,
        overrides: BTreeMap::new(alloc),
        group: None,
    })
}
