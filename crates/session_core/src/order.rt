//! The refusals of a line, in their order.

ghost use Rattle.std.specs.Prelude.{◌≡◌, IfOk};
ghost use Rattle.session_table.specs.Judged.{at_once, at_location, first_refusal, home_of, judged_at, located, stored_at};
ghost use Rattle.virtual_path.specs.Path.{joined, resolved};

use authorizer::Authorizer;
use ftp_terms::Letter;
use session_state::{Location, State};
use session_table::{Conditions, Refusal};
use std::alloc::{AllocError, Allocator};
use virtual_path::{PathFault, VPath};

/// The location of a user's path below the home.
fn stored_at<A: Allocator + Clone>(
    alloc: A,
    home: &VPath<A>,
    path: VPath<A>,
) -> Result<Result<Location<A>, PathFault>, AllocError>
    ensures location { IfOk result (λ found. found ≡ stored_at path (joined home.now path)) }
{
    match home.joined(alloc, &path) {
        Ok(stored) => Ok(Ok(Location::new(path, stored))),
        Err(PathFault::Memory) => Err(AllocError),
        Err(fault) => Ok(Err(fault)),
    }
}

/// The location of a user's path; the home of a removed user is the root.
fn in_home<A: Allocator + Clone>(
    alloc: A,
    users: &Authorizer<A>,
    name: &str,
    path: VPath<A>,
) -> Result<Result<Location<A>, PathFault>, AllocError>
    ensures location { IfOk result (λ found.
        found ≡ stored_at path (joined (home_of users.now.users name.now) path)) }
{
    match users.home(name) {
        Some(home) => stored_at(alloc, home, path),
        None => {
            let root = VPath::root(alloc.clone()?);
            stored_at(alloc, &root, path)
        }
    }
}

fn resolved<A: Allocator + Clone>(
    alloc: A,
    from: &VPath<A>,
    text: &str,
) -> Result<Result<VPath<A>, PathFault>, AllocError>
    ensures path { IfOk result (λ found. found ≡ resolved from.now text.now) }
{
    match from.resolve(alloc, text) {
        Ok(path) => Ok(Ok(path)),
        Err(PathFault::Memory) => Err(AllocError),
        Err(fault) => Ok(Err(fault)),
    }
}

/// The location of a text, relative to the current directory.
fn located<A: Allocator + Clone>(
    state: &State<A>,
    users: &Authorizer<A>,
    text: &str,
) -> Result<Result<Location<A>, PathFault>, AllocError>
    ensures location { IfOk result (λ found. found ≡ located users.now.users state.now text.now) }
{
    match resolved(state.alloc()?, state.cwd(), text)? {
        Ok(path) => in_home(state.alloc()?, users, state.name(), path),
        Err(fault) => Ok(Err(fault)),
    }
}

/// The first refusal that does not depend on the path.
pub(crate) fn refused_at_once<A: Allocator + Clone>(
    state: &State<A>,
    conditions: Conditions,
) -> Option<Refusal>
    ensures refusal { result ≡ first_refusal (at_once state.now conditions) }
{
    if conditions.needs_login && !state.is_inside() {
        return Some(Refusal::LogInFirst);
    }
    if conditions.needs_source && state.source().is_none() {
        return Some(Refusal::NoSource);
    }
    if conditions.needs_no_offset && state.offset() > 0 {
        return Some(Refusal::OffsetBeforeAppend);
    }
    if conditions.needs_plain && state.forbids_plain() {
        return Some(Refusal::OnlyExtended);
    }
    None
}

/// The first refusal at the location.
fn refused_at_location<A: Allocator + Clone>(
    state: &State<A>,
    users: &Authorizer<A>,
    conditions: Conditions,
    letter: Letter,
    path: &VPath<A>,
) -> Option<Refusal>
    ensures refusal { result
        ≡ first_refusal (at_location users.now.users state.now conditions letter path.now) }
{
    if !users.has_perm(state.name(), letter, path) {
        return Some(Refusal::NotPermitted);
    }
    if conditions.moves_data && !state.is_prepared() {
        return Some(Refusal::NothingPrepared);
    }
    None
}

/// The location of a text for users who have the letter there, or the first refusal. `Err` is lack of memory.
pub(crate) fn judge<A: Allocator + Clone>(
    state: &State<A>,
    users: &Authorizer<A>,
    conditions: Conditions,
    letter: Letter,
    text: &str,
) -> Result<Result<Location<A>, Refusal>, AllocError>
    ensures judged { IfOk result (λ found.
        found
        ≡ judged_at users.now.users state.now conditions
        letter (located users.now.users state.now text.now)) }
{
    match located(state, users, text)? {
        Err(fault) => Ok(Err(Refusal::Path(fault))),
        Ok(location) => match refused_at_location(
            state,
            users,
            conditions,
            letter,
            location.path(),
        ) {
            Some(refusal) => Ok(Err(refusal)),
            None => Ok(Ok(location)),
        },
    }
}
