//! A path's text, walked name by name.
//!
//! These texts have `/` before each name, so the root's is empty.

ghost use Rattle.std.specs.Prelude.{◌≡◌, ◌≢◌, ◌==◌, [], ◌++◌, ◌∷◌, cond, ◌||◌, length, nat_eq, slice_index, IsTrue, ◌↔◌, IfOk, OnOk, MatchOption};
ghost use Rattle.std.specs.List.{count_by, fold, list_any, AllByRecursion};
ghost use Rattle.std.specs.String.{string_bytes};
ghost use Rattle.ftp_terms.specs.Lines.{is_control, IsLine};
ghost use Rattle.virtual_path.specs.Path.{Path, path_text, slashed, through, parent_of, names_of, HasNoSlash, AllNames, IsBeneath, is_slash, is_long_name, text_refusal, is_one_name, is_name, IsName};

use crate::LONGEST_NAME;
use crate::fault::PathFault;
use std::alloc::{AllocError, Allocator};

fn has_control(text: &str) -> bool
    ensures control { result ≡ list_any is_control text.now }
{
    text.bytes().any(|octet| octet < 32 || octet == 127)
}

/// Number of octets that are `/`.
pub(crate) fn count_slashes(octets: &[u8]) -> usize
    ensures count { result ≡ count_by is_slash octets.now }
{
    octets.iter().filter(|octet| **octet == b'/').count()
}

fn has_slash(text: &str) -> bool
    ensures slash { result ≡ list_any is_slash text.now }
{
    text.bytes().any(|octet| octet == b'/')
}

fn has_long_name(text: &str) -> bool
    ensures long { result ≡ list_any is_long_name (names_of text.now) }
{
    text.split('/').any(|name| name.len() > LONGEST_NAME)
}

/// Refuses a text with a control octet, or with a name that is too long.
pub(crate) fn look_over(text: &str) -> Result<(), PathFault>
    ensures refusal { result ≡ text_refusal text.now }
{
    if has_control(text) {
        return Err(PathFault::BadName);
    }
    if has_long_name(text) {
        return Err(PathFault::TooLong);
    }
    Ok(())
}

/// The text from which `way` is followed: empty if it begins with `/`.
pub(crate) fn start<A: Allocator>(alloc: A, from: &str, way: &str) -> Result<String<A>, AllocError>
    ensures start { IfOk result
        (λ text. string_bytes text ≡ cond (slice_index way.now 0 == 47) [] from.now) }
{
    if way.starts_with('/') {
        Ok(String::new(alloc))
    } else {
        String::from_str(alloc, from)
    }
}

pub(crate) fn enter<A: Allocator>(text: &mut String<A>, name: &str) -> Result<(), AllocError>
    ensures enters { OnOk result (string_bytes text.new ≡ string_bytes text.old ++ 47 ∷ name.now) }
{
    text.push('/')?;
    text.push_str(name)
}

fn leave<A: Allocator>(text: &mut String<A>)
    ensures leaves { (path : Path) → AllByRecursion HasNoSlash path
        → string_bytes text.old ≡ slashed path → string_bytes text.new ≡ slashed (parent_of path) }
{
    if let Some(slash) = text.rfind('/') {
        text.truncate(slash);
    }
}

fn follow<A: Allocator>(text: &mut String<A>, name: &str) -> Result<(), AllocError>
    ensures follows { OnOk result ((path : Path) → AllByRecursion HasNoSlash path
        → string_bytes text.old ≡ slashed path
        → string_bytes text.new ≡ slashed (through path name.now)) }
{
    if name.is_empty() || name == "." {
        return Ok(());
    }
    if name == ".." {
        leave(text);
        return Ok(());
    }
    enter(text, name)
}

/// Follows the names of `way`, one after another.
pub(crate) fn walk<A: Allocator>(text: &mut String<A>, way: &str) -> Result<(), AllocError>
    ensures walks { OnOk result ((path : Path) → AllByRecursion HasNoSlash path
        → string_bytes text.old ≡ slashed path
        → string_bytes text.new ≡ slashed (fold through path (names_of way.now))) }
{
    for name in way.split('/') {
        follow(text, name)?;
    }
    Ok(())
}

/// The text before and after the last `/`.
pub(crate) fn split_last(text: &str) -> Option<(&str, &str)>
    ensures parts { MatchOption result
        (HasNoSlash text.now)
        (λ parts. (text.now ≡ parts.0.now ++ 47 ∷ parts.1.now) × HasNoSlash parts.1.now) }
{
    text.rsplit_once('/')
}

/// Returns whether a text is one name that leads down.
pub(crate) fn is_one_name(name: &str) -> bool
    ensures one { result ≡ is_one_name name.now }
{
    if name.is_empty() || name == "." || name == ".." {
        return false;
    }
    if has_slash(name) {
        return false;
    }
    !has_control(name)
}

/// Returns whether a path may contain the name.
pub fn is_name(name: &str) -> bool
    ensures tested { result ≡ is_name name.now }
    ensures name { IsTrue result → IsName name.now }
    ensures line { IsTrue result → IsLine name.now }
{
    if !is_one_name(name) {
        return false;
    }
    name.len() <= LONGEST_NAME
}

/// A path's text as callers see it: `/` for the root.
pub(crate) fn shown(text: &str) -> &str
    ensures shown { (path : Path) → text.now ≡ slashed path → result.now ≡ path_text path }
{
    if text.is_empty() { "/" } else { text }
}

/// The text of the path without its last name, given a path's text as callers see it; `None` for the
/// root.
pub fn parent_text(text: &str) -> Option<&str>
    ensures parent { (path : Path) → AllNames path → text.now ≡ path_text path
        → MatchOption result (path ≡ []) (λ parent. (path ≢ [])
        × (parent.now ≡ path_text (parent_of path))) }
{
    let (front, name) = split_last(text)?;
    if name.is_empty() {
        return None;
    }
    Some(shown(front))
}

fn is_end_of_name(rest: &str) -> bool
    ensures end { result ≡ (nat_eq (length rest.now) 0 || nat_eq (slice_index rest.now 0) 47) }
{
    rest.is_empty() || rest.starts_with('/')
}

/// Returns whether a path's text is that of `above`, or continues it.
pub(crate) fn is_beneath(text: &str, above: &str) -> bool
    ensures beneath { (path : Path) (other : Path) → AllByRecursion HasNoSlash path
        → AllByRecursion HasNoSlash other → text.now ≡ slashed path → above.now ≡ slashed other
        → (IsTrue result ↔ IsBeneath path other) }
{
    match text.strip_prefix(above) {
        Some(rest) => is_end_of_name(rest),
        None => false,
    }
}
