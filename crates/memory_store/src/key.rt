//! Paths of entries.

ghost use Rattle.std.specs.Prelude.{◌≡◌, ◌++◌, ◌∷◌, ◌||◌, [], true, false, drop, length, nat_eq, slice_index, MatchOption, IfOk};
ghost use Rattle.std.specs.List.{AllByRecursion};
ghost use Rattle.virtual_path.specs.Path.{Path, slashed, names_of, names_in, parent_of, is_name, HasNoSlash};
ghost use Rattle.memory_store.specs.Tree.{names_cmp, path_cmp, key_of, begins_with};

use crate::entry::Entry;
use std::alloc::{AllocError, Allocator};
use std::cmp::Ordering;
use std::marker::Model;
use virtual_path::{VPath, is_name};
use virtual_tree::ListedEntry;

/// Any path but the root: the text of its directory, with `/` before each name, and its last name.
///
/// Path keys are ordered so that a directory's entries are adjacent and sorted by name.
#[derive(Drop)]
pub(crate) struct PathKey<A: Allocator> {
    directory: String<A>,
    name: String<A>,
}

impl<A: Allocator> Model for PathKey<A> {
    ghost use Rattle.std.specs.Prelude.{◌++◌, ◌∷◌, [], List, ℕ, string_bytes};
    ghost use Rattle.virtual_path.specs.Path.{names_in};
    ghost use Rattle.memory_store.specs.Held.{IsPathKeyText};

    ghost Value = { List (List ℕ) };

    ghost view = { λ key. names_in (string_bytes key.directory) ++ string_bytes key.name ∷ [] };

    ghost invariant = { λ key. IsPathKeyText (string_bytes key.directory) (string_bytes key.name) };
}

impl<A: Allocator> PartialEq for PathKey<A> {
    ghost use Rattle.std.proofs.Common.{rules};
    ghost use Rattle.std.specs.Cmp.Rules.{comparing};
    ghost use Rattle.memory_store.specs.Orders.{paths_total};
    ghost use Rattle.std.specs.Ordering.{eq_by_cmp};
    ghost use Rattle.memory_store.specs.Tree.{path_cmp};

    ghost eq = { eq_by_cmp path_cmp };

    ghost laws = { Prim.search (comparing, rules, paths_total) };

    fn eq(&self, other: &PathKey<A>) -> bool {
        self.cmp(other).is_eq()
    }
}

impl<A: Allocator> Eq for PathKey<A> {
    ghost use Rattle.std.proofs.Common.{rules};
    ghost use Rattle.std.specs.Cmp.Rules.{comparing};
    ghost use Rattle.memory_store.specs.Orders.{paths_total};

    ghost laws = { Prim.search (comparing, rules, paths_total) };
}

impl<A: Allocator> Ord for PathKey<A> {
    ghost use Rattle.std.proofs.Common.{rules};
    ghost use Rattle.std.specs.Cmp.Rules.{comparing};
    ghost use Rattle.memory_store.specs.Orders.{paths_total};
    ghost use Rattle.memory_store.specs.Tree.{path_cmp};

    ghost cmp = { path_cmp };

    ghost total = { Prim.search (comparing, rules, paths_total) };

    ghost matches_partial_cmp = { Prim.search (comparing, rules) };

    ghost matches_eq = { Prim.search (comparing, rules) };

    fn cmp(&self, other: &PathKey<A>) -> Ordering {
        let order = compare_names(self.directory.as_str(), other.directory.as_str());
        order.then(self.name.cmp(&other.name))
    }
}

impl<A: Allocator> PartialOrd for PathKey<A> {
    ghost use Rattle.std.proofs.Common.{rules};
    ghost use Rattle.std.specs.Cmp.{partial_order_from_own_ties};
    ghost use Rattle.std.specs.Cmp.Rules.{comparing};
    ghost use Rattle.memory_store.specs.Orders.{paths_total};
    ghost use Rattle.std.specs.Ordering.{as_partial_cmp};
    ghost use Rattle.memory_store.specs.Tree.{path_cmp};

    ghost partial_cmp = { as_partial_cmp path_cmp };

    ghost laws = { partial_order_from_own_ties (Prim.search (comparing, rules, paths_total))
        (Prim.search (comparing, rules, paths_total)) };

    fn partial_cmp(&self, other: &PathKey<A>) -> Option<Ordering> {
        Some(self.cmp(other))
    }
}

impl<A: Allocator + Clone> PathKey<A> {
    ghost use Rattle.std.specs.Prelude.{◌≡◌, ◌++◌, ◌∷◌, [], IfOk};
    ghost use Rattle.virtual_path.specs.Path.{Path, slashed, names_in, parent_of};
    ghost use Rattle.virtual_tree.specs.Calls.{entry_of};
    ghost use Rattle.memory_store.specs.Tree.{last_of, key_of, reported_of, moved};

    /// The key with this text, which has `/` before each name; none if the text is empty, as the root's
    /// is.
    fn split(alloc: &A, text: &str) -> Result<Option<PathKey<A>>, AllocError>
        requires { slashed (names_in text.now) ≡ text.now }
        ensures { IfOk result (λ found. found ≡ key_of (names_in text.now)) }
    {
        match split_last(text) {
            None => Ok(None),
            Some((directory, name)) => Ok(Some(PathKey {
                directory: String::from_str(alloc.clone()?, directory)?,
                name: String::from_str(alloc.clone()?, name)?,
            })),
        }
    }

    /// The path key of a path; none for the root.
    pub fn of<B: Allocator>(alloc: &A, path: &VPath<B>) -> Result<Option<PathKey<A>>, AllocError>
        ensures { IfOk result (λ found. found ≡ key_of path.now) }
    {
        PathKey::split(alloc, directory_text(path))
    }

    /// The path key of the directory above a path; none if that is the root.
    pub fn above<B: Allocator>(alloc: &A, path: &VPath<B>) -> Result<Option<PathKey<A>>, AllocError>
        ensures { IfOk result (λ found. found ≡ key_of (parent_of path.now)) }
    {
        match split_last(directory_text(path)) {
            None => Ok(None),
            Some((directory, _)) => PathKey::split(alloc, directory),
        }
    }

    /// A copy of the path key.
    pub fn copy(&self, alloc: &A) -> Result<PathKey<A>, AllocError>
        ensures { IfOk result (λ key. key ≡ self.now) }
    {
        Ok(PathKey {
            directory: String::from_str(alloc.clone()?, self.directory.as_str())?,
            name: String::from_str(alloc.clone()?, self.name.as_str())?,
        })
    }

    /// A path key before all entries of a directory.
    pub(crate) fn first_in<B: Allocator>(
        alloc: &A,
        path: &VPath<B>,
    ) -> Result<PathKey<A>, AllocError>
        ensures { IfOk result (λ key. key ≡ path.now ++ [] ∷ []) }
    {
        Ok(PathKey {
            directory: String::from_str(alloc.clone()?, directory_text(path))?,
            name: String::new(alloc.clone()?),
        })
    }

    /// A key after all entries of a directory: its own directory, one with an empty name in the given one, is the next
    /// in the order of directories.
    pub(crate) fn past<B: Allocator>(alloc: &A, path: &VPath<B>) -> Result<PathKey<A>, AllocError>
        ensures { IfOk result (λ key. key ≡ (path.now ++ [] ∷ []) ++ [] ∷ []) }
    {
        let mut directory = String::from_str(alloc.clone()?, directory_text(path))?;
        directory.push_str("/")?;
        Ok(PathKey {
            directory,
            name: String::new(alloc.clone()?),
        })
    }

    /// The entry at this path key as listed; none if no path can name it.
    pub(crate) fn listed(
        &self,
        alloc: &A,
        entry: &Entry<A>,
    ) -> Result<Option<ListedEntry<A>>, AllocError>
        ensures { IfOk result (λ found. MatchOption found
            (is_name (last_of self.now) ≡ false)
            (λ listed. (is_name (last_of self.now) ≡ true)
            × (entry_of listed ≡ reported_of (self.now, entry.now)))) }
    {
        if !is_name(self.name.as_str()) {
            return Ok(None);
        }
        Ok(Some(ListedEntry {
            name: String::from_str(alloc.clone()?, self.name.as_str())?,
            meta: entry.meta(),
        }))
    }

    /// The key of this entry after a rename of one path to another, given as path keys.
    pub(crate) fn moved<B: Allocator>(
        &self,
        alloc: &A,
        from: &VPath<B>,
        to: &VPath<B>,
        before: &PathKey<A>,
        afterwards: &PathKey<A>,
    ) -> Result<PathKey<A>, AllocError>
        requires before { before.now ≡ from.now }
        requires afterwards { afterwards.now ≡ to.now }
        ensures { IfOk result (λ key. key ≡ moved from.now to.now self.now) }
    {
        if before == self {
            return afterwards.copy(alloc);
        }
        match rest_under(directory_text(from), self.directory.as_str()) {
            None => self.copy(alloc),
            Some(rest) => self.moved_under(alloc, directory_text(to), rest),
        }
    }

    /// The same name in another directory.
    fn moved_under(&self, alloc: &A, to: &str, rest: &str) -> Result<PathKey<A>, AllocError>
        requires to { slashed (names_in to.now) ≡ to.now }
        requires rest { slashed (names_in rest.now) ≡ rest.now }
        ensures { IfOk result
            (λ key. key ≡ (names_in to.now ++ names_in rest.now) ++ last_of self.now ∷ []) }
    {
        let mut directory = String::from_str(alloc.clone()?, to)?;
        directory.push_str(rest)?;
        Ok(PathKey {
            directory,
            name: String::from_str(alloc.clone()?, self.name.as_str())?,
        })
    }
}

/// The order of two directories by the names between the slashes of their texts.
fn compare_names<'x>(text: &'x str, other: &'x str) -> Ordering
    ensures { result ≡ names_cmp (names_of text.now) (names_of other.now) }
{
    text.split('/').cmp(other.split('/'))
}

/// The text before and after the last `/`.
fn split_last(text: &str) -> Option<(&str, &str)>
    ensures parts { MatchOption result
        (HasNoSlash text.now)
        (λ parts. (text.now ≡ parts.0.now ++ 47 ∷ parts.1.now) × HasNoSlash parts.1.now) }
{
    text.rsplit_once('/')
}

/// Returns whether a name ends at the start of a text: the text is empty or begins with a slash.
fn ends_name(text: &str) -> bool
    ensures { result ≡ (nat_eq (length text.now) 0 || nat_eq (slice_index text.now 0) 47) }
{
    text.is_empty() || text.starts_with('/')
}

/// The rest of a directory's text after that of the same directory or of one above it.
fn rest_under<'a>(directory: &str, text: &'a str) -> Option<&'a str>
    ensures { (front path : Path) → AllByRecursion HasNoSlash front → AllByRecursion HasNoSlash path
        → directory.now ≡ slashed front → text.now ≡ slashed path → MatchOption result
        (begins_with front path ≡ false)
        (λ rest. (begins_with front path ≡ true)
        × (rest.now ≡ slashed (drop (length front) path))) }
{
    match text.strip_prefix(directory) {
        None => None,
        Some(rest) => {
            let ends = ends_name(rest);
            if ends { Some(rest) } else { None }
        }
    }
}

/// The text of a directory, with `/` before each name; the root's is empty.
fn directory_text<A: Allocator>(path: &VPath<A>) -> &str
    ensures text { result.now ≡ slashed path.now }
    ensures names { AllByRecursion HasNoSlash path.now }
{
    let text = path.text();
    if text.len() <= 1 { "" } else { text }
}
