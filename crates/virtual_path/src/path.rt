//! Paths as values.

ghost use Rattle.std.specs.Prelude.{◌≡◌, ◌≢◌, ◌≤◌, ◌++◌, ◌∷◌, [], length, map, IsTrue, ◌↔◌, IfOk, IfSome, MatchOption, Ok, Err};
ghost use Rattle.ftp_terms.specs.Lines.{IsLine};
ghost use Rattle.memory_terms.specs.Lack.{AsDefined};
ghost use Rattle.virtual_path.specs.Path.{path_text, parent_of, resolved, child_of, joined, IsBeneath, AllNames};

use crate::fault::PathFault;
use crate::walk::{
    count_slashes, enter, is_beneath, is_one_name, look_over, shown, split_last, start, walk,
};
use crate::{LONGEST_NAME, LONGEST_PATH};
use std::alloc::{AllocError, Allocator, Global};
use std::marker::Model;

/// A path from a root: the names that lead to an entry.
#[derive(Drop)]
pub struct VPath<A: Allocator = Global> {
    // `/` before each name, so that the root needs no memory
    text: String<A>,
}

impl<A: Allocator> Model for VPath<A> {
    ghost use Rattle.std.specs.Prelude.{List, ℕ};
    ghost use Rattle.std.specs.String.{string_bytes};
    ghost use Rattle.virtual_path.specs.Path.{names_in, IsPathText};

    ghost Value = { List (List ℕ) };

    ghost view = { λ path. names_in (string_bytes path.text) };

    ghost invariant = { λ path. IsPathText (string_bytes path.text) };
}

impl<A: Allocator> VPath<A> {
    /// The root, which needs no memory.
    pub fn root(alloc: A) -> VPath<A>
        ensures root { result ≡ [] }
    {
        VPath {
            text: String::new(alloc),
        }
    }

    /// `/` and the names joined by `/`, on one line.
    pub fn text(&self) -> &str
        ensures text { result.now ≡ path_text self.now }
        ensures names { AllNames self.now }
        ensures line { IsLine result.now }
        ensures short { length result.now ≤ LONGEST_PATH }
    {
        shown(self.text.as_str())
    }

    /// The path that a text names, starting from this one.
    ///
    /// A text that begins with `/` starts at the root. Empty names and `.` are skipped, and `..` goes up one
    /// name, or stays at the root.
    pub fn resolve(&self, alloc: A, text: &str) -> Result<VPath<A>, PathFault>
        ensures path { AsDefined PathFault.Memory result (resolved self.now text.now) }
        ensures names { IfOk result AllNames }
    {
        look_over(text)?;
        let mut whole = start(alloc, self.text.as_str(), text)?;
        walk(&mut whole, text)?;
        if whole.as_str().len() > LONGEST_PATH {
            return Err(PathFault::TooLong);
        }
        Ok(VPath { text: whole })
    }

    /// Number of names in the path.
    pub fn depth(&self) -> usize
        ensures depth { result ≡ length self.now }
    {
        count_slashes(self.text.as_bytes())
    }

    pub fn is_root(&self) -> bool
        ensures root { IsTrue result ↔ (self.now ≡ []) }
    {
        self.text.as_str().is_empty()
    }

    /// The names in the path, from the root on.
    pub fn names<B: Allocator>(&self, alloc: B) -> Result<Vec<&str, B>, AllocError>
        ensures names { IfOk result (λ names. map (λ name. name.now) names.items ≡ self.now) }
    {
        self.text.as_str().split('/').skip(1).collect(alloc)
    }

    /// The last name, a one-line text; `None` for the root.
    pub fn file_name(&self) -> Option<&str>
        ensures line { IfSome result (λ name. IsLine name.now) }
        ensures name { MatchOption result (self.now ≡ [])
            (λ name. self.now ≡ parent_of self.now ++ name.now ∷ []) }
    {
        let (_, name) = split_last(self.text.as_str())?;
        Some(name)
    }

    /// The text of the path without its last name; `None` for the root.
    pub fn parent_text(&self) -> Option<&str>
        ensures parent { MatchOption result (self.now ≡ []) (λ text. (self.now ≢ [])
            × (text.now ≡ path_text (parent_of self.now))) }
    {
        let (front, _) = split_last(self.text.as_str())?;
        Some(shown(front))
    }

    /// The path without its last name; `None` for the root.
    pub fn parent<B: Allocator>(&self, alloc: B) -> Result<Option<VPath<B>>, AllocError>
        ensures parent { IfOk result
            (λ answer. MatchOption answer (self.now ≡ []) (λ parent. (self.now ≢ [])
            × (parent ≡ parent_of self.now))) }
    {
        let Some((front, _)) = split_last(self.text.as_str()) else {
            return Ok(None);
        };
        let text = String::from_str(alloc, front)?;
        Ok(Some(VPath { text }))
    }

    /// The same path, in memory of its own.
    pub fn try_clone<B: Allocator>(&self, alloc: B) -> Result<VPath<B>, AllocError>
        ensures same { IfOk result (λ path. path ≡ self.now) }
    {
        let text = String::from_str(alloc, self.text.as_str())?;
        Ok(VPath { text })
    }

    /// The path with one more name.
    ///
    /// Returns `BadName` for a text that is not one name: empty, `.`, `..`, or with `/` or a control octet.
    pub fn child<B: Allocator>(&self, alloc: B, name: &str) -> Result<VPath<B>, PathFault>
        ensures path { AsDefined PathFault.Memory result (child_of self.now name.now) }
    {
        if !is_one_name(name) {
            return Err(PathFault::BadName);
        }
        if name.len() > LONGEST_NAME || name.len() >= LONGEST_PATH - self.text.as_str().len() {
            return Err(PathFault::TooLong);
        }
        let mut text = String::from_str(alloc, self.text.as_str())?;
        enter(&mut text, name)?;
        Ok(VPath { text })
    }

    /// `path` with this path as its root, such as a user's path below the user's home.
    pub fn joined<B: Allocator, C: Allocator>(
        &self,
        alloc: B,
        path: &VPath<C>,
    ) -> Result<VPath<B>, PathFault>
        ensures path { AsDefined PathFault.Memory result (joined self.now path.now) }
    {
        if self.text.as_str().len() + path.text.as_str().len() > LONGEST_PATH {
            return Err(PathFault::TooLong);
        }
        let mut text = String::from_str(alloc, self.text.as_str())?;
        text.push_str(path.text.as_str())?;
        Ok(VPath { text })
    }

    /// Returns whether this path is `above` or beneath it.
    pub fn starts_with<B: Allocator>(&self, above: &VPath<B>) -> bool
        ensures beneath { IsTrue result ↔ IsBeneath self.now above.now }
    {
        is_beneath(self.text.as_str(), above.text.as_str())
    }
}
