//! Mentions of new paths.

ghost use Rattle.std.specs.Prelude.{◌≡◌, ◌<◌, OnOk, IfOk, drop, length};
ghost use Rattle.sheet_text.specs.Paths.{names_of, IsPathText};
ghost use Rattle.sheet_text.specs.Table.{path_at};
ghost use Rattle.sheet_text.specs.Walks.{IsStand, IsFresh, grown};

use crate::names::name_len;
use crate::node::Nodes;
use std::alloc::{AllocError, Allocator};

impl<'t, A: Allocator + Clone> Nodes<'t, A> {
    /// Mentions the rest of a path after a place, and returns the place of the path.
    pub(crate) fn grow(
        &mut self,
        place: usize,
        at: usize,
        path: &'t str,
    ) -> Result<usize, AllocError>
        requires text { IsPathText path.now }
        requires stand { IsStand self.old path.now place at }
        requires fresh { IsFresh self.old (path_at self.old place) (names_of (drop at path.now)) }
        ensures grown { OnOk result
            (self.new ≡ grown self.old (path_at self.old place) (names_of (drop at path.now))) }
        ensures place { IfOk result (λ place. (place < length self.new)
            × (path_at self.new place ≡ names_of path.now)) }
    {
        let text = path.as_bytes();
        let mut place = place;
        let mut at = at;
        'names: while at < text.len() {
            let end = at + 1 + name_len(&text[at + 1..]);
            let kid = self.len();
            self.push(place, &text[at + 1..end], &path[..end])?;
            place = kid;
            at = end;
        }
        Ok(place)
    }
}
