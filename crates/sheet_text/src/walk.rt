//! A walk along the names of a path as far as they are there.

ghost use Rattle.std.specs.Prelude.{◌≡◌, ◌||◌};
ghost use Rattle.limit_tree.specs.Outline.{is_leaf_kind};
ghost use Rattle.sheet_text.specs.Paths.{names_of, place_of, IsPathText};
ghost use Rattle.sheet_text.specs.Table.{paths_in};
ghost use Rattle.sheet_text.specs.Walks.{IsWalk};

use crate::names::name_len;
use crate::node::{Nodes, is_leaf};
use limit_tree::NodeKind;
use std::alloc::Allocator;

/// The end of a walk.
#[derive(Clone, Copy)]
pub(crate) struct Walk {
    /// The last place that is there.
    pub place: usize,
    /// Index in the path's text at which the remaining names begin.
    pub at: usize,
    /// A want is above the path.
    pub under: bool,
}

/// Returns whether a want was passed, after a further node of a kind.
fn passes(under: bool, kind: NodeKind) -> bool
    ensures passes { result ≡ (under || is_leaf_kind kind) }
{
    under || is_leaf(kind)
}

impl<'t, A: Allocator> Nodes<'t, A> {
    /// Walks from the root along a path as far as it is there. No path beneath a missing one is there.
    pub(crate) fn walk(&self, path: &str) -> Walk
        requires text { IsPathText path.now }
        ensures walk { IsWalk self.now path.now result }
    {
        let text = path.as_bytes();
        let mut walk = Walk {
            place: 0,
            at: 0,
            under: false,
        };
        let _nodes = self.len();
        'names: while walk.at < text.len() {
            let rest = &text[walk.at + 1..];
            let len = name_len(rest);
            walk.under = passes(walk.under, self.kind(walk.place));
            let Some(kid) = self.find(walk.place, &rest[..len]) else {
                return walk;
            };
            walk.place = kid;
            walk.at += 1 + len;
        }
        walk
    }

    /// Returns the place of a path, if it is there. Its text is empty for the root, and otherwise begins with a `/`.
    #[tactic(auto, using(crate::proofs::Stands::place_found, crate::proofs::Stands::place_missing))]
    pub fn place(&self, path: &str) -> Option<usize>
        requires text { IsPathText path.now }
        ensures place { result ≡ place_of (paths_in self.now) (names_of path.now) }
    {
        let _nodes = self.len();
        let walk = self.walk(path);
        if walk.at < path.len() {
            return None;
        }
        Some(walk.place)
    }
}
