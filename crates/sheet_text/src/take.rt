//! Taking the statement of a line.

ghost use Rattle.std.specs.Prelude.{◌≡◌, ◌<◌, ◌≤◌, ℕ, IfOk, MatchResult, OnOk, Ok, Err, length};
ghost use Rattle.memory_terms.specs.Lack.{Unless};
ghost use Rattle.sheet_text.specs.Paths.{names_of, IsPathText};
ghost use Rattle.sheet_text.specs.Table.{path_at, place_fault, size_fault, taken};
ghost use Rattle.sheet_text.specs.Walks.{IsWalk, fault_shown};

use crate::fault::SheetFault;
use crate::names::count_slashes;
use crate::node::{Nodes, is_leaf};
use crate::walk::Walk;
use limit_tree::{MAX_DEPTH, MAX_LEAVES, MAX_LIMIT, MAX_NODES, MAX_WANT, NodeKind, TreeFault};
use std::alloc::Allocator;

/// The fault of a tree of this size: `nodes` with a new node of this kind, and `wants` without it.
fn size_fault(nodes: usize, wants: usize, kind: NodeKind) -> Option<TreeFault>
    ensures fault { result ≡ size_fault nodes wants kind }
{
    if nodes > MAX_NODES {
        return Some(TreeFault::TooManyLeaves);
    }
    match kind {
        NodeKind::Leaf { want, floor } => {
            if wants >= MAX_LEAVES {
                Some(TreeFault::TooManyLeaves)
            } else if want > MAX_WANT {
                Some(TreeFault::WantTooLarge)
            } else if floor > want {
                Some(TreeFault::FloorTooLarge)
            } else {
                None
            }
        }
        NodeKind::Branch { limit: Some(limit) } if limit > MAX_LIMIT => Some(
            TreeFault::LimitTooLarge,
        ),
        NodeKind::Branch { .. } => None,
    }
}

/// The first fault of a path, from these facts: it is there, has a line, is beneath a want, is to be a want, is too
/// deep.
fn fault_shown(
    number: usize,
    there: bool,
    has_line: bool,
    under: bool,
    leaf: bool,
    deep: bool,
) -> Option<SheetFault>
    ensures fault { result ≡ fault_shown number there has_line under leaf deep }
{
    if there && has_line {
        return Some(SheetFault::Twice(number));
    }
    if under || leaf && there {
        return Some(SheetFault::LeafHasKids(number));
    }
    if deep {
        return Some(SheetFault::Tree(number, TreeFault::TooDeep));
    }
    None
}

impl<'t, A: Allocator> Nodes<'t, A> {
    /// The fault of a statement that the nodes before it determine: `Twice`, `LeafHasKids` or `TooDeep`.
    fn place_fault(
        &self,
        number: usize,
        path: &str,
        kind: NodeKind,
        walk: Walk,
    ) -> Option<SheetFault>
        requires text { IsPathText path.now }
        requires walk { IsWalk self.now path.now walk }
        ensures fault { result
            ≡ place_fault self.now number (record { path = names_of path.now; kind = kind }) }
    {
        let _nodes = self.len();
        let there = walk.at == path.len();
        let has_line = self.line(walk.place).is_some();
        let deep = count_slashes(path.as_bytes()) > MAX_DEPTH;
        fault_shown(number, there, has_line, walk.under, is_leaf(kind), deep)
    }
}

impl<'t, A: Allocator + Clone> Nodes<'t, A> {
    /// Takes the statement of a numbered line about a path, and returns the place of the path; its text is empty for
    /// the root, and otherwise begins with a `/`. A faulty statement is refused before anything grows; if memory runs
    /// out, a part of the path may be mentioned.
    pub fn take(
        &mut self,
        number: usize,
        path: &'t str,
        kind: NodeKind,
    ) -> Result<usize, SheetFault>
        requires text { IsPathText path.now }
        ensures taken { MatchResult result
            (λ _. taken self.old number (record { path = names_of path.now; kind = kind })
            ≡ Ok self.new)
            (Unless SheetFault.Memory (λ fault. taken self.old number
            (record { path = names_of path.now; kind = kind }) ≡ Err fault)) }
        ensures place { IfOk result (λ place. (place < length self.new)
            × (path_at self.new place ≡ names_of path.now)) }
        ensures kept { OnOk result ((place : ℕ) → place < length self.old
            → path_at self.new place ≡ path_at self.old place) }
        ensures grows { OnOk result (length self.old ≤ length self.new) }
    {
        let walk = self.walk(path);
        if let Some(fault) = self.place_fault(number, path, kind, walk) {
            return Err(fault);
        }
        let left = count_slashes(&path.as_bytes()[walk.at..]);
        if let Some(fault) = size_fault(self.len() + left, self.wants(), kind) {
            return Err(SheetFault::Tree(number, fault));
        }
        let place = self.grow(walk.place, walk.at, path)?;
        let _grown = self.len();
        self.note(place, number, kind);
        Ok(place)
    }
}
