//! The tree of a sheet, built from its nodes.

ghost use Rattle.std.specs.Prelude.{◌≡◌, ◌<◌, ◌-◌, ◌++◌, [], IfOk, OnOk, length, map};
ghost use Rattle.limit_tree.specs.Outline.{places};
ghost use Rattle.sheet_text.specs.Forest.{tree_over};
ghost use Rattle.sheet_text.specs.Table.{path_at};
ghost use Rattle.sheet_text.specs.Rows.{AreBelow, AreKidRows};
ghost use Rattle.sheet_text.specs.Tree.{kids_to, node_paths, outline_below, outline_of, paths_below, paths_to};

use crate::node::{Nodes, is_leaf};
use limit_tree::{MAX_DEPTH, Node, NodeKind};
use std::alloc::{AllocError, Allocator};

/// A node of a kind. A leaf has no kids.
fn node_over<A: Allocator>(kind: NodeKind, kids: Vec<Node<A>, A>) -> Node<A>
    ensures node { places result ≡ tree_over kind (map places kids.items) }
{
    match kind {
        NodeKind::Branch { limit } => Node::Branch { limit, kids },
        NodeKind::Leaf { want, floor } => Node::Leaf { want, floor },
    }
}

impl<'t, A: Allocator + Clone> Nodes<'t, A> {
    /// The places of the kids of a place in a tree with this number of levels beneath it.
    fn kids_to<'r>(
        &self,
        rows: &'r Vec<Vec<usize, A>, A>,
        place: usize,
        levels: usize,
    ) -> &'r [usize]
        requires rows { AreKidRows self.now rows.now }
        requires place { place < length self.now }
        ensures below { AreBelow (length self.now) result.now }
        ensures levels { 0 < length result.now → 0 < levels }
        ensures kids { paths_to self.now result.now
            ≡ kids_to self.now levels (path_at self.now place) }
    {
        let _table = self.len();
        let kids = rows[place].as_slice();
        if levels == 0 {
            return &kids[..0];
        }
        if is_leaf(self.kind(place)) {
            return &kids[..0];
        }
        kids
    }

    /// The tree of a place, down to this number of levels beneath it. The places of its nodes, in preorder, are
    /// appended to an order.
    fn build(
        &self,
        rows: &Vec<Vec<usize, A>, A>,
        place: usize,
        levels: usize,
        order: &mut Vec<usize, A>,
    ) -> Result<Node<A>, AllocError>
        requires rows { AreKidRows self.now rows.now }
        requires place { place < length self.now }
        requires below { AreBelow (length self.now) order.old.items }
        ensures built { IfOk result (λ node. places node
            ≡ outline_below self.now levels (path_at self.now place)) }
        ensures order { OnOk result (paths_to self.now order.new.items
            ≡ paths_to self.now order.old.items
            ++ paths_below self.now levels (path_at self.now place)) }
        ensures below { OnOk result (AreBelow (length self.now) order.new.items) }
    {
        let _table = self.len();
        order.push(place)?;
        let below = self.kids_to(rows, place, levels);
        let mut kids = Vec::with_capacity(order.allocator().clone()?, below.len())?;
        for kid in below {
            let node = self.build(rows, *kid, levels - 1, order)?;
            kids.push(node)?;
        }
        Ok(node_over(self.kind(place), kids))
    }

    /// The tree over the mentioned paths. The places of its nodes, in preorder, are appended to an order.
    pub fn tree(&self, order: &mut Vec<usize, A>) -> Result<Node<A>, AllocError>
        requires empty { order.old.items ≡ [] }
        ensures tree { IfOk result (λ node. places node ≡ outline_of self.now) }
        ensures order { OnOk result (paths_to self.now order.new.items ≡ node_paths self.now) }
        ensures below { OnOk result (AreBelow (length self.now) order.new.items) }
    {
        let _table = self.len();
        let rows = self.kids(order.allocator().clone()?)?;
        self.build(&rows, 0, MAX_DEPTH, order)
    }
}
