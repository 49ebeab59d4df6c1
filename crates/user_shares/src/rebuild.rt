//! A tree of the same shape as another, with other limits, wants and floors.

ghost use Rattle.std.specs.Prelude.{◌≡◌, ◌<◌, ℕ, length, slice_get, IfOk, None, Some};
ghost use Rattle.limit_tree.specs.Outline.{places};
ghost use Rattle.limit_tree.specs.Faults.{tree_fault};
ghost use Rattle.limit_tree.specs.Flat.{HasRow, IsRow};
ghost use Rattle.user_shares.specs.Rebuilt.{AreReshaped, AreSoundKinds, HasKinds, IsReshaped, IsSoundOutline, node_places};

use limit_tree::{Flat, Node, NodeKind, Tree};
use std::alloc::{AllocError, Allocator};

/// The kind of a node.
fn kind_at(kinds: &[NodeKind], node: usize) -> NodeKind
    requires node { node < length kinds.now }
    ensures kind { slice_get kinds.now node ≡ Some result }
{
    kinds[node]
}

/// A node of a kind. A leaf has no kids.
fn node_over<B: Allocator>(kind: NodeKind, kids: Vec<Node<B>, B>) -> Node<B>
    ensures places { places result ≡ node_places kind kids.items }
{
    match kind {
        NodeKind::Branch { limit } => Node::Branch { limit, kids },
        NodeKind::Leaf { want, floor } => Node::Leaf { want, floor },
    }
}

/// Trees side by side, of the shapes of those from node `first` on, with these kinds of nodes.
fn trees_of<A: Allocator, B: Allocator + Clone>(
    alloc: &B,
    flat: &Flat<A>,
    kinds: &[NodeKind],
    first: usize,
    trees: usize,
) -> Result<Vec<Node<B>, B>, AllocError>
    requires row { HasRow flat.now first trees }
    requires kinds { HasKinds flat.now kinds.now }
    ensures count { IfOk result (λ built. length built.items ≡ trees) }
    ensures reshaped { IfOk result (λ built. (begin last past : ℕ)
        → IsRow flat.now first begin trees last past
        → AreReshaped flat.now kinds.now first last built.items) }
{
    let _nodes = flat.nodes();
    let mut built = Vec::new(alloc.clone()?);
    let mut at = first;
    for _tree in 0..trees {
        let place = flat.place(at);
        let kids = trees_of(alloc, flat, kinds, at + 1, place.kids)?;
        let node = node_over(kind_at(kinds, at), kids);
        built.push(node)?;
        at += place.nodes;
    }
    Ok(built)
}

/// The tree of a node whose numbers have no fault.
fn tree_over<B: Allocator>(root: Node<B>) -> Tree<B>
    requires sound { tree_fault (places root) ≡ None }
    ensures tree { result ≡ places root }
{
    match Tree::new(root) {
        Ok(tree) => tree,
        Err(_) => unreachable!(),
    }
}

/// The tree of the same shape as another, with these kinds of nodes, if such a tree has no fault. O(nodes) time. Returns
/// an error only if memory runs out.
pub(crate) fn rebuilt<A: Allocator, B: Allocator + Clone>(
    alloc: &B,
    flat: &Flat<A>,
    kinds: &[NodeKind],
) -> Result<Tree<B>, AllocError>
    requires sound { IsSoundOutline flat.now }
    requires kinds { HasKinds flat.now kinds.now }
    requires faultless { AreSoundKinds flat.now kinds.now }
    ensures reshaped { IfOk result (λ tree. IsReshaped flat.now kinds.now tree) }
{
    let _nodes = flat.nodes();
    let mut trees = trees_of(alloc, flat, kinds, 0, 1)?;
    match trees.pop() {
        Some(root) => Ok(tree_over(root)),
        None => unreachable!(),
    }
}
