//! The whole tree, checked.

ghost use Rattle.std.specs.Prelude.{◌≡◌, ◌<◌, [], ℕ, None, Some, MatchResult, OnOk, length};
ghost use Rattle.memory_terms.specs.Lack.{Unless};
ghost use Rattle.limit_tree.specs.declared.fault.TreeFault.TheVariants.{FloorsOverLimit};
ghost use Rattle.sheet_text.specs.Rows.{AreBelow};
ghost use Rattle.sheet_text.specs.Tree.{node_paths, outline_of, paths_to};
ghost use Rattle.sheet_text.specs.Whole.{fault_line, whole_fault};

use crate::fault::SheetFault;
use crate::node::Nodes;
use limit_tree::{Tree, TreeFault};
use std::alloc::Allocator;

impl<'t, A: Allocator + Clone> Nodes<'t, A> {
    /// The number of the line with the limit of the branch in a fault of the tree; otherwise 0. The order has the
    /// places of the tree's nodes.
    fn fault_line(&self, order: &[usize], fault: TreeFault) -> usize
        requires order { paths_to self.now order.now ≡ node_paths self.now }
        requires below { AreBelow (length self.now) order.now }
        requires node { (node : ℕ) → fault ≡ FloorsOverLimit node → node < length order.now }
        ensures line { result ≡ fault_line self.now fault }
    {
        let _table = self.len();
        match fault {
            TreeFault::FloorsOverLimit(node) => self.line(order[node]).unwrap_or(0),
            _ => 0,
        }
    }

    /// The tree over the mentioned paths, checked. The places of its nodes, in preorder, are appended to an order.
    pub fn whole_tree(&self, order: &mut Vec<usize, A>) -> Result<Tree<A>, SheetFault>
        requires empty { order.old.items ≡ [] }
        ensures whole { MatchResult result
            (λ tree. (tree ≡ outline_of self.now) × (whole_fault self.now ≡ None))
            (Unless SheetFault.Memory (λ fault. whole_fault self.now ≡ Some fault)) }
        ensures order { OnOk result (paths_to self.now order.new.items ≡ node_paths self.now) }
        ensures below { OnOk result (AreBelow (length self.now) order.new.items) }
    {
        let _table = self.len();
        let root = self.tree(order)?;
        match Tree::new(root) {
            Ok(tree) => Ok(tree),
            Err(fault) => Err(SheetFault::Tree(self.fault_line(order, fault), fault)),
        }
    }
}
