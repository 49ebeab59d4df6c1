//! Trees, grown from a queue of asks.

ghost use Rattle.std.specs.Prelude.{◌≡◌, ◌≤◌, ◌∷◌, [], List, IfOk, OnOk, IsPermutation};
ghost use Rattle.limit_tree.specs.Outline.{places, leaf_alone};
ghost use Rattle.line_rates.specs.Grown.{branch_places};
ghost use Rattle.line_rates.specs.Alike.{AreInOrder};
ghost use Rattle.line_rates.specs.declared.ask.Ask.{Ask};
ghost use Rattle.line_rates.specs.Queue.{asks_of, numbered, AreAmong, AreGrownOver, AreTogether};

use crate::limits::Limits;
use crate::queue::{Queued, arrange, run};
use crate::rate::rate_limit;
use limit_tree::Node;
use std::alloc::{AllocError, Allocator};

/// A branch over trees.
pub(crate) fn branch<A: Allocator>(limit: Option<u64>, kids: Vec<Node<A>, A>) -> Node<A>
    ensures places { places result ≡ branch_places limit kids.items }
{
    Node::Branch { limit, kids }
}

fn leaf<A: Allocator>(want: u64, floor: u64) -> Node<A>
    ensures places { places result ≡ leaf_alone want floor ∷ [] }
{
    Node::Leaf { want, floor }
}

/// The trees of a queue by its names from a level down, in a tick. Asks with the same name at the level are under one
/// branch, in the place of the first; an ask without a further name is a leaf. Leaves the queue in the order of the
/// leaves.
pub(crate) fn grow<L: Allocator, A: Allocator + Clone>(
    alloc: &A,
    limits: &Limits<L>,
    tick: u64,
    level: usize,
    queue: &mut [Queued],
) -> Result<Vec<Node<A>, A>, AllocError>
    requires level { level ≤ 5 }
    requires together { AreTogether limits.now level queue.old }
    ensures grown { IfOk result
        (λ k. AreGrownOver limits.now tick level queue.old queue.new k.items) }
    ensures numbers { OnOk result (IsPermutation (numbered queue.old) (numbered queue.new)) }
    ensures in_order { OnOk result ((asks : List Ask)
        → AreAmong limits.now asks (asks_of queue.old)
        → AreInOrder limits.now asks (numbered queue.old)
        → AreInOrder limits.now asks (numbered queue.new)) }
{
    let mut kids = Vec::new(alloc.clone()?);
    let mut start = 0;
    'rows: while start < queue.len() {
        let ask = queue[start].asker.1;
        match queue[start].name {
            None => {
                kids.push(leaf(ask.want, limits.floor(ask)))?;
                start += 1;
            }
            Some(name) => {
                let count = run(&queue[start..]);
                let part = &mut queue[start..start + count];
                arrange(limits, level + 1, part);
                let below = grow(alloc, limits, tick, level + 1, part)?;
                kids.push(branch(rate_limit(limits.rate(name), tick), below))?;
                start += count;
            }
        }
    }
    Ok(kids)
}
