//! Sealed decisions.

ghost use Rattle.std.specs.Prelude.{◌≡◌, IfOk};

use crate::fault::FundsFault;
use grant_certificate::{Certificate, Sealed, seal};
use limit_tree::{Node, Tree};
use std::alloc::{AllocError, Global};

// Leaves that want these amounts, under no limit.
fn leaves(alloc: Global, amounts: &[u64]) -> Result<Node, AllocError> {
    let mut kids = Vec::new(alloc);
    for amount in amounts {
        kids.push(Node::Leaf {
            want: *amount,
            floor: 0,
        })?;
    }
    Ok(Node::Branch { limit: None, kids })
}

/// The decision that grants each of these amounts, to leaves that want no more.
pub fn sealed(alloc: Global, amounts: &[u64]) -> Result<Sealed, FundsFault>
    ensures grants { IfOk result (λ sealed. sealed.grants ≡ amounts.now) }
{
    let grants = amounts.to_vec(alloc)?;
    let entries = vec![in alloc; None; amounts.len()]?;
    match Tree::new(leaves(alloc, amounts)?) {
        Ok(tree) => match seal(tree, grants, Certificate::new(entries)) {
            Ok(sealed) => Ok(sealed),
            Err(_) => Err(FundsFault::Refused),
        },
        Err(_) => Err(FundsFault::Refused),
    }
}
