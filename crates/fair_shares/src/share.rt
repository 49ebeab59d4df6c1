//! Fair grants of a plan.

ghost use Rattle.std.specs.Prelude.{◌≡◌, length, map, None, Some, IfErr, IfOk};
ghost use Rattle.limit_tree.specs.Outline.{limits as seen};
ghost use Rattle.limit_tree.specs.Sharing.{IsBackedBy, IsBest};
ghost use Rattle.line_rates.specs.declared.share_by.ShareBy.TheVariants as share;
ghost use Rattle.line_rates.specs.TickTree.{ask_in, IsPlan};
ghost use Rattle.round_allocator.specs.Order.{GivesInOrder};
ghost use Rattle.fair_terms.specs.Fair.{AreSealedOwners, IsBackedFair, IsFair};
ghost use Rattle.fair_shares.specs.Asked.{asks_on, AreApart, IsAskedPlan};
ghost use Rattle.fair_shares.specs.Faults.{IsFairFault};
ghost use Rattle.fair_shares.specs.Users.{IsTreeOf};

use crate::asked::asks_on;
use crate::fault::FairFault;
use crate::owners::users_of;
use grant_certificate::{Sealed, seal, seal_by_users};
use limit_tree::{Flat, Tree};
use line_rates::{Ask, Limits, Plan, ShareBy};
use round_allocator::allot;
use std::alloc::{AllocError, Allocator, Global};
use user_shares::allot_by_users;

/// A plan with its fair grants.
#[derive(Drop)]
pub struct FairShares<A: Allocator = Global> {
    /// The lane of each leaf.
    pub lanes: Vec<u8, A>,
    /// The ask of each leaf.
    pub asks: Vec<Ask, A>,
    /// The tree with its grants, in octets by leaf.
    pub sealed: Sealed<A>,
}

// Best grants of a tree.
fn share_among_sessions<A: Allocator + Clone>(
    alloc: A,
    tree: Tree<A>,
) -> Result<Sealed<A>, AllocError>
    ensures tree { IfOk result (λ s. (s.tree ≡ tree) × (s.owners ≡ None)) }
    ensures best { IfOk result (λ s. IsBest (seen tree) s.grants) }
    ensures backed { IfOk result (λ s. IsBackedBy (seen tree) s.grants s.certificate) }
    ensures order { IfOk result (λ s. GivesInOrder (seen tree) s.grants) }
{
    let (grants, certificate) = allot(alloc, &tree)?;
    match seal(tree, grants, certificate) {
        Ok(sealed) => Ok(sealed),
        Err(_) => unreachable!(),
    }
}

// Grants of the tree of a tick that are best by the users of its asks.
fn share_among_users<A: Allocator + Clone>(
    alloc: A,
    asks: &[Ask],
    tree: Tree<A>,
) -> Result<Sealed<A>, FairFault>
    requires asks { IsTreeOf asks.now (seen tree) }
    ensures tree { IfOk result (λ s. s.tree ≡ tree) }
    ensures owners { IfOk result (λ s. AreSealedOwners share.Users asks.now s.owners) }
    ensures fair { IfOk result (λ s. IsFair share.Users asks.now (seen tree) s.grants) }
    ensures backed { IfOk result (λ s. IsBackedFair share.Users asks.now (seen tree) s.grants
        s.certificate) }
    ensures fault { IfErr result (IsFairFault share.Users asks.now) }
{
    let flat = Flat::of(alloc.clone()?, &tree)?;
    let users = users_of(&alloc, &flat, asks)?;
    let (grants, certificate) = allot_by_users(alloc, &tree, &users.nodes, &users.owners)?;
    match seal_by_users(tree, users.owners, grants, certificate) {
        Ok(sealed) => Ok(sealed),
        Err(_) => unreachable!(),
    }
}

/// The fair grants of the tree of a tick, by the ask of each leaf: best grants if the line is shared among sessions, and
/// grants that are best by users if it is shared among users. The faults are those of `share_plan`.
pub fn share_tree<A: Allocator + Clone>(
    alloc: A,
    share_by: ShareBy,
    asks: &[Ask],
    tree: Tree<A>,
) -> Result<Sealed<A>, FairFault>
    requires asks { IsTreeOf asks.now (seen tree) }
    ensures tree { IfOk result (λ s. s.tree ≡ tree) }
    ensures owners { IfOk result (λ s. AreSealedOwners share_by asks.now s.owners) }
    ensures fair { IfOk result (λ s. IsFair share_by asks.now (seen tree) s.grants) }
    ensures backed { IfOk result
        (λ s. IsBackedFair share_by asks.now (seen tree) s.grants s.certificate) }
    ensures order { share_by ≡ share.Sessions
        → IfOk result (λ s. GivesInOrder (seen tree) s.grants) }
    ensures fault { IfErr result (IsFairFault share_by asks.now) }
{
    match share_by {
        ShareBy::Sessions => Ok(share_among_sessions(alloc, tree)?),
        ShareBy::Users => share_among_users(alloc, asks, tree),
    }
}

/// The fair grants of a plan for asks in a tick, each with its lane, with the ask of each leaf: best grants of the tree
/// if the line is shared among sessions, and if it is shared among users grants that are best by users.
///
/// Returns `Memory` if memory runs out; among users `Unshared` only if the asks of some user, in one way, want more than
/// `MAX_WANT` octets together.
pub fn share_plan<L: Allocator, A: Allocator + Clone>(
    alloc: A,
    limits: &Limits<L>,
    tick: u64,
    asks: &[(u8, Ask)],
    plan: Plan<A>,
) -> Result<FairShares<A>, FairFault>
    requires apart { AreApart asks.now }
    requires plan { IsPlan limits.now tick asks.now (seen plan.tree) plan.lanes.items }
    ensures plan { IfOk result (λ r. IsAskedPlan limits.now tick asks.now (seen r.sealed.tree)
        r.lanes.items r.asks.items) }
    ensures asks { IfOk result (λ r. r.asks.items ≡ asks_on asks.now r.lanes.items) }
    ensures same { IfOk result
        (λ r. (r.sealed.tree ≡ plan.tree) × (r.lanes.items ≡ plan.lanes.items)) }
    ensures each { IfOk result (λ r. length r.lanes.items ≡ length r.sealed.grants) }
    ensures owners { IfOk result
        (λ r. AreSealedOwners limits.now.share_by r.asks.items r.sealed.owners) }
    ensures fair { IfOk result (λ r. IsFair limits.now.share_by r.asks.items (seen r.sealed.tree)
        r.sealed.grants) }
    ensures order { limits.now.share_by ≡ share.Sessions
        → IfOk result (λ r. GivesInOrder (seen r.sealed.tree) r.sealed.grants) }
    ensures fault { IfErr result (IsFairFault limits.now.share_by (map ask_in asks.now)) }
{
    let Plan { tree, lanes } = plan;
    let leaf_asks = asks_on(alloc.clone()?, asks, &lanes)?;
    let sealed = share_tree(alloc, limits.share_by(), &leaf_asks, tree)?;
    Ok(FairShares {
        lanes,
        asks: leaf_asks,
        sealed,
    })
}
