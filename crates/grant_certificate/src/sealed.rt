//! Grants that passed the check.

ghost use Rattle.std.specs.Prelude.{◌≡◌, ◌<◌, ◌^◌, ◌↔◌, ℕ, IfOk, IfErr, IsOk, IsTrue, None, Some, sum};
ghost use Rattle.limit_tree.specs.Outline.{limits};
ghost use Rattle.limit_tree.specs.Sharing.{IsWithin, IsBackedBy};
ghost use Rattle.grant_certificate.specs.Flaws.{IsFirstFlaw};
ghost use Rattle.grant_certificate.specs.Sealing.{IsBackedFor, IsBestFor, IsSealed};
ghost use Rattle.grant_certificate.specs.Users.{HasUsers, IsBackedByUsers};

use super::by_users::check_by_users;
use super::certificate::Certificate;
use super::checker::check;
use super::flaw::{Flaw, Verdict};
use limit_tree::Tree;
use std::alloc::{Allocator, Global};
use std::marker::Model;

/// Grants that are within the limits of their tree and backed by their certificate, and therefore best: among the leaves,
/// or among users first if the leaves have them. The tree may use another allocator than the grants.
#[derive(Drop)]
pub struct Sealed<A: Allocator = Global, B: Allocator = A> {
    tree: Tree<A>,
    // the user of each leaf, if the tree is shared among users
    owners: Option<Vec<u32, B>>,
    grants: Vec<u64, B>,
    certificate: Certificate<B>,
}

impl<A: Allocator, B: Allocator> Model for Sealed<A, B> {
    ghost use Rattle.std.specs.Prelude.{option_map};
    ghost use Rattle.grant_certificate.specs.Sealing.{Sealing, IsSealed};

    ghost Value = { Sealing };

    ghost view = { λ s. record {
      tree = s.tree;
      owners = option_map (λ o. o.items) s.owners;
      grants = s.grants.items;
      certificate = s.certificate;
    } };

    ghost invariant = { λ s.
        IsSealed s.tree (option_map (λ o. o.items) s.owners) s.grants.items s.certificate };
}

/// A refused tree with its grants, its certificate, and the first flaw.
#[derive(Drop)]
pub struct Refused<A: Allocator = Global, B: Allocator = A> {
    pub tree: Tree<A>,
    pub grants: Vec<u64, B>,
    pub certificate: Certificate<B>,
    pub flaw: Flaw,
}

/// A refused tree with the users of its leaves, its grants and its certificate.
#[derive(Drop)]
pub struct RefusedByUsers<A: Allocator = Global, B: Allocator = A> {
    pub tree: Tree<A>,
    pub owners: Vec<u32, B>,
    pub grants: Vec<u64, B>,
    pub certificate: Certificate<B>,
}

/// Seals grants, in octets by leaf, that are within the limits of the tree and backed by the certificate. No memory.
/// On refusal the arguments are returned with the first flaw that `check` finds.
pub fn seal<A: Allocator, B: Allocator>(
    tree: Tree<A>,
    grants: Vec<u64, B>,
    certificate: Certificate<B>,
) -> Result<Sealed<A, B>, Refused<A, B>>
    ensures seals { IsOk result
        ↔ (IsWithin (limits tree) grants.items
        × IsBackedBy (limits tree) grants.items certificate) }
    ensures sealed { IfOk result (λ s. (s.tree ≡ tree) × (s.owners ≡ None)
        × (s.grants ≡ grants.items) × (s.certificate ≡ certificate)) }
    ensures refused { IfErr result (λ r. (r.tree ≡ tree) × (r.grants ≡ grants)
        × (r.certificate ≡ certificate)
        × IsFirstFlaw (limits tree) grants.items certificate r.flaw) }
{
    match check(&tree, &grants, &certificate) {
        Verdict::Yes => Ok(Sealed {
            tree,
            owners: None,
            grants,
            certificate,
        }),
        Verdict::No(flaw) => Err(Refused {
            tree,
            grants,
            certificate,
            flaw,
        }),
    }
}

// Returns whether grants may be sealed among users.
fn are_sealed<A: Allocator, B: Allocator>(
    tree: &Tree<A>,
    owners: &Vec<u32, B>,
    grants: &Vec<u64, B>,
    certificate: &Certificate<B>,
) -> bool
    requires users { (users : ℕ) × HasUsers (limits tree.now) users owners.now.items }
    ensures sealed { IsTrue result
        → IsSealed tree.now (Some owners.now.items) grants.now.items certificate.now }
    ensures exact { IsTrue result ↔ (IsWithin (limits tree.now) grants.now.items
        × IsBackedByUsers (limits tree.now) owners.now.items grants.now.items certificate.now) }
{
    check_by_users(tree, owners, grants, certificate)
}

/// Seals grants, in octets by leaf, that are within the limits of the tree and backed by the certificate among users.
/// `owners` has the number of the user of each leaf. No memory. On refusal by `check_by_users` the arguments are
/// returned.
pub fn seal_by_users<A: Allocator, B: Allocator>(
    tree: Tree<A>,
    owners: Vec<u32, B>,
    grants: Vec<u64, B>,
    certificate: Certificate<B>,
) -> Result<Sealed<A, B>, RefusedByUsers<A, B>>
    requires users { (users : ℕ) × HasUsers (limits tree) users owners.items }
    ensures seals { IsOk result
        ↔ (IsWithin (limits tree) grants.items
        × IsBackedByUsers (limits tree) owners.items grants.items certificate) }
    ensures sealed { IfOk result (λ s. (s.tree ≡ tree) × (s.owners ≡ Some owners.items)
        × (s.grants ≡ grants.items) × (s.certificate ≡ certificate)) }
    ensures refused { IfErr result (λ r. (r.tree ≡ tree) × (r.owners ≡ owners)
        × (r.grants ≡ grants) × (r.certificate ≡ certificate)) }
{
    if are_sealed(&tree, &owners, &grants, &certificate) {
        Ok(Sealed {
            tree,
            owners: Some(owners),
            grants,
            certificate,
        })
    } else {
        Err(RefusedByUsers {
            tree,
            owners,
            grants,
            certificate,
        })
    }
}

impl<A: Allocator, B: Allocator> Sealed<A, B> {
    /// The tree.
    pub fn tree(&self) -> &Tree<A>
        ensures tree { result.now ≡ self.now.tree }
        ensures best { IsBestFor self.now.owners (limits self.now.tree) self.now.grants }
    {
        &self.tree
    }

    /// The grants, in octets by leaf.
    pub fn grants(&self) -> &[u64]
        ensures grants { result.now ≡ self.now.grants }
        ensures best { IsBestFor self.now.owners (limits self.now.tree) self.now.grants }
    {
        self.grants.as_slice()
    }

    /// The certificate.
    pub fn certificate(&self) -> &Certificate<B>
        ensures certificate { result.now ≡ self.now.certificate }
        ensures within { IsWithin (limits self.now.tree) self.now.grants }
        ensures backed { IsBackedFor self.now.owners (limits self.now.tree) self.now.grants
            self.now.certificate }
        ensures best { IsBestFor self.now.owners (limits self.now.tree) self.now.grants }
    {
        &self.certificate
    }

    /// The sum of the grants, in octets.
    pub fn total(&self) -> u64
        ensures total { result ≡ sum self.now.grants }
        ensures best { IsBestFor self.now.owners (limits self.now.tree) self.now.grants }
    {
        let _ = self.tree.leaves();
        sum_of(&self.grants)
    }
}

fn sum_of(grants: &[u64]) -> u64
    requires fits { sum grants.now < 2 ^ 64 }
    ensures sum { result ≡ sum grants.now }
{
    grants.iter().sum()
}
