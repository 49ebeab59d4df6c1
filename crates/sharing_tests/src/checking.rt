//! The result of sealing grants. Worked verdicts are in `runs/verdicts.toml`.

use super::trees::{USERS, tree};
use crate::expect::holds;
use grant_certificate::{Certificate, Flaw, Refused, Sealed, seal};
use limit_tree::Tree;
use std::process::Abort;

fn total_of(rt: &impl Abort, sealed: &Sealed, leaves: usize) -> u64 {
    holds(rt, sealed.tree().leaves() == leaves);
    holds(rt, sealed.grants().len() == leaves);
    holds(rt, sealed.certificate().entries().len() == leaves);
    sealed.total()
}

fn flaw_of(rt: &impl Abort, refused: &Refused, leaves: usize) -> Flaw {
    holds(rt, refused.tree.leaves() == leaves);
    holds(rt, refused.grants.len() == leaves);
    holds(rt, refused.certificate.entries().len() == leaves);
    refused.flaw
}

/// The result of sealing grants: their sum, or their flaw. Either way the tree, the grants and the certificate are
/// returned.
pub(crate) fn total(
    rt: &impl Abort,
    tree: Tree,
    grants: Vec<u64>,
    certificate: Certificate,
) -> Result<u64, Flaw> {
    let leaves = tree.leaves();
    match seal(tree, grants, certificate) {
        Ok(sealed) => Ok(total_of(rt, &sealed, leaves)),
        Err(refused) => Err(flaw_of(rt, &refused, leaves)),
    }
}

#[test]
fn hands_back(rt: HostRuntime) {
    let refused = total(
        &rt,
        tree(&rt, &USERS),
        [15, 15, 36, 10].to_vec(rt.alloc()).expect(&rt, "memory"),
        Certificate::new(
            [Some(1), Some(1), Some(0), None]
                .to_vec(rt.alloc())
                .expect(&rt, "memory"),
        ),
    );
    holds(&rt, refused == Err(Flaw::OverLimit { node: 0 }));
}
