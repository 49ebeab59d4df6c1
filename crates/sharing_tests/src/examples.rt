//! The examples in the heads of the crates that these tests are named after.

use grant_certificate::{Certificate, Verdict, check, seal};
use limit_tree::{Node, Tree};
use line_rates::{Ask, Limits, Way, tree_of};
use rate_floors::Floors;
use round_allocator::allot;
use std::alloc::{AllocError, Global};
use std::test::Fail;
use test_allotment::allot_plainly;

/// Two transfers that wait with 50 and 10 octets, below a limit of 30.
fn two(alloc: Global) -> Result<Node, AllocError> {
    let ann = Node::Leaf { want: 50, floor: 0 };
    let bob = Node::Leaf { want: 10, floor: 6 };
    Ok(Node::Branch {
        limit: Some(30),
        kids: vec![in alloc; ann, bob]?,
    })
}

#[test]
fn limit_tree(rt: HostRuntime) -> Result<(), Fail> {
    let alloc = rt.alloc();
    let ann = Node::Leaf { want: 50, floor: 0 };
    let bob = Node::Leaf { want: 10, floor: 6 };
    let kids = vec![in alloc; ann, bob]?;
    let limit = Some(30);
    let tree = Tree::new(Node::Branch { limit, kids })?;
    assert!(rt; tree.leaves() == 2 && tree.nodes() == 3);
    // the root absorbs 12 octets of one leaf and 10 of the other
    assert!(rt; tree.absorb(0, 12) == 22);
    Ok(())
}

#[test]
fn grant_certificate(rt: HostRuntime) -> Result<(), Fail> {
    let alloc = rt.alloc();
    let tree = Tree::new(two(alloc)?)?; // a limit of 30 over wants of 50 and 10
    let grants = vec![in alloc; 20, 10]?;
    // the root holds back the first leaf
    let certificate = Certificate::new(vec![in alloc; Some(0), None]?);
    // a `No` has the flaw, and in it the leaf or branch at fault
    let verdict = check(&tree, &grants, &certificate);
    assert!(rt; verdict == Verdict::Yes);
    match seal(tree, grants, certificate) {
        Ok(sealed) => assert!(rt; sealed.total() == 30),
        Err(_) => panic!(rt; "refused, and all three are handed back"),
    }
    Ok(())
}

#[test]
fn round_allocator(rt: HostRuntime) -> Result<(), Fail> {
    let alloc = rt.alloc();
    let tree = Tree::new(two(alloc)?)?; // a limit of 30 over wants of 50 and 10
    let (grants, certificate) = allot(alloc, &tree)?; // one grant for each leaf, in octets
    assert!(rt; grants.as_slice() == [20, 10].as_slice());
    assert!(rt; check(&tree, &grants, &certificate) == Verdict::Yes); // always
    Ok(())
}

#[test]
fn test_allotment(rt: HostRuntime) -> Result<(), Fail> {
    let alloc = rt.alloc();
    let tree = Tree::new(two(alloc)?)?; // a limit of 30 over wants of 50 and 10
    let grants = allot_plainly(alloc, &tree)?; // octets a leaf, as `allot` gives them by levels
    assert!(rt; grants.as_slice() == [20, 10].as_slice());
    Ok(())
}

#[test]
fn line_rates(rt: HostRuntime) -> Result<(), Fail> {
    let alloc = rt.alloc();
    // 1,000 octets a second down, and no other limit
    let limits = Limits::of(0, 1_000, 0, Vec::new(alloc), Vec::new(alloc))?;
    let (user, session, way, want) = (0, 0, Way::Down, 500);
    let ask = Ask {
        user,
        session,
        way,
        want,
    };
    let plan = tree_of(alloc, &limits, 7, &[(3, ask)])?; // at tick 7, of the transfer in lane 3
    let (grants, _certificate) = allot(alloc, &plan.tree)?;
    assert!(rt; grants.as_slice() == [100].as_slice()); // what a tenth of a second lets through
    Ok(())
}

#[test]
fn rate_floors(rt: HostRuntime) -> Result<(), Fail> {
    let alloc = rt.alloc();
    let limits = Limits::of(0, 1_000, 0, Vec::new(alloc), Vec::new(alloc))?;
    let mut floors = Floors::of(alloc, &limits)?;
    if floors.admit(1) {
        // a session of user 1, whose guarantee is counted until it is released
        floors.release(1);
    }
    Ok(())
}
