//! The names of the branches of the tree of a tick.

ghost use Rattle.std.specs.Prelude.{◌≡◌, ◌<◌, ◌↔◌, ℕ, IfNone, IfSome, IsTrue, Some, length};
ghost use Rattle.limit_tree.specs.Outline.{leaf_range, limits as seen};
ghost use Rattle.line_rates.specs.Names.{bears as counts};
ghost use Rattle.line_rates.specs.Rates.{group_of};
ghost use Rattle.line_rates.specs.TickTree.{bears_at};
ghost use Rattle.round_tally.specs.Named.{HasNameOf, IsNameOf};

use limit_tree::{NodeKind, Place, Tree};
use line_rates::{Ask, Limits, Name, rate_limit};
use std::alloc::Allocator;

/// Returns whether an ask counts under a name.
pub fn bears<L: Allocator>(limits: &Limits<L>, name: Name, ask: Ask) -> bool
    ensures bears { result ≡ counts limits.now name ask }
{
    match name {
        Name::Server => true,
        Name::Direction(way) => ask.way == way,
        Name::Group(way, group) => ask.way == way && limits.group_of(ask.user) == Some(group),
        Name::User(way, user) => ask.way == way && ask.user == user,
        Name::Session(way, user, session) => {
            ask.way == way && (ask.user == user && ask.session == session)
        }
    }
}

fn is_same(one: bool, other: bool) -> bool
    ensures same { IsTrue result ↔ (one ≡ other) }
{
    one == other
}

fn is_limit(limit: Option<u64>, other: Option<u64>) -> bool
    ensures same { IsTrue result ↔ (limit ≡ other) }
{
    limit == other
}

// Returns whether the leaves of a node are those that count under a name.
fn holds_alike<L: Allocator>(limits: &Limits<L>, asks: &[Ask], place: Place, name: Name) -> bool
    ensures alike { IsTrue result ↔ ((i : ℕ) → i < length asks.now
        → leaf_range place.first place.leaves i
        ≡ bears_at limits.now name asks.now i) }
{
    for leaf in 0..asks.len() {
        if !is_same(place.holds(leaf), bears(limits, name, asks[leaf])) {
            return false;
        }
    }
    true
}

// Returns whether the branch of a node is that of a name.
fn is_name_of<L: Allocator, A: Allocator>(
    limits: &Limits<L>,
    tick: u64,
    asks: &[Ask],
    tree: &Tree<A>,
    node: usize,
    name: Name,
) -> bool
    requires node { node < length tree.now }
    requires leaves { length (seen tree.now).wants ≡ length asks.now }
    ensures yes { IsTrue result
        → IsNameOf limits.now tick asks.now (seen tree.now) node name }
    ensures no { IsNameOf limits.now tick asks.now (seen tree.now) node name
        → IsTrue result }
{
    let place = tree.place(node);
    match place.kind {
        NodeKind::Branch { limit } => {
            is_limit(limit, rate_limit(limits.rate(name), tick))
                && holds_alike(limits, asks, place, name)
        }
        NodeKind::Leaf { .. } => true,
    }
}

// The name of the group of an ask, if the branch of a node is its.
fn named_by_group<L: Allocator, A: Allocator>(
    limits: &Limits<L>,
    tick: u64,
    asks: &[Ask],
    tree: &Tree<A>,
    node: usize,
    ask: Ask,
) -> Option<Name>
    requires node { node < length tree.now }
    requires leaves { length (seen tree.now).wants ≡ length asks.now }
    ensures some { IfSome result
        (IsNameOf limits.now tick asks.now (seen tree.now) node) }
    ensures none { IfNone result ((group : ℕ) → group_of limits.now ask.user ≡ Some group
        → ¬ IsNameOf limits.now tick asks.now (seen tree.now) node
        (Name.Group ask.way group)) }
{
    let group = limits.group_of(ask.user)?;
    let name = Name::Group(ask.way, group);
    if is_name_of(limits, tick, asks, tree, node, name) {
        Some(name)
    } else {
        None
    }
}

/// The name of the branch of a node above the leaf of an ask. Of several names with the same limit and the same leaves
/// it is the innermost.
pub(crate) fn name_of<L: Allocator, A: Allocator>(
    limits: &Limits<L>,
    tick: u64,
    asks: &[Ask],
    tree: &Tree<A>,
    node: usize,
    ask: Ask,
) -> Name
    requires node { node < length tree.now }
    requires leaves { length (seen tree.now).wants ≡ length asks.now }
    requires named { HasNameOf limits.now tick asks.now (seen tree.now) node ask }
    ensures name { IsNameOf limits.now tick asks.now (seen tree.now) node result }
{
    let Ask {
        user,
        session,
        way,
        ..
    } = ask;
    if is_name_of(
        limits,
        tick,
        asks,
        tree,
        node,
        Name::Session(way, user, session),
    ) {
        return Name::Session(way, user, session);
    }
    if is_name_of(limits, tick, asks, tree, node, Name::User(way, user)) {
        return Name::User(way, user);
    }
    if let Some(name) = named_by_group(limits, tick, asks, tree, node, ask) {
        return name;
    }
    if is_name_of(limits, tick, asks, tree, node, Name::Direction(way)) {
        return Name::Direction(way);
    }
    Name::Server
}
