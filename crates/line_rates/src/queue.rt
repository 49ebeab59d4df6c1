//! The queue of asks, in the order in which they become leaves.

ghost use Rattle.std.specs.Prelude.{◌≡◌, ◌≢◌, ◌<◌, List, length, map, IfOk, IsPermutation};
ghost use Rattle.std.specs.List.{All};
ghost use Rattle.line_rates.specs.Alike.{AreInOrder, IsNumberOf};
ghost use Rattle.line_rates.specs.Queue.{askers, asks_of, numbered, name_of, AreNamedAt, AreNumbered, AreAmong, IsOwnFirst, AreOwnFirst, AreTogether, IsRun};

use crate::ask::{Ask, Name};
use crate::limits::Limits;
use crate::names::name_at;
use std::alloc::{AllocError, Allocator};

/// An ask in the queue.
#[derive(Clone, Copy)]
pub(crate) struct Queued {
    /// Its lane, and the ask.
    pub asker: (u8, Ask),
    /// Its index in the order in which the asks came.
    pub number: usize,
    /// Its name at the current level.
    pub name: Option<Name>,
    /// The index of the first ask with that name.
    pub first: usize,
}

/// The queue of asks in the order in which they came.
pub(crate) fn queue_of<A: Allocator>(
    alloc: A,
    asks: &[(u8, Ask)],
) -> Result<Vec<Queued, A>, AllocError>
    ensures askers { IfOk result (λ queue. askers queue.items ≡ asks.now) }
    ensures numbers { IfOk result
        (λ queue. All (IsNumberOf asks.now) (numbered queue.items)) }
{
    let mut queue = Vec::with_capacity(alloc, asks.len())?;
    for number in 0..asks.len() {
        queue.push(Queued {
            asker: asks[number],
            number,
            name: None,
            first: 0,
        })?;
    }
    Ok(queue)
}

// Sets the name of each ask at a level, and itself as the first ask with that name.
fn give_names<A: Allocator>(limits: &Limits<A>, level: usize, queue: &mut [Queued])
    ensures same { askers queue.new ≡ askers queue.old }
    ensures numbers { numbered queue.new ≡ numbered queue.old }
    ensures own { All IsOwnFirst queue.new }
    ensures named { AreNamedAt limits.now level queue.new }
{
    for place in 0..queue.len() {
        let it = queue[place];
        let name = name_at(limits, it.asker.1, level);
        queue[place] = Queued {
            name,
            first: it.number,
            ..it
        };
    }
}

// The first ask with the name of `it`, if all earlier asks with that name are directly before it.
fn first_of(before: Queued, it: Queued) -> usize
    ensures first { it.name ≡ before.name → result ≡ before.first }
    ensures own { it.name ≢ before.name → result ≡ it.number }
{
    if it.name == before.name {
        before.first
    } else {
        it.number
    }
}

// Sets for each ask the first ask with its name. Asks with the same name are adjacent and sorted by index.
fn give_firsts(queue: &mut [Queued])
    ensures askers { askers queue.new ≡ askers queue.old }
    ensures names { map name_of queue.new ≡ map name_of queue.old }
    ensures numbers { numbered queue.new ≡ numbered queue.old }
    ensures own { All IsOwnFirst queue.old → AreOwnFirst queue.new }
    ensures numbered { AreNumbered queue.new }
{
    for place in 1..queue.len() {
        let before = queue[place - 1];
        let it = queue[place];
        let first = first_of(before, it);
        queue[place] = Queued { first, ..it };
    }
}

/// Makes asks with the same name at a level adjacent, in the order of their first ask. O(n log n) time for n asks,
/// with a binary search for the user of each.
pub(crate) fn arrange<A: Allocator>(limits: &Limits<A>, level: usize, queue: &mut [Queued])
    ensures all { IsPermutation (askers queue.old) (askers queue.new) }
    ensures numbers { IsPermutation (numbered queue.old) (numbered queue.new) }
    ensures in_order { (asks : List Ask) → AreAmong limits.now asks (asks_of queue.old)
        → AreInOrder limits.now asks (numbered queue.new) }
    ensures together { AreTogether limits.now level queue.new }
{
    give_names(limits, level, queue);
    queue.sort_unstable_by_key(|it| (it.name, it.number));
    give_firsts(queue);
    queue.sort_unstable_by_key(|it| (it.first, it.name, it.number));
}

/// Length of the leading run of asks with one name.
pub(crate) fn run(queue: &[Queued]) -> usize
    requires some { 0 < length queue.now }
    ensures run { IsRun queue.now result }
{
    let mut end = 1;
    while end < queue.len() && queue[end].name == queue[0].name {
        end += 1;
    }
    end
}
