//! The desk: a word and a slot for each lane.

ghost use Rattle.std.specs.Prelude.{◌≡◌, ◌<◌, ◌≤◌};
ghost use Rattle.grant_ledger.specs.declared.ledger.TheConstants.{MAX_LANES};

use atomic_table::{Shared, Table};
use desk_rule::{DeskRule, DeskView, LaneSlot};
use grant_ledger::MAX_LANES;
use std::alloc::{Allocator, Global};

/// The words and slots of the lanes, which workers and the round share. Its type has the name of its book, `N`. Grants
/// are in its slots, so it cannot be dropped: it must be closed.
pub struct Desk<N, A: Allocator = Global> {
    table: Table<LaneSlot<N>, DeskView, u64, DeskRule, A>,
    lanes: usize,
    ghost sized: { (table.shared.table_id.slots ≡ lanes) × (lanes ≤ table.shared.table_id.words)
        × (0 < table.shared.table_id.words) × (lanes ≤ MAX_LANES) },
}

impl<N, A: Allocator> Desk<N, A> {
    /// A desk on a table with a slot for each of at most 64 lanes, and at least as many words.
    pub fn new(table: Table<LaneSlot<N>, DeskView, u64, DeskRule, A>, lanes: usize) -> Desk<N, A>
        requires slots { table.shared.table_id.slots ≡ lanes }
        requires words { (lanes ≤ table.shared.table_id.words) × (0 < table.shared.table_id.words) }
        requires few { lanes ≤ MAX_LANES }
        ensures desk { (result.table ≡ table) × (result.lanes ≡ lanes) }
    {
        Desk { table, lanes }
    }

    /// Number of lanes, which are numbered from 0.
    pub fn lanes(&self) -> usize
        ensures lanes { result ≡ self.now.lanes }
        ensures few { result ≤ MAX_LANES }
    {
        self.lanes
    }

    /// The table. All seats must be gathered before it is closed.
    pub fn into_table(self) -> Table<LaneSlot<N>, DeskView, u64, DeskRule, A>
        ensures table { result ≡ self.table }
    {
        let Desk { table, lanes: _ } = self;
        table
    }

    /// The steps on the words and slots.
    pub fn shared(&self) -> &Shared<LaneSlot<N>, DeskView, u64, DeskRule>
        ensures table { result.now.table_id ≡ self.now.table.shared.table_id }
        ensures key { result.now.key ≡ self.now.table.shared.key }
    {
        &self.table.shared
    }
}
