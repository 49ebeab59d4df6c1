//! Laws of all lists of calls.

ghost use Rattle.memory_store.specs.Uploads.{FinishPutsWhatCame, MoreIsFull};

/// From `open_write` over any writes to `finish`: the file in memory becomes its first octets, as many
/// as the mode keeps, followed by all pieces written.
pub fn finish_puts_what_came()
    ensures written { FinishPutsWhatCame }
{}

/// An upload of more octets than the capacity is refused as `Full`, whatever the other files have: so a sink needs
/// to hold no more than the capacity.
pub fn more_than_the_capacity_is_full()
    ensures full { MoreIsFull }
{}
