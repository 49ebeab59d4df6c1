//! A property of the definition.

ghost use Rattle.line_queue.specs.Laws.{LinesAreAccounted};

/// Each line offered is written whole, in order and once, or counted at its place: the octets written and those that
/// are not yet written are together the lines taken in and the counts of those dropped between them.
pub fn lines_are_accounted()
    ensures accounted { LinesAreAccounted }
{}
