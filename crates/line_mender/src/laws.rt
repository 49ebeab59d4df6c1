//! Properties of the definition.

ghost use Rattle.line_mender.specs.Laws.{PassesText, EndsAborts, TakesMarksOut};

/// Text without urgent octets passes unchanged, with any silences between, if each line begins with an octet below 128
/// and CR occurs only before LF.
pub fn text_passes()
    ensures passes { PassesText }
{}

/// If the LF of an ABOR was urgent, its line is ended by the first silence.
pub fn aborts_are_ended()
    ensures ended { EndsAborts }
{}

/// If the second IAC of IAC IP IAC DM was urgent, the DM is removed, and the line after it is complete.
pub fn marks_are_taken_out()
    ensures taken { TakesMarksOut }
{}
