//! Laws of one-line texts.

ghost use Rattle.ftp_terms.specs.Lines.{JoinedStandOnOneLine, PlainStandsOnOneLine};

/// One-line texts, joined, are on one line; so is a text without control octets, such as a name or a
/// path.
pub fn texts_of_one_line()
    ensures joined { JoinedStandOnOneLine }
    ensures plain { PlainStandsOnOneLine }
{}
