//! Names within a line: of a file, a user, or a client's address.

ghost use Rattle.std.specs.Prelude.{◌≡◌};
ghost use Rattle.std.specs.List.{list_all};
ghost use Rattle.std.specs.Str.{chars};
ghost use Rattle.log_lines.specs.Names.{is_name, is_plain};

use transfer_log::plain;

fn is_plain(character: char) -> bool
    ensures plain { result ≡ is_plain character }
{
    plain(character) == character
}

fn are_plain(word: &str) -> bool
    ensures plain { result ≡ list_all is_plain (chars word.now) }
{
    word.chars().all(is_plain)
}

/// Returns whether a word is not empty and has plain characters alone.
pub(crate) fn is_name(word: &str) -> bool
    ensures name { result ≡ is_name word.now }
{
    if word.is_empty() {
        return false;
    }
    are_plain(word)
}
