//! The letters of a user: in their order, and in words.

ghost use Rattle.std.specs.Prelude.{◌≡◌, IfOk, codes, cond, nat_eq, string_bytes};
ghost use Rattle.std.specs.List.{list_any};
ghost use Rattle.config_report.specs.UserLines.{ordered, rest_word};
ghost use Rattle.config_report.specs.Warnings.{may_browse};

use std::alloc::{AllocError, Global};
use std::fmt;

/// Returns whether a letter is among others.
fn has(letters: &str, letter: u8) -> bool
    ensures has { result ≡ list_any (nat_eq letter) letters.now }
{
    letters.as_bytes().contains(&letter)
}

/// Returns a text if a letter is among others, and otherwise an empty text.
fn word_if(letters: &str, letter: u8, word: &'static str) -> &'static str
    ensures word { result.now ≡ cond (list_any (nat_eq letter) letters.now) word.now (codes "") }
{
    if has(letters, letter) { word } else { "" }
}

/// Returns whether letters permit to change directories and to list them.
pub(crate) fn may_browse(letters: &str) -> bool
    ensures browse { result ≡ may_browse letters.now }
{
    has(letters, b'e') && has(letters, b'l')
}

/// Returns the letters of a text in their order, each once. `Err` if memory runs out.
pub(crate) fn ordered(alloc: Global, letters: &str) -> Result<String, AllocError>
    ensures ordered { IfOk result (λ text. string_bytes text ≡ ordered letters.now) }
{
    format!(in alloc;
        "{}{}{}{}{}{}{}{}",
        word_if(letters, b'e', "e"),
        word_if(letters, b'l', "l"),
        word_if(letters, b'r', "r"),
        word_if(letters, b'a', "a"),
        word_if(letters, b'd', "d"),
        word_if(letters, b'f', "f"),
        word_if(letters, b'm', "m"),
        word_if(letters, b'w', "w")
    )
}

/// The words after those of letters: that there is nothing, or nothing else.
pub(crate) fn rest_word(letters: &str) -> &'static str
    ensures rest { result.now ≡ rest_word letters.now }
{
    if letters.is_empty() {
        "nothing"
    } else {
        "nothing else"
    }
}

/// Letters, printed as what they permit, each followed by a comma and a blank.
#[derive(Clone, Copy)]
pub(crate) struct Permitted<'a>(pub(crate) &'a str);

impl fmt::Display for Permitted<'_> {
    ghost use Rattle.std.specs.Prelude.{Some};
    ghost use Rattle.config_report.specs.UserLines.{permitted};

    ghost output = { λ p. Some (permitted p.0.now) };

    #[tactic(auto, unfolding(crate::specs::UserLines::permitted))]
    fn fmt<W: fmt::Write>(&self, f: &mut fmt::Formatter<W>) -> fmt::Result {
        let letters = self.0;
        write!(
            f,
            "{}{}{}{}{}{}{}{}",
            word_if(letters, b'e', "change directory, "),
            word_if(letters, b'l', "list, "),
            word_if(letters, b'r', "retrieve, "),
            word_if(letters, b'a', "append, "),
            word_if(letters, b'd', "delete, "),
            word_if(letters, b'f', "rename, "),
            word_if(letters, b'm', "make directories, "),
            word_if(letters, b'w', "store, ")
        )
    }
}
