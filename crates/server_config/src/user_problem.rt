//! Problems of users and of overrides.

ghost use Rattle.std.specs.Prelude.{◌≡◌, None, encode_utf8};
ghost use Rattle.std.specs.Option.{is_some};
ghost use Rattle.ftp_terms.specs.Letters.{letters_of};
ghost use Rattle.server_config.specs.UserProblems.{IsStrayLetter};

use authorizer::AuthorizerFault;
use ftp_terms::Letters;
use std::fmt;
use thiserror::Error;

/// A problem of a user or of an override.
#[derive(Clone, Copy, Debug, PartialEq, Eq, Error)]
pub enum UserProblem {
    /// The first character of the stated letters that is no permission letter.
    #[error("{}", StrayLetter(*.0))]
    BadLetter(char),
    /// The authorizer's refusal, if it is not for a letter.
    #[error("{0}")]
    Refused(AuthorizerFault),
}

/// All permission letters, in the order of the alphabet.
#[derive(Clone, Copy)]
struct AllLetters;

impl fmt::Display for AllLetters {
    fn fmt<W: fmt::Write>(&self, f: &mut fmt::Formatter<W>) -> fmt::Result {
        let mut separator = "";
        for octet in b'a'..=b'z' {
            let letter = char::from(octet);
            if is_letter(letter) {
                write!(f, "{separator}{letter}")?;
                separator = " ";
            }
        }
        Ok(())
    }
}

/// A character that is no permission letter.
#[derive(Clone, Copy)]
struct StrayLetter(char);

impl fmt::Display for StrayLetter {
    fn fmt<W: fmt::Write>(&self, f: &mut fmt::Formatter<W>) -> fmt::Result {
        let letter = self.0;
        let hint = letter_hint(letter);
        write!(
            f,
            "{letter:?} is no permission letter; the letters are {}{hint}",
            AllLetters
        )
    }
}

/// The use of a letter that is one of other servers alone.
fn letter_hint(character: char) -> &'static str {
    match character {
        'M' => "; M is for changed modes, and files have none here",
        'T' => "; T is for stated times of change, and they are not stated here",
        _ => "",
    }
}

fn is_letter(character: char) -> bool
    ensures letter { result ≡ is_some (letters_of (encode_utf8 character)) }
{
    let mut octets = [0u8; 4];
    Letters::read(character.encode_utf8(&mut octets)).is_some()
}

/// The first character of a text that is no permission letter.
pub(crate) fn stray_letter(text: &str) -> char
    requires stray { letters_of text.now ≡ None }
    ensures stray { IsStrayLetter text.now result }
{
    for character in text.chars() {
        if !is_letter(character) {
            return character;
        }
    }
    unreachable!()
}
