//! The words of one letter, and those that are always the same.

ghost use Rattle.std.specs.Prelude.{◌≡◌, option_map};
ghost use Rattle.log_lines.specs.Kinds.{ending_of, kind_of, kind_taken, letter_of, status_of};
ghost use Rattle.log_lines.specs.Words.{words_left};

use crate::word::{ends, next_word};

/// The type of a transfer, its direction and its access.
#[derive(Clone, Copy)]
pub(crate) struct Kind {
    pub(crate) is_text: bool,
    pub(crate) is_sent: bool,
    pub(crate) is_public: bool,
}

/// Reads one of two words: whether it is the first.
pub(crate) fn read_letter(word: &str, first: &str, second: &str) -> Option<bool>
    ensures letter { result ≡ letter_of first.now second.now word.now }
{
    if word == first {
        return Some(true);
    }
    if word == second { Some(false) } else { None }
}

/// Reads transfer-type, special-action-flag, direction and access-mode, and returns them with the words after them.
pub(crate) fn read_kind(rest: Option<&str>) -> Option<(Kind, Option<&str>)>
    ensures kind { option_map (λ x. (x.0, words_left 32 x.1)) result
        ≡ kind_taken (words_left 32 rest.entry) }
{
    let (form, rest) = next_word(rest)?;
    let (action, rest) = next_word(rest)?;
    let (direction, rest) = next_word(rest)?;
    let (access, rest) = next_word(rest)?;
    let kind = kind_of(form, action, direction, access)?;
    Some((kind, rest))
}

fn kind_of(form: &str, action: &str, direction: &str, access: &str) -> Option<Kind>
    ensures kind { result ≡ kind_of form.now action.now direction.now access.now }
{
    if action != "_" {
        return None;
    }
    Some(Kind {
        is_text: read_letter(form, "a", "b")?,
        is_sent: read_letter(direction, "o", "i")?,
        is_public: read_letter(access, "a", "r")?,
    })
}

fn status_of(service: &str, method: &str, id: &str, status: &str) -> Option<bool>
    ensures status { result ≡ status_of service.now method.now id.now status.now }
{
    if service != "ftp" || method != "0" || id != "*" {
        return None;
    }
    read_letter(status, "c", "i")
}

/// Reads service-name, authentication-method, authenticated-user-id and completion-status, which end a line: whether the
/// transfer was complete.
pub(crate) fn read_ending(rest: Option<&str>) -> Option<bool>
    ensures ending { result ≡ ending_of (words_left 32 rest.entry) }
{
    let (service, rest) = next_word(rest)?;
    let (method, rest) = next_word(rest)?;
    let (id, rest) = next_word(rest)?;
    let (status, rest) = next_word(rest)?;
    if !ends(rest, ' ') {
        return None;
    }
    status_of(service, method, id, status)
}
