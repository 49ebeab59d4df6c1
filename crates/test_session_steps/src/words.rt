//! The words after a colon.

use crate::fault::Fault;
use session_table::End;

/// The passive port that comes.
pub(crate) const PORT: u16 = 40_000;

/// The request of a line with a colon.
#[derive(Clone, Copy)]
pub(crate) enum Word<'a> {
    /// `:anew`: the next client's session, on the same store.
    Anew,
    /// `:talk`: the same for a whole control session: up to its end the lines are the client's, and the words are the
    /// events between them.
    Talk,
    /// `:deaf`: in a whole session, the client takes no more replies.
    Deaf,
    /// `:lost`: in a whole session, the read of the next line fails.
    Lost,
    /// `:fail N`: the store passes N calls, not counting those of the program itself, and fails the next.
    Fail(u64),
    /// `:other`: another session of ann logs in if its rate can be guaranteed, or leaves.
    Other,
    /// `:at N`: the moment of the inputs that follow, in milliseconds since 1970.
    At(u64),
    /// `:remove NAME`: the user is removed.
    Remove(&'a str),
    /// `:look PATH`: prints the entry of the store there.
    Look(&'a str),
    /// `:held`: the input for a held line.
    Held,
    /// `:port`, `:no port`: the passive port comes, or none is free.
    Port(Option<u16>),
    /// `:closed`: the control connection is gone.
    Closed,
    /// `:end WORD`, `:end WORD +OCTETS`: a transfer's end; the sink of an upload comes back if there is a plus, with
    /// the octets after it.
    End(End, Option<&'a str>),
}

fn end_of(word: &str) -> Option<End> {
    match word {
        "done" => Some(End::Done),
        "lost" => Some(End::Lost),
        "local" => Some(End::Local),
        "full" => Some(End::Full),
        "unconnected" => Some(End::NoConnection),
        "forgotten" => Some(End::NoMemory),
        "aborted" => Some(End::Aborted),
        _ => None,
    }
}

fn ended<'a>(how: &'a str) -> Option<Word<'a>> {
    match how.split_once(" +") {
        Some((word, octets)) => Some(Word::End(end_of(word)?, Some(octets))),
        None => Some(Word::End(end_of(how)?, None)),
    }
}

/// A word with others after it.
fn longer<'a>(word: &str, rest: &'a str) -> Option<Word<'a>> {
    match word {
        "at" => Some(Word::At(rest.parse().ok()?)),
        "fail" => Some(Word::Fail(rest.parse().ok()?)),
        "remove" => Some(Word::Remove(rest)),
        "look" => Some(Word::Look(rest)),
        "end" => ended(rest),
        _ => None,
    }
}

/// Reads the request in the text of a line after its colon.
pub(crate) fn asked<'a>(octets: &'a [u8]) -> Result<Word<'a>, Fault> {
    match str::from_utf8(octets) {
        Ok(text) => word_of(text.trim_end()).ok_or(Fault::Word),
        Err(_) => Err(Fault::Word),
    }
}

/// Reads the request in a text after a colon.
fn word_of<'a>(text: &'a str) -> Option<Word<'a>> {
    match text {
        "anew" => Some(Word::Anew),
        "talk" => Some(Word::Talk),
        "deaf" => Some(Word::Deaf),
        "lost" => Some(Word::Lost),
        "other" => Some(Word::Other),
        "held" => Some(Word::Held),
        "port" => Some(Word::Port(Some(PORT))),
        "no port" => Some(Word::Port(None)),
        "closed" => Some(Word::Closed),
        _ => {
            let (word, rest) = text.split_once(' ')?;
            longer(word, rest)
        }
    }
}
