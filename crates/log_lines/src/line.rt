//! The line of a transfer, read.

ghost use Rattle.std.specs.Prelude.{◌≡◌, option_map};
ghost use Rattle.log_lines.specs.Lines.{line_of, line_of_words, line_view, name_taken, size_of, size_taken, size_view};
ghost use Rattle.log_lines.specs.Words.{words_left};

use crate::kind::{read_ending, read_kind};
use crate::moment::{LogMoment, read_moment};
use crate::name::is_name;
use crate::number::read_number;
use crate::word::next_word;
use std::str::from_utf8;

/// The fields of a line of a transfer log.
#[derive(Clone, Copy, Debug)]
pub struct LogLine<'t> {
    /// The second of the end.
    pub ended: LogMoment,
    /// The whole seconds that the transfer took.
    pub seconds: u64,
    /// The client's address.
    pub address: &'t str,
    /// The octets that were moved.
    pub octets: u64,
    pub path: &'t str,
    /// Its type was that of texts (TYPE A).
    pub is_text: bool,
    /// It was sent to the client; otherwise it was received.
    pub is_sent: bool,
    /// It was of a user for everybody, `anonymous` or `ftp`.
    pub is_public: bool,
    pub user: &'t str,
    /// It came to its end.
    pub is_whole: bool,
}

// The seconds, the address, the octets and the path of a transfer.
#[derive(Clone, Copy)]
struct SizeWords<'t> {
    seconds: u64,
    address: &'t str,
    octets: u64,
    path: &'t str,
}

fn size_of<'t>(
    seconds: &str,
    address: &'t str,
    octets: &str,
    path: &'t str,
) -> Option<SizeWords<'t>>
    ensures size { option_map size_view result
        ≡ size_of seconds.now address.now octets.now path.now }
{
    if !is_name(address) || !is_name(path) {
        return None;
    }
    Some(SizeWords {
        seconds: read_number(seconds)?,
        address,
        octets: read_number(octets)?,
        path,
    })
}

fn read_size(rest: Option<&str>) -> Option<(SizeWords<'_>, Option<&str>)>
    ensures size { option_map (λ x. (size_view x.0, words_left 32 x.1)) result
        ≡ size_taken (words_left 32 rest.entry) }
{
    let (seconds, rest) = next_word(rest)?;
    let (address, rest) = next_word(rest)?;
    let (octets, rest) = next_word(rest)?;
    let (path, rest) = next_word(rest)?;
    let size = size_of(seconds, address, octets, path)?;
    Some((size, rest))
}

fn read_name(rest: Option<&str>) -> Option<(&str, Option<&str>)>
    ensures name { option_map (λ x. (x.0.now, words_left 32 x.1)) result
        ≡ name_taken (words_left 32 rest.entry) }
{
    let (word, rest) = next_word(rest)?;
    if is_name(word) {
        Some((word, rest))
    } else {
        None
    }
}

fn read_words(rest: Option<&str>) -> Option<LogLine<'_>>
    ensures line { option_map line_view result ≡ line_of_words (words_left 32 rest.entry) }
{
    let (ended, rest) = read_moment(rest)?;
    let (size, rest) = read_size(rest)?;
    let (kind, rest) = read_kind(rest)?;
    let (user, rest) = read_name(rest)?;
    let is_whole = read_ending(rest)?;
    Some(LogLine {
        ended,
        seconds: size.seconds,
        address: size.address,
        octets: size.octets,
        path: size.path,
        is_text: kind.is_text,
        is_sent: kind.is_sent,
        is_public: kind.is_public,
        user,
        is_whole,
    })
}

/// Reads a line, without its end. Returns `None` if it is not of the form.
pub fn read_line(line: &[u8]) -> Option<LogLine<'_>>
    ensures line { option_map line_view result ≡ line_of line.now }
{
    match from_utf8(line) {
        Ok(text) => read_words(Some(text)),
        Err(_) => None,
    }
}
