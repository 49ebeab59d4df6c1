//! The line of a table or of a key in the text of a file.

ghost use Rattle.std.specs.Prelude.{◌≡◌, ◌+◌, ◌<◌, ◌≤◌, ◌^◌, nat_eq, slice_get};
ghost use Rattle.config_file.specs.TextLines.{begin, depth_after, from_long, from_plain, from_text, header_line, is_about, is_found, is_fresh, is_outside, is_start, key_line, line_of, lines_about, point_after, row_line, rule_line, turn};

use crate::fault::TableName;
use crate::statements::{is_blank, is_headed, is_header, is_stated};

/// A comment, or a text with its quote, that a point of a TOML text is within.
#[derive(Clone, Copy)]
enum Within {
    /// Neither.
    Plain,
    Comment,
    /// A text of one line.
    Text(u8),
    /// The same, after a backslash.
    Escaped(u8),
    /// After a quote with which a text begins.
    Opened(u8),
    /// After two of them: an empty text, or the begin of one of several lines.
    Doubled(u8),
    /// A text of several lines.
    Long(u8),
    /// The same, after a backslash.
    LongEscaped(u8),
    /// The same, after a quote.
    Closing(u8),
    /// The same, after two quotes.
    Closed(u8),
}

/// A point of a text, between two octets.
#[derive(Clone, Copy)]
struct Point {
    /// Its line, from 1.
    line: usize,
    /// Only blanks are between the begin of the line and this point.
    fresh: bool,
    /// A header is above.
    headed: bool,
    /// Number of brackets that are open.
    depth: usize,
    within: Within,
}

fn from_plain(octet: u8) -> Within
    ensures within { result ≡ from_plain octet }
{
    match octet {
        b'#' => Within::Comment,
        b'"' | b'\'' => Within::Opened(octet),
        _ => Within::Plain,
    }
}

fn from_text(quote: u8, octet: u8) -> Within
    ensures within { result ≡ from_text quote octet }
{
    if octet == quote || octet == b'\n' {
        Within::Plain
    } else if octet == b'\\' && quote == b'"' {
        Within::Escaped(quote)
    } else {
        Within::Text(quote)
    }
}

fn from_long(quote: u8, octet: u8) -> Within
    ensures within { result ≡ from_long quote octet }
{
    if octet == quote {
        Within::Closing(quote)
    } else if octet == b'\\' && quote == b'"' {
        Within::LongEscaped(quote)
    } else {
        Within::Long(quote)
    }
}

impl Within {
    /// The same after an octet.
    fn turn(self, octet: u8) -> Within
        ensures within { result ≡ turn self octet }
    {
        match self {
            Within::Plain => from_plain(octet),
            Within::Comment if octet == b'\n' => Within::Plain,
            Within::Comment => Within::Comment,
            Within::Text(quote) => from_text(quote, octet),
            Within::Escaped(quote) => Within::Text(quote),
            Within::Opened(quote) if octet == quote => Within::Doubled(quote),
            Within::Opened(quote) => from_text(quote, octet),
            Within::Doubled(quote) if octet == quote => Within::Long(quote),
            Within::Doubled(_) => from_plain(octet),
            Within::Long(quote) => from_long(quote, octet),
            Within::LongEscaped(quote) => Within::Long(quote),
            Within::Closing(quote) if octet == quote => Within::Closed(quote),
            Within::Closing(quote) => from_long(quote, octet),
            Within::Closed(quote) if octet == quote => Within::Plain,
            Within::Closed(quote) => from_long(quote, octet),
        }
    }

    /// Returns whether a point is outside texts and comments.
    fn is_outside(self) -> bool
        ensures outside { result ≡ is_outside self }
    {
        matches!(self, Within::Plain | Within::Doubled(_))
    }
}

/// Returns whether only blanks are between the begin of a line and what follows this octet.
fn is_fresh(fresh: bool, octet: u8) -> bool
    ensures fresh { result ≡ is_fresh fresh octet }
{
    octet == b'\n' || (fresh && (is_blank(octet) || octet >= 128))
}

/// Number of brackets that are open after an octet outside texts and comments.
fn depth_after(depth: usize, octet: u8) -> usize
    requires few { depth < 2 ^ 63 }
    ensures depth { result ≡ depth_after depth octet }
{
    match octet {
        b'[' | b'{' => depth + 1,
        b']' | b'}' => depth.saturating_sub(1),
        _ => depth,
    }
}

impl Point {
    /// Returns whether a statement may begin here.
    fn is_start(self) -> bool
        ensures start { result ≡ is_start self }
    {
        self.fresh && self.depth == 0 && self.within.is_outside()
    }

    /// The point after the octet that follows this one.
    fn after(self, octet: u8) -> Point
        requires lines { self.line < 2 ^ 63 }
        requires depth { self.depth < 2 ^ 63 }
        ensures point { result ≡ point_after self octet }
        ensures line { result.line ≤ self.line + 1 }
        ensures depth { result.depth ≤ self.depth + 1 }
    {
        Point {
            line: if octet == b'\n' {
                self.line + 1
            } else {
                self.line
            },
            fresh: is_fresh(self.fresh, octet),
            headed: self.headed || (self.is_start() && octet == b'['),
            depth: if self.within.is_outside() {
                depth_after(self.depth, octet)
            } else {
                self.depth
            },
            within: self.within.turn(octet),
        }
    }
}

/// Returns whether a statement at the front is about a table, or above all tables about a key.
fn is_about(octets: &[u8], table: TableName, key: &str, headed: bool) -> bool
    ensures about { result ≡ is_about table key.now headed octets.now }
{
    match table {
        TableName::Top => is_headed(octets, key) || (!headed && is_stated(octets, key)),
        _ => is_header(octets, table),
    }
}

/// Returns whether such a statement begins at a point, in a line after this one.
fn is_found(octets: &[u8], table: TableName, key: &str, behind: usize, point: Point) -> bool
    ensures found { result ≡ is_found table key.now behind point octets.now }
{
    point.is_start() && behind < point.line && is_about(octets, table, key, point.headed)
}

/// The line of a row, which counts from 1, of a table or a key, after this line.
fn row_line(octets: &[u8], table: TableName, key: &str, behind: usize, row: usize) -> Option<usize>
    ensures line { result ≡ row_line octets.now table key.now behind row }
{
    let mut before = row.saturating_sub(1);
    let mut point = Point {
        line: 1,
        fresh: true,
        headed: false,
        depth: 0,
        within: Within::Plain,
    };
    for index in 0..octets.len() {
        if is_found(&octets[index..], table, key, behind, point) {
            if before == 0 {
                return Some(point.line);
            }
            before -= 1;
        }
        point = point.after(octets[index]);
    }
    None
}

/// The line of a key above all tables, or of the first header that begins with it; otherwise the first.
fn key_line(octets: &[u8], key: &str) -> usize
    ensures line { result ≡ key_line octets.now key.now }
{
    row_line(octets, TableName::Top, key, 0, 1).unwrap_or(1)
}

/// The line of the header of a row; or of the key, if its table has none.
fn header_line(octets: &[u8], table: TableName, row: usize, key: &str) -> usize
    ensures line { result ≡ header_line octets.now table row key.now }
{
    match row_line(octets, table, key, 0, row) {
        Some(line) => line,
        None => key_line(octets, key),
    }
}

/// The line of a user's override.
fn rule_line(octets: &[u8], user: usize, row: usize) -> usize
    ensures line { result ≡ rule_line octets.now user row }
{
    let above = header_line(octets, TableName::User, user, "user");
    row_line(octets, TableName::Override(user), "override", above, row).unwrap_or(above)
}

/// The line, from 1, of a fault of a table in the text of a TOML document: that of the table's header, or above all
/// tables that of the key. A row of a list counts from 1.
pub fn line_of(octets: &[u8], table: TableName, row: usize, key: &str) -> usize
    ensures line { result ≡ line_of octets.now table row key.now }
{
    match table {
        TableName::Top => key_line(octets, key),
        TableName::Server => header_line(octets, table, row, "server"),
        TableName::Group => header_line(octets, table, row, "group"),
        TableName::User => header_line(octets, table, row, "user"),
        TableName::Override(user) => rule_line(octets, user, row),
        TableName::Dir => header_line(octets, table, row, "dir"),
        TableName::File => header_line(octets, table, row, "file"),
    }
}
