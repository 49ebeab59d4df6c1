//! The begin of a statement of a TOML text: the header of a table, or a key.

ghost use Rattle.std.specs.Prelude.{◌≡◌, ◌≤◌, length, option_map};
ghost use Rattle.std.specs.List.{prefix_len};
ghost use Rattle.config_file.specs.declared.fault.TableName.TheVariants.{Override};
ghost use Rattle.config_file.specs.Statements.{after_blanks, after_name, after_quoted, after_spelled, after_text, is_between, is_blank, is_headed, is_header, is_stated};

use crate::fault::TableName;

/// Returns whether an octet is a blank of a line.
pub(crate) fn is_blank(octet: u8) -> bool
    ensures blank { result ≡ is_blank octet }
{
    octet == b' ' || octet == b'\t'
}

/// Number of the blanks at the front.
fn blanks(octets: &[u8]) -> usize
    ensures count { result ≡ prefix_len is_blank octets.now }
    ensures within { result ≤ length octets.now }
{
    octets.iter().take_while(|octet| is_blank(**octet)).count()
}

fn after_blanks(octets: &[u8]) -> &[u8]
    ensures rest { result.now ≡ after_blanks octets.now }
{
    &octets[blanks(octets)..]
}

/// The rest after a text at the front.
fn after_text<'a>(octets: &'a [u8], text: &str) -> Option<&'a [u8]>
    ensures rest { option_map (λ rest. rest.now) result ≡ after_text text.now octets.now }
{
    if octets.starts_with(text.as_bytes()) {
        Some(&octets[text.len()..])
    } else {
        None
    }
}

/// The rest after a name between two quotes.
fn after_quoted<'a>(octets: &'a [u8], quote: &str, name: &str) -> Option<&'a [u8]>
    ensures rest { option_map (λ rest. rest.now) result
        ≡ after_quoted quote.now name.now octets.now }
{
    match after_text(octets, quote) {
        Some(inside) => match after_text(inside, name) {
            Some(rest) => after_text(rest, quote),
            None => None,
        },
        None => None,
    }
}

/// The rest after a name in one of its three spellings.
fn after_spelled<'a>(octets: &'a [u8], name: &str) -> Option<&'a [u8]>
    ensures rest { option_map (λ rest. rest.now) result ≡ after_spelled name.now octets.now }
{
    match after_text(octets, name) {
        Some(rest) => Some(rest),
        None => match after_quoted(octets, "\"", name) {
            Some(rest) => Some(rest),
            None => after_quoted(octets, "'", name),
        },
    }
}

/// The rest after a name, with the blanks around it.
fn after_name<'a>(octets: &'a [u8], name: &str) -> Option<&'a [u8]>
    ensures rest { option_map (λ rest. rest.now) result ≡ after_name name.now octets.now }
{
    match after_spelled(after_blanks(octets), name) {
        Some(rest) => Some(after_blanks(rest)),
        None => None,
    }
}

/// Returns whether a name between two texts is at the front.
fn is_between(octets: &[u8], front: &str, name: &str, back: &str) -> bool
    ensures between { result ≡ is_between front.now name.now back.now octets.now }
{
    match after_text(octets, front) {
        Some(inside) => match after_name(inside, name) {
            Some(rest) => after_text(rest, back).is_some(),
            None => false,
        },
        None => false,
    }
}

/// Returns whether the header of an override is at the front.
fn is_rule(octets: &[u8]) -> bool
    ensures rule { result ≡ is_header (Override 0) octets.now }
{
    match after_text(octets, "[[") {
        Some(inside) => match after_name(inside, "user") {
            Some(rest) => is_between(rest, ".", "override", "]]"),
            None => false,
        },
        None => false,
    }
}

/// Returns whether the header of a table is at the front. The keys above all tables have none.
pub(crate) fn is_header(octets: &[u8], table: TableName) -> bool
    ensures header { result ≡ is_header table octets.now }
{
    match table {
        TableName::Top => false,
        TableName::Server => is_between(octets, "[", "server", "]"),
        TableName::Group => is_between(octets, "[[", "group", "]]"),
        TableName::User => is_between(octets, "[[", "user", "]]"),
        TableName::Override(_) => is_rule(octets),
        TableName::Dir => is_between(octets, "[[", "dir", "]]"),
        TableName::File => is_between(octets, "[[", "file", "]]"),
    }
}

/// Returns whether a header that begins with a key is at the front.
pub(crate) fn is_headed(octets: &[u8], key: &str) -> bool
    ensures headed { result ≡ is_headed key.now octets.now }
{
    is_between(octets, "[", key, "]")
        || is_between(octets, "[", key, ".")
        || is_between(octets, "[[", key, "]]")
        || is_between(octets, "[[", key, ".")
}

/// Returns whether the value of a key, or of a key of its table, is at the front.
pub(crate) fn is_stated(octets: &[u8], key: &str) -> bool
    ensures stated { result ≡ is_stated key.now octets.now }
{
    is_between(octets, "", key, "=") || is_between(octets, "", key, ".")
}
