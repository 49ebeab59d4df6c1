//! Paths.

ghost use Rattle.std.specs.Prelude.{◌≡◌, IfSome, option_map};
ghost use Rattle.std.specs.List.{list_all};
ghost use Rattle.sheet_text.specs.Paths.{names_of, parts, IsPathText};
ghost use Rattle.sheet_text.specs.Text.{is_name, is_name_octet, is_named_path, named_path, path};

use std::str::from_utf8;

/// Maximum number of octets of a name.
pub const LONGEST_NAME: usize = 64;

fn is_name_octet(octet: u8) -> bool
    ensures octet { result ≡ is_name_octet octet }
{
    octet.is_ascii_alphanumeric() || octet == b'-' || octet == b'_' || octet == b'.'
}

fn are_name_octets(text: &[u8]) -> bool
    ensures octets { result ≡ list_all is_name_octet text.now }
{
    text.iter().all(|octet| is_name_octet(*octet))
}

fn is_name(name: &[u8]) -> bool
    ensures name { result ≡ is_name name.now }
{
    !name.is_empty() && name.len() <= LONGEST_NAME && are_name_octets(name)
}

fn are_names(text: &[u8]) -> bool
    ensures names { result ≡ list_all is_name (parts 47 text.now) }
{
    text.split(|octet| *octet == b'/').all(is_name)
}

fn is_named_path(text: &[u8]) -> bool
    ensures path { result ≡ is_named_path text.now }
{
    match text {
        [b'/', rest @ ..] => are_names(rest),
        _ => false,
    }
}

/// Reads a path of at least one name.
pub fn read_named_path(text: &[u8]) -> Option<&str>
    ensures path { option_map (λ path. names_of path.now) result ≡ named_path text.now }
    ensures text { IfSome result (λ path. IsPathText path.now) }
{
    if is_named_path(text) {
        from_utf8(text).ok()
    } else {
        None
    }
}

/// Reads a path: `/`, or names each after a `/`. The root's text is then empty.
pub fn read_path(text: &[u8]) -> Option<&str>
    ensures path { option_map (λ path. names_of path.now) result ≡ path text.now }
    ensures text { IfSome result (λ path. IsPathText path.now) }
{
    if text == b"/".as_slice() {
        Some("")
    } else {
        read_named_path(text)
    }
}
