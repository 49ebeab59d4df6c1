//! Comparison of passwords.

ghost use Rattle.std.specs.Prelude.{◌≡◌, bytes_eq};

/// Returns whether two passwords are equal. All octets are compared: for passwords of equal length, the
/// time does not show where or in how many octets they differ.
pub(crate) fn is_same_password(given: &str, kept: &str) -> bool
    ensures same { result ≡ bytes_eq given.now kept.now }
{
    is_same(given.as_bytes(), kept.as_bytes())
}

fn is_same(given: &[u8], kept: &[u8]) -> bool
    ensures same { result ≡ bytes_eq given.now kept.now }
{
    if given.len() != kept.len() {
        return false;
    }
    let mut same = true;
    for (index, octet) in given.iter().enumerate() {
        same &= *octet == kept[index];
    }
    same
}
