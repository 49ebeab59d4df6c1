//! The hosts under which the page is asked for.
//!
//! A page at 127.0.0.1 is reached by the browser of whoever sits at the machine, also by a script of a web site whose name
//! was made to point to 127.0.0.1 meanwhile. Such a request has that site's host, so it is answered under own hosts only.

ghost use Rattle.std.specs.Prelude.{◌≡◌};
ghost use Rattle.status_page.specs.Hosts.{is_at, is_own, is_own_request};

use bytes::Bytes;
use http::Request;

/// Returns whether a text is a host, or a host with a port.
fn is_at(text: &[u8], host: &[u8]) -> bool
    ensures at { result ≡ is_at text.now host.now }
{
    let length = host.len();
    if text.len() < length {
        return false;
    }
    let front = &text[..length];
    if front != host {
        return false;
    }
    text.len() == length || text[length] == b':'
}

/// Returns whether a text is a host of this machine for itself, with any port.
fn is_own(text: &[u8]) -> bool
    ensures own { result ≡ is_own text.now }
{
    is_at(text, b"127.0.0.1") || is_at(text, b"localhost") || is_at(text, b"[::1]")
}

/// Returns whether a request is for a host of this machine for itself: by its target if that has a host, otherwise by the
/// field `Host` (RFC 9112, 3.2.2).
pub(crate) fn is_own_request(request: &Request<Bytes>) -> bool
    ensures own { result ≡ is_own_request request.now }
{
    match request.uri().authority() {
        Some(authority) => is_own(authority.as_str().as_bytes()),
        None => match request.headers().get("host") {
            Some(value) => is_own(value.as_bytes()),
            None => false,
        },
    }
}
