//! Readers of the addresses to connect to.

ghost use Rattle.std.specs.Prelude.{◌≡◌, ◌≤◌, ◌∷◌, [], List, ℕ, MatchOption, length};
ghost use Rattle.ftp_wire.specs.Arguments.{extended_parts, extended_port_of, host, host_of, host_port, ipv4, octet_of, parts_at, port_of};
ghost use Rattle.ftp_wire.specs.Words.{comma};

use crate::arguments::{number_cut, number_up_to};
use crate::commands::{ExtendedPort, HostPort};
use crate::faults::LineFault;
use crate::words::split_part;

/// One to three digits, up to 255.
#[tactic(auto, unfolding(crate::specs::Arguments::octet_of))]
fn octet_of(text: &[u8]) -> Option<u8>
    ensures octet { result ≡ octet_of text.now }
{
    if text.len() > 3 {
        return None;
    }
    let number = number_up_to(255, text)?;
    Some(number as u8)
}

/// The last part, if no octet of this value follows.
fn last_part(text: &[u8], wanted: u8) -> Option<&[u8]>
    ensures part { MatchOption result
        ((front back : List ℕ) × (next : List (List ℕ))
        × (parts_at wanted text.now ≡ front ∷ back ∷ next))
        (λ part. (part.now ≡ text.now) × (parts_at wanted text.now ≡ text.now ∷ [])) }
{
    match split_part(text, wanted) {
        Some(_) => None,
        None => Some(text),
    }
}

/// The first three parts and what follows them, if something does.
fn three_parts(text: &[u8], wanted: u8) -> Option<(&[u8], &[u8], &[u8], &[u8])>
    ensures parts { MatchOption result (length (parts_at wanted text.now) ≤ 3)
        (λ part. parts_at wanted text.now
        ≡ part.0.now ∷ part.1.now ∷ part.2.now ∷ parts_at wanted part.3.now) }
{
    let (first, rest) = split_part(text, wanted)?;
    let (second, rest) = split_part(rest, wanted)?;
    let (third, rest) = split_part(rest, wanted)?;
    Some((first, second, third, rest))
}

/// The host and port in six parts.
fn port_of_parts(
    h1: &[u8],
    h2: &[u8],
    h3: &[u8],
    h4: &[u8],
    p1: &[u8],
    p2: &[u8],
) -> Option<HostPort>
    ensures port { result
        ≡ host_port (h1.now ∷ h2.now ∷ h3.now ∷ h4.now ∷ p1.now ∷ p2.now ∷ []) }
{
    let address = [octet_of(h1)?, octet_of(h2)?, octet_of(h3)?, octet_of(h4)?];
    let high = u16::from(octet_of(p1)?);
    let low = u16::from(octet_of(p2)?);
    Some(HostPort {
        address,
        port: high * 256 + low,
    })
}

/// The host and port in a text of six parts separated by commas.
fn host_port(text: &[u8]) -> Option<HostPort>
    ensures port { result ≡ host_port (parts_at comma text.now) }
{
    let (h1, h2, h3, rest) = three_parts(text, b',')?;
    let (h4, rest) = split_part(rest, b',')?;
    let (p1, rest) = split_part(rest, b',')?;
    let p2 = last_part(rest, b',')?;
    port_of_parts(h1, h2, h3, h4, p1, p2)
}

/// The argument of PORT: an address and a port; otherwise `BadArgument` (RFC 959, section 5.3.2).
#[tactic(auto, unfolding(crate::specs::Arguments::port_of))]
pub fn read_port(text: &str) -> Result<HostPort, LineFault>
    ensures port { result ≡ port_of text.now }
{
    match host_port(text.as_bytes()) {
        Some(port) => Ok(port),
        None => Err(LineFault::BadArgument),
    }
}

/// The host in four parts.
fn host_of_parts(h1: &[u8], h2: &[u8], h3: &[u8], h4: &[u8]) -> Option<[u8; 4]>
    ensures host { result ≡ host (h1.now ∷ h2.now ∷ h3.now ∷ h4.now ∷ []) }
{
    let h1 = number_up_to(255, h1)? as u8;
    let h2 = number_up_to(255, h2)? as u8;
    let h3 = number_up_to(255, h3)? as u8;
    let h4 = number_up_to(255, h4)? as u8;
    Some([h1, h2, h3, h4])
}

#[tactic(auto, unfolding(crate::specs::Arguments::host_of))]
fn host_of(text: &[u8]) -> Option<[u8; 4]>
    ensures host { result ≡ host_of text.now }
{
    let (h1, h2, h3, rest) = three_parts(text, b'.')?;
    let h4 = last_part(rest, b'.')?;
    host_of_parts(h1, h2, h3, h4)
}

fn ipv4(address: &[u8], port: &[u8]) -> Option<ExtendedPort>
    ensures port { result ≡ ipv4 address.now port.now }
{
    let address = host_of(address)?;
    let port = number_up_to(65535, port)?;
    Some(ExtendedPort::Ipv4(HostPort { address, port }))
}

/// The three fields between delimiters, with nothing after the last.
fn extended_port(text: &[u8], delimiter: u8) -> Option<ExtendedPort>
    ensures port { result ≡ extended_parts (parts_at delimiter text.now) }
{
    let (protocol, rest) = split_part(text, delimiter)?;
    let (address, rest) = split_part(rest, delimiter)?;
    let (port, rest) = split_part(rest, delimiter)?;
    if !rest.is_empty() {
        return None;
    }
    let protocol = number_cut(protocol)?;
    if protocol == 1 {
        ipv4(address, port)
    } else {
        Some(ExtendedPort::Unsupported(protocol))
    }
}

/// The argument of EPRT: an address and a port, or another protocol; otherwise `BadArgument` (RFC 2428,
/// section 2).
#[tactic(auto, unfolding(crate::specs::Arguments::extended_port_of))]
pub fn read_eprt(text: &str) -> Result<ExtendedPort, LineFault>
    ensures port { result ≡ extended_port_of text.now }
{
    let Some((delimiter, rest)) = text.as_bytes().split_first() else {
        return Err(LineFault::BadArgument);
    };
    if *delimiter < 33 || *delimiter > 126 {
        return Err(LineFault::BadArgument);
    }
    match extended_port(rest, *delimiter) {
        Some(port) => Ok(port),
        None => Err(LineFault::BadArgument),
    }
}
