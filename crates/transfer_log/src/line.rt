//! The fields of a line, in their order.

ghost use Rattle.std.specs.Prelude.{◌≡◌, ◌++◌, OnOk, IfOk, string_bytes, ℕ, List};
ghost use Rattle.transfer_log.specs.Lines.{IsTransferLine, access_text, ending_text, size_text, reported_moment, type_text, user_text, whole_seconds};

use crate::moment::push_moment;
use crate::names::push_field;
use ftp_terms::LATEST;
use std::alloc::{AllocError, Global};
use std::net::Ipv4Addr;

/// A transfer of a file that has ended.
#[derive(Clone, Copy, Debug, PartialEq, Eq)]
pub struct FileTransfer<'a> {
    /// The moment of its end, in seconds since the beginning of 1970, in UTC; the last of the calendar if it is past that.
    pub ended: u64,
    /// The time that it took, in microseconds.
    pub micros: u64,
    /// The client's address.
    pub peer: [u8; 4],
    /// The octets that were moved.
    pub octets: u64,
    pub path: &'a str,
    /// Its type is that of texts (TYPE A).
    pub is_text: bool,
    /// It was sent to the client; otherwise it was received.
    pub is_sent: bool,
    pub user: &'a str,
    /// It came to its end.
    pub is_whole: bool,
}

// The whole seconds of a time, at least 1.
fn whole_seconds(micros: u64) -> u64
    ensures seconds { result ≡ whole_seconds micros }
{
    (micros / 1_000_000).max(1)
}

fn push_size(line: &mut String, transfer: &FileTransfer<'_>) -> Result<(), AllocError>
    ensures appended { OnOk result
        (string_bytes line.new ≡ string_bytes line.old ++ size_text transfer.now) }
{
    let seconds = whole_seconds(transfer.micros);
    let host = Ipv4Addr::from(transfer.peer);
    let octets = transfer.octets;
    write!(line, " {seconds} {host} {octets} ")
}

fn type_text(transfer: &FileTransfer<'_>) -> &'static str
    ensures text { result.now ≡ type_text transfer.now }
{
    match (transfer.is_text, transfer.is_sent) {
        (true, true) => " a _ o ",
        (true, false) => " a _ i ",
        (false, true) => " b _ o ",
        (false, false) => " b _ i ",
    }
}

fn access_text(user: &str) -> &'static str
    ensures access { result.now ≡ access_text user.now }
{
    match user {
        "anonymous" | "ftp" => "a ",
        _ => "r ",
    }
}

fn ending_text(is_whole: bool) -> &'static str
    ensures ending { result.now ≡ ending_text is_whole }
{
    if is_whole {
        " ftp 0 * c\n"
    } else {
        " ftp 0 * i\n"
    }
}

// The fields after the path.
fn push_user(line: &mut String, transfer: &FileTransfer<'_>) -> Result<(), AllocError>
    ensures appended { OnOk result
        (string_bytes line.new ≡ string_bytes line.old ++ user_text transfer.now) }
{
    line.push_str(type_text(transfer))?;
    line.push_str(access_text(transfer.user))?;
    push_field(line, transfer.user)?;
    line.push_str(ending_text(transfer.is_whole))
}

fn push_fields(line: &mut String, transfer: &FileTransfer<'_>) -> Result<(), AllocError>
    ensures line { OnOk result
        ((text : List ℕ) × IsTransferLine transfer.now text
        × (string_bytes line.new ≡ string_bytes line.old ++ text)) }
{
    push_moment(line, transfer.ended.min(LATEST))?;
    push_size(line, transfer)?;
    push_field(line, transfer.path)?;
    push_user(line, transfer)
}

/// The line of a transfer, with its end. Fails if memory runs out.
pub fn transfer_line(alloc: Global, transfer: &FileTransfer<'_>) -> Result<String, AllocError>
    ensures line { IfOk result (λ line. IsTransferLine transfer.now (string_bytes line)) }
{
    let mut line = String::new(alloc);
    push_fields(&mut line, transfer)?;
    Ok(line)
}
