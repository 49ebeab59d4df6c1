//! One request of one connection.

ghost use Rattle.std.specs.Io.KnownBytes.{Appends, Consumes};
ghost use Rattle.status_page.specs.Answers.{shown_at};
ghost use Rattle.status_page.specs.Exchanges.{IsAnswered};

use crate::routes::Routes;
use http_server::{Config, Connection, serve};
use http1::Limits;
use httpdate::HttpDate;
use server_status::Status;
use std::alloc::Global;
use std::hash::RandomState;
use std::io;
use std::io::{Read, Write};

/// Limits of a connection: no request has a body.
const CONFIG: Config = Config {
    limits: Limits {
        max_head_len: 16_384,
        max_extensions_len: 0,
        max_trailers_len: 2,
    },
    max_body_len: 0,
    max_pending: 65_536,
    read_size: 4_096,
};

/// Reads a request, and answers it at a date from a status: the page, the status as JSON, or its metrics. The connection is
/// to be closed afterwards; whatever follows the request is not answered.
///
/// Fails if a read or a write fails. `keys` are secret, so that a client cannot choose headers that are slow to look up.
pub fn serve_request<R: Read, W: Write>(
    alloc: Global,
    keys: RandomState,
    status: &Status,
    date: HttpDate,
    reader: &mut R,
    writer: &mut W,
) -> io::Result<()>
    ensures answered { ∥ IsAnswered (shown_at status.now date)
        (Consumes (R.remaining reader.old) (R.remaining reader.new))
        (Appends (W.contents writer.old) (W.contents writer.new)) result ∥₁ }
{
    let mut connection = Connection::new(alloc, keys, CONFIG);
    let mut routes = Routes::new(alloc, status, date);
    serve(&mut connection, &mut routes, reader, writer)
}
