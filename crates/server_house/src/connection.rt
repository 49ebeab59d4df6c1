//! A data connection that a lane moves octets on, and that its session may shut down.

ghost use Rattle.std.specs.Prelude.{◌≡◌, ◌<◌, ◌≤◌, ◌↔◌, IfOk, IsTrue, OnErr, false, length};
ghost use Rattle.server_house.specs.Sockets.{socket_of};
ghost use Rattle.server_house.specs.declared.connection.Writes.TheVariants.{Nothing, One, Prepared};

use counted_file::CountedFile;
use last_fault::{fault_of, fault_word};
use std::alloc::{AllocError, Global};
use std::io;
use std::io::{ErrorKind, Read, Write};
use std::net::{Shutdown, TcpStream};
use std::sync::Arc;
use std::sync::atomic::{AtomicU64, Ordering};
use std::time::Duration;

/// The time without progress after which a write fails, in milliseconds: a third of a minute, since a write that moved some
/// octets before its time-out counts as progress, so a peer that reads nothing takes three such times.
const STANDSTILL: u64 = 20_000;

/// Most octets of a first write that needs no options: the machine admits a first buffer of that size whatever its limits
/// are, so the write does not wait, and nothing was sent before that it could be held back for.
pub const FIRST_WRITE: usize = 4_096;

/// A socket, the last error of a call on it, and whether it was aborted.
#[derive(Drop)]
struct Socket {
    stream: TcpStream,
    // `fault_word` of the error; 0 before the first
    fault: AtomicU64,
    // 1 once it was aborted
    aborted: AtomicU64,
}

/// A handle of a data connection. The socket is closed once the last handle is dropped.
#[derive(Drop)]
pub struct DataConnection {
    socket: Arc<Socket, Global>,
    // the writes by this handle
    writes: Writes,
}

/// The writes of a handle so far.
#[derive(Clone, Copy, Debug, PartialEq, Eq)]
enum Writes {
    /// Nothing yet.
    Nothing,
    /// A first write, and its options are not set.
    One,
    /// Its options are set.
    Prepared,
}

// Returns whether the options of a socket are to be set before a write of this many octets: one that may wait for the
// peer, or that follows another.
fn needs_options(writes: Writes, count: usize) -> bool
    ensures prepared { writes ≡ Prepared → result ≡ false }
    ensures later { writes ≡ One → IsTrue result }
    ensures first { writes ≡ Nothing → IsTrue result ↔ FIRST_WRITE < count }
{
    match writes {
        Writes::Nothing => count > FIRST_WRITE,
        Writes::One => true,
        Writes::Prepared => false,
    }
}

// The number of octets that a look found; none if it failed.
fn found(answer: io::Result<usize>) -> usize
    ensures count { IfOk answer (λ count. result ≡ count) }
    ensures none { OnErr answer (result ≡ 0) }
{
    match answer {
        Ok(count) => count,
        Err(_) => 0,
    }
}

impl DataConnection {
    /// The first handle of a socket.
    pub fn new(alloc: Global, stream: TcpStream) -> Result<DataConnection, AllocError>
        ensures socket { IfOk result (λ connection. socket_of connection ≡ stream) }
    {
        let socket = Socket {
            stream,
            fault: AtomicU64::new(0),
            aborted: AtomicU64::new(0),
        };
        let socket = Arc::new(alloc, socket)?;
        Ok(DataConnection {
            socket,
            writes: Writes::Nothing,
        })
    }

    /// Another handle of the same socket.
    pub fn another(&self) -> Result<DataConnection, AllocError>
        ensures socket { IfOk result (λ other. socket_of other ≡ socket_of self.now) }
    {
        let socket = Arc::try_clone(&self.socket)?;
        Ok(DataConnection {
            socket,
            writes: Writes::Nothing,
        })
    }

    /// The last error of a read, a write or a look by any handle, if there was one.
    pub fn fault(&self) -> Option<io::Error> {
        fault_of(self.socket.fault.load(Ordering::SeqCst))
    }

    // Sets what writes need, if this one does: no octets are held back for the peer's answer (RFC 896), and a write to a
    // peer that reads nothing fails in the end.
    fn prepare(&mut self, count: usize) {
        if needs_options(self.writes, count) {
            let _ = self.socket.stream.set_nodelay(true);
            let _ = self
                .socket
                .stream
                .set_write_timeout(Some(Duration::from_millis(STANDSTILL)));
            self.writes = Writes::Prepared;
        } else if self.writes == Writes::Nothing {
            self.writes = Writes::One;
        }
    }

    // Keeps the error of a call for the other handles.
    fn noted(&self, answer: io::Result<usize>) -> io::Result<usize>
        ensures same { result ≡ answer }
    {
        match answer {
            Ok(count) => Ok(count),
            Err(error) => {
                self.socket.fault.store(fault_word(error), Ordering::SeqCst);
                Err(error)
            }
        }
    }

    // Returns whether it was aborted.
    fn is_aborted(&self) -> bool {
        self.socket.aborted.load(Ordering::SeqCst) != 0
    }

    // One look at what has come.
    fn peek_once(&self, buffer: &mut [u8]) -> io::Result<usize>
        ensures most { IfOk result (λ count. count ≤ length buffer.new) }
    {
        self.socket.stream.peek(buffer)
    }

    /// Waits until octets have come that are not read yet, and returns how many, at most as many as there is room for
    /// in the buffer. They stay to be read. 0 at the end, after an abort, or after an error, which the next read returns:
    /// the machine reports an error once, to whichever call comes first. A look that was interrupted is made again.
    pub fn peek(&self, buffer: &mut [u8]) -> usize
        ensures most { result ≤ length buffer.new }
    {
        for _ in 0..u64::MAX {
            if self.is_aborted() {
                return 0;
            }
            match self.peek_once(buffer) {
                Err(error) if error.kind() == ErrorKind::Interrupted => {}
                answer => return found(self.noted(answer)),
            }
        }
        0
    }

    /// Shuts the socket down in both directions; calls that wait on it return, and nothing is read from it any more: a
    /// shutdown leaves what the machine has received and nobody has read (shutdown(2)), and an upload at a low rate would
    /// read that for minutes.
    pub fn abort(&self) {
        self.socket.aborted.store(1, Ordering::SeqCst);
        let _ = self.socket.stream.shutdown(Shutdown::Both);
    }
}

impl Read for DataConnection {
    fn read(&mut self, buffer: &mut [u8]) -> io::Result<usize> {
        if self.is_aborted() {
            return Ok(0);
        }
        if let Some(error) = self.fault() {
            return Err(error); // that of a look: nothing more is read after an error
        }
        let stream: &TcpStream = &self.socket.stream;
        let answer = CountedFile::new(stream).read(buffer);
        self.noted(answer)
    }
}

impl Write for DataConnection {
    fn write(&mut self, octets: &[u8]) -> io::Result<usize> {
        self.prepare(octets.len());
        let stream: &TcpStream = &self.socket.stream;
        let answer = CountedFile::new(stream).write_some(octets);
        self.noted(answer)
    }

    fn flush(&mut self) -> io::Result<()> {
        Ok(())
    }
}
