//! The socket of a control connection.

ghost use Rattle.std.specs.Prelude.{◌<◌, ◌≡◌, ◌≤◌, ◌-◌, IfOk, length, slice_get, take};
ghost use Rattle.control_session.specs.Calls.{reads_within};
ghost use Rattle.line_mender.specs.Mended.{after_all, after_silence, ending_of, kept};
ghost use Rattle.socket_host.specs.Texts.{beside_of, is_open_after, is_pause, octets_in, rests_after, time_out_of};

use crate::replying::write_reply;
use control_session::Piece;
use line_mender::Mender;
use server_house::{ServerShutdown, address_octets};
use std::io;
use std::io::{ErrorKind, Read};
use std::net::{Shutdown, TcpStream};
use std::os::fd::{AsRawFd, RawFd};
use std::time::Duration;

/// The time-out of a read while nothing runs, in milliseconds.
const IDLE: u64 = 200;

/// The same of a client that is silent: more seldom, since each time-out wakes the session's thread.
const SILENT: u64 = 2_000;

/// Number of reads in a row that found nothing, after which a client is silent: ten seconds.
const SILENCES: u32 = 50;

/// The time-out of a read while something runs, in milliseconds.
const QUICK: u64 = 1;

/// The longest wait for a client beside what its transfer waits for, in milliseconds: as of a read while nothing runs, so
/// that the end of the server is seen as soon.
const BESIDE: u16 = 200;

/// The same once nothing came for a while: more seldom, since each wait that ends in vain wakes the session's thread.
const LONG_BESIDE: u16 = 1_000;

/// Number of such waits in a row in which nothing came, after which they are long: two seconds.
const RESTS: u32 = 10;

/// The same within a line, of which the end may have been lost as urgent data: a read that finds nothing restores it.
const BRIEFLY: u16 = 1;

/// The time-out of one write to a peer that does not read, in milliseconds.
const STANDSTILL: u64 = 1_000;

/// Most reads from a connection that is to be closed.
const LAST_READS: usize = 4;

/// The time-out of one of them, in milliseconds.
const LAST_WAIT: u64 = 50;

const LF: u8 = 10;

/// The socket of a control connection, and the state of its text.
#[derive(Drop)]
pub struct ControlSocket {
    stream: TcpStream,
    mender: Mender,
    // the time-out of its reads, in milliseconds
    wait: u64,
    // number of reads in a row that found nothing, while nothing ran
    silences: u32,
    // the last read ended within a line
    is_open: bool,
    // number of waits beside a transfer, since the last read, in which nothing came; counted up to `RESTS`
    rests: u32,
}

impl AsRawFd for ControlSocket {
    fn as_raw_fd(&self) -> RawFd {
        self.stream.as_raw_fd()
    }
}

// The time-out of a read, in milliseconds, by the number of reads in a row that found nothing.
fn time_out_of(is_quick: bool, silences: u32) -> u64
    ensures wait { result ≡ time_out_of is_quick silences }
{
    if is_quick {
        return QUICK;
    }
    if silences < SILENCES { IDLE } else { SILENT }
}

// Returns whether a line is open after an octet, the last that was read.
fn is_open_after(last: Option<u8>) -> bool
    ensures open { result ≡ is_open_after last }
{
    match last {
        Some(octet) => octet != LF,
        None => false,
    }
}

// Returns whether octets that were read end within a line.
fn is_open(read: &[u8]) -> bool
    ensures open { result ≡ is_open_after (slice_get read.now (length read.now - 1)) }
{
    is_open_after(read.last().copied())
}

// The longest wait for a client beside what its transfer waits for, in milliseconds, within a line or not, and by the number
// of such waits in which nothing came.
fn beside_of(is_open: bool, rests: u32) -> u16
    ensures wait { result ≡ beside_of is_open rests }
{
    if is_open {
        return BRIEFLY;
    }
    if rests < RESTS { BESIDE } else { LONG_BESIDE }
}

// The number of waits in which nothing came, with one more.
fn rests_after(rests: u32) -> u32
    ensures rests { result ≡ rests_after rests }
{
    if rests < RESTS { rests + 1 } else { rests }
}

/// Returns whether a read only found nothing, or a write no room.
pub(crate) fn is_pause(kind: ErrorKind) -> bool
    ensures pause { result ≡ is_pause kind }
{
    matches!(
        kind,
        ErrorKind::WouldBlock | ErrorKind::TimedOut | ErrorKind::Interrupted
    )
}

impl ControlSocket {
    /// An accepted connection. Its reads have a time-out.
    pub fn new(stream: TcpStream) -> ControlSocket {
        let _ = stream.set_nodelay(true);
        let _ = stream.set_read_timeout(Some(Duration::from_millis(IDLE)));
        let _ = stream.set_write_timeout(Some(Duration::from_millis(STANDSTILL)));
        ControlSocket {
            stream,
            mender: Mender::new(),
            wait: IDLE,
            silences: 0,
            is_open: false,
            rests: 0,
        }
    }

    /// Returns whether the last read ended within a line.
    pub(crate) fn is_within_line(&self) -> bool
        ensures open { result ≡ self.now.is_open }
    {
        self.is_open
    }

    /// The longest wait for the client beside what its transfer waits for, in milliseconds.
    pub(crate) fn longest_wait(&self) -> u16
        ensures wait { result ≡ beside_of self.now.is_open self.now.rests }
    {
        beside_of(self.is_open, self.rests)
    }

    /// Counts a wait beside a transfer in which nothing came.
    pub(crate) fn count_rest(&mut self)
        ensures rests { self.new.rests ≡ rests_after self.old.rests }
        ensures open { self.new.is_open ≡ self.old.is_open }
        ensures mender { self.new.mender ≡ self.old.mender }
    {
        self.rests = rests_after(self.rests);
    }

    // Sets the time-out of reads, only if it changes: it is a system call.
    fn set_pace(&mut self, is_quick: bool) {
        let wait = time_out_of(is_quick, self.silences);
        if self.wait != wait {
            let _ = self
                .stream
                .set_read_timeout(Some(Duration::from_millis(wait)));
            self.wait = wait;
        }
    }

    // Counts a read that found nothing, or begins anew if it found something, or something runs.
    fn count_silence(&mut self, is_silent: bool) {
        self.silences = if is_silent {
            self.silences.saturating_add(1)
        } else {
            0
        };
    }

    // Takes the octets read at the start of the buffer.
    fn mend(&mut self, buffer: &mut [u8], count: usize) -> Piece
        requires bound { count ≤ length buffer.old }
        ensures bound { reads_within result buffer.new }
        ensures same { length buffer.new ≡ length buffer.old }
        ensures kept { octets_in result buffer.new
            ≡ kept self.old.mender (take count buffer.old) }
        ensures after { self.new.mender ≡ after_all self.old.mender (take count buffer.old) }
    {
        let kept = self.mender.mend(&mut buffer[..count]);
        if kept == 0 {
            Piece::Nothing
        } else {
            Piece::Octets(kept)
        }
    }

    // Reports that nothing came: the end of an ABOR that was lost as urgent data is restored.
    fn take_silence(&mut self, buffer: &mut [u8]) -> Piece
        requires room { 0 < length buffer.old }
        ensures bound { reads_within result buffer.new }
        ensures kept { octets_in result buffer.new ≡ ending_of self.old.mender }
        ensures after { self.new.mender ≡ after_silence self.old.mender }
    {
        if self.mender.silence() {
            buffer[0] = LF;
            Piece::Octets(1)
        } else {
            Piece::Nothing
        }
    }

    /// Reads once. Waits at most `QUICK` milliseconds if `is_quick`, otherwise at most `IDLE`, or `SILENT` if the client
    /// is silent.
    pub fn read(&mut self, is_quick: bool, buffer: &mut [u8]) -> io::Result<Piece>
        requires room { 0 < length buffer.old }
        ensures bound { IfOk result (λ piece. reads_within piece buffer.new) }
    {
        self.rests = 0;
        self.set_pace(is_quick);
        match self.stream.read(buffer) {
            Ok(0) => Ok(Piece::AtEnd),
            Ok(count) => {
                self.count_silence(false);
                self.is_open = is_open(&buffer[..count]);
                Ok(self.mend(buffer, count))
            }
            Err(error) => {
                if is_pause(error.kind()) {
                    self.count_silence(!is_quick);
                    self.is_open = false;
                    Ok(self.take_silence(buffer))
                } else {
                    Err(error)
                }
            }
        }
    }

    /// Writes all of a reply. Waits for a peer that reads nothing: at most 20 s for each part of the reply, or 2 s once
    /// the server ends.
    pub fn write(&mut self, octets: &[u8], ending: &ServerShutdown) -> io::Result<()> {
        write_reply(&mut self.stream, octets, ending)
    }

    /// Ends the connection in such a way that what was written arrives: reads what the peer had still sent, since a
    /// connection that is closed with octets unread is reset. Waits at most 200 ms, and 50 ms for a peer that neither
    /// sends nor closes.
    pub fn hang_up(&mut self, buffer: &mut [u8]) {
        let _ = self.stream.shutdown(Shutdown::Write);
        let _ = self
            .stream
            .set_read_timeout(Some(Duration::from_millis(LAST_WAIT)));
        for _ in 0..LAST_READS {
            match self.stream.read(buffer) {
                Ok(0) | Err(_) => return,
                Ok(_) => {}
            }
        }
    }

    /// The address of the server at which the client arrived; that of no host if it is unknown.
    pub fn arrived_at(&self) -> [u8; 4] {
        match self.stream.local_addr() {
            Ok(at) => address_octets(at),
            Err(_) => [0; 4],
        }
    }
}
