//! Readers and writers that fail once a moment has passed.

ghost use Rattle.std.specs.Prelude.{◌≡◌, ℕ};
ghost use Rattle.std.specs.IoError.{error_kind};
ghost use Rattle.std.specs.Io.{ReadsAtMost, WritesAtMost};
ghost use Rattle.std.specs.Io.KnownBytes.{Keeps, ReadConsumes, WriteAppends};
ghost use Rattle.status_page.specs.Timing.{IsLate, IsTimed};

use std::io;
use std::io::{ErrorKind, Read, Write};
use std::time::Clock;

/// A clock, in microseconds.
pub trait MicrosClock {
    // From the first state, the clock shows this moment and leaves the second state.
    ghost shows: { Self → ℕ → Self → Type 0 };

    /// The moment.
    fn micros(&mut self) -> u64
        ensures moment { shows self.old result self.new };
}

/// The monotonic clock of the machine; its last moment if it cannot be read.
#[derive(Clone, Copy, Drop)]
pub struct MachineClock<'r, R>(pub &'r R);

impl<'r, R: Clock> MicrosClock for MachineClock<'r, R> {
    ghost shows = { λ old moment new. new ≡ old };

    fn micros(&mut self) -> u64 {
        match self.0.monotonic() {
            Ok(time) => time
                .as_secs()
                .saturating_mul(1_000_000)
                .saturating_add(u64::from(time.subsec_micros())),
            Err(_) => u64::MAX,
        }
    }
}

fn too_late() -> io::Error
    ensures kind { error_kind result ≡ ErrorKind.TimedOut }
{
    ErrorKind::TimedOut.into()
}

/// A reader or a writer whose calls fail with `TimedOut` once a moment has passed. A call that has begun before ends by
/// the time limits of the end itself.
#[derive(Drop)]
pub struct Timed<E, C> {
    end: E,
    clock: C,
    until: u64,
}

impl<E, C: MicrosClock> Timed<E, C> {
    /// An end whose calls fail from the moment `until` on, in microseconds of the clock.
    pub fn new(end: E, clock: C, until: u64) -> Timed<E, C>
        ensures end { result.end ≡ end }
        ensures clock { result.clock ≡ clock }
        ensures until { result.until ≡ until }
    {
        Timed { end, clock, until }
    }

    fn is_late(&mut self) -> bool
        ensures late { IsLate C.shows self.old self.new result }
    {
        self.clock.micros() >= self.until
    }
}

impl<R: Read, C: MicrosClock> Read for Timed<R, C> {
    ghost remaining = { λ timed. R.remaining timed.end };

    fn read(&mut self, buffer: &mut [u8]) -> io::Result<usize>
        ensures bound { ReadsAtMost result buffer.new }
        ensures bytes { ReadConsumes (R.remaining self.old.end) (R.remaining self.new.end)
            result buffer.new }
        ensures timed { IsTimed C.shows self.old self.new result }
    {
        if self.is_late() {
            return Err(too_late());
        }
        self.end.read(buffer)
    }
}

impl<W: Write, C: MicrosClock> Write for Timed<W, C> {
    ghost contents = { λ timed. W.contents timed.end };

    fn write(&mut self, octets: &[u8]) -> io::Result<usize>
        ensures bound { WritesAtMost result octets.now }
        ensures bytes { WriteAppends (W.contents self.old.end) (W.contents self.new.end)
            result octets.now }
        ensures timed { IsTimed C.shows self.old self.new result }
    {
        if self.is_late() {
            return Err(too_late());
        }
        self.end.write(octets)
    }

    fn flush(&mut self) -> io::Result<()> {
        self.end.flush()
    }
}
