//! The flow out of a source: waiting wire octets, written as granted, and read again once none wait.

ghost use Rattle.std.specs.Prelude.{◌≡◌, ◌≢◌, ◌<◌, ◌≤◌, ℕ, List, Some, [], length, IsTrue, ◌↔◌, IfOk, false};
ghost use Rattle.std.specs.Bool.{OnTrue};
ghost use Rattle.std.specs.Io.KnownBytes.{Keeps, IsAtEnd};
ghost use Rattle.line_rates.specs.declared.ask.Way.TheVariants.{Down};
ghost use Rattle.data_pump.specs.Buffers.{lent_for, room_for};
ghost use Rattle.data_pump.specs.Counts.{no_calls, next, IsOnceAtMost, FailsAsReported};
ghost use Rattle.data_pump.specs.declared.pumped.FailedPart.TheVariants.{Connection, Source};
ghost use Rattle.data_pump.specs.Downloads.{to_come, HasEnded, LendsAllRoom, MovesOut, IsSourceFault, TopsUp};

use crate::buffer::{MAX_WAITING, WireBuffer, room_for};
use crate::counted::CountedEnd;
use crate::pumped::{PumpEnd, Pumped};
use crate::writing::write_front;
use ftp_terms::DataType;
use std::alloc::{AllocError, Allocator};
use std::io::Write;
use std::marker::Model;
use virtual_tree::{Source, StoreFault};

/// A source, the connection that it goes to, and the wire octets waiting between them.
#[derive(Drop)]
pub(crate) struct Outflow<S: Source, K: Write + Drop, A: Allocator> {
    source: CountedEnd<S>,
    connection: CountedEnd<K>,
    buffer: WireBuffer<A>,
    is_over: bool,
}

impl<S: Source, K: Write + Drop, A: Allocator> Model for Outflow<S, K, A> {
    ghost use Rattle.std.specs.Bool.{OnTrue};
    ghost use Rattle.std.specs.Io.KnownBytes.{IsAtEnd};
    ghost use Rattle.data_pump.specs.Downloads.{OutFlow};

    ghost Value = { OutFlow S K };

    ghost view = { λ f. record {
      source = f.source.end;
      reads = f.source.calls;
      lent = f.source.lent;
      connection = f.connection.end;
      writes = f.connection.calls;
      data_type = f.buffer.data_type;
      waiting = f.buffer.octets;
      room = f.buffer.room;
      is_over = f.is_over;
    } };

    ghost invariant = { λ f. OnTrue f.is_over (IsAtEnd (S.remaining f.source.end)) };
}

impl<S: Source, K: Write + Drop, A: Allocator> Outflow<S, K, A> {
    /// Allocates the buffer, with room for the octets that are expected of the source, and makes no call.
    pub fn new(
        alloc: A,
        source: S,
        connection: K,
        data_type: DataType,
        expected: Option<u64>,
    ) -> Result<Outflow<S, K, A>, AllocError>
    where
        A: Clone,
        ensures flow { IfOk result
            (λ flow. flow ≡ record {
              source = source;
              reads = no_calls;
              lent = 0;
              connection = connection;
              writes = no_calls;
              data_type = data_type;
              waiting = [];
              room = room_for data_type expected;
              is_over = false;
            }) }
    {
        let buffer = WireBuffer::new(alloc, data_type, room_for(data_type, expected))?;
        Ok(Outflow {
            source: CountedEnd::new(source),
            connection: CountedEnd::new(connection),
            buffer,
            is_over: false,
        })
    }

    /// Number of wire octets that wait.
    pub fn waiting(&self) -> usize
        ensures waiting { result ≡ length self.now.waiting }
        ensures most { result ≤ MAX_WAITING }
    {
        self.buffer.len()
    }

    /// Returns whether the source has ended and no octets wait.
    pub fn has_ended(&self) -> bool
        ensures ended { IsTrue result ↔ HasEnded self.now }
    {
        self.is_over && self.buffer.len() == 0
    }

    /// Fills the buffer by one read of the source, if no octets wait and the source has not ended.
    pub fn refill(&mut self) -> PumpEnd
        ensures data_type { self.new.data_type ≡ self.old.data_type }
        ensures room { self.new.room ≡ self.old.room }
        ensures connection { (self.new.connection ≡ self.old.connection)
            × (self.new.writes ≡ self.old.writes) }
        ensures come { Keeps (to_come S.remaining self.old) (to_come S.remaining self.new) }
        ensures left { 0 < length self.old.waiting → self.new ≡ self.old }
        ensures once { IsOnceAtMost self.old.reads self.new.reads }
        ensures fetched { self.old.waiting ≡ [] → self.old.is_over ≡ false
            → self.new.reads.made ≡ next self.old.reads.made }
        ensures filled { self.old.waiting ≡ [] → self.old.is_over ≡ false
            → self.new.lent ≡ lent_for self.new.data_type self.new.room }
        ensures lent { LendsAllRoom self.old self.new }
        ensures reads_failed { FailsAsReported Down result Source self.old.reads self.new.reads }
        ensures more { result ≡ PumpEnd.More → 0 < length self.new.waiting }
        ensures ended { result ≡ PumpEnd.Ended
            → HasEnded self.new × IsAtEnd (to_come S.remaining self.new) }
        ensures fault { IsSourceFault result → self.new.waiting ≡ [] }
        ensures writes_failed { FailsAsReported Down result Connection self.old.writes
            self.new.writes }
        ensures own { result ≢ PumpEnd.WriteFault }
        ensures honest { (octets : List ℕ) → S.remaining self.old.source ≡ Some octets
            → result ≢ PumpEnd.ReadFault }
    {
        if self.buffer.len() > 0 {
            return PumpEnd::More;
        }
        if self.is_over {
            return PumpEnd::Ended;
        }
        match self.buffer.fill(&mut self.source) {
            Ok(0) => {
                self.is_over = true;
                PumpEnd::Ended
            }
            Ok(_) => PumpEnd::More,
            Err(StoreFault::Memory) => PumpEnd::Memory,
            Err(_) => PumpEnd::ReadFault,
        }
    }

    /// Reads the source once, and appends the octets to those that wait, if under TYPE I these are fewer than half of
    /// the room. If that read fails, its call is counted and the same octets wait; the next call reads the source
    /// again.
    pub fn top_up(&mut self)
        ensures topped { TopsUp S.remaining self.old self.new }
    {
        if self.is_over || !self.buffer.is_low() {
            return;
        }
        match self.buffer.fill_up(&mut self.source) {
            Ok(0) => self.is_over = true,
            Ok(_) => {}
            Err(_) => {}
        }
    }

    /// Writes at most `most` of the waiting octets, and fills the buffer if none are left.
    pub fn send(&mut self, most: u64) -> Pumped
        ensures moved { MovesOut S.remaining K.contents most self.old self.new result }
    {
        let count = most.min(self.buffer.len() as u64) as usize;
        let moved = write_front(&mut self.connection, self.buffer.front(count));
        self.buffer.consume(moved);
        if moved < count {
            return Pumped {
                moved: moved as u64,
                end: PumpEnd::WriteFault,
            };
        }
        Pumped {
            moved: moved as u64,
            end: self.refill(),
        }
    }
}
