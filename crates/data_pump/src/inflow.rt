//! The flow into a sink: octets read from a connection as granted, converted, and written.

ghost use Rattle.std.specs.Prelude.{◌≡◌, ◌≢◌, ◌<◌, ◌≤◌, [], length, take, IfOk, OnErr};
ghost use Rattle.std.specs.Io.KnownBytes.{Appends, Consumes, IsAtEnd, Keeps};
ghost use Rattle.line_rates.specs.declared.ask.Way.TheVariants.{Up};
ghost use Rattle.data_pump.specs.Counts.{no_calls, Counts, IsOnceAtMost, FailsAsReported};
ghost use Rattle.data_pump.specs.declared.pumped.FailedPart.TheVariants.{Sink};
ghost use Rattle.data_pump.specs.WireText.{received};
ghost use Rattle.data_pump.specs.Uploads.{HasTextRoom, Gives, MovesIn, IsSinkFault};

use crate::counted::CountedEnd;
use crate::pumped::{PumpEnd, Pumped};
use crate::wire::Wire;
use ftp_terms::DataType;
use std::alloc::{AllocError, Allocator};
use std::io;
use std::io::Read;
use std::marker::Model;
use virtual_tree::{Sink, StoreFault};

/// The most octets that one pump of an upload reads.
pub const MAX_READ: usize = 65_536;

/// A connection, the sink that it goes to, and the octets read but not yet passed on.
#[derive(Drop)]
pub(crate) struct Inflow<K: Read + Drop, T: Sink, A: Allocator> {
    connection: CountedEnd<K>,
    sink: CountedEnd<T>,
    wire: Wire,
    octets: Vec<u8, A>,
    text: Vec<u8, A>,
}

impl<K: Read + Drop, T: Sink, A: Allocator> Model for Inflow<K, T, A> {
    ghost use Rattle.data_pump.specs.Uploads.{InFlow, IsRoom};

    ghost Value = { InFlow K T };

    ghost view = { λ f. record {
      connection = f.connection.end;
      reads = f.connection.calls;
      lent = f.connection.lent;
      sink = f.sink.end;
      writes = f.sink.calls;
      data_type = f.wire.data_type;
      held = f.wire.held;
    } };

    ghost invariant = { λ f. IsRoom f.wire.data_type f.octets.items f.text.items };
}

// The buffers of an upload with this room: the octets read, and, under TYPE A, their text.
fn buffers<A: Allocator + Clone>(
    alloc: A,
    data_type: DataType,
    room: usize,
) -> Result<(Vec<u8, A>, Vec<u8, A>), AllocError>
    requires room { room < 100000 }
    ensures octets { IfOk result (λ both. length both.0.items ≡ room) }
    ensures text { IfOk result (λ both. HasTextRoom data_type room both.1.items) }
{
    let text = match data_type {
        DataType::Ascii => vec![in alloc.clone()?; 0u8; room + 1]?,
        DataType::Image => Vec::new(alloc.clone()?),
    };
    let octets = vec![in alloc; 0u8; room]?;
    Ok((octets, text))
}

impl<K: Read + Drop, T: Sink, A: Allocator> Inflow<K, T, A> {
    /// Allocates the buffers, and makes no call.
    pub fn new(
        alloc: A,
        connection: K,
        sink: T,
        data_type: DataType,
    ) -> Result<Inflow<K, T, A>, AllocError>
    where
        A: Clone,
        ensures flow { IfOk result
            (λ flow. flow ≡ record {
              connection = connection;
              reads = no_calls;
              lent = 0;
              sink = sink;
              writes = no_calls;
              data_type = data_type;
              held = [];
            }) }
    {
        let (octets, text) = buffers(alloc, data_type, MAX_READ)?;
        Ok(Inflow {
            connection: CountedEnd::new(connection),
            sink: CountedEnd::new(sink),
            wire: Wire::new(data_type),
            octets,
            text,
        })
    }

    /// Returns the sink, and drops the connection.
    pub fn into_sink(self) -> T
        ensures sink { result ≡ self.sink }
    {
        let Inflow {
            connection: _connection,
            sink,
            wire: _wire,
            octets: _octets,
            text: _text,
        } = self;
        sink.into_end()
    }

    /// At most one read, of at most `most` octets; their text goes to the sink.
    pub fn take(&mut self, most: u64) -> Pumped
        ensures moved { MovesIn K.remaining T.collected T.target most self.old self.new result }
    {
        if most == 0 {
            return Pumped {
                moved: 0,
                end: PumpEnd::More,
            };
        }
        let limit = most.min(MAX_READ as u64) as usize;
        match read_once(&mut self.connection, &mut self.octets, limit) {
            Ok(0) => Pumped {
                moved: 0,
                end: finish(&mut self.wire, &mut self.sink),
            },
            Ok(count) => Pumped {
                moved: count as u64,
                end: give(
                    &mut self.wire,
                    &self.octets[..count],
                    &mut self.text,
                    &mut self.sink,
                ),
            },
            Err(_) => Pumped {
                moved: 0,
                end: PumpEnd::ReadFault,
            },
        }
    }
}

// One read of at most `limit` octets, into the start of the buffer.
fn read_once<K: Read>(
    connection: &mut CountedEnd<K>,
    octets: &mut [u8],
    limit: usize,
) -> io::Result<usize>
    requires asks { 0 < limit }
    requires room { limit ≤ length octets.old }
    ensures bound { IfOk result (λ count. count ≤ limit) }
    ensures read { IfOk result
        (λ count. Consumes (K.remaining connection.old.end) (K.remaining connection.new.end)
        (take count octets.new)) }
    ensures ended { IfOk result (λ count. count ≡ 0 → IsAtEnd (K.remaining connection.new.end)) }
    ensures kept { OnErr result
        (Keeps (K.remaining connection.old.end) (K.remaining connection.new.end)) }
    ensures counts { Counts result connection.old.calls connection.new.calls }
    ensures lent { connection.new.lent ≡ limit }
{
    connection.read(&mut octets[..limit])
}

// Writes the text of a piece to the sink.
fn give<T: Sink>(
    wire: &mut Wire,
    piece: &[u8],
    text: &mut [u8],
    sink: &mut CountedEnd<T>,
) -> PumpEnd
    requires text { HasTextRoom wire.old.data_type (length piece.now) text.old }
    ensures data_type { wire.new.data_type ≡ wire.old.data_type }
    ensures target { T.target sink.new.end ≡ T.target sink.old.end }
    ensures given { result ≡ PumpEnd.More
        → Gives wire.old.data_type wire.old.held piece.now (T.collected sink.old.end)
        (T.collected sink.new.end) wire.new.held }
    ensures refused { IsSinkFault result
        → T.collected sink.new.end ≡ T.collected sink.old.end }
    ensures once { IsOnceAtMost sink.old.calls sink.new.calls }
    ensures failed { FailsAsReported Up result Sink sink.old.calls sink.new.calls }
    ensures own { (result ≢ PumpEnd.Ended) × (result ≢ PumpEnd.ReadFault) }
{
    let written = match wire.data_type() {
        DataType::Ascii => {
            let count = wire.from_wire(piece, text);
            sink.put(&text[..count])
        }
        DataType::Image => sink.put(piece),
    };
    match written {
        Ok(()) => PumpEnd::More,
        Err(StoreFault::Memory) => PumpEnd::Memory,
        Err(_) => PumpEnd::WriteFault,
    }
}

// Writes what was held back to the sink, once the connection has ended.
fn finish<T: Sink>(wire: &mut Wire, sink: &mut CountedEnd<T>) -> PumpEnd
    ensures data_type { wire.new.data_type ≡ wire.old.data_type }
    ensures target { T.target sink.new.end ≡ T.target sink.old.end }
    ensures given { result ≡ PumpEnd.Ended
        → Appends (T.collected sink.old.end) (T.collected sink.new.end) wire.old.held }
    ensures alone { received wire.old.data_type wire.old.held ≡ wire.old.held }
    ensures nothing { wire.new.held ≡ [] }
    ensures refused { IsSinkFault result
        → T.collected sink.new.end ≡ T.collected sink.old.end }
    ensures once { IsOnceAtMost sink.old.calls sink.new.calls }
    ensures failed { FailsAsReported Up result Sink sink.old.calls sink.new.calls }
    ensures own { (result ≢ PumpEnd.More) × (result ≢ PumpEnd.ReadFault) }
{
    match wire.finish() {
        Some(octet) => match sink.put(&[octet]) {
            Ok(()) => PumpEnd::Ended,
            Err(StoreFault::Memory) => PumpEnd::Memory,
            Err(_) => PumpEnd::WriteFault,
        },
        None => PumpEnd::Ended,
    }
}
