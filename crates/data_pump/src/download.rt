//! Downloads: from a source to a data connection.

ghost use Rattle.std.specs.Prelude.{◌≡◌, ◌⊎◌, ◌-◌, ◌<◌, ◌≤◌, ◌++◌, ℕ, List, length, IsTrue, ◌↔◌, Some, IfOk, IfErr};
ghost use Rattle.grant_ledger.specs.Books.{capped};
ghost use Rattle.data_pump.specs.Buffers.{lent_for};
ghost use Rattle.data_pump.specs.Counts.{no_calls, next};
ghost use Rattle.data_pump.specs.WireText.{sent};
ghost use Rattle.data_pump.specs.Downloads.{HasEnded, IsReady, IsRoomFor, MovesOut, TopsUp, IsSending};

use crate::buffer::MAX_WAITING;
use crate::outflow::Outflow;
use crate::pumped::{OpenFault, PumpEnd, Pumped};
use ftp_terms::DataType;
use grant_ledger::{Grant, Tally};
use line_rates::{Ask, Way};
use std::alloc::{Allocator, Global};
use std::io::Write;
use std::marker::Model;
use virtual_tree::Source;

/// A download: a source, the data connection that it goes to, and the waiting wire octets. Only `pump_out` can write
/// to the connection.
#[derive(Drop)]
pub struct DataOut<S: Source, K: Write + Drop, A: Allocator = Global> {
    flow: Outflow<S, K, A>,
    last: PumpEnd,
}

impl<S: Source, K: Write + Drop, A: Allocator> Model for DataOut<S, K, A> {
    ghost use Rattle.data_pump.specs.Downloads.{OutView, IsReady};

    ghost Value = { OutView S K };

    ghost view = { λ d. record { flow = d.flow; last = d.last } };

    ghost invariant = { λ d. IsReady d.flow d.last };
}

impl<S: Source, K: Write + Drop, A: Allocator> DataOut<S, K, A> {
    /// Begins a download: allocates its buffer, once, with room for the octets that are expected of the source, and
    /// fills it by one read of the source. A refusal drops the source and the connection.
    pub fn open(
        alloc: A,
        source: S,
        connection: K,
        data_type: DataType,
    ) -> Result<DataOut<S, K, A>, OpenFault>
    where
        A: Clone,
        ensures connection { IfOk result (λ out. (out.flow.connection ≡ connection)
            × (out.flow.data_type ≡ data_type) × (out.last ≡ PumpEnd.More)) }
        ensures calls { IfOk result (λ out. (out.flow.reads.made ≡ next 0)
            × (out.flow.writes ≡ no_calls)) }
        ensures room { IfOk result
            (λ out. IsRoomFor (S.remaining source) data_type out.flow.room) }
        ensures lent { IfOk result
            (λ out. out.flow.lent ≡ lent_for data_type out.flow.room) }
        ensures filled { IfOk result
            (λ out. (0 < length out.flow.waiting) ⊎ HasEnded out.flow) }
        ensures refused { (octets : List ℕ) → S.remaining source ≡ Some octets
            → IfErr result (λ fault. fault ≡ OpenFault.Memory) }
        ensures sending { (before octets : List ℕ) → K.contents connection ≡ Some before
            → S.remaining source ≡ Some octets
            → IfOk result (λ out. IsSending S.remaining K.contents before
            (sent data_type octets) out.flow) }
    {
        let expected = source.expected();
        let mut flow = match Outflow::new(alloc, source, connection, data_type, expected) {
            Ok(flow) => flow,
            Err(_) => return Err(OpenFault::Memory),
        };
        match flow.refill() {
            PumpEnd::ReadFault => Err(OpenFault::ReadFault),
            PumpEnd::Memory => Err(OpenFault::Memory),
            _ => Ok(DataOut {
                flow,
                last: PumpEnd::More,
            }),
        }
    }

    /// Number of wire octets that wait to be written.
    pub fn waiting(&self) -> usize
        ensures waiting { result ≡ length self.now.flow.waiting }
        ensures most { result ≤ MAX_WAITING }
    {
        self.flow.waiting()
    }

    /// Returns whether the source has ended and no octets wait.
    pub fn ended(&self) -> bool
        ensures ended { IsTrue result ↔ HasEnded self.now.flow }
    {
        self.flow.has_ended()
    }

    /// The end of the last pump; `More` before the first. After `More`, octets wait or the source was empty; after
    /// `Ended`, the transfer has ended.
    pub fn last(&self) -> PumpEnd
        ensures last { result ≡ self.now.last }
        ensures ready { IsReady self.now.flow self.now.last }
    {
        let _ = &self.flow;
        self.last
    }

    /// The ask for a round: permission to send all octets that wait. Its want is 0 only once the transfer has ended,
    /// or if the source could not be read.
    pub fn ask(&self, user: u32, session: u32) -> Ask
        ensures ask { result
            ≡ record {
              user = user;
              session = session;
              way = Way.Down;
              want = length self.now.flow.waiting;
            } }
        ensures most { result.want ≤ MAX_WAITING }
        ensures ready { IsReady self.now.flow self.now.last }
    {
        Ask {
            user,
            session,
            way: Way::Down,
            want: self.flow.waiting() as u64,
        }
    }

    /// Reads the source once, and appends the octets to those that wait, if under TYPE I these are fewer than half of
    /// the room. So until its end a source that fills what it is lent leaves at least half of the room to ask for. A
    /// fault is not reported: the octets that wait are sent, and the source is read again by the next call, or by the
    /// pump after which none wait, which reports it.
    pub fn top_up(&mut self)
        ensures topped { TopsUp S.remaining self.old.flow self.new.flow }
        ensures last { self.new.last ≡ self.old.last }
        ensures sending { (before text : List ℕ)
            → IsSending S.remaining K.contents before text self.old.flow
            → IsSending S.remaining K.contents before text self.new.flow }
    {
        self.flow.top_up();
    }

    // Moves at most `most` octets.
    fn pump(&mut self, most: u64) -> Pumped
        ensures moved { MovesOut S.remaining K.contents most self.old.flow self.new.flow result }
        ensures last { self.new.last ≡ result.end }
    {
        let pumped = self.flow.send(most);
        self.last = pumped.end;
        pumped
    }
}

/// Writes the first waiting wire octets, at most as many as granted, by as many writes as needed; gives the rest of
/// the grant back; and, if none wait any more, fills the buffer by one read. The grant is spent in every outcome.
///
/// Ends with `WriteFault` if a write failed, with `ReadFault` or `Memory` if the read did, with `Ended` if the source
/// has ended and no octets wait, and otherwise with `More`. No octet is lost by a fault: another pump continues.
pub fn pump_out<N, S: Source, K: Write + Drop, A: Allocator>(
    grant: Grant<N>,
    out: &mut DataOut<S, K, A>,
    tally: &mut Tally<N>,
) -> Pumped
    ensures moved { MovesOut S.remaining K.contents grant.octets out.old.flow out.new.flow result }
    ensures last { out.new.last ≡ result.end }
    ensures tally_moved { tally.new.moved ≡ capped tally.old.moved result.moved }
    ensures tally_back { tally.new.back ≡ capped tally.old.back (grant.octets - result.moved) }
    ensures sending { (before text : List ℕ)
        → IsSending S.remaining K.contents before text out.old.flow
        → IsSending S.remaining K.contents before text out.new.flow }
    ensures whole { (before text : List ℕ)
        → IsSending S.remaining K.contents before text out.old.flow
        → result.end ≡ PumpEnd.Ended
        → K.contents out.new.flow.connection ≡ Some (before ++ text) }
{
    let pumped = out.pump(grant.octets());
    grant.spend(pumped.moved, tally);
    pumped
}
