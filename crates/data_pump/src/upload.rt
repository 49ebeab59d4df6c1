//! Uploads: from a data connection to a sink.

ghost use Rattle.std.specs.Prelude.{◌≡◌, ◌≢◌, ◌-◌, ◌≤◌, ◌++◌, ℕ, List, [], Some, IfOk, IfErr};
ghost use Rattle.grant_ledger.specs.Books.{capped};
ghost use Rattle.data_pump.specs.Counts.{no_calls};
ghost use Rattle.data_pump.specs.WireText.{received};
ghost use Rattle.data_pump.specs.Uploads.{MovesIn, IsReceiving};

use crate::inflow::{Inflow, MAX_READ};
use crate::pumped::{OpenFault, PumpEnd, Pumped};
use ftp_terms::DataType;
use grant_ledger::{Grant, Tally};
use line_rates::{Ask, Way};
use std::alloc::{Allocator, Global};
use std::io::Read;
use std::marker::Model;
use virtual_tree::Sink;

/// An upload: a data connection, the sink that it goes to, and the octets read but not yet passed on. Only `pump_in`
/// can read the connection.
#[derive(Drop)]
pub struct DataIn<K: Read + Drop, T: Sink, A: Allocator = Global> {
    flow: Inflow<K, T, A>,
    last: PumpEnd,
}

impl<K: Read + Drop, T: Sink, A: Allocator> Model for DataIn<K, T, A> {
    ghost use Rattle.std.specs.Prelude.{◌≡◌, []};
    ghost use Rattle.data_pump.specs.Uploads.{InView};
    ghost use Rattle.data_pump.specs.declared.pumped.PumpEnd.TheVariants.{Ended};

    ghost Value = { InView K T };

    ghost view = { λ d. record { flow = d.flow; last = d.last } };

    ghost invariant = { λ d. d.last ≡ Ended → d.flow.held ≡ [] };
}

impl<K: Read + Drop, T: Sink, A: Allocator> DataIn<K, T, A> {
    /// Begins an upload: allocates its buffers, once, and reads nothing yet. A refusal drops the connection and the
    /// sink.
    pub fn open(
        alloc: A,
        connection: K,
        sink: T,
        data_type: DataType,
    ) -> Result<DataIn<K, T, A>, OpenFault>
    where
        A: Clone,
        ensures begun { IfOk result
            (λ upload. upload ≡ record {
              flow = record {
                connection = connection;
                reads = no_calls;
                lent = 0;
                sink = sink;
                writes = no_calls;
                data_type = data_type;
                held = [];
              };
              last = PumpEnd.More;
            }) }
        ensures refused { IfErr result (λ fault. fault ≡ OpenFault.Memory) }
        ensures receiving { (before octets : List ℕ) → T.collected sink ≡ Some before
            → K.remaining connection ≡ Some octets
            → IfOk result (IsReceiving K.remaining T.collected before octets) }
    {
        match Inflow::new(alloc, connection, sink, data_type) {
            Ok(flow) => Ok(DataIn {
                flow,
                last: PumpEnd::More,
            }),
            Err(_) => Err(OpenFault::Memory),
        }
    }

    /// The end of the last pump; `More` before the first. After `Ended` nothing is held back.
    pub fn last(&self) -> PumpEnd
        ensures last { result ≡ self.now.last }
        ensures ended { self.now.last ≡ PumpEnd.Ended → self.now.flow.held ≡ [] }
    {
        let _ = &self.flow;
        self.last
    }

    /// The ask for a round: permission to read as much as one pump can.
    pub fn ask(&self, user: u32, session: u32) -> Ask
        ensures ask { result
            ≡ record { user = user; session = session; way = Way.Up; want = MAX_READ } }
    {
        Ask {
            user,
            session,
            way: Way::Up,
            want: MAX_READ as u64,
        }
    }

    /// Returns the sink, for its store to finish, and drops the connection. A CR that is held back is lost, though it
    /// counts as moved; this can happen at each end but `Ended`.
    pub fn into_sink(self) -> T
        ensures sink { result ≡ self.flow.sink }
    {
        let DataIn { flow, last: _ } = self;
        flow.into_sink()
    }

    // Moves at most `most` octets, unless a pump has ended the transfer.
    fn pump(&mut self, most: u64) -> Pumped
        ensures moved { self.old.last ≡ PumpEnd.More
            → MovesIn K.remaining T.collected T.target most self.old.flow self.new.flow result }
        ensures over { self.old.last ≢ PumpEnd.More → (self.new ≡ self.old)
            × (result ≡ record { moved = 0; end = self.old.last }) }
        ensures last { self.new.last ≡ result.end }
        ensures most { result.moved ≤ most }
    {
        match self.last {
            PumpEnd::More => {
                let pumped = self.flow.take(most);
                self.last = pumped.end;
                pumped
            }
            end => Pumped { moved: 0, end },
        }
    }
}

/// Reads the connection once, at most as many octets as granted and at most `MAX_READ`; writes their text to the sink;
/// and gives the rest of the grant back. The grant is spent in every outcome. A grant of no octets makes no call, and
/// ends with `More`.
///
/// Ends with `ReadFault` if the read failed, with `WriteFault` or `Memory` if the sink refused, with `Ended` if the
/// read returned nothing, and otherwise with `More`. What a sink refused is lost, so a failed upload stays failed:
/// after any end but `More`, each pump returns that end again, and makes no call.
pub fn pump_in<N, K: Read + Drop, T: Sink, A: Allocator>(
    grant: Grant<N>,
    upload: &mut DataIn<K, T, A>,
    tally: &mut Tally<N>,
) -> Pumped
    ensures moved { upload.old.last ≡ PumpEnd.More
        → MovesIn K.remaining T.collected T.target grant.octets upload.old.flow
        upload.new.flow result }
    ensures over { upload.old.last ≢ PumpEnd.More → (upload.new ≡ upload.old)
        × (result ≡ record { moved = 0; end = upload.old.last }) }
    ensures last { upload.new.last ≡ result.end }
    ensures most { result.moved ≤ grant.octets }
    ensures tally_moved { tally.new.moved ≡ capped tally.old.moved result.moved }
    ensures tally_back { tally.new.back ≡ capped tally.old.back (grant.octets - result.moved) }
    ensures receiving { (before octets : List ℕ)
        → IsReceiving K.remaining T.collected before octets upload.old
        → IsReceiving K.remaining T.collected before octets upload.new }
    ensures whole { (before octets : List ℕ)
        → IsReceiving K.remaining T.collected before octets upload.old
        → result.end ≡ PumpEnd.Ended
        → T.collected upload.new.flow.sink
        ≡ Some (before ++ received upload.old.flow.data_type octets) }
{
    let pumped = upload.pump(grant.octets());
    grant.spend(pumped.moved, tally);
    pumped
}
