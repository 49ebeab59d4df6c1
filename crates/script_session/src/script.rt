//! A control session without sockets.

ghost use Rattle.std.specs.Prelude.{◌≡◌, ℕ, List, IfErr};
ghost use Rattle.std.specs.declared.alloc.Global.{Global};
ghost use Rattle.memory_store.specs.InMemory.{InMemory, Upload};
ghost use Rattle.session_host.specs.Breaks.{IsBreak, MayBreakReading, MayBreakWriting};
ghost use Rattle.script_session.specs.Served.{most_reads};
ghost use Rattle.script_session.specs.Scripts.{AnswersScript, IsScript, ReadsZero, home_address, script_parts, unasked};
ghost use Rattle.script_session.specs.declared.side.ScriptSide.{ScriptSide};
ghost use Rattle.session_host.specs.Alone.{AloneDoes};
ghost use Rattle.session_host.specs.Rows.{IsRow};
ghost use Rattle.session_host.specs.Sessions.{IsServed, new_session};
ghost use Rattle.session_host.specs.Silent.{StaysSilent};

use crate::side::{ScriptSide, ZeroClock};
use authorizer::Authorizer;
use memory_store::MemStore;
use rate_floors::Floors;
use session_host::{ControlFault, Silent, SoleHost, run_alone};
use session_table::Settings;
use std::alloc::{Allocator, Global};
use text_io::{TextReader, TextWriter};

/// The address of the client.
const HOME: [u8; 4] = [127, 0, 0, 1];

/// Serves a whole control session of the client 127.0.0.1, at the moment 0: takes its text from the reader, and writes
/// its replies. Each passive port is `port`; a download is read to its end and dropped, an upload brings no octets.
/// However the session ends, the floors are unchanged.
///
/// `ReadFault`: a read failed, or 4,294,967,295 reads were made, each of at most 512 octets, and each but the last of
/// one at least. `WriteFault`: the writer refused a reply.
pub fn serve_text<F: Allocator + Clone, R: TextReader, W: TextWriter>(
    alloc: Global,
    reader: &mut R,
    writer: &mut W,
    users: &Authorizer,
    floors: &mut Floors<F>,
    store: &mut MemStore,
    settings: Settings,
    port: u16,
) -> Result<(), ControlFault>
    ensures whole { (side : ScriptSide Global Upload) × IsServed
        (IsRow {A = Global} {R = List ℕ} InMemory)
        (AloneDoes users.now.users ReadsZero AnswersScript StaysSilent R.remaining R.may_fail
        W.contents W.may_refuse)
        u32.MAX result (new_session settings home_address)
        (script_parts store.old floors.old (unasked port) reader.old writer.old)
        (script_parts store.new floors.new side reader.new writer.new) }
    ensures script { IsScript users.now.users settings port floors.old store.old store.new
        (R.remaining reader.old) (R.remaining reader.new)
        (W.contents writer.old) (W.contents writer.new) result }
    ensures breaks { IfErr result (IsBreak
        (MayBreakReading most_reads (R.may_fail reader.old) (R.remaining reader.old))
        (MayBreakWriting W.contents W.may_refuse writer.old)) }
    ensures floors { floors.new ≡ floors.old }
{
    let mut clock = ZeroClock;
    let mut side = ScriptSide { port, came: None };
    let mut hooks = Silent;
    let mut host = SoleHost {
        users,
        store,
        floors,
        clock: &mut clock,
        side: &mut side,
        reader,
        writer,
        hooks: &mut hooks,
    };
    run_alone(&alloc, &mut host, settings, HOME, u32::MAX)
}
