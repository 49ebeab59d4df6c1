//! A session of a configured server.

ghost use Rattle.std.specs.Prelude.{◌≡◌, Err, IfErr, Ok, OnOk};
ghost use Rattle.script_session.specs.ControlFault.{ControlFault};
ghost use Rattle.script_session.specs.declared.fault.SessionFault.TheVariants as SessionFault;
ghost use Rattle.session_host.specs.Breaks.{IsBreak, MayBreakReading, MayBreakWriting};
ghost use Rattle.script_session.specs.Served.{IsBrokenBy, IsServed, IsServedBy, IsSessionBreak, IsUnserved, most_reads};

use crate::fault::SessionFault;
use crate::script::serve_text;
use authorizer::Authorizer;
use line_rates::Limits;
use memory_store::MemStore;
use rate_floors::Floors;
use server_config::{Config, ServedStore};
use session_host::ControlFault;
use session_table::Settings;
use std::alloc::Global;
use text_io::{TextReader, TextWriter};

/// Serves a session over a store in memory, which is then dropped.
fn serve_memory<R: TextReader, W: TextWriter>(
    alloc: Global,
    users: &Authorizer,
    limits: &Limits,
    store: MemStore,
    settings: Settings,
    port: u16,
    reader: &mut R,
    writer: &mut W,
) -> Result<(), ControlFault>
    ensures served { OnOk result (IsServedBy users.now.users limits.now store settings port
        (R.remaining reader.old) (R.remaining reader.new)
        (W.contents writer.old) (W.contents writer.new) (Ok tt)) }
    ensures broken { IfErr result (IsBrokenBy users.now.users limits.now store settings port
        (R.remaining reader.old) (R.remaining reader.new)
        (W.contents writer.old) (W.contents writer.new)) }
    ensures breaks { IfErr result (IsBreak
        (MayBreakReading most_reads (R.may_fail reader.old) (R.remaining reader.old))
        (MayBreakWriting W.contents W.may_refuse writer.old)) }
{
    let mut store = store;
    let mut floors = Floors::of(alloc, limits)?;
    serve_text(
        alloc,
        reader,
        writer,
        users,
        &mut floors,
        &mut store,
        settings,
        port,
    )
}

fn reported(served: Result<(), ControlFault>) -> Result<(), SessionFault>
    ensures served { OnOk result (served ≡ Ok tt) }
    ensures broken { IfErr result (λ fault. (why : ControlFault)
        × (fault ≡ SessionFault.Control why) × (served ≡ Err why)) }
{
    match served {
        Ok(()) => Ok(()),
        Err(fault) => Err(SessionFault::Control(fault)),
    }
}

/// Serves a whole control session of the client 127.0.0.1, at the moment 0, on a server of this configuration: takes
/// its text from the reader, and writes its replies. Each passive port is the first; a download is read to its end and
/// dropped, an upload brings no octets. The store is in memory: a configured folder is refused before anything is read
/// or written.
pub fn serve_config<R: TextReader, W: TextWriter>(
    alloc: Global,
    config: Config,
    reader: &mut R,
    writer: &mut W,
) -> Result<(), SessionFault>
    ensures served { OnOk result (IsServed config
        (R.remaining reader.old) (R.remaining reader.new)
        (W.contents writer.old) (W.contents writer.new)) }
    ensures broken { IfErr result (IsUnserved config
        (R.remaining reader.old) (R.remaining reader.new)
        (W.contents writer.old) (W.contents writer.new)) }
    ensures breaks { IfErr result (IsSessionBreak
        (MayBreakReading most_reads (R.may_fail reader.old) (R.remaining reader.old))
        (MayBreakWriting W.contents W.may_refuse writer.old)) }
    ensures untouched { IfErr result (λ fault. fault ≡ SessionFault.Folder
        → (reader.new ≡ reader.old) × (writer.new ≡ writer.old)) }
{
    let Config {
        settings,
        numbers,
        users,
        store,
        limits,
        groups,
    } = config;
    drop(groups);
    let port = numbers.passive_first;
    match store {
        ServedStore::Folder(_folder) => Err(SessionFault::Folder),
        ServedStore::Memory(store) => {
            let served = serve_memory(
                alloc, &users, &limits, store, settings, port, reader, writer,
            );
            reported(served)
        }
    }
}
