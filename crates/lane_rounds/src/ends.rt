//! Reports of lanes to sessions.

ghost use Rattle.std.specs.Prelude.{◌≡◌, false, true};
ghost use Rattle.lane_rounds.specs.Ends.{bound_end, bound_sink, lacks_sink, received_end, sent_end, reported_end, reported_sink};
ghost use Rattle.server_house.specs.Tickets.{HasSinkOf};
ghost use Rattle.session_table.specs.declared.inputs.End.TheVariants.{Aborted};

use server_house::TransferEnd;
use session_table::End;
use std::alloc::Allocator;
use std::io::{Read, Write};
use transfer_worker::{JobEnd, Ran};
use virtual_tree::{Sink, Source};

// The end of a download.
fn sent_end(end: JobEnd) -> End
    ensures end { result ≡ sent_end end }
{
    match end {
        JobEnd::Ended => End::Done,
        JobEnd::ReadFault => End::Local,
        JobEnd::WriteFault => End::Lost,
        JobEnd::Memory => End::NoMemory,
        JobEnd::Stopped => End::Aborted,
    }
}

// The end of an upload.
fn received_end(end: JobEnd) -> End
    ensures end { result ≡ received_end end }
{
    match end {
        JobEnd::Ended => End::Done,
        JobEnd::ReadFault => End::Lost,
        JobEnd::WriteFault => End::Local,
        JobEnd::Memory => End::NoMemory,
        JobEnd::Stopped => End::Aborted,
    }
}

/// The end of a job, and the sink of an upload. The connection is dropped first.
pub(crate) fn reported_of<R, K, C, A>(end: JobEnd, ran: Ran<R, K, C, A>) -> (End, Option<K>)
where
    R: Source,
    K: Sink,
    C: Read + Write + Drop,
    A: Allocator,
    ensures end { result.0 ≡ reported_end end ran }
    ensures sink { result.1 ≡ reported_sink ran }
{
    match ran {
        Ran::Out(_) => (sent_end(end), None),
        Ran::In(upload) => (received_end(end), Some(upload.into_sink())),
        Ran::Unopened => (sent_end(end), None),
    }
}

// The end of a transfer: one that its session has not asked for is for lack of memory, and so is that of an upload that
// was not begun.
fn bound_end(end: End, has_stopped: bool, lacks_sink: bool) -> End
    ensures end { result ≡ bound_end end has_stopped lacks_sink }
{
    if lacks_sink || matches!(end, End::Aborted) && !has_stopped {
        return End::NoMemory;
    }
    end
}

/// The report of an end to a session. `has_stopped` is whether its lane saw that it was to stop, and `is_upload` whether
/// octets were received.
pub(crate) fn report_of<K: Drop>(
    end: End,
    sink: Option<K>,
    is_upload: bool,
    has_stopped: bool,
    moved: u64,
) -> TransferEnd<K>
    ensures end { result.end ≡ bound_end end has_stopped (lacks_sink is_upload sink) }
    ensures sink { result.sink ≡ bound_sink is_upload sink }
    ensures moved { result.moved ≡ moved }
    ensures asked { result.end ≡ Aborted → has_stopped ≡ true }
    ensures bound { HasSinkOf is_upload result }
{
    let sink = if is_upload { sink } else { None };
    let lacks_sink = is_upload && sink.is_none();
    TransferEnd {
        end: bound_end(end, has_stopped, lacks_sink),
        sink,
        moved,
    }
}
