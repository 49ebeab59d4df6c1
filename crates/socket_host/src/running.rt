//! Prepared and running transfers.

ghost use Rattle.std.specs.Prelude.{◌≡◌};
ghost use Rattle.socket_host.specs.Jobs.{IsBrief, fits_first_write, is_upload, lane_job, sink_of};
ghost use Rattle.socket_host.specs.Payers.{user_of};
ghost use Rattle.socket_host.specs.Running.{listened_in, over, port_of, taken_back};

use crate::ports::LeasedPort;
use ftp_terms::DataType;
use ftp_wire::HostPort;
use server_house::{DataConnection, FIRST_WRITE, Listing, Outgoing, Served, TransferEnd};
use session_table::{End, Job};
use std::alloc::Global;
use std::mem;
use transfer_worker::LaneJob;
use virtual_tree::{Sink, Source};

/// The preparation of the next transfer.
pub(crate) enum Preparation {
    Nothing,
    Listening(LeasedPort),
    Target(HostPort),
}

impl Preparation {
    /// The port that was listened on, if there is one: nothing is prepared any longer.
    pub(crate) fn into_port(self) -> Option<LeasedPort>
        ensures port { result ≡ listened_in self }
    {
        match self {
            Preparation::Listening(port) => Some(port),
            Preparation::Nothing | Preparation::Target(_) => None,
        }
    }
}

/// The transfer of a session.
pub(crate) enum SideTransfer<R: Drop, K: Drop> {
    Nothing,
    /// The client has not connected yet. The wait began at `since`, in microseconds.
    Awaited {
        port: LeasedPort,
        job: Job<Global, R, K>,
        since: u64,
    },
    /// The client's port has not answered yet. The connection was begun at `since`, in microseconds.
    Connecting {
        outgoing: Outgoing,
        job: Job<Global, R, K>,
        since: u64,
    },
    /// It is on the session's ticket: a lane runs it, or will.
    Moving {
        connection: DataConnection,
        is_aborted: bool,
    },
    /// It has ended, and the session does not know yet.
    Over(TransferEnd<K>),
}

impl<R: Drop, K: Drop> SideTransfer<R, K> {
    /// The port at which the client was awaited, if it was: the transfer is given up.
    pub(crate) fn into_port(self) -> Option<LeasedPort>
        ensures port { result ≡ port_of self }
    {
        match self {
            SideTransfer::Awaited {
                port,
                job,
                since: _,
            } => {
                drop(job);
                Some(port)
            }
            SideTransfer::Connecting {
                outgoing,
                job,
                since: _,
            } => {
                drop(outgoing);
                drop(job);
                None
            }
            SideTransfer::Moving {
                connection,
                is_aborted: _,
            } => {
                drop(connection);
                None
            }
            SideTransfer::Over(reported) => {
                drop(reported);
                None
            }
            SideTransfer::Nothing => None,
        }
    }
}

/// Puts a transfer in the place of none.
pub(crate) fn put_in<R: Drop, K: Drop>(place: &mut SideTransfer<R, K>, next: SideTransfer<R, K>)
    requires nothing { place.old ≡ SideTransfer.Nothing }
    ensures put { place.new ≡ next }
{
    match mem::replace(place, next) {
        SideTransfer::Nothing => {}
        SideTransfer::Awaited { .. } => unreachable!(),
        SideTransfer::Connecting { .. } => unreachable!(),
        SideTransfer::Moving { .. } => unreachable!(),
        SideTransfer::Over(_) => unreachable!(),
    }
}

/// A transfer that never ran; an upload's sink is returned.
pub(crate) fn over<R: Drop, K: Drop>(end: End, job: Job<Global, R, K>) -> SideTransfer<R, K>
    ensures over { result ≡ over end job }
{
    let sink = match job {
        Job::TakeFile(sink, _) => Some(sink),
        Job::Text(_) | Job::SendFile(_, _) => None,
    };
    SideTransfer::Over(TransferEnd {
        end,
        sink,
        moved: 0,
    })
}

/// Returns whether octets are received.
pub(crate) fn is_upload<R, K>(job: &Job<Global, R, K>) -> bool
    ensures upload { result ≡ is_upload job.now }
{
    matches!(job, Job::TakeFile(_, _))
}

// Returns whether the octets that are expected are written with the first write. Under TYPE A each may be two.
fn fits_first_write(expected: Option<u64>, data_type: DataType) -> bool
    ensures fits { result ≡ fits_first_write expected data_type }
{
    match (expected, data_type) {
        (None, _) => false,
        (Some(count), DataType::Image) => count <= FIRST_WRITE as u64,
        (Some(count), DataType::Ascii) => count <= FIRST_WRITE as u64 / 2,
    }
}

/// Returns whether a download is brief: it is expected to be over with its first write, for which nobody waits.
pub(crate) fn is_brief<R: Source, K>(job: &Job<Global, R, K>) -> bool
    ensures brief { IsBrief R.remaining job.now result }
{
    match job {
        Job::Text(octets) => octets.as_slice().len() <= FIRST_WRITE,
        Job::SendFile(source, data_type) => fits_first_write(source.expected(), *data_type),
        Job::TakeFile(_, _) => false,
    }
}

/// The job for a lane. A listing is sent as it is.
pub(crate) fn lane_job<R: Source, K: Sink>(
    job: Job<Global, R, K>,
    connection: DataConnection,
    user: u32,
    session: u32,
) -> LaneJob<Served<Global, R>, K, DataConnection>
    ensures job { result ≡ lane_job job connection user session }
    ensures user { user_of result ≡ user }
{
    match job {
        Job::Text(octets) => LaneJob::Send {
            user,
            session,
            source: Served::Listing(Listing::new(octets)),
            connection,
            data_type: DataType::Image,
        },
        Job::SendFile(source, data_type) => LaneJob::Send {
            user,
            session,
            source: Served::File(source),
            connection,
            data_type,
        },
        Job::TakeFile(sink, data_type) => LaneJob::Take {
            user,
            session,
            connection,
            sink,
            data_type,
        },
    }
}

/// The sink of a job that no lane took.
fn sink_of<R: Source, K: Sink>(job: LaneJob<R, K, DataConnection>) -> Option<K>
    ensures sink { result ≡ sink_of job }
{
    match job {
        LaneJob::Send { .. } => None,
        LaneJob::Take { sink, .. } => Some(sink),
    }
}

/// A transfer that was taken back before a lane had begun it.
pub(crate) fn taken_back<R: Source, K: Sink>(
    job: LaneJob<Served<Global, R>, K, DataConnection>,
) -> SideTransfer<R, K>
    ensures back { result ≡ taken_back job }
{
    SideTransfer::Over(TransferEnd {
        end: End::Aborted,
        sink: sink_of(job),
        moved: 0,
    })
}
