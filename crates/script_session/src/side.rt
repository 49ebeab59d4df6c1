//! The clock and the data side of a session without sockets.

ghost use Rattle.std.specs.Prelude.{◌≡◌, ◌≢◌, ◌<◌, length};
ghost use Rattle.std.specs.Io.KnownBytes.{IsAtEnd};
ghost use Rattle.script_session.specs.Scripts.{AnswersScript, EndsScript, IsSent, ReadsZero};

use ftp_wire::HostPort;
use session_host::{DataSide, Moments};
use session_table::{End, Input, Job};
use std::alloc::Allocator;
use virtual_tree::{Source, StoreFault};

/// A clock that always shows the beginning of 1970.
#[derive(Clone, Copy, Debug)]
pub struct ZeroClock;

impl Moments for ZeroClock {
    ghost Gives = { ReadsZero };

    fn moment(&mut self) -> u64 {
        0
    }
}

/// A data side without sockets. Each passive port is the same. A transfer ends as it begins: a download is read to its
/// end and dropped, an upload brings no octets. An event waits until the next look.
#[derive(Drop)]
pub struct ScriptSide<A: Allocator, K> {
    pub port: u16,
    /// The event that waits, if any.
    pub came: Option<Input<A, K>>,
}

/// The end of a transfer whose file the store cannot read on.
fn end_of(fault: StoreFault) -> End
    ensures sent { IsSent result }
    ensures fault { result ≢ End.Done }
{
    match fault {
        StoreFault::Memory => End::NoMemory,
        _ => End::Local,
    }
}

/// Reads a file to its end, through a buffer.
fn drain<R: Source>(source: &mut R, buffer: &mut [u8]) -> End
    requires room { 0 < length buffer.old }
    ensures sent { IsSent result }
    ensures done { result ≡ End.Done → IsAtEnd (R.remaining source.new) }
{
    for _read in 0..u64::MAX {
        match source.read(buffer) {
            Ok(0) => return End::Done,
            Ok(_) => {}
            Err(fault) => return end_of(fault),
        }
    }
    End::Local
}

/// Reads a file to its end.
fn take_whole<R: Source>(source: R) -> End
    ensures sent { IsSent result }
{
    let mut source = source;
    drain(&mut source, &mut [0u8; 256])
}

/// Runs a transfer to its end.
fn run<A: Allocator, R: Source, K: Drop>(job: Job<A, R, K>) -> Input<A, K>
    ensures ends { EndsScript job result }
{
    match job {
        Job::Text(_) => Input::TransferEnded {
            end: End::Done,
            sink: None,
        },
        Job::SendFile(source, _) => Input::TransferEnded {
            end: take_whole(source),
            sink: None,
        },
        Job::TakeFile(sink, _) => Input::TransferEnded {
            end: End::Done,
            sink: Some(sink),
        },
    }
}

impl<A: Allocator, R: Source, K: Drop> DataSide<A, R, K> for ScriptSide<A, K> {
    ghost Asks = { AnswersScript };

    fn open_passive(&mut self) {
        self.came = Some(Input::DataReady(Some(self.port)));
    }

    fn connect_to(&mut self, _to: HostPort) {}

    fn drop_data(&mut self) {}

    fn start(&mut self, job: &mut Option<Job<A, R, K>>) {
        if let Some(job) = job.take() {
            self.came = Some(run(job));
        }
    }

    fn abort(&mut self) {}

    fn look(&mut self) -> Option<Input<A, K>> {
        self.came.take()
    }

    fn settle(&mut self) -> Option<Input<A, K>> {
        self.came.take()
    }
}
