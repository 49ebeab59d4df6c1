//! Ends of jobs, and of workers.

ghost use Rattle.std.specs.Prelude.{◌≡◌};
ghost use Rattle.transfer_worker.specs.Ends.{end_of, fault_of};

use data_pump::{OpenFault, PumpEnd};

/// The end of a job.
#[derive(Clone, Copy, Debug, PartialEq, Eq)]
pub enum JobEnd {
    Ended,
    ReadFault,
    WriteFault,
    Memory,
    /// The gate said `Stop`.
    Stopped,
}

/// The reason for which a worker returned.
#[derive(Clone, Copy, Debug, PartialEq, Eq)]
pub enum LoopEnd {
    /// A pop returned nothing.
    Idle,
    /// The gate said `Stop`.
    Stopped,
}

/// The end of a job for a pump's end; `None` if there is more.
pub(crate) fn job_end(end: PumpEnd) -> Option<JobEnd>
    ensures end { result ≡ end_of end }
{
    match end {
        PumpEnd::Ended => Some(JobEnd::Ended),
        PumpEnd::More => None,
        PumpEnd::ReadFault => Some(JobEnd::ReadFault),
        PumpEnd::WriteFault => Some(JobEnd::WriteFault),
        PumpEnd::Memory => Some(JobEnd::Memory),
    }
}

/// The end of a job that could not be opened.
pub(crate) fn open_end(fault: OpenFault) -> JobEnd
    ensures end { result ≡ fault_of fault }
{
    match fault {
        OpenFault::ReadFault => JobEnd::ReadFault,
        OpenFault::Memory => JobEnd::Memory,
    }
}
