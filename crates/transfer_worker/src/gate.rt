//! The gate of a worker.

ghost use Rattle.std.specs.Prelude.{◌≡◌, ℕ, List, [], ◌∷◌, Option};
ghost use Rattle.transfer_worker.specs.declared.end.JobEnd.{JobEnd};
ghost use Rattle.transfer_worker.specs.declared.gate.Go.{Go};
ghost use Rattle.transfer_worker.specs.Ends.{Reports};
ghost use Rattle.transfer_worker.specs.Passes.{PassCall, pass_call, Passes};
ghost use Rattle.transfer_worker.specs.Transfers.{IsUploadWant};

use crate::end::JobEnd;

/// An answer of a gate.
#[derive(Clone, Copy, Debug, PartialEq, Eq)]
pub enum Go {
    On,
    /// Ask again.
    Later,
    /// Leave the job as it is, and return.
    Stop,
}

/// The remnant of a job: its open ends, or nothing if it was not opened.
pub trait Remnant: Drop {
    /// The ends of a job that may be reported after this answer of the last `pass`.
    ghost may_report: { Self → Go → JobEnd → Type 0 };
}

/// Permits a worker to continue a job, and receives the end of the job. `Q` is what is left of the job.
pub trait Gate<Q: Remnant> {
    /// The answer of the last `pass`; `On` before the first.
    ghost last_go: { Self → Go };

    /// The sessions and ends of the jobs reported, if it records them.
    ghost heard: { Self → Option (List (ℕ × JobEnd)) };

    /// The calls of `pass` with their answers, if it records them.
    ghost passed: { Self → Option (List PassCall) };

    /// The numbers of octets that an upload may ask for.
    ghost may_want: { ℕ → Type 0 };

    /// Returns whether the session's job, which has moved `moved` octets, may continue. It may wait.
    fn pass(&mut self, session: u32, moved: u64) -> Go
        ensures last { last_go self.new ≡ result }
        ensures heard { heard self.new ≡ heard self.old }
        ensures passed { Passes (passed self.old) (passed self.new)
            (pass_call session moved result ∷ []) };

    /// Says that an ask is next: the calls of `pass` up to the first that is not answered by `Later` are before it, and
    /// after `Stop` the seat is free. All other calls are for an ask that no grant has answered. A gate that stops one
    /// transfer, and not the worker, stops it before an ask.
    fn ask_is_next(&mut self)
        ensures last { last_go self.new ≡ last_go self.old }
        ensures heard { heard self.new ≡ heard self.old }
        ensures passed { passed self.new ≡ passed self.old }
    {}

    /// The number of octets that an upload asks for now: at most as many as one read can return. It is called once
    /// before each ask of an upload, after the `pass` that lets it ask.
    fn upload_want(&self) -> u64
        ensures bounds { IsUploadWant result }
        ensures may { may_want result };

    /// The answer of the last `pass`; `On` before the first.
    fn last(&self) -> Go
        ensures last { result ≡ last_go self.now };

    /// Receives the end of a job, once per job, with what is left of the job.
    fn done(&mut self, session: u32, end: JobEnd, ran: Q)
        requires condition { Q.may_report ran (last_go self.old) end }
        ensures last { last_go self.new ≡ last_go self.old }
        ensures heard { Reports (heard self.old) (heard self.new) session end }
        ensures passed { passed self.new ≡ passed self.old };
}
