//! The end of a server by the signs of its owner.

ghost use Rattle.std.specs.Prelude.{◌≡◌};
ghost use Rattle.ftp_daemon.specs.Draining.{due_by};

use client_patience::Patience;

/// The next step of a server to its end.
#[derive(Clone, Copy, Debug, PartialEq, Eq)]
pub(crate) enum EndStep {
    Nothing,
    /// To drain.
    Drain,
    /// To end its sessions, if there are any.
    End,
    /// The same, since the time of their transfers is over.
    Cut,
}

/// Returns the next step of a server to its end, at this moment: if it is to end by its owner, if it is to drain by
/// them, with the moment since which it drains, if it does, and with the number of its clients.
pub(crate) fn next_due(
    is_up: bool,
    is_to_drain: bool,
    since: Option<u64>,
    clients: usize,
    now: u64,
    patience: Patience,
) -> EndStep
    ensures due { result ≡ due_by is_up is_to_drain since clients now patience }
{
    if is_up {
        return EndStep::End;
    }
    match since {
        None => {
            if is_to_drain {
                EndStep::Drain
            } else {
                EndStep::Nothing
            }
        }
        Some(since) => {
            if clients == 0 {
                EndStep::End
            } else if patience.has_drained(since, now) {
                EndStep::Cut
            } else {
                EndStep::Nothing
            }
        }
    }
}
