//! Serving with parts that are at hand, under a book of the caller's.

ghost use Rattle.std.specs.Prelude.{◌≡◌, ◌≢◌, ◌+◌, ◌*◌, ◌≤◌, IfOk, true};
ghost use Rattle.line_rates.specs.Rates.{Rates};
ghost use Rattle.line_rates.specs.declared.ask.Name.TheVariants.{Server};
ghost use Rattle.paced_rounds.specs.Allowed.{AreAllowed};
ghost use Rattle.paced_rounds.specs.Settled.{rounds_of};
ghost use Rattle.paced_rounds.specs.Spans.{IsWithinRates, granted_to, seconds_from};
ghost use Rattle.round_pace.specs.Stretches.{StretchesKeep};
ghost use Rattle.ftp_daemon.specs.SameRates.{may_hold};

use crate::stores::Stores;
use client_patience::Patience;
use ftp_daemon::{
    OwnerSigns, RoundClock, ServeFault, ServerRuntime, Service, Terms, TextWriter, serve,
};
use grant_ledger::{Book, Tally};
use line_rates::Limits;
use paced_rounds::Settlement;
use server_config::ServerNumbers;
use server_house::ServerHooks;
use std::alloc::Global;
use std::sync::Arc;
use std::thread::Threads;
use virtual_tree::Store;

/// The parts that a server begins with. No number is compared with its range.
///
/// ```text
/// let parts = ServerParts { terms, numbers, limits, patience, user_sessions: 0 };
/// ```
#[derive(Drop)]
pub struct ServerParts {
    /// The users, and the settings of all sessions.
    pub terms: Arc<Terms>,
    /// The address, the ports and the maximum counts.
    pub numbers: ServerNumbers,
    /// The rates, in octets per second.
    pub limits: Limits,
    /// The limits of time for clients, in seconds.
    pub patience: Patience,
    /// The greatest number of sessions in which one user is logged in; 0 for no limit.
    pub user_sessions: u32,
}

/// Serves these stores as `FtpServer::serve_with` does, with parts that are at hand, and with a book and its tally, whose
/// name is the caller's. Writes `ready` once clients may connect, and at the end the outcome of all octets issued. Returns
/// the settlement of the book, with its moments in microseconds of the clock.
///
/// Fails as `serve` of `ftp_daemon`: with `Bind` if the address and port cannot be bound (the handler is told why), with
/// `Stopped` if the signs say at the start that it is to end, with `NoThread` if a thread cannot be started, with
/// `WriteFault` if the writer fails, and with `Memory` if memory runs out.
///
/// ```text
/// let book = Book::<OfMine>::open(0); // OfMine is a type with the trait BookName
/// let settlement = serve_stores(&rt, parts, Stores::one(alloc, store), NoHooks, flag, book, &mut out)?;
/// ```
pub fn serve_stores<R, S, H, P, N, W>(
    rt: &R,
    parts: ServerParts,
    stores: Stores<S>,
    handler: H,
    signs: P,
    book: (Book<N>, Tally<N>),
    writer: &mut W,
) -> Result<Settlement<N>, ServeFault>
where
    R: Threads + ServerRuntime + RoundClock + Copy + Send + Sync,
    S: Store<Global> + Send + Drop,
    S::Source: Send,
    S::Sink: Send,
    H: ServerHooks + Send,
    P: OwnerSigns + Send + Sync + Drop,
    N: Send + Sync,
    W: TextWriter,
    requires tally { book.0.issued ≡ book.1.moved + book.1.back }
    ensures sum { IfOk result (λ s. s.issued ≡ s.moved + s.back) }
    ensures issued { IfOk result (λ s.
        s.issued ≡ book.0.issued + granted_to Server (rounds_of s)) }
    ensures every_second { IfOk result (λ s. StretchesKeep (rounds_of s)) }
    ensures kept { IfOk result (λ s. IsWithinRates (rounds_of s) s.opened s.latest) }
    ensures rates { IfOk result (λ s.
        AreAllowed (may_hold parts.limits P.allows) (rounds_of s)) }
    ensures seconds { IfOk result (λ s. parts.limits.server ≢ 0
        → ((rates : Rates) → P.allows rates ≡ true → rates.server ≡ parts.limits.server)
        → s.issued ≤ book.0.issued
        + seconds_from s.opened s.latest * parts.limits.server) }
{
    let Stores { store, own } = stores;
    let service = Service {
        terms: parts.terms,
        numbers: parts.numbers,
        limits: parts.limits,
        store,
        own_stores: own,
        handler,
        signs: Some(signs),
        patience: parts.patience,
        user_sessions: parts.user_sessions,
    };
    let (book, tally) = book;
    let (settlement, served) = serve(rt, service, book, tally, writer);
    match served {
        Ok(()) => Ok(settlement),
        Err(fault) => {
            settlement.numbers();
            Err(fault)
        }
    }
}
