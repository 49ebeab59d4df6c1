//! A server, from its listener to its settlement.

ghost use Rattle.std.specs.Prelude.{◌≡◌, ◌≢◌, ◌+◌, ◌*◌, ◌≤◌, true, IfOk};
ghost use Rattle.lent_parts.specs.Names.{IsBoardOf, IsNamed};
ghost use Rattle.line_rates.specs.Rates.{Rates};
ghost use Rattle.line_rates.specs.declared.ask.Name.TheVariants.{Server};
ghost use Rattle.paced_rounds.specs.Allowed.{AreAllowed};
ghost use Rattle.paced_rounds.specs.Settled.{rounds_of};
ghost use Rattle.paced_rounds.specs.Spans.{IsWithinRates, granted_to, seconds_from};
ghost use Rattle.round_pace.specs.Stretches.{StretchesKeep};
ghost use Rattle.ftp_daemon.specs.Boards.{AreNewBoards, ArePassesOf};
ghost use Rattle.ftp_daemon.specs.SameRates.{Permits, may_hold};

use crate::listening::{Entrance, listen_on, warn_of_descriptors};
use crate::opening::{Line, NewBoards, Service, open_boards, open_line};
use crate::server::Server as NamedServer;
use crate::settling::settle_unheld;
use crate::watching::{OwnerSigns, is_up};
use ftpd_program::ServeFault;
use grant_ledger::{Book, Tally};
use lent_parts::{PartsName, RoundClock};
use paced_rounds::Settlement;
use recorded_store::Recorder;
use server_config::ServerNumbers;
use server_house::{ServerHooks, ServerRuntime};
use std::alloc::Global;
use std::marker::Brand;
use std::thread::Threads;
use text_io::TextWriter;
use virtual_tree::Store;

/// Serves with a desk and boards of this name. Returns the settlement of the line's book, and whether clients were served.
fn serve_named<R, S, H, B, N, P, W>(
    rt: &R,
    service: Service<S, H, P>,
    boards: NewBoards,
    line: Line<N>,
    entrance: Entrance,
    writer: &mut W,
) -> (Settlement<N>, Result<(), ServeFault>)
where
    R: Threads + ServerRuntime + RoundClock + Copy + Send + Sync,
    S: Store<Global> + Recorder + Send + Drop,
    S::Source: Send,
    S::Sink: Send,
    H: ServerHooks + Send,
    B: PartsName + Send + Sync,
    N: Send + Sync,
    P: OwnerSigns + Send + Sync + Drop,
    W: TextWriter,
    requires desk { IsNamed B.desk B.lanes line.desk }
    requires first { IsBoardOf B.first boards.first }
    requires others { IsBoardOf B.board boards.others }
    requires passes { ArePassesOf B.first B.board boards.passes }
    requires rated { B.rates service.limits ≡ true }
    requires owner { Permits P.allows B.rates }
    requires carried { line.book.issued ≡ B.carried }
    ensures carried { result.0.carried ≡ B.carried }
    ensures rates { AreAllowed B.rates (rounds_of result.0) }
{
    match NamedServer::<R, S, H, B, N, P>::open(rt, service, boards, line) {
        Err((settlement, fault)) => (settlement, Err(fault)),
        Ok(server) => {
            let served = server.run(entrance, writer);
            (server.settle(), served)
        }
    }
}

// Listens, and opens the boards, unless the owner's signs say that the server is to end.
fn enter<R, H, P>(
    rt: &R,
    numbers: &ServerNumbers,
    signs: &Option<P>,
    handler: &mut H,
) -> Result<(Entrance, NewBoards), ServeFault>
where
    R: ServerRuntime,
    H: ServerHooks,
    P: OwnerSigns,
    ensures boards { IfOk result (λ opened. AreNewBoards opened.1) }
{
    if is_up(signs) {
        return Err(ServeFault::Stopped);
    }
    let entrance = listen_on(rt, numbers, handler)?;
    warn_of_descriptors(numbers, handler);
    let passes = usize::from(numbers.lanes) + 1;
    let boards = open_boards(rt.alloc(), usize::from(numbers.max_cons), passes)?;
    Ok((entrance, boards))
}

// Serves with the book of a name. Returns its settlement, whatever happened, and whether clients were served.
fn serve_booked<R, S, H, N, P, W>(
    rt: &R,
    service: Service<S, H, P>,
    book: Book<N>,
    tally: Tally<N>,
    writer: &mut W,
) -> (Settlement<N>, Result<(), ServeFault>)
where
    R: Threads + ServerRuntime + RoundClock + Copy + Send + Sync,
    S: Store<Global> + Recorder + Send + Drop,
    S::Source: Send,
    S::Sink: Send,
    H: ServerHooks + Send,
    N: Send + Sync,
    P: OwnerSigns + Send + Sync + Drop,
    W: TextWriter,
    requires tally { book.issued ≡ tally.moved + tally.back }
    ensures carried { result.0.carried ≡ book.issued }
    ensures rates { AreAllowed (may_hold service.limits P.allows) (rounds_of result.0) }
{
    let numbers = service.numbers;
    let mut service = service;
    let parts = &mut service;
    match enter(rt, &numbers, &parts.signs, &mut parts.handler) {
        Err(fault) => (settle_unheld(rt, book, tally), Err(fault)),
        Ok((entrance, boards)) => {
            match open_line(rt, usize::from(numbers.lanes), book, tally) {
                Err((settlement, fault)) => (settlement, Err(fault)),
                Ok(line) => serve_named::<R, S, H, Brand, N, P, W>(
                    rt, service, boards, line, entrance, writer,
                ),
            }
        }
    }
}

// Writes the numbers of octets issued, moved and given back.
fn report_settled<N, W: TextWriter>(
    alloc: Global,
    settlement: &Settlement<N>,
    writer: &mut W,
) -> Result<(), ServeFault> {
    let issued = settlement.issued();
    let moved = settlement.moved();
    let back = settlement.back();
    let line = format!(in alloc; "settled issued {issued} moved {moved} back {back}\n")?;
    match writer.write_text(line.as_bytes()) {
        Ok(()) => Ok(()),
        Err(_) => Err(ServeFault::WriteFault),
    }
}

/// Serves until as many sessions were admitted as the numbers say, or until the stop sign is up, and then waits for the
/// sessions in progress. Writes `ready` once clients may connect, and at the end the outcome of all octets issued.
///
/// Returns the settlement of the book, whatever happened. It has the history of the rounds that were held: each at a
/// moment that was read from the clock, under the rates of the limits, or those that the owner has put in force since.
/// They granted what the book issued, and under each name at most what its rates allow, from the second of the opening to
/// that of the last round. So if the owner never changes the rate of the server, at most that rate is issued for each of
/// these seconds.
///
/// Besides, returns `Bind` if the address and port cannot be bound (the handler is told why), `NoThread` if a thread of the
/// server cannot be started, `Stopped` if the stop sign is up at the start.
pub fn serve<R, S, H, N, P, W>(
    rt: &R,
    service: Service<S, H, P>,
    book: Book<N>,
    tally: Tally<N>,
    writer: &mut W,
) -> (Settlement<N>, Result<(), ServeFault>)
where
    R: Threads + ServerRuntime + RoundClock + Copy + Send + Sync,
    S: Store<Global> + Recorder + Send + Drop,
    S::Source: Send,
    S::Sink: Send,
    H: ServerHooks + Send,
    N: Send + Sync,
    P: OwnerSigns + Send + Sync + Drop,
    W: TextWriter,
    requires tally { book.issued ≡ tally.moved + tally.back }
    ensures sum { result.0.issued ≡ result.0.moved + result.0.back }
    ensures issued { result.0.issued ≡ book.issued + granted_to Server (rounds_of result.0) }
    ensures every_second { StretchesKeep (rounds_of result.0) }
    ensures kept { IsWithinRates (rounds_of result.0) result.0.opened result.0.latest }
    ensures rates { AreAllowed (may_hold service.limits P.allows) (rounds_of result.0) }
    ensures seconds { service.limits.server ≢ 0
        → ((rates : Rates) → P.allows rates ≡ true → rates.server ≡ service.limits.server)
        → result.0.issued ≤ book.issued
        + seconds_from result.0.opened result.0.latest * service.limits.server }
{
    let (settlement, served) = serve_booked(rt, service, book, tally, writer);
    settlement.rates_are_kept();
    let reported = match served {
        Ok(()) => report_settled(rt.alloc(), &settlement, writer),
        Err(fault) => Err(fault),
    };
    (settlement, reported)
}
