//! Serving, until a server's sessions or its owner's signs end it.

ghost use Rattle.std.specs.Prelude.{◌≡◌, ◌≢◌, ◌+◌, ◌*◌, ◌≤◌, All, Err, IfErr, IfOk, IfSome, None, length, true};
ghost use Rattle.std.specs.Arc.{arc_value};
ghost use Rattle.line_rates.specs.Rates.{Rates};
ghost use Rattle.line_rates.specs.declared.ask.Name.TheVariants.{Server};
ghost use Rattle.paced_rounds.specs.Allowed.{AreAllowed};
ghost use Rattle.paced_rounds.specs.Settled.{rounds_in};
ghost use Rattle.paced_rounds.specs.Spans.{IsWithinRates, granted_to, seconds_from};
ghost use Rattle.round_pace.specs.Stretches.{StretchesKeep};
ghost use Rattle.ftp_daemon.specs.SameRates.{may_hold};
ghost use Rattle.ftp_server.specs.Folders.{IsFolderFault};
ghost use Rattle.ftp_server.specs.Ranges.{range_fault};
ghost use Rattle.ftp_server.specs.Rows.{IsRefusedFor, no_others, rates_fault, server_rates};

use crate::fault::FtpServerFault;
use crate::parts::{ServerParts, serve_stores};
use crate::ranges::number_fault;
use crate::rows::user_rows;
use crate::server::FtpServer;
use crate::stop_flag::StopFlag;
use crate::stores::{FolderStore, Stores, open_folder, open_own, open_recorded};
use ftp_daemon::{NoSigns, OwnerSigns, RoundClock, ServerRuntime, Terms};
use grant_ledger::{Book, BookName};
use last_fault::LastFault;
use line_rates::Limits;
use paced_rounds::SettledRounds;
use server_house::ServerHooks;
use std::alloc::Global;
use std::net::{Net, TcpListener, TcpStream};
use std::sync::{Arc, Wait};
use std::thread::Threads;
use std::time::Clock;
use virtual_tree::Store;

/// The name of the book of a server.
#[derive(Drop)]
struct OfServer {}

impl BookName for OfServer {}

// Serves with these parts.
fn serve_parts<R, S, H, P>(
    rt: &R,
    parts: ServerParts,
    stores: Stores<S>,
    handler: H,
    signs: P,
) -> Result<SettledRounds, FtpServerFault>
where
    R: Threads + ServerRuntime + RoundClock + Copy + Send + Sync,
    S: Store<Global> + Send + Drop,
    S::Source: Send,
    S::Sink: Send,
    H: ServerHooks + Send,
    P: OwnerSigns + Send + Sync + Drop,
    ensures sum { IfOk result (λ settled. settled.issued ≡ settled.moved + settled.back) }
    ensures issued { IfOk result (λ settled.
        settled.issued ≡ granted_to Server (rounds_in settled)) }
    ensures every_second { IfOk result (λ settled. StretchesKeep (rounds_in settled)) }
    ensures kept { IfOk result (λ settled.
        IsWithinRates (rounds_in settled) settled.opened settled.latest) }
    ensures rates { IfOk result (λ settled.
        AreAllowed (may_hold parts.limits P.allows) (rounds_in settled)) }
    ensures seconds { IfOk result (λ settled. parts.limits.server ≢ 0
        → ((rates : Rates) → P.allows rates ≡ true → rates.server ≡ parts.limits.server)
        → settled.issued ≤ seconds_from settled.opened settled.latest * parts.limits.server) }
{
    let mut output = Vec::new(rt.alloc());
    let book = Book::<OfServer>::open(0);
    match serve_stores(rt, parts, stores, handler, signs, book, &mut output) {
        Ok(settlement) => Ok(settlement.read()),
        Err(fault) => Err(FtpServerFault::Serve(fault)),
    }
}

impl FtpServer {
    // The parts of the server: its numbers are in their ranges, and its rates are taken.
    fn into_parts(self) -> Result<ServerParts, FtpServerFault>
        ensures number { IfSome (range_fault self) (λ fault.
            result ≡ Err (FtpServerFault.Number fault)) }
        ensures refused { range_fault self ≡ None
            → IfSome (rates_fault self) (λ fault. IsRefusedFor fault result) }
        ensures limits { IfOk result (λ parts. parts.limits ≡ server_rates self) }
        ensures numbers { IfOk result (λ parts. parts.numbers ≡ self.numbers) }
        ensures users { IfOk result (λ parts. (arc_value parts.terms).users ≡ self.users) }
        ensures settings { IfOk result (λ parts.
            (arc_value parts.terms).settings ≡ self.settings) }
        ensures patience { IfOk result (λ parts. parts.patience ≡ self.patience) }
        ensures user_sessions { IfOk result (λ parts. parts.user_sessions ≡ self.user_sessions) }
    {
        if let Some(fault) = number_fault(
            self.numbers,
            self.settings.login_attempts,
            self.user_sessions,
            self.patience,
        ) {
            return Err(FtpServerFault::Number(fault));
        }
        let FtpServer {
            users,
            rate,
            down_rate,
            up_rate,
            numbers,
            settings,
            patience,
            user_sessions,
            groups,
            user_rates,
            share_by,
            syncs: _,
            alloc,
        } = self;
        let rows = user_rows(alloc, &users, &user_rates)?;
        let limits = Limits::of(rate, down_rate, up_rate, groups, rows)?.shared_by(share_by);
        let terms = Arc::new(alloc, Terms { users, settings })?;
        Ok(ServerParts {
            terms,
            numbers,
            limits,
            patience,
            user_sessions,
        })
    }

    /// Opens a folder of the machine: as a store for all connections, and as one for each of `numbers.max_cons`. Its
    /// listings are left once the flag is raised. With `syncs`, the octets of a file that is received are put on the device
    /// before its reply.
    ///
    /// Returns `Folder` if it is not there, is no directory, or the machine reports another fault, with its error if that is
    /// known; `Memory` if memory runs out.
    ///
    /// ```text
    /// let flag = StopFlag::new(rt.alloc())?;
    /// let stores = server.open_folder(&rt, "/srv/ftp", &flag)?;
    /// server.serve_with(&rt, stores, handler, flag)?;
    /// ```
    pub fn open_folder(
        &self,
        machine: &HostRuntime,
        folder: &str,
        flag: &StopFlag,
    ) -> Result<Stores<FolderStore>, FtpServerFault>
        ensures own { IfOk result (λ stores.
            length stores.own.items ≡ self.now.numbers.max_cons) }
        ensures folder { IfOk result (λ stores. (stores.store.store.folder ≡ folder.now)
            × All (λ opened. opened.store.folder ≡ folder.now) stores.own.items) }
        ensures syncs { IfOk result (λ stores. (stores.store.store.syncs ≡ self.now.syncs)
            × All (λ opened. opened.store.syncs ≡ self.now.syncs) stores.own.items) }
        ensures fault { IfErr result IsFolderFault }
    {
        let error = LastFault::new(machine.alloc())?;
        let store = open_recorded(machine, folder, error, self.syncs, flag)?;
        let mut own = Vec::new(machine.alloc());
        let connections = self.numbers.max_cons;
        open_own(machine, folder, connections, self.syncs, flag, &mut own)?;
        Ok(Stores { store, own })
    }

    /// Serves these stores until the owner's signs end it, or it has had as many sessions as `numbers.sessions` says; each
    /// event is told to the handler. Returns the octets that rounds granted, what became of them, and the moments of the
    /// opening and of the last round, in microseconds of the clock.
    ///
    /// Whatever clients, stores and the handler do: the rounds that were held, each at a moment that was read from the
    /// clock, granted all octets issued, under the rates of the server or others that the signs allow. In each second of
    /// the clock they granted under each name at most the greatest of its rates that were in force, and an octet for each
    /// change of its rate. So if `rate` is not 0 and the signs put no other in force, at most `rate` octets are issued in
    /// each second, and at most `rate` times the number of seconds from that of the opening to that of the last round, with
    /// both.
    ///
    /// Returns `Number` with the first number that is out of its range, and then `Rate` if the rates are refused, both before
    /// anything is opened; `Serve` if the server did not start or ended with a fault (the handler is told why it cannot
    /// listen), `Memory` if memory runs out.
    ///
    /// ```text
    /// let flag = StopFlag::new(alloc)?;
    /// let settled = server.serve_with(&rt, Stores::one(alloc, store), NoHooks, flag)?;
    /// ```
    // (The bounds of the three calls name the types of sockets: a caller with the machine's runtime needs to know them.)
    pub fn serve_with<R, S, H, P>(
        self,
        rt: &R,
        stores: Stores<S>,
        handler: H,
        signs: P,
    ) -> Result<SettledRounds, FtpServerFault>
    where
        R: Threads
            + Wait
            + Clock
            + RoundClock
            + Net<Listener = TcpListener, Stream = TcpStream>
            + AllocGlobal
            + Copy
            + Send
            + Sync,
        S: Store<Global> + Send + Drop,
        S::Source: Send,
        S::Sink: Send,
        H: ServerHooks + Send,
        P: OwnerSigns + Send + Sync + Drop,
        ensures number { IfSome (range_fault self) (λ fault.
            result ≡ Err (FtpServerFault.Number fault)) }
        ensures refused { range_fault self ≡ None
            → IfSome (rates_fault self) (λ fault. IsRefusedFor fault result) }
        ensures sum { IfOk result (λ settled. settled.issued ≡ settled.moved + settled.back) }
        ensures issued { IfOk result (λ settled.
            settled.issued ≡ granted_to Server (rounds_in settled)) }
        ensures every_second { IfOk result (λ settled. StretchesKeep (rounds_in settled)) }
        ensures kept { IfOk result (λ settled.
            IsWithinRates (rounds_in settled) settled.opened settled.latest) }
        ensures rates { IfOk result (λ settled.
            AreAllowed (may_hold (server_rates self) P.allows) (rounds_in settled)) }
        ensures seconds { IfOk result (λ settled. self.rate ≢ 0
            → ((rates : Rates) → P.allows rates ≡ true → rates.server ≡ self.rate)
            → settled.issued ≤ seconds_from settled.opened settled.latest * self.rate) }
    {
        let parts = self.into_parts()?;
        serve_parts(rt, parts, stores, handler, signs)
    }

    /// Serves a folder of the machine, each session with a store of its own, as `serve_with` does without signs: until it
    /// has had as many sessions as `numbers.sessions` says, or for good if that is 0.
    ///
    /// Besides the faults of `serve_with`, returns `Folder` if the folder cannot be opened, which is tried after them.
    ///
    /// ```text
    /// server.serve_folder(&rt, &rt, "/srv/ftp", NoHooks)?;
    /// ```
    pub fn serve_folder<R, H>(
        self,
        rt: &R,
        machine: &HostRuntime,
        folder: &str,
        handler: H,
    ) -> Result<SettledRounds, FtpServerFault>
    where
        R: Threads
            + Wait
            + Clock
            + RoundClock
            + Net<Listener = TcpListener, Stream = TcpStream>
            + AllocGlobal
            + Copy
            + Send
            + Sync,
        H: ServerHooks + Send,
        ensures number { IfSome (range_fault self) (λ fault.
            result ≡ Err (FtpServerFault.Number fault)) }
        ensures refused { range_fault self ≡ None
            → IfSome (rates_fault self) (λ fault. IsRefusedFor fault result) }
        ensures sum { IfOk result (λ settled. settled.issued ≡ settled.moved + settled.back) }
        ensures issued { IfOk result (λ settled.
            settled.issued ≡ granted_to Server (rounds_in settled)) }
        ensures every_second { IfOk result (λ settled. StretchesKeep (rounds_in settled)) }
        ensures kept { IfOk result (λ settled.
            IsWithinRates (rounds_in settled) settled.opened settled.latest) }
        ensures rates { IfOk result (λ settled.
            AreAllowed (may_hold (server_rates self) no_others) (rounds_in settled)) }
        ensures seconds { IfOk result (λ settled. self.rate ≢ 0
            → settled.issued ≤ seconds_from settled.opened settled.latest * self.rate) }
    {
        let (connections, syncs) = (self.numbers.max_cons, self.syncs);
        let parts = self.into_parts()?;
        let flag = StopFlag::new(machine.alloc())?;
        let stores = open_folder(machine, folder, connections, syncs, &flag)?;
        serve_parts(rt, parts, stores, handler, NoSigns)
    }

    /// Serves a store that all sessions share, as `serve_with` does without signs, with its faults.
    ///
    /// ```text
    /// server.serve_store(&rt, MemStore::new(rt.alloc(), 1_000_000)?, NoHooks)?;
    /// ```
    pub fn serve_store<R, S, H>(
        self,
        rt: &R,
        store: S,
        handler: H,
    ) -> Result<SettledRounds, FtpServerFault>
    where
        R: Threads
            + Wait
            + Clock
            + RoundClock
            + Net<Listener = TcpListener, Stream = TcpStream>
            + AllocGlobal
            + Copy
            + Send
            + Sync,
        S: Store<Global> + Send + Drop,
        S::Source: Send,
        S::Sink: Send,
        H: ServerHooks + Send,
        ensures number { IfSome (range_fault self) (λ fault.
            result ≡ Err (FtpServerFault.Number fault)) }
        ensures refused { range_fault self ≡ None
            → IfSome (rates_fault self) (λ fault. IsRefusedFor fault result) }
        ensures sum { IfOk result (λ settled. settled.issued ≡ settled.moved + settled.back) }
        ensures issued { IfOk result (λ settled.
            settled.issued ≡ granted_to Server (rounds_in settled)) }
        ensures every_second { IfOk result (λ settled. StretchesKeep (rounds_in settled)) }
        ensures kept { IfOk result (λ settled.
            IsWithinRates (rounds_in settled) settled.opened settled.latest) }
        ensures rates { IfOk result (λ settled.
            AreAllowed (may_hold (server_rates self) no_others) (rounds_in settled)) }
        ensures seconds { IfOk result (λ settled. self.rate ≢ 0
            → settled.issued ≤ seconds_from settled.opened settled.latest * self.rate) }
    {
        let stores = Stores::one(rt.alloc(), store);
        self.serve_with(rt, stores, handler, NoSigns)
    }
}
