//! The stores of a server.

ghost use Rattle.std.specs.Prelude.{◌≡◌, [], All, IfErr, IfOk, OnOk, length};
ghost use Rattle.ftp_server.specs.Folders.{IsFolderFault};

use crate::fault::FtpServerFault;
use crate::stop_flag::StopFlag;
use folder_store::DirStore;
use last_fault::LastFault;
use recorded_store::RecordedStore;
use std::alloc::Global;
use virtual_tree::{Store, StoreFault};

/// A store, and more of them over the same files, one for each connection, if they can be had: then no session waits for a
/// call of another's. The changes and faults of all of them are told to the handler.
///
/// ```text
/// let stores = Stores::one(alloc, MemStore::new(alloc, 1_000_000)?); // octets
/// server.serve_with(&rt, stores, handler, flag)?;
/// ```
#[derive(Drop)]
pub struct Stores<S> {
    /// The store of whoever has none of their own.
    pub store: RecordedStore<S>,
    /// The stores of connections, by their numbers.
    pub own: Vec<RecordedStore<S>>,
}

impl<S: Store<Global> + Drop> Stores<S> {
    /// One store for all connections, which take turns at it.
    ///
    /// ```text
    /// let stores = Stores::one(alloc, PageStore::new(alloc, Time { rt }));
    /// ```
    pub fn one(alloc: Global, store: S) -> Stores<S>
        ensures store { result.store.store ≡ store }
        ensures own { result.own.items ≡ [] }
    {
        Stores {
            store: RecordedStore::new(alloc, store),
            own: Vec::new(alloc),
        }
    }
}

/// A store over a folder of the machine, as `FtpServer::open_folder` opens it.
///
/// ```text
/// let stores: Stores<FolderStore> = server.open_folder(&rt, "/srv/ftp", &flag)?;
/// ```
pub type FolderStore = DirStore<HostRuntime>;

/// Opens a folder, with a record of its calls and of the machine's errors, of which this is the last. Its listings are left
/// once the flag is raised.
pub(crate) fn open_recorded(
    machine: &HostRuntime,
    folder: &str,
    error: LastFault,
    syncs: bool,
    flag: &StopFlag,
) -> Result<RecordedStore<FolderStore>, FtpServerFault>
    ensures folder { IfOk result (λ opened. opened.store.folder ≡ folder.now) }
    ensures syncs { IfOk result (λ opened. opened.store.syncs ≡ syncs) }
    ensures fault { IfErr result IsFolderFault }
{
    let kept = error.another()?;
    let sign = flag.sign.another()?;
    match DirStore::new(*machine, folder, kept) {
        Ok(store) => {
            let store = store.left_by(sign).syncing(syncs);
            Ok(RecordedStore::with_fault(machine.alloc(), store, error))
        }
        Err(StoreFault::Memory) => Err(FtpServerFault::Memory),
        Err(fault) => Err(FtpServerFault::Folder(fault, error.take())),
    }
}

/// Opens a folder once for each of this number of connections, into an empty list.
pub(crate) fn open_own(
    machine: &HostRuntime,
    folder: &str,
    connections: u16,
    syncs: bool,
    flag: &StopFlag,
    own: &mut Vec<RecordedStore<FolderStore>>,
) -> Result<(), FtpServerFault>
    requires empty { own.old.items ≡ [] }
    ensures own { OnOk result (length own.new.items ≡ connections) }
    ensures folder { OnOk result
        (All (λ opened. opened.store.folder ≡ folder.now) own.new.items) }
    ensures syncs { OnOk result (All (λ opened. opened.store.syncs ≡ syncs) own.new.items) }
    ensures fault { IfErr result IsFolderFault }
{
    for _ in 0..connections {
        let error = LastFault::new(machine.alloc())?;
        let another = open_recorded(machine, folder, error, syncs, flag)?;
        own.push(another)?;
    }
    Ok(())
}

/// Opens a folder of the machine: as a store for all connections, and as one for each of this number of them. Its listings
/// are left once the flag is raised. With `syncs`, the octets of a file that is received are put on the device before its
/// reply.
///
/// Returns `Folder` if it is not there, is no directory, or the machine reports another fault, with its error if that is
/// known; `Memory` if memory runs out.
///
/// ```text
/// let flag = StopFlag::new(rt.alloc())?;
/// let stores = open_folder(&rt, "/srv/ftp", 64, false, &flag)?; // a store for each of 64 connections
/// ```
pub fn open_folder(
    machine: &HostRuntime,
    folder: &str,
    connections: u16,
    syncs: bool,
    flag: &StopFlag,
) -> Result<Stores<FolderStore>, FtpServerFault>
    ensures own { IfOk result (λ stores. length stores.own.items ≡ connections) }
    ensures folder { IfOk result (λ stores. (stores.store.store.folder ≡ folder.now)
        × All (λ opened. opened.store.folder ≡ folder.now) stores.own.items) }
    ensures syncs { IfOk result (λ stores. (stores.store.store.syncs ≡ syncs)
        × All (λ opened. opened.store.syncs ≡ syncs) stores.own.items) }
    ensures fault { IfErr result IsFolderFault }
{
    let error = LastFault::new(machine.alloc())?;
    let store = open_recorded(machine, folder, error, syncs, flag)?;
    let mut own = Vec::new(machine.alloc());
    open_own(machine, folder, connections, syncs, flag, &mut own)?;
    Ok(Stores { store, own })
}
