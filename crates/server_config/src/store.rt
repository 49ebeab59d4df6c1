//! A store with the directories and files of a configuration.

ghost use Rattle.std.specs.Prelude.{◌≡◌, ◌≤◌, ◌<◌, ◌^◌, Some, [], Err, IfErr, IfOk, OnOk, Ok};
ghost use Rattle.memory_terms.specs.Lack.{Unless};
ghost use Rattle.virtual_path.specs.Path.{resolved};
ghost use Rattle.server_config.specs.Store.{MakesDir, MakesFile, MakesAll, IsFilled, IsStoreOf};
ghost use Rattle.server_config.specs.Store.{IsDirProblem, IsFileProblem, IsNotFilled, IsRefusedDir, IsRefusedFile, IsStoreProblem, IsPathProblem};
ghost use Rattle.config_file.specs.Lists.{FaultIs, row_at};
ghost use Rattle.virtual_tree.specs.declared.fault.StoreFault.TheVariants as StoreFault;

use crate::store_problem::StoreProblem;
use config_file::{DirTable, Fault, FileTable, Header, ServerTable, TableName};
use memory_store::MemStore;
use std::alloc::Global;
use virtual_path::{PathFault, VPath};
use virtual_tree::{Sink, Store, StoreFault, WriteMode};

/// The store of a server.
#[derive(Drop)]
pub enum ServedStore {
    /// Files in memory, which are forgotten at the end.
    Memory(MemStore),
    /// A folder of the machine, by its path.
    Folder(String),
}

/// The path that a text names from the root.
fn path_of(alloc: Global, text: &str) -> Result<VPath, StoreProblem>
    ensures path { IfOk result (λ path. resolved [] text.now ≡ Ok path) }
    ensures refused { IfErr result (IsPathProblem text.now) }
{
    let root = VPath::root(alloc);
    match root.resolve(alloc, text) {
        Ok(path) => Ok(path),
        Err(fault) => Err(StoreProblem::Path(fault)),
    }
}

fn make_dir(alloc: Global, store: &mut MemStore, dir: &DirTable) -> Result<(), StoreProblem>
    ensures made { OnOk result (MakesDir dir.now store.old store.new) }
    ensures refused { IfErr result (IsDirProblem dir.now store.old) }
{
    let path = path_of(alloc, dir.path)?;
    match store.make_dir(&path) {
        Ok(()) => Ok(()),
        Err(fault) => Err(StoreProblem::Store(fault)),
    }
}

/// Puts a text into a file at a moment, in milliseconds since 1970.
fn put_text(store: &mut MemStore, path: &VPath, text: &str, moment: u64) -> Result<(), StoreFault>
    ensures filled { OnOk result (IsFilled path.now text.now moment store.old store.new) }
    ensures refused { IfErr result (Unless StoreFault.Memory
        (IsNotFilled path.now text.now moment store.old)) }
{
    let mut sink = store.open_write(path, WriteMode::New, moment)?;
    sink.write(text.as_bytes())?;
    store.finish(sink, moment)
}

fn make_file(alloc: Global, store: &mut MemStore, file: &FileTable) -> Result<(), StoreProblem>
    ensures made { OnOk result (MakesFile file.now store.old store.new) }
    ensures refused { IfErr result (IsFileProblem file.now store.old) }
{
    let path = path_of(alloc, file.path)?;
    match put_text(store, &path, file.text, file.modified * 1000) {
        Ok(()) => Ok(()),
        Err(fault) => Err(StoreProblem::Store(fault)),
    }
}

/// The refusal of the row at an index of its list, from 0, which is named by its path.
fn refused<'a>(
    table: TableName,
    index: usize,
    path: &'a str,
    problem: StoreProblem,
) -> Fault<'a, StoreProblem>
    requires within { index < 2 ^ 63 }
    ensures reported { FaultIs (λ place reported. (place ≡ row_at table index (Some path.now))
        × (reported ≡ problem)) result }
{
    match problem {
        StoreProblem::Path(PathFault::Memory) | StoreProblem::Store(StoreFault::Memory) => {
            Fault::Memory
        }
        _ => {
            let header = Header::row(table, index, Some(path));
            Fault::At { header, problem }
        }
    }
}

fn make_dirs<'a>(
    alloc: Global,
    store: &mut MemStore,
    dirs: &[DirTable<'a>],
) -> Result<(), Fault<'a, StoreProblem>>
    ensures made { OnOk result (MakesAll MakesDir dirs.now store.old store.new) }
    ensures refused { IfErr result (FaultIs (IsRefusedDir dirs.now store.old)) }
{
    for (index, dir) in dirs.iter().enumerate() {
        match make_dir(alloc, store, dir) {
            Ok(()) => {}
            Err(problem) => return Err(refused(TableName::Dir, index, dir.path, problem)),
        }
    }
    Ok(())
}

fn make_files<'a>(
    alloc: Global,
    store: &mut MemStore,
    files: &[FileTable<'a>],
) -> Result<(), Fault<'a, StoreProblem>>
    ensures made { OnOk result (MakesAll MakesFile files.now store.old store.new) }
    ensures refused { IfErr result (FaultIs (IsRefusedFile files.now store.old)) }
{
    for (index, file) in files.iter().enumerate() {
        match make_file(alloc, store, file) {
            Ok(()) => {}
            Err(problem) => return Err(refused(TableName::File, index, file.path, problem)),
        }
    }
    Ok(())
}

/// The store of a file's tables: if its root is `memory`, one in memory, with the directories in their order and then
/// the files; otherwise the folder of that name. `Err` is an empty range of ports, or otherwise the first row that is
/// refused; or lack of memory.
pub(crate) fn make_store<'a>(
    alloc: Global,
    server: &ServerTable,
    dirs: &[DirTable<'a>],
    files: &[FileTable<'a>],
) -> Result<ServedStore, Fault<'a, StoreProblem>>
    ensures range { OnOk result (server.now.passive_first ≤ server.now.passive_last) }
    ensures store { IfOk result (IsStoreOf server.now dirs.now files.now) }
    ensures refused { IfErr result (FaultIs (IsStoreProblem server.now dirs.now files.now)) }
{
    if server.passive_last < server.passive_first {
        let header = Header::whole(TableName::Server);
        let problem = StoreProblem::EmptyRange;
        return Err(Fault::At { header, problem });
    }
    if server.root != "memory" {
        let folder = String::from_str(alloc, server.root)?;
        return Ok(ServedStore::Folder(folder));
    }
    let mut store = MemStore::new(alloc, server.capacity)?;
    make_dirs(alloc, &mut store, dirs)?;
    make_files(alloc, &mut store, files)?;
    Ok(ServedStore::Memory(store))
}
