//! The check that the homes of users exist.

ghost use Rattle.std.specs.Prelude.{◌≡◌, [], IfOk, Ok, Err};
ghost use Rattle.virtual_path.specs.Path.{resolved};
ghost use Rattle.virtual_tree.specs.declared.fault.StoreFault.TheVariants as StoreFault;
ghost use Rattle.config_report.specs.Looks.{HasHome, IsHomeShown, is_directory, is_home};

use crate::looks::Lookout;
use ftp_terms::EntryKind;
use memory_store::MemStore;
use server_config::ServedStore;
use std::alloc::{AllocError, Global};
use virtual_path::{PathFault, VPath};
use virtual_tree::{Store, StoreFault};

/// Returns whether the entry at a path is a directory.
fn is_directory(store: &mut MemStore, path: &VPath) -> Result<bool, AllocError>
    ensures directory { IfOk result (λ is. is ≡ is_directory store.old path.now) }
    ensures same { store.new ≡ store.old }
{
    match store.stat(path) {
        Ok(meta) => Ok(meta.kind == EntryKind::Directory),
        Err(StoreFault::Memory) => Err(AllocError),
        Err(_) => Ok(false),
    }
}

/// Returns whether a text is the path of a directory of a store.
fn is_home(alloc: Global, store: &mut MemStore, home: &str) -> Result<bool, AllocError>
    ensures home { IfOk result (λ is. is ≡ is_home store.old (resolved [] home.now)) }
    ensures same { store.new ≡ store.old }
{
    let root = VPath::root(alloc);
    match root.resolve(alloc, home) {
        Ok(path) => is_directory(store, &path),
        Err(PathFault::Memory) => Err(AllocError),
        Err(_) => Ok(false),
    }
}

/// Returns whether a text is the path of a directory of a folder, as the machine shows it.
fn is_shown<L: Lookout>(
    alloc: Global,
    lookout: &L,
    folder: &str,
    home: &str,
) -> Result<bool, AllocError>
    ensures home { IfOk result
        (IsHomeShown (L.Shows lookout.now) folder.now (resolved [] home.now)) }
{
    let root = VPath::root(alloc);
    match root.resolve(alloc, home) {
        Ok(path) => Ok(lookout.has_home(folder, &path)),
        Err(PathFault::Memory) => Err(AllocError),
        Err(_) => Ok(false),
    }
}

/// Returns whether a home is a directory of the store.
pub(crate) fn has_home<L: Lookout>(
    alloc: Global,
    lookout: &L,
    store: &mut ServedStore,
    home: &str,
) -> Result<bool, AllocError>
    ensures home { IfOk result (HasHome (L.Shows lookout.now) store.old home.now) }
    ensures same { store.new ≡ store.old }
{
    match store {
        ServedStore::Folder(folder) => is_shown(alloc, lookout, folder.as_str(), home),
        ServedStore::Memory(store) => is_home(alloc, store, home),
    }
}
