//! Checks that an entry of a store in memory may be created or removed at a path.

ghost use Rattle.std.specs.Prelude.{◌≡◌, ◌≢◌, IfOk, Ok, Err, Some, None};
ghost use Rattle.virtual_path.specs.Path.{parent_of};
ghost use Rattle.memory_store.specs.InMemory.{kind_in, kind_at, vacant, key_to_make, key_of_bare, key_of_file};
ghost use Rattle.memory_store.specs.Tree.{key_of};

use crate::key::PathKey;
use crate::memory::MemStore;
use ftp_terms::EntryKind;
use std::alloc::{AllocError, Allocator};
use virtual_path::VPath;
use virtual_tree::StoreFault;

impl<A: Allocator + Clone> MemStore<A> {
    /// The kind of the entry at a path key.
    pub(crate) fn kind_in(&self, key: &PathKey<A>) -> Option<EntryKind>
        ensures { result ≡ kind_in self.now.tree key.now }
    {
        match self.files.get(key) {
            None => None,
            Some(entry) => Some(entry.kind()),
        }
    }

    /// The kind of the entry above a path.
    pub(crate) fn kind_above(&self, path: &VPath<A>) -> Result<Option<EntryKind>, AllocError>
        ensures { IfOk result (λ kind. kind ≡ kind_at self.now.tree (parent_of path.now)) }
    {
        match PathKey::above(&self.alloc, path)? {
            None => Ok(Some(EntryKind::Directory)),
            Some(key) => Ok(self.kind_in(&key)),
        }
    }

    /// The kind of the entry at a path.
    pub(crate) fn kind_at(&self, path: &VPath<A>) -> Result<Option<EntryKind>, AllocError>
        ensures { IfOk result (λ kind. kind ≡ kind_at self.now.tree path.now) }
    {
        match PathKey::of(&self.alloc, path)? {
            None => Ok(Some(EntryKind::Directory)),
            Some(key) => Ok(self.kind_in(&key)),
        }
    }

    /// The path key, if an entry may be created there.
    pub(crate) fn vacant(&self, path: &VPath<A>, key: PathKey<A>) -> Result<PathKey<A>, StoreFault>
        ensures { result ≢ Err StoreFault.Memory → result ≡ vacant self.now.tree path.now key }
    {
        let above = self.kind_above(path)?;
        match (above, self.kind_in(&key)) {
            (None, _) => Err(StoreFault::NotFound),
            (Some(EntryKind::File), _) => Err(StoreFault::NotDir),
            (Some(EntryKind::Directory), Some(_)) => Err(StoreFault::Exists),
            (Some(EntryKind::Directory), None) => Ok(key),
        }
    }

    pub(crate) fn key_to_make(&self, path: &VPath<A>) -> Result<PathKey<A>, StoreFault>
        ensures { result ≢ Err StoreFault.Memory
            → result ≡ key_to_make self.now.tree path.now (key_of path.now) }
    {
        match PathKey::of(&self.alloc, path)? {
            None => Err(StoreFault::Exists),
            Some(key) => self.vacant(path, key),
        }
    }

    pub(crate) fn key_of_file(&self, path: &VPath<A>) -> Result<PathKey<A>, StoreFault>
        ensures { result ≢ Err StoreFault.Memory
            → result ≡ key_of_file self.now.tree (key_of path.now) }
    {
        match PathKey::of(&self.alloc, path)? {
            None => Err(StoreFault::IsDir),
            Some(key) => match self.kind_in(&key) {
                None => Err(StoreFault::NotFound),
                Some(EntryKind::Directory) => Err(StoreFault::IsDir),
                Some(EntryKind::File) => Ok(key),
            },
        }
    }

    pub(crate) fn key_of_bare(&self, path: &VPath<A>) -> Result<PathKey<A>, StoreFault>
        ensures { result ≢ Err StoreFault.Memory
            → result ≡ key_of_bare self.now.tree path.now (key_of path.now) }
    {
        let Some(key) = PathKey::of(&self.alloc, path)? else {
            return Err(StoreFault::NotEmpty);
        };
        let is_bare = self.files.is_bare(&self.alloc, path)?;
        match self.kind_in(&key) {
            None => Err(StoreFault::NotFound),
            Some(EntryKind::File) => Err(StoreFault::NotDir),
            Some(EntryKind::Directory) => {
                if is_bare {
                    Ok(key)
                } else {
                    Err(StoreFault::NotEmpty)
                }
            }
        }
    }
}
