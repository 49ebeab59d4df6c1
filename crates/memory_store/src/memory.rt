//! A store in memory.

ghost use Rattle.std.specs.Prelude.{◌≡◌, ◌≢◌, IfOk, Ok, Err};
ghost use Rattle.std.specs.Cmp.Lexicographic.{slice_cmp};
ghost use Rattle.std.specs.FinMap as map;
ghost use Rattle.std.specs.List.Sorted.{IsStrictlySortedBy};
ghost use Rattle.std.specs.Ordering.{nat_cmp};
ghost use Rattle.virtual_tree.specs.Calls.{in_answer, entries_of, names_of};
ghost use Rattle.memory_store.specs.Tree.{listing};

use crate::ends::{MemSink, MemSource};
use crate::entry::Entry;
use crate::files::Files;
use crate::key::PathKey;
use crate::writing::open_from;
use ftp_terms::{EntryKind, Meta};
use std::alloc::{AllocError, Allocator, Global};
use std::marker::Model;
use virtual_path::VPath;
use virtual_tree::{ListedEntry, Store, StoreFault, WriteMode};

/// Directories and files in memory.
///
/// Octets written through a sink are in the file once `finish` has put them there. A refused
/// `finish` leaves the file as `open_write` left it.
#[derive(Drop)]
pub struct MemStore<A: Allocator = Global> {
    pub(crate) alloc: A,
    pub(crate) files: Files<A>,
    pub(crate) capacity: u64,
}

impl<A: Allocator> Model for MemStore<A> {
    ghost use Rattle.memory_store.specs.Codes.{memory_code};
    ghost use Rattle.memory_store.specs.InMemory.{Memory};

    ghost Value = { Memory };

    ghost coded = { memory_code };

    ghost view = { λ store. record { tree = store.files; capacity = store.capacity } };
}

impl<A: Allocator + Clone> MemStore<A> {
    /// An empty store, whose files may have `capacity` octets together.
    pub fn new(alloc: A, capacity: u64) -> Result<MemStore<A>, AllocError>
        ensures empty { IfOk result (λ store. store.tree ≡ map.empty) }
        ensures capacity { IfOk result (λ store. store.capacity ≡ capacity) }
    {
        let kept = alloc.clone()?;
        Ok(MemStore {
            alloc: kept,
            files: Files::new(alloc),
            capacity,
        })
    }

    /// Maximum total of the octets in the files.
    pub fn capacity(&self) -> u64
        ensures capacity { result ≡ self.now.capacity }
    {
        self.capacity
    }

    /// Another handle to the entry at a path key.
    pub(crate) fn share(&self, key: &PathKey<A>) -> Result<Option<Entry<A>>, AllocError>
        ensures { IfOk result (λ found. found ≡ map.get self.now.tree key.now) }
    {
        match self.files.get(key) {
            None => Ok(None),
            Some(entry) => {
                let shared = entry.share()?;
                Ok(Some(shared))
            }
        }
    }

    /// The entries of a directory.
    fn listing(&self, path: &VPath<A>) -> Result<Vec<ListedEntry<A>, A>, StoreFault>
        ensures entries { result ≢ Err StoreFault.Memory
            → in_answer entries_of result ≡ Ok (listing self.now.tree path.now) }
        ensures rising { IfOk result
            (λ listed. IsStrictlySortedBy (slice_cmp nat_cmp) (names_of listed)) }
    {
        let listed = self.files.listing(&self.alloc, path)?;
        Ok(listed)
    }
}

impl<A: Allocator + Clone> Store<A> for MemStore<A> {
    ghost use Rattle.std.specs.Prelude.{Some};
    ghost use Rattle.memory_store.specs.InMemory.{InMemory, would_hold};

    type Source = MemSource<A>;

    type Sink = MemSink<A>;

    ghost Step = { InMemory };

    ghost capacity = { λ store. Some store.capacity };

    ghost would_hold = { would_hold };

    ghost fault_count = { λ _. 0 };

    fn faults(&self) -> u64 {
        0
    }

    fn stat(&mut self, path: &VPath<A>) -> Result<Meta, StoreFault> {
        let Some(key) = PathKey::of(&self.alloc, path)? else {
            return Ok(Entry::<A>::directory().meta());
        };
        match self.files.get(&key) {
            None => Err(StoreFault::NotFound),
            Some(entry) => Ok(entry.meta()),
        }
    }

    fn list(&mut self, path: &VPath<A>) -> Result<Vec<ListedEntry<A>, A>, StoreFault> {
        match self.kind_at(path)? {
            None => Err(StoreFault::NotFound),
            Some(EntryKind::File) => Err(StoreFault::NotDir),
            Some(EntryKind::Directory) => self.listing(path),
        }
    }

    fn open_read(&mut self, path: &VPath<A>, offset: u64) -> Result<MemSource<A>, StoreFault> {
        let Some(key) = PathKey::of(&self.alloc, path)? else {
            return Err(StoreFault::IsDir);
        };
        let Some(entry) = self.share(&key)? else {
            return Err(StoreFault::NotFound);
        };
        match entry.into_octets() {
            None => Err(StoreFault::IsDir),
            Some(octets) => open_from(octets, offset),
        }
    }

    fn open_write(
        &mut self,
        path: &VPath<A>,
        mode: WriteMode,
        moment: u64,
    ) -> Result<MemSink<A>, StoreFault> {
        match PathKey::of(&self.alloc, path)? {
            None => Err(StoreFault::IsDir),
            Some(key) => self.open_at(path, key, mode, moment),
        }
    }

    fn finish(&mut self, sink: MemSink<A>, moment: u64) -> Result<(), StoreFault> {
        let Some(entry) = self.share(&sink.key)? else {
            return Err(StoreFault::NotFound);
        };
        match entry.into_octets() {
            None => Err(StoreFault::IsDir),
            Some(octets) => self.fill_from(sink, octets.as_slice(), moment),
        }
    }

    fn make_dir(&mut self, path: &VPath<A>) -> Result<(), StoreFault> {
        let key = self.key_to_make(path)?;
        self.files.put(key, Entry::directory())?;
        Ok(())
    }

    fn remove_dir(&mut self, path: &VPath<A>) -> Result<(), StoreFault> {
        let key = self.key_of_bare(path)?;
        self.files.take(&key);
        Ok(())
    }

    fn remove_file(&mut self, path: &VPath<A>) -> Result<(), StoreFault> {
        let key = self.key_of_file(path)?;
        self.files.take(&key);
        Ok(())
    }

    fn rename(&mut self, from: &VPath<A>, to: &VPath<A>) -> Result<(), StoreFault> {
        let moving = self.moving(from, to)?;
        self.carry_out(from, to, moving)
    }

    ghost use Rattle.memory_store.specs.Laws.{never_device, full_only_past, count_is_small};

    ghost honest = { never_device };

    ghost fits = { full_only_past };

    ghost counts = { count_is_small };
}
