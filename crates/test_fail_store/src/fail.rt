//! The store.

ghost use Rattle.std.specs.Prelude.{◌≡◌, true, false, None, Some};
ghost use Rattle.test_fail_store.specs.Failing.{Passes};

use ftp_terms::Meta;
use std::alloc::Allocator;
use virtual_path::VPath;
use virtual_tree::{ListedEntry, Store, StoreFault, WriteMode};

/// A store over another one, one of whose calls fails with `Device`.
#[derive(Drop)]
pub struct FailStore<S: Drop> {
    pub store: S,
    /// Number of calls that pass before one fails; `None` once it has failed.
    pub left: Option<u64>,
}

impl<S: Drop> FailStore<S> {
    /// Passes `passes` calls, not counting `faults`, and fails the next.
    pub fn new(store: S, passes: u64) -> FailStore<S>
        ensures store { result.store ≡ store }
        ensures left { result.left ≡ Some passes }
    {
        FailStore {
            store,
            left: Some(passes),
        }
    }

    /// Returns whether this call is the one that fails.
    fn fails(&mut self) -> bool
        ensures store { self.new.store ≡ self.old.store }
        ensures fails { result ≡ true → (self.old.left ≡ Some 0) × (self.new.left ≡ None) }
        ensures passes { result ≡ false → Passes self.old.left self.new.left }
    {
        match self.left {
            None => false,
            Some(left) => {
                if left == 0 {
                    self.left = None;
                    return true;
                }
                self.left = Some(left - 1);
                false
            }
        }
    }
}

impl<A: Allocator, S: Store<A> + Drop> Store<A> for FailStore<S> {
    ghost use Rattle.test_fail_store.specs.Failing.{FailStep, fail_count};
    ghost use Rattle.test_fail_store.specs.FailLaws.{fails_honestly, fails_within, fails_count};

    type Source = S::Source;

    type Sink = S::Sink;

    ghost Step = { FailStep S.Step };

    ghost capacity = { λ fail. S.capacity fail.store };

    ghost would_hold = { λ fail. S.would_hold fail.store };

    ghost fault_count = { λ fail. fail_count (S.fault_count fail.store) fail.left };

    fn faults(&self) -> u64 {
        let count = self.store.faults();
        match self.left {
            None => count.wrapping_add(1),
            Some(_) => count,
        }
    }

    fn stat(&mut self, path: &VPath<A>) -> Result<Meta, StoreFault> {
        if self.fails() {
            return Err(StoreFault::Device);
        }
        self.store.stat(path)
    }

    fn list(&mut self, path: &VPath<A>) -> Result<Vec<ListedEntry<A>, A>, StoreFault> {
        if self.fails() {
            return Err(StoreFault::Device);
        }
        self.store.list(path)
    }

    fn open_read(&mut self, path: &VPath<A>, offset: u64) -> Result<S::Source, StoreFault> {
        if self.fails() {
            return Err(StoreFault::Device);
        }
        self.store.open_read(path, offset)
    }

    fn open_write(
        &mut self,
        path: &VPath<A>,
        mode: WriteMode,
        moment: u64,
    ) -> Result<S::Sink, StoreFault> {
        if self.fails() {
            return Err(StoreFault::Device);
        }
        self.store.open_write(path, mode, moment)
    }

    fn finish(&mut self, sink: S::Sink, moment: u64) -> Result<(), StoreFault> {
        if self.fails() {
            return Err(StoreFault::Device);
        }
        self.store.finish(sink, moment)
    }

    fn make_dir(&mut self, path: &VPath<A>) -> Result<(), StoreFault> {
        if self.fails() {
            return Err(StoreFault::Device);
        }
        self.store.make_dir(path)
    }

    fn remove_dir(&mut self, path: &VPath<A>) -> Result<(), StoreFault> {
        if self.fails() {
            return Err(StoreFault::Device);
        }
        self.store.remove_dir(path)
    }

    fn remove_file(&mut self, path: &VPath<A>) -> Result<(), StoreFault> {
        if self.fails() {
            return Err(StoreFault::Device);
        }
        self.store.remove_file(path)
    }

    fn rename(&mut self, from: &VPath<A>, to: &VPath<A>) -> Result<(), StoreFault> {
        if self.fails() {
            return Err(StoreFault::Device);
        }
        self.store.rename(from, to)
    }

    ghost honest = { fails_honestly S.Step S.fault_count S.honest S.counts };

    ghost fits = { fails_within S.Step S.capacity S.would_hold S.fits };

    ghost counts = { fails_count S.fault_count S.counts };
}
