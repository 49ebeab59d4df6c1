//! The store.

ghost use Rattle.std.specs.Prelude.{◌≡◌, None, IfSome};
ghost use Rattle.recorded_store.specs.Records.{IsCopyOf, after_refusal};

use crate::record::StoreRecord;
use ftp_terms::Meta;
use last_fault::LastFault;
use std::alloc::{Allocator, Global};
use std::io;
use virtual_path::VPath;
use virtual_tree::{ListedEntry, Store, StoreFault, WriteMode};

/// A store over another one. Each call is one of that store, with its result, and the last call that counts is
/// recorded.
#[derive(Drop)]
pub struct RecordedStore<S, A: Allocator = Global> {
    /// The store beneath.
    pub store: S,
    /// The last call that counts since the last take; `None` if there was none.
    pub last: Option<StoreRecord<A>>,
    // for the copies of paths
    alloc: A,
    // the last error of the machine in the store beneath, if it keeps one
    fault: Option<LastFault>,
}

impl<S, A: Allocator> RecordedStore<S, A> {
    /// No call is recorded yet. Copies of paths are made in `alloc`.
    pub fn new(alloc: A, store: S) -> RecordedStore<S, A>
        ensures store { result.store ≡ store }
        ensures none { result.last ≡ None }
    {
        RecordedStore {
            store,
            last: None,
            alloc,
            fault: None,
        }
    }

    /// No call is recorded yet, of a store that keeps its last error of the machine there.
    pub fn with_fault(alloc: A, store: S, fault: LastFault) -> RecordedStore<S, A>
        ensures store { result.store ≡ store }
        ensures none { result.last ≡ None }
    {
        RecordedStore {
            store,
            last: None,
            alloc,
            fault: Some(fault),
        }
    }

    /// Takes the record of the last call that counts since the last take.
    pub fn take_record(&mut self) -> Option<StoreRecord<A>>
        ensures record { result ≡ self.old.last }
        ensures none { self.new.last ≡ None }
        ensures store { self.new.store ≡ self.old.store }
    {
        self.last.take()
    }

    /// Records a call refused for this fault, which it returns, if the fault counts.
    fn refused(&mut self, fault: StoreFault) -> StoreFault
        ensures fault { result ≡ fault }
        ensures record { self.new.last ≡ after_refusal fault self.old.last }
        ensures store { self.new.store ≡ self.old.store }
    {
        if matches!(
            fault,
            StoreFault::Device | StoreFault::Memory | StoreFault::Full
        ) {
            self.last = Some(StoreRecord::Refused(fault));
        }
        fault
    }
}

impl<S, A: Allocator + Clone> RecordedStore<S, A> {
    /// A copy of a path; `None` if there is no memory for it.
    fn copy_of(&self, path: &VPath<A>) -> Option<VPath<A>>
        ensures path { IsCopyOf result path.now }
    {
        let alloc = self.alloc.clone().ok()?;
        path.try_clone(alloc).ok()
    }
}

impl<S: Store<A>, A: Allocator + Clone> Store<A> for RecordedStore<S, A> {
    ghost use Rattle.recorded_store.specs.Records.{RecordedStep};
    ghost use Rattle.recorded_store.specs.RecordLaws.{records_honestly, records_within, records_count};

    type Source = S::Source;

    type Sink = S::Sink;

    ghost Step = { RecordedStep S.Step };

    ghost capacity = { λ recorded. S.capacity recorded.store };

    ghost would_hold = { λ recorded. S.would_hold recorded.store };

    ghost fault_count = { λ recorded. S.fault_count recorded.store };

    fn faults(&self) -> u64 {
        self.store.faults()
    }

    fn stat(&mut self, path: &VPath<A>) -> Result<Meta, StoreFault> {
        match self.store.stat(path) {
            Ok(meta) => Ok(meta),
            Err(fault) => Err(self.refused(fault)),
        }
    }

    fn list(&mut self, path: &VPath<A>) -> Result<Vec<ListedEntry<A>, A>, StoreFault> {
        match self.store.list(path) {
            Ok(listed) => Ok(listed),
            Err(fault) => Err(self.refused(fault)),
        }
    }

    fn open_read(&mut self, path: &VPath<A>, offset: u64) -> Result<S::Source, StoreFault> {
        match self.store.open_read(path, offset) {
            Ok(source) => {
                self.last = Some(StoreRecord::OpenedToRead(self.copy_of(path)));
                Ok(source)
            }
            Err(fault) => Err(self.refused(fault)),
        }
    }

    fn open_write(
        &mut self,
        path: &VPath<A>,
        mode: WriteMode,
        moment: u64,
    ) -> Result<S::Sink, StoreFault> {
        match self.store.open_write(path, mode, moment) {
            Ok(sink) => {
                self.last = Some(StoreRecord::OpenedToWrite(self.copy_of(path)));
                Ok(sink)
            }
            Err(fault) => Err(self.refused(fault)),
        }
    }

    fn finish(&mut self, sink: S::Sink, moment: u64) -> Result<(), StoreFault> {
        match self.store.finish(sink, moment) {
            Ok(()) => Ok(()),
            Err(fault) => Err(self.refused(fault)),
        }
    }

    fn make_dir(&mut self, path: &VPath<A>) -> Result<(), StoreFault> {
        match self.store.make_dir(path) {
            Ok(()) => {
                self.last = Some(StoreRecord::MadeDir(self.copy_of(path)));
                Ok(())
            }
            Err(fault) => Err(self.refused(fault)),
        }
    }

    fn remove_dir(&mut self, path: &VPath<A>) -> Result<(), StoreFault> {
        match self.store.remove_dir(path) {
            Ok(()) => {
                self.last = Some(StoreRecord::RemovedDir(self.copy_of(path)));
                Ok(())
            }
            Err(fault) => Err(self.refused(fault)),
        }
    }

    fn remove_file(&mut self, path: &VPath<A>) -> Result<(), StoreFault> {
        match self.store.remove_file(path) {
            Ok(()) => {
                self.last = Some(StoreRecord::RemovedFile(self.copy_of(path)));
                Ok(())
            }
            Err(fault) => Err(self.refused(fault)),
        }
    }

    fn rename(&mut self, from: &VPath<A>, to: &VPath<A>) -> Result<(), StoreFault> {
        match self.store.rename(from, to) {
            Ok(()) => {
                self.last = Some(StoreRecord::Renamed(self.copy_of(from), self.copy_of(to)));
                Ok(())
            }
            Err(fault) => Err(self.refused(fault)),
        }
    }

    ghost honest = { records_honestly S.Step S.fault_count S.honest };

    ghost fits = { records_within S.Step S.capacity S.would_hold S.fits };

    ghost counts = { records_count S.fault_count S.counts };
}

/// A store that keeps a record of its last call that counts.
pub trait Recorder {
    ghost use Rattle.recorded_store.specs.declared.record.StoreRecord.{StoreRecord};
    ghost use Rattle.std.specs.Prelude.{Option};
    ghost use Rattle.std.specs.declared.alloc.Global.{Global};

    /// The record of the last call that counts since the last take.
    ghost recorded: { Self → Option (StoreRecord Global) };

    /// Takes that record.
    fn take_last(&mut self) -> Option<StoreRecord>
        ensures record { result ≡ recorded self.old }
        ensures none { recorded self.new ≡ None };

    /// Takes the last error of the machine in the store and in its files, if there was one and it is kept.
    fn take_error(&mut self) -> Option<io::Error>
        ensures record { recorded self.new ≡ recorded self.old };
}

impl<S> Recorder for RecordedStore<S> {
    ghost recorded = { λ it. it.last };

    fn take_last(&mut self) -> Option<StoreRecord> {
        self.take_record()
    }

    fn take_error(&mut self) -> Option<io::Error> {
        match &self.fault {
            Some(fault) => fault.take(),
            None => None,
        }
    }
}
