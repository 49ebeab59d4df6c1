//! The program's own parts, apart from a session and its users, and the words that report on them.

use crate::fault::Fault;
use crate::made::{make_floors, make_store};
use crate::reported::{Actions, Job, put, put_answer, put_connect, put_hook, put_job, put_octets};
use ftp_terms::EntryKind;
use memory_store::{MemSink, MemSource, MemStore};
use rate_floors::Floors;
use session_table::Action;
use std::alloc::Global;
use test_fail_store::FailStore;
use virtual_path::VPath;
use virtual_tree::{Sink, Store};

#[derive(Drop)]
pub(crate) struct Hall {
    pub alloc: Global,
    /// The store, which fails once when a word asks for that.
    pub store: FailStore<MemStore>,
    pub floors: Floors,
    /// The number of ann; another session of hers, if one is there.
    ann: u32,
    has_other: bool,
    pub moment: u64,
    /// The sink of the upload that runs.
    sink: Option<MemSink<Global>>,
    /// Actions that are not printed yet.
    pub reported: Vec<u8>,
}

fn written(mut sink: MemSink<Global>, octets: &[u8]) -> Result<MemSink<Global>, Fault> {
    sink.write(octets)?;
    Ok(sink)
}

impl Hall {
    pub fn new(alloc: Global, ann: u32) -> Result<Hall, Fault> {
        Hall::over(alloc, ann, make_store(alloc)?)
    }

    fn over(alloc: Global, ann: u32, store: MemStore) -> Result<Hall, Fault> {
        let floors = make_floors(alloc, ann)?;
        Ok(Hall {
            alloc,
            store: FailStore { store, left: None },
            floors,
            ann,
            has_other: false,
            moment: 0,
            sink: None,
            reported: Vec::new(alloc),
        })
    }

    pub fn let_other(&mut self) -> Result<(), Fault> {
        if self.has_other {
            let _was_counted = self.floors.release(self.ann);
            self.has_other = false;
        } else {
            self.has_other = self.floors.admit(self.ann);
        }
        self.note(if self.has_other {
            "[other is here]\r\n"
        } else {
            "[other is gone]\r\n"
        })
    }

    pub fn note(&mut self, text: &str) -> Result<(), Fault> {
        put(&mut self.reported, text)
    }

    /// Returns the sink that comes back, with the octets that arrived.
    pub fn sink_with(&mut self, octets: Option<&str>) -> Result<Option<MemSink<Global>>, Fault> {
        match (self.sink.take(), octets) {
            (Some(sink), Some(octets)) => Ok(Some(written(sink, octets.as_bytes())?)),
            _ => Ok(None),
        }
    }

    pub fn carry_out(&mut self, actions: Actions) -> Result<(), Fault> {
        for action in actions {
            self.put(action)?;
        }
        Ok(())
    }

    fn put(
        &mut self,
        action: Action<Global, MemSource<Global>, MemSink<Global>>,
    ) -> Result<(), Fault> {
        match action {
            Action::Say(answer) => put_answer(&mut self.reported, answer),
            Action::Start(job) => self.start(job),
            Action::OpenPassive => self.note("[passive]\r\n"),
            Action::ConnectTo(to) => put_connect(&mut self.reported, self.alloc, to),
            Action::DropData => self.note("[drop]\r\n"),
            Action::Abort => self.note("[abort]\r\n"),
            Action::CloseControl => self.note("[close]\r\n"),
            Action::ReleaseFloor(user) => self.release(user),
            Action::Hook(call) => put_hook(&mut self.reported, self.alloc, &call),
        }
    }

    /// Starts a transfer: writes its words, and keeps the sink of an upload.
    pub fn start(&mut self, job: Job) -> Result<(), Fault> {
        put_job(&mut self.reported, &mut self.sink, job)
    }

    pub fn release(&mut self, user: u32) -> Result<(), Fault> {
        let _was_counted = self.floors.release(user);
        self.note("[release]\r\n")
    }

    /// Writes the entry of the store at a path: for a directory its names, for a file its moment and octets.
    pub fn look(&mut self, path: &str) -> Result<(), Fault> {
        let path = VPath::root(self.alloc).resolve(self.alloc, path)?;
        let meta = self.store.store.stat(&path)?;
        match meta.kind {
            EntryKind::File => self.look_into(&path, meta.modified),
            EntryKind::Directory => self.look_around(&path),
        }
    }

    fn look_around(&mut self, path: &VPath) -> Result<(), Fault> {
        for entry in &self.store.store.list(path)? {
            self.note(entry.name.as_str())?;
            self.note("\r\n")?;
        }
        Ok(())
    }

    fn look_into(&mut self, path: &VPath, second: u64) -> Result<(), Fault> {
        let text = format!(in self.alloc; "{second}: ")?;
        self.note(text.as_str())?;
        let mut source = self.store.store.open_read(path, 0)?;
        put_octets(&mut self.reported, &mut source)?;
        self.note("\r\n")
    }
}
