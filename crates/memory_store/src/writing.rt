//! Files of a store in memory that are opened, written and finished.

ghost use Rattle.std.specs.Prelude.{◌≡◌, ◌++◌, ◌≤◌, ◌+◌, ◌-◌, ◌<◌, ◌^◌, [], IfOk, Ok, Err, Some, take, length, false, nat_lt};
ghost use Rattle.std.specs.FinMap as map;
ghost use Rattle.memory_store.specs.Held.{shared};
ghost use Rattle.memory_store.specs.InMemory.{vacant, finish_octets, unit_of, Changes, opening, open_new, open_absent, open_octets, open_node, octets_from, Opens};
ghost use Rattle.memory_store.specs.Tree.{size_at, total};
ghost use Rattle.memory_store.specs.Tree.Node.{File};

use crate::ends::{MemSink, MemSource};
use crate::entry::Entry;
use crate::key::PathKey;
use crate::memory::MemStore;
use crate::received::Received;
use std::alloc::{AllocError, Allocator};
use std::sync::Arc;
use virtual_path::VPath;
use virtual_tree::{StoreFault, WriteMode};

impl<A: Allocator + Clone> MemStore<A> {
    /// An empty file, open for writing.
    pub(crate) fn open_empty(
        &mut self,
        key: PathKey<A>,
        moment: u64,
    ) -> Result<MemSink<A>, StoreFault>
        ensures { Opens self.old result self.new
            (Ok (opening (map.insert self.old.tree key (File [] moment)) key 0)) }
    {
        let sink = self.sink(&key, 0)?;
        let entry = self.empty(moment)?;
        self.files.put(key, entry)?;
        Ok(sink)
    }

    /// A file with no octets.
    fn empty(&self, moment: u64) -> Result<Entry<A>, AllocError>
        ensures { IfOk result (λ entry. entry ≡ File [] moment) }
    {
        let none = Vec::new(self.alloc.clone()?);
        let octets = self.shared(none)?;
        Ok(Entry::file(octets, moment))
    }

    /// A sink with no octets yet, which keeps as many as the capacity.
    pub(crate) fn sink(&self, key: &PathKey<A>, kept: usize) -> Result<MemSink<A>, AllocError>
        ensures key { IfOk result (λ sink. sink.key ≡ key.now) }
        ensures kept { IfOk result (λ sink. sink.kept ≡ kept) }
        ensures most { IfOk result (λ sink. sink.most ≡ self.now.capacity) }
        ensures octets { IfOk result (λ sink. sink.octets ≡ []) }
    {
        let key = key.copy(&self.alloc)?;
        let alloc = self.alloc.clone()?;
        Ok(MemSink {
            key,
            kept,
            most: self.capacity,
            octets: Vec::new(alloc),
            is_cut: false,
            received: Received::new(),
        })
    }

    /// The octets, ready to be shared with their readers.
    pub(crate) fn shared(&self, octets: Vec<u8, A>) -> Result<Arc<Vec<u8, A>, A>, AllocError>
        ensures { IfOk result (λ kept. shared kept ≡ octets.items) }
    {
        let alloc = self.alloc.clone()?;
        Ok(Arc::new(alloc, octets)?)
    }

    /// The first `kept` octets.
    pub(crate) fn first(&self, octets: &[u8], kept: usize) -> Result<Arc<Vec<u8, A>, A>, AllocError>
        requires { kept ≤ length octets.now }
        ensures { IfOk result (λ first. shared first ≡ take kept octets.now) }
    {
        let first = Vec::from_slice(self.alloc.clone()?, &octets[..kept])?;
        let first = self.shared(first)?;
        Ok(first)
    }

    /// The first `kept` octets, followed by a copy of the others.
    pub(crate) fn copied(
        &self,
        octets: &[u8],
        kept: usize,
        others: &[u8],
    ) -> Result<Arc<Vec<u8, A>, A>, AllocError>
        requires { kept ≤ length octets.now }
        ensures { IfOk result (λ joined. shared joined ≡ take kept octets.now ++ others.now) }
    {
        let mut joined = Vec::from_slice(self.alloc.clone()?, &octets[..kept])?;
        joined.extend_from_slice(others)?;
        let joined = self.shared(joined)?;
        Ok(joined)
    }

    /// The first `kept` octets, followed by the others, which are moved if nothing is kept before them.
    #[tactic(auto, using(crate::proofs::Fills::none_kept))]
    pub(crate) fn joined(
        &self,
        octets: &[u8],
        kept: usize,
        others: Vec<u8, A>,
    ) -> Result<Arc<Vec<u8, A>, A>, AllocError>
        requires { kept ≤ length octets.now }
        ensures { IfOk result (λ joined. shared joined ≡ take kept octets.now ++ others.items) }
    {
        if kept == 0 {
            let joined = self.shared(others)?;
            return Ok(joined);
        }
        self.copied(octets, kept, others.as_slice())
    }

    /// The file cut to its first octets, open for writing after them.
    pub(crate) fn open_cut(
        &mut self,
        key: PathKey<A>,
        octets: &[u8],
        offset: u64,
        moment: u64,
    ) -> Result<MemSink<A>, StoreFault>
        requires { length octets.now ≤ size_at (map.get self.old.tree key) }
        ensures { Opens self.old result self.new
            (open_octets self.old.tree key moment (WriteMode.At offset) (Some octets.now)) }
    {
        if (octets.len() as u64) < offset {
            return Err(StoreFault::PastEnd);
        }
        let kept = offset as usize;
        let sink = self.sink(&key, kept)?;
        let first = self.first(octets, kept)?;
        self.files.put(key, Entry::file(first, moment))?;
        Ok(sink)
    }

    /// The whole file, open for writing after its octets.
    pub(crate) fn open_end(
        &mut self,
        key: PathKey<A>,
        octets: &[u8],
        moment: u64,
    ) -> Result<MemSink<A>, StoreFault>
        ensures { Opens self.old result self.new
            (open_octets self.old.tree key moment WriteMode.Append (Some octets.now)) }
    {
        let sink = self.sink(&key, octets.len())?;
        Ok(sink)
    }

    /// A file with these octets, open for writing.
    pub(crate) fn open_octets(
        &mut self,
        key: PathKey<A>,
        octets: &[u8],
        mode: WriteMode,
        moment: u64,
    ) -> Result<MemSink<A>, StoreFault>
        requires { length octets.now ≤ size_at (map.get self.old.tree key) }
        ensures { Opens self.old result self.new
            (open_octets self.old.tree key moment mode (Some octets.now)) }
    {
        match mode {
            WriteMode::New => self.open_empty(key, moment),
            WriteMode::At(offset) => self.open_cut(key, octets, offset, moment),
            WriteMode::Append => self.open_end(key, octets, moment),
        }
    }

    /// A new file, open for writing.
    pub(crate) fn open_new(
        &mut self,
        path: &VPath<A>,
        key: PathKey<A>,
        moment: u64,
    ) -> Result<MemSink<A>, StoreFault>
        ensures { Opens self.old result self.new
            (open_new self.old.tree moment (vacant self.old.tree path.now key)) }
    {
        let key = self.vacant(path, key)?;
        self.open_empty(key, moment)
    }

    /// A path key without an entry, opened for writing.
    pub(crate) fn open_absent(
        &mut self,
        path: &VPath<A>,
        key: PathKey<A>,
        mode: WriteMode,
        moment: u64,
    ) -> Result<MemSink<A>, StoreFault>
        ensures { Opens self.old result self.new
            (open_absent self.old.tree path.now key moment mode) }
    {
        match mode {
            WriteMode::New | WriteMode::Append => self.open_new(path, key, moment),
            WriteMode::At(_) => Err(StoreFault::NotFound),
        }
    }

    pub(crate) fn open_at(
        &mut self,
        path: &VPath<A>,
        key: PathKey<A>,
        mode: WriteMode,
        moment: u64,
    ) -> Result<MemSink<A>, StoreFault>
        ensures { Opens self.old result self.new
            (open_node self.old.tree path.now key moment mode (map.get self.old.tree key)) }
    {
        let Some(entry) = self.share(&key)? else {
            return self.open_absent(path, key, mode, moment);
        };
        match entry.into_octets() {
            None => Err(StoreFault::IsDir),
            Some(octets) => self.open_octets(key, octets.as_slice(), mode, moment),
        }
    }

    /// Returns whether the capacity would be exceeded once a file of `before` octets has `kept` and `came`.
    pub(crate) fn is_passed(&self, before: usize, kept: usize, came: usize) -> bool
        requires within { before ≤ total self.now.tree }
        requires kept { kept ≤ before }
        ensures passed { result
            ≡ nat_lt self.now.capacity (total self.now.tree - before + kept + came) }
        ensures small { result ≡ false → total self.now.tree - before + kept + came < 2 ^ 64 }
    {
        let others = self.files.stored() - (before - kept) as u64;
        others > self.capacity || came as u64 > self.capacity - others
    }

    /// Appends what a sink received, and holds, to the first octets of its file, which has `octets`.
    pub(crate) fn fill(
        &mut self,
        sink: MemSink<A>,
        octets: &[u8],
        moment: u64,
    ) -> Result<(), StoreFault>
        requires file { size_at (map.get self.old.tree sink.key) ≡ length octets.now }
        requires whole { nat_lt sink.most (length sink.octets) ≡ false }
        ensures { Changes self.old result self.new
            (finish_octets self.old sink moment (Some octets.now)) unit_of (λ tree. tree) }
    {
        let MemSink {
            key,
            kept,
            most: _,
            octets: came,
            is_cut: _,
            received: _,
        } = sink;
        let first = kept.min(octets.len());
        let is_passed = self.is_passed(octets.len(), first, came.len());
        if is_passed {
            return Err(StoreFault::Full);
        }
        if octets.len() < kept {
            return Err(StoreFault::PastEnd);
        }
        let filled = self.joined(octets, kept, came)?;
        self.files.put(key, Entry::file(filled, moment))?;
        Ok(())
    }

    /// Appends what a sink received to the first octets of its file, which has `octets`.
    ///
    /// If a sink received more than it could keep, it is too much for the store too. Only that of a store with
    /// a smaller capacity may have lost octets that would fit: there was no memory for them.
    pub(crate) fn fill_from(
        &mut self,
        sink: MemSink<A>,
        octets: &[u8],
        moment: u64,
    ) -> Result<(), StoreFault>
        requires { size_at (map.get self.old.tree sink.key) ≡ length octets.now }
        ensures step { Changes self.old result self.new
            (finish_octets self.old sink moment (Some octets.now)) unit_of (λ tree. tree) }
        ensures cut { sink.most < length sink.octets → self.old.capacity ≤ sink.most
            → result ≡ Err StoreFault.Full }
    {
        if !sink.is_cut {
            return self.fill(sink, octets, moment);
        }
        if sink.most < self.capacity {
            return Err(StoreFault::Memory);
        }
        Err(StoreFault::Full)
    }
}

/// The octets from an offset on.
pub(crate) fn open_from<A: Allocator>(
    octets: Arc<Vec<u8, A>, A>,
    offset: u64,
) -> Result<MemSource<A>, StoreFault>
    ensures { result ≡ octets_from offset (Some (shared octets)) }
{
    if (octets.len() as u64) < offset {
        return Err(StoreFault::PastEnd);
    }
    Ok(MemSource {
        octets,
        at: offset as usize,
    })
}
