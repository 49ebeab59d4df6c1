//! The store.

ghost use Rattle.std.specs.Prelude.{◌≡◌, ◌≢◌, ◌<◌, ◌^◌, IfErr, IfOk, IfSome, IsTrue, None, map, string_bytes};
ghost use Rattle.std.specs.Cmp.Lexicographic.{slice_cmp};
ghost use Rattle.std.specs.List.{All};
ghost use Rattle.std.specs.List.Sorted.{IsStrictlySortedBy};
ghost use Rattle.std.specs.Ordering.{nat_cmp};
ghost use Rattle.virtual_tree.specs.Calls.{entry_of, names_of};
ghost use Rattle.page_store.specs.Pages.{ComesLast, IsCounted, IsMade, IsShownEntry, IsUnlisted};

use crate::ends::{NoSink, PageSource};
use crate::pages::{PageFault, Pages};
use ftp_terms::{EntryKind, Meta};
use std::alloc::Global;
use virtual_path::{VPath, is_name};
use virtual_tree::{ListedEntry, Store, StoreFault, WriteMode};

/// A store of files that are made when they are asked for, all of them in the root. Nothing can be changed: each such call
/// is refused as `Device`, which a client reads as 451, so users should have the letters `elr` alone.
#[derive(Drop)]
pub struct PageStore<P: Drop> {
    pub pages: P,
    /// Number of faults so far, modulo 2^64.
    pub count: u64,
    alloc: Global,
    pub ghost small: { count < 2 ^ 64 },
}

/// Returns whether a name is greater than the last one listed.
fn comes_last(listed: &[ListedEntry], name: &str) -> bool
    ensures last { IsTrue result → ComesLast listed.now name.now }
{
    match listed.last() {
        None => true,
        Some(entry) => entry.name.as_str().cmp(name).is_lt(),
    }
}

impl<P: Pages> PageStore<P> {
    /// A store of these files.
    pub fn new(alloc: Global, pages: P) -> PageStore<P>
        ensures pages { result.pages ≡ pages }
        ensures count { result.count ≡ 0 }
    {
        PageStore {
            pages,
            count: 0,
            alloc,
        }
    }

    // Counts a fault of the device.
    fn count_fault(&mut self)
        ensures counted { self.new.count ≢ self.old.count }
        ensures pages { self.new.pages ≡ self.old.pages }
    {
        self.count = self.count.wrapping_add(1);
    }

    // The octets of the file at a path.
    fn made(&mut self, path: &VPath) -> Result<Vec<u8>, StoreFault>
        ensures counted { IfErr result (IsCounted self.old.count self.new.count) }
        ensures made { IsMade P.Shows path.now result }
    {
        let Some(name) = path.file_name() else {
            return Err(StoreFault::IsDir);
        };
        if path.depth() != 1 {
            return Err(StoreFault::NotFound);
        }
        match self.pages.page(self.alloc, name) {
            Ok(Some(octets)) => Ok(octets),
            Ok(None) => Err(StoreFault::NotFound),
            Err(PageFault::Memory) => Err(StoreFault::Memory),
            Err(PageFault::Broken) => {
                self.count_fault();
                Err(StoreFault::Device)
            }
        }
    }

    // The reason for which there is no listing of a path that is not the root.
    #[tactic(auto, using(crate::proofs::Faults::unlisted))]
    fn not_listed(&mut self, path: &VPath) -> StoreFault
        ensures counted { IsCounted self.old.count self.new.count result }
        ensures unlisted { IsUnlisted P.Shows path.now result }
    {
        match self.made(path) {
            Ok(_) => StoreFault::NotDir,
            Err(fault) => fault,
        }
    }

    // The entry of a name; none if no path can have it, or if there is no such file.
    fn entry(&mut self, name: String) -> Result<Option<ListedEntry>, PageFault>
        ensures name { IfOk result
            (λ found. IfSome found (λ entry. string_bytes entry.name ≡ string_bytes name)) }
        ensures shown { IfOk result
            (λ found. IfSome found (λ entry. IsShownEntry P.Shows (entry_of entry))) }
        ensures count { self.new.count ≡ self.old.count }
    {
        if !is_name(name.as_str()) {
            return Ok(None);
        }
        match self.pages.page(self.alloc, name.as_str())? {
            Some(octets) => {
                let meta = Meta::new(EntryKind::File, octets.len() as u64, 0);
                Ok(Some(ListedEntry { name, meta }))
            }
            None => Ok(None),
        }
    }

    // The entries with these names, each once, if they rise.
    #[tactic(auto, using(crate::proofs::Rising::rising_push))]
    fn entries(&mut self, names: Vec<String>) -> Result<Vec<ListedEntry>, PageFault>
        ensures rising { IfOk result
            (λ listed. IsStrictlySortedBy (slice_cmp nat_cmp) (names_of listed)) }
        ensures shown { IfOk result
            (λ listed. All (IsShownEntry P.Shows) (map entry_of listed.items)) }
        ensures count { self.new.count ≡ self.old.count }
    {
        let mut listed = Vec::new(self.alloc);
        for name in names {
            if comes_last(listed.as_slice(), name.as_str()) {
                if let Some(entry) = self.entry(name)? {
                    if listed.push(entry).is_err() {
                        return Err(PageFault::Memory);
                    }
                }
            }
        }
        Ok(listed)
    }

    // The entries of the root.
    fn listed(&mut self) -> Result<Vec<ListedEntry>, PageFault>
        ensures rising { IfOk result
            (λ listed. IsStrictlySortedBy (slice_cmp nat_cmp) (names_of listed)) }
        ensures shown { IfOk result
            (λ listed. All (IsShownEntry P.Shows) (map entry_of listed.items)) }
        ensures count { self.new.count ≡ self.old.count }
    {
        let mut names = self.pages.names(self.alloc)?;
        names.sort_unstable();
        self.entries(names)
    }
}

impl<P: Pages> Store<Global> for PageStore<P> {
    ghost use Rattle.page_store.specs.Pages.{PageStep};

    type Source = PageSource;

    type Sink = NoSink;

    ghost Step = { PageStep (λ store. store.count) (λ source. source) P.Shows };

    ghost capacity = { λ _. None };

    ghost would_hold = { λ _ _ _. 0 };

    ghost fault_count = { λ store. store.count };

    fn faults(&self) -> u64 {
        self.count
    }

    fn stat(&mut self, path: &VPath) -> Result<Meta, StoreFault> {
        if path.is_root() {
            return Ok(Meta::new(EntryKind::Directory, 0, 0));
        }
        match self.made(path) {
            Ok(octets) => Ok(Meta::new(EntryKind::File, octets.len() as u64, 0)),
            Err(fault) => Err(fault),
        }
    }

    fn list(&mut self, path: &VPath) -> Result<Vec<ListedEntry>, StoreFault> {
        if !path.is_root() {
            return Err(self.not_listed(path));
        }
        match self.listed() {
            Ok(listed) => Ok(listed),
            Err(PageFault::Memory) => Err(StoreFault::Memory),
            Err(PageFault::Broken) => {
                self.count_fault();
                Err(StoreFault::Device)
            }
        }
    }

    #[tactic(auto, using(crate::proofs::Faults::unopened))]
    fn open_read(&mut self, path: &VPath, offset: u64) -> Result<PageSource, StoreFault> {
        match self.made(path) {
            Ok(octets) => {
                if offset > octets.len() as u64 {
                    return Err(StoreFault::PastEnd);
                }
                let at = offset as usize;
                Ok(PageSource { octets, at })
            }
            Err(fault) => Err(fault),
        }
    }

    fn open_write(
        &mut self,
        _path: &VPath,
        _mode: WriteMode,
        _moment: u64,
    ) -> Result<NoSink, StoreFault> {
        self.count_fault();
        Err(StoreFault::Device)
    }

    fn finish(&mut self, _sink: NoSink, _moment: u64) -> Result<(), StoreFault> {
        self.count_fault();
        Err(StoreFault::Device)
    }

    fn make_dir(&mut self, _path: &VPath) -> Result<(), StoreFault> {
        self.count_fault();
        Err(StoreFault::Device)
    }

    fn remove_dir(&mut self, _path: &VPath) -> Result<(), StoreFault> {
        self.count_fault();
        Err(StoreFault::Device)
    }

    fn remove_file(&mut self, _path: &VPath) -> Result<(), StoreFault> {
        self.count_fault();
        Err(StoreFault::Device)
    }

    fn rename(&mut self, _from: &VPath, _to: &VPath) -> Result<(), StoreFault> {
        self.count_fault();
        Err(StoreFault::Device)
    }

    ghost honest = { λ old new exchange step. step.device };

    ghost fits = { λ old new exchange step full. absurd (step.roomy full) };

    ghost counts = { λ store. store.small };
}
