//! Listings of a folder's directories.

ghost use Rattle.std.specs.Prelude.{◌≡◌, ◌++◌, ◌+◌, ◌≤◌, [], ℕ, drop, false, length, map, IsTrue, IfOk, IfSome, List, MatchOption, OnOk, Result, string_bytes};
ghost use Rattle.std.specs.Cmp.Lexicographic.{slice_cmp};
ghost use Rattle.std.specs.List.Sorted.{IsStrictlySortedBy};
ghost use Rattle.std.specs.Option.{option_map};
ghost use Rattle.std.specs.Ordering.{nat_cmp};
ghost use Rattle.std.specs.declared.io.Error.{Error};
ghost use Rattle.virtual_tree.specs.Calls.{entries_of, entry_of, names_of};
ghost use Rattle.folder_store.specs.Listings.{AddsName, AreThoseInUtf8, ComesLast, IsListedBefore, IsShown, IsUnshown, ListsDirectory, ListsNames, ReadsNames, ReadsSorted, ShowsEntry, entrance, names_in};
ghost use Rattle.folder_store.specs.MachineCalls.MachineCall.{LooksIn};
ghost use Rattle.folder_store.specs.Walks.{walker};
ghost use Rattle.folder_store.specs.declared.looked.Looked.{Looked};

use crate::entry_name::EntryName;
use crate::fault::MachineFault;
use crate::folder::Folder;
use crate::look::{fault_of, listing_fault, meta_of};
use crate::machine::FolderMachine;
use crate::machine_path::MachinePath;
use ftp_terms::Meta;
use std::alloc::{AllocError, Allocator};
use std::io;
use std::io::ErrorKind;
use virtual_path::{VPath, is_name};
use virtual_tree::ListedEntry;

/// Octets of names that are read at once: there is room for any name.
const NAMES_AT_ONCE: usize = 4_096;

impl<M: FolderMachine + Drop> Folder<M> {
    /// The entries of a directory, sorted by the octets of their names.
    pub fn list(&mut self, path: &VPath<M::A>) -> Result<Vec<ListedEntry<M::A>, M::A>, MachineFault>
        ensures rising { IfOk result
            (λ listed. IsStrictlySortedBy (slice_cmp nat_cmp) (names_of listed)) }
        ensures path { self.new.path ≡ self.old.path }
        ensures listed { IfOk result (λ listed. ListsDirectory M.Does
            (λ directory. M.Directory.raw_fd directory) (walker self.old.machine self.old.has_proc)
            (string_bytes self.old.path) path.now (entries_of listed)
            (walker self.new.machine self.new.has_proc)) }
    {
        let mut place = self.found(path)?;
        add_slash(path, &mut place)?;
        let directory = match self.machine.enter(place.text()) {
            Ok(directory) => directory,
            Err(error) => return Err(self.not_opened(place.text(), &error)),
        };
        let names = self.names(&directory)?;
        self.entries(&directory, names)
    }

    /// The fault of a directory that could not be opened to list it.
    fn not_opened(&mut self, place: &str, error: &io::Error) -> MachineFault
        ensures path { self.new.path ≡ self.old.path }
    {
        match self.is_file_at(place, error) {
            Ok(true) => MachineFault::NotDir,
            Ok(false) => MachineFault::Device(*error),
            Err(fault) => fault,
        }
    }

    /// The names in an open directory that are UTF-8, sorted by their octets.
    fn names(&mut self, directory: &M::Directory) -> Result<Vec<String<M::A>, M::A>, MachineFault>
        ensures path { self.new.path ≡ self.old.path }
        ensures proc { self.new.has_proc ≡ self.old.has_proc }
        ensures names { IfOk result (λ names.
            ReadsSorted M.Does self.old.machine directory.now (map string_bytes names.items)
            self.new.machine) }
    {
        let mut names = self.given_names(directory)?;
        names.sort()?;
        Ok(names)
    }

    /// The names in an open directory that are UTF-8, as the machine gives them.
    fn given_names(
        &mut self,
        directory: &M::Directory,
    ) -> Result<Vec<String<M::A>, M::A>, MachineFault>
        ensures path { self.new.path ≡ self.old.path }
        ensures proc { self.new.has_proc ≡ self.old.has_proc }
        ensures given { IfOk result (λ names. (texts : List (List ℕ))
            × ReadsNames M.Does self.old.machine directory.now texts []
            (map string_bytes names.items) self.new.machine) }
    {
        let mut buffer = room_for(self.machine.alloc(), NAMES_AT_ONCE)?;
        self.read_all(directory, buffer.as_mut_slice())
    }

    /// The same, through a buffer.
    fn read_all(
        &mut self,
        directory: &M::Directory,
        buffer: &mut [u8],
    ) -> Result<Vec<String<M::A>, M::A>, MachineFault>
        ensures path { self.new.path ≡ self.old.path }
        ensures proc { self.new.has_proc ≡ self.old.has_proc }
        ensures given { IfOk result (λ names. (texts : List (List ℕ))
            × ReadsNames M.Does self.old.machine directory.now texts []
            (map string_bytes names.items) self.new.machine) }
    {
        let mut names = Vec::new(self.machine.alloc());
        'reads: for _ in 0..u64::MAX {
            match self.machine.read_names(directory, buffer) {
                Ok(0) => return Ok(names),
                Ok(count) => add_names(self.machine.alloc(), &buffer[..count], &mut names)?,
                Err(error) => return Err(fault_of(&error)),
            }
        }
        Err(MachineFault::Device(io::Error::from(ErrorKind::TimedOut)))
    }

    /// The entries with these names in an open directory, each name once.
    #[tactic(auto, using(crate::proofs::Rising::rising_push))]
    fn entries(
        &mut self,
        directory: &M::Directory,
        names: Vec<String<M::A>, M::A>,
    ) -> Result<Vec<ListedEntry<M::A>, M::A>, MachineFault>
        ensures rising { IfOk result
            (λ listed. IsStrictlySortedBy (slice_cmp nat_cmp) (names_of listed)) }
        ensures path { self.new.path ≡ self.old.path }
        ensures proc { self.new.has_proc ≡ self.old.has_proc }
        ensures listed { IfOk result (λ listed. ListsNames M.Does self.old.machine directory.now
            (map string_bytes names.items) [] (entries_of listed) self.new.machine) }
    {
        let mut room = EntryName::new();
        let mut listed = Vec::new(self.machine.alloc());
        for name in names {
            if comes_last(listed.as_slice(), name.as_str()) {
                if let Some(entry) = self.entry(directory, &mut room, name)? {
                    if listed.push(entry).is_err() {
                        return Err(MachineFault::Memory);
                    }
                }
            }
        }
        Ok(listed)
    }

    /// Returns whether the listing is to be left.
    fn is_left(&self) -> bool {
        match &self.leaves {
            Some(sign) => sign.is_given(),
            None => false,
        }
    }

    /// An entry of an open directory, whose name is set in `room`. `None` if no path can name it, if it is neither a
    /// directory nor a file, or if it is gone by now. Any other refusal by the machine is a fault of the device, as is
    /// that the listing is left.
    fn entry(
        &mut self,
        directory: &M::Directory,
        room: &mut EntryName,
        name: String<M::A>,
    ) -> Result<Option<ListedEntry<M::A>>, MachineFault>
        ensures name { IfOk result
            (λ found. IfSome found (λ entry. string_bytes entry.name ≡ string_bytes name)) }
        ensures path { self.new.path ≡ self.old.path }
        ensures proc { self.new.has_proc ≡ self.old.has_proc }
        ensures shown { IfOk result (λ found. ShowsEntry M.Does self.old.machine directory.now
            (string_bytes name) (option_map entry_of found) self.new.machine) }
    {
        if self.is_left() {
            return Err(MachineFault::Device(io::Error::from(ErrorKind::Interrupted)));
        }
        if !is_name(name.as_str()) {
            return Ok(None);
        }
        room.set(name.as_str());
        match self.listed_meta(directory, room)? {
            Some(meta) => Ok(Some(ListedEntry { name, meta })),
            None => Ok(None),
        }
    }

    /// The metadata of an entry of a listing; `None` if it is neither a directory nor a file, or gone by now.
    fn listed_meta(
        &mut self,
        directory: &M::Directory,
        name: &EntryName,
    ) -> Result<Option<Meta>, MachineFault>
        ensures path { self.new.path ≡ self.old.path }
        ensures proc { self.new.has_proc ≡ self.old.has_proc }
        ensures shown { IfOk result (λ shown. (answer : Result Looked Error)
            × M.Does self.old.machine (LooksIn directory.now name.now answer) self.new.machine
            × MatchOption shown (IsUnshown answer) (IsShown answer)) }
    {
        match self.machine.look_in(directory, name) {
            Ok(looked) => Ok(meta_of(&looked)),
            Err(error) => match listing_fault(&error) {
                MachineFault::NotFound => Ok(None),
                fault => Err(fault),
            },
        }
    }
}

/// Adds a slash to the path of the folder itself: it may be reached through a link, which a slash lets the machine
/// follow.
fn add_slash<D: Drop, A: Allocator>(
    path: &VPath<A>,
    place: &mut MachinePath<D, A>,
) -> Result<(), AllocError>
    ensures place { OnOk result (place.new ≡ entrance path.now place.old) }
{
    if path.is_root() {
        place.push("")?;
    }
    Ok(())
}

/// A buffer of this size.
fn room_for<A: Allocator>(alloc: A, size: usize) -> Result<Vec<u8, A>, AllocError> {
    vec![in alloc; 0u8; size]
}

/// Adds the names of a text, in which each is followed by a NUL, that are UTF-8.
fn add_names<A: Allocator + Clone>(
    alloc: A,
    text: &[u8],
    names: &mut Vec<String<A>, A>,
) -> Result<(), AllocError>
    ensures added { OnOk result ((more : List (List ℕ)) × AreThoseInUtf8 (names_in text.now) more
        × (map string_bytes names.new.items ≡ map string_bytes names.old.items ++ more)) }
{
    let mut rest = text;
    while !rest.is_empty() {
        let end = os::name_length(rest);
        add_name(alloc.clone()?, &rest[..end], names)?;
        rest = after_name(rest, end);
    }
    Ok(())
}

/// Adds a name if it is UTF-8.
fn add_name<A: Allocator>(
    alloc: A,
    name: &[u8],
    names: &mut Vec<String<A>, A>,
) -> Result<(), AllocError>
    ensures added { OnOk result (AddsName name.now (map string_bytes names.old.items)
        (map string_bytes names.new.items)) }
{
    match std::str::from_utf8(name) {
        Ok(text) => {
            let copy = String::from_str(alloc, text)?;
            names.push(copy)?;
            Ok(())
        }
        Err(_) => Ok(()),
    }
}

/// The names after the first one, which ends before `end`.
fn after_name(names: &[u8], end: usize) -> &[u8]
    requires end { end ≤ length names.now }
    ensures rest { result.now ≡ drop (end + 1) names.now }
{
    if end < names.len() {
        &names[end + 1..]
    } else {
        &names[end..]
    }
}

/// Returns whether a name is greater than the last one listed.
fn comes_last<A: Allocator>(listed: &[ListedEntry<A>], name: &str) -> bool
    ensures last { IsTrue result → ComesLast listed.now name.now }
    ensures before { result ≡ false → IsListedBefore (map entry_of listed.now) name.now }
{
    match listed.last() {
        None => true,
        Some(entry) => entry.name.as_str().cmp(name).is_lt(),
    }
}
