//! Entries of a store in memory.

ghost use Rattle.std.specs.Prelude.{◌≡◌, IfOk};

use ftp_terms::{EntryKind, Meta};
use std::alloc::{AllocError, Allocator};
use std::marker::Model;
use std::sync::Arc;

/// A directory, or a file's octets and its modification time.
///
/// A file's octets never change and are shared with their readers; a change makes a new list.
#[derive(Drop)]
pub(crate) enum Content<A: Allocator> {
    Directory,
    File(Arc<Vec<u8, A>, A>, u64),
}

/// An entry of a store in memory.
#[derive(Drop)]
pub(crate) struct Entry<A: Allocator> {
    content: Content<A>,
}

impl<A: Allocator> Model for Entry<A> {
    ghost use Rattle.memory_store.specs.Tree.{Node};
    ghost use Rattle.memory_store.specs.TreeCodes.{node_code};

    ghost Value = { Node };

    ghost coded = { node_code };

    ghost use Rattle.memory_store.specs.Held.{node_of};

    ghost view = { λ entry. node_of entry.content };
}

impl<A: Allocator> Entry<A> {
    ghost use Rattle.std.specs.Prelude.{◌≡◌, IfOk, Some, option_map};
    ghost use Rattle.memory_store.specs.Held.{shared};
    ghost use Rattle.memory_store.specs.Tree.{meta_of, size_of, kind_of, octets_of};
    ghost use Rattle.memory_store.specs.Tree.Node.{Directory, File};

    pub fn directory() -> Entry<A>
        ensures { result ≡ Directory }
    {
        Entry {
            content: Content::Directory,
        }
    }

    pub fn file(octets: Arc<Vec<u8, A>, A>, moment: u64) -> Entry<A>
        ensures { result ≡ File (shared octets) moment }
    {
        Entry {
            content: Content::File(octets, moment),
        }
    }

    pub fn kind(&self) -> EntryKind
        ensures { result ≡ kind_of self.now }
    {
        match &self.content {
            Content::Directory => EntryKind::Directory,
            Content::File(_, _) => EntryKind::File,
        }
    }

    pub fn size(&self) -> u64
        ensures { result ≡ size_of self.now }
    {
        match &self.content {
            Content::Directory => 0,
            Content::File(octets, _) => octets.len() as u64,
        }
    }

    pub fn meta(&self) -> Meta
        ensures { result ≡ meta_of self.now }
    {
        match &self.content {
            Content::Directory => Meta::new(EntryKind::Directory, 0, 0),
            Content::File(octets, moment) => {
                Meta::new(EntryKind::File, octets.len() as u64, *moment / 1000)
            }
        }
    }

    /// The octets of a file.
    pub fn into_octets(self) -> Option<Arc<Vec<u8, A>, A>>
        ensures { option_map shared result ≡ octets_of self }
    {
        match self.content {
            Content::Directory => None,
            Content::File(octets, _) => Some(octets),
        }
    }

    /// Another handle to the same entry.
    pub fn share(&self) -> Result<Entry<A>, AllocError>
        ensures { IfOk result (λ entry. entry ≡ self.now) }
    {
        match &self.content {
            Content::Directory => Ok(Entry {
                content: Content::Directory,
            }),
            Content::File(octets, moment) => Ok(Entry {
                content: Content::File(Arc::try_clone(octets)?, *moment),
            }),
        }
    }
}
