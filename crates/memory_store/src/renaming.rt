//! Renaming of entries of a store in memory.

ghost use Rattle.std.specs.Prelude.{◌≡◌, IfOk, MatchResult, Ok, Err, Some, None};
ghost use Rattle.std.specs.FinMap as map;
ghost use Rattle.memory_terms.specs.Lack.{Unless};
ghost use Rattle.memory_store.specs.Tree.{begins_with};
ghost use Rattle.memory_store.specs.InMemory.{vacant, move_between, moved_tree, unit_of, Changes};

use crate::entry::Entry;
use crate::key::PathKey;
use crate::memory::MemStore;
use ftp_terms::EntryKind;
use std::alloc::Allocator;
use virtual_path::VPath;
use virtual_tree::StoreFault;

/// An entry to be renamed, and its two path keys.
#[derive(Drop)]
pub(crate) struct Moving<A: Allocator> {
    pub(crate) entry: Entry<A>,
    pub(crate) before: PathKey<A>,
    pub(crate) afterwards: PathKey<A>,
}

impl<A: Allocator + Clone> MemStore<A> {
    /// The entry to be renamed, and its path keys before and afterwards.
    pub(crate) fn moving(&self, from: &VPath<A>, to: &VPath<A>) -> Result<Moving<A>, StoreFault>
        ensures decided { MatchResult result
            (λ moving. move_between self.now.tree from.now to.now
            ≡ Ok (record {
              node = moving.entry;
              before = moving.before;
              afterwards = moving.afterwards;
            }))
            (Unless StoreFault.Memory
            (λ fault. move_between self.now.tree from.now to.now ≡ Err fault)) }
        ensures before { IfOk result (λ moving. moving.before ≡ from.now) }
        ensures afterwards { IfOk result (λ moving. moving.afterwards ≡ to.now) }
        ensures stands { IfOk result
            (λ moving. map.get self.now.tree moving.before ≡ Some moving.entry) }
        ensures vacant { IfOk result (λ moving. map.get self.now.tree moving.afterwards ≡ None) }
    {
        let Some(before) = PathKey::of(&self.alloc, from)? else {
            return Err(StoreFault::Inside);
        };
        let Some(afterwards) = PathKey::of(&self.alloc, to)? else {
            return Err(StoreFault::Inside);
        };
        let Some(entry) = self.share(&before)? else {
            return Err(StoreFault::NotFound);
        };
        let afterwards = self.vacant(to, afterwards)?;
        if begins_with(to, from) {
            return Err(StoreFault::Inside);
        }
        Ok(Moving {
            entry,
            before,
            afterwards,
        })
    }

    pub(crate) fn carry_out(
        &mut self,
        from: &VPath<A>,
        to: &VPath<A>,
        moving: Moving<A>,
    ) -> Result<(), StoreFault>
        requires before { moving.before ≡ from.now }
        requires afterwards { moving.afterwards ≡ to.now }
        requires stands { map.get self.old.tree moving.before ≡ Some moving.entry }
        requires vacant { map.get self.old.tree moving.afterwards ≡ None }
        ensures { Changes self.old result self.new
            (Ok (record {
              node = moving.entry;
              before = moving.before;
              afterwards = moving.afterwards;
            })) unit_of (moved_tree self.old.tree) }
    {
        let Moving {
            entry,
            before,
            afterwards,
        } = moving;
        match entry.kind() {
            EntryKind::File => self.files.shift(&before, afterwards, entry)?,
            EntryKind::Directory => {
                self.files = self
                    .files
                    .renamed(&self.alloc, from, to, &before, &afterwards)?;
            }
        }
        Ok(())
    }
}

/// Returns whether a path is `front` or beneath it.
fn begins_with<A: Allocator>(path: &VPath<A>, front: &VPath<A>) -> bool
    ensures { result ≡ begins_with front.now path.now }
{
    path.starts_with(front)
}
