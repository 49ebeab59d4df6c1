//! The entries of a store in memory, by path.

ghost use Rattle.std.specs.Prelude.{◌≡◌, ◌<◌, ◌^◌, ◌++◌, ◌∷◌, [], false, IfOk, OnOk, OnErr, option_copied, Some, None, length, nat_eq};
ghost use Rattle.std.specs.Cmp.Lexicographic.{slice_cmp};
ghost use Rattle.std.specs.FinMap as map;
ghost use Rattle.std.specs.List.Sorted.{IsStrictlySortedBy};
ghost use Rattle.std.specs.Ordering.{nat_cmp, is_gt};
ghost use Rattle.virtual_path.specs.Path.{Path};
ghost use Rattle.virtual_tree.specs.Calls.{entries_of, names_of};
ghost use Rattle.memory_store.specs.Tree.{total, size_of, size_at, children_in, listing, path_cmp, renamed};

use crate::entry::Entry;
use crate::key::PathKey;
use std::alloc::{AllocError, Allocator};
use std::collections::BTreeMap;
use std::marker::Model;
use std::ops::Bound;
use virtual_path::VPath;
use virtual_tree::ListedEntry;

/// The entries below the root, and the number of octets in their files.
#[derive(Drop)]
pub(crate) struct Files<A: Allocator> {
    nodes: BTreeMap<PathKey<A>, Entry<A>, A>,
    stored: u64,
}

impl<A: Allocator> Model for Files<A> {
    ghost use Rattle.std.specs.Prelude.{◌≡◌};
    ghost use Rattle.std.specs.FinMap.{from_entries};
    ghost use Rattle.memory_store.specs.Tree.{Tree, path_cmp, total};
    ghost use Rattle.memory_store.specs.TreeCodes.{tree_code};

    ghost Value = { Tree };

    ghost coded = { tree_code };

    ghost view = { λ files. from_entries {R = path_cmp} files.nodes.entries };

    ghost invariant = { λ files.
        files.stored ≡ total (from_entries {R = path_cmp} files.nodes.entries) };
}

impl<A: Allocator + Clone> Files<A> {
    pub fn new(alloc: A) -> Files<A>
        ensures { result ≡ map.empty }
    {
        Files {
            nodes: BTreeMap::new(alloc),
            stored: 0,
        }
    }

    /// Number of octets in all files.
    pub fn stored(&self) -> u64
        ensures stored { result ≡ total self.now }
        ensures small { result < 2 ^ 64 }
    {
        self.stored
    }

    /// The entry at a path, if there is one.
    pub fn get(&self, key: &PathKey<A>) -> Option<&Entry<A>>
        ensures { option_copied result ≡ map.get self.now key.now }
    {
        self.nodes.get(key)
    }

    /// Puts an entry at a path, in place of any entry there.
    pub fn put(&mut self, key: PathKey<A>, entry: Entry<A>) -> Result<(), AllocError>
        requires { size_at (map.get self.old key) < size_of entry
            → total (map.insert self.old key entry) < 2 ^ 64 }
        ensures ok { OnOk result (self.new ≡ map.insert self.old key entry) }
        ensures err { OnErr result (self.new ≡ self.old) }
    {
        let size = entry.size();
        let freed = self.size_at(&key);
        self.nodes.insert(key, entry)?;
        self.stored = self.stored - freed + size;
        Ok(())
    }

    /// Removes the entry at a path, if there is one.
    pub fn take(&mut self, key: &PathKey<A>)
        ensures { self.new ≡ map.remove self.old key.now }
    {
        let freed = self.size_at(key);
        self.nodes.remove(key);
        self.stored -= freed;
    }

    /// Number of octets at a path.
    fn size_at(&self, key: &PathKey<A>) -> u64
        ensures { result ≡ size_at (map.get self.now key.now) }
    {
        match self.get(key) {
            Some(entry) => entry.size(),
            None => 0,
        }
    }

    /// The entries of a directory that a path can name, sorted by name.
    pub fn listing<B: Allocator>(
        &self,
        alloc: &A,
        path: &VPath<B>,
    ) -> Result<Vec<ListedEntry<A>, A>, AllocError>
        ensures entries { IfOk result (λ listed. entries_of listed ≡ listing self.now path.now) }
        ensures rising { IfOk result
            (λ listed. IsStrictlySortedBy (slice_cmp nat_cmp) (names_of listed)) }
    {
        let first = PathKey::first_in(alloc, path)?;
        let end = PathKey::past(alloc, path)?;
        self.listed_between(alloc, &first, &end)
    }

    /// The same, between the path keys before and after all entries of the directory.
    fn listed_between(
        &self,
        alloc: &A,
        first: &PathKey<A>,
        end: &PathKey<A>,
    ) -> Result<Vec<ListedEntry<A>, A>, AllocError>
        requires forward { is_gt (path_cmp first.now end.now) ≡ false }
        ensures entries { (directory : Path) → first.now ≡ directory ++ [] ∷ []
            → end.now ≡ (directory ++ [] ∷ []) ++ [] ∷ []
            → IfOk result (λ listed. entries_of listed ≡ listing self.now directory) }
    {
        let mut listed = Vec::new(alloc.clone()?);
        for (key, entry) in self
            .nodes
            .range((Bound::Included(first), Bound::Excluded(end)))
        {
            if let Some(found) = key.listed(alloc, entry)? {
                listed.push(found)?;
            }
        }
        Ok(listed)
    }

    /// Returns whether a directory has no entries.
    pub fn is_bare<B: Allocator>(&self, alloc: &A, path: &VPath<B>) -> Result<bool, AllocError>
        ensures bare { IfOk result
            (λ bare. bare ≡ nat_eq (length (children_in self.now path.now)) 0) }
    {
        let first = PathKey::first_in(alloc, path)?;
        let end = PathKey::past(alloc, path)?;
        let mut entries = self
            .nodes
            .range((Bound::Included(&first), Bound::Excluded(&end)));
        Ok(entries.next().is_none())
    }

    /// Moves an entry to a path without an entry.
    pub fn shift(
        &mut self,
        from: &PathKey<A>,
        to: PathKey<A>,
        entry: Entry<A>,
    ) -> Result<(), AllocError>
        requires stands { map.get self.old from.now ≡ Some entry }
        requires vacant { map.get self.old to ≡ None }
        ensures ok { OnOk result (self.new ≡ map.remove (map.insert self.old to entry) from.now) }
        ensures err { OnErr result (self.new ≡ self.old) }
    {
        self.nodes.insert(to, entry)?;
        self.nodes.remove(from);
        Ok(())
    }

    /// All entries after a rename of one path to another, given as path keys.
    pub fn renamed<B: Allocator>(
        &self,
        alloc: &A,
        from: &VPath<B>,
        to: &VPath<B>,
        before: &PathKey<A>,
        afterwards: &PathKey<A>,
    ) -> Result<Files<A>, AllocError>
        requires before { before.now ≡ from.now }
        requires afterwards { afterwards.now ≡ to.now }
        ensures { IfOk result (λ files. files ≡ renamed self.now from.now to.now) }
    {
        // The octets stored here bound those of the new map.
        let _most = self.stored();
        let mut renamed = Files::new(alloc.clone()?);
        let mut rest = self.nodes.iter();
        while let Some((key, entry)) = rest.next_back() {
            let key = key.moved(alloc, from, to, before, afterwards)?;
            let entry = entry.share()?;
            renamed.put(key, entry)?;
        }
        Ok(renamed)
    }
}
