//! Sources and sinks of files in memory.

ghost use Rattle.std.specs.Prelude.{◌≡◌, ◌≤◌, min, take, length, Some, IfErr, OnOk, OnErr};

use crate::key::PathKey;
use crate::received::Received;
use std::alloc::Allocator;
use std::marker::Model;
use std::sync::Arc;
use virtual_tree::{Sink, Source, StoreFault};

/// A file's octets as they were when it was opened, from an offset on.
#[derive(Drop)]
pub struct MemSource<A: Allocator> {
    pub(crate) octets: Arc<Vec<u8, A>, A>,
    pub(crate) at: usize,
}

impl<A: Allocator> Model for MemSource<A> {
    ghost use Rattle.std.specs.Prelude.{List, ℕ, drop, length, ◌≤◌};
    ghost use Rattle.memory_store.specs.Held.{shared};

    ghost Value = { List ℕ };

    ghost view = { λ source. drop source.at (shared source.octets) };

    ghost invariant = { λ source. source.at ≤ length (shared source.octets) };
}

/// The octets received for a file; `finish` puts them into it.
///
/// It holds only the first, at most as many as the store's capacity: more than that never fit.
#[derive(Drop)]
pub struct MemSink<A: Allocator> {
    pub(crate) key: PathKey<A>,
    pub(crate) kept: usize,
    /// Maximum number of octets held.
    pub(crate) most: u64,
    /// The first octets received.
    pub(crate) octets: Vec<u8, A>,
    /// True if more than `most` octets were received.
    pub(crate) is_cut: bool,
    /// All octets received.
    pub(crate) received: Received,
}

impl<A: Allocator> Model for MemSink<A> {
    ghost use Rattle.memory_store.specs.Codes.{upload_code};
    ghost use Rattle.memory_store.specs.Held.{IsHeld};
    ghost use Rattle.memory_store.specs.InMemory.{Upload};

    ghost Value = { Upload };

    ghost coded = { upload_code };

    ghost view = { λ sink.
        record {
          key = sink.key;
          kept = sink.kept;
          most = sink.most;
          octets = sink.received.octets;
        } };

    ghost invariant = { λ sink.
        IsHeld sink.most sink.octets.items sink.is_cut sink.received.octets };
}

impl<A: Allocator> MemSink<A> {
    /// Number of octets that it holds in memory: the first that it received, at most as many as the store's
    /// capacity was when the file was opened.
    #[tactic(auto, using(crate::proofs::Fills::held_count))]
    pub fn held(&self) -> usize
        ensures { result ≡ min self.now.most (length self.now.octets) }
    {
        self.octets.len()
    }
}

/// Copies as many octets as there is room for, and returns their number.
fn copy_front(buffer: &mut [u8], octets: &[u8]) -> usize
    ensures count { result ≡ min (length buffer.old) (length octets.now) }
    ensures copied { take result buffer.new ≡ take result octets.now }
{
    let count = buffer.len().min(octets.len());
    buffer[..count].copy_from_slice(&octets[..count]);
    count
}

impl<A: Allocator> Source for MemSource<A> {
    ghost use Rattle.std.specs.Prelude.{Some};

    ghost remaining = { λ source. Some source };

    fn read(&mut self, buffer: &mut [u8]) -> Result<usize, StoreFault> {
        let count = copy_front(buffer, &self.octets.as_slice()[self.at..]);
        self.at += count;
        Ok(count)
    }

    fn expected(&self) -> Option<u64> {
        Some((self.octets.as_slice().len() - self.at) as u64)
    }
}

impl<A: Allocator> Sink for MemSink<A> {
    ghost use Rattle.std.specs.Io.KnownBytes.{Appends};
    ghost use Rattle.std.specs.Prelude.{Some};
    ghost use Rattle.virtual_tree.specs.Calls.{IsEndFault};
    ghost use Rattle.memory_store.specs.InMemory.{target_of};

    ghost collected = { λ sink. Some sink.octets };

    ghost target = { λ sink. Some (target_of sink) };

    /// Receives all of these octets, and holds what it has room for. The target stays the same, and so does the most
    /// that it holds.
    fn write(&mut self, octets: &[u8]) -> Result<(), StoreFault>
        ensures octets { OnOk result
            (Appends (Some self.old.octets) (Some self.new.octets) octets.now) }
        ensures kept { OnErr result (Some self.new.octets ≡ Some self.old.octets) }
        ensures target { Some (target_of self.new) ≡ Some (target_of self.old) }
        ensures most { self.new.most ≡ self.old.most }
        ensures refusal { IfErr result (IsEndFault (Some self.old.octets)) }
    {
        let room = (self.most - self.octets.len() as u64) as usize;
        let count = room.min(octets.len());
        match self.octets.extend_from_slice(&octets[..count]) {
            Ok(()) => {
                if count < octets.len() {
                    self.is_cut = true;
                }
                self.received.add(octets);
                Ok(())
            }
            Err(_) => Err(StoreFault::Memory),
        }
    }
}
