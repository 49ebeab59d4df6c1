//! The kids of one node, found by their names.

ghost use Rattle.std.specs.Prelude.{◌≡◌, IfOk, None, OnErr, OnOk, Some, bytes_eq, if◌then◌else◌};
ghost use Rattle.sheet_text.specs.Paths.{Octets};
ghost use Rattle.sheet_text.specs.Named.{mark_of, named, named_further};

use std::alloc::{AllocError, Allocator};
use std::collections::BTreeMap;

/// The factor by which a name's mark is multiplied at each octet: the prime of the hash FNV-1a for 64 bits, with which
/// names of digits and letters seldom have the same mark.
const FACTOR: u64 = 1_099_511_628_211;

/// The places of kids by their names. Most nodes of a deep sheet have one kid alone, so the first one needs no map. A
/// number finds a kid in less time than a name does, so a further kid is found by the mark of its name, or among the
/// others if that mark is taken.
#[derive(Drop)]
pub(crate) struct Row<'t, A: Allocator> {
    pub first: Option<(&'t [u8], usize)>,
    pub marks: BTreeMap<u64, (&'t [u8], usize), A>,
    pub others: BTreeMap<&'t [u8], usize, A>,
}

/// A number for a name, by which most names differ.
fn mark_of(name: &[u8]) -> u64
    ensures mark { result ≡ mark_of name.now }
{
    let mut mark = 0u64;
    for octet in name {
        mark = mark.wrapping_mul(FACTOR).wrapping_add(u64::from(*octet));
    }
    mark
}

impl<'t, A: Allocator> Row<'t, A> {
    /// Returns the place of a name, if a kid has it.
    pub fn place(&self, name: &[u8]) -> Option<usize>
        ensures place { result ≡ named self.now name.now }
    {
        if let Some((kid, place)) = self.first {
            if kid == name {
                return Some(place);
            }
        }
        self.further_place(name)
    }

    /// Returns the place of a name, if a kid after the first has it.
    fn further_place(&self, name: &[u8]) -> Option<usize>
        ensures place { result ≡ named_further self.now name.now }
    {
        let Some((kid, place)) = self.marks.get(&mark_of(name)) else {
            return self.others.get(name).copied();
        };
        if *kid == name {
            return Some(*place);
        }
        self.others.get(name).copied()
    }
}

impl<'t, A: Allocator + Clone> Row<'t, A> {
    /// No kids.
    pub fn new(alloc: A) -> Result<Row<'t, A>, AllocError>
        ensures none { IfOk result (λ row. (name : Octets) → named row name ≡ None) }
    {
        let marks = BTreeMap::new(alloc.clone()?);
        let others = BTreeMap::new(alloc);
        Ok(Row {
            first: None,
            marks,
            others,
        })
    }

    /// Adds a kid, whose name no other has. If memory runs out, the kids are unchanged.
    pub fn add(&mut self, name: &'t [u8], place: usize) -> Result<(), AllocError>
        requires absent { named self.old name.now ≡ None }
        ensures added { OnOk result ((other : Octets) → named self.new other
            ≡ if bytes_eq name.now other then Some place else named self.old other) }
        ensures kept { OnErr result ((other : Octets)
            → named self.new other ≡ named self.old other) }
    {
        if self.first.is_none() {
            self.first = Some((name, place));
            return Ok(());
        }
        match self.add_further(name, place) {
            Ok(()) => Ok(()),
            Err(_) => Err(AllocError),
        }
    }

    /// Adds a kid after the first, whose name no other has. If memory runs out, the kids are unchanged.
    fn add_further(&mut self, name: &'t [u8], place: usize) -> Result<(), AllocError>
        requires absent { named_further self.old name.now ≡ None }
        ensures first { self.new.first ≡ self.old.first }
        ensures added { OnOk result ((other : Octets) → named_further self.new other
            ≡ if bytes_eq name.now other then Some place else named_further self.old other) }
        ensures kept { OnErr result ((other : Octets)
            → named_further self.new other ≡ named_further self.old other) }
    {
        let mark = mark_of(name);
        if self.marks.contains_key(&mark) {
            return match self.others.insert(name, place) {
                Ok(_) => Ok(()),
                Err(_) => Err(AllocError),
            };
        }
        match self.marks.insert(mark, (name, place)) {
            Ok(_) => Ok(()),
            Err(_) => Err(AllocError),
        }
    }
}
