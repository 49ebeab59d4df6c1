//! A sheet that was read.

ghost use Rattle.std.specs.Prelude.{◌≡◌, ◌<◌, ◌≤◌, [], List, MatchResult, IfOk, length, nat_eq, slice_index_or, Some};
ghost use Rattle.std.specs.List.{AllByRecursion, IsDistinct};
ghost use Rattle.std.specs.Option.{option_and_then};
ghost use Rattle.limit_tree.specs.declared.bounds.TheConstants.{MAX_LEAVES};
ghost use Rattle.limit_tree.specs.Outline.{limits};
ghost use Rattle.limit_tree.specs.declared.place.Place.{Place};
ghost use Rattle.memory_terms.specs.Lack.{Unless};
ghost use Rattle.sheet_text.specs.Paths.{Octets, names_of, place_of, same_path, text_of, written, IsPathText};
ghost use Rattle.sheet_text.specs.Kept.{IsNumbered, IsRead};
ghost use Rattle.sheet_text.specs.Sheet.{sheet_fault};
ghost use Rattle.sheet_text.specs.Text.{path};
ghost use Rattle.sheet_text.specs.Views.{IsSheetOf};

use crate::fault::SheetFault;
use crate::node::Nodes;
use crate::numbering::{leaf_places, number_places, numbers_at};
use crate::path::read_path;
use crate::read::{Reading, read_lines};
use limit_tree::Tree;
use std::alloc::{AllocError, Allocator, Global};
use std::marker::Model;

/// A sheet without a fault; its paths are slices of its text. Contracts see it as the nodes of its tree in preorder,
/// their paths, the paths of its leaves, and the leaf numbers of its wants in the order of their lines.
#[derive(Drop)]
pub struct Sheet<'t, A: Allocator = Global> {
    tree: Tree<A>,
    nodes: Nodes<'t, A>,
    /// The places of the tree's nodes, in preorder.
    order: Vec<usize, A>,
    /// The places of the leaves, in preorder.
    leaves: Vec<usize, A>,
    /// The number of each place's node.
    numbers: Vec<Option<u32>, A>,
    wants: Vec<usize, A>,
}

impl<'t, A: Allocator> Model for Sheet<'t, A> {
    ghost use Rattle.sheet_text.specs.Tree.{paths_to};
    ghost use Rattle.sheet_text.specs.Kept.{IsKept};
    ghost use Rattle.sheet_text.specs.Views.{SheetValue, IsSheet};

    ghost Value = { SheetValue };

    ghost view = { λ s. record {
      outline = s.tree;
      paths = paths_to s.nodes s.order.items;
      leaves = paths_to s.nodes s.leaves.items;
      wants = s.wants.items;
    } };

    ghost invariant = { λ s. IsSheet (record {
      outline = s.tree;
      paths = paths_to s.nodes s.order.items;
      leaves = paths_to s.nodes s.leaves.items;
      wants = s.wants.items;
    })
        × IsKept s.nodes s.order.items s.leaves.items s.numbers.items };
}

impl<'t, A: Allocator> Sheet<'t, A> {
    /// The tree of the sheet.
    pub fn tree(&self) -> &Tree<A>
        ensures tree { result.now ≡ self.now.outline }
        ensures leaves { length self.now.leaves ≡ length (limits self.now.outline).wants }
    {
        &self.tree
    }

    /// The path of a node as it is written, `/` for the root.
    pub fn path(&self, node: usize) -> &'t str
        requires node { node < length self.now.outline }
        ensures path { result.now ≡ written (slice_index_or self.now.paths node []) }
    {
        let path = self.nodes.path(self.order[node]);
        if path.is_empty() { "/" } else { path }
    }

    /// The path of a leaf.
    pub fn leaf_path(&self, leaf: usize) -> &'t str
        requires leaf { leaf < length self.now.leaves }
        ensures path { result.now ≡ text_of (slice_index_or self.now.leaves leaf []) }
    {
        self.nodes.path(self.leaves[leaf])
    }

    /// Returns whether a path is that of a leaf.
    pub fn is_leaf_path(&self, leaf: usize, path: &str) -> bool
        requires leaf { leaf < length self.now.leaves }
        requires text { IsPathText path.now }
        ensures same { result
            ≡ same_path (slice_index_or self.now.leaves leaf []) (names_of path.now) }
    {
        match self.nodes.place(path) {
            Some(place) => place == self.leaves[leaf],
            None => false,
        }
    }

    /// The leaf numbers of the wants, in the order of their lines.
    pub fn wants(&self) -> &[usize]
        ensures wants { result.now ≡ self.now.wants }
        ensures leaves { AllByRecursion (λ leaf. leaf < length self.now.leaves) self.now.wants }
        ensures all { length self.now.leaves ≡ length (limits self.now.outline).wants }
        ensures few { length self.now.wants ≤ MAX_LEAVES }
        ensures apart { IsDistinct nat_eq self.now.wants }
    {
        &self.wants
    }

    /// The number of the node of a path; the root's text is empty.
    pub fn node_at(&self, path: &str) -> Option<u32>
        requires text { IsPathText path.now }
        ensures node { result ≡ place_of self.now.paths (names_of path.now) }
    {
        let place = self.nodes.place(path)?;
        self.numbers[place]
    }

    /// The number of the node of a path as it is written, `/` for the root.
    pub fn node_of(&self, written: &str) -> Option<u32>
        ensures node { result ≡ option_and_then (place_of self.now.paths) (path written.now) }
    {
        let path = read_path(written.as_bytes())?;
        self.node_at(path)
    }
}

/// The leaves of a sheet and its numbers, as it keeps them.
#[derive(Drop)]
struct Numbered<A: Allocator> {
    leaves: Vec<usize, A>,
    numbers: Vec<Option<u32>, A>,
    wants: Vec<usize, A>,
}

/// Numbers the nodes of the tree over the nodes that lines mention, by their places in preorder, and the wants, by
/// theirs.
fn number_sheet<A: Allocator + Clone>(
    alloc: A,
    nodes: &Nodes<'_, A>,
    order: &[usize],
    places: &[usize],
) -> Result<Numbered<A>, AllocError>
    requires read { (text : Octets) × (outline : List Place)
        × IsRead text nodes.now outline order.now places.now }
    ensures numbered { IfOk result (λ kept. (text : Octets) (outline : List Place)
        → IsRead text nodes.now outline order.now places.now
        → IsNumbered text nodes.now outline order.now kept.leaves.items kept.numbers.items
        kept.wants.items) }
{
    let numbers = number_places(alloc.clone()?, order, nodes.len())?;
    let leaves = leaf_places(alloc.clone()?, nodes, order)?;
    let leaf_numbers = number_places(alloc.clone()?, &leaves, nodes.len())?;
    let wants = numbers_at(alloc, places, &leaf_numbers)?;
    Ok(Numbered {
        leaves,
        numbers,
        wants,
    })
}

impl<'t, A: Allocator + Clone> Sheet<'t, A> {
    /// The sheet of the nodes that lines mention, with their tree, the places of its nodes in preorder, and the places
    /// of the lines' wants.
    fn new(
        alloc: A,
        nodes: Nodes<'t, A>,
        tree: Tree<A>,
        order: Vec<usize, A>,
        places: &[usize],
    ) -> Result<Sheet<'t, A>, AllocError>
        requires read { (text : Octets) × IsRead text nodes tree order.items places.now }
        ensures sheet { IfOk result (λ sheet. (text : Octets)
            → IsRead text nodes.entry tree order.items places.now
            → IsSheetOf text sheet) }
    {
        let kept = number_sheet(alloc, &nodes, &order, places)?;
        Ok(Sheet {
            tree,
            nodes,
            order,
            leaves: kept.leaves,
            numbers: kept.numbers,
            wants: kept.wants,
        })
    }
}

/// Reads a sheet. `Err` is the fault of the first faulty line; if no line has one, that of the whole tree; or lack of
/// memory.
pub fn read_sheet<'t, A: Allocator + Clone>(
    alloc: A,
    text: &'t [u8],
) -> Result<Sheet<'t, A>, SheetFault>
    ensures read { MatchResult result (λ sheet. IsSheetOf text.now sheet)
        (Unless SheetFault.Memory (λ fault. sheet_fault text.now ≡ Some fault)) }
{
    let Reading {
        nodes,
        wants: places,
    } = read_lines(alloc.clone()?, text)?;
    let mut order = Vec::new(alloc.clone()?);
    let tree = nodes.whole_tree(&mut order)?;
    let sheet = Sheet::new(alloc, nodes, tree, order, &places)?;
    Ok(sheet)
}
