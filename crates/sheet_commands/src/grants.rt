//! Reading a grants file beside its sheet.

ghost use Rattle.std.specs.Prelude.{◌≡◌, ◌<◌, ◌++◌, List, IfOk, IfSome, MatchResult, None, Some, filter_map, length, map, nat_eq, replicate, true, false};
ghost use Rattle.std.specs.List.{position_from};
ghost use Rattle.limit_tree.specs.declared.bounds.TheConstants.{MAX_LEAVES};
ghost use Rattle.sheet_commands.specs.Grants.{entries_in, grant_fault, grants_fault, grant_lines, grants_in, grants_line_fault, line_grants, named_node, names_no_node};
ghost use Rattle.sheet_text.specs.Text.{GrantLine};
ghost use Rattle.std.specs.Str.Lines.{lines};
ghost use Rattle.memory_terms.specs.Lack.{Unless};
ghost use Rattle.sheet_text.specs.Paths.{Octets, IsPathText};
ghost use Rattle.sheet_commands.specs.Slots.{Filled, given_by};
ghost use Rattle.sheet_text.specs.LineViews.{ArePathTexts, grant_view, name_view};
ghost use Rattle.sheet_text.specs.Views.{IsSheetOf};

use crate::grants_fault::GrantsFault;
use grant_certificate::Certificate;
use sheet_text::{GrantsLine, Sheet, cut_line, hint_of, is_skipped, read_grant};
use std::alloc::{AllocError, Allocator};

/// The grant of a leaf, with the number of the named node.
#[derive(Clone, Copy)]
struct Given {
    octets: u64,
    node: Option<u32>,
}

/// Number of lines read so far, and their grants by leaf.
#[derive(Drop)]
struct Slots<A: Allocator> {
    lines: usize,
    slots: Vec<Option<Given>, A>,
}

/// The number of the node that a line names, if any.
fn find_node<A: Allocator>(
    sheet: &Sheet<'_, A>,
    number: usize,
    name: Option<&str>,
) -> Result<Option<u32>, GrantsFault>
    requires text { IfSome name (λ name. IsPathText name.now) }
    ensures found { MatchResult result
        (λ node. (names_no_node sheet.now (name_view name.entry) ≡ false)
        × (node ≡ named_node sheet.now (name_view name.entry)))
        (λ fault. (names_no_node sheet.now (name_view name.entry) ≡ true)
        × (fault ≡ GrantsFault.NoSuchNode number)) }
{
    let Some(path) = name else {
        return Ok(None);
    };
    match sheet.node_at(path) {
        Some(node) => Ok(Some(node)),
        None => Err(GrantsFault::NoSuchNode(number)),
    }
}

/// The grant of a line for the want at a place in the order of the sheet, and the number of its leaf.
fn judge<A: Allocator>(
    sheet: &Sheet<'_, A>,
    place: usize,
    number: usize,
    line: GrantsLine<'_>,
) -> Result<(usize, Given), GrantsFault>
    requires texts { ArePathTexts line }
    ensures judged { MatchResult result
        (λ r. (grant_fault sheet.now place number (grant_view line.entry) ≡ None)
        × (r.1 ≡ given_by sheet.now (grant_view line.entry)))
        (λ fault. grant_fault sheet.now place number (grant_view line.entry) ≡ Some fault) }
    ensures leaf { IfOk result (λ r. (position_from (nat_eq r.0) 0 sheet.now.wants ≡ Some place)
        × (r.0 < length sheet.now.leaves)) }
    ensures place { IfOk result (λ r. place < MAX_LEAVES) }
{
    let Some(leaf) = sheet.wants().get(place) else {
        return Err(GrantsFault::WrongPath(number));
    };
    if !sheet.is_leaf_path(*leaf, line.path) {
        return Err(GrantsFault::WrongPath(number));
    }
    let node = find_node(sheet, number, line.node)?;
    let given = Given {
        octets: line.octets,
        node,
    };
    Ok((*leaf, given))
}

impl<A: Allocator + Clone> Slots<A> {
    fn new(alloc: A, leaves: usize) -> Result<Slots<A>, AllocError>
        ensures new { IfOk result (λ slots. (slots.lines ≡ 0)
            × (slots.slots.items ≡ replicate leaves None)) }
    {
        Ok(Slots {
            lines: 0,
            slots: vec![in alloc; None; leaves]?,
        })
    }

    /// Reads one line.
    fn read_line(
        &mut self,
        sheet: &Sheet<'_, A>,
        number: usize,
        line: &[u8],
    ) -> Result<(), GrantsFault>
        requires slots { length self.old.slots.items ≡ length sheet.now.leaves }
        ensures read { MatchResult result
            (λ _. (lines : List GrantLine) → Filled sheet.now self.old lines
            → (grants_line_fault sheet.now (length lines) number line.now ≡ None)
            × Filled sheet.now self.new (lines ++ line_grants line.now))
            (λ fault. (lines : List GrantLine) → Filled sheet.now self.old lines
            → grants_line_fault sheet.now (length lines) number line.now ≡ Some fault) }
    {
        if is_skipped(line) {
            return Ok(());
        }
        let Some(grant) = read_grant(line) else {
            return Err(GrantsFault::BadLine(number, hint_of(line)));
        };
        let (leaf, given) = judge(sheet, self.lines, number, grant)?;
        self.slots[leaf] = Some(given);
        self.lines += 1;
        Ok(())
    }

    /// The octets and the named nodes of the leaves with a line.
    fn lists(&self, alloc: A) -> Result<(Vec<u64, A>, Certificate<A>), AllocError>
        ensures grants { IfOk result
            (λ lists. lists.0.items
            ≡ map (λ given. given.octets) (filter_map (λ slot. slot) self.now.slots.items)) }
        ensures entries { IfOk result
            (λ lists. lists.1 ≡ map (λ given. given.node)
            (filter_map (λ slot. slot) self.now.slots.items)) }
    {
        let mut grants = Vec::new(alloc.clone()?);
        let mut entries = Vec::new(alloc);
        for slot in &self.slots {
            if let Some(given) = slot {
                grants.push(given.octets)?;
                entries.push(given.node)?;
            }
        }
        Ok((grants, Certificate::new(entries)))
    }
}

/// Reads a grants file: the grants of the leaves, and the nodes that are named for them, by leaf number. The lines are
/// in the order of the sheet's wants. A leaf whose line is missing is left out of both lists, so they have
/// an entry for each leaf exactly if no line is missing.
pub fn read_grants<A: Allocator + Clone>(
    alloc: A,
    text: &[u8],
    sheet: &Sheet<'_, A>,
) -> Result<(Vec<u64, A>, Certificate<A>), GrantsFault>
    ensures read { MatchResult result
        (λ lists. (grants_fault sheet.now text.now ≡ None)
        × (lists.0.items ≡ grants_in sheet.now text.now)
        × (lists.1 ≡ entries_in sheet.now text.now))
        (Unless GrantsFault.Memory (λ fault. grants_fault sheet.now text.now ≡ Some fault)) }
    ensures full { IfOk result (λ lists. (source : Octets) → IsSheetOf source sheet.now
        → length (grant_lines (lines text.now)) ≡ length sheet.now.wants
        → length lists.0.items ≡ length sheet.now.leaves) }
    ensures short { IfOk result (λ lists. (source : Octets) → IsSheetOf source sheet.now
        → length (grant_lines (lines text.now)) < length sheet.now.wants
        → length lists.0.items < length sheet.now.leaves) }
{
    let mut slots = Slots::new(alloc.clone()?, sheet.tree().leaves())?;
    let mut number = 0;
    let mut rest = text;
    'lines: while !rest.is_empty() {
        let (line, behind) = cut_line(rest);
        number += 1;
        slots.read_line(sheet, number, line)?;
        rest = behind;
    }
    let lists = slots.lists(alloc)?;
    Ok(lists)
}
