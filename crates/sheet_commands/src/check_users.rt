//! Checking grants among the users of a depth.

ghost use Rattle.std.specs.Prelude.{◌≡◌, ◌≢◌, List, ℕ, IfErr, IfOk, string_bytes};
ghost use Rattle.limit_tree.specs.Outline.{limits};
ghost use Rattle.limit_tree.specs.Sharing.{IsWithin};
ghost use Rattle.sheet_text.specs.Views.{IsSheetOf};
ghost use Rattle.sheet_commands.specs.Checking.{IsGrantsFaultOf};
ghost use Rattle.sheet_commands.specs.CheckUsers.{IsCheckAt, IsJudgedAt, IsVerdictAt};

use crate::grants::read_grants;
use crate::grants_fault::GrantsFault;
use crate::sheet_verdict::{SheetVerdict, limit_flaw, sheet_verdict_line};
use depth_users::owners_at;
use grant_certificate::{Certificate, check, check_by_users, deepest_is_backed};
use limit_tree::{Flat, Tree};
use round_allocator::deepest_entries;
use sheet_text::Sheet;
use std::alloc::{AllocError, Allocator};

/// A verdict on the grants of a sheet, and its line.
#[derive(Drop)]
pub struct Judged<A: Allocator> {
    pub verdict: SheetVerdict,
    pub line: String<A>,
}

/// Returns whether grants within the limits are backed among the users of a depth by their deepest full branches, and so
/// by any certificate, and therefore best.
fn are_best<A: Allocator, B: Allocator + Clone>(
    alloc: B,
    tree: &Tree<A>,
    grants: &[u64],
    depth: usize,
) -> Result<bool, AllocError>
    requires within { IsWithin (limits tree.now) grants.now }
    ensures judged { IfOk result (IsJudgedAt tree.now depth grants.now) }
{
    deepest_is_backed();
    let _leaves = tree.leaves();
    let owners = owners_at(alloc.clone()?, tree, depth)?;
    let flat = Flat::of(alloc.clone()?, tree)?;
    let certificate = deepest_entries(alloc, &flat, grants)?;
    let best = check_by_users(tree, &owners, grants, &certificate);
    Ok(best)
}

/// The verdict on grants among the users of a depth. The certificate counts only if it has another length.
fn ruled<A: Allocator, B: Allocator + Clone>(
    alloc: B,
    tree: &Tree<A>,
    grants: &[u64],
    certificate: &Certificate<B>,
    depth: usize,
) -> Result<SheetVerdict, AllocError>
    ensures judged { IfOk result (IsVerdictAt tree.now depth grants.now certificate.now) }
{
    if let Some(flaw) = limit_flaw(check(tree, grants, certificate)) {
        return Ok(SheetVerdict::No(flaw));
    }
    if are_best(alloc, tree, grants, depth)? {
        Ok(SheetVerdict::Yes)
    } else {
        Ok(SheetVerdict::NotBestByUsers)
    }
}

/// The verdict on the grants of a text within the limits of a sheet, among the users of a depth: `yes` if they are within
/// the limits and some certificate backs them among these users, and so best among them and then among the wants of
/// each; otherwise `no` with the first flaw. The nodes that the text names are not used.
pub fn verdict_at<A: Allocator + Clone>(
    alloc: A,
    sheet: &Sheet<'_, A>,
    text: &[u8],
    depth: usize,
) -> Result<Judged<A>, GrantsFault>
    ensures checked { IfOk result (λ judged. (source : List ℕ) → IsSheetOf source sheet.now
        → IsCheckAt depth source text.now judged.verdict (string_bytes judged.line)) }
    ensures grants { IfErr result (λ fault. fault ≢ GrantsFault.Memory
        → (source : List ℕ) → IsSheetOf source sheet.now → IsGrantsFaultOf source text.now fault) }
{
    let (grants, certificate) = read_grants(alloc.clone()?, text, sheet)?;
    let verdict = ruled(alloc.clone()?, sheet.tree(), &grants, &certificate, depth)?;
    let line = sheet_verdict_line(alloc, sheet, &grants, verdict)?;
    Ok(Judged { verdict, line })
}
