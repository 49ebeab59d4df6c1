//! Verdicts on the grants of a sheet, among users or without.

ghost use Rattle.std.specs.Prelude.{◌≡◌, ◌<◌, IfOk, IfSome, None, false, length, string_bytes, true};
ghost use Rattle.grant_certificate.specs.UserRanges.{tells_within};
ghost use Rattle.grant_certificate.specs.declared.flaw.Flaw.{Flaw};
ghost use Rattle.grant_certificate.specs.declared.flaw.Verdict.TheVariants as told;
ghost use Rattle.limit_tree.specs.Outline.{limits};
ghost use Rattle.sheet_commands.specs.Checking.{IsThere};
ghost use Rattle.sheet_commands.specs.CheckUsers.{plain, sheet_verdict_text};
ghost use Rattle.sheet_commands.specs.declared.sheet_verdict.SheetVerdict.TheVariants.{No};

use crate::verdict::verdict_line;
use grant_certificate::{Flaw, Verdict};
use sheet_text::Sheet;
use std::alloc::{AllocError, Allocator};

/// The verdict on the grants of a sheet.
#[derive(Clone, Copy, Debug, PartialEq, Eq)]
pub enum SheetVerdict {
    /// The grants are best within the limits: among users first, if the sheet is checked so.
    Yes,
    /// The first flaw.
    No(Flaw),
    /// The grants are within the limits, and no certificate backs them among users.
    NotBestByUsers,
}

/// The verdict on the grants of a sheet without users.
pub(crate) fn plain(verdict: Verdict) -> SheetVerdict
    ensures plain { result ≡ plain verdict }
{
    match verdict {
        Verdict::Yes => SheetVerdict::Yes,
        Verdict::No(flaw) => SheetVerdict::No(flaw),
    }
}

/// The flaw of a verdict, if it is one of grants that are not within the limits.
pub(crate) fn limit_flaw(verdict: Verdict) -> Option<Flaw>
    ensures some { IfSome result
        (λ flaw. (verdict ≡ told.No flaw) × (tells_within verdict ≡ false)) }
    ensures none { result ≡ None → tells_within verdict ≡ true }
{
    match verdict {
        Verdict::Yes => None,
        Verdict::No(flaw) => match flaw {
            Flaw::WrongLength
            | Flaw::OverWant { .. }
            | Flaw::UnderFloor { .. }
            | Flaw::OverLimit { .. } => Some(flaw),
            _ => None,
        },
    }
}

/// The line of a verdict, as that of a verdict without users; `no` with a flaw of its own if the grants are not best
/// among users.
pub(crate) fn sheet_verdict_line<A: Allocator, B: Allocator>(
    alloc: B,
    sheet: &Sheet<'_, A>,
    grants: &[u64],
    verdict: SheetVerdict,
) -> Result<String<B>, AllocError>
    requires there { (flaw : Flaw) → verdict ≡ No flaw → IsThere sheet.now grants.now flaw }
    requires leaves { length sheet.now.leaves ≡ length (limits sheet.now.outline).wants }
    ensures line { IfOk result
        (λ text. string_bytes text ≡ sheet_verdict_text sheet.now grants.now verdict) }
{
    match verdict {
        SheetVerdict::Yes => verdict_line(alloc, sheet, grants, Verdict::Yes),
        SheetVerdict::No(flaw) => verdict_line(alloc, sheet, grants, Verdict::No(flaw)),
        SheetVerdict::NotBestByUsers => String::from_str(alloc, "no 9 NotBestByUsers\n"),
    }
}
