//! The line of a verdict.

ghost use Rattle.std.specs.Prelude.{◌≡◌, ◌<◌, ◌++◌, IfOk, OnOk, codes, length, string_bytes};
ghost use Rattle.grant_certificate.specs.declared.flaw.Flaw.{Flaw};
ghost use Rattle.grant_certificate.specs.declared.flaw.Flaw.TheVariants.{OverLimit};
ghost use Rattle.grant_certificate.specs.declared.flaw.Verdict.TheVariants.{No};
ghost use Rattle.limit_tree.specs.Sharing.{IsWanted};
ghost use Rattle.limit_tree.specs.Outline.{limits};
ghost use Rattle.sheet_commands.specs.Checking.{IsThere, flaw_words, number_word, verdict_text};

use grant_certificate::{Flaw, Verdict};
use sheet_text::Sheet;
use std::alloc::{AllocError, Allocator};

/// Writes the name of a flaw, a path, its octets, and the most or the least that it may have.
fn push_numbers<B: Allocator>(
    text: &mut String<B>,
    name: &str,
    path: &str,
    octets: u64,
    bound: u64,
) -> Result<(), AllocError>
    ensures words { OnOk result
        (string_bytes text.new ≡ string_bytes text.old
        ++ (name.now ++ (codes " " ++ path.now) ++ number_word octets ++ number_word bound)) }
{
    write!(text, "{name} {path} {octets} {bound}")
}

/// Writes the name of a flaw and two paths.
fn push_paths<B: Allocator>(
    text: &mut String<B>,
    name: &str,
    leaf: &str,
    node: &str,
) -> Result<(), AllocError>
    ensures words { OnOk result
        (string_bytes text.new ≡ string_bytes text.old
        ++ (name.now ++ (codes " " ++ leaf.now) ++ (codes " " ++ node.now))) }
{
    write!(text, "{name} {leaf} {node}")
}

/// Writes that a leaf has too much in comparison with another.
fn push_too_great<B: Allocator>(
    text: &mut String<B>,
    leaf: &str,
    octets: u64,
    other: &str,
    less: u64,
) -> Result<(), AllocError>
    ensures words { OnOk result
        (string_bytes text.new ≡ string_bytes text.old
        ++ (codes "7 TooGreat" ++ (codes " " ++ leaf.now) ++ number_word octets
        ++ (codes " " ++ other.now) ++ number_word less)) }
{
    write!(text, "7 TooGreat {leaf} {octets} {other} {less}")
}

/// Writes that a node has more than its limit.
fn push_over_limit<A: Allocator, B: Allocator>(
    text: &mut String<B>,
    sheet: &Sheet<'_, A>,
    grants: &[u64],
    node: usize,
) -> Result<(), AllocError>
    requires node { node < length sheet.now.outline }
    requires wanted { IsWanted (limits sheet.now.outline) grants.now }
    ensures words { OnOk result
        (string_bytes text.new
        ≡ string_bytes text.old ++ flaw_words sheet.now grants.now (OverLimit node)) }
{
    let sum = sheet.tree().sum_under(node, grants);
    let limit = sheet.tree().limit(node).unwrap_or(0);
    push_numbers(text, "3 OverLimit", sheet.path(node), sum, limit)
}

/// Writes the number of a flaw, its name and its fields.
fn push_flaw<A: Allocator, B: Allocator>(
    text: &mut String<B>,
    sheet: &Sheet<'_, A>,
    grants: &[u64],
    flaw: Flaw,
) -> Result<(), AllocError>
    requires there { IsThere sheet.now grants.now flaw }
    requires leaves { length sheet.now.leaves ≡ length (limits sheet.now.outline).wants }
    ensures words { OnOk result
        (string_bytes text.new ≡ string_bytes text.old ++ flaw_words sheet.now grants.now flaw) }
{
    match flaw {
        Flaw::WrongLength => write!(text, "1 WrongLength"),
        Flaw::OverWant { leaf } => {
            let want = sheet.tree().want(leaf);
            push_numbers(
                text,
                "2 OverWant",
                sheet.leaf_path(leaf),
                grants[leaf],
                want,
            )
        }
        Flaw::OverLimit { node } => push_over_limit(text, sheet, grants, node),
        Flaw::NoNode { leaf } => write!(text, "4 NoNode {}", sheet.leaf_path(leaf)),
        Flaw::NotAbove { leaf, node } => {
            push_paths(text, "5 NotAbove", sheet.leaf_path(leaf), sheet.path(node))
        }
        Flaw::NotFull { leaf, node } => {
            push_paths(text, "6 NotFull", sheet.leaf_path(leaf), sheet.path(node))
        }
        Flaw::TooGreat { leaf, other } => {
            let path = sheet.leaf_path(leaf);
            push_too_great(
                text,
                path,
                grants[leaf],
                sheet.leaf_path(other),
                grants[other],
            )
        }
        Flaw::UnderFloor { leaf } => {
            let floor = sheet.tree().floor(leaf);
            push_numbers(
                text,
                "8 UnderFloor",
                sheet.leaf_path(leaf),
                grants[leaf],
                floor,
            )
        }
    }
}

/// The line of a verdict: `yes`, or `no` with the number of the flaw, its name and its fields.
pub(crate) fn verdict_line<A: Allocator, B: Allocator>(
    alloc: B,
    sheet: &Sheet<'_, A>,
    grants: &[u64],
    verdict: Verdict,
) -> Result<String<B>, AllocError>
    requires there { (flaw : Flaw) → verdict ≡ No flaw → IsThere sheet.now grants.now flaw }
    requires leaves { length sheet.now.leaves ≡ length (limits sheet.now.outline).wants }
    ensures line { IfOk result
        (λ text. string_bytes text ≡ verdict_text sheet.now grants.now verdict) }
{
    let mut text = String::new(alloc);
    match verdict {
        Verdict::Yes => text.push_str("yes")?,
        Verdict::No(flaw) => {
            text.push_str("no ")?;
            push_flaw(&mut text, sheet, grants, flaw)?;
        }
    }
    text.push('\n')?;
    Ok(text)
}
