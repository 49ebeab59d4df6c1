//! The letters that decide at a path.

ghost use Rattle.std.specs.Prelude.{◌≡◌, ◌↔◌, ℕ, IsTrue, Some, MatchOption};
ghost use Rattle.std.specs.FinMap as map;
ghost use Rattle.authorizer.specs.declared.account.Rule.{Rule};
ghost use Rattle.authorizer.specs.Users.{Covers, IsCovered, IsDeepest, letters_at};
ghost use Rattle.authorizer.specs.Stored.{map_of, user_of};

use crate::account::{Account, Rule};
use crate::table::Rules;
use ftp_terms::Letters;
use std::alloc::Allocator;
use virtual_path::{VPath, parent_text};

fn covers(rule: &Rule, up: usize) -> bool
    ensures covers { IsTrue result ↔ Covers rule.now up }
{
    rule.recursive || up <= 1
}

/// The letters of the override of a path, if it covers entries `up` names beneath it.
fn covering<A: Allocator>(rules: &Rules<A>, text: &str, up: usize) -> Option<Letters>
    ensures covering { MatchOption result
        ((rule : Rule) → map.get (map_of (λ rule. rule) rules.now) text.now ≡ Some rule
        → Covers rule up → ⊥)
        (λ letters. (rule : Rule) × (map.get (map_of (λ rule. rule) rules.now) text.now ≡ Some rule)
        × Covers rule up × (letters ≡ rule.letters)) }
{
    let rule = rules.get(text)?;
    if covers(rule, up) {
        Some(rule.letters)
    } else {
        None
    }
}

/// The letters of the deepest override that covers a path, searched from the path up to the root.
fn deepest<A: Allocator, B: Allocator>(rules: &Rules<A>, path: &VPath<B>) -> Option<Letters>
    ensures deepest { MatchOption result
        ((up : ℕ) (rule : Rule) → IsCovered (map_of (λ rule. rule) rules.now) path.now up rule → ⊥)
        (λ letters. (up : ℕ) × (rule : Rule)
        × IsDeepest (map_of (λ rule. rule) rules.now) path.now up rule
        × (letters ≡ rule.letters)) }
{
    let mut text = path.text();
    let depth = path.depth();
    for up in 0..depth {
        if let Some(letters) = covering(rules, text, up) {
            return Some(letters);
        }
        text = parent_text(text)?;
    }
    covering(rules, text, depth)
}

/// The letters that decide for a user at a path.
pub(crate) fn letters_at<A: Allocator, B: Allocator>(
    account: &Account<A>,
    path: &VPath<B>,
) -> Letters
    ensures letters { result ≡ letters_at (user_of account.now) path.now }
{
    match deepest(&account.overrides, path) {
        Some(letters) => letters,
        None => account.letters,
    }
}
