//! The key that somebody may have meant.

ghost use Rattle.std.specs.Prelude.{◌≡◌, ◌∷◌, IfOk, IfSome, length, nat_eq, option_copied, string_bytes};
ghost use Rattle.std.specs.List.{ends_with};
ghost use Rattle.std.specs.Str.{chars};
ghost use Rattle.config_file.specs.Seen.{rows_of};
ghost use Rattle.config_file.specs.Tables.{table_rows};
ghost use Rattle.server_config.specs.Similar.{edits, first_with, IsHint, IsNear};

use config_file::{Row, TableName, rows_of};
use std::alloc::{AllocError, Global};
use strsim::levenshtein;

/// Maximum number of mistyped letters of a key to which another is similar.
const MOST_EDITS: usize = 2;

/// Number of letters of a key.
fn letters_of(key: &str) -> usize
    ensures { result ≡ length (chars key.now) }
{
    key.chars().count()
}

/// Number of letters to change, insert or remove so that one key becomes another, if these are few: fewer than the key
/// has, and at most two.
fn edits_between(alloc: Global, key: &str, other: &str) -> Result<Option<usize>, AllocError>
    ensures edits { IfOk result (λ found. IfSome found (λ count. count ≡ edits key.now other.now)) }
    ensures near { IfOk result (λ found. IfSome found (λ _. IsNear key.now other.now)) }
{
    let letters = letters_of(key);
    if letters > other.len() + MOST_EDITS {
        return Ok(None);
    }
    let edits = levenshtein(alloc, key, other)?;
    if edits == 0 || edits > MOST_EDITS || edits >= letters {
        return Ok(None);
    }
    Ok(Some(edits))
}

/// The first of the keys of a table that becomes a key by the fewest letters.
fn near_to(alloc: Global, table: TableName, key: &str) -> Result<Option<&'static str>, AllocError>
    ensures near { IfOk result (λ found. IfSome (option_copied found) (IsNear key.now)) }
{
    let mut found = None;
    let mut least = MOST_EDITS + 1;
    for row in rows_of(table) {
        if let Some(edits) = edits_between(alloc, key, row.0)? {
            if edits < least {
                least = edits;
                found = Some(row.0);
            }
        }
    }
    Ok(found)
}

/// Returns whether a key has an end.
#[tactic(auto, using(std::proofs::lemmas::Str::Pattern::ends_text))]
fn has_end(key: &str, end: &str) -> bool
    ensures { result ≡ ends_with nat_eq key.now end.now }
{
    key.ends_with(end)
}

/// The first of the keys of rows with an end.
fn first_with(rows: &'static [Row<'static>], end: &str) -> Option<&'static str>
    ensures first { option_copied result ≡ first_with end.now (rows_of rows.now) }
{
    for row in rows {
        if has_end(row.0, end) {
            return Some(row.0);
        }
    }
    None
}

/// A key after an underscore, as keys of several words end.
fn end_of(alloc: Global, key: &str) -> Result<String, AllocError>
    ensures end { IfOk result (λ end. string_bytes end ≡ 95 ∷ key.now) }
{
    let mut end = String::new(alloc);
    end.push('_')?;
    end.push_str(key)?;
    Ok(end)
}

/// The key of a table that is similar to one which it may not have: the first whose last words this is, as
/// `down_rate` is of `rate`; if there is none, the first that becomes it by the fewest letters.
pub(crate) fn similar_to(
    alloc: Global,
    table: TableName,
    key: &str,
) -> Result<Option<&'static str>, AllocError>
    ensures hint { IfOk result (λ found. IsHint key.now (table_rows table) (option_copied found)) }
{
    let end = end_of(alloc, key)?;
    match first_with(rows_of(table), end.as_str()) {
        Some(other) => Ok(Some(other)),
        None => near_to(alloc, table, key),
    }
}
