//! The way of sharing that words state.

ghost use Rattle.std.specs.Prelude.{◌≡◌, None, IfErr, IfOk, IfSome, codes, string_bytes};
ghost use Rattle.clap.specs.Words.{found_of, rows_of};
ghost use Rattle.command_line.specs.Ways.{IsUnknownWayIn, IsWayIn, IsWayRefusal, way_name, way_refusal};
ghost use Rattle.line_rates.specs.declared.share_by.ShareBy.{ShareBy};

use crate::numbers::refusal_head;
use crate::words::{WordsFault, word_of};
use clap::ArgMatches;
use line_rates::ShareBy;
use std::alloc::{AllocError, Global};

/// The way of that name.
fn way_named(name: &str) -> Option<ShareBy>
    ensures some { IfSome result (λ way. name.now ≡ way_name way) }
    ensures none { result ≡ None → (way : ShareBy) → name.now ≡ way_name way → ⊥ }
{
    match name {
        "sessions" => Some(ShareBy::Sessions),
        "users" => Some(ShareBy::Users),
        _ => None,
    }
}

fn refusal_text(alloc: Global, name: &str) -> Result<String, AllocError>
    ensures text { IfOk result (λ text. string_bytes text ≡ way_refusal name.now) }
{
    let mut text = refusal_head(alloc, "share-by", name, "WAY", "sessions or users")?;
    text.push_str("\n\nFor more information, try '--help'.\n")?;
    Ok(text)
}

/// The refusal of a name of no way.
fn refusal(alloc: Global, name: &str) -> WordsFault
    ensures refusal { IsWayRefusal name.now result }
{
    match refusal_text(alloc, name) {
        Ok(text) => WordsFault::Refused {
            text,
            is_help: false,
        },
        Err(_) => WordsFault::Memory,
    }
}

/// The way of sharing that the arguments of a command state: sessions, if they state none.
pub(crate) fn way_of(alloc: Global, inner: &ArgMatches<'_>) -> Result<ShareBy, WordsFault>
    ensures way { IfOk result (IsWayIn (rows_of (found_of inner.now))) }
    ensures refused { IfErr result (IsUnknownWayIn (rows_of (found_of inner.now))) }
{
    let Some(name) = word_of(inner, "share-by") else {
        return Ok(ShareBy::Sessions);
    };
    match way_named(name) {
        Some(way) => Ok(way),
        None => Err(refusal(alloc, name)),
    }
}
