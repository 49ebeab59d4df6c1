//! The plan as JSON.

ghost use Rattle.std.specs.Prelude.{◌≡◌, ◌++◌, ◌∷◌, [], ℕ, List, Some, IfOk, length, map, string_bytes};
ghost use Rattle.serde_json.specs.Data.{Data, array, depth};
ghost use Rattle.serde_json.specs.Read.{read};
ghost use Rattle.serde_json.specs.View.{items_of, view};
ghost use Rattle.plan_report.specs.PlanData.{AreRows, alike, held_text, number_after, plan_data, rate_data, share_data};

use crate::lines::{Named, user_name, way_text, write_held};
use crate::parts::total_of;
use config_file::ServerTable;
use line_rates::{Ask, Name, Way};
use rate_plan::TransferShare;
use serde_json::{Value, json};
use std::alloc::{AllocError, Global};

/// A rate, or null for none.
fn rate_value(rate: u64) -> Value
    ensures rate { view result ≡ rate_data rate }
{
    if rate == 0 {
        Value::Null
    } else {
        Value::from(rate)
    }
}

/// The limit that holds a transfer back, as in the lines of a plan.
fn held_by(alloc: Global, named: Named<'_, '_>, held: Option<Name>) -> Result<String, AllocError>
    ensures held { IfOk result (λ text. string_bytes text
        ≡ held_text named.entry.groups.now named.entry.users.now held) }
{
    let mut text = String::new(alloc);
    write_held(&mut text, named, held)?;
    Ok(text)
}

/// The number of a transfer among those of its user and direction, from 1, given the shares before it.
fn number_after(before: &[TransferShare], ask: Ask) -> u64
    ensures number { result ≡ number_after before.now ask }
{
    let mut number: u64 = 1;
    for share in before {
        if ask.user == share.ask.user && ask.way == share.ask.way {
            number += 1;
        }
    }
    number
}

/// The row of a transfer, given the shares before it.
fn share_value(
    alloc: Global,
    named: Named<'_, '_>,
    before: &[TransferShare],
    share: &TransferShare,
) -> Result<Value, AllocError>
    ensures row { IfOk result (λ v. view v
        ≡ share_data named.entry.groups.now named.entry.users.now before.now share.now) }
{
    let held = held_by(alloc, named, share.held)?;
    json!(in alloc; {
        "direction": way_text(share.ask.way),
        "guaranteed": rate_value(share.floor),
        "held_by": held,
        "number": number_after(before, share.ask),
        "octets": share.grant,
        "user": user_name(named, share.ask.user)
    })
}

/// The rows of shares, in their order.
fn rows_of(
    alloc: Global,
    named: Named<'_, '_>,
    shares: &[TransferShare],
) -> Result<Vec<Value>, AllocError>
    ensures rows { IfOk result (λ rows.
        AreRows named.entry.groups.now named.entry.users.now shares.now (map view rows.items)) }
{
    let mut rows = Vec::with_capacity(alloc, shares.len())?;
    for place in 0..shares.len() {
        rows.push(share_value(alloc, named, &shares[..place], &shares[place])?)?;
    }
    Ok(rows)
}

/// The plan with the rows of its transfers.
fn plan_value(
    alloc: Global,
    server: &ServerTable<'_>,
    shares: &[TransferShare],
    transfers: Value,
) -> Result<Value, AllocError>
    ensures plan { IfOk result
        (λ v. view v ≡ plan_data server.now shares.now (view transfers)) }
{
    let down = total_of(shares, Way::Down);
    let up = total_of(shares, Way::Up);
    let both = down.saturating_add(up);
    json!(in alloc; {
        "limits": {
            "both": rate_value(server.rate),
            "down": rate_value(server.down_rate),
            "up": rate_value(server.up_rate)
        },
        "totals": {"both": both, "down": down, "up": up},
        "transfers": transfers,
        "unit": "octets a second",
        "version": 1u64
    })
}

/// The plan as a text of JSON and a line feed.
pub(crate) fn json_text(
    alloc: Global,
    named: Named<'_, '_>,
    shares: &[TransferShare],
) -> Result<String, AllocError>
    ensures text { IfOk result (λ text. (json : List ℕ) × (rows : List Data)
        × (string_bytes text ≡ json ++ 10 ∷ [])
        × AreRows named.entry.groups.now named.entry.users.now shares.now rows
        × (read json
        ≡ Some (plan_data named.entry.server.now shares.now (array (items_of rows))))) }
{
    let rows = rows_of(alloc, named, shares)?;
    let plan = plan_value(alloc, named.server, shares, Value::Array(rows))?;
    let mut text = plan.to_string(alloc)?;
    text.push('\n')?;
    Ok(text)
}
