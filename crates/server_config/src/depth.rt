//! The depth of a document.

ghost use Rattle.std.specs.Prelude.{◌≡◌, nat_le};
ghost use Rattle.toml.specs.Data.{depth, items_depth, members_depth};
ghost use Rattle.toml.specs.View.{view, array_view, table_view};

use toml::value::Array;
use toml::{Table, Value};

/// Returns whether the arrays and tables of a value nest at most `depth` levels.
#[cycle(depth)]
fn is_within(value: &Value, levels: usize) -> bool
    ensures within { result ≡ nat_le (depth (view value.now)) levels }
{
    match value {
        Value::Array(array) => levels > 0 && are_within(array, levels - 1),
        Value::Table(table) => levels > 0 && table_within(table, levels - 1),
        _ => true,
    }
}

#[cycle(depth)]
fn are_within(array: &Array, levels: usize) -> bool
    ensures within { result ≡ nat_le (items_depth (array_view array.now)) levels }
{
    'items: for item in array {
        if !is_within(item, levels) {
            return false;
        }
    }
    true
}

/// Returns whether those of a document do.
#[cycle(depth)]
pub(crate) fn table_within(table: &Table, levels: usize) -> bool
    ensures within { result ≡ nat_le (members_depth (table_view table.now)) levels }
{
    'members: for (_key, member) in table.iter() {
        if !is_within(member, levels) {
            return false;
        }
    }
    true
}
