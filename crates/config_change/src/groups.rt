//! The numbers of groups by their names.

ghost use Rattle.std.specs.Prelude.{◌≡◌, ◌<◌, ◌≤◌, ◌^◌, IfOk, IfSome, length, map, string_bytes, unwrap_or};
ghost use Rattle.config_change.specs.Named.{place_in, merged, places_in};

use std::alloc::{AllocError, Global};

/// The place of a name among names.
fn place_of(names: &[String], name: &str) -> Option<usize>
    ensures place { result ≡ place_in (map string_bytes names.now) name.now }
    ensures within { IfSome result (λ place. place < length names.now) }
{
    for (index, other) in names.iter().enumerate() {
        if other.as_str() == name {
            return Some(index);
        }
    }
    None
}

fn copied(alloc: Global, names: &[String]) -> Result<Vec<String>, AllocError>
    ensures copied { IfOk result
        (λ copy. map string_bytes copy.items ≡ map string_bytes names.now) }
{
    let mut copy = Vec::new(alloc);
    for name in names {
        copy.push(String::from_str(alloc, name.as_str())?)?;
    }
    Ok(copy)
}

/// The old names, and after them the names that are not among them.
pub(crate) fn merged_names(
    alloc: Global,
    old: &[String],
    names: &[String],
) -> Result<Vec<String>, AllocError>
    ensures merged { IfOk result (λ all. map string_bytes all.items
        ≡ merged (map string_bytes old.now) (map string_bytes names.now)) }
{
    let mut all = copied(alloc, old)?;
    for name in names {
        if place_of(old, name.as_str()).is_some() {
            continue;
        }
        all.push(String::from_str(alloc, name.as_str())?)?;
    }
    Ok(all)
}

fn number_of(all: &[String], name: &str) -> u32
    requires few { length all.now ≤ 2 ^ 32 }
    ensures number { result ≡ unwrap_or (place_in (map string_bytes all.now) name.now) 0 }
{
    match place_of(all, name) {
        Some(place) => place as u32,
        None => 0,
    }
}

/// The numbers of names: their places among all names.
pub(crate) fn numbers_of(
    alloc: Global,
    all: &[String],
    names: &[String],
) -> Result<Vec<u32>, AllocError>
    requires few { length all.now ≤ 2 ^ 32 }
    ensures numbers { IfOk result (λ numbers. numbers.items
        ≡ places_in (map string_bytes all.now) (map string_bytes names.now)) }
{
    let mut numbers = Vec::new(alloc);
    for name in names {
        numbers.push(number_of(all, name.as_str()))?;
    }
    Ok(numbers)
}
