//! The names that users of a server ever had, with their numbers.

ghost use Rattle.std.specs.Prelude.{◌≡◌, ◌++◌, IfOk, OnOk, map, string_bytes};
ghost use Rattle.config_change.specs.Past.{known_after, named_item, past_names, with_numbers};

use authorizer::Authorizer;
use std::alloc::{AllocError, Global};

/// A name, and the number that its user has or had.
#[derive(Drop)]
pub struct NumberedName {
    pub number: u32,
    pub name: String,
}

/// The names with the numbers of their users.
fn numbered(
    alloc: Global,
    users: &Authorizer,
    names: &[String],
) -> Result<Vec<NumberedName>, AllocError>
    ensures numbered { IfOk result (λ known. map named_item known.items
        ≡ with_numbers users.now (map string_bytes names.now)) }
{
    let mut known = Vec::new(alloc);
    for text in names {
        let Some(number) = users.number(text.as_str()) else {
            continue;
        };
        let name = String::from_str(alloc, text.as_str())?;
        known.push(NumberedName { number, name })?;
    }
    Ok(known)
}

/// Puts the known names that no user has at the end.
fn push_past(
    alloc: Global,
    known: &mut Vec<NumberedName>,
    users: &Authorizer,
    earlier: &[NumberedName],
) -> Result<(), AllocError>
    ensures pushed { OnOk result (map named_item known.new.items
        ≡ map named_item known.old.items ++ past_names users.now (map named_item earlier.now)) }
{
    for item in earlier {
        if users.has_user(item.name.as_str()) {
            continue;
        }
        let name = String::from_str(alloc, item.name.as_str())?;
        known.push(NumberedName {
            number: item.number,
            name,
        })?;
    }
    Ok(())
}

/// The names of users with their numbers, and the names that were known earlier and are no user's with theirs: so a name
/// keeps its number while a server runs.
pub fn known_names(
    alloc: Global,
    users: &Authorizer,
    earlier: &[NumberedName],
) -> Result<Vec<NumberedName>, AllocError>
    ensures known { IfOk result (λ known. map named_item known.items
        ≡ known_after users.now (map named_item earlier.now)) }
{
    let names = users.names(alloc)?;
    let mut known = numbered(alloc, users, &names)?;
    push_past(alloc, &mut known, users, earlier)?;
    Ok(known)
}
