//! The transfers that a word states, as `ann=1,bob:up=2`.

ghost use Rattle.std.specs.Prelude.{IfErr};
ghost use Rattle.plan_report.specs.Reports.{IsNoPlanOf};

use crate::fault::NoPlan;
use config_file::UserTable;
use line_rates::Way;
use rate_plan::Transfer;
use std::alloc::{AllocError, Global};

/// Most transfers that a word may state: no configuration has more connections.
pub const MAX_STATED: usize = 512;

/// The transfers of a user one way.
#[derive(Clone, Copy)]
struct Wish {
    user: u32,
    way: Way,
    count: usize,
}

fn user_of(users: &[UserTable<'_>], name: &str) -> Option<u32> {
    for place in 0..users.len() {
        if users[place].name == name {
            return u32::try_from(place).ok();
        }
    }
    None
}

fn count_of(digits: &str) -> Option<usize> {
    if digits.as_bytes().first() == Some(&b'+') {
        return None;
    }
    match digits.parse::<usize>() {
        Ok(count) if count >= 1 => Some(count),
        _ => None,
    }
}

/// The name in a word, and the direction: `NAME:up`, `NAME:down`, or `NAME` for a download.
fn name_of(word: &str) -> (&str, Way) {
    if let Some(name) = word.strip_suffix(":up") {
        return (name, Way::Up);
    }
    match word.strip_suffix(":down") {
        Some(name) => (name, Way::Down),
        None => (word, Way::Down),
    }
}

fn no_user(alloc: Global, name: &str) -> NoPlan
    ensures of { IsNoPlanOf result }
{
    match format!(in alloc; "{name}: no such user") {
        Ok(reported) => NoPlan::Transfers {
            name: "NoSuchUser",
            reported,
        },
        Err(_) => NoPlan::Memory,
    }
}

fn bad_count(alloc: Global, word: &str) -> NoPlan
    ensures of { IsNoPlanOf result }
{
    let reported = format!(in alloc;
        "{word}: it must be NAME=N, NAME:down=N or NAME:up=N with a number of transfers from 1, in digits"
    );
    match reported {
        Ok(reported) => NoPlan::Transfers {
            name: "BadCount",
            reported,
        },
        Err(_) => NoPlan::Memory,
    }
}

fn twice(alloc: Global, word: &str) -> NoPlan
    ensures of { IsNoPlanOf result }
{
    match format!(in alloc; "{word}: the user was stated for this direction before") {
        Ok(reported) => NoPlan::Transfers {
            name: "Twice",
            reported,
        },
        Err(_) => NoPlan::Memory,
    }
}

/// The refusal of more transfers than there can be.
pub(crate) fn too_many(alloc: Global, name: &'static str, most: usize, key: &str) -> NoPlan
    ensures of { IsNoPlanOf result }
{
    match format!(in alloc; "more transfers than {key} = {most} lets in at once") {
        Ok(reported) => NoPlan::Transfers { name, reported },
        Err(_) => NoPlan::Memory,
    }
}

fn wish_of(alloc: Global, users: &[UserTable<'_>], word: &str) -> Result<Wish, NoPlan>
    ensures fault { IfErr result IsNoPlanOf }
{
    let Some((who, digits)) = word.rsplit_once('=') else {
        return Err(bad_count(alloc, word));
    };
    let Some(count) = count_of(digits) else {
        return Err(bad_count(alloc, word));
    };
    let (name, way) = name_of(who);
    match user_of(users, name) {
        Some(user) => Ok(Wish { user, way, count }),
        None => Err(no_user(alloc, name)),
    }
}

fn has(transfers: &[Transfer], wish: Wish) -> bool {
    for transfer in transfers {
        if transfer.user == wish.user && transfer.way == wish.way {
            return true;
        }
    }
    false
}

fn push_all(transfers: &mut Vec<Transfer>, wish: Wish) -> Result<(), AllocError> {
    for _ in 0..wish.count.min(MAX_STATED + 1) {
        transfers.push(Transfer {
            user: wish.user,
            way: wish.way,
        })?;
    }
    Ok(())
}

/// The transfers that a word states, in its order; at most `MAX_STATED`.
///
/// `NoSuchUser`, `BadCount`, `Twice`: the first part that states none, with what is wrong. `TooManySessions`: there are
/// more than `MAX_STATED`.
pub(crate) fn transfers_of(
    alloc: Global,
    users: &[UserTable<'_>],
    word: &str,
) -> Result<Vec<Transfer>, NoPlan>
    ensures fault { IfErr result IsNoPlanOf }
{
    let mut transfers = Vec::new(alloc);
    for part in word.split(',') {
        let wish = wish_of(alloc, users, part)?;
        if has(&transfers, wish) {
            return Err(twice(alloc, part));
        }
        push_all(&mut transfers, wish)?;
        if transfers.len() > MAX_STATED {
            return Err(too_many(alloc, "TooManySessions", MAX_STATED, "max_cons"));
        }
    }
    Ok(transfers)
}
