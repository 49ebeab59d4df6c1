//! Ten times the rates of a line: a tick of a tenth of a second allows by them what a second allows by the rates.

ghost use Rattle.std.specs.Prelude.{◌≡◌, ◌≤◌, IfErr, IfOk, map};
ghost use Rattle.line_rates.specs.declared.rate.TheConstants.{MAX_RATE};
ghost use Rattle.rate_plan.specs.Refused.{IsTreeFault};
ghost use Rattle.rate_plan.specs.Tens.{AreTens, ten_floor, ten_group, ten_rate, ten_user};

use crate::fault::Unplanned;
use line_rates::{GroupRate, Limits, Name, UserRate, Way};
use std::alloc::{AllocError, Allocator};

/// The largest rate that limits a plan, in octets per second. 25 transfers that want `MAX_WANT` each cannot use it up.
pub const MAX_PLANNED: u64 = 109_951_162_777;

fn ten_rate(rate: u64) -> u64
    ensures ten { result ≡ ten_rate rate }
    ensures most { result ≤ MAX_RATE }
{
    if rate > MAX_PLANNED { 0 } else { 10 * rate }
}

fn ten_floor(floor: u64) -> u64
    ensures ten { result ≡ ten_floor floor }
    ensures most { result ≤ MAX_RATE }
{
    10 * floor.min(MAX_PLANNED)
}

fn ten_group(row: GroupRate) -> GroupRate
    ensures ten { result ≡ ten_group row }
{
    GroupRate {
        group: row.group,
        down: ten_rate(row.down),
        up: ten_rate(row.up),
    }
}

fn ten_user(row: UserRate) -> UserRate
    ensures ten { result ≡ ten_user row }
{
    UserRate {
        user: row.user,
        group: row.group,
        down: ten_rate(row.down),
        up: ten_rate(row.up),
        session_down: ten_rate(row.session_down),
        session_up: ten_rate(row.session_up),
        session_down_floor: ten_floor(row.session_down_floor),
        session_up_floor: ten_floor(row.session_up_floor),
    }
}

fn ten_groups<A: Allocator>(alloc: A, rows: &[GroupRate]) -> Result<Vec<GroupRate, A>, AllocError>
    ensures tens { IfOk result (λ tens. tens.items ≡ map ten_group rows.now) }
{
    let mut tens = Vec::with_capacity(alloc, rows.len())?;
    for row in rows {
        tens.push(ten_group(*row))?;
    }
    Ok(tens)
}

fn ten_users<A: Allocator>(alloc: A, rows: &[UserRate]) -> Result<Vec<UserRate, A>, AllocError>
    ensures tens { IfOk result (λ tens. tens.items ≡ map ten_user rows.now) }
{
    let mut tens = Vec::with_capacity(alloc, rows.len())?;
    for row in rows {
        tens.push(ten_user(*row))?;
    }
    Ok(tens)
}

/// The limits of ten times the rates and guarantees, of a line that is shared among the same. A rate above
/// `MAX_PLANNED` becomes none, a guarantee above it becomes that of `MAX_PLANNED`.
pub(crate) fn tenfold<L: Allocator, A: Allocator + Clone>(
    alloc: A,
    limits: &Limits<L>,
) -> Result<Limits<A>, Unplanned>
    ensures tens { IfOk result (AreTens limits.now) }
    ensures fault { IfErr result IsTreeFault }
{
    let groups = ten_groups(alloc.clone()?, limits.groups())?;
    let users = ten_users(alloc, limits.users())?;
    let server = ten_rate(limits.rate(Name::Server));
    let down = ten_rate(limits.rate(Name::Direction(Way::Down)));
    let up = ten_rate(limits.rate(Name::Direction(Way::Up)));
    match Limits::of(server, down, up, groups, users) {
        Ok(tens) => Ok(tens.shared_by(limits.share_by())),
        Err(fault) => Err(Unplanned::Rates(fault)),
    }
}
