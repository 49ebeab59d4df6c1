//! The facts of a configuration that a status shows.

ghost use Rattle.std.specs.Prelude.{◌≡◌, IfSome, map, string_bytes};
ghost use Rattle.std.specs.FinMap as finite;
ghost use Rattle.config_change.specs.Past.{with_numbers};
ghost use Rattle.machine_parts.specs.Facts.{AreFacts, AreGroups, AreUsers, group_of, stated_group, stated_user};

use event_word::micros;
use line_rates::{GroupRate, Limits, Name, Way};
use server_config::Config;
use status_keeper::{StatedGroup, StatedUser, StatusFacts};
use std::alloc::Global;
use std::time::Clock;

/// The start of a server.
#[derive(Clone, Copy)]
pub struct Start {
    /// Seconds since 1970.
    pub seconds: u64,
    /// Microseconds of the clock of rounds.
    pub micros: u64,
}

/// This moment, as the start of a server.
pub fn start_of(machine: &HostRuntime) -> Start {
    let seconds = match machine.since_1970() {
        Ok(time) => time.as_secs(),
        Err(_) => 0,
    };
    Start {
        seconds,
        micros: micros(machine),
    }
}

/// A copy of limits. `None` if memory runs out.
pub fn copied_limits(alloc: Global, limits: &Limits) -> Option<Limits>
    ensures same { IfSome result (λ copy. copy ≡ limits.now) }
{
    let groups = Vec::from_slice(alloc, limits.groups()).ok()?;
    let users = Vec::from_slice(alloc, limits.users()).ok()?;
    let both = limits.rate(Name::Server);
    let down = limits.rate(Name::Direction(Way::Down));
    let up = limits.rate(Name::Direction(Way::Up));
    let copy = Limits::of(both, down, up, groups, users).ok()?;
    Some(copy.shared_by(limits.share_by()))
}

/// The group of a row, by its number among these names. `None` if memory runs out.
fn stated_group(alloc: Global, names: &[String], row: &GroupRate) -> Option<StatedGroup>
    ensures group { IfSome result (λ group.
        stated_group group ≡ group_of (map string_bytes names.now) row.now) }
{
    let name = names.get(row.group as usize)?;
    let name = String::from_str(alloc, name.as_str()).ok()?;
    Some(StatedGroup {
        name,
        number: row.group,
    })
}

/// The groups that a configuration has, with their numbers. `None` if memory runs out.
fn stated_groups(alloc: Global, config: &Config) -> Option<Vec<StatedGroup>>
    ensures groups { IfSome result (λ stated. AreGroups config.now stated.items) }
{
    let rows = config.limits.groups();
    let names = config.groups.as_slice();
    let mut stated = Vec::with_capacity(alloc, rows.len()).ok()?;
    for row in rows {
        stated.push(stated_group(alloc, names, row)?).ok()?;
    }
    Some(stated)
}

/// Number of the users that a configuration has.
fn user_count(config: &Config) -> u64
    ensures users { AreUsers config.now result }
{
    config.limits.users().len() as u64
}

/// The names of all groups of a configuration that has its numbers, those of the past too. `None` if memory runs out.
fn group_names(alloc: Global, config: &Config) -> Option<Vec<String>>
    ensures names { IfSome result (λ names.
        map string_bytes names.items ≡ map string_bytes config.now.groups.items) }
{
    let mut names = Vec::with_capacity(alloc, config.groups.len()).ok()?;
    for name in &config.groups {
        names
            .push(String::from_str(alloc, name.as_str()).ok()?)
            .ok()?;
    }
    Some(names)
}

/// The users that a configuration has, with their numbers. `None` if memory runs out.
fn stated_users(alloc: Global, config: &Config) -> Option<Vec<StatedUser>>
    ensures users { IfSome result (λ stated. map stated_user stated.items
        ≡ with_numbers config.now.users (finite.keys config.now.users.users)) }
{
    let names = config.users.names(alloc).ok()?;
    let mut stated = Vec::with_capacity(alloc, names.len()).ok()?;
    for name in &names {
        if let Some(number) = config.users.number(name.as_str()) {
            let name = String::from_str(alloc, name.as_str()).ok()?;
            stated.push(StatedUser { name, number }).ok()?;
        }
    }
    Some(stated)
}

/// The facts for a status of a configuration, of the limits in force, with rows of the past, and of a start. `None` if
/// memory runs out.
pub fn facts_of(
    alloc: Global,
    start: Start,
    config: &Config,
    limits: &Limits,
) -> Option<StatusFacts>
    ensures facts { IfSome result (AreFacts start config.now limits.now) }
{
    Some(StatusFacts {
        limits: copied_limits(alloc, limits)?,
        stated: stated_groups(alloc, config)?,
        groups: group_names(alloc, config)?,
        names: stated_users(alloc, config)?,
        users: user_count(config),
        lanes: u64::from(config.numbers.lanes),
        max_sessions: u64::from(config.numbers.max_cons),
        started: start.seconds,
        zero: start.micros,
    })
}
