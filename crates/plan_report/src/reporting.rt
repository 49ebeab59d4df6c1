//! The plan of a configuration, from its text.

ghost use Rattle.std.specs.Prelude.{◌≡◌, IfErr, IfOk, string_bytes};
ghost use Rattle.line_rates.specs.Rates.{shared_by};
ghost use Rattle.server_config.specs.Configs.{IsConfigText};
ghost use Rattle.plan_report.specs.Reports.{ArePlanned, HasShares, IsNoPlan, IsNoPlanOf, IsPlanJson, IsPlanReport, IsPlanText};

use crate::fault::NoPlan;
use crate::lines::{Named, lines_of, user_name, way_text, write_held};
use crate::values::json_text;
use crate::wishes::{too_many, transfers_of};
use config_file::{Tables, read_tables};
use line_rates::{Limits, Name, ShareBy};
use rate_plan::{Transfer, TransferShare, Unplanned, plan_of};
use server_config::{Config, ConfigFault};
use std::alloc::{AllocError, Global};

// The number of the session at a place among those of its user and direction, from 1.
fn number_of(transfers: &[Transfer], place: usize) -> usize {
    let mut count: usize = 0;
    for at in 0..transfers.len() {
        if at <= place && place < transfers.len() && transfers[at] == transfers[place] {
            count = count.saturating_add(1);
        }
    }
    count
}

fn not_guaranteed(
    alloc: Global,
    named: Named<'_, '_>,
    limits: &Limits,
    transfers: &[Transfer],
    place: usize,
    name: Option<Name>,
) -> Result<String, AllocError> {
    let mut text = String::new(alloc);
    if place < transfers.len() {
        let Transfer { user, way } = transfers[place];
        let number = number_of(transfers, place);
        write!(
            &mut text,
            "session {number} of {} {}: its guarantees do not fit",
            user_name(named, user),
            way_text(way)
        )?;
    }
    if let Some(name) = name {
        text.push_str(" within ")?;
        write_held(&mut text, named, Some(name))?;
        write!(&mut text, " of {}", limits.rate(name))?;
    }
    Ok(text)
}

fn no_plan(
    alloc: Global,
    named: Named<'_, '_>,
    limits: &Limits,
    transfers: &[Transfer],
    fault: Unplanned,
) -> NoPlan
    ensures of { IsNoPlanOf result }
{
    let reported = match fault {
        Unplanned::TooManySessions => {
            let most = named.server.max_cons as usize;
            return too_many(alloc, "TooManySessions", most, "max_cons");
        }
        Unplanned::TooManyTransfers => {
            let most = named.server.lanes as usize;
            return too_many(alloc, "TooManyTransfers", most, "lanes");
        }
        Unplanned::NotGuaranteed(place, name) => {
            not_guaranteed(alloc, named, limits, transfers, place, name)
        }
        Unplanned::Memory => return NoPlan::Memory,
        _ => String::from_str(alloc, "a rate is too large for so many transfers"),
    };
    let name = match fault {
        Unplanned::NotGuaranteed(_, _) => "NotGuaranteed",
        _ => "RateTooLarge",
    };
    match reported {
        Ok(reported) => NoPlan::Transfers { name, reported },
        Err(_) => NoPlan::Memory,
    }
}

fn named_of<'t, 'a>(tables: &'t Tables<'a>) -> Named<'t, 'a>
    ensures server { result.server.now ≡ tables.now.server }
    ensures groups { result.groups.now ≡ tables.now.groups.items }
    ensures users { result.users.now ≡ tables.now.users.items }
{
    Named {
        server: &tables.server,
        groups: tables.groups.as_slice(),
        users: tables.users.as_slice(),
    }
}

/// The shares of the transfers that a word states.
fn shares_of(
    alloc: Global,
    named: Named<'_, '_>,
    limits: &Limits,
    wishes: &str,
) -> Result<Vec<TransferShare>, NoPlan>
    ensures planned { IfOk result (λ shares. ArePlanned limits.now shares.items) }
    ensures fault { IfErr result IsNoPlanOf }
{
    let transfers = transfers_of(alloc, named.users, wishes)?;
    let (sessions, lanes) = (named.server.max_cons as usize, named.server.lanes as usize);
    match plan_of(alloc, limits, sessions, lanes.min(256), &transfers) {
        Ok(shares) => Ok(shares),
        Err(fault) => Err(no_plan(alloc, named, limits, &transfers, fault)),
    }
}

fn reported_of(
    alloc: Global,
    tables: &Tables,
    limits: &Limits,
    wishes: &str,
) -> Result<String, NoPlan>
    ensures shares { IfOk result (λ _. HasShares limits.now) }
    ensures fault { IfErr result IsNoPlanOf }
{
    let named = named_of(tables);
    let shares = shares_of(alloc, named, limits, wishes)?;
    let text = lines_of(alloc, named, limits.share_by(), &shares)?;
    Ok(text)
}

fn json_of(alloc: Global, tables: &Tables, limits: &Limits, wishes: &str) -> Result<String, NoPlan>
    ensures plan { IfOk result (λ text. IsPlanText tables.now limits.now (string_bytes text)) }
    ensures fault { IfErr result IsNoPlanOf }
{
    let named = named_of(tables);
    let shares = shares_of(alloc, named, limits, wishes)?;
    let text = json_text(alloc, named, &shares)?;
    Ok(text)
}

// The limits of a configuration, of a line that is shared among these.
fn limits_of(config: Config, share_by: ShareBy) -> Limits
    ensures limits { result ≡ shared_by share_by config.limits }
{
    config.limits.shared_by(share_by)
}

/// The configuration of a text.
fn config_of(alloc: Global, octets: &[u8]) -> Result<Config, NoPlan>
    ensures config { IfOk result (IsConfigText octets.now) }
    ensures fault { IfErr result (IsNoPlan octets.now) }
{
    match Config::read(alloc, octets) {
        Ok(config) => Ok(config),
        Err(ConfigFault::Memory) => Err(NoPlan::Memory),
        Err(fault) => Err(NoPlan::Config(fault)),
    }
}

/// The plan of the transfers that a word states, by a configuration's text, in lines: who gets how much of a second, and
/// which limit holds each back, if the line is shared among its sessions, or among its users.
pub fn plan_lines(
    alloc: Global,
    octets: &[u8],
    share_by: ShareBy,
    wishes: &str,
) -> Result<String, NoPlan>
    ensures planned { IfOk result (λ _. IsPlanReport share_by octets.now) }
    ensures fault { IfErr result (IsNoPlan octets.now) }
{
    let config = config_of(alloc, octets)?;
    let Ok(document) = toml::table_from_slice(alloc, octets) else {
        return Err(NoPlan::Memory);
    };
    let Ok(tables) = read_tables(alloc, &document) else {
        return Err(NoPlan::Memory);
    };
    let limits = limits_of(config, share_by);
    reported_of(alloc, &tables, &limits, wishes)
}

/// The same plan as JSON, with a row for each transfer, and a line feed.
pub fn plan_json(
    alloc: Global,
    octets: &[u8],
    share_by: ShareBy,
    wishes: &str,
) -> Result<String, NoPlan>
    ensures planned { IfOk result (λ text. IsPlanJson share_by octets.now (string_bytes text)) }
    ensures fault { IfErr result (IsNoPlan octets.now) }
{
    let config = config_of(alloc, octets)?;
    let Ok(document) = toml::table_from_slice(alloc, octets) else {
        return Err(NoPlan::Memory);
    };
    let Ok(tables) = read_tables(alloc, &document) else {
        return Err(NoPlan::Memory);
    };
    let limits = limits_of(config, share_by);
    json_of(alloc, &tables, &limits, wishes)
}
