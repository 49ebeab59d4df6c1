//! The configuration that a running server takes next.

ghost use Rattle.std.specs.Prelude.{◌≡◌, IfErr, IfOk, option_map, string_bytes};
ghost use Rattle.line_rates.specs.Rates.{Rates};
ghost use Rattle.config_change.specs.Past.{KeepPast};
ghost use Rattle.machine_parts.specs.Following.{AreParts, IsHindrance, IsNoConfig, IsNumberedAs, IsPastFault, IsUnnumbered, capacity_of, root_of};
ghost use Rattle.machine_parts.specs.Reloads.{IsNext, IsNotTaken, KeepsNames};
ghost use Rattle.server_config.specs.Configs.{IsConfigText};

use crate::facts::{Start, copied_limits, facts_of};
use crate::known::Known;
use crate::reasons::{words, words_at};
use config_change::{FixedValues, RenumberFault, count_fault, fixed_key, renumbered, with_past};
use line_rates::Limits;
use server_config::{Config, ConfigFault, ServedStore, ServerNumbers};
use server_house::Terms;
use status_keeper::StatusFacts;
use std::alloc::{AllocError, Global};
use std::sync::Arc;

/// The values of a server's start that a reload cannot change, and its moment.
#[derive(Drop)]
pub struct AtStart {
    numbers: ServerNumbers,
    // `memory`, or the path of the folder that is served
    root: String,
    // the capacity of a store in memory
    capacity: u64,
    start: Start,
}

/// A configuration that a server is about to take.
#[derive(Drop)]
pub struct NextConfig {
    pub terms: Arc<Terms>,
    /// Those that it states, with rows of the past.
    pub limits: Limits,
    pub numbers: ServerNumbers,
    pub known: Known,
    /// The facts that a status shows; none without memory for them.
    pub facts: Option<StatusFacts>,
}

// The root of a store, as a configuration states it.
fn root_of(store: &ServedStore) -> &str
    ensures root { result.now ≡ root_of store.now }
{
    match store {
        ServedStore::Memory(_) => "memory",
        ServedStore::Folder(folder) => folder.as_str(),
    }
}

// The capacity of a store in memory, as a configuration states it; 0 for a folder.
fn capacity_of(store: &ServedStore) -> u64
    ensures capacity { result ≡ capacity_of store.now }
{
    match store {
        ServedStore::Memory(store) => store.capacity(),
        ServedStore::Folder(_) => 0,
    }
}

impl AtStart {
    /// Those of a configuration with these numbers and this store.
    pub fn of(
        alloc: Global,
        numbers: ServerNumbers,
        store: &ServedStore,
        start: Start,
    ) -> Result<AtStart, AllocError>
        ensures numbers { IfOk result (λ at_start. at_start.numbers ≡ numbers) }
        ensures root { IfOk result (λ at_start. string_bytes at_start.root ≡ root_of store.now) }
        ensures capacity { IfOk result (λ at_start. at_start.capacity ≡ capacity_of store.now) }
        ensures start { IfOk result (λ at_start. at_start.start ≡ start) }
    {
        Ok(AtStart {
            numbers,
            root: String::from_str(alloc, root_of(store))?,
            capacity: capacity_of(store),
            start,
        })
    }

    // The reason for which a configuration cannot be taken while the server runs, if there is one.
    fn hindrance(&self, alloc: Global, config: &Config) -> Option<Option<String>>
        ensures hindrance { IsHindrance self.now config.now
            (option_map (λ words. option_map string_bytes words) result) }
    {
        let old = FixedValues {
            numbers: self.numbers,
            root: self.root.as_str(),
            capacity: self.capacity,
        };
        let new = FixedValues {
            numbers: config.numbers,
            root: root_of(&config.store),
            capacity: capacity_of(&config.store),
        };
        if let Some(key) = fixed_key(&old, &new) {
            return Some(words(alloc, &key));
        }
        match count_fault(self.numbers.max_cons, 0, config.numbers.max_cons) {
            Some(fault) => Some(words(alloc, &fault)),
            None => None,
        }
    }
}

// The configuration of octets of the file at a path. `Err` is the reason for which they are none, with the path; none
// without memory.
fn config_of(alloc: Global, path: &str, octets: &[u8]) -> Result<Config, Option<String>>
    ensures config { IfOk result (IsConfigText octets.now) }
    ensures refused { IfErr result
        (λ words. IsNoConfig path.now octets.now (option_map string_bytes words)) }
{
    match Config::read(alloc, octets) {
        Ok(config) => Ok(config),
        Err(ConfigFault::Memory) => Err(None),
        Err(fault) => Err(words_at(alloc, path, &fault)),
    }
}

// A configuration with the numbers that its names are known by. `Err` is the reason for which it cannot have them; none
// without memory.
fn with_numbers(alloc: Global, config: Config, known: &Known) -> Result<Config, Option<String>>
    ensures numbered { IfOk result (IsNumberedAs config known.now) }
    ensures refused { IfErr result
        (λ words. IsUnnumbered config known.now (option_map string_bytes words)) }
{
    let Ok(earlier) = known.authorizer(alloc) else {
        return Err(None);
    };
    match renumbered(alloc, config, &earlier, &known.groups) {
        Ok(config) => Ok(config),
        Err(RenumberFault::Memory) => Err(None),
        Err(fault) => Err(words(alloc, &fault)),
    }
}

// The limits of a configuration with those of the past. `Err` is the reason for which there are none; none without memory.
fn past_limits(alloc: Global, config: &Config, known: &Known) -> Result<Limits, Option<String>>
    ensures limits { IfOk result (KeepPast config.now.limits known.now.limits) }
    ensures refused { IfErr result
        (λ words. IsPastFault config.now known.now (option_map string_bytes words)) }
{
    match with_past(alloc, &config.limits, &known.limits) {
        Ok(limits) => Ok(limits),
        Err(RenumberFault::Memory) => Err(None),
        Err(fault) => Err(words(alloc, &fault)),
    }
}

// The parts of a configuration with these limits, the names of which follow those that were known. `Err` is lack of
// memory.
fn parts_of(
    alloc: Global,
    config: Config,
    limits: Limits,
    known: &Known,
    facts: Option<StatusFacts>,
) -> Result<NextConfig, Option<String>>
    ensures parts { IfOk result (AreParts config limits known.now) }
    ensures facts { IfOk result (λ next. next.facts ≡ facts) }
    ensures refused { IfErr result (λ words. words ≡ None) }
{
    let Some(copy) = copied_limits(alloc, &limits) else {
        return Err(None);
    };
    let Config {
        settings,
        numbers,
        users,
        store: _,
        limits: _,
        groups,
    } = config;
    let Ok(known) = Known::of(alloc, &users, known.users(), groups, copy) else {
        return Err(None);
    };
    let Ok(terms) = Arc::new(alloc, Terms { users, settings }) else {
        return Err(None);
    };
    Ok(NextConfig {
        terms,
        limits,
        numbers,
        known,
        facts,
    })
}

/// The configuration of octets of the file at a path, for a server that knows these names. `Err` is the reason for which
/// it cannot take them; none without memory for it.
pub fn next_config(
    alloc: Global,
    path: &str,
    octets: &[u8],
    at_start: &AtStart,
    known: &Known,
) -> Result<NextConfig, Option<String>>
    ensures next { IfOk result (IsNext octets.now at_start.now known.now) }
    ensures keeps { IfOk result (λ next. KeepsNames known.now next.known) }
    ensures refused { IfErr result (λ words. IsNotTaken path.now octets.now at_start.now known.now
        (option_map string_bytes words)) }
{
    let read = config_of(alloc, path, octets)?;
    if let Some(reason) = at_start.hindrance(alloc, &read) {
        return Err(reason);
    }
    let config = with_numbers(alloc, read, known)?;
    let limits = past_limits(alloc, &config, known)?;
    let facts = facts_of(alloc, at_start.start, &config, &limits);
    parts_of(alloc, config, limits, known, facts)
}
