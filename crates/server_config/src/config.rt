//! A configuration, from its text.

ghost use Rattle.std.specs.Prelude.{◌≡◌, IfErr, IfOk, Some, length};
ghost use Rattle.toml.specs.Parse.{parse_document};
ghost use Rattle.toml.specs.View.{table_view};
ghost use Rattle.server_config.specs.HeaderLines.{HasLine};
ghost use Rattle.server_config.specs.Configs.{IsMadeOf, IsConfig, IsConfigText};
ghost use Rattle.server_config.specs.Refused.{IsFaultOf, IsFaultOfTables, IsFaultOfText};

use crate::fault::{ConfigFault, not_toml, of_groups, of_key, of_store, of_users};
use crate::group_names::group_names;
use crate::limits::limits_of;
use crate::rate_rows::read_rows;
use crate::settings::{ServerNumbers, numbers_of, settings_of};
use crate::store::{ServedStore, make_store};
use crate::users::make_users;
use authorizer::Authorizer;
use config_file::{Tables, read_tables};
use line_rates::Limits;
use session_table::Settings;
use std::alloc::Global;
use toml::Table;

/// The configuration of a server.
#[derive(Drop)]
pub struct Config {
    /// The settings of all of its sessions.
    pub settings: Settings,
    /// Its address, its ports, and its maximum counts.
    pub numbers: ServerNumbers,
    /// Its users, with their passwords and permissions.
    pub users: Authorizer,
    /// Its store, in memory or over a folder of the machine.
    pub store: ServedStore,
    /// The limits of the line, of its groups and of its users, who have the same numbers as in `users`.
    pub limits: Limits,
    /// The names of its groups, by their numbers in `limits`.
    pub groups: Vec<String>,
}

/// Parses a text as a TOML document.
pub(crate) fn read_document(alloc: Global, octets: &[u8]) -> Result<Table, ConfigFault>
    ensures document { IfOk result (λ table. parse_document octets.now ≡ Some (table_view table)) }
    ensures refused { IfErr result (IsFaultOfText octets.now) }
    ensures line { IfErr result (HasLine octets.now) }
{
    match toml::table_from_slice(alloc, octets) {
        Ok(table) => Ok(table),
        Err(error) => Err(not_toml(octets, error)),
    }
}

/// The configuration that the tables of a file make, whose text is `octets`.
fn made_of(alloc: Global, octets: &[u8], tables: &Tables) -> Result<Config, ConfigFault>
    requires paired { length tables.now.overrides.items ≡ length tables.now.users.items }
    ensures made { IfOk result (IsMadeOf tables.now) }
    ensures refused { IfErr result (IsFaultOfTables tables.now) }
    ensures line { IfErr result (HasLine octets.now) }
{
    let (groups, users) = (tables.groups.as_slice(), tables.users.as_slice());
    let names = group_names(alloc, groups)?;
    let rows = match read_rows(alloc, groups, users) {
        Ok(rows) => rows,
        Err(fault) => return Err(of_groups(alloc, octets, fault)),
    };
    let overrides = tables.overrides.as_slice();
    let authorizer = match make_users(alloc, users, overrides, rows.users.as_slice()) {
        Ok(authorizer) => authorizer,
        Err(fault) => return Err(of_users(alloc, octets, fault)),
    };
    let (dirs, files) = (tables.dirs.as_slice(), tables.files.as_slice());
    let store = match make_store(alloc, &tables.server, dirs, files) {
        Ok(store) => store,
        Err(fault) => return Err(of_store(alloc, octets, fault)),
    };
    Ok(Config {
        settings: settings_of(alloc, &tables.server)?,
        numbers: numbers_of(&tables.server),
        users: authorizer,
        store,
        limits: limits_of(&tables.server, rows),
        groups: names,
    })
}

/// The configuration that a document states, whose text is `octets`.
#[tactic(auto, using(crate::proofs::Refusing::key_refused))]
pub(crate) fn config_of(
    alloc: Global,
    octets: &[u8],
    document: &Table,
) -> Result<Config, ConfigFault>
    ensures config { IfOk result (IsConfig (table_view document.now)) }
    ensures refused { IfErr result (IsFaultOf (table_view document.now)) }
    ensures line { IfErr result (HasLine octets.now) }
{
    match read_tables(alloc, document) {
        Ok(tables) => made_of(alloc, octets, &tables),
        Err(fault) => Err(of_key(alloc, octets, fault)),
    }
}

impl Config {
    /// Reads the configuration of a server. `Err` is the file's first fault, or lack of memory.
    #[tactic(auto, using(crate::proofs::Refusing::text_refused))]
    pub fn read(alloc: Global, octets: &[u8]) -> Result<Config, ConfigFault>
        ensures config { IfOk result (IsConfigText octets.now) }
        ensures refused { IfErr result (IsFaultOfText octets.now) }
        ensures line { IfErr result (HasLine octets.now) }
    {
        let document = read_document(alloc, octets)?;
        config_of(alloc, octets, &document)
    }
}
