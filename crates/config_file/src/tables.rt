//! All tables of a file.

ghost use Rattle.std.specs.Prelude.{◌≡◌, IfOk, IfErr, Some, length};
ghost use Rattle.toml.specs.View.{table_view, view};
ghost use Rattle.config_file.specs.Keys.{States};
ghost use Rattle.config_file.specs.Refused.{IsFirstFault, IsOverrideFault, IsWholeFault, Reports};
ghost use Rattle.config_file.specs.Seen.{rows_of};
ghost use Rattle.config_file.specs.Tables.{AreOverrides, IsTables, is_first, is_grouped, top_rows, top_values};

use crate::fault::{Fault, Header, KeyFault, TableName};
use crate::judge::judge;
use crate::keys::{
    DIR, DIRS, FILE, FILES, GROUP, GROUPS, OVERRIDE, SERVER, SERVERS, TOP, USER, USERS, VERSION,
};
use crate::reading::value_at;
use crate::row::Row;
use crate::rows::{Keyed, read_rows};
use crate::stated::{DirTable, FileTable, GroupTable, OverrideTable, ServerTable, Top, UserTable};
use crate::values::{inner, list, number};
use std::alloc::Global;
use toml::{Table, Value};

/// The tables of a file.
#[derive(Drop)]
pub struct Tables<'a> {
    pub version: u64,
    pub server: ServerTable<'a>,
    pub groups: Vec<GroupTable<'a>>,
    pub users: Vec<UserTable<'a>>,
    /// The overrides of each user, in the order of the users.
    pub overrides: Vec<Vec<OverrideTable<'a>>>,
    pub dirs: Vec<DirTable<'a>>,
    pub files: Vec<FileTable<'a>>,
}

/// Returns whether a value is the first version.
fn is_first(version: &Value) -> bool
    ensures first { result ≡ is_first (Some (view version.now)) }
{
    let Value::Integer(version) = version else {
        return false;
    };
    let Ok(version) = u64::try_from(*version) else {
        return false;
    };
    version == 1
}

/// Returns whether the file may have groups: in every version but 1.
fn is_grouped(document: &Table) -> bool
    ensures grouped { result ≡ is_grouped (table_view document.now) }
{
    match value_at(document, "version") {
        Some(version) => !is_first(version),
        None => true,
    }
}

impl<'a> Keyed<'a> for Top<'a> {
    ghost use Rattle.config_file.specs.Tables.{top_rows, top_values};

    ghost Keys = { top_rows };

    ghost Values = { top_values };

    fn read(table: &'a Table) -> Top<'a> {
        Top {
            version: number(table, &VERSION),
            server: inner(table, &SERVERS),
            groups: list(table, &GROUPS),
            users: list(table, &USERS),
            dirs: list(table, &DIRS),
            files: list(table, &FILES),
        }
    }
}

/// Judges and reads a table that is no row.
fn read_whole<'a, R: Keyed<'a>>(
    table: &'a Table,
    name: TableName,
    rows: &[Row<'a>],
    grouped: bool,
) -> Result<R, Fault<'a, KeyFault<'a>>>
    requires rows { rows_of rows.now ≡ R.Keys }
    ensures table { IfOk result (λ read.
        States grouped R.Keys (table_view table.now) (R.Values read)) }
    ensures refused { IfErr result (Reports
        (IsWholeFault grouped R.Keys name (table_view table.now))) }
{
    match judge(table, rows, grouped) {
        Ok(()) => Ok(R::read(table)),
        Err(problem) => {
            let header = Header::whole(name);
            Err(Fault::At { header, problem })
        }
    }
}

fn read_overrides<'a>(
    alloc: Global,
    users: &[UserTable<'a>],
) -> Result<Vec<Vec<OverrideTable<'a>>>, Fault<'a, KeyFault<'a>>>
    ensures overrides { IfOk result (λ found. AreOverrides users.now found.items) }
    ensures refused { IfErr result (Reports (IsOverrideFault users.now)) }
{
    let mut found = Vec::new(alloc);
    for (index, user) in users.iter().enumerate() {
        let rules = read_rows::<OverrideTable>(
            alloc,
            TableName::Override(index + 1),
            Some(user.name),
            "override",
            &OVERRIDE,
            true,
            user.overrides,
        )?;
        if found.push(rules).is_err() {
            return Err(Fault::Memory);
        }
    }
    Ok(found)
}

/// Reads the tables of a document. `Err` is the first fault of the file, or lack of memory.
pub fn read_tables<'a>(
    alloc: Global,
    document: &'a Table,
) -> Result<Tables<'a>, Fault<'a, KeyFault<'a>>>
    ensures tables { IfOk result (IsTables (table_view document.now)) }
    ensures paired { IfOk result
        (λ tables. length tables.overrides.items ≡ length tables.users.items) }
    ensures refused { IfErr result (Reports (IsFirstFault (table_view document.now))) }
{
    let grouped = is_grouped(document);
    let top = read_whole::<Top>(document, TableName::Top, &TOP, grouped)?;
    let server = read_whole::<ServerTable>(top.server, TableName::Server, &SERVER, true)?;
    let groups = read_rows::<GroupTable>(
        alloc,
        TableName::Group,
        None,
        "group",
        &GROUP,
        true,
        top.groups,
    )?;
    let users = read_rows::<UserTable>(
        alloc,
        TableName::User,
        None,
        "user",
        &USER,
        grouped,
        top.users,
    )?;
    let overrides = read_overrides(alloc, users.as_slice())?;
    let dirs = read_rows::<DirTable>(alloc, TableName::Dir, None, "dir", &DIR, true, top.dirs)?;
    let files = read_rows::<FileTable>(
        alloc,
        TableName::File,
        None,
        "file",
        &FILE,
        true,
        top.files,
    )?;
    Ok(Tables {
        version: top.version,
        server,
        groups,
        users,
        overrides,
        dirs,
        files,
    })
}
