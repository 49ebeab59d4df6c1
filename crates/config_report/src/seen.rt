//! The things seen for a report: of the machine, and of the store.

ghost use Rattle.std.specs.Prelude.{◌≡◌, IfOk, length};
ghost use Rattle.config_report.specs.Looks.{AreRows, IsRootSeen, IsSeen};

use crate::homes::has_home;
use crate::looks::{Lookout, Sight};
use config_file::{OverrideTable, Tables, UserTable};
use server_config::ServedStore;
use std::alloc::{AllocError, Global};

/// A user, with the overrides of that user.
#[derive(Clone, Copy)]
pub(crate) struct SeenUser<'t, 'a> {
    pub(crate) user: &'t UserTable<'a>,
    pub(crate) overrides: &'t [OverrideTable<'a>],
    /// The home is a directory of the store.
    pub(crate) has_home: bool,
}

/// The things seen for a configuration.
#[derive(Drop)]
pub(crate) struct Seen<'t, 'a> {
    /// The thing at the root; none with a store in memory.
    pub(crate) root: Option<Sight>,
    /// The users, in their order.
    pub(crate) users: Vec<SeenUser<'t, 'a>>,
    /// The permission bits of the configuration's file, if they are known.
    pub(crate) mode: Option<u32>,
}

fn root_seen<L: Lookout>(lookout: &L, store: &ServedStore) -> Option<Sight>
    ensures root { IsRootSeen (L.Shows lookout.now) store.now result }
{
    match store {
        ServedStore::Folder(folder) => Some(lookout.folder(folder.as_str())),
        ServedStore::Memory(_) => None,
    }
}

fn rows_seen<'t, 'a, L: Lookout>(
    alloc: Global,
    lookout: &L,
    store: &mut ServedStore,
    users: &'t [UserTable<'a>],
    overrides: &'t [Vec<OverrideTable<'a>>],
) -> Result<Vec<SeenUser<'t, 'a>>, AllocError>
    requires rows { length overrides.now ≡ length users.now }
    ensures rows { IfOk result
        (λ rows. AreRows (L.Shows lookout.now) store.old users.now overrides.now rows.items) }
    ensures same { store.new ≡ store.old }
{
    let mut rows = Vec::with_capacity(alloc, users.len())?;
    for place in 0..users.len() {
        let user = &users[place];
        let is_there = has_home(alloc, lookout, store, user.home)?;
        rows.push(SeenUser {
            user,
            overrides: overrides[place].as_slice(),
            has_home: is_there,
        })?;
    }
    Ok(rows)
}

/// Looks at the machine and at the store, for the tables of a configuration and the store that is made of them; the
/// configuration's file has that path.
pub(crate) fn seen_of<'t, 'a, L: Lookout>(
    alloc: Global,
    lookout: &L,
    path: &str,
    store: &mut ServedStore,
    tables: &'t Tables<'a>,
) -> Result<Seen<'t, 'a>, AllocError>
    requires rows { length tables.now.overrides.items ≡ length tables.now.users.items }
    ensures seen { IfOk result (IsSeen (L.Shows lookout.now) path.now store.old
        tables.now.users.items tables.now.overrides.items) }
    ensures same { store.new ≡ store.old }
{
    let root = root_seen(lookout, store);
    let (users, overrides) = (tables.users.as_slice(), tables.overrides.as_slice());
    let users = rows_seen(alloc, lookout, store, users, overrides)?;
    Ok(Seen {
        root,
        users,
        mode: lookout.mode(path),
    })
}
