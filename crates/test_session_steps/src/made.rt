//! The users, rates, files and settings of the room, always the same.

use crate::fault::Fault;
use authorizer::{Authorizer, AuthorizerFault};
use ftp_terms::LineText;
use line_rates::{Limits, UserRate};
use memory_store::MemStore;
use rate_floors::Floors;
use session_table::Settings;
use std::alloc::{AllocError, Global};
use virtual_path::VPath;
use virtual_tree::{Sink, Store, StoreFault, WriteMode};

/// The address of the client, and of the server.
pub(crate) const PEER: [u8; 4] = [127, 0, 0, 1];

/// Capacity of the store, in octets.
const CAPACITY: u64 = 20;

pub(crate) fn settings() -> Settings {
    Settings {
        banner: LineText::fixed("Ready"),
        login_attempts: 3,
        permits_foreign_addresses: false,
        permits_privileged_ports: false,
        address: PEER,
    }
}

fn add_users(users: &mut Authorizer) -> Result<(), AuthorizerFault> {
    users.add_user("ann", "secret", "/", "elradfmw")?;
    users.add_user("bob", "b", "/", "elr")?;
    users.override_perm("bob", "/in", "w", true)?;
    users.add_user("dora", "d", "/up", "elr")?;
    users.override_perm("dora", "/b", "lwamfe", true)?;
    users.override_perm("dora", "/b/a", "eld", false)?;
    users.set_messages("dora", "Hello, dora", "So long")
}

/// Makes the users: ann may do everything, bob may read, and store in `/in`; dora's letters change on the way down from
/// `/b`.
pub(crate) fn make_users(alloc: Global) -> Result<Authorizer, Fault> {
    let mut users = Authorizer::new(alloc)?;
    add_users(&mut users)?;
    Ok(users)
}

/// The guarantee of each session of this user: 10 octets per second down.
fn make_rows(alloc: Global, user: u32) -> Result<Vec<UserRate>, AllocError> {
    let mut rows = Vec::new(alloc);
    rows.push(UserRate {
        user,
        group: None,
        down: 0,
        up: 0,
        session_down: 0,
        session_up: 0,
        session_down_floor: 10,
        session_up_floor: 0,
    })?;
    Ok(rows)
}

/// Makes the floors: the server has 15 octets per second, so one session of this user at a time has its guarantee.
pub(crate) fn make_floors(alloc: Global, user: u32) -> Result<Floors, Fault> {
    match Limits::of(15, 0, 0, Vec::new(alloc), make_rows(alloc, user)?) {
        Ok(limits) => Ok(Floors::of(alloc, &limits)?),
        Err(_) => Err(Fault::Refused),
    }
}

fn add_directory(alloc: Global, store: &mut MemStore, name: &str) -> Result<(), Fault> {
    let path = VPath::root(alloc).child(alloc, name)?;
    Ok(store.make_dir(&path)?)
}

/// Writes the octets a LF b.
fn put_file(store: &mut MemStore, path: &VPath) -> Result<(), StoreFault> {
    let mut sink = store.open_write(path, WriteMode::New, 0)?;
    sink.write(b"a\nb")?;
    store.finish(sink, 951_827_696_000)
}

fn add_files(alloc: Global, store: &mut MemStore) -> Result<(), Fault> {
    add_directory(alloc, store, "in")?;
    add_directory(alloc, store, "up")?;
    let path = VPath::root(alloc).child(alloc, "f")?;
    Ok(put_file(store, &path)?)
}

/// Makes the directories `/in` and `/up`, and the file `/f`.
pub(crate) fn make_store(alloc: Global) -> Result<MemStore, Fault> {
    let mut store = MemStore::new(alloc, CAPACITY)?;
    add_files(alloc, &mut store)?;
    Ok(store)
}
