//! Parts of a configuration that no clause covers: that it is read, its parts, and that version 2 makes the same of it.

use crate::documents::{FOLDER, MEMORY};
use crate::expect::{holds, same};
use authorizer::Authorizer;
use ftp_terms::Letter;
use line_rates::{Limits, Name, Way};
use server_config::{Config, ServedStore, ServerNumbers, migrate, numbers_agree};
use std::alloc::Global;
use std::process::Abort;
use virtual_path::VPath;
use virtual_tree::{Source, Store};

/// Checks that Ann and Bob have their numbers, passwords and messages, and that Bob may store in `/in/a/b`, and not at
/// the root.
fn check_users(rt: &(impl Abort + AllocGlobal), users: &Authorizer) {
    same(rt, &users.number("ann"), &Some(0));
    same(rt, &users.number("bob"), &Some(1));
    holds(rt, users.check_password("ann", "secret"));
    holds(rt, !users.check_password("bob", "c"));
    same(rt, &users.msg_login("bob"), &Some("Welcome"));
    same(rt, &users.group("bob"), &None);
    let root = VPath::root(rt.alloc());
    let deep = root.resolve(rt.alloc(), "/in/a/b").expect(rt, "a path");
    holds(rt, users.has_perm("bob", Letter::Store, &deep));
    holds(rt, !users.has_perm("bob", Letter::Store, &root));
}

/// Checks that the store contains the file `/f` as it is stated.
fn check_file<S: Store<Global>>(rt: &(impl Abort + AllocGlobal), store: &mut S) {
    let root = VPath::root(rt.alloc());
    let path = root.resolve(rt.alloc(), "/f").expect(rt, "a path");
    let meta = store.stat(&path).expect(rt, "a file");
    same(rt, &meta.modified, &951_827_696);
    let mut source = store.open_read(&path, 0).expect(rt, "a file");
    let mut buffer = [0u8; 8];
    same(rt, &source.read(&mut buffer), &Ok(3));
    holds(rt, buffer.starts_with(b"a\nb"));
}

/// Checks the configuration of `MEMORY`.
fn check_memory(rt: &(impl Abort + AllocGlobal), config: &mut Config) {
    check_users(rt, &config.users);
    same(rt, &config.settings.banner.as_str(), &"Ready");
    same(rt, &config.settings.login_attempts, &3);
    same(rt, &config.settings.address, &[127, 0, 0, 1]);
    let numbers = ServerNumbers {
        address: [127, 0, 0, 1],
        port: 2121,
        max_cons: 64,
        max_cons_per_address: 0,
        passive_first: 40000,
        passive_last: 40001,
        lanes: 16,
        sessions: 0,
    };
    same(rt, &config.numbers, &numbers);
    match &mut config.store {
        ServedStore::Memory(files) => check_file(rt, files),
        ServedStore::Folder(_) => panic!(rt; "a folder"),
    }
}

#[test]
fn memory_in_both_versions(rt: HostRuntime) {
    let text = migrate(rt.alloc(), MEMORY.as_bytes()).expect(&rt, "a configuration");
    holds(&rt, text.as_str().starts_with("version = 2"));
    let again = migrate(rt.alloc(), text.as_bytes()).expect(&rt, "a configuration");
    same(&rt, &again, &text);
    for text in [MEMORY, text.as_str()] {
        let mut config = Config::read(rt.alloc(), text.as_bytes()).expect(&rt, text);
        check_memory(&rt, &mut config);
    }
}

static RATES: [(Name, u64); 8] = [
    (Name::Server, 1_099_511_627_776),
    (Name::Direction(Way::Down), 8),
    (Name::Direction(Way::Up), 9),
    (Name::Group(Way::Down, 0), 40),
    (Name::Group(Way::Up, 1), 4),
    (Name::User(Way::Down, 0), 11),
    (Name::User(Way::Down, 1), 0),
    (Name::Session(Way::Up, 0, 7), 14),
];

fn check_limits(rt: &impl Abort, limits: &Limits) {
    for (name, rate) in &RATES {
        same(rt, &limits.rate(*name), rate);
    }
    same(rt, &limits.group_of(0), &Some(1));
    same(rt, &limits.group_of(1), &None);
}

/// Checks the configuration of `FOLDER`.
fn check_folder(rt: &impl Abort, config: &Config) {
    check_limits(rt, &config.limits);
    same(rt, &config.users.group("ann"), &Some(1));
    same(rt, &config.users.group("anonymous"), &None);
    holds(rt, config.users.check_password("anonymous", "whatever"));
    same(rt, &config.users.msg_login("ann"), &Some("Hi"));
    same(rt, &config.settings.address, &[203, 0, 113, 7]);
    let numbers = ServerNumbers {
        address: [10, 0, 0, 1],
        port: 21,
        max_cons: 5,
        max_cons_per_address: 4,
        passive_first: 1,
        passive_last: 65535,
        lanes: 64,
        sessions: 4_294_967_296,
    };
    same(rt, &config.numbers, &numbers);
    match &config.store {
        ServedStore::Memory(_) => panic!(rt; "files in memory"),
        ServedStore::Folder(path) => same(rt, &path.as_str(), &"/srv/ftp"),
    }
}

#[test]
fn laws(_rt: HostRuntime) {
    numbers_agree();
}

#[test]
fn folder(rt: HostRuntime) {
    let config = Config::read(rt.alloc(), FOLDER.as_bytes()).expect(&rt, "a configuration");
    check_folder(&rt, &config);
}
