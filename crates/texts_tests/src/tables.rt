//! Parts of a file's tables that no clause covers: that they are read, with each key's value and default.

use crate::documents::{FOLDER, MEMORY};
use crate::expect::{same, shows};
use config_file::{Tables, UserTable, read_tables};
use std::process::Abort;

/// Keys of a user: name, password, home, letters and messages; rates and floors; and the group.
type User = ([&'static str; 6], [u64; 6], Option<&'static str>);

/// Values of the tables of a document. Those that show as a text are texts here.
struct Stated {
    document: &'static str,
    version: u64,
    server: &'static str,
    groups: &'static str,
    users: &'static [User],
    overrides: &'static str,
    dirs: &'static str,
    files: &'static str,
}

static STATED: [Stated; 2] = [
    // defaults for the keys that are not stated
    Stated {
        document: MEMORY,
        version: 1,
        server: "ServerTable { address: 127.0.0.1, port: 2121, root: \"memory\", capacity: 1048576, \
            banner: \"Ready\", max_cons: 64, max_cons_per_address: 0, max_login_attempts: 3, \
            permit_foreign_addresses: false, permit_privileged_ports: false, \
            masquerade_address: None, passive_first: 40000, passive_last: 40001, lanes: 16, \
            sessions: 0, rate: 0, down_rate: 0, up_rate: 0 }",
        groups: "[]",
        users: &[
            (
                ["ann", "secret", "/", "elradfmw", "Welcome", "Goodbye"],
                [0, 0, 0, 0, 0, 0],
                None,
            ),
            (
                ["bob", "b", "/", "elr", "Welcome", "Goodbye"],
                [0, 0, 0, 0, 0, 0],
                None,
            ),
        ],
        overrides: "[[], [OverrideTable { path: \"/in\", perms: \"w\", recursive: true }]]",
        dirs: "[DirTable { path: \"/in\" }]",
        files: "[FileTable { path: \"/f\", text: \"a\\nb\", modified: 951827696 }]",
    },
    // each key is read but the password of `anonymous`
    Stated {
        document: FOLDER,
        version: 2,
        server: "ServerTable { address: 10.0.0.1, port: 21, root: \"/srv/ftp\", capacity: 7, \
            banner: \"Hello\", max_cons: 5, max_cons_per_address: 4, max_login_attempts: 2, \
            permit_foreign_addresses: true, permit_privileged_ports: true, \
            masquerade_address: Some(203.0.113.7), passive_first: 1, passive_last: 65535, \
            lanes: 64, sessions: 4294967296, rate: 1099511627776, down_rate: 8, up_rate: 9 }",
        groups: "[GroupTable { name: \"sales\", down_rate: 40, up_rate: 0 }, \
            GroupTable { name: \"build\", down_rate: 3, up_rate: 4 }]",
        users: &[
            (
                ["ann", "a", "/home", "elr", "Hi", "Bye"],
                [11, 12, 13, 14, 15, 16],
                Some("build"),
            ),
            (
                ["anonymous", "", "/pub", "elr", "Welcome", "Goodbye"],
                [0, 0, 0, 0, 0, 0],
                None,
            ),
        ],
        overrides: "[[], []]",
        dirs: "[]",
        files: "[]",
    },
];

fn check_user(rt: &impl Abort, user: &UserTable, wanted: &User) {
    let (texts, rates, group) = wanted;
    let found = [
        user.name,
        user.password,
        user.home,
        user.perms,
        user.msg_login,
        user.msg_quit,
    ];
    same(rt, &found, texts);
    let found = [
        user.down_rate,
        user.up_rate,
        user.session_down_rate,
        user.session_up_rate,
        user.session_down_floor,
        user.session_up_floor,
    ];
    same(rt, &found, rates);
    same(rt, &user.group, group);
}

fn check_tables(rt: &(impl Abort + AllocGlobal), tables: &Tables, stated: &Stated) {
    same(rt, &tables.version, &stated.version);
    shows(rt, &tables.server, stated.server);
    shows(rt, &tables.groups, stated.groups);
    shows(rt, &tables.overrides, stated.overrides);
    shows(rt, &tables.dirs, stated.dirs);
    shows(rt, &tables.files, stated.files);
    same(rt, &tables.users.len(), &stated.users.len());
    for (user, wanted) in tables.users.iter().zip(stated.users) {
        check_user(rt, user, wanted);
    }
}

#[test]
fn tables(rt: HostRuntime) {
    for stated in &STATED {
        let document = toml::table_from_str(rt.alloc(), stated.document).expect(&rt, "a document");
        let tables = read_tables(rt.alloc(), &document).expect(&rt, "tables");
        check_tables(&rt, &tables, stated);
    }
}
