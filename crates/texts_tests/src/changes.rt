//! Changes of a configuration that is read again.

use crate::expect::{holds, same};
use config_change::{
    CountFault, FixedValues, RenumberFault, count_fault, fixed_key, known_names, renumbered,
    with_past,
};
use line_rates::{Limits, Name, UserRate, Way};
use server_config::{Config, ServerNumbers};
use std::process::Abort;

/// The configuration of a server as it starts: Ann is in the group `sales`, and Bob in `build`.
const AT_START: &str = "version = 2
[server]
root = \"memory\"
passive_first = 40000
passive_last = 40001
[[group]]
name = \"sales\"
down_rate = 400
[[group]]
name = \"build\"
down_rate = 800
[[user]]
name = \"ann\"
password = \"a\"
home = \"/\"
group = \"sales\"
down_rate = 40
[[user]]
name = \"bob\"
password = \"b\"
home = \"/\"
group = \"build\"
down_rate = 80
";

/// The same with other groups and users before them, and with another rate of Ann.
const AGAIN: &str = "version = 2
[server]
root = \"memory\"
passive_first = 40000
passive_last = 40001
[[group]]
name = \"ship\"
down_rate = 100
[[group]]
name = \"sales\"
down_rate = 400
[[user]]
name = \"cleo\"
password = \"c\"
home = \"/\"
group = \"ship\"
down_rate = 10
[[user]]
name = \"ann\"
password = \"a\"
home = \"/\"
group = \"sales\"
down_rate = 41
";

fn config_change(
    rt: &(impl Abort + AllocGlobal),
    started: &Config,
    config: Config,
) -> Result<(), RenumberFault> {
    let again = renumbered(rt.alloc(), config, &started.users, &started.groups)?;
    holds(rt, again.users.number("ann") == started.users.number("ann"));
    let fault = count_fault(64, 10, 8); // room for 64, and 10 are there
    holds(rt, fault.is_some());
    Ok(())
}

fn expect_user(rt: &impl Abort, config: &Config, name: &str, number: u32, group: u32, down: u64) {
    same(rt, &config.users.number(name), &Some(number));
    same(rt, &config.users.group(name), &Some(group));
    same(rt, &config.limits.group_of(number), &Some(group));
    same(
        rt,
        &config.limits.rate(Name::User(Way::Down, number)),
        &down,
    );
}

fn read(rt: &(impl Abort + AllocGlobal), text: &str) -> Config {
    Config::read(rt.alloc(), text.as_bytes()).expect(rt, "a configuration")
}

#[test]
fn users_and_groups_keep_their_numbers(rt: HostRuntime) {
    let started = read(&rt, AT_START);
    config_change(&rt, &started, read(&rt, AGAIN)).expect(&rt, "numbers");
    let config = renumbered(
        rt.alloc(),
        read(&rt, AGAIN),
        &started.users,
        &started.groups,
    );
    let config = config.expect(&rt, "numbers");
    expect_user(&rt, &config, "ann", 0, 0, 41);
    expect_user(&rt, &config, "cleo", 2, 2, 10);
    holds(&rt, config.users.number("bob").is_none());
    same(&rt, &config.limits.rate(Name::Group(Way::Down, 0)), &400);
    same(&rt, &config.limits.rate(Name::Group(Way::Down, 1)), &0);
    same(&rt, &config.limits.rate(Name::Group(Way::Down, 2)), &100);
    let names = config.groups.as_slice();
    same(&rt, &names.len(), &3);
    let third = names.get(2).expect(&rt, "a group");
    same(&rt, &third.as_str(), &"ship");
}

/// The rates of a user who has a guarantee.
const GUARANTEED: UserRate = UserRate {
    user: 1,
    group: None,
    down: 80,
    up: 60,
    session_down: 40,
    session_up: 30,
    session_down_floor: 20,
    session_up_floor: 10,
};

#[test]
fn users_of_the_past_keep_their_rates(rt: HostRuntime) {
    let started = read(&rt, AT_START);
    let again = renumbered(
        rt.alloc(),
        read(&rt, AGAIN),
        &started.users,
        &started.groups,
    );
    let again = again.expect(&rt, "numbers");
    let limits = with_past(rt.alloc(), &again.limits, &started.limits).expect(&rt, "limits");
    same(&rt, &limits.rate(Name::User(Way::Down, 0)), &41);
    same(&rt, &limits.rate(Name::User(Way::Down, 1)), &80);
    same(&rt, &limits.group_of(1), &Some(1));
    same(&rt, &limits.rate(Name::Group(Way::Down, 1)), &800);
    let mut rows = Vec::new(rt.alloc());
    rows.push(GUARANTEED).expect(&rt, "memory");
    let earlier = Limits::of(0, 0, 0, Vec::new(rt.alloc()), rows).expect(&rt, "limits");
    let none = Limits::of(9, 0, 0, Vec::new(rt.alloc()), Vec::new(rt.alloc()));
    let none = none.expect(&rt, "limits");
    let limits = with_past(rt.alloc(), &none, &earlier).expect(&rt, "limits");
    let row = limits.user_row(1).expect(&rt, "a row");
    holds(
        &rt,
        row == UserRate {
            session_down_floor: 0,
            session_up_floor: 0,
            ..GUARANTEED
        },
    );
    same(&rt, &limits.rate(Name::Server), &9);
}

#[test]
fn names_of_the_past_keep_their_numbers(rt: HostRuntime) {
    let started = read(&rt, AT_START);
    let known = known_names(rt.alloc(), &started.users, &[]).expect(&rt, "memory");
    same(&rt, &known.len(), &2);
    let again = renumbered(
        rt.alloc(),
        read(&rt, AGAIN),
        &started.users,
        &started.groups,
    );
    let again = again.expect(&rt, "numbers");
    let known = known_names(rt.alloc(), &again.users, &known).expect(&rt, "memory");
    same(&rt, &known.len(), &3);
    let last = known.get(2).expect(&rt, "a name");
    same(&rt, &last.name.as_str(), &"bob");
    same(&rt, &last.number, &1);
}

const NUMBERS: ServerNumbers = ServerNumbers {
    address: [127, 0, 0, 1],
    port: 2121,
    max_cons: 64,
    max_cons_per_address: 0,
    passive_first: 40000,
    passive_last: 40001,
    lanes: 16,
    sessions: 0,
};

/// Values that cannot change, and the text of the first key that does.
static FIXED: [(FixedValues, &str); 4] = [
    (
        FixedValues {
            numbers: ServerNumbers {
                address: [10, 0, 0, 1],
                port: 21,
                ..NUMBERS
            },
            root: "/srv",
            capacity: 7,
        },
        "`address` cannot change while the server runs: it is 127.0.0.1; restart the server to listen on 10.0.0.1",
    ),
    (
        FixedValues {
            numbers: ServerNumbers {
                port: 21,
                lanes: 1,
                ..NUMBERS
            },
            root: "memory",
            capacity: 7,
        },
        "`port` cannot change while the server runs: it is 2121; restart the server to serve on 21",
    ),
    (
        FixedValues {
            numbers: ServerNumbers {
                passive_last: 40002,
                lanes: 1,
                ..NUMBERS
            },
            root: "memory",
            capacity: 7,
        },
        "`passive_last` cannot change while the server runs: it is 40001; restart the server for ports up to 40002",
    ),
    (
        FixedValues {
            numbers: NUMBERS,
            root: "/srv",
            capacity: 8,
        },
        "`root` cannot change while the server runs: it is memory; restart the server to serve /srv",
    ),
];

#[test]
fn keys_that_cannot_change(rt: HostRuntime) {
    let started = FixedValues {
        numbers: NUMBERS,
        root: "memory",
        capacity: 7,
    };
    holds(&rt, fixed_key(&started, &started).is_none());
    for (stated, wanted) in &FIXED {
        let key = fixed_key(&started, stated).expect(&rt, "a key");
        let text = format!(in rt.alloc(); "{key}").expect(&rt, "memory");
        same(&rt, &text.as_str(), wanted);
    }
    holds(&rt, count_fault(64, 10, 10).is_none());
    holds(
        &rt,
        count_fault(64, 10, 65)
            == Some(CountFault::NoRoom {
                room: 64,
                stated: 65,
            }),
    );
}
