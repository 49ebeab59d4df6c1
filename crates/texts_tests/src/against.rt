//! The changes of a server that would read another configuration.

use crate::expect::{holds, same};
use change_report::reload_report;

const OLD: &str = r#"version = 2
[server]
root = "memory"
passive_first = 40000
passive_last = 40001
rate = 1000
[[group]]
name = "sales"
down_rate = 10
[[group]]
name = "build"
[[user]]
name = "ann"
password = "secret"
home = "/"
group = "sales"
[[user.override]]
path = "/in"
perms = "elw"
[[user]]
name = "bob"
password = "secret"
home = "/"
"#;

const NEW: &str = r#"version = 2
[server]
root = "memory"
passive_first = 40000
passive_last = 40001
rate = 500
banner = "Hello"
max_cons = 32
permit_foreign_addresses = true
masquerade_address = "1.2.3.4"
sessions = 5
[[group]]
name = "sales"
down_rate = 0
[[group]]
name = "night"
[[user]]
name = "ann"
password = "other"
home = "/"
perms = "elradfmw"
session_down_floor = 7
[[user.override]]
path = "/in"
perms = "elw"
recursive = true
[[user]]
name = "carol"
password = "secret"
home = "/"
"#;

const LINES: &str =
    "a reload would be taken, unless the sessions of connected clients were guaranteed more than a rate
banner: Ready becomes Hello
permit_foreign_addresses: false becomes true
masquerade_address: none becomes 1.2.3.4
max_cons: 64 becomes 32
sessions: 0 becomes 5, at the next start alone
group night is added
group build is taken out
user carol is added
user bob is taken out, and its sessions end
user ann: password changes for logins from then on
user ann: perms changes for logins from then on
user ann: override changes for logins from then on
user ann: group changes at once

octets a second          key                            is       becomes   Mbit/s is     becomes
server                   rate                         1000           500        0.00        0.00
group sales              down_rate                      10             -        0.00           -
user ann                 session_down_floor              -             7           -        0.00
";

#[test]
fn every_kind_of_change(rt: HostRuntime) {
    let report = reload_report(rt.alloc(), false, NEW.as_bytes(), OLD.as_bytes());
    let Ok(report) = report else {
        return holds(&rt, false);
    };
    same(&rt, &report.text.as_str(), &LINES);
    holds(&rt, !report.is_refused);
}
