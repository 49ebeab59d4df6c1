//! Settings of a server that has not begun.

use crate::expect::holds;
use ftp_server::{
    AuthorizerFault, Config, FtpServer, FtpServerFault, ServedStore, SetRates, UserRates,
};

const HALF: UserRates = UserRates {
    down: 500_000,
    ..UserRates::NONE
};

#[test]
fn of_defaults(rt: HostRuntime) {
    let server = FtpServer::at(rt.alloc(), [127, 0, 0, 1], 2121).expect(&rt, "memory");
    holds(&rt, server.numbers.address == [127, 0, 0, 1]);
    holds(&rt, server.numbers.port == 2121);
    holds(&rt, server.numbers.max_cons == 64);
    holds(&rt, server.settings.banner.as_str() == "Ready");
    holds(&rt, server.patience.idle_timeout == 0);
    holds(&rt, server.user_sessions == 0);
    holds(&rt, server.down_rate == 0);
    holds(&rt, !server.syncs);
}

// Rates are set for the user of a name, and a group has the number of those before it.
#[test]
fn of_rates(rt: HostRuntime) {
    let mut server = FtpServer::at(rt.alloc(), [127, 0, 0, 1], 2121).expect(&rt, "memory");
    let added = server.users.add_user("ann", "secret", "/", "elr");
    added.expect(&rt, "a user");
    server.limit_user("ann", HALF).expect(&rt, "a user");
    let unknown = server.limit_user("bob", HALF);
    holds(
        &rt,
        matches!(
            unknown,
            Err(FtpServerFault::User(AuthorizerFault::NoSuchUser))
        ),
    );
    let number = server.users.number("ann").expect(&rt, "a user");
    let set = SetRates {
        number,
        rates: HALF,
    };
    holds(&rt, server.user_rates.last() == Some(&set));
    holds(&rt, server.user_rates.len() == 1);
    let first = server.add_group(2_000_000, 0).expect(&rt, "memory");
    let second = server.add_group(0, 1_000_000).expect(&rt, "memory");
    holds(&rt, first == 0);
    holds(&rt, second == 1);
    holds(&rt, server.groups.len() == 2);
}

const TEXT: &str = "version = 2
[server]
root = \"memory\"
port = 2121
passive_first = 30000
passive_last = 30063
rate = 9000

[[user]]
name = \"ann\"
home = \"/\"
password = \"secret\"
down_rate = 700
";

#[test]
fn of_a_configuration(rt: HostRuntime) {
    let config = Config::read(rt.alloc(), TEXT.as_bytes()).expect(&rt, "a configuration");
    let (server, store) = FtpServer::of_config(rt.alloc(), config).expect(&rt, "memory");
    holds(&rt, server.rate == 9000);
    holds(&rt, server.user_rates.len() == 1);
    let down = server.user_rates.last().map(|set| set.rates.down);
    holds(&rt, down == Some(700));
    holds(&rt, matches!(store, ServedStore::Memory(_)));
}
