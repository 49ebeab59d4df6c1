//! The table `[server]`.

use crate::keys::{
    ADDRESS, BANNER, CAPACITY, DOWN_RATE, LANES, MASQUERADE, MAX_CONS, MAX_CONS_PER_ADDRESS,
    MAX_LOGIN_ATTEMPTS, PASSIVE_FIRST, PASSIVE_LAST, PERMIT_FOREIGN, PERMIT_PRIVILEGED, PORT, RATE,
    ROOT, SESSIONS, UP_RATE,
};
use crate::rows::Keyed;
use crate::stated::ServerTable;
use crate::values::{address, address_if, flag, line, number, small};
use toml::Table;

impl<'a> Keyed<'a> for ServerTable<'a> {
    ghost use Rattle.config_file.specs.TableKeys.{server_rows, server_values};

    ghost Keys = { server_rows };

    ghost Values = { server_values };

    fn read(table: &'a Table) -> ServerTable<'a> {
        ServerTable {
            address: address(table, &ADDRESS),
            port: small(table, &PORT),
            root: line(table, &ROOT),
            capacity: number(table, &CAPACITY),
            banner: line(table, &BANNER),
            max_cons: small(table, &MAX_CONS),
            max_cons_per_address: small(table, &MAX_CONS_PER_ADDRESS),
            max_login_attempts: small(table, &MAX_LOGIN_ATTEMPTS),
            permit_foreign_addresses: flag(table, &PERMIT_FOREIGN),
            permit_privileged_ports: flag(table, &PERMIT_PRIVILEGED),
            masquerade_address: address_if(table, &MASQUERADE),
            passive_first: small(table, &PASSIVE_FIRST),
            passive_last: small(table, &PASSIVE_LAST),
            lanes: small(table, &LANES),
            sessions: number(table, &SESSIONS),
            rate: number(table, &RATE),
            down_rate: number(table, &DOWN_RATE),
            up_rate: number(table, &UP_RATE),
        }
    }
}
