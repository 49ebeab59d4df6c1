//! The tables `[[group]]`, `[[user]]` and `[[user.override]]`.

use crate::keys::{
    DOWN_RATE, GROUP_NAME, HOME, MSG_LOGIN, MSG_QUIT, NAME, OVERRIDE_PERMS, OVERRIDES, PASSWORD,
    PATH, PERMS, RECURSIVE, SESSION_DOWN_FLOOR, SESSION_DOWN_RATE, SESSION_UP_FLOOR,
    SESSION_UP_RATE, UP_RATE,
};
use crate::rows::Keyed;
use crate::stated::{GroupTable, OverrideTable, UserTable};
use crate::values::{flag, line, line_if, list, number};
use toml::Table;

impl<'a> Keyed<'a> for GroupTable<'a> {
    ghost use Rattle.config_file.specs.TableKeys.{group_rows, group_values};

    ghost Keys = { group_rows };

    ghost Values = { group_values };

    fn read(table: &'a Table) -> GroupTable<'a> {
        GroupTable {
            name: line(table, &NAME),
            down_rate: number(table, &DOWN_RATE),
            up_rate: number(table, &UP_RATE),
        }
    }
}

impl<'a> Keyed<'a> for UserTable<'a> {
    ghost use Rattle.config_file.specs.TableKeys.{user_rows, user_values};

    ghost Keys = { user_rows };

    ghost Values = { user_values };

    fn read(table: &'a Table) -> UserTable<'a> {
        UserTable {
            name: line(table, &NAME),
            password: line(table, &PASSWORD),
            home: line(table, &HOME),
            perms: line(table, &PERMS),
            down_rate: number(table, &DOWN_RATE),
            up_rate: number(table, &UP_RATE),
            session_down_rate: number(table, &SESSION_DOWN_RATE),
            session_up_rate: number(table, &SESSION_UP_RATE),
            session_down_floor: number(table, &SESSION_DOWN_FLOOR),
            session_up_floor: number(table, &SESSION_UP_FLOOR),
            msg_login: line(table, &MSG_LOGIN),
            msg_quit: line(table, &MSG_QUIT),
            group: line_if(table, &GROUP_NAME),
            overrides: list(table, &OVERRIDES),
        }
    }
}

impl<'a> Keyed<'a> for OverrideTable<'a> {
    ghost use Rattle.config_file.specs.TableKeys.{override_rows, override_values};

    ghost Keys = { override_rows };

    ghost Values = { override_values };

    fn read(table: &'a Table) -> OverrideTable<'a> {
        OverrideTable {
            path: line(table, &PATH),
            perms: line(table, &OVERRIDE_PERMS),
            recursive: flag(table, &RECURSIVE),
        }
    }
}
