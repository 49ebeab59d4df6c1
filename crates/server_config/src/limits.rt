//! The limits of a configuration.

ghost use Rattle.std.specs.Prelude.{◌≡◌, List};
ghost use Rattle.config_file.specs.declared.stated.GroupTable.{GroupTable};
ghost use Rattle.config_file.specs.declared.stated.UserTable.{UserTable};
ghost use Rattle.server_config.specs.RateRows.{AreRowsOf};
ghost use Rattle.line_rates.specs.Stated.{stated};

use crate::rate_rows::RateRows;
use config_file::ServerTable;
use line_rates::Limits;

/// The limits that the rates of a server and the rows of rates set. They cannot be refused: each rate is in its range,
/// each number occurs once, and each user's group has a row.
pub(crate) fn limits_of(server: &ServerTable, rows: RateRows) -> Limits
    requires rows { (groups : List GroupTable) × (users : List UserTable)
        × AreRowsOf groups users rows }
    ensures limits { result
        ≡ stated server.now.rate server.now.down_rate server.now.up_rate rows.groups.items
        rows.users.items }
{
    match Limits::of(
        server.rate,
        server.down_rate,
        server.up_rate,
        rows.groups,
        rows.users,
    ) {
        Ok(limits) => limits,
        Err(_) => unreachable!(),
    }
}
