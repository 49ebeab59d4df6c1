//! The examples in the heads of these crates. `tools/examples` compares their lines.

use crate::expect::holds;
use change_report::{ChangeFault, reload_report};
use config_file::{Fault, KeyFault, TableName, read_tables, rows_of};
use config_report::{Lookout, Sight, is_nearly_memory, report, report_json, warning_texts};
use line_rates::ShareBy;
use rate_columns::{write_megabits, write_megabits_column, write_rate_column};
use server_config::{Config, ConfigFault, migrate};
use std::alloc::AllocError;
use std::process::Abort;
use toml::Table;
use virtual_path::VPath;

/// A configuration of one user.
const SMALL: &str = "version = 1
[server]
root = \"memory\"
port = 2121
passive_first = 40000
passive_last = 40001
[[user]]
name = \"ann\"
password = \"secret\"
home = \"/\"
perms = \"elr\"
";

fn config_file<'a>(
    rt: &(impl Abort + AllocGlobal),
    document: &'a Table,
) -> Result<(), Fault<'a, KeyFault<'a>>> {
    let tables = read_tables(rt.alloc(), document)?; // of a file with `port = 2121`
    holds(rt, tables.server.port == 2121 && tables.server.lanes == 16);
    holds(rt, rows_of(TableName::Dir).len() == 1); // its key `path`
    Ok(())
}

fn server_config(rt: &(impl Abort + AllocGlobal)) -> Result<(), ConfigFault> {
    let text = migrate(rt.alloc(), SMALL.as_bytes())?; // a server and the user `ann`
    holds(rt, text.as_str().contains("version = 2"));
    let config = Config::read(rt.alloc(), SMALL.as_bytes())?; // as it is, in version 1
    holds(rt, config.numbers.port == 2121);
    holds(rt, config.settings.login_attempts == 3);
    Ok(())
}

/// A machine with one sight of each root, whether homes are there, and the permission bits of a file.
#[derive(Clone, Copy)]
struct Shown {
    root: Sight,
    has_homes: bool,
    mode: Option<u32>,
}

impl Lookout for Shown {
    fn folder(&self, _path: &str) -> Sight {
        self.root
    }

    fn has_home(&self, _root: &str, _home: &VPath) -> bool {
        self.has_homes
    }

    fn mode(&self, _path: &str) -> Option<u32> {
        self.mode
    }
}

/// A machine of which nothing is to be warned.
const ORDERLY: Shown = Shown {
    root: Sight::Listed,
    has_homes: true,
    mode: Some(0o100_640),
};

fn change_report(rt: &(impl Abort + AllocGlobal)) -> Result<(), ChangeFault> {
    let report = reload_report(rt.alloc(), false, SMALL.as_bytes(), SMALL.as_bytes())?; // a file against itself
    holds(
        rt,
        report.text.as_str() == "a reload would change nothing\n",
    );
    holds(rt, !report.is_refused);
    Ok(())
}

fn config_report(rt: &(impl Abort + AllocGlobal)) -> Result<(), ConfigFault> {
    let (machine, by) = (ORDERLY, ShareBy::Sessions);
    let text = report(rt.alloc(), by, "ftpd.toml", SMALL.as_bytes(), &machine)?; // a server and the user `ann`
    holds(rt, text.as_str().starts_with("listens on 127.0.0.1:2121\n"));
    let text = report_json(rt.alloc(), by, "ftpd.toml", SMALL.as_bytes(), &machine)?; // the same for programs
    holds(rt, text.as_str().contains("\"port\":2121"));
    Ok(())
}

fn rate_columns(rt: &(impl Abort + AllocGlobal)) -> Result<(), AllocError> {
    let mut text = String::new(rt.alloc());
    write_rate_column(&mut text, 6_250_000)?; // 50 Mbit/s
    write_megabits_column(&mut text, 6_250_000)?;
    write_megabits_column(&mut text, 0)?; // no limit
    holds(
        rt,
        text.as_str() == "       6250000       50.00           -",
    );
    let mut text = String::new(rt.alloc());
    write_megabits(&mut text, 833_333)?; // 6.666664, rounded down
    holds(rt, text.as_str() == "6.66");
    Ok(())
}

/// Checks rates at the ends of columns, each rate, its octets, its Mbit/s and the same in a column.
fn columns_of_rates(rt: &(impl Abort + AllocGlobal), rows: &[(u64, &str, &str)]) {
    for row in rows {
        let (rate, shown, within) = *row;
        let mut text = String::new(rt.alloc());
        write_rate_column(&mut text, rate).expect(rt, "memory");
        write_megabits_column(&mut text, rate).expect(rt, "memory");
        holds(rt, text.as_str() == shown);
        let mut text = String::new(rt.alloc());
        write_megabits(&mut text, rate).expect(rt, "memory");
        holds(rt, text.as_str() == within);
    }
}

#[test]
fn rates_at_the_ends_of_columns(rt: HostRuntime) {
    let rows = [
        (0, "             -           -", "0.00"),
        (1_249, "          1249        0.00", "0.00"),
        (1_250, "          1250        0.01", "0.01"),
        (12_499, "         12499        0.09", "0.09"),
        (12_500, "         12500        0.10", "0.10"),
        (
            1_099_511_627_776,
            " 1099511627776  8796093.02",
            "8796093.02",
        ),
        (
            18_446_744_073_709_551_615,
            "18446744073709551615147573952589676.41",
            "147573952589676.41",
        ),
    ];
    columns_of_rates(&rt, &rows);
}

/// A configuration of a folder, with a user of a password.
const FOLDER: &str = "version = 2
[server]
root = \"/srv/ftp\"
passive_first = 30000
passive_last = 30063
lanes = 64
[[user]]
name = \"ann\"
password = \"secret\"
home = \"/a\"
";

/// Checks the warnings of that folder on a machine.
fn is_warned(rt: &(impl Abort + AllocGlobal), machine: Shown, wanted: &str) {
    let texts = warning_texts(rt.alloc(), "ftpd.toml", FOLDER.as_bytes(), &machine).expect(
        rt,
        "a configuration",
    );
    holds(rt, texts.as_str() == wanted);
}

#[test]
fn what_a_machine_shows(rt: HostRuntime) {
    let root = |root: Sight| Shown { root, ..ORDERLY };
    is_warned(&rt, ORDERLY, "");
    is_warned(
        &rt,
        root(Sight::Absent),
        "the folder /srv/ftp is not there\n",
    );
    is_warned(&rt, root(Sight::NoFolder), "/srv/ftp is no folder\n");
    is_warned(
        &rt,
        root(Sight::Closed),
        "the folder /srv/ftp cannot be listed\n",
    );
}

const OPEN_PASSWORDS: &str =
    "everybody on this machine may read the passwords of this file; make it readable by its owner and group alone\n";

#[test]
fn what_a_machine_shows_of_homes_and_of_the_file(rt: HostRuntime) {
    let no_home = Shown {
        has_homes: false,
        ..ORDERLY
    };
    is_warned(&rt, no_home, "/a, the home of user ann, is no directory\n");
    let mode = |mode: Option<u32>| Shown { mode, ..ORDERLY };
    is_warned(&rt, mode(None), "");
    is_warned(&rt, mode(Some(0o100_663)), "");
    is_warned(&rt, mode(Some(0o100_604)), OPEN_PASSWORDS);
}

const TWO_PORTS: &str =
    "the machine takes ports 32768 to 60999 for its own connections; passive ones are 40000 to 40001
64 connections have fewer passive ports, 40000 to 40001
64 connections have fewer lanes, 16: while as many transfers run, listings and transfers of others wait
";

/// Checks the texts of the same warnings.
fn texts_of_warnings(rt: &(impl Abort + AllocGlobal)) {
    let texts = warning_texts(rt.alloc(), "ftpd.toml", SMALL.as_bytes(), &ORDERLY).expect(
        rt,
        "a configuration",
    );
    holds(rt, texts.as_str() == TWO_PORTS);
}

#[test]
fn words_nearly_memory(rt: HostRuntime) {
    holds(
        &rt,
        is_nearly_memory("Memory") && is_nearly_memory("MEMORY"),
    );
    holds(
        &rt,
        !is_nearly_memory("memory") && !is_nearly_memory("memory2"),
    );
}

#[test]
fn examples(rt: HostRuntime) {
    let document = toml::table_from_str(rt.alloc(), SMALL).expect(&rt, "a document");
    config_file(&rt, &document).expect(&rt, "tables");
    texts_of_warnings(&rt);
    server_config(&rt).expect(&rt, "a configuration");
    config_report(&rt).expect(&rt, "a report");
    change_report(&rt).expect(&rt, "a report on a change");
    rate_columns(&rt).expect(&rt, "memory");
}
