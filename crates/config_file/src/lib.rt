//! The tables of a configuration file: the keys of each as a list of rows, by which it is judged, and its values.
//!
//! `read_tables` judges every table of a TOML document and returns what they state: one struct for each table, a field
//! for each key. Both versions of the file are read; version 2 has groups.
//!
//! ```text
//! let tables = read_tables(rt.alloc(), document)?; // of a file with `port = 2121`
//! holds(rt, tables.server.port == 2121 && tables.server.lanes == 16);
//! holds(rt, rows_of(TableName::Dir).len() == 1); // its key `path`
//! ```
//!
//! The rows are data (`rows_of`; `specs/TableKeys.antt` has the same list): a key, the kind of its value, and its
//! default. Tables are taken in the order top, `[server]`, `[[group]]`, `[[user]]`, `[[user.override]]`, `[[dir]]`,
//! `[[file]]`, and the rows of a list in the order of the file. In each table an unknown key comes first, the least by
//! its octets, and then its rows in their order. `Err` is the first fault, with its place. The result borrows its texts
//! from the document.
#![tactic(auto)]

mod fault;
mod judge;
mod keys;
mod kind;
mod lines;
mod reading;
mod row;
mod rows;
mod server;
mod stated;
mod statements;
mod tables;
mod users;
mod values;
mod world;

pub use fault::{Fault, Header, KeyFault, Problem, TableName};
pub use keys::{LATEST_VERSION, rows_of};
pub use kind::KeyKind;
pub use lines::line_of;
pub use row::{Absent, Row};
pub use stated::{
    DirTable, FileTable, GroupTable, MAX_RATE, MAX_SESSIONS, OverrideTable, ServerTable, UserTable,
};
pub use tables::{Tables, read_tables};
