//! The control text of FTP: turns the octets of a control connection into commands, however the
//! network cuts them; each line that is not a command has a reply.
//!
//! ```text
//! let mut reader = LineReader::new(rt.alloc());
//! let items = reader.feed(b"retr a.txt\r\nFOO\r\nNO")?;
//! holds(rt, reader.kept() == 2); // `NO` is no line yet
//! match items.as_slice() {
//!     [LineItem::Command(command), LineItem::Fault(fault)] => {
//!         same(rt, &write_command(rt.alloc(), command)?, b"RETR a.txt\r\n");
//!         says(rt, fault.reply(), b"500 Unknown command\r\n");
//!     }
//!     _ => panic!(rt; "each line that has its end is a command or a fault"),
//! }
//! ```
#![tactic(auto)]

mod arguments;
mod commands;
mod faults;
mod items;
mod laws;
mod lines;
mod ports;
mod reader;
mod table;
mod telnet;
mod texts;
mod verbs;
mod words;
mod writer;

pub use commands::{Command, ExtendedPassive, ExtendedPort, FeatureOption, HostPort};
pub use faults::LineFault;
pub use items::{LONGEST_HELD, LONGEST_LINE, LineItem};
pub use laws::{items_stay, only_items, spellings_apart};
pub use ports::{read_eprt, read_port};
pub use reader::LineReader;
pub use texts::{facts_text, port_text, starred_facts_text};
pub use writer::write_command;
