//! Notes of events in a server's sessions, one line each, written to the kit's `log`.
//!
//! ```text
//! 2026-11-25T15:04:44Z 127.0.0.1 #0 login "ann"
//! 2026-11-25T15:04:45Z 127.0.0.1 #0 sent "/report.txt": user "ann", 1200 octets, 0.012 s
//! 2026-11-25T15:04:45Z 127.0.0.1 #0 deleted "/report.txt": user "ann"
//! 2026-11-25T15:04:46Z 127.0.0.1 refused: too many connections
//! ```
//!
//! A refused login or connection, and a lack or a fault of the server or the machine, are warnings: an administrator should look at
//! them. In the form of the journal the lines have no time.
//!
//! Names and paths are in quotation marks, with all but plain characters escaped, so that nothing a client sends can
//! start a line of its own. The number is that of the connection: no two simultaneous connections have the same. No
//! note contains a password; a declined command is noted with its line.
#![tactic(auto)]

mod courses;
mod levels;
mod moment;
mod notes;
mod stamp;
mod stores;
mod transfers;
mod words;

pub use notes::{Notes, TransferLog};
