//! Restores the octets of a control text that were lost as urgent data.
//!
//! A client that aborts a transfer may send a part of its line as urgent data (RFC 854, the Synch of Telnet; RFC 959,
//! section 4.1.3). A socket that does not read urgent data in line then loses one octet: the LF of `ABOR CR LF`, or the
//! second IAC of `IAC IP IAC DM`. A [`Mender`] is between the socket and the reader of lines. It ends an open line of
//! exactly `ABOR CR` once nothing more has come for a while, and removes a DM at the start of a line that is not after
//! an IAC. Everything else passes unchanged: octet for octet, however the text is cut.
//!
//! ```text
//! let mut mender = Mender::new();
//! let mut read = *b"ABOR\r"; // the LF was urgent
//! assert!(rt; mender.mend(&mut read) == 5);
//! assert!(rt; mender.silence()); // an LF is to be passed on
//! let mut late = *b"\nNOOP\r\n"; // the LF is taken out if it comes after all
//! assert!(rt; mender.mend(&mut late) == 6);
//! assert!(rt; &late[..6] == b"NOOP\r\n".as_slice());
//! ```
#![tactic(auto)]

mod laws;
mod mender;

pub use laws::{aborts_are_ended, marks_are_taken_out, text_passes};
pub use mender::Mender;
