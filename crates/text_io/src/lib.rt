//! The texts that programs read and write: the ends, and the failures that they may have; texts read whole and written
//! in one go.
//!
//! ```text
//! let alloc = rt.alloc();
//! let mut sheet = "limit / 10\n".as_bytes(); // gives its octets, and never fails
//! let text = read_whole(alloc, &mut sheet).expect(&rt, "a text");
//! holds(&rt, text.as_slice() == b"limit / 10\n".as_slice());
//! let mut output = Vec::new(alloc); // takes octets while memory lasts
//! write_whole("total 10\n", &mut output).expect(&rt, "room");
//! let mut other = FallibleIo(output); // any other end, such as a file: it may fail at each call
//! other.write_text(b"QUIT\r\n").expect(&rt, "room");
//! holds(&rt, other.0.as_slice() == b"total 10\nQUIT\r\n".as_slice());
//! ```
#![tactic(auto)]

mod ends;
mod fault;
mod read;
mod write;

pub use ends::{FallibleIo, TextReader, TextWriter};
pub use fault::TextFault;
pub use read::{MAX_TEXT, read_whole};
pub use write::write_whole;
