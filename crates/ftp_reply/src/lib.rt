//! The texts that an FTP server writes to a control connection and in listings: replies, entries,
//! dates.
//!
//! ```text
//! let text = LineText::with_number(rt.alloc(), "Restarting at ", 120, "")?;
//! Reply::one_line(ReplyCode::new(350), text).write_to(output)?; // a `Vec` of octets
//! same(rt, output, b"350 Restarting at 120\r\n");
//! let meta = Meta::new(EntryKind::File, 120, 951_827_696);
//! let line = list_line(rt.alloc(), &meta, "a.txt")?;
//! let wanted = "-rw-r--r-- 1 ftp ftp          120 Feb 29  2000 a.txt";
//! holds(rt, line.as_str() == wanted);
//! ```
#![tactic(auto)]

mod codes;
mod dates;
mod listings;
mod quoting;
mod replies;

pub use codes::{HIGHEST_CODE, LOWEST_CODE, ReplyCode};
pub use dates::{mdtm_line, mdtm_text};
pub use listings::{list_line, listings_have_one_text, mlst_entry};
pub use quoting::quoted_path;
pub use replies::Reply;
