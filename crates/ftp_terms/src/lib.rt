//! Types that control text, replies, users and stores share: permissions ([`Letters`]), the
//! contents of listings ([`Facts`], [`EntryKind`], [`Meta`]), representations of octets ([`DataType`])
//! and one-line texts ([`LineText`]).
//!
//! ```text
//! let letters = Letters::read("elr").unwrap_or(Letters::NONE);
//! holds(rt, letters.holds(Letter::Retrieve));
//! holds(rt, !letters.holds(Letter::Store));
//! let meta = Meta::new(EntryKind::File, 120, 951_827_696); // seconds since 1970
//! let text = LineText::with_number(rt.alloc(), "", meta.size, " octets")?;
//! holds(rt, text.as_str() == "120 octets");
//! ```
#![tactic(auto)]

mod data_type;
mod entries;
mod facts;
mod laws;
mod letters;
mod line_text;

pub use data_type::DataType;
pub use entries::{EntryKind, LATEST, Meta};
pub use facts::Facts;
pub use laws::texts_of_one_line;
pub use letters::{Letter, Letters};
pub use line_text::{LineText, is_line_text};
