//! The commands on sheets, over any readers and writers: `share`, among users first or not, `check` and a picture.
//!
//! `share` divides the limits of a sheet. `check` is whether the grants of a grants file are best within the limits of a
//! sheet. A picture is a text of SVG with a column for each want, as high as what the want gets, which has the colour and
//! the number of the limit that holds it back; a lid is at a limit of its own, a dark foot at its floor. `docs/sheets.md`
//! says what each writes, and `specs/Svg.antt` has the text of a picture.
//!
//! ```text
//! let alloc = rt.alloc();
//! let sheet = "limit / 10\nwant /a 8\nwant /b 5\n";
//! let mut shared = Vec::new(alloc);
//! run_share(alloc, None, &mut sheet.as_bytes(), &mut shared)?;
//! assert!(rt; shared.as_slice() == b"/a 5 of 8 full /\n/b 5 of 5\ntotal 10\n".as_slice());
//! let mut grants = "grant /a 5 /\ngrant /b 5\n".as_bytes();
//! let mut verdict = Vec::new(alloc);
//! let is = run_check(
//!     alloc,
//!     None,
//!     &mut sheet.as_bytes(),
//!     &mut grants,
//!     &mut verdict,
//! )?;
//! assert!(rt; is == SheetVerdict::Yes && verdict.as_slice() == b"yes\n".as_slice());
//! let picture = picture_of(alloc, sheet.as_bytes())?;
//! assert!(rt; picture.as_str().starts_with("<svg "));
//! assert!(rt;
//!     picture
//!         .as_str()
//!         .contains("<title>/a: 5 of 8, held back by /</title>")
//! );
//! assert!(rt; picture.as_str().contains("<title>/b: 5 of 5</title>"));
//! ```
#![tactic(auto)]

mod check;
mod check_fault;
mod check_users;
mod column;
mod columns;
mod elements;
mod escape;
mod frame;
mod grants;
mod grants_fault;
mod lids;
mod order;
mod parts;
mod picture;
mod picture_laws;
mod picture_run;
mod picture_users;
mod share;
mod share_fault;
mod share_lines;
mod share_run;
mod share_users;
mod sheet_verdict;
mod svg;
mod texts;
mod verdict;

pub use check::{Checked, run_check, verdict_of};
pub use check_fault::CheckFault;
pub use check_users::{Judged, verdict_at};
pub use column::{Column, Holder};
pub use escape::push_escaped;
pub use grants::read_grants;
pub use grants_fault::GrantsFault;
pub use order::drawn;
pub use picture::picture_of;
pub use picture_laws::{one_limit_is_level, one_limit_is_level_for_a_user};
pub use picture_run::run_picture;
pub use picture_users::picture_at;
pub use share::sharing_of;
pub use share_fault::ShareFault;
pub use share_lines::{Share, lines_of};
pub use share_run::run_share;
pub use share_users::sharing_at;
pub use sheet_verdict::SheetVerdict;
