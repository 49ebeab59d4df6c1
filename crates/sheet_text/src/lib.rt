//! The text of a sheet, read exactly. `docs/sheets.md` has the grammar.
//!
//! A [`Sheet`] is a limit tree with the path of each node. Lines, paths and numbers are read by functions of their own,
//! which `sheet_commands` also uses to read a grants file.
//!
//! ```text
//! let alloc = rt.alloc();
//! let sheet = read_sheet(alloc, b"limit / 10\nwant /a 8\nwant /b 5\n")?;
//! assert!(rt; sheet.tree().leaves() == 2);
//! assert!(rt; sheet.leaf_path(0) == "/a");
//! assert!(rt; sheet.node_of("/b") == Some(2));
//! ```
#![tactic(auto)]

mod cut;
mod entry;
mod fault;
mod grant;
mod grow;
mod hint;
mod kids;
mod laws;
mod names;
mod node;
mod number;
mod numbering;
mod path;
mod read;
mod row;
mod sheet;
mod take;
mod tree;
mod walk;
mod whole;

pub use cut::{cut_at, cut_line};
pub use entry::{SheetLine, read_entry};
pub use fault::SheetFault;
pub use grant::{GrantsLine, read_grant};
pub use hint::{Hint, hint_of};
pub use laws::{
    mentioned_is_stated_or_above, nodes_hold_what_is_beneath, sheet_is_of_its_lines,
    tree_is_of_lines, tree_is_of_what_is_mentioned, tree_is_of_what_is_stated,
};
pub use names::name_len;
pub use node::{Nodes, is_leaf};
pub use number::{MOST_DIGITS, read_number};
pub use path::{LONGEST_NAME, read_named_path, read_path};
pub use read::is_skipped;
pub use sheet::{Sheet, read_sheet};
