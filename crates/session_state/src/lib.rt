//! The state of a session, locations, and replies of one line.
//!
//! ```text
//! state.change_directory(path); // each such call changes just what its name says
//! holds(rt, state.cwd().text() == "/in");
//! let reported = state.reply_notice(Notice::DirectoryChanged); // actions, of which one is a reply
//! says(rt, reported, "250 Directory changed\r\n");
//! ```
#![tactic(auto)]

mod answers;
mod changes;
mod leaving;
mod location;
mod reported;
mod room;
mod state;

pub use answers::{copied, made, path_answer};
pub use leaving::{GoodbyeReply, push_abort, push_goodbye_reply, push_logout};
pub use location::Location;
pub use room::{RowResult, push_reserved, room_for, with_room};
pub use state::State;
