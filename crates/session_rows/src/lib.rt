//! The rows of the session table, each a function with the name of its row there. Logins, parameters and data
//! connections make no call of the store; paths, changes, transfers and listings do.
//!
//! ```text
//! says(rt, type_row(state, DataType::Image), "200 Type is I\r\n");
//! let reported = mkd_row(state, store, &place); // or what the store refused
//! says(rt, reported, "257 \"/in\"\r\n");
//! let reported = rnfr_row(state, store, place); // the path is kept for RNTO
//! says(rt, reported, "350 Send RNTO\r\n");
//! ```
#![tactic(auto)]

mod changes;
mod connections;
mod fact_rows;
mod facts;
mod features;
mod files;
mod lines;
mod listing_rows;
mod login;
mod naming;
mod outcomes;
mod parameters;
mod paths;
mod quitting;
mod reported;
mod way;

pub use changes::{dele_row, mkd_row, rmd_row, rnfr_row, rnto_row};
pub use connections::{abor_row, eprt_row, epsv_row, pasv_row, port_row};
pub use fact_rows::mlst_row;
pub use facts::{mdtm_row, size_row};
pub use features::{feat_row, opts_row};
pub use files::{appe_row, retr_row, stor_row};
pub use listing_rows::{list_row, mlsd_row, stat_row};
pub use login::pass_row;
pub use naming::{greeting, rein_row, user_row};
pub use parameters::{pwd_row, rest_row, status_row, type_row};
pub use paths::cwd_row;
pub use quitting::quit_row;
