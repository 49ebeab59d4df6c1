//! The configuration of a server: one TOML file, read whole.
//!
//! ```text
//! let text = migrate(rt.alloc(), SMALL.as_bytes())?; // a server and the user `ann`
//! holds(rt, text.as_str().contains("version = 2"));
//! let config = Config::read(rt.alloc(), SMALL.as_bytes())?; // as it is, in version 1
//! holds(rt, config.numbers.port == 2121);
//! holds(rt, config.settings.login_attempts == 3);
//! ```
//!
//! The tables that a file states (`config_file`) become a configuration part by part, in this order,
//! which is that of the faults:
//!
//! - `groups`, `rate_rows`, `limits`: groups and users are numbered, each with a row of rates.
//! - `users`: users and their overrides are added to an authorizer.
//! - `store`: the directories and files are made in a store in memory.
//! - `settings`: the settings of sessions and the numbers of the server are copied.
//!
//! `config` joins the parts. `fault` is the first refusal with its place, and `group_problem`,
//! `user_problem` and `store_problem` say what is wrong there; `similar` finds the key that may have
//! been meant. `migration` prints a file in version 2, unless it is too deep (`depth`). `numbers` is a law: a user has
//! one number in all parts.
//!
//! docs/configuration.md has each key with its kind, its range and its default, and the order of the faults.
#![tactic(auto)]

mod config;
mod depth;
mod fault;
mod group_names;
mod group_problem;
mod groups;
mod limits;
mod migration;
mod numbers;
mod rate_rows;
mod settings;
mod similar;
mod store;
mod store_problem;
mod user_problem;
mod users;

pub use config::Config;
pub use fault::{ConfigFault, OwnedHeader, OwnedKey, TextPlace, TextProblem};
pub use group_problem::GroupProblem;
pub use migration::{DEEPEST, LONGEST_TEXT, migrate, same_branches};
pub use numbers::numbers_agree;
pub use settings::ServerNumbers;
pub use store::ServedStore;
pub use store_problem::StoreProblem;
pub use user_problem::UserProblem;
