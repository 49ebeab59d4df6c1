//! The users of an FTP server, and their permissions.
//!
//! ```text
//! let mut users = Authorizer::new(rt.alloc())?;
//! users.add_user("ann", "secret", "/home/ann", "elr")?;
//! users.override_perm("ann", "/in", "w", true)?; // and what is below it
//! holds(rt, users.check_password("ann", "secret"));
//! holds(rt, users.has_perm("ann", Letter::Store, path)); // the path is `/in/f`
//! ```
#![tactic(auto)]

mod account;
mod allowed;
mod authorizer;
mod fault;
mod laws;
mod password;
mod renumber;
mod table;

pub use authorizer::Authorizer;
pub use fault::AuthorizerFault;
pub use laws::{allowed_by_the_deepest, each_has_own_number, no_number_again, numbers_are_kept};
