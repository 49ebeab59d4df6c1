//! A server of one's own: its users, rates and files in code, and a handler with the callbacks that are wanted.
//!
//! ```text
//! let mut server = FtpServer::at(rt.alloc(), [127, 0, 0, 1], 2121)?;
//! server.users.add_user("ann", "secret", "/", "elradfmw")?;
//! server.down_rate = 4_000_000; // octets per second
//! server.limit_user("ann", UserRates { session_down: 500_000, ..UserRates::NONE })?;
//! server.serve_folder(&rt, &rt, "/srv/ftp", NoHooks)?;
//! ```
//!
//! Whatever is not set has the value of a configuration that does not state it. A program names this crate alone: the
//! types of its calls are here too.
#![tactic(auto)]

mod fault;
mod from_config;
mod notes;
mod parts;
mod ranges;
mod rates;
mod rows;
mod server;
mod serving;
mod stop_flag;
mod stores;

pub use authorizer::{Authorizer, AuthorizerFault};
pub use client_patience::{Patience, TimeOut};
pub use fault::FtpServerFault;
pub use ftp_daemon::{
    EndSign, NoSigns, OwnerSigns, Reload, ReloadFault, ReloadSign, RoundClock, ServeFault,
    ServerRuntime, Terms, TextWriter,
};
pub use ftp_terms::{EntryKind, LineText, Meta};
pub use grant_ledger::{Book, BookName, Tally};
pub use line_rates::{GroupRate, Limits, LimitsFault, Name, ShareBy, UserRate, Way};
pub use memory_store::MemStore;
pub use notes::{NoTransferLog, StandardErrorNotes, notes_on_standard_error};
pub use paced_rounds::{SettledRounds, Settlement};
pub use page_store::{PageFault, PageStore, Pages};
pub use parts::{ServerParts, serve_stores};
pub use passive_ports::AdmitFault;
pub use ranges::NumberFault;
pub use rate_floors::CarryFault;
pub use rates::{SetRates, UserRates};
pub use recorded_store::{RecordedStore, StoreRecord};
pub use server::FtpServer;
pub use server_config::{Config, ConfigFault, ServedStore, ServerNumbers};
pub use server_house::{
    BegunTransfer, ClientSession, DeclinedCommand, EndCause, LaneLook, NoHooks, NotEnded,
    NotServed, Reloaded, ServerEvent, ServerHooks, ServerLook, SessionEvent, SessionRefusal,
    StoreNote, TransferKind, TransferRecord, UnguaranteedLogin,
};
pub use session_table::{HookCall, Settings};
pub use stop_flag::StopFlag;
pub use stores::{FolderStore, Stores, open_folder};
pub use virtual_path::VPath;
pub use virtual_tree::{ListedEntry, Sink, Source, Store, StoreFault, WriteMode};
