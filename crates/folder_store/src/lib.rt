//! A store over a folder of the machine.
//!
//! [`DirStore`] serves a folder and everything beneath it, and never leaves it: a call goes down name by
//! name; each directory on the way is opened by a call that refuses a link, and kept open while its entries are accessed
//! by name. Symbolic links below the folder are neither followed nor listed; sockets, pipes and devices are
//! not listed. An entry that is not listed still exists: nothing is created in its place, and its directory
//! is not empty.
//!
//! All calls on files go to one [`FolderMachine`], so contracts name the calls that a store makes, and their order.
//!
//! ```text
//! let path = VPath::root(rt.alloc()).resolve(rt.alloc(), "/report")?;
//! let mut store = DirStore::new(rt, folder, fault)?; // serves the folder and all beneath it
//! let mut sink = store.open_write(&path, WriteMode::New, 951_827_696_000)?;
//! sink.write(b"all is well")?;
//! store.finish(sink, 951_827_696_000)?; // milliseconds since 1970
//! ```
//!
//! A new file is created only at a free path, one without even a link. An existing file is opened without
//! truncation, and is read or cut only if it is the very one that was examined. A rename replaces only the
//! empty entry that it created itself at the new name, which was free.
//!
//! Another process of the machine can still do the following. If a directory may be entered but not read,
//! or the machine has no `/proc`, it can put a symbolic link in the directory's place after the check and
//! before the call; the call then follows that link, which may lead out of the folder. Octets that it
//! writes into the empty entry of a rename are lost. A pipe that it puts in a file's place blocks the call
//! of a download, and that of an upload if this process may only read or only write that pipe. So no
//! process may write below the folder unless it is trusted with everything that this one can access.
//!
//! The state after a call that was refused for the device is left to the machine; a rename leaves the entry
//! at one of its two paths.
#![tactic(auto)]

mod changes;
mod count;
mod entry_name;
mod fault;
mod files;
mod files_machine;
mod folder;
mod leaving;
mod listing;
mod look;
mod looked;
mod machine;
mod machine_path;
mod moving;
mod open;
mod opening;
mod options;
mod statx;
mod store;

pub use entry_name::EntryName;
pub use fault::MachineFault;
pub use files_machine::OpenDirectory;
pub use leaving::LeaveSign;
pub use looked::{Looked, LookedKind};
pub use machine::FolderMachine;
pub use open::{DirSink, DirSource, write_new};
pub use store::DirStore;
