//! The files of the machine that the program runs on: they are opened for commands, and examined for reports.

use config_report::{Lookout, Sight};
use folder_store::DirStore;
use ftp_terms::EntryKind;
use last_fault::LastFault;
use sheets_program::{Machine, Opener, is_input};
use std::os::unix::fs::PermissionsExt;
use std::{fs, io};
use virtual_path::VPath;
use virtual_tree::Store;

/// The files of the machine.
#[derive(Drop)]
pub struct MachineFiles<'r> {
    files: Machine<'r, HostRuntime>,
}

impl<'r> MachineFiles<'r> {
    /// Those of this machine.
    pub fn of(machine: &'r HostRuntime) -> MachineFiles<'r> {
        MachineFiles {
            files: Machine { rt: machine },
        }
    }
}

impl<'r> Opener for MachineFiles<'r> {
    type End = <Machine<'r, HostRuntime> as Opener>::End;

    fn open(&mut self, path: &str) -> io::Result<<Machine<'r, HostRuntime> as Opener>::End> {
        self.files.open(path)
    }

    fn reason(end: &<Machine<'r, HostRuntime> as Opener>::End) -> Option<io::Error> {
        Machine::<'r, HostRuntime>::reason(end)
    }
}

/// Returns whether the entries of a folder can be listed.
fn is_listed(machine: &HostRuntime, path: &str) -> bool {
    fs::read_dir(machine, path).is_ok()
}

/// Returns what is at the path of a folder.
fn sight_at(machine: &HostRuntime, path: &str) -> Sight {
    match fs::metadata(machine, path) {
        Ok(found) if !found.is_dir() => Sight::NoFolder,
        Ok(_) if is_listed(machine, path) => Sight::Listed,
        Err(reason) if reason.kind() == io::ErrorKind::NotFound => Sight::Absent,
        Err(reason) if reason.kind() == io::ErrorKind::NotADirectory => Sight::NoFolder,
        _ => Sight::Closed,
    }
}

/// Returns whether a home is a directory of the folder at a path, as a session finds it: a link is none.
fn is_home_at(machine: &HostRuntime, root: &str, home: &VPath) -> bool {
    // Nobody asks for the error of a fault here.
    let Ok(fault) = LastFault::new(machine.alloc()) else {
        return false;
    };
    let Ok(mut store) = DirStore::new(*machine, root, fault) else {
        return false;
    };
    match store.stat(home) {
        Ok(meta) => meta.kind == EntryKind::Directory,
        Err(_) => false,
    }
}

/// Returns the permission bits of the file at a path, if there is one.
fn mode_at(machine: &HostRuntime, path: &str) -> Option<u32> {
    match fs::metadata(machine, path) {
        Ok(found) if found.is_file() => Some(found.permissions().mode()),
        _ => None,
    }
}

impl Lookout for MachineFiles<'_> {
    fn folder(&self, path: &str) -> Sight {
        sight_at(self.files.rt, path)
    }

    fn has_home(&self, root: &str, home: &VPath) -> bool {
        is_home_at(self.files.rt, root, home)
    }

    fn mode(&self, path: &str) -> Option<u32> {
        if is_input(path) {
            return None;
        }
        mode_at(self.files.rt, path)
    }
}
