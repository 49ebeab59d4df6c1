//! The ready file of the machine.

use crate::options::new_file_options;
use ftpd_program::ReadyFile;
use std::{fs, io};

/// A file of the machine that is there while a server is ready.
#[derive(Drop)]
pub struct MachineReadyFile {
    pub machine: HostRuntime,
    pub path: String,
    pub is_there: bool,
}

impl ReadyFile for MachineReadyFile {
    ghost is_there = { λ f. f.is_there };

    fn is_there(&self) -> bool {
        self.is_there
    }

    // A file that exists is not opened: it is somebody else's.
    fn make(&mut self) -> io::Result<()> {
        match new_file_options().open(&self.machine, self.path.as_str()) {
            Ok(_) => {
                self.is_there = true;
                Ok(())
            }
            Err(reason) => Err(reason),
        }
    }

    fn remove(&mut self) {
        self.is_there = false;
        let _ = fs::remove_file(&self.machine, self.path.as_str());
    }
}
