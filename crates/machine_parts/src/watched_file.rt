//! The status file of a server, which is read once a second.

use ftpd_program::{FtpdExit, StatusSource, watch};
use sheets_program::{Exit as Common, text_cause};
use std::alloc::Global;
use std::io::Write;
use std::time::Duration;
use std::{fs, thread};
use text_io::{FallibleIo, read_whole};

/// Time between two looks at the file, in milliseconds.
const LOOK: u64 = 1_000;

/// A status file of the machine.
#[derive(Drop)]
struct StatusFile<'w> {
    machine: HostRuntime,
    path: &'w str,
}

impl StatusSource for StatusFile<'_> {
    fn wait(&mut self) -> bool {
        thread::sleep(&self.machine, Duration::from_millis(LOOK));
        true
    }

    fn read(&mut self, alloc: Global) -> Option<Vec<u8>> {
        match fs::open(&self.machine, self.path) {
            Ok(file) => read_whole(alloc, &mut FallibleIo(file)).ok(),
            Err(_) => None,
        }
    }
}

/// Shows the transfers of a status file once a second, if the ending of the command asks for it. Returns the ending.
pub fn watched<'w, W: Write>(
    machine: &HostRuntime,
    ending: FtpdExit<'w>,
    output: &mut FallibleIo<W>,
) -> FtpdExit<'w> {
    let FtpdExit::Watches { status, rows } = ending else {
        return ending;
    };
    let mut source = StatusFile {
        machine: *machine,
        path: status,
    };
    match watch(machine.alloc(), rows, &mut source, output) {
        Ok(()) => FtpdExit::Common(Common::Done),
        Err(fault) => FtpdExit::Common(Common::Text(fault, text_cause(fault, status, None))),
    }
}
