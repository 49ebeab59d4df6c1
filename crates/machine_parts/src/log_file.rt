//! The file of the transfer log.

ghost use Rattle.std.specs.Prelude.{◌≡◌, ◌≤◌, ◌<◌, IfErr, IfOk, MatchResult, Some, false, length, string_bytes, true};
ghost use Rattle.std.specs.IoError.{raw_os_error};
ghost use Rattle.counted_file.specs.Calls.{IsCounted, no_calls};
ghost use Rattle.machine_parts.specs.Answers.{is_log_mode};
ghost use Rattle.machine_parts.specs.LogCalls.{IsAnew, IsCountedAnew};

use crate::options::log_options;
use counted_file::CountedFile;
use std::fs::File;
use std::os::unix::fs::{MetadataExt, OpenOptionsExt};
use std::{fs, io};
use transfer_log::{FileNumbers, must_open};

/// A file that is open, with its numbers.
#[derive(Drop)]
struct OpenLog {
    file: CountedFile<File>,
    numbers: Option<FileNumbers>,
}

/// The file of a path, to which lines are appended. It is opened anew, before a line, once another file or none is at the
/// path: so it may be moved away at any time.
#[derive(Drop)]
pub struct LogFile {
    machine: HostRuntime,
    path: String,
    open: OpenLog,
}

fn numbers_of(found: io::Result<fs::Metadata>) -> Option<FileNumbers> {
    match found {
        Ok(found) => Some(FileNumbers {
            device: found.dev(),
            inode: found.ino(),
        }),
        Err(_) => None,
    }
}

/// The permissions of a new log: its group may read it.
const MODE: u32 = 0o640;

/// Number of the machine's error "Operation not supported".
const NO_LOG: i32 = 95;

/// Returns whether a file of this mode (inode(7)) can be a log: a regular one, or a character device, such as a terminal.
fn is_log(mode: u32) -> bool
    ensures log { result ≡ is_log_mode mode }
{
    let kind = mode / 4_096 % 16;
    kind == 8 || kind == 2
}

// An open file of this mode, with its numbers. `Err` if it can be no log.
fn checked(file: File, mode: u32, numbers: Option<FileNumbers>) -> io::Result<OpenLog>
    ensures log { IfOk result (λ _. is_log_mode mode ≡ true) }
    ensures none { IfErr result (λ _. is_log_mode mode ≡ false) }
    ensures file { IfOk result (λ log. log.file ≡ record { file = file; calls = no_calls }) }
    ensures numbers { IfOk result (λ log. log.numbers ≡ numbers) }
    ensures refused { IfErr result (λ reason. raw_os_error reason ≡ Some NO_LOG) }
{
    if !is_log(mode) {
        return Err(io::Error::from_raw_os_error(NO_LOG));
    }
    Ok(OpenLog {
        file: CountedFile::new(file),
        numbers,
    })
}

// Opens a log for reading and appending, which waits for nobody at the other end of a pipe (fifo(7)), and looks at it by
// its descriptor. What can be no log is refused.
fn opened(machine: &HostRuntime, path: &str) -> io::Result<OpenLog>
    ensures calls { IfOk result (λ log. log.file.calls ≡ no_calls) }
{
    let file = log_options().mode(MODE).open(machine, path)?;
    let found = file.metadata()?;
    let mode = found.mode();
    checked(file, mode, numbers_of(Ok(found)))
}

impl LogFile {
    /// The transfer log at a path. `Err` is the machine's reason if its file cannot be opened, with the path.
    pub fn at(machine: HostRuntime, path: String) -> Result<LogFile, (String, io::Error)>
        ensures path { IfOk result (λ log. log.path ≡ path) }
        ensures refused { IfErr result (λ refused. refused.0 ≡ path) }
    {
        match opened(&machine, path.as_str()) {
            Ok(open) => Ok(LogFile {
                machine,
                path,
                open,
            }),
            Err(reason) => Err((path, reason)),
        }
    }

    /// Returns the path.
    pub fn path(&self) -> &str
        ensures path { result.now ≡ string_bytes self.now.path }
    {
        self.path.as_str()
    }

    // Takes a file that was opened anew, if it could be. Returns whether it could.
    fn take(&mut self, opened: io::Result<OpenLog>) -> bool
        ensures taken { MatchResult opened (λ log. self.new.open ≡ log)
            (λ _. self.new.open ≡ self.old.open) }
        ensures another { MatchResult opened (λ _. result ≡ true) (λ _. result ≡ false) }
        ensures path { self.new.path ≡ self.old.path }
    {
        match opened {
            Ok(open) => {
                self.open = open;
                true
            }
            Err(_) => false,
        }
    }

    /// Opens the file anew if it was moved away. The one that is open stays if that fails. Returns whether another one is
    /// open now.
    pub fn reopen(&mut self) -> bool
        ensures same { result ≡ false → self.new.open ≡ self.old.open }
        ensures another { result ≡ true → self.new.open.file.calls ≡ no_calls }
        ensures path { self.new.path ≡ self.old.path }
    {
        let there = numbers_of(fs::metadata(&self.machine, self.path.as_str()));
        if !must_open(self.open.numbers, there) {
            return false;
        }
        let opened = opened(&self.machine, self.path.as_str());
        self.take(opened)
    }

    // Before a line, opens the file anew if it was moved away. One that goes on stays in its file.
    fn begin(&mut self, goes_on: bool)
        ensures same { goes_on ≡ true → self.new.open ≡ self.old.open }
        ensures anew { IsAnew self.old.open.file.calls self.new.open.file.calls }
        ensures path { self.new.path ≡ self.old.path }
    {
        if !goes_on {
            self.reopen();
        }
    }

    /// Appends some of these octets, which begin a line unless `goes_on`: then the file is opened anew first, if it was moved
    /// away. Returns their number. `Err` is the machine's reason if it takes none.
    pub fn append(&mut self, octets: &[u8], goes_on: bool) -> io::Result<usize>
        ensures bound { IfOk result (λ count. count ≤ length octets.now) }
        ensures some { IfOk result (λ count. 0 < count) }
        ensures counted { goes_on ≡ true
            → IsCounted result self.old.open.file.calls self.new.open.file.calls }
        ensures anew { IsCountedAnew result self.old.open.file.calls self.new.open.file.calls }
        ensures path { self.new.path ≡ self.old.path }
    {
        self.begin(goes_on);
        self.open.file.write_some(octets)
    }
}
