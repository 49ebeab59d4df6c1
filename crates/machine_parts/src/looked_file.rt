//! The status file of a server, read twice for one table.

ghost use Rattle.std.specs.Prelude.{◌≡◌, IfErr, IfOk, MatchOption, max, string_bytes};
ghost use Rattle.ftpd_program.specs.Against.{IsTextIn, IsUnread};
ghost use Rattle.server_status.specs.ReadBack.{HasStatus};
ghost use Rattle.status_table.specs.Looks.{IsLooksTable};
ghost use Rattle.machine_parts.specs.LookedFile.{IsAskedTable, IsNoStatus, IsNoTable, IsRefusedStatus, IsTextEnding};

use command_line::{Words, read_words};
use ftpd_program::{FtpdExit, Opener};
use server_status::{Status, StatusFault, read_status};
use sheets_program::{Exit as Common, Machine, is_input, text_cause};
use status_table::looks_lines;
use std::alloc::{AllocError, Global};
use std::io::Write;
use std::thread;
use std::time::Duration;
use text_io::{FallibleIo, TextFault, read_whole, write_whole};

/// Time between the two looks, in milliseconds: the file is written once a second, so the second look has a later
/// one.
const BETWEEN: u64 = 1_100;

/// Fewest lines of a table.
const LEAST_LINES: usize = 6;

fn text_ending(fault: TextFault, path: &str) -> FtpdExit<'_>
    ensures ending { IsTextEnding fault path.now result }
{
    FtpdExit::Common(Common::Text(fault, text_cause(fault, path, None)))
}

/// The octets of the file of a path, or the ending without them.
fn octets_of<'w, O: Opener>(
    alloc: Global,
    files: &mut O,
    path: &'w str,
) -> Result<Vec<u8>, Common<'w>>
    ensures text { IfOk result (λ octets. IsTextIn (O.Gives files.old path.now) octets.items) }
    ensures unread { IfErr result (IsUnread (O.Gives files.old path.now) path.now) }
{
    let mut file = match files.open(path) {
        Ok(file) => file,
        Err(error) => {
            let cause = text_cause(TextFault::ReadFault, path, Some(error));
            return Err(Common::Text(TextFault::ReadFault, cause));
        }
    };
    match read_whole(alloc, &mut file) {
        Ok(octets) => Ok(octets),
        Err(fault) => {
            let cause = text_cause(fault, path, O::reason(&file));
            Err(Common::Text(fault, cause))
        }
    }
}

/// The status that the octets of the file of a path are, or the ending without it.
fn first_status<'w>(alloc: Global, octets: &[u8], path: &'w str) -> Result<Status, FtpdExit<'w>>
    ensures status { IfOk result (HasStatus octets.now) }
    ensures refused { IfErr result (IsRefusedStatus octets.now path.now) }
{
    match read_status(alloc, octets) {
        Ok(status) => Ok(status),
        Err(StatusFault::Memory) => Err(text_ending(TextFault::Memory, path)),
        Err(fault) => Err(FtpdExit::Status { file: path, fault }),
    }
}

/// The status that octets are; none if they are none.
fn later_status(alloc: Global, octets: &[u8]) -> Result<Option<Status>, AllocError>
    ensures status { IfOk result (λ found.
        MatchOption found (IsNoStatus octets.now) (HasStatus octets.now)) }
{
    match read_status(alloc, octets) {
        Ok(status) => Ok(Some(status)),
        Err(StatusFault::Memory) => Err(AllocError),
        Err(_) => Ok(None),
    }
}

/// The status of the file of a path, or the ending without it.
fn first_look<'w, O: Opener>(
    alloc: Global,
    files: &mut O,
    path: &'w str,
) -> Result<Status, FtpdExit<'w>> {
    match octets_of(alloc, files, path) {
        Ok(octets) => first_status(alloc, octets.as_slice(), path),
        Err(ending) => Err(FtpdExit::Common(ending)),
    }
}

/// The status of the file of a path; none if it cannot be read now, or has none.
fn second_look<O: Opener>(
    alloc: Global,
    files: &mut O,
    path: &str,
) -> Result<Option<Status>, AllocError> {
    match octets_of(alloc, files, path) {
        Ok(octets) => later_status(alloc, octets.as_slice()),
        Err(_) => Ok(None),
    }
}

/// The table of two looks, in that number of lines at most, but not below the fewest.
fn table_of(
    alloc: Global,
    first: &Status,
    second: Option<&Status>,
    rows: u16,
) -> Result<String, AllocError>
    ensures table { IfOk result
        (λ text. IsLooksTable first.entry second.entry (max rows 6) (string_bytes text)) }
{
    let lines = usize::from(rows).max(LEAST_LINES);
    looks_lines(alloc, first, second, lines)
}

/// The table of this look at the file of a path and another.
fn looked_table(
    machine: &HostRuntime,
    path: &str,
    first: &Status,
    rows: u16,
) -> Result<String, AllocError> {
    thread::sleep(machine, Duration::from_millis(BETWEEN));
    let mut files = Machine { rt: machine };
    let second = second_look(machine.alloc(), &mut files, path)?;
    table_of(machine.alloc(), first, second.as_ref(), rows)
}

/// Writes the table of two looks at the status file of a path. Returns the ending.
fn looked<'w, W: Write>(
    machine: &HostRuntime,
    path: &'w str,
    rows: u16,
    output: &mut FallibleIo<W>,
) -> FtpdExit<'w> {
    let mut files = Machine { rt: machine };
    let first = match first_look(machine.alloc(), &mut files, path) {
        Ok(first) => first,
        Err(ending) => return ending,
    };
    let Ok(table) = looked_table(machine, path, &first, rows) else {
        return text_ending(TextFault::Memory, path);
    };
    match write_whole(table.as_str(), output) {
        Ok(()) => FtpdExit::Common(Common::Done),
        Err(fault) => text_ending(fault, path),
    }
}

/// The status file of which words ask for one table, and the lines of the table; none if they ask for something else.
/// Standard input has one status.
fn asked_table<'w>(words: Words<'w>) -> Option<(&'w str, u16)>
    ensures asked { MatchOption result (IsNoTable words.entry) (IsAskedTable words.entry) }
{
    match words {
        Words::Top { status, once, rows } if once && !is_input(status) => Some((status, rows)),
        _ => None,
    }
}

/// Writes the table of two looks at a status file, if the words ask for one table of a file. Returns the ending, or
/// none if they ask for something else; standard input has one status.
pub fn looked_at<'w, W: Write>(
    machine: &HostRuntime,
    words: &'w [&'w str],
    output: &mut FallibleIo<W>,
) -> Option<FtpdExit<'w>> {
    let Ok(words) = read_words(machine.alloc(), words) else {
        return None;
    };
    let (status, rows) = asked_table(words)?;
    Some(looked(machine, status, rows, output))
}
