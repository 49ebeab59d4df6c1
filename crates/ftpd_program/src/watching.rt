//! The transfers of a server, shown again and again.

ghost use Rattle.std.specs.Prelude.{◌≡◌, ◌≤◌, ◌⊎◌, ◌++◌, ℕ, List, None, OnOk, IfErr, IfOk, string_bytes};
ghost use Rattle.std.specs.Io.KnownBytes.{Appends};
ghost use Rattle.ftpd_program.specs.Watching.{AreScreens, IsScreen, IsTableOrNone, cleared, one_text, still_text, table_rows};

use server_status::{Status, StatusFault, read_status};
use status_table::table_lines;
use std::alloc::{AllocError, Global};
use text_io::{TextFault, TextWriter, write_whole};

/// Number of the statuses that are kept: those of some ten seconds.
const KEPT: usize = 11;

/// Number of looks without a new status after which this is told.
const STILL: u64 = 5;

/// Fewest lines of a table.
const LEAST_LINES: usize = 6;

/// Clears the screen of a terminal, and goes to its first place.
const CLEAR: &str = "\u{1b}[H\u{1b}[J";

/// A status file that a watch waits for and reads.
pub trait StatusSource {
    /// Waits until the status file is to be read again. Returns whether it is.
    fn wait(&mut self) -> bool;

    /// Reads the status file. Returns its octets; none if it cannot be read now.
    fn read(&mut self, alloc: Global) -> Option<Vec<u8>>;
}

/// The statuses of the last seconds, oldest first.
#[derive(Drop)]
struct Looks {
    past: Vec<Status>,
    /// Number of looks since there was a new one.
    still: u64,
}

impl Looks {
    /// Returns whether a status is of another moment than the last one.
    fn is_new(&self, status: &Status) -> bool {
        match self.past.last() {
            Some(last) => last.started != status.started || last.micros != status.micros,
            None => true,
        }
    }

    /// Returns whether a status is of another start of the server than the last one.
    fn is_restart(&self, status: &Status) -> bool {
        match self.past.last() {
            Some(last) => last.started != status.started,
            None => false,
        }
    }

    /// Takes the status of a look, if there is one.
    fn take(&mut self, status: Option<Status>) -> Result<(), AllocError> {
        let Some(status) = status else {
            self.still = self.still.saturating_add(1);
            return Ok(());
        };
        if !self.is_new(&status) {
            self.still = self.still.saturating_add(1);
            return Ok(());
        }
        self.still = 0;
        if self.is_restart(&status) {
            self.past.clear();
        }
        if self.past.len() >= KEPT {
            let _oldest = self.past.remove(0);
        }
        self.past.push(status)?;
        Ok(())
    }

    /// The number of seconds without a new status, if this is told.
    fn reported_still(&self) -> Option<u64> {
        if self.still >= STILL {
            Some(self.still)
        } else {
            None
        }
    }

    /// The table of the last status; nothing if there has been none yet.
    fn table(&self, alloc: Global, lines: usize) -> Result<String, AllocError>
        requires lines { 6 ≤ lines }
        ensures table { IfOk result (λ text. IsTableOrNone lines (string_bytes text)) }
    {
        let past = self.past.as_slice();
        let Some(now) = past.last() else {
            return Ok(String::new(alloc));
        };
        if past.len() < 2 {
            return table_lines(alloc, None, None, now, lines);
        }
        let (earlier, before) = (&past[0], &past[past.len() - 2]);
        table_lines(alloc, Some(earlier), Some(before), now, lines)
    }

    /// The screen after a look.
    fn screen(&self, alloc: Global, rows: u16) -> Result<String, AllocError>
        ensures screen { IfOk result (λ text. IsScreen rows (string_bytes text)) }
    {
        let still = self.reported_still();
        let table = self.table(alloc, table_rows(rows, still))?;
        screen_text(alloc, table.as_str(), still)
    }
}

/// A screen that is cleared and has a table, and below it that there has been no new status, if this is told.
fn screen_text(alloc: Global, table: &str, still: Option<u64>) -> Result<String, AllocError>
    ensures text { IfOk result
        (λ text. string_bytes text ≡ cleared ++ table.now ++ still_text still) }
{
    let mut text = String::from_str(alloc, CLEAR)?;
    text.push_str(table)?;
    push_still(&mut text, still)?;
    Ok(text)
}

/// The lines that are left to the table.
fn table_rows(rows: u16, still: Option<u64>) -> usize
    ensures rows { result ≡ table_rows rows still }
{
    let reported: usize = if still.is_some() { 1 } else { 0 };
    usize::from(rows)
        .saturating_sub(1)
        .saturating_sub(reported)
        .max(LEAST_LINES)
}

/// Appends that there has been no new status for some seconds, if this is told.
fn push_still(text: &mut String, still: Option<u64>) -> Result<(), AllocError>
    ensures appended { OnOk result
        (string_bytes text.new ≡ string_bytes text.old ++ still_text still) }
{
    match still {
        Some(seconds) => writeln!(
            text,
            "no new status for {seconds} seconds: the server has ended, or writes no more"
        ),
        None => Ok(()),
    }
}

/// Looks at the status file. Returns none if it cannot be read now, or has no status.
fn look<S: StatusSource>(alloc: Global, source: &mut S) -> Result<Option<Status>, AllocError> {
    let Some(octets) = source.read(alloc) else {
        return Ok(None);
    };
    match read_status(alloc, octets.as_slice()) {
        Ok(status) => Ok(Some(status)),
        Err(StatusFault::Memory) => Err(AllocError),
        Err(_) => Ok(None),
    }
}

/// The screen after one more look.
fn next_screen<S: StatusSource>(
    alloc: Global,
    rows: u16,
    seen: &mut Looks,
    source: &mut S,
) -> Result<String, AllocError>
    ensures screen { IfOk result (λ text. IsScreen rows (string_bytes text)) }
{
    let status = look(alloc, source)?;
    seen.take(status)?;
    seen.screen(alloc, rows)
}

fn write_screen<S: StatusSource, W: TextWriter>(
    alloc: Global,
    rows: u16,
    seen: &mut Looks,
    source: &mut S,
    output: &mut W,
) -> Result<(), TextFault>
    ensures screen { OnOk result ((text : List ℕ) × IsScreen rows text
        × Appends (W.contents output.old) (W.contents output.new) text) }
    ensures fault { IfErr result (λ fault.
        (fault ≡ TextFault.Memory) ⊎ (fault ≡ TextFault.WriteFault)) }
{
    let Ok(text) = next_screen(alloc, rows, seen, source) else {
        return Err(TextFault::Memory);
    };
    write_whole(text.as_str(), output)
}

/// Shows the transfers of a server again and again: waits, reads the status file, and writes a screen of at most this
/// number of lines, until there is nothing to wait for any more.
///
/// `WriteFault`: the writer refuses a screen. `Memory`: memory ran out.
pub fn watch<S: StatusSource, W: TextWriter>(
    alloc: Global,
    rows: u16,
    source: &mut S,
    output: &mut W,
) -> Result<(), TextFault>
    ensures screens { OnOk result ((screens : List (List ℕ)) × AreScreens rows screens
        × Appends (W.contents output.old) (W.contents output.new) (one_text screens)) }
    ensures fault { IfErr result (λ fault.
        (fault ≡ TextFault.Memory) ⊎ (fault ≡ TextFault.WriteFault)) }
{
    let mut seen = Looks {
        past: Vec::new(alloc),
        still: 0,
    };
    'looks: for _ in 0..u64::MAX {
        if !source.wait() {
            return Ok(());
        }
        write_screen(alloc, rows, &mut seen, source, output)?;
    }
    Ok(())
}
