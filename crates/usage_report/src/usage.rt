//! The sums over the lines of logs.

ghost use Rattle.std.specs.Prelude.{◌≡◌, ◌∷◌, [], IfOk, IfSome, None, OnOk, Some, is_some, string_bytes, unwrap_or};
ghost use Rattle.std.specs.BTreeMap.{get_by_text};
ghost use Rattle.log_lines.specs.Lines.{line_of, line_view};
ghost use Rattle.usage_report.specs.Adding.{no_tally};
ghost use Rattle.usage_report.specs.Looks.{IsLogTaken};
ghost use Rattle.usage_report.specs.Usages.{HasSeen, IsCounted, IsRowAdded, IsUsageOf, is_on_day};

use crate::adding::{Sums, plus};
use crate::fault::UsageFault;
use crate::key::{UsageKey, key_of};
use crate::log::take_lines;
use crate::look::LogLook;
use log_lines::{LogDay, LogLine, read_line};
use std::alloc::Global;
use std::collections::BTreeMap;
use std::io::BufRead;

/// Sums over transfers, by a key.
#[derive(Drop)]
pub struct Usage {
    pub by: UsageKey,
    /// The day of the transfers that are counted; all are, if it is `None`.
    pub day: Option<LogDay>,
    /// The sums of each key that has a transfer.
    pub rows: BTreeMap<String, Sums>,
    /// The sums of all.
    pub total: Sums,
}

// The day is the one that is stated, if one is.
fn is_on(day: Option<LogDay>, ended: LogDay) -> bool
    ensures counted { result ≡ is_on_day day ended }
{
    match day {
        Some(day) => day == ended,
        None => true,
    }
}

/// The sums of a key.
fn row_at(rows: &BTreeMap<String, Sums>, key: &str) -> Sums
    ensures row { result ≡ unwrap_or (get_by_text rows.now key.now) no_tally }
{
    rows.get(key).copied().unwrap_or(Sums::NONE)
}

// Adds a transfer to the row of a key.
fn add_row(
    rows: &mut BTreeMap<String, Sums>,
    key: String,
    line: &LogLine<'_>,
) -> Result<(), UsageFault>
    ensures row { OnOk result
        (IsRowAdded rows.old rows.new (string_bytes key) (line_view line.now)) }
{
    let row = row_at(rows, key.as_str());
    let Some(row) = plus(row, line) else {
        return Err(UsageFault::TooMuch);
    };
    let Ok(_) = rows.insert(key, row) else {
        return Err(UsageFault::Memory);
    };
    Ok(())
}

impl Usage {
    /// The sums of no lines.
    pub fn new(alloc: Global, by: UsageKey, day: Option<LogDay>) -> Usage
        ensures key { result.by ≡ by }
        ensures day { result.day ≡ day }
        ensures none { IsUsageOf result [] }
    {
        Usage {
            by,
            day,
            rows: BTreeMap::new(alloc),
            total: Sums::NONE,
        }
    }

    // Adds a transfer to the row of its key, and to the total.
    fn count(&mut self, alloc: Global, line: &LogLine<'_>) -> Result<(), UsageFault>
        ensures counted { OnOk result (IsCounted self.old self.new (line_view line.now)) }
    {
        let Some(total) = plus(self.total, line) else {
            return Err(UsageFault::TooMuch);
        };
        let key = key_of(alloc, self.by, line)?;
        add_row(&mut self.rows, key, line)?;
        self.total = total;
        Ok(())
    }

    fn take_read(&mut self, alloc: Global, line: &LogLine<'_>) -> Result<(), UsageFault>
        ensures seen { OnOk result
            (HasSeen self.old self.new (Some (line_view line.now) ∷ [])) }
    {
        if is_on(self.day, line.ended.day) {
            self.count(alloc, line)
        } else {
            Ok(())
        }
    }

    // Takes a line without its end. Returns whether it is of the form.
    pub(crate) fn take_line(&mut self, alloc: Global, line: &[u8]) -> Result<bool, UsageFault>
        ensures seen { OnOk result (HasSeen self.old self.new (line_of line.now ∷ [])) }
        ensures read { IfOk result (λ read. read ≡ is_some (line_of line.now)) }
    {
        match read_line(line) {
            Some(line) => {
                self.take_read(alloc, &line)?;
                Ok(true)
            }
            None => Ok(false),
        }
    }

    /// Adds the lines of a log; the last may lack its end. Returns what was seen of it. Fails if a sum is not below 2^64,
    /// if the log cannot be read, or if memory runs out; the sums are then of no use.
    pub fn take_log<R: BufRead>(
        &mut self,
        alloc: Global,
        reader: &mut R,
    ) -> Result<LogLook, UsageFault>
        ensures taken { IfOk result (λ look. IfSome (R.remaining reader.old)
            (IsLogTaken self.old self.new look)) }
    {
        take_lines(alloc, self, reader)
    }
}
