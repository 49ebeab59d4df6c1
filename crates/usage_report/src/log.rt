//! One log, read line by line: no more than a line is held.

ghost use Rattle.std.specs.Prelude.{◌≡◌, IfOk, IfSome, OnOk, false};
ghost use Rattle.usage_report.specs.Looks.{ComesToEnd, IsLogTaken, TakesFrom};
ghost use Rattle.usage_report.specs.Usages.{without_end};

use crate::fault::UsageFault;
use crate::look::LogLook;
use crate::usage::Usage;
use std::alloc::Global;
use std::io;
use std::io::{BufRead, ErrorKind};

fn without_end(text: &[u8]) -> &[u8]
    ensures text { result.now ≡ without_end text.now }
{
    match text {
        [front @ .., b'\n'] => front,
        _ => text,
    }
}

fn read_fault(error: io::Error) -> UsageFault {
    if error.kind() == ErrorKind::OutOfMemory {
        UsageFault::Memory
    } else {
        UsageFault::Read(error)
    }
}

// Takes the next line, with its end. Returns `false` at the end of the log.
fn take_next<R: BufRead>(
    alloc: Global,
    usage: &mut Usage,
    look: &mut LogLook,
    line: &mut Vec<u8>,
    reader: &mut R,
) -> Result<bool, UsageFault>
    ensures taken { OnOk result (TakesFrom usage.old usage.new look.old look.new
        (R.remaining reader.old) (R.remaining reader.new)) }
    ensures end { IfOk result (λ more. more ≡ false
        → ComesToEnd (R.remaining reader.old) (R.remaining reader.new)) }
{
    line.clear();
    let count = match reader.read_until(b'\n', line) {
        Ok(count) => count,
        Err(error) => return Err(read_fault(error)),
    };
    if count == 0 {
        return Ok(false);
    }
    let is_read = usage.take_line(alloc, without_end(line.as_slice()))?;
    let Some(after) = look.after(is_read) else {
        return Err(UsageFault::TooMuch);
    };
    *look = after;
    Ok(true)
}

/// Takes the lines of a log, all of them. Returns what was seen of it.
pub(crate) fn take_lines<R: BufRead>(
    alloc: Global,
    usage: &mut Usage,
    reader: &mut R,
) -> Result<LogLook, UsageFault>
    ensures taken { IfOk result (λ look. IfSome (R.remaining reader.old)
        (IsLogTaken usage.old usage.new look)) }
{
    let mut look = LogLook::none();
    let mut line = Vec::new(alloc);
    'lines: for _ in 0..u64::MAX {
        if !take_next(alloc, usage, &mut look, &mut line, reader)? {
            return Ok(look);
        }
    }
    Err(UsageFault::TooMuch)
}
