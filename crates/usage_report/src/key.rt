//! The keys by which transfers are added up.

ghost use Rattle.std.specs.Prelude.{◌≡◌, ◌++◌, IfOk, OnOk, codes, string_bytes};
ghost use Rattle.log_lines.specs.Lines.{line_view};
ghost use Rattle.usage_report.specs.Keys.{day_text, hour_text, key_of, two_digits, four_digits};

use log_lines::{LogDay, LogLine, LogMoment};
use std::alloc::{AllocError, Global};

/// A key by which transfers are added up.
#[derive(Clone, Copy, Debug, PartialEq, Eq)]
pub enum UsageKey {
    User,
    File,
    /// The hour of the end, in UTC.
    Hour,
    Address,
}

fn push_two(text: &mut String, n: u8) -> Result<(), AllocError>
    ensures appended { OnOk result
        (string_bytes text.new ≡ string_bytes text.old ++ two_digits n) }
{
    text.push(char::from(b'0' + n / 10 % 10))?;
    text.push(char::from(b'0' + n % 10))
}

fn push_four(text: &mut String, n: u16) -> Result<(), AllocError>
    ensures appended { OnOk result
        (string_bytes text.new ≡ string_bytes text.old ++ four_digits n) }
{
    push_two(text, (n / 100 % 100) as u8)?;
    push_two(text, (n % 100) as u8)
}

// `YYYY-MM-DD`
pub(crate) fn push_day(text: &mut String, day: LogDay) -> Result<(), AllocError>
    ensures appended { OnOk result
        (string_bytes text.new ≡ string_bytes text.old ++ day_text day) }
{
    push_four(text, day.year)?;
    text.push_str("-")?;
    push_two(text, day.month)?;
    text.push_str("-")?;
    push_two(text, day.day)
}

fn push_blank(text: &mut String) -> Result<(), AllocError>
    ensures appended { OnOk result (string_bytes text.new ≡ string_bytes text.old ++ codes " ") }
{
    text.push_str(" ")
}

// `YYYY-MM-DD hh`
fn push_hour(text: &mut String, moment: &LogMoment) -> Result<(), AllocError>
    ensures appended { OnOk result
        (string_bytes text.new ≡ string_bytes text.old ++ hour_text moment.now) }
{
    push_day(text, moment.day)?;
    push_blank(text)?;
    push_two(text, moment.hour)
}

fn hour_of(alloc: Global, moment: &LogMoment) -> Result<String, AllocError>
    ensures hour { IfOk result (λ text. string_bytes text ≡ hour_text moment.now) }
{
    let mut text = String::new(alloc);
    push_hour(&mut text, moment)?;
    Ok(text)
}

/// The key of a transfer: its user, its file, its hour as `YYYY-MM-DD hh`, or its address.
pub(crate) fn key_of(alloc: Global, by: UsageKey, line: &LogLine<'_>) -> Result<String, AllocError>
    ensures key { IfOk result (λ text. string_bytes text ≡ key_of by (line_view line.now)) }
{
    match by {
        UsageKey::User => String::from_str(alloc, line.user),
        UsageKey::File => String::from_str(alloc, line.path),
        UsageKey::Hour => hour_of(alloc, &line.ended),
        UsageKey::Address => String::from_str(alloc, line.address),
    }
}
