//! The second of a transfer's end, in the civil calendar.

ghost use Rattle.std.specs.Prelude.{◌≡◌, ◌≤◌, ◌++◌, ℕ, List, ◌<◌, OnOk, string_bytes, unsigned_abs};
ghost use Rattle.ftp_terms.specs.declared.entries.TheConstants.{LATEST};
ghost use Rattle.jiff_core.specs.Date.{weekday_of};
ghost use Rattle.ftp_reply.specs.Dates.{FallsOn};
ghost use Rattle.ftp_reply.specs.Listings.{month_name};
ghost use Rattle.transfer_log.specs.Moments.{IsMoment, clock_text, date_text, day_name, four_digits, two_digits};

use ftp_terms::LATEST;
use jiff_core::civil::Date;
use std::alloc::AllocError;

/// The name of a day of the week, from 0 for Monday.
pub fn day_name(number: u8) -> &'static str
    requires day { number ≤ 6 }
    ensures name { result.now ≡ day_name number }
{
    match number {
        0 => "Mon",
        1 => "Tue",
        2 => "Wed",
        3 => "Thu",
        4 => "Fri",
        5 => "Sat",
        _ => "Sun",
    }
}

fn month_name(month: u8) -> &'static str
    requires month { (1 ≤ month) × (month ≤ 12) }
    ensures name { result.now ≡ month_name month }
{
    match month {
        1 => "Jan",
        2 => "Feb",
        3 => "Mar",
        4 => "Apr",
        5 => "May",
        6 => "Jun",
        7 => "Jul",
        8 => "Aug",
        9 => "Sep",
        10 => "Oct",
        11 => "Nov",
        _ => "Dec",
    }
}

fn push_two(line: &mut String, n: u8) -> Result<(), AllocError>
    requires fits { n < 100 }
    ensures appended { OnOk result
        (string_bytes line.new ≡ string_bytes line.old ++ two_digits n) }
{
    line.push(char::from(b'0' + n / 10))?;
    line.push(char::from(b'0' + n % 10))
}

fn push_four(line: &mut String, n: u16) -> Result<(), AllocError>
    requires fits { n < 10000 }
    ensures appended { OnOk result
        (string_bytes line.new ≡ string_bytes line.old ++ four_digits n) }
{
    push_two(line, (n / 100) as u8)?;
    push_two(line, (n % 100) as u8)
}

fn push_date(line: &mut String, date: Date) -> Result<(), AllocError>
    ensures appended { OnOk result
        (string_bytes line.new ≡ string_bytes line.old ++ date_text date) }
{
    line.push_str(day_name(date.weekday().index()))?;
    line.push_str(" ")?;
    line.push_str(month_name(date.month))?;
    line.push_str(" ")?;
    push_two(line, date.day)?;
    line.push_str(" ")
}

fn push_clock(line: &mut String, seconds: u64) -> Result<(), AllocError>
    ensures appended { OnOk result
        (string_bytes line.new ≡ string_bytes line.old ++ clock_text seconds) }
{
    push_two(line, (seconds / 3600 % 24) as u8)?;
    line.push_str(":")?;
    push_two(line, (seconds / 60 % 60) as u8)?;
    line.push_str(":")?;
    push_two(line, (seconds % 60) as u8)?;
    line.push_str(" ")
}

// The day of the calendar, in UTC, that contains the moment.
fn date_of(seconds: u64) -> Date
    requires in_calendar { seconds ≤ LATEST }
    ensures falls_on { FallsOn seconds result }
{
    Date::from_unix_epoch_day((seconds / 86_400) as i64).unwrap()
}

// The year of a date, without a sign: no moment is before 1970.
fn year_of(date: Date) -> u16
    ensures year { result ≡ unsigned_abs date.year }
    ensures fits { result < 10000 }
{
    date.year.unsigned_abs()
}

/// Appends the moment, in seconds since 1970, as `DDD MMM dd hh:mm:ss YYYY` in UTC.
pub(crate) fn push_moment(line: &mut String, seconds: u64) -> Result<(), AllocError>
    requires in_calendar { seconds ≤ LATEST }
    ensures appended { OnOk result ((text : List ℕ) × IsMoment seconds text
        × (string_bytes line.new ≡ string_bytes line.old ++ text)) }
{
    let date = date_of(seconds);
    let year = year_of(date);
    push_date(line, date)?;
    push_clock(line, seconds)?;
    push_four(line, year)
}
