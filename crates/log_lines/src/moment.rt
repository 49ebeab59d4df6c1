//! The second at which a transfer ended, in UTC.

ghost use Rattle.std.specs.Prelude.{◌≡◌, ◌<◌, pos, true, false, IfSome, MatchOption, option_map};
ghost use Rattle.log_lines.specs.Moments.{clock_at, clock_of, day_of, is_day, iso_day, moment_of, moment_taken, month_of, on_weekday, stated_day};
ghost use Rattle.log_lines.specs.Words.{parts, words_left};

use crate::number::{read_four, read_two};
use crate::word::{cut_at, ends, next_word};
use jiff_core::civil::Date;
use transfer_log::day_name;

/// A day of the calendar. Days are in the order of time.
#[derive(Clone, Copy, Debug, PartialEq, Eq, PartialOrd, Ord)]
pub struct LogDay {
    pub year: u16,
    pub month: u8,
    pub day: u8,
}

/// A second of the calendar, in UTC.
#[derive(Clone, Copy, Debug, PartialEq, Eq)]
pub struct LogMoment {
    pub day: LogDay,
    pub hour: u8,
    pub minute: u8,
    pub second: u8,
}

fn month_of(word: &str) -> Option<u8>
    ensures month { result ≡ month_of word.now }
{
    match word {
        "Jan" => Some(1),
        "Feb" => Some(2),
        "Mar" => Some(3),
        "Apr" => Some(4),
        "May" => Some(5),
        "Jun" => Some(6),
        "Jul" => Some(7),
        "Aug" => Some(8),
        "Sep" => Some(9),
        "Oct" => Some(10),
        "Nov" => Some(11),
        "Dec" => Some(12),
        _ => None,
    }
}

// The date of a year, a month and a day, if the calendar has it.
fn date_of(year: u16, month: u8, day: u8) -> Option<Date>
    requires year { year < 10000 }
    ensures date { MatchOption result (is_day year month day ≡ false)
        (λ date. (is_day year month day ≡ true) × (date.year ≡ pos year)
        × (date.month ≡ month) × (date.day ≡ day)) }
{
    if month < 1 || month > 12 || day < 1 {
        return None;
    }
    let date = Date::constrain(year as i16, month, day);
    if date.day == day { Some(date) } else { None }
}

fn day_of(year: u16, month: u8, day: u8) -> Option<LogDay>
    requires year { year < 10000 }
    ensures day { result ≡ day_of year month day }
{
    date_of(year, month, day)?;
    Some(LogDay { year, month, day })
}

// The day, if it is the one of the week that is stated.
fn on_weekday(weekday: &str, day: LogDay) -> Option<LogDay>
    requires year { day.year < 10000 }
    requires day { is_day day.year day.month day.day ≡ true }
    ensures day { result ≡ on_weekday weekday.now day }
{
    let date = date_of(day.year, day.month, day.day)?;
    if day_name(date.weekday().index()) == weekday {
        Some(day)
    } else {
        None
    }
}

// The day of a year, a month and a day, if each is stated and the calendar has it.
fn stated_day(year: Option<u16>, month: Option<u8>, day: Option<u8>) -> Option<LogDay>
    requires year { IfSome year (λ y. y < 10000) }
    ensures day { result ≡ stated_day year month day }
    ensures fine { IfSome result (λ d. (d.year < 10000) × (is_day d.year d.month d.day ≡ true)) }
{
    day_of(year?, month?, day?)
}

fn clock_at(hour: u8, minute: u8, second: u8) -> Option<(u8, u8, u8)>
    ensures clock { result ≡ clock_at hour minute second }
{
    if hour < 24 && minute < 60 && second < 60 {
        Some((hour, minute, second))
    } else {
        None
    }
}

// The hour, the minute and the second of `hh:mm:ss`.
fn clock_of(word: &str) -> Option<(u8, u8, u8)>
    ensures clock { result ≡ clock_of word.now }
{
    let [a, b, b':', c, d, b':', e, f] = word.as_bytes() else {
        return None;
    };
    let hour = read_two(&[*a, *b])?;
    let minute = read_two(&[*c, *d])?;
    let second = read_two(&[*e, *f])?;
    clock_at(hour, minute, second)
}

fn moment_of(weekday: &str, month: &str, day: &str, clock: &str, year: &str) -> Option<LogMoment>
    ensures moment { result ≡ moment_of weekday.now month.now day.now clock.now year.now }
{
    let year = read_four(year.as_bytes());
    let day = stated_day(year, month_of(month), read_two(day.as_bytes()))?;
    let day = on_weekday(weekday, day)?;
    let (hour, minute, second) = clock_of(clock)?;
    Some(LogMoment {
        day,
        hour,
        minute,
        second,
    })
}

/// Reads the moment that words begin with, and returns it with the words after it.
pub(crate) fn read_moment(rest: Option<&str>) -> Option<(LogMoment, Option<&str>)>
    ensures moment { option_map (λ x. (x.0, words_left 32 x.1)) result
        ≡ moment_taken (words_left 32 rest.entry) }
{
    let (weekday, rest) = next_word(rest)?;
    let (month, rest) = next_word(rest)?;
    let (day, rest) = next_word(rest)?;
    let (clock, rest) = next_word(rest)?;
    let (year, rest) = next_word(rest)?;
    let moment = moment_of(weekday, month, day, clock, year)?;
    Some((moment, rest))
}

/// Reads a day as `YYYY-MM-DD`, if the calendar has it.
pub fn read_day(word: &str) -> Option<LogDay>
    ensures day { result ≡ iso_day (parts 45 word.now) }
{
    let (year, rest) = cut_at(word, '-');
    let (month, rest) = cut_at(rest?, '-');
    let (day, rest) = cut_at(rest?, '-');
    if !ends(rest, '-') {
        return None;
    }
    let year = read_four(year.as_bytes());
    let month = read_two(month.as_bytes());
    stated_day(year, month, read_two(day.as_bytes()))
}
