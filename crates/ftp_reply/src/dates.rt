//! Moments in the civil calendar.

ghost use Rattle.std.specs.Prelude.{IfOk, ◌≡◌, ◌≤◌, ◌+◌, ◌/◌, ◌%◌, ◌∷◌, [], unsigned_abs};
ghost use Rattle.std.specs.Str.{IsAscii};
ghost use Rattle.ftp_terms.specs.LineText.{text_of};
ghost use Rattle.ftp_reply.specs.Dates.{FallsOn, IsTimeVal};
ghost use Rattle.ftp_reply.specs.Numbers.{zeroed};

use ftp_terms::{LATEST, LineText};
use jiff_core::civil::Date;
use std::alloc::{AllocError, Allocator};

/// The day of the calendar, in UTC, that contains the moment.
pub(crate) fn date_of(seconds: u64) -> Date
    requires in_calendar { seconds ≤ LATEST }
    ensures falls_on { FallsOn seconds result }
{
    Date::from_unix_epoch_day((seconds / 86_400) as i64).unwrap()
}

/// The year of a date, without a sign: no moment is before 1970.
pub(crate) fn year_of(date: Date) -> u16
    ensures year { result ≡ unsigned_abs date.year }
    ensures fits { result ≤ 9999 }
{
    date.year.unsigned_abs()
}

fn two_digits(n: u32) -> [u8; 2]
    requires fits { n ≤ 99 }
    ensures octets { result ≡ (48 + n / 10) ∷ (48 + n % 10) ∷ [] }
    ensures digits { result ≡ zeroed 2 n }
{
    [b'0' + (n / 10) as u8, b'0' + (n % 10) as u8]
}

fn four_digits(n: u32) -> [u8; 4]
    requires fits { n ≤ 9999 }
    ensures octets { result ≡ (48 + n / 1000) ∷ (48 + n / 100 % 10) ∷ (48 + n / 10 % 10)
        ∷ (48 + n % 10) ∷ [] }
    ensures digits { result ≡ zeroed 4 n }
{
    [
        b'0' + (n / 1000) as u8,
        b'0' + (n / 100 % 10) as u8,
        b'0' + (n / 10 % 10) as u8,
        b'0' + (n % 10) as u8,
    ]
}

/// The moment, in seconds since 1970 and up to [`LATEST`], as `YYYYMMDDHHMMSS` in UTC (RFC 3659
/// section 2.3). Takes no memory.
pub fn mdtm_text(seconds: u64) -> [u8; 14]
    requires in_calendar { seconds ≤ LATEST }
    ensures text { IsTimeVal seconds result }
{
    let date = date_of(seconds);
    let [y0, y1, y2, y3] = four_digits(year_of(date) as u32);
    let [m0, m1] = two_digits(date.month as u32);
    let [d0, d1] = two_digits(date.day as u32);
    let [h0, h1] = two_digits((seconds / 3600 % 24) as u32);
    let [n0, n1] = two_digits((seconds / 60 % 60) as u32);
    let [s0, s1] = two_digits((seconds % 60) as u32);
    [y0, y1, y2, y3, m0, m1, d0, d1, h0, h1, n0, n1, s0, s1]
}

/// ASCII digits as a text.
pub(crate) fn digits_text(digits: &[u8]) -> &str
    requires ascii { IsAscii digits.now }
    ensures text { result.now ≡ digits.now }
{
    str::from_utf8(digits).unwrap()
}

/// The text of [`mdtm_text`], for a reply. Returns `Err` if memory runs out.
pub fn mdtm_line<A: Allocator>(alloc: A, seconds: u64) -> Result<LineText<A>, AllocError>
    requires in_calendar { seconds ≤ LATEST }
    ensures text { IfOk result (λ line. IsTimeVal seconds (text_of line)) }
{
    let digits = mdtm_text(seconds);
    let text = String::from_str(alloc, digits_text(&digits))?;
    Ok(LineText::made(text))
}
