//! The columns of rates.

ghost use Rattle.std.specs.Prelude.{◌≡◌, ◌++◌, OnOk, string_bytes};
ghost use Rattle.rate_columns.specs.Rates.{megabits_column, megabits_text, rate_column};

use std::alloc::{AllocError, Allocator};

/// A hundredth of a Mbit/s, in octets a second.
const HUNDREDTH: u64 = 1250;

/// Writes a rate in octets a second in its column of 14; a dash for none.
pub fn write_rate_column<A: Allocator>(text: &mut String<A>, rate: u64) -> Result<(), AllocError>
    ensures column { OnOk result
        (string_bytes text.new ≡ string_bytes text.old ++ rate_column rate) }
{
    if rate == 0 {
        write!(text, "{:>14}", "-")
    } else {
        write!(text, "{rate:>14}")
    }
}

/// Writes a rate in octets a second as Mbit/s, with two decimals, rounded down.
pub fn write_megabits<A: Allocator>(text: &mut String<A>, rate: u64) -> Result<(), AllocError>
    ensures text { OnOk result
        (string_bytes text.new ≡ string_bytes text.old ++ megabits_text rate) }
{
    let hundredths = rate / HUNDREDTH;
    let (whole, tens, ones) = (hundredths / 100, hundredths / 10 % 10, hundredths % 10);
    write!(text, "{whole}.{tens}{ones}")
}

/// Writes the same in its column of 12; a dash for no rate.
pub fn write_megabits_column<A: Allocator>(
    text: &mut String<A>,
    rate: u64,
) -> Result<(), AllocError>
    ensures column { OnOk result
        (string_bytes text.new ≡ string_bytes text.old ++ megabits_column rate) }
{
    let hundredths = rate / HUNDREDTH;
    let (whole, tens, ones) = (hundredths / 100, hundredths / 10 % 10, hundredths % 10);
    if rate > 0 {
        write!(text, "{whole:>9}.{tens}{ones}")
    } else {
        write!(text, "{:>12}", "-")
    }
}
