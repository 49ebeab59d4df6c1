//! Sums over transfers.

ghost use Rattle.std.specs.Prelude.{◌≡◌, MatchOption, false, true};
ghost use Rattle.log_lines.specs.Lines.{line_view};
ghost use Rattle.usage_report.specs.Adding.{fits, octets_a_second, plus};

use log_lines::LogLine;

/// The sums of some transfers.
#[derive(Clone, Copy, Debug, PartialEq, Eq)]
pub struct Sums {
    /// Their number.
    pub transfers: u64,
    /// The octets that they moved.
    pub octets: u64,
    /// The seconds that each took, added up.
    pub seconds: u64,
}

impl Sums {
    /// The sums of no transfers.
    pub const NONE: Sums = Sums {
        transfers: 0,
        octets: 0,
        seconds: 0,
    };
}

/// The sums with one more transfer, if each is below 2^64.
pub(crate) fn plus(sums: Sums, line: &LogLine<'_>) -> Option<Sums>
    ensures added { MatchOption result (fits (plus sums (line_view line.now)) ≡ false)
        (λ more. (more ≡ plus sums (line_view line.now)) × (fits more ≡ true)) }
{
    Some(Sums {
        transfers: sums.transfers.checked_add(1)?,
        octets: sums.octets.checked_add(line.octets)?,
        seconds: sums.seconds.checked_add(line.seconds)?,
    })
}

/// The octets a second of transfers, rounded down, if they took a second at least.
pub(crate) fn octets_a_second(sums: Sums) -> Option<u64>
    ensures rate { result ≡ octets_a_second sums }
{
    sums.octets.checked_div(sums.seconds)
}
