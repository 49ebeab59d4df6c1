//! Numbers with their nouns.

use std::fmt;

/// A number with its noun, for one and for another number, as `1 session` and `2 sessions`.
#[derive(Clone, Copy)]
pub(crate) struct Counted<'a>(pub(crate) u64, pub(crate) &'a str, pub(crate) &'a str);

impl fmt::Display for Counted<'_> {
    ghost use Rattle.std.specs.Prelude.{Some};
    ghost use Rattle.config_report.specs.Counted.{counted};

    ghost output = { λ c. Some (counted c.0 c.1.now c.2.now) };

    fn fmt<W: fmt::Write>(&self, f: &mut fmt::Formatter<W>) -> fmt::Result {
        let Counted(number, one, more) = *self;
        let noun = if number == 1 { one } else { more };
        write!(f, "{number} {noun}")
    }
}
