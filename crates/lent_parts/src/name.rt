//! Names of the parts that are lent.

ghost use Rattle.std.specs.Prelude.{ℕ, Bool, true};
ghost use Rattle.atomic_table.specs.Seated.{TableId};
ghost use Rattle.line_rates.specs.Rates.{Rates};
ghost use Rattle.lent_parts.specs.Names.{no_table};

use std::marker::Brand;

/// Names the parts of one server in the types of what its threads are lent: the table of its desk with the number of
/// its lanes; a test that the rates of its rounds pass, and the octets issued before the first of them; and the tables of
/// its boards, that of jobs that go first and that of all others.
pub trait PartsName {
    ghost desk: { TableId };

    ghost lanes: { ℕ };

    ghost rates: { Rates → Bool };

    ghost carried: { ℕ };

    ghost first: { TableId };

    ghost board: { TableId };
}

// The name is chosen where the parts are lent.
impl PartsName for Brand {
    ghost desk = { no_table };

    ghost lanes = { 0 };

    ghost rates = { λ _. true };

    ghost carried = { 0 };

    ghost first = { no_table };

    ghost board = { no_table };
}
