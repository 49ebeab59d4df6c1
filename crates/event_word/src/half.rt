//! The part of a count that a thread sleeps on.

ghost use Rattle.std.specs.Prelude.{◌≡◌, ◌%◌, ◌^◌};

/// The low half of a count. A thread sleeps while the half is the same.
pub(crate) fn low_half(count: u64) -> u32
    ensures half { result ≡ count % 2 ^ 32 }
{
    (count & 0xffff_ffff) as u32
}
