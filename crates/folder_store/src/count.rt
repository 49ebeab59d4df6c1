//! The count of faults.

ghost use Rattle.std.specs.Prelude.{◌<◌, ◌^◌};

/// Number of device faults so far, modulo 2^64.
#[derive(Clone, Copy)]
pub(crate) struct FaultCount {
    pub count: u64,
    pub ghost small: { count < 2 ^ 64 },
}
