//! Recalls the invariant of a value's type, for contracts that need it.

/// Makes the prover recall the invariant of the type of `self`, which it does at any access to a part of a value. No
/// effect at run time.
macro_rules! recall {
    ($part:expr) => {
        let _ = &$part;
    };
}

pub(crate) use recall;
