//! A sign that listings are to be left.

use std::alloc::{AllocError, Global};
use std::sync::Arc;
use std::sync::atomic::{AtomicU64, Ordering};

/// A handle of a sign that listings are to be left: a server that ends does not wait for one of a large folder. Threads may
/// have handles of the same sign, which is given once and never taken back.
#[derive(Drop)]
pub struct LeaveSign {
    // 0 until it is given
    word: Arc<AtomicU64, Global>,
}

impl LeaveSign {
    /// The first handle of a sign that is not given. Fails if memory runs out.
    pub fn new(alloc: Global) -> Result<LeaveSign, AllocError> {
        let word = Arc::new(alloc, AtomicU64::new(0))?;
        Ok(LeaveSign { word })
    }

    /// Another handle of the same sign. Fails if it has as many as can be counted.
    pub fn another(&self) -> Result<LeaveSign, AllocError> {
        let word = Arc::try_clone(&self.word)?;
        Ok(LeaveSign { word })
    }

    /// Gives the sign.
    pub fn give(&self) {
        self.word.store(1, Ordering::SeqCst);
    }

    /// Returns whether it was given.
    pub fn is_given(&self) -> bool {
        self.word.load(Ordering::SeqCst) == 1
    }
}
