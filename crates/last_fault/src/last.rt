//! The word of an error, and its handles.

use crate::word::{fault_of, fault_word};
use std::alloc::{AllocError, Global};
use std::io;
use std::sync::Arc;
use std::sync::atomic::{AtomicU64, Ordering};

/// A handle of the last error of the machine in some calls. Threads may have handles of the same error.
#[derive(Drop)]
pub struct LastFault {
    // `fault_word` of the error; 0 if there is none
    word: Arc<AtomicU64, Global>,
}

impl LastFault {
    /// The first handle, with no error. Fails if memory runs out.
    pub fn new(alloc: Global) -> Result<LastFault, AllocError> {
        let word = Arc::new(alloc, AtomicU64::new(0))?;
        Ok(LastFault { word })
    }

    /// Another handle of the same error. Fails if it has as many as can be counted.
    pub fn another(&self) -> Result<LastFault, AllocError> {
        let word = Arc::try_clone(&self.word)?;
        Ok(LastFault { word })
    }

    /// Keeps an error in place of the one before.
    pub fn put(&self, error: io::Error) {
        self.word.store(fault_word(error), Ordering::SeqCst);
    }

    /// Takes the last error out, if there is one. An error that has no number of the machine is returned as one of
    /// another kind.
    pub fn take(&self) -> Option<io::Error> {
        fault_of(self.word.swap(0, Ordering::SeqCst))
    }
}
