//! The last status of a server, and the facts of a changed configuration, shared by threads.

use crate::facts::StatusFacts;
use server_status::Status;
use std::alloc::{AllocError, Global};
use std::sync::{Arc, Mutex, Wait};

/// The last status that was made, if one was, and the facts of a configuration that is about to be taken.
#[derive(Drop)]
pub struct StatusCell {
    status: Mutex<Option<Arc<Status>>>,
    facts: Mutex<Option<StatusFacts>>,
}

impl StatusCell {
    /// No status yet.
    pub fn new() -> StatusCell {
        StatusCell {
            status: Mutex::new(None),
            facts: Mutex::new(None),
        }
    }

    /// Puts the facts of a configuration that is about to be taken.
    pub fn put_facts<R: Wait>(&self, rt: &R, facts: StatusFacts) {
        *self.facts.lock(rt) = Some(facts);
    }

    /// Takes these facts, if there are any.
    pub fn take_facts<R: Wait>(&self, rt: &R) -> Option<StatusFacts> {
        self.facts.lock(rt).take()
    }

    /// Puts a status in place of the last. If memory runs out, the last one stays.
    pub fn put<R: Wait>(&self, rt: &R, alloc: Global, status: Status) {
        if let Ok(status) = Arc::new(alloc, status) {
            *self.status.lock(rt) = Some(status);
        }
    }

    /// The last status. It stays as it is while others are put.
    pub fn last<R: Wait>(&self, rt: &R) -> Result<Option<Arc<Status>>, AllocError> {
        match &*self.status.lock(rt) {
            Some(status) => {
                let status = Arc::try_clone(status)?;
                Ok(Some(status))
            }
            None => Ok(None),
        }
    }
}
