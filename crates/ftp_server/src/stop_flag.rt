//! A flag that ends a server.

use folder_store::LeaveSign;
use ftp_daemon::OwnerSigns;
use std::alloc::{AllocError, Global};

/// A flag that ends a server once it is raised, by whoever has another handle of it, such as a handler. It is raised once,
/// and never taken back.
///
/// ```text
/// let flag = StopFlag::new(alloc)?;
/// let handler = EndsAtNight { flag: flag.another()? };
/// server.serve_with(&rt, Stores::one(alloc, store), handler, flag)?;
/// ```
#[derive(Drop)]
pub struct StopFlag {
    pub(crate) sign: LeaveSign,
}

impl StopFlag {
    /// A flag that is not raised. Fails if memory runs out.
    ///
    /// ```text
    /// let flag = StopFlag::new(rt.alloc())?;
    /// ```
    pub fn new(alloc: Global) -> Result<StopFlag, AllocError> {
        let sign = LeaveSign::new(alloc)?;
        Ok(StopFlag { sign })
    }

    /// Another handle of it. Fails if it has as many as can be counted.
    ///
    /// ```text
    /// let handler = EndsAtNight { flag: flag.another()? };
    /// ```
    pub fn another(&self) -> Result<StopFlag, AllocError> {
        let sign = self.sign.another()?;
        Ok(StopFlag { sign })
    }

    /// Raises it: within a tenth of a second the server ends its sessions, those of transfers too, and returns. The listings
    /// of a folder that was opened with this flag are left. A flag that is up before the server begins makes it return
    /// `ServeFault::Stopped`.
    ///
    /// ```text
    /// self.flag.raise();
    /// ```
    pub fn raise(&self) {
        self.sign.give();
    }
}

impl OwnerSigns for StopFlag {
    fn is_up(&self) -> bool {
        self.sign.is_given()
    }
}
