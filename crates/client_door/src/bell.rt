//! The bell that ends a wait.

ghost use Rattle.std.specs.Prelude.{◌≡◌, IfErr, IfOk, OnErr, OnOk, Some};
ghost use Rattle.std.specs.IoError.{raw_os_error};
ghost use Rattle.client_door.specs.Hearing.{IsDescriptor};

use std::io;
use std::os::fd::{AsRawFd, RawFd};

/// A bell: a counter of the machine (eventfd(2)), which is closed if it is dropped. Once it was rung, it stays so until it
/// is quieted.
pub struct DoorBell {
    number: i32,
}

impl Drop for DoorBell {
    fn drop(self) {
        let DoorBell { number } = self;
        libc::close(number);
    }
}

impl AsRawFd for DoorBell {
    ghost use Rattle.std.specs.Prelude.{Some};

    ghost raw_fd = { λ bell. Some bell.number };

    fn as_raw_fd(&self) -> RawFd {
        self.number
    }
}

/// The bell of a descriptor; the machine's reason by the number of its error, if there is no descriptor.
fn bell_of(number: i32, error: i32) -> io::Result<DoorBell>
    ensures made { OnOk result (IsDescriptor number) }
    ensures number { IfOk result (λ bell. bell.number ≡ number) }
    ensures none { OnErr result (¬ IsDescriptor number) }
    ensures reason { IfErr result (λ reason. raw_os_error reason ≡ Some error) }
{
    if number < 0 {
        Err(io::Error::from_raw_os_error(error))
    } else {
        Ok(DoorBell { number })
    }
}

// A bell whose counter begins at this number.
fn counting_from(count: u32) -> io::Result<DoorBell> {
    let flags = libc::net::EFD_NONBLOCK | libc::net::EFD_CLOEXEC;
    let number = libc::net::eventfd(count, flags);
    bell_of(number, os::errno())
}

impl DoorBell {
    /// A bell that was not rung. `Err` is the machine's reason: it lends no descriptor, or no memory.
    pub fn new() -> io::Result<DoorBell> {
        counting_from(0)
    }

    /// A bell that was rung: for what may have happened before there was a bell. `Err` as of `new`.
    pub fn rung() -> io::Result<DoorBell> {
        counting_from(1)
    }

    /// Rings the bell. It waits for nobody: a counter that is full has been rung.
    pub fn ring(&self) {
        let _ = libc::write(self.number, &1u64.to_ne_bytes());
    }

    /// Makes it a bell that was not rung. What it is rung for has to be examined after this, and not before: a ring in
    /// between would be lost. It waits for nobody.
    pub fn quiet(&self) {
        let mut count = [0; 8];
        let _ = libc::read(self.number, &mut count);
    }
}
