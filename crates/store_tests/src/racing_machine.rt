//! A machine on which another process acts between two calls, or which refuses calls.

use folder_store::{EntryName, FolderMachine, Looked, LookedKind, OpenDirectory};
use std::fs::{File, OpenOptions};
use std::io;
use std::rt::Files;

/// The machine's numbers (errno(3)) of the errors that it makes up: EACCES, and ESTALE.
pub(crate) const DENIED: i32 = 13;

pub(crate) const STALE: i32 = 116;

/// The action of the other process, or the refusal of the machine.
#[derive(Clone, Copy)]
pub(crate) enum Act {
    Nothing,
    /// It removes a file just before it is opened.
    Remove,
    /// It replaces a file by a link to the file `kept`, beside the folder.
    Link,
    /// It swaps the directory for a link to `elsewhere`, beside the folder, just before the directory
    /// is opened.
    SwapAtOnce,
    /// It swaps the directory in this way just before a call by the name of one of its entries.
    SwapLate,
    /// The machine refuses each rename.
    KeepNames,
    /// The machine fails to close a file.
    KeepOctets,
    /// The machine fails to put the octets of a file on the device.
    KeepFromDevice,
    /// The machine fails when asked for the metadata of `a`.
    HideFirst,
    /// It replaces the entry `a`, whose path is the first of `swapped`, by a link to the second, just before the entry is
    /// examined for a listing.
    LinkListed,
    /// It makes a file called `n` just after that name was checked.
    ComeLate,
    /// It makes an empty directory called `n` at that time.
    ComeLateEmpty,
    /// The machine opens no directory.
    KeepDirectories,
    /// The machine has no `/proc`.
    HideProc,
    /// The machine opens no file.
    LockFiles,
    /// The machine opens files for writing only, so that no read of one passes.
    OnlyWrite,
    /// The machine opens files for reading only, so that no write to one passes.
    OnlyRead,
}

/// A machine, except for the action of the other process and the names in each directory.
#[derive(Clone, Copy)]
pub(crate) struct Racing<'a, R> {
    pub rt: R,
    pub act: Act,
    /// The entry that is swapped, such as the directory `d`, and its new path.
    pub swapped: (&'a str, &'a str),
    /// The names of a directory were read.
    pub is_read: bool,
}

/// A machine on which no directory is swapped.
pub(crate) fn acting<R>(rt: R, act: Act) -> Racing<'static, R> {
    Racing {
        rt,
        act,
        swapped: ("", ""),
        is_read: false,
    }
}

impl<R: Files<File = File> + Alloc> Racing<'_, R> {
    /// Swaps the directory for the link, once.
    fn swap(&mut self) -> io::Result<()> {
        let (directory, aside) = self.swapped;
        if self.rt.look(directory)?.kind == LookedKind::Directory {
            Files::rename(&self.rt, directory, aside)?;
            self.rt.symlink("../elsewhere", directory)?;
        }
        Ok(())
    }

    /// Replaces the entry by a link.
    fn become_link(&mut self) -> io::Result<()> {
        let (entry, target) = self.swapped;
        FolderMachine::remove_file(&mut self.rt, entry)?;
        self.rt.symlink(target, entry)
    }

    /// The action before a call by the path of an entry in the directory `d`, or of its names.
    fn before(&mut self, path: &str) -> io::Result<()> {
        if matches!(&self.act, Act::SwapLate) && !path.ends_with("/d") {
            return self.swap();
        }
        Ok(())
    }

    /// Makes an entry at a path just after it was checked.
    fn come_late(&mut self, path: &str) -> io::Result<()> {
        match self.act {
            Act::ComeLate => {
                let mut how = OpenOptions::new();
                how.write(true).create_new(true);
                let _made = self.rt.open(&how, path)?;
                Ok(())
            }
            Act::ComeLateEmpty => self.rt.make_directory(path),
            _ => Ok(()),
        }
    }

    /// The action just before a file is opened, or the refusal.
    fn before_opening(&mut self, path: &str) -> io::Result<()> {
        match self.act {
            Act::Remove => FolderMachine::remove_file(&mut self.rt, path),
            Act::Link => {
                FolderMachine::remove_file(&mut self.rt, path)?;
                self.rt.symlink("../kept", path)
            }
            Act::LockFiles => Err(io::Error::from_raw_os_error(DENIED)),
            _ => Ok(()),
        }
    }
}

/// The names in each directory, each followed by a NUL. One of the names is not UTF-8, there is no entry called `gone`, and one name occurs twice.
const NAMES: [u8; 18] = *b"b\0\xff\xfe\0t\tb\0gone\0a\0b\0";

impl<R: Alloc> Alloc for Racing<'_, R> {
    type A = R::A;

    fn alloc(&self) -> R::A {
        self.rt.alloc()
    }
}

impl<R: Files<File = File> + Alloc> FolderMachine for Racing<'_, R> {
    type File = File;

    type Directory = OpenDirectory;

    ghost Does = { λ _ _ _. Unit {0} };

    fn open(&mut self, how: &OpenOptions, path: &str) -> io::Result<File> {
        self.before_opening(path)?;
        let mut less = OpenOptions::new();
        match self.act {
            Act::OnlyWrite => self.rt.open(less.write(true), path),
            Act::OnlyRead => self.rt.open(less.read(true), path),
            _ => self.rt.open(how, path),
        }
    }

    fn enter(&mut self, path: &str) -> io::Result<OpenDirectory> {
        match self.act {
            Act::KeepDirectories => return Err(io::Error::from(io::ErrorKind::PermissionDenied)),
            Act::SwapAtOnce if path.ends_with("/d") => self.swap()?,
            _ => (),
        }
        self.rt.enter(path)
    }

    fn look(&mut self, path: &str) -> io::Result<Looked> {
        if matches!(&self.act, Act::HideFirst) && path.ends_with("/a") {
            return Err(io::Error::from_raw_os_error(STALE));
        }
        self.before(path)?;
        let reported = self.rt.look(path);
        if path.ends_with("/n") && reported.is_err() {
            self.come_late(path)?;
        }
        reported
    }

    fn look_in(&mut self, directory: &OpenDirectory, name: &EntryName) -> io::Result<Looked> {
        match self.act {
            Act::HideFirst if name.text() == b"a".as_slice() => {
                return Err(io::Error::from_raw_os_error(STALE));
            }
            Act::LinkListed if name.text() == b"a".as_slice() => self.become_link()?,
            Act::SwapLate if name.text() != b"d".as_slice() => self.swap()?,
            _ => (),
        }
        self.rt.look_in(directory, name)
    }

    fn follow(&mut self, path: &str) -> io::Result<Looked> {
        if matches!(&self.act, Act::HideProc) && path.starts_with("/proc/") {
            return Err(io::Error::from(io::ErrorKind::NotFound));
        }
        self.rt.follow(path)
    }

    fn examine(&mut self, file: &File) -> io::Result<Looked> {
        self.rt.examine(file)
    }

    fn read_names(&mut self, _directory: &OpenDirectory, buffer: &mut [u8]) -> io::Result<usize> {
        if self.is_read || buffer.len() < NAMES.len() {
            self.is_read = false;
            return Ok(0);
        }
        self.is_read = true;
        buffer[..NAMES.len()].copy_from_slice(&NAMES);
        Ok(NAMES.len())
    }

    fn cut(&mut self, file: &File, length: u64) -> io::Result<()> {
        self.rt.cut(file, length)
    }

    fn go_to(&mut self, file: File, offset: u64) -> io::Result<File> {
        self.rt.go_to(file, offset)
    }

    fn sync(&mut self, file: &File) -> io::Result<()> {
        if matches!(&self.act, Act::KeepFromDevice) {
            return Err(io::Error::from_raw_os_error(STALE));
        }
        self.rt.sync(file)
    }

    fn close(&mut self, file: File) -> io::Result<()> {
        if matches!(&self.act, Act::KeepOctets) {
            return Err(io::Error::from_raw_os_error(STALE));
        }
        self.rt.close(file)
    }

    fn make_directory(&mut self, path: &str) -> io::Result<()> {
        self.before(path)?;
        self.rt.make_directory(path)
    }

    fn remove_directory(&mut self, path: &str) -> io::Result<()> {
        self.rt.remove_directory(path)
    }

    fn remove_file(&mut self, path: &str) -> io::Result<()> {
        FolderMachine::remove_file(&mut self.rt, path)
    }

    fn rename(&mut self, from: &str, to: &str) -> io::Result<()> {
        if matches!(&self.act, Act::KeepNames) {
            return Err(io::Error::from_raw_os_error(DENIED));
        }
        FolderMachine::rename(&mut self.rt, from, to)
    }
}
