//! The machine that a program runs on.

ghost use Rattle.std.specs.Prelude.{◌≡◌, ◌≢◌, ◌⊎◌, pos, IfErr, IfOk, OnErr, OnOk, Some};
ghost use Rattle.std.specs.IoError.{raw_os_error};
ghost use Rattle.libc.specs.declared.TheConstants.{ENOENT};

use crate::entry_name::EntryName;
use crate::looked::Looked;
use crate::machine::FolderMachine;
use crate::statx::no_answer;
use std::fs::{File, OpenOptions};
use std::io::{Seek, SeekFrom};
use std::os::fd::{AsRawFd, IntoRawFd, RawFd};
use std::rt::Files;
use std::{fs, io};

/// A directory that this process has open. It is closed if it is dropped.
pub struct OpenDirectory {
    number: i32,
}

impl Drop for OpenDirectory {
    fn drop(self) {
        let OpenDirectory { number } = self;
        libc::close(number);
    }
}

impl AsRawFd for OpenDirectory {
    ghost use Rattle.std.specs.Prelude.{Some};

    ghost raw_fd = { λ directory. Some directory.number };

    fn as_raw_fd(&self) -> RawFd {
        self.number
    }
}

/// The machine's last error.
fn last_error() -> io::Error {
    io::Error::from_raw_os_error(os::errno())
}

/// Examines the entry with a name in the directory that is open under a number. The system call walks no path, and a link is
/// not followed.
fn examine_in(directory: i32, name: &EntryName) -> io::Result<Looked> {
    let mut found = no_answer();
    let path = name.c_string();
    let flags = libc::AT_SYMLINK_NOFOLLOW;
    let status = unsafe {
        libc::statx(directory, path, flags, libc::STATX_BASIC_STATS, &mut found)
    };
    if status < 0 {
        return Err(last_error());
    }
    Ok(Looked::of_statx(&found))
}

/// The answer of close(2) by its status, and the number of its error. A descriptor whose close failed is closed, so the call
/// is not repeated.
fn closed(status: i32, error: i32) -> io::Result<()>
    ensures closed { OnOk result (status ≡ pos 0) }
    ensures refused { OnErr result (status ≢ pos 0) }
    ensures error { IfErr result (λ reason. raw_os_error reason ≡ Some error) }
{
    if status == 0 {
        Ok(())
    } else {
        Err(io::Error::from_raw_os_error(error))
    }
}

/// The answer of getdents64(2) by the number of octets that it read, and the number of its error. A directory that was
/// removed has no more names; any other error is one in the middle of a listing.
fn names_count(count: usize, error: i32) -> io::Result<usize>
    ensures count { IfOk result (λ read. read ≡ count) }
    ensures whole { OnOk result ((error ≡ pos 0) ⊎ (error ≡ ENOENT)) }
    ensures refused { OnErr result ((error ≢ pos 0) × (error ≢ ENOENT)) }
    ensures error { IfErr result (λ reason. raw_os_error reason ≡ Some error) }
{
    if error == 0 || error == libc::ENOENT {
        Ok(count)
    } else {
        Err(io::Error::from_raw_os_error(error))
    }
}

// (The bound names the type of files, since one alone is closed with a status.)
impl<R: Files<File = File> + Alloc> FolderMachine for R {
    ghost use Rattle.folder_store.specs.RealMachine.{MachineShows};

    type File = File;

    type Directory = OpenDirectory;

    ghost Does = { MachineShows };

    fn open(&mut self, how: &OpenOptions, place: &str) -> io::Result<File> {
        how.open(self, place)
    }

    fn enter(&mut self, place: &str) -> io::Result<OpenDirectory> {
        let number = os::open_dir_at(libc::AT_FDCWD, place.as_bytes());
        if number < 0 {
            return Err(last_error());
        }
        Ok(OpenDirectory { number })
    }

    fn look(&mut self, place: &str) -> io::Result<Looked> {
        Ok(Looked::of_metadata(&fs::symlink_metadata(self, place)?))
    }

    fn look_in(&mut self, directory: &OpenDirectory, name: &EntryName) -> io::Result<Looked> {
        examine_in(directory.number, name)
    }

    fn follow(&mut self, place: &str) -> io::Result<Looked> {
        Ok(Looked::of_metadata(&fs::metadata(self, place)?))
    }

    fn examine(&mut self, file: &File) -> io::Result<Looked> {
        Ok(Looked::of_metadata(&file.metadata()?))
    }

    fn read_names(&mut self, directory: &OpenDirectory, buffer: &mut [u8]) -> io::Result<usize> {
        let count = os::read_dir(directory.number, buffer);
        names_count(count, os::errno())
    }

    fn cut(&mut self, file: &File, length: u64) -> io::Result<()> {
        file.set_len(length)
    }

    fn go_to(&mut self, mut file: File, offset: u64) -> io::Result<File> {
        let _at = file.seek(SeekFrom::Start(offset))?;
        Ok(file)
    }

    fn sync(&mut self, file: &File) -> io::Result<()> {
        file.sync_data()
    }

    fn close(&mut self, file: File) -> io::Result<()> {
        let status = libc::close(file.into_raw_fd());
        closed(status, os::errno())
    }

    fn make_directory(&mut self, place: &str) -> io::Result<()> {
        fs::create_dir(self, place)
    }

    fn remove_directory(&mut self, place: &str) -> io::Result<()> {
        fs::remove_dir(self, place)
    }

    fn remove_file(&mut self, place: &str) -> io::Result<()> {
        fs::remove_file(self, place)
    }

    fn rename(&mut self, from: &str, to: &str) -> io::Result<()> {
        fs::rename(self, from, to)
    }
}
