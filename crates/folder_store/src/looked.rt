//! The machine's answer about an entry.

ghost use Rattle.std.specs.Prelude.{◌≡◌, ◌↔◌};
ghost use Rattle.std.specs.Fs.{file_type, metadata_len, IsDir, IsFile};
ghost use Rattle.folder_store.specs.Statx.{device_number, type_of_mode};

use libc::types::{statx, statx_timestamp};
use std::fs::Metadata;
use std::os::unix::fs::MetadataExt;

/// The kind of an entry of the machine.
#[derive(Clone, Copy, Debug, PartialEq, Eq)]
pub enum LookedKind {
    Directory,
    /// A regular file.
    File,
    /// Anything else, such as a link, a pipe or a device.
    Other,
}

/// The machine's answer about an entry: its kind, its length in octets, the second since 1970 in which it was modified, and
/// the machine's identity of it, which is its device and its number there.
#[derive(Clone, Copy, Debug)]
pub struct Looked {
    pub kind: LookedKind,
    pub length: u64,
    pub modified: i64,
    pub device: u64,
    pub number: u64,
}

impl Looked {
    /// The answer in the kit's metadata of an entry. No contract can say which time and which identity that is.
    pub fn of_metadata(metadata: &Metadata) -> Looked
        ensures directory { result.kind ≡ LookedKind.Directory ↔ IsDir (file_type metadata.now) }
        ensures file { result.kind ≡ LookedKind.File ↔ IsFile (file_type metadata.now) }
        ensures length { result.length ≡ metadata_len metadata.now }
    {
        Looked {
            kind: kind_of(metadata),
            length: metadata.len(),
            modified: metadata.mtime(),
            device: metadata.dev(),
            number: metadata.ino(),
        }
    }

    /// The machine's answer to statx(2), as `of_metadata` has it.
    pub(crate) fn of_statx(found: &statx) -> Looked
        ensures directory { result.kind ≡ LookedKind.Directory
            ↔ IsDir (type_of_mode found.now.stx_mode) }
        ensures file { result.kind ≡ LookedKind.File ↔ IsFile (type_of_mode found.now.stx_mode) }
        ensures length { result.length ≡ found.now.stx_size }
        ensures modified { result.modified ≡ found.now.stx_mtime.tv_sec }
        ensures device { result.device
            ≡ device_number found.now.stx_dev_major found.now.stx_dev_minor }
        ensures number { result.number ≡ found.now.stx_ino }
    {
        Looked {
            kind: kind_of_mode(found.stx_mode),
            length: found.stx_size,
            modified: found.stx_mtime.tv_sec,
            device: device_number(found.stx_dev_major, found.stx_dev_minor),
            number: found.stx_ino,
        }
    }
}

fn kind_of(metadata: &Metadata) -> LookedKind
    ensures directory { result ≡ LookedKind.Directory ↔ IsDir (file_type metadata.now) }
    ensures file { result ≡ LookedKind.File ↔ IsFile (file_type metadata.now) }
{
    if metadata.is_dir() {
        return LookedKind::Directory;
    }
    if metadata.is_file() {
        return LookedKind::File;
    }
    LookedKind::Other
}

/// The kind in the mode of an entry.
fn kind_of_mode(mode: u16) -> LookedKind
    ensures directory { result ≡ LookedKind.Directory ↔ IsDir (type_of_mode mode) }
    ensures file { result ≡ LookedKind.File ↔ IsFile (type_of_mode mode) }
{
    let bits = u32::from(mode) & libc::S_IFMT;
    if bits == libc::S_IFDIR {
        return LookedKind::Directory;
    }
    if bits == libc::S_IFREG {
        return LookedKind::File;
    }
    LookedKind::Other
}

/// The number of a device, as makedev(3) makes it.
fn device_number(major: u32, minor: u32) -> u64
    ensures { result ≡ device_number major minor }
{
    let (major, minor) = (u64::from(major), u64::from(minor));
    (major / 4_096) * 17_592_186_044_416
        + (major % 4_096) * 256
        + (minor / 256) * 1_048_576
        + minor % 256
}
