//! A log that may be moved away.

ghost use Rattle.std.specs.Prelude.{◌≡◌};
ghost use Rattle.transfer_log.specs.Places.{must_open};

/// The numbers by which a file system knows a file.
#[derive(Clone, Copy, Debug, PartialEq, Eq)]
pub struct FileNumbers {
    pub device: u64,
    pub inode: u64,
}

/// Returns whether the file of a log is to be opened anew, by the numbers of the open file and of that at its path, if
/// there are any: unless both are the same file.
pub fn must_open(held: Option<FileNumbers>, there: Option<FileNumbers>) -> bool
    ensures must { result ≡ must_open held there }
{
    match (held, there) {
        (Some(held), Some(there)) => held.device != there.device || held.inode != there.inode,
        _ => true,
    }
}
