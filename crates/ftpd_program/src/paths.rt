//! The paths that a server's owner states: a file that is stated twice, and what is in the place of a file.

ghost use Rattle.std.specs.Prelude.{◌≡◌, Some, None, option_map};
ghost use Rattle.ftpd_program.specs.Paths.{begins_log, begins_status, first_twin, has_twin, is_free_for_log, is_free_for_status, is_same};

/// The numbers of a file (inode(7)); no two files that are there have the same.
#[derive(Clone, Copy, Debug, PartialEq, Eq)]
pub struct FileIdentity {
    pub device: u64,
    pub inode: u64,
}

/// A path that is stated, with the numbers of what is there; none if nothing is, or if it cannot be examined.
#[derive(Clone, Copy, Debug)]
pub struct StatedPath<'a> {
    pub path: &'a str,
    pub there: Option<FileIdentity>,
}

/// Something at a path, or nothing.
#[derive(Clone, Copy, Debug)]
pub enum FoundFile<'a> {
    /// Nothing.
    Nothing,
    /// A regular file, with its first octets: at least four, if it has these.
    File(&'a [u8]),
    /// A character device, such as a terminal.
    Device,
    /// Anything else, such as a folder or a pipe.
    Other,
}

// Returns whether two paths are those of one file: by its numbers if both are there, otherwise by their texts.
fn is_same(one: &StatedPath<'_>, other: &StatedPath<'_>) -> bool
    ensures same { result ≡ is_same one.now other.now }
{
    match (one.there, other.there) {
        (Some(one), Some(other)) => one.device == other.device && one.inode == other.inode,
        _ => one.path == other.path,
    }
}

// Returns whether one of these paths is that of the same file.
fn has_twin(one: &StatedPath<'_>, others: &[StatedPath<'_>]) -> bool
    ensures twin { result ≡ has_twin one.now others.now }
{
    for other in others {
        if is_same(one, other) {
            return true;
        }
    }
    false
}

/// The first path that is also that of a later one; none if each is the path of a file of its own.
pub fn first_twin<'a>(paths: &[StatedPath<'a>]) -> Option<&'a str>
    ensures twin { option_map (λ path. path.now) result ≡ first_twin paths.now }
{
    for (index, one) in paths.iter().enumerate() {
        if has_twin(one, &paths[index + 1..]) {
            return Some(one.path);
        }
    }
    None
}

// Returns whether a text begins as a status of a server: an object with a member (RFC 8259, section 4).
fn begins_status(octets: &[u8]) -> bool
    ensures status { result ≡ begins_status octets.now }
{
    octets.starts_with(b"{\"")
}

// Returns whether a text begins as a line of a transfer log: with the short name of a day and a blank (xferlog(5)).
fn begins_log(octets: &[u8]) -> bool
    ensures log { result ≡ begins_log octets.now }
{
    octets.starts_with(b"Mon ")
        || octets.starts_with(b"Tue ")
        || octets.starts_with(b"Wed ")
        || octets.starts_with(b"Thu ")
        || octets.starts_with(b"Fri ")
        || octets.starts_with(b"Sat ")
        || octets.starts_with(b"Sun ")
}

/// Returns whether a status may replace what is at a path: nothing, an empty file, or an earlier status.
pub fn is_free_for_status(found: FoundFile<'_>) -> bool
    ensures free { result ≡ is_free_for_status found.entry }
{
    match found {
        FoundFile::Nothing => true,
        FoundFile::File(octets) => octets.is_empty() || begins_status(octets),
        FoundFile::Device | FoundFile::Other => false,
    }
}

/// Returns whether lines of a transfer log may follow what is at a path: nothing, an empty file, an earlier log, or a
/// device that takes characters.
pub fn is_free_for_log(found: FoundFile<'_>) -> bool
    ensures free { result ≡ is_free_for_log found.entry }
{
    match found {
        FoundFile::Nothing | FoundFile::Device => true,
        FoundFile::File(octets) => octets.is_empty() || begins_log(octets),
        FoundFile::Other => false,
    }
}
