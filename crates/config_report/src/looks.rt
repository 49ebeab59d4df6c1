//! Looks at the machine on which a configuration is judged.

ghost use Rattle.config_report.specs.Looks.{Shown, anything};

use virtual_path::VPath;

/// The thing at the path of a folder.
#[derive(Clone, Copy, Debug, PartialEq, Eq)]
pub enum Sight {
    /// A folder whose entries can be listed.
    Listed,
    /// Nothing.
    Absent,
    /// Something that is no folder.
    NoFolder,
    /// It cannot be seen, or it is a folder whose entries cannot be listed.
    Closed,
}

/// Looks at the machine. No look changes anything.
pub trait Lookout {
    /// The possible results of looks.
    ghost Shows: { Self → Shown } = { λ _. anything };

    /// Returns what is at the path of a folder.
    fn folder(&self, path: &str) -> Sight
        ensures shows { (Shows self.now).folder path.now result };

    /// Returns whether a home is a directory of the folder of a path.
    fn has_home(&self, root: &str, home: &VPath) -> bool
        ensures shows { (Shows self.now).home root.now home.now result };

    /// Returns the permission bits of the file of a path. None if they are not known, as those of standard input.
    fn mode(&self, path: &str) -> Option<u32>
        ensures shows { (Shows self.now).mode path.now result };
}
