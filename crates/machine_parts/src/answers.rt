//! The meaning of the machine's answers on a path: decisions, and no call.

ghost use Rattle.std.specs.Prelude.{◌≡◌};
ghost use Rattle.std.specs.IoError.{error_kind};
ghost use Rattle.machine_parts.specs.Answers.{is_absent, kind_of, may_be_replaced};

use folder_store::LookedKind;
use std::io;

/// The kind of what is at a path.
#[derive(Clone, Copy)]
pub(crate) enum FileKind {
    /// A regular file.
    File,
    /// A character device, such as a terminal.
    Device,
    /// Anything else, such as a folder or a pipe.
    Other,
}

/// Returns whether the machine's reason is that there is nothing at a path.
pub(crate) fn is_absent(reason: &io::Error) -> bool
    ensures absent { result ≡ is_absent (error_kind reason.now) }
{
    matches!(reason.kind(), io::ErrorKind::NotFound)
}

/// The kind that is in a mode (inode(7)).
pub(crate) fn kind_of(mode: u32) -> FileKind
    ensures kind { result ≡ kind_of mode }
{
    match mode / 4_096 % 16 {
        8 => FileKind::File,
        2 => FileKind::Device,
        _ => FileKind::Other,
    }
}

/// Returns whether a text may replace what is at a path: nothing, or a regular file.
pub(crate) fn may_be_replaced(kind: Option<LookedKind>) -> bool
    ensures free { result ≡ may_be_replaced kind }
{
    matches!(kind, None | Some(LookedKind::File))
}
