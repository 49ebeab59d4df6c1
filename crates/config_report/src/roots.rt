//! The checks of the root that a server serves.

ghost use Rattle.std.specs.Prelude.{◌≡◌, bytes_eq, codes, map};
ghost use Rattle.std.specs.Char.{to_ascii_lowercase};
ghost use Rattle.config_report.specs.Warnings.{begins_with_slash, is_nearly_memory, is_relative};

const MEMORY: &str = "memory";

/// Returns whether a root is the word `memory` in any letters.
fn is_memory_in_any_case(root: &str) -> bool
    ensures memory { result ≡ bytes_eq (map to_ascii_lowercase root.now) (codes "memory") }
{
    root.as_bytes().eq_ignore_ascii_case(MEMORY.as_bytes())
}

fn begins_with_slash(root: &str) -> bool
    ensures slash { result ≡ begins_with_slash root.now }
{
    root.as_bytes().first() == Some(&b'/')
}

/// Returns whether a root is the word `memory` in other letters, and so the path of a folder.
pub fn is_nearly_memory(root: &str) -> bool
    ensures nearly { result ≡ is_nearly_memory root.now }
{
    is_memory_in_any_case(root) && root != MEMORY
}

/// Returns whether a root is the path of a folder that does not begin with `/`.
pub(crate) fn is_relative(root: &str) -> bool
    ensures relative { result ≡ is_relative root.now }
{
    !is_memory_in_any_case(root) && !begins_with_slash(root)
}
