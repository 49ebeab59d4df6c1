//! The limit of time of a server that drains.

ghost use Rattle.std.specs.Prelude.{◌≡◌, ◌&&◌, not, nat_eq};

use command_line::Patience;

/// Returns whether a limit of time for draining is stated of a server that never drains, having no drain file.
pub fn is_for_nothing(patience: Patience, has_drain_file: bool) -> bool
    ensures nothing { result ≡ (not (nat_eq patience.drain_timeout 0) && not has_drain_file) }
{
    patience.drain_timeout != 0 && !has_drain_file
}
