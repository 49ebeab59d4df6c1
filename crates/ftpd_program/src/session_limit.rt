//! The greatest number of sessions of a user that the words of a server state.

ghost use Rattle.std.specs.Prelude.{◌≡◌, ℕ, None, IfSome};
ghost use Rattle.ftpd_program.specs.StatedSessions.{AreSessions};

/// Largest number of sessions that words may state.
pub const MOST_USER_SESSIONS: u32 = 65_535;

/// The number of sessions that a text states, in digits, if it states one.
pub fn stated_sessions(text: &str) -> Option<u32>
    ensures some { IfSome result (AreSessions text.now) }
    ensures none { result ≡ None → (n : ℕ) → AreSessions text.now n → ⊥ }
{
    if text.as_bytes().first() == Some(&b'+') {
        return None;
    }
    match text.parse::<u32>() {
        Ok(number) if number <= MOST_USER_SESSIONS => Some(number),
        _ => None,
    }
}
