//! Sessions that the owner of a server names.

ghost use Rattle.std.specs.Prelude.{◌≡◌, ℕ, None, IfSome};
ghost use Rattle.server_house.specs.Asked.{IsSession};

/// The number of a session that a text states, in digits, if it states one. Numbers are below 2^62.
pub fn asked_session(text: &str) -> Option<u64>
    ensures some { IfSome result (IsSession text.now) }
    ensures none { result ≡ None → (n : ℕ) → IsSession text.now n → ⊥ }
{
    if text.as_bytes().first() == Some(&b'+') {
        return None;
    }
    match text.parse::<u64>() {
        Ok(number) if number < MOST_SESSIONS => Some(number),
        _ => None,
    }
}

/// No server has as many sessions, one after another: 2^62.
pub const MOST_SESSIONS: u64 = 4_611_686_018_427_387_904;
