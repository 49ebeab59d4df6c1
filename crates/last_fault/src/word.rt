//! A machine's error in one word, which one thread writes and another reads.

ghost use Rattle.std.specs.Prelude.{◌≡◌, ◌<◌, ◌^◌, ℕ, IsSome, None, Some, pos};
ghost use Rattle.std.specs.IoError.{raw_os_error};
ghost use Rattle.std.specs.declared.io.Error.{Error};

use std::io;
use std::io::ErrorKind;

/// The word of an error that has no number of the machine's.
const UNNUMBERED: u64 = 1 << 32;

/// The word of an error: its number (errno), or `UNNUMBERED`. 0 is no error's.
pub fn fault_word(error: io::Error) -> u64
    ensures numbered { (n : ℕ) → 0 < n → raw_os_error error ≡ Some (pos n) → result ≡ n }
    ensures some { 0 < result }
{
    match error.raw_os_error() {
        Some(code) => match u64::try_from(code) {
            Ok(0) | Err(_) => UNNUMBERED,
            Ok(word) => word,
        },
        None => UNNUMBERED,
    }
}

/// The error of a word; none for 0.
pub fn fault_of(word: u64) -> Option<io::Error>
    ensures none { word ≡ 0 → result ≡ None }
    ensures numbered { 0 < word → word < 2 ^ 31
        → (error : Error) × (result ≡ Some error) × (raw_os_error error ≡ Some (pos word)) }
    ensures some { 0 < word → IsSome result }
{
    if word == 0 {
        return None;
    }
    match i32::try_from(word) {
        Ok(code) => Some(io::Error::from_raw_os_error(code)),
        Err(_) => Some(io::Error::from(ErrorKind::Other)),
    }
}
