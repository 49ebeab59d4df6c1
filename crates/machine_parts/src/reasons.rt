//! Reasons in words.

ghost use Rattle.std.specs.Prelude.{◌≡◌, IfSome, string_bytes};
ghost use Rattle.machine_parts.specs.Reasons.{BeginsWith};

use std::alloc::Global;
use std::fmt::Display;

/// A reason in words; none if memory runs out.
pub fn words<T: Display>(alloc: Global, reason: &T) -> Option<String>
    ensures words { IfSome result
        (λ text. IfSome (T.output reason.now) (λ octets. string_bytes text ≡ octets)) }
{
    format!(in alloc; "{reason}").ok()
}

/// A reason in words, after the path that it concerns; none if memory runs out.
pub(crate) fn words_at<T: Display>(alloc: Global, path: &str, reason: &T) -> Option<String>
    ensures words { IfSome result (λ text. BeginsWith path.now (string_bytes text)
        (λ rest. IfSome (T.output reason.now) (λ octets. rest ≡ octets))) }
{
    let why = words(alloc, reason)?;
    format!(in alloc; "{path}: {why}").ok()
}
