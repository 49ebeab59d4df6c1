//! The files that words name.

ghost use Rattle.std.specs.Prelude.{◌≡◌, ◌↔◌, ℕ, List, Option, IfOk, IsTrue, OnErr, true};
ghost use Rattle.sheets_program.specs.Runs.{IsInput};

use std::io;
use text_io::TextReader;

/// The path of standard input. It can be read only once.
pub const STANDARD_INPUT: &str = "/dev/stdin";

/// Another name of standard input.
pub const DASH: &str = "-";

/// Returns whether a path names standard input.
pub fn is_input(path: &str) -> bool
    ensures input { IsTrue result ↔ IsInput path.now }
{
    path == STANDARD_INPUT || path == DASH
}

/// Opens the files that words name.
pub trait Opener {
    type End: TextReader + Drop;

    /// The contents that the file of a path may have; None for unknown octets.
    ghost Gives: { Self → List ℕ → Option (List ℕ) → Type 0 } = { λ _ _ _. Unit {0} };

    /// The file of a path may be refused.
    ghost MayRefuse: { Self → List ℕ → Type 0 } = { λ _ _. Unit {0} };

    /// Reading the file of a path may fail.
    ghost MayFail: { Self → List ℕ → Type 0 } = { λ _ _. Unit {0} };

    /// Opening the file of a path may lead from the first state to the second.
    ghost Opens: { Self → List ℕ → Self → Type 0 } = { λ _ _ _. Unit {0} };

    /// Opens the file of a path, or returns the machine's error. The contents of files, and which may be refused or
    /// fail, do not change.
    fn open(&mut self, path: &str) -> io::Result<Self::End>
        ensures gives { IfOk result
            (λ end. Gives self.old path.now (Self.End.remaining end)) }
        ensures stays { (other : List ℕ) (octets : Option (List ℕ))
            → Gives self.new other octets → Gives self.old other octets }
        ensures refuses { OnErr result (MayRefuse self.old path.now) }
        ensures fails { IfOk result
            (λ end. Self.End.may_fail end ≡ true → MayFail self.old path.now) }
        ensures no_more_refused { (other : List ℕ)
            → MayRefuse self.new other → MayRefuse self.old other }
        ensures no_more_fail { (other : List ℕ)
            → MayFail self.new other → MayFail self.old other }
        ensures opens { Opens self.old path.now self.new };

    /// Returns the machine's last error of a read, if there was one. No contract covers the machine's errors.
    fn reason(end: &Self::End) -> Option<io::Error>;
}
