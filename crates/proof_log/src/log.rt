//! The log.

ghost use Rattle.std.specs.Prelude.{◌≡◌, List, [], ◌∷◌, ◌++◌};
ghost use Rattle.std.specs.Borrow.{ftrue};

use std::marker::{Model, PhantomData};

/// Pairs that were appended, for clauses and proofs alone. It has no octets.
#[derive(Drop)]
pub struct ProofLog<A, B> {
    of: PhantomData<(A, B)>,
    pub ghost items: { List (A × B) },
}

impl<A, B> Model for ProofLog<A, B> {
    ghost also_owns = { λ _. ftrue };
}

// A log owns nothing.
unsafe impl<A: Send, B: Send> Send for ProofLog<A, B> {}

impl<A, B> ProofLog<A, B> {
    /// An empty log.
    pub fn new() -> ProofLog<A, B>
        ensures none { result.items ≡ [] }
    {
        ProofLog { of: PhantomData }
    }

    /// The log with one pair more.
    pub fn and(&self, first: &A, second: &B) -> ProofLog<A, B>
        ensures more { result.items ≡ self.now.items ++ (first.now, second.now) ∷ [] }
    {
        ProofLog { of: PhantomData }
    }
}
