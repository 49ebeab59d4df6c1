//! Texts and octets, seen by contracts as lists.

ghost use Rattle.std.specs.Prelude.{◌≡◌, ℕ, List, [], IfOk};
ghost use Rattle.std.specs.String.{string_bytes};

use std::alloc::{AllocError, Allocator, Global};
use std::marker::Model;

/// A text, such as a user's name.
#[derive(Drop)]
pub struct Text<A: Allocator = Global> {
    text: String<A>,
}

impl<A: Allocator> Model for Text<A> {
    ghost Value = { List ℕ };

    ghost view = { λ text. string_bytes text.text };
}

impl<A: Allocator> Text<A> {
    /// An empty text, without memory.
    pub fn empty(alloc: A) -> Text<A>
        ensures empty { result ≡ [] }
    {
        Text {
            text: String::new(alloc),
        }
    }

    /// Copies a text. `Err` is lack of memory.
    pub fn copy_of(alloc: A, text: &str) -> Result<Text<A>, AllocError>
        ensures text { IfOk result (λ copy. copy ≡ text.now) }
    {
        let text = String::from_str(alloc, text)?;
        Ok(Text { text })
    }

    pub fn as_str(&self) -> &str
        ensures text { result.now ≡ self.now }
    {
        self.text.as_str()
    }
}

/// Octets, such as those of a listing.
#[derive(Drop)]
pub struct Octets<A: Allocator = Global> {
    octets: Vec<u8, A>,
}

impl<A: Allocator> Model for Octets<A> {
    ghost Value = { List ℕ };

    ghost view = { λ octets. octets.octets.items };
}

impl<A: Allocator> Octets<A> {
    /// The octets of a list, without a copy.
    pub fn new(octets: Vec<u8, A>) -> Octets<A>
        ensures octets { result ≡ octets.items }
    {
        Octets { octets }
    }

    pub fn as_slice(&self) -> &[u8]
        ensures octets { result.now ≡ self.now }
    {
        self.octets.as_slice()
    }

    /// The list, without a copy.
    pub fn into_list(self) -> Vec<u8, A>
        ensures octets { result.items ≡ self }
    {
        self.octets
    }
}
