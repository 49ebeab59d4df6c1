//! The octets of an unfinished line.

ghost use Rattle.std.specs.Prelude.{◌≤◌, vec_len};
ghost use Rattle.ftp_wire.specs.declared.items.TheConstants.{LONGEST_HELD};

use crate::faults::LineFault;
use crate::items::{LONGEST_HELD, LONGEST_LINE, LineItem, read_line};
use std::alloc::{AllocError, Allocator};

/// The octets of an unfinished line; none once the line is too long whatever ends it.
#[derive(Drop)]
pub(crate) struct OpenLine<A: Allocator> {
    octets: Vec<u8, A>,
    is_long: bool,
    ghost bound: { vec_len octets ≤ LONGEST_HELD },
}

impl<A: Allocator + Clone> OpenLine<A> {
    ghost use Rattle.std.specs.Prelude.{◌≡◌, ◌++◌, ◌∷◌, [], ℕ, List, IfOk, OnOk};
    ghost use Rattle.ftp_wire.specs.Items.{line_item};
    ghost use Rattle.ftp_wire.specs.Reading.{Holds, item_of};

    pub fn new(alloc: A) -> OpenLine<A>
        ensures empty { Holds [] result }
    {
        OpenLine {
            octets: Vec::new(alloc),
            is_long: false,
        }
    }

    /// A copy with room for `more` octets, as far as a line may have them.
    pub fn copy(&self, more: usize) -> Result<OpenLine<A>, AllocError>
        ensures holds { (rest : List ℕ) → Holds rest self.now → IfOk result (Holds rest) }
    {
        let room = self.octets.len().saturating_add(more).min(LONGEST_HELD);
        let mut octets = Vec::with_capacity(self.allocator()?, room)?;
        octets.extend_from_slice(self.octets.as_slice())?;
        Ok(OpenLine {
            octets,
            is_long: self.is_long,
        })
    }

    pub fn allocator(&self) -> Result<A, AllocError> {
        self.octets.allocator().clone()
    }

    /// Number of octets stored.
    pub fn len(&self) -> usize
        ensures length { result ≡ vec_len self.now.octets }
        ensures bound { result ≤ LONGEST_HELD }
    {
        self.octets.len()
    }

    /// Adds an octet that does not end the line.
    pub fn keep(&mut self, octet: u8) -> Result<(), AllocError>
        ensures holds { (rest : List ℕ) → Holds rest self.old
            → OnOk result (Holds (rest ++ octet ∷ []) self.new) }
    {
        if self.is_long {
            return Ok(());
        }
        if self.octets.len() > LONGEST_LINE {
            self.octets.clear();
            self.is_long = true;
            return Ok(());
        }
        self.octets.push(octet)?;
        Ok(())
    }

    /// The item that the line represents.
    fn item(&self) -> Result<LineItem<A>, AllocError>
        ensures item { (rest : List ℕ) → Holds rest self.now
            → IfOk result (λ item. item_of item ≡ line_item rest) }
    {
        if self.is_long {
            return Ok(LineItem::Fault(LineFault::TooLong));
        }
        let item = read_line(self.allocator()?, self.octets.as_slice())?;
        Ok(item)
    }

    fn clear(&mut self)
        ensures empty { Holds [] self.new }
    {
        self.octets.clear();
        self.is_long = false;
    }

    /// Ends the line, and returns the item that it represents.
    pub fn end(&mut self) -> Result<LineItem<A>, AllocError>
        ensures item { (rest : List ℕ) → Holds rest self.old
            → IfOk result (λ item. item_of item ≡ line_item rest) }
        ensures empty { OnOk result (Holds [] self.new) }
    {
        let item = self.item()?;
        self.clear();
        Ok(item)
    }
}
