//! Reads a control connection in pieces of any size.

use crate::items::{LONGEST_HELD, LineItem};
use crate::lines::OpenLine;
use crate::telnet::Stage;
use std::alloc::{AllocError, Allocator, Global};

const LF: u8 = 10;

/// Reads the octets that a client sends on its control connection.
///
/// Telnet commands are removed, the rest is cut into lines at each LF, and each line is one item. The reader
/// stores at most the octets of one line, and nothing of a Telnet command. Of a line of 4,097 octets it stores
/// all, since a CR at their end may belong to the line's end; with the next octet the line is too long, and none
/// of it is stored.
#[derive(Drop)]
pub struct LineReader<A: Allocator = Global> {
    stage: Stage,
    line: OpenLine<A>,
}

impl<A: Allocator + Clone> LineReader<A> {
    ghost use Rattle.std.specs.Prelude.{◌≡◌, ◌≤◌, ◌++◌, ◌∷◌, [], ℕ, List, IfOk, OnErr, OnOk};
    ghost use Rattle.ftp_wire.specs.Items.{Item};
    ghost use Rattle.ftp_wire.specs.Reading.{HasRead, OnlyReadsAs, held, items_of};

    /// A reader that has read nothing.
    pub fn new(alloc: A) -> LineReader<A>
        ensures start { HasRead [] [] result }
    {
        LineReader {
            stage: Stage::new(),
            line: OpenLine::new(alloc),
        }
    }

    /// Number of octets stored of the open line, at most [`LONGEST_HELD`]: a longest line and a CR that may belong
    /// to its end. The reader stores no other octets.
    pub fn kept(&self) -> usize
        ensures kept { result ≡ held self.now }
        ensures bound { result ≤ LONGEST_HELD }
    {
        self.line.len()
    }

    /// A copy with room for `more` octets.
    fn copy(&self, more: usize) -> Result<LineReader<A>, AllocError>
        ensures reads { (octets : List ℕ) (items : List Item) → HasRead octets items self.now
            → IfOk result (HasRead octets items) }
    {
        let line = self.line.copy(more)?;
        Ok(LineReader {
            stage: self.stage,
            line,
        })
    }

    /// Reads the next octet, and appends the item that it ends, if any.
    fn take(&mut self, octet: u8, found: &mut Vec<LineItem<A>, A>) -> Result<(), AllocError>
        ensures reads { (octets : List ℕ) (items : List Item)
            → HasRead octets (items ++ items_of found.old.items) self.old
            → OnOk result
            (HasRead (octets ++ octet ∷ []) (items ++ items_of found.new.items) self.new) }
    {
        let Some(kept) = self.stage.step(octet) else {
            return Ok(());
        };
        if kept == LF {
            let item = self.line.end()?;
            found.push(item)?;
            return Ok(());
        }
        self.line.keep(kept)?;
        Ok(())
    }

    /// Reads the next piece, and returns the items of the lines that it ends, in order.
    ///
    /// After any pieces, the items so far are the only ones that the octets so far represent. `Err`, which is
    /// returned only if memory runs out, leaves the reader unchanged. Time is proportional to the piece plus the
    /// octets stored.
    pub fn feed(&mut self, piece: &[u8]) -> Result<Vec<LineItem<A>, A>, AllocError>
        ensures reads { (octets : List ℕ) (items : List Item) → HasRead octets items self.old
            → IfOk result
            (λ found. HasRead (octets ++ piece.now) (items ++ items_of found.items) self.new) }
        ensures only { (octets : List ℕ) (items : List Item) → HasRead octets items self.old
            → IfOk result
            (λ found. OnlyReadsAs (octets ++ piece.now) (items ++ items_of found.items)) }
        ensures unchanged { OnErr result (self.new ≡ self.old) }
    {
        let mut next = self.copy(piece.len())?;
        let mut found = Vec::new(self.line.allocator()?);
        for octet in piece {
            next.take(*octet, &mut found)?;
        }
        *self = next;
        Ok(found)
    }

    /// A law: what a reader has read represents the items that it has returned, and no others.
    pub fn reads_as(&self)
        ensures only { (octets : List ℕ) (items : List Item) → HasRead octets items self.now
            → OnlyReadsAs octets items }
    {}
}
