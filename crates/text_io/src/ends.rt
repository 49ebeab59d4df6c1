//! The ends that programs read and write: their octets, and the failures that they may have.

ghost use Rattle.std.specs.Prelude.{◌≡◌, ◌+◌, ◌<◌, ◌≤◌, ℕ, Bool, List, Option, Some, true, false, length, take, IfOk, OnErr, OnOk, vec_len, vec_capacity};
ghost use Rattle.std.specs.Io.{ReadsAtMost};
ghost use Rattle.std.specs.Io.KnownBytes.{Appends, Keeps, ReadConsumes};
ghost use Rattle.text_io.specs.Parts.{AppendsPart};

use std::alloc::Allocator;
use std::io;
use std::io::{ErrorKind, Read, Write};

/// An end that octets are read from.
pub trait TextReader {
    // the octets that are left, if they are known
    ghost remaining: { Self → Option (List ℕ) };

    // a read may fail
    ghost may_fail: { Self → Bool };

    /// Reads into the front of the buffer, and returns the number of octets: 0 only at the end.
    fn read_front(&mut self, buffer: &mut [u8]) -> io::Result<usize>
        requires room { 0 < length buffer.old }
        ensures bound { ReadsAtMost result buffer.new }
        ensures octets { ReadConsumes (remaining self.old) (remaining self.new) result buffer.new }
        ensures fails { OnErr result (may_fail self.old ≡ true) }
        ensures stays { may_fail self.new ≡ may_fail self.old };
}

/// An end that octets are written to.
pub trait TextWriter {
    // the contents, if they are known
    ghost contents: { Self → Option (List ℕ) };

    // the end may refuse those octets
    ghost may_refuse: { Self → List ℕ → Type 0 };

    /// Writes all the octets. After an error some of them, from the front, may have gone out.
    fn write_text(&mut self, text: &[u8]) -> io::Result<()>
        ensures octets { OnOk result (Appends (contents self.old) (contents self.new) text.now) }
        ensures part { OnErr result (AppendsPart (contents self.old) (contents self.new) text.now) }
        ensures refuses { OnErr result (may_refuse self.old text.now) };
}

/// A list in memory: reads return its octets and never fail.
impl TextReader for &[u8] {
    ghost remaining = { λ s. Some s.now };

    ghost may_fail = { λ _. false };

    fn read_front(&mut self, buffer: &mut [u8]) -> io::Result<usize> {
        self.read(buffer)
    }
}

/// A list in memory: it refuses octets only if it would have to grow, and then takes none.
impl<A: Allocator> TextWriter for Vec<u8, A> {
    ghost contents = { λ v. Some v.items };

    ghost may_refuse = { λ v text. vec_capacity v < vec_len v + length text };

    fn write_text(&mut self, text: &[u8]) -> io::Result<()> {
        self.extend_from_slice(text)?;
        Ok(())
    }
}

/// Any other reader or writer, such as a file: it may fail at each call.
#[derive(Drop)]
pub struct FallibleIo<E>(pub E);

impl<R: Read> TextReader for FallibleIo<R> {
    ghost remaining = { λ o. R.remaining o.0 };

    ghost may_fail = { λ _. true };

    fn read_front(&mut self, buffer: &mut [u8]) -> io::Result<usize> {
        read_through(&mut self.0, buffer)
    }
}

/// Number of times that a call is made if each time it is interrupted.
const MOST_TRIES: u64 = 100;

/// Reads once, and again if the read is interrupted: [`MOST_TRIES`] times in all.
fn read_through<R: Read>(reader: &mut R, buffer: &mut [u8]) -> io::Result<usize>
    ensures bound { ReadsAtMost result buffer.new }
    ensures octets { ReadConsumes (R.remaining reader.old)
        (R.remaining reader.new) result buffer.new }
{
    'reads: for _ in 0..MOST_TRIES {
        match reader.read(buffer) {
            Err(error) if error.kind() == ErrorKind::Interrupted => {}
            answer => return answer,
        }
    }
    Err(io::Error::from(ErrorKind::Interrupted))
}

/// Writes once, at least one octet, and again if the write is interrupted: [`MOST_TRIES`] times in all.
fn write_once<W: Write>(writer: &mut W, text: &[u8]) -> io::Result<usize>
    ensures some { IfOk result (λ count. 0 < count) }
    ensures bound { IfOk result (λ count. count ≤ length text.now) }
    ensures octets { IfOk result (λ count.
        Appends (W.contents writer.old) (W.contents writer.new) (take count text.now)) }
    ensures kept { OnErr result (Keeps (W.contents writer.old) (W.contents writer.new)) }
{
    'writes: for _ in 0..MOST_TRIES {
        match writer.write(text) {
            Ok(0) => return Err(io::Error::from(ErrorKind::WriteZero)),
            Err(error) if error.kind() == ErrorKind::Interrupted => {}
            answer => return answer,
        }
    }
    Err(io::Error::from(ErrorKind::Interrupted))
}

/// Writes all the octets.
fn write_through<W: Write>(writer: &mut W, text: &[u8]) -> io::Result<()>
    ensures octets { OnOk result
        (Appends (W.contents writer.old) (W.contents writer.new) text.now) }
    ensures part { OnErr result
        (AppendsPart (W.contents writer.old) (W.contents writer.new) text.now) }
{
    let mut done = 0;
    while done < text.len() {
        let count = write_once(writer, &text[done..])?;
        done += count;
    }
    writer.flush()
}

impl<W: Write> TextWriter for FallibleIo<W> {
    ghost contents = { λ o. W.contents o.0 };

    ghost may_refuse = { λ _ _. Unit {0} };

    fn write_text(&mut self, text: &[u8]) -> io::Result<()> {
        write_through(&mut self.0, text)
    }
}
