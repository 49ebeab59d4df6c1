//! Wire octets that wait to be written.

ghost use Rattle.std.specs.Prelude.{◌≡◌, ◌+◌, ◌*◌, ◌<◌, ◌≤◌, ◌-◌, ◌&&◌, nat_lt, [], length, take, drop, slice_range, IfOk, IfErr, OnErr};
ghost use Rattle.virtual_tree.specs.Calls.{IsEndFault};
ghost use Rattle.std.specs.Io.KnownBytes.{Keeps};
ghost use Rattle.data_pump.specs.Buffers.{Fills, FillsUp, lent_for, room_for};
ghost use Rattle.data_pump.specs.Counts.{Counts};
ghost use Rattle.data_pump.specs.Downloads.{is_image};

use crate::counted::CountedEnd;
use crate::runs::send_text;
use ftp_terms::DataType;
use std::alloc::{AllocError, Allocator};
use std::marker::Model;
use virtual_tree::{Source, StoreFault};

/// Most wire octets that may wait at once.
pub const MAX_WAITING: usize = 65_536;

/// Least room of a buffer, in wire octets.
pub const LEAST_ROOM: usize = 512;

/// Room of a buffer, in wire octets: for the octets that are expected of a source, each of which may become two under
/// TYPE A, and for one more, so that a read of all of them leaves room and shows the end. At least `LEAST_ROOM` and at
/// most `MAX_WAITING`, which it is if nothing is expected.
pub(crate) fn room_for(data_type: DataType, expected: Option<u64>) -> usize
    ensures room { result ≡ room_for data_type expected }
{
    let count = match expected {
        Some(count) => count.min(MAX_WAITING as u64) as usize,
        None => return MAX_WAITING,
    };
    let room = match data_type {
        DataType::Ascii => 2 * (count + 1),
        DataType::Image => count + 1,
    };
    room.max(LEAST_ROOM).min(MAX_WAITING)
}

/// Waiting wire octets. Under TYPE I a source is read directly into them; under TYPE A it is read into a buffer half
/// as long, from which they are made.
#[derive(Drop)]
pub(crate) struct WireBuffer<A: Allocator> {
    data_type: DataType,
    text: Vec<u8, A>,
    octets: Vec<u8, A>,
    from: usize,
    to: usize,
}

impl<A: Allocator> Model for WireBuffer<A> {
    ghost use Rattle.std.specs.Prelude.{length, slice_range};
    ghost use Rattle.data_pump.specs.Buffers.{Waiting, IsBuffer};

    ghost Value = { Waiting };

    ghost view = { λ b. record {
      data_type = b.data_type;
      octets = slice_range b.octets.items b.from b.to;
      room = length b.octets.items;
    } };

    ghost invariant = { λ b. IsBuffer b.data_type b.text.items b.octets.items b.from b.to };
}

impl<A: Allocator> WireBuffer<A> {
    /// An empty buffer with this room.
    pub fn new(alloc: A, data_type: DataType, room: usize) -> Result<WireBuffer<A>, AllocError>
    where
        A: Clone,
        requires some { 1 < room }
        requires most { room ≤ MAX_WAITING }
        ensures empty { IfOk result
            (λ buffer. buffer ≡ record { data_type = data_type; octets = []; room = room }) }
    {
        let text = match data_type {
            DataType::Ascii => vec![in alloc.clone()?; 0u8; room / 2]?,
            DataType::Image => Vec::new(alloc.clone()?),
        };
        let octets = vec![in alloc; 0u8; room]?;
        Ok(WireBuffer {
            data_type,
            text,
            octets,
            from: 0,
            to: 0,
        })
    }

    /// Number of octets that wait.
    pub fn len(&self) -> usize
        ensures len { result ≡ length self.now.octets }
        ensures most { result ≤ MAX_WAITING }
    {
        self.to - self.from
    }

    /// Returns whether fewer octets wait than half of the room, under TYPE I.
    pub fn is_low(&self) -> bool
        ensures low { result ≡ (is_image self.now.data_type
            && nat_lt (2 * length self.now.octets) self.now.room) }
    {
        match self.data_type {
            DataType::Ascii => false,
            DataType::Image => 2 * self.len() < self.octets.len(),
        }
    }

    /// The first `count` octets that wait.
    pub fn front(&self, count: usize) -> &[u8]
        requires some { count ≤ length self.now.octets }
        ensures front { result.now ≡ take count self.now.octets }
    {
        &self.octets[self.from..self.from + count]
    }

    /// Removes the first `count` octets that wait.
    pub fn consume(&mut self, count: usize)
        requires some { count ≤ length self.old.octets }
        ensures data_type { self.new.data_type ≡ self.old.data_type }
        ensures room { self.new.room ≡ self.old.room }
        ensures left { self.new.octets ≡ drop count self.old.octets }
    {
        self.from += count;
    }

    /// Replaces the octets that wait by those of one read of the source, and returns their number. After a fault none
    /// wait.
    pub fn fill<S: Source>(&mut self, source: &mut CountedEnd<S>) -> Result<usize, StoreFault>
        ensures data_type { self.new.data_type ≡ self.old.data_type }
        ensures room { self.new.room ≡ self.old.room }
        ensures count { IfOk result (λ count. count ≡ length self.new.octets) }
        ensures filled { IfOk result
            (λ count. Fills self.old.data_type (S.remaining source.old.end)
            (S.remaining source.new.end) count self.new.octets) }
        ensures empty { OnErr result (self.new.octets ≡ []) }
        ensures kept { OnErr result
            (Keeps (S.remaining source.old.end) (S.remaining source.new.end)) }
        ensures counts { Counts result source.old.calls source.new.calls }
        ensures lent { source.new.lent ≡ lent_for self.new.data_type self.new.room }
        ensures refusal { IfErr result (IsEndFault (S.remaining source.old.end)) }
    {
        self.from = 0;
        self.to = 0;
        let count = match self.data_type {
            DataType::Ascii => read_text(source, &mut self.text, &mut self.octets)?,
            DataType::Image => read_octets(source, &mut self.octets)?,
        };
        self.to = count;
        Ok(count)
    }

    /// Appends the octets of one read of the source to those that wait, under TYPE I. Returns their number, which is 0
    /// only at the source's end. After a fault the same octets wait, and the source has those that it had.
    pub fn fill_up<S: Source>(&mut self, source: &mut CountedEnd<S>) -> Result<usize, StoreFault>
        requires image { self.old.data_type ≡ DataType.Image }
        requires room { length self.old.octets < self.old.room }
        ensures data_type { self.new.data_type ≡ self.old.data_type }
        ensures same_room { self.new.room ≡ self.old.room }
        ensures filled { IfOk result (λ count. FillsUp (S.remaining source.old.end)
            (S.remaining source.new.end) count self.old.octets self.new.octets) }
        ensures left { OnErr result (self.new.octets ≡ self.old.octets) }
        ensures kept { OnErr result
            (Keeps (S.remaining source.old.end) (S.remaining source.new.end)) }
        ensures counts { Counts result source.old.calls source.new.calls }
        ensures lent { source.new.lent ≡ self.old.room - length self.old.octets }
        ensures refusal { IfErr result (IsEndFault (S.remaining source.old.end)) }
    {
        let waiting = self.to - self.from;
        move_down(&mut self.octets, self.from, self.to);
        self.from = 0;
        self.to = waiting;
        let count = read_after(source, &mut self.octets, waiting)?;
        self.to = waiting + count;
        Ok(count)
    }
}

// Moves the octets from `from` to `to` to the start.
fn move_down(octets: &mut [u8], from: usize, to: usize)
    requires order { from ≤ to }
    requires within { to ≤ length octets.old }
    ensures len { length octets.new ≡ length octets.old }
    ensures moved { slice_range octets.new 0 (to - from) ≡ slice_range octets.old from to }
{
    octets.copy_within(from..to, 0);
}

// One read, directly after the first `waiting` octets, which stay. After a fault the octets beyond them may be any.
fn read_after<S: Source>(
    source: &mut CountedEnd<S>,
    octets: &mut [u8],
    waiting: usize,
) -> Result<usize, StoreFault>
    requires room { waiting < length octets.old }
    ensures len { length octets.new ≡ length octets.old }
    ensures front { slice_range octets.new 0 waiting ≡ slice_range octets.old 0 waiting }
    ensures bound { IfOk result (λ count. waiting + count ≤ length octets.new) }
    ensures filled { IfOk result (λ count. FillsUp (S.remaining source.old.end)
        (S.remaining source.new.end) count (slice_range octets.old 0 waiting)
        (slice_range octets.new 0 (waiting + count))) }
    ensures kept { OnErr result
        (Keeps (S.remaining source.old.end) (S.remaining source.new.end)) }
    ensures counts { Counts result source.old.calls source.new.calls }
    ensures lent { source.new.lent ≡ length octets.old - waiting }
    ensures refusal { IfErr result (IsEndFault (S.remaining source.old.end)) }
{
    let count = source.fetch(&mut octets[waiting..])?;
    Ok(count)
}

// One read, directly into the octets.
fn read_octets<S: Source>(
    source: &mut CountedEnd<S>,
    octets: &mut [u8],
) -> Result<usize, StoreFault>
    requires room { 0 < length octets.old }
    ensures bound { IfOk result (λ count. count ≤ length octets.new) }
    ensures filled { IfOk result
        (λ count. Fills DataType.Image (S.remaining source.old.end) (S.remaining source.new.end)
        count (take count octets.new)) }
    ensures kept { OnErr result
        (Keeps (S.remaining source.old.end) (S.remaining source.new.end)) }
    ensures counts { Counts result source.old.calls source.new.calls }
    ensures lent { source.new.lent ≡ length octets.old }
    ensures refusal { IfErr result (IsEndFault (S.remaining source.old.end)) }
{
    source.fetch(octets)
}

// One read into the text, from which the wire octets are made.
fn read_text<S: Source>(
    source: &mut CountedEnd<S>,
    text: &mut [u8],
    octets: &mut [u8],
) -> Result<usize, StoreFault>
    requires some { 0 < length text.old }
    requires room { 2 * length text.old ≤ length octets.old }
    ensures bound { IfOk result (λ count. count ≤ length octets.new) }
    ensures filled { IfOk result
        (λ count. Fills DataType.Ascii (S.remaining source.old.end) (S.remaining source.new.end)
        count (take count octets.new)) }
    ensures kept { OnErr result
        (Keeps (S.remaining source.old.end) (S.remaining source.new.end)) }
    ensures counts { Counts result source.old.calls source.new.calls }
    ensures lent { source.new.lent ≡ length text.old }
    ensures refusal { IfErr result (IsEndFault (S.remaining source.old.end)) }
{
    let count = source.fetch(text)?;
    Ok(send_text(&text[..count], octets))
}
