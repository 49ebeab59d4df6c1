//! The octets that an upload asks a round for.
//!
//! A transfer that is granted octets and does not move them takes them from the others under its rates, until these have
//! earned them again. So an upload looks how much has come before it asks, and asks for that. While the rates have
//! plenty left, one whose last read was of all that a read can return does not look: a look costs a copy of the octets.
//! Nor does one that no rate limits, since it takes nothing from anybody: it asks for as many as one read can return.

ghost use Rattle.std.specs.Prelude.{◌≡◌, Some, IfSome};
ghost use Rattle.lane_rounds.specs.Gates.{come_at_first, is_to_look, left_after, want_of};
ghost use Rattle.transfer_worker.specs.Transfers.{IsUploadWant};

use data_pump::MAX_READ;
use server_house::{DataConnection, LaneSign};
use std::alloc::Global;

/// An upload looks before an ask if fewer octets than this are known to be there: half of a read.
const FEW: u64 = 32_768;

/// The looks of an upload, over a handle of its connection.
#[derive(Drop)]
pub(crate) struct UploadLooks {
    connection: DataConnection,
    // room for what a look finds; none before the first
    room: Vec<u8, Global>,
    // the octets known to be there; `None` after a read of as many as one can return, while the rates have plenty left,
    // and if no rate is a limit
    come: Option<u64>,
}

// The octets known to be there before the first read.
fn come_at_first(is_free: bool) -> Option<u64>
    ensures come { result ≡ come_at_first is_free }
{
    if is_free { None } else { Some(0) }
}

// The octets known to be there after a read of this many, while no rate is a limit, or the rates have plenty left or not.
fn left_after(come: Option<u64>, is_free: bool, has_plenty: bool, octets: u64) -> Option<u64>
    ensures left { result ≡ left_after come is_free has_plenty octets }
{
    if is_free {
        return None;
    }
    if has_plenty && octets >= MAX_READ as u64 {
        return None;
    }
    match come {
        Some(come) => Some(come.saturating_sub(octets)),
        None => Some(0),
    }
}

// Returns whether an upload looks before it asks.
fn is_to_look(come: Option<u64>) -> bool
    ensures look { result ≡ is_to_look come }
{
    match come {
        Some(come) => come < FEW,
        None => false,
    }
}

/// The number of octets that an upload asks for, if this many are known to be there: at least one, by which the end of the
/// stream is read.
pub(crate) fn want_of(come: Option<u64>) -> u64
    ensures want { result ≡ want_of come }
    ensures bounds { IsUploadWant result }
{
    match come {
        Some(come) => come.min(MAX_READ as u64).max(1),
        None => MAX_READ as u64,
    }
}

impl UploadLooks {
    /// The looks of an upload over this connection, of which nothing is known yet, and which no rate limits, or one does.
    /// `None` if there is no memory for another handle.
    pub(crate) fn new(
        alloc: Global,
        connection: &DataConnection,
        is_free: bool,
    ) -> Option<UploadLooks>
        ensures come { IfSome result (λ looks. looks.come ≡ come_at_first is_free) }
    {
        match connection.another() {
            Ok(connection) => Some(UploadLooks {
                connection,
                room: Vec::new(alloc),
                come: come_at_first(is_free),
            }),
            Err(_) => None,
        }
    }

    /// Takes account of a read of this many octets, while no rate is a limit, or the rates have plenty left or not.
    pub(crate) fn account(&mut self, is_free: bool, has_plenty: bool, octets: u64)
        ensures come { self.new.come ≡ left_after self.old.come is_free has_plenty octets }
    {
        self.come = left_after(self.come, is_free, has_plenty, octets);
    }

    // Returns whether there is room for what a look finds.
    fn has_room(&mut self, alloc: Global) -> bool
        ensures come { self.new.come ≡ self.old.come }
    {
        if self.room.is_empty() {
            match vec![in alloc; 0u8; MAX_READ] {
                Ok(room) => self.room = room,
                Err(_) => return false,
            }
        }
        true
    }

    /// The number of octets that the upload asks for. If it looks, this waits until octets have come, or for the end of the
    /// stream. Without memory for a look it asks for as many as one read can return.
    pub(crate) fn want(&mut self, alloc: Global) -> u64
        ensures bounds { IsUploadWant result }
    {
        if is_to_look(self.come) {
            if !self.has_room(alloc) {
                return want_of(None);
            }
            let come = self.connection.peek(&mut self.room);
            self.come = Some(come as u64);
        }
        want_of(self.come)
    }
}

/// Takes account of a read, if the transfer is an upload that looks.
pub(crate) fn account(looks: &mut Option<UploadLooks>, sign: &LaneSign, octets: u64) {
    if let Some(looks) = looks {
        looks.account(sign.is_free(), sign.has_plenty(), octets);
    }
}

/// The number of octets that a transfer asks for next: that of its looks, or as many as one read can return, if it has
/// none.
pub(crate) fn next_want(alloc: Global, looks: &mut Option<UploadLooks>) -> u64
    ensures bounds { IsUploadWant result }
{
    match looks {
        Some(looks) => looks.want(alloc),
        None => want_of(None),
    }
}
