//! Transfers of files: RETR, STOR, APPE (RFC 959, section 4.1.3; RFC 3659, section 5).

ghost use Rattle.std.specs.Prelude.{◌≡◌, IfOk, OnErr};
ghost use Rattle.session_table.specs.Plans.{RanByStore, Stops};
ghost use Rattle.session_table.specs.TransferRows.{appe_row, reads, retr_row, stor_row, store_mode, writes};

use crate::outcomes::{push_refusal, push_start};
use session_state::{Location, RowResult, State, room_for};
use session_table::{Job, TransferContent};
use std::alloc::Allocator;
use virtual_tree::{Store, WriteMode};

/// Opens a file for reading from this offset on. After an error session and store are unchanged.
fn reads<A: Allocator + Clone, S: Store<A>>(
    state: &mut State<A>,
    store: &mut S,
    location: Location<A>,
    offset: u64,
) -> RowResult<A, S::Source, S::Sink>
    ensures row { IfOk result (λ actions.
        RanByStore S.Step (reads state.old offset location)
        store.old store.new state.new actions.items) }
    ensures unchanged { OnErr result (state.new ≡ state.old) }
    ensures untouched { OnErr result (store.new ≡ store.old) }
{
    let mut actions = room_for(state, 2)?;
    match store.open_read(location.stored(), offset) {
        Err(fault) => push_refusal(state, fault, &mut actions),
        Ok(source) => {
            let job = Job::SendFile(source, state.data_type());
            let content = TransferContent::Sending(location.into_path());
            push_start(state, content, job, &mut actions);
        }
    }
    Ok(actions)
}

/// RETR: a file from the offset on. After an error session and store are unchanged.
pub fn retr_row<A: Allocator + Clone, S: Store<A>>(
    state: &mut State<A>,
    store: &mut S,
    location: Location<A>,
) -> RowResult<A, S::Source, S::Sink>
    ensures row { IfOk result (λ actions.
        RanByStore S.Step (retr_row state.old location)
        store.old store.new state.new actions.items) }
    ensures unchanged { OnErr result (state.new ≡ state.old) }
    ensures stops { OnErr result (
        Stops {A = A} {R = S.Source} {K = S.Sink} S.Step
        (retr_row state.old location) store.old store.new) }
    ensures untouched { OnErr result (store.new ≡ store.old) }
{
    let offset = state.offset();
    reads(state, store, location, offset)
}

/// Opens a file for writing in this mode. After an error session and store are unchanged.
fn writes<A: Allocator + Clone, S: Store<A>>(
    state: &mut State<A>,
    store: &mut S,
    location: Location<A>,
    mode: WriteMode,
    moment: u64,
) -> RowResult<A, S::Source, S::Sink>
    ensures row { IfOk result (λ actions.
        RanByStore S.Step (writes state.old mode moment location)
        store.old store.new state.new actions.items) }
    ensures unchanged { OnErr result (state.new ≡ state.old) }
    ensures untouched { OnErr result (store.new ≡ store.old) }
{
    let mut actions = room_for(state, 2)?;
    match store.open_write(location.stored(), mode, moment) {
        Err(fault) => push_refusal(state, fault, &mut actions),
        Ok(sink) => {
            let job = Job::TakeFile(sink, state.data_type());
            let content = TransferContent::Taking(location.into_path());
            push_start(state, content, job, &mut actions);
        }
    }
    Ok(actions)
}

/// The mode of STOR: from the offset on if it is above 0.
fn store_mode(offset: u64) -> WriteMode
    ensures mode { result ≡ store_mode offset }
{
    if offset > 0 {
        WriteMode::At(offset)
    } else {
        WriteMode::New
    }
}

/// STOR: a file from the offset on. The moment is in milliseconds since 1970. After an error session and store are
/// unchanged.
pub fn stor_row<A: Allocator + Clone, S: Store<A>>(
    state: &mut State<A>,
    store: &mut S,
    location: Location<A>,
    moment: u64,
) -> RowResult<A, S::Source, S::Sink>
    ensures row { IfOk result (λ actions.
        RanByStore S.Step (stor_row state.old moment location) store.old store.new state.new
        actions.items) }
    ensures unchanged { OnErr result (state.new ≡ state.old) }
    ensures stops { OnErr result (
        Stops {A = A} {R = S.Source} {K = S.Sink} S.Step
        (stor_row state.old moment location) store.old store.new) }
    ensures untouched { OnErr result (store.new ≡ store.old) }
{
    let mode = store_mode(state.offset());
    writes(state, store, location, mode, moment)
}

/// APPE: after the last octet of a file. The moment is in milliseconds since 1970. After an error session and store are
/// unchanged.
pub fn appe_row<A: Allocator + Clone, S: Store<A>>(
    state: &mut State<A>,
    store: &mut S,
    location: Location<A>,
    moment: u64,
) -> RowResult<A, S::Source, S::Sink>
    ensures row { IfOk result (λ actions.
        RanByStore S.Step (appe_row state.old moment location) store.old store.new state.new
        actions.items) }
    ensures unchanged { OnErr result (state.new ≡ state.old) }
    ensures stops { OnErr result (
        Stops {A = A} {R = S.Source} {K = S.Sink} S.Step
        (appe_row state.old moment location) store.old store.new) }
    ensures untouched { OnErr result (store.new ≡ store.old) }
{
    writes(state, store, location, WriteMode::Append, moment)
}
