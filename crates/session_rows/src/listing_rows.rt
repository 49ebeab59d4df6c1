//! Listings over a data connection, and STAT of a path (RFC 959, section 4.1.3; RFC 3659, section 7).
//!
//! If memory runs out the session is unchanged, and the store is as the looks left it.

ghost use Rattle.std.specs.Prelude.{◌≡◌, IfOk, OnErr};
ghost use Rattle.session_rows.specs.Listed.{reported_by};
ghost use Rattle.session_table.specs.Plans.{RanByStore, Stops};
ghost use Rattle.session_table.specs.TransferRows.{list_row, lists_directory, lists_location, mlsd_row, stat_row};

use crate::reported::{report_entries, report_file};
use crate::way::Way;
use authorizer::Authorizer;
use ftp_terms::EntryKind;
use session_state::{Location, RowResult, State};
use session_table::{Refusal, Style};
use std::alloc::Allocator;
use virtual_tree::Store;

/// The entries of a directory.
fn list_directory<A: Allocator + Clone, S: Store<A>>(
    state: &mut State<A>,
    users: &Authorizer<A>,
    store: &mut S,
    location: &Location<A>,
    style: Style,
    way: Way,
) -> RowResult<A, S::Source, S::Sink>
    ensures row { IfOk result (λ actions. RanByStore S.Step
        (lists_directory users.now.users state.old style location.now (reported_by way state.old))
        store.old store.new state.new actions.items) }
    ensures unchanged { OnErr result (state.new ≡ state.old) }
    ensures stops { OnErr result (Stops {A = A} {R = S.Source} {K = S.Sink} S.Step
        (lists_directory users.now.users state.old style location.now (reported_by way state.old))
        store.old store.new) }
{
    match store.list(location.stored()) {
        Err(fault) => state.refuse(Refusal::Store(fault)),
        Ok(entries) => report_entries(
            state,
            users,
            location.path(),
            style,
            way,
            entries.as_slice(),
        ),
    }
}

/// The entries of a directory, or the file itself.
fn list_location<A: Allocator + Clone, S: Store<A>>(
    state: &mut State<A>,
    users: &Authorizer<A>,
    store: &mut S,
    location: &Location<A>,
    style: Style,
    way: Way,
) -> RowResult<A, S::Source, S::Sink>
    ensures row { IfOk result (λ actions. RanByStore S.Step
        (lists_location users.now.users state.old style location.now (reported_by way state.old))
        store.old store.new state.new actions.items) }
    ensures unchanged { OnErr result (state.new ≡ state.old) }
    ensures stops { OnErr result (Stops {A = A} {R = S.Source} {K = S.Sink} S.Step
        (lists_location users.now.users state.old style location.now (reported_by way state.old))
        store.old store.new) }
{
    match store.stat(location.stored()) {
        Err(fault) => state.refuse(Refusal::Store(fault)),
        Ok(meta) => match meta.kind {
            EntryKind::File => report_file(state, users, location.path(), style, way, &meta),
            EntryKind::Directory => list_directory(state, users, store, location, style, way),
        },
    }
}

/// LIST and NLST.
pub fn list_row<A: Allocator + Clone, S: Store<A>>(
    state: &mut State<A>,
    users: &Authorizer<A>,
    store: &mut S,
    location: &Location<A>,
    style: Style,
) -> RowResult<A, S::Source, S::Sink>
    ensures row { IfOk result (λ actions. RanByStore S.Step
        (list_row users.now.users state.old style location.now)
        store.old store.new state.new actions.items) }
    ensures unchanged { OnErr result (state.new ≡ state.old) }
    ensures stops { OnErr result (Stops {A = A} {R = S.Source} {K = S.Sink} S.Step
        (list_row users.now.users state.old style location.now) store.old store.new) }
{
    list_location(state, users, store, location, style, Way::OverData)
}

/// MLSD.
pub fn mlsd_row<A: Allocator + Clone, S: Store<A>>(
    state: &mut State<A>,
    users: &Authorizer<A>,
    store: &mut S,
    location: &Location<A>,
) -> RowResult<A, S::Source, S::Sink>
    ensures row { IfOk result
        (λ actions. RanByStore S.Step (mlsd_row users.now.users state.old location.now)
        store.old store.new state.new actions.items) }
    ensures unchanged { OnErr result (state.new ≡ state.old) }
    ensures stops { OnErr result (Stops {A = A} {R = S.Source} {K = S.Sink} S.Step
        (mlsd_row users.now.users state.old location.now) store.old store.new) }
{
    match store.stat(location.stored()) {
        Err(fault) => state.refuse(Refusal::Store(fault)),
        Ok(meta) => match meta.kind {
            EntryKind::File => state.refuse(Refusal::ListsNoFile),
            EntryKind::Directory => list_directory(
                state,
                users,
                store,
                location,
                Style::FactLines,
                Way::OverData,
            ),
        },
    }
}

/// STAT with an argument.
pub fn stat_row<A: Allocator + Clone, S: Store<A>>(
    state: &mut State<A>,
    users: &Authorizer<A>,
    store: &mut S,
    location: &Location<A>,
) -> RowResult<A, S::Source, S::Sink>
    ensures row { IfOk result
        (λ actions. RanByStore S.Step (stat_row users.now.users state.old location.now)
        store.old store.new state.new actions.items) }
    ensures unchanged { OnErr result (state.new ≡ state.old) }
    ensures stops { OnErr result (Stops {A = A} {R = S.Source} {K = S.Sink} S.Step
        (stat_row users.now.users state.old location.now) store.old store.new) }
{
    list_location(
        state,
        users,
        store,
        location,
        Style::LongLines,
        Way::InReply,
    )
}
