//! Changes of a store: MKD, RMD, DELE, RNFR, RNTO (RFC 959, section 4.1.3).

ghost use Rattle.std.specs.Prelude.{◌≡◌, IfOk, OnErr, Some};
ghost use Rattle.ftp_reply.specs.Quoting.{quoted};
ghost use Rattle.ftp_reply.specs.Replies.{OneLine};
ghost use Rattle.session_table.specs.FileRows.{dele_row, is_root, mkd_row, rmd_row, rnfr_row, rnto_row, unless_fault};
ghost use Rattle.session_table.specs.Plans.{RanByStore, Stops};
ghost use Rattle.session_table.specs.Plans.Plan.{Then};
ghost use Rattle.session_table.specs.StateRows.{notes};
ghost use Rattle.session_table.specs.declared.answers.Answer.TheVariants.{Made};
ghost use Rattle.session_table.specs.declared.notices.Notice.TheVariants.{SendRnto};
ghost use Rattle.virtual_path.specs.Path.{path_text};

use crate::outcomes::push_changed;
use ftp_terms::Meta;
use session_state::{Location, RowResult, State, path_answer, room_for};
use session_table::{Answer, Notice, Refusal};
use std::alloc::{AllocError, Allocator};
use virtual_path::VPath;
use virtual_tree::{Store, StoreFault};

fn is_root<A: Allocator>(path: &VPath<A>) -> bool
    ensures root { result ≡ is_root path.now }
{
    path.depth() == 0
}

fn path_reply<A: Allocator + Clone>(
    state: &State<A>,
    location: &Location<A>,
) -> Result<Answer<A>, AllocError>
    ensures reply { IfOk result (λ reply.
        reply ≡ Made (OneLine 257 (quoted (path_text location.now.path)))) }
{
    path_answer(state.alloc()?, location.path().text())
}

/// MKD.
pub fn mkd_row<A: Allocator + Clone, S: Store<A>>(
    state: &mut State<A>,
    store: &mut S,
    location: &Location<A>,
) -> RowResult<A, S::Source, S::Sink>
    ensures row { IfOk result (λ actions.
        RanByStore S.Step (mkd_row state.old location.now)
        store.old store.new state.new actions.items) }
    ensures unchanged { OnErr result (state.new ≡ state.old) }
    ensures stops { OnErr result (
        Stops {A = A} {R = S.Source} {K = S.Sink} S.Step
        (mkd_row state.old location.now) store.old store.new) }
{
    let mut actions = room_for(state, 1)?;
    let reply = path_reply(state, location)?;
    let changed = store.make_dir(location.stored());
    push_changed(state, reply, changed, &mut actions);
    Ok(actions)
}

/// DELE.
pub fn dele_row<A: Allocator + Clone, S: Store<A>>(
    state: &mut State<A>,
    store: &mut S,
    location: &Location<A>,
) -> RowResult<A, S::Source, S::Sink>
    ensures row { IfOk result (λ actions.
        RanByStore S.Step (dele_row state.old location.now)
        store.old store.new state.new actions.items) }
    ensures unchanged { OnErr result (state.new ≡ state.old) }
    ensures stops { OnErr result (
        Stops {A = A} {R = S.Source} {K = S.Sink} S.Step
        (dele_row state.old location.now) store.old store.new) }
{
    let mut actions = room_for(state, 1)?;
    let reply = Answer::Notice(Notice::FileRemoved);
    let changed = store.remove_file(location.stored());
    push_changed(state, reply, changed, &mut actions);
    Ok(actions)
}

/// RMD.
pub fn rmd_row<A: Allocator + Clone, S: Store<A>>(
    state: &mut State<A>,
    store: &mut S,
    location: &Location<A>,
) -> RowResult<A, S::Source, S::Sink>
    ensures row { IfOk result (λ actions.
        RanByStore S.Step (rmd_row state.old location.now)
        store.old store.new state.new actions.items) }
    ensures unchanged { OnErr result (state.new ≡ state.old) }
    ensures stops { OnErr result (
        Stops {A = A} {R = S.Source} {K = S.Sink} S.Step
        (rmd_row state.old location.now) store.old store.new) }
{
    if is_root(location.path()) {
        return state.refuse(Refusal::NotPermitted);
    }
    let mut actions = room_for(state, 1)?;
    let reply = Answer::Notice(Notice::DirectoryRemoved);
    let changed = store.remove_dir(location.stored());
    push_changed(state, reply, changed, &mut actions);
    Ok(actions)
}

/// Keeps an existing path for RNTO.
fn keep<A: Allocator + Clone, R: Drop, K: Drop>(
    state: &mut State<A>,
    stored: VPath<A>,
    looked: Result<Meta, StoreFault>,
) -> RowResult<A, R, K>
    ensures row { IfOk result (λ actions.
        Then state.new actions.items ≡ unless_fault state.old (λ meta.
        notes (record state.old { source = Some stored }) SendRnto) looked) }
    ensures unchanged { OnErr result (state.new ≡ state.old) }
{
    if let Err(fault) = looked {
        return state.refuse(Refusal::Store(fault));
    }
    let actions = state.reply_notice(Notice::SendRnto)?;
    state.keep_source(stored);
    Ok(actions)
}

/// RNFR.
pub fn rnfr_row<A: Allocator + Clone, S: Store<A>>(
    state: &mut State<A>,
    store: &mut S,
    location: Location<A>,
) -> RowResult<A, S::Source, S::Sink>
    ensures row { IfOk result (λ actions.
        RanByStore S.Step (rnfr_row state.old location)
        store.old store.new state.new actions.items) }
    ensures unchanged { OnErr result (state.new ≡ state.old) }
    ensures stops { OnErr result (
        Stops {A = A} {R = S.Source} {K = S.Sink} S.Step
        (rnfr_row state.old location) store.old store.new) }
{
    if is_root(location.path()) {
        return state.refuse(Refusal::NotPermitted);
    }
    let looked = store.stat(location.stored());
    keep(state, location.into_stored(), looked)
}

/// RNTO.
pub fn rnto_row<A: Allocator + Clone, S: Store<A>>(
    state: &mut State<A>,
    store: &mut S,
    location: &Location<A>,
) -> RowResult<A, S::Source, S::Sink>
    ensures row { IfOk result (λ actions.
        RanByStore S.Step (rnto_row state.old location.now)
        store.old store.new state.new actions.items) }
    ensures unchanged { OnErr result (state.new ≡ state.old) }
    ensures stops { OnErr result (
        Stops {A = A} {R = S.Source} {K = S.Sink} S.Step
        (rnto_row state.old location.now) store.old store.new) }
{
    let mut actions = room_for(state, 1)?;
    let changed = match state.source() {
        None => return state.refuse(Refusal::NoSource),
        Some(source) => store.rename(source, location.stored()),
    };
    let reply = Answer::Notice(Notice::Renamed);
    push_changed(state, reply, changed, &mut actions);
    Ok(actions)
}
