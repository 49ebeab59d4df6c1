//! The rows: without a path, and at a location.

ghost use Rattle.std.specs.Prelude.{◌≡◌, IfOk, OnErr};
ghost use Rattle.session_core.specs.Rows.{login_by, row_by};
ghost use Rattle.session_table.specs.Judged.{judged_at, located};
ghost use Rattle.session_table.specs.Plans.{Ran, RanByFloors, RanByStore, Stops};
ghost use Rattle.session_table.specs.Plans.Plan.{Then};
ghost use Rattle.session_table.specs.Rules.{at_found, file_row, login_row, row_plan, state_row};

use crate::order::judge;
use authorizer::Authorizer;
use rate_floors::Floors;
use session_rows::{
    abor_row, appe_row, cwd_row, dele_row, eprt_row, epsv_row, feat_row, list_row, mdtm_row,
    mkd_row, mlsd_row, mlst_row, opts_row, pass_row, pasv_row, port_row, pwd_row, quit_row,
    rein_row, rest_row, retr_row, rmd_row, rnfr_row, rnto_row, size_row, stat_row, status_row,
    stor_row, type_row, user_row,
};
use session_state::{Location, RowResult, State};
use session_table::{Conditions, FileRow, LocatedRow, LoginRow, NamedRow, Rule, StateRow};
use std::alloc::Allocator;
use virtual_tree::Store;

fn login_row<A: Allocator + Clone, F: Allocator + Clone, R: Drop, K: Drop>(
    state: &mut State<A>,
    users: &Authorizer<A>,
    floors: &mut Floors<F>,
    row: LoginRow<&str>,
) -> RowResult<A, R, K>
    ensures row { IfOk result (λ actions.
        RanByFloors (login_row users.now.users state.old (login_by (λ text. text.now) row.entry))
        floors.old floors.new state.new actions.items) }
    ensures unchanged { OnErr result (state.new ≡ state.old) }
    ensures uncounted { OnErr result (floors.new ≡ floors.old) }
{
    match row {
        LoginRow::User(name) => user_row(state, name),
        LoginRow::Pass(password) => pass_row(state, users, floors, password),
        LoginRow::Quit => quit_row(state, users),
        LoginRow::Rein => rein_row(state),
    }
}

fn state_row<A: Allocator + Clone, R: Drop, K: Drop>(
    state: &mut State<A>,
    row: StateRow,
) -> RowResult<A, R, K>
    ensures row { IfOk result (λ actions.
        Then state.new actions.items ≡ state_row state.old row) }
    ensures unchanged { OnErr result (state.new ≡ state.old) }
{
    match row {
        StateRow::Note(notice) => state.reply_notice(notice),
        StateRow::Feat => feat_row(state),
        StateRow::Opts(wanted) => opts_row(state, wanted),
        StateRow::Type(wanted) => type_row(state, wanted),
        StateRow::Rest(offset) => rest_row(state, offset),
        StateRow::Port(to) => port_row(state, to),
        StateRow::Eprt(to) => eprt_row(state, to),
        StateRow::Pasv => pasv_row(state),
        StateRow::Epsv(wanted) => epsv_row(state, wanted),
        StateRow::Pwd => pwd_row(state),
        StateRow::Status => status_row(state),
        StateRow::Abor => abor_row(state),
    }
}

/// A row at its location.
fn file_row<A: Allocator + Clone, S: Store<A>>(
    state: &mut State<A>,
    users: &Authorizer<A>,
    store: &mut S,
    row: FileRow,
    location: Location<A>,
    moment: u64,
) -> RowResult<A, S::Source, S::Sink>
    ensures row { IfOk result (λ actions.
        RanByStore S.Step (file_row users.now.users state.old moment row location)
        store.old store.new state.new actions.items) }
    ensures unchanged { OnErr result (state.new ≡ state.old) }
    ensures stops { OnErr result (
        Stops {A = A} {R = S.Source} {K = S.Sink} S.Step
        (file_row users.now.users state.old moment row location)
        store.old store.new) }
{
    match row {
        FileRow::Cwd => cwd_row(state, store, location),
        FileRow::Mkd => mkd_row(state, store, &location),
        FileRow::Rmd => rmd_row(state, store, &location),
        FileRow::Dele => dele_row(state, store, &location),
        FileRow::Rnfr => rnfr_row(state, store, location),
        FileRow::Rnto => rnto_row(state, store, &location),
        FileRow::Size => size_row(state, store, &location),
        FileRow::Mdtm => mdtm_row(state, store, &location),
        FileRow::Stat => stat_row(state, users, store, &location),
        FileRow::Mlst => mlst_row(state, users, store, &location),
        FileRow::List(style) => list_row(state, users, store, &location, style),
        FileRow::Mlsd => mlsd_row(state, users, store, &location),
        FileRow::Retr => retr_row(state, store, location),
        FileRow::Stor => stor_row(state, store, location, moment),
        FileRow::Appe => appe_row(state, store, location, moment),
    }
}

/// A row at the location of its text, or the first refusal there.
fn row_at<A: Allocator + Clone, S: Store<A>>(
    state: &mut State<A>,
    users: &Authorizer<A>,
    store: &mut S,
    conditions: Conditions,
    place: LocatedRow<&str>,
    moment: u64,
) -> RowResult<A, S::Source, S::Sink>
    ensures row { IfOk result (λ actions.
        RanByStore S.Step
        (at_found state.old (file_row users.now.users state.old moment place.entry.row)
        (judged_at users.now.users state.old conditions place.entry.letter
        (located users.now.users state.old place.entry.text.now)))
        store.old store.new state.new actions.items) }
    ensures unchanged { OnErr result (state.new ≡ state.old) }
    ensures stops { OnErr result (
        Stops {A = A} {R = S.Source} {K = S.Sink} S.Step
        (at_found state.old (file_row users.now.users state.old moment place.entry.row)
        (judged_at users.now.users state.old conditions place.entry.letter
        (located users.now.users state.old place.entry.text.now)))
        store.old store.new) }
{
    match judge(state, users, conditions, place.letter, place.text)? {
        Err(refusal) => state.refuse(refusal),
        Ok(location) => file_row(state, users, store, place.row, location, moment),
    }
}

/// The row of a rule.
pub(crate) fn carry_out<A: Allocator + Clone, F: Allocator + Clone, S: Store<A>>(
    state: &mut State<A>,
    users: &Authorizer<A>,
    floors: &mut Floors<F>,
    store: &mut S,
    rule: Rule<&str>,
    moment: u64,
) -> RowResult<A, S::Source, S::Sink>
    ensures row { IfOk result (λ actions.
        Ran S.Step
        (row_plan users.now.users state.old moment rule.entry.conditions
        (row_by (λ text. text.now) rule.entry.row))
        store.old store.new floors.old floors.new state.new actions.items) }
    ensures unchanged { OnErr result (state.new ≡ state.old) }
    ensures stops { OnErr result (
        Stops {A = A} {R = S.Source} {K = S.Sink} S.Step
        (row_plan users.now.users state.old moment rule.entry.conditions
        (row_by (λ text. text.now) rule.entry.row))
        store.old store.new) }
    ensures uncounted { OnErr result (floors.new ≡ floors.old) }
{
    match rule.row {
        NamedRow::Login(row) => login_row(state, users, floors, row),
        NamedRow::State(row) => state_row(state, row),
        NamedRow::At(place) => row_at(state, users, store, rule.conditions, place, moment),
    }
}
