//! One served line: the first refusal of its rule, or its row.

ghost use Rattle.std.specs.Prelude.{◌≡◌, IfOk, OnErr};
ghost use Rattle.ftp_wire.specs.Reading.{item_of};
ghost use Rattle.session_core.specs.Rows.{rule_by};
ghost use Rattle.session_table.specs.Plans.{Ran, Stops};
ghost use Rattle.session_table.specs.Table.{left, ruled, served};

use crate::order::refused_at_once;
use crate::rows::carry_out;
use crate::rules::rule_of;
use authorizer::Authorizer;
use ftp_wire::LineItem;
use rate_floors::Floors;
use session_state::{RowResult, State};
use session_table::{Answer, Conditions, Rule};
use std::alloc::Allocator;
use virtual_tree::Store;

/// The first refusal of a rule, or its row.
#[tactic(auto, unfolding(session_table::specs::Table::ruled))]
fn serve_rule<A: Allocator + Clone, F: Allocator + Clone, S: Store<A>>(
    state: &mut State<A>,
    users: &Authorizer<A>,
    floors: &mut Floors<F>,
    store: &mut S,
    rule: Rule<&str>,
    moment: u64,
) -> RowResult<A, S::Source, S::Sink>
    ensures row { IfOk result (λ actions.
        Ran S.Step
        (ruled users.now.users state.old moment (rule_by (λ text. text.now) rule.entry))
        store.old store.new floors.old floors.new state.new actions.items) }
    ensures unchanged { OnErr result (state.new ≡ state.old) }
    ensures stops { OnErr result (
        Stops {A = A} {R = S.Source} {K = S.Sink} S.Step
        (ruled users.now.users state.old moment (rule_by (λ text. text.now) rule.entry))
        store.old store.new) }
    ensures uncounted { OnErr result (floors.new ≡ floors.old) }
{
    if let Some(refusal) = refused_at_once(state, rule.conditions) {
        return state.refuse(refusal);
    }
    carry_out(state, users, floors, store, rule, moment)
}

/// Forgets the path that RNFR named, unless the command keeps it, and the offset after a command that moves data.
fn leave<A: Allocator + Clone>(state: &mut State<A>, conditions: Conditions)
    ensures left { state.new ≡ left conditions state.old }
{
    if !conditions.keeps_source {
        state.forget_source();
    }
    if conditions.moves_data && state.is_inside() {
        state.set_offset(0);
    }
}

/// Serves a line.
pub(crate) fn serve<A: Allocator + Clone, F: Allocator + Clone, S: Store<A>>(
    state: &mut State<A>,
    users: &Authorizer<A>,
    floors: &mut Floors<F>,
    store: &mut S,
    item: &LineItem<A>,
    moment: u64,
) -> RowResult<A, S::Source, S::Sink>
    ensures row { IfOk result (λ actions.
        Ran S.Step
        (served users.now.users state.old moment (item_of item.now))
        store.old store.new floors.old floors.new state.new actions.items) }
    ensures unchanged { OnErr result (state.new ≡ state.old) }
    ensures stops { OnErr result (
        Stops {A = A} {R = S.Source} {K = S.Sink} S.Step
        (served users.now.users state.old moment (item_of item.now))
        store.old store.new) }
    ensures uncounted { OnErr result (floors.new ≡ floors.old) }
{
    match item {
        LineItem::Fault(fault) => {
            let actions = state.reply(Answer::Fault(*fault))?;
            state.forget_source();
            Ok(actions)
        }
        LineItem::Command(command) => {
            let rule = rule_of(command);
            let actions = serve_rule(state, users, floors, store, rule, moment)?;
            leave(state, rule.conditions);
            Ok(actions)
        }
    }
}
