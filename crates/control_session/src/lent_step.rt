//! The step of a session over a lent store and lent floors.

ghost use Rattle.std.specs.Prelude.{◌≡◌, ℕ, IfErr, IfOk, IfSome, None, OnErr, Some, [], true};
ghost use Rattle.control_session.specs.Rows.{IsMade, IsStopped};
ghost use Rattle.control_session.specs.Sides.{back_in, given_of};
ghost use Rattle.control_session.specs.Sides.Given.{Came, Closed};
ghost use Rattle.control_session.specs.Sides.SideEvent.{Ended, Ready};
ghost use Rattle.control_session.specs.declared.no_step.NoStep.TheVariants.{NoMemory};
ghost use Rattle.rate_floors.specs.Promises.{Promises};
ghost use Rattle.session_core.specs.Events.{is_event};
ghost use Rattle.session_events.specs.Leaving.{leaving_by};
ghost use Rattle.session_table.specs.Views.{is_closed};
ghost use Rattle.session_table.specs.declared.inputs.Input.TheVariants.{DataReady, TransferEnded};

use crate::no_step::NoStep;
use authorizer::Authorizer;
use rate_floors::Floors;
use session_core::{Leaving, Session};
use session_table::{Action, End, Input, Text};
use std::alloc::{AllocError, Allocator};
use virtual_tree::Store;

// Takes a line, a held line, or the end of the control connection.
fn step_line<A: Allocator + Clone, F: Allocator + Clone, S: Store<A>>(
    session: &mut Session<A>,
    users: &Authorizer<A>,
    floors: &mut Floors<F>,
    store: &mut S,
    input: Input<A, S::Sink>,
    moment: u64,
) -> Result<Vec<Action<A, S::Source, S::Sink>, A>, NoStep<A, S::Sink>>
    ensures row { IfOk result (λ actions. IsMade S.Step users.now.users session.old
        (given_of input) moment store.old store.new floors.old floors.new session.new
        actions.items) }
    ensures unchanged { OnErr result ((session.new ≡ session.old) × (floors.new ≡ floors.old)) }
    ensures stopped { OnErr result (IsStopped A S.Step users.now.users session.old
        (given_of input) moment store.old store.new) }
    ensures back { IfErr result (λ why. why ≡ NoMemory None) }
{
    match session.step(users, floors, store, input, moment) {
        Ok(actions) => Ok(actions),
        Err(AllocError) => Err(NoStep::NoMemory(None)),
    }
}

// Takes the end of a transfer.
fn step_end<A: Allocator + Clone, S: Store<A>>(
    session: &mut Session<A>,
    users: &Authorizer<A>,
    store: &mut S,
    end: End,
    sink: Option<S::Sink>,
    moment: u64,
) -> Result<Vec<Action<A, S::Source, S::Sink>, A>, NoStep<A, S::Sink>>
    ensures row { (floors : Promises) → IfOk result (λ actions. IsMade S.Step users.now.users
        session.old (Came (Ended end sink)) moment store.old store.new floors floors session.new
        actions.items) }
    ensures unchanged { OnErr result (session.new ≡ session.old) }
    ensures stopped { OnErr result (IsStopped A S.Step users.now.users session.old
        (Came (Ended end sink)) moment store.old store.new) }
    ensures back { IfErr result (λ why. why ≡ NoMemory (Some (TransferEnded end sink))) }
{
    let mut sink = sink;
    match session.take_end(users, store, end, &mut sink, moment) {
        Ok(actions) => Ok(actions),
        Err(AllocError) => Err(NoStep::NoMemory(Some(Input::TransferEnded { end, sink }))),
    }
}

// Takes a passive port, or that none was free.
fn step_ready<A: Allocator + Clone, S: Store<A>>(
    session: &mut Session<A>,
    users: &Authorizer<A>,
    port: Option<u16>,
) -> Result<Vec<Action<A, S::Source, S::Sink>, A>, NoStep<A, S::Sink>>
    ensures row { (moment : ℕ) (store : S) (floors : Promises) → IfOk result (λ actions.
        IsMade S.Step users.now.users session.old (Came (Ready port)) moment store store
        floors floors session.new actions.items) }
    ensures unchanged { OnErr result (session.new ≡ session.old) }
    ensures stopped { (moment : ℕ) (store : S) → OnErr result (
        IsStopped A {R = S.Source} S.Step users.now.users session.old (Came (Ready port)) moment
        store store) }
    ensures back { IfErr result (λ why. why ≡ NoMemory (Some (DataReady port))) }
{
    match session.take_ready::<S>(users, port) {
        Ok(actions) => Ok(actions),
        Err(AllocError) => Err(NoStep::NoMemory(Some(Input::DataReady(port)))),
    }
}

/// Makes one step of a session at a moment, in milliseconds since 1970. If memory runs out the session and the floors
/// are unchanged, the store is as its looks, if any, left it, and an event of the data side is returned.
pub fn step_by<A: Allocator + Clone, F: Allocator + Clone, S: Store<A>>(
    session: &mut Session<A>,
    users: &Authorizer<A>,
    floors: &mut Floors<F>,
    store: &mut S,
    input: &mut Option<Input<A, S::Sink>>,
    moment: u64,
) -> Result<Vec<Action<A, S::Source, S::Sink>, A>, NoStep<A, S::Sink>>
    ensures row { IfSome input.old (λ input. IfOk result (λ actions.
        IsMade S.Step users.now.users session.old (given_of input) moment store.old store.new
        floors.old floors.new session.new actions.items)) }
    ensures unchanged { OnErr result ((session.new ≡ session.old) × (floors.new ≡ floors.old)) }
    ensures stopped { IfSome input.old (λ input. OnErr result (
        IsStopped A S.Step users.now.users session.old (given_of input) moment
        store.old store.new)) }
    ensures back { IfSome input.old (λ input. IfErr result (λ why.
        why ≡ NoMemory (back_in input))) }
{
    match input.take() {
        None => Err(NoStep::NoMemory(None)),
        Some(Input::TransferEnded { end, sink }) => {
            step_end(session, users, store, end, sink, moment)
        }
        Some(Input::DataReady(port)) => step_ready::<A, S>(session, users, port),
        Some(Input::Line(item)) => {
            step_line(session, users, floors, store, Input::Line(item), moment)
        }
        Some(Input::Held) => step_line(session, users, floors, store, Input::Held, moment),
        Some(Input::Closed) => step_line(session, users, floors, store, Input::Closed, moment),
    }
}

/// Takes the end of the control connection, without memory. The text is empty.
pub fn close_by<A: Allocator + Clone, F: Allocator + Clone, S: Store<A>>(
    session: &mut Session<A>,
    users: &Authorizer<A>,
    floors: &mut Floors<F>,
    store: &mut S,
    nobody: Text<A>,
    moment: u64,
) -> Option<Leaving<A>>
    requires nobody { nobody ≡ [] }
    ensures row { IsMade {A = A} {R = S.Source} {K = S.Sink} S.Step users.now.users session.old
        Closed moment store.old store.new floors.old floors.new session.new
        (leaving_by result) }
    ensures closed { is_closed session.new.view.stage ≡ true }
{
    session.leave::<S>(nobody)
}

/// Takes an event of the data side after that, without memory.
pub fn end_by<A: Allocator + Clone, F: Allocator + Clone, S: Store<A>>(
    session: &mut Session<A>,
    users: &Authorizer<A>,
    floors: &mut Floors<F>,
    store: &mut S,
    event: Input<A, S::Sink>,
    moment: u64,
)
    requires closed { is_closed session.old.view.stage ≡ true }
    requires event { is_event event ≡ true }
    ensures row { IsMade {A = A} {R = S.Source} S.Step users.now.users session.old
        (given_of event) moment store.old store.new floors.old floors.new session.new [] }
    ensures closed { is_closed session.new.view.stage ≡ true }
{
    session.take_silently(store, event, moment);
}
