//! The turns of a control session.

ghost use Rattle.std.specs.Prelude.{◌≡◌, ◌≤◌, ◌<◌, ◌⊎◌, ◌++◌, ◌||◌, [], ◌∷◌, Bool, IfErr, List, MatchOption, None, OnOk, Option, Some, false, length, true};
ghost use Rattle.std.specs.Vec.Iter.{into_iter_items};
ghost use Rattle.control_session.specs.Rows.{IsRow};
ghost use Rattle.control_session.specs.Standing.{AllTaken, IsLost, stand};
ghost use Rattle.control_session.specs.Turns.{Heard, HoldsFewer, Next, Went, WhileOpen, asked_as, at, behind, due};
ghost use Rattle.control_session.specs.Unmade.{LeftBy};
ghost use Rattle.control_session.specs.Sides.{SideEvent, came_of, given_of};
ghost use Rattle.ftp_wire.specs.Items.{Item};
ghost use Rattle.ftp_wire.specs.Reading.{item_of, items_of};
ghost use Rattle.control_session.specs.Sides.Given.{Closed};
ghost use Rattle.std.specs.Prelude.{◌≢◌};

use crate::actions::{closes, only_event};
use crate::carrying::carry_out;
use crate::host::Host;
use crate::no_step::NoStep;
use crate::talk::Talk;
use crate::turn_fault::TurnFault;
use ftp_wire::LineItem;
use session_table::Input;
use std::alloc::Allocator;
use std::vec::IntoIter;

fn either(first: bool, second: bool) -> bool
    ensures { result ≡ (first || second) }
{
    first || second
}

/// The result of a turn, by the fault of its replies.
fn ended(lost: Option<TurnFault>) -> Result<(), TurnFault>
    ensures whole { OnOk result (lost ≡ None) }
    ensures lost { IfErr result (λ fault. lost ≡ Some fault) }
{
    match lost {
        None => Ok(()),
        Some(fault) => Err(fault),
    }
}

/// Takes over what a step leaves that was not made.
fn unmade<A: Allocator, K: Drop>(talk: &mut Talk<A, K>, why: NoStep<A, K>) -> Result<(), TurnFault>
    ensures session { talk.new.session ≡ talk.old.session }
    ensures left { LeftBy why talk.old.came talk.old.closed talk.old.lost
        talk.new.came talk.new.closed talk.new.lost }
    ensures none { OnOk result (talk.new.came ≡ talk.old.came) }
    ensures closed { OnOk result (talk.new.closed ≡ true) }
    ensures stays { talk.old.closed ≡ true → talk.new.closed ≡ true }
    ensures whole { OnOk result (talk.new.lost ≡ None) }
    ensures lost { IfErr result (IsLost talk.new.lost) }
{
    match why {
        NoStep::NoMemory(back) => {
            talk.came = back;
            talk.lost = Some(TurnFault::Memory);
        }
        NoStep::Over => talk.closed = true,
    }
    ended(talk.lost)
}

/// Returns whether a held line is to be taken next.
fn takes_held<A: Allocator + Clone, K>(talk: &Talk<A, K>) -> bool
    ensures open { result ≡ true → talk.now.closed ≡ false }
    ensures due { result ≡ true → due talk.now.session ≡ true }
    ensures none { result ≡ false → (talk.now.closed ≡ true) ⊎ (due talk.now.session ≡ false) }
{
    !talk.closed && talk.session.held_due()
}

/// One turn: passes an input to the session and carries out its actions. If memory runs out for the step, nothing is
/// done, and an event of the data side stays. If the host ends the session instead, it is to be closed.
pub(crate) fn turn<A: Allocator + Clone, H: Host<A>>(
    alloc: &A,
    host: &mut H,
    talk: &mut Talk<A, H::Sink>,
    input: Input<A, H::Sink>,
) -> Result<(), TurnFault>
    requires live { given_of input ≢ Closed }
    ensures went { (came : Option (SideEvent H.Sink)) (taken : List Item) (heard : Heard)
        (taken' : List Item)
        → Next (at talk.old.session came taken heard [] talk.old.closed talk.old.lost)
        (given_of input) (came_of talk.old.came) taken'
        → (last : List Item) × (heard' : Heard)
        × Went (WhileOpen (IsRow {A = A} {R = H.Source} H.Step)) H.Does
        host.old (at talk.old.session came taken heard [] talk.old.closed talk.old.lost)
        host.new (stand talk.new last heard')
        × ((last ≡ taken) ⊎ (last ≡ taken'))
        × OnOk result ((talk.new.closed ≡ true) ⊎ (last ≡ taken'))
        × ((heard' ≡ heard) ⊎ (heard' ≡ behind (given_of input) heard)) }
    ensures none { OnOk result (talk.new.came ≡ talk.old.came) }
    ensures whole { OnOk result (talk.new.lost ≡ None) }
    ensures stays { talk.old.closed ≡ true → talk.new.closed ≡ true }
    ensures held { OnOk result ((talk.new.closed ≡ true)
        ⊎ HoldsFewer (given_of input) talk.old.session talk.new.session) }
    ensures lost { IfErr result (IsLost talk.new.lost) }
{
    let actions = match host.step(&mut talk.session, &mut Some(input)) {
        Ok(actions) => actions,
        Err(why) => return unmade(talk, why),
    };
    talk.closed = either(talk.closed, closes(&actions));
    talk.lost = carry_out(alloc, host, talk.lost, actions);
    ended(talk.lost)
}

/// Takes the next event of the data side, if any. It does not wait. Nothing is asked of the data side once the control
/// connection is to be closed.
pub(crate) fn look<A: Allocator + Clone, H: Host<A>>(
    alloc: &A,
    host: &mut H,
    talk: &mut Talk<A, H::Sink>,
) -> Result<(), TurnFault>
    requires none { talk.old.came ≡ None }
    requires whole { talk.old.lost ≡ None }
    requires live { talk.old.closed ≡ false }
    ensures went { (taken : List Item) (heard : Heard)
        → Went (WhileOpen (IsRow {A = A} {R = H.Source} H.Step)) H.Does
        host.old (stand talk.old taken heard)
        host.new (stand talk.new taken (asked_as true heard)) }
    ensures none { OnOk result (talk.new.came ≡ None) }
    ensures whole { OnOk result (talk.new.lost ≡ None) }
    ensures stays { talk.old.closed ≡ true → talk.new.closed ≡ true }
    ensures held { OnOk result ((talk.new.closed ≡ true)
        ⊎ (length talk.new.session.held ≤ length talk.old.session.held)) }
    ensures lost { IfErr result (IsLost talk.new.lost) }
{
    match only_event(host.look()) {
        None => Ok(()),
        Some(event) => turn(alloc, host, talk, event),
    }
}

/// Takes a held line that is due, and the next event of the data side after it, unless the control connection is to be
/// closed.
fn take_held<A: Allocator + Clone, H: Host<A>>(
    alloc: &A,
    host: &mut H,
    talk: &mut Talk<A, H::Sink>,
) -> Result<(), TurnFault>
    requires none { talk.old.came ≡ None }
    requires whole { talk.old.lost ≡ None }
    requires live { talk.old.closed ≡ false }
    requires due { due talk.old.session ≡ true }
    ensures went { (taken : List Item) (heard : Heard) → heard.asked ≡ true
        → (asked : Bool) × Went (WhileOpen (IsRow {A = A} {R = H.Source} H.Step)) H.Does
        host.old (stand talk.old taken heard) host.new (stand talk.new taken (asked_as asked heard))
        × OnOk result ((talk.new.closed ≡ true) ⊎ (asked ≡ true)) }
    ensures none { OnOk result (talk.new.came ≡ None) }
    ensures whole { OnOk result (talk.new.lost ≡ None) }
    ensures held { OnOk result ((talk.new.closed ≡ true)
        ⊎ (length talk.new.session.held < length talk.old.session.held)) }
    ensures lost { IfErr result (IsLost talk.new.lost) }
{
    turn(alloc, host, talk, Input::Held)?;
    if talk.closed {
        return Ok(());
    }
    look(alloc, host, talk)
}

/// Takes the next event of the data side and each held line that is due, with the events after it. Nothing is asked of
/// the data side once the control connection is to be closed.
pub(crate) fn catch_up<A: Allocator + Clone, H: Host<A>>(
    alloc: &A,
    host: &mut H,
    talk: &mut Talk<A, H::Sink>,
) -> Result<(), TurnFault>
    requires none { talk.old.came ≡ None }
    requires whole { talk.old.lost ≡ None }
    requires live { talk.old.closed ≡ false }
    ensures went { (taken : List Item) (heard : Heard)
        → (asked : Bool) × Went (WhileOpen (IsRow {A = A} {R = H.Source} H.Step)) H.Does
        host.old (stand talk.old taken heard) host.new (stand talk.new taken (asked_as asked heard))
        × OnOk result ((talk.new.closed ≡ true) ⊎ (asked ≡ true)) }
    ensures none { OnOk result (talk.new.came ≡ None) }
    ensures whole { OnOk result (talk.new.lost ≡ None) }
    ensures due { OnOk result ((talk.new.closed ≡ true) ⊎ (due talk.new.session ≡ false)) }
    ensures lost { IfErr result (IsLost talk.new.lost) }
{
    look(alloc, host, talk)?;
    while takes_held(talk) {
        take_held(alloc, host, talk)?;
    }
    Ok(())
}

/// Takes a line, with the events and the held lines after it, unless the control connection is to be closed.
fn take_line<A: Allocator + Clone, H: Host<A>>(
    alloc: &A,
    host: &mut H,
    talk: &mut Talk<A, H::Sink>,
    item: LineItem<A>,
) -> Result<(), TurnFault>
    requires none { talk.old.came ≡ None }
    requires whole { talk.old.lost ≡ None }
    requires live { talk.old.closed ≡ false }
    requires due { due talk.old.session ≡ false }
    ensures went { (taken rest : List Item) (heard : Heard)
        → heard.items ≡ taken ++ item_of item ∷ rest → heard.asked ≡ true
        → (last : List Item) × (asked : Bool)
        × Went (WhileOpen (IsRow {A = A} {R = H.Source} H.Step)) H.Does
        host.old (stand talk.old taken heard) host.new (stand talk.new last (asked_as asked heard))
        × OnOk result ((talk.new.closed ≡ true)
        ⊎ ((last ≡ taken ++ item_of item ∷ []) × (asked ≡ true))) }
    ensures none { OnOk result (talk.new.came ≡ None) }
    ensures whole { OnOk result (talk.new.lost ≡ None) }
    ensures due { OnOk result ((talk.new.closed ≡ true) ⊎ (due talk.new.session ≡ false)) }
    ensures lost { IfErr result (IsLost talk.new.lost) }
{
    turn(alloc, host, talk, Input::Line(item))?;
    if talk.closed {
        return Ok(());
    }
    catch_up(alloc, host, talk)
}

fn next_of<T, A: Allocator>(left: &mut IntoIter<T, A>) -> Option<T>
    ensures first { MatchOption result (into_iter_items left.old ≡ [])
        (λ first. into_iter_items left.old ≡ first ∷ into_iter_items left.new) }
{
    left.next()
}

/// Takes events and held lines, and then lines, each with the events and the held lines after it, up to one that closes
/// the control connection.
pub(crate) fn take_lines<A: Allocator + Clone, H: Host<A>>(
    alloc: &A,
    host: &mut H,
    talk: &mut Talk<A, H::Sink>,
    items: Vec<LineItem<A>, A>,
) -> Result<(), TurnFault>
    requires none { talk.old.came ≡ None }
    requires whole { talk.old.lost ≡ None }
    requires live { talk.old.closed ≡ false }
    ensures went { (taken : List Item) (heard : Heard) → heard.items ≡ taken ++ items_of items.items
        → (last : List Item) × (asked : Bool)
        × Went (WhileOpen (IsRow {A = A} {R = H.Source} H.Step)) H.Does
        host.old (stand talk.old taken heard) host.new (stand talk.new last (asked_as asked heard))
        × OnOk result ((talk.new.closed ≡ true) ⊎ (AllTaken last heard × (asked ≡ true))) }
    ensures none { OnOk result (talk.new.came ≡ None) }
    ensures whole { OnOk result (talk.new.lost ≡ None) }
    ensures due { OnOk result ((talk.new.closed ≡ true) ⊎ (due talk.new.session ≡ false)) }
    ensures lost { IfErr result (IsLost talk.new.lost) }
{
    catch_up(alloc, host, talk)?;
    if talk.closed {
        return Ok(());
    }
    let mut left = items.into_iter();
    while let Some(item) = next_of(&mut left) {
        take_line(alloc, host, talk, item)?;
        if talk.closed {
            return Ok(());
        }
    }
    Ok(())
}
