//! QUIT.

ghost use Rattle.std.specs.Prelude.{◌≡◌, ◌+◌, IfOk, OnErr};
ghost use Rattle.session_table.specs.Plans.Plan.{Then};
ghost use Rattle.session_table.specs.StateRows.{quit_row};

use authorizer::Authorizer;
use session_state::{GoodbyeReply, RowResult, State, push_goodbye_reply, room_for};
use std::alloc::Allocator;

/// QUIT (RFC 959, section 4.1.1).
pub fn quit_row<A: Allocator + Clone, R: Drop, K: Drop>(
    state: &mut State<A>,
    users: &Authorizer<A>,
) -> RowResult<A, R, K>
    ensures row { IfOk result (λ actions.
        Then state.new actions.items ≡ quit_row users.now.users state.old) }
    ensures unchanged { OnErr result (state.new ≡ state.old) }
{
    let mut actions = room_for(state, 4)?;
    let goodbye_reply = GoodbyeReply::new(state, users)?;
    push_goodbye_reply(state, goodbye_reply, &mut actions);
    Ok(actions)
}
