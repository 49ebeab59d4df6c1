//! Actions of one reply.

ghost use Rattle.std.specs.Prelude.{◌≡◌, [], ◌∷◌, IfOk, OnErr};

use crate::room::{RowResult, push_reserved, with_room};
use crate::state::State;
use session_table::{Action, Answer, Notice, Refusal};
use std::alloc::Allocator;

impl<A: Allocator + Clone> State<A> {
    ghost use Rattle.session_table.specs.Plans.Plan.{Then};
    ghost use Rattle.session_table.specs.StateRows.{notes, refuses};
    ghost use Rattle.session_table.specs.declared.actions.Action.TheVariants.{Say};

    /// Makes the actions of one reply.
    pub fn reply<R: Drop, K: Drop>(&self, answer: Answer<A>) -> RowResult<A, R, K>
        ensures ok { IfOk result (λ actions. actions.items ≡ Say answer ∷ []) }
    {
        let mut actions = with_room(self.alloc()?, 1)?;
        push_reserved(&mut actions, Action::Say(answer));
        Ok(actions)
    }

    /// Makes the actions of one reply with a fixed text.
    pub fn reply_notice<R: Drop, K: Drop>(&self, notice: Notice) -> RowResult<A, R, K>
        ensures ok { IfOk result (λ actions. Then self.now actions.items ≡ notes self.now notice) }
    {
        self.reply(Answer::Notice(notice))
    }

    /// Makes the actions of one refusal, and forgets the path that RNFR named.
    pub fn refuse<R: Drop, K: Drop>(&mut self, refusal: Refusal) -> RowResult<A, R, K>
        ensures ok { IfOk result (λ actions.
            Then self.new actions.items ≡ refuses self.old refusal) }
        ensures err { OnErr result (self.new ≡ self.old) }
    {
        let actions = self.reply(Answer::Refusal(refusal))?;
        self.forget_source();
        Ok(actions)
    }
}
