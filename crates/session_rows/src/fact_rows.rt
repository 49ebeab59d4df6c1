//! MLST: the facts of one entry (RFC 3659, section 7).

ghost use Rattle.std.specs.Prelude.{◌≡◌, ◌++◌, ◌∷◌, [], ℕ, List, codes, IfOk, OnErr};
ghost use Rattle.ftp_reply.specs.Replies.{SeveralLines};
ghost use Rattle.ftp_terms.specs.LineText.{text_of};
ghost use Rattle.session_table.specs.Plans.{RanByStore, Stops};
ghost use Rattle.session_table.specs.Texts.{IsReported};
ghost use Rattle.session_table.specs.Texts.Reported.{FactLine};
ghost use Rattle.session_table.specs.TransferRows.{letters_held, mlst_row};
ghost use Rattle.session_table.specs.declared.answers.Answer.TheVariants.{Made};
ghost use Rattle.virtual_path.specs.Path.{path_text};

use crate::lines::letters_held;
use authorizer::Authorizer;
use ftp_reply::{Reply, ReplyCode, mlst_entry};
use ftp_terms::{LineText, Meta};
use session_state::{Location, RowResult, State, push_reserved, with_room};
use session_table::{Answer, Refusal};
use std::alloc::{AllocError, Allocator};
use virtual_path::VPath;
use virtual_tree::Store;

fn entry_text<A: Allocator + Clone>(
    state: &State<A>,
    users: &Authorizer<A>,
    path: &VPath<A>,
    meta: &Meta,
) -> Result<LineText<A>, AllocError>
    ensures reported { IfOk result (λ entry.
        IsReported (FactLine meta.now state.now.facts
        (letters_held users.now.users state.now.name path.now) (path_text path.now))
        (text_of entry)) }
{
    let letters = letters_held(state, users, path);
    mlst_entry(state.alloc()?, meta, state.facts(), letters, path.text())
}

/// The reply with the facts of an entry.
fn answer_of<A: Allocator + Clone>(
    state: &State<A>,
    entry: &LineText<A>,
) -> Result<Answer<A>, AllocError>
    ensures reply { IfOk result (λ answer. answer
        ≡ Made (SeveralLines 250 (codes "Listing")
        ((codes " " ++ text_of entry.now) ∷ []) (codes "End"))) }
{
    let mut lines = with_room(state.alloc()?, 1)?;
    let line = LineText::joined(state.alloc()?, "", " ", entry.as_str())?;
    push_reserved(&mut lines, line);
    let first = LineText::fixed("Listing");
    let last = LineText::fixed("End");
    let reply = Reply::several_lines(ReplyCode::new(250), first, lines, last);
    Ok(Answer::Made(reply))
}

fn entry_answer<A: Allocator + Clone>(
    state: &State<A>,
    users: &Authorizer<A>,
    path: &VPath<A>,
    meta: &Meta,
) -> Result<Answer<A>, AllocError>
    ensures reported { IfOk result (λ answer. (line : List ℕ)
        × IsReported (FactLine meta.now state.now.facts
        (letters_held users.now.users state.now.name path.now) (path_text path.now)) line
        × (answer
        ≡ Made (SeveralLines 250 (codes "Listing") ((codes " " ++ line) ∷ []) (codes "End")))) }
{
    let entry = entry_text(state, users, path, meta)?;
    answer_of(state, &entry)
}

/// MLST. If memory runs out the session is unchanged, and the store is as the look left it.
pub fn mlst_row<A: Allocator + Clone, S: Store<A>>(
    state: &mut State<A>,
    users: &Authorizer<A>,
    store: &mut S,
    location: &Location<A>,
) -> RowResult<A, S::Source, S::Sink>
    ensures row { IfOk result
        (λ actions. RanByStore S.Step (mlst_row users.now.users state.old location.now)
        store.old store.new state.new actions.items) }
    ensures unchanged { OnErr result (state.new ≡ state.old) }
    ensures stops { OnErr result (Stops {A = A} {R = S.Source} {K = S.Sink} S.Step
        (mlst_row users.now.users state.old location.now) store.old store.new) }
{
    match store.stat(location.stored()) {
        Err(fault) => state.refuse(Refusal::Store(fault)),
        Ok(meta) => {
            let answer = entry_answer(state, users, location.path(), &meta)?;
            state.reply(answer)
        }
    }
}
