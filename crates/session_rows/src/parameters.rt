//! Parameters and reports: TYPE, REST, PWD, STAT without an argument.

ghost use Rattle.std.specs.Prelude.{◌≡◌, ◌++◌, IfOk, OnErr, codes};
ghost use Rattle.std.specs.Fmt.{decimal};
ghost use Rattle.ftp_reply.specs.Replies.{OneLine};
ghost use Rattle.session_table.specs.Plans.Plan.{Then};
ghost use Rattle.session_table.specs.StateRows.{needs_image, pwd_row, rest_row, status_row, type_row};
ghost use Rattle.session_table.specs.declared.answers.Answer.TheVariants.{Made};

use ftp_terms::{DataType, LineText};
use session_state::{RowResult, State, made, path_answer};
use session_table::{Answer, Notice, Refusal};
use std::alloc::{AllocError, Allocator};

/// TYPE (RFC 959, section 4.1.2).
pub fn type_row<A: Allocator + Clone, R: Drop, K: Drop>(
    state: &mut State<A>,
    data_type: DataType,
) -> RowResult<A, R, K>
    ensures row { IfOk result (λ actions.
        Then state.new actions.items ≡ type_row state.old data_type) }
    ensures unchanged { OnErr result (state.new ≡ state.old) }
{
    let actions = state.reply_notice(Notice::TypeIs(data_type))?;
    state.set_data_type(data_type);
    Ok(actions)
}

/// The reply to REST.
fn restart_answer<A: Allocator>(alloc: A, offset: u64) -> Result<Answer<A>, AllocError>
    ensures reply { IfOk result (λ reply.
        reply ≡ Made (OneLine 350 (codes "Restart at " ++ decimal offset))) }
{
    let text = LineText::with_number(alloc, "Restart at ", offset, "")?;
    Ok(made(350, text))
}

fn needs_image<A: Allocator + Clone>(state: &State<A>, offset: u64) -> bool
    ensures image { result ≡ needs_image state.now offset }
{
    offset > 0 && state.data_type() == DataType::Ascii
}

/// REST (RFC 3659, section 5).
pub fn rest_row<A: Allocator + Clone, R: Drop, K: Drop>(
    state: &mut State<A>,
    offset: u64,
) -> RowResult<A, R, K>
    ensures row { IfOk result (λ actions.
        Then state.new actions.items ≡ rest_row state.old offset) }
    ensures unchanged { OnErr result (state.new ≡ state.old) }
{
    if needs_image(state, offset) {
        return state.refuse(Refusal::OffsetNeedsImage);
    }
    let answer = restart_answer(state.alloc()?, offset)?;
    let actions = state.reply(answer)?;
    state.set_offset(offset);
    Ok(actions)
}

/// PWD (RFC 959, section 4.1.3 and appendix II).
pub fn pwd_row<A: Allocator + Clone, R: Drop, K: Drop>(state: &State<A>) -> RowResult<A, R, K>
    ensures row { IfOk result (λ actions. Then state.now actions.items ≡ pwd_row state.now) }
{
    let answer = path_answer(state.alloc()?, state.cwd().text())?;
    state.reply(answer)
}

/// STAT without an argument (RFC 959, section 4.1.3).
pub fn status_row<A: Allocator + Clone, R: Drop, K: Drop>(state: &State<A>) -> RowResult<A, R, K>
    ensures row { IfOk result (λ actions. Then state.now actions.items ≡ status_row state.now) }
{
    if state.has_transfer() {
        return state.reply_notice(Notice::TransferInProgress);
    }
    state.reply_notice(Notice::NoTransfer)
}
