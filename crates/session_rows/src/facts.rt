//! Facts of a file: SIZE and MDTM (RFC 3659, sections 3 and 4).

ghost use Rattle.std.specs.Prelude.{◌≡◌, IfOk, OnErr};
ghost use Rattle.std.specs.Fmt.{decimal};
ghost use Rattle.ftp_reply.specs.Replies.{OneLine};
ghost use Rattle.session_table.specs.FileRows.{mdtm_row, size_row};
ghost use Rattle.session_table.specs.Plans.{RanByStore, Stops};
ghost use Rattle.session_table.specs.StateRows.{is_ascii};
ghost use Rattle.session_table.specs.declared.answers.Answer.TheVariants.{Made};

use ftp_reply::mdtm_line;
use ftp_terms::{DataType, EntryKind, LineText};
use session_state::{Location, RowResult, State, made};
use session_table::{Answer, Refusal};
use std::alloc::{AllocError, Allocator};
use virtual_tree::{Store, StoreFault};

fn size_answer<A: Allocator>(alloc: A, size: u64) -> Result<Answer<A>, AllocError>
    ensures reply { IfOk result (λ reply. reply ≡ Made (OneLine 213 (decimal size))) }
{
    let text = LineText::with_number(alloc, "", size, "")?;
    Ok(made(213, text))
}

fn is_ascii(data_type: DataType) -> bool
    ensures ascii { result ≡ is_ascii data_type }
{
    data_type == DataType::Ascii
}

/// SIZE: the octets of a file, as TYPE I moves them.
pub fn size_row<A: Allocator + Clone, S: Store<A>>(
    state: &mut State<A>,
    store: &mut S,
    location: &Location<A>,
) -> RowResult<A, S::Source, S::Sink>
    ensures row { IfOk result (λ actions.
        RanByStore S.Step (size_row state.old location.now)
        store.old store.new state.new actions.items) }
    ensures unchanged { OnErr result (state.new ≡ state.old) }
    ensures stops { OnErr result (
        Stops {A = A} {R = S.Source} {K = S.Sink} S.Step
        (size_row state.old location.now) store.old store.new) }
{
    if is_ascii(state.data_type()) {
        return state.refuse(Refusal::SizeNeedsImage);
    }
    match store.stat(location.stored()) {
        Err(fault) => state.refuse(Refusal::Store(fault)),
        Ok(meta) => match meta.kind {
            EntryKind::Directory => state.refuse(Refusal::Store(StoreFault::IsDir)),
            EntryKind::File => {
                let answer = size_answer(state.alloc()?, meta.size)?;
                state.reply(answer)
            }
        },
    }
}

/// MDTM: the time of the last change of a file.
pub fn mdtm_row<A: Allocator + Clone, S: Store<A>>(
    state: &mut State<A>,
    store: &mut S,
    location: &Location<A>,
) -> RowResult<A, S::Source, S::Sink>
    ensures row { IfOk result (λ actions.
        RanByStore S.Step (mdtm_row state.old location.now)
        store.old store.new state.new actions.items) }
    ensures unchanged { OnErr result (state.new ≡ state.old) }
    ensures stops { OnErr result (
        Stops {A = A} {R = S.Source} {K = S.Sink} S.Step
        (mdtm_row state.old location.now) store.old store.new) }
{
    match store.stat(location.stored()) {
        Err(fault) => state.refuse(Refusal::Store(fault)),
        Ok(meta) => match meta.kind {
            EntryKind::Directory => state.refuse(Refusal::Store(StoreFault::IsDir)),
            EntryKind::File => {
                let text = mdtm_line(state.alloc()?, meta.modified)?;
                state.reply(made(213, text))
            }
        },
    }
}
