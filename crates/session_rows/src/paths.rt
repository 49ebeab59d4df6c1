//! The current directory: CWD and CDUP (RFC 959, section 4.1.1).

ghost use Rattle.std.specs.Prelude.{◌≡◌, IfOk, OnErr};
ghost use Rattle.session_table.specs.FileRows.{by_kind, cwd_row, unless_fault};
ghost use Rattle.session_table.specs.Plans.{RanByStore, Stops};
ghost use Rattle.session_table.specs.Plans.Plan.{Then};
ghost use Rattle.session_table.specs.StateRows.{notes, refuses};
ghost use Rattle.session_table.specs.declared.notices.Notice.TheVariants.{DirectoryChanged};

use ftp_terms::{EntryKind, Meta};
use session_state::{Location, RowResult, State};
use session_table::{Notice, Refusal};
use std::alloc::Allocator;
use virtual_path::VPath;
use virtual_tree::{Store, StoreFault};

/// Goes to a directory.
fn go_to<A: Allocator + Clone, R: Drop, K: Drop>(
    state: &mut State<A>,
    path: VPath<A>,
    looked: Result<Meta, StoreFault>,
) -> RowResult<A, R, K>
    ensures row { IfOk result (λ actions.
        Then state.new actions.items ≡ unless_fault state.old (λ meta. by_kind
        (notes (record state.old { cwd = path }) DirectoryChanged)
        (refuses state.old (Refusal.Store StoreFault.NotDir)) meta.kind) looked) }
    ensures unchanged { OnErr result (state.new ≡ state.old) }
{
    match looked {
        Err(fault) => state.refuse(Refusal::Store(fault)),
        Ok(meta) => match meta.kind {
            EntryKind::File => state.refuse(Refusal::Store(StoreFault::NotDir)),
            EntryKind::Directory => {
                let actions = state.reply_notice(Notice::DirectoryChanged)?;
                state.change_directory(path);
                Ok(actions)
            }
        },
    }
}

/// CWD, and CDUP as CWD of the directory above.
pub fn cwd_row<A: Allocator + Clone, S: Store<A>>(
    state: &mut State<A>,
    store: &mut S,
    location: Location<A>,
) -> RowResult<A, S::Source, S::Sink>
    ensures row { IfOk result (λ actions.
        RanByStore S.Step (cwd_row state.old location)
        store.old store.new state.new actions.items) }
    ensures unchanged { OnErr result (state.new ≡ state.old) }
    ensures stops { OnErr result (
        Stops {A = A} {R = S.Source} {K = S.Sink} S.Step
        (cwd_row state.old location) store.old store.new) }
{
    let looked = store.stat(location.stored());
    go_to(state, location.into_path(), looked)
}
