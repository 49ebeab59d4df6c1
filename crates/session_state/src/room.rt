//! Lists with room that is allocated before use.

ghost use Rattle.std.specs.Prelude.{◌≡◌, ◌≤◌, ◌<◌, ◌+◌, [], ◌∷◌, ◌++◌, IfOk, vec_len, vec_capacity};

use crate::state::State;
use session_table::Action;
use std::alloc::{AllocError, Allocator};

/// The actions of a row of the session table, or lack of memory.
pub type RowResult<A, R, K> = Result<Vec<Action<A, R, K>, A>, AllocError>;

/// An empty list with room for `count` items.
pub fn with_room<T, A: Allocator>(alloc: A, count: usize) -> Result<Vec<T, A>, AllocError>
    ensures empty { IfOk result (λ items. items.items ≡ []) }
    ensures len { IfOk result (λ items. vec_len items ≡ 0) }
    ensures room { IfOk result (λ items. vec_capacity items ≡ count) }
{
    Vec::with_capacity(alloc, count)
}

/// Appends an item to a list that has room.
pub fn push_reserved<T: Drop, A: Allocator>(items: &mut Vec<T, A>, item: T)
    requires room { vec_len items.old < vec_capacity items.old }
    ensures items { items.new.items ≡ items.old.items ++ item ∷ [] }
    ensures len { vec_len items.new ≡ vec_len items.old + 1 }
    ensures kept { vec_capacity items.old ≤ vec_capacity items.new }
{
    match items.push(item) {
        Ok(()) => {}
        Err(_) => unreachable!(),
    }
}

/// An empty list with room for `count` actions.
pub fn room_for<A: Allocator + Clone, R: Drop, K: Drop>(
    state: &State<A>,
    count: usize,
) -> RowResult<A, R, K>
    ensures empty { IfOk result (λ actions. actions.items ≡ []) }
    ensures len { IfOk result (λ actions. vec_len actions ≡ 0) }
    ensures room { IfOk result (λ actions. vec_capacity actions ≡ count) }
{
    with_room(state.alloc()?, count)
}
