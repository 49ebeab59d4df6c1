//! The lanes of a server, and the rounds that they hold for each other.
//!
//! A lane takes transfers from the board and runs each to its end ([`work_lane`]). If its ask is not answered yet, it
//! tries the lock of the [`Engine`]'s rounds and holds a round itself, for all lanes that have asked and whose transfers'
//! rows are open; nobody waits for that lock. If another thread has the lock, that thread looks at the `waker` after it
//! has released the lock, and the lane looks again a tick later, so no ask is missed.
//! A session may run a short download itself, at the seat of a lane that runs none ([`run_here`]).
//! An upload asks for the octets that have come, and waits for some. A round waits a little for a transfer with a guarantee
//! that has not asked again.
//! [`keep_rounds`] is the fallback: it holds a round when no lane does. The pace says when a round may be held and what
//! it may grant. The moments of rounds are read from a `RoundClock`. The rounds tally what they grant to each transfer,
//! and what holds it back in them, for a [`look`].
#![tactic(auto)]

mod asking;
mod awaiting;
mod ends;
mod engine;
mod gate;
mod keeper;
mod lane;
mod looking;
mod own_run;
mod rounds;

pub use engine::Engine;
pub use keeper::keep_rounds;
pub use lane::work_lane;
pub use looking::look;
pub use own_run::run_here;
