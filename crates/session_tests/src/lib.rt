//! Tests of sessions: the examples in the head of each crate's `lib.rt`, the octets of each fixed reply, the callbacks
//! of a handler, the data side of a script, the laws of the table at a concrete type, and sessions with refused memory.
//! `tools/examples` compares the examples with those heads; whole sessions, line by line, are in `runs/`.
#![tactic(auto)]

#[cfg(test)]
mod expect;
#[cfg(test)]
mod hooks;
#[cfg(test)]
mod laws;
#[cfg(test)]
mod refused;
#[cfg(test)]
mod replies;
#[cfg(test)]
mod room;
#[cfg(test)]
mod rows;
#[cfg(test)]
mod sessions;
#[cfg(test)]
mod sides;
