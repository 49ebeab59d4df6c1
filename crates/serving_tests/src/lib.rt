//! Tests of the parts of the server that need no desk and no session: counts that threads wait on, tickets, the mender
//! of control text, the pace of rounds and their cadence, limits of time, doors, ports that rest, the queue of lines, the
//! line of a transfer log, and the sessions of users; and of the callbacks of a handler. They call only public functions.
#![tactic(auto)]

#[cfg(test)]
mod cadences;
#[cfg(test)]
mod counts;
#[cfg(test)]
mod doors;
#[cfg(test)]
mod expect;
#[cfg(test)]
mod handlers;
#[cfg(test)]
mod lines;
#[cfg(test)]
mod paces;
#[cfg(test)]
mod ports;
#[cfg(test)]
mod sessions;
#[cfg(test)]
mod sockets;
#[cfg(test)]
mod texts;
#[cfg(test)]
mod tickets;
#[cfg(test)]
mod waits;
