//! Tests of the core of sharing that no stored run shows: a whole run with its replies, rounds among users; and of the desk: its
//! rounds, at ticks of the test and under a pace, its workers in threads, its close and its settlement; and of memory that is
//! refused at each growth in turn.

mod examples;
mod expect;
mod paces;
mod refusals;
mod rounds;
mod settled;
mod shortages;
mod tallies;
mod threads;
mod world_rounds;
mod world_shortages;
mod world_users;
