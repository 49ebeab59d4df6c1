//! Sessions with refused memory: each growth of each step of the machine, and of each line of whole control sessions, in
//! turn.

mod expect;
mod host;
mod reader;
mod reported;
mod room;
mod rows;
mod server;
mod shortages;
mod steps;
mod talks;
