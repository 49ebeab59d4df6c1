//! The session table: the reply to each line of a control connection, the calls of the store, and the actions; and the
//! laws of every step.
//!
//! The table itself is in `specs/`: `Rules` has the rule of each command, which is its conditions and the name of its
//! row, and the row of each name; `Judged` has the refusals of a line, in their order; `StateRows`, `FileRows` and
//! `TransferRows` have the rows as plans, each of which asks the store or the guaranteed rates, or ends with the state
//! of the session and the actions; `Table` has each input in each stage. `Laws` has the laws of every step, whatever a
//! client sends and a store answers: each function of `laws.rt` has one of them as its contract. The rest of the code
//! is the types of the table.
//!
//! ```text
//! let answer: Answer = Answer::Refusal(Refusal::LogInFirst);
//! says(rt, answer.into_reply(), b"530 Log in first\r\n");
//! ```
#![tactic(auto)]

mod actions;
mod answers;
mod inputs;
mod laws;
mod notices;
mod refusals;
mod rules;
mod settings;
mod stages;
mod text;

pub use actions::{Action, HookCall, Job};
pub use answers::Answer;
pub use inputs::{End, Input};
pub use laws::{
    admissions_are_rightful, calls_are_rightful, few_lines_are_held, floors_are_released_once,
    no_calls_outside, no_transfer_unprepared, one_thing_is_asked, others_ask_no_floors,
    sources_are_named,
};
pub use notices::Notice;
pub use refusals::Refusal;
pub use rules::{
    Conditions, FileRow, LocatedRow, LoginRow, Meanwhile, NamedRow, Rule, StateRow, Style,
};
pub use settings::Settings;
pub use stages::{Control, Passive, Stage, TransferContent, Work};
pub use text::{Octets, Text};
