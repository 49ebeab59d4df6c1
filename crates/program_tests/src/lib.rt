//! Tests of the programs and of their commands by public calls, for what no run of a program shows: results of calls,
//! ends that fail midway, and refused memory; and of a server of one's own: its settings before it begins, and each number
//! out of its range by its name. The runs are in `runs/`.
#![tactic(auto)]

#[cfg(test)]
mod begun;
#[cfg(test)]
mod by_users;
#[cfg(test)]
mod calls;
#[cfg(test)]
mod ends;
#[cfg(test)]
mod examples;
#[cfg(test)]
mod expect;
#[cfg(test)]
mod ranges;
#[cfg(test)]
mod ready;
#[cfg(test)]
mod runs;
#[cfg(test)]
mod screens;
#[cfg(test)]
mod servers;
#[cfg(test)]
mod settings;
#[cfg(test)]
mod shortages;
#[cfg(test)]
mod stated_paths;
#[cfg(test)]
mod texts;
#[cfg(test)]
mod whole;
#[cfg(test)]
mod words;
