//! Tests of the store in memory, of a store of pages, of one that fails once, of records of calls, of stores where memory is
//! refused: each growth of each call in turn; and of stores over folders of the machine: each in a fresh folder, and on a
//! machine where another process acts between the store's calls. They call only public functions.
#![tactic(auto)]

#[cfg(test)]
mod errors;
#[cfg(test)]
mod examples;
#[cfg(test)]
mod expect;
#[cfg(test)]
mod failing;
#[cfg(test)]
mod files;
#[cfg(test)]
mod folders;
#[cfg(test)]
mod machine;
#[cfg(test)]
mod pages;
#[cfg(test)]
mod races;
#[cfg(test)]
mod racing_machine;
#[cfg(test)]
mod records;
#[cfg(test)]
mod scripts;
#[cfg(test)]
mod shortages;
#[cfg(test)]
mod sides;
#[cfg(test)]
mod uploads;
