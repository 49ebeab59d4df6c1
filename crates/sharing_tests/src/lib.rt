//! Tests of limit trees, of the allocator, of certificates and their seal, of trees of the largest size, of rates, of
//! the trees of ticks and of guaranteed rates, by public calls alone.
#![tactic(auto)]

#[cfg(test)]
mod allotting;
#[cfg(test)]
mod bounds;
#[cfg(test)]
mod checking;
#[cfg(test)]
mod depths;
#[cfg(test)]
mod examples;
#[cfg(test)]
mod expect;
#[cfg(test)]
mod fair;
#[cfg(test)]
mod floors;
#[cfg(test)]
mod limits;
#[cfg(test)]
mod plans;
#[cfg(test)]
mod random_trees;
#[cfg(test)]
mod rates;
#[cfg(test)]
mod shortages;
#[cfg(test)]
mod small_trees;
#[cfg(test)]
mod ticks;
#[cfg(test)]
mod trees;
#[cfg(test)]
mod users;
