//! Tests of books, grants and tallies, of text on the wire, of pumps, of transfers between data connections and the
//! files of a store, of ports and registries, of the board on which transfers wait, of a worker's turns and whole jobs, and of
//! the desk with its rounds, by public calls alone.
#![tactic(auto)]

#[cfg(test)]
mod boards;
#[cfg(test)]
mod books;
#[cfg(test)]
mod counted;
#[cfg(test)]
mod desk;
#[cfg(test)]
mod downloads;
#[cfg(test)]
mod ends;
#[cfg(test)]
mod expect;
#[cfg(test)]
mod failing;
#[cfg(test)]
mod files;
#[cfg(test)]
mod grants;
#[cfg(test)]
mod house;
#[cfg(test)]
mod jobs;
#[cfg(test)]
mod parts;
#[cfg(test)]
mod ports;
#[cfg(test)]
mod registries;
#[cfg(test)]
mod rooms;
#[cfg(test)]
mod shortages;
#[cfg(test)]
mod threads;
#[cfg(test)]
mod turns;
#[cfg(test)]
mod uploads;
#[cfg(test)]
mod wires;
#[cfg(test)]
mod worker_shortages;
