//! Tests of texts: sheets and grants files with the commands on them, the configuration, its tables and the parts that are
//! made of them, and what is reported. The output of the programs for them is in `runs/`. They call only public functions.
#![tactic(auto)]

#[cfg(test)]
mod against;
#[cfg(test)]
mod changes;
#[cfg(test)]
mod config_examples;
#[cfg(test)]
mod configs;
#[cfg(test)]
mod documents;
#[cfg(test)]
mod expect;
#[cfg(test)]
mod grants;
#[cfg(test)]
mod lines;
#[cfg(test)]
mod nodes;
#[cfg(test)]
mod pictures;
#[cfg(test)]
mod sheet_examples;
#[cfg(test)]
mod sheet_shortages;
#[cfg(test)]
mod sheets;
#[cfg(test)]
mod shown;
#[cfg(test)]
mod tables;
