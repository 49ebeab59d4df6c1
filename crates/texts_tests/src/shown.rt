//! Tests of what is reported: plans, lines that are divided without a server, statuses and their page, the lines of
//! transfer logs, read, and the sums over them.

mod examples;
mod expect;
mod lines;
mod logs;
mod pages;
mod reports;
mod statuses;
mod sums;
