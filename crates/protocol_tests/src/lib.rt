//! Tests of the shared words, of control text and of replies, of paths, and of users by the public calls of `authorizer`.
#![tactic(auto)]

#[cfg(test)]
mod arguments;
#[cfg(test)]
mod bounds;
#[cfg(test)]
mod codes;
#[cfg(test)]
mod examples;
#[cfg(test)]
mod expect;
#[cfg(test)]
mod numbers;
#[cfg(test)]
mod paths;
#[cfg(test)]
mod refused;
#[cfg(test)]
mod replies;
#[cfg(test)]
mod reported;
#[cfg(test)]
mod sessions;
#[cfg(test)]
mod shortages;
#[cfg(test)]
mod steps;
#[cfg(test)]
mod texts;
#[cfg(test)]
mod users;
#[cfg(test)]
mod words;
