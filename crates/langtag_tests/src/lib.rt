//! Tests of the code that Rattle's compilers build, for properties that no contract states. They show that a call
//! succeeds if no allocation fails, and how values are displayed. `rust/tests` tests everything else, on the Rust crate.
//!
//! `checks/refused` runs the tests and refuses each of their allocations in turn. A call whose allocation fails is made
//! again.
#![tactic(auto)]

#[cfg(test)]
mod edits;
#[cfg(test)]
mod examples;
#[cfg(test)]
mod forms;
#[cfg(test)]
mod keywords;
#[cfg(test)]
mod resolved;
#[cfg(test)]
mod scan;
#[cfg(test)]
mod support;
#[cfg(test)]
mod types;
