//! Tests of the crates of the store, over what these offer: keys, records and their copies, facts and
//! commands and their copies, and the events that lines say. What is wanted is this project's own.
#![tactic(auto)]

#[cfg(test)]
mod events;
#[cfg(test)]
mod model;
#[cfg(test)]
mod records;
