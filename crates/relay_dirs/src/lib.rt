//! The rules on the directives after Relay and on aliases, checked. These directives and rules are this
//! project's own; what they are modelled on is told at each.
#![tactic(auto)]

mod check;
mod fragment_uses;
mod fragments;
mod located_locals;
mod rules;
mod spread_arguments;
mod spread_uses;
mod values;

pub use check::{check_relay, check_relay_of};
