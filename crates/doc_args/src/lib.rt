//! The rules on arguments, directives and variables of documents (GraphQL, October 2021, sections
//! 5.4, 5.6, 5.7 and 5.8).
#![tactic(auto)]

mod call;
mod calls;
mod check;
mod fragments;
mod rules;
mod uses;

pub use check::{check_args, check_args_of};
