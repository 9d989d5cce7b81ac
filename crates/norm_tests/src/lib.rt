//! Tests of what responses say to plans: facts, pages and faults; and of the printed lines. What is
//! wanted is this project's own.
#![tactic(auto)]

#[cfg(test)]
mod facts;
#[cfg(test)]
mod faults;
#[cfg(test)]
mod lines;
#[cfg(test)]
mod plans;
#[cfg(test)]
mod printing;
#[cfg(test)]
mod rows;
