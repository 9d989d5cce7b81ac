//! Tests of plans that are put in order, and of reads by them that are written as they are read. What is
//! wanted is this project's own.
#![tactic(auto)]

#[cfg(test)]
mod orders;
#[cfg(test)]
mod plans;
#[cfg(test)]
mod records;
#[cfg(test)]
mod shown;
