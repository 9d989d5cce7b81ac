//! Tests of the rules on merging and on values of expanded operations and fragments.
#![tactic(auto)]

#[cfg(test)]
mod merging;
#[cfg(test)]
mod trees;
#[cfg(test)]
mod values;
