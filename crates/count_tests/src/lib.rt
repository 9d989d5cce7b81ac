//! Tests of what calls of the updates, the layers and the watches count.
#![tactic(auto)]

#[cfg(test)]
mod entries;
#[cfg(test)]
mod layers;
#[cfg(test)]
mod puts;
#[cfg(test)]
mod watches;
