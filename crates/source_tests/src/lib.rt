//! Tests of the persistent tree, of record maps, of sweeps of them through layers, of layers that finish
//! and copies of layers, and of connections in record maps: edits of their edges, and counters that are
//! at their end.
#![tactic(auto)]

#[cfg(test)]
mod counters;
#[cfg(test)]
mod edits;
#[cfg(test)]
mod layers;
#[cfg(test)]
mod sources;
#[cfg(test)]
mod sweeps;
#[cfg(test)]
mod trees;
