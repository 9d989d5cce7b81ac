//! Tests of the engine: scripts with their answers. What is wanted is this project's own
//! (`docs/EVENTS.md`).
#![tactic(auto)]

#[cfg(test)]
mod connections;
#[cfg(test)]
mod faults;
#[cfg(test)]
mod layered_sweeps;
#[cfg(test)]
mod layers;
#[cfg(test)]
mod limits;
#[cfg(test)]
mod lines;
#[cfg(test)]
mod memory;
#[cfg(test)]
mod pages;
#[cfg(test)]
mod reads;
#[cfg(test)]
mod replaying;
#[cfg(test)]
mod retention;
#[cfg(test)]
mod updates;
#[cfg(test)]
mod watches;
