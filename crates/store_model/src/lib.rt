//! What is said to a store: facts, connections' pages, commands, entries and events; and what each of
//! them means for a map of records; and what reading and reach are, as walks over what selections ask
//! for. The meanings stand in `specs/`, and what holds of them in `proofs/`.
#![tactic(auto)]

pub mod command;
pub mod entry;
pub mod event;
pub mod facts;
pub mod laws;
pub mod leads;
pub mod payload_fault;

pub use command::{Command, Commands, EdgeEdit};
pub use entry::Entry;
pub use event::{Answer, Event, Part, Target};
pub use facts::{Fact, FactList, FactRow, Facts, HandleFact, HandleFacts};
pub use leads::leads_is_least;
pub use payload_fault::{Cause, PathStep, PathSteps, PayloadFault};
pub use store_record;
pub use store_record::gql_plain;
