//! What an entry makes of a record map, and the ids whose slot it changes.
#![tactic(auto)]

mod command;
mod commands;
mod draft;
pub mod entry;
mod facts;
mod pages;
mod row;
mod run;
mod slot;
mod touched;

pub use entry::{Changed, apply};
pub use store_conn;
pub use store_conn::{gql_plain, store_model, store_record, store_source};
