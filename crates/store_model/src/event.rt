//! The events of a script (this project's own).
use crate::command::Commands;
use serde_json::Value;
use store_record::gql_plain::{Id, Pairs, Words};

/// A fragment that is read at a record, with the values of its local variables.
#[derive(Drop)]
pub struct Part {
    pub fragment: Words,
    pub id: Id,
    pub args: Pairs,
}

/// What is read: the operation of a handle, or a fragment under it.
#[derive(Drop)]
pub struct Target {
    pub handle: Words,
    pub part: Option<Part>,
}

/// The response that the operation of a handle was given.
#[derive(Drop)]
pub struct Answer {
    pub handle: Words,
    pub response: Value,
}

/// The event of one line.
#[derive(Drop)]
pub enum Event {
    Retain {
        handle: Words,
        op: Words,
        vars: Pairs,
    },
    Release {
        handle: Words,
    },
    Payload {
        answer: Answer,
        updates: Commands,
    },
    Update {
        updates: Commands,
    },
    Begin {
        layer: Words,
        answer: Option<Answer>,
        updates: Commands,
    },
    Finish {
        layer: Words,
        answer: Option<Answer>,
        updates: Commands,
    },
    Revert {
        layer: Words,
    },
    Read {
        target: Target,
    },
    Watch {
        watch: Words,
        target: Target,
    },
    Unwatch {
        watch: Words,
    },
    Collect,
}
