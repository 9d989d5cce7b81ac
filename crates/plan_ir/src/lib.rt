//! The forms that plans go through: expanded operations and fragments, plans that normalize, and
//! plans that read (this project's own).
//!
//! In contracts a list is the list of what it holds, without room and address. Where a tree holds
//! itself, contracts see what it stands for: nodes as `Nodes`, the steps of a plan as `Normal` or
//! `Reader`. Lists of steps and of ids have several owners: a copy of a step is one more owner of its
//! lists, and a plan takes room once for what several of its steps lead to.
#![tactic(auto)]

pub mod copies;
pub mod expanded;
pub mod form;
pub mod guard;
mod keys;
pub mod node;
pub mod normal;
pub mod reader;

pub use copies::copy_of_conn;
pub use expanded::Expanded;
pub use form::Form;
pub use guard::{Condition, Conditions, Guard};
pub use node::{Node, Nodes};
pub use normal::{NormalList, NormalPlan, NormalStep, NormalSteps};
pub use reader::{ReaderList, ReaderPlan, ReaderStep, ReaderSteps};
pub use relay_marks::{
    Argument, Arguments, Cursor, Definition, Directive, Directives, Document, Documents, Env,
    FilePlace, FilePlaces, Fragment, InputDef, InputDefs, Kind, NESTING_LIMIT, NodeFault,
    Operation, ParseFault, Placed, Rule, RuleFault, Schema, Selection, Selections, SyntaxFault,
    TypeBox, TypeKind, TypeTree, ValueTree, ValueTrees, VariableDef, VariableDefs, connection,
    connection_among, evaluate, evaluate_arguments, local_of, locals, read_type, read_value,
};
pub use store_model::gql_plain::{
    Conn, Counts, Id, Ids, MAX_LINE, Name, NoMemory, OptIds, Pairs, Plain, PlainFault, Plains,
    SharedText, Steps, Words, is_name, plain_of, text_of, write_plain,
};
pub use store_model::store_record::{
    Field, Fields, Record, SharedField, Slot, client_id, field_key, handle_key,
};
pub use store_model::{
    Answer, Cause, Command, Commands, EdgeEdit, Entry, FactList, FactRow, Facts, HandleFact,
    HandleFacts, Part, PathStep, PathSteps, PayloadFault, Target,
};

/// Passed on from the crates below.
pub mod least {
    pub use relay_marks::least::Least;
}

/// Passed on from the crates below.
pub mod located {
    pub use relay_marks::located::{NameAt, pass};
}

/// Passed on from the crates below.
pub mod type_forms {
    pub use relay_marks::type_forms::{base_of, item_of};
}
