//! What values of the language are under the values of variables, and those in which no variable
//! stands; which of these fit (GraphQL, October 2021, sections 2.9, 2.10, 3.12, 5.6.1, 5.8.5 and 6.4.1).
#![tactic(auto)]

pub mod constants;
pub mod env;
mod evaluated;
pub mod fittings;
mod pairs;

pub use constants::{evaluate_constants, have_constants, is_constant};
pub use env::Env;
pub use evaluated::{evaluate, evaluate_arguments, evaluate_under};
pub use pairs::first_of_each;
pub use schema_types::{
    FieldDef, InputDef, InputDefs, NodeFault, Rule, RuleFault, Schema, TypeKind,
};

/// Passed on from the crates below.
pub mod first {
    pub use schema_types::first::First;
}

/// Passed on from the crates below.
pub mod least {
    pub use schema_types::least::Least;
}

/// Passed on from the crates below.
pub mod located {
    pub use schema_types::located::{NameAt, pass};
}

/// Passed on from the crates below.
pub mod seen {
    pub use schema_types::seen::Seen;
}

/// Passed on from the crates below.
pub mod type_forms {
    pub use schema_types::type_forms::{base_of, is_non_null, item_of};
}
