//! The values of variables: which given values fit a type, and the environment that an operation gets
//! of them (GraphQL, October 2021, sections 6.1.2 and 3.4 to 3.12).
#![tactic(auto)]

mod environment;
pub mod fault;
mod suited;

pub use environment::variables;
pub use fault::VarFault;
pub use suited::fits;
