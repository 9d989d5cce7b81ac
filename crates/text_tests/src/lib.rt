//! Tests of the crates that read texts, over what these offer: tokens, values, types, documents,
//! schemas, and the copies of their trees. What is wanted is of the GraphQL specification (October
//! 2021) and of graphql-core 3.2.8.
#![tactic(auto)]

#[cfg(test)]
mod copies;
#[cfg(test)]
mod documents;
#[cfg(test)]
mod lexing;
#[cfg(test)]
mod plain;
#[cfg(test)]
mod schemas;
#[cfg(test)]
mod texts;
#[cfg(test)]
mod values;
