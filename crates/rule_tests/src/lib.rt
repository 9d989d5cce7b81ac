//! Tests of schemas, of the rules on documents, of plans, and of whole projects, over what their
//! crates offer.
#![tactic(auto)]

#[cfg(test)]
mod arguments;
#[cfg(test)]
mod directives;
#[cfg(test)]
mod expansion_rows;
#[cfg(test)]
mod fields;
#[cfg(test)]
mod names;
#[cfg(test)]
mod plans;
#[cfg(test)]
mod projects;
#[cfg(test)]
mod reader_plans;
#[cfg(test)]
mod relay_rows;
#[cfg(test)]
mod rows;
#[cfg(test)]
mod schema_rows;
#[cfg(test)]
mod schemas;
#[cfg(test)]
mod sites;
#[cfg(test)]
mod texts;
#[cfg(test)]
mod value_rows;
