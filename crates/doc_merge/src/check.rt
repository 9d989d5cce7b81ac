//! The first rule on merging and on values that an expanded operation or fragment does not meet.
ghost use Rattle.std.specs.Prelude.{◌≡◌, None, IfErr, OnOk};
ghost use Rattle.doc_merge.specs.Faults as spec;
ghost use Rattle.doc_merge.specs.Faults.{IsFirstFault, first_fault};

use crate::fault::{MergeFault, PlaceFault};
use crate::merging::least_difference;
use crate::values::least_unfit;
use plan_ir::{Expanded, FilePlace, Rule, Schema};
use std::alloc::Global;

/// Checks an expanded operation or fragment, in this order:
///
/// - V23, in an operation: each use of a variable is allowed, and each literal that was put in for a
///   local variable fits.
/// - V24: fields can merge (GraphQL, October 2021, section 5.3.2).
///
/// # Errors
///
/// The first of these rules that it does not meet, at its least place; `NoMemory`.
pub fn check_merge(alloc: Global, schema: &Schema, expanded: &Expanded) -> Result<(), MergeFault>
    ensures met { OnOk result (first_fault schema.now expanded.now ≡ None) }
    ensures fault { IfErr result (IsFirstFault schema.now expanded.now) }
{
    let values = least_unfit(alloc, schema, expanded)?;
    let fields = least_difference(alloc, schema, expanded)?;
    match fault_or(values, fields) {
        Some(fault) => Err(MergeFault::Rule(fault)),
        None => Ok(()),
    }
}

/// The fault at the place where values do not fit, else that where fields differ.
fn fault_or(values: Option<FilePlace>, fields: Option<FilePlace>) -> Option<PlaceFault>
    ensures { result ≡ spec.fault_or values fields }
{
    match values {
        Some(place) => Some(fault_at(Rule::V23, place)),
        None => match fields {
            Some(place) => Some(fault_at(Rule::V24, place)),
            None => None,
        },
    }
}

/// The fault of a rule at a place.
fn fault_at(rule: Rule, place: FilePlace) -> PlaceFault
    ensures { result ≡ spec.fault_of rule place }
{
    PlaceFault { rule, place }
}
