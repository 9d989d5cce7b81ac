//! The places of the nodes at which rules are broken.
ghost use Rattle.std.specs.Prelude.{◌≡◌, ◌<◌, length};
ghost use Rattle.plan_project.specs.Faults.{fault_at, IsAt};
ghost use Rattle.plan_ir.specs.schema_types.DocumentRules.{places_of};

use crate::fault::ProjectFault;
use plan_ir::{Documents, FilePlace, FilePlaces, NodeFault, Rule};

/// The fault of a rule at a place.
pub(crate) fn fault_at(place: &FilePlace, rule: Rule) -> ProjectFault
    ensures { result ≡ fault_at place.now rule }
{
    ProjectFault {
        file: place.file,
        line: place.line,
        column: place.column,
        rule,
    }
}

/// The fault of a schema whose nodes have these places.
pub(crate) fn schema_fault(places: &FilePlaces, fault: NodeFault) -> ProjectFault
    requires { fault.node < length places.now }
    ensures { IsAt places.now fault.rule fault.node result }
{
    fault_at(&places.items[fault.node], fault.rule)
}

/// The fault of documents, whose nodes are numbered in their order, from 0. Takes no memory.
pub(crate) fn documents_fault(documents: &Documents, fault: NodeFault) -> ProjectFault
    requires { fault.node < length (places_of documents.now) }
    ensures { IsAt (places_of documents.now) fault.rule fault.node result }
{
    let mut left = fault.node;
    'documents: for document in documents.as_slice() {
        let places = &document.places.items;
        if left < places.len() {
            return fault_at(&places[left], fault.rule);
        }
        left -= places.len();
    }
    unreachable!()
}
