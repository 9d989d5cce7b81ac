//! The least places at which the rules E1, E2, V23 and V24 are not met.
ghost use Rattle.std.specs.Prelude.{◌≡◌, Some, None};
ghost use Rattle.plan_project.specs.Noting as noting;
ghost use Rattle.plan_project.specs.Noting.{HasNotedFault};

use crate::fault::DocumentsFault;
use plan_ir::least::Least;
use plan_ir::{FilePlace, NodeFault, Rule};
use plan_read::PlaceFault;
use plan_read::least::Least as LeastPlace;

/// The least places at which expanded operations and fragments do not meet rules: the nodes of the
/// names of those that have too many nodes (E1) or nest too deep (E2), and the places of values that
/// do not fit (V23) and of fields that do not merge (V24).
#[derive(Clone, Copy, Debug)]
pub(crate) struct LeastFaults {
    pub(crate) size: Least,
    pub(crate) depth: Least,
    pub(crate) values: LeastPlace,
    pub(crate) fields: LeastPlace,
}

impl LeastFaults {
    /// No place is noted.
    pub(crate) fn new() -> LeastFaults
        ensures size { result.size.at ≡ None }
        ensures depth { result.depth.at ≡ None }
        ensures values { result.values.at ≡ None }
        ensures fields { result.fields.at ≡ None }
    {
        LeastFaults {
            size: Least::new(),
            depth: Least::new(),
            values: LeastPlace::new(),
            fields: LeastPlace::new(),
        }
    }

    /// Notes a fault of V23 or V24.
    pub(crate) fn note_fault(&mut self, fault: PlaceFault)
        ensures { HasNotedFault self.old self.new (Some fault) }
    {
        match fault.rule {
            Rule::V23 => self.values.note(fault.place),
            _ => self.fields.note(fault.place),
        }
    }

    /// The first of the rules E1, E2, V23 and V24 of which a place is noted, at that place.
    pub(crate) fn first(&self) -> Option<DocumentsFault>
        ensures { result ≡ noting.first_noted self.now.size.at self.now.depth.at self.now.values.at self.now.fields.at }
    {
        if let Some(node) = self.size.at {
            return Some(node_fault(Rule::E1, node));
        }
        if let Some(node) = self.depth.at {
            return Some(node_fault(Rule::E2, node));
        }
        if let Some(place) = self.values.at {
            return Some(place_fault(Rule::V23, place));
        }
        if let Some(place) = self.fields.at {
            return Some(place_fault(Rule::V24, place));
        }
        None
    }
}

/// The fault of a rule at a node.
fn node_fault(rule: Rule, node: usize) -> DocumentsFault
    ensures { result ≡ noting.node_fault rule node }
{
    DocumentsFault::Node(NodeFault { rule, node })
}

/// The fault of a rule at a place.
fn place_fault(rule: Rule, place: FilePlace) -> DocumentsFault
    ensures { result ≡ noting.place_fault rule place }
{
    DocumentsFault::Place(PlaceFault { rule, place })
}
