//! What plans mean.
ghost use Rattle.plan_build.specs.Laws.{
  DocumentsAreNodes,
  FieldsOfOneFormAreAlike,
  FragmentsOfDocumentsMeet,
  MergingFieldsAreAlike,
  OperationsAreSuited,
  OperationsOfDocumentsMeet,
  OperationsThatMeetAreConnected,
  OperationsThatMeetAreSuited,
  PlansMeanDocuments,
  PlansMeanSuitedOperations,
  PlansReachDocuments,
  PlansReachSuitedOperations,
};

/// Law: a response says to an operation of the documents what it says to the operation's expansion.
pub fn documents_are_nodes()
    ensures { DocumentsAreNodes }
{}

/// Law: where all fields of an expanded operation or fragment can merge, they are alike: those that
/// are collected for the same objects under the same response keys have one name.
pub fn merging_fields_are_alike()
    ensures { MergingFieldsAreAlike }
{}

/// Law: fields are alike where any two that are collected for the same objects under the same
/// response keys have one shape, one name and the same arguments.
pub fn fields_of_one_form_are_alike()
    ensures { FieldsOfOneFormAreAlike }
{}

/// Law: the expansion of an operation that meets the rules that it needs is suited. The operation
/// need not stand in a document; the fragments that its spreads find meet them too.
pub fn operations_that_meet_are_suited()
    ensures { OperationsThatMeetAreSuited }
{}

/// Law: each connection of the expansion of an operation that meets the rules that it needs leads to
/// one object type, and asks for its page information.
pub fn operations_that_meet_are_connected()
    ensures { OperationsThatMeetAreConnected }
{}

/// Law: each response says to the plan of an operation whose expansion is suited, and whose fields are
/// alike, what it says to the operation along the documents, with the fields that are added.
pub fn plans_mean_suited_operations()
    ensures { PlansMeanSuitedOperations }
{}

/// Law: in each map of records the walk by the plan of an operation whose expansion is suited, and
/// whose fields are alike, stands at the same ids as the walk of the operation along the documents,
/// with the fields that are added.
pub fn plans_reach_suited_operations()
    ensures { PlansReachSuitedOperations }
{}

/// Law: each fragment of an accepted project meets the rules that plans need.
pub fn fragments_of_documents_meet()
    ensures { FragmentsOfDocumentsMeet }
{}

/// Law: an operation of an accepted project meets the rules that it needs.
pub fn operations_of_documents_meet()
    ensures { OperationsOfDocumentsMeet }
{}

/// Law: the expansion of an operation of an accepted project is suited.
pub fn operations_are_suited()
    ensures { OperationsAreSuited }
{}

/// Law: each response says to the plan of an operation of an accepted project what it says to the
/// operation along the documents, with the fields that are added.
pub fn plans_mean_documents()
    ensures { PlansMeanDocuments }
{}

/// Law: in each map of records the walk by the plan of an operation of an accepted project stands at
/// the same ids as the walk of the operation along the documents, with the fields that are added.
pub fn plans_reach_documents()
    ensures { PlansReachDocuments }
{}
