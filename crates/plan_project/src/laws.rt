//! What holds of every project.
ghost use Rattle.plan_project.specs.TextLaws.{TextsAreDocuments};

/// Law: the text of each operation of an accepted project is one document and no other, that of one
/// operation of the same kind and name: a server reads it without fault.
pub fn operation_text_is_one_document()
    ensures { TextsAreDocuments }
{}
