//! What holds of every text.
ghost use Rattle.plan_text.specs.Documents.{IsOneDocument, SpellsPrinted};
ghost use Rattle.plan_collect.specs.SameGroups.{TextCollectsTheSame};
ghost use Rattle.plan_text.specs.Saying.{TextSaysTheOperation};

/// Law: the text of an expanded operation has the tokens of the printed operation: it is the text of
/// one document of one operation, of the same kind and name.
pub fn text_spells_the_operation()
    ensures { SpellsPrinted }
{}

/// Law: this text is that document, the one of the printed operation, where its sets and values nest no
/// deeper than may be read. A text is one document at most.
pub fn text_is_one_document()
    ensures { IsOneDocument }
{}

/// Law: under each environment and on each object type, the operation that the text is and the
/// source operation with its additions collect the same groups in the same order, with the same
/// field names, argument values and forms; and so do the joined selections below each group
/// (GraphQL, October 2021, section 6.3.2).
pub fn text_collects_the_same()
    ensures { TextCollectsTheSame }
{}

/// Law: all three of one text, that of an operation of the documents, where it may be read.
pub fn text_says_the_operation()
    ensures { TextSaysTheOperation }
{}
