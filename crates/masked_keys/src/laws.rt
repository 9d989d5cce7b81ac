//! The keys that reads look at.
ghost use Rattle.masked_keys.specs.Laws.{
  FragmentPlansLookAtTheirKeys,
  FragmentsLookAtTheirKeys,
  OperationPlansLookAtTheirKeys,
  OperationsLookAtTheirKeys,
  SuitedFragmentPlansLookAtTheirKeys,
  SuitedOperationPlansLookAtTheirKeys,
};

/// Law: each key that the read of an operation looks at is that of a field which stands in the
/// operation's text, in that of a spread with `@relay(mask: false)`, or in that of an `@inline`
/// fragment, and so on through these two.
pub fn operations_look_at_their_keys()
    ensures { OperationsLookAtTheirKeys }
{}

/// Law: each key that the read of a fragment looks at is that of a field which stands in the fragment's
/// text, and so on in the same way. No text of another fragment counts.
pub fn fragments_look_at_their_keys()
    ensures { FragmentsLookAtTheirKeys }
{}

/// Law: a read by the plan of an operation whose expansion is suited, and whose fields are alike, looks
/// at these keys alone. Local variables of fragments have constant defaults.
pub fn suited_operation_plans_look_at_their_keys()
    ensures { SuitedOperationPlansLookAtTheirKeys }
{}

/// Law: a read by the plan of a fragment whose expansion is suited, and whose fields are alike, looks at
/// these keys alone. Local variables of fragments have constant defaults.
pub fn suited_fragment_plans_look_at_their_keys()
    ensures { SuitedFragmentPlansLookAtTheirKeys }
{}

/// Law: a read by the plan of an operation of an accepted project looks at these keys alone.
pub fn operation_plans_look_at_their_keys()
    ensures { OperationPlansLookAtTheirKeys }
{}

/// Law: a read by the plan of a fragment of an accepted project looks at these keys alone.
pub fn fragment_plans_look_at_their_keys()
    ensures { FragmentPlansLookAtTheirKeys }
{}
