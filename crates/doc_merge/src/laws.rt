//! What holds of the definitions.
ghost use Rattle.std.specs.Prelude.{◌≡◌, ◌≤◌, ℕ, Bool, [], ◌++◌};
ghost use Rattle.std.specs.List.{list_any};
ghost use Rattle.plan_ir.specs.gql_ast.declared.place.FilePlace.{FilePlace};
ghost use Rattle.doc_merge.specs.Collected.{AreAlike, Pairwise};
ghost use Rattle.doc_merge.specs.Merging.{Fields, differences};
ghost use Rattle.doc_merge.specs.Paths.{paths};
ghost use Rattle.doc_merge.specs.Standard.{depth, each_set_can_merge, fields_in_set_can_merge};

/// The places where fields cannot merge are those of the standard's own form, which judges the
/// joined set of each pair of fields (GraphQL, October 2021, section 5.3.2).
pub fn places_are_those_of_the_standard()
    ensures { (p : FilePlace → Bool) (fs : Fields) (n : ℕ) → depth fs ≤ n
        → list_any p (fields_in_set_can_merge n fs ++ each_set_can_merge n fs) ≡ list_any p (differences fs) }
{}

/// Where all fields can merge, any two fields that are collected for the same objects under the same
/// response keys have one shape, one name and the same arguments (GraphQL, October 2021, section
/// 6.3.2).
pub fn collected_fields_have_one_form()
    ensures { (fs : Fields) → differences fs ≡ [] → Pairwise AreAlike (paths fs) }
{}
