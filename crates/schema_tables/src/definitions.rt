//! What a schema says of fields, inputs and directives, as views of its trees.
ghost use Rattle.std.specs.Prelude.{◌≡◌, [], length, map, option_copied, bytes_eq, Decides};
ghost use Rattle.std.specs.List.{IsDistinct};
ghost use Rattle.gql_graph.specs.gql_plain.Order.{has_text};
ghost use Rattle.schema_tables.specs.Indexes.{field_name};
ghost use Rattle.schema_tables.specs.Inputs.{input_among, must_be_given};
ghost use Rattle.schema_tables.specs.Required.{required_names};
ghost use Rattle.schema_tables.specs.Types.{field_named, input_def};

use crate::index::find_place;
use crate::type_forms::is_non_null;
use gql_ast::gql_plain::Name;
use gql_ast::{FieldTree, InputTree, Locations, TypeTree, ValueTree};
use std::marker::Model;

/// An argument or an input field.
#[derive(Drop)]
pub struct InputDef<'a> {
    pub(crate) tree: &'a InputTree,
}

impl<'a> Model for InputDef<'a> {
    ghost use Rattle.schema_tables.specs.Views as views;
    ghost use Rattle.schema_tables.specs.Types.{input_def};

    ghost Value = { views.InputDef };

    ghost coded = { views.input_code };

    ghost view = { λ i. input_def i.tree.now };
}

impl<'a> InputDef<'a> {
    /// The name.
    pub fn name(&self) -> &'a Name
        ensures { result.now ≡ self.now.name }
    {
        &self.tree.name
    }

    /// The type.
    pub fn of(&self) -> &'a TypeTree
        ensures { result.now ≡ self.now.of }
    {
        &self.tree.of
    }

    /// The default, where there is one.
    pub fn default(&self) -> &'a Option<ValueTree>
        ensures { result.now ≡ self.now.default }
    {
        &self.tree.default
    }

    /// Whether it has to be given: its type is not null, and it has no default (GraphQL, October
    /// 2021, sections 3.10 and 5.4.2.1).
    pub fn is_required(&self) -> bool
        ensures { result ≡ must_be_given self.now }
    {
        is_required(self.tree)
    }
}

/// Whether an input has to be given.
pub fn is_required(input: &InputTree) -> bool
    ensures { result ≡ must_be_given (input_def input.now) }
{
    is_non_null(&input.of) && input.default.is_none()
}

/// Arguments or input fields in written order, which are found by their names.
#[derive(Drop)]
pub struct InputDefs<'a> {
    pub(crate) trees: &'a [InputTree],
    pub(crate) names: &'a [usize],
    pub(crate) required: &'a [usize],
}

impl<'a> Model for InputDefs<'a> {
    ghost use Rattle.std.specs.Prelude.{List, map};
    ghost use Rattle.std.specs.Coded.{coded_list};
    ghost use Rattle.schema_tables.specs.Views as views;
    ghost use Rattle.schema_tables.specs.Types.{input_def};
    ghost use Rattle.schema_tables.specs.InputPlaces.{ArePlaced};

    ghost Value = { List views.InputDef };

    ghost coded = { coded_list views.input_code };

    ghost view = { λ t. map input_def t.trees.now };

    ghost invariant = { λ t. ArePlaced t.trees.now t.names.now t.required.now };
}

impl<'a> InputDefs<'a> {
    /// The trees of the inputs in written order; takes no memory.
    pub fn items(&self) -> &'a [InputTree]
        ensures { map input_def result.now ≡ self.now }
    {
        self.trees
    }

    /// The first input of a name; takes no memory.
    pub fn find(&self, name: &str) -> Option<InputDef<'a>>
        ensures { result ≡ input_among self.now name.now }
    {
        let trees = self.trees;
        match find_place(trees, self.names, name) {
            Some(at) => Some(InputDef { tree: &trees[at] }),
            None => None,
        }
    }

    /// How many names are those of inputs that have to be given; takes no memory.
    pub fn required_count(&self) -> usize
        ensures { result ≡ length (required_names self.now) }
    {
        self.required.len()
    }

    /// Whether an input of that name has to be given; takes no memory.
    pub fn needs(&self, name: &str) -> bool
        ensures { result ≡ has_text (required_names self.now) name.now }
    {
        find_place(self.trees, self.required, name).is_some()
    }
}

/// A field of an object or an interface.
#[derive(Drop)]
pub struct FieldDef<'a> {
    pub(crate) tree: &'a FieldTree,
    pub(crate) names: &'a [usize],
    pub(crate) required: &'a [usize],
}

impl<'a> Model for FieldDef<'a> {
    ghost use Rattle.schema_tables.specs.Views as views;
    ghost use Rattle.schema_tables.specs.Types.{field_def};
    ghost use Rattle.schema_tables.specs.InputPlaces.{ArePlaced};

    ghost Value = { views.FieldDef };

    ghost coded = { views.field_code };

    ghost view = { λ f. field_def f.tree.now };

    ghost invariant = { λ f. ArePlaced f.tree.now.arguments f.names.now f.required.now };
}

impl<'a> FieldDef<'a> {
    /// The name.
    pub fn name(&self) -> &'a Name
        ensures { result.now ≡ self.now.name }
    {
        &self.tree.name
    }

    /// The arguments.
    pub fn arguments(&self) -> InputDefs<'a>
        ensures { result ≡ self.now.arguments }
    {
        InputDefs {
            trees: self.tree.arguments.as_slice(),
            names: self.names,
            required: self.required,
        }
    }

    /// The type.
    pub fn of(&self) -> &'a TypeTree
        ensures { result.now ≡ self.now.of }
    {
        &self.tree.of
    }
}

/// The fields of a type in written order, which are found by their names.
#[derive(Drop)]
pub struct TypeFields<'a> {
    pub(crate) trees: &'a [FieldTree],
    pub(crate) names: &'a [usize],
}

impl<'a> Model for TypeFields<'a> {
    ghost use Rattle.std.specs.Prelude.{List};
    ghost use Rattle.std.specs.Coded.{coded_list};
    ghost use Rattle.gql_ast.specs.contracts.member.FieldTree as field_row;
    ghost use Rattle.gql_ast.specs.declared.member.FieldTree.{FieldTree};
    ghost use Rattle.schema_tables.specs.Indexes.{IsIndexOf, field_name, is_named};

    ghost Value = { List FieldTree };

    ghost coded = { coded_list field_row.the_row.coded };

    ghost view = { λ t. t.trees.now };

    ghost invariant = { λ t. IsIndexOf field_name (is_named field_name) t.trees.now t.names.now };
}

impl<'a> TypeFields<'a> {
    /// No field.
    pub(crate) fn none() -> TypeFields<'a>
        ensures { result ≡ [] }
    {
        TypeFields {
            trees: &[],
            names: &[],
        }
    }

    /// The trees of the fields in written order.
    pub fn items(&self) -> &'a [FieldTree]
        ensures { result.now ≡ self.now }
    {
        self.trees
    }

    /// The first field of a name; takes no memory.
    pub fn find(&self, name: &str) -> Option<&'a FieldTree>
        ensures { option_copied result ≡ field_named self.now name.now }
    {
        let trees = self.trees;
        match find_place(trees, self.names, name) {
            Some(at) => Some(&trees[at]),
            None => None,
        }
    }

    /// Whether their names differ; looks at none of them.
    pub fn differ(&self) -> bool
        ensures { Decides result (IsDistinct bytes_eq (map field_name self.now)) }
    {
        self.names.len() == self.trees.len()
    }
}

/// A directive, its name without `@`.
#[derive(Drop)]
pub struct DirectiveDef<'a> {
    pub(crate) name: &'a Name,
    pub(crate) trees: &'a [InputTree],
    pub(crate) names: &'a [usize],
    pub(crate) required: &'a [usize],
    pub(crate) repeatable: bool,
    pub(crate) locations: &'a Locations,
}

impl<'a> Model for DirectiveDef<'a> {
    ghost use Rattle.std.specs.Prelude.{map};
    ghost use Rattle.schema_tables.specs.Views as views;
    ghost use Rattle.schema_tables.specs.Types.{input_def};
    ghost use Rattle.schema_tables.specs.InputPlaces.{ArePlaced};

    ghost Value = { views.DirectiveDef };

    ghost coded = { views.directive_code };

    ghost view = { λ d. record { name = d.name.now; arguments = map input_def d.trees.now; repeatable = d.repeatable; locations = d.locations.now } };

    ghost invariant = { λ d. ArePlaced d.trees.now d.names.now d.required.now };
}

impl<'a> DirectiveDef<'a> {
    /// The name.
    pub fn name(&self) -> &'a Name
        ensures { result.now ≡ self.now.name }
    {
        self.name
    }

    /// The arguments.
    pub fn arguments(&self) -> InputDefs<'a>
        ensures { result ≡ self.now.arguments }
    {
        InputDefs {
            trees: self.trees,
            names: self.names,
            required: self.required,
        }
    }

    /// Whether it may stand several times at one place.
    pub fn is_repeatable(&self) -> bool
        ensures { result ≡ self.now.repeatable }
    {
        self.repeatable
    }

    /// Where it may stand.
    pub fn locations(&self) -> &'a Locations
        ensures { result.now ≡ self.now.locations }
    {
        self.locations
    }
}
