//! Which literals fit a type, and which uses of a variable are allowed (GraphQL, October 2021,
//! sections 3.4 to 3.12, 5.6 and 5.8.5).
ghost use Rattle.std.specs.Prelude.{◌≡◌, ℕ, ◌&&◌, List, map, true, Some, IfOk};
ghost use Rattle.gql_ast.specs.TypeView.{ty_of};
ghost use Rattle.gql_ast.specs.Value.{vals_of, members_of};
ghost use Rattle.gql_ast.specs.ValueView.{value_of, argument_of};
ghost use Rattle.gql_ast.specs.declared.member.InputTree.{InputTree};
ghost use Rattle.gql_graph.specs.gql_plain.Order.{sorted_texts};
ghost use Rattle.schema_tables.specs.Fits as fits;
ghost use Rattle.schema_tables.specs.Given.{gives_each};
ghost use Rattle.schema_tables.specs.Means.{Means};
ghost use Rattle.schema_tables.specs.Required.{all_differ, count_among, member_names, required_names};
ghost use Rattle.schema_tables.specs.Types as types;

use crate::definitions::InputDefs;
use crate::tables::Tables;
use crate::type_forms::{base_of, is_built_in_scalar, is_non_null, item_of};
use gql_ast::gql_plain::{Ids, NoMemory};
use gql_ast::{Argument, Arguments, TypeTree, ValueTree, ValueTrees, VariableDef};
use gql_graph::seen::Seen;
use std::alloc::Global;

/// What a named type takes.
#[derive(Drop)]
pub(crate) enum Meaning<'a> {
    BuiltIn,
    /// One of the names of an enum.
    OneOf(&'a Ids),
    /// An object with these fields.
    Fields(InputDefs<'a>),
    Anything,
}

impl Tables {
    /// What a named type takes.
    fn meaning(&self, name: &str) -> Meaning<'_>
        ensures { Means self.now name.now result }
    {
        if is_built_in_scalar(name) {
            return Meaning::BuiltIn;
        }
        match self.enum_names(name) {
            Some(names) => Meaning::OneOf(names),
            None => match self.inputs(name) {
                Some(inputs) => Meaning::Fields(inputs),
                None => Meaning::Anything,
            },
        }
    }

    /// Whether the literal fits the type. A variable fits everywhere. The memory that it takes is
    /// that of the names of an object's fields.
    #[cycle(fits)]
    pub fn literal_fits(
        &self,
        alloc: Global,
        value: &ValueTree,
        of: &TypeTree,
    ) -> Result<bool, NoMemory>
        ensures { IfOk result (λ b. b ≡ fits.literal_fits self.now (value_of value.now) (ty_of of.now)) }
    {
        match value {
            ValueTree::Variable(_) => Ok(true),
            ValueTree::Null => Ok(!is_non_null(of)),
            ValueTree::List(values) => match item_of(of) {
                Some(item) => {
                    let fit = self.items_fit(alloc, values, item)?;
                    Ok(fit)
                }
                None => Ok(matches!(self.meaning(base_of(of)), Meaning::Anything)),
            },
            ValueTree::Object(fields) => match self.meaning(base_of(of)) {
                Meaning::Fields(inputs) => {
                    if !names_fit(alloc, &inputs, fields)? {
                        return Ok(false);
                    }
                    let fit = self.members_fit(alloc, fields, &inputs)?;
                    Ok(fit)
                }
                Meaning::Anything => Ok(true),
                Meaning::BuiltIn => Ok(false),
                Meaning::OneOf(_) => Ok(false),
            },
            ValueTree::Int(_) => Ok(self.single_fits(value, base_of(of))),
            ValueTree::Text(_) => Ok(self.single_fits(value, base_of(of))),
            ValueTree::Bool(_) => Ok(self.single_fits(value, base_of(of))),
            ValueTree::Enum(_) => Ok(self.single_fits(value, base_of(of))),
        }
    }

    /// Whether each value fits as an item of that type.
    #[cycle(fits)]
    fn items_fit(
        &self,
        alloc: Global,
        values: &ValueTrees,
        item: &TypeTree,
    ) -> Result<bool, NoMemory>
        ensures { IfOk result (λ b. b ≡ fits.items_fit self.now (vals_of values.now) (Some (ty_of item.now))) }
    {
        'items: for value in &values.items {
            if !may_be_item(value, item) {
                return Ok(false);
            }
            if !self.literal_fits(alloc, value, item)? {
                return Ok(false);
            }
        }
        Ok(true)
    }

    /// Whether each field, of those whose names differ, is one of the inputs and has a fitting value.
    #[cycle(fits)]
    fn members_fit(
        &self,
        alloc: Global,
        fields: &Arguments,
        inputs: &InputDefs<'_>,
    ) -> Result<bool, NoMemory>
        requires { all_differ (member_names fields.now) ≡ true }
        ensures { IfOk result (λ b. (is : List InputTree) → inputs.now ≡ map types.input_def is
            → b ≡ fits.members_fit self.now (members_of fields.now) (fits.fields is)) }
    {
        'fields: for field in &fields.items {
            let Some(input) = inputs.find(field.name.as_str()) else {
                return Ok(false);
            };
            if !self.literal_fits(alloc, &field.value, input.of())? {
                return Ok(false);
            }
        }
        Ok(true)
    }

    /// Whether a value that is no list, object, null or variable fits the named type.
    fn single_fits(&self, value: &ValueTree, name: &str) -> bool
        ensures { result ≡ fits.fits_meaning (value_of value.now) (fits.meaning_of self.now name.now) }
    {
        match self.meaning(name) {
            Meaning::BuiltIn => fits_built_in(value, name),
            Meaning::OneOf(names) => is_among(value, names),
            Meaning::Fields(_) => false,
            Meaning::Anything => true,
        }
    }
}

/// Whether the use of a variable is allowed at a place of a type that has a default or has none
/// (section 5.8.5).
pub fn use_allowed(defined: &VariableDef, of: &TypeTree, has_default: bool) -> bool
    ensures { result ≡ fits.use_allowed (ty_of defined.now.of) defined.now.default (ty_of of.now) has_default }
{
    let TypeTree::NonNull(inner) = of else {
        return types_agree(&defined.of, of);
    };
    if is_non_null(&defined.of) {
        return types_agree(&defined.of, of);
    }
    if has_default {
        return types_agree(&defined.of, inner.tree());
    }
    is_given_default(&defined.default) && types_agree(&defined.of, inner.tree())
}

/// Whether there is a default that is not null.
fn is_given_default(default: &Option<ValueTree>) -> bool
    ensures { result ≡ fits.is_given_default default.now }
{
    match default {
        None => false,
        Some(ValueTree::Null) => false,
        Some(_) => true,
    }
}

/// Whether a variable's type goes into the type of a place: a non-null form goes into a nullable
/// one at every level.
fn types_agree(variable: &TypeTree, place: &TypeTree) -> bool
    ensures { result ≡ fits.types_agree (ty_of variable.now) (ty_of place.now) }
{
    match variable {
        TypeTree::NonNull(inner) => match place {
            TypeTree::NonNull(place) => types_agree(inner.tree(), place.tree()),
            TypeTree::Named(_) => types_agree(inner.tree(), place),
            TypeTree::List(_) => types_agree(inner.tree(), place),
        },
        TypeTree::Named(name) => match place {
            TypeTree::Named(other) => name.as_str() == other.as_str(),
            TypeTree::List(_) => false,
            TypeTree::NonNull(_) => false,
        },
        TypeTree::List(item) => match place {
            TypeTree::List(other) => types_agree(item.tree(), other.tree()),
            TypeTree::Named(_) => false,
            TypeTree::NonNull(_) => false,
        },
    }
}

/// Whether a value may be an item of that type: where the items are lists, only a list, null or a
/// variable may be one.
fn may_be_item(value: &ValueTree, item: &TypeTree) -> bool
    ensures { result ≡ fits.may_be_item (value_of value.now) (ty_of item.now) }
{
    match value {
        ValueTree::Variable(_) => true,
        ValueTree::Null => true,
        ValueTree::List(_) => true,
        ValueTree::Object(_) => item_of(item).is_none(),
        ValueTree::Int(_) => item_of(item).is_none(),
        ValueTree::Text(_) => item_of(item).is_none(),
        ValueTree::Bool(_) => item_of(item).is_none(),
        ValueTree::Enum(_) => item_of(item).is_none(),
    }
}

/// Whether a value fits a scalar that every schema has (section 3.5).
fn fits_built_in(value: &ValueTree, name: &str) -> bool
    ensures { result ≡ fits.fits_built_in (value_of value.now) name.now }
{
    if name == "Int" {
        return is_small_int(value);
    }
    if name == "Float" {
        return matches!(value, ValueTree::Int(_));
    }
    if name == "String" {
        return matches!(value, ValueTree::Text(_));
    }
    if name == "Boolean" {
        return matches!(value, ValueTree::Bool(_));
    }
    matches!(value, ValueTree::Text(_) | ValueTree::Int(_))
}

/// Whether a value is a whole number of 32 bits.
fn is_small_int(value: &ValueTree) -> bool
    ensures { result ≡ fits.is_small_int (value_of value.now) }
{
    match value {
        ValueTree::Int(number) => -2_147_483_648 <= *number && *number <= 2_147_483_647,
        _ => false,
    }
}

/// Whether a value is one of the names of an enum.
fn is_among(value: &ValueTree, names: &Ids) -> bool
    ensures { (ns : List (List ℕ)) → names.now ≡ sorted_texts ns → result ≡ fits.fits_enum (value_of value.now) ns }
{
    match value {
        ValueTree::Enum(name) => names.contains(name.as_str()),
        _ => false,
    }
}

/// Whether the names of fields differ, and each input that has to be given is among them.
fn names_fit(alloc: Global, inputs: &InputDefs<'_>, fields: &Arguments) -> Result<bool, NoMemory>
    ensures { IfOk result (λ b. b ≡ (all_differ (member_names fields.now) && gives_each inputs.now (members_of fields.now))) }
{
    if !names_differ(alloc, fields)? {
        return Ok(false);
    }
    Ok(gives_required(inputs, fields))
}

/// Whether the names of fields differ. It goes from the last to the first.
fn names_differ(alloc: Global, fields: &Arguments) -> Result<bool, NoMemory>
    ensures { IfOk result (λ b. b ≡ all_differ (member_names fields.now)) }
{
    let mut seen = Seen::new(alloc);
    let mut differ = true;
    let mut left = fields.items.len();
    'fields: while left > 0 {
        left -= 1;
        let field = &fields.items[left];
        let is_new = seen.insert(field.name.as_str())?;
        differ = are_both(is_new, differ);
    }
    Ok(differ)
}

/// Whether both hold.
fn are_both(first: bool, second: bool) -> bool
    ensures { result ≡ (first && second) }
{
    first && second
}

/// Whether each input that has to be given is among the fields, whose names differ.
fn gives_required(inputs: &InputDefs<'_>, fields: &Arguments) -> bool
    requires { all_differ (member_names fields.now) ≡ true }
    ensures { result ≡ gives_each inputs.now (members_of fields.now) }
{
    count_required(inputs, &fields.items) == inputs.required_count()
}

/// How many fields have the names of inputs that have to be given.
fn count_required(inputs: &InputDefs<'_>, fields: &[Argument]) -> usize
    ensures { result ≡ count_among (required_names inputs.now) (member_names (map argument_of fields.now)) }
{
    let mut count = 0;
    'fields: for field in fields {
        if inputs.needs(field.name.as_str()) {
            count += 1;
        }
    }
    count
}
