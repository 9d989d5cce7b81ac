//! The parts of located definitions.
ghost use Rattle.std.specs.Prelude.{◌≡◌, [], ◌∷◌, map, IfOk, MatchOption, option_map};
ghost use Rattle.schema_trees.specs.LocatedView.{name_of, input_of, field_of, root_of, def_of};
ghost use Rattle.schema_trees.specs.DefinitionParts as parts;
ghost use Rattle.schema_tables.specs.gql_graph.Rules.{each};

use crate::located::{DefAt, FieldAt, InputAt, NameAt, RootAt};
use schema_tables::gql_plain::NoMemory;
use std::alloc::Global;

impl<'a> DefAt<'a> {
    /// The name that is defined, of a type or of a directive.
    pub fn name(&self) -> Option<NameAt<'a>>
        ensures { MatchOption result (parts.defined_name (def_of self.now) ≡ []) (λ n. parts.defined_name (def_of self.now) ≡ name_of n ∷ []) }
    {
        match self {
            DefAt::Schema { .. } => None,
            DefAt::Scalar { name } => Some(*name),
            DefAt::Object { name, .. } => Some(*name),
            DefAt::Interface { name, .. } => Some(*name),
            DefAt::Union { name, .. } => Some(*name),
            DefAt::Enum { name, .. } => Some(*name),
            DefAt::Input { name, .. } => Some(*name),
            DefAt::Directive { name, .. } => Some(*name),
        }
    }

    /// The name of the type that is defined.
    pub fn type_name(&self) -> Option<NameAt<'a>>
        ensures { option_map name_of result ≡ parts.type_name_of (def_of self.now) }
    {
        match self {
            DefAt::Schema { .. } => None,
            DefAt::Scalar { name } => Some(*name),
            DefAt::Object { name, .. } => Some(*name),
            DefAt::Interface { name, .. } => Some(*name),
            DefAt::Union { name, .. } => Some(*name),
            DefAt::Enum { name, .. } => Some(*name),
            DefAt::Input { name, .. } => Some(*name),
            DefAt::Directive { .. } => None,
        }
    }

    /// The name of the directive that is defined.
    pub fn directive_name(&self) -> Option<NameAt<'a>>
        ensures { option_map name_of result ≡ parts.directive_name_of (def_of self.now) }
    {
        match self {
            DefAt::Directive { name, .. } => Some(*name),
            _ => None,
        }
    }

    /// The roots of a definition of the schema itself.
    pub fn roots(&self) -> &[RootAt<'a>]
        ensures { map root_of result.now ≡ parts.roots_in (def_of self.now) }
    {
        match self {
            DefAt::Schema { roots, .. } => roots,
            _ => &[],
        }
    }

    /// The fields of an object or an interface.
    pub fn fields(&self) -> &[FieldAt<'a>]
        ensures { map field_of result.now ≡ parts.fields_in (def_of self.now) }
    {
        match self {
            DefAt::Object { fields, .. } => fields,
            DefAt::Interface { fields, .. } => fields,
            _ => &[],
        }
    }

    /// The interfaces that an object or an interface implements.
    pub fn interfaces(&self) -> &[NameAt<'a>]
        ensures { map name_of result.now ≡ parts.interfaces_in (def_of self.now) }
    {
        match self {
            DefAt::Object { interfaces, .. } => interfaces,
            DefAt::Interface { interfaces, .. } => interfaces,
            _ => &[],
        }
    }

    /// The members of a union.
    pub fn union_members(&self) -> &[NameAt<'a>]
        ensures { map name_of result.now ≡ parts.union_members_in (def_of self.now) }
    {
        match self {
            DefAt::Union { members, .. } => members,
            _ => &[],
        }
    }

    /// The values of an enum.
    pub fn enum_values(&self) -> &[NameAt<'a>]
        ensures { map name_of result.now ≡ parts.enum_values_in (def_of self.now) }
    {
        match self {
            DefAt::Enum { values, .. } => values,
            _ => &[],
        }
    }

    /// The fields of an input object.
    pub fn input_fields(&self) -> &[InputAt<'a>]
        ensures { map input_of result.now ≡ parts.input_fields_in (def_of self.now) }
    {
        match self {
            DefAt::Input { fields, .. } => fields,
            _ => &[],
        }
    }

    /// The arguments of fields and of directives, and the fields of an input object.
    pub fn inputs(&self, alloc: Global) -> Result<Vec<InputAt<'a>>, NoMemory>
        ensures { IfOk result (λ is. map input_of is.items ≡ parts.inputs_in (def_of self.now)) }
    {
        match self {
            DefAt::Object { fields, .. } => arguments_of(alloc, fields),
            DefAt::Interface { fields, .. } => arguments_of(alloc, fields),
            DefAt::Input { fields, .. } => Ok(fields.clone()?),
            DefAt::Directive { arguments, .. } => Ok(arguments.clone()?),
            _ => Ok(Vec::new(alloc)),
        }
    }
}

/// The arguments of all fields.
fn arguments_of<'a>(alloc: Global, fields: &[FieldAt<'a>]) -> Result<Vec<InputAt<'a>>, NoMemory>
    ensures { IfOk result (λ is. map input_of is.items ≡ each (λ f. f.arguments) (map field_of fields.now)) }
{
    let mut inputs = Vec::new(alloc);
    'fields: for field in fields {
        inputs.extend_from_slice(&field.arguments)?;
    }
    Ok(inputs)
}
