//! Definitions with the tables that their look-ups need.
ghost use Rattle.std.specs.Prelude.{◌≡◌, ◌&&◌, ℕ, List, map, true, Some, None, option_map, option_and_then, option_copied, IfOk, IfSome};
ghost use Rattle.gql_ast.specs.TypeView.{ty_of};
ghost use Rattle.gql_graph.specs.gql_plain.Order.{has_text, sorted_texts};
ghost use Rattle.schema_tables.specs.Types as types;
ghost use Rattle.schema_tables.specs.declared.kind.TypeKind.{TypeKind};
ghost use Rattle.schema_tables.specs.BuiltIn as known;
ghost use Rattle.schema_tables.specs.Parts.{is_directive, is_schema};
ghost use Rattle.schema_tables.specs.TableParts.{AreParts, IsPartOf};
ghost use Rattle.schema_tables.specs.Places.{first_at};

use crate::building::place_of_schema;
use crate::built_in::built_in_directives;
use crate::definitions::{DirectiveDef, FieldDef, InputDef, InputDefs, TypeFields};
use crate::index::Index;
use crate::kind::TypeKind;
use crate::part::{
    Part, directive_in, field_in, fields_in, holds_in, implements_in, inputs_in, interfaces_of,
    parts_of, values_in,
};
use crate::places::{find_directive, find_type, places_of_directives, places_of_types};
use crate::possible::possible_of;
use crate::type_forms::is_built_in_scalar;
use gql_ast::gql_plain::{Ids, Name, NoMemory};
use gql_ast::{Kind, Root, SchemaDef, SchemaDefs, TypeTree};
use std::alloc::Global;
use std::marker::Model;

/// Definitions in written order, with the tables that their look-ups need. They need not meet any
/// rule.
#[derive(Debug, Drop)]
pub struct Tables {
    definitions: SchemaDefs,
    parts: Vec<Part>,
    possible: Vec<Ids>,
    types: Index,
    directives: Index,
    schema: Option<usize>,
    built_in: Vec<SchemaDef>,
    built_in_parts: Vec<Part>,
}

/// A definition and what is kept of it.
#[derive(Clone, Copy)]
pub(crate) struct Entry<'a> {
    pub(crate) definition: &'a SchemaDef,
    pub(crate) part: &'a Part,
}

impl Model for Tables {
    ghost use Rattle.std.specs.Prelude.{List};
    ghost use Rattle.std.specs.Coded.{coded_list};
    ghost use Rattle.gql_ast.specs.declared.schema.SchemaDef.{SchemaDef};
    ghost use Rattle.gql_ast.specs.contracts.schema.SchemaDef as definition_row;

    ghost Value = { List SchemaDef };

    ghost coded = { coded_list definition_row.the_row.coded };

    ghost use Rattle.schema_tables.specs.Kept.{Agrees};

    ghost view = { λ t. t.definitions };

    ghost invariant = { Agrees };
}

impl Tables {
    /// The tables of definitions.
    pub fn new(alloc: Global, definitions: SchemaDefs) -> Result<Tables, NoMemory>
        ensures { IfOk result (λ tables. tables ≡ definitions) }
    {
        let parts = parts_of(alloc, definitions.as_slice())?;
        let types = places_of_types(alloc, definitions.as_slice())?;
        let directives = places_of_directives(alloc, definitions.as_slice())?;
        let possible = possible_of(alloc, definitions.as_slice(), &types)?;
        let built_in = built_in_directives(alloc)?;
        let built_in_parts = parts_of(alloc, &built_in)?;
        let schema = place_of_schema(definitions.as_slice());
        Ok(Tables {
            definitions,
            parts,
            possible,
            types,
            directives,
            schema,
            built_in,
            built_in_parts,
        })
    }

    /// The definitions in written order.
    pub fn definitions(&self) -> &[SchemaDef]
        ensures { result.now ≡ self.now }
    {
        self.definitions.as_slice()
    }

    /// The definition of a type; takes no memory, as all look-ups.
    pub fn definition(&self, name: &str) -> Option<&SchemaDef>
        ensures { option_copied result ≡ types.type_named self.now name.now }
    {
        let definitions = self.definitions.as_slice();
        match find_type(definitions, &self.types, name) {
            Some(at) => Some(&definitions[at]),
            None => None,
        }
    }

    /// The definition of a type and what is kept of it.
    pub(crate) fn entry(&self, name: &str) -> Option<Entry<'_>>
        ensures found { option_map (λ e. e.definition.now) result ≡ types.type_named self.now name.now }
        ensures kept { IfSome result (λ e. IsPartOf e.definition.now e.part.now) }
    {
        let definitions = self.definitions.as_slice();
        match find_type(definitions, &self.types, name) {
            Some(at) => Some(Entry {
                definition: &definitions[at],
                part: &self.parts[at],
            }),
            None => None,
        }
    }

    /// The kind of a type that is built in or defined.
    pub fn kind_of(&self, name: &str) -> Option<TypeKind>
        ensures { result ≡ types.kind_of self.now name.now }
    {
        if is_built_in_scalar(name) {
            return Some(TypeKind::Scalar);
        }
        match self.definition(name) {
            Some(definition) => kind_of_definition(definition),
            None => None,
        }
    }

    /// The field of a name on an object or an interface.
    pub fn field(&self, of: &str, name: &str) -> Option<FieldDef<'_>>
        ensures { result ≡ option_map types.field_def (types.field_on self.now of.now name.now) }
    {
        match self.entry(of) {
            Some(entry) => field_in(entry.definition, entry.part, name),
            None => None,
        }
    }

    /// The fields of an object or an interface, which are found by their names; of another type
    /// none.
    pub fn fields(&self, of: &str) -> TypeFields<'_>
        ensures { result ≡ types.fields_named (types.type_named self.now of.now) }
    {
        match self.entry(of) {
            Some(entry) => fields_in(entry.definition, entry.part),
            None => TypeFields::none(),
        }
    }

    /// The interfaces that a type says it implements.
    pub fn interfaces(&self, of: &str) -> &[Name]
        ensures { result.now ≡ types.interfaces_named (types.type_named self.now of.now) }
    {
        match self.definition(of) {
            Some(definition) => interfaces_of(definition),
            None => &[],
        }
    }

    /// The input fields of an input object.
    pub fn inputs(&self, of: &str) -> Option<InputDefs<'_>>
        ensures { result ≡ option_map (map types.input_def) (types.inputs_of self.now of.now) }
    {
        match self.entry(of) {
            Some(entry) => inputs_in(entry.definition, entry.part),
            None => None,
        }
    }

    /// The input field of a name on an input object.
    pub fn input(&self, of: &str, name: &str) -> Option<InputDef<'_>>
        ensures { result ≡ option_map types.input_def (option_and_then (λ is. types.input_named is name.now) (types.inputs_of self.now of.now)) }
    {
        match self.inputs(of) {
            Some(inputs) => inputs.find(name),
            None => None,
        }
    }

    /// The names of the values of an enum, distinct and in byte order.
    pub fn enum_names(&self, of: &str) -> Option<&Ids>
        ensures { option_copied result ≡ option_map sorted_texts (types.enum_names self.now of.now) }
    {
        match self.entry(of) {
            Some(entry) => values_in(entry.definition, entry.part),
            None => None,
        }
    }

    /// Whether the type says that it implements the interface.
    pub fn implements(&self, name: &str, interface: &str) -> bool
        ensures { result ≡ types.implements self.now name.now interface.now }
    {
        match self.entry(name) {
            Some(entry) => implements_in(entry.definition, entry.part, interface),
            None => false,
        }
    }

    /// Whether the union holds the type.
    fn holds(&self, union: &str, name: &str) -> bool
        ensures { result ≡ has_text (types.union_members_named (types.type_named self.now union.now)) name.now }
    {
        match self.entry(union) {
            Some(entry) => holds_in(entry.definition, entry.part, name),
            None => false,
        }
    }

    /// Whether the object type is this type, implements this interface, or is held by this union.
    pub fn applies(&self, object: &str, to: &str) -> bool
        ensures { result ≡ types.applies self.now object.now to.now }
    {
        object == to || self.implements(object, to) || self.holds(to, object)
    }

    /// The object types that a composite type may be.
    pub fn possible(&self, of: &str) -> &Ids
        requires { types.is_composite self.now of.now ≡ true }
        ensures { result.now ≡ types.possible self.now of.now }
    {
        match find_type(self.definitions.as_slice(), &self.types, of) {
            Some(at) => &self.possible[at],
            None => unreachable!(),
        }
    }

    /// Whether the type is a scalar or an enum.
    pub fn is_leaf(&self, of: &str) -> bool
        ensures { result ≡ types.is_leaf self.now of.now }
    {
        matches!(self.kind_of(of), Some(TypeKind::Scalar | TypeKind::Enum))
    }

    /// Whether the type is an object, an interface or a union (section 2.8).
    pub fn is_composite(&self, of: &str) -> bool
        ensures { result ≡ types.is_composite self.now of.now }
    {
        matches!(
            self.kind_of(of),
            Some(TypeKind::Object | TypeKind::Interface | TypeKind::Union)
        )
    }

    /// Whether the type has a field `id` of type `ID!` without arguments.
    pub fn has_id(&self, of: &str) -> bool
        ensures { result ≡ types.has_id self.now of.now }
    {
        match self.field(of, "id") {
            Some(field) => is_id_field(&field),
            None => false,
        }
    }

    /// The object type of the operations of a kind (GraphQL, October 2021, section 3.3.1).
    pub fn root(&self, kind: Kind) -> Option<&Name>
        ensures { option_copied result ≡ types.root self.now kind }
    {
        match self.schema {
            Some(at) => self.root_given(at, kind),
            None => self.root_by_name(kind),
        }
    }

    /// The root that the `schema` definition at a place gives.
    fn root_given(&self, at: usize, kind: Kind) -> Option<&Name>
        requires { first_at is_schema self.now ≡ Some at }
        ensures { option_copied result ≡ types.root self.now kind }
    {
        let definitions = &self.definitions;
        match &definitions.items[at] {
            SchemaDef::Schema { roots, .. } => root_in(roots.as_slice(), kind),
            _ => None,
        }
    }

    /// The type that has the name of the root of a kind, where it is defined.
    fn root_by_name(&self, kind: Kind) -> Option<&Name>
        ensures { option_copied result ≡ types.root_from None self.now kind }
    {
        match self.definition(default_root(kind)) {
            Some(definition) => type_name(definition),
            None => None,
        }
    }

    /// A directive of the specification, of this project, or of the schema (GraphQL, October 2021,
    /// section 3.13).
    pub fn directive(&self, name: &str) -> Option<DirectiveDef<'_>>
        ensures { result ≡ known.directive self.now name.now }
    {
        match directive_among(&self.built_in, &self.built_in_parts, name) {
            Some(directive) => Some(directive),
            None => self.directive_given(name),
        }
    }

    /// The first directive of a name that the schema defines.
    fn directive_given(&self, name: &str) -> Option<DirectiveDef<'_>>
        ensures { result ≡ known.directive_named (known.directives_of self.now) name.now }
    {
        let definitions = self.definitions.as_slice();
        match find_directive(definitions, &self.directives, name) {
            Some(at) => directive_in(&definitions[at], &self.parts[at]),
            None => None,
        }
    }
}

/// The first directive of a name.
fn directive_among<'a>(
    definitions: &'a [SchemaDef],
    parts: &'a [Part],
    name: &str,
) -> Option<DirectiveDef<'a>>
    requires { AreParts definitions.now parts.now }
    ensures { result ≡ known.directive_named (known.directives_of definitions.now) name.now }
{
    'definitions: for (at, definition) in definitions.iter().enumerate() {
        if defines_directive(definition, name) {
            return directive_in(definition, &parts[at]);
        }
    }
    None
}

/// Whether a definition defines the directive of a name.
fn defines_directive(definition: &SchemaDef, name: &str) -> bool
    ensures { result ≡ is_directive name.now definition.now }
{
    match definition {
        SchemaDef::Directive { name: defined, .. } => defined.as_str() == name,
        _ => false,
    }
}

/// The root of a kind among those of a `schema` definition.
fn root_in(roots: &[Root], kind: Kind) -> Option<&Name>
    ensures { option_copied result ≡ types.root_in roots.now kind }
{
    'roots: for root in roots {
        if root.kind == kind {
            return Some(&root.name);
        }
    }
    None
}

/// The name of the root of a kind where no `schema` definition is.
fn default_root(kind: Kind) -> &'static str
    ensures { result.now ≡ types.default_root kind }
{
    match kind {
        Kind::Query => "Query",
        Kind::Mutation => "Mutation",
        Kind::Subscription => "Subscription",
    }
}

/// The name of the type that a definition defines, where it defines one.
pub(crate) fn type_name(definition: &SchemaDef) -> Option<&Name>
    ensures { option_copied result ≡ option_map (λ (t : List ℕ × TypeKind). t.0) (types.type_of definition.now) }
{
    match definition {
        SchemaDef::Schema { .. } => None,
        SchemaDef::Scalar { name, .. } => Some(name),
        SchemaDef::Object { name, .. } => Some(name),
        SchemaDef::Interface { name, .. } => Some(name),
        SchemaDef::Union { name, .. } => Some(name),
        SchemaDef::Enum { name, .. } => Some(name),
        SchemaDef::Input { name, .. } => Some(name),
        SchemaDef::Directive { .. } => None,
    }
}

/// Whether a field has the type `ID!` and no arguments.
fn is_id_field(field: &FieldDef<'_>) -> bool
    ensures { result ≡ (types.is_id_type (ty_of field.now.of) && types.is_empty field.now.arguments) }
{
    is_id_type(field.of()) && field.arguments().items().is_empty()
}

/// Whether it is the type `ID!`.
fn is_id_type(of: &TypeTree) -> bool
    ensures { result ≡ types.is_id_type (ty_of of.now) }
{
    match of {
        TypeTree::NonNull(inner) => match inner.tree() {
            TypeTree::Named(name) => name.as_str() == "ID",
            _ => false,
        },
        _ => false,
    }
}

/// The kind of the type that a definition defines, where it defines one.
fn kind_of_definition(definition: &SchemaDef) -> Option<TypeKind>
    ensures { result ≡ option_map (λ (t : List ℕ × TypeKind). t.1) (types.type_of definition.now) }
{
    match definition {
        SchemaDef::Schema { .. } => None,
        SchemaDef::Scalar { .. } => Some(TypeKind::Scalar),
        SchemaDef::Object { .. } => Some(TypeKind::Object),
        SchemaDef::Interface { .. } => Some(TypeKind::Interface),
        SchemaDef::Union { .. } => Some(TypeKind::Union),
        SchemaDef::Enum { .. } => Some(TypeKind::Enum),
        SchemaDef::Input { .. } => Some(TypeKind::Input),
        SchemaDef::Directive { .. } => None,
    }
}
