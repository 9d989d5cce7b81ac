//! The definitions of a schema with the numbers of the nodes of their names. The nodes of a tree are
//! numbered in text order, from 0, as its places are; the schema itself is the first one.
ghost use Rattle.std.specs.Prelude.{◌≡◌, ◌+◌, map, IfOk, OnOk};
ghost use Rattle.schema_tables.specs.gql_ast.TypeView.{ty_of};
ghost use Rattle.schema_tables.specs.gql_ast.Value.{members_of, vals_of};
ghost use Rattle.schema_tables.specs.gql_ast.ValueView.{value_of};
ghost use Rattle.schema_tables.specs.gql_ast.declared.schema.SchemaDef.TheVariants as S;
ghost use Rattle.schema_trees.specs.Located.{locate, default_nodes, def_at, def_nodes, defs_at, directives_nodes, enum_values_at, enum_values_nodes, field_at, field_nodes, fields_at, fields_nodes, input_at, input_nodes, inputs_at, inputs_nodes, members_nodes, name_at, names_at, names_nodes, roots_at, roots_nodes, type_at, type_nodes, value_nodes, values_nodes};
ghost use Rattle.schema_trees.specs.LocatedView.{name_of, type_of, input_of, field_of, root_of, def_of};

use schema_tables::gql_ast::document::Kind;
use schema_tables::gql_ast::{
    Arguments, Directives, EnumValues, FieldTree, FieldTrees, InputTree, InputTrees, Names, Roots,
    SchemaDef, TypeTree, ValueTree, ValueTrees,
};
use schema_tables::gql_plain::{Name, NoMemory};
use std::alloc::Global;

/// A name and the number of its node.
#[derive(Clone, Copy)]
pub struct NameAt<'a> {
    pub name: &'a str,
    pub at: usize,
}

/// A type and the number of the node of its name.
#[derive(Clone, Copy)]
pub struct TypeAt<'a> {
    pub of: &'a TypeTree,
    pub at: usize,
}

/// An argument or an input field.
#[derive(Clone, Copy)]
pub struct InputAt<'a> {
    pub name: NameAt<'a>,
    pub of: TypeAt<'a>,
    pub default: &'a Option<ValueTree>,
}

/// A field of an object or an interface.
#[derive(Drop)]
pub struct FieldAt<'a> {
    pub name: NameAt<'a>,
    pub arguments: Vec<InputAt<'a>>,
    pub of: TypeAt<'a>,
}

/// A kind of operations and the name of its type.
#[derive(Clone, Copy)]
pub struct RootAt<'a> {
    pub kind: Kind,
    pub name: NameAt<'a>,
}

/// A definition. Of one of the schema itself it has the number of its own node.
#[derive(Drop)]
pub enum DefAt<'a> {
    Schema {
        at: usize,
        roots: Vec<RootAt<'a>>,
    },
    Scalar {
        name: NameAt<'a>,
    },
    Object {
        name: NameAt<'a>,
        interfaces: Vec<NameAt<'a>>,
        fields: Vec<FieldAt<'a>>,
    },
    Interface {
        name: NameAt<'a>,
        interfaces: Vec<NameAt<'a>>,
        fields: Vec<FieldAt<'a>>,
    },
    Union {
        name: NameAt<'a>,
        members: Vec<NameAt<'a>>,
    },
    Enum {
        name: NameAt<'a>,
        values: Vec<NameAt<'a>>,
    },
    Input {
        name: NameAt<'a>,
        fields: Vec<InputAt<'a>>,
    },
    Directive {
        name: NameAt<'a>,
        arguments: Vec<InputAt<'a>>,
    },
}

/// Goes past so many nodes. A number that does not fit is answered as out of memory.
pub fn pass(at: &mut usize, nodes: usize) -> Result<(), NoMemory>
    ensures { OnOk result (at.new ≡ at.old + nodes) }
{
    match at.checked_add(nodes) {
        Some(next) => {
            *at = next;
            Ok(())
        }
        None => Err(NoMemory),
    }
}

/// Goes past a value.
#[cycle(pass)]
pub fn pass_value(at: &mut usize, value: &ValueTree) -> Result<(), NoMemory>
    ensures { OnOk result (at.new ≡ at.old + value_nodes (value_of value.now)) }
{
    match value {
        ValueTree::Variable(_) => pass(at, 2),
        ValueTree::Int(_) => pass(at, 1),
        ValueTree::Text(_) => pass(at, 1),
        ValueTree::Bool(_) => pass(at, 1),
        ValueTree::Null => pass(at, 1),
        ValueTree::Enum(_) => pass(at, 2),
        ValueTree::List(values) => {
            pass(at, 1)?;
            pass_values(at, values)
        }
        ValueTree::Object(members) => {
            pass(at, 1)?;
            pass_members(at, members)
        }
    }
}

/// Goes past the values of a list.
#[cycle(pass)]
fn pass_values(at: &mut usize, values: &ValueTrees) -> Result<(), NoMemory>
    ensures { OnOk result (at.new ≡ at.old + values_nodes (vals_of values.now)) }
{
    'items: for value in values.as_slice() {
        pass_value(at, value)?;
    }
    Ok(())
}

/// Goes past arguments, or the fields of an object.
#[cycle(pass)]
fn pass_members(at: &mut usize, members: &Arguments) -> Result<(), NoMemory>
    ensures { OnOk result (at.new ≡ at.old + members_nodes (members_of members.now)) }
{
    'members: for member in members.as_slice() {
        pass(at, 2)?;
        pass_value(at, &member.value)?;
    }
    Ok(())
}

/// Goes past a default value, where there is one.
fn pass_default(at: &mut usize, default: &Option<ValueTree>) -> Result<(), NoMemory>
    ensures { OnOk result (at.new ≡ at.old + default_nodes default.now) }
{
    match default {
        Some(value) => pass_value(at, value),
        None => Ok(()),
    }
}

/// Goes past directives that are applied.
fn pass_directives(at: &mut usize, directives: &Directives) -> Result<(), NoMemory>
    ensures { OnOk result (at.new ≡ at.old + directives_nodes directives.now) }
{
    'directives: for directive in directives.as_slice() {
        pass(at, 2)?;
        pass_members(at, &directive.arguments)?;
    }
    Ok(())
}

/// Goes past a type.
pub fn pass_type(at: &mut usize, of: &TypeTree) -> Result<(), NoMemory>
    ensures { OnOk result (at.new ≡ at.old + type_nodes (ty_of of.now)) }
{
    match of {
        TypeTree::Named(_) => pass(at, 2),
        TypeTree::List(inner) => {
            pass(at, 1)?;
            pass_type(at, inner.tree())
        }
        TypeTree::NonNull(inner) => {
            pass(at, 1)?;
            pass_type(at, inner.tree())
        }
    }
}

/// The name of a definition, a field, an input or an enum value whose node comes next, and goes past
/// both nodes.
pub fn name_at<'a>(at: &mut usize, name: &'a Name) -> Result<NameAt<'a>, NoMemory>
    ensures named { IfOk result (λ n. name_of n ≡ name_at at.old name.now) }
    ensures passed { OnOk result (at.new ≡ at.old + 2) }
{
    pass(at, 1)?;
    let node = *at;
    pass(at, 1)?;
    Ok(NameAt {
        name: name.as_str(),
        at: node,
    })
}

/// A type whose node comes next. Its name is its last node.
fn type_at<'a>(at: &mut usize, of: &'a TypeTree) -> Result<TypeAt<'a>, NoMemory>
    ensures typed { IfOk result (λ t. type_of t ≡ type_at at.old (ty_of of.now)) }
    ensures passed { OnOk result (at.new ≡ at.old + type_nodes (ty_of of.now)) }
{
    pass_type(at, of)?;
    Ok(TypeAt { of, at: *at - 1 })
}

/// Names that are nodes themselves.
fn names_at<'a>(
    alloc: Global,
    at: &mut usize,
    names: &'a Names,
) -> Result<Vec<NameAt<'a>>, NoMemory>
    ensures named { IfOk result (λ ns. map name_of ns.items ≡ names_at at.old names.now) }
    ensures passed { OnOk result (at.new ≡ at.old + names_nodes names.now) }
{
    let mut located = Vec::new(alloc);
    'names: for name in names.as_slice() {
        located.push(NameAt {
            name: name.as_str(),
            at: *at,
        })?;
        pass(at, 1)?;
    }
    Ok(located)
}

/// The roots of the schema.
fn roots_at<'a>(
    alloc: Global,
    at: &mut usize,
    roots: &'a Roots,
) -> Result<Vec<RootAt<'a>>, NoMemory>
    ensures named { IfOk result (λ rs. map root_of rs.items ≡ roots_at at.old roots.now) }
    ensures passed { OnOk result (at.new ≡ at.old + roots_nodes roots.now) }
{
    let mut located = Vec::new(alloc);
    'roots: for root in roots.as_slice() {
        let name = name_at(at, &root.name)?;
        located.push(RootAt {
            kind: root.kind,
            name,
        })?;
    }
    Ok(located)
}

/// The names of an enum.
fn enum_values_at<'a>(
    alloc: Global,
    at: &mut usize,
    values: &'a EnumValues,
) -> Result<Vec<NameAt<'a>>, NoMemory>
    ensures named { IfOk result (λ ns. map name_of ns.items ≡ enum_values_at at.old values.now) }
    ensures passed { OnOk result (at.new ≡ at.old + enum_values_nodes values.now) }
{
    let mut located = Vec::new(alloc);
    'values: for value in values.as_slice() {
        located.push(name_at(at, &value.name)?)?;
        pass_directives(at, &value.directives)?;
    }
    Ok(located)
}

/// An argument or an input field.
fn input_at<'a>(at: &mut usize, input: &'a InputTree) -> Result<InputAt<'a>, NoMemory>
    ensures named { IfOk result (λ i. input_of i ≡ input_at at.old input.now) }
    ensures passed { OnOk result (at.new ≡ at.old + input_nodes input.now) }
{
    let name = name_at(at, &input.name)?;
    let of = type_at(at, &input.of)?;
    pass_default(at, &input.default)?;
    pass_directives(at, &input.directives)?;
    Ok(InputAt {
        name,
        of,
        default: &input.default,
    })
}

/// Arguments or input fields.
fn inputs_at<'a>(
    alloc: Global,
    at: &mut usize,
    inputs: &'a InputTrees,
) -> Result<Vec<InputAt<'a>>, NoMemory>
    ensures named { IfOk result (λ is. map input_of is.items ≡ inputs_at at.old inputs.now) }
    ensures passed { OnOk result (at.new ≡ at.old + inputs_nodes inputs.now) }
{
    let mut located = Vec::new(alloc);
    'inputs: for input in inputs.as_slice() {
        located.push(input_at(at, input)?)?;
    }
    Ok(located)
}

/// A field of an object or an interface.
fn field_at<'a>(
    alloc: Global,
    at: &mut usize,
    field: &'a FieldTree,
) -> Result<FieldAt<'a>, NoMemory>
    ensures named { IfOk result (λ f. field_of f ≡ field_at at.old field.now) }
    ensures passed { OnOk result (at.new ≡ at.old + field_nodes field.now) }
{
    let name = name_at(at, &field.name)?;
    let arguments = inputs_at(alloc, at, &field.arguments)?;
    let of = type_at(at, &field.of)?;
    pass_directives(at, &field.directives)?;
    Ok(FieldAt {
        name,
        arguments,
        of,
    })
}

/// The fields of an object or an interface.
fn fields_at<'a>(
    alloc: Global,
    at: &mut usize,
    fields: &'a FieldTrees,
) -> Result<Vec<FieldAt<'a>>, NoMemory>
    ensures named { IfOk result (λ fs. map field_of fs.items ≡ fields_at at.old fields.now) }
    ensures passed { OnOk result (at.new ≡ at.old + fields_nodes fields.now) }
{
    let mut located = Vec::new(alloc);
    'fields: for field in fields.as_slice() {
        located.push(field_at(alloc, at, field)?)?;
    }
    Ok(located)
}

/// A definition of the schema itself.
fn schema_at<'a>(
    alloc: Global,
    at: &mut usize,
    directives: &Directives,
    roots: &'a Roots,
) -> Result<DefAt<'a>, NoMemory>
    ensures named { IfOk result (λ d. def_of d ≡ def_at at.old (S.Schema directives.now roots.now)) }
    ensures passed { OnOk result (at.new ≡ at.old + def_nodes (S.Schema directives.now roots.now)) }
{
    let first = *at;
    pass(at, 1)?;
    pass_directives(at, directives)?;
    let roots = roots_at(alloc, at, roots)?;
    Ok(DefAt::Schema { at: first, roots })
}

/// A scalar.
fn scalar_at<'a>(
    at: &mut usize,
    name: &'a Name,
    directives: &Directives,
) -> Result<DefAt<'a>, NoMemory>
    ensures named { IfOk result (λ d. def_of d ≡ def_at at.old (S.Scalar name.now directives.now)) }
    ensures passed { OnOk result (at.new ≡ at.old + def_nodes (S.Scalar name.now directives.now)) }
{
    let name = name_at(at, name)?;
    pass_directives(at, directives)?;
    Ok(DefAt::Scalar { name })
}

/// An object.
fn object_at<'a>(
    alloc: Global,
    at: &mut usize,
    name: &'a Name,
    implements: &'a Names,
    directives: &Directives,
    fields: &'a FieldTrees,
) -> Result<DefAt<'a>, NoMemory>
    ensures named { IfOk result (λ d. def_of d ≡ def_at at.old (S.Object name.now implements.now directives.now fields.now)) }
    ensures passed { OnOk result (at.new ≡ at.old + def_nodes (S.Object name.now implements.now directives.now fields.now)) }
{
    let name = name_at(at, name)?;
    let interfaces = names_at(alloc, at, implements)?;
    pass_directives(at, directives)?;
    let fields = fields_at(alloc, at, fields)?;
    Ok(DefAt::Object {
        name,
        interfaces,
        fields,
    })
}

/// An interface.
fn interface_at<'a>(
    alloc: Global,
    at: &mut usize,
    name: &'a Name,
    implements: &'a Names,
    directives: &Directives,
    fields: &'a FieldTrees,
) -> Result<DefAt<'a>, NoMemory>
    ensures named { IfOk result (λ d. def_of d ≡ def_at at.old (S.Interface name.now implements.now directives.now fields.now)) }
    ensures passed { OnOk result (at.new ≡ at.old + def_nodes (S.Interface name.now implements.now directives.now fields.now)) }
{
    let name = name_at(at, name)?;
    let interfaces = names_at(alloc, at, implements)?;
    pass_directives(at, directives)?;
    let fields = fields_at(alloc, at, fields)?;
    Ok(DefAt::Interface {
        name,
        interfaces,
        fields,
    })
}

/// A union.
fn union_at<'a>(
    alloc: Global,
    at: &mut usize,
    name: &'a Name,
    directives: &Directives,
    members: &'a Names,
) -> Result<DefAt<'a>, NoMemory>
    ensures named { IfOk result (λ d. def_of d ≡ def_at at.old (S.Union name.now directives.now members.now)) }
    ensures passed { OnOk result (at.new ≡ at.old + def_nodes (S.Union name.now directives.now members.now)) }
{
    let name = name_at(at, name)?;
    pass_directives(at, directives)?;
    let members = names_at(alloc, at, members)?;
    Ok(DefAt::Union { name, members })
}

/// An enum.
fn enum_at<'a>(
    alloc: Global,
    at: &mut usize,
    name: &'a Name,
    directives: &Directives,
    values: &'a EnumValues,
) -> Result<DefAt<'a>, NoMemory>
    ensures named { IfOk result (λ d. def_of d ≡ def_at at.old (S.Enum name.now directives.now values.now)) }
    ensures passed { OnOk result (at.new ≡ at.old + def_nodes (S.Enum name.now directives.now values.now)) }
{
    let name = name_at(at, name)?;
    pass_directives(at, directives)?;
    let values = enum_values_at(alloc, at, values)?;
    Ok(DefAt::Enum { name, values })
}

/// An input object.
fn input_object_at<'a>(
    alloc: Global,
    at: &mut usize,
    name: &'a Name,
    directives: &Directives,
    fields: &'a InputTrees,
) -> Result<DefAt<'a>, NoMemory>
    ensures named { IfOk result (λ d. def_of d ≡ def_at at.old (S.Input name.now directives.now fields.now)) }
    ensures passed { OnOk result (at.new ≡ at.old + def_nodes (S.Input name.now directives.now fields.now)) }
{
    let name = name_at(at, name)?;
    pass_directives(at, directives)?;
    let fields = inputs_at(alloc, at, fields)?;
    Ok(DefAt::Input { name, fields })
}

/// A definition whose node comes next.
fn def_at<'a>(
    alloc: Global,
    at: &mut usize,
    definition: &'a SchemaDef,
) -> Result<DefAt<'a>, NoMemory>
    ensures named { IfOk result (λ d. def_of d ≡ def_at at.old definition.now) }
    ensures passed { OnOk result (at.new ≡ at.old + def_nodes definition.now) }
{
    match definition {
        SchemaDef::Schema { directives, roots } => schema_at(alloc, at, directives, roots),
        SchemaDef::Scalar { name, directives } => scalar_at(at, name, directives),
        SchemaDef::Object {
            name,
            implements,
            directives,
            fields,
        } => object_at(alloc, at, name, implements, directives, fields),
        SchemaDef::Interface {
            name,
            implements,
            directives,
            fields,
        } => interface_at(alloc, at, name, implements, directives, fields),
        SchemaDef::Union {
            name,
            directives,
            members,
        } => union_at(alloc, at, name, directives, members),
        SchemaDef::Enum {
            name,
            directives,
            values,
        } => enum_at(alloc, at, name, directives, values),
        SchemaDef::Input {
            name,
            directives,
            fields,
        } => input_object_at(alloc, at, name, directives, fields),
        SchemaDef::Directive {
            name,
            arguments,
            ..
        } => {
            let name = name_at(at, name)?;
            let arguments = inputs_at(alloc, at, arguments)?;
            Ok(DefAt::Directive { name, arguments })
        }
    }
}

/// The definitions of a schema with the numbers of the nodes of their names, in text order.
pub fn locate<'a>(alloc: Global, schema: &'a [SchemaDef]) -> Result<Vec<DefAt<'a>>, NoMemory>
    ensures { IfOk result (λ ds. map def_of ds.items ≡ locate schema.now) }
{
    let mut at = 1;
    let mut definitions = Vec::new(alloc);
    'definitions: for definition in schema {
        definitions.push(def_at(alloc, &mut at, definition)?)?;
    }
    Ok(definitions)
}
