//! Arguments as they are given to a field or a directive, and what that takes (GraphQL, October
//! 2021, sections 5.4 and 3.13).
ghost use Rattle.std.specs.Prelude.{◌≡◌, map, Some, is_some, option_copied};
ghost use Rattle.doc_uses.specs.schema_types.ArgumentRules as rules;
ghost use Rattle.doc_uses.specs.schema_trees.LocatedView.{name_of};
ghost use Rattle.doc_uses.specs.doc_sites.SitesView.{argument_of, directive_of};
ghost use Rattle.doc_args.specs.CallView.{call_of, field_call, takes_of};

use doc_uses::located::NameAt;
use doc_uses::{ArgumentAt, DirectiveAt, InputDef, InputDefs, Schema};

/// The arguments that a field or a directive takes.
#[derive(Drop)]
pub(crate) enum Takes<'a> {
    /// These.
    Inputs(InputDefs<'a>),
    /// None.
    Nothing,
    /// Any.
    Free,
    /// It is not known which.
    Unknown,
}

/// A field or a directive with its arguments.
#[derive(Drop)]
pub(crate) struct Call<'d, 'a> {
    pub(crate) name: NameAt<'a>,
    pub(crate) takes: Takes<'a>,
    pub(crate) arguments: &'d [ArgumentAt<'a>],
}

/// The argument of a name among those that are taken; takes no memory.
pub(crate) fn find_input<'a>(inputs: &InputDefs<'a>, name: &str) -> Option<InputDef<'a>>
    ensures { result ≡ rules.input_def_named inputs.now name.now }
{
    inputs.find(name)
}

/// Whether an argument of a name is among those that are taken.
pub(crate) fn has_input(inputs: &InputDefs<'_>, name: &str) -> bool
    ensures { result ≡ is_some (rules.input_def_named inputs.now name.now) }
{
    find_input(inputs, name).is_some()
}

/// What a field takes, where the type around it is known and has it.
pub(crate) fn field_takes<'a>(schema: &'a Schema, around: Option<&'a str>, name: &str) -> Takes<'a>
    ensures { takes_of result ≡ rules.field_takes schema.now (option_copied around.entry) name.now }
{
    match around {
        Some(of) => takes_on(schema, of, name),
        None => Takes::Unknown,
    }
}

/// What a field takes on a type that is known.
fn takes_on<'a>(schema: &'a Schema, of: &str, name: &str) -> Takes<'a>
    ensures { takes_of result ≡ rules.field_takes schema.now (Some of.now) name.now }
{
    if name == "__typename" {
        return Takes::Nothing;
    }
    match schema.field(of, name) {
        Some(field) => Takes::Inputs(field.arguments()),
        None => Takes::Unknown,
    }
}

/// Whether a directive takes any argument.
fn is_free(name: &str) -> bool
    ensures { result ≡ rules.is_free name.now }
{
    name == "arguments" || name == "argumentDefinitions"
}

/// What a directive takes.
fn directive_takes<'a>(schema: &'a Schema, name: &str) -> Takes<'a>
    ensures { takes_of result ≡ rules.directive_takes schema.now name.now }
{
    if is_free(name) {
        return Takes::Free;
    }
    match schema.directive(name) {
        Some(directive) => Takes::Inputs(directive.arguments()),
        None => Takes::Unknown,
    }
}

/// A directive with its arguments.
pub(crate) fn directive_call<'d, 'a>(
    schema: &'a Schema,
    directive: &'d DirectiveAt<'a>,
) -> Call<'d, 'a>
    ensures { call_of result ≡ rules.directive_call schema.now (directive_of directive.now) }
{
    Call {
        name: directive.name,
        takes: directive_takes(schema, directive.name.name),
        arguments: &directive.arguments,
    }
}

/// A field with its arguments.
pub(crate) fn field_call<'d, 'a>(
    schema: &'a Schema,
    around: Option<&'a str>,
    name: NameAt<'a>,
    arguments: &'d [ArgumentAt<'a>],
) -> Call<'d, 'a>
    ensures { call_of result ≡ field_call schema.now (option_copied around.entry) (name_of name.entry) (map argument_of arguments.now) }
{
    Call {
        name,
        takes: field_takes(schema, around, name.name),
        arguments,
    }
}
