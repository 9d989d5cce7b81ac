//! V17, local variables, after Relay: each argument of `@argumentDefinitions` is an object with `type`,
//! a string that is a Type of inputs, and at most `defaultValue`, a constant that fits.
//! `@argumentDefinitions(size: { type: "[Int" })` breaks it at `size`.
ghost use Rattle.std.specs.Prelude.{◌≡◌, map, option_map, IfOk, OnOk};
ghost use Rattle.gql_syntax.specs.gql_ast.TypeView.{ty_of};
ghost use Rattle.gql_syntax.specs.gql_ast.ValueView.{value_of};
ghost use Rattle.constant_values.specs.schema_types.ArgumentRules as arguments;
ghost use Rattle.constant_values.specs.gql_graph.Leasts.{least_from};
ghost use Rattle.constant_values.specs.gql_graph.Rules.{each};
ghost use Rattle.doc_uses.specs.doc_sites.SitesView.{argument_of, definition_of, directive_of};
ghost use Rattle.relay_marks.specs.Locals as spec;
ghost use Rattle.relay_rules.specs.RelayRules as rules;
ghost use Rattle.relay_marks.specs.View.{local_view};

use constant_values::least::Least;
use constant_values::type_forms::base_of;
use constant_values::{Schema, TypeKind, is_constant};
use doc_uses::{ArgumentAt, DefinitionAt, DirectiveAt};
use gql_syntax::gql_ast::{TypeTree, ValueTree, VariableDef};
use gql_syntax::gql_plain::NoMemory;
use relay_marks::local_of;
use std::alloc::Global;

/// V17: each argument of `@argumentDefinitions` says a local variable of an input type, whose default
/// is a constant that fits.
pub(crate) fn locals_wrong(
    alloc: Global,
    schema: &Schema,
    least: &mut Least,
    definitions: &[DefinitionAt<'_>],
) -> Result<(), NoMemory>
    ensures { OnOk result (least.new.at ≡ least_from least.old.at (rules.locals_wrong schema.now (map definition_of definitions.now))) }
{
    'definitions: for definition in definitions {
        note_definition(alloc, schema, least, definition)?;
    }
    Ok(())
}

/// What is wrong in a definition.
fn note_definition(
    alloc: Global,
    schema: &Schema,
    least: &mut Least,
    definition: &DefinitionAt<'_>,
) -> Result<(), NoMemory>
    ensures { OnOk result (least.new.at ≡ least_from least.old.at (each (rules.locals_wrong_in schema.now) (rules.directives_of_fragment (definition_of definition.now)))) }
{
    match definition {
        DefinitionAt::Operation(_) => Ok(()),
        DefinitionAt::Fragment(fragment) => {
            note_directives(alloc, schema, least, &fragment.directives)
        }
    }
}

/// What is wrong in the directives of a fragment.
fn note_directives(
    alloc: Global,
    schema: &Schema,
    least: &mut Least,
    directives: &[DirectiveAt<'_>],
) -> Result<(), NoMemory>
    ensures { OnOk result (least.new.at ≡ least_from least.old.at (each (rules.locals_wrong_in schema.now) (map directive_of directives.now))) }
{
    'directives: for directive in directives {
        note_directive(alloc, schema, least, directive)?;
    }
    Ok(())
}

/// What is wrong in a directive.
fn note_directive(
    alloc: Global,
    schema: &Schema,
    least: &mut Least,
    directive: &DirectiveAt<'_>,
) -> Result<(), NoMemory>
    ensures { OnOk result (least.new.at ≡ least_from least.old.at (rules.locals_wrong_in schema.now (directive_of directive.now))) }
{
    if directive.name.name == "argumentDefinitions" {
        return note_arguments(alloc, schema, least, &directive.arguments);
    }
    Ok(())
}

/// Arguments that say no good local variable.
fn note_arguments(
    alloc: Global,
    schema: &Schema,
    least: &mut Least,
    arguments: &[ArgumentAt<'_>],
) -> Result<(), NoMemory>
    ensures { OnOk result (least.new.at ≡ least_from least.old.at (each (rules.local_wrong schema.now) (map argument_of arguments.now))) }
{
    'arguments: for argument in arguments {
        let is_good = defines_good_local(alloc, schema, argument)?;
        least.note_if(!is_good, argument.name.at);
    }
    Ok(())
}

/// Whether an argument says a good local variable.
fn defines_good_local(
    alloc: Global,
    schema: &Schema,
    argument: &ArgumentAt<'_>,
) -> Result<bool, NoMemory>
    ensures { IfOk result (λ b. b ≡ rules.is_good_local schema.now (spec.local_of (argument_of argument.now).name.name (argument_of argument.now).value.of)) }
{
    let local = local_of(alloc, argument.name.name, argument.value.of)?;
    let is_good = is_good_local(alloc, schema, &local)?;
    Ok(is_good)
}

/// Whether there is a local variable of an input type, whose default fits.
fn is_good_local(
    alloc: Global,
    schema: &Schema,
    local: &Option<VariableDef>,
) -> Result<bool, NoMemory>
    ensures { IfOk result (λ b. b ≡ rules.is_good_local schema.now (option_map local_view local.now)) }
{
    match local {
        Some(local) => {
            let is_input = is_input_type(schema, &local.of);
            let fits = default_fits(alloc, schema, &local.of, &local.default)?;
            Ok(is_input && fits)
        }
        None => Ok(false),
    }
}

/// Whether a type names a scalar, an enum or an input object (GraphQL, October 2021, section 3.4.2).
fn is_input_type(schema: &Schema, of: &TypeTree) -> bool
    ensures { result ≡ arguments.is_input_type schema.now (ty_of of.now) }
{
    matches!(
        schema.kind_of(base_of(of)),
        Some(TypeKind::Scalar | TypeKind::Enum | TypeKind::Input)
    )
}

/// Whether a default is a constant that fits, where there is one.
fn default_fits(
    alloc: Global,
    schema: &Schema,
    of: &TypeTree,
    default: &Option<ValueTree>,
) -> Result<bool, NoMemory>
    ensures { IfOk result (λ b. b ≡ rules.default_fits schema.now (ty_of of.now) (option_map value_of default.now)) }
{
    match default {
        Some(value) => {
            let is_constant = is_constant(value);
            let fits = schema.literal_fits(alloc, value, of)?;
            Ok(is_constant && fits)
        }
        None => Ok(true),
    }
}
