//! The local variables of fragments: the arguments of `@argumentDefinitions`, after Relay. Each is an
//! object with `type`, a string that is a Type, and at most `defaultValue`, each once.
ghost use Rattle.std.specs.Prelude.{◌≡◌, ◌++◌, [], map, option_map, IfOk, OnOk};
ghost use Rattle.gql_syntax.specs.gql_ast.TypeView.{ty_of};
ghost use Rattle.gql_syntax.specs.gql_ast.Value.{members_of};
ghost use Rattle.gql_syntax.specs.gql_ast.ValueView as tree;
ghost use Rattle.constant_values.specs.gql_graph.Rules.{each};
ghost use Rattle.relay_marks.specs.Locals as spec;
ghost use Rattle.relay_marks.specs.TypeTexts.{type_in};
ghost use Rattle.relay_marks.specs.View.{directives_of_all, local_view, object_view};

use gql_syntax::gql_ast::{
    Arguments, Directive, Directives, Fragment, TypeTree, ValueTree, VariableDef, VariableDefs,
};
use gql_syntax::gql_plain::{NoMemory, Words};
use gql_syntax::type_of_text;
use std::alloc::Global;

/// What the object of a local variable says, as far as it was read.
#[derive(Clone, Copy)]
pub(crate) struct LocalObject<'a> {
    /// The text of its type.
    of: Option<&'a str>,
    default: Option<&'a ValueTree>,
}

/// With a type: a string, and the only one.
fn with_type<'a>(object: LocalObject<'a>, value: &'a ValueTree) -> Option<LocalObject<'a>>
    ensures { option_map object_view result ≡ spec.with_type (object_view object.entry) (tree.value_of value.now) }
{
    let ValueTree::Text(text) = value else {
        return None;
    };
    if object.of.is_some() {
        return None;
    }
    Some(LocalObject {
        of: Some(text.as_str()),
        default: object.default,
    })
}

/// With a default: the only one.
fn with_default<'a>(object: LocalObject<'a>, value: &'a ValueTree) -> Option<LocalObject<'a>>
    ensures { option_map object_view result ≡ spec.with_default (object_view object.entry) (tree.value_of value.now) }
{
    if object.default.is_some() {
        return None;
    }
    Some(LocalObject {
        of: object.of,
        default: Some(value),
    })
}

/// With one more member of the object, where it may stand there.
fn with_member<'a>(
    object: LocalObject<'a>,
    name: &str,
    value: &'a ValueTree,
) -> Option<LocalObject<'a>>
    ensures { option_map object_view result ≡ spec.with_member (object_view object.entry) name.now (tree.value_of value.now) }
{
    if name == "type" {
        return with_type(object, value);
    }
    if name == "defaultValue" {
        return with_default(object, value);
    }
    None
}

/// What the members of an object say.
fn object_in(members: &Arguments) -> Option<LocalObject<'_>>
    ensures { option_map object_view result ≡ spec.members_from spec.empty_object (members_of members.now) }
{
    let mut object = LocalObject {
        of: None,
        default: None,
    };
    'members: for member in members.as_slice() {
        object = with_member(object, member.name.as_str(), &member.value)?;
    }
    Some(object)
}

/// What a value says, where it is such an object.
fn object_by(value: &ValueTree) -> Option<LocalObject<'_>>
    ensures { option_map object_view result ≡ spec.object_by (tree.value_of value.now) }
{
    match value {
        ValueTree::Object(members) => object_in(members),
        _ => None,
    }
}

/// The type that a text says. A text of 2^32 - 1 bytes or more has no places; for it there is too
/// little memory.
fn type_in(alloc: Global, text: &str) -> Result<Option<TypeTree>, NoMemory>
    ensures { IfOk result (λ of. option_map ty_of of ≡ type_in text.now) }
{
    if text.len() >= 4_294_967_295 {
        return Err(NoMemory);
    }
    type_of_text(alloc, text)
}

/// A copy of a default, where there is one.
fn copy_of_default(default: Option<&ValueTree>) -> Result<Option<ValueTree>, NoMemory>
    ensures { IfOk result (λ copy. option_map tree.value_of copy ≡ option_map (λ v. tree.value_of v.now) default.entry) }
{
    match default {
        Some(value) => Ok(Some(value.copy()?)),
        None => Ok(None),
    }
}

/// The local variable that an argument of `@argumentDefinitions` with this name and value defines, where
/// it defines one: of this type, this default, and no directives. [`locals`] answers those of a fragment.
///
/// # Errors
///
/// `NoMemory`, also for a type of 2^32 - 1 bytes or more.
pub fn local_of(
    alloc: Global,
    name: &str,
    value: &ValueTree,
) -> Result<Option<VariableDef>, NoMemory>
    ensures read { IfOk result (λ local. option_map local_view local ≡ spec.local_of name.now (tree.value_of value.now)) }
    ensures bare { IfOk result (λ local. directives_of_all (spec.as_list local) ≡ []) }
{
    let Some(object) = object_by(value) else {
        return Ok(None);
    };
    let Some(text) = object.of else {
        return Ok(None);
    };
    let Some(of) = type_in(alloc, text)? else {
        return Ok(None);
    };
    let name = Words::new(alloc, name)?;
    let default = copy_of_default(object.default)?;
    Ok(Some(VariableDef {
        name,
        of,
        default,
        directives: Directives::new(alloc),
    }))
}

/// Puts the local variable that an argument of `@argumentDefinitions` with this name and value defines,
/// where it defines one, as [`local_of`] answers it.
///
/// # Errors
///
/// `NoMemory`, also for a type of 2^32 - 1 bytes or more.
pub fn put_local(
    alloc: Global,
    locals: &mut VariableDefs,
    name: &str,
    value: &ValueTree,
) -> Result<(), NoMemory>
    ensures put { OnOk result (map local_view locals.new ≡ map local_view locals.old ++ spec.as_list (spec.local_of name.now (tree.value_of value.now))) }
    ensures bare { OnOk result (directives_of_all locals.new ≡ directives_of_all locals.old) }
{
    match local_of(alloc, name, value)? {
        Some(local) => locals.push(local),
        None => Ok(()),
    }
}

/// Puts the local variables that arguments say.
fn put_arguments(
    alloc: Global,
    locals: &mut VariableDefs,
    arguments: &Arguments,
) -> Result<(), NoMemory>
    ensures put { OnOk result (map local_view locals.new ≡ map local_view locals.old ++ each spec.local_in_tree arguments.now) }
    ensures bare { OnOk result (directives_of_all locals.new ≡ directives_of_all locals.old) }
{
    'arguments: for argument in arguments.as_slice() {
        put_local(alloc, locals, argument.name.as_str(), &argument.value)?;
    }
    Ok(())
}

/// Puts the local variables that a directive defines.
fn put_directive(
    alloc: Global,
    locals: &mut VariableDefs,
    directive: &Directive,
) -> Result<(), NoMemory>
    ensures put { OnOk result (map local_view locals.new ≡ map local_view locals.old ++ spec.locals_in_tree directive.now) }
    ensures bare { OnOk result (directives_of_all locals.new ≡ directives_of_all locals.old) }
{
    if directive.name.as_str() == "argumentDefinitions" {
        return put_arguments(alloc, locals, &directive.arguments);
    }
    Ok(())
}

/// The local variables of a fragment in written order: the arguments of its `@argumentDefinitions`
/// that are objects of a `type` and at most a `defaultValue`, as V17 asks it of all. Each has this
/// type, this default, and no directives. This profile is this project's own.
///
/// # Errors
///
/// `NoMemory`, also for a type of 2^32 - 1 bytes or more.
pub fn locals(alloc: Global, fragment: &Fragment) -> Result<VariableDefs, NoMemory>
    ensures locals { IfOk result (λ locals. map local_view locals ≡ spec.locals_of_tree fragment.now.directives) }
    ensures bare { IfOk result (λ locals. directives_of_all locals ≡ []) }
{
    let mut locals = VariableDefs::new(alloc);
    'directives: for directive in fragment.directives.as_slice() {
        put_directive(alloc, &mut locals, directive)?;
    }
    Ok(locals)
}
