//! V11, single root field (GraphQL, October 2021, section 5.2.3.1): all that applies to the root of
//! a subscription has one response key, and it is no `__typename`.
//! `subscription S { renamed { name } posted { title } }` breaks it at `S`.
ghost use Rattle.std.specs.Prelude.{◌≡◌, map, option_map, ◌++◌, List, Some, IfOk, OnOk};
ghost use Rattle.doc_sites.specs.gql_ast.declared.document.Kind.TheVariants.{Subscription};
ghost use Rattle.doc_sites.specs.schema_types.FieldRules as rules;
ghost use Rattle.doc_sites.specs.gql_graph.Leasts.{least_from};
ghost use Rattle.doc_sites.specs.schema_trees.LocatedView.{name_of};
ghost use Rattle.doc_sites.specs.gql_graph.Rules.{each};
ghost use Rattle.doc_sites.specs.schema_types.Sites as sites;
ghost use Rattle.doc_sites.specs.gql_graph.Texts.{Text};
ghost use Rattle.doc_sites.specs.schema_tables.Types as types;
ghost use Rattle.doc_sites.specs.SitesView.{definition_of, operation_of};
ghost use Rattle.doc_sites.specs.Definitions.{on_operation};
ghost use Rattle.doc_fields.specs.Heads.{keys_of_name, IsOf};
ghost use Rattle.doc_fields.specs.Keys.{keys_view, sum_of, AreReached};

use crate::keys::{RootKeys, keys_in};
use crate::spreads::{RootFragments, put_spreads, root_fragments};
use doc_sites::least::Least;
use doc_sites::located::NameAt;
use doc_sites::{DefinitionAt, Kind, NoMemory, OperationAt, Schema, Selections};
use std::alloc::Global;

/// V11: a subscription has one response key at its root, also in the fragments that apply to the root
/// type, whatever the directives say; the field is not `__typename` (GraphQL, October 2021, section
/// 5.2.3.1).
pub(crate) fn subscriptions_wrong(
    alloc: Global,
    schema: &Schema,
    least: &mut Least,
    definitions: &[DefinitionAt<'_>],
) -> Result<(), NoMemory>
    ensures { OnOk result (least.new.at ≡ least_from least.old.at (rules.subscriptions_wrong schema.now (map definition_of definitions.now))) }
{
    match schema.root(Kind::Subscription) {
        Some(root) => note_subscriptions(alloc, schema, root.as_str(), least, definitions),
        None => Ok(()),
    }
}

/// The subscriptions that have not one root field.
fn note_subscriptions(
    alloc: Global,
    schema: &Schema,
    root: &str,
    least: &mut Least,
    definitions: &[DefinitionAt<'_>],
) -> Result<(), NoMemory>
    requires { types.root schema.now Subscription ≡ Some root.now }
    ensures { OnOk result (least.new.at ≡ least_from least.old.at (rules.subscriptions_wrong schema.now (map definition_of definitions.now))) }
{
    let found = root_fragments(alloc, schema, root, definitions)?;
    'definitions: for definition in definitions {
        note_subscription_at(alloc, schema, root, &found, least, definition)?;
    }
    Ok(())
}

/// A definition, where it is a subscription that has not one root field.
fn note_subscription_at<'a>(
    alloc: Global,
    schema: &Schema,
    root: &str,
    found: &RootFragments<'a>,
    least: &mut Least,
    definition: &DefinitionAt<'a>,
) -> Result<(), NoMemory>
    requires { types.root schema.now Subscription ≡ Some root.now }
    ensures { (fs : List sites.FragmentAt) → IsOf schema.now root.now fs found.now
        → OnOk result (least.new.at ≡ least_from least.old.at (on_operation (rules.subscription_wrong schema.now fs) (definition_of definition.now))) }
{
    match definition {
        DefinitionAt::Operation(operation) => {
            note_subscription(alloc, schema, root, found, least, operation)
        }
        DefinitionAt::Fragment(_) => Ok(()),
    }
}

/// An operation, where it is a subscription that has not one root field.
fn note_subscription<'a>(
    alloc: Global,
    schema: &Schema,
    root: &str,
    found: &RootFragments<'a>,
    least: &mut Least,
    operation: &OperationAt<'a>,
) -> Result<(), NoMemory>
    requires { types.root schema.now Subscription ≡ Some root.now }
    ensures { (fs : List sites.FragmentAt) → IsOf schema.now root.now fs found.now
        → OnOk result (least.new.at ≡ least_from least.old.at (rules.subscription_wrong schema.now fs (operation_of operation.now))) }
{
    match operation.kind {
        Kind::Query => Ok(()),
        Kind::Mutation => Ok(()),
        Kind::Subscription => note_keys(
            alloc,
            schema,
            root,
            found,
            least,
            &operation.name,
            operation.selections,
        ),
    }
}

/// A subscription with these selections, where they have not one root field. One without a name is
/// not looked at.
fn note_keys<'a>(
    alloc: Global,
    schema: &Schema,
    root: &str,
    found: &RootFragments<'a>,
    least: &mut Least,
    name: &Option<NameAt<'_>>,
    selections: &'a Selections,
) -> Result<(), NoMemory>
    ensures { (fs : List sites.FragmentAt) → IsOf schema.now root.now fs found.now
        → OnOk result (least.new.at ≡ least_from least.old.at (rules.many_keys schema.now fs selections.now (Some root.now) (option_map name_of name.now))) }
{
    match name {
        Some(name) => {
            let is_one = has_one_key(alloc, schema, root, found, selections)?;
            least.note_if(!is_one, name.at);
            Ok(())
        }
        None => Ok(()),
    }
}

/// Whether a subscription has one root field.
fn has_one_key<'a>(
    alloc: Global,
    schema: &Schema,
    root: &str,
    found: &RootFragments<'a>,
    selections: &'a Selections,
) -> Result<bool, NoMemory>
    ensures { (fs : List sites.FragmentAt) → IsOf schema.now root.now fs found.now
        → IfOk result (λ b. b ≡ rules.is_one_key (rules.root_keys schema.now fs root.now selections.now)) }
{
    let keys = keys_in(schema, root, selections);
    let spreads = spreads_in(alloc, schema, root, selections)?;
    let more = keys_reached(alloc, found, &spreads)?;
    Ok(keys.and(&more).is_one())
}

/// The fragments that are spread at the root.
fn spreads_in<'a>(
    alloc: Global,
    schema: &Schema,
    root: &str,
    selections: &'a Selections,
) -> Result<Vec<&'a str>, NoMemory>
    ensures { IfOk result (λ ns. map (λ n. n.now) ns.items ≡ rules.spreads_at_root schema.now root.now selections.now) }
{
    let mut spreads = Vec::new(alloc);
    put_spreads(schema, root, &mut spreads, selections)?;
    Ok(spreads)
}

/// The keys of these fragments and of those that they lead to at the root. Where one of them leads
/// back to itself, all are searched.
fn keys_reached<'a>(
    alloc: Global,
    found: &RootFragments<'a>,
    starts: &[&'a str],
) -> Result<RootKeys<'a>, NoMemory>
    ensures { (defs : types.Defs) (root : Text) (fs : List sites.FragmentAt) → IsOf defs root fs found.now
        → IfOk result (λ keys. (ns : List Text) × AreReached defs fs root (map (λ n. n.now) starts.now) ns
        × (keys_view keys ≡ sum_of (each (keys_of_name defs root fs) ns))) }
{
    match found.below.find_all(starts) {
        Some(keys) => Ok(keys),
        None => {
            let names = found.spreads.names_reached(alloc, found.count, starts)?;
            Ok(found.heads.keys_of_each(&names))
        }
    }
}
