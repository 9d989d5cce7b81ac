//! The environments in which fragments are read.
ghost use Rattle.std.specs.Prelude.{◌≡◌, ◌++◌, codes, map, None, IfErr, IfOk, OnOk};
ghost use Rattle.plan_ir.specs.gql_plain.Shown.{shown_members};
ghost use Rattle.plan_ir.specs.relay_marks.View.{local_view};
ghost use Rattle.line_engine.specs.Marked.{marked};
ghost use Rattle.relay_machine.specs.Machine as machine;
ghost use Rattle.relay_machine.specs.relay_model.Readings.{with_marked};
ghost use Rattle.plan_ir.specs.schema_types.Environments.{environment};
ghost use Rattle.schema_values.specs.Failures.{Tells};
ghost use Rattle.plan_ir.specs.constant_values.Listed as listed;

use plan_ir::{Env, Name, NoMemory, Pairs, Plain, Schema, VariableDefs, Words};
use schema_values::{VarFault, variables};
use std::alloc::Global;
use std::collections::BTreeMap;

/// The values of a fragment's local variables: each has the value that is given, else its default, else
/// null. A given name that is no local variable is passed over.
///
/// # Errors
///
/// `Missing` or `Unfit` of the first local variable in written order that has no value, or one that
/// does not fit its type; `NoMemory`.
pub(crate) fn scope_given(
    alloc: Global,
    schema: &Schema,
    root: &Name,
    locals: &VariableDefs,
    given: &Pairs,
) -> Result<Env, VarFault>
    ensures sound { OnOk result (machine.first_local_failure schema.now (map local_view locals.now) given.now ≡ None) }
    ensures values { IfOk result (λ scope. scope.values ≡ machine.scope_given (map local_view locals.now) given.now) }
    ensures environment { IfOk result (λ scope. scope.values ≡ environment locals.now given.now) }
    ensures fault { IfErr result (Tells (machine.first_local_failure schema.now (map local_view locals.now) given.now)) }
{
    variables(alloc, schema, root, locals, given)
}

/// The environment of an operation, with the values of a fragment's local variables beside it under
/// marked names.
pub(crate) fn with_locals(alloc: Global, env: &Env, scope: &Pairs) -> Result<Env, NoMemory>
    ensures root { IfOk result (λ marked. marked.root ≡ env.now.root) }
    ensures values { IfOk result (λ marked. marked.values ≡ with_marked env.now.values scope.now) }
{
    Ok(Env {
        root: env.root.copy()?,
        values: with_marked(alloc, &env.values, scope)?,
    })
}

/// The pairs with those of a scope beside them under marked names.
fn with_marked(alloc: Global, own: &Pairs, scope: &Pairs) -> Result<Pairs, NoMemory>
    ensures { IfOk result (λ pairs. pairs ≡ with_marked own.now scope.now) }
{
    let mut pairs = marked_pairs(alloc, scope)?;
    push_copies(&mut pairs, &own.entries)?;
    first_of_each(alloc, pairs)
}

/// The pairs under marked names, in the same order.
fn marked_pairs(alloc: Global, pairs: &Pairs) -> Result<Vec<(Words, Plain)>, NoMemory>
    ensures { IfOk result (λ copies. shown_members copies.items ≡ map marked pairs.now) }
{
    let mut copies = Vec::new(alloc);
    'pairs: for (name, value) in &pairs.entries {
        let name = marked_name(alloc, name)?;
        copies.push((name, value.copy()?))?;
    }
    Ok(copies)
}

/// The name with a colon before it, which no name in a document has.
fn marked_name(alloc: Global, name: &Words) -> Result<Words, NoMemory>
    ensures { IfOk result (λ marked. marked ≡ codes ":" ++ name.now) }
{
    let name = name.as_str();
    Ok(Words::from_string(format!(in alloc; ":{name}")?))
}

/// Puts copies of pairs to the end.
fn push_copies(copies: &mut Vec<(Words, Plain)>, pairs: &[(Words, Plain)]) -> Result<(), NoMemory>
    ensures { OnOk result (shown_members copies.new.items ≡ shown_members copies.old.items ++ shown_members pairs.now) }
{
    'pairs: for (name, value) in pairs {
        let name = name.copy()?;
        copies.push((name, value.copy()?))?;
    }
    Ok(())
}

/// The pairs in the order of their names, of each name the first one.
fn first_of_each(alloc: Global, mut pairs: Vec<(Words, Plain)>) -> Result<Pairs, NoMemory>
    ensures { IfOk result (λ sorted. sorted ≡ listed.first_of_each (shown_members pairs.items)) }
{
    let mut sorted = BTreeMap::new(alloc);
    'pairs: while let Some((name, value)) = pairs.pop() {
        drop(sorted.insert(name, value)?);
    }
    pairs_of(alloc, sorted)
}

/// The entries of a map.
fn pairs_of(alloc: Global, sorted: BTreeMap<Words, Plain>) -> Result<Pairs, NoMemory>
    ensures { IfOk result (λ pairs. pairs ≡ shown_members sorted.entries) }
{
    let mut entries = Vec::new(alloc);
    'entries: for entry in sorted {
        entries.push(entry)?;
    }
    Ok(Pairs { entries })
}
