//! The operations and the fragments of a project, by their names.
ghost use Rattle.std.specs.Prelude.{◌≡◌, Some, None, cond, bytes_eq, IfOk, OnOk};
ghost use Rattle.std.specs.BTreeMap.{get_by_text};
ghost use Rattle.plan_ir.specs.gql_graph.Texts.{Text};
ghost use Rattle.plan_project.specs.Filling.{AreFragments, AreOperations, IsFragmentOf, IsOperationOf, Takes, first_of, fragment_under, operation_under, or_else};
ghost use Rattle.plan_project.specs.Lookups.{HasFragments, HasOperations};
ghost use Rattle.plan_project.specs.Planning.{CanPlan};
ghost use Rattle.plan_project.specs.Projects.{IsAcceptedProject};

use crate::operations::{Compiled, CompiledFragment, compile_fragment, compile_operation};
use crate::planner::Planner;
use plan_ir::{Definition, Documents, NoMemory, Schema};
use std::alloc::Global;
use std::collections::BTreeMap;

/// The operations and the fragments of a project, by their names.
#[derive(Drop)]
pub(crate) struct Tables {
    pub(crate) operations: BTreeMap<String, Compiled>,
    pub(crate) fragments: BTreeMap<String, CompiledFragment>,
}

/// The tables of a schema and documents that were checked together.
pub(crate) fn tables_of(
    alloc: Global,
    schema: &Schema,
    documents: &Documents,
) -> Result<Tables, NoMemory>
    requires { IsAcceptedProject schema.now documents.now }
    ensures operations { IfOk result (λ tables. HasOperations schema.now documents.now (get_by_text tables.operations)) }
    ensures fragments { IfOk result (λ tables. HasFragments schema.now documents.now (get_by_text tables.fragments)) }
{
    let planner = Planner::of(alloc, schema, documents)?;
    let operations = operations_of(alloc, &planner)?;
    let fragments = fragments_of(alloc, &planner)?;
    Ok(Tables {
        operations,
        fragments,
    })
}

/// The operations of a project, of each name the first.
fn operations_of(
    alloc: Global,
    planner: &Planner<'_>,
) -> Result<BTreeMap<String, Compiled>, NoMemory>
    requires { CanPlan planner.now }
    ensures { IfOk result (λ map. HasOperations planner.now.expander.schema.now planner.now.expander.documents.now (get_by_text map)) }
{
    let mut operations = BTreeMap::new(alloc);
    'documents: for document in planner.expander.documents.as_slice() {
        put_operations(
            alloc,
            planner,
            &mut operations,
            document.tree.definitions.as_slice(),
        )?;
    }
    Ok(operations)
}

/// Puts the operations among definitions, each unless there is one of its name.
fn put_operations(
    alloc: Global,
    planner: &Planner<'_>,
    operations: &mut BTreeMap<String, Compiled>,
    definitions: &[Definition],
) -> Result<(), NoMemory>
    requires ready { CanPlan planner.now }
    requires there { AreOperations planner.now.expander.schema.now planner.now.expander.documents.now (λ n. first_of (operation_under n) definitions.now) }
    ensures { OnOk result (Takes (IsOperationOf planner.now.expander.schema.now planner.now.expander.documents.now)
        (λ n. first_of (operation_under n) definitions.now) (get_by_text operations.old) (get_by_text operations.new)) }
{
    'definitions: for definition in definitions {
        put_operation(alloc, planner, operations, definition)?;
    }
    Ok(())
}

/// Puts a definition, where it is an operation that has a name, unless there is one of its name.
fn put_operation(
    alloc: Global,
    planner: &Planner<'_>,
    operations: &mut BTreeMap<String, Compiled>,
    definition: &Definition,
) -> Result<(), NoMemory>
    requires ready { CanPlan planner.now }
    requires there { AreOperations planner.now.expander.schema.now planner.now.expander.documents.now (λ n. operation_under n definition.now) }
    ensures { OnOk result (Takes (IsOperationOf planner.now.expander.schema.now planner.now.expander.documents.now)
        (λ n. operation_under n definition.now) (get_by_text operations.old) (get_by_text operations.new)) }
{
    match definition {
        Definition::Fragment(_) => Ok(()),
        Definition::Operation(operation) => match &operation.name {
            Some(name) => {
                let compiled = compile_operation(alloc, planner, name)?;
                put_new(alloc, operations, name.as_str(), compiled)?;
                Ok(())
            }
            None => Ok(()),
        },
    }
}

/// The fragments of a project, of each name the first.
fn fragments_of(
    alloc: Global,
    planner: &Planner<'_>,
) -> Result<BTreeMap<String, CompiledFragment>, NoMemory>
    requires { CanPlan planner.now }
    ensures { IfOk result (λ map. HasFragments planner.now.expander.schema.now planner.now.expander.documents.now (get_by_text map)) }
{
    let mut fragments = BTreeMap::new(alloc);
    'documents: for document in planner.expander.documents.as_slice() {
        put_fragments(
            alloc,
            planner,
            &mut fragments,
            document.tree.definitions.as_slice(),
        )?;
    }
    Ok(fragments)
}

/// Puts the fragments among definitions, each unless there is one of its name.
fn put_fragments(
    alloc: Global,
    planner: &Planner<'_>,
    fragments: &mut BTreeMap<String, CompiledFragment>,
    definitions: &[Definition],
) -> Result<(), NoMemory>
    requires ready { CanPlan planner.now }
    requires there { AreFragments planner.now.expander.schema.now planner.now.expander.documents.now (λ n. first_of (fragment_under n) definitions.now) }
    ensures { OnOk result (Takes (IsFragmentOf planner.now.expander.schema.now planner.now.expander.documents.now)
        (λ n. first_of (fragment_under n) definitions.now) (get_by_text fragments.old) (get_by_text fragments.new)) }
{
    'definitions: for definition in definitions {
        put_fragment(alloc, planner, fragments, definition)?;
    }
    Ok(())
}

/// Puts a definition, where it is a fragment, unless there is one of its name.
fn put_fragment(
    alloc: Global,
    planner: &Planner<'_>,
    fragments: &mut BTreeMap<String, CompiledFragment>,
    definition: &Definition,
) -> Result<(), NoMemory>
    requires ready { CanPlan planner.now }
    requires there { AreFragments planner.now.expander.schema.now planner.now.expander.documents.now (λ n. fragment_under n definition.now) }
    ensures { OnOk result (Takes (IsFragmentOf planner.now.expander.schema.now planner.now.expander.documents.now)
        (λ n. fragment_under n definition.now) (get_by_text fragments.old) (get_by_text fragments.new)) }
{
    match definition {
        Definition::Operation(_) => Ok(()),
        Definition::Fragment(fragment) => {
            let compiled = compile_fragment(alloc, planner, fragment)?;
            put_new(alloc, fragments, fragment.name.as_str(), compiled)?;
            Ok(())
        }
    }
}

/// Puts a value under a name, unless there is one.
fn put_new<V: Drop>(
    alloc: Global,
    map: &mut BTreeMap<String, V>,
    name: &str,
    value: V,
) -> Result<(), NoMemory>
    ensures { OnOk result ((n : Text) → get_by_text map.new n
        ≡ or_else (get_by_text map.old n) (cond (bytes_eq name.now n) (Some value) None)) }
{
    if !map.contains_key(name) {
        drop(map.insert(String::from_str(alloc, name)?, value)?);
    }
    Ok(())
}
