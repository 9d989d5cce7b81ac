//! The operations of a project, ready to be planned.
ghost use Rattle.std.specs.Prelude.{◌≡◌, None, map, option_map, IfOk, OnOk};
ghost use Rattle.std.specs.Option.{option_or};
ghost use Rattle.plan_ir.specs.gql_graph.Texts.{Text};
ghost use Rattle.plan_expand.specs.doc_sites.SitesView.{definition_of};
ghost use Rattle.plan_read.specs.OperationsView.{HasOperations, find_operation, operation_in, operation_view, ready_named};
ghost use Rattle.plan_ir.specs.schema_types.NameRules as rules;

use plan_expand::DefinitionAt;
use plan_ir::{Kind, NoMemory, Selections};
use std::alloc::Global;
use std::collections::BTreeMap;

/// An operation.
#[derive(Clone, Copy)]
pub(crate) struct ReadyOperation<'a> {
    pub(crate) kind: Kind,
    pub(crate) selections: &'a Selections,
}

/// The operations of a project by their names. Of several of one name the first counts.
#[derive(Drop)]
pub(crate) struct Operations<'a> {
    by_name: BTreeMap<&'a str, ReadyOperation<'a>>,
}

impl<'a> Operations<'a> {
    /// No operation; takes no memory.
    fn new(alloc: Global) -> Operations<'a>
        ensures { (n : Text) → find_operation result n ≡ None }
    {
        Operations {
            by_name: BTreeMap::new(alloc),
        }
    }

    /// The operation of a name; takes no memory.
    pub(crate) fn find(&self, name: &str) -> Option<&ReadyOperation<'a>>
        ensures { option_map (λ o. operation_view o.now) result ≡ find_operation self.now name.now }
    {
        self.by_name.get(name)
    }

    /// Puts an operation, unless there is one of its name.
    fn put(&mut self, name: &'a str, operation: ReadyOperation<'a>) -> Result<(), NoMemory>
        ensures { OnOk result ((n : Text) → find_operation self.new n ≡ option_or (find_operation self.old n) (ready_named name.now (operation_view operation.entry) n)) }
    {
        if self.by_name.contains_key(name) {
            return Ok(());
        }
        let _ = self.by_name.insert(name, operation)?;
        Ok(())
    }

    /// Puts a definition, where it is an operation that has a name.
    fn put_definition(&mut self, definition: &DefinitionAt<'a>) -> Result<(), NoMemory>
        ensures { OnOk result ((n : Text) → find_operation self.new n ≡ option_or (find_operation self.old n) (operation_in (definition_of definition.now) n)) }
    {
        match definition {
            DefinitionAt::Fragment(_) => Ok(()),
            DefinitionAt::Operation(operation) => match operation.name {
                Some(name) => {
                    let ready = ReadyOperation {
                        kind: operation.kind,
                        selections: operation.selections,
                    };
                    self.put(name.name, ready)?;
                    Ok(())
                }
                None => Ok(()),
            },
        }
    }

    /// The operations among definitions.
    pub(crate) fn of(
        alloc: Global,
        definitions: &[DefinitionAt<'a>],
    ) -> Result<Operations<'a>, NoMemory>
        ensures { IfOk result (λ operations. HasOperations (find_operation operations) (rules.operations (map definition_of definitions.now))) }
    {
        let mut operations = Operations::new(alloc);
        'definitions: for definition in definitions {
            operations.put_definition(definition)?;
        }
        Ok(operations)
    }
}
