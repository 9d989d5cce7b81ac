//! The operations of a project, ready to be expanded.
ghost use Rattle.std.specs.Prelude.{◌≡◌, None, map, option_copied, option_map, IfOk, OnOk};
ghost use Rattle.std.specs.Option.{option_or};
ghost use Rattle.plan_ir.specs.gql_graph.Texts.{Text};
ghost use Rattle.doc_sites.specs.SitesView.{definition_of, operation_of, variable_of};
ghost use Rattle.plan_ir.specs.Expansion.{variable_trees};
ghost use Rattle.plan_ir.specs.Projects.{place_in};
ghost use Rattle.plan_expand.specs.Measuring.{values_size};
ghost use Rattle.plan_expand.specs.Sizes.{arguments_size, own_sizes};
ghost use Rattle.plan_expand.specs.OperationsView.{HasOperations, find_operation, ready_operation, operation_in, operation_view, ready_named};
ghost use Rattle.plan_ir.specs.schema_tables.Types as types;
ghost use Rattle.plan_ir.specs.schema_types.NameRules as rules;

use crate::directives::print_own;
use crate::places::site_places;
use crate::size::Size;
use crate::sizes::SizeScope;
use crate::values::size_of_arguments;
use doc_sites::{DefinitionAt, OperationAt, VariableAt};
use plan_ir::{Arguments, Directives, FilePlace, Kind, NoMemory, Schema, Selections, VariableDefs};
use std::alloc::Global;
use std::collections::BTreeMap;

/// An operation, with the places of its selections.
#[derive(Drop)]
pub(crate) struct ReadyOperation<'a> {
    pub(crate) kind: Kind,
    /// The root type of its kind.
    pub(crate) root: Option<&'a str>,
    pub(crate) variables: VariableDefs,
    /// Those that are printed.
    pub(crate) directives: Directives,
    /// That of the values of these directives.
    pub(crate) size: Size,
    pub(crate) selections: &'a Selections,
    /// Those of its selections.
    pub(crate) places: Vec<FilePlace>,
}

/// The operations of a project by their names. Of several of one name the first counts.
#[derive(Drop)]
pub(crate) struct Operations<'a> {
    by_name: BTreeMap<&'a str, ReadyOperation<'a>>,
}

/// The variables of an operation, in order of definition.
fn variables_of(alloc: Global, variables: &[VariableAt<'_>]) -> Result<VariableDefs, NoMemory>
    ensures { IfOk result (λ vs. vs ≡ variable_trees (map variable_of variables.now)) }
{
    let mut copies = VariableDefs::new(alloc);
    'variables: for variable in variables {
        copies.push(variable.defined.copy()?)?;
    }
    Ok(copies)
}

/// The size of the values of arguments without local variables.
fn size_of_own(arguments: &Arguments) -> Result<Size, NoMemory>
    ensures { IfOk result (λ size. size ≡ arguments_size own_sizes arguments.now) }
{
    let scope = SizeScope::Own;
    let size = size_of_arguments(&scope, arguments)?;
    Ok(size)
}

/// The size of the values of directives. There are no local variables in them.
fn size_of_directives(directives: &Directives) -> Result<Size, NoMemory>
    ensures { IfOk result (λ size. size ≡ values_size own_sizes directives.now) }
{
    let mut all = Size::nothing();
    'directives: for directive in directives.as_slice() {
        let one = size_of_own(&directive.arguments)?;
        all = all.beside(one)?;
    }
    Ok(all)
}

/// The root type of a kind (GraphQL, October 2021, section 3.3.1); takes no memory.
fn root_of(schema: &Schema, kind: Kind) -> Option<&str>
    ensures { option_copied result ≡ types.root schema.now kind }
{
    match schema.root(kind) {
        Some(root) => Some(root.as_str()),
        None => None,
    }
}

/// An operation, ready to be expanded.
fn ready_operation<'a>(
    alloc: Global,
    schema: &'a Schema,
    nodes: &[FilePlace],
    operation: &OperationAt<'a>,
) -> Result<ReadyOperation<'a>, NoMemory>
    ensures { IfOk result (λ r. operation_view r ≡ ready_operation schema.now (place_in nodes.now) (operation_of operation.now)) }
{
    let root = root_of(schema, operation.kind);
    let variables = variables_of(alloc, &operation.variables)?;
    let directives = print_own(alloc, &operation.directives)?;
    let size = size_of_directives(&directives)?;
    let places = site_places(alloc, nodes, &operation.sites)?;
    Ok(ReadyOperation {
        kind: operation.kind,
        root,
        variables,
        directives,
        size,
        selections: operation.selections,
        places,
    })
}

impl<'a> Operations<'a> {
    /// No operation; takes no memory.
    fn new(alloc: Global) -> Operations<'a>
        ensures { (n : Text) → find_operation result n ≡ None }
    {
        Operations {
            by_name: BTreeMap::new(alloc),
        }
    }

    /// The operation of a name; takes no memory.
    pub(crate) fn find(&self, name: &str) -> Option<&ReadyOperation<'a>>
        ensures { option_map (λ o. operation_view o.now) result ≡ find_operation self.now name.now }
    {
        self.by_name.get(name)
    }

    /// Puts an operation, unless there is one of its name.
    fn put(&mut self, name: &'a str, operation: ReadyOperation<'a>) -> Result<(), NoMemory>
        ensures { OnOk result ((n : Text) → find_operation self.new n ≡ option_or (find_operation self.old n) (ready_named name.now (operation_view operation.entry) n)) }
    {
        if self.by_name.contains_key(name) {
            return Ok(());
        }
        drop(self.by_name.insert(name, operation)?);
        Ok(())
    }

    /// Puts a definition, where it is an operation that has a name.
    fn put_definition(
        &mut self,
        alloc: Global,
        schema: &'a Schema,
        nodes: &[FilePlace],
        definition: &DefinitionAt<'a>,
    ) -> Result<(), NoMemory>
        ensures { OnOk result ((n : Text) → find_operation self.new n ≡ option_or (find_operation self.old n) (operation_in schema.now (place_in nodes.now) (definition_of definition.now) n)) }
    {
        match definition {
            DefinitionAt::Fragment(_) => Ok(()),
            DefinitionAt::Operation(operation) => match operation.name {
                Some(name) => {
                    let ready = ready_operation(alloc, schema, nodes, operation)?;
                    self.put(name.name, ready)?;
                    Ok(())
                }
                None => Ok(()),
            },
        }
    }

    /// The operations among definitions.
    pub(crate) fn of(
        alloc: Global,
        schema: &'a Schema,
        nodes: &[FilePlace],
        definitions: &[DefinitionAt<'a>],
    ) -> Result<Operations<'a>, NoMemory>
        ensures { IfOk result (λ operations. HasOperations schema.now (place_in nodes.now) (find_operation operations) (rules.operations (map definition_of definitions.now))) }
    {
        let mut operations = Operations::new(alloc);
        'definitions: for definition in definitions {
            operations.put_definition(alloc, schema, nodes, definition)?;
        }
        Ok(operations)
    }
}
