//! The operations and fragments of a project, ready to be expanded.
ghost use Rattle.std.specs.Prelude.{◌≡◌, true, is_some, option_copied, IfOk, OnOk};
ghost use Rattle.doc_sites.specs.Definitions.{AreIn};
ghost use Rattle.plan_ir.specs.Expansion.{name_or};
ghost use Rattle.plan_ir.specs.declared.form.Form.TheVariants as form_of;
ghost use Rattle.plan_expand.specs.Adding.{IsRight};
ghost use Rattle.plan_expand.specs.Answers.{IsAnswer, whole_in};
ghost use Rattle.plan_expand.specs.OperationsView.{operation_view};
ghost use Rattle.plan_expand.specs.Preparing.{IsReady, IsOperation, IsFragment, extent_made, fragment_with, nodes_made, operation_with};
ghost use Rattle.plan_expand.specs.ReadyView.{ready_of};
ghost use Rattle.plan_expand.specs.ScopeView.{scope_of};
ghost use Rattle.plan_expand.specs.Verdicts.{IsOutcome};

use crate::additions::{Adding, base_on};
use crate::check::check_extent;
use crate::fault::ExpandFault;
use crate::fragments::{Fragments, ReadyFragment};
use crate::making::{Walk, make_set};
use crate::operations::{Operations, ReadyOperation};
use crate::places::places_of;
use crate::scope::Scope;
use crate::size::Size;
use doc_sites::around::below;
use doc_sites::{DefinitionAt, DirectiveAt, Site, count_fragments};
use plan_ir::{
    Directives, Documents, Expanded, FilePlace, Form, Name, NoMemory, Nodes, Schema, Selections,
    VariableDefs, Words,
};
use std::alloc::Global;

/// What stands ready to expand the operations and fragments of a project. It is made once a
/// project; one expansion then costs what it makes.
#[derive(Drop)]
pub struct Expander<'a> {
    /// The schema of the project.
    pub schema: &'a Schema,
    /// The documents of the project.
    pub documents: &'a Documents,
    adding: Adding<'a>,
    fragments: Fragments<'a>,
    operations: Operations<'a>,
    /// How many fragments there are: a chain of spreads has no more.
    spreads: usize,
}

/// Whether there is a `@connection`; takes no memory.
fn is_connection(directives: &[DirectiveAt<'_>]) -> bool {
    'directives: for directive in directives {
        if directive.name.name == "connection" {
            return true;
        }
    }
    false
}

/// Keeps the type of the nodes of a connection of that type.
fn put_node_type<'a>(alloc: Global, adding: &mut Adding<'a>, of: &str) -> Result<(), NoMemory>
    requires { IsRight adding.old }
    ensures right { OnOk result (IsRight adding.new) }
    ensures schema { adding.new.schema.now ≡ adding.old.schema.now }
{
    let schema = adding.schema;
    let edge = base_on(schema, of, "edges");
    adding.put(alloc, base_on(schema, edge, "node"))?;
    Ok(())
}

/// Keeps the type of a field, and for a connection that of its nodes.
fn put_type<'a>(
    alloc: Global,
    adding: &mut Adding<'a>,
    of: &'a str,
    directives: &[DirectiveAt<'a>],
) -> Result<(), NoMemory>
    requires { IsRight adding.old }
    ensures right { OnOk result (IsRight adding.new) }
    ensures schema { adding.new.schema.now ≡ adding.old.schema.now }
{
    adding.put(alloc, of)?;
    if is_connection(directives) {
        put_node_type(alloc, adding, of)?;
        return Ok(());
    }
    Ok(())
}

/// Keeps the type of a selection, where it is a field of a known type.
fn put_type_of<'a>(alloc: Global, adding: &mut Adding<'a>, site: &Site<'a>) -> Result<(), NoMemory>
    requires { IsRight adding.old }
    ensures right { OnOk result (IsRight adding.new) }
    ensures schema { adding.new.schema.now ≡ adding.old.schema.now }
{
    match site {
        Site::Field {
            around,
            name,
            directives,
            ..
        } => match below(adding.schema, *around, name.name) {
            Some(of) => put_type(alloc, adding, of, directives),
            None => Ok(()),
        },
        Site::Spread { .. } => Ok(()),
        Site::Inline { .. } => Ok(()),
    }
}

/// Keeps the types of fields.
fn put_types<'a>(alloc: Global, adding: &mut Adding<'a>, sites: &[Site<'a>]) -> Result<(), NoMemory>
    requires { IsRight adding.old }
    ensures right { OnOk result (IsRight adding.new) }
    ensures schema { adding.new.schema.now ≡ adding.old.schema.now }
{
    'sites: for site in sites {
        put_type_of(alloc, adding, site)?;
    }
    Ok(())
}

/// The abstract types of the fields of definitions, kept.
fn adding_of<'a>(
    alloc: Global,
    schema: &'a Schema,
    definitions: &[DefinitionAt<'a>],
) -> Result<Adding<'a>, NoMemory>
    ensures right { IfOk result IsRight }
    ensures schema { IfOk result (λ adding. adding.schema.now ≡ schema.now) }
{
    let mut adding = Adding::new(alloc, schema);
    'definitions: for definition in definitions {
        put_types(alloc, &mut adding, definition.sites())?;
    }
    Ok(adding)
}

/// The name of a root type; none is the empty name. Takes no memory.
fn name_of_root<'a>(root: Option<&'a str>) -> &'a str
    ensures { result.now ≡ name_or (option_copied root.entry) }
{
    match root {
        Some(name) => name,
        None => "",
    }
}

/// An operation of that name, with these nodes.
fn expanded_operation(
    alloc: Global,
    name: &Name,
    ready: &ReadyOperation<'_>,
    selections: Nodes,
) -> Result<Expanded, NoMemory>
    ensures { IfOk result (λ expanded. expanded ≡ operation_with name.now (operation_view ready.now) selections) }
{
    let root = Words::new(alloc, name_of_root(ready.root))?;
    Ok(Expanded {
        kind: Some(ready.kind),
        name: name.copy()?,
        root,
        variables: ready.variables.copy()?,
        directives: ready.directives.copy()?,
        selections,
    })
}

/// A fragment of that name on that type, with these nodes.
fn expanded_fragment(
    alloc: Global,
    name: &Name,
    on: &str,
    selections: Nodes,
) -> Result<Expanded, NoMemory>
    ensures { IfOk result (λ expanded. expanded ≡ fragment_with name.now on.now selections) }
{
    let root = Words::new(alloc, on)?;
    Ok(Expanded {
        kind: None,
        name: name.copy()?,
        root,
        variables: VariableDefs::new(alloc),
        directives: Directives::new(alloc),
        selections,
    })
}

impl<'a> Expander<'a> {
    /// What stands ready for the operations and fragments of the documents, whose definitions are
    /// listed already.
    pub fn new(
        alloc: Global,
        schema: &'a Schema,
        documents: &'a Documents,
        definitions: &[DefinitionAt<'a>],
    ) -> Result<Expander<'a>, NoMemory>
        requires { AreIn schema.now documents.now definitions.now }
        ensures ready { IfOk result IsReady }
        ensures schema { IfOk result (λ expander. expander.schema.now ≡ schema.now) }
        ensures documents { IfOk result (λ expander. expander.documents.now ≡ documents.now) }
    {
        let nodes = places_of(alloc, documents)?;
        let adding = adding_of(alloc, schema, definitions)?;
        let fragments = Fragments::of(alloc, &nodes, definitions)?;
        let operations = Operations::of(alloc, schema, &nodes, definitions)?;
        let spreads = count_fragments(alloc, definitions)?;
        Ok(Expander {
            schema,
            documents,
            adding,
            fragments,
            operations,
            spreads,
        })
    }

    /// Whether there is an operation or a fragment of that name; takes no memory.
    pub fn has(&self, name: &Name, form: Form) -> bool
        requires { IsReady self.now }
        ensures { result ≡ is_some (whole_in self.now.schema.now self.now.documents.now form name.now) }
    {
        match form {
            Form::Operation => self.operations.find(name.as_str()).is_some(),
            Form::Fragment => self.fragments.find(name.as_str()).is_some(),
        }
    }

    /// The operation or fragment of that name, with all spreads followed.
    ///
    /// # Errors
    ///
    /// `TooManyNodes` if and only if it has more than 100,000 nodes (E1). `TooDeep` if and only if
    /// it has no more, and its selection sets or its values nest deeper than 60 (E2). `NoMemory`.
    pub fn expand(&self, alloc: Global, name: &Name, form: Form) -> Result<Expanded, ExpandFault>
        requires ready { IsReady self.now }
        requires there { is_some (whole_in self.now.schema.now self.now.documents.now form name.now) ≡ true }
        ensures { IsAnswer (whole_in self.now.schema.now self.now.documents.now form name.now) result }
    {
        match form {
            Form::Operation => self.expand_operation(alloc, name),
            Form::Fragment => self.expand_fragment(alloc, name),
        }
    }

    /// The nodes of a set, all spreads followed, unless they are too many together with values of
    /// that size, or nest too deep.
    fn make(
        &self,
        alloc: Global,
        scope: &Scope<'_, 'a>,
        places: &[FilePlace],
        around: Option<&'a str>,
        selections: &'a Selections,
        values: Size,
    ) -> Result<Nodes, ExpandFault>
        requires { IsRight self.now.adding }
        ensures { IsOutcome (extent_made self.now values (option_copied around.entry) selections.now)
            (λ nodes. nodes ≡ nodes_made self.now (scope_of scope.now) places.now (option_copied around.entry) selections.now) result }
    {
        let checked = check_extent(
            alloc,
            &self.adding,
            &self.fragments,
            values,
            around,
            selections,
            self.spreads,
        );
        match checked {
            Ok(()) => match self.make_nodes(alloc, scope, places, around, selections) {
                Ok(nodes) => Ok(nodes),
                Err(NoMemory) => Err(ExpandFault::NoMemory),
            },
            Err(fault) => Err(fault),
        }
    }

    /// The nodes of a set that nests no deeper than 60, all spreads followed.
    fn make_nodes(
        &self,
        alloc: Global,
        scope: &Scope<'_, 'a>,
        places: &[FilePlace],
        around: Option<&'a str>,
        selections: &'a Selections,
    ) -> Result<Nodes, NoMemory>
        requires { IsRight self.now.adding }
        ensures { IfOk result (λ nodes. nodes ≡ nodes_made self.now (scope_of scope.now) places.now (option_copied around.entry) selections.now) }
    {
        let walk = Walk {
            adding: &self.adding,
            fragments: &self.fragments,
            scope,
            places,
            spreads: self.spreads,
        };
        let mut at = 0;
        let nodes = make_set(alloc, walk, &mut at, around, selections)?;
        Ok(nodes)
    }

    /// The operation of that name, with all spreads followed.
    fn expand_operation(&self, alloc: Global, name: &Name) -> Result<Expanded, ExpandFault>
        requires ready { IsReady self.now }
        requires there { is_some (whole_in self.now.schema.now self.now.documents.now form_of.Operation name.now) ≡ true }
        ensures { IsAnswer (whole_in self.now.schema.now self.now.documents.now form_of.Operation name.now) result }
    {
        match self.operations.find(name.as_str()) {
            Some(ready) => self.expand_ready(alloc, name, ready),
            None => unreachable!(),
        }
    }

    /// An operation that stands ready, with all spreads followed.
    fn expand_ready(
        &self,
        alloc: Global,
        name: &Name,
        ready: &ReadyOperation<'a>,
    ) -> Result<Expanded, ExpandFault>
        requires { IsRight self.now.adding }
        ensures { IsOperation self.now name.now (operation_view ready.now) result }
    {
        let around = ready.root;
        let scope = Scope::Operation;
        let own = ready.size;
        let made = self.make(alloc, &scope, &ready.places, around, ready.selections, own);
        match made {
            Ok(selections) => match expanded_operation(alloc, name, ready, selections) {
                Ok(expanded) => Ok(expanded),
                Err(NoMemory) => Err(ExpandFault::NoMemory),
            },
            Err(fault) => Err(fault),
        }
    }

    /// The fragment of that name, with all spreads followed.
    fn expand_fragment(&self, alloc: Global, name: &Name) -> Result<Expanded, ExpandFault>
        requires ready { IsReady self.now }
        requires there { is_some (whole_in self.now.schema.now self.now.documents.now form_of.Fragment name.now) ≡ true }
        ensures { IsAnswer (whole_in self.now.schema.now self.now.documents.now form_of.Fragment name.now) result }
    {
        match self.fragments.find(name.as_str()) {
            Some(ready) => self.expand_alone(alloc, name, ready),
            None => unreachable!(),
        }
    }

    /// A fragment that stands ready, with all spreads followed. Its own local variables stay.
    fn expand_alone(
        &self,
        alloc: Global,
        name: &Name,
        ready: &ReadyFragment<'a>,
    ) -> Result<Expanded, ExpandFault>
        requires { IsRight self.now.adding }
        ensures { IsFragment self.now name.now (ready_of ready.now) result }
    {
        let around = Some(ready.on);
        let scope = Scope::Own(&ready.locals);
        let own = Size::nothing();
        let made = self.make(alloc, &scope, &ready.places, around, ready.selections, own);
        match made {
            Ok(selections) => match expanded_fragment(alloc, name, ready.on, selections) {
                Ok(expanded) => Ok(expanded),
                Err(NoMemory) => Err(ExpandFault::NoMemory),
            },
            Err(fault) => Err(fault),
        }
    }
}
