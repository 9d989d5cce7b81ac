//! The artifacts of an accepted project that stands ready to be expanded: lines and texts.
ghost use Rattle.std.specs.Prelude.{◌≡◌, [], false, get_or, length, option_map, IfOk};
ghost use Rattle.plan_read.specs.doc_sites.SitesView.{definition_of};
ghost use Rattle.plan_read.specs.plan_expand.Answers.{whole_in, whole_is};
ghost use Rattle.plan_read.specs.plan_expand.Preparing.{IsReady};
ghost use Rattle.plan_ir.specs.Expansion.{Whole};
ghost use Rattle.plan_ir.specs.Sizes.{has_too_many_nodes, is_too_deep};
ghost use Rattle.plan_ir.specs.declared.form.Form.TheVariants as form;
ghost use Rattle.plan_project.specs.Expansions.{IsWithinLimits, fragment_lines, line_lists, lines_at, list_of, operation_lines, text_named};

use crate::project::Project;
use plan_ir::located::NameAt;
use plan_ir::{Expanded, Kind, Name, NoMemory, Words};
use plan_read::{DefinitionAt, ExpandFault, Expander, Form, FragmentAt, definitions_at};
use plan_text::{Artifact, artifact_line, operation_text};
use std::alloc::Global;
use std::marker::Model;

/// An accepted project that stands ready to be expanded. Contracts see it as what the schema says,
/// and the documents.
#[derive(Drop)]
pub(crate) struct ReadyProject<'p> {
    expander: Expander<'p>,
    definitions: Vec<DefinitionAt<'p>>,
}

impl<'p> Model for ReadyProject<'p> {
    ghost use Rattle.std.specs.Prelude.{◌≡◌, List, None};
    ghost use Rattle.std.specs.Coded.{coded×, coded_list};
    ghost use Rattle.plan_read.specs.doc_sites.Definitions.{AreIn};
    ghost use Rattle.plan_ir.specs.gql_ast.contracts.document.Document as document_row;
    ghost use Rattle.plan_ir.specs.gql_ast.contracts.place.Placed as placed_row;
    ghost use Rattle.plan_ir.specs.gql_ast.contracts.schema.SchemaDef as definition_row;
    ghost use Rattle.plan_ir.specs.gql_ast.declared.document.Document.{Document};
    ghost use Rattle.plan_ir.specs.gql_ast.declared.place.Placed.{Placed};
    ghost use Rattle.plan_ir.specs.gql_graph.Rules.{first_broken};
    ghost use Rattle.plan_read.specs.plan_expand.Preparing.{IsReady};
    ghost use Rattle.plan_project.specs.Expansions.{size_rules};
    ghost use Rattle.plan_ir.specs.schema_tables.Types.{Defs};

    ghost Value = { Defs × List (Placed Document) };

    ghost coded = { coded× (coded_list definition_row.the_row.coded) (coded_list (placed_row.the_row document_row.the_row).coded) };

    ghost view = { λ a. (a.expander.schema.now, a.expander.documents.now) };

    ghost invariant = { λ a. IsReady a.expander × AreIn a.expander.schema.now a.expander.documents.now a.definitions.items
        × (first_broken (size_rules a.expander.schema.now a.expander.documents.now) ≡ None) };
}

impl<'p> ReadyProject<'p> {
    /// A project, ready to be expanded.
    pub(crate) fn of(alloc: Global, project: &'p Project) -> Result<ReadyProject<'p>, NoMemory>
        ensures { IfOk result (λ ready. ready ≡ project.now) }
    {
        let schema = &project.schema;
        let documents = &project.documents;
        let definitions = definitions_at(alloc, schema, documents)?;
        let expander = Expander::new(alloc, schema, documents, &definitions)?;
        Ok(ReadyProject {
            expander,
            definitions,
        })
    }

    /// The number of definitions.
    pub(crate) fn len(&self) -> usize
        ensures { result ≡ length (line_lists self.now.0 self.now.1) }
    {
        self.definitions.len()
    }

    /// The line of a definition by its number.
    pub(crate) fn line(&self, alloc: Global, n: usize) -> Result<Option<Words>, NoMemory>
        ensures { IfOk result (λ line. list_of line ≡ get_or (line_lists self.now.0 self.now.1) n []) }
    {
        if n >= self.definitions.len() {
            return Ok(None);
        }
        definition_line(alloc, &self.expander, &self.definitions[n])
    }

    /// The text of the operation of a name.
    pub(crate) fn text(&self, alloc: Global, name: &Name) -> Result<Option<Words>, NoMemory>
        ensures { IfOk result (λ text. text ≡ text_named self.now.0 self.now.1 name.now) }
    {
        operation_text_of(alloc, &self.expander, name)
    }
}

/// The operation of a name, expanded; `None` where there is no operation of that name.
pub(crate) fn expanded_operation(
    alloc: Global,
    expander: &Expander<'_>,
    name: &Name,
) -> Result<Option<Expanded>, NoMemory>
    requires ready { IsReady expander.now }
    requires few { whole_is has_too_many_nodes (whole_in expander.now.schema.now expander.now.documents.now form.Operation name.now) ≡ false }
    requires flat { whole_is is_too_deep (whole_in expander.now.schema.now expander.now.documents.now form.Operation name.now) ≡ false }
    ensures { IfOk result (λ expanded. expanded ≡ option_map (λ (w : Whole). w.expanded) (whole_in expander.now.schema.now expander.now.documents.now form.Operation name.now)) }
{
    if !expander.has(name, Form::Operation) {
        return Ok(None);
    }
    match expander.expand(alloc, name, Form::Operation) {
        Ok(expanded) => Ok(Some(expanded)),
        Err(ExpandFault::TooManyNodes) => unreachable!(),
        Err(ExpandFault::TooDeep) => unreachable!(),
        Err(ExpandFault::NoMemory) => Err(NoMemory),
    }
}

/// The text of the operation of a name.
fn operation_text_of(
    alloc: Global,
    expander: &Expander<'_>,
    name: &Name,
) -> Result<Option<Words>, NoMemory>
    requires ready { IsReady expander.now }
    requires few { whole_is has_too_many_nodes (whole_in expander.now.schema.now expander.now.documents.now form.Operation name.now) ≡ false }
    requires flat { whole_is is_too_deep (whole_in expander.now.schema.now expander.now.documents.now form.Operation name.now) ≡ false }
    ensures { IfOk result (λ text. text ≡ text_named expander.now.schema.now expander.now.documents.now name.now) }
{
    match expanded_operation(alloc, expander, name)? {
        Some(expanded) => {
            let text = operation_text(alloc, &expanded)?;
            Ok(Some(text))
        }
        None => Ok(None),
    }
}

/// The line of a definition; none of an operation without a name.
fn definition_line(
    alloc: Global,
    expander: &Expander<'_>,
    definition: &DefinitionAt<'_>,
) -> Result<Option<Words>, NoMemory>
    requires ready { IsReady expander.now }
    requires within { IsWithinLimits expander.now.schema.now expander.now.documents.now (definition_of definition.now) }
    ensures { IfOk result (λ line. list_of line ≡ lines_at expander.now.schema.now expander.now.documents.now (definition_of definition.now)) }
{
    match definition {
        DefinitionAt::Operation(operation) => match &operation.name {
            Some(name) => operation_line(alloc, expander, operation.kind, name),
            None => Ok(None),
        },
        DefinitionAt::Fragment(fragment) => fragment_line(alloc, fragment),
    }
}

/// The line of the operation of a name.
fn operation_line(
    alloc: Global,
    expander: &Expander<'_>,
    kind: Kind,
    name: &NameAt<'_>,
) -> Result<Option<Words>, NoMemory>
    requires ready { IsReady expander.now }
    requires few { whole_is has_too_many_nodes (whole_in expander.now.schema.now expander.now.documents.now form.Operation name.now.name.now) ≡ false }
    requires flat { whole_is is_too_deep (whole_in expander.now.schema.now expander.now.documents.now form.Operation name.now.name.now) ≡ false }
    ensures { IfOk result (λ line. list_of line ≡ operation_lines kind (whole_in expander.now.schema.now expander.now.documents.now form.Operation name.now.name.now)) }
{
    let own = Name::new(alloc, name.name)?;
    match expanded_operation(alloc, expander, &own)? {
        Some(expanded) => {
            let text = operation_text(alloc, &expanded)?;
            let artifact = Artifact::Operation {
                kind,
                name: expanded.name,
                text,
            };
            let line = artifact_line(alloc, &artifact)?;
            Ok(Some(line))
        }
        None => Ok(None),
    }
}

/// The line of a fragment.
fn fragment_line(alloc: Global, fragment: &FragmentAt<'_>) -> Result<Option<Words>, NoMemory>
    ensures { IfOk result (λ line. list_of line ≡ fragment_lines fragment.now.name.name.now fragment.now.on.name.now) }
{
    let artifact = Artifact::Fragment {
        name: Name::new(alloc, fragment.name.name)?,
        on: Name::new(alloc, fragment.on.name)?,
    };
    let line = artifact_line(alloc, &artifact)?;
    Ok(Some(line))
}
