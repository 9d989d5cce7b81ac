//! Accepted projects.
ghost use Rattle.std.specs.Prelude.{◌≡◌, option_copied, IfOk};
ghost use Rattle.plan_project.specs.Lookups.{Agree, KeepsFragment, KeepsOperation, Normalizes, ReadsFragment, ReadsOperation, fragment_in, operation_in};
ghost use Rattle.plan_project.specs.Projects.{IsAcceptedProject};

use crate::listing::tables_of;
use crate::operations::{Compiled, CompiledFragment};
use plan_ir::{Documents, NoMemory, Schema};
use std::alloc::Global;
use std::collections::BTreeMap;
use std::marker::Model;

/// An accepted project: what its schema says, and its documents as they were checked, in the order of
/// the files. No look-up takes memory.
#[derive(Drop)]
pub struct Project {
    pub(crate) schema: Schema,
    pub(crate) documents: Documents,
    operations: BTreeMap<String, Compiled>,
    fragments: BTreeMap<String, CompiledFragment>,
}

impl Model for Project {
    ghost use Rattle.std.specs.Prelude.{List};
    ghost use Rattle.std.specs.BTreeMap.{get_by_text};
    ghost use Rattle.std.specs.Coded.{coded×, coded_list};
    ghost use Rattle.plan_ir.specs.gql_ast.contracts.document.Document as document_row;
    ghost use Rattle.plan_ir.specs.gql_ast.contracts.place.Placed as placed_row;
    ghost use Rattle.plan_ir.specs.gql_ast.contracts.schema.SchemaDef as definition_row;
    ghost use Rattle.plan_ir.specs.gql_ast.declared.document.Document.{Document};
    ghost use Rattle.plan_ir.specs.gql_ast.declared.place.Placed.{Placed};
    ghost use Rattle.plan_project.specs.Lookups.{HasFragments, HasOperations};
    ghost use Rattle.plan_project.specs.Projects.{IsAcceptedProject};
    ghost use Rattle.plan_ir.specs.schema_tables.Types.{Defs};

    ghost Value = { Defs × List (Placed Document) };

    ghost coded = { coded× (coded_list definition_row.the_row.coded) (coded_list (placed_row.the_row document_row.the_row).coded) };

    ghost view = { λ p. (p.schema, p.documents) };

    ghost invariant = { λ p. IsAcceptedProject p.schema p.documents
        × HasOperations p.schema p.documents (get_by_text p.operations) × HasFragments p.schema p.documents (get_by_text p.fragments) };
}

impl Project {
    /// The project of a schema and of documents that were checked together.
    pub(crate) fn new(
        alloc: Global,
        schema: Schema,
        documents: Documents,
    ) -> Result<Project, NoMemory>
        requires { IsAcceptedProject schema documents }
        ensures { IfOk result (λ p. p ≡ (schema, documents)) }
    {
        let tables = tables_of(alloc, &schema, &documents)?;
        Ok(Project {
            schema,
            documents,
            operations: tables.operations,
            fragments: tables.fragments,
        })
    }

    /// The schema.
    pub fn schema(&self) -> &Schema
        ensures { result.now ≡ self.now.0 }
    {
        &self.schema
    }

    /// The documents, in the order of their files.
    pub fn documents(&self) -> &Documents
        ensures { result.now ≡ self.now.1 }
    {
        &self.documents
    }

    /// Law: the schema and the documents are those of an accepted project.
    pub fn is_accepted(&self)
        ensures { IsAcceptedProject self.now.0 self.now.1 }
    {
        let _ = &self.schema;
    }

    /// The operation of a name, with the plan by which responses to it are normalized and the plan by
    /// which it is read; `None` where the documents have none.
    pub fn operation(&self, name: &str) -> Option<&Compiled>
        ensures kept { Agree (KeepsOperation self.now.0 name.now) (operation_in self.now.0 self.now.1 name.now) (option_copied result) }
        ensures normal { Agree (Normalizes self.now.0 self.now.1) (operation_in self.now.0 self.now.1 name.now) (option_copied result) }
        ensures reads { Agree (ReadsOperation self.now.0 self.now.1) (operation_in self.now.0 self.now.1 name.now) (option_copied result) }
    {
        self.operations.get(name)
    }

    /// The fragment of a name, with its local variables and the plan by which it is read; `None` where
    /// the documents have none.
    pub fn fragment(&self, name: &str) -> Option<&CompiledFragment>
        ensures kept { Agree (KeepsFragment self.now.0 name.now) (fragment_in self.now.0 self.now.1 name.now) (option_copied result) }
        ensures reads { Agree (ReadsFragment self.now.0 self.now.1) (fragment_in self.now.0 self.now.1 name.now) (option_copied result) }
    {
        self.fragments.get(name)
    }
}
