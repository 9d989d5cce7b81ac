//! The project that files are, or its first fault.
ghost use Rattle.std.specs.Prelude.{◌≤◌, ◌<◌, ◌^◌, ◌-◌, length, IfOk, IfErr};
ghost use Rattle.plan_project.specs.Verdicts.{AreTheProject, HaveTheFault, IsTheProject, IsRefusal, texts_of};

use crate::checking::check_documents;
use crate::fault::{DocumentsFault, ProjectFault};
use crate::file::ProjectFile;
use crate::parsing::{fault_of, parse_documents};
use crate::places::{documents_fault, fault_at, schema_fault};
use crate::project::Project;
use plan_ir::{NoMemory, RuleFault, Schema};
use std::alloc::Global;
use text_places::parse_schema;

/// Why there is no project.
#[derive(Clone, Copy, Debug, Drop)]
pub enum CompileFault {
    /// The first fault: of a text, else of the schema, else of the documents. Its file is 0 for the
    /// schema, and is numbered from 1 for the documents.
    Refused(ProjectFault),
    NoMemory,
}

/// The project that files are, of which the first is the schema and the others are documents.
///
/// # Errors
///
/// The fault of the first file that is no text of its grammar (L1 to L8); else the first of the rules
/// S1 to S12 that the schema does not meet; else the first of the rules V1 to V22 that the documents
/// do not meet; else the first of E1, E2, V23 and V24 that an operation or a fragment does not meet
/// where all spreads are followed: E1 and E2 at its name. Each is told at its least place by file,
/// line and column. `NoMemory`.
pub fn compile(alloc: Global, files: &[ProjectFile]) -> Result<Project, CompileFault>
    requires least { 2 ≤ length files.now }
    requires most { length files.now < 2 ^ 32 }
    ensures project { IfOk result (λ p. AreTheProject files.now p.0 p.1) }
    ensures fault { IfErr result (HaveTheFault files.now) }
{
    compile_files(alloc, &files[0], &files[1..])
}

/// The project of a schema and of documents.
fn compile_files(
    alloc: Global,
    schema: &ProjectFile,
    documents: &[ProjectFile],
) -> Result<Project, CompileFault>
    requires { length documents.now < 2 ^ 32 - 1 }
    ensures project { IfOk result (λ p. IsTheProject schema.now.1 (texts_of documents.now) p.0 p.1) }
    ensures fault { IfErr result (IsRefusal schema.now.1 (texts_of documents.now)) }
{
    let tree = match parse_schema(alloc, 0, schema.as_bytes()) {
        Ok(tree) => tree,
        Err(fault) => return Err(fault_of(fault)),
    };
    let trees = match parse_documents(alloc, documents) {
        Ok(trees) => trees,
        Err(fault) => return Err(fault_of(fault)),
    };
    let places = tree.places;
    let schema = match Schema::build(alloc, tree.tree.definitions) {
        Ok(schema) => schema,
        Err(RuleFault::Rule(fault)) => {
            return Err(CompileFault::Refused(schema_fault(&places, fault)));
        }
        Err(RuleFault::NoMemory) => return Err(CompileFault::NoMemory),
    };
    match check_documents(alloc, &schema, &trees) {
        Ok(()) => match Project::new(alloc, schema, trees) {
            Ok(project) => Ok(project),
            Err(NoMemory) => Err(CompileFault::NoMemory),
        },
        Err(DocumentsFault::Node(fault)) => {
            Err(CompileFault::Refused(documents_fault(&trees, fault)))
        }
        Err(DocumentsFault::Place(fault)) => {
            Err(CompileFault::Refused(fault_at(&fault.place, fault.rule)))
        }
        Err(DocumentsFault::NoMemory) => Err(CompileFault::NoMemory),
    }
}
