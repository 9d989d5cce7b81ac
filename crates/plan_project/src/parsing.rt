//! The trees of documents, and the faults of texts.
ghost use Rattle.std.specs.Prelude.{◌≤◌, ◌<◌, ◌^◌, ◌-◌, length, IfOk, IfErr};
ghost use Rattle.plan_project.specs.Projects.{syntax_rule};
ghost use Rattle.plan_project.specs.Verdicts.{AreOnlyDocuments, AreNoDocuments, IsCoded, IsFaultOf, texts_of};

use crate::compiling::CompileFault;
use crate::fault::ProjectFault;
use crate::file::ProjectFile;
use plan_ir::{Documents, ParseFault, Rule, SyntaxFault};
use std::alloc::Global;
use text_places::parse_document;

/// The trees of documents, which are numbered from 1.
///
/// # Errors
///
/// The fault of the first text that is no document; `NoMemory`.
pub(crate) fn parse_documents(
    alloc: Global,
    documents: &[ProjectFile],
) -> Result<Documents, ParseFault>
    requires { length documents.now < 2 ^ 32 - 1 }
    ensures found { IfOk result (AreOnlyDocuments 1 (texts_of documents.now)) }
    ensures fault { IfErr result (AreNoDocuments 1 (texts_of documents.now)) }
{
    let mut trees = Documents::new(alloc);
    let mut file = 0;
    'documents: for document in documents {
        file += 1;
        let tree = match parse_document(alloc, file, document.as_bytes()) {
            Ok(tree) => tree,
            Err(fault) => return Err(fault),
        };
        if trees.push(tree).is_err() {
            return Err(ParseFault::NoMemory);
        }
    }
    Ok(trees)
}

/// Why there is no project where a text has a fault.
pub(crate) fn fault_of(fault: ParseFault) -> CompileFault
    requires { IsCoded fault }
    ensures { IsFaultOf fault result }
{
    match fault {
        ParseFault::Syntax(fault) => CompileFault::Refused(ProjectFault {
            file: fault.file,
            line: fault.line,
            column: fault.column,
            rule: rule_of(fault.code),
        }),
        ParseFault::NoMemory => CompileFault::NoMemory,
    }
}

/// The rule of a fault of a text, by its code.
fn rule_of(code: u8) -> Rule
    requires first { 1 ≤ code }
    requires last { code ≤ 8 }
    ensures { syntax_rule code result }
{
    match code {
        1 => Rule::L1,
        2 => Rule::L2,
        3 => Rule::L3,
        4 => Rule::L4,
        5 => Rule::L5,
        6 => Rule::L6,
        7 => Rule::L7,
        _ => Rule::L8,
    }
}
