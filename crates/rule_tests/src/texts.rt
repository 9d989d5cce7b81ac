//! What texts are read as, and faults as texts.
ghost use Rattle.std.specs.Prelude.{◌<◌, length};

use plan_ir::{
    Cursor, Documents, NESTING_LIMIT, Schema, TypeTree, ValueTree, Words, read_type, read_value,
};
use plan_project::{ProjectFault, ProjectFile, parse_document, parse_schema};
use std::alloc::Global;
use std::test::Fail;

/// The bytes, or none where they are too many for a test.
pub(crate) fn short(bytes: &[u8]) -> &[u8]
    ensures { length result.now < 2000000 }
{
    if bytes.len() < 2_000_000 {
        return bytes;
    }
    &[]
}

/// The schema of a text that meets all rules.
pub(crate) fn schema(alloc: Global, text: &str) -> Result<Schema, Fail> {
    let tree = parse_schema(alloc, 0, short(text.as_bytes()))?;
    Ok(Schema::build(alloc, tree.tree.definitions)?)
}

/// The documents of texts between `;`, as files from 1 on.
pub(crate) fn documents(alloc: Global, texts: &str) -> Result<Documents, Fail> {
    let mut documents = Documents::new(alloc);
    let mut file = 0_u32;
    for text in texts.split(';') {
        file = file.saturating_add(1);
        documents.push(parse_document(alloc, file, short(text.as_bytes()))?)?;
    }
    Ok(documents)
}

/// The start of a text, or of none where it is too long for a test.
fn start(alloc: Global, text: &str) -> Cursor<'_> {
    let text = if text.len() < 1000 { text } else { "" };
    Cursor::new(alloc, 0, text)
}

/// The type of a text.
pub(crate) fn type_of(alloc: Global, text: &str) -> Result<TypeTree, Fail> {
    let mut cursor = start(alloc, text);
    Ok(read_type(alloc, &mut cursor)?)
}

/// The value of a text.
pub(crate) fn value_of(alloc: Global, text: &str) -> Result<ValueTree, Fail> {
    let mut cursor = start(alloc, text);
    Ok(read_value(alloc, false, NESTING_LIMIT, &mut cursor)?)
}

/// A file of this name that holds this text.
pub(crate) fn file(alloc: Global, name: &str, text: &str) -> Result<ProjectFile, Fail> {
    let bytes = short(text.as_bytes()).to_vec(alloc)?;
    Ok(ProjectFile::new(Words::new(alloc, name)?, bytes))
}

/// A fault as `RULE FILE LINE COLUMN`.
pub(crate) fn text_of_fault(alloc: Global, fault: &ProjectFault) -> Result<String, Fail> {
    Ok(format!(in alloc;
        "{:?} {} {} {}",
        fault.rule, fault.file, fault.line, fault.column
    )?)
}
