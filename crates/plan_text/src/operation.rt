//! The text of an operation (this project's own; its parts by GraphQL, October 2021, section 2).
ghost use Rattle.std.specs.Prelude.{◌≡◌, IfOk};
ghost use Rattle.plan_ir.specs.OperationText as texts;

use crate::artifact::kind_word;
use crate::directives::write_directives;
use crate::selections::write_set;
use crate::variables::{used_variables, write_variables};
use plan_ir::{Expanded, Kind, NoMemory, Words};
use std::alloc::Global;

/// The text of an operation: blanks stand where the grammar needs them alone, arguments in byte
/// order of their names, and of the variables those that are used. Its only error is that memory is
/// lacking.
pub fn operation_text(alloc: Global, expanded: &Expanded) -> Result<Words, NoMemory>
    ensures { IfOk result (λ text. text ≡ texts.operation_text expanded.now) }
{
    let variables = used_variables(alloc, expanded)?;
    let kind = expanded.kind.unwrap_or(Kind::Query);
    let mut out = String::from_str(alloc, kind_word(kind))?;
    out.push(' ')?;
    out.push_str(expanded.name.as_str())?;
    write_variables(&mut out, &variables)?;
    write_directives(&mut out, &expanded.directives)?;
    write_set(&mut out, &expanded.selections)?;
    Ok(Words::from_string(out))
}
