//! Types (GraphQL, October 2021, section 2.11).
ghost use Rattle.std.specs.Prelude.{◌≡◌, ◌++◌, string_bytes, OnOk};
ghost use Rattle.plan_ir.specs.gql_ast.TypeView.{ty_of};
ghost use Rattle.plan_ir.specs.OperationText.{type_text};

use plan_ir::{NoMemory, TypeTree};

/// Writes a type.
pub(crate) fn write_type(out: &mut String, of: &TypeTree) -> Result<(), NoMemory>
    ensures { OnOk result
        (string_bytes out.new ≡ string_bytes out.old ++ type_text (ty_of of.now)) }
{
    match of {
        TypeTree::Named(name) => out.push_str(name.as_str())?,
        TypeTree::List(item) => {
            out.push('[')?;
            write_type(out, &item.of)?;
            out.push(']')?;
        }
        TypeTree::NonNull(item) => {
            write_type(out, &item.of)?;
            out.push('!')?;
        }
    }
    Ok(())
}
