//! Directives (GraphQL, October 2021, section 2.12) and arguments (section 2.6).
ghost use Rattle.std.specs.Prelude.{◌≡◌, ◌++◌, string_bytes, OnOk};
ghost use Rattle.plan_ir.specs.OperationText.{arguments_text, directives_text};

use crate::values::write_pairs;
use plan_ir::{Arguments, Directives, NoMemory};

/// Writes directives in written order.
pub(crate) fn write_directives(out: &mut String, directives: &Directives) -> Result<(), NoMemory>
    ensures { OnOk result
        (string_bytes out.new ≡ string_bytes out.old ++ directives_text directives.now) }
{
    'items: for directive in &directives.items {
        out.push('@')?;
        out.push_str(directive.name.as_str())?;
        write_arguments(out, &directive.arguments)?;
    }
    Ok(())
}

/// Writes arguments between `(` and `)`, or nothing where there is none.
pub(crate) fn write_arguments(out: &mut String, arguments: &Arguments) -> Result<(), NoMemory>
    ensures { OnOk result
        (string_bytes out.new ≡ string_bytes out.old ++ arguments_text arguments.now) }
{
    if arguments.is_empty() {
        return Ok(());
    }
    out.push('(')?;
    write_pairs(out, arguments)?;
    out.push(')')?;
    Ok(())
}
