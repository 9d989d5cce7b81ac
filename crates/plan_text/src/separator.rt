//! What stands between the parts of a list.
ghost use Rattle.std.specs.Prelude.{◌≡◌, ◌<◌, [], ◌∷◌, ◌++◌, cond, string_bytes, OnOk};

use plan_ir::NoMemory;

/// Writes a character in front of a part, unless the part is the first one.
pub(crate) fn separate(out: &mut String, begun: bool, between: char) -> Result<(), NoMemory>
    requires { between < 128 }
    ensures { OnOk result
        (string_bytes out.new ≡ string_bytes out.old ++ cond begun (between ∷ []) []) }
{
    if begun {
        out.push(between)?;
        return Ok(());
    }
    Ok(())
}
