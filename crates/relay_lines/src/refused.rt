//! The lines of refusals, by the further keys that they have.
ghost use Rattle.std.specs.Prelude.{◌≡◌, ◌++◌, ◌∷◌, [], codes, map, IfOk};
ghost use Rattle.plan_ir.specs.gql_plain.Tree.{text, list, trees_of};
ghost use Rattle.relay_lines.specs.Members.{refused_with};
ghost use Rattle.relay_lines.specs.RefusalShown.{limited_shown, refusal_shown};
ghost use Rattle.relay_machine.specs.Printed.{number};
ghost use Rattle.relay_machine.specs.Refusals.{keys_of, limited_name, most, name_key, payload, shown_field, shown_step};

use crate::line_writer::LineWriter;
use crate::refusal::{Limited, Refusal};
use plan_ir::{Cause, Field, NoMemory, PathSteps, PayloadFault, Words};
use std::alloc::Global;

/// The line of a refusal without further keys.
pub(crate) fn bare_line(alloc: Global, refusal: Refusal<'_>, n: u64) -> Result<Words, NoMemory>
    ensures { IfOk result (λ words. words ++ 10 ∷ [] ≡ refused_with n (refusal_shown refusal.entry) []) }
{
    let mut line = LineWriter::new(alloc)?;
    line.put_number("code", refusal.code())?;
    line.put_text("error", refusal.name())?;
    line.put_number("n", n)?;
    line.finish()
}

/// The line of a refusal that tells a name.
pub(crate) fn named_line(
    alloc: Global,
    refusal: Refusal<'_>,
    n: u64,
    name: &str,
) -> Result<Words, NoMemory>
    ensures { IfOk result
        (λ words. words ++ 10 ∷ [] ≡ refused_with n (refusal_shown refusal.entry) (name_key name.now)) }
{
    let mut line = LineWriter::new(alloc)?;
    line.put_number("code", refusal.code())?;
    line.put_text("error", refusal.name())?;
    line.put_number("n", n)?;
    line.put_text("name", name)?;
    line.finish()
}

/// The line of a refusal that tells what is wrong with a variable.
pub(crate) fn variable_line(
    alloc: Global,
    refusal: Refusal<'_>,
    n: u64,
    cause: &str,
    variable: &str,
) -> Result<Words, NoMemory>
    ensures { IfOk result (λ words. words ++ 10 ∷ [] ≡ refused_with n (refusal_shown refusal.entry)
        ((codes "cause", text cause.now) ∷ (codes "variable", text variable.now) ∷ [])) }
{
    let mut line = LineWriter::new(alloc)?;
    line.put_text("cause", cause)?;
    line.put_number("code", refusal.code())?;
    line.put_text("error", refusal.name())?;
    line.put_number("n", n)?;
    line.put_text("variable", variable)?;
    line.finish()
}

/// The line of a refusal that tells how many there may be.
pub(crate) fn limit_line(
    alloc: Global,
    refusal: Refusal<'_>,
    n: u64,
    what: Limited,
) -> Result<Words, NoMemory>
    ensures { IfOk result (λ words. words ++ 10 ∷ [] ≡ refused_with n (refusal_shown refusal.entry)
        ((codes "kind", text (limited_name (limited_shown what)))
        ∷ (codes "limit", number (most (limited_shown what))) ∷ [])) }
{
    let mut line = LineWriter::new(alloc)?;
    line.put_number("code", refusal.code())?;
    line.put_text("error", refusal.name())?;
    line.put_text("kind", what.kind())?;
    line.put_number("limit", what.most())?;
    line.put_number("n", n)?;
    line.finish()
}

/// The line of a refusal that tells the fault of a payload.
pub(crate) fn payload_line(
    alloc: Global,
    refusal: Refusal<'_>,
    n: u64,
    fault: &PayloadFault,
) -> Result<Words, NoMemory>
    ensures { IfOk result (λ words. words ++ 10 ∷ []
        ≡ refused_with n (refusal_shown refusal.entry) (keys_of (payload fault.now))) }
{
    let path = &fault.path;
    match &fault.cause {
        Cause::NoData => place_line(alloc, refusal, n, "NoData", path),
        Cause::Shape => place_line(alloc, refusal, n, "Shape", path),
        Cause::NotWhole => place_line(alloc, refusal, n, "NotWhole", path),
        Cause::IdShape => place_line(alloc, refusal, n, "IdShape", path),
        Cause::ReservedId => place_line(alloc, refusal, n, "ReservedId", path),
        Cause::Typename => place_line(alloc, refusal, n, "Typename", path),
        Cause::Conflict {
            id,
            key,
            first,
            second,
        } => {
            let conflict = Conflict {
                id: id.as_str(),
                key: key.as_str(),
                first,
                second,
            };
            conflict_line(alloc, refusal, n, path, conflict)
        }
    }
}

/// The line of a payload's fault that tells the cause and the place alone.
fn place_line(
    alloc: Global,
    refusal: Refusal<'_>,
    n: u64,
    cause: &str,
    path: &PathSteps,
) -> Result<Words, NoMemory>
    ensures { IfOk result (λ words. words ++ 10 ∷ [] ≡ refused_with n (refusal_shown refusal.entry)
        ((codes "cause", text cause.now)
        ∷ (codes "path", list (trees_of (map shown_step path.now))) ∷ [])) }
{
    let mut line = LineWriter::new(alloc)?;
    line.put_text("cause", cause)?;
    line.put_number("code", refusal.code())?;
    line.put_text("error", refusal.name())?;
    line.put_number("n", n)?;
    line.put_path("path", path)?;
    line.finish()
}

/// Two values of one field of one record.
#[derive(Clone, Copy)]
struct Conflict<'a> {
    id: &'a str,
    key: &'a str,
    first: &'a Field,
    second: &'a Field,
}

/// The line of a payload's fault that is a conflict.
fn conflict_line(
    alloc: Global,
    refusal: Refusal<'_>,
    n: u64,
    path: &PathSteps,
    conflict: Conflict<'_>,
) -> Result<Words, NoMemory>
    ensures { IfOk result (λ words. words ++ 10 ∷ [] ≡ refused_with n (refusal_shown refusal.entry)
        ((codes "cause", text (codes "Conflict"))
        ∷ (codes "path", list (trees_of (map shown_step path.now)))
        ∷ (codes "id", text conflict.entry.id.now)
        ∷ (codes "key", text conflict.entry.key.now)
        ∷ (codes "first", shown_field conflict.entry.first.now)
        ∷ (codes "second", shown_field conflict.entry.second.now) ∷ [])) }
{
    let mut line = LineWriter::new(alloc)?;
    line.put_text("cause", "Conflict")?;
    line.put_number("code", refusal.code())?;
    line.put_text("error", refusal.name())?;
    line.put_field("first", conflict.first)?;
    line.put_text("id", conflict.id)?;
    line.put_text("key", conflict.key)?;
    line.put_number("n", n)?;
    line.put_path("path", path)?;
    line.put_field("second", conflict.second)?;
    line.finish()
}
