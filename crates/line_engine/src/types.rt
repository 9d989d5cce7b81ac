//! The types that commands name.
ghost use Rattle.std.specs.Prelude.{◌≡◌, option_copied};
ghost use Rattle.relay_machine.specs.Machine as machine;
ghost use Rattle.plan_ir.specs.schema_rules.Rules.{is_object};

use plan_ir::{Command, Commands, Schema, TypeKind, Words};

/// The first name of a type in commands that is none of an object type of the schema; takes no memory.
pub(crate) fn unknown_type<'c>(schema: &Schema, commands: &'c Commands) -> Option<&'c Words>
    ensures { option_copied result ≡ machine.first_refused schema.now commands.now }
{
    'commands: for command in commands.as_slice() {
        if let Some(name) = unknown_in(schema, command) {
            return Some(name);
        }
    }
    None
}

/// The name of a type in a command, where it is none of an object type.
fn unknown_in<'c>(schema: &Schema, command: &'c Command) -> Option<&'c Words>
    ensures { option_copied result ≡ machine.refused_in schema.now command.now }
{
    match command {
        Command::Create { id: _, of } => unless_object(schema, of),
        Command::AppendNode(edit) => unless_object(schema, &edit.edge_type),
        Command::PrependNode(edit) => unless_object(schema, &edit.edge_type),
        _ => None,
    }
}

/// The name, unless it is that of an object type.
fn unless_object<'c>(schema: &Schema, of: &'c Words) -> Option<&'c Words>
    ensures { option_copied result ≡ machine.type_refused schema.now of.now }
{
    if is_object(schema, of.as_str()) {
        return None;
    }
    Some(of)
}

/// Whether a type is an object type.
fn is_object(schema: &Schema, name: &str) -> bool
    ensures { result ≡ is_object schema.now name.now }
{
    matches!(schema.kind_of(name), Some(TypeKind::Object))
}
