//! Arguments (GraphQL, October 2021, section 2.6).
ghost use Rattle.std.specs.Prelude.{◌≡◌, ◌∷◌, ◌++◌, [], ◌<◌, ◌≤◌, ℕ, List, length, IfOk, OnOk};
ghost use Rattle.gql_ast.specs.Value.{Val};
ghost use Rattle.gql_ast.specs.ValueView.{argument_of, value_of};
ghost use Rattle.gql_syntax.specs.Answers.{Answers, call_read, node_count};
ghost use Rattle.gql_syntax.specs.Machine.{more};
ghost use Rattle.gql_syntax.specs.Nexts.{token_count};
ghost use Rattle.gql_syntax.specs.Parts.{arguments_read, goes};
ghost use Rattle.gql_syntax.specs.Places.{Ahead, lay};
ghost use Rattle.gql_syntax.specs.Spelling.{spell_arguments, spell_value};
ghost use Rattle.gql_syntax.specs.Steps.{LeadsTo, argument_next, arguments_on};

use crate::NESTING_LIMIT;
use crate::cursor::Cursor;
use crate::fault::Fault;
use crate::names::{expect, read_name};
use crate::values::read_value;
use gql_ast::{Argument, Arguments};
use std::alloc::Global;

/// Reads arguments, after their `(`.
pub fn read_arguments(
    alloc: Global,
    constant: bool,
    cursor: &mut Cursor<'_>,
) -> Result<Arguments, Fault>
    ensures reads { Answers result (λ a. a) cursor.new.source (arguments_read 60 constant (length cursor.old.text) cursor.old.source) }
    ensures places { IfOk result (λ a. (c : Ahead) → ((ns : List ℕ) → lay (0 ∷ ns) c ≡ lay ns cursor.old) → (ns : List ℕ) → lay (spell_arguments node_count a ns) c ≡ lay ns cursor.new) }
    ensures taken { OnOk result (token_count cursor.new.source < token_count cursor.old.source) }
    ensures same { OnOk result (cursor.new.text ≡ cursor.old.text) }
{
    let mut arguments = Arguments::new(alloc);
    'arguments: loop {
        let argument = read_argument(alloc, constant, cursor)?;
        arguments.push(argument)?;
        if cursor.next_is(b')') {
            cursor.skip(0)?;
            arguments.items.shrink_to_fit();
            return Ok(arguments);
        }
    }
}

/// Reads `(` and arguments, where `(` stands.
pub fn read_call(alloc: Global, constant: bool, cursor: &mut Cursor<'_>) -> Result<Arguments, Fault>
    ensures reads { Answers result (λ a. a) cursor.new.source (call_read constant (length cursor.old.text) cursor.old.source) }
    ensures places { IfOk result (λ a. (ns : List ℕ) → lay (spell_arguments node_count a ns) cursor.old ≡ lay ns cursor.new) }
    ensures taken { OnOk result (token_count cursor.new.source ≤ token_count cursor.old.source) }
    ensures same { OnOk result (cursor.new.text ≡ cursor.old.text) }
{
    if !cursor.next_is(b'(') {
        return Ok(Arguments::new(alloc));
    }
    cursor.skip(0)?;
    read_arguments(alloc, constant, cursor)
}

/// Reads an argument.
fn read_argument(alloc: Global, constant: bool, cursor: &mut Cursor<'_>) -> Result<Argument, Fault>
    ensures reads { (xs : List (List ℕ × Val)) → LeadsTo result (λ a. goes (more constant (xs ++ argument_of a ∷ []) tt)) cursor.new.source (arguments_on (length cursor.old.text)) (argument_next (length cursor.old.text) constant xs cursor.old.source) }
    ensures places { IfOk result (λ a. (ns : List ℕ) → lay (2 ∷ 0 ∷ spell_value node_count (value_of a.value) 0 ns) cursor.old ≡ lay ns cursor.new) }
    ensures taken { OnOk result (token_count cursor.new.source < token_count cursor.old.source) }
    ensures same { OnOk result (cursor.new.text ≡ cursor.old.text) }
{
    let name = read_name(alloc, cursor, 2)?;
    expect(cursor, b':', 0)?;
    let value = read_value(alloc, constant, NESTING_LIMIT, cursor)?;
    Ok(Argument { name, value })
}
