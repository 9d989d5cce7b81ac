//! Directives that are applied (GraphQL, October 2021, section 2.12).
ghost use Rattle.std.specs.Prelude.{◌≡◌, ◌∷◌, ◌++◌, [], ◌<◌, ◌≤◌, ℕ, List, true, false, length, IfOk, OnOk};
ghost use Rattle.gql_ast.specs.declared.directive.Directive.{Directive};
ghost use Rattle.gql_syntax.specs.Answers.{Answers, node_count};
ghost use Rattle.gql_syntax.specs.Machine.{further};
ghost use Rattle.gql_syntax.specs.Nexts.{next_is, token_count};
ghost use Rattle.gql_syntax.specs.Parts.{directives_read, goes};
ghost use Rattle.gql_syntax.specs.Places.{lay};
ghost use Rattle.gql_syntax.specs.Spelling.{spell_arguments, spell_directives};
ghost use Rattle.gql_syntax.specs.Steps.{LeadsTo, directives_on};

use crate::arguments::read_call;
use crate::cursor::Cursor;
use crate::fault::Fault;
use crate::names::read_name;
use gql_ast::{Directive, Directives};
use std::alloc::Global;

/// Reads as many directives as stand there.
pub fn read_directives(
    alloc: Global,
    constant: bool,
    cursor: &mut Cursor<'_>,
) -> Result<Directives, Fault>
    ensures reads { Answers result (λ d. d) cursor.new.source (directives_read 60 constant (length cursor.old.text) cursor.old.source) }
    ensures places { IfOk result (λ d. (ns : List ℕ) → lay (spell_directives node_count d ns) cursor.old ≡ lay ns cursor.new) }
    ensures taken { OnOk result (token_count cursor.new.source ≤ token_count cursor.old.source) }
    ensures last { OnOk result (next_is 64 cursor.new.source ≡ false) }
    ensures same { OnOk result (cursor.new.text ≡ cursor.old.text) }
{
    let mut directives = Directives::new(alloc);
    'directives: while cursor.next_is(b'@') {
        let directive = read_directive(alloc, constant, cursor)?;
        directives.push(directive)?;
    }
    directives.items.shrink_to_fit();
    Ok(directives)
}

/// Reads a directive.
fn read_directive(
    alloc: Global,
    constant: bool,
    cursor: &mut Cursor<'_>,
) -> Result<Directive, Fault>
    requires { next_is 64 cursor.old.source ≡ true }
    ensures reads { (ds : List Directive) → LeadsTo result (λ d. goes (further constant (ds ++ d ∷ []) tt)) cursor.new.source (directives_on (length cursor.old.text)) (directives_on (length cursor.old.text) (goes (further constant ds tt)) cursor.old.source) }
    ensures places { IfOk result (λ d. (ns : List ℕ) → lay (1 ∷ 1 ∷ spell_arguments node_count d.arguments ns) cursor.old ≡ lay ns cursor.new) }
    ensures taken { OnOk result (token_count cursor.new.source < token_count cursor.old.source) }
    ensures same { OnOk result (cursor.new.text ≡ cursor.old.text) }
{
    cursor.skip(1)?;
    let name = read_name(alloc, cursor, 1)?;
    let arguments = read_call(alloc, constant, cursor)?;
    Ok(Directive { name, arguments })
}
