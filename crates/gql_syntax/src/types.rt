//! Types as they are written (GraphQL, October 2021, section 2.11).
ghost use Rattle.std.specs.Prelude.{◌≡◌, ◌<◌, ◌-◌, ◌^◌, ℕ, List, length, IfOk, OnOk};
ghost use Rattle.gql_ast.specs.Ty.{Ty};
ghost use Rattle.gql_ast.specs.TypeView.{ty_of};
ghost use Rattle.gql_syntax.specs.Answers.{Answers, node_count};
ghost use Rattle.gql_syntax.specs.Machine.{Holder, typed, want_type};
ghost use Rattle.gql_syntax.specs.Nexts.{token_count};
ghost use Rattle.gql_syntax.specs.Parts.{One, goes, type_read};
ghost use Rattle.gql_syntax.specs.Places.{lay};
ghost use Rattle.gql_syntax.specs.Spelling.{spell_type};
ghost use Rattle.gql_syntax.specs.Steps.{IsTypeLaid, LeadsTo, put_type_alone, type_on};
ghost use Rattle.gql_syntax.specs.TypeTexts.{IsTypeText, TellsType};

use crate::NESTING_LIMIT;
use crate::cursor::Cursor;
use crate::fault::Fault;
use crate::names::{expect, read_name};
use gql_ast::gql_plain::NoMemory;
use gql_ast::{TypeBox, TypeTree};
use std::alloc::Global;

/// Reads a type.
pub fn read_type(alloc: Global, cursor: &mut Cursor<'_>) -> Result<TypeTree, Fault>
    ensures reads { Answers result ty_of cursor.new.source (type_read 60 (length cursor.old.text) cursor.old.source) }
    ensures places { IfOk result (λ t. (ns : List ℕ) → lay (spell_type node_count (ty_of t) 0 0 ns) cursor.old ≡ lay ns cursor.new) }
    ensures taken { OnOk result (token_count cursor.new.source < token_count cursor.old.source) }
    ensures same { OnOk result (cursor.new.text ≡ cursor.old.text) }
{
    read(alloc, NESTING_LIMIT, cursor)
}

/// The type that a text is by itself, or None where the text is none: its tokens are those of the
/// type, in which at most 60 list types stand in one another (section 2.11; the limit is this
/// project's own). NoMemory may come for any text. The text may have up to 2^32 - 2 bytes.
pub fn type_of_text(alloc: Global, text: &str) -> Result<Option<TypeTree>, NoMemory>
    requires short { length text.now < 2 ^ 32 - 1 }
    ensures { IfOk result (TellsType text.now) }
{
    let mut cursor = Cursor::new(alloc, 0, text);
    match read_type(alloc, &mut cursor) {
        Ok(of) => {
            if !cursor.is_at_end() {
                return Ok(None);
            }
            Ok(Some(of))
        }
        Err(Fault::Wrong { .. }) => Ok(None),
        Err(Fault::NoMemory) => Err(NoMemory),
    }
}

/// Law: a text is one type at most.
pub fn one_type()
    ensures { (text : List ℕ) (t u : Ty) → IsTypeText text t → IsTypeText text u → t ≡ u }
{}

/// Reads a type in which so many list types may nest.
#[cycle(read)]
fn read(alloc: Global, room: u32, cursor: &mut Cursor<'_>) -> Result<TypeTree, Fault>
    ensures reads { (h : Holder One) → LeadsTo result (λ t. put_type_alone (ty_of t) h) cursor.new.source (type_on (length cursor.old.text)) (type_on (length cursor.old.text) (goes (want_type room h)) cursor.old.source) }
    ensures laid { IfOk result (λ t. IsTypeLaid (ty_of t) cursor.old cursor.new) }
    ensures taken { OnOk result (token_count cursor.new.source < token_count cursor.old.source) }
    ensures same { OnOk result (cursor.new.text ≡ cursor.old.text) }
    ensures file { OnOk result (cursor.new.file ≡ cursor.old.file) }
{
    let mark = cursor.place_count();
    let nullable = read_nullable(alloc, room, cursor)?;
    if !cursor.next_is(b'!') {
        return Ok(nullable);
    }
    cursor.skip(0)?;
    cursor.repeat_place(mark)?;
    Ok(TypeTree::NonNull(TypeBox::new(alloc, nullable)?))
}

/// Reads a name or a list type, without the `!` after it.
#[cycle(read)]
fn read_nullable(alloc: Global, room: u32, cursor: &mut Cursor<'_>) -> Result<TypeTree, Fault>
    ensures reads { (h : Holder One) → LeadsTo result (λ t. goes (typed (ty_of t) h)) cursor.new.source (type_on (length cursor.old.text)) (type_on (length cursor.old.text) (goes (want_type room h)) cursor.old.source) }
    ensures laid { IfOk result (λ t. IsTypeLaid (ty_of t) cursor.old cursor.new) }
    ensures taken { OnOk result (token_count cursor.new.source < token_count cursor.old.source) }
    ensures same { OnOk result (cursor.new.text ≡ cursor.old.text) }
    ensures file { OnOk result (cursor.new.file ≡ cursor.old.file) }
{
    if !cursor.next_is(b'[') {
        return Ok(TypeTree::Named(read_name(alloc, cursor, 2)?));
    }
    if room == 0 {
        return Err(cursor.too_deep());
    }
    cursor.skip(1)?;
    let of = read(alloc, room - 1, cursor)?;
    expect(cursor, b']', 0)?;
    Ok(TypeTree::List(TypeBox::new(alloc, of)?))
}
