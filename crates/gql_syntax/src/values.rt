//! Values (GraphQL, October 2021, section 2.9).
ghost use Rattle.std.specs.Prelude.{◌≡◌, ◌∷◌, ◌<◌, ◌≤◌, ℕ, Bool, List, drop, true, false, length, option_map, IfOk, OnOk};
ghost use Rattle.gql_ast.specs.Value.{Members, vals_of, members_of, no_vals, no_members, list, object};
ghost use Rattle.gql_ast.specs.ValueView.{value_of, argument_of};
ghost use Rattle.gql_lex.specs.Heads.{IsToken};
ghost use Rattle.std.specs.Str.Parse.{AllDigits};
ghost use Rattle.gql_lex.specs.Numbers.{int_value, is_in_i64, sign_len};
ghost use Rattle.gql_lex.specs.Toks.{name, int, text};
ghost use Rattle.gql_lex.specs.Values.{IsString, string_value_of};
ghost use Rattle.gql_lex.specs.declared.tokens.TokenKind.TheVariants as kind;
ghost use Rattle.gql_syntax.specs.Answers.{Answers, default_read, node_count};
ghost use Rattle.gql_syntax.specs.Machine.{Place, want, items, members, members_then};
ghost use Rattle.gql_syntax.specs.Nexts.{Comes, next_is, next_is_punctuator, token_count};
ghost use Rattle.gql_syntax.specs.Parts.{One, goes, value_read};
ghost use Rattle.gql_syntax.specs.Places.{lay};
ghost use Rattle.gql_syntax.specs.Spelling.{spell_value, spell_values, spell_members, spell_default};
ghost use Rattle.gql_syntax.specs.Steps.{LeadsTo, value_on, put_alone};

use crate::NESTING_LIMIT;
use crate::cursor::Cursor;
use crate::fault::Fault;
use crate::names::{expect, read_name};
use gql_ast::gql_plain::Words;
use gql_ast::{Argument, Arguments, ValueTree, ValueTrees};
use gql_lex::{Token, TokenKind, string_value};
use std::alloc::Global;

/// Reads a value in which so many lists and objects may nest; in a constant no variable
/// may stand.
pub fn read_value(
    alloc: Global,
    constant: bool,
    room: u32,
    cursor: &mut Cursor<'_>,
) -> Result<ValueTree, Fault>
    ensures reads { Answers result value_of cursor.new.source (value_read constant room (length cursor.old.text) cursor.old.source) }
    ensures places { IfOk result (λ v. (ns : List ℕ) → lay (spell_value node_count (value_of v) 0 ns) cursor.old ≡ lay ns cursor.new) }
    ensures taken { OnOk result (token_count cursor.new.source < token_count cursor.old.source) }
    ensures same { OnOk result (cursor.new.text ≡ cursor.old.text) }
{
    read(alloc, constant, room, cursor)
}

/// Reads `=` and a constant, where `=` stands.
pub fn read_default(alloc: Global, cursor: &mut Cursor<'_>) -> Result<Option<ValueTree>, Fault>
    ensures reads { Answers result (option_map value_of) cursor.new.source (default_read (length cursor.old.text) cursor.old.source) }
    ensures places { IfOk result (λ d. (ns : List ℕ) → lay (spell_default node_count d ns) cursor.old ≡ lay ns cursor.new) }
    ensures taken { OnOk result (token_count cursor.new.source ≤ token_count cursor.old.source) }
    ensures same { OnOk result (cursor.new.text ≡ cursor.old.text) }
{
    if !cursor.next_is(b'=') {
        return Ok(None);
    }
    cursor.skip(0)?;
    Ok(Some(read(alloc, true, NESTING_LIMIT, cursor)?))
}

/// Reads a value, in whatever it stands.
#[cycle(read)]
fn read(
    alloc: Global,
    constant: bool,
    room: u32,
    cursor: &mut Cursor<'_>,
) -> Result<ValueTree, Fault>
    ensures reads { (p : Place One) → LeadsTo result (λ v. put_alone (value_of v) p) cursor.new.source (value_on (length cursor.old.text)) (value_on (length cursor.old.text) (goes (want constant room p)) cursor.old.source) }
    ensures places { IfOk result (λ v. (around : ℕ) (ns : List ℕ) → lay (spell_value node_count (value_of v) around ns) cursor.old ≡ lay ns cursor.new) }
    ensures taken { OnOk result (token_count cursor.new.source < token_count cursor.old.source) }
    ensures same { OnOk result (cursor.new.text ≡ cursor.old.text) }
{
    let Some(token) = cursor.peek() else {
        return Err(cursor.fault());
    };
    match token.kind {
        TokenKind::Punct => read_punctuated(alloc, constant, room, cursor),
        TokenKind::Name => read_word(alloc, token.text, cursor),
        TokenKind::Int => read_int(token.text, cursor),
        TokenKind::Text => read_text(alloc, &token, cursor),
        TokenKind::Block => read_text(alloc, &token, cursor),
    }
}

/// Reads a variable, a list or an object.
#[cycle(read)]
fn read_punctuated(
    alloc: Global,
    constant: bool,
    room: u32,
    cursor: &mut Cursor<'_>,
) -> Result<ValueTree, Fault>
    requires { next_is_punctuator cursor.old.source ≡ true }
    ensures reads { (p : Place One) → LeadsTo result (λ v. put_alone (value_of v) p) cursor.new.source (value_on (length cursor.old.text)) (value_on (length cursor.old.text) (goes (want constant room p)) cursor.old.source) }
    ensures places { IfOk result (λ v. (around : ℕ) (ns : List ℕ) → lay (spell_value node_count (value_of v) around ns) cursor.old ≡ lay ns cursor.new) }
    ensures taken { OnOk result (token_count cursor.new.source < token_count cursor.old.source) }
    ensures same { OnOk result (cursor.new.text ≡ cursor.old.text) }
{
    if cursor.next_is(b'[') {
        if room == 0 {
            return Err(cursor.too_deep());
        }
        cursor.skip(1)?;
        return Ok(ValueTree::List(read_items(alloc, constant, room - 1, cursor)?));
    }
    if cursor.next_is(b'{') {
        if room == 0 {
            return Err(cursor.too_deep());
        }
        cursor.skip(1)?;
        return Ok(ValueTree::Object(read_fields(alloc, constant, room - 1, cursor)?));
    }
    if constant {
        return Err(cursor.fault());
    }
    read_variable(alloc, cursor)
}

/// Reads a variable.
fn read_variable(alloc: Global, cursor: &mut Cursor<'_>) -> Result<ValueTree, Fault>
    requires punctuator { next_is_punctuator cursor.old.source ≡ true }
    requires lists { next_is 91 cursor.old.source ≡ false }
    requires objects { next_is 123 cursor.old.source ≡ false }
    ensures reads { (r : ℕ) (p : Place One) → LeadsTo result (λ v. put_alone (value_of v) p) cursor.new.source (value_on (length cursor.old.text)) (value_on (length cursor.old.text) (goes (want false r p)) cursor.old.source) }
    ensures places { IfOk result (λ v. (around : ℕ) (ns : List ℕ) → lay (spell_value node_count (value_of v) around ns) cursor.old ≡ lay ns cursor.new) }
    ensures taken { OnOk result (token_count cursor.new.source < token_count cursor.old.source) }
    ensures same { OnOk result (cursor.new.text ≡ cursor.old.text) }
{
    expect(cursor, b'$', 1)?;
    Ok(ValueTree::Variable(read_name(alloc, cursor, 1)?))
}

/// Reads a value that is a Name.
fn read_word(alloc: Global, word: &str, cursor: &mut Cursor<'_>) -> Result<ValueTree, Fault>
    requires { Comes cursor.old.source (name word.now) }
    ensures reads { (c : Bool) (r : ℕ) (p : Place One) → LeadsTo result (λ v. put_alone (value_of v) p) cursor.new.source (value_on (length cursor.old.text)) (value_on (length cursor.old.text) (goes (want c r p)) cursor.old.source) }
    ensures places { IfOk result (λ v. (around : ℕ) (ns : List ℕ) → lay (spell_value node_count (value_of v) around ns) cursor.old ≡ lay ns cursor.new) }
    ensures taken { OnOk result (token_count cursor.new.source < token_count cursor.old.source) }
    ensures same { OnOk result (cursor.new.text ≡ cursor.old.text) }
{
    if word == "true" {
        cursor.skip(1)?;
        return Ok(ValueTree::Bool(true));
    }
    if word == "false" {
        cursor.skip(1)?;
        return Ok(ValueTree::Bool(false));
    }
    if word == "null" {
        cursor.skip(1)?;
        return Ok(ValueTree::Null);
    }
    let name = Words::new(alloc, word)?;
    cursor.skip(2)?;
    Ok(ValueTree::Enum(name))
}

/// Reads an Int.
fn read_int(text: &str, cursor: &mut Cursor<'_>) -> Result<ValueTree, Fault>
    requires form { IsToken kind.Int text.now }
    requires comes { Comes cursor.old.source (int (int_value text.now)) }
    ensures reads { (c : Bool) (r : ℕ) (p : Place One) → LeadsTo result (λ v. put_alone (value_of v) p) cursor.new.source (value_on (length cursor.old.text)) (value_on (length cursor.old.text) (goes (want c r p)) cursor.old.source) }
    ensures places { IfOk result (λ v. (around : ℕ) (ns : List ℕ) → lay (spell_value node_count (value_of v) around ns) cursor.old ≡ lay ns cursor.new) }
    ensures taken { OnOk result (token_count cursor.new.source < token_count cursor.old.source) }
    ensures same { OnOk result (cursor.new.text ≡ cursor.old.text) }
{
    let number = int_of(text);
    cursor.skip(1)?;
    Ok(ValueTree::Int(number))
}

/// Reads a Text or a Block.
fn read_text(alloc: Global, token: &Token<'_>, cursor: &mut Cursor<'_>) -> Result<ValueTree, Fault>
    requires form { IsString token.now.kind token.now.text.now }
    requires comes { Comes cursor.old.source (text (string_value_of token.now.kind token.now.text.now)) }
    ensures reads { (c : Bool) (r : ℕ) (p : Place One) → LeadsTo result (λ v. put_alone (value_of v) p) cursor.new.source (value_on (length cursor.old.text)) (value_on (length cursor.old.text) (goes (want c r p)) cursor.old.source) }
    ensures places { IfOk result (λ v. (around : ℕ) (ns : List ℕ) → lay (spell_value node_count (value_of v) around ns) cursor.old ≡ lay ns cursor.new) }
    ensures taken { OnOk result (token_count cursor.new.source < token_count cursor.old.source) }
    ensures same { OnOk result (cursor.new.text ≡ cursor.old.text) }
{
    let text = string_value(alloc, token)?;
    cursor.skip(1)?;
    Ok(ValueTree::Text(text))
}

/// The number that an Int writes.
fn int_of(text: &str) -> i64
    requires some { sign_len text.now < length text.now }
    requires digits { AllDigits 10 (drop (sign_len text.now) text.now) }
    requires within { is_in_i64 text.now ≡ true }
    ensures { result ≡ int_value text.now }
{
    match text.parse::<i64>() {
        Ok(number) => number,
        Err(_) => unreachable!(),
    }
}

/// Reads the values of a list, after its `[`.
#[cycle(read)]
fn read_items(
    alloc: Global,
    constant: bool,
    room: u32,
    cursor: &mut Cursor<'_>,
) -> Result<ValueTrees, Fault>
    ensures reads { (p : Place One) → LeadsTo result (λ vs. put_alone (list (vals_of vs)) p) cursor.new.source (value_on (length cursor.old.text)) (value_on (length cursor.old.text) (goes (items constant room no_vals p)) cursor.old.source) }
    ensures places { IfOk result (λ vs. (around : ℕ) (ns : List ℕ) → lay (spell_values node_count (vals_of vs) around (0 ∷ ns)) cursor.old ≡ lay ns cursor.new) }
    ensures taken { OnOk result (token_count cursor.new.source < token_count cursor.old.source) }
    ensures same { OnOk result (cursor.new.text ≡ cursor.old.text) }
{
    let mut values = ValueTrees::new(alloc);
    'items: while !cursor.next_is(b']') {
        let value = read(alloc, constant, room, cursor)?;
        values.push(value)?;
    }
    cursor.skip(0)?;
    values.items.shrink_to_fit();
    Ok(values)
}

/// Reads the fields of an object, after its `{`.
#[cycle(read)]
fn read_fields(
    alloc: Global,
    constant: bool,
    room: u32,
    cursor: &mut Cursor<'_>,
) -> Result<Arguments, Fault>
    ensures reads { (p : Place One) → LeadsTo result (λ fs. put_alone (object (members_of fs)) p) cursor.new.source (value_on (length cursor.old.text)) (value_on (length cursor.old.text) (goes (members constant room no_members p)) cursor.old.source) }
    ensures places { IfOk result (λ fs. (around : ℕ) (ns : List ℕ) → lay (spell_members node_count (members_of fs) around (0 ∷ ns)) cursor.old ≡ lay ns cursor.new) }
    ensures taken { OnOk result (token_count cursor.new.source < token_count cursor.old.source) }
    ensures same { OnOk result (cursor.new.text ≡ cursor.old.text) }
{
    let mut fields = Arguments::new(alloc);
    'fields: while !cursor.next_is(b'}') {
        let field = read_field(alloc, constant, room, cursor)?;
        fields.push(field)?;
    }
    cursor.skip(0)?;
    fields.items.shrink_to_fit();
    Ok(fields)
}

/// Reads a field of an object.
#[cycle(read)]
fn read_field(
    alloc: Global,
    constant: bool,
    room: u32,
    cursor: &mut Cursor<'_>,
) -> Result<Argument, Fault>
    requires { next_is 125 cursor.old.source ≡ false }
    ensures reads { (ms : Members) (p : Place One) → LeadsTo result (λ f. goes (members constant room (members_then ms f.name (value_of f.value)) p)) cursor.new.source (value_on (length cursor.old.text)) (value_on (length cursor.old.text) (goes (members constant room ms p)) cursor.old.source) }
    ensures places { IfOk result (λ f. (around : ℕ) (ns : List ℕ) → lay (2 ∷ 0 ∷ spell_value node_count (value_of f.value) around ns) cursor.old ≡ lay ns cursor.new) }
    ensures taken { OnOk result (token_count cursor.new.source < token_count cursor.old.source) }
    ensures same { OnOk result (cursor.new.text ≡ cursor.old.text) }
{
    let name = read_name(alloc, cursor, 2)?;
    expect(cursor, b':', 0)?;
    let value = read(alloc, constant, room, cursor)?;
    Ok(Argument { name, value })
}
