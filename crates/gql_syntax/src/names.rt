//! Names, punctuators and words that are wanted.
ghost use Rattle.std.specs.Prelude.{◌≡◌, ◌≢◌, ◌∷◌, ℕ, List, true, false, length, Some, None, IfOk, OnOk, IfErr, IfSome};
ghost use Rattle.gql_ast.specs.declared.document.Kind.{Kind};
ghost use Rattle.gql_syntax.specs.Answers.{Misses};
ghost use Rattle.gql_syntax.specs.Nexts.{behind, next_is, next_word, stopped_at};
ghost use Rattle.gql_syntax.specs.Places.{lay};
ghost use Rattle.gql_syntax.specs.Words.{kind_word};

use crate::cursor::Cursor;
use crate::fault::Fault;
use gql_ast::Kind;
use gql_ast::gql_plain::{Name, Words};
use std::alloc::Global;

/// Takes a Name, at which so many nodes begin.
pub fn read_name(alloc: Global, cursor: &mut Cursor<'_>, nodes: usize) -> Result<Name, Fault>
    ensures name { IfOk result (λ n. next_word cursor.old.source ≡ Some n) }
    ensures source { OnOk result (cursor.new.source ≡ behind cursor.old.source) }
    ensures places { OnOk result ((ns : List ℕ) → lay (nodes ∷ ns) cursor.old ≡ lay ns cursor.new) }
    ensures same { cursor.new.text ≡ cursor.old.text }
    ensures file { cursor.new.file ≡ cursor.old.file }
    ensures fault { IfErr result (λ f. Misses f (next_word cursor.old.source ≡ None) (stopped_at (length cursor.old.text) cursor.old.source)) }
{
    let Some(word) = cursor.next_word() else {
        return Err(cursor.fault());
    };
    let name = Words::new(alloc, word)?;
    cursor.skip(nodes)?;
    Ok(name)
}

/// Takes the punctuator that begins with a byte, at which so many nodes begin.
pub fn expect(cursor: &mut Cursor<'_>, punctuator: u8, nodes: usize) -> Result<(), Fault>
    ensures found { OnOk result (next_is punctuator cursor.old.source ≡ true) }
    ensures source { OnOk result (cursor.new.source ≡ behind cursor.old.source) }
    ensures places { OnOk result ((ns : List ℕ) → lay (nodes ∷ ns) cursor.old ≡ lay ns cursor.new) }
    ensures same { cursor.new.text ≡ cursor.old.text }
    ensures file { cursor.new.file ≡ cursor.old.file }
    ensures fault { IfErr result (λ f. Misses f (next_is punctuator cursor.old.source ≡ false) (stopped_at (length cursor.old.text) cursor.old.source)) }
{
    if !cursor.next_is(punctuator) {
        return Err(cursor.fault());
    }
    cursor.skip(nodes)?;
    Ok(())
}

/// Takes a Name that is this word, at which so many nodes begin.
pub fn expect_word(cursor: &mut Cursor<'_>, word: &str, nodes: usize) -> Result<(), Fault>
    ensures found { OnOk result (next_word cursor.old.source ≡ Some word.now) }
    ensures source { OnOk result (cursor.new.source ≡ behind cursor.old.source) }
    ensures places { OnOk result ((ns : List ℕ) → lay (nodes ∷ ns) cursor.old ≡ lay ns cursor.new) }
    ensures same { cursor.new.text ≡ cursor.old.text }
    ensures file { cursor.new.file ≡ cursor.old.file }
    ensures fault { IfErr result (λ f. Misses f (next_word cursor.old.source ≢ Some word.now) (stopped_at (length cursor.old.text) cursor.old.source)) }
{
    let Some(next) = cursor.next_word() else {
        return Err(cursor.fault());
    };
    if next != word {
        return Err(cursor.fault());
    }
    cursor.skip(nodes)?;
    Ok(())
}

/// The kind of operation that a word names.
pub fn kind_of(word: &str) -> Option<Kind>
    ensures is { IfSome result (λ k. word.now ≡ kind_word k) }
    ensures all { (k : Kind) → word.now ≡ kind_word k → result ≡ Some k }
{
    if word == "query" {
        return Some(Kind::Query);
    }
    if word == "mutation" {
        return Some(Kind::Mutation);
    }
    if word == "subscription" {
        return Some(Kind::Subscription);
    }
    None
}
