//! Reading a value from its marks.
ghost use Rattle.std.specs.Prelude.{◌≡◌, true, IfOk, [], ◌∷◌, codes, option_map};
ghost use Rattle.std.specs.Map.{keys_of};
ghost use Rattle.store_record.specs.gql_plain.Order.{IsAfter};
ghost use Rattle.store_record.specs.gql_plain.Shown.{tree_of, plain_trees};
ghost use Rattle.store_record.specs.gql_plain.Tree.{trees_of, members_of};
ghost use Rattle.image_marks.specs.Flat as spec;
ghost use Rattle.image_marks.specs.Stack.{open_of, opened, Takes};

use std::alloc::Global;
use store_record::gql_plain::{NoMemory, Pairs, Plain, Plains, Words};

/// The most lists and objects in one another: a value that is deeper could not be copied or dropped, since those calls go as deep
/// as the value.
const MAX_OPEN: usize = 1_000;

/// What is open around the next mark.
#[derive(Drop)]
enum Open {
    /// A list, with its items so far.
    List(Plains),
    /// An object that awaits a key, with its members so far.
    Key(Pairs),
    /// An object that awaits the value of a key.
    Value(Pairs, Words),
}

/// Whether a key stands after the last one of the members; takes no memory.
fn is_next(pairs: &Pairs, key: &str) -> bool
    ensures is { result ≡ spec.is_next pairs.now key.now }
    ensures after { result ≡ true → IsAfter key.now (keys_of pairs.now) }
{
    match pairs.entries.last() {
        Some((last, _)) => last.as_str() < key,
        None => true,
    }
}

/// Puts a value in its place.
#[tactic(auto, using(crate::proofs::Stack::opened_push))]
fn place(stack: &mut Vec<Open>, plain: Plain) -> Result<bool, NoMemory>
    ensures { IfOk result (λ taken. Takes taken (spec.place (tree_of plain) (opened stack.old.items)) stack.new.items) }
{
    match stack.pop() {
        Some(Open::List(mut plains)) => {
            plains.push(plain)?;
            stack.push(Open::List(plains))?;
            Ok(true)
        }
        Some(Open::Key(_)) => Ok(false),
        Some(Open::Value(mut pairs, key)) => {
            if !is_next(&pairs, key.as_str()) {
                return Ok(false);
            }
            pairs.push(key, plain)?;
            stack.push(Open::Key(pairs))?;
            Ok(true)
        }
        None => Ok(false),
    }
}

/// Begins a list or an object, where a value may stand. Errors: `NoMemory`, also where more are open than
/// the memory for calls has room for.
#[tactic(auto, using(crate::proofs::Stack::opened_push))]
fn begin(stack: &mut Vec<Open>, inner: Open) -> Result<bool, NoMemory>
    ensures { IfOk result (λ taken. Takes taken (spec.begin (open_of inner) (opened stack.old.items)) stack.new.items) }
{
    if stack.len() > MAX_OPEN {
        return Err(NoMemory);
    }
    match stack.pop() {
        Some(Open::List(plains)) => {
            stack.push(Open::List(plains))?;
            stack.push(inner)?;
            Ok(true)
        }
        Some(Open::Key(_)) => Ok(false),
        Some(Open::Value(pairs, key)) => {
            stack.push(Open::Value(pairs, key))?;
            stack.push(inner)?;
            Ok(true)
        }
        None => Ok(false),
    }
}

/// Ends the innermost, a list.
#[tactic(auto, using(crate::proofs::Stack::opened_push))]
fn end_list(stack: &mut Vec<Open>) -> Result<bool, NoMemory>
    ensures { IfOk result (λ taken. Takes taken (spec.end_list (opened stack.old.items)) stack.new.items) }
{
    match stack.pop() {
        Some(Open::List(plains)) => place(stack, Plain::List(plains)),
        Some(Open::Key(_)) => Ok(false),
        Some(Open::Value(_, _)) => Ok(false),
        None => Ok(false),
    }
}

/// Ends the innermost, an object.
#[tactic(auto, using(crate::proofs::Stack::opened_push))]
fn end_object(stack: &mut Vec<Open>) -> Result<bool, NoMemory>
    ensures { IfOk result (λ taken. Takes taken (spec.end_object (opened stack.old.items)) stack.new.items) }
{
    match stack.pop() {
        Some(Open::List(_)) => Ok(false),
        Some(Open::Key(pairs)) => place(stack, Plain::Tree(pairs)),
        Some(Open::Value(_, _)) => Ok(false),
        None => Ok(false),
    }
}

/// Takes a text that stood behind `'`: a key where one is awaited.
#[tactic(auto, using(crate::proofs::Stack::opened_push))]
fn take_quoted(stack: &mut Vec<Open>, text: Words) -> Result<bool, NoMemory>
    ensures { IfOk result (λ taken. Takes taken (spec.take_quoted text (opened stack.old.items)) stack.new.items) }
{
    match stack.pop() {
        Some(Open::List(plains)) => {
            stack.push(Open::List(plains))?;
            place(stack, Plain::Text(text))
        }
        Some(Open::Key(pairs)) => {
            stack.push(Open::Value(pairs, text))?;
            Ok(true)
        }
        Some(Open::Value(pairs, key)) => {
            stack.push(Open::Value(pairs, key))?;
            place(stack, Plain::Text(text))
        }
        None => Ok(false),
    }
}

/// Takes a mark that is a text.
#[tactic(auto, using(crate::proofs::Stack::opened_push))]
fn take_text(alloc: Global, stack: &mut Vec<Open>, text: &str) -> Result<bool, NoMemory>
    ensures { IfOk result (λ taken. Takes taken (spec.take_text text.now (opened stack.old.items)) stack.new.items) }
{
    if let Some(quoted) = text.strip_prefix('\'') {
        return take_quoted(stack, Words::new(alloc, quoted)?);
    }
    if text == "[" {
        return begin(stack, Open::List(Plains::new(alloc)));
    }
    if text == "]" {
        return end_list(stack);
    }
    if text == "{" {
        return begin(stack, Open::Key(Pairs::new(alloc)));
    }
    if text == "}" {
        return end_object(stack);
    }
    Ok(false)
}

/// Takes the next mark.
fn take_mark(alloc: Global, stack: &mut Vec<Open>, mark: &Plain) -> Result<bool, NoMemory>
    ensures { IfOk result (λ taken. Takes taken (spec.take_mark (tree_of mark.now) (opened stack.old.items)) stack.new.items) }
{
    match mark {
        Plain::Null => place(stack, Plain::Null),
        Plain::Bool(truth) => place(stack, Plain::Bool(*truth)),
        Plain::Int(number) => place(stack, Plain::Int(*number)),
        Plain::Text(text) => take_text(alloc, stack, text.as_str()),
        Plain::List(_) => Ok(false),
        Plain::Tree(_) => Ok(false),
    }
}

/// The only one of the values, where it is the only one.
fn only(mut plains: Plains) -> Option<Plain>
    ensures { option_map tree_of result ≡ spec.only plains }
{
    match plains.items.pop() {
        Some(plain) => {
            if plains.items.is_empty() {
                return Some(plain);
            }
            None
        }
        None => None,
    }
}

/// The only value of the one list that is open, where that is all.
#[tactic(auto, using(crate::proofs::Stack::opened_push))]
fn single(mut stack: Vec<Open>) -> Option<Plain>
    ensures { option_map tree_of result ≡ spec.single (opened stack.items) }
{
    match stack.pop() {
        Some(Open::List(plains)) => {
            match stack.pop() {
                Some(_) => None,
                None => only(plains),
            }
        }
        Some(Open::Key(_)) => None,
        Some(Open::Value(_, _)) => None,
        None => None,
    }
}

/// The value of which these are the marks, or None where they are those of none. Its depth is no depth of calls.
pub fn unflat(alloc: Global, marks: &[Plain]) -> Result<Option<Plain>, NoMemory>
    ensures { IfOk result (λ value. option_map tree_of value ≡ spec.unflat (plain_trees marks.now)) }
{
    let mut stack = Vec::new(alloc);
    stack.push(Open::List(Plains::new(alloc)))?;
    'marks: for mark in marks {
        if !take_mark(alloc, &mut stack, mark)? {
            return Ok(None);
        }
    }
    Ok(single(stack))
}
