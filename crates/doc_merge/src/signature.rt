//! Names and arguments of fields (GraphQL, October 2021, section 5.3.2, FieldsInSetCanMerge).
ghost use Rattle.std.specs.Prelude.{◌≡◌};
ghost use Rattle.std.specs.List.{list_any};
ghost use Rattle.plan_ir.specs.gql_ast.Value.{members_of, vals_of};
ghost use Rattle.plan_ir.specs.gql_ast.ValueView as tree;
ghost use Rattle.doc_merge.specs.RowView.{signature_of};
ghost use Rattle.doc_merge.specs.Signatures as spec;

use crate::row::Field;
use plan_ir::{Argument, Arguments, ValueTree, ValueTrees};

/// Whether two fields have one name and the same arguments, in any order.
pub(crate) fn same_signature(one: &Field<'_>, other: &Field<'_>) -> bool
    ensures { result ≡ spec.same_signature (signature_of one.now) (signature_of other.now) }
{
    if one.name != other.name {
        return false;
    }
    same_arguments(one.arguments, other.arguments)
}

/// Whether two sets of arguments are the same. Arguments in one order are compared in one pass.
fn same_arguments(one: &Arguments, other: &Arguments) -> bool
    ensures { result ≡ spec.same_arguments one.now other.now }
{
    if same_members(one, other) {
        return true;
    }
    if !are_within(one, other) {
        return false;
    }
    are_within(other, one)
}

/// Whether each of the first arguments is one of the second ones.
fn are_within(ones: &Arguments, others: &Arguments) -> bool
    ensures { result ≡ spec.are_within ones.now others.now }
{
    'ones: for one in ones.as_slice() {
        if !has_argument(others, one) {
            return false;
        }
    }
    true
}

/// Whether an argument is one of these.
fn has_argument(others: &Arguments, one: &Argument) -> bool
    ensures { result ≡ list_any (spec.same_argument (tree.argument_of one.now)) others.now }
{
    'others: for other in others.as_slice() {
        if same_argument(one, other) {
            return true;
        }
    }
    false
}

/// Whether two names and their values are the same.
#[cycle(same)]
fn same_argument(one: &Argument, other: &Argument) -> bool
    ensures { result ≡ spec.same_argument (tree.argument_of one.now) (tree.argument_of other.now) }
{
    if one.name.as_str() != other.name.as_str() {
        return false;
    }
    same_value(&one.value, &other.value)
}

/// Whether two values are the same as they are written.
#[cycle(same)]
fn same_value(one: &ValueTree, other: &ValueTree) -> bool
    ensures { result ≡ spec.same_value (tree.value_of one.now) (tree.value_of other.now) }
{
    match (one, other) {
        (ValueTree::Variable(a), ValueTree::Variable(b)) => a.as_str() == b.as_str(),
        (ValueTree::Int(a), ValueTree::Int(b)) => a == b,
        (ValueTree::Text(a), ValueTree::Text(b)) => a.as_str() == b.as_str(),
        (ValueTree::Bool(a), ValueTree::Bool(b)) => a == b,
        (ValueTree::Null, ValueTree::Null) => true,
        (ValueTree::Enum(a), ValueTree::Enum(b)) => a.as_str() == b.as_str(),
        (ValueTree::List(a), ValueTree::List(b)) => same_values(a, b),
        (ValueTree::Object(a), ValueTree::Object(b)) => same_members(a, b),
        _ => false,
    }
}

/// Whether two lists have the same values in one order.
#[cycle(same)]
fn same_values(a: &ValueTrees, b: &ValueTrees) -> bool
    ensures { result ≡ spec.same_values (vals_of a.now) (vals_of b.now) }
{
    if a.items.len() != b.items.len() {
        return false;
    }
    let mut at = 0;
    'items: while at < a.items.len() {
        if !same_value(&a.items[at], &b.items[at]) {
            return false;
        }
        at += 1;
    }
    true
}

/// Whether the same names and values stand in one order.
#[cycle(same)]
fn same_members(a: &Arguments, b: &Arguments) -> bool
    ensures { result ≡ spec.same_members (members_of a.now) (members_of b.now) }
{
    if a.items.len() != b.items.len() {
        return false;
    }
    let mut at = 0;
    'items: while at < a.items.len() {
        if !same_argument(&a.items[at], &b.items[at]) {
            return false;
        }
        at += 1;
    }
    true
}
