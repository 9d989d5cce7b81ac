//! Equality of plain trees.
ghost use Rattle.std.specs.Prelude.{◌≡◌};
ghost use Rattle.gql_plain.specs.Equal.{tree_eq, list_eq, object_eq};
ghost use Rattle.gql_plain.specs.Shown.{tree_of};

use crate::plain::{Pairs, Plain, Plains};

impl PartialEq for Plain {
    ghost use Rattle.std.specs.Cmp.{on_per, partial_equiv_from_equiv};
    ghost use Rattle.gql_plain.specs.Equal.{tree_eq, tree_eq_equiv};
    ghost use Rattle.gql_plain.specs.Shown.{tree_of};

    ghost eq = { λ a b. tree_eq (tree_of a) (tree_of b) };

    ghost laws = { on_per tree_of (partial_equiv_from_equiv tree_eq_equiv) };

    fn eq(&self, other: &Plain) -> bool {
        same(self, other)
    }
}

impl Eq for Plain {
    ghost use Rattle.std.specs.Cmp.{on_equiv};
    ghost use Rattle.gql_plain.specs.Equal.{tree_eq_equiv};
    ghost use Rattle.gql_plain.specs.Shown.{tree_of};

    ghost laws = { on_equiv tree_of tree_eq_equiv };
}

impl PartialEq for Plains {
    ghost use Rattle.std.specs.Cmp.{partial_equiv_from_equiv};
    ghost use Rattle.gql_plain.specs.Equal.{list_eq, list_eq_equiv};

    ghost eq = { list_eq };

    ghost laws = { partial_equiv_from_equiv list_eq_equiv };

    fn eq(&self, other: &Plains) -> bool {
        same_lists(self, other)
    }
}

impl Eq for Plains {
    ghost use Rattle.gql_plain.specs.Equal.{list_eq_equiv};

    ghost laws = { list_eq_equiv };
}

impl PartialEq for Pairs {
    ghost use Rattle.std.specs.Cmp.{partial_equiv_from_equiv};
    ghost use Rattle.gql_plain.specs.Equal.{object_eq, object_eq_equiv};

    ghost eq = { object_eq };

    ghost laws = { partial_equiv_from_equiv object_eq_equiv };

    fn eq(&self, other: &Pairs) -> bool {
        same_objects(self, other)
    }
}

impl Eq for Pairs {
    ghost use Rattle.gql_plain.specs.Equal.{object_eq_equiv};

    ghost laws = { object_eq_equiv };
}

/// Whether two trees are equal.
#[cycle(same)]
fn same(a: &Plain, b: &Plain) -> bool
    ensures { result ≡ tree_eq (tree_of a.now) (tree_of b.now) }
{
    match (a, b) {
        (Plain::Null, Plain::Null) => true,
        (Plain::Bool(a), Plain::Bool(b)) => a == b,
        (Plain::Int(a), Plain::Int(b)) => a == b,
        (Plain::Text(a), Plain::Text(b)) => a == b,
        (Plain::List(a), Plain::List(b)) => same_lists(a, b),
        (Plain::Tree(a), Plain::Tree(b)) => same_objects(a, b),
        _ => false,
    }
}

/// Whether two lists are equal.
#[cycle(same)]
fn same_lists(a: &Plains, b: &Plains) -> bool
    ensures { result ≡ list_eq a.now b.now }
{
    if a.items.len() != b.items.len() {
        return false;
    }
    let mut at = 0;
    'items: while at < a.items.len() {
        if !same(&a.items[at], &b.items[at]) {
            return false;
        }
        at += 1;
    }
    true
}

/// Whether two objects are equal.
#[cycle(same)]
fn same_objects(a: &Pairs, b: &Pairs) -> bool
    ensures { result ≡ object_eq a.now b.now }
{
    if a.entries.len() != b.entries.len() {
        return false;
    }
    let mut at = 0;
    'entries: while at < a.entries.len() {
        if a.entries[at].0 != b.entries[at].0 || !same(&a.entries[at].1, &b.entries[at].1) {
            return false;
        }
        at += 1;
    }
    true
}
