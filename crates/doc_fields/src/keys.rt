//! Response keys at the root of an operation (GraphQL, October 2021, sections 2.7 and 5.2.3.1).
ghost use Rattle.std.specs.Prelude.{◌≡◌};
ghost use Rattle.doc_sites.specs.schema_types.FieldRules as rules;
ghost use Rattle.doc_fields.specs.Keys.{and_one, is_one, join_sums, key_sum, keys_at, keys_view, one_key, sum_of};

use doc_sites::{Name, Schema, Selection, Selections};

/// Which response keys there are.
#[derive(Clone, Copy)]
pub(crate) enum RootKeys<'a> {
    /// None.
    Absent,
    /// One, where no field is `__typename`.
    One(&'a str),
    /// Several, or a field is `__typename`.
    Wrong,
}

impl<'a> RootKeys<'a> {
    /// The key of a field, and the name of the field.
    fn of_field(key: &'a str, name: &'a str) -> RootKeys<'a>
        ensures { keys_view result ≡ key_sum (key.now, name.now) }
    {
        if key == "__typename" || name == "__typename" {
            return RootKeys::Wrong;
        }
        RootKeys::One(key)
    }

    /// These keys and others.
    pub(crate) fn and(&self, others: &RootKeys<'a>) -> RootKeys<'a>
        ensures { keys_view result ≡ join_sums (keys_view self.now) (keys_view others.now) }
    {
        match self {
            RootKeys::Absent => *others,
            RootKeys::One(key) => others.and_key(key),
            RootKeys::Wrong => RootKeys::Wrong,
        }
    }

    /// A key and these.
    fn and_key(&self, key: &'a str) -> RootKeys<'a>
        ensures { keys_view result ≡ and_one key.now (keys_view self.now) }
    {
        match self {
            RootKeys::Absent => RootKeys::One(key),
            RootKeys::One(other) => same_key(key, other),
            RootKeys::Wrong => RootKeys::Wrong,
        }
    }

    /// Whether there is one key, and no field is `__typename`.
    pub(crate) fn is_one(&self) -> bool
        ensures { result ≡ is_one (keys_view self.now) }
    {
        match self {
            RootKeys::Absent => false,
            RootKeys::One(_) => true,
            RootKeys::Wrong => false,
        }
    }
}

/// Two keys, neither of `__typename`.
fn same_key<'a>(key: &'a str, other: &str) -> RootKeys<'a>
    ensures { keys_view result ≡ and_one key.now (one_key other.now) }
{
    if key == other {
        return RootKeys::One(key);
    }
    RootKeys::Wrong
}

/// The key of a field with this alias and name.
fn key_of<'a>(alias: &'a Option<Name>, name: &'a Name) -> RootKeys<'a>
    ensures { keys_view result ≡ key_sum (rules.key_of alias.now name.now) }
{
    match alias {
        Some(alias) => RootKeys::of_field(alias.as_str(), name.as_str()),
        None => RootKeys::of_field(name.as_str(), name.as_str()),
    }
}

/// Whether an inline fragment with this condition applies to the root type.
pub(crate) fn takes_root(schema: &Schema, root: &str, on: &Option<Name>) -> bool
    ensures { result ≡ rules.takes_root schema.now root.now on.now }
{
    match on {
        Some(name) => schema.applies(root, name.as_str()),
        None => true,
    }
}

/// The keys of the fields of a set, and of its inline fragments that apply to the root type,
/// whatever the directives say.
#[cycle(keys)]
pub(crate) fn keys_in<'a>(schema: &Schema, root: &str, selections: &'a Selections) -> RootKeys<'a>
    ensures { keys_view result ≡ sum_of (rules.keys_in schema.now root.now selections.now) }
{
    let mut keys = RootKeys::Absent;
    'selections: for selection in selections.as_slice() {
        let more = keys_at(schema, root, selection);
        keys = keys.and(&more);
    }
    keys
}

/// The keys of a selection.
#[cycle(keys)]
fn keys_at<'a>(schema: &Schema, root: &str, selection: &'a Selection) -> RootKeys<'a>
    ensures { keys_view result ≡ sum_of (keys_at schema.now root.now selection.now) }
{
    match selection {
        Selection::Field { alias, name, .. } => key_of(alias, name),
        Selection::Spread { .. } => RootKeys::Absent,
        Selection::Inline { on, selections, .. } => {
            if !takes_root(schema, root, on) {
                return RootKeys::Absent;
            }
            keys_in(schema, root, selections)
        }
    }
}
