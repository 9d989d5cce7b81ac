//! The keys of the fragments that apply to a root type, by the names of the fragments (GraphQL,
//! October 2021, section 5.2.3.1).
ghost use Rattle.std.specs.Prelude.{◌≡◌, cond, map, bytes_eq, option_map, IfOk, OnOk};
ghost use Rattle.doc_sites.specs.schema_types.NameRules as names;
ghost use Rattle.doc_sites.specs.gql_graph.Texts.{Text};
ghost use Rattle.doc_sites.specs.SitesView.{definition_of, fragment_of};
ghost use Rattle.doc_sites.specs.Definitions.{on_fragment};
ghost use Rattle.doc_fields.specs.Heads.{all_of, keys_found, keys_kept, keys_named, keys_of_name};
ghost use Rattle.doc_fields.specs.Keys.{join_sums, keys_view, no_key, sum_of};

use crate::keys::{RootKeys, keys_in};
use doc_sites::{DefinitionAt, FragmentAt, NoMemory, Schema};
use std::alloc::Global;
use std::collections::BTreeMap;

/// The keys of the fragments that apply to the root type, by the names of the fragments.
#[derive(Drop)]
pub(crate) struct Heads<'a> {
    by_name: BTreeMap<&'a str, RootKeys<'a>>,
}

impl<'a> Heads<'a> {
    /// No fragment; takes no memory.
    fn new(alloc: Global) -> Heads<'a>
        ensures { (n : Text) → keys_found result n ≡ no_key }
    {
        Heads {
            by_name: BTreeMap::new(alloc),
        }
    }

    /// The keys of the fragments of a name; takes no memory.
    pub(crate) fn keys(&self, name: &str) -> RootKeys<'a>
        ensures { keys_view result ≡ keys_found self.now name.now }
    {
        match self.by_name.get(name) {
            Some(keys) => *keys,
            None => RootKeys::Absent,
        }
    }

    /// The keys of the fragments of these names; takes no memory.
    pub(crate) fn keys_of_each(&self, names: &[&str]) -> RootKeys<'a>
        ensures { keys_view result ≡ all_of (keys_found self.now) (map (λ n. n.now) names.now) }
    {
        let mut keys = RootKeys::Absent;
        'names: for name in names {
            let more = self.keys(name);
            keys = keys.and(&more);
        }
        keys
    }

    /// Puts the keys of the fragments of a name, in place of those that were there.
    fn set(&mut self, name: &'a str, keys: &RootKeys<'a>) -> Result<(), NoMemory>
        ensures { OnOk result ((n : Text) → keys_found self.new n ≡ cond (bytes_eq name.now n) (keys_view keys.now) (keys_found self.old n)) }
    {
        let _before = self.by_name.insert(name, *keys)?;
        Ok(())
    }
}

/// The keys of the fragments among these definitions that apply to the root type.
pub(crate) fn heads_of_each<'a>(
    alloc: Global,
    schema: &Schema,
    root: &str,
    definitions: &[DefinitionAt<'a>],
) -> Result<Heads<'a>, NoMemory>
    ensures { IfOk result (λ heads. (n : Text) → keys_found heads n ≡ sum_of (keys_of_name schema.now root.now (names.fragments (map definition_of definitions.now)) n)) }
{
    let mut heads = Heads::new(alloc);
    'definitions: for definition in definitions {
        put_head_at(schema, root, &mut heads, definition)?;
    }
    Ok(heads)
}

/// Puts the keys of a definition that is a fragment, where it applies to the root type.
fn put_head_at<'a>(
    schema: &Schema,
    root: &str,
    heads: &mut Heads<'a>,
    definition: &DefinitionAt<'a>,
) -> Result<(), NoMemory>
    ensures { OnOk result ((n : Text) → keys_found heads.new n ≡ join_sums (keys_found heads.old n) (sum_of (on_fragment (keys_named schema.now root.now n) (definition_of definition.now)))) }
{
    match definition {
        DefinitionAt::Operation(_) => Ok(()),
        DefinitionAt::Fragment(fragment) => put_head(schema, root, heads, fragment),
    }
}

/// Puts the keys of a fragment to those of others of its name, where it applies to the root type.
fn put_head<'a>(
    schema: &Schema,
    root: &str,
    heads: &mut Heads<'a>,
    fragment: &FragmentAt<'a>,
) -> Result<(), NoMemory>
    ensures { OnOk result ((n : Text) → keys_found heads.new n ≡ join_sums (keys_found heads.old n) (sum_of (keys_named schema.now root.now n (fragment_of fragment.now)))) }
{
    if !schema.applies(root, fragment.on.name) {
        return Ok(());
    }
    let own = keys_in(schema, root, fragment.selections);
    let keys = heads.keys(fragment.name.name).and(&own);
    heads.set(fragment.name.name, &keys)
}
