//! The variables that are used in fragments, by the names of the fragments.
ghost use Rattle.std.specs.Prelude.{◌≡◌, ◌++◌, [], List, map, option_map, IfOk, OnOk};
ghost use Rattle.doc_sites.specs.schema_types.ArgumentRules as rules;
ghost use Rattle.doc_sites.specs.gql_graph.Seen.{Knows};
ghost use Rattle.doc_sites.specs.gql_graph.Texts.{Text};
ghost use Rattle.doc_sites.specs.SitesView.{fragment_of};
ghost use Rattle.doc_uses.specs.UsesByName.{Gathers, uses_found, named_uses};
ghost use Rattle.doc_uses.specs.Parts.{free_part, free_use, free_uses};
ghost use Rattle.doc_uses.specs.UseView.{use_of};

use crate::uses::Use;
use doc_sites::seen::Seen;
use doc_sites::{FragmentAt, NoMemory, locals_in};
use std::alloc::Global;
use std::collections::BTreeMap;

/// The variables that are used in fragments, without the local ones of each, by the names of the
/// fragments.
#[derive(Drop)]
pub struct UsesByName<'p, 'a> {
    by_name: BTreeMap<&'a str, Vec<Use<'p, 'a>>>,
}

impl<'p, 'a> UsesByName<'p, 'a> {
    /// No fragment; takes no memory.
    pub fn new(alloc: Global) -> UsesByName<'p, 'a>
        ensures { Gathers result (λ n. []) }
    {
        UsesByName {
            by_name: BTreeMap::new(alloc),
        }
    }

    /// Puts a fragment with the uses in it, after others of its name. Uses of its local variables are
    /// left out.
    ///
    /// # Errors
    ///
    /// `NoMemory`.
    pub fn put(
        &mut self,
        alloc: Global,
        fragment: &FragmentAt<'a>,
        uses: &[Use<'p, 'a>],
    ) -> Result<(), NoMemory>
        ensures { (tells : Text → List rules.Use) → Gathers self.old tells
            → OnOk result (Gathers self.new (λ n. tells n ++ named_uses (free_part (fragment_of fragment.now) (map use_of uses.now)) n)) }
    {
        let free = without_locals(alloc, fragment, uses)?;
        self.put_named(alloc, fragment.name.name, &free)
    }

    /// The variables that are used in the fragments of a name; takes no memory.
    pub(crate) fn uses(&self, name: &str) -> &[Use<'p, 'a>]
        ensures { (tells : Text → List rules.Use) → Gathers self.now tells → map use_of result.now ≡ tells name.now }
    {
        self.find(name).unwrap_or_default()
    }

    /// The variables that are used in the fragments of a name, where there is one.
    fn find(&self, name: &str) -> Option<&[Use<'p, 'a>]>
        ensures { option_map (λ us. map use_of us.now) result ≡ uses_found self.now name.now }
    {
        match self.by_name.get(name) {
            Some(uses) => Some(uses.as_slice()),
            None => None,
        }
    }

    /// Puts uses in a fragment of a name, after others of its name.
    fn put_named(
        &mut self,
        alloc: Global,
        name: &'a str,
        more: &[Use<'p, 'a>],
    ) -> Result<(), NoMemory>
        ensures { (tells : Text → List rules.Use) → Gathers self.old tells
            → OnOk result (Gathers self.new (λ n. tells n ++ named_uses (name.now, map use_of more.now) n)) }
    {
        let mut uses = Vec::new(alloc);
        uses.extend_from_slice(self.uses(name))?;
        uses.extend_from_slice(more)?;
        drop(self.by_name.insert(name, uses)?);
        Ok(())
    }
}

/// The uses of variables that are no local ones of the fragment.
fn without_locals<'p, 'a>(
    alloc: Global,
    fragment: &FragmentAt<'a>,
    uses: &[Use<'p, 'a>],
) -> Result<Vec<Use<'p, 'a>>, NoMemory>
    ensures { IfOk result (λ us. map use_of us.items ≡ free_uses (rules.local_names (fragment_of fragment.now)) (map use_of uses.now)) }
{
    let locals = locals_in(alloc, &fragment.directives)?;
    let free = free_uses(alloc, &locals, uses)?;
    Ok(free)
}

/// The uses of variables that are none of these.
fn free_uses<'p, 'a>(
    alloc: Global,
    locals: &Seen<'_>,
    uses: &[Use<'p, 'a>],
) -> Result<Vec<Use<'p, 'a>>, NoMemory>
    ensures { (ns : List Text) → Knows locals.now.names ns → IfOk result (λ us. map use_of us.items ≡ free_uses ns (map use_of uses.now)) }
{
    let mut rest = Vec::new(alloc);
    'uses: for one in uses {
        put_free(locals, &mut rest, one)?;
    }
    Ok(rest)
}

/// Puts a use, unless its variable is one of these.
fn put_free<'p, 'a>(
    locals: &Seen<'_>,
    rest: &mut Vec<Use<'p, 'a>>,
    one: &Use<'p, 'a>,
) -> Result<(), NoMemory>
    ensures { (ns : List Text) → Knows locals.now.names ns → OnOk result (map use_of rest.new.items ≡ map use_of rest.old.items ++ free_use ns (use_of one.now)) }
{
    if locals.contains(one.name.name) {
        return Ok(());
    }
    rest.push(*one)?;
    Ok(())
}
