//! The local variables of fragments by their names, for all spreads at once; of several of one name the
//! first counts.
ghost use Rattle.std.specs.Prelude.{◌≡◌, ◌∷◌, ◌++◌, List, map, option_map, IfOk, OnOk};
ghost use Rattle.std.specs.BTreeMap.{get_by};
ghost use Rattle.std.specs.Cmp.Lexicographic.{slice_cmp};
ghost use Rattle.std.specs.Ordering.{nat_cmp};
ghost use Rattle.constant_values.specs.gql_graph.Rules.{each};
ghost use Rattle.constant_values.specs.gql_graph.Texts.{Text};
ghost use Rattle.doc_uses.specs.doc_sites.SitesView.{definition_of};
ghost use Rattle.relay_marks.specs.Locals as spec;
ghost use Rattle.relay_rules.specs.Spreads.{must_be_given};
ghost use Rattle.relay_dirs.specs.Tables.{NamesFragments, Serves, fragment_locals, pair_of, required_name, table_found};
ghost use Rattle.relay_marks.specs.View.{local_view};

use crate::located_locals::locals_of;
use constant_values::type_forms::is_non_null;
use doc_uses::DefinitionAt;
use gql_syntax::gql_ast::{VariableDef, VariableDefs};
use gql_syntax::gql_plain::NoMemory;
use std::alloc::Global;
use std::collections::BTreeMap;

/// A fragment's name and its local variables.
#[derive(Drop)]
pub(crate) struct FragmentLocals<'a> {
    name: &'a str,
    locals: VariableDefs,
}

/// The fragments among definitions with their local variables, in order.
pub(crate) fn list_locals<'a>(
    alloc: Global,
    definitions: &[DefinitionAt<'a>],
) -> Result<Vec<FragmentLocals<'a>>, NoMemory>
    ensures { IfOk result (λ all. map pair_of all.items ≡ each fragment_locals (map definition_of definitions.now)) }
{
    let mut all = Vec::new(alloc);
    'definitions: for definition in definitions {
        put_locals(alloc, &mut all, definition)?;
    }
    Ok(all)
}

/// Puts a definition, where it is a fragment.
fn put_locals<'a>(
    alloc: Global,
    all: &mut Vec<FragmentLocals<'a>>,
    definition: &DefinitionAt<'a>,
) -> Result<(), NoMemory>
    ensures { OnOk result (map pair_of all.new.items ≡ map pair_of all.old.items ++ fragment_locals (definition_of definition.now)) }
{
    match definition {
        DefinitionAt::Operation(_) => Ok(()),
        DefinitionAt::Fragment(fragment) => {
            let locals = locals_of(alloc, &fragment.directives)?;
            all.push(FragmentLocals {
                name: fragment.name.name,
                locals,
            })?;
            Ok(())
        }
    }
}

/// The local variables of a fragment by their names.
#[derive(Drop)]
pub(crate) struct Locals<'p> {
    by_name: BTreeMap<&'p str, &'p VariableDef>,
    /// The names of those that must be given.
    pub(crate) required: Vec<&'p str>,
}

impl<'p> Locals<'p> {
    /// These local variables.
    pub(crate) fn of(alloc: Global, locals: &'p [VariableDef]) -> Result<Locals<'p>, NoMemory>
        ensures { IfOk result (λ table. Serves table (map local_view locals.now)) }
    {
        let by_name = index(alloc, locals)?;
        let required = required_names(alloc, locals)?;
        Ok(Locals { by_name, required })
    }

    /// The local variable of a name; takes no memory.
    pub(crate) fn find(&self, name: &str) -> Option<&'p VariableDef>
        ensures { (ls : List spec.Local) → Serves self.now ls → option_map (λ v. local_view v.now) result ≡ spec.local_named ls name.now }
    {
        self.by_name.get(name).copied()
    }
}

/// Local variables by their names.
fn index<'p>(
    alloc: Global,
    locals: &'p [VariableDef],
) -> Result<BTreeMap<&'p str, &'p VariableDef>, NoMemory>
    ensures { IfOk result (λ table. (n : Text) → option_map (λ v. local_view v.now) (get_by (λ k. slice_cmp nat_cmp n k.now) table) ≡ spec.local_named (map local_view locals.now) n) }
{
    let mut by_name = BTreeMap::new(alloc);
    let mut left = locals.len();
    'locals: while left > 0 {
        left -= 1;
        let local = &locals[left];
        drop(by_name.insert(local.name.as_str(), local)?);
    }
    Ok(by_name)
}

/// The names of the local variables that must be given.
fn required_names<'p>(alloc: Global, locals: &'p [VariableDef]) -> Result<Vec<&'p str>, NoMemory>
    ensures { IfOk result (λ ns. map (λ n. n.now) ns.items ≡ each required_name (map local_view locals.now)) }
{
    let mut names = Vec::new(alloc);
    'locals: for local in locals {
        put_required(&mut names, local)?;
    }
    Ok(names)
}

/// Puts the name of a local variable, where it must be given.
fn put_required<'p>(names: &mut Vec<&'p str>, local: &'p VariableDef) -> Result<(), NoMemory>
    ensures { OnOk result (map (λ n. n.now) names.new.items ≡ map (λ n. n.now) names.old.items ++ required_name (local_view local.now)) }
{
    if must_be_given(local) {
        names.push(local.name.as_str())?;
    }
    Ok(())
}

/// Whether a local variable must be given: it is of a non-null type and has no default.
fn must_be_given(local: &VariableDef) -> bool
    ensures { result ≡ must_be_given (local_view local.now) }
{
    is_non_null(&local.of) && local.default.is_none()
}

/// The local variables of fragments, by the names of the fragments.
#[derive(Drop)]
pub(crate) struct Fragments<'p> {
    by_name: BTreeMap<&'p str, Locals<'p>>,
}

impl<'p> Fragments<'p> {
    /// These fragments.
    pub(crate) fn of<'a>(
        alloc: Global,
        all: &'p [FragmentLocals<'a>],
    ) -> Result<Fragments<'p>, NoMemory>
        ensures { IfOk result (λ table. NamesFragments table (map pair_of all.now)) }
    {
        let mut table = Fragments {
            by_name: BTreeMap::new(alloc),
        };
        let mut left = all.len();
        'fragments: while left > 0 {
            left -= 1;
            table.put(alloc, &all[left])?;
        }
        Ok(table)
    }

    /// Puts a fragment in front of the others.
    fn put<'a>(&mut self, alloc: Global, fragment: &'p FragmentLocals<'a>) -> Result<(), NoMemory>
        ensures { (pairs : List (Text × List spec.Local)) → NamesFragments self.old pairs → OnOk result (NamesFragments self.new (pair_of fragment.now ∷ pairs)) }
    {
        let locals = Locals::of(alloc, fragment.locals.as_slice())?;
        drop(self.by_name.insert(fragment.name, locals)?);
        Ok(())
    }

    /// The local variables of the fragment of a name, where there is one; takes no memory.
    pub(crate) fn find(&self, name: &str) -> Option<&Locals<'p>>
        ensures { option_map (λ t. t.now) result ≡ table_found self.now name.now }
    {
        self.by_name.get(name)
    }
}
