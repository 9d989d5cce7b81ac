//! The fragments of a project, ready to be spread.
ghost use Rattle.std.specs.Prelude.{◌≡◌, None, map, option_map, IfOk, OnOk};
ghost use Rattle.std.specs.Option.{option_or};
ghost use Rattle.plan_ir.specs.gql_graph.Texts.{Text};
ghost use Rattle.plan_ir.specs.Projects.{place_in};
ghost use Rattle.doc_sites.specs.SitesView.{definition_of, fragment_of};
ghost use Rattle.plan_expand.specs.ReadyView.{HasFragments, find_in, ready_fragment, ready_in, ready_named, ready_of};
ghost use Rattle.plan_ir.specs.schema_types.NameRules as rules;

use crate::locals::Locals;
use crate::places::site_places;
use doc_sites::{DefinitionAt, FragmentAt};
use plan_ir::{FilePlace, NoMemory, Selections};
use std::alloc::Global;
use std::collections::BTreeMap;

/// A fragment, with its local variables and the places of its selections.
#[derive(Drop)]
pub(crate) struct ReadyFragment<'a> {
    pub(crate) on: &'a str,
    pub(crate) selections: &'a Selections,
    pub(crate) locals: Locals<'a>,
    /// Those of its selections.
    pub(crate) places: Vec<FilePlace>,
}

/// The fragments of a project by their names. Of several of one name the first counts.
#[derive(Drop)]
pub(crate) struct Fragments<'a> {
    by_name: BTreeMap<&'a str, ReadyFragment<'a>>,
}

/// A fragment, ready to be spread.
fn ready_fragment<'a>(
    alloc: Global,
    nodes: &[FilePlace],
    fragment: &FragmentAt<'a>,
) -> Result<ReadyFragment<'a>, NoMemory>
    ensures { IfOk result (λ r. ready_of r ≡ ready_fragment (place_in nodes.now) (fragment_of fragment.now)) }
{
    let locals = Locals::of(alloc, &fragment.directives)?;
    let places = site_places(alloc, nodes, &fragment.sites)?;
    Ok(ReadyFragment {
        on: fragment.on.name,
        selections: fragment.selections,
        locals,
        places,
    })
}

impl<'a> Fragments<'a> {
    /// No fragment; takes no memory.
    fn new(alloc: Global) -> Fragments<'a>
        ensures { (n : Text) → find_in result n ≡ None }
    {
        Fragments {
            by_name: BTreeMap::new(alloc),
        }
    }

    /// The fragment of a name; takes no memory.
    pub(crate) fn find(&self, name: &str) -> Option<&ReadyFragment<'a>>
        ensures { option_map (λ f. ready_of f.now) result ≡ find_in self.now name.now }
    {
        self.by_name.get(name)
    }

    /// Puts a fragment, unless there is one of its name.
    fn put(&mut self, name: &'a str, fragment: ReadyFragment<'a>) -> Result<(), NoMemory>
        ensures { OnOk result ((n : Text) → find_in self.new n ≡ option_or (find_in self.old n) (ready_named name.now (ready_of fragment.entry) n)) }
    {
        if self.by_name.contains_key(name) {
            return Ok(());
        }
        drop(self.by_name.insert(name, fragment)?);
        Ok(())
    }

    /// Puts a definition, where it is a fragment.
    fn put_definition(
        &mut self,
        alloc: Global,
        nodes: &[FilePlace],
        definition: &DefinitionAt<'a>,
    ) -> Result<(), NoMemory>
        ensures { OnOk result ((n : Text) → find_in self.new n ≡ option_or (find_in self.old n) (ready_in (place_in nodes.now) (definition_of definition.now) n)) }
    {
        match definition {
            DefinitionAt::Operation(_) => Ok(()),
            DefinitionAt::Fragment(fragment) => {
                let ready = ready_fragment(alloc, nodes, fragment)?;
                self.put(fragment.name.name, ready)?;
                Ok(())
            }
        }
    }

    /// The fragments among definitions.
    pub(crate) fn of(
        alloc: Global,
        nodes: &[FilePlace],
        definitions: &[DefinitionAt<'a>],
    ) -> Result<Fragments<'a>, NoMemory>
        ensures { IfOk result (λ fragments. HasFragments (place_in nodes.now) (find_in fragments) (rules.fragments (map definition_of definitions.now))) }
    {
        let mut fragments = Fragments::new(alloc);
        'definitions: for definition in definitions {
            fragments.put_definition(alloc, nodes, definition)?;
        }
        Ok(fragments)
    }
}
