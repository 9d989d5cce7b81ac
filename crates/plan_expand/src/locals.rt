//! The local variables of fragments: the arguments of `@argumentDefinitions`, after Relay.
ghost use Rattle.std.specs.Prelude.{◌≡◌, None, map, option_map, IfOk, OnOk};
ghost use Rattle.std.specs.Option.{option_or};
ghost use Rattle.plan_ir.specs.gql_ast.ValueView.{value_of};
ghost use Rattle.plan_ir.specs.gql_graph.Rules.{each};
ghost use Rattle.plan_ir.specs.gql_graph.Texts.{Text};
ghost use Rattle.doc_sites.specs.SitesView.{argument_of, directive_of};
ghost use Rattle.plan_ir.specs.relay_marks.Locals as spec;
ghost use Rattle.plan_ir.specs.Substitution.{default_named};
ghost use Rattle.plan_expand.specs.LocalsView.{Keeps, default_under, find_default, find_local};
ghost use Rattle.plan_expand.specs.Sizes.{default_size};

use crate::local::Local;
use crate::size::Size;
use crate::sizes::SizeScope;
use crate::values::size_of;
use doc_sites::{ArgumentAt, DirectiveAt};
use plan_ir::{NoMemory, ValueTree, local_of};
use std::alloc::Global;
use std::collections::BTreeMap;

/// The local variables of a fragment by their names. Of several of one name the first counts.
#[derive(Drop)]
pub struct Locals<'a> {
    by_name: BTreeMap<&'a str, Local>,
}

/// The size of a default, or of `null` where there is none.
fn size_of_default(default: &Option<ValueTree>) -> Result<Size, NoMemory>
    ensures { IfOk result (λ size. size ≡ default_size (option_map value_of default.now)) }
{
    let scope = SizeScope::Own;
    match default {
        Some(value) => {
            let size = size_of(&scope, value)?;
            Ok(size)
        }
        None => Ok(Size::one()),
    }
}

impl<'a> Locals<'a> {
    /// No local variable; takes no memory.
    fn new(alloc: Global) -> Locals<'a>
        ensures { (n : Text) → find_default result n ≡ None }
    {
        Locals {
            by_name: BTreeMap::new(alloc),
        }
    }

    /// Puts a local variable, unless there is one of its name.
    fn put(&mut self, name: &'a str, default: Option<ValueTree>) -> Result<(), NoMemory>
        ensures { OnOk result ((n : Text) → find_default self.new n
            ≡ option_or (find_default self.old n) (default_under name.now (option_map value_of default) n)) }
    {
        if self.by_name.contains_key(name) {
            return Ok(());
        }
        let size = size_of_default(&default)?;
        drop(self.by_name.insert(name, Local { default, size })?);
        Ok(())
    }

    /// Puts the local variable that an argument defines, where it defines one.
    fn put_argument(&mut self, alloc: Global, argument: &ArgumentAt<'a>) -> Result<(), NoMemory>
        ensures { OnOk result ((n : Text) → find_default self.new n
            ≡ option_or (find_default self.old n) (default_named (spec.local_at (argument_of argument.now)) n)) }
    {
        match local_of(alloc, argument.name.name, argument.value.of)? {
            Some(local) => {
                self.put(argument.name.name, local.default)?;
                Ok(())
            }
            None => Ok(()),
        }
    }

    /// Puts the local variables that these arguments define.
    fn put_arguments(&mut self, alloc: Global, arguments: &[ArgumentAt<'a>]) -> Result<(), NoMemory>
        ensures { OnOk result ((n : Text) → find_default self.new n
            ≡ option_or (find_default self.old n) (default_named (each spec.local_at (map argument_of arguments.now)) n)) }
    {
        'arguments: for argument in arguments {
            self.put_argument(alloc, argument)?;
        }
        Ok(())
    }

    /// Puts the local variables that a directive defines.
    fn put_directive(&mut self, alloc: Global, directive: &DirectiveAt<'a>) -> Result<(), NoMemory>
        ensures { OnOk result ((n : Text) → find_default self.new n
            ≡ option_or (find_default self.old n) (default_named (spec.locals_at (directive_of directive.now)) n)) }
    {
        if directive.name.name == "argumentDefinitions" {
            return self.put_arguments(alloc, &directive.arguments);
        }
        Ok(())
    }

    /// The local variables that a fragment's directives define.
    pub fn of(alloc: Global, directives: &[DirectiveAt<'a>]) -> Result<Locals<'a>, NoMemory>
        ensures { IfOk result (λ table. Keeps table (spec.locals_of (map directive_of directives.now))) }
    {
        let mut locals = Locals::new(alloc);
        'directives: for directive in directives {
            locals.put_directive(alloc, directive)?;
        }
        Ok(locals)
    }

    /// The local variable of a name; takes no memory.
    pub fn find(&self, name: &str) -> Option<&Local>
        ensures { option_map (λ l. l.now) result ≡ find_local self.now name.now }
    {
        self.by_name.get(name)
    }
}
