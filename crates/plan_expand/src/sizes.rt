//! How large the values of local variables are.
ghost use Rattle.std.specs.Prelude.{◌≡◌, Some, None, option_map, IfOk, OnOk};
ghost use Rattle.std.specs.Option.{option_or};
ghost use Rattle.plan_ir.specs.gql_graph.Rules.{each};
ghost use Rattle.plan_ir.specs.gql_graph.Texts.{Text};
ghost use Rattle.plan_ir.specs.relay_marks.Connections.{value_of_name};
ghost use Rattle.plan_ir.specs.Substitution.{arguments_in};
ghost use Rattle.plan_expand.specs.Sizes as spec;
ghost use Rattle.plan_expand.specs.Measuring.{gift_size_or, sizes_at_spread};
ghost use Rattle.plan_expand.specs.SizesView.{find_size, sizes_of, size_named};
ghost use Rattle.plan_expand.specs.LocalsView.{find_local_size};

use crate::locals::Locals;
use crate::size::Size;
use crate::values::size_of;
use plan_ir::{Arguments, Directive, Directives, NoMemory};
use std::alloc::Global;
use std::collections::BTreeMap;

/// The sizes of the values that a spread gives, by the names of the local variables.
#[derive(Drop)]
pub(crate) struct GiftSizes<'a> {
    by_name: BTreeMap<&'a str, Size>,
}

/// How large what stands in the place of variables is.
#[derive(Drop)]
pub(crate) enum SizeScope<'w, 'a> {
    /// In an operation, and in a fragment that is expanded by itself: each variable is a node.
    Own,
    /// In a fragment that is spread.
    Spread {
        locals: &'w Locals<'a>,
        given: GiftSizes<'a>,
    },
}

impl<'a> GiftSizes<'a> {
    /// No value; takes no memory.
    fn new(alloc: Global) -> GiftSizes<'a>
        ensures { (n : Text) → find_size result n ≡ None }
    {
        GiftSizes {
            by_name: BTreeMap::new(alloc),
        }
    }

    /// The size of the value that is given to the local variable of a name, else that of its default;
    /// takes no memory.
    fn find_or(&self, name: &str, default: Size) -> Size
        ensures { result ≡ gift_size_or (find_size self.now name.now) (Some default) }
    {
        match self.by_name.get(name) {
            Some(size) => *size,
            None => default,
        }
    }

    /// Puts a size, unless a value is given under that name.
    fn put(&mut self, name: &'a str, size: Size) -> Result<(), NoMemory>
        ensures { OnOk result ((n : Text) → find_size self.new n ≡ option_or (find_size self.old n) (size_named name.now size n)) }
    {
        if self.by_name.contains_key(name) {
            return Ok(());
        }
        let _ = self.by_name.insert(name, size)?;
        Ok(())
    }

    /// Puts the sizes of the arguments that a spread gives.
    fn put_arguments(
        &mut self,
        scope: &SizeScope<'_, '_>,
        arguments: &'a Arguments,
    ) -> Result<(), NoMemory>
        ensures { OnOk result ((n : Text) → find_size self.new n
            ≡ option_or (find_size self.old n) (option_map (spec.size_in (sizes_of scope.now)) (value_of_name arguments.now n))) }
    {
        'arguments: for argument in arguments.as_slice() {
            let size = size_of(scope, &argument.value)?;
            self.put(argument.name.as_str(), size)?;
        }
        Ok(())
    }

    /// Puts the sizes of what a directive of a spread gives.
    fn put_directive(
        &mut self,
        scope: &SizeScope<'_, '_>,
        directive: &'a Directive,
    ) -> Result<(), NoMemory>
        ensures { OnOk result ((n : Text) → find_size self.new n
            ≡ option_or (find_size self.old n) (option_map (spec.size_in (sizes_of scope.now)) (value_of_name (arguments_in directive.now) n))) }
    {
        if directive.name.as_str() == "arguments" {
            return self.put_arguments(scope, &directive.arguments);
        }
        Ok(())
    }
}

/// The sizes of what a spread gives.
fn gift_sizes<'a>(
    alloc: Global,
    scope: &SizeScope<'_, '_>,
    directives: &'a Directives,
) -> Result<GiftSizes<'a>, NoMemory>
    ensures { IfOk result (λ given. (n : Text) → find_size given n
        ≡ option_map (spec.size_in (sizes_of scope.now)) (value_of_name (each arguments_in directives.now) n)) }
{
    let mut given = GiftSizes::new(alloc);
    'directives: for directive in directives.as_slice() {
        given.put_directive(scope, directive)?;
    }
    Ok(given)
}

impl<'w, 'a> SizeScope<'w, 'a> {
    /// The size of what stands in the place of the variable; takes no memory.
    pub(crate) fn find(&self, name: &str) -> Size
        ensures { result ≡ sizes_of self.now name.now }
    {
        match self {
            SizeScope::Own => Size::one(),
            SizeScope::Spread { locals, given } => match locals.find(name) {
                Some(local) => given.find_or(name, local.size),
                None => Size::one(),
            },
        }
    }

    /// The scope of a fragment with these local variables that is spread with these directives.
    pub(crate) fn at_spread(
        &self,
        alloc: Global,
        locals: &'w Locals<'a>,
        directives: &'a Directives,
    ) -> Result<SizeScope<'w, 'a>, NoMemory>
        ensures { IfOk result (λ inner. (n : Text) → sizes_of inner n
            ≡ sizes_at_spread (sizes_of self.now) directives.now (find_local_size locals.now) n) }
    {
        let given = gift_sizes(alloc, self, directives)?;
        Ok(SizeScope::Spread { locals, given })
    }
}
