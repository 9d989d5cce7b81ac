//! What stands in the place of local variables.
ghost use Rattle.std.specs.Prelude.{◌≡◌, ◌∷◌, [], Some, None, map, option_map, IfOk, OnOk};
ghost use Rattle.std.specs.Option.{option_or};
ghost use Rattle.plan_ir.specs.gql_ast.ValueView.{value_of};
ghost use Rattle.plan_ir.specs.gql_graph.Texts.{Text};
ghost use Rattle.plan_ir.specs.relay_marks.Connections.{value_of_name};
ghost use Rattle.plan_ir.specs.Substitution as spec;
ghost use Rattle.plan_expand.specs.ScopeView.{find_gift, scope_of};
ghost use Rattle.plan_expand.specs.LocalsView.{find_default};

use crate::locals::Locals;
use plan_ir::{
    Argument, Arguments, Directive, Directives, Name, NoMemory, ValueTree, ValueTrees, Words,
};
use std::alloc::Global;
use std::collections::BTreeMap;

/// The values that a spread gives, by the names of the local variables.
#[derive(Drop)]
pub struct Gifts<'a> {
    by_name: BTreeMap<&'a str, ValueTree>,
}

/// What stands in the place of variables.
#[derive(Drop)]
pub enum Scope<'e, 'a> {
    /// In an operation no variable is a local one.
    Operation,
    /// In a fragment that is expanded by itself: a local variable `x` stands as `:x`.
    Own(&'e Locals<'a>),
    /// In a fragment that is spread: the value that is given, else the default, else null.
    Spread {
        locals: &'e Locals<'a>,
        given: Gifts<'a>,
    },
}

/// The variable that stands in a fragment by itself for its local variable of that name.
fn own_variable(alloc: Global, name: &Name) -> Result<ValueTree, NoMemory>
    ensures { IfOk result (λ v. value_of v ≡ spec.mark_local name.now (Some None)) }
{
    let mut marked = String::from_str(alloc, ":")?;
    marked.push_str(name.as_str())?;
    Ok(ValueTree::Variable(Words::from_string(marked)))
}

/// The variable itself.
fn same_variable(name: &Name) -> Result<ValueTree, NoMemory>
    ensures { IfOk result (λ v. value_of v ≡ spec.operation_scope name.now) }
{
    Ok(ValueTree::Variable(name.copy()?))
}

/// The default, else null.
fn copy_default(default: &Option<ValueTree>) -> Result<ValueTree, NoMemory>
    ensures { IfOk result (λ v. value_of v ≡ spec.value_or None (option_map value_of default.now)) }
{
    match default {
        Some(value) => value.copy(),
        None => Ok(ValueTree::Null),
    }
}

impl<'a> Gifts<'a> {
    /// No value; takes no memory.
    fn new(alloc: Global) -> Gifts<'a>
        ensures { (n : Text) → find_gift result n ≡ None }
    {
        Gifts {
            by_name: BTreeMap::new(alloc),
        }
    }

    /// The value that is given to the local variable of a name; takes no memory.
    pub fn find(&self, name: &str) -> Option<&ValueTree>
        ensures { option_map (λ v. value_of v.now) result ≡ find_gift self.now name.now }
    {
        self.by_name.get(name)
    }

    /// The value that is given to the local variable of a name, else its default, else null.
    pub fn value_or(&self, name: &str, default: &Option<ValueTree>) -> Result<ValueTree, NoMemory>
        ensures { IfOk result (λ v. value_of v ≡ spec.value_or (find_gift self.now name.now) (option_map value_of default.now)) }
    {
        match self.find(name) {
            Some(value) => value.copy(),
            None => copy_default(default),
        }
    }

    /// Puts a value, unless one is given under that name.
    fn put(&mut self, name: &'a str, value: ValueTree) -> Result<(), NoMemory>
        ensures { OnOk result ((n : Text) → find_gift self.new n ≡ option_or (find_gift self.old n) (value_of_name ((name.now, value_of value) ∷ []) n)) }
    {
        if self.by_name.contains_key(name) {
            return Ok(());
        }
        drop(self.by_name.insert(name, value)?);
        Ok(())
    }

    /// Puts the arguments that a spread gives, their local variables replaced.
    fn put_arguments(
        &mut self,
        alloc: Global,
        scope: &Scope<'_, '_>,
        arguments: &'a Arguments,
    ) -> Result<(), NoMemory>
        ensures { OnOk result ((n : Text) → find_gift self.new n ≡ option_or (find_gift self.old n) (value_of_name (spec.substitute_in (scope_of scope.now) arguments.now) n)) }
    {
        'arguments: for argument in arguments.as_slice() {
            let value = substitute(alloc, scope, &argument.value)?;
            self.put(argument.name.as_str(), value)?;
        }
        Ok(())
    }

    /// Puts what a directive of a spread gives.
    fn put_directive(
        &mut self,
        alloc: Global,
        scope: &Scope<'_, '_>,
        directive: &'a Directive,
    ) -> Result<(), NoMemory>
        ensures { OnOk result ((n : Text) → find_gift self.new n ≡ option_or (find_gift self.old n) (value_of_name (spec.substitute_in (scope_of scope.now) (spec.arguments_in directive.now)) n)) }
    {
        if directive.name.as_str() == "arguments" {
            return self.put_arguments(alloc, scope, &directive.arguments);
        }
        Ok(())
    }
}

/// What a spread gives.
pub fn gifts_at<'a>(
    alloc: Global,
    scope: &Scope<'_, '_>,
    directives: &'a Directives,
) -> Result<Gifts<'a>, NoMemory>
    ensures { IfOk result (λ given. (n : Text) → find_gift given n ≡ value_of_name (spec.arguments_at_spread (scope_of scope.now) directives.now) n) }
{
    let mut given = Gifts::new(alloc);
    'directives: for directive in directives.as_slice() {
        given.put_directive(alloc, scope, directive)?;
    }
    Ok(given)
}

/// The scope of a fragment that is spread with these directives, under the scope around it.
pub fn scope_at_spread<'e, 'a>(
    alloc: Global,
    scope: &Scope<'_, '_>,
    locals: &'e Locals<'a>,
    directives: &'a Directives,
) -> Result<Scope<'e, 'a>, NoMemory>
    ensures { IfOk result (λ inner. (n : Text) → scope_of inner n
        ≡ spec.value_of_local (spec.arguments_at_spread (scope_of scope.now) directives.now) n (find_default locals.now n)) }
{
    let given = gifts_at(alloc, scope, directives)?;
    Ok(Scope::Spread { locals, given })
}

/// What stands in the place of a variable.
fn value_in(alloc: Global, scope: &Scope<'_, '_>, name: &Name) -> Result<ValueTree, NoMemory>
    ensures { IfOk result (λ v. value_of v ≡ scope_of scope.now name.now) }
{
    match scope {
        Scope::Operation => same_variable(name),
        Scope::Own(locals) => match locals.find(name.as_str()) {
            Some(_) => own_variable(alloc, name),
            None => same_variable(name),
        },
        Scope::Spread { locals, given } => match locals.find(name.as_str()) {
            Some(local) => given.value_or(name.as_str(), &local.default),
            None => same_variable(name),
        },
    }
}

/// The value with its local variables replaced. What is put in is not looked at again.
#[cycle(substitute)]
#[tactic(auto, using(crate::proofs::Substituting::levels))]
pub fn substitute(
    alloc: Global,
    scope: &Scope<'_, '_>,
    value: &ValueTree,
) -> Result<ValueTree, NoMemory>
    ensures { IfOk result (λ v. value_of v ≡ spec.substitute (scope_of scope.now) (value_of value.now)) }
{
    match value {
        ValueTree::Variable(name) => value_in(alloc, scope, name),
        ValueTree::List(values) => Ok(ValueTree::List(substitute_items(alloc, scope, values)?)),
        ValueTree::Object(fields) => Ok(ValueTree::Object(substitute_in(alloc, scope, fields)?)),
        ValueTree::Int(_)
        | ValueTree::Text(_)
        | ValueTree::Bool(_)
        | ValueTree::Null
        | ValueTree::Enum(_) => value.copy(),
    }
}

/// The values with their local variables replaced.
#[cycle(substitute)]
fn substitute_items(
    alloc: Global,
    scope: &Scope<'_, '_>,
    values: &ValueTrees,
) -> Result<ValueTrees, NoMemory>
    ensures { IfOk result (λ vs. vs ≡ map (spec.substitute (scope_of scope.now)) values.now) }
{
    let mut items = ValueTrees::new(alloc);
    'values: for value in &values.items {
        items.push(substitute(alloc, scope, value)?)?;
    }
    Ok(items)
}

/// The arguments with the local variables in their values replaced.
#[cycle(substitute)]
pub fn substitute_in(
    alloc: Global,
    scope: &Scope<'_, '_>,
    arguments: &Arguments,
) -> Result<Arguments, NoMemory>
    ensures { IfOk result (λ xs. xs ≡ spec.substitute_in (scope_of scope.now) arguments.now) }
{
    let mut items = Arguments::new(alloc);
    'arguments: for argument in &arguments.items {
        items.push(Argument {
            name: argument.name.copy()?,
            value: substitute(alloc, scope, &argument.value)?,
        })?;
    }
    Ok(items)
}
