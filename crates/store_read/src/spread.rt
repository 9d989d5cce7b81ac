//! Spreads that are not followed.
ghost use Rattle.std.specs.Prelude.{◌≡◌, map, IfOk};
ghost use Rattle.plan_ir.specs.gql_plain.Shown.{shown_members};
ghost use Rattle.plan_ir.specs.ReaderMeaning.{scope_in};
ghost use Rattle.store_read.specs.FieldView.{evaluated_in, pointer_of, spread_at};

use crate::field::PartAt;
use crate::members::first_of_each;
use plan_ir::{Arguments, Env, Name, NoMemory, Pairs, Plain, ReaderPlan, Words, evaluate};
use std::alloc::Global;

/// A spread that is not followed.
#[derive(Clone, Copy)]
pub struct SpreadAt<'p> {
    pub fragment: &'p Name,
    pub arguments: &'p Arguments,
    /// Whether the fragment is read where the spread stands.
    pub inline: bool,
    /// The fragment's steps, none where it is not read, and the environment.
    pub body: PartAt<'p>,
}

impl<'p> SpreadAt<'p> {
    /// The spread of a step; takes no memory.
    pub fn new(
        env: &'p Env,
        fragment: &'p Name,
        arguments: &'p Arguments,
        inline: &'p Option<ReaderPlan>,
    ) -> SpreadAt<'p>
        ensures { spread_at result ≡ pointer_of env.now.values fragment.now arguments.now inline.now }
    {
        match inline {
            Some(plan) => SpreadAt {
                fragment,
                arguments,
                inline: true,
                body: PartAt::new(env, plan),
            },
            None => SpreadAt {
                fragment,
                arguments,
                inline: false,
                body: PartAt { env, steps: None },
            },
        }
    }

    /// The values of the fragment's local variables, in byte order of their names.
    pub fn scope(&self, alloc: Global) -> Result<Pairs, NoMemory>
        ensures { IfOk result (λ scope. scope ≡ scope_in self.now.body.env.now.values self.now.arguments.now) }
    {
        first_of_each(values_of(alloc, self.body.env, self.arguments)?)
    }
}

/// The values of arguments, in written order.
fn values_of(
    alloc: Global,
    env: &Env,
    arguments: &Arguments,
) -> Result<Vec<(Words, Plain)>, NoMemory>
    ensures { IfOk result (λ values. shown_members values.items ≡ map (evaluated_in env.now.values) arguments.now) }
{
    let mut values = Vec::with_capacity(alloc, arguments.items.len())?;
    'arguments: for argument in &arguments.items {
        let name = argument.name.copy()?;
        values.push((name, evaluate(alloc, &argument.value, env)?))?;
    }
    Ok(values)
}
