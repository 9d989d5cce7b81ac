//! Fields of plans in the environments of their operations.
ghost use Rattle.std.specs.Prelude.{◌≡◌, None, option_copied, IfOk};
ghost use Rattle.plan_ir.specs.FieldKeys.{constant_key};
ghost use Rattle.plan_ir.specs.NormalMeaning.{ask_step, typename_ask};
ghost use Rattle.plan_ir.specs.Reader.{done};
ghost use Rattle.plan_ir.specs.ReaderMeaning.{field_item};
ghost use Rattle.plan_ir.specs.store_model.Items as items;
ghost use Rattle.plan_ir.specs.store_model.Items.{asked};
ghost use Rattle.plan_ir.specs.store_model.Walks as walks;
ghost use Rattle.store_read.specs.FieldView.{ask_at, asked_at, part_at, IsKept};

use plan_groups::{Call, FormAt};
use plan_ir::{
    Arguments, Conn, Env, Name, NoMemory, Pairs, ReaderPlan, ReaderSteps, SharedText, Words,
    evaluate_arguments, field_key, handle_key,
};
use std::alloc::Global;

/// Steps in the environment of their operation.
#[derive(Clone, Copy)]
pub struct PartAt<'p> {
    pub env: &'p Env,
    /// None where there is no step.
    pub steps: Option<&'p ReaderSteps>,
}

impl<'p> PartAt<'p> {
    /// The steps of a plan; takes no memory.
    pub fn new(env: &'p Env, plan: &'p ReaderPlan) -> PartAt<'p>
        ensures { part_at result ≡ record { environment = env.now.values; steps = plan.now.steps } }
    {
        PartAt {
            env,
            steps: Some(&plan.steps),
        }
    }

    /// The number of steps, those inside them not counted; takes no memory.
    pub(crate) fn len(&self) -> usize {
        match self.steps {
            Some(steps) => steps.len(),
            None => 0,
        }
    }
}

/// A field.
#[derive(Clone, Copy)]
pub struct FieldAt<'p> {
    pub response: &'p Name,
    /// None for the name of the type of the record.
    pub call: Option<Call<'p>>,
    pub connection: Option<&'p Conn>,
    pub form: FormAt<'p>,
    /// What stands below, and the environment.
    pub part: PartAt<'p>,
    /// The key that the field is stored under, where the plan keeps it.
    pub key: Option<&'p SharedText>,
}

impl<'p> FieldAt<'p> {
    /// The name of the type of the record; takes no memory.
    pub fn type_name(env: &'p Env, response: &'p Name) -> FieldAt<'p>
        ensures field { asked (asked_at result) ≡ field_item (typename_ask response.now) env.now.values done }
        ensures kept { IsKept result }
    {
        FieldAt {
            response,
            call: None,
            connection: None,
            form: FormAt::Typename,
            part: PartAt { env, steps: None },
            key: None,
        }
    }

    /// A field of a scalar or an enum, or of a list of these; takes no memory.
    pub fn leaf(
        env: &'p Env,
        response: &'p Name,
        name: &'p Name,
        arguments: &'p Arguments,
        key: Option<&'p SharedText>,
    ) -> FieldAt<'p>
        requires { option_copied key ≡ constant_key name.now arguments.now }
        ensures field { asked (asked_at result) ≡ field_item (ask_step env.now.values response.now name.now arguments.now None items.leaf) env.now.values done }
        ensures kept { IsKept result }
    {
        FieldAt {
            response,
            call: Some(Call { name, arguments }),
            connection: None,
            form: FormAt::Leaf,
            part: PartAt { env, steps: None },
            key,
        }
    }

    /// The key that the field is read under: that of its connection, or its own where it has none, which
    /// the plan may keep.
    pub fn read_key(&self, alloc: Global) -> Result<SharedText, NoMemory>
        requires { IsKept self.now }
        ensures { IfOk result (λ key. key ≡ walks.read_key (ask_at self.now)) }
    {
        match self.connection {
            Some(connection) => {
                let key = handle_key(alloc, connection, &self.arguments(alloc)?)?;
                SharedText::new(alloc, key)
            }
            None => self.own_key(alloc),
        }
    }

    /// The values of the arguments.
    fn arguments(&self, alloc: Global) -> Result<Pairs, NoMemory>
        ensures { IfOk result (λ arguments. arguments ≡ (ask_at self.now).arguments) }
    {
        match self.call {
            Some(call) => evaluate_arguments(alloc, call.arguments, self.part.env),
            None => Ok(Pairs::new(alloc)),
        }
    }

    /// The key that the field is stored under: one more owner of the one that the plan keeps, where it
    /// keeps it.
    fn own_key(&self, alloc: Global) -> Result<SharedText, NoMemory>
        requires { IsKept self.now }
        ensures { IfOk result (λ key. key ≡ items.key_of (ask_at self.now)) }
    {
        match self.key {
            Some(key) => key.copy(),
            None => SharedText::new(alloc, self.made_key(alloc)?),
        }
    }

    /// The key that the field is stored under, made of its name and the values of its arguments.
    fn made_key(&self, alloc: Global) -> Result<Words, NoMemory>
        ensures { IfOk result (λ key. key ≡ items.key_of (ask_at self.now)) }
    {
        match self.call {
            Some(call) => field_key(alloc, call.name, &self.arguments(alloc)?),
            None => Words::new(alloc, "__typename"),
        }
    }
}
