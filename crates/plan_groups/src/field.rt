//! Fields of plans in the environments of their operations.
ghost use Rattle.std.specs.Prelude.{◌≡◌, None, option_copied, IfOk};
ghost use Rattle.plan_ir.specs.Normal.{done};
ghost use Rattle.plan_ir.specs.NormalMeaning.{ask_step, below_step, item_of, object_form, typename_ask};
ghost use Rattle.plan_ir.specs.store_model.Items as items;
ghost use Rattle.plan_ir.specs.store_model.Items.{asked};
ghost use Rattle.plan_ir.specs.store_model.Reaches.{types_of};
ghost use Rattle.plan_ir.specs.store_model.Says.{first_of};
ghost use Rattle.plan_ir.specs.FieldKeys.{constant_key};
ghost use Rattle.plan_groups.specs.FieldView.{ask_at, asked_at, form_at, plan_at, IsKept};

use plan_ir::{
    Arguments, Conn, Env, Ids, Name, NoMemory, NormalPlan, NormalSteps, Pairs, SharedText, Words,
    evaluate_arguments, field_key,
};
use std::alloc::Global;

/// Steps in the environment of their operation.
#[derive(Clone, Copy)]
pub struct PlanAt<'p> {
    pub env: &'p Env,
    /// None where there is no step.
    pub steps: Option<&'p NormalSteps>,
}

impl<'p> PlanAt<'p> {
    /// The steps of a plan; takes no memory.
    pub fn new(env: &'p Env, plan: &'p NormalPlan) -> PlanAt<'p>
        ensures { plan_at result ≡ record { environment = env.now.values; steps = plan.now.steps } }
    {
        PlanAt {
            env,
            steps: Some(&plan.steps),
        }
    }

    /// The number of steps, those inside them not counted; takes no memory.
    pub(crate) fn len(&self) -> usize {
        match self.steps {
            Some(steps) => steps.len(),
            None => 0,
        }
    }
}

/// What a field of objects leads to.
#[derive(Clone, Copy)]
pub struct BelowAt<'p> {
    /// The possible types.
    pub types: &'p Ids,
    /// Those of them that have an id.
    pub identified: &'p Ids,
    /// Whether the named type is abstract.
    pub open_type: bool,
}

/// What stands under a field.
#[derive(Clone, Copy)]
pub enum FormAt<'p> {
    /// The name of the type of the record.
    Typename,
    Leaf,
    One(BelowAt<'p>),
    Many(BelowAt<'p>),
}

impl<'p> FormAt<'p> {
    /// The first of the possible types of the objects, or None where there is none; takes no memory.
    pub fn first_type(&self) -> Option<&'p str>
        ensures { option_copied result ≡ first_of (types_of (form_at self.now)) }
    {
        match self {
            FormAt::Typename => None,
            FormAt::Leaf => None,
            FormAt::One(below) => first_text(below.types),
            FormAt::Many(below) => first_text(below.types),
        }
    }
}

/// The first of the texts.
fn first_text(texts: &Ids) -> Option<&str>
    ensures { option_copied result ≡ first_of texts.now }
{
    match texts.as_slice() {
        [first, ..] => Some(first.as_str()),
        [] => None,
    }
}

/// The form of a field of objects; takes no memory.
pub fn form_of_objects<'p>(
    many: bool,
    types: &'p Ids,
    identified: &'p Ids,
    open_type: bool,
) -> FormAt<'p>
    ensures { form_at result ≡ object_form many (below_step types.now identified.now open_type) }
{
    let below = BelowAt {
        types,
        identified,
        open_type,
    };
    if many {
        return FormAt::Many(below);
    }
    FormAt::One(below)
}

/// The connection, where there is one; takes no memory.
pub fn connection_in(connection: &Option<Conn>) -> Option<&Conn>
    ensures { option_copied result ≡ connection.now }
{
    match connection {
        Some(connection) => Some(connection),
        None => None,
    }
}

/// The name of a field, and its arguments.
#[derive(Clone, Copy)]
pub struct Call<'p> {
    pub name: &'p Name,
    pub arguments: &'p Arguments,
}

/// A field.
#[derive(Clone, Copy)]
pub(crate) struct FieldAt<'p> {
    pub(crate) response: &'p Name,
    /// None for the name of the type of the record.
    pub(crate) call: Option<Call<'p>>,
    pub(crate) connection: Option<&'p Conn>,
    pub(crate) form: FormAt<'p>,
    /// What stands below, and the environment.
    pub(crate) part: PlanAt<'p>,
    /// The key that the field is stored under, where the plan keeps it.
    pub(crate) key: Option<&'p SharedText>,
}

impl<'p> FieldAt<'p> {
    /// The name of the type of the record; takes no memory.
    pub(crate) fn type_name(env: &'p Env, response: &'p Name) -> FieldAt<'p>
        ensures field { asked (asked_at result) ≡ item_of (typename_ask response.now) env.now.values done }
        ensures kept { IsKept result }
    {
        FieldAt {
            response,
            call: None,
            connection: None,
            form: FormAt::Typename,
            part: PlanAt { env, steps: None },
            key: None,
        }
    }

    /// A field of a scalar or an enum, or of a list of these; takes no memory.
    pub(crate) fn leaf(
        env: &'p Env,
        response: &'p Name,
        name: &'p Name,
        arguments: &'p Arguments,
        key: Option<&'p SharedText>,
    ) -> FieldAt<'p>
        requires { option_copied key ≡ constant_key name.now arguments.now }
        ensures field { asked (asked_at result) ≡ item_of (ask_step env.now.values response.now name.now arguments.now None items.leaf) env.now.values done }
        ensures kept { IsKept result }
    {
        FieldAt {
            response,
            call: Some(Call { name, arguments }),
            connection: None,
            form: FormAt::Leaf,
            part: PlanAt { env, steps: None },
            key,
        }
    }

    /// The values of the arguments.
    pub(crate) fn arguments(&self, alloc: Global) -> Result<Pairs, NoMemory>
        ensures { IfOk result (λ arguments. arguments ≡ (ask_at self.now).arguments) }
    {
        match self.call {
            Some(call) => evaluate_arguments(alloc, call.arguments, self.part.env),
            None => Ok(Pairs::new(alloc)),
        }
    }

    /// The key that the field is stored under: one more owner of the one that the plan keeps, where it
    /// keeps it.
    pub(crate) fn key(&self, alloc: Global) -> Result<SharedText, NoMemory>
        requires { IsKept self.now }
        ensures { IfOk result (λ key. key ≡ items.key_of (ask_at self.now)) }
    {
        match self.key {
            Some(key) => key.copy(),
            None => SharedText::new(alloc, self.made_key(alloc)?),
        }
    }

    /// The key that the field is stored under, made of its name and the values of its arguments.
    fn made_key(&self, alloc: Global) -> Result<Words, NoMemory>
        ensures { IfOk result (λ key. key ≡ items.key_of (ask_at self.now)) }
    {
        match self.call {
            Some(call) => field_key(alloc, call.name, &self.arguments(alloc)?),
            None => Words::new(alloc, "__typename"),
        }
    }
}
