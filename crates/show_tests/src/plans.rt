//! Plans by which the tests read.
use plan_ir::{
    Arguments, Conditions, Guard, Ids, NoMemory, ReaderList, ReaderPlan, ReaderStep, Words,
};
use std::alloc::Global;

/// The plan of these leaves, whose response keys are their names; names are parted by one space.
pub(crate) fn leaves(alloc: Global, names: &str) -> Result<ReaderPlan, NoMemory> {
    let mut steps = ReaderList::new(alloc);
    for name in names.split(' ') {
        steps.push(leaf(alloc, name, name)?)?;
    }
    let steps = steps.share(alloc)?;
    Ok(ReaderPlan { steps })
}

/// The plan with one step more.
pub(crate) fn with(
    alloc: Global,
    plan: ReaderPlan,
    step: ReaderStep,
) -> Result<ReaderPlan, NoMemory> {
    let mut steps = ReaderList::new(alloc);
    for step in plan.steps.as_slice() {
        steps.push(step.copy()?)?;
    }
    steps.push(step)?;
    let steps = steps.share(alloc)?;
    Ok(ReaderPlan { steps })
}

/// The plan of one step.
pub(crate) fn alone(alloc: Global, step: ReaderStep) -> Result<ReaderPlan, NoMemory> {
    let mut steps = ReaderList::new(alloc);
    steps.push(step)?;
    let steps = steps.share(alloc)?;
    Ok(ReaderPlan { steps })
}

pub(crate) fn leaf(alloc: Global, response: &str, name: &str) -> Result<ReaderStep, NoMemory> {
    Ok(ReaderStep::Leaf {
        response: Words::new(alloc, response)?,
        name: Words::new(alloc, name)?,
        arguments: Arguments::new(alloc),
    })
}

/// A field of users under its own name: one, or a list.
pub(crate) fn users(
    alloc: Global,
    name: &str,
    many: bool,
    child: ReaderPlan,
) -> Result<ReaderStep, NoMemory> {
    let types = one_type(alloc, "User")?;
    Ok(ReaderStep::Object {
        response: Words::new(alloc, name)?,
        name: Words::new(alloc, name)?,
        arguments: Arguments::new(alloc),
        many,
        identified: types.copy()?,
        types,
        open_type: false,
        connection: None,
        child,
    })
}

/// Steps for records of one type.
pub(crate) fn of_type(
    alloc: Global,
    name: &str,
    child: ReaderPlan,
) -> Result<ReaderStep, NoMemory> {
    let guard = Guard {
        types: Some(one_type(alloc, name)?),
        conditions: Conditions::new(alloc),
    };
    Ok(ReaderStep::Guarded { guard, child })
}

/// A spread, whose fragment is read where it stands if its plan is given.
pub(crate) fn spread(
    alloc: Global,
    fragment: &str,
    inline: Option<ReaderPlan>,
) -> Result<ReaderStep, NoMemory> {
    Ok(ReaderStep::Pointer {
        fragment: Words::new(alloc, fragment)?,
        arguments: Arguments::new(alloc),
        inline,
    })
}

pub(crate) fn one_type(alloc: Global, name: &str) -> Result<Ids, NoMemory> {
    let mut names = Vec::new(alloc);
    names.push(Words::new(alloc, name)?)?;
    Ids::sort(names)
}
