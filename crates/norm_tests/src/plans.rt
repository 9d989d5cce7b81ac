//! Plans as texts.
//!
//! A plan is words with one space between them. A leaf is its name, with its arguments in brackets
//! behind it, and with its response key and `=` in front where that is another. The type name is `#`
//! and its response key. An object is a field, `:`, its types and `{`, then its steps, and `}`. `!`
//! stands behind each type that has an id, `?` behind all of them if the field's type is abstract, and
//! then `*` if it is a list. Then come `@` and the key of its connection, with `/` in front of each of
//! its filters. A guard is `~TYPES{`, `-VALUE{` for `@skip` or `+VALUE{` for `@include`, then its steps,
//! and `}`.
use plan_ir::{
    Argument, Arguments, Condition, Conditions, Conn, Guard, Ids, Name, NormalList, NormalPlan,
    NormalStep, ValueTree, Words,
};
use std::alloc::Global;
use std::test::Fail;

/// What has been read around the step that is read.
#[derive(Drop)]
struct Around<'t> {
    head: &'t str,
    steps: NormalList,
}

/// The plan of a text.
pub(crate) fn plan(alloc: Global, text: &str) -> Result<NormalPlan, Fail> {
    let mut around = Vec::new(alloc);
    let mut steps = NormalList::new(alloc);
    for word in text.split(' ') {
        if let Some(head) = word.strip_suffix('{') {
            around.push(Around { head, steps })?;
            steps = NormalList::new(alloc);
        } else if word == "}" {
            steps = closed(alloc, around.pop(), steps)?;
        } else {
            steps.push(leaf(alloc, word)?)?;
        }
    }
    let steps = steps.share(alloc)?;
    Ok(NormalPlan { steps })
}

/// The steps around, with the one that these stand in.
fn closed(
    alloc: Global,
    around: Option<Around<'_>>,
    steps: NormalList,
) -> Result<NormalList, Fail> {
    match around {
        Some(mut around) => {
            let steps = steps.share(alloc)?;
            let child = NormalPlan { steps };
            let step = step_around(alloc, around.head, child)?;
            around.steps.push(step)?;
            Ok(around.steps)
        }
        None => Ok(steps),
    }
}

/// An object or a guard.
fn step_around(alloc: Global, head: &str, child: NormalPlan) -> Result<NormalStep, Fail> {
    if let Some((field, below)) = head.rsplit_once(':') {
        return object(alloc, field, below, child);
    }
    let mut guard = Guard {
        types: None,
        conditions: Conditions::new(alloc),
    };
    if let Some(types) = head.strip_prefix("~") {
        guard.types = Some(names(alloc, types, '|', "")?);
    } else if let Some(text) = head.strip_prefix("-") {
        guard.conditions.push(condition(alloc, true, text)?)?;
    } else if let Some(text) = head.strip_prefix("+") {
        guard.conditions.push(condition(alloc, false, text)?)?;
    }
    Ok(NormalStep::Guarded { guard, child })
}

fn condition(alloc: Global, skip: bool, text: &str) -> Result<Condition, Fail> {
    Ok(Condition {
        skip,
        value: value(alloc, text)?,
    })
}

/// A field of objects, by its field and by what stands behind `:`.
fn object(alloc: Global, field: &str, below: &str, child: NormalPlan) -> Result<NormalStep, Fail> {
    let (below, connection) = match below.split_once('@') {
        Some((below, connection)) => (below, Some(conn(alloc, connection)?)),
        None => (below, None),
    };
    let (types, many) = match below.strip_suffix('*') {
        Some(types) => (types, true),
        None => (below, false),
    };
    let (types, open_type) = match types.strip_suffix('?') {
        Some(types) => (types, true),
        None => (types, false),
    };
    let (response, name, arguments) = field_parts(alloc, field)?;
    Ok(NormalStep::Object {
        response,
        name,
        arguments,
        many,
        types: names(alloc, types, '|', "")?,
        identified: names(alloc, types, '|', "!")?,
        open_type,
        connection,
        child,
    })
}

/// A leaf, or the type name.
fn leaf(alloc: Global, word: &str) -> Result<NormalStep, Fail> {
    if let Some(response) = word.strip_prefix("#") {
        return Ok(NormalStep::Typename {
            response: Words::new(alloc, response)?,
        });
    }
    let (response, name, arguments) = field_parts(alloc, word)?;
    Ok(NormalStep::Leaf {
        response,
        name,
        arguments,
    })
}

/// The response key, the name and the arguments of a field.
fn field_parts(alloc: Global, field: &str) -> Result<(Name, Name, Arguments), Fail> {
    let (field, given) = field.split_once('(').unwrap_or((field, ""));
    let (response, name) = field.split_once('=').unwrap_or((field, field));
    let mut arguments = Arguments::new(alloc);
    for text in given.split(',') {
        if let Some((name, text)) = text.split_once(':') {
            arguments.push(Argument {
                name: Words::new(alloc, name)?,
                value: value(alloc, text.strip_suffix(')').unwrap_or(text))?,
            })?;
        }
    }
    Ok((
        Words::new(alloc, response)?,
        Words::new(alloc, name)?,
        arguments,
    ))
}

/// A variable, a number, `true`, `false`, `null`, or a text.
fn value(alloc: Global, text: &str) -> Result<ValueTree, Fail> {
    if let Some(name) = text.strip_prefix("$") {
        return Ok(ValueTree::Variable(Words::new(alloc, name)?));
    }
    if let Ok(number) = text.parse::<i64>() {
        return Ok(ValueTree::Int(number));
    }
    Ok(match text {
        "true" => ValueTree::Bool(true),
        "false" => ValueTree::Bool(false),
        "null" => ValueTree::Null,
        _ => ValueTree::Text(Words::new(alloc, text)?),
    })
}

/// A connection, by its key and its filters.
fn conn(alloc: Global, text: &str) -> Result<Conn, Fail> {
    Ok(match text.split_once('/') {
        Some((key, filters)) => Conn {
            key: Words::new(alloc, key)?,
            filters: Some(names(alloc, filters, '/', "")?),
        },
        None => Conn {
            key: Words::new(alloc, text)?,
            filters: None,
        },
    })
}

/// The names of a list that end in a mark; the mark `!` is no part of a name.
fn names(alloc: Global, list: &str, between: char, mark: &str) -> Result<Ids, Fail> {
    let mut names = Vec::new(alloc);
    for name in list.split(between) {
        if name.ends_with(mark) {
            names.push(Words::new(alloc, name.strip_suffix('!').unwrap_or(name))?)?;
        }
    }
    Ok(Ids::sort(names)?)
}
