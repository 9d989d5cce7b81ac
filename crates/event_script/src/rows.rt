//! The events in JSON.
ghost use Rattle.std.specs.Prelude.{◌≡◌, ◌||◌, codes, option_map, is_some, IfOk};
ghost use Rattle.serde_json.specs.Find.{get_member};
ghost use Rattle.serde_json.specs.View.{view, members_view};
ghost use Rattle.store_model.specs.Events as events;
ghost use Rattle.event_script.specs.Seen.{answer_seen, handle_of, answer_to, optional_answer_to, part_seen, target_seen, whole_part_of, Says};

use crate::commands::updates_at;
use crate::fault::LineFault;
use crate::members::{has_only, id_at, member_at, name_at, text_at, text_ref};
use crate::values::object_at;
use serde_json::{Map, Value};
use std::alloc::Global;
use store_model::gql_plain::{NoMemory, Words};
use store_model::{Answer, Event, Part, Target};

fn retain_of(alloc: Global, members: &Map<String, Value>) -> Result<Event, LineFault>
    ensures { Says result (events.of_shape (events.retain_of (members_view members.now.entries))) }
{
    if !has_only(members, &["do", "handle", "op", "vars"]) {
        return Err(LineFault::EventShape);
    }
    let Some(handle) = name_at(alloc, members, "handle")? else {
        return Err(LineFault::EventShape);
    };
    let Some(op) = text_at(alloc, members, "op")? else {
        return Err(LineFault::EventShape);
    };
    let Some(vars) = object_at(alloc, members, "vars")? else {
        return Err(LineFault::EventShape);
    };
    Ok(Event::Retain { handle, op, vars })
}

fn release_of(alloc: Global, members: &Map<String, Value>) -> Result<Event, LineFault>
    ensures { Says result (events.of_shape (events.release_of (members_view members.now.entries))) }
{
    if !has_only(members, &["do", "handle"]) {
        return Err(LineFault::EventShape);
    }
    let Some(handle) = name_at(alloc, members, "handle")? else {
        return Err(LineFault::EventShape);
    };
    Ok(Event::Release { handle })
}

/// Whether the key stands; takes no memory.
fn has(members: &Map<String, Value>, key: &str) -> bool
    ensures { result ≡ is_some (get_member key.now (members_view members.now.entries)) }
{
    member_at(members, key).is_some()
}

/// The handle that a response is given to; None where one of both is missing.
fn answer_handle(alloc: Global, members: &Map<String, Value>) -> Result<Option<Words>, NoMemory>
    ensures { IfOk result (λ handle. handle ≡ option_map handle_of (events.answer_of (members_view members.now.entries))) }
{
    if !has(members, "response") {
        return Ok(None);
    }
    name_at(alloc, members, "handle")
}

/// The handle that a response is given to, where both stand; None where just one of them does.
fn optional_answer_handle(
    alloc: Global,
    members: &Map<String, Value>,
) -> Result<Option<Option<Words>>, NoMemory>
    ensures { IfOk result
        (λ handle. handle
        ≡ option_map (option_map handle_of) (events.optional_answer (members_view members.now.entries))) }
{
    if !has(members, "handle") && !has(members, "response") {
        return Ok(Some(None));
    }
    match answer_handle(alloc, members)? {
        Some(handle) => Ok(Some(Some(handle))),
        None => Ok(None),
    }
}

/// The response that the handle was given, taken out of its event.
fn answer_in(handle: Words, mut members: Map<String, Value>) -> Option<Answer>
    ensures { option_map answer_seen result ≡ answer_to handle (members_view members.entries) }
{
    match members.remove("response") {
        Some(response) => Some(Answer { handle, response }),
        None => None,
    }
}

/// The response that the handle was given, where there is a handle, taken out of its event.
fn optional_answer_in(handle: Option<Words>, members: Map<String, Value>) -> Option<Option<Answer>>
    ensures { option_map (option_map answer_seen) result
        ≡ optional_answer_to handle (members_view members.entries) }
{
    match handle {
        Some(handle) => match answer_in(handle, members) {
            Some(answer) => Some(Some(answer)),
            None => None,
        },
        None => Some(None),
    }
}

fn payload_of(alloc: Global, members: Map<String, Value>) -> Result<Event, LineFault>
    ensures { Says result (events.of_shape (events.payload_of (members_view members.entries))) }
{
    if !has_only(&members, &["do", "handle", "response", "updates"]) {
        return Err(LineFault::EventShape);
    }
    let Some(handle) = answer_handle(alloc, &members)? else {
        return Err(LineFault::EventShape);
    };
    let Some(updates) = updates_at(alloc, &members)? else {
        return Err(LineFault::UpdateShape);
    };
    match answer_in(handle, members) {
        Some(answer) => Ok(Event::Payload { answer, updates }),
        None => Err(LineFault::EventShape),
    }
}

fn update_of(alloc: Global, members: &Map<String, Value>) -> Result<Event, LineFault>
    ensures { Says result (events.of_shape (events.update_of (members_view members.now.entries))) }
{
    if !has_only(members, &["do", "updates"]) || !has(members, "updates") {
        return Err(LineFault::EventShape);
    }
    let Some(updates) = updates_at(alloc, members)? else {
        return Err(LineFault::UpdateShape);
    };
    Ok(Event::Update { updates })
}

/// Whether the keys are those of an event that starts or drops a layer; takes no memory.
fn has_layer_keys(members: &Map<String, Value>) -> bool
    ensures { result ≡ events.has_only events.layer_keys (members_view members.now.entries) }
{
    has_only(members, &["do", "layer", "handle", "response", "updates"])
}

fn begin_of(alloc: Global, members: Map<String, Value>) -> Result<Event, LineFault>
    ensures { Says result (events.of_shape (events.layer_shape events.begin (members_view members.entries))) }
{
    if !has_layer_keys(&members) {
        return Err(LineFault::EventShape);
    }
    let Some(layer) = name_at(alloc, &members, "layer")? else {
        return Err(LineFault::EventShape);
    };
    let Some(handle) = optional_answer_handle(alloc, &members)? else {
        return Err(LineFault::EventShape);
    };
    let Some(updates) = updates_at(alloc, &members)? else {
        return Err(LineFault::UpdateShape);
    };
    match optional_answer_in(handle, members) {
        Some(answer) => Ok(Event::Begin {
            layer,
            answer,
            updates,
        }),
        None => Err(LineFault::EventShape),
    }
}

fn finish_of(alloc: Global, members: Map<String, Value>) -> Result<Event, LineFault>
    ensures { Says result (events.of_shape (events.layer_shape events.finish (members_view members.entries))) }
{
    if !has_layer_keys(&members) {
        return Err(LineFault::EventShape);
    }
    let Some(layer) = name_at(alloc, &members, "layer")? else {
        return Err(LineFault::EventShape);
    };
    let Some(handle) = optional_answer_handle(alloc, &members)? else {
        return Err(LineFault::EventShape);
    };
    let Some(updates) = updates_at(alloc, &members)? else {
        return Err(LineFault::UpdateShape);
    };
    match optional_answer_in(handle, members) {
        Some(answer) => Ok(Event::Finish {
            layer,
            answer,
            updates,
        }),
        None => Err(LineFault::EventShape),
    }
}

fn revert_of(alloc: Global, members: &Map<String, Value>) -> Result<Event, LineFault>
    ensures { Says result (events.of_shape (events.revert_of (members_view members.now.entries))) }
{
    if !has_only(members, &["do", "layer"]) {
        return Err(LineFault::EventShape);
    }
    let Some(layer) = name_at(alloc, members, "layer")? else {
        return Err(LineFault::EventShape);
    };
    Ok(Event::Revert { layer })
}

/// Whether a key stands that names a fragment, or goes with one; takes no memory.
fn has_part_key(members: &Map<String, Value>) -> bool
    ensures { result
        ≡ (is_some (get_member (codes "fragment") (members_view members.now.entries))
        || is_some (get_member (codes "id") (members_view members.now.entries))
        || is_some (get_member (codes "args") (members_view members.now.entries))) }
{
    has(members, "fragment") || has(members, "id") || has(members, "args")
}

/// The fragment, the id and the arguments; None where one is missing or not of its kind.
fn whole_part_of(alloc: Global, members: &Map<String, Value>) -> Result<Option<Part>, NoMemory>
    ensures { IfOk result (λ part. option_map part_seen part ≡ whole_part_of (members_view members.now.entries)) }
{
    let Some(fragment) = text_at(alloc, members, "fragment")? else {
        return Ok(None);
    };
    let Some(id) = id_at(alloc, members, "id")? else {
        return Ok(None);
    };
    let Some(args) = object_at(alloc, members, "args")? else {
        return Ok(None);
    };
    Ok(Some(Part { fragment, id, args }))
}

fn part_of(alloc: Global, members: &Map<String, Value>) -> Result<Option<Option<Part>>, NoMemory>
    ensures { IfOk result
        (λ part. option_map (λ p. option_map part_seen p) part
        ≡ events.part_of (members_view members.now.entries)) }
{
    if !has_part_key(members) {
        return Ok(Some(None));
    }
    match whole_part_of(alloc, members)? {
        Some(part) => Ok(Some(Some(part))),
        None => Ok(None),
    }
}

/// What is read.
fn target_of(alloc: Global, members: &Map<String, Value>) -> Result<Option<Target>, NoMemory>
    ensures { IfOk result (λ target. option_map target_seen target ≡ events.target_of (members_view members.now.entries)) }
{
    let Some(handle) = name_at(alloc, members, "handle")? else {
        return Ok(None);
    };
    let Some(part) = part_of(alloc, members)? else {
        return Ok(None);
    };
    Ok(Some(Target { handle, part }))
}

fn read_of(alloc: Global, members: &Map<String, Value>) -> Result<Event, LineFault>
    ensures { Says result (events.of_shape (events.read_of (members_view members.now.entries))) }
{
    if !has_only(members, &["do", "handle", "fragment", "id", "args"]) {
        return Err(LineFault::EventShape);
    }
    let Some(target) = target_of(alloc, members)? else {
        return Err(LineFault::EventShape);
    };
    Ok(Event::Read { target })
}

fn watch_of(alloc: Global, members: &Map<String, Value>) -> Result<Event, LineFault>
    ensures { Says result (events.of_shape (events.watch_of (members_view members.now.entries))) }
{
    if !has_only(
        members,
        &["watch", "do", "handle", "fragment", "id", "args"],
    ) {
        return Err(LineFault::EventShape);
    }
    let Some(watch) = name_at(alloc, members, "watch")? else {
        return Err(LineFault::EventShape);
    };
    let Some(target) = target_of(alloc, members)? else {
        return Err(LineFault::EventShape);
    };
    Ok(Event::Watch { watch, target })
}

fn unwatch_of(alloc: Global, members: &Map<String, Value>) -> Result<Event, LineFault>
    ensures { Says result (events.of_shape (events.unwatch_of (members_view members.now.entries))) }
{
    if !has_only(members, &["do", "watch"]) {
        return Err(LineFault::EventShape);
    }
    let Some(watch) = name_at(alloc, members, "watch")? else {
        return Err(LineFault::EventShape);
    };
    Ok(Event::Unwatch { watch })
}

fn collect_of(members: &Map<String, Value>) -> Result<Event, LineFault>
    ensures { Says result (events.of_shape (events.collect_of (members_view members.now.entries))) }
{
    if has_only(members, &["do"]) {
        Ok(Event::Collect)
    } else {
        Err(LineFault::EventShape)
    }
}

/// The event of an object, by its `do`. The response moves out of the object.
pub fn event_in(alloc: Global, members: Map<String, Value>) -> Result<Event, LineFault>
    ensures { Says result (events.of_shape (events.shape_in (members_view members.entries))) }
{
    let Some(name) = text_ref(&members, "do") else {
        return Err(LineFault::EventShape);
    };
    if name == "retain" {
        retain_of(alloc, &members)
    } else if name == "release" {
        release_of(alloc, &members)
    } else if name == "payload" {
        payload_of(alloc, members)
    } else if name == "update" {
        update_of(alloc, &members)
    } else if name == "begin" {
        begin_of(alloc, members)
    } else if name == "finish" {
        finish_of(alloc, members)
    } else if name == "revert" {
        revert_of(alloc, &members)
    } else if name == "read" {
        read_of(alloc, &members)
    } else if name == "watch" {
        watch_of(alloc, &members)
    } else if name == "unwatch" {
        unwatch_of(alloc, &members)
    } else if name == "collect" {
        collect_of(&members)
    } else {
        Err(LineFault::EventShape)
    }
}
