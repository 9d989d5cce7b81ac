//! The walk along records that writes what it shows.
ghost use Rattle.std.specs.Prelude.{◌≡◌, ◌+◌, ◌≤◌, ◌++◌, ◌∷◌, [], Some, length, option_copied, IfOk, OnOk};
ghost use Rattle.plan_ir.specs.gql_plain.Order.{has_text};
ghost use Rattle.plan_ir.specs.gql_plain.ToJson.{tree_tokens};
ghost use Rattle.store_read.specs.plan_groups.FieldView.{form_at};
ghost use Rattle.plan_ir.specs.Reader.{done, guarded};
ghost use Rattle.plan_ir.specs.ReaderKeys.{keys_of};
ghost use Rattle.plan_ir.specs.ReaderView.{step_of};
ghost use Rattle.plan_order.specs.Responses.{fragments};
ghost use Rattle.plan_order.specs.Walk.{field_met, field_shown, is_none, is_taken};
ghost use Rattle.plan_ir.specs.store_model.Walks as walks;
ghost use Rattle.plan_ir.specs.store_model.Walks.{mark_members, shown_object};
ghost use Rattle.plan_ir.specs.store_record.declared.record.Slot.TheVariants.{Alive};
ghost use Rattle.store_read.specs.FieldView.{asked_at, part_at, spread_at, IsKept};
ghost use Rattle.store_show.specs.Showing.{around_at, below, elements_tokens, fields_of, has_pointed, identity, items_at, led, members_at, members_met_at, next_at, object_shown_at, pairs_tokens, pointers_at, pointers_met_at};
ghost use Rattle.store_show.specs.Spans.{span_of};
ghost use Rattle.store_show.specs.Stood.{stood_onto};
ghost use Rattle.store_read.specs.Walked as walked;

use crate::lead::Lead;
use crate::row_at::RowAt;
use crate::span::Span;
use crate::standings::Standings;
use crate::values::{lost, show_leaf, show_null};
use json::Writer;
use plan_ir::{
    Field, Guard, Id, Ids, NoMemory, Plain, ReaderPlan, ReaderStep, ReaderSteps, SharedText, Slot,
    Words, write_plain,
};
use std::alloc::Global;
use store_read::field::{FieldAt, PartAt};
use store_read::spread::SpreadAt;
use store_read::store::{Store, one_name, type_of};
use store_read::{Call, FormAt, RecordSource, connection_in, form_of_objects, guard_passes};

/// Writes what the record at an id shows, which may be of these types.
#[cycle(show)]
pub(crate) fn show_record<'p, S: RecordSource>(
    alloc: Global,
    store: &Store<'p, S>,
    levels: usize,
    part: PartAt<'p>,
    types: &Ids,
    id: &'p str,
    lead: Lead<'_>,
    met: &mut Standings<'p>,
    out: &mut Writer,
    steps: &mut S::Count,
) -> Result<(), NoMemory>
    ensures shown { OnOk result (out.new.tokens ≡ out.old.tokens ++ led lead.entry (below (S.records store.now.source.now) store.now.root.now store.now.owner.now levels types.now (part_at part.entry ∷ []) id.now).0) }
    ensures before { out.new.before ≡ out.old.before }
    ensures met { OnOk result (met.new ≡ stood_onto met.old (below (S.records store.now.source.now) store.now.root.now store.now.owner.now levels types.now (part_at part.entry ∷ []) id.now).1) }
    ensures looks { S.Count.looks steps.new ≤ S.Count.looks steps.old + length (below (S.records store.now.source.now) store.now.root.now store.now.owner.now levels types.now (part_at part.entry ∷ []) id.now).1.seen }
    ensures applies { S.Count.applies steps.new ≡ S.Count.applies steps.old }
{
    met.stand(id)?;
    let Some(levels) = levels.checked_sub(1) else {
        return lost(lead, met, out);
    };
    let source = store.source;
    match source.get(id, steps) {
        Some(Slot::Alive(shared)) => {
            let row = shared.get();
            let at = RowAt {
                env: part.env,
                name: type_of(store.root, row),
                id,
                row,
                levels,
            };
            show_live(alloc, store, at, part, types, lead, met, out, steps)
        }
        Some(Slot::Deleted) => lead.null(out),
        None => lost(lead, met, out),
    }
}

/// Writes a live record, which is missing where it is of another type.
#[cycle(show)]
fn show_live<'p, S: RecordSource>(
    alloc: Global,
    store: &Store<'p, S>,
    at: RowAt<'p>,
    part: PartAt<'p>,
    types: &Ids,
    lead: Lead<'_>,
    met: &mut Standings<'p>,
    out: &mut Writer,
    steps: &mut S::Count,
) -> Result<(), NoMemory>
    ensures shown { OnOk result (out.new.tokens ≡ out.old.tokens ++ led lead.entry (walked.if_possible (has_text types.now at.entry.name.now) (object_shown_at (S.records store.now.source.now) store.now.root.now store.now.owner.now at.entry (part_at part.entry).steps)).0) }
    ensures before { out.new.before ≡ out.old.before }
    ensures met { OnOk result (met.new ≡ stood_onto met.old (walked.if_possible (has_text types.now at.entry.name.now) (object_shown_at (S.records store.now.source.now) store.now.root.now store.now.owner.now at.entry (part_at part.entry).steps)).1) }
    ensures looks { S.Count.looks steps.new ≤ S.Count.looks steps.old + length (walked.if_possible (has_text types.now at.entry.name.now) (object_shown_at (S.records store.now.source.now) store.now.root.now store.now.owner.now at.entry (part_at part.entry).steps)).1.seen }
    ensures applies { S.Count.applies steps.new ≡ S.Count.applies steps.old }
{
    if !types.contains(at.name) {
        return lost(lead, met, out);
    }
    lead.begin(out)?;
    match part.steps {
        Some(plan) => show_object(alloc, store, at, plan, met, out, steps),
        None => {
            out.begin_object()?;
            out.end_object()?;
            Ok(())
        }
    }
}

/// Writes the members of a record.
#[cycle(show)]
fn show_object<'p, S: RecordSource>(
    alloc: Global,
    store: &Store<'p, S>,
    at: RowAt<'p>,
    plan: &'p ReaderSteps,
    met: &mut Standings<'p>,
    out: &mut Writer,
    steps: &mut S::Count,
) -> Result<(), NoMemory>
    ensures shown { OnOk result (out.new.tokens ≡ out.old.tokens ++ tree_tokens (shown_object (object_shown_at (S.records store.now.source.now) store.now.root.now store.now.owner.now at.entry plan.now).0)) }
    ensures before { out.new.before ≡ out.old.before }
    ensures met { OnOk result (met.new ≡ stood_onto met.old (object_shown_at (S.records store.now.source.now) store.now.root.now store.now.owner.now at.entry plan.now).1) }
    ensures looks { S.Count.looks steps.new ≤ S.Count.looks steps.old + length (object_shown_at (S.records store.now.source.now) store.now.root.now store.now.owner.now at.entry plan.now).1.seen }
    ensures applies { S.Count.applies steps.new ≡ S.Count.applies steps.old }
{
    out.begin_object()?;
    show_members(alloc, store, at, plan, met, out, steps)?;
    out.end_object()?;
    Ok(())
}

/// Writes the members of a record, without the brackets.
#[cycle(show)]
fn show_members<'p, S: RecordSource>(
    alloc: Global,
    store: &Store<'p, S>,
    at: RowAt<'p>,
    plan: &'p ReaderSteps,
    met: &mut Standings<'p>,
    out: &mut Writer,
    steps: &mut S::Count,
) -> Result<(), NoMemory>
    ensures shown { OnOk result (out.new.tokens ≡ out.old.tokens ++ pairs_tokens (object_shown_at (S.records store.now.source.now) store.now.root.now store.now.owner.now at.entry plan.now).0) }
    ensures before { out.new.before ≡ out.old.before }
    ensures met { OnOk result (met.new ≡ stood_onto met.old (object_shown_at (S.records store.now.source.now) store.now.root.now store.now.owner.now at.entry plan.now).1) }
    ensures looks { S.Count.looks steps.new ≤ S.Count.looks steps.old + length (object_shown_at (S.records store.now.source.now) store.now.root.now store.now.owner.now at.entry plan.now).1.seen }
    ensures applies { S.Count.applies steps.new ≡ S.Count.applies steps.old }
{
    let mut near = 0;
    if has_no_pointer(plan) {
        return show_fields(
            alloc,
            store,
            at,
            Span::All,
            plan,
            &mut near,
            met,
            out,
            steps,
        );
    }
    show_around(alloc, store, at, plan, met, out, steps)
}

/// Writes the members of a record with pointers: its fields around what it tells beside them.
#[cycle(show)]
fn show_around<'p, S: RecordSource>(
    alloc: Global,
    store: &Store<'p, S>,
    at: RowAt<'p>,
    plan: &'p ReaderSteps,
    met: &mut Standings<'p>,
    out: &mut Writer,
    steps: &mut S::Count,
) -> Result<(), NoMemory>
    ensures shown { OnOk result (out.new.tokens ≡ out.old.tokens ++ pairs_tokens (around_at (S.records store.now.source.now) store.now.root.now store.now.owner.now at.entry plan.now).0) }
    ensures before { out.new.before ≡ out.old.before }
    ensures met { OnOk result (met.new ≡ stood_onto met.old (around_at (S.records store.now.source.now) store.now.root.now store.now.owner.now at.entry plan.now).1) }
    ensures looks { S.Count.looks steps.new ≤ S.Count.looks steps.old + length (around_at (S.records store.now.source.now) store.now.root.now store.now.owner.now at.entry plan.now).1.seen }
    ensures applies { S.Count.applies steps.new ≡ S.Count.applies steps.old }
{
    let mut near = 0;
    show_fields(
        alloc,
        store,
        at,
        Span::Before,
        plan,
        &mut near,
        met,
        out,
        steps,
    )?;
    show_marks(alloc, store, at, plan, met, out, steps)?;
    show_fields(
        alloc,
        store,
        at,
        Span::Behind,
        plan,
        &mut near,
        met,
        out,
        steps,
    )
}

/// Whether no step is a pointer, those behind guards among them; takes no memory.
#[cycle(pointers)]
fn has_no_pointer(plan: &ReaderSteps) -> bool
    ensures { result ≡ is_none (fragments plan.now) }
{
    'steps: for step in plan.as_slice() {
        if !is_no_pointer(step) {
            return false;
        }
    }
    true
}

/// Whether a step is no pointer, and no guard with one behind it; takes no memory.
#[cycle(pointers)]
fn is_no_pointer(step: &ReaderStep) -> bool
    ensures { result ≡ is_none (fragments (step_of step.now)) }
{
    match step {
        ReaderStep::Typename { .. } => true,
        ReaderStep::Leaf { .. } => true,
        ReaderStep::Object { .. } => true,
        ReaderStep::Guarded { child, .. } => has_no_pointer(&child.steps),
        ReaderStep::Pointer { .. } => false,
    }
}

/// Writes the fields of steps, as far as they are taken.
#[cycle(show)]
fn show_fields<'p, S: RecordSource>(
    alloc: Global,
    store: &Store<'p, S>,
    at: RowAt<'p>,
    span: Span,
    plan: &'p ReaderSteps,
    near: &mut usize,
    met: &mut Standings<'p>,
    out: &mut Writer,
    steps: &mut S::Count,
) -> Result<(), NoMemory>
    ensures shown { OnOk result (out.new.tokens ≡ out.old.tokens ++ pairs_tokens (members_at (S.records store.now.source.now) store.now.root.now store.now.owner.now at.entry (span_of span) plan.now)) }
    ensures before { out.new.before ≡ out.old.before }
    ensures met { OnOk result (met.new ≡ stood_onto met.old (members_met_at (S.records store.now.source.now) store.now.root.now store.now.owner.now at.entry (span_of span) plan.now)) }
    ensures looks { S.Count.looks steps.new ≤ S.Count.looks steps.old + length (members_met_at (S.records store.now.source.now) store.now.root.now store.now.owner.now at.entry (span_of span) plan.now).seen }
    ensures applies { S.Count.applies steps.new ≡ S.Count.applies steps.old }
{
    let items = plan.as_slice();
    let keys = plan.keys();
    'steps: for (place, step) in items.iter().enumerate() {
        show_step(
            alloc,
            store,
            at,
            span,
            step,
            &keys[place],
            near,
            met,
            out,
            steps,
        )?;
    }
    Ok(())
}

/// Writes the field of a step, or the fields behind a guard that lets them. `near` is where the next field
/// of the record is looked for first.
#[cycle(show)]
fn show_step<'p, S: RecordSource>(
    alloc: Global,
    store: &Store<'p, S>,
    at: RowAt<'p>,
    span: Span,
    step: &'p ReaderStep,
    key: &'p Option<SharedText>,
    near: &mut usize,
    met: &mut Standings<'p>,
    out: &mut Writer,
    steps: &mut S::Count,
) -> Result<(), NoMemory>
    requires key { key.now ∷ [] ≡ keys_of (step_of step.now) }
    ensures shown { OnOk result (out.new.tokens ≡ out.old.tokens ++ pairs_tokens (members_at (S.records store.now.source.now) store.now.root.now store.now.owner.now at.entry (span_of span) (step_of step.now))) }
    ensures before { out.new.before ≡ out.old.before }
    ensures met { OnOk result (met.new ≡ stood_onto met.old (members_met_at (S.records store.now.source.now) store.now.root.now store.now.owner.now at.entry (span_of span) (step_of step.now))) }
    ensures looks { S.Count.looks steps.new ≤ S.Count.looks steps.old + length (members_met_at (S.records store.now.source.now) store.now.root.now store.now.owner.now at.entry (span_of span) (step_of step.now)).seen }
    ensures applies { S.Count.applies steps.new ≡ S.Count.applies steps.old }
{
    match step {
        ReaderStep::Typename { response } => {
            let field = FieldAt::type_name(at.env, response);
            show_field(alloc, store, at, span, field, near, met, out, steps)
        }
        ReaderStep::Leaf {
            response,
            name,
            arguments,
        } => {
            let field = FieldAt::leaf(at.env, response, name, arguments, key.as_ref());
            show_field(alloc, store, at, span, field, near, met, out, steps)
        }
        ReaderStep::Object {
            response,
            name,
            arguments,
            many,
            types,
            identified,
            open_type,
            connection,
            child,
        } => {
            let field = FieldAt {
                response,
                call: Some(Call { name, arguments }),
                connection: connection_in(connection),
                form: form_of_objects(*many, types, identified, *open_type),
                part: PartAt::new(at.env, child),
                key: key.as_ref(),
            };
            show_field(alloc, store, at, span, field, near, met, out, steps)
        }
        ReaderStep::Guarded { guard, child } => show_guarded(
            alloc, store, at, span, guard, child, near, met, out, steps,
        ),
        ReaderStep::Pointer { .. } => Ok(()),
    }
}

/// Writes the fields behind a guard, where it lets them.
#[cycle(show)]
fn show_guarded<'p, S: RecordSource>(
    alloc: Global,
    store: &Store<'p, S>,
    at: RowAt<'p>,
    span: Span,
    guard: &'p Guard,
    child: &'p ReaderPlan,
    near: &mut usize,
    met: &mut Standings<'p>,
    out: &mut Writer,
    steps: &mut S::Count,
) -> Result<(), NoMemory>
    ensures shown { OnOk result (out.new.tokens ≡ out.old.tokens ++ pairs_tokens (members_at (S.records store.now.source.now) store.now.root.now store.now.owner.now at.entry (span_of span) (guarded guard.now child.now.steps done))) }
    ensures before { out.new.before ≡ out.old.before }
    ensures met { OnOk result (met.new ≡ stood_onto met.old (members_met_at (S.records store.now.source.now) store.now.root.now store.now.owner.now at.entry (span_of span) (guarded guard.now child.now.steps done))) }
    ensures looks { S.Count.looks steps.new ≤ S.Count.looks steps.old + length (members_met_at (S.records store.now.source.now) store.now.root.now store.now.owner.now at.entry (span_of span) (guarded guard.now child.now.steps done)).seen }
    ensures applies { S.Count.applies steps.new ≡ S.Count.applies steps.old }
{
    let passes = guard_passes(alloc, at.env, at.name, guard)?;
    if !passes {
        return Ok(());
    }
    show_fields(alloc, store, at, span, &child.steps, near, met, out, steps)
}

/// Writes a field, where it is taken.
#[cycle(show)]
fn show_field<'p, S: RecordSource>(
    alloc: Global,
    store: &Store<'p, S>,
    at: RowAt<'p>,
    span: Span,
    field: FieldAt<'p>,
    near: &mut usize,
    met: &mut Standings<'p>,
    out: &mut Writer,
    steps: &mut S::Count,
) -> Result<(), NoMemory>
    requires { IsKept field }
    ensures shown { OnOk result (out.new.tokens ≡ out.old.tokens ++ pairs_tokens (field_shown (is_taken (span_of span) field.entry.response.now) (next_at (S.records store.now.source.now) store.now.root.now store.now.owner.now at.entry) at.entry.name.now (fields_of at.entry) (asked_at field.entry))) }
    ensures before { out.new.before ≡ out.old.before }
    ensures met { OnOk result (met.new ≡ stood_onto met.old (field_met (is_taken (span_of span) field.entry.response.now) (next_at (S.records store.now.source.now) store.now.root.now store.now.owner.now at.entry) at.entry.name.now (fields_of at.entry) (asked_at field.entry))) }
    ensures looks { S.Count.looks steps.new ≤ S.Count.looks steps.old + length (field_met (is_taken (span_of span) field.entry.response.now) (next_at (S.records store.now.source.now) store.now.root.now store.now.owner.now at.entry) at.entry.name.now (fields_of at.entry) (asked_at field.entry)).seen }
    ensures applies { S.Count.applies steps.new ≡ S.Count.applies steps.old }
{
    if !span.takes(field.response.as_str()) {
        return Ok(());
    }
    let key = field.read_key(alloc)?;
    let lead = Lead::Member(field.response.as_str());
    let value = at.row.fields.near(key.as_str(), near);
    show_value(
        alloc, store, at, field.form, field.part, value, lead, met, out, steps,
    )
}

/// Writes the value of a field by its form.
#[cycle(show)]
fn show_value<'p, S: RecordSource>(
    alloc: Global,
    store: &Store<'p, S>,
    at: RowAt<'p>,
    form: FormAt<'p>,
    part: PartAt<'p>,
    field: Option<&'p Field>,
    lead: Lead<'_>,
    met: &mut Standings<'p>,
    out: &mut Writer,
    steps: &mut S::Count,
) -> Result<(), NoMemory>
    ensures shown { OnOk result (out.new.tokens ≡ out.old.tokens ++ led lead.entry (walks.value_at (next_at (S.records store.now.source.now) store.now.root.now store.now.owner.now at.entry) at.entry.name.now (part_at part.entry ∷ []) (form_at form.entry) (option_copied field.entry)).0) }
    ensures before { out.new.before ≡ out.old.before }
    ensures met { OnOk result (met.new ≡ stood_onto met.old (walks.value_at (next_at (S.records store.now.source.now) store.now.root.now store.now.owner.now at.entry) at.entry.name.now (part_at part.entry ∷ []) (form_at form.entry) (option_copied field.entry)).1) }
    ensures looks { S.Count.looks steps.new ≤ S.Count.looks steps.old + length (walks.value_at (next_at (S.records store.now.source.now) store.now.root.now store.now.owner.now at.entry) at.entry.name.now (part_at part.entry ∷ []) (form_at form.entry) (option_copied field.entry)).1.seen }
    ensures applies { S.Count.applies steps.new ≡ S.Count.applies steps.old }
{
    match form {
        FormAt::Typename => {
            lead.begin(out)?;
            out.string(at.name)?;
            Ok(())
        }
        FormAt::Leaf => show_leaf(field, lead, met, out),
        FormAt::One(to) => show_one(
            alloc, store, at.levels, to.types, part, field, lead, met, out, steps,
        ),
        FormAt::Many(to) => show_many(
            alloc, store, at.levels, to.types, part, field, lead, met, out, steps,
        ),
    }
}

/// Writes a field of one object.
#[cycle(show)]
fn show_one<'p, S: RecordSource>(
    alloc: Global,
    store: &Store<'p, S>,
    levels: usize,
    types: &Ids,
    part: PartAt<'p>,
    field: Option<&'p Field>,
    lead: Lead<'_>,
    met: &mut Standings<'p>,
    out: &mut Writer,
    steps: &mut S::Count,
) -> Result<(), NoMemory>
    ensures shown { OnOk result (out.new.tokens ≡ out.old.tokens ++ led lead.entry (walks.one_at (below (S.records store.now.source.now) store.now.root.now store.now.owner.now levels) types.now (part_at part.entry ∷ []) (option_copied field.entry)).0) }
    ensures before { out.new.before ≡ out.old.before }
    ensures met { OnOk result (met.new ≡ stood_onto met.old (walks.one_at (below (S.records store.now.source.now) store.now.root.now store.now.owner.now levels) types.now (part_at part.entry ∷ []) (option_copied field.entry)).1) }
    ensures looks { S.Count.looks steps.new ≤ S.Count.looks steps.old + length (walks.one_at (below (S.records store.now.source.now) store.now.root.now store.now.owner.now levels) types.now (part_at part.entry ∷ []) (option_copied field.entry)).1.seen }
    ensures applies { S.Count.applies steps.new ≡ S.Count.applies steps.old }
{
    match field {
        Some(Field::Leaf(value)) => show_null(value, lead, met, out),
        Some(Field::Link(id)) => show_record(
            alloc,
            store,
            levels,
            part,
            types,
            id.as_str(),
            lead,
            met,
            out,
            steps,
        ),
        Some(Field::Links(_)) => lost(lead, met, out),
        None => lost(lead, met, out),
    }
}

/// Writes a field of a list of objects.
#[cycle(show)]
fn show_many<'p, S: RecordSource>(
    alloc: Global,
    store: &Store<'p, S>,
    levels: usize,
    types: &Ids,
    part: PartAt<'p>,
    field: Option<&'p Field>,
    lead: Lead<'_>,
    met: &mut Standings<'p>,
    out: &mut Writer,
    steps: &mut S::Count,
) -> Result<(), NoMemory>
    ensures shown { OnOk result (out.new.tokens ≡ out.old.tokens ++ led lead.entry (walks.many_at (below (S.records store.now.source.now) store.now.root.now store.now.owner.now levels) types.now (part_at part.entry ∷ []) (option_copied field.entry)).0) }
    ensures before { out.new.before ≡ out.old.before }
    ensures met { OnOk result (met.new ≡ stood_onto met.old (walks.many_at (below (S.records store.now.source.now) store.now.root.now store.now.owner.now levels) types.now (part_at part.entry ∷ []) (option_copied field.entry)).1) }
    ensures looks { S.Count.looks steps.new ≤ S.Count.looks steps.old + length (walks.many_at (below (S.records store.now.source.now) store.now.root.now store.now.owner.now levels) types.now (part_at part.entry ∷ []) (option_copied field.entry)).1.seen }
    ensures applies { S.Count.applies steps.new ≡ S.Count.applies steps.old }
{
    match field {
        Some(Field::Leaf(value)) => show_null(value, lead, met, out),
        Some(Field::Link(_)) => lost(lead, met, out),
        Some(Field::Links(ids)) => {
            lead.begin(out)?;
            out.begin_array()?;
            show_elements(
                alloc,
                store,
                levels,
                types,
                part,
                ids.as_slice(),
                met,
                out,
                steps,
            )?;
            out.end_array()?;
            Ok(())
        }
        None => lost(lead, met, out),
    }
}

/// Writes the elements of a list.
#[cycle(show)]
fn show_elements<'p, S: RecordSource>(
    alloc: Global,
    store: &Store<'p, S>,
    levels: usize,
    types: &Ids,
    part: PartAt<'p>,
    ids: &'p [Option<Id>],
    met: &mut Standings<'p>,
    out: &mut Writer,
    steps: &mut S::Count,
) -> Result<(), NoMemory>
    ensures shown { OnOk result (out.new.tokens ≡ out.old.tokens ++ elements_tokens (walks.elements_at (below (S.records store.now.source.now) store.now.root.now store.now.owner.now levels) types.now (part_at part.entry ∷ []) ids.now).0) }
    ensures before { out.new.before ≡ out.old.before }
    ensures met { OnOk result (met.new ≡ stood_onto met.old (walks.elements_at (below (S.records store.now.source.now) store.now.root.now store.now.owner.now levels) types.now (part_at part.entry ∷ []) ids.now).1) }
    ensures looks { S.Count.looks steps.new ≤ S.Count.looks steps.old + length (walks.elements_at (below (S.records store.now.source.now) store.now.root.now store.now.owner.now levels) types.now (part_at part.entry ∷ []) ids.now).1.seen }
    ensures applies { S.Count.applies steps.new ≡ S.Count.applies steps.old }
{
    'ids: for id in ids {
        show_element(alloc, store, levels, types, part, id, met, out, steps)?;
    }
    Ok(())
}

/// Writes an element of a list: null where there is none, and where it is missing.
#[cycle(show)]
fn show_element<'p, S: RecordSource>(
    alloc: Global,
    store: &Store<'p, S>,
    levels: usize,
    types: &Ids,
    part: PartAt<'p>,
    element: &'p Option<Id>,
    met: &mut Standings<'p>,
    out: &mut Writer,
    steps: &mut S::Count,
) -> Result<(), NoMemory>
    ensures shown { OnOk result (out.new.tokens ≡ out.old.tokens ++ tree_tokens (walks.element_at (below (S.records store.now.source.now) store.now.root.now store.now.owner.now levels) types.now (part_at part.entry ∷ []) element.now).0) }
    ensures before { out.new.before ≡ out.old.before }
    ensures met { OnOk result (met.new ≡ stood_onto met.old (walks.element_at (below (S.records store.now.source.now) store.now.root.now store.now.owner.now levels) types.now (part_at part.entry ∷ []) element.now).1) }
    ensures looks { S.Count.looks steps.new ≤ S.Count.looks steps.old + length (walks.element_at (below (S.records store.now.source.now) store.now.root.now store.now.owner.now levels) types.now (part_at part.entry ∷ []) element.now).1.seen }
    ensures applies { S.Count.applies steps.new ≡ S.Count.applies steps.old }
{
    match element {
        Some(id) => show_record(
            alloc,
            store,
            levels,
            part,
            types,
            id.as_str(),
            Lead::Alone,
            met,
            out,
            steps,
        ),
        None => {
            out.null()?;
            Ok(())
        }
    }
}

/// Writes what a record with pointers tells beside its fields; nothing where no pointer is given.
#[cycle(show)]
fn show_marks<'p, S: RecordSource>(
    alloc: Global,
    store: &Store<'p, S>,
    at: RowAt<'p>,
    plan: &'p ReaderSteps,
    met: &mut Standings<'p>,
    out: &mut Writer,
    steps: &mut S::Count,
) -> Result<(), NoMemory>
    ensures shown { OnOk result (out.new.tokens ≡ out.old.tokens ++ pairs_tokens (mark_members store.now.owner.now at.entry.id.now (pointers_at (S.records store.now.source.now) store.now.root.now store.now.owner.now at.entry plan.now))) }
    ensures before { out.new.before ≡ out.old.before }
    ensures met { OnOk result (met.new ≡ stood_onto met.old (pointers_met_at (S.records store.now.source.now) store.now.root.now store.now.owner.now at.entry plan.now)) }
    ensures looks { S.Count.looks steps.new ≤ S.Count.looks steps.old + length (pointers_met_at (S.records store.now.source.now) store.now.root.now store.now.owner.now at.entry plan.now).seen }
    ensures applies { S.Count.applies steps.new ≡ S.Count.applies steps.old }
{
    let some = has_pointer(alloc, at, plan)?;
    if !some {
        return Ok(());
    }
    out.key("__fragments")?;
    out.begin_object()?;
    show_pointers(alloc, store, at, plan, met, out, steps)?;
    out.end_object()?;
    show_identity(at.id, store.owner, out)
}

/// Writes the id of a record and the name of its owner.
fn show_identity(id: &str, owner: &Words, out: &mut Writer) -> Result<(), NoMemory>
    ensures tokens { OnOk result (out.new.tokens ≡ out.old.tokens ++ identity owner.now id.now) }
    ensures before { out.new.before ≡ out.old.before }
{
    out.key("__id")?;
    out.string(id)?;
    out.key("__owner")?;
    out.string(owner.as_str())?;
    Ok(())
}

/// Whether steps give a pointer on a record.
#[cycle(given)]
fn has_pointer(alloc: Global, at: RowAt<'_>, plan: &ReaderSteps) -> Result<bool, NoMemory>
    ensures { IfOk result (λ some. some ≡ has_pointed (items_at at.entry plan.now)) }
{
    'steps: for step in plan.as_slice() {
        let some = is_pointer(alloc, at, step)?;
        if some {
            return Ok(true);
        }
    }
    Ok(false)
}

/// Whether a step gives a pointer on a record.
#[cycle(given)]
fn is_pointer(alloc: Global, at: RowAt<'_>, step: &ReaderStep) -> Result<bool, NoMemory>
    ensures { IfOk result (λ some. some ≡ has_pointed (items_at at.entry (step_of step.now))) }
{
    match step {
        ReaderStep::Typename { .. } => Ok(false),
        ReaderStep::Leaf { .. } => Ok(false),
        ReaderStep::Object { .. } => Ok(false),
        ReaderStep::Guarded { guard, child } => {
            let passes = guard_passes(alloc, at.env, at.name, guard)?;
            if !passes {
                return Ok(false);
            }
            has_pointer(alloc, at, &child.steps)
        }
        ReaderStep::Pointer { .. } => Ok(true),
    }
}

/// Writes the pointers of steps.
#[cycle(show)]
fn show_pointers<'p, S: RecordSource>(
    alloc: Global,
    store: &Store<'p, S>,
    at: RowAt<'p>,
    plan: &'p ReaderSteps,
    met: &mut Standings<'p>,
    out: &mut Writer,
    steps: &mut S::Count,
) -> Result<(), NoMemory>
    ensures shown { OnOk result (out.new.tokens ≡ out.old.tokens ++ pairs_tokens (pointers_at (S.records store.now.source.now) store.now.root.now store.now.owner.now at.entry plan.now)) }
    ensures before { out.new.before ≡ out.old.before }
    ensures met { OnOk result (met.new ≡ stood_onto met.old (pointers_met_at (S.records store.now.source.now) store.now.root.now store.now.owner.now at.entry plan.now)) }
    ensures looks { S.Count.looks steps.new ≤ S.Count.looks steps.old + length (pointers_met_at (S.records store.now.source.now) store.now.root.now store.now.owner.now at.entry plan.now).seen }
    ensures applies { S.Count.applies steps.new ≡ S.Count.applies steps.old }
{
    'steps: for step in plan.as_slice() {
        show_pointers_of_step(alloc, store, at, step, met, out, steps)?;
    }
    Ok(())
}

/// Writes the pointer of a step, or the pointers behind a guard that lets them.
#[cycle(show)]
fn show_pointers_of_step<'p, S: RecordSource>(
    alloc: Global,
    store: &Store<'p, S>,
    at: RowAt<'p>,
    step: &'p ReaderStep,
    met: &mut Standings<'p>,
    out: &mut Writer,
    steps: &mut S::Count,
) -> Result<(), NoMemory>
    ensures shown { OnOk result (out.new.tokens ≡ out.old.tokens ++ pairs_tokens (pointers_at (S.records store.now.source.now) store.now.root.now store.now.owner.now at.entry (step_of step.now))) }
    ensures before { out.new.before ≡ out.old.before }
    ensures met { OnOk result (met.new ≡ stood_onto met.old (pointers_met_at (S.records store.now.source.now) store.now.root.now store.now.owner.now at.entry (step_of step.now))) }
    ensures looks { S.Count.looks steps.new ≤ S.Count.looks steps.old + length (pointers_met_at (S.records store.now.source.now) store.now.root.now store.now.owner.now at.entry (step_of step.now)).seen }
    ensures applies { S.Count.applies steps.new ≡ S.Count.applies steps.old }
{
    match step {
        ReaderStep::Typename { .. } => Ok(()),
        ReaderStep::Leaf { .. } => Ok(()),
        ReaderStep::Object { .. } => Ok(()),
        ReaderStep::Guarded { guard, child } => {
            let passes = guard_passes(alloc, at.env, at.name, guard)?;
            if !passes {
                return Ok(());
            }
            show_pointers(alloc, store, at, &child.steps, met, out, steps)
        }
        ReaderStep::Pointer {
            fragment,
            arguments,
            inline,
        } => {
            let spread = SpreadAt::new(at.env, fragment, arguments, inline);
            show_pointer(alloc, store, at, spread, met, out, steps)
        }
    }
}

/// Writes a pointer: the values of its local variables, or what its fragment shows where that is read.
#[cycle(show)]
fn show_pointer<'p, S: RecordSource>(
    alloc: Global,
    store: &Store<'p, S>,
    at: RowAt<'p>,
    spread: SpreadAt<'p>,
    met: &mut Standings<'p>,
    out: &mut Writer,
    steps: &mut S::Count,
) -> Result<(), NoMemory>
    ensures shown { OnOk result (out.new.tokens ≡ out.old.tokens ++ pairs_tokens ((spread.entry.fragment.now, (walks.pointer_at (next_at (S.records store.now.source.now) store.now.root.now store.now.owner.now at.entry) at.entry.name.now at.entry.id.now (spread_at spread.entry) spread.entry.inline).0) ∷ [])) }
    ensures before { out.new.before ≡ out.old.before }
    ensures met { OnOk result (met.new ≡ stood_onto met.old (walks.pointer_at (next_at (S.records store.now.source.now) store.now.root.now store.now.owner.now at.entry) at.entry.name.now at.entry.id.now (spread_at spread.entry) spread.entry.inline).1) }
    ensures looks { S.Count.looks steps.new ≤ S.Count.looks steps.old + length (walks.pointer_at (next_at (S.records store.now.source.now) store.now.root.now store.now.owner.now at.entry) at.entry.name.now at.entry.id.now (spread_at spread.entry) spread.entry.inline).1.seen }
    ensures applies { S.Count.applies steps.new ≡ S.Count.applies steps.old }
{
    out.key(spread.fragment.as_str())?;
    if !spread.inline {
        let scope = Plain::Tree(spread.scope(alloc)?);
        return write_plain(out, &scope);
    }
    let itself = one_name(alloc, at.name)?;
    show_record(
        alloc,
        store,
        at.levels,
        spread.body,
        &itself,
        at.id,
        Lead::Alone,
        met,
        out,
        steps,
    )
}
