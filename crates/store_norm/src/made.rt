//! The ids of objects: those of the server, and generated ones.
ghost use Rattle.std.specs.Prelude.{◌≡◌, ◌++◌, ◌∷◌, [], codes, option_map, IfOk, OnOk};
ghost use Rattle.serde_json.specs.View.{view};
ghost use Rattle.plan_ir.specs.store_model.Says as says;
ghost use Rattle.plan_ir.specs.store_model.declared.payload_fault.PathStep.TheVariants.{Key};
ghost use Rattle.store_report.specs.Gathering.{gathered_onto};
ghost use Rattle.store_norm.specs.MadeView.{id_of};

use plan_ir::{Cause, NoMemory, SharedText, Words, client_id};
use serde_json::Value;
use std::alloc::Global;
use store_report::{Gathered, Path, Step};

/// Where an object stands: under a key of a record, and at an index where it is an element of a list.
#[derive(Clone, Copy)]
pub(crate) struct Place<'a> {
    pub(crate) parent: &'a SharedText,
    pub(crate) key: &'a SharedText,
    pub(crate) index: Option<u64>,
}

/// The id that is made for an object.
pub(crate) fn made_id(alloc: Global, place: &Place<'_>) -> Result<SharedText, NoMemory>
    ensures { IfOk result (λ id. id ≡ id_of place.now) }
{
    let id = client_id(
        alloc,
        place.parent.as_words(),
        place.key.as_words(),
        place.index,
    )?;
    SharedText::new(alloc, id)
}

/// The id of an object: that under `id`, where its type has one; else, and with a fault, the one that
/// is made for it.
#[tactic(auto, using(crate::proofs::Reports::gathering))]
pub(crate) fn object_id<'r>(
    alloc: Global,
    has_id: bool,
    place: &Place<'_>,
    given: Option<&'r Value>,
    path: &Path<'r>,
    gathered: &mut Gathered<'r>,
) -> Result<SharedText, NoMemory>
    ensures id { IfOk result (λ id. id ≡ (says.id_under has_id (id_of place.now) (path.now ++ Key (codes "id") ∷ []) (option_map (λ v. view v.now) given.entry)).0) }
    ensures said { OnOk result (gathered.new ≡ gathered_onto gathered.old (says.id_under has_id (id_of place.now) (path.now ++ Key (codes "id") ∷ []) (option_map (λ v. view v.now) given.entry)).1) }
{
    if !has_id {
        return made_id(alloc, place);
    }
    given_id(alloc, place, given, path, gathered)
}

/// The id of an object for which this value is given.
#[tactic(auto, using(crate::proofs::Reports::gathering))]
fn given_id<'r>(
    alloc: Global,
    place: &Place<'_>,
    given: Option<&'r Value>,
    path: &Path<'r>,
    gathered: &mut Gathered<'r>,
) -> Result<SharedText, NoMemory>
    ensures id { IfOk result (λ id. id ≡ (says.id_of_value (id_of place.now) (path.now ++ Key (codes "id") ∷ []) (option_map (λ v. view v.now) given.entry)).0) }
    ensures said { OnOk result (gathered.new ≡ gathered_onto gathered.old (says.id_of_value (id_of place.now) (path.now ++ Key (codes "id") ∷ []) (option_map (λ v. view v.now) given.entry)).1) }
{
    match given {
        None => made_id(alloc, place),
        Some(value) => match value {
            Value::Null => made_id(alloc, place),
            Value::Bool(_) => refused_id(alloc, place, Cause::IdShape, path, gathered),
            Value::Number(_) => refused_id(alloc, place, Cause::IdShape, path, gathered),
            Value::String(text) => text_id(alloc, place, text.as_str(), path, gathered),
            Value::Array(_) => refused_id(alloc, place, Cause::IdShape, path, gathered),
            Value::Object(_) => refused_id(alloc, place, Cause::IdShape, path, gathered),
        },
    }
}

/// The id that a text is: one that is not empty, and not like a generated one.
#[tactic(auto, using(crate::proofs::Reports::gathering))]
fn text_id<'r>(
    alloc: Global,
    place: &Place<'_>,
    text: &str,
    path: &Path<'r>,
    gathered: &mut Gathered<'r>,
) -> Result<SharedText, NoMemory>
    ensures id { IfOk result (λ id. id ≡ (says.id_of_text (id_of place.now) (path.now ++ Key (codes "id") ∷ []) text.now).0) }
    ensures said { OnOk result (gathered.new ≡ gathered_onto gathered.old (says.id_of_text (id_of place.now) (path.now ++ Key (codes "id") ∷ []) text.now).1) }
{
    if text.is_empty() {
        return refused_id(alloc, place, Cause::IdShape, path, gathered);
    }
    if text.starts_with("client:") {
        return refused_id(alloc, place, Cause::ReservedId, path, gathered);
    }
    SharedText::new(alloc, Words::new(alloc, text)?)
}

/// The id that is made for an object whose own `id` has a fault.
fn refused_id<'r>(
    alloc: Global,
    place: &Place<'_>,
    cause: Cause,
    path: &Path<'r>,
    gathered: &mut Gathered<'r>,
) -> Result<SharedText, NoMemory>
    ensures id { IfOk result (λ id. id ≡ id_of place.now) }
    ensures said { OnOk result (gathered.new ≡ gathered_onto gathered.old (says.fault_at (path.now ++ Key (codes "id") ∷ []) cause)) }
{
    let path = path.with(alloc, Step::Key("id"))?;
    gathered.fault(&path, cause)?;
    made_id(alloc, place)
}
