//! The types of objects of a response.
ghost use Rattle.std.specs.Prelude.{◌≡◌, true, option_copied, option_map};
ghost use Rattle.serde_json.specs.Find.{get_member};
ghost use Rattle.serde_json.specs.View.{members_view, view};
ghost use Rattle.plan_ir.specs.store_model.Records.{typename};
ghost use Rattle.plan_ir.specs.store_model.Says as says;
ghost use Rattle.plan_ir.specs.gql_plain.Order.{has_text};

use crate::members::member;
use plan_groups::{BelowAt, GroupAt};
use plan_ir::Ids;
use serde_json::{Map, Value};

/// The type of an object, by what stands under `__typename`; takes no memory. Where the type is not
/// open, the members are not looked at.
pub(crate) fn type_under<'r>(
    below: &BelowAt<'r>,
    members: &'r Map<String, Value>,
) -> Option<&'r str>
    ensures { option_copied result ≡ says.type_under below.now.open_type below.now.types.now (get_member typename (members_view members.now.entries)) }
{
    if below.open_type {
        return possible_name(below.types, member(members, "__typename"));
    }
    first_of(below.types)
}

/// The text that the value is, where it is one of the types.
fn possible_name<'r>(types: &Ids, given: Option<&'r Value>) -> Option<&'r str>
    ensures { option_copied result ≡ says.type_under true types.now (option_map (λ v. view v.now) given.entry) }
{
    match given {
        None => None,
        Some(value) => match value.as_str() {
            Some(name) => {
                if types.contains(name) {
                    return Some(name);
                }
                None
            }
            None => None,
        },
    }
}

/// The first of the texts.
fn first_of(texts: &Ids) -> Option<&str>
    ensures { option_copied result ≡ says.first_of texts.now }
{
    match texts.as_slice() {
        [first, ..] => Some(first.as_str()),
        [] => None,
    }
}

/// Whether something else than the name of the type stands under `__typename`, where the plans ask for
/// it; takes no memory. Where they do not, the members are not looked at.
pub(crate) fn is_misnamed(name: &str, groups: &[GroupAt<'_>], members: &Map<String, Value>) -> bool
    ensures { result ≡ says.is_misnamed name.now (says.responses groups.now) (get_member typename (members_view members.now.entries)) }
{
    if !has_response(groups, "__typename") {
        return false;
    }
    !is_name_or_null(name, member(members, "__typename"))
}

/// Whether the value is the name, null or absent.
fn is_name_or_null(name: &str, given: Option<&Value>) -> bool
    ensures { result ≡ says.is_name_or_null name.now (option_map (λ v. view v.now) given.entry) }
{
    match given {
        None => true,
        Some(value) => match value {
            Value::Null => true,
            Value::Bool(_) => false,
            Value::Number(_) => false,
            Value::String(text) => text.as_str() == name,
            Value::Array(_) => false,
            Value::Object(_) => false,
        },
    }
}

/// Whether one of the groups has a response key.
fn has_response(groups: &[GroupAt<'_>], key: &str) -> bool
    ensures { result ≡ has_text (says.responses groups.now) key.now }
{
    'groups: for group in groups {
        if group.response() == key {
            return true;
        }
    }
    false
}
