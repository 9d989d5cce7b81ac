//! The groups that plans ask of an object.
ghost use Rattle.std.specs.Prelude.{◌≡◌, map, option_copied, IfOk};
ghost use Rattle.plan_ir.specs.NormalMeaning.{collect_plan};
ghost use Rattle.plan_ir.specs.store_model.Items.{groups_at};
ghost use Rattle.plan_ir.specs.store_model.Says.{info_in, info_of};
ghost use Rattle.plan_groups.specs.FieldView.{plan_at};

use crate::field::PlanAt;
use crate::gathered::gather;
use crate::group::GroupAt;
use plan_ir::NoMemory;
use std::alloc::Global;
use std::marker::Model;

/// The fields that plans ask of an object by their response keys, in order of first response key.
#[derive(Drop)]
pub struct Groups<'p> {
    items: Vec<GroupAt<'p>>,
}

impl<'p> Model for Groups<'p> {
    ghost use Rattle.std.specs.Prelude.{List};
    ghost use Rattle.std.specs.Coded.{coded_list};
    ghost use Rattle.plan_ir.specs.NormalMeaning.{Plan};
    ghost use Rattle.plan_ir.specs.store_model.Items.{Group};
    ghost use Rattle.plan_groups.specs.Codes.{coded_group};

    ghost Value = { List (Group Plan) };

    ghost coded = { coded_list coded_group };

    ghost view = { λ g. g.items.items };
}

impl<'p> Groups<'p> {
    /// The groups that plans ask of an object of that type. Fields are found by their response keys,
    /// so n fields take about n * log n steps; but distinct keys of connections under one response key
    /// are put into their places one by one, so k of them take about k * k moves.
    pub fn of(alloc: Global, object: &str, parts: &[PlanAt<'p>]) -> Result<Groups<'p>, NoMemory>
        ensures { IfOk result (λ groups. groups ≡ groups_at collect_plan object.now (map plan_at parts.now)) }
    {
        let items = gather(alloc, object, parts)?;
        Ok(Groups { items })
    }

    /// The groups in order of first response key; takes no memory.
    pub fn as_slice(&self) -> &[GroupAt<'p>]
        ensures { result.now ≡ self.now }
    {
        &self.items
    }
}

/// The type of the page information, by what plans ask of a page of that type; empty where they do
/// not ask for it.
pub(crate) fn info_type<'p>(
    alloc: Global,
    page_type: Option<&str>,
    parts: &[PlanAt<'p>],
) -> Result<&'p str, NoMemory>
    ensures { IfOk result (λ name. name.now ≡ info_of collect_plan (option_copied page_type.entry) (map plan_at parts.now)) }
{
    match page_type {
        Some(page_type) => {
            let groups = gather(alloc, page_type, parts)?;
            Ok(info_among(&groups))
        }
        None => Ok(""),
    }
}

/// The type of the page information among groups, empty where there is none.
fn info_among<'p>(groups: &[GroupAt<'p>]) -> &'p str
    ensures { result.now ≡ info_in groups.now }
{
    'groups: for group in groups {
        if group.response() == "pageInfo" {
            return group.page_type().unwrap_or("");
        }
    }
    ""
}
