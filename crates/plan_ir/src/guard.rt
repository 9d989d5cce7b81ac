//! What has to hold for the steps of a plan to be taken.
ghost use Rattle.std.specs.Prelude.{◌≡◌, [], ◌∷◌, ◌++◌, length, IfOk, OnOk, OnErr, IsTrue, ◌↔◌};

use crate::copies::copy_of_ids;
use relay_marks::ValueTree;
use std::alloc::Global;
use std::marker::Model;
use store_model::gql_plain::{Ids, NoMemory};

/// The value of `if` at a `@skip` or an `@include` (GraphQL, October 2021, sections 3.13.1 and
/// 3.13.2).
#[derive(Debug, Drop)]
pub struct Condition {
    /// Whether the directive is `@skip`.
    pub skip: bool,
    pub value: ValueTree,
}

impl Condition {
    /// The same condition.
    pub fn copy(&self) -> Result<Condition, NoMemory>
        ensures { IfOk result (λ condition. condition ≡ self.now) }
    {
        Ok(Condition {
            skip: self.skip,
            value: self.value.copy()?,
        })
    }
}

/// Conditions in written order.
#[derive(Debug)]
pub struct Conditions {
    pub items: Vec<Condition>,
}

impl Drop for Conditions {
    fn drop(self) {
        let Conditions { items } = self;
        drop(items);
    }
}

impl Model for Conditions {
    ghost use Rattle.std.specs.Prelude.{List};
    ghost use Rattle.std.specs.Coded.{coded_list};
    ghost use Rattle.plan_ir.specs.declared.guard.Condition.{Condition};
    ghost use Rattle.plan_ir.specs.contracts.guard.Condition as condition;

    ghost Value = { List Condition };

    ghost coded = { coded_list condition.the_row.coded };

    ghost view = { λ c. c.items.items };
}

impl Conditions {
    /// No condition; takes no memory.
    pub fn new(alloc: Global) -> Conditions
        ensures { result ≡ [] }
    {
        Conditions {
            items: Vec::new(alloc),
        }
    }

    /// Puts a condition at the end.
    pub fn push(&mut self, condition: Condition) -> Result<(), NoMemory>
        ensures ok { OnOk result (self.new ≡ self.old ++ condition ∷ []) }
        ensures err { OnErr result (self.new ≡ self.old) }
    {
        self.items.push(condition)?;
        Ok(())
    }

    /// The conditions in written order.
    pub fn as_slice(&self) -> &[Condition]
        ensures { result.now ≡ self.now }
    {
        &self.items
    }

    /// The number of conditions.
    pub fn len(&self) -> usize
        ensures { result ≡ length self.now }
    {
        self.items.len()
    }

    /// Whether there is no condition.
    pub fn is_empty(&self) -> bool
        ensures { IsTrue result ↔ (self.now ≡ []) }
    {
        self.items.is_empty()
    }

    /// The same conditions.
    pub fn copy(&self) -> Result<Conditions, NoMemory>
        ensures { IfOk result (λ conditions. conditions ≡ self.now) }
    {
        let mut items = Vec::new(*self.items.allocator());
        'conditions: for condition in &self.items {
            items.push(condition.copy()?)?;
        }
        Ok(Conditions { items })
    }
}

/// For which object types, and under which conditions, steps are taken.
#[derive(Debug, Drop)]
pub struct Guard {
    /// The object types; all of them where there is no list.
    pub types: Option<Ids>,
    /// All of them have to hold: none that is of `@skip` is true, and each other one is.
    pub conditions: Conditions,
}

impl Guard {
    /// The same guard, one more owner of its list of types.
    pub fn copy(&self) -> Result<Guard, NoMemory>
        ensures { IfOk result (λ guard. guard ≡ self.now) }
    {
        Ok(Guard {
            types: copy_of_ids(&self.types)?,
            conditions: self.conditions.copy()?,
        })
    }
}
