//! What was found out about the object types that a type may be.
ghost use Rattle.std.specs.Prelude.{◌≡◌, Some, option_map, OnOk};
ghost use Rattle.plan_build.specs.ClassView.{target_view};
ghost use Rattle.plan_build.specs.Classes as classes;
ghost use Rattle.plan_build.specs.KnownView.{IsKnown, find_target, find_within};
ghost use Rattle.plan_build.specs.Steps as spec;
ghost use Rattle.plan_ir.specs.schema_tables.Types.{Text, Defs, possible};

use crate::classes::Target;
use plan_ir::NoMemory;
use std::alloc::Global;
use std::collections::BTreeMap;

/// What was found out about the object types that one type may be.
#[derive(Drop)]
pub(crate) struct Known<'a> {
    /// Whether each of them is one of those that another type may be, by the name of the other.
    within: BTreeMap<&'a str, bool>,
    /// What a field leads to on all of them, by its name.
    targets: BTreeMap<&'a str, Target<'a>>,
}

impl<'a> Known<'a> {
    /// Nothing is known; takes no memory.
    pub(crate) fn new(alloc: Global) -> Known<'a>
        ensures { (defs : Defs) (of : Text) → IsKnown defs of result }
    {
        Known {
            within: BTreeMap::new(alloc),
            targets: BTreeMap::new(alloc),
        }
    }

    /// Whether each type is one of those that this one may be, where that is known; takes no memory.
    pub(crate) fn within(&self, on: &str) -> Option<bool>
        ensures { result ≡ find_within self.now on.now }
    {
        match self.within.get(on) {
            Some(within) => Some(*within),
            None => None,
        }
    }

    /// What a field leads to on all of them, where that is known; takes no memory.
    pub(crate) fn target(&self, name: &str) -> Option<Target<'a>>
        ensures { option_map target_view result ≡ find_target self.now name.now }
    {
        match self.targets.get(name) {
            Some(target) => Some(*target),
            None => None,
        }
    }

    /// Puts whether each type is one of those that this one may be.
    pub(crate) fn put_within(&mut self, on: &'a str, within: bool) -> Result<(), NoMemory>
        ensures { (defs : Defs) (of : Text) → IsKnown defs of self.old → within ≡ spec.are_within (possible defs on.now) (possible defs of)
            → OnOk result (IsKnown defs of self.new) }
    {
        let _ = self.within.insert(on, within)?;
        Ok(())
    }

    /// Puts what a field leads to on all of them.
    pub(crate) fn put_target(&mut self, name: &'a str, target: Target<'a>) -> Result<(), NoMemory>
        ensures { (defs : Defs) (of : Text) → IsKnown defs of self.old → classes.one_target defs name.now (possible defs of) ≡ Some (target_view target.entry)
            → OnOk result (IsKnown defs of self.new) }
    {
        let _ = self.targets.insert(name, target)?;
        Ok(())
    }
}
