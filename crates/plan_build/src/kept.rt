//! What is kept of a schema while a plan is built.
ghost use Rattle.std.specs.Prelude.{◌≡◌, ◌++◌, [], ◌∷◌, Bool, Some, false, true, codes, bytes_eq, option_copied, option_map, IfOk, OnOk};
ghost use Rattle.std.specs.List.{filter};
ghost use Rattle.plan_ir.specs.schema_tables.Types as types;
ghost use Rattle.plan_build.specs.AroundView.{IsOfComposite, types_of};
ghost use Rattle.plan_build.specs.ClassView.{target_view};
ghost use Rattle.plan_build.specs.Classes as classes;
ghost use Rattle.plan_build.specs.KeptView.{IsRight, find};
ghost use Rattle.plan_build.specs.KnownView.{IsKnown};
ghost use Rattle.plan_build.specs.Steps as spec;

use crate::around::{Around, are_within, is_one};
use crate::classes::{Target, one_target};
use crate::known::Known;
use plan_ir::{Ids, Name, NoMemory, Schema};
use std::alloc::Global;
use std::collections::BTreeMap;

/// What was found out about the types that were asked for; each answer is sought once.
#[derive(Drop)]
pub struct Kept<'a> {
    /// Of types those of the types they may be that have an id.
    by_type: BTreeMap<&'a str, Ids>,
    /// What was found out about the object types that a type may be.
    known: BTreeMap<&'a str, Known<'a>>,
}

/// Puts a type, where it has an id.
fn put_identified(schema: &Schema, names: &mut Vec<Name>, name: &Name) -> Result<(), NoMemory>
    ensures { OnOk result (names.new.items ≡ names.old.items ++ filter (types.has_id schema.now) (name.now ∷ [])) }
{
    if schema.has_id(name.as_str()) {
        names.push(name.copy()?)?;
        return Ok(());
    }
    Ok(())
}

/// Those of the types that a type may be that have an id.
fn identified(alloc: Global, schema: &Schema, of: &str) -> Result<Ids, NoMemory>
    requires { types.is_composite schema.now of.now ≡ true }
    ensures { IfOk result (λ ids. ids ≡ spec.identified schema.now of.now) }
{
    let mut names = Vec::new(alloc);
    'types: for name in schema.possible(of).as_slice() {
        put_identified(schema, &mut names, name)?;
    }
    Ids::in_order(names)
}

impl<'a> Kept<'a> {
    /// Nothing is kept; takes no memory.
    pub fn new(alloc: Global) -> Kept<'a>
        ensures { (defs : types.Defs) → IsRight defs result }
    {
        Kept {
            by_type: BTreeMap::new(alloc),
            known: BTreeMap::new(alloc),
        }
    }

    /// What is kept of a type; takes no memory.
    fn find(&self, of: &str) -> Option<&Ids>
        ensures { option_copied result ≡ find self.now of.now }
    {
        self.by_type.get(of)
    }

    /// Keeps those of a type.
    fn put(&mut self, schema: &Schema, of: &'a str, ids: Ids) -> Result<(), NoMemory>
        requires right { IsRight schema.now self.old }
        requires ids { ids ≡ spec.identified schema.now of.now }
        ensures { OnOk result (IsRight schema.now self.new) }
    {
        drop(self.by_type.insert(of, ids)?);
        Ok(())
    }

    /// Those of the types that a type may be that have an id: one more owner of what is kept.
    pub fn identified(
        &mut self,
        alloc: Global,
        schema: &Schema,
        of: &'a str,
    ) -> Result<Ids, NoMemory>
        requires right { IsRight schema.now self.old }
        requires composite { types.is_composite schema.now of.now ≡ true }
        ensures ids { IfOk result (λ ids. ids ≡ spec.identified schema.now of.now) }
        ensures right { OnOk result (IsRight schema.now self.new) }
    {
        if let Some(ids) = self.find(of) {
            let ids = ids.copy()?;
            return Ok(ids);
        }
        let ids = identified(alloc, schema, of)?;
        let copy = ids.copy()?;
        self.put(schema, of, copy)?;
        Ok(ids)
    }

    /// Takes out what is known of a type; takes no memory.
    fn take(&mut self, alloc: Global, of: &str) -> Known<'a>
        ensures known { (defs : types.Defs) → IsRight defs self.old → IsKnown defs of.now result }
        ensures right { (defs : types.Defs) → IsRight defs self.old → IsRight defs self.new }
    {
        match self.known.remove(of) {
            Some(known) => known,
            None => Known::new(alloc),
        }
    }

    /// Puts what is known of a type.
    fn put_known(&mut self, of: &'a str, known: Known<'a>) -> Result<(), NoMemory>
        ensures { (defs : types.Defs) → IsRight defs self.old → IsKnown defs of.now known.entry → OnOk result (IsRight defs self.new) }
    {
        drop(self.known.insert(of, known)?);
        Ok(())
    }

    /// Whether each type that one type may be is one that another may be, where that is known; takes
    /// no memory.
    fn find_within(&self, of: &str, on: &str) -> Option<bool>
        ensures { (defs : types.Defs) → IsRight defs self.now → (b : Bool) → result ≡ Some b → b ≡ spec.are_within (types.possible defs on.now) (types.possible defs of.now) }
    {
        match self.known.get(of) {
            Some(known) => known.within(on),
            None => None,
        }
    }

    /// What a field leads to on all types that a type may be, where that is known; takes no memory.
    fn find_target(&self, of: &str, name: &str) -> Option<Target<'a>>
        ensures { (defs : types.Defs) → IsRight defs self.now → (t : classes.Target) → option_map target_view result ≡ Some t → classes.one_target defs name.now (types.possible defs of.now) ≡ Some t }
    {
        match self.known.get(of) {
            Some(known) => known.target(name),
            None => None,
        }
    }

    /// Keeps whether each type that one type may be is one that another may be.
    fn keep_within(
        &mut self,
        alloc: Global,
        of: &'a str,
        on: &'a str,
        within: bool,
    ) -> Result<(), NoMemory>
        ensures { (defs : types.Defs) → IsRight defs self.old → within ≡ spec.are_within (types.possible defs on.now) (types.possible defs of.now)
            → OnOk result (IsRight defs self.new) }
    {
        let mut known = self.take(alloc, of);
        known.put_within(on, within)?;
        self.put_known(of, known)?;
        Ok(())
    }

    /// Keeps what a field leads to on all types that a type may be.
    fn keep_target(
        &mut self,
        alloc: Global,
        of: &'a str,
        name: &'a str,
        target: Target<'a>,
    ) -> Result<(), NoMemory>
        ensures { (defs : types.Defs) → IsRight defs self.old → classes.one_target defs name.now (types.possible defs of.now) ≡ Some (target_view target.entry)
            → OnOk result (IsRight defs self.new) }
    {
        let mut known = self.take(alloc, of);
        known.put_target(name, target)?;
        self.put_known(of, known)?;
        Ok(())
    }

    /// Whether each type that one type may be is one that another may be. Where either may be one type
    /// alone nothing is kept: two looks tell it.
    fn within(
        &mut self,
        alloc: Global,
        schema: &Schema,
        of: &'a str,
        on: &'a str,
    ) -> Result<bool, NoMemory>
        requires right { IsRight schema.now self.old }
        requires composite { types.is_composite schema.now of.now ≡ true }
        requires condition { types.is_composite schema.now on.now ≡ true }
        ensures within { IfOk result (λ b. b ≡ spec.are_within (types.possible schema.now on.now) (types.possible schema.now of.now)) }
        ensures right { OnOk result (IsRight schema.now self.new) }
    {
        let types = schema.possible(of);
        let ids = schema.possible(on);
        if is_one(types) || is_one(ids) {
            return Ok(are_within(types, ids));
        }
        if let Some(within) = self.find_within(of, on) {
            return Ok(within);
        }
        let found = are_within(types, ids);
        self.keep_within(alloc, of, on, found)?;
        Ok(found)
    }

    /// Seeks what a field leads to, where that is the same on all types that a type may be, and keeps it.
    fn seek_target(
        &mut self,
        alloc: Global,
        schema: &'a Schema,
        of: &'a str,
        name: &'a str,
    ) -> Result<Option<Target<'a>>, NoMemory>
        requires right { IsRight schema.now self.old }
        requires composite { types.is_composite schema.now of.now ≡ true }
        requires field { bytes_eq name.now (codes "__typename") ≡ false }
        ensures target { IfOk result (λ target. option_map target_view target ≡ classes.one_target schema.now name.now (types.possible schema.now of.now)) }
        ensures right { OnOk result (IsRight schema.now self.new) }
    {
        match one_target(schema, schema.possible(of), name) {
            Some(target) => {
                self.keep_target(alloc, of, name, target)?;
                Ok(Some(target))
            }
            None => Ok(None),
        }
    }

    /// What a field leads to, where that is the same on all types that a type may be. Of one type alone
    /// nothing is kept: one look tells it.
    fn target(
        &mut self,
        alloc: Global,
        schema: &'a Schema,
        of: &'a str,
        name: &'a str,
    ) -> Result<Option<Target<'a>>, NoMemory>
        requires right { IsRight schema.now self.old }
        requires composite { types.is_composite schema.now of.now ≡ true }
        requires field { bytes_eq name.now (codes "__typename") ≡ false }
        ensures target { IfOk result (λ target. option_map target_view target ≡ classes.one_target schema.now name.now (types.possible schema.now of.now)) }
        ensures right { OnOk result (IsRight schema.now self.new) }
    {
        let types = schema.possible(of);
        if is_one(types) {
            return Ok(one_target(schema, types, name));
        }
        if let Some(target) = self.find_target(of, name) {
            return Ok(Some(target));
        }
        self.seek_target(alloc, schema, of, name)
    }

    /// Whether each type around is one that the type may be. Of the types that one type may be it is
    /// sought once.
    pub fn are_within(
        &mut self,
        alloc: Global,
        schema: &Schema,
        around: Around<'_, 'a>,
        on: &'a str,
    ) -> Result<bool, NoMemory>
        requires right { IsRight schema.now self.old }
        requires composite { IsOfComposite schema.now around }
        requires condition { types.is_composite schema.now on.now ≡ true }
        ensures within { IfOk result (λ b. b ≡ spec.are_within (types.possible schema.now on.now) (types_of schema.now around.entry)) }
        ensures right { OnOk result (IsRight schema.now self.new) }
    {
        match around {
            Around::Of(of) => self.within(alloc, schema, of, on),
            Around::Listed(types) => Ok(are_within(types, schema.possible(on))),
        }
    }

    /// What a field leads to, where that is the same on all types around. Of the types that one type
    /// may be it is sought once, unless it is not the same.
    pub fn one_target(
        &mut self,
        alloc: Global,
        schema: &'a Schema,
        around: Around<'_, 'a>,
        name: &'a str,
    ) -> Result<Option<Target<'a>>, NoMemory>
        requires right { IsRight schema.now self.old }
        requires composite { IsOfComposite schema.now around }
        requires field { bytes_eq name.now (codes "__typename") ≡ false }
        ensures target { IfOk result (λ target. option_map target_view target ≡ classes.one_target schema.now name.now (types_of schema.now around.entry)) }
        ensures right { OnOk result (IsRight schema.now self.new) }
    {
        match around {
            Around::Of(of) => self.target(alloc, schema, of, name),
            Around::Listed(types) => Ok(one_target(schema, types, name)),
        }
    }
}
