//! Types that have a possible type in common (GraphQL, October 2021, section 5.5.2.3).
ghost use Rattle.std.specs.Prelude.{◌≡◌, true, map, IfOk, IsTrue, OnOk};
ghost use Rattle.std.specs.List.{list_any};
ghost use Rattle.doc_sites.specs.schema_types.FieldRules as rules;
ghost use Rattle.doc_sites.specs.schema_tables.Types as types;
ghost use Rattle.doc_fields.specs.Common.{AreCommon, IsCommonWith};

use doc_sites::seen::Seen;
use doc_sites::{Ids, NoMemory, Schema};
use std::alloc::Global;
use std::collections::BTreeMap;

/// Pairs of types of which it was found before that they have a possible type in common.
#[derive(Drop)]
pub(crate) struct CommonTypes<'a> {
    by_type: BTreeMap<&'a str, Seen<'a>>,
}

impl<'a> CommonTypes<'a> {
    /// No pair; takes no memory.
    pub(crate) fn new(alloc: Global) -> CommonTypes<'a>
        ensures { (defs : types.Defs) → AreCommon defs result }
    {
        CommonTypes {
            by_type: BTreeMap::new(alloc),
        }
    }

    /// Whether a composite condition and a type have a possible type in common. Of a pair that has
    /// one, the possible types are looked at once.
    pub(crate) fn have_common_type(
        &mut self,
        alloc: Global,
        schema: &Schema,
        of: &'a str,
        on: &'a str,
    ) -> Result<bool, NoMemory>
        requires { types.is_composite schema.now on.now ≡ true }
        ensures answer { AreCommon schema.now self.old → IfOk result (λ b. b ≡ rules.have_common_type schema.now of.now on.now) }
        ensures common { AreCommon schema.now self.old → OnOk result (AreCommon schema.now self.new) }
    {
        if self.knows(of, on) {
            return Ok(true);
        }
        if !have_common_type(schema, of, on) {
            return Ok(false);
        }
        self.put(alloc, of, on)?;
        Ok(true)
    }

    /// Whether a pair is one of them.
    fn knows(&self, of: &str, on: &str) -> bool
        ensures { (defs : types.Defs) → AreCommon defs self.now → IsTrue result → rules.have_common_type defs of.now on.now ≡ true }
    {
        match self.by_type.get(of) {
            Some(known) => known.contains(on),
            None => false,
        }
    }

    /// Puts a pair.
    fn put(&mut self, alloc: Global, of: &'a str, on: &'a str) -> Result<(), NoMemory>
        ensures { (defs : types.Defs) → AreCommon defs self.old → rules.have_common_type defs of.now on.now ≡ true → OnOk result (AreCommon defs self.new) }
    {
        let mut known = self.take(alloc, of);
        let _is_new = known.insert(on)?;
        drop(self.by_type.insert(of, known)?);
        Ok(())
    }

    /// Takes out the types that a type is known to have a possible type in common with.
    fn take(&mut self, alloc: Global, of: &str) -> Seen<'a>
        ensures taken { (defs : types.Defs) → AreCommon defs self.old → IsCommonWith defs of.now result }
        ensures common { (defs : types.Defs) → AreCommon defs self.old → AreCommon defs self.new }
    {
        match self.by_type.remove(of) {
            Some(known) => known,
            None => Seen::new(alloc),
        }
    }
}

/// Whether a composite condition and a type have a possible type in common.
fn have_common_type(schema: &Schema, of: &str, on: &str) -> bool
    requires { types.is_composite schema.now on.now ≡ true }
    ensures { result ≡ rules.have_common_type schema.now of.now on.now }
{
    if !schema.is_composite(of) {
        return one_applies(schema, schema.possible(on), of);
    }
    share_type(schema, of, on)
}

/// Whether two composite types have a possible type in common. Goes through the possible types of
/// the one that has fewer of them.
fn share_type(schema: &Schema, of: &str, on: &str) -> bool
    requires composite_type { types.is_composite schema.now of.now ≡ true }
    requires composite_condition { types.is_composite schema.now on.now ≡ true }
    ensures { result ≡ rules.have_common_type schema.now of.now on.now }
{
    let around = schema.possible(of);
    let inside = schema.possible(on);
    if around.len() < inside.len() {
        return one_applies(schema, around, on);
    }
    one_applies(schema, inside, of)
}

/// Whether one of these object types is a type, implements it, or is held by it.
fn one_applies(schema: &Schema, objects: &Ids, to: &str) -> bool
    ensures { result ≡ list_any (λ object. types.applies schema.now object to.now) objects.now }
{
    'objects: for object in objects.as_slice() {
        if schema.applies(object.as_str(), to) {
            return true;
        }
    }
    false
}
