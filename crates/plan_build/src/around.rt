//! The object types that the objects at hand may be of.
ghost use Rattle.std.specs.Prelude.{◌≡◌, false, map, codes, bytes_eq, IfOk};
ghost use Rattle.plan_build.specs.AroundView.{IsOfComposite, types_of};
ghost use Rattle.plan_build.specs.ClassView.{class_view};
ghost use Rattle.plan_build.specs.Classes as classes;
ghost use Rattle.plan_build.specs.Steps as spec;

use crate::classes::{Class, classes_of};
use plan_ir::{Ids, NoMemory, Schema};
use std::alloc::Global;

/// Object types, told in a way by which what was found out about them is found again.
#[derive(Clone, Copy)]
pub enum Around<'t, 'a> {
    /// Those that the composite type of this name may be.
    Of(&'a str),
    /// Those of a list.
    Listed(&'t Ids),
}

impl<'a> Around<'_, 'a> {
    /// Whether it is one type; takes no memory.
    pub fn is_one(self, schema: &Schema) -> bool
        requires { IsOfComposite schema.now self }
        ensures { result ≡ spec.is_one (types_of schema.now self.entry) }
    {
        match self {
            Around::Of(of) => is_one(schema.possible(of)),
            Around::Listed(types) => is_one(types),
        }
    }

    /// The object types in classes: on those of one class a field leads to the same.
    pub fn classes_of(
        self,
        alloc: Global,
        schema: &'a Schema,
        name: &str,
    ) -> Result<Vec<Class<'a>>, NoMemory>
        requires composite { IsOfComposite schema.now self }
        requires field { bytes_eq name.now (codes "__typename") ≡ false }
        ensures { IfOk result (λ found. map class_view found.items ≡ classes.classes_of schema.now name.now (types_of schema.now self.entry)) }
    {
        match self {
            Around::Of(of) => {
                let found = classes_of(alloc, schema, schema.possible(of), name)?;
                Ok(found)
            }
            Around::Listed(types) => {
                let found = classes_of(alloc, schema, types, name)?;
                Ok(found)
            }
        }
    }
}

/// Whether each type is one of these.
pub fn are_within(types: &Ids, ids: &Ids) -> bool
    ensures { result ≡ spec.are_within ids.now types.now }
{
    'types: for name in types.as_slice() {
        if !ids.contains(name.as_str()) {
            return false;
        }
    }
    true
}

/// Whether it is one type.
pub fn is_one(types: &Ids) -> bool
    ensures { result ≡ spec.is_one types.now }
{
    matches!(types.as_slice(), [_])
}
