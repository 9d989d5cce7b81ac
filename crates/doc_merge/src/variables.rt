//! Variables by their names; of several of one name the first counts.
ghost use Rattle.std.specs.Prelude.{◌≡◌, IfOk, option_copied};
ghost use Rattle.doc_merge.specs.UseView.{Names};
ghost use Rattle.doc_merge.specs.Values.{variable_named};

use plan_ir::{NoMemory, VariableDef, VariableDefs};
use std::alloc::Global;
use std::collections::BTreeMap;

/// The variables of an operation by their names.
#[derive(Drop)]
pub(crate) struct Variables<'a> {
    pub(crate) defined: &'a VariableDefs,
    pub(crate) by_name: BTreeMap<&'a str, &'a VariableDef>,
}

impl<'a> Variables<'a> {
    /// The variables of an operation.
    pub(crate) fn of(alloc: Global, defined: &'a VariableDefs) -> Result<Variables<'a>, NoMemory>
        ensures named { IfOk result (λ table. Names table) }
        ensures defined { IfOk result (λ table. table.defined.now ≡ defined.now) }
    {
        let mut by_name = BTreeMap::new(alloc);
        let items = defined.as_slice();
        let mut left = items.len();
        'variables: while left > 0 {
            left -= 1;
            let variable = &items[left];
            drop(by_name.insert(variable.name.as_str(), variable)?);
        }
        Ok(Variables { defined, by_name })
    }

    /// The variable of a name; takes no memory.
    pub(crate) fn find(&self, name: &str) -> Option<&'a VariableDef>
        requires { Names self.now }
        ensures { option_copied result ≡ variable_named self.now.defined.now name.now }
    {
        self.by_name.get(name).copied()
    }
}
