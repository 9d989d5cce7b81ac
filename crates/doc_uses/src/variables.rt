//! Variables by their names; of several of one name the first counts.
ghost use Rattle.std.specs.Prelude.{◌≡◌, List, IfOk, option_map};
ghost use Rattle.doc_sites.specs.schema_types.ArgumentRules.{variable_named};
ghost use Rattle.doc_sites.specs.schema_types.Sites as spec;
ghost use Rattle.doc_sites.specs.SitesView.{operation_of, variable_of};
ghost use Rattle.doc_uses.specs.Named.{NamesVariables};

use doc_sites::{NoMemory, OperationAt, VariableAt};
use std::alloc::Global;
use std::collections::BTreeMap;

/// The variables of an operation by their names.
#[derive(Drop)]
pub(crate) struct Variables<'d, 'a> {
    by_name: BTreeMap<&'a str, &'d VariableAt<'a>>,
}

impl<'d, 'a> Variables<'d, 'a> {
    /// The variables of an operation.
    pub(crate) fn of(
        alloc: Global,
        operation: &'d OperationAt<'a>,
    ) -> Result<Variables<'d, 'a>, NoMemory>
        ensures { IfOk result (λ table. NamesVariables table (operation_of operation.now).variables) }
    {
        let mut by_name = BTreeMap::new(alloc);
        let mut left = operation.variables.len();
        'variables: while left > 0 {
            left -= 1;
            let variable = &operation.variables[left];
            drop(by_name.insert(variable.name.name, variable)?);
        }
        Ok(Variables { by_name })
    }

    /// The variable of a name; takes no memory.
    pub(crate) fn find(&self, name: &str) -> Option<&'d VariableAt<'a>>
        ensures { (vs : List spec.VariableAt) → NamesVariables self.now vs → option_map (λ v. variable_of v.now) result ≡ variable_named vs name.now }
    {
        self.by_name.get(name).copied()
    }
}
