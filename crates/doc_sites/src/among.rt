//! The operations and the fragments among definitions, and what stands in each (GraphQL, October
//! 2021, section 2.2).
ghost use Rattle.std.specs.Prelude.{◌≡◌, map, IfOk};
ghost use Rattle.schema_types.specs.NameRules as rules;
ghost use Rattle.doc_sites.specs.SitesView.{definition_of, fragments_of, operations_of, site_of};

use crate::site::{DefinitionAt, FragmentAt, OperationAt, Site};
use schema_types::NoMemory;
use std::alloc::Global;

impl<'a> DefinitionAt<'a> {
    /// Its selections and those inside them, in text order.
    pub fn sites(&self) -> &[Site<'a>]
        ensures { map site_of result.now ≡ rules.sites_of (definition_of self.now) }
    {
        match self {
            DefinitionAt::Operation(operation) => &operation.sites,
            DefinitionAt::Fragment(fragment) => &fragment.sites,
        }
    }
}

/// The operations, in order.
pub fn operations<'d, 'a>(
    alloc: Global,
    definitions: &'d [DefinitionAt<'a>],
) -> Result<Vec<&'d OperationAt<'a>>, NoMemory>
    ensures { IfOk result (λ os. operations_of os.items ≡ rules.operations (map definition_of definitions.now)) }
{
    let mut operations = Vec::new(alloc);
    'definitions: for definition in definitions {
        match definition {
            DefinitionAt::Operation(operation) => operations.push(operation)?,
            DefinitionAt::Fragment(_) => {}
        }
    }
    Ok(operations)
}

/// The fragments, in order.
pub fn fragments<'d, 'a>(
    alloc: Global,
    definitions: &'d [DefinitionAt<'a>],
) -> Result<Vec<&'d FragmentAt<'a>>, NoMemory>
    ensures { IfOk result (λ fs. fragments_of fs.items ≡ rules.fragments (map definition_of definitions.now)) }
{
    let mut fragments = Vec::new(alloc);
    'definitions: for definition in definitions {
        match definition {
            DefinitionAt::Operation(_) => {}
            DefinitionAt::Fragment(fragment) => fragments.push(fragment)?,
        }
    }
    Ok(fragments)
}
