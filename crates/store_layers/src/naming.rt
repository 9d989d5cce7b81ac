//! The ids that the entries of the layers name.
ghost use Rattle.std.specs.Prelude.{◌≡◌, IfOk};
ghost use Rattle.store_update.specs.gql_plain.Order.{has_text};
ghost use Rattle.store_update.specs.store_record.Keys.{Text};
ghost use Rattle.store_update.specs.store_model.Entries.{all_named};
ghost use Rattle.store_layers.specs.Layered.{entries_of};
ghost use Rattle.store_layers.specs.Versions.{layers_of};

use crate::fold::Entries;
use std::alloc::Global;
use store_sweeps::put_named;
use store_update::gql_plain::{Ids, NoMemory};

/// The ids that the entries name, in byte order.
pub(crate) fn ids_named(alloc: Global, entries: &Entries) -> Result<Ids, NoMemory>
    ensures { (j : Text) → IfOk result (λ ids. has_text ids j ≡ has_text (all_named (entries_of (layers_of entries.now.entries))) j) }
{
    let mut named = Vec::new(alloc);
    let end = entries.len();
    'layers: for at in 0..end {
        put_named(&entries[at], &mut named)?;
    }
    Ids::sort(named)
}
