//! How the lists of the trees grow.
ghost use Rattle.std.specs.Prelude.{◌≡◌, [], ◌∷◌, ◌++◌, OnOk, OnErr};

use gql_plain::NoMemory;

/// Puts an item at the end of a list. The first item takes room for itself alone, since most lists
/// of a text have one member; then room grows as it does in every list.
pub(crate) fn push<T: Drop>(items: &mut Vec<T>, item: T) -> Result<(), NoMemory>
    ensures ok { OnOk result (items.new.items ≡ items.old.items ++ item ∷ []) }
    ensures err { OnErr result (items.new.items ≡ items.old.items) }
{
    if items.is_empty() {
        items.reserve_exact(1)?;
    }
    items.push(item)?;
    Ok(())
}
