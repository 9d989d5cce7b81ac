//! Changes of the layers that are built aside.

use store_update::Changed;
use store_update::gql_plain::{Ids, Words};
use store_update::store_model::Entry;
use store_update::store_source::RecordSource;

/// What a call of the layers changes, built aside: nothing is in place before `Layers::settle`. It is
/// of the layers that it was drafted from, and may be dropped instead.
#[derive(Drop)]
pub struct Draft<S: RecordSource> {
    /// The view, once the change is settled.
    pub view: S,
    /// Ids, in byte order: each whose slot in the view differs then is among them.
    pub touched: Ids,
    pub(crate) placing: Placing<S>,
}

/// What is put in place.
#[derive(Drop)]
pub enum Placing<S: RecordSource> {
    /// Nothing: all stays as it is.
    Kept,
    /// A layer above all others, and the version after it.
    Begun {
        name: Words,
        entry: Entry,
        version: Changed<S>,
    },
    /// The layer at a place goes. These are the versions after those above it.
    Reverted {
        at: usize,
        versions: Vec<Changed<S>>,
    },
    /// A base, the place of the layer that goes, and the versions after all that stay.
    Confirmed {
        base: S,
        gone: Option<usize>,
        versions: Vec<Changed<S>>,
    },
}
