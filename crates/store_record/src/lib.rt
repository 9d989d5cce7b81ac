//! Records: their fields, the keys under which fields are stored, and the ids that are generated.
#![tactic(auto)]

mod equal;
pub mod field;
pub mod keys;
pub mod record;

pub use field::{Field, FieldEntry, Fields, SharedField};
pub use gql_plain;
pub use keys::{client_id, field_key, field_keys_differ, handle_key, handle_keys_differ};
pub use record::{Record, Shared, Slot};
