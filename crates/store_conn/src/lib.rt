//! Connections in a record map: pages that are merged into the connection that the client keeps, and
//! edges that are put into one or taken out of it (Cursor Connections; the merge is this project's
//! own).
#![tactic(auto)]

mod after;
mod before;
pub mod changes;
mod connection;
mod edges;
pub mod edit;
mod info;
mod look;
mod made;
mod nodes;
pub mod page;
mod replace;

pub use changes::{Change, put_all};
pub use edit::{changes_of_deletion, changes_of_insertion, delete_edge, insert_edge};
pub use page::{changes_of_page, merge_page};
pub use store_model;
pub use store_model::{EdgeEdit, gql_plain, store_record};
pub use store_source;
