//! What every other crate speaks of: texts, names and ids, plain trees, the lack of memory, and the
//! counters of work.
#![tactic(auto)]

mod equal;
pub mod from_value;
pub mod ids;
pub mod limits;
pub mod memory;
pub mod plain;
pub mod shared;
pub mod steps;
pub mod to_text;
pub mod to_value;
pub mod words;

pub use from_value::{PlainFault, plain_of};
pub use ids::{Conn, Ids, OptIds};
pub use limits::MAX_LINE;
pub use memory::NoMemory;
pub use plain::{Pairs, Plain, Plains};
pub use shared::SharedText;
pub use steps::{Counts, Steps};
pub use to_text::{text_of, write_plain};
pub use to_value::value_of;
pub use words::{Id, Name, Words, is_name};
