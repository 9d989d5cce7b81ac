//! Why a response gives no facts.
use gql_order::gql_plain::NoMemory;
use store_model::PayloadFault;

/// Why a response gives no facts.
#[derive(Drop)]
pub enum NormFault {
    /// What is wrong in the response first.
    Payload(PayloadFault),
    /// Out of memory.
    NoMemory,
}

impl From<NoMemory> for NormFault {
    fn from(_refused: NoMemory) -> NormFault {
        NormFault::NoMemory
    }
}
