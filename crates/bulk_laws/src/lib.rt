//! Laws about the large script: its project is accepted, and none of its lines is refused.
#![tactic(auto)]

pub mod laws;
