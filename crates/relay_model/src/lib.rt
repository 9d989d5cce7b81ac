//! What documents mean, by the collection that plan_collect defines: what a response says to an operation,
//! what reads show, and what an operation reaches (masks are after Relay). It has no call that the
//! program makes; its definitions stand in `specs/`.
#![tactic(auto)]
