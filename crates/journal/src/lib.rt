//! A vault that is only appended to: every record takes the next slot of the caller's memory.
#![tactic(auto)]

pub mod journal;
pub mod laws;
pub mod slot;
