//! What one site does at each step: nothing here knows of a net, a vault or a list.
#![tactic(auto)]

pub mod coordinator;
pub mod member;
