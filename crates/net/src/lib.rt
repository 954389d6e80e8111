//! The calls: each finds what its site is to do, checks for room, and does it.
#![tactic(auto)]

pub mod net;
