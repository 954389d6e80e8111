//! The policy by votes: each site has some, and a quorum of either kind has enough of them.
#![tactic(auto)]

pub mod ballot;
pub mod fixing;
pub mod judging;

pub use ballot::Votes;
