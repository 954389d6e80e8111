//! The policy of listed sets: a quorum of either kind includes a listed set of that kind.
#![tactic(auto)]

pub mod fixing;
pub mod judging;
pub mod listing;

pub use listing::Listed;
