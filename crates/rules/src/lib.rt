//! What the sites keep and send, and in specs/ the one account of what every call does.
#![tactic(auto)]

pub mod call;
pub mod counting;
pub mod message;
pub mod record;
pub mod records;
pub mod role;
pub mod rows;
pub mod state;
pub mod step;
