//! What `rehearse` prints for a schedule, as a function from bytes to text.
#![tactic(auto)]

mod approval;
mod fault;
mod memory;
mod opening;
mod policy;
mod schedules;
mod text;

pub use memory::OutOfMemory;
pub use schedules::{MOST_BYTES, rehearse};
