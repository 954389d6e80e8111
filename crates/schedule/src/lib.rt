//! The lines of a schedule, read from its text.
#![tactic(auto)]

mod forms;
mod line;
mod read;
mod words;

pub use line::{Ballots, Line, Reading, Roster, Section};
pub use read::{read_fields, read_line};
