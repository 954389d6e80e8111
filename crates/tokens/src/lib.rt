//! The lines of a text and the tokens of each: its fields, each with its place, and the end.
#![tactic(auto)]

mod fields;
mod part;
mod reader;
mod token;

pub use fields::Fields;
pub use reader::Reader;
pub use token::{Place, Token};
