//! Sites, sets of sites, and the refusals that every layer answers by.
#![tactic(auto)]

pub mod laws;
pub mod refusal;
pub mod roster;
pub mod set;

pub use refusal::Refusal;

// A site, numbered from 0.
pub type Site = u32;

// A set of sites, written as a number: site s counts 2^s. A struct with a model would take from every role, row and step that
// holds a set that it can be passed by value twice.
pub type SiteSet = u32;
