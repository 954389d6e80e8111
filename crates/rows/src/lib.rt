//! A vault that overwrites: one row of the caller's memory for each site.
#![tactic(auto)]

pub mod rows;
