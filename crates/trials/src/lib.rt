//! Schedules with what they print, worked out by hand from the rules.
#![tactic(auto)]

#[cfg(test)]
mod approvals;
#[cfg(test)]
mod calls;
#[cfg(test)]
mod expect;
#[cfg(test)]
mod sizes;
#[cfg(test)]
mod text;
