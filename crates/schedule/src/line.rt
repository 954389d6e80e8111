use rules::call::Call;
use sites::set::SITE_PLACES;
use tokens::Place;

// The number of sites, and the first coordinator.
#[derive(Clone, Copy)]
pub struct Roster {
    pub sites: u32,
    pub first: u32,
}

// A policy's two numbers and the votes of each of the sites, followed by zeros, as they were read. Places and no vector of fixed
// capacity, which could not be copied; no ballot of a policy: reading stands on none.
#[derive(Clone, Copy)]
pub struct Ballots {
    pub commit: u32,
    pub abort: u32,
    pub sites: u32,
    pub votes: [u32; SITE_PLACES],
}

// Which lines may stand at a place of a schedule: the roster first, then the policy for its sites, then calls.
#[derive(Clone, Copy)]
pub enum Section {
    Roster,
    Policy { sites: u32 },
    Calls,
}

// What a line says.
#[derive(Clone, Copy)]
pub enum Line {
    Roster(Roster),
    Votes(Ballots),
    Call(Call),
}

// A line with its number from 1, or in its stead the place of its first field that is bad, missing or surplus.
#[derive(Clone, Copy)]
pub struct Reading {
    pub number: usize,
    pub line: Result<Line, Place>,
}
