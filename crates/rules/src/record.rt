ghost use Rattle.std.specs.Prelude.{ℕ, ◌<◌, ◌≤◌};

use crate::state::State;
use sites::Site;

// What a site keeps over an outage: lawful by its type, so every vault takes every record, and what is lawful of a record is
// known in every list. A model would hide that, and take from what holds a record that it can be passed by value twice.
#[derive(Clone, Copy)]
pub struct Record {
    pub state: State,
    // The last elected number.
    pub elected: u32,
    // The number of the last attempt, 0 where there was none: attempts count from 0 by the rules, so it is no Option.
    pub attempt: u32,
    // The coordinator of the last elected number.
    pub lead: Site,
    ghost counted: { 0 < elected },
    ghost bounded: { elected < 1000000 },
    ghost tried: { attempt ≤ elected },
    ghost led: { lead < 16 },
}
