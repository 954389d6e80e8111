// The records that a site goes through.
ghost use Rattle.std.specs.Prelude.{◌≡◌, if◌then◌else◌, Some, None, nat_lt};
ghost use Rattle.rules.specs.Entries.{plain, plain_option, starting, in_state, attempted_in, join, decided};

use crate::record::Record;
use crate::state::State;
use sites::Site;
use sites::set::MOST_SITES;

// The greatest number of an election.
pub const MOST_NUMBER: u32 = 999_999;

impl State {
    pub fn is_decided(self) -> bool
        ensures { result ≡ decided self }
    {
        matches!(self, State::Committed | State::Aborted)
    }
}

// A struct with ghost fields is written out field by field: `..` is not covered there.
impl Record {
    // The record that every site starts with, if the first coordinator is a site that there can be.
    pub fn starting(first: Site) -> Option<Record>
        ensures { plain_option result ≡ (if nat_lt first 16 then Some (starting first) else None) }
    {
        if first < MOST_SITES {
            Some(Record {
                state: State::Initial,
                elected: 1,
                attempt: 0,
                lead: first,
            })
        } else {
            None
        }
    }

    // The starting record under site 0: what memory for records is filled with before it is used.
    pub fn blank() -> Record
        ensures { plain result ≡ starting 0 }
    {
        Record {
            state: State::Initial,
            elected: 1,
            attempt: 0,
            lead: 0,
        }
    }

    // The record in another state.
    pub fn in_state(self, state: State) -> Record
        ensures { plain result ≡ in_state (plain self) state }
    {
        Record {
            state,
            elected: self.elected,
            attempt: self.attempt,
            lead: self.lead,
        }
    }

    // The record in the state of an attempt, or a decision, at the last elected number.
    pub fn attempted_in(self, state: State) -> Record
        ensures { plain result ≡ attempted_in (plain self) state }
    {
        Record {
            state,
            elected: self.elected,
            attempt: self.elected,
            lead: self.lead,
        }
    }

    // The record under a greater number and its coordinator.
    pub fn joined(self, number: u32, lead: Site) -> Option<Record>
        ensures { plain_option result ≡ join (plain self) number lead }
    {
        if self.elected < number && number <= MOST_NUMBER && lead < MOST_SITES {
            Some(Record {
                state: self.state,
                elected: number,
                attempt: self.attempt,
                lead,
            })
        } else {
            None
        }
    }
}
