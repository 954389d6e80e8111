ghost use Rattle.std.specs.Prelude.{◌≡◌};
ghost use Rattle.rules.specs.Entries.{voted_state};

use crate::state::State;

// A site's vote on the approval.
#[derive(Clone, Copy)]
pub enum Vote {
    Yes,
    No,
}

impl Vote {
    // The state of a site that has voted so. No From: a state is no other form of a vote.
    pub fn state(self) -> State
        ensures { result ≡ voted_state self }
    {
        match self {
            Vote::Yes => State::Waiting,
            Vote::No => State::Aborted,
        }
    }
}

// A call of the net, with its numbers as they were given.
#[derive(Clone, Copy)]
pub enum Call {
    // The first coordinator starts the approval with its own vote.
    Begin(Vote),
    // The receiver of the start at a place of the list votes.
    Vote(u32, Vote),
    // The message at a place of the list is delivered.
    Deliver(u32),
    // A coordinator takes its next step.
    Advance(u32),
}
