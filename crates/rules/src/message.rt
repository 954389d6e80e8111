ghost use Rattle.std.specs.Prelude.{◌≡◌};
ghost use Rattle.rules.specs.Plans.{pre_kind, final_kind, vote_kind};

use crate::call::Vote;
use crate::state::{Outcome, State};
use sites::Site;

// What a message says; a report says what its sender's record held.
#[derive(Clone, Copy)]
pub enum Kind {
    Start,
    Yes,
    No,
    Elected,
    Report { state: State, attempt: u32 },
    PreCommit,
    PreAbort,
    Ack,
    Commit,
    Abort,
}

impl Kind {
    // What goes back with a vote. No From: a vote has a kind and a state, and is neither in another form.
    pub fn of_vote(vote: Vote) -> Kind
        ensures { result ≡ vote_kind vote }
    {
        match vote {
            Vote::Yes => Kind::Yes,
            Vote::No => Kind::No,
        }
    }

    // What goes out with an attempt.
    pub fn of_attempt(outcome: Outcome) -> Kind
        ensures { result ≡ pre_kind outcome }
    {
        match outcome {
            Outcome::Commit => Kind::PreCommit,
            Outcome::Abort => Kind::PreAbort,
        }
    }

    // What goes out with a decision.
    pub fn of_decision(outcome: Outcome) -> Kind
        ensures { result ≡ final_kind outcome }
    {
        match outcome {
            Outcome::Commit => Kind::Commit,
            Outcome::Abort => Kind::Abort,
        }
    }
}

// A message, with the last elected number of its sender.
#[derive(Clone, Copy)]
pub struct Message {
    pub kind: Kind,
    pub number: u32,
    pub sender: Site,
    pub receiver: Site,
}
