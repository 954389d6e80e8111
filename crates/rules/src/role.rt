use crate::state::Outcome;
use sites::SiteSet;

// The first coordinator counts votes. This project names the parts of a role, flags among them; each is a fact by itself.
#[derive(Clone, Copy)]
pub struct Poll {
    // The sites whose Yes was counted.
    pub yes: SiteSet,
    // Was a No counted?
    pub no: bool,
}

// An elected coordinator collects reports.
#[derive(Clone, Copy)]
pub struct Canvass {
    pub group: SiteSet,
    // The sites that have reported. The rest is about these.
    pub reported: SiteSet,
    // Is one of them aborted?
    pub aborted: bool,
    // Is one of them committed?
    pub committed: bool,
    // The greatest last attempt among them.
    pub greatest: u32,
    // Are all that report the greatest last attempt pre-committed?
    pub committable: bool,
}

// A coordinator collects acknowledgements of its attempt.
#[derive(Clone, Copy)]
pub struct Attempt {
    pub outcome: Outcome,
    pub group: SiteSet,
    // The sites that acknowledged.
    pub acked: SiteSet,
}

// What a coordinator is doing, in plain numbers.
#[derive(Clone, Copy)]
pub enum Role {
    Polling(Poll),
    Canvassing(Canvass),
    Attempting(Attempt),
}

// What the rule of a coordinator's next step gives.
#[derive(Clone, Copy)]
pub enum Ruling {
    // Try to bring a quorum to the outcome: pre-commit or pre-abort.
    Attempt(Outcome),
    // The outcome is decided: commit or abort.
    Decide(Outcome),
}
