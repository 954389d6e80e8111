// What a coordinator does by itself. The clauses `site` spare callers to look into the rules for whose step it is.
ghost use Rattle.std.specs.Prelude.{◌≡◌, IfOk};
ghost use Rattle.rules.specs.Entries.{plain};
ghost use Rattle.rules.specs.Plans.{plain_step, planned, begun, poll_ruling, canvass_ruling, quorum_for, ruling_of, group_of, ruled_plan, advanced};

use quorum::Policy;
use rules::call::Vote;
use rules::message::Kind;
use rules::record::Record;
use rules::role::{Attempt, Canvass, Poll, Role, Ruling};
use rules::state::{Outcome, State};
use rules::step::Step;
use sites::set::{only, without_site};
use sites::{Refusal, Site, SiteSet};

// A site that coordinates, one of the sites `all`, with its record and its role.
#[derive(Clone, Copy)]
pub struct Coordinator {
    pub site: Site,
    pub all: SiteSet,
    pub own: Record,
    pub role: Option<Role>,
}

// What the votes allow.
fn poll_ruling(poll: &Poll, all: SiteSet) -> Option<Ruling>
    ensures { result ≡ poll_ruling all poll.now }
{
    if poll.no {
        Some(Ruling::Decide(Outcome::Abort))
    } else if poll.yes == all {
        Some(Ruling::Attempt(Outcome::Commit))
    } else {
        None
    }
}

// What the reports allow: the first row that holds. This project asks for one match with guards.
fn canvass_ruling(canvass: &Canvass, commit_quorum: bool, abort_quorum: bool) -> Option<Ruling>
    ensures { result ≡ canvass_ruling commit_quorum abort_quorum canvass.now }
{
    match canvass {
        Canvass { aborted: true, .. } => Some(Ruling::Decide(Outcome::Abort)),
        Canvass {
            committed: true,
            ..
        } => Some(Ruling::Decide(Outcome::Commit)),
        Canvass {
            committable: true,
            ..
        } if commit_quorum => Some(Ruling::Attempt(Outcome::Commit)),
        Canvass {
            committable: false,
            ..
        } if abort_quorum => Some(Ruling::Attempt(Outcome::Abort)),
        _ => None,
    }
}

// Is the set a quorum for the outcome?
fn is_quorum<P: Policy>(policy: &P, outcome: Outcome, group: SiteSet) -> bool
    ensures { result ≡ quorum_for (P.quorums policy.now).commits (P.quorums policy.now).aborts outcome group }
{
    match outcome {
        Outcome::Commit => policy.is_commit_quorum(group),
        Outcome::Abort => policy.is_abort_quorum(group),
    }
}

// What the role of a coordinator allows.
fn ruling<P: Policy>(policy: &P, all: SiteSet, role: &Role) -> Option<Ruling>
    ensures { result ≡ ruling_of (P.quorums policy.now) all role.now }
{
    match role {
        Role::Polling(poll) => poll_ruling(poll, all),
        Role::Canvassing(canvass) => {
            let commit_quorum = policy.is_commit_quorum(canvass.reported);
            let abort_quorum = policy.is_abort_quorum(canvass.reported);
            canvass_ruling(canvass, commit_quorum, abort_quorum)
        }
        Role::Attempting(attempt) => {
            if is_quorum(policy, attempt.outcome, attempt.acked) {
                Some(Ruling::Decide(attempt.outcome))
            } else {
                None
            }
        }
    }
}

// The sites that a coordinator speaks to.
fn group_of(all: SiteSet, role: &Role) -> SiteSet
    ensures { result ≡ group_of all role.now }
{
    match role {
        Role::Polling(_) => all,
        Role::Canvassing(canvass) => canvass.group,
        Role::Attempting(attempt) => attempt.group,
    }
}

impl Coordinator {
    // The first coordinator starts the approval with its own vote.
    pub fn begin(&self, vote: Vote) -> Result<Step, Refusal>
        ensures step { planned result ≡ begun vote self.now.site self.now.all (plain self.now.own) self.now.role }
        ensures site { IfOk result (λ t. t.site ≡ self.now.site) }
    {
        if self.own.elected > 1 {
            return Err(Refusal::Stale);
        }
        if self.own.state != State::Initial {
            return Err(Refusal::Unfit);
        }
        let to = without_site(self.all, self.site);
        Ok(match vote {
            Vote::Yes => Step {
                site: self.site,
                own: self.own.in_state(State::Waiting),
                role: Some(Role::Polling(Poll {
                    yes: only(self.site),
                    no: false,
                })),
                kind: Kind::Start,
                to,
            },
            Vote::No => Step {
                site: self.site,
                own: self.own.attempted_in(State::Aborted),
                role: self.role,
                kind: Kind::Abort,
                to,
            },
        })
    }

    // It carries out a ruling in its group.
    fn carry_out(&self, ruling: Ruling, group: SiteSet) -> Step
        ensures step { plain_step result ≡ ruled_plan self.now.site group (plain self.now.own) ruling }
        ensures site { result.site ≡ self.now.site }
    {
        let to = without_site(group, self.site);
        match ruling {
            Ruling::Attempt(outcome) => Step {
                site: self.site,
                own: self.own.attempted_in(outcome.pre_state()),
                role: Some(Role::Attempting(Attempt {
                    outcome,
                    group,
                    acked: only(self.site),
                })),
                kind: Kind::of_attempt(outcome),
                to,
            },
            Ruling::Decide(outcome) => Step {
                site: self.site,
                own: self.own.attempted_in(outcome.final_state()),
                role: None,
                kind: Kind::of_decision(outcome),
                to,
            },
        }
    }

    // Its next step, by its role.
    pub fn advance<P: Policy>(&self, policy: &P) -> Result<Step, Refusal>
        ensures step { planned result ≡ advanced (P.quorums policy.now) self.now.all self.now.site (plain self.now.own) self.now.role }
        ensures site { IfOk result (λ t. t.site ≡ self.now.site) }
    {
        let role = self.role.ok_or(Refusal::Unfit)?;
        let ruling = ruling(policy, self.all, &role).ok_or(Refusal::Undecided)?;
        Ok(self.carry_out(ruling, group_of(self.all, &role)))
    }
}
