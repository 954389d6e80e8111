// What the receiver of a message does. The clauses `site` spare callers to look into the rules for whose step it is.
ghost use Rattle.std.specs.Prelude.{◌≡◌, if◌then◌else◌, Ok, Err, IfOk};
ghost use Rattle.sites.specs.declared.refusal.Refusal.TheVariants.{Stale};
ghost use Rattle.rules.specs.Counting.{matches, counts};
ghost use Rattle.rules.specs.Entries.{plain, join};
ghost use Rattle.rules.specs.Plans.{planned, voted, received, attempted, concluded, elected_to, tallied, role_after};
ghost use Rattle.rules.specs.World.{count_answer};

use rules::call::Vote;
use rules::counting::count;
use rules::message::{Kind, Message};
use rules::record::Record;
use rules::role::Role;
use rules::rows::Row;
use rules::state::{Outcome, State};
use rules::step::Step;
use sites::Refusal;
use sites::set::{EMPTY, only};

// Is the receiver at the number of the message, under the coordinator that it is about? Else the message is stale.
fn matched(own: Record, message: Message) -> Result<(), Refusal>
    ensures { result ≡ (if matches (plain own) message then Ok tt else Err Stale) }
{
    let coordinator = if counts(message.kind) {
        message.receiver
    } else {
        message.sender
    };
    if own.elected == message.number && own.lead == coordinator {
        Ok(())
    } else {
        Err(Refusal::Stale)
    }
}

// A message, with the record and the role of its receiver.
#[derive(Clone, Copy)]
pub struct Receipt {
    pub message: Message,
    pub own: Record,
    pub role: Option<Role>,
}

impl Receipt {
    // The receiver of a start votes.
    pub fn vote(&self, vote: Vote) -> Result<Step, Refusal>
        ensures step { planned result ≡ voted vote self.now.message (plain self.now.own) self.now.role }
        ensures site { IfOk result (λ t. t.site ≡ self.now.message.receiver) }
    {
        matched(self.own, self.message)?;
        if self.own.state != State::Initial {
            return Err(Refusal::Unfit);
        }
        Ok(Step {
            site: self.message.receiver,
            own: self.own.in_state(vote.state()),
            role: self.role,
            kind: Kind::of_vote(vote),
            to: only(self.message.sender),
        })
    }

    // The receiver goes under a greater number, drops its role and reports.
    fn join(&self) -> Result<Step, Refusal>
        ensures step { planned result ≡ elected_to self.now.message (plain self.now.own) (join (plain self.now.own) self.now.message.number self.now.message.sender) }
        ensures site { IfOk result (λ t. t.site ≡ self.now.message.receiver) }
    {
        let joined = self
            .own
            .joined(self.message.number, self.message.sender)
            .ok_or(Refusal::Stale)?;
        Ok(Step {
            site: self.message.receiver,
            own: joined,
            role: None,
            kind: Kind::Report {
                state: self.own.state,
                attempt: self.own.attempt,
            },
            to: only(self.message.sender),
        })
    }

    // An attempt reaches the receiver, which acknowledges it.
    fn acknowledge(&self, outcome: Outcome) -> Result<Step, Refusal>
        ensures step { planned result ≡ attempted outcome self.now.message (plain self.now.own) self.now.role }
        ensures site { IfOk result (λ t. t.site ≡ self.now.message.receiver) }
    {
        matched(self.own, self.message)?;
        if self.own.state.is_decided() || self.own.attempt >= self.message.number {
            return Err(Refusal::Unfit);
        }
        Ok(Step {
            site: self.message.receiver,
            own: self.own.attempted_in(outcome.pre_state()),
            role: self.role,
            kind: Kind::Ack,
            to: only(self.message.sender),
        })
    }

    // A decision reaches the receiver, which sends nothing.
    fn conclude(&self, outcome: Outcome) -> Result<Step, Refusal>
        ensures step { planned result ≡ concluded outcome self.now.message (plain self.now.own) self.now.role }
        ensures site { IfOk result (λ t. t.site ≡ self.now.message.receiver) }
    {
        matched(self.own, self.message)?;
        if self.own.state.is_decided() {
            return Err(Refusal::Unfit);
        }
        Ok(Step {
            site: self.message.receiver,
            own: self.own.in_state(outcome.final_state()),
            role: self.role,
            kind: Kind::of_decision(outcome),
            to: EMPTY,
        })
    }

    // The receiver of a message that is not counted takes its step, by the kind: an arm for each, since closures would hide which
    // does what.
    pub fn receive(&self) -> Result<Step, Refusal>
        ensures step { planned result ≡ received self.now.message.kind self.now.message (plain self.now.own) self.now.role }
        ensures site { IfOk result (λ t. t.site ≡ self.now.message.receiver) }
    {
        match self.message.kind {
            Kind::Elected => self.join(),
            Kind::PreCommit => self.acknowledge(Outcome::Commit),
            Kind::PreAbort => self.acknowledge(Outcome::Abort),
            Kind::Commit => self.conclude(Outcome::Commit),
            Kind::Abort => self.conclude(Outcome::Abort),
            Kind::Start | Kind::Yes | Kind::No | Kind::Report { .. } | Kind::Ack => {
                Err(Refusal::WrongKind)
            }
        }
    }
}

// Is it a kind of message that a coordinator counts?
pub fn counts(kind: Kind) -> bool
    ensures { result ≡ counts kind }
{
    matches!(kind, Kind::Yes | Kind::No | Kind::Report { .. } | Kind::Ack)
}

// The receiver of a message that is counted counts it, in place. The whole row is lent, so that it stays up is said too.
pub fn tally(row: &mut Row, message: Message, own: Record) -> Result<(), Refusal>
    ensures up { row.new.up ≡ row.old.up }
    ensures role { row.new.role ≡ role_after (tallied message (plain own) row.old.role) row.old.role }
    ensures answer { result ≡ count_answer (tallied message (plain own) row.old.role) }
{
    matched(own, message)?;
    count(row, message.kind, message.sender)
}
