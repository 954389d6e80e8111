// What a coordinator counts: each role changes itself.
ghost use Rattle.std.specs.Prelude.{◌≡◌};
ghost use Rattle.rules.specs.Counting.{with_yes, with_no, with_report, with_ack, counted_by};
ghost use Rattle.rules.specs.Plans.{count_of, role_after};
ghost use Rattle.rules.specs.World.{count_answer};

use crate::message::Kind;
use crate::role::{Attempt, Canvass, Poll, Role};
use crate::rows::Row;
use crate::state::State;
use sites::set::{has, with_site};
use sites::{Refusal, Site};

impl Poll {
    // A Yes of a site.
    pub(crate) fn count_yes(&mut self, site: Site)
        ensures { self.new ≡ with_yes self.old site }
    {
        self.yes = with_site(self.yes, site);
    }

    pub(crate) fn count_no(&mut self)
        ensures { self.new ≡ with_no self.old }
    {
        self.no = true;
    }
}

impl Canvass {
    // The report of a site; its second one changes nothing.
    pub(crate) fn add_report(&mut self, site: Site, state: State, attempt: u32)
        ensures { self.new ≡ with_report self.old site state attempt }
    {
        if has(self.reported, site) {
            return;
        }
        self.reported = with_site(self.reported, site);
        self.aborted |= state == State::Aborted;
        self.committed |= state == State::Committed;
        if attempt > self.greatest {
            self.greatest = attempt;
            self.committable = state == State::PreCommitted;
        } else if attempt == self.greatest {
            self.committable &= state == State::PreCommitted;
        }
    }
}

impl Attempt {
    // The acknowledgement of a site.
    pub(crate) fn add_ack(&mut self, site: Site)
        ensures { self.new ≡ with_ack self.old site }
    {
        self.acked = with_site(self.acked, site);
    }
}

// Counts a message of a site in the role that it is for; any other role refuses it. This project asks for the role in place,
// matched together with the kind; the whole row is lent, so that it stays up is said too.
pub fn count(row: &mut Row, kind: Kind, sender: Site) -> Result<(), Refusal>
    ensures up { row.new.up ≡ row.old.up }
    ensures role { row.new.role ≡ role_after (count_of (counted_by row.old.role kind sender)) row.old.role }
    ensures answer { result ≡ count_answer (count_of (counted_by row.old.role kind sender)) }
{
    match (&mut row.role, kind) {
        (Some(Role::Polling(poll)), Kind::Yes) => poll.count_yes(sender),
        (Some(Role::Polling(poll)), Kind::No) => poll.count_no(),
        (Some(Role::Canvassing(canvass)), Kind::Report { state, attempt }) => {
            canvass.add_report(sender, state, attempt);
        }
        (Some(Role::Attempting(attempt)), Kind::Ack) => attempt.add_ack(sender),
        _ => return Err(Refusal::Unfit),
    }
    Ok(())
}
