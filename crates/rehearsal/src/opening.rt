// The net that the line of a roster opens.
ghost use Rattle.rehearsal.specs.Opened.{IsOpened};

use crate::fault::Fault;
use net::net::Net;
use schedule::{Line, Roster};
use sites::Site;
use tokens::Place;

// A net that was just opened, and its first coordinator, which a net tells nobody.
#[derive(Drop)]
pub(crate) struct NewNet {
    pub(crate) net: Net,
    pub(crate) first: Site,
    ghost opened: { IsOpened net first },
}

impl NewNet {
    ghost use Rattle.rehearsal.specs.Steps.{Opens};

    pub(crate) fn open(line: Result<Line, Place>) -> Result<NewNet, Fault>
        ensures { Opens line result }
    {
        let Line::Roster(Roster { sites, first }) = line? else {
            return Err(Fault::MISPLACED);
        };
        let net = Net::new(sites, first)?;
        Ok(NewNet { net, first })
    }
}
