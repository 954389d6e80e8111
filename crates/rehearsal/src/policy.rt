// The policy that a line gives.
ghost use Rattle.rehearsal.specs.Steps.{Fixes};

use crate::fault::Fault;
use schedule::Line;
use sites::set::MOST_SITES;
use tokens::Place;
use votes::Votes;

pub(crate) fn policy_of(line: Result<Line, Place>) -> Result<Votes, Fault>
    ensures { Fixes line result }
{
    let Line::Votes(ballots) = line? else {
        return Err(Fault::MISPLACED);
    };
    let count = ballots.sites.min(MOST_SITES) as usize;
    Ok(Votes::fixed(ballots.commit, ballots.abort, &ballots.votes[..count])?)
}
