// What a policy by votes judges of a set of sites.
ghost use Rattle.std.specs.Prelude.{◌≡◌};
ghost use Rattle.votes.specs.Ballots.{weight_from, enough_votes, quorums_of};
ghost use Rattle.votes.specs.Weights.{ballot_crosses, enough_known};

use crate::ballot::Votes;
use quorum::Policy;
use sites::SiteSet;
use sites::set::{has, known};

impl Votes {
    // The votes of the sites of the group.
    #[tactic(auto, using(crate::specs::Weights::weight_more, crate::specs::Weights::weight_next))]
    fn weight(&self, group: SiteSet) -> u32
        ensures { result ≡ weight_from 0 group self.now.ballot.votes }
    {
        let mut all = 0;
        // This project asks for this form: a loop over the votes with the site of each.
        for (i, v) in self.ballot.votes.iter().enumerate() {
            if has(group, i as u32) {
                all += *v;
            }
        }
        all
    }

    // Has the group no unknown site, and the votes that it needs? Both kinds of quorum ask this, each with its number of votes.
    fn enough(&self, needed: u32, group: SiteSet) -> bool
        ensures { result ≡ enough_votes self.now.ballot needed group }
    {
        known(self.sites(), group) && needed <= self.weight(group)
    }
}

impl Policy for Votes {
    ghost quorums = { λ p. quorums_of p.ballot };

    ghost crossing = { λ p. ballot_crosses p.ballot p.few p.crossing };

    ghost commits_known = { λ p. enough_known p.ballot p.ballot.commit };

    ghost aborts_known = { λ p. enough_known p.ballot p.ballot.abort };

    fn sites(&self) -> u32 {
        self.ballot.votes.len() as u32
    }

    // The interface has a function for each kind; what they share is one function above.
    fn is_commit_quorum(&self, group: SiteSet) -> bool {
        self.enough(self.ballot.commit, group)
    }

    fn is_abort_quorum(&self, group: SiteSet) -> bool {
        self.enough(self.ballot.abort, group)
    }
}
