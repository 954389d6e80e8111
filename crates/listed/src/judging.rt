// What a policy of listed sets judges of a set of sites.
ghost use Rattle.std.specs.Prelude.{◌≡◌};
ghost use Rattle.std.specs.List.{list_any};
ghost use Rattle.sites.specs.Sets.{includes};
ghost use Rattle.listed.specs.Listings.{listed_quorum, quorums_of};
ghost use Rattle.listed.specs.Crosses.{listing_crosses, listed_known};

use crate::listing::Listed;
use quorum::Policy;
use sites::SiteSet;
use sites::set::{includes, known};

// Includes the group one of the sets?
fn includes_one(group: SiteSet, sets: &[SiteSet]) -> bool
    ensures { result ≡ list_any (includes group) sets.now }
{
    sets.iter().any(|listed| includes(group, *listed))
}

impl Listed {
    // Has the group no unknown site, and includes it one of the sets? Both kinds of quorum ask this, each with its sets.
    fn is_quorum(&self, sets: &[SiteSet], group: SiteSet) -> bool
        ensures { result ≡ listed_quorum self.now.listing.sites sets.now group }
    {
        known(self.sites(), group) && includes_one(group, sets)
    }
}

impl Policy for Listed {
    ghost quorums = { λ p. quorums_of p.listing };

    ghost crossing = { λ p. listing_crosses p.listing p.crossing };

    ghost commits_known = { λ p. listed_known p.listing.sites p.listing.commit };

    ghost aborts_known = { λ p. listed_known p.listing.sites p.listing.abort };

    fn sites(&self) -> u32 {
        self.listing.sites
    }

    // The interface has a function for each kind; what they share is one function above.
    fn is_commit_quorum(&self, group: SiteSet) -> bool {
        self.is_quorum(&self.listing.commit, group)
    }

    fn is_abort_quorum(&self, group: SiteSet) -> bool {
        self.is_quorum(&self.listing.abort, group)
    }
}
