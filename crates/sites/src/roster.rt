ghost use Rattle.std.specs.Prelude.{◌≡◌};
ghost use Rattle.sites.specs.Sets.{seated};

use crate::Site;
use crate::set::MOST_SITES;

// The fewest sites that a net can have.
pub const FEWEST_SITES: u32 = 2;

// Are there 2 to 16 sites, and is the first coordinator one of them? Here and above the two are handed over as the numbers that
// were given: a struct of them would be made only to be taken apart.
pub fn is_seated(sites: u32, first: Site) -> bool
    ensures { result ≡ seated sites first }
{
    (FEWEST_SITES..=MOST_SITES).contains(&sites) && first < sites
}
