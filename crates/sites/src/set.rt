// Sets of sites as numbers. Nothing outside of this file does arithmetic on sets.
ghost use Rattle.std.specs.Prelude.{◌≡◌};
ghost use Rattle.sites.specs.Sets.{has, only, with_site, without_site, everyone, known, size, includes, meets};

use crate::{Site, SiteSet};

// The most sites that a net can have.
pub const MOST_SITES: u32 = 16;

// As many places as there can be sites: what is kept for each site of any net has so many.
pub const SITE_PLACES: usize = MOST_SITES as usize;

// The set of no site.
pub const EMPTY: SiteSet = 0;

// Is the site in the set?
pub fn has(sites: SiteSet, site: Site) -> bool
    ensures { result ≡ has sites site }
{
    site < 32 && (sites >> site) % 2 == 1
}

// The set of one site; none from site 16 on.
pub fn only(site: Site) -> SiteSet
    ensures { result ≡ only site }
{
    if site < MOST_SITES { 1 << site } else { 0 }
}

// The set and one site more.
pub fn with_site(sites: SiteSet, site: Site) -> SiteSet
    ensures { result ≡ with_site sites site }
{
    sites | only(site)
}

// The set and one site less.
pub fn without_site(sites: SiteSet, site: Site) -> SiteSet
    ensures { result ≡ without_site sites site }
{
    if !has(sites, site) {
        return sites;
    }
    sites - (1 << site)
}

// All of the first `count` sites, of which 16 count at most.
pub fn everyone(count: u32) -> SiteSet
    ensures { result ≡ everyone count }
{
    if count < MOST_SITES {
        (1 << count) - 1
    } else {
        65_535
    }
}

// Are all sites of the set among the first `count`?
pub fn known(count: u32, sites: SiteSet) -> bool
    ensures { result ≡ known count sites }
{
    count >= 32 || sites >> count == 0
}

// How many of the sixteen sites the set has.
pub fn size(sites: SiteSet) -> u32
    ensures { result ≡ size sites }
{
    (sites % 65_536).count_ones()
}

// Is every site of the part in the set?
pub fn includes(sites: SiteSet, part: SiteSet) -> bool
    ensures { result ≡ includes sites part }
{
    sites & part == part
}

// Do the two sets have one of the sixteen sites in common?
pub fn meets(one: SiteSet, other: SiteSet) -> bool
    ensures { result ≡ meets one other }
{
    (one & other) % 65_536 != 0
}
