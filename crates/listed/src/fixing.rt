// How a policy of listed sets is made and fixed.
ghost use Rattle.std.specs.Prelude.{◌≡◌, ℕ, false, IfOk, MatchResult, Ok, Err};
ghost use Rattle.std.specs.List.{list_all};
ghost use Rattle.sites.specs.Sets.{meets};
ghost use Rattle.listed.specs.Crossing.{all_meet};
ghost use Rattle.listed.specs.Listings.{proper, unfixed, quorums_of};
ghost use Rattle.listed.specs.Fixing.{fix_answer, fix_listing, listing_of};

use crate::listing::{Listed, Listing, MOST_SETS};
use arrayvec::ArrayVec;
use sites::roster::FEWEST_SITES;
use sites::set::{MOST_SITES, known, meets};
use sites::{Refusal, SiteSet};

// Has the set a site, and no unknown one?
fn is_proper(sites: u32, group: SiteSet) -> bool
    ensures { result ≡ proper sites group }
{
    group != 0 && known(sites, group)
}

// Can every set be listed?
fn all_proper(sites: u32, sets: &[SiteSet]) -> bool
    ensures { result ≡ list_all (proper sites) sets.now }
{
    sets.iter().all(|group| is_proper(sites, *group))
}

// Does the set meet every listed set? (As a closure within the one below it would need the same clause there.)
fn meets_all(group: SiteSet, sets: &[SiteSet]) -> bool
    ensures { result ≡ list_all (meets group) sets.now }
{
    sets.iter().all(|other| meets(group, *other))
}

// Does every commit set meet every abort set?
fn crossing(commit: &[SiteSet], abort: &[SiteSet]) -> bool
    ensures { result ≡ all_meet commit.now abort.now }
{
    commit.iter().all(|group| meets_all(*group, abort))
}

impl Listed {
    // A policy of no sites, under which no set is a quorum.
    pub fn new() -> Listed
        ensures listing { result.listing ≡ unfixed }
        ensures commits { (x : ℕ) → (quorums_of result.listing).commits x ≡ false }
        ensures aborts { (x : ℕ) → (quorums_of result.listing).aborts x ≡ false }
    {
        Listed {
            listing: Listing {
                sites: 0,
                commit: ArrayVec::new(),
                abort: ArrayVec::new(),
            },
        }
    }

    // Fixes the policy for that many sites and those sets, or leaves it as it was. One function for both policies would take
    // the making as a closure, with a contract longer than both.
    pub fn fix(&mut self, sites: u32, commit: &[SiteSet], abort: &[SiteSet]) -> Result<(), Refusal>
        ensures answer { result ≡ fix_answer sites commit.now abort.now }
        ensures listing { self.new.listing ≡ fix_listing sites commit.now abort.now self.old.listing }
    {
        *self = Listed::fixed(sites, commit, abort)?;
        Ok(())
    }

    // The policy for that many sites and those sets.
    pub fn fixed(sites: u32, commit: &[SiteSet], abort: &[SiteSet]) -> Result<Listed, Refusal>
        ensures answer { MatchResult result (λ _. fix_answer sites commit.now abort.now ≡ Ok tt) (λ e. fix_answer sites commit.now abort.now ≡ Err e) }
        ensures listing { IfOk result (λ p. p.listing ≡ listing_of sites commit.now abort.now) }
    {
        let (Ok(commit), Ok(abort)) = (ArrayVec::try_from(commit), ArrayVec::try_from(abort)) else {
            return Err(Refusal::Unreadable);
        };
        if !(FEWEST_SITES..=MOST_SITES).contains(&sites) {
            return Err(Refusal::SiteCount);
        }
        if !all_proper(sites, &commit) || !all_proper(sites, &abort) {
            return Err(Refusal::PolicyRange);
        }
        if !crossing(&commit, &abort) {
            return Err(Refusal::NoCrossing);
        }
        Ok(Listed {
            listing: Listing {
                sites,
                commit,
                abort,
            },
        })
    }
}
