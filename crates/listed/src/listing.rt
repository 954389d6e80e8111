ghost use Rattle.std.specs.Prelude.{◌≡◌, ◌≤◌, true, length};
ghost use Rattle.listed.specs.Crossing.{all_meet, most_sets};

use arrayvec::ArrayVec;
use sites::SiteSet;
use std::marker::Model;

// The most sets of either kind.
pub const MOST_SETS: usize = 8;

// The sites, and the sets that make a quorum of either kind.
#[derive(Drop)]
pub struct Listing {
    pub(crate) sites: u32,
    // The sets that commit.
    pub(crate) commit: ArrayVec<SiteSet, MOST_SETS>,
    // The sets that abort.
    pub(crate) abort: ArrayVec<SiteSet, MOST_SETS>,
}

impl Model for Listing {
    ghost use Rattle.listed.specs.Listings.{Listing as Seen};

    ghost Value = { Seen };

    ghost view = { λ l. record { sites = l.sites; commit = l.commit.items; abort = l.abort.items } };
}

// A policy of listed sets: a listing whose quorums cross. It has no sites until it is
// fixed: the rules ask for a policy of 0 sites, so it is no Option.
// Its fact is a ghost field and no model's invariant: the laws of a policy are owed for every value of a model.
#[derive(Drop)]
pub struct Listed {
    pub(crate) listing: Listing,
    ghost few_commits: { length listing.commit ≤ most_sets },
    ghost few_aborts: { length listing.abort ≤ most_sets },
    ghost crossing: { all_meet listing.commit listing.abort ≡ true },
}
