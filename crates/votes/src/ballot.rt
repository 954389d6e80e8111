ghost use Rattle.std.specs.Prelude.{◌≡◌, ◌+◌, ◌<◌, ◌≤◌, length, sum};
ghost use Rattle.votes.specs.Ballots.{most_voters, most_total};

use arrayvec::ArrayVec;
use sites::set::SITE_PLACES;
use std::marker::Model;

// The votes of each site, and how many of them a quorum of either kind needs.
#[derive(Drop)]
pub struct Ballot {
    pub(crate) votes: ArrayVec<u32, SITE_PLACES>,
    // The votes that a set needs to commit.
    pub(crate) commit: u32,
    // The votes that a set needs to abort.
    pub(crate) abort: u32,
}

impl Model for Ballot {
    ghost use Rattle.std.specs.Prelude.{length};
    ghost use Rattle.votes.specs.Ballots.{Ballot as Seen};

    ghost Value = { Seen };

    ghost view = { λ b. record { sites = length b.votes.items; commit = b.commit; abort = b.abort; votes = b.votes.items } };
}

// A policy by votes: a ballot whose quorums cross. It has no sites until it is fixed:
// the rules ask for a policy of 0 sites, so it is no Option.
// Its facts are ghost fields and no model's invariant: the laws of a policy are owed for every value of a model.
#[derive(Drop)]
pub struct Votes {
    pub(crate) ballot: Ballot,
    ghost sized: { ballot.sites ≡ length ballot.votes },
    ghost few: { length ballot.votes ≤ most_voters },
    ghost light: { sum ballot.votes ≤ most_total },
    ghost crossing: { sum ballot.votes < ballot.commit + ballot.abort },
}
