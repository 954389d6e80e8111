// How a policy by votes is made and fixed.
ghost use Rattle.std.specs.Prelude.{◌≡◌, ℕ, ◌<◌, ◌≤◌, false, length, take, sum, IfOk, MatchResult, Err, Ok};
ghost use Rattle.votes.specs.Ballots.{light_votes, most_total, unfixed, commits_of, aborts_of};
ghost use Rattle.votes.specs.Fixing.{fix_answer, fix_ballot, ballot_of};

use crate::ballot::{Ballot, Votes};
use arrayvec::ArrayVec;
use sites::Refusal;
use sites::roster::FEWEST_SITES;
use sites::set::SITE_PLACES;

// The most votes that a site can have.
const MOST_VOTES: u32 = 15;

// The fewest sites that can vote: as few as a net can have.
const FEWEST_VOTERS: usize = FEWEST_SITES as usize;

// Has every site at most fifteen votes?
fn light(votes: &[u32]) -> bool
    ensures { result ≡ light_votes votes.now }
{
    votes.iter().all(|v| *v <= MOST_VOTES)
}

// The votes of all sites.
fn total(votes: &[u32]) -> u32
    requires { sum votes.now ≤ most_total }
    ensures all { result ≡ sum votes.now }
    ensures most { result ≤ most_total }
{
    votes.iter().sum()
}

impl Votes {
    // A policy of no sites, under which no set is a quorum.
    pub fn new() -> Votes
        ensures ballot { result.ballot ≡ unfixed }
        ensures commits { (x : ℕ) → commits_of result.ballot x ≡ false }
        ensures aborts { (x : ℕ) → aborts_of result.ballot x ≡ false }
    {
        Votes {
            ballot: Ballot {
                votes: ArrayVec::new(),
                commit: 1,
                abort: 1,
            },
        }
    }

    // Fixes the policy for as many sites as votes are handed over, or leaves it as it was. One function for both policies would take
    // the making as a closure, with a contract longer than both.
    pub fn fix(&mut self, commit: u32, abort: u32, votes: &[u32]) -> Result<(), Refusal>
        ensures answer { result ≡ fix_answer commit abort votes.now }
        ensures ballot { self.new.ballot ≡ fix_ballot commit abort votes.now self.old.ballot }
    {
        *self = Votes::fixed(commit, abort, votes)?;
        Ok(())
    }

    // The policy for as many sites as votes are handed over.
    #[tactic(auto, using(crate::specs::Weights::light_total))]
    pub fn fixed(commit: u32, abort: u32, votes: &[u32]) -> Result<Votes, Refusal>
        ensures answer { MatchResult result (λ _. fix_answer commit abort votes.now ≡ Ok tt) (λ e. fix_answer commit abort votes.now ≡ Err e) }
        ensures ballot { IfOk result (λ p. p.ballot ≡ ballot_of commit abort votes.now) }
    {
        let Ok(votes) = ArrayVec::<u32, SITE_PLACES>::try_from(votes) else {
            return Err(Refusal::SiteCount);
        };
        if votes.len() < FEWEST_VOTERS {
            return Err(Refusal::SiteCount);
        }
        if !light(&votes) {
            return Err(Refusal::PolicyRange);
        }
        let total = total(&votes);
        if !(1..=total).contains(&commit) || !(1..=total).contains(&abort) {
            return Err(Refusal::PolicyRange);
        }
        if commit + abort <= total {
            return Err(Refusal::NoCrossing);
        }
        Ok(Votes {
            ballot: Ballot {
                votes,
                commit,
                abort,
            },
        })
    }
}
