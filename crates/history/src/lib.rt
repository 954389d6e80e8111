//! Agreement and validity, over histories of events. Each theorem is the contract of a function that does nothing,
//! so that the gate asks for its proof.
#![tactic(auto)]

ghost use Rattle.history.specs.Examples.{QuorumsCross, Commits, Aborts, Late, Refuses};
ghost use Rattle.history.specs.Facts.{HistoriesHaveFacts};
ghost use Rattle.history.specs.Promises.{ChosenExcludesAttempts, NoExcludesCommit, Agreement, DecidedIsSettled, DecisionsAgree, Validity, CommittedIsValid};

// What every good history has, whatever the quorums are.
#[tactic(auto, using(crate::proofs::Facts::histories_have_facts))]
pub fn histories_have_facts()
    ensures { HistoriesHaveFacts }
{}

// Where a quorum took part in an attempt, the other outcome is attempted neither at that number nor at any greater one.
pub fn chosen_excludes_attempts()
    ensures { ChosenExcludesAttempts }
{}

// Where a site voted No, nobody attempts to commit.
#[tactic(auto, using(crate::proofs::Validity::no_excludes_commit))]
pub fn no_excludes_commit()
    ensures { NoExcludesCommit }
{}

// Commit and abort are never both settled, by a quorum or by a No.
#[tactic(auto, using(crate::proofs::Agreement::agreement))]
pub fn one_outcome()
    ensures { Agreement }
{}

// A decided site rests on what is settled.
pub fn decided_is_settled()
    ensures { DecidedIsSettled }
{}

// Any two decided sites, at any two moments, have the same outcome.
pub fn decisions_agree()
    ensures { DecisionsAgree }
{}

// Where commit is attempted, every site whose Yes is needed has voted Yes.
#[tactic(auto, using(crate::proofs::Validity::validity))]
pub fn commits_are_valid()
    ensures { Validity }
{}

// The same holds where a site has committed.
#[tactic(auto, using(crate::proofs::Validity::committed_is_valid))]
pub fn committed_is_valid()
    ensures { CommittedIsValid }
{}

// Of three sites any two are a quorum, and these quorums cross.
#[tactic(auto, using(crate::proofs::Examples::quorums_cross))]
pub fn quorums_cross()
    ensures { QuorumsCross }
{}

// A good history in which two sites commit.
#[tactic(auto, using(crate::proofs::Examples::commits))]
pub fn a_commit_happens()
    ensures { Commits }
{}

// A good history in which two elections follow an outage, and two sites abort.
#[tactic(auto, using(crate::proofs::Examples::aborts))]
pub fn an_abort_happens()
    ensures { Aborts }
{}

// A good history in which abort is attempted, at a lower number, after commit was chosen.
#[tactic(auto, using(crate::proofs::Examples::late_attempt))]
pub fn a_late_attempt_happens()
    ensures { Late }
{}

// A good history in which a site votes No.
#[tactic(auto, using(crate::proofs::Examples::refuses))]
pub fn a_no_happens()
    ensures { Refuses }
{}
