//! Laws over all calls. Each is the contract of a function that does nothing,
//! so that the gate asks for its proof.
#![tactic(auto)]

ghost use Rattle.laws.specs.Laws.{RefusalsChangeNothing, ListsOnlyGrow, NumbersNeverFall, EntriesStayLawful, DecidedStays, OnlyOneSite};
ghost use Rattle.laws.specs.Runs.{DecidedStaysInRuns};

// A refused call changes nothing.
pub fn refusals_change_nothing()
    ensures { RefusalsChangeNothing }
{}

// The list of messages only grows: what was sent stays.
#[tactic(auto, using(crate::proofs::Lists::lists_only_grow))]
pub fn lists_only_grow()
    ensures { ListsOnlyGrow }
{}

// The last elected and the last attempt of a site never fall.
#[tactic(auto, using(crate::proofs::Records::numbers_never_fall))]
pub fn numbers_never_fall()
    ensures { NumbersNeverFall }
{}

// Lawful records stay lawful.
#[tactic(auto, using(crate::proofs::Records::entries_stay_lawful))]
pub fn entries_stay_lawful()
    ensures { EntriesStayLawful }
{}

// A decided site never changes its state.
#[tactic(auto, using(crate::proofs::Records::decided_stays))]
pub fn decided_stays()
    ensures { DecidedStays }
{}

// In a run, which starts with a new net, that needs no premise: a decided site never changes its state.
#[tactic(auto, using(crate::proofs::Runs::decided_stays_in_runs))]
pub fn decided_stays_in_runs()
    ensures { DecidedStaysInRuns }
{}

// A call writes no record but that of its site.
#[tactic(auto, using(crate::proofs::Records::only_one_site))]
pub fn only_one_site()
    ensures { OnlyOneSite }
{}
