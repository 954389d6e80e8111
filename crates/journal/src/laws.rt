// Laws of journals. Each is the contract of a function that does nothing, so that the
// gate asks for its proof.
ghost use Rattle.journal.specs.Laws.{AppendOnly, NewestCounts};

// A used slot is never written again.
pub fn append_only()
    ensures { AppendOnly }
{}

// The record of a site is that of its newest slot.
pub fn newest_counts()
    ensures { NewestCounts }
{}
