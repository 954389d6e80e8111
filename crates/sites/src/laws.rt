// Laws of sets. Each is the contract of a function that does nothing, so that the
// gate asks for its proof.
ghost use Rattle.sites.specs.Laws.{Inclusion, Meeting};

// A set includes another exactly if it has each of its sites.
pub fn inclusion()
    ensures { Inclusion }
{}

// Two sets meet exactly if they share one of the sixteen sites.
pub fn meeting()
    ensures { Meeting }
{}
