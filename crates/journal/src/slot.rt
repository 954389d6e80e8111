use rules::record::Record;
use sites::Site;

// One entry of a journal: a record and the site that it is of. (A rehearsal prints such a pair; that is of another crate.)
#[derive(Clone, Copy)]
pub struct Slot {
    pub site: Site,
    pub own: Record,
}
