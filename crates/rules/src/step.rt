use crate::message::Kind;
use crate::record::Record;
use crate::role::Role;
use sites::{Site, SiteSet};

// A step of a site: it writes its record, has that role then, and sends a message of that kind
// to each site of a set.
#[derive(Clone, Copy)]
pub struct Step {
    pub site: Site,
    pub own: Record,
    pub role: Option<Role>,
    pub kind: Kind,
    pub to: SiteSet,
}
