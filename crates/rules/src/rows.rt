use crate::role::Role;
use sites::set::SITE_PLACES;

// What a site has besides its record, and loses with its power: a flag and a role, since this project asks for that form.
#[derive(Clone, Copy)]
pub struct Row {
    pub up: bool,
    pub role: Option<Role>,
}

// One row for each site that there can be; memory is fixed, so the rows past the last site are there too.
#[derive(Clone, Copy)]
pub struct Rows {
    pub row: [Row; SITE_PLACES],
}
