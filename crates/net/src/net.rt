mod calls;
mod carrying;
mod delivering;
mod finding;

use rules::rows::Rows;
use sites::Site;
use std::marker::Model;

// The sites of one approval, between their vault and their message list.
#[derive(Drop)]
pub struct Net {
    sites: u32,
    // The first coordinator.
    first: Site,
    // How many messages were sent. The list is the caller's, so the net has this number alone.
    sent: usize,
    rows: Rows,
}

impl Model for Net {
    ghost use Rattle.rules.specs.World.{Core};
    ghost use Rattle.net.specs.Bounds.{Bounded};

    ghost Value = { Core };

    ghost view = { λ n. record { sites = n.sites; first = n.first; sent = n.sent; rows = n.rows } };

    ghost invariant = { λ n. Bounded n.sites n.first n.sent };
}
