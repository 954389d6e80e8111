ghost use Rattle.std.specs.Prelude.{◌≤◌, length};
ghost use Rattle.journal.specs.Slots.{counting_slots, InOrder};

mod keeping;

use crate::slot::Slot;

// A vault on the caller's memory, of which the first 65,536 slots count. A used slot is never written again.
// Memory is fixed and lent, so the number of used slots stands beside it.
#[derive(Drop)]
pub struct JournalVault<'a> {
    slots: &'a mut [Slot],
    // How many slots are used, from the first on.
    used: usize,
    sites: u32,
    ghost held: { used ≤ counting_slots (length slots.now) },
    ghost begun: { sites ≤ used },
    ghost ordered: { InOrder sites slots.now },
}
