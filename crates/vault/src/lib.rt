//! Where the records of the sites are kept.
#![tactic(auto)]

ghost use Rattle.std.specs.Prelude.{◌≡◌, ℕ, length, slice_index_or};
ghost use Rattle.rules.specs.Entries.{Lawful, plain};
ghost use Rattle.rules.specs.World.{Stored, no_entry};
ghost use Rattle.vault.specs.Kept.{entry_read, kept, write_answer, entries_written, Spent};

use rules::record::Record;
use sites::{Refusal, Site};

pub mod opening;

// One record for each site, and a number of writes that are left.
pub trait Vault {
    // The number of sites, the record of each, and how many writes are left at least.
    ghost stored: { Self → Stored };

    // The second vault has the memory of the first, and what is no record in it is as it was.
    ghost tied: { Self → Self → Type 0 };

    fn sites(&self) -> u32
        ensures { result ≡ (stored self.now).sites };

    // How many writes are left at least.
    fn left(&self) -> u32
        ensures { result ≡ (stored self.now).left };

    // The record of a site.
    fn read(&self, site: Site) -> Result<Record, Refusal>
        ensures { entry_read result ≡ kept (stored self.now) site };

    // Replaces the record of a site, and no other.
    fn write(&mut self, site: Site, own: Record) -> Result<(), Refusal>
        ensures answer { result ≡ write_answer (stored self.old) site }
        ensures sites { (stored self.new).sites ≡ (stored self.old).sites }
        ensures entries { (stored self.new).entries ≡ entries_written result site (plain own) (stored self.old).entries }
        ensures left { Spent result (stored self.old).left (stored self.new).left }
        ensures tied { tied self.old self.new };

    // There is just one record for each site.
    ghost whole: { (v : Self) → length (stored v).entries ≡ (stored v).sites };

    // Each of them is lawful.
    ghost lawful: { (v : Self) (s : ℕ) → Lawful (slice_index_or (stored v).entries s no_entry) };

    // A vault has its own memory, and one that comes after a later one has the memory of the first.
    ghost alike: { (v : Self) → tied v v };

    ghost chained: { (u v w : Self) → tied u v → tied v w → tied u w };
}
