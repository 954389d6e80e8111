ghost use Rattle.std.specs.Prelude.{◌≡◌, length, Ok, Err, IfOk, MatchResult};
ghost use Rattle.vault.specs.Opening.{opening};
ghost use Rattle.rows.specs.Rows.{row_stored, plain_rows, row_opened, rows_opened, SameMemory};
ghost use Rattle.rows.specs.Facts.{rows_whole, rows_lawful, memory_alike, memory_chained};

use super::RowVault;
use rules::record::Record;
use sites::{Refusal, Site};
use vault::{Vault, opening};

// What a row vault always answers to be left.
const ROW_LEFT: u32 = 1_000_000;

impl Vault for RowVault<'_> {
    ghost stored = { row_stored };

    ghost whole = { rows_whole };

    ghost lawful = { rows_lawful };

    ghost tied = { SameMemory };

    ghost alike = { memory_alike };

    ghost chained = { memory_chained };

    fn sites(&self) -> u32 {
        self.sites
    }

    fn left(&self) -> u32 {
        ROW_LEFT
    }

    fn read(&self, site: Site) -> Result<Record, Refusal> {
        if site >= self.sites {
            return Err(Refusal::UnknownSite);
        }
        Ok(self.rows[site as usize])
    }

    fn write(&mut self, site: Site, own: Record) -> Result<(), Refusal> {
        if site >= self.sites {
            return Err(Refusal::UnknownSite);
        }
        self.rows[site as usize] = own;
        Ok(())
    }
}

impl<'a> RowVault<'a> {
    // Stated once, in `vault::opening`; each vault asks it of the places of its own memory. Would a vault for that many sites under that first coordinator have room in the memory?
    pub fn check(rows: &[Record], sites: u32, first: Site) -> Result<(), Refusal>
        ensures { result ≡ opening (length rows.now) sites first }
    {
        opening::check(rows.len(), sites, first)
    }

    // A vault with the starting record of each site; one of 0 sites where the check refuses.
    pub fn new(rows: &'a mut [Record], sites: u32, first: Site) -> RowVault<'a>
        ensures stored { row_stored result ≡ row_opened rows.old sites first }
        ensures memory { plain_rows result.rows.now ≡ rows_opened rows.old sites first }
        ensures lent { result.rows.ghost_name ≡ rows.entry.ghost_name }
    {
        let Ok(own) = opening::start(rows.len(), sites, first) else {
            return RowVault { rows, sites: 0 };
        };
        rows[..sites as usize].fill(own);
        RowVault { rows, sites }
    }

    // The same vault, or why there is none. One function for both vaults would take the making as a closure, with a longer contract. `new` cannot stand on this: where it refuses, the memory stays lent. And
    // only with `new` a proof knows what the memory holds once the vault is gone.
    pub fn open(rows: &'a mut [Record], sites: u32, first: Site) -> Result<RowVault<'a>, Refusal>
        ensures answer { MatchResult result (λ _. opening (length rows.old) sites first ≡ Ok tt) (λ e. opening (length rows.old) sites first ≡ Err e) }
        ensures stored { IfOk result (λ v. row_stored v ≡ row_opened rows.old sites first) }
        ensures memory { IfOk result (λ v. plain_rows v.rows.now ≡ rows_opened rows.old sites first) }
        ensures lent { IfOk result (λ v. v.rows.ghost_name ≡ rows.entry.ghost_name) }
    {
        RowVault::check(rows, sites, first)?;
        Ok(RowVault::new(rows, sites, first))
    }
}
