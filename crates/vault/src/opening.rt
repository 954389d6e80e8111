// The check before a vault is made on the caller's memory.
ghost use Rattle.std.specs.Prelude.{◌≡◌};
ghost use Rattle.vault.specs.Kept.{entry_read};
ghost use Rattle.vault.specs.Opening.{opening, started};

use rules::record::Record;
use sites::roster::is_seated;
use sites::{Refusal, Site};

// Has a memory of that many places room for the starting records of the sites?
pub fn check(places: usize, sites: u32, first: Site) -> Result<(), Refusal>
    ensures { result ≡ opening places sites first }
{
    if !is_seated(sites, first) {
        return Err(Refusal::SiteCount);
    }
    if places < sites as usize {
        return Err(Refusal::VaultFull);
    }
    Ok(())
}

// The record that each site starts with in such a memory.
pub fn start(places: usize, sites: u32, first: Site) -> Result<Record, Refusal>
    ensures { entry_read result ≡ started (opening places sites first) first }
{
    check(places, sites, first)?;
    Ok(Record::starting(first).unwrap())
}
