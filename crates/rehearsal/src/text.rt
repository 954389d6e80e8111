// The lines of the sites.
ghost use Rattle.std.specs.Prelude.{◌≡◌, ◌++◌, Some, string_bytes, OnOk};
ghost use Rattle.rows.specs.Rows.{row_stored};
ghost use Rattle.rehearsal.specs.Text.{site_lines};

use crate::memory::OutOfMemory;
use rows::rows::RowVault;
use rules::record::Record;
use sites::Site;
use std::fmt::{self, Write};
use vault::Vault;

// A site's number and record, to be printed; a journal's slot is of another crate, and is none.
#[derive(Clone, Copy)]
struct SiteRecord {
    site: Site,
    own: Record,
}

impl fmt::Display for SiteRecord {
    ghost use Rattle.rules.specs.Entries.{plain};
    ghost use Rattle.rehearsal.specs.Records.{record_text};

    ghost output = { λ s. Some (record_text s.site (plain s.own)) };

    fn fmt<W: fmt::Write>(&self, f: &mut fmt::Formatter<W>) -> fmt::Result {
        let Record {
            state,
            elected,
            attempt,
            lead,
        } = self.own;
        write!(
            f,
            "{},{},{elected},{attempt},{lead}",
            self.site,
            char::from(state)
        )
    }
}

// All sites with their records.
#[tactic(auto, using(crate::proofs::Sites::lines_none, crate::proofs::Sites::lines_more))]
pub(crate) fn write_sites(text: &mut String, vault: &RowVault) -> Result<(), OutOfMemory>
    ensures { OnOk result (string_bytes text.new ≡ string_bytes text.old ++ site_lines (row_stored vault.now).sites (row_stored vault.now).entries) }
{
    // A vault answers site by site, and has no iterator.
    for site in 0..vault.sites() {
        let own = vault.read(site).unwrap();
        writeln!(text, "{}", SiteRecord { site, own })?;
    }
    Ok(())
}
