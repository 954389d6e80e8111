ghost use Rattle.std.specs.Prelude.{◌≤◌, length};

mod keeping;

use rules::record::Record;

// A vault on the first rows of the caller's memory; it never touches the rows past its last site.
// Memory is fixed and lent, so the number of rows that are the vault's stands beside it.
#[derive(Drop)]
pub struct RowVault<'a> {
    rows: &'a mut [Record],
    sites: u32,
    ghost held: { sites ≤ length rows.now },
}
