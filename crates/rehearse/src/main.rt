//! Reads a schedule from standard input and prints what each of its calls did.
#![tactic(auto)]

use rehearsal::MOST_BYTES;
use std::io::Read;

// One byte more than a schedule may have, so that a longer input is seen to be one.
const MOST_READ: u64 = MOST_BYTES as u64 + 1;

fn main(rt: HostRuntime) -> anyhow::Result<()> {
    let mut input = Vec::new(rt.alloc());
    rt.stdin().take(MOST_READ).read_to_end(&mut input)?;

    // The whole text is made before any of it is printed, so that no part is taken for the whole.
    let text = rehearsal::rehearse(rt.alloc(), input.as_slice())?;
    rt.print(text.as_str())?;
    Ok(())
}
