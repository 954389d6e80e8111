use std::process::Abort;
use std::test::Fail;

// The text that an input prints is the one that is expected.
pub(crate) fn expect(
    rt: &(impl Abort + AllocGlobal),
    input: &[u8],
    printed: &str,
) -> Result<(), Fail> {
    let text = rehearsal::rehearse(rt.alloc(), input)?;
    assert_eq!(rt; text.as_str(), printed);
    Ok(())
}
