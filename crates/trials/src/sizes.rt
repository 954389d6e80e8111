// The longest input that is read, and one byte more.
use crate::expect::expect;
use std::test::Fail;

#[test]
fn longest(rt: HostRuntime) -> Result<(), Fail> {
    let input = vec![in rt.alloc(); b'\n'; 65_536]?;
    expect(&rt, input.as_slice(), "1,1,1\n")
}

#[test]
fn too_long(rt: HostRuntime) -> Result<(), Fail> {
    let input = vec![in rt.alloc(); b'\n'; 65_537]?;
    expect(&rt, input.as_slice(), "0,1,0\n")
}
