// Rosters, policies and calls that are taken or refused.
use crate::expect::expect;
use std::test::Fail;

#[test]
fn rosters(rt: HostRuntime) -> Result<(), Fail> {
    // a roster of 1
    expect(&rt, b"roster,1,0\nvotes,1,1,1\n", "1,2\n")?;
    // a roster of 2
    expect(
        &rt,
        b"roster,2,1\nvotes,1,2,1,1\n",
        "1,0\n2,0\n0,q,1,0,1\n1,q,1,0,1\n",
    )?;
    // a roster of 16
    expect(
        &rt,
        b"roster,16,15\nvotes,8,9,1,1,1,1,1,1,1,1,1,1,1,1,1,1,1,1",
        "1,0\n2,0\n0,q,1,0,15\n1,q,1,0,15\n2,q,1,0,15\n3,q,1,0,15\n4,q,1,0,15\n5,q,1,0,15\n6,q,1,0,15\n7,q,1,0,15\n8,q,1,0,15\n9,q,1,0,15\n10,q,1,0,15\n11,q,1,0,15\n12,q,1,0,15\n13,q,1,0,15\n14,q,1,0,15\n15,q,1,0,15\n",
    )?;
    // a roster of 17
    expect(
        &rt,
        b"roster,17,0\nvotes,9,9,1,1,1,1,1,1,1,1,1,1,1,1,1,1,1,1,1",
        "1,2\n",
    )?;
    // a first coordinator just outside a roster of 2
    expect(&rt, b"roster,2,2\n", "1,2\n")
}

#[test]
fn thresholds(rt: HostRuntime) -> Result<(), Fail> {
    // a vote of 15
    expect(
        &rt,
        b"roster,3,0\nvotes,9,9,15,1,1\n",
        "1,0\n2,0\n0,q,1,0,0\n1,q,1,0,0\n2,q,1,0,0\n",
    )?;
    // a vote of 16
    expect(
        &rt,
        b"roster,3,0\nvotes,9,9,16,1,1\nbegin,yes\n",
        "1,0\n2,3\n",
    )?;
    // a commit threshold of 0
    expect(&rt, b"roster,2,0\nvotes,0,2,1,1\n", "1,0\n2,3\n")?;
    // an abort threshold of 0
    expect(&rt, b"roster,2,0\nvotes,2,0,1,1\n", "1,0\n2,3\n")?;
    // a commit threshold above the total
    expect(&rt, b"roster,2,0\nvotes,3,1,1,1\n", "1,0\n2,3\n")?;
    // an abort threshold above the total
    expect(&rt, b"roster,2,0\nvotes,1,3,1,1\n", "1,0\n2,3\n")?;
    // C + A equal to the total
    expect(&rt, b"roster,2,0\nvotes,1,1,1,1\nbegin,yes\n", "1,0\n2,4\n")?;
    // C + A one above the total
    expect(
        &rt,
        b"roster,3,0\nvotes,1,3,1,1,1\n",
        "1,0\n2,0\n0,q,1,0,0\n1,q,1,0,0\n2,q,1,0,0\n",
    )
}

#[test]
fn refusals(rt: HostRuntime) -> Result<(), Fail> {
    // the wrong call for a message
    expect(
        &rt,
        b"roster,2,0\nvotes,2,1,1,1\nbegin,yes\ndeliver,0\nvote,0,yes\nvote,1,yes\nvote,2,yes\ndeliver,2\n",
        "1,0\n2,0\n3,0\n4,8\n5,0\n6,8\n7,7\n8,7\n0,w,1,0,0\n1,w,1,0,0\n",
    )?;
    // begin and vote twice
    expect(
        &rt,
        b"roster,2,0\nvotes,2,1,1,1\nbegin,yes\nbegin,no\nvote,0,yes\nvote,0,no\n",
        "1,0\n2,0\n3,0\n4,11\n5,0\n6,11\n0,w,1,0,0\n1,w,1,0,0\n",
    )?;
    // advance before its row, and every message again
    expect(
        &rt,
        b"roster,2,0\nvotes,2,1,1,1\nbegin,yes\nadvance,0\nvote,0,yes\nadvance,0\nadvance,1\ndeliver,1\ndeliver,1\nadvance,0\ndeliver,1\nadvance,0\ndeliver,2\ndeliver,2\nadvance,0\ndeliver,3\ndeliver,3\nadvance,0\ndeliver,3\nadvance,0\ndeliver,4\ndeliver,4\ndeliver,2\n",
        "1,0\n2,0\n3,0\n4,12\n5,0\n6,12\n7,11\n8,0\n9,0\n10,0\n11,11\n12,12\n13,0\n14,11\n15,12\n16,0\n17,0\n18,0\n19,11\n20,11\n21,0\n22,11\n23,11\n0,c,1,1,0\n1,c,1,1,0\n",
    )?;
    // a No before the other vote, whose Yes comes late
    expect(
        &rt,
        b"roster,3,0\nvotes,2,2,1,1,1\nbegin,yes\nvote,0,no\ndeliver,2\nadvance,0\nvote,1,yes\ndeliver,5\ndeliver,4\n",
        "1,0\n2,0\n3,0\n4,0\n5,0\n6,0\n7,0\n8,11\n9,0\n0,a,1,1,0\n1,a,1,0,0\n2,a,1,0,0\n",
    )
}
