// Whole approvals, from begin to a decision at every site.
use crate::expect::expect;
use std::test::Fail;

// the first vote is No, and later lines are refused
#[test]
fn first_no(rt: HostRuntime) -> Result<(), Fail> {
    expect(
        &rt,
        b"roster,3,0\nvotes,2,2,1,1,1\nbegin,yes\nvote,0,no\nvote,0,yes\ndeliver,2\nadvance,0\ndeliver,3\n",
        "1,0\n2,0\n3,0\n4,0\n5,11\n6,0\n7,0\n8,11\n0,a,1,1,0\n1,a,1,0,0\n2,q,1,0,0\n",
    )
}

// two sites commit
#[test]
fn commit_two(rt: HostRuntime) -> Result<(), Fail> {
    expect(
        &rt,
        b"roster,2,0\nvotes,2,1,1,1\nbegin,yes\nvote,0,yes\ndeliver,1\nadvance,0\ndeliver,2\ndeliver,3\nadvance,0\ndeliver,4\n",
        "1,0\n2,0\n3,0\n4,0\n5,0\n6,0\n7,0\n8,0\n9,0\n10,0\n0,c,1,1,0\n1,c,1,1,0\n",
    )
}

// three sites commit
#[test]
fn commit_three(rt: HostRuntime) -> Result<(), Fail> {
    expect(
        &rt,
        b"roster,3,1\nvotes,2,2,1,1,1\nbegin,yes\nvote,0,yes\nvote,1,yes\ndeliver,3\ndeliver,3\nadvance,1\ndeliver,2\nadvance,1\ndeliver,4\nadvance,1\ndeliver,6\nadvance,1\ndeliver,7\ndeliver,8\ndeliver,5\n",
        "1,0\n2,0\n3,0\n4,0\n5,0\n6,0\n7,0\n8,12\n9,0\n10,0\n11,0\n12,12\n13,0\n14,0\n15,0\n16,0\n17,11\n0,c,1,1,1\n1,c,1,1,1\n2,c,1,0,1\n",
    )
}

// sixteen sites commit
#[test]
fn commit_sixteen(rt: HostRuntime) -> Result<(), Fail> {
    expect(
        &rt,
        b"roster,16,0\nvotes,9,8,1,1,1,1,1,1,1,1,1,1,1,1,1,1,1,1\nbegin,yes\nvote,0,yes\nvote,1,yes\nvote,2,yes\nvote,3,yes\nvote,4,yes\nvote,5,yes\nvote,6,yes\nvote,7,yes\nvote,8,yes\nvote,9,yes\nvote,10,yes\nvote,11,yes\nvote,12,yes\nvote,13,yes\nvote,14,yes\ndeliver,15\ndeliver,16\ndeliver,17\ndeliver,18\ndeliver,19\ndeliver,20\ndeliver,21\ndeliver,22\ndeliver,23\ndeliver,24\ndeliver,25\ndeliver,26\ndeliver,27\ndeliver,28\ndeliver,29\nadvance,0\ndeliver,30\ndeliver,31\ndeliver,32\ndeliver,33\ndeliver,34\ndeliver,35\ndeliver,36\ndeliver,37\ndeliver,38\ndeliver,39\ndeliver,40\ndeliver,41\ndeliver,42\ndeliver,43\ndeliver,44\ndeliver,45\ndeliver,46\ndeliver,47\ndeliver,48\ndeliver,49\ndeliver,50\ndeliver,51\ndeliver,52\ndeliver,53\ndeliver,54\ndeliver,55\ndeliver,56\ndeliver,57\ndeliver,58\ndeliver,59\nadvance,0\ndeliver,60\ndeliver,61\ndeliver,62\ndeliver,63\ndeliver,64\ndeliver,65\ndeliver,66\ndeliver,67\ndeliver,68\ndeliver,69\ndeliver,70\ndeliver,71\ndeliver,72\ndeliver,73\ndeliver,74\n",
        "1,0\n2,0\n3,0\n4,0\n5,0\n6,0\n7,0\n8,0\n9,0\n10,0\n11,0\n12,0\n13,0\n14,0\n15,0\n16,0\n17,0\n18,0\n19,0\n20,0\n21,0\n22,0\n23,0\n24,0\n25,0\n26,0\n27,0\n28,0\n29,0\n30,0\n31,0\n32,0\n33,0\n34,0\n35,0\n36,0\n37,0\n38,0\n39,0\n40,0\n41,0\n42,0\n43,0\n44,0\n45,0\n46,0\n47,0\n48,0\n49,0\n50,0\n51,0\n52,0\n53,0\n54,0\n55,0\n56,0\n57,0\n58,0\n59,0\n60,0\n61,0\n62,0\n63,0\n64,0\n65,0\n66,0\n67,0\n68,0\n69,0\n70,0\n71,0\n72,0\n73,0\n74,0\n75,0\n76,0\n77,0\n78,0\n79,0\n80,0\n0,c,1,1,0\n1,c,1,1,0\n2,c,1,1,0\n3,c,1,1,0\n4,c,1,1,0\n5,c,1,1,0\n6,c,1,1,0\n7,c,1,1,0\n8,c,1,1,0\n9,c,1,1,0\n10,c,1,1,0\n11,c,1,1,0\n12,c,1,1,0\n13,c,1,1,0\n14,c,1,1,0\n15,c,1,1,0\n",
    )
}

// the first coordinator votes No
#[test]
fn abort_at_begin(rt: HostRuntime) -> Result<(), Fail> {
    expect(
        &rt,
        b"roster,3,0\nvotes,2,2,1,1,1\nbegin,no\nbegin,yes\nadvance,0\ndeliver,0\ndeliver,1\n",
        "1,0\n2,0\n3,0\n4,11\n5,11\n6,0\n7,0\n0,a,1,1,0\n1,a,1,0,0\n2,a,1,0,0\n",
    )
}

// another site votes No
#[test]
fn abort_at_vote(rt: HostRuntime) -> Result<(), Fail> {
    expect(
        &rt,
        b"roster,3,0\nvotes,2,2,1,1,1\nbegin,yes\nvote,0,yes\nvote,1,no\ndeliver,2\ndeliver,3\nadvance,0\ndeliver,4\n",
        "1,0\n2,0\n3,0\n4,0\n5,0\n6,0\n7,0\n8,0\n9,0\n0,a,1,1,0\n1,a,1,0,0\n2,a,1,0,0\n",
    )
}

// one site has more votes than the others
#[test]
fn weighted(rt: HostRuntime) -> Result<(), Fail> {
    expect(
        &rt,
        b"roster,3,0\nvotes,9,9,15,1,1\nbegin,yes\nvote,0,yes\nvote,1,yes\ndeliver,2\nadvance,0\ndeliver,3\nadvance,0\nadvance,0\ndeliver,6\ndeliver,7\n",
        "1,0\n2,0\n3,0\n4,0\n5,0\n6,0\n7,12\n8,0\n9,0\n10,0\n11,0\n12,0\n0,c,1,1,0\n1,c,1,0,0\n2,c,1,0,0\n",
    )
}
