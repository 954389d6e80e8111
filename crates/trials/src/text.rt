// Lines that are read, and lines that are not.
use crate::expect::expect;
use std::test::Fail;

#[test]
fn lines(rt: HostRuntime) -> Result<(), Fail> {
    // an empty input
    expect(&rt, b"", "")?;
    // only a newline
    expect(&rt, b"\n", "1,1,1\n")?;
    // a roster alone
    expect(&rt, b"roster,2,0\n", "1,0\n")?;
    // a roster alone without a newline
    expect(&rt, b"roster,2,0", "1,0\n")?;
    // a blank line in the policy's place
    expect(&rt, b"roster,2,0\n\n", "1,0\n2,1,1\n")?;
    // no newline after the last line
    expect(
        &rt,
        b"roster,2,0\nvotes,2,1,1,1\nbegin,no",
        "1,0\n2,0\n3,0\n0,a,1,1,0\n1,q,1,0,0\n",
    )?;
    // a blank line among the calls
    expect(
        &rt,
        b"roster,2,0\nvotes,2,1,1,1\n\nbegin,no\n\n",
        "1,0\n2,0\n3,1,1\n4,0\n5,1,1\n0,a,1,1,0\n1,q,1,0,0\n",
    )
}

#[test]
fn fields(rt: HostRuntime) -> Result<(), Fail> {
    // the roster's third field missing
    expect(&rt, b"roster,2\n", "1,1,3\n")?;
    // one vote too few
    expect(&rt, b"roster,3,0\nvotes,2,2,1,1\n", "1,0\n2,1,6\n")?;
    // calls with a field missing
    expect(
        &rt,
        b"roster,2,0\nvotes,2,1,1,1\nbegin\nvote\nvote,0\ndeliver\nadvance\n",
        "1,0\n2,0\n3,1,2\n4,1,2\n5,1,3\n6,1,2\n7,1,2\n0,q,1,0,0\n1,q,1,0,0\n",
    )?;
    // a surplus field in the roster
    expect(&rt, b"roster,2,0,0\n", "1,1,4\n")?;
    // one vote too many
    expect(&rt, b"roster,2,0\nvotes,2,1,1,1,1\n", "1,0\n2,1,6\n")?;
    // calls with a surplus field
    expect(
        &rt,
        b"roster,2,0\nvotes,2,1,1,1\nbegin,yes,no\nvote,0,yes,yes\ndeliver,0,0\nadvance,0,\n",
        "1,0\n2,0\n3,1,3\n4,1,4\n5,1,3\n6,1,3\n0,q,1,0,0\n1,q,1,0,0\n",
    )?;
    // an empty vote in the policy
    expect(&rt, b"roster,2,0\nvotes,2,1,,1\n", "1,0\n2,1,4\n")?;
    // calls with an empty field
    expect(
        &rt,
        b"roster,2,0\nvotes,2,1,1,1\nbegin,\nvote,,yes\nvote,0,\ndeliver,\nadvance,,\n,\n",
        "1,0\n2,0\n3,1,2\n4,1,2\n5,1,3\n6,1,2\n7,1,2\n8,1,1\n0,q,1,0,0\n1,q,1,0,0\n",
    )
}

#[test]
fn numbers(rt: HostRuntime) -> Result<(), Fail> {
    // two zeros for the first coordinator
    expect(&rt, b"roster,2,00\n", "1,1,3\n")?;
    // zeros in calls
    expect(
        &rt,
        b"roster,2,0\nvotes,2,1,1,1\ndeliver,00\ndeliver,0\nadvance,00\nadvance,0\nvote,00,yes\nvote,0,yes\n",
        "1,0\n2,0\n3,1,2\n4,7\n5,1,2\n6,11\n7,1,2\n8,7\n0,q,1,0,0\n1,q,1,0,0\n",
    )?;
    // eight digits for the number of sites
    expect(&rt, b"roster,10000000,0\n", "1,1,2\n")?;
    // seven and eight digits in calls
    expect(
        &rt,
        b"roster,2,0\nvotes,2,1,1,1\ndeliver,9999999\ndeliver,10000000\nadvance,9999999\nadvance,10000000\nvote,9999999,no\nvote,10000000,no\ndeliver,00000001\n",
        "1,0\n2,0\n3,7\n4,1,2\n5,6\n6,1,2\n7,7\n8,1,2\n9,1,2\n0,q,1,0,0\n1,q,1,0,0\n",
    )?;
    // what is not a number
    expect(
        &rt,
        b"roster,2,0\nvotes,2,1,1,1\ndeliver,+1\ndeliver,-1\ndeliver, 1\ndeliver,1 \ndeliver,0x1\ndeliver,1.0\ndeliver,1_0\ndeliver,/\ndeliver,:\n",
        "1,0\n2,0\n3,1,2\n4,1,2\n5,1,2\n6,1,2\n7,1,2\n8,1,2\n9,1,2\n10,1,2\n11,1,2\n0,q,1,0,0\n1,q,1,0,0\n",
    )
}

#[test]
fn words(rt: HostRuntime) -> Result<(), Fail> {
    // a capital in the first word
    expect(&rt, b"Roster,2,0\n", "1,1,1\n")?;
    // the policy in the roster's place
    expect(&rt, b"votes,2,1,1,1\nroster,2,0\n", "1,1,1\n")?;
    // a call in the policy's place
    expect(
        &rt,
        b"roster,2,0\nbegin,yes\nvotes,2,1,1,1\n",
        "1,0\n2,1,1\n",
    )?;
    // wrong words in calls
    expect(
        &rt,
        b"roster,2,0\nvotes,2,1,1,1\nBegin,yes\nbegin,Yes\nbegin,yess\nbegin,ye\nbegin,1\nvote,0,maybe\nvote,x,maybe\ndeliver,x\nadvance,no\ncommit,0\n#\n",
        "1,0\n2,0\n3,1,1\n4,1,2\n5,1,2\n6,1,2\n7,1,2\n8,1,3\n9,1,2\n10,1,2\n11,1,2\n12,1,1\n13,1,1\n0,q,1,0,0\n1,q,1,0,0\n",
    )?;
    // roster and policy lines among the calls
    expect(
        &rt,
        b"roster,2,0\nvotes,2,1,1,1\nroster,2,0\nvotes,2,1,1,1\nroster,99\nbegin,no\n",
        "1,0\n2,0\n3,1,1\n4,1,1\n5,1,1\n6,0\n0,a,1,1,0\n1,q,1,0,0\n",
    )?;
    // lines of kinds not in operation
    expect(
        &rt,
        b"roster,2,0\nvotes,2,1,1,1\nelect,0,3\nresolve,0,3\ncrash,1\nrestart,1\ncut,begin,yes\nsets,0\n",
        "1,0\n2,0\n3,1,1\n4,1,1\n5,1,1\n6,1,1\n7,1,1\n8,1,1\n0,q,1,0,0\n1,q,1,0,0\n",
    )
}

#[test]
fn bytes(rt: HostRuntime) -> Result<(), Fail> {
    // a carriage return after the roster
    expect(&rt, b"roster,2,0\r\nvotes,2,1,1,1\r\n", "1,1,3\n")?;
    // carriage returns among the calls
    expect(
        &rt,
        b"roster,2,0\nvotes,2,1,1,1\nbegin,yes\r\n\r\nbegin\r,yes\nbegin,no\r",
        "1,0\n2,0\n3,1,2\n4,1,1\n5,1,1\n6,1,2\n0,q,1,0,0\n1,q,1,0,0\n",
    )?;
    // a byte 0 alone
    expect(&rt, b"\x00", "1,1,1\n")?;
    // a byte 0 among the calls
    expect(
        &rt,
        b"roster,2,0\nvotes,2,1,1,1\nbegin\x00,yes\nbegin,yes\x00\ndeliver,\x00\n\x00\nbegin,no\n",
        "1,0\n2,0\n3,1,1\n4,1,2\n5,1,2\n6,1,1\n7,0\n0,a,1,1,0\n1,q,1,0,0\n",
    )?;
    // a byte 255 alone
    expect(&rt, b"\xff", "1,1,1\n")?;
    // a byte 255 among the calls
    expect(
        &rt,
        b"roster,2,0\nvotes,2,1,1,1\n\xffbegin,yes\nbegin,\xff\ndeliver,0\xff\nvote,0,\xff\n",
        "1,0\n2,0\n3,1,1\n4,1,2\n5,1,2\n6,1,3\n0,q,1,0,0\n1,q,1,0,0\n",
    )
}
