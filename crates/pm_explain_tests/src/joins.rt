//! Which way each join takes, at the edges of its rule.
use crate::explaining::explained;
use std::test::Fail;

/// A choice of joins, a query, and what is written.
const CASES: [(&str, &str, &str); 14] = [
    // Eight times the left side's one row is as many as the table has.
    (
        "auto",
        "SELECT o.n FROM one o JOIN eight e ON e.id = o.n",
        "N 1 project 2\nN 2 index 3 4\nN 3 scan one o\nN 4 seek eight e unique=right\nB 1 lo=0 hi=1 pipe=1 driver=no\n\
B 2 lo=0 hi=1 pipe=1 driver=no\nB 3 lo=1 hi=1 pipe=1 driver=yes\nB 4 lo=0 hi=1 pipe=1 driver=no\nF lo=1 hi=4\n",
    ),
    // It is one more than the table has.
    (
        "auto",
        "SELECT o.n FROM one o JOIN seven s ON s.id = o.n",
        "N 1 project 2\nN 2 hash 3 4 unique=right\nN 3 scan one o\nN 4 scan seven s\nB 1 lo=0 hi=1 pipe=1 driver=no\n\
B 2 lo=0 hi=1 pipe=1 driver=no\nB 3 lo=1 hi=1 pipe=1 driver=yes\nB 4 lo=7 hi=7 pipe=2 driver=yes\nF lo=8 hi=10\n",
    ),
    // The index join below has one row at most.
    (
        "auto",
        "SELECT e.n FROM one o JOIN eight d ON d.id = o.n JOIN eight e ON e.id = d.n",
        "N 1 project 2\nN 2 index 3 6\nN 3 index 4 5\nN 4 scan one o\nN 5 seek eight d unique=right\n\
N 6 seek eight e unique=right\nB 1 lo=0 hi=1 pipe=1 driver=no\nB 2 lo=0 hi=1 pipe=1 driver=no\n\
B 3 lo=0 hi=1 pipe=1 driver=no\nB 4 lo=1 hi=1 pipe=1 driver=yes\nB 5 lo=0 hi=1 pipe=1 driver=no\n\
B 6 lo=0 hi=1 pipe=1 driver=no\nF lo=1 hi=6\n",
    ),
    // The pairs lack a column of the KEY.
    (
        "auto",
        "SELECT p.n FROM one o JOIN paired p ON p.id = o.id",
        "N 1 project 2\nN 2 hash 3 4 unique=left\nN 3 scan one o\nN 4 scan paired p\nB 1 lo=0 hi=8 pipe=1 driver=no\n\
B 2 lo=0 hi=8 pipe=1 driver=no\nB 3 lo=1 hi=1 pipe=1 driver=yes\nB 4 lo=8 hi=8 pipe=2 driver=yes\nF lo=9 hi=25\n",
    ),
    (
        "auto",
        "SELECT p.n FROM one o JOIN paired p ON p.n = o.n AND p.id = o.id",
        "N 1 project 2\nN 2 index 3 4\nN 3 scan one o\nN 4 seek paired p unique=both\nB 1 lo=0 hi=1 pipe=1 driver=no\n\
B 2 lo=0 hi=1 pipe=1 driver=no\nB 3 lo=1 hi=1 pipe=1 driver=yes\nB 4 lo=0 hi=1 pipe=1 driver=no\nF lo=1 hi=4\n",
    ),
    (
        "index",
        "SELECT p.n FROM seven s JOIN paired p ON p.id = s.id AND p.n > 3",
        "N 1 project 2\nN 2 index 3 4\nN 3 scan seven s\nN 4 seek paired p unique=left\nB 1 lo=0 hi=7 pipe=1 driver=no\n\
B 2 lo=0 hi=7 pipe=1 driver=no\nB 3 lo=7 hi=7 pipe=1 driver=yes\nB 4 lo=0 hi=7 pipe=1 driver=no\nF lo=7 hi=28\n",
    ),
    // The pairs are the first columns of both ORDERs, in any order and direction.
    (
        "auto",
        "SELECT s.c FROM steps s JOIN stairs t ON s.a = t.a",
        "N 1 project 2\nN 2 merge 3 4 unique=none\nN 3 scan steps s\nN 4 scan stairs t\nB 1 lo=0 hi=20 pipe=1 driver=no\n\
B 2 lo=0 hi=20 pipe=1 driver=no\nB 3 lo=5 hi=5 pipe=1 driver=yes\nB 4 lo=4 hi=4 pipe=1 driver=yes\nF lo=9 hi=49\n",
    ),
    (
        "auto",
        "SELECT s.c FROM steps s JOIN stairs t ON t.b = s.b AND t.a = s.a",
        "N 1 project 2\nN 2 merge 3 4 unique=right\nN 3 scan steps s\nN 4 scan stairs t\nB 1 lo=0 hi=5 pipe=1 driver=no\n\
B 2 lo=0 hi=5 pipe=1 driver=no\nB 3 lo=5 hi=5 pipe=1 driver=yes\nB 4 lo=4 hi=4 pipe=1 driver=yes\nF lo=9 hi=19\n",
    ),
    // An ORDER has one column fewer than there are pairs.
    (
        "auto",
        "SELECT s.c FROM steps s JOIN stairs t ON s.a = t.a AND s.b = t.b AND s.c = t.c",
        "N 1 project 2\nN 2 hash 3 4 unique=right\nN 3 scan steps s\nN 4 scan stairs t\nB 1 lo=0 hi=5 pipe=1 driver=no\n\
B 2 lo=0 hi=5 pipe=1 driver=no\nB 3 lo=5 hi=5 pipe=1 driver=yes\nB 4 lo=4 hi=4 pipe=2 driver=yes\nF lo=9 hi=19\n",
    ),
    // One pair that is given in both directions.
    (
        "auto",
        "SELECT s.c FROM steps s JOIN stairs t ON s.a = t.a AND t.a = s.a",
        "N 1 project 2\nN 2 merge 3 4 unique=none\nN 3 scan steps s\nN 4 scan stairs t\nB 1 lo=0 hi=20 pipe=1 driver=no\n\
B 2 lo=0 hi=20 pipe=1 driver=no\nB 3 lo=5 hi=5 pipe=1 driver=yes\nB 4 lo=4 hi=4 pipe=1 driver=yes\nF lo=9 hi=49\n",
    ),
    // The pair is a second column of the ORDERs.
    (
        "auto",
        "SELECT s.c FROM steps s JOIN stairs t ON s.b = t.b",
        "N 1 project 2\nN 2 hash 3 4 unique=none\nN 3 scan steps s\nN 4 scan stairs t\nB 1 lo=0 hi=20 pipe=1 driver=no\n\
B 2 lo=0 hi=20 pipe=1 driver=no\nB 3 lo=5 hi=5 pipe=1 driver=yes\nB 4 lo=4 hi=4 pipe=2 driver=yes\nF lo=9 hi=49\n",
    ),
    // The ORDER of the first source counts, also above a join and not that of another source.
    (
        "auto",
        "SELECT s.c FROM steps s JOIN cust c ON c.id = s.a JOIN stairs t ON t.a = s.a",
        "N 1 project 2\nN 2 merge 3 6 unique=none\nN 3 hash 4 5 unique=right\nN 4 scan steps s\nN 5 scan cust c\n\
N 6 scan stairs t\nB 1 lo=0 hi=20 pipe=1 driver=no\nB 2 lo=0 hi=20 pipe=1 driver=no\nB 3 lo=0 hi=5 pipe=1 driver=no\n\
B 4 lo=5 hi=5 pipe=1 driver=yes\nB 5 lo=3 hi=3 pipe=2 driver=yes\nB 6 lo=4 hi=4 pipe=1 driver=yes\nF lo=12 hi=57\n",
    ),
    (
        "auto",
        "SELECT s.c FROM steps s JOIN stairs t ON t.a = s.a JOIN stairs u ON u.a = t.a",
        "N 1 project 2\nN 2 hash 3 6 unique=none\nN 3 merge 4 5 unique=none\nN 4 scan steps s\nN 5 scan stairs t\n\
N 6 scan stairs u\nB 1 lo=0 hi=80 pipe=1 driver=no\nB 2 lo=0 hi=80 pipe=1 driver=no\nB 3 lo=0 hi=20 pipe=1 driver=no\n\
B 4 lo=5 hi=5 pipe=1 driver=yes\nB 5 lo=4 hi=4 pipe=1 driver=yes\nB 6 lo=4 hi=4 pipe=2 driver=yes\nF lo=13 hi=193\n",
    ),
    // There is no ORDER; the join goes along a reference.
    (
        "merge",
        "SELECT c.name FROM sale s JOIN cust c ON s.cust = c.id",
        "N 1 project 2\nN 2 hash 3 4 unique=right total\nN 3 scan sale s\nN 4 scan cust c\nB 1 lo=3 hi=3 pipe=1 driver=no\n\
B 2 lo=3 hi=3 pipe=1 driver=no\nB 3 lo=3 hi=3 pipe=1 driver=yes\nB 4 lo=3 hi=3 pipe=2 driver=yes\nF lo=12 hi=12\n",
    ),
];

#[test]
fn joins_take_their_way(rt: HostRuntime) -> Result<(), Fail> {
    for (join, query, text) in CASES {
        let out = explained(&rt, rt.alloc(), join, query)?;
        assert_eq!(rt; out.bytes(), text.as_bytes(), "{query}");
    }
    Ok(())
}
