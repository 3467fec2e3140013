//! Where each condition stands.
use crate::explaining::explained;
use std::test::Fail;

/// A choice of joins, a query, and what is written.
const CASES: [(&str, &str, &str); 7] = [
    // Columns of two sources, above their join.
    (
        "auto",
        "SELECT s.id FROM sale s JOIN cust c ON s.cust = c.id AND s.amt > c.id",
        "N 1 project 2\nN 2 filter 3\nN 3 hash 4 5 unique=right total\nN 4 scan sale s\nN 5 scan cust c\n\
B 1 lo=0 hi=3 pipe=1 driver=no\nB 2 lo=0 hi=3 pipe=1 driver=no\nB 3 lo=3 hi=3 pipe=1 driver=no\n\
B 4 lo=3 hi=3 pipe=1 driver=yes\nB 5 lo=3 hi=3 pipe=2 driver=yes\nF lo=9 hi=15\n",
    ),
    (
        "auto",
        "SELECT s.id FROM sale s JOIN cust c ON s.cust = c.id WHERE s.amt = 1 OR c.name = '2'",
        "N 1 project 2\nN 2 filter 3\nN 3 hash 4 5 unique=right total\nN 4 scan sale s\nN 5 scan cust c\n\
B 1 lo=0 hi=3 pipe=1 driver=no\nB 2 lo=0 hi=3 pipe=1 driver=no\nB 3 lo=3 hi=3 pipe=1 driver=no\n\
B 4 lo=3 hi=3 pipe=1 driver=yes\nB 5 lo=3 hi=3 pipe=2 driver=yes\nF lo=9 hi=15\n",
    ),
    // Columns of one source, below the join, which is no longer total.
    (
        "auto",
        "SELECT s.id FROM sale s JOIN cust c ON s.cust = c.id WHERE c.region = '1' OR c.name = '2'",
        "N 1 project 2\nN 2 hash 3 4 unique=right\nN 3 scan sale s\nN 4 filter 5\nN 5 scan cust c\n\
B 1 lo=0 hi=3 pipe=1 driver=no\nB 2 lo=0 hi=3 pipe=1 driver=no\nB 3 lo=3 hi=3 pipe=1 driver=yes\n\
B 4 lo=0 hi=3 pipe=2 driver=no\nB 5 lo=3 hi=3 pipe=2 driver=yes\nF lo=6 hi=15\n",
    ),
    // An equality within one source is no pair; what reads no column stands above all joins.
    (
        "auto",
        "SELECT s.id FROM sale s JOIN cust c ON s.cust = c.id WHERE s.amt > 1 AND (s.id = s.cust AND 2 > 1)",
        "N 1 project 2\nN 2 filter 3\nN 3 hash 4 6 unique=right total\nN 4 filter 5\nN 5 scan sale s\nN 6 scan cust c\n\
B 1 lo=0 hi=3 pipe=1 driver=no\nB 2 lo=0 hi=3 pipe=1 driver=no\nB 3 lo=0 hi=3 pipe=1 driver=no\n\
B 4 lo=0 hi=3 pipe=1 driver=no\nB 5 lo=3 hi=3 pipe=1 driver=yes\nB 6 lo=3 hi=3 pipe=2 driver=yes\nF lo=6 hi=18\n",
    ),
    // After LEFT JOIN the own ON stands below the join, and WHERE above it.
    (
        "auto",
        "SELECT c.id FROM cust c LEFT JOIN sale s ON s.cust = c.id AND s.amt > 1",
        "N 1 project 2\nN 2 lefthash 3 4 unique=left\nN 3 scan cust c\nN 4 filter 5\nN 5 scan sale s\n\
B 1 lo=3 hi=6 pipe=1 driver=no\nB 2 lo=3 hi=6 pipe=1 driver=no\nB 3 lo=3 hi=3 pipe=1 driver=yes\n\
B 4 lo=0 hi=3 pipe=2 driver=no\nB 5 lo=3 hi=3 pipe=2 driver=yes\nF lo=12 hi=21\n",
    ),
    (
        "auto",
        "SELECT c.id FROM cust c LEFT JOIN sale s ON s.cust = c.id WHERE s.amt > 1",
        "N 1 project 2\nN 2 filter 3\nN 3 lefthash 4 5 unique=left\nN 4 scan cust c\nN 5 scan sale s\n\
B 1 lo=0 hi=6 pipe=1 driver=no\nB 2 lo=0 hi=6 pipe=1 driver=no\nB 3 lo=3 hi=6 pipe=1 driver=no\n\
B 4 lo=3 hi=3 pipe=1 driver=yes\nB 5 lo=3 hi=3 pipe=2 driver=yes\nF lo=9 hi=24\n",
    ),
    (
        "auto",
        "SELECT c.id FROM cust c LEFT JOIN sale s ON s.cust = c.id WHERE c.region IS NULL AND s.cust = c.id",
        "N 1 project 2\nN 2 filter 3\nN 3 lefthash 4 6 unique=left\nN 4 filter 5\nN 5 scan cust c\nN 6 scan sale s\n\
B 1 lo=0 hi=6 pipe=1 driver=no\nB 2 lo=0 hi=6 pipe=1 driver=no\nB 3 lo=0 hi=6 pipe=1 driver=no\n\
B 4 lo=0 hi=3 pipe=1 driver=no\nB 5 lo=3 hi=3 pipe=1 driver=yes\nB 6 lo=3 hi=3 pipe=2 driver=yes\nF lo=6 hi=27\n",
    ),
];

#[test]
fn conditions_stand_where_their_columns_are(rt: HostRuntime) -> Result<(), Fail> {
    for (join, query, text) in CASES {
        let out = explained(&rt, rt.alloc(), join, query)?;
        assert_eq!(rt; out.bytes(), text.as_bytes(), "{query}");
    }
    Ok(())
}
