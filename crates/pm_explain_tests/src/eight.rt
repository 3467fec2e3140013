//! A statement with eight sources under each choice of joins.
use crate::explaining::explained;
use std::test::Fail;

const QUERY: &str =
    "SELECT DISTINCT c.region FROM one o JOIN eight e ON e.id = o.n JOIN stairs t ON t.a = o.id JOIN steps s ON s.a \
= o.id JOIN sale p ON p.id = e.id JOIN cust c ON c.id = p.cust LEFT JOIN seven v ON v.n = c.id JOIN paired q \
ON q.id = t.a AND q.n = t.b WHERE q.n > 1 ORDER BY c.region";

/// A choice of joins, and what is written.
const CASES: [(&str, &str); 4] = [
    (
        "auto",
        "N 1 sort 2\nN 2 group 3\nN 3 project 4\nN 4 hash 5 18 unique=right\nN 5 lefthash 6 17 unique=none\n\
N 6 hash 7 16 unique=right total\nN 7 hash 8 15 unique=right\nN 8 merge 9 14 unique=none\n\
N 9 merge 10 13 unique=left\nN 10 index 11 12\nN 11 scan one o\nN 12 seek eight e unique=right\nN 13 scan stairs t\n\
N 14 scan steps s\nN 15 scan sale p\nN 16 scan cust c\nN 17 scan seven v\nN 18 filter 19\nN 19 scan paired q\n\
B 1 lo=0 hi=140 pipe=1 driver=yes\nB 2 lo=0 hi=140 pipe=2 driver=yes\nB 3 lo=0 hi=140 pipe=3 driver=no\n\
B 4 lo=0 hi=140 pipe=3 driver=no\nB 5 lo=0 hi=140 pipe=3 driver=no\nB 6 lo=0 hi=20 pipe=3 driver=no\n\
B 7 lo=0 hi=20 pipe=3 driver=no\nB 8 lo=0 hi=20 pipe=3 driver=no\nB 9 lo=0 hi=4 pipe=3 driver=no\n\
B 10 lo=0 hi=1 pipe=3 driver=no\nB 11 lo=1 hi=1 pipe=3 driver=yes\nB 12 lo=0 hi=1 pipe=3 driver=no\n\
B 13 lo=4 hi=4 pipe=3 driver=yes\nB 14 lo=5 hi=5 pipe=3 driver=yes\nB 15 lo=3 hi=3 pipe=4 driver=yes\n\
B 16 lo=3 hi=3 pipe=5 driver=yes\nB 17 lo=7 hi=7 pipe=6 driver=yes\nB 18 lo=0 hi=8 pipe=7 driver=no\n\
B 19 lo=8 hi=8 pipe=7 driver=yes\nF lo=31 hi=805\n",
    ),
    (
        "hash",
        "N 1 sort 2\nN 2 group 3\nN 3 project 4\nN 4 hash 5 18 unique=right\nN 5 lefthash 6 17 unique=none\n\
N 6 hash 7 16 unique=right total\nN 7 hash 8 15 unique=right\nN 8 hash 9 14 unique=none\nN 9 hash 10 13 unique=left\n\
N 10 hash 11 12 unique=right\nN 11 scan one o\nN 12 scan eight e\nN 13 scan stairs t\nN 14 scan steps s\n\
N 15 scan sale p\nN 16 scan cust c\nN 17 scan seven v\nN 18 filter 19\nN 19 scan paired q\n\
B 1 lo=0 hi=140 pipe=1 driver=yes\nB 2 lo=0 hi=140 pipe=2 driver=yes\nB 3 lo=0 hi=140 pipe=3 driver=no\n\
B 4 lo=0 hi=140 pipe=3 driver=no\nB 5 lo=0 hi=140 pipe=3 driver=no\nB 6 lo=0 hi=20 pipe=3 driver=no\n\
B 7 lo=0 hi=20 pipe=3 driver=no\nB 8 lo=0 hi=20 pipe=3 driver=no\nB 9 lo=0 hi=4 pipe=3 driver=no\n\
B 10 lo=0 hi=1 pipe=3 driver=no\nB 11 lo=1 hi=1 pipe=3 driver=yes\nB 12 lo=8 hi=8 pipe=4 driver=yes\n\
B 13 lo=4 hi=4 pipe=5 driver=yes\nB 14 lo=5 hi=5 pipe=6 driver=yes\nB 15 lo=3 hi=3 pipe=7 driver=yes\n\
B 16 lo=3 hi=3 pipe=8 driver=yes\nB 17 lo=7 hi=7 pipe=9 driver=yes\nB 18 lo=0 hi=8 pipe=10 driver=no\n\
B 19 lo=8 hi=8 pipe=10 driver=yes\nF lo=39 hi=812\n",
    ),
    (
        "merge",
        "N 1 sort 2\nN 2 group 3\nN 3 project 4\nN 4 hash 5 18 unique=right\nN 5 lefthash 6 17 unique=none\n\
N 6 hash 7 16 unique=right total\nN 7 hash 8 15 unique=right\nN 8 merge 9 14 unique=none\n\
N 9 merge 10 13 unique=left\nN 10 hash 11 12 unique=right\nN 11 scan one o\nN 12 scan eight e\nN 13 scan stairs t\n\
N 14 scan steps s\nN 15 scan sale p\nN 16 scan cust c\nN 17 scan seven v\nN 18 filter 19\nN 19 scan paired q\n\
B 1 lo=0 hi=140 pipe=1 driver=yes\nB 2 lo=0 hi=140 pipe=2 driver=yes\nB 3 lo=0 hi=140 pipe=3 driver=no\n\
B 4 lo=0 hi=140 pipe=3 driver=no\nB 5 lo=0 hi=140 pipe=3 driver=no\nB 6 lo=0 hi=20 pipe=3 driver=no\n\
B 7 lo=0 hi=20 pipe=3 driver=no\nB 8 lo=0 hi=20 pipe=3 driver=no\nB 9 lo=0 hi=4 pipe=3 driver=no\n\
B 10 lo=0 hi=1 pipe=3 driver=no\nB 11 lo=1 hi=1 pipe=3 driver=yes\nB 12 lo=8 hi=8 pipe=4 driver=yes\n\
B 13 lo=4 hi=4 pipe=3 driver=yes\nB 14 lo=5 hi=5 pipe=3 driver=yes\nB 15 lo=3 hi=3 pipe=5 driver=yes\n\
B 16 lo=3 hi=3 pipe=6 driver=yes\nB 17 lo=7 hi=7 pipe=7 driver=yes\nB 18 lo=0 hi=8 pipe=8 driver=no\n\
B 19 lo=8 hi=8 pipe=8 driver=yes\nF lo=39 hi=812\n",
    ),
    (
        "index",
        "N 1 sort 2\nN 2 group 3\nN 3 project 4\nN 4 index 5 18\nN 5 lefthash 6 17 unique=none\nN 6 index 7 16\n\
N 7 index 8 15\nN 8 index 9 14\nN 9 index 10 13\nN 10 index 11 12\nN 11 scan one o\nN 12 seek eight e unique=right\n\
N 13 seek stairs t unique=left\nN 14 seek steps s unique=none\nN 15 seek sale p unique=right\n\
N 16 seek cust c unique=right total\nN 17 scan seven v\nN 18 seek paired q unique=right\n\
B 1 lo=0 hi=7 pipe=1 driver=yes\nB 2 lo=0 hi=7 pipe=2 driver=yes\nB 3 lo=0 hi=7 pipe=3 driver=no\n\
B 4 lo=0 hi=7 pipe=3 driver=no\nB 5 lo=0 hi=7 pipe=3 driver=no\nB 6 lo=0 hi=1 pipe=3 driver=no\n\
B 7 lo=0 hi=1 pipe=3 driver=no\nB 8 lo=0 hi=1 pipe=3 driver=no\nB 9 lo=0 hi=1 pipe=3 driver=no\n\
B 10 lo=0 hi=1 pipe=3 driver=no\nB 11 lo=1 hi=1 pipe=3 driver=yes\nB 12 lo=0 hi=1 pipe=3 driver=no\n\
B 13 lo=0 hi=1 pipe=3 driver=no\nB 14 lo=0 hi=1 pipe=3 driver=no\nB 15 lo=0 hi=1 pipe=3 driver=no\n\
B 16 lo=0 hi=1 pipe=3 driver=no\nB 17 lo=7 hi=7 pipe=4 driver=yes\nB 18 lo=0 hi=7 pipe=3 driver=no\nF lo=8 hi=60\n",
    ),
];

#[test]
fn each_choice_has_its_plan(rt: HostRuntime) -> Result<(), Fail> {
    for (join, text) in CASES {
        let out = explained(&rt, rt.alloc(), join, QUERY)?;
        assert_eq!(rt; out.bytes(), text.as_bytes(), "{join}");
    }
    Ok(())
}
