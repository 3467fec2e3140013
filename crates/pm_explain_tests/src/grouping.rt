//! Groups, DISTINCT and orders above the joins.
use crate::explaining::explained;
use std::test::Fail;

/// A choice of joins, a query, and what is written.
const CASES: [(&str, &str, &str); 6] = [
    (
        "auto",
        "SELECT DISTINCT region, name FROM cust ORDER BY name DESC",
        "N 1 sort 2\nN 2 group 3\nN 3 project 4\nN 4 scan cust cust\nB 1 lo=1 hi=3 pipe=1 driver=yes\n\
B 2 lo=1 hi=3 pipe=2 driver=yes\nB 3 lo=3 hi=3 pipe=3 driver=no\nB 4 lo=3 hi=3 pipe=3 driver=yes\nF lo=8 hi=12\n",
    ),
    (
        "auto",
        "SELECT COUNT(*) FROM sale HAVING COUNT(amt) > 2",
        "N 1 project 2\nN 2 filter 3\nN 3 group 4\nN 4 scan sale sale\nB 1 lo=0 hi=1 pipe=1 driver=no\n\
B 2 lo=0 hi=1 pipe=1 driver=no\nB 3 lo=1 hi=1 pipe=1 driver=yes\nB 4 lo=3 hi=3 pipe=2 driver=yes\nF lo=4 hi=6\n",
    ),
    (
        "auto",
        "SELECT c.region, COUNT(*) FROM cust c GROUP BY c.region ORDER BY COUNT(*) DESC, c.region",
        "N 1 project 2\nN 2 sort 3\nN 3 group 4\nN 4 scan cust c\nB 1 lo=1 hi=3 pipe=1 driver=no\n\
B 2 lo=1 hi=3 pipe=1 driver=yes\nB 3 lo=1 hi=3 pipe=2 driver=yes\nB 4 lo=3 hi=3 pipe=3 driver=yes\nF lo=6 hi=12\n",
    ),
    (
        "auto",
        "SELECT c.name, SUM(s.amt) AS total FROM sale s JOIN cust c ON s.cust = c.id GROUP BY c.id, c.name HAVING \
SUM(s.amt) > 1 ORDER BY total",
        "N 1 project 2\nN 2 sort 3\nN 3 filter 4\nN 4 group 5\nN 5 hash 6 7 unique=right total\nN 6 scan sale s\n\
N 7 scan cust c\nB 1 lo=0 hi=3 pipe=1 driver=no\nB 2 lo=0 hi=3 pipe=1 driver=yes\nB 3 lo=0 hi=3 pipe=2 driver=no\n\
B 4 lo=1 hi=3 pipe=2 driver=yes\nB 5 lo=3 hi=3 pipe=3 driver=no\nB 6 lo=3 hi=3 pipe=3 driver=yes\n\
B 7 lo=3 hi=3 pipe=4 driver=yes\nF lo=10 hi=21\n",
    ),
    (
        "auto",
        "SELECT DISTINCT COUNT(*) FROM sale GROUP BY cust ORDER BY COUNT(*)",
        "N 1 sort 2\nN 2 group 3\nN 3 project 4\nN 4 group 5\nN 5 scan sale sale\nB 1 lo=1 hi=3 pipe=1 driver=yes\n\
B 2 lo=1 hi=3 pipe=2 driver=yes\nB 3 lo=1 hi=3 pipe=3 driver=no\nB 4 lo=1 hi=3 pipe=3 driver=yes\n\
B 5 lo=3 hi=3 pipe=4 driver=yes\nF lo=7 hi=15\n",
    ),
    (
        "auto",
        "SELECT name FROM cust ORDER BY id",
        "N 1 project 2\nN 2 sort 3\nN 3 scan cust cust\nB 1 lo=3 hi=3 pipe=1 driver=no\nB 2 lo=3 hi=3 pipe=1 driver=yes\n\
B 3 lo=3 hi=3 pipe=2 driver=yes\nF lo=9 hi=9\n",
    ),
];

#[test]
fn groups_and_orders(rt: HostRuntime) -> Result<(), Fail> {
    for (join, query, text) in CASES {
        let out = explained(&rt, rt.alloc(), join, query)?;
        assert_eq!(rt; out.bytes(), text.as_bytes(), "{query}");
    }
    Ok(())
}
