//! The demo's texts, with ample memory.
use pm_demo::{MOST_CUSTOMERS, make};
use std::test::Fail;

#[test]
fn demos_are_made(rt: HostRuntime) -> Result<(), Fail> {
    let demo = make(rt.alloc(), 2)?;
    assert!(rt; demo.cust.as_slice() == b"id,region\n1,north\n2,south\n".as_slice());
    assert!(rt;
        demo.ord.as_slice()
            == b"id,cust,amt\n1,1,1\n2,2,2\n3,1,3\n4,2,4\n5,1,5\n6,2,6\n7,1,7\n8,2,8\n".as_slice()
    );
    assert!(rt; demo.schema.as_str().len() == 169);
    assert!(rt; demo.query.as_str().len() == 147);
    let largest = make(rt.alloc(), MOST_CUSTOMERS)?;
    assert!(rt; largest.ord.as_slice().ends_with(b"\n400000,100000,100\n"));
    Ok(())
}
