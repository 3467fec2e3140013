//! Many keys with ample memory: their numbers, their values, and keys that are not there.
ghost use Rattle.std.specs.Prelude.{◌≡◌, IfOk, length};

use pm_keys::{KeyTable, Keys};
use pm_values::{Row, Txt, Value, compare};
use std::alloc::{AllocError, Global};
use std::cmp::Ordering;
use std::test::Fail;

// A key of two values: a number, NULL or a text, and how many of three keys came before it.
fn key(alloc: Global, n: u32) -> Result<Row, AllocError>
    ensures { IfOk result (λ key. length key ≡ 2) }
{
    let first = match n % 3 {
        0 => Value::Null,
        1 => Value::Int(-(n as i128)),
        _ => Value::Text(Txt::new(alloc, "the same long text in each third key")?),
    };
    let mut key = Row::new(alloc);
    key.push(first)?;
    key.push(Value::Int((n / 3) as i128))?;
    Ok(key)
}

#[test]
fn keys_keep_their_first_number(rt: HostRuntime) -> Result<(), Fail> {
    let alloc = rt.alloc();
    let mut table = KeyTable::new(alloc, 2);
    for n in 0..6000u32 {
        if table.len() < u32::MAX {
            assert_eq!(rt; table.enter(&key(alloc, n % 2000)?)?, n % 2000);
        }
    }
    assert_eq!(rt; table.len(), 2000);
    for n in 0..2000u32 {
        assert_eq!(rt; table.find(&key(alloc, n)?), Some(n));
        if n < table.len() {
            let before = Value::Int((n / 3) as i128);
            assert_eq!(rt; compare(table.cell(n, 1), &before), Ordering::Equal);
            assert_eq!(rt; table.find(&table.key(n)), Some(n));
        }
    }
    assert_eq!(rt; table.find(&key(alloc, 2000)?), None);
    Ok(())
}
