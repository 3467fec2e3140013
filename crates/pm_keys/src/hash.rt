//! The hash of a key: each value is fed to std's `FoldHasher`, which multiplies 16 bytes at a time to 128 bits.
ghost use Rattle.std.specs.Prelude.{◌≡◌, ◌^◌, ◌<◌, length};
ghost use Rattle.pm_keys.specs.Hash.{after_value, hash_of};

use pm_values::{Cells, Value};
use std::hash::{FoldHasher, Hasher};

pub(crate) fn hash_of<C: Cells>(key: &C) -> u64
    requires { length (C.cells key.now) < 2 ^ 32 }
    ensures { result ≡ hash_of (C.cells key.now) }
{
    let mut hasher = FoldHasher::default();
    for at in 0..key.width() {
        feed(&mut hasher, key.cell(at));
    }
    hasher.finish()
}

fn feed(hasher: &mut FoldHasher, value: &Value)
    ensures { hasher.new ≡ after_value hasher.old value.now }
{
    match value {
        Value::Null => hasher.write_u8(0),
        Value::Int(n) => hasher.write_i128(*n),
        Value::Text(text) => hasher.write(text.bytes()),
    }
}
