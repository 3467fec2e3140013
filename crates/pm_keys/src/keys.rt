//! Lists of keys that are lent value by value, and when two keys are the same.
ghost use Rattle.std.specs.Prelude.{◌≡◌, ◌^◌, ◌<◌, [], length, get_or, All, OnOk, OnErr};
ghost use Rattle.pm_values.specs.Row.{cell};
ghost use Rattle.pm_values.specs.Order.{value_cmp};
ghost use Rattle.pm_values.specs.Equality.{is_equal, same_values};
ghost use Rattle.pm_keys.specs.Numbers.{HasWidth};

use pm_values::{Cells, Value, compare};
use std::alloc::AllocError;
use std::cmp::Ordering;
use std::marker::Model;

/// Keys of one width, numbered from 0, whose values can be read.
pub trait Keys {
    ghost use Rattle.std.specs.Prelude.{ℕ, List};
    ghost use Rattle.pm_values.specs.Row.{Row};

    ghost width: { Self → ℕ };

    ghost keys: { Self → List Row };

    /// The number of values of each key.
    fn width(&self) -> u32
        ensures value { result ≡ width self.now }
        ensures wide { All (HasWidth (width self.now)) (keys self.now) };

    /// The value at this position, from 0, of the key with this number.
    fn cell(&self, number: u32, at: u32) -> &Value
        requires number { number < length (keys self.now) }
        requires within { at < width self.now }
        ensures { result.now ≡ cell (get_or (keys self.now) number []) at };
}

/// Keys behind which a further key can be put: `can_keep` says which one, and `with_key` what the keys then are.
pub trait Keep<C: Cells>: Keys {
    ghost use Rattle.std.specs.Prelude.{◌≡◌, [], ◌∷◌, ◌++◌};

    ghost can_keep: { Self → C → Type 0 };

    ghost with_key: { Self → C → Self };

    /// Puts this key behind the others. A refusal leaves them.
    fn keep(&mut self, key: &C) -> Result<(), AllocError>
        requires { can_keep self.old key.now }
        ensures ok { OnOk result (self.new ≡ with_key self.old key.now) }
        ensures err { OnErr result (self.new ≡ self.old) };

    ghost comes_last: { (k : Self) (key : C) → can_keep k key → Self.keys (with_key k key) ≡ Self.keys k ++ C.cells key ∷ [] };
}

/// One of some keys, which stays where it is.
#[derive(Drop)]
pub struct LentKey<'a, L: Keys> {
    keys: &'a L,
    number: u32,
}

impl<'a, L: Keys> Model for LentKey<'a, L> {
    ghost use Rattle.std.specs.Prelude.{◌≡◌, ◌<◌, [], length, get_or};
    ghost use Rattle.pm_values.specs.Row.{Row};

    ghost Value = { Row };

    ghost view = { λ k. get_or (L.keys k.keys.now) k.number [] };

    ghost invariant = { λ k. (k.number < length (L.keys k.keys.now)) × (length (get_or (L.keys k.keys.now) k.number []) ≡ L.width k.keys.now) };
}

impl<'a, L: Keys> LentKey<'a, L> {
    /// The key with this number.
    pub fn new(keys: &'a L, number: u32) -> LentKey<'a, L>
        requires { number < length (L.keys keys.now) }
        ensures { result ≡ get_or (L.keys keys.now) number [] }
    {
        let _width = keys.width();
        LentKey { keys, number }
    }
}

impl<'a, L: Keys> Cells for LentKey<'a, L> {
    ghost cells = { λ row. row };

    fn width(&self) -> u32 {
        self.keys.width()
    }

    fn cell(&self, at: u32) -> &Value {
        self.keys.cell(self.number, at)
    }
}

/// Whether two lists of values are equal, where NULLs count as one value.
pub fn same_values<A: Cells, B: Cells>(a: &A, b: &B) -> bool
    requires few { length (A.cells a.now) < 2 ^ 32 }
    requires as_wide { length (A.cells a.now) ≡ length (B.cells b.now) }
    ensures { result ≡ same_values (A.cells a.now) (B.cells b.now) }
{
    for at in 0..a.width() {
        if !same_value(a.cell(at), b.cell(at)) {
            return false;
        }
    }
    true
}

fn same_value(a: &Value, b: &Value) -> bool
    ensures { result ≡ is_equal (value_cmp a.now b.now) }
{
    compare(a, b) == Ordering::Equal
}
