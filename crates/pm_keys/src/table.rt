//! Tables of keys that own them.
ghost use Rattle.std.specs.Prelude.{◌≡◌, ◌-◌, ◌<◌, ◌^◌, [], length, get_or, None, Some, IfOk, OnOk, OnErr};
ghost use Rattle.pm_keys.specs.Numbers.{IsKeyList, entered, number_of};

use crate::keys::{Keys, LentKey};
use crate::numbers::KeyNumbers;
use crate::own::OwnKeys;
use pm_values::{Cells, Value};
use std::alloc::{AllocError, Global};
use std::marker::Model;

/// Different keys of one width, numbered from 0 in order of first appearance.
#[derive(Drop)]
pub struct KeyTable {
    numbers: KeyNumbers<OwnKeys>,
}

impl Model for KeyTable {
    ghost use Rattle.pm_keys.specs.Numbers.{KeyList};

    ghost Value = { KeyList };

    ghost view = { λ t. t.numbers };
}

impl KeyTable {
    /// A table without keys, which takes no memory, for keys of this many values.
    pub fn new(alloc: Global, width: u32) -> KeyTable
        ensures { result ≡ record { width = width; keys = [] } }
    {
        KeyTable {
            numbers: KeyNumbers::new(alloc, OwnKeys::new(alloc, width)),
        }
    }

    /// The number of keys.
    pub fn len(&self) -> u32
        ensures value { result ≡ length self.now.keys }
        ensures listed { IsKeyList self.now }
    {
        let _width = self.numbers.keys().width();
        self.numbers.len()
    }

    /// The number of this key, None where it is not there.
    pub fn find<C: Cells>(&self, key: &C) -> Option<u32>
        requires { length (C.cells key.now) ≡ self.now.width }
        ensures { result ≡ number_of (C.cells key.now) self.now.keys }
    {
        self.numbers.find(key)
    }

    /// The number of this key, which is entered as the last one where it is new. Only a new key may be refused, and then
    /// the table stays.
    pub fn enter<C: Cells>(&mut self, key: &C) -> Result<u32, AllocError>
        requires wide { length (C.cells key.now) ≡ self.old.width }
        requires few { length self.old.keys < 2 ^ 32 - 1 }
        ensures number { IfOk result (λ number. number_of (C.cells key.now) self.new.keys ≡ Some number) }
        ensures keys { OnOk result (self.new.keys ≡ entered (C.cells key.now) self.old.keys) }
        ensures width { self.new.width ≡ self.old.width }
        ensures err { OnErr result (self.new ≡ self.old) }
        ensures new { OnErr result (number_of (C.cells key.now) self.old.keys ≡ None) }
    {
        self.numbers.enter(key)
    }

    /// The key with this number, lent.
    pub fn key(&self, number: u32) -> LentKey<'_, KeyTable>
        requires { number < length self.now.keys }
        ensures { result ≡ get_or self.now.keys number [] }
    {
        LentKey::new(self, number)
    }
}

impl Keys for KeyTable {
    ghost width = { λ t. t.width };

    ghost keys = { λ t. t.keys };

    fn width(&self) -> u32 {
        self.numbers.keys().width()
    }

    fn cell(&self, number: u32, at: u32) -> &Value {
        self.numbers.keys().cell(number, at)
    }
}
