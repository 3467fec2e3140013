//! The numbers of keys that something else keeps.
ghost use Rattle.std.specs.Prelude.{◌≡◌, ◌≢◌, ◌-◌, ◌<◌, ◌^◌, [], length, AllPairs, is_some, if◌then◌else◌, None, Some, IfOk, OnOk, OnErr};
ghost use Rattle.pm_keys.specs.Numbers.{number_of};
ghost use Rattle.pm_keys.specs.Hash.{hash_of};
ghost use Rattle.pm_keys.specs.Chains.{link_number};

use crate::hash::hash_of;
use crate::keys::{Keep, Keys, LentKey, same_values};
use indexmap::IndexMap;
use pm_values::Cells;
use std::alloc::{AllocError, Global};
use std::marker::Model;

/// No number: the end of the keys with one hash.
const NONE: u32 = u32::MAX;

/// Different keys of one width that are kept by `L`, with their numbers.
#[derive(Drop)]
pub struct KeyNumbers<L: Keys> {
    keys: L,
    last: IndexMap<u64, u32>,
    links: Vec<u32>,
}

impl<L: Keys> Model for KeyNumbers<L> {
    ghost use Rattle.std.specs.Prelude.{nat_eq};
    ghost use Rattle.indexmap.specs.IndexMap.{get};
    ghost use Rattle.pm_keys.specs.Chains.{IsChained};

    ghost Value = { L };

    ghost coded = { L.code };

    ghost view = { λ n. n.keys };

    ghost invariant = { λ n. IsChained (L.keys n.keys) (get nat_eq n.last) n.links.items };
}

impl<L: Keys> KeyNumbers<L> {
    /// The numbers of no keys, which take no memory.
    pub fn new(alloc: Global, keys: L) -> KeyNumbers<L>
        requires { L.keys keys ≡ [] }
        ensures { result ≡ keys }
    {
        KeyNumbers {
            keys,
            last: IndexMap::new(alloc),
            links: Vec::new(alloc),
        }
    }

    /// The keys.
    pub fn keys(&self) -> &L
        ensures { result.now ≡ self.now }
    {
        &self.keys
    }

    /// The number of keys.
    pub fn len(&self) -> u32
        ensures value { result ≡ length (L.keys self.now) }
        ensures different { AllPairs (λ a b. a ≢ b) (L.keys self.now) }
    {
        self.links.len() as u32
    }

    /// The number of this key, None where it is not there.
    pub fn find<C: Cells>(&self, key: &C) -> Option<u32>
        requires { length (C.cells key.now) ≡ L.width self.now }
        ensures { result ≡ number_of (C.cells key.now) (L.keys self.now) }
    {
        let _width = self.keys.width();
        self.look_up(key, hash_of(key))
    }

    fn look_up<C: Cells>(&self, key: &C, hash: u64) -> Option<u32>
        requires wide { length (C.cells key.now) ≡ L.width self.now }
        requires hash { hash ≡ hash_of (C.cells key.now) }
        ensures { result ≡ number_of (C.cells key.now) (L.keys self.now) }
    {
        let _width = self.keys.width();
        let mut next = self.last.get(&hash).copied();
        while let Some(number) = next {
            if same_values(key, &LentKey::new(&self.keys, number)) {
                return Some(number);
            }
            next = number_in(self.links[number as usize]);
        }
        None
    }

    /// The number of this key, which is kept as the last one where it is new. Only a new key may be refused, and then the
    /// keys stay.
    pub fn enter<C: Cells>(&mut self, key: &C) -> Result<u32, AllocError>
    where
        L: Keep<C>,
        requires wide { length (C.cells key.now) ≡ L.width self.old }
        requires few { length (L.keys self.old) < 2 ^ 32 - 1 }
        requires kept { L.can_keep self.old key.now }
        ensures number { IfOk result (λ number. number_of (C.cells key.now) (L.keys self.new) ≡ Some number) }
        ensures keys { OnOk result (self.new ≡ (if is_some (number_of (C.cells key.now) (L.keys self.old)) then self.old else L.with_key self.old key.now)) }
        ensures err { OnErr result (self.new ≡ self.old) }
        ensures new { OnErr result (number_of (C.cells key.now) (L.keys self.old) ≡ None) }
    {
        let _width = self.keys.width();
        let hash = hash_of(key);
        if let Some(number) = self.look_up(key, hash) {
            return Ok(number);
        }
        self.last.reserve(1)?;
        self.links.reserve(1)?;
        self.keys.keep(key)?;
        let number = self.links.len() as u32;
        let before = self.last.insert(hash, number).unwrap();
        self.links.push(before.unwrap_or(NONE)).unwrap();
        Ok(number)
    }
}

/// The number of a link.
fn number_in(link: u32) -> Option<u32>
    ensures { result ≡ link_number link }
{
    if link == NONE { None } else { Some(link) }
}
