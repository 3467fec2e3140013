//! The one list type of all crates.
ghost use Rattle.std.specs.Prelude.{◌≡◌, ◌==◌, ◌<◌, [], ◌∷◌, ◌++◌, length, slice_get, Some, IfOk, OnOk, OnErr};

use crate::text::Txt;
use std::alloc::{AllocError, Global};
use std::marker::Model;

/// A growing list, which contracts see as the list of its items.
#[derive(Debug, Drop)]
pub struct Items<T> {
    items: Vec<T>,
}

/// A list of bytes.
pub type Bytes = Items<u8>;

/// A list of column numbers, from 0.
pub type Columns = Items<u32>;

/// A list of names.
pub type Names = Items<Txt>;

impl<T> Model for Items<T> {
    ghost use Rattle.std.specs.Prelude.{List};
    ghost use Rattle.std.specs.Coded.{coded_list};

    ghost Value = { List T };

    ghost coded = { coded_list T.code };

    ghost view = { λ l. l.items.items };
}

impl<T> Items<T> {
    /// The empty list, which takes no memory.
    pub fn new(alloc: Global) -> Self
        ensures { result ≡ [] }
    {
        Items {
            items: Vec::new(alloc),
        }
    }

    /// The list of a vector's items, in order.
    pub fn from_vec(items: Vec<T>) -> Self
        ensures { result ≡ items.items }
    {
        Items { items }
    }

    /// The items, in order, as a vector.
    pub fn into_vec(self) -> Vec<T>
        ensures { result.items ≡ self }
    {
        self.items
    }

    /// The number of items.
    pub fn len(&self) -> usize
        ensures { result ≡ length self.now }
    {
        self.items.len()
    }

    /// Whether there is no item.
    pub fn is_empty(&self) -> bool
        ensures { result ≡ (length self.now == 0) }
    {
        self.items.is_empty()
    }

    /// The item at this position, from 0.
    pub fn at(&self, i: usize) -> &T
        requires { i < length self.now }
        ensures { slice_get self.now i ≡ Some result.now }
    {
        &self.items[i]
    }

    /// The items, in order.
    pub fn as_slice(&self) -> &[T]
        ensures { result.now ≡ self.now }
    {
        self.items.as_slice()
    }

    /// Puts an item at the end. A refused one is dropped, and the list stays.
    pub fn push(&mut self, item: T) -> Result<(), AllocError>
    where
        T: Drop,
        ensures ok { OnOk result (self.new ≡ self.old ++ item ∷ []) }
        ensures err { OnErr result (self.new ≡ self.old) }
    {
        self.items.push(item)?;
        Ok(())
    }

    /// Moves all items of `more` to the end, in order. A refusal leaves both lists.
    pub fn append(&mut self, more: &mut Self) -> Result<(), AllocError>
        ensures ok { OnOk result (self.new ≡ self.old ++ more.old) }
        ensures emptied { OnOk result (more.new ≡ []) }
        ensures err { OnErr result (self.new ≡ self.old) }
        ensures kept { OnErr result (more.new ≡ more.old) }
    {
        self.items.append(&mut more.items)?;
        Ok(())
    }
}

impl<T: Copy> Items<T> {
    /// A list of these items.
    pub fn from_slice(alloc: Global, items: &[T]) -> Result<Self, AllocError>
        ensures { IfOk result (λ list. list ≡ items.now) }
    {
        Ok(Items {
            items: Vec::from_slice(alloc, items)?,
        })
    }
}
