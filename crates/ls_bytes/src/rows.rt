//! Lists of rows, each of which fewer than 2^32 are.
ghost use Rattle.std.specs.Prelude.{◌≡◌, ◌<◌, ◌++◌, ◌∷◌, ◌↔◌, [], length, OnOk, OnErr, IsSome, MatchResult, slice_get};
ghost use Rattle.std.specs.Option.{option_copied};

use crate::memory::Memory;
use crate::name::Name;
use std::alloc::{AllocError, Global};
use std::marker::Model;

/// A list of rows. It keeps the allocator that it was made with. A place in it, from 0, and its
/// length are numbers of 32 bits.
#[derive(Drop)]
pub struct Rows<T> {
    items: Vec<T>,
}

impl<T> Model for Rows<T> {
    ghost use Rattle.std.specs.Prelude.{◌<◌, ◌^◌, List, length};

    ghost Value = { List T };

    ghost view = { λ r. r.items.items };

    ghost invariant = { λ r. length r.items.items < 2 ^ 32 };
}

/// The rows behind the first, which was taken off. There is a place to put it back.
#[derive(Drop)]
pub struct RowsBehind<T> {
    items: Vec<T>,
}

impl<T> Model for RowsBehind<T> {
    ghost use Rattle.std.specs.Prelude.{◌<◌, ◌+◌, ◌^◌, List, length, vec_len, vec_capacity};

    ghost Value = { List T };

    ghost view = { λ r. r.items.items };

    ghost invariant = { λ r. (length r.items.items + 1 < 2 ^ 32)
        × (vec_len r.items < vec_capacity r.items) };
}

/// A list of names.
pub type NameList = Rows<Name>;

/// A list of users' numbers.
pub type UserList = Rows<u32>;

/// A list of numbers of Weaver slots.
pub type SlotList = Rows<u32>;

/// A list of ids.
pub type IdList = Rows<u64>;

impl<T> Rows<T> {
    /// A list without rows.
    pub fn new(alloc: Global) -> Rows<T>
        ensures none { result ≡ [] }
    {
        Rows {
            items: Vec::new(alloc),
        }
    }

    /// The allocator that the list was made with, for a list that has none of its own yet.
    pub fn allocator(&self) -> Global {
        *self.items.allocator()
    }

    /// How many rows there are.
    pub fn len(&self) -> u32
        ensures count { result ≡ length self.now }
    {
        self.items.len() as u32
    }

    /// The row at a place, and None exactly past the end.
    pub fn get(&self, at: u32) -> Option<&T>
        ensures row { option_copied result ≡ slice_get self.now at }
        ensures within { IsSome result ↔ (at < length self.now) }
    {
        self.items.get(at as usize)
    }

    /// The rows, to look at.
    pub fn as_slice(&self) -> &[T]
        ensures same { result.now ≡ self.now }
    {
        &self.items
    }

    /// Adds a row at the end. Without memory for it the list is as it was.
    pub fn push(&mut self, row: T) -> Result<(), Memory>
    where
        T: Drop,
        ensures put { OnOk result (self.new ≡ self.old ++ row ∷ []) }
        ensures kept { OnErr result (self.new ≡ self.old) }
    {
        if self.items.len() >= u32::MAX as usize {
            return Err(Memory);
        }
        self.items.push(row).map_err(AllocError::from)?;
        Ok(())
    }

    /// Takes the first row off. An empty list comes back as it is.
    pub fn take_first(self) -> Result<(T, RowsBehind<T>), Rows<T>>
        ensures taken { MatchResult result (λ some. self ≡ some.0 ∷ some.1)
            (λ none. (self ≡ []) × (none ≡ [])) }
    {
        let Rows { mut items } = self;
        if items.is_empty() {
            return Err(Rows { items });
        }
        let first = items.remove(0);
        Ok((first, RowsBehind { items }))
    }
}

impl<T> RowsBehind<T> {
    /// The list without the row that was taken off.
    pub fn without_first(self) -> Rows<T>
        ensures same { result ≡ self }
    {
        let RowsBehind { items } = self;
        Rows { items }
    }

    /// The list with a row at its front, in the place of the one that was taken off. It takes no
    /// memory.
    pub fn put_back(self, row: T) -> Rows<T>
    where
        T: Drop,
        ensures first { result ≡ row ∷ self }
    {
        let RowsBehind { mut items } = self;
        match items.insert(0, row) {
            Ok(()) => Rows { items },
            Err(_) => unreachable!(),
        }
    }
}
