//! Rows in order, which come and go at any place. The lists of `ls_bytes` only grow.
ghost use Rattle.std.specs.Prelude.{◌≡◌, ◌≤◌, ◌++◌, ◌∷◌, [], length, OnOk, OnErr};
ghost use Rattle.std.specs.List.{insert};

use ls_bytes::Memory;
use std::alloc::{AllocError, Global};
use std::marker::Model;

/// Rows in order.
#[derive(Drop)]
pub struct Table<T> {
    pub(crate) items: Vec<T>,
}

impl<T> Model for Table<T> {
    ghost use Rattle.std.specs.Prelude.{List};

    ghost Value = { List T };

    ghost view = { λ t. t.items.items };
}

impl<T> Table<T> {
    /// A table without rows.
    pub fn new(alloc: Global) -> Table<T>
        ensures none { result ≡ [] }
    {
        Table {
            items: Vec::new(alloc),
        }
    }

    /// The rows, to look at.
    pub fn as_slice(&self) -> &[T]
        ensures same { result.now ≡ self.now }
    {
        &self.items
    }
}

impl<T: Drop> Table<T> {
    /// Adds a row at the end. Without memory for it the table is as it was.
    pub fn push(&mut self, row: T) -> Result<(), Memory>
        ensures put { OnOk result (self.new ≡ self.old ++ row ∷ []) }
        ensures kept { OnErr result (self.new ≡ self.old) }
    {
        self.items.push(row).map_err(AllocError::from)?;
        Ok(())
    }

    /// Puts a row in at a place.
    pub(crate) fn insert(&mut self, at: usize, row: T) -> Result<(), Memory>
        requires { at ≤ length self.old }
        ensures put { OnOk result (self.new ≡ insert self.old at row) }
    {
        match self.items.insert(at, row) {
            Ok(()) => Ok(()),
            Err(_) => Err(Memory),
        }
    }

    /// Puts rows behind those that are there.
    pub(crate) fn append(&mut self, mut rows: Table<T>) -> Result<(), Memory>
        ensures put { OnOk result (self.new ≡ self.old ++ rows) }
    {
        self.items
            .append(&mut rows.items)
            .map_err(AllocError::from)?;
        Ok(())
    }
}
